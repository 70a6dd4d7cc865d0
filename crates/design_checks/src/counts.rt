//! A table of counts: in how many blocks each of some points and each greater point stand together. It has a line for each
//! of those points, with a count for each point of the design.
ghost use Rattle.std.specs.Prelude.{◌≡◌, ◌==◌, ◌+◌, ◌*◌, ◌-◌, ◌^◌, ◌<◌, ◌≤◌, ◌&&◌, [], All, count_by, length, slice_index, vec_capacity, ℕ};
ghost use Rattle.std.specs.List.Sorted.{IsStrictlyIncreasing};
ghost use Rattle.counting.specs.Sums.{one};
ghost use Rattle.design_base.specs.Blocks.{holds};
ghost use Rattle.design_base.specs.declared.limits.TheConstants.{PACKED_MAX};
ghost use Rattle.incidence.specs.Packed.{size_of};
ghost use Rattle.design_checks.specs.Counts.{Counts, IsRowOf, Pairwise, cell};

use incidence::Rows;

// Adds one at each of the points of the line that begins at `base`.
#[tactic(auto, using(crate::proofs::Counting::count_more))]
fn count_points(points: &[u16], base: usize, counts: &mut [u32])
    requires below { All (λ y. base + y < length counts.old) points.now }
    requires small { All (λ y. slice_index counts.old (base + y) + length points.now < 2 ^ 32) points.now }
    ensures { (p : ℕ) → slice_index counts.new p ≡ slice_index counts.old p + count_by (λ y. base + y == p) points.now }
{
    for y in points {
        counts[base + *y as usize] += 1;
    }
}

// The place of the first number of the row that is not below `low`.
fn first_from(row: &[u16], low: u16) -> usize
    requires { IsStrictlyIncreasing row.now }
    ensures within { result ≤ length row.now }
    ensures before { (i : ℕ) → i < result → slice_index row.now i < low }
    ensures after { (i : ℕ) → result ≤ i → i < length row.now → low ≤ slice_index row.now i }
{
    row.partition_point(|x| *x < low)
}

// Adds one for each two points x < y of v of the row where x is a point from `low` on, below `high`.
fn count_row(row: &[u16], v: u16, low: u16, high: u16, counts: &mut [u32])
    requires row { IsRowOf v row.now }
    requires lines { (low ≤ high) × ((high - low) * v ≤ length counts.old) }
    requires small { Pairwise v low high (λ x y. slice_index counts.old (cell v low x y) + length row.now < 2 ^ 32) }
    ensures { Pairwise v low high (λ x y. slice_index counts.new (cell v low x y) ≡ slice_index counts.old (cell v low x y) + one (holds x row.now && holds y row.now)) }
{
    for i in first_from(row, low)..row.len() {
        let x = row[i];
        if x >= high {
            return;
        }
        count_points(&row[i + 1..], (x - low) as usize * v as usize, counts);
    }
}

// Counts the rows in a table that has counted none.
fn count_each(rows: &Rows, v: u16, low: u16, high: u16, counts: &mut [u32])
    requires rows { All (IsRowOf v) rows.now }
    requires lines { (low ≤ high) × (length counts.old ≡ (high - low) * v) }
    requires none { Counts counts.old v low high [] }
    ensures counts { Counts counts.new v low high rows.now }
    ensures small { size_of rows.now < PACKED_MAX }
{
    for i in 0..rows.len() {
        count_row(rows.row(i), v, low, high, counts);
    }
}

/// Counts, for each point x of v from `low` on and below `high`, and each greater point y, the rows in which both stand. The
/// table has room for them.
pub(crate) fn count_rows(rows: &Rows, v: u16, low: u16, high: u16, counts: &mut Vec<u32>)
    requires rows { All (IsRowOf v) rows.now }
    requires lines { (low ≤ high) × ((high - low) * v ≤ vec_capacity counts.old) }
    ensures counts { Counts counts.new.items v low high rows.now }
    ensures lines { length counts.new.items ≡ (high - low) * v }
    ensures room { vec_capacity counts.old ≤ vec_capacity counts.new }
    ensures small { size_of rows.now < PACKED_MAX }
{
    counts.clear();
    counts
        .resize((high - low) as usize * v as usize, 0)
        .unwrap();
    count_each(rows, v, low, high, counts);
}
