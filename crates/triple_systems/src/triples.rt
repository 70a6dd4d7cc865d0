// Triples of points in groups of `n` points, appended to a block list.
ghost use Rattle.std.specs.Prelude.{◌≡◌, ◌+◌, ◌*◌, ◌^◌, ◌<◌, ◌≤◌, ◌++◌, ◌∷◌, [], OnOk};
ghost use Rattle.design_base.specs.Arrays.{place};
ghost use Rattle.incidence.specs.Packed.{size_of};
ghost use Rattle.triple_systems.specs.Squares.{HasOrder, product_of};
ghost use Rattle.triple_systems.specs.Double.{double_columns, six_point_blocks};
ghost use Rattle.triple_systems.specs.Triples.{columns, infinite_triples, infinite_triples_of, levels, partners, triple, triples_above, triples_with};

use crate::squares::{Square, product};
use design_base::{Memory, PACKED_MAX, POINTS_MAX};
use incidence::Rows;

// Which pairs of numbers triples stand above.
#[derive(Clone, Copy)]
pub(crate) enum Pairs {
    // Each two numbers once, the smaller one first.
    Unordered,
    // Each two numbers in both orders.
    Ordered,
}

// Point `x` of group `i`.
#[tactic(auto, unfolding(design_base::specs::Arrays::place))]
fn point(n: u16, i: u16, x: u16) -> u16
    requires { i * n + x < 2 ^ 16 }
    ensures { result ≡ place n i x }
{
    i * n + x
}

// Appends the columns of the numbers below `m`.
#[tactic(auto, using(crate::proofs::Steps::steps))]
pub(crate) fn push_columns(rows: &mut Rows, n: u16, m: u16) -> Result<(), Memory>
    requires points { n ≤ POINTS_MAX }
    requires few { m ≤ n }
    requires room { size_of rows.old + 4 * m < PACKED_MAX }
    ensures ok { OnOk result (rows.new ≡ rows.old ++ columns n m) }
    ensures size { OnOk result (size_of rows.new ≡ size_of rows.old + 4 * m) }
{
    for x in 0..m {
        rows.push_row(&[point(n, 0, x), point(n, 1, x), point(n, 2, x)])?;
    }
    Ok(())
}

// Appends the triple above `x` and `y`: the points of group `i`, and their product in group `j`.
fn push_triple(
    rows: &mut Rows,
    square: Square,
    n: u16,
    i: u16,
    j: u16,
    x: u16,
    y: u16,
) -> Result<(), Memory>
    requires order { HasOrder square n }
    requires points { n ≤ POINTS_MAX }
    requires groups { (i < 3) × (j < 3) }
    requires within { (x < n) × (y < n) }
    requires room { size_of rows.old + 4 < PACKED_MAX }
    ensures ok { OnOk result (rows.new ≡ rows.old ++ triple n i j x y (product_of square n x y) ∷ []) }
    ensures size { OnOk result (size_of rows.new ≡ size_of rows.old + 4) }
{
    let z = product(square, n, x, y);
    rows.push_row(&[point(n, i, x), point(n, i, y), point(n, j, z)])
}

// The numbers `x` beside `y` are those below this.
fn partners_end(pairs: Pairs, n: u16, y: u16) -> u16
    ensures { result ≡ partners pairs n y }
{
    match pairs {
        Pairs::Unordered => y,
        Pairs::Ordered => n,
    }
}

// Appends the triples above the pairs of `y` and each other number of group `i` below `end`, with the products in group `j`.
#[tactic(auto, using(crate::proofs::Steps::steps))]
fn push_triples_with(
    rows: &mut Rows,
    square: Square,
    n: u16,
    i: u16,
    j: u16,
    y: u16,
    end: u16,
) -> Result<(), Memory>
    requires order { HasOrder square n }
    requires points { n ≤ POINTS_MAX }
    requires groups { (i < 3) × (j < 3) }
    requires within { (y < n) × (end ≤ n) }
    requires room { size_of rows.old + 4 * n < PACKED_MAX }
    ensures ok { OnOk result (rows.new ≡ rows.old ++ triples_with n (product_of square n) i j y end) }
    ensures size { OnOk result (size_of rows.new ≤ size_of rows.old + 4 * n) }
{
    for x in 0..end {
        if x != y {
            push_triple(rows, square, n, i, j, x, y)?;
        }
    }
    Ok(())
}

// Appends the triples above the pairs of group `i`, with the products in group `j`.
#[tactic(auto, using(crate::proofs::Steps::steps))]
pub(crate) fn push_triples_above(
    rows: &mut Rows,
    pairs: Pairs,
    square: Square,
    n: u16,
    i: u16,
    j: u16,
) -> Result<(), Memory>
    requires order { HasOrder square n }
    requires points { n ≤ POINTS_MAX }
    requires groups { (i < 3) × (j < 3) }
    requires room { size_of rows.old + 4 * (n * n) < PACKED_MAX }
    ensures ok { OnOk result (rows.new ≡ rows.old ++ triples_above pairs n (product_of square n) i j n) }
    ensures size { OnOk result (size_of rows.new ≤ size_of rows.old + 4 * (n * n)) }
{
    for y in 0..n {
        let end = partners_end(pairs, n, y);
        push_triples_with(rows, square, n, i, j, y, end)?;
    }
    Ok(())
}

// Appends the triples above the pairs of each of three groups, with the products in the next group.
#[tactic(auto, using(crate::proofs::Steps::steps))]
pub(crate) fn push_levels(
    rows: &mut Rows,
    pairs: Pairs,
    square: Square,
    n: u16,
) -> Result<(), Memory>
    requires order { HasOrder square n }
    requires points { n ≤ POINTS_MAX }
    requires room { size_of rows.old + 12 * (n * n) < PACKED_MAX }
    ensures { OnOk result (rows.new ≡ rows.old ++ levels pairs n (product_of square n) 3) }
{
    for i in 0..3 {
        push_triples_above(rows, pairs, square, n, i, (i + 1) % 3)?;
    }
    Ok(())
}

// Appends the triples with the infinite point and group `i`, for the numbers below `m`.
#[tactic(auto, using(crate::proofs::Steps::steps))]
fn push_infinite_triples_of(rows: &mut Rows, n: u16, s: u16, i: u16, m: u16) -> Result<(), Memory>
    requires points { n ≤ POINTS_MAX }
    requires groups { i < 3 }
    requires few { m + s ≤ n }
    requires room { size_of rows.old + 4 * m < PACKED_MAX }
    ensures ok { OnOk result (rows.new ≡ rows.old ++ infinite_triples_of n s i m) }
    ensures size { OnOk result (size_of rows.new ≡ size_of rows.old + 4 * m) }
{
    for x in 0..m {
        rows.push_row(&[point(n, 3, 0), point(n, i, x + s), point(n, (i + 1) % 3, x)])?;
    }
    Ok(())
}

// Appends the triples with the infinite point and each of three groups.
#[tactic(auto, using(crate::proofs::Steps::steps))]
pub(crate) fn push_infinite_triples(rows: &mut Rows, n: u16, s: u16, m: u16) -> Result<(), Memory>
    requires points { n ≤ POINTS_MAX }
    requires few { m + s ≤ n }
    requires room { size_of rows.old + 12 * m < PACKED_MAX }
    ensures ok { OnOk result (rows.new ≡ rows.old ++ infinite_triples n s m 3) }
    ensures size { OnOk result (size_of rows.new ≡ size_of rows.old + 12 * m) }
{
    for i in 0..3 {
        push_infinite_triples_of(rows, n, s, i, m)?;
    }
    Ok(())
}

// Appends the columns of three groups, each twice where `rest` is 0; else the columns and the triples with the infinite point.
#[tactic(auto, using(crate::proofs::Steps::steps), unfolding(crate::specs::Double::double_columns))]
pub(crate) fn push_double_columns(rows: &mut Rows, n: u16, rest: u16) -> Result<(), Memory>
    requires points { n ≤ POINTS_MAX }
    requires room { size_of rows.old + 16 * n < PACKED_MAX }
    ensures ok { OnOk result (rows.new ≡ rows.old ++ double_columns n rest) }
    ensures size { OnOk result (size_of rows.new ≤ size_of rows.old + 16 * n) }
{
    push_columns(rows, n, n)?;
    if rest == 0 {
        return push_columns(rows, n, n);
    }
    push_infinite_triples(rows, n, 0, n)
}

// Appends the ten blocks on six points.
#[tactic(auto, using(crate::proofs::Steps::steps))]
pub(crate) fn push_six_points(rows: &mut Rows) -> Result<(), Memory>
    requires { size_of rows.old + 40 < PACKED_MAX }
    ensures { OnOk result (rows.new ≡ rows.old ++ six_point_blocks 5) }
{
    for c in 0..5 {
        rows.push_row(&[5, c, (c + 2) % 5])?;
        rows.push_row(&[c, (c + 1) % 5, (c + 2) % 5])?;
    }
    Ok(())
}
