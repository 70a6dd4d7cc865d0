//! The first two points that stand together in another number of blocks than they are to.
ghost use Rattle.std.specs.Prelude.{◌≡◌, ◌==◌, ◌+◌, ◌*◌, ◌-◌, ◌/◌, ◌^◌, ◌<◌, ◌≤◌, ◌↔◌, All, IsTrue, MatchOption, cond, length, nat_lt, slice_index, vec_capacity, ℕ};
ghost use Rattle.design_base.specs.Blocks.{cover};
ghost use Rattle.design_checks.specs.Counts.{Agree, IsFirstBad, IsRowOf, IsWanted, IsFirstDifference, cell, want};
ghost use Rattle.design_checks.specs.declared.scratch.TheConstants.{COUNTS, WIDTH};

use crate::counts::count_rows;
use crate::finding::{Pair, Wanted};
use crate::scratch::CHUNK;
use incidence::Rows;

// The point with which those begin that x is to meet, and how often it is to meet each of them. It is to meet none of the
// points between.
fn partners(wanted: Wanted, x: u16) -> (u16, u32)
    requires wanted { IsWanted wanted }
    requires point { x < WIDTH }
    ensures { (y : ℕ) → x < y → want wanted x y ≡ cond (nat_lt y result.0) 0 result.1 }
{
    match wanted {
        Wanted::Everywhere(l) => (x, u32::from(l)),
        Wanted::Across(g) => ((x / g + 1) * g, 1),
    }
}

// How often x is to meet y, where it meets none before `end` and each of the others so often.
fn times_wanted(end: u16, times: u32, y: u16) -> u32
    ensures { result ≡ cond (nat_lt y end) 0 times }
{
    if y < end { 0 } else { times }
}

// Whether the counts at the places from `from` on, below `to`, are all the one wanted. It looks at each of them in turn
// and never stops, so that several are compared at a time.
fn are_all(counts: &[u32], from: usize, to: usize, wanted: u32) -> bool
    requires within { (from ≤ to) × (to ≤ length counts.now) }
    requires few { to < 2 ^ 32 }
    ensures { IsTrue result ↔ Agree (slice_index counts.now) (λ i. wanted) from to }
{
    let mut others = 0u32;
    for i in from..to {
        if counts[i] != wanted {
            others += 1;
        }
    }
    others == 0
}

// The first point y of v above x whose count with x is not the one wanted, in the line of the table that begins at `base`.
fn first_bad_partner(counts: &[u32], base: usize, wanted: Wanted, v: u16, x: u16) -> Option<u16>
    requires wanted { IsWanted wanted }
    requires points { (x < v) × (v ≤ WIDTH) }
    requires line { (base + v ≤ length counts.now) × (length counts.now < 2 ^ 32) }
    ensures { MatchOption result (Agree (λ y. slice_index counts.now (base + y)) (want wanted x) (x + 1) v) (λ y. IsFirstDifference (λ y. slice_index counts.now (base + y)) (want wanted x) (x + 1) v y) }
{
    let (end, times) = partners(wanted, x);
    let next = x as usize + 1;
    let middle = next.max(end as usize).min(v as usize);
    if are_all(counts, base + next, base + middle, 0)
        && are_all(counts, base + middle, base + v as usize, times)
    {
        return None;
    }
    for y in x + 1..v {
        if counts[base + y as usize] != times_wanted(end, times, y) {
            return Some(y);
        }
    }
    None
}

// The first pair x < y of v points, x from `low` on and below `high`, whose count is not the one wanted.
fn first_bad_count(counts: &[u32], wanted: Wanted, v: u16, low: u16, high: u16) -> Option<Pair>
    requires wanted { IsWanted wanted }
    requires points { (low ≤ high) × (high ≤ v) × (v ≤ WIDTH) }
    requires lines { ((high - low) * v ≤ length counts.now) × (length counts.now < 2 ^ 32) }
    ensures { MatchOption result ((x : ℕ) → low ≤ x → x < high → Agree (λ y. slice_index counts.now (cell v low x y)) (want wanted x) (x + 1) v) (λ p. IsFirstBad (λ x y. slice_index counts.now (cell v low x y)) (want wanted) v low high p) }
{
    for x in low..high {
        let base = (x - low) as usize * v as usize;
        if let Some(y) = first_bad_partner(counts, base, wanted, v, x) {
            let count = counts[base + y as usize];
            return Some(Pair { x, y, count });
        }
    }
    None
}

/// The first pair x < y of v points, in lexicographic order, that does not stand together as often as it is to, from the
/// counts of one chunk of points after another.
pub(crate) fn first_bad_pair(
    rows: &Rows,
    wanted: Wanted,
    v: u16,
    counts: &mut Vec<u32>,
) -> Option<Pair>
    requires wanted { IsWanted wanted }
    requires rows { All (IsRowOf v) rows.now }
    requires points { v ≤ WIDTH }
    requires room { COUNTS ≤ vec_capacity counts.old }
    ensures room { vec_capacity counts.old ≤ vec_capacity counts.new }
    ensures pair { MatchOption result ((x : ℕ) → x < v → Agree (cover rows.now x) (want wanted x) (x + 1) v) (λ p. IsFirstBad (cover rows.now) (want wanted) v 0 v p) }
{
    let mut low = 0;
    while low < v {
        let high = if v - low < CHUNK { v } else { low + CHUNK };
        count_rows(rows, v, low, high, counts);
        if let Some(pair) = first_bad_count(counts, wanted, v, low, high) {
            return Some(pair);
        }
        low = high;
    }
    None
}
