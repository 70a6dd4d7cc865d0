//! The first element of a group that is the difference of another number of pairs than it is to be.
ghost use Rattle.std.specs.Prelude.{◌≡◌, ◌≢◌, ◌*◌, ◌<◌, ◌≤◌, All, List, MatchOption, length, vec_capacity, ℕ};
ghost use Rattle.counting.specs.Sums.{sum_below};
ghost use Rattle.design_base.specs.Blocks.{cover, differences};
ghost use Rattle.design_base.specs.Meets.{GroupAt, group_add};
ghost use Rattle.design_checks.specs.Counts.{Agree, Counts, IsFirstBad, IsRowOf};
ghost use Rattle.design_checks.specs.declared.scratch.TheConstants.{COUNTS};
ghost use Rattle.design_base.specs.declared.limits.TheConstants.{POINTS_MAX};

use crate::counts::count_rows;
use crate::finding::Pair;
use design_base::Group;
use field_tables::Fields;
use incidence::Rows;

// In how many rows the points x and y of v stand together, from the table of the rows' counts.
fn together(counts: &[u32], v: u16, x: u16, y: u16) -> u32
    requires apart { x ≢ y }
    requires points { (x < v) × (y < v) }
    requires lines { length counts.now ≡ v * v }
    ensures { (B : List (List ℕ)) → Counts counts.now v 0 v B → result ≡ cover B x y }
{
    if x < y {
        counts[x as usize * v as usize + y as usize]
    } else {
        counts[y as usize * v as usize + x as usize]
    }
}

// How often d is a difference: in how many rows x and x + d stand together, for all elements x of the group.
fn times_difference(counts: &[u32], fields: &Fields, group: Group, v: u16, d: u16) -> u64
    requires group { GroupAt group v }
    requires element { (0 < d) × (d < v) }
    requires lines { length counts.now ≡ v * v }
    ensures { (B : List (List ℕ)) → Counts counts.now v 0 v B → result ≡ sum_below v (λ x. cover B x (group_add group v x d)) }
{
    let mut sum = 0u64;
    for x in 0..v {
        sum += u64::from(together(counts, v, x, fields.group_add(group, v, x, d)));
    }
    sum
}

/// The first element but 0 of the group of v elements that is another number of differences than l, as a pair with 0.
pub(crate) fn first_bad_difference(
    rows: &Rows,
    fields: &Fields,
    group: Group,
    v: u16,
    l: u16,
    counts: &mut Vec<u32>,
) -> Option<Pair>
    requires group { GroupAt group v }
    requires rows { All (IsRowOf v) rows.now }
    requires points { (0 < v) × (v ≤ POINTS_MAX) }
    requires room { COUNTS ≤ vec_capacity counts.old }
    ensures room { vec_capacity counts.old ≤ vec_capacity counts.new }
    ensures pair { MatchOption result (Agree (differences (group_add group v) rows.now) (λ d. l) 1 v) (λ p. IsFirstBad (λ x d. differences (group_add group v) rows.now d) (λ x d. l) v 0 1 p) }
{
    count_rows(rows, v, 0, v, counts);
    for d in 1..v {
        let count = times_difference(counts, fields, group, v, d);
        if count != u64::from(l) {
            let count = count as u32;
            return Some(Pair { x: 0, y: d, count });
        }
    }
    None
}
