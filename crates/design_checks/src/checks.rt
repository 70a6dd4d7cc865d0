//! The checks of block lists.
ghost use Rattle.std.specs.Prelude.{◌≡◌, ◌↔◌, ◌+◌, ◌*◌, ◌<◌, ◌≤◌, true};
ghost use Rattle.design_base.specs.Blocks.{IsBibd, IsGdd, IsPbd, IsTd};
ghost use Rattle.design_base.specs.Limits.{in_bounds};
ghost use Rattle.design_base.specs.Meets.{GroupAt, Meets, group_add};
ghost use Rattle.design_base.specs.declared.limits.TheConstants.{PACKED_MAX, POINTS_MAX};
ghost use Rattle.design_base.specs.declared.query.Query.TheVariants.{Bibd, Df, Gdd, Pbd, Td};
ghost use Rattle.design_checks.specs.Counts.{IsWanted, want};
ghost use Rattle.design_checks.specs.Findings.{design_finding, family_finding, finding as finding_of};
ghost use Rattle.design_checks.specs.declared.scratch.TheConstants.{COUNTS, WIDTH};
ghost use Rattle.design_checks.specs.declared.transversal.TheConstants.{WORDS};

use crate::blocks::first_bad_block;
use crate::differences::first_bad_difference;
use crate::finding::{Finding, Wanted};
use crate::pairs::first_bad_pair;
use crate::scratch::Scratch;
use crate::transversal::is_td;
use design_base::Group;
use field_tables::Fields;
use incidence::Rows;

// That the block at place `i`, from 0, is bad.
fn bad_block(i: usize) -> Finding
    requires { i < PACKED_MAX }
    ensures { result ≡ Finding.BadBlock (i + 1) }
{
    Finding::BadBlock {
        index: i as u32 + 1,
    }
}

// Checks blocks of `least` to `most` of v points.
fn check_design(
    rows: &Rows,
    v: u16,
    least: u16,
    most: u16,
    wanted: Wanted,
    scratch: &mut Scratch,
) -> Finding
    requires points { v ≤ WIDTH }
    requires wanted { IsWanted wanted }
    ensures { result ≡ design_finding rows.now v least most (want wanted) }
{
    if let Some(i) = first_bad_block(rows, v, least, most) {
        return bad_block(i);
    }
    match first_bad_pair(rows, wanted, v, &mut scratch.counts) {
        Some(pair) => Finding::BadPair {
            x: pair.x,
            y: pair.y,
            count: pair.count,
        },
        None => Finding::Valid,
    }
}

// Checks base blocks of k elements of a group of v.
fn check_family(
    rows: &Rows,
    fields: &Fields,
    group: Group,
    v: u16,
    k: u16,
    l: u16,
    scratch: &mut Scratch,
) -> Finding
    requires group { GroupAt group v }
    requires points { (0 < v) × (v ≤ POINTS_MAX) }
    ensures { result ≡ family_finding rows.now (group_add group v) v k l }
{
    if let Some(i) = first_bad_block(rows, v, k, k) {
        return bad_block(i);
    }
    match first_bad_difference(rows, fields, group, v, l, &mut scratch.counts) {
        Some(pair) => Finding::BadPair {
            x: pair.x,
            y: pair.y,
            count: pair.count,
        },
        None => Finding::Valid,
    }
}

/// Checks a block list against the definition of a balanced incomplete block design: v points, blocks of k points, and any
/// two points together in l blocks. v is at most `POINTS_MAX`, k from 2 to v, and l from 1 to `COVER_MAX`. No memory is taken.
#[tactic(auto, unfolding(crate::specs::Findings::finding, design_base::specs::Limits::in_bounds))]
pub fn check_bibd(rows: &Rows, v: u16, k: u16, l: u16, scratch: &mut Scratch) -> Finding
    requires { in_bounds (Bibd v k l) ≡ true }
    ensures finding { result ≡ finding_of (Bibd v k l) rows.now }
    ensures valid { (result ≡ Finding.Valid) ↔ IsBibd rows.now v k l }
{
    check_design(rows, v, k, k, Wanted::Everywhere(l), scratch)
}

/// Checks a block list against the definition of a transversal design: k groups of n points, blocks of k points, two points
/// of different groups together in one block and two points of one group in none. k is from 2 to `TD_K_MAX`, and n from 1 to
/// `TD_N_MAX`. No memory is taken.
#[tactic(auto, unfolding(crate::specs::Findings::finding, design_base::specs::Limits::in_bounds))]
pub fn check_td(rows: &Rows, k: u16, n: u16, scratch: &mut Scratch) -> Finding
    requires { in_bounds (Td k n) ≡ true }
    ensures finding { result ≡ finding_of (Td k n) rows.now }
    ensures valid { (result ≡ Finding.Valid) ↔ IsTd rows.now k n }
{
    if is_td(rows, k, n, &mut scratch.bits) {
        return Finding::Valid;
    }
    check_design(rows, n * k, k, k, Wanted::Across(n), scratch)
}

/// Checks a block list against the definition of a group divisible design: u groups of g points, blocks of k points, two
/// points of different groups together in one block and two points of one group in none. k is from 2 to `GDD_K_MAX`, g at least 1,
/// u at least 2, and g * u at most `POINTS_MAX`. No memory is taken.
#[tactic(auto, unfolding(crate::specs::Findings::finding, design_base::specs::Limits::in_bounds))]
pub fn check_gdd(rows: &Rows, k: u16, g: u16, u: u16, scratch: &mut Scratch) -> Finding
    requires { in_bounds (Gdd k g u) ≡ true }
    ensures finding { result ≡ finding_of (Gdd k g u) rows.now }
    ensures valid { (result ≡ Finding.Valid) ↔ IsGdd rows.now k g u }
{
    check_design(rows, g * u, k, k, Wanted::Across(g), scratch)
}

/// Checks a block list against the definition of a pairwise balanced design: v points, blocks of s or s + 1 points, and any
/// two points together in one block. v is from 2 to `POINTS_MAX`, and s from 2 to `PBD_S_MAX`. No memory is taken.
#[tactic(auto, unfolding(crate::specs::Findings::finding, design_base::specs::Limits::in_bounds))]
pub fn check_pbd(rows: &Rows, v: u16, s: u16, scratch: &mut Scratch) -> Finding
    requires { in_bounds (Pbd v s) ≡ true }
    ensures finding { result ≡ finding_of (Pbd v s) rows.now }
    ensures valid { (result ≡ Finding.Valid) ↔ IsPbd rows.now v s }
{
    check_design(rows, v, s, s + 1, Wanted::Everywhere(1), scratch)
}

/// Checks a list of base blocks against the definition of a difference family: blocks of k elements of a group of v, and
/// each element but 0 is the difference of l ordered pairs of elements of one block. A bad pair is 0 and the first element
/// that is another number of differences. v is at most `POINTS_MAX`, and a listed order for the group of a field; k is from 2 to v,
/// and l from 1 to `COVER_MAX`. No memory is taken.
pub fn check_df(
    rows: &Rows,
    fields: &Fields,
    group: Group,
    v: u16,
    k: u16,
    l: u16,
    scratch: &mut Scratch,
) -> Finding
    requires { in_bounds (Df group v k l) ≡ true }
    ensures finding { result ≡ finding_of (Df group v k l) rows.now }
    ensures valid { (result ≡ Finding.Valid) ↔ Meets (Df group v k l) rows.now }
{
    check_family(rows, fields, group, v, k, l, scratch)
}
