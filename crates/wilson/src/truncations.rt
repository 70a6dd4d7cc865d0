// Wilson's designs.
ghost use Rattle.std.specs.Prelude.{◌≡◌, ◌+◌, ◌*◌, ◌<◌, ◌≤◌, ◌++◌, All, IfOk, OnOk, length};
ghost use Rattle.design_base.specs.Arrays.{IsRow, blocks_of_rows, rows_of_blocks};
ghost use Rattle.design_base.specs.Blocks.{IsTd};
ghost use Rattle.design_base.specs.Canonical.{canonical};
ghost use Rattle.incidence.specs.Packed.{size_of};
ghost use Rattle.transversal.specs.Constructions.{raised};
ghost use Rattle.wilson.specs.Conditions.{CanTruncateOnce, CanTruncateTwice};
ghost use Rattle.wilson.specs.Truncations.{one_truncated_rows, two_truncated_rows, wilson_one_blocks, wilson_two_blocks};

use crate::filling::{OneTruncation, TwoTruncations, push_fills_one, push_fills_two};
use crate::holes::{holed_of_td, holed_twice_of_td};
use design_base::{Memory, PACKED_MAX, TD_K_MAX, TD_N_MAX};
use incidence::{Rows, array_of_td};
use std::alloc::Global;
use transversal::{push_raised, with_room};

// Appends the blocks of the rows of a transversal design with `k` groups of `h` points, with `c` added to each symbol.
fn push_raised_td(
    alloc: Global,
    rows: &mut Rows,
    k: u16,
    n: u16,
    c: u16,
    h: u16,
    td: &Rows,
) -> Result<(), Memory>
    requires two_groups { 2 ≤ k }
    requires groups { k ≤ TD_K_MAX }
    requires points { n ≤ TD_N_MAX }
    requires one_point { 1 ≤ h }
    requires raised_points { c + h ≤ n }
    requires design { IsTd td.now k h }
    requires room { size_of rows.old + (k + 1) * length (rows_of_blocks h td.now) < PACKED_MAX }
    ensures { OnOk result (rows.new ≡ rows.old ++ blocks_of_rows k n (raised c (rows_of_blocks h td.now))) }
{
    let array = array_of_td(alloc, k, h, td)?;
    push_raised(rows, k, n, c, h, &array)?;
    Ok(())
}

// The blocks of the rows in place of each row of the design `master` and of the rows of the design `rest` on the infinite
// points, in canonical form. `small` is an array, and `large` an array without a row.
fn assemble_one(
    alloc: Global,
    k: u16,
    cut: OneTruncation,
    master: &Rows,
    small: &Rows,
    large: &Rows,
    rest: &Rows,
) -> Result<Rows, Memory>
    requires two_groups { 2 ≤ k }
    requires groups { k + 1 ≤ TD_K_MAX }
    requires some_kept { 1 ≤ cut.u }
    requires kept { cut.u ≤ cut.t }
    requires points { cut.m * cut.t + cut.u ≤ TD_N_MAX }
    requires master { IsTd master.now (k + 1) cut.t }
    requires small { All (IsRow k cut.m) small.now }
    requires large { All (IsRow k (cut.m + 1)) large.now }
    requires rest { IsTd rest.now k cut.u }
    requires room { (k + 1) * length (one_truncated_rows k cut.m cut.t cut.u (rows_of_blocks cut.t master.now) small.now large.now (rows_of_blocks cut.u rest.now)) < PACKED_MAX }
    ensures { IfOk result (λ rows. rows ≡ canonical (blocks_of_rows k (cut.m * cut.t + cut.u) (one_truncated_rows k cut.m cut.t cut.u (rows_of_blocks cut.t master.now) small.now large.now (rows_of_blocks cut.u rest.now)))) }
{
    let n = cut.m * cut.t + cut.u;
    let master = array_of_td(alloc, k + 1, cut.t, master)?;
    let mut rows = with_room(alloc, k, n)?;
    push_fills_one(&mut rows, k, cut, small, large, &master)?;
    push_raised_td(alloc, &mut rows, k, n, cut.m * cut.t, cut.u, rest)?;
    let blocks = rows.canonical()?;
    Ok(blocks)
}

/// The transversal design of `k` groups of `m * t + u` points, made from a master of `k + 1` groups of `t` points, whose last
/// group is truncated to `u` points, and from designs of `k` groups of `m`, `m + 1` and `u` points: `small`, `large` and
/// `rest`.
///
/// `k` is at least 2 and below `TD_K_MAX`, `m` is at least 1, `u` from 1 to `t`, and `m * t + u` is at most `TD_N_MAX`. The
/// construction is that of R. M. Wilson, Concerning the number of mutually orthogonal Latin squares (1974). The answer is
/// `Memory` only for want of memory.
pub fn truncate_one(
    alloc: Global,
    k: u16,
    m: u16,
    t: u16,
    u: u16,
    master: &Rows,
    small: &Rows,
    large: &Rows,
    rest: &Rows,
) -> Result<Rows, Memory>
    requires { CanTruncateOnce k m t u master.now small.now large.now rest.now }
    ensures blocks { IfOk result (λ rows. rows ≡ canonical (wilson_one_blocks k m t u master.now small.now large.now rest.now)) }
    ensures design { IfOk result (λ rows. IsTd rows k (m * t + u)) }
{
    let small = array_of_td(alloc, k, m, small)?;
    let large = holed_of_td(alloc, k, m, large)?;
    let blocks = assemble_one(
        alloc,
        k,
        OneTruncation { m, t, u },
        master,
        &small,
        &large,
        rest,
    )?;
    Ok(blocks)
}

// The blocks of the rows in place of each row of the design `master` and of the rows of the designs `first` and `second` on
// the infinite points, in canonical form. `small` is an array, `large` an array without a row, and `larger` one without two.
fn assemble_two(
    alloc: Global,
    k: u16,
    cut: TwoTruncations,
    master: &Rows,
    small: &Rows,
    large: &Rows,
    larger: &Rows,
    first: &Rows,
    second: &Rows,
) -> Result<Rows, Memory>
    requires two_groups { 2 ≤ k }
    requires groups { k + 2 ≤ TD_K_MAX }
    requires first_some_kept { 1 ≤ cut.u }
    requires first_kept { cut.u ≤ cut.t }
    requires second_some_kept { 1 ≤ cut.w }
    requires points { cut.m * cut.t + cut.u + cut.w ≤ TD_N_MAX }
    requires master { IsTd master.now (k + 2) cut.t }
    requires small { All (IsRow k cut.m) small.now }
    requires large { All (IsRow k (cut.m + 1)) large.now }
    requires larger { All (IsRow k (cut.m + 2)) larger.now }
    requires first { IsTd first.now k cut.u }
    requires second { IsTd second.now k cut.w }
    requires room { (k + 1) * length (two_truncated_rows k cut.m cut.t cut.u cut.w (rows_of_blocks cut.t master.now) small.now large.now larger.now (rows_of_blocks cut.u first.now) (rows_of_blocks cut.w second.now)) < PACKED_MAX }
    ensures { IfOk result (λ rows. rows ≡ canonical (blocks_of_rows k (cut.m * cut.t + cut.u + cut.w) (two_truncated_rows k cut.m cut.t cut.u cut.w (rows_of_blocks cut.t master.now) small.now large.now larger.now (rows_of_blocks cut.u first.now) (rows_of_blocks cut.w second.now)))) }
{
    let n = cut.m * cut.t + cut.u + cut.w;
    let master = array_of_td(alloc, k + 2, cut.t, master)?;
    let mut rows = with_room(alloc, k, n)?;
    push_fills_two(&mut rows, k, cut, small, large, larger, &master)?;
    push_raised_td(alloc, &mut rows, k, n, cut.m * cut.t, cut.u, first)?;
    push_raised_td(alloc, &mut rows, k, n, cut.m * cut.t + cut.u, cut.w, second)?;
    let blocks = rows.canonical()?;
    Ok(blocks)
}

/// The transversal design of `k` groups of `m * t + u + w` points, made from a master of `k + 2` groups of `t` points, whose
/// last two groups are truncated to `u` and `w` points, and from designs of `k` groups of `m`, `m + 1`, `m + 2`, `u` and `w`
/// points: `small`, `large`, `larger`, `first_rest` and `second_rest`.
///
/// `k` is at least 2 and at most `m + 2`, `k + 2` is at most `TD_K_MAX`, `m` is at least 1, `u` and `w` are from 1 to `t`,
/// and `m * t + u + w` is at most `TD_N_MAX`. The construction is that of R. M. Wilson, Concerning the number of mutually
/// orthogonal Latin squares (1974). The answer is `Memory` only for want of memory.
pub fn truncate_two(
    alloc: Global,
    k: u16,
    m: u16,
    t: u16,
    u: u16,
    w: u16,
    master: &Rows,
    small: &Rows,
    large: &Rows,
    larger: &Rows,
    first_rest: &Rows,
    second_rest: &Rows,
) -> Result<Rows, Memory>
    requires { CanTruncateTwice k m t u w master.now small.now large.now larger.now first_rest.now second_rest.now }
    ensures blocks { IfOk result (λ rows. rows ≡ canonical (wilson_two_blocks k m t u w master.now small.now large.now larger.now first_rest.now second_rest.now)) }
    ensures design { IfOk result (λ rows. IsTd rows k (m * t + u + w)) }
{
    let small = array_of_td(alloc, k, m, small)?;
    let large = holed_of_td(alloc, k, m, large)?;
    let larger = holed_twice_of_td(alloc, k, m, larger)?;
    let blocks = assemble_two(
        alloc,
        k,
        TwoTruncations { m, t, u, w },
        master,
        &small,
        &large,
        &larger,
        first_rest,
        second_rest,
    )?;
    Ok(blocks)
}
