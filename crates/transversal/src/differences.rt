// Parker's designs of four groups.
ghost use Rattle.std.specs.Prelude.{◌≡◌, ◌+◌, ◌*◌, ◌<◌, ◌≤◌, ◌++◌, IfOk, OnOk};
ghost use Rattle.design_base.specs.Arrays.{blocks_of_rows};
ghost use Rattle.design_base.specs.Blocks.{IsTd};
ghost use Rattle.design_base.specs.Canonical.{canonical};
ghost use Rattle.incidence.specs.Packed.{size_of};
ghost use Rattle.transversal.specs.Conditions.{CanUseParker};
ghost use Rattle.transversal.specs.Constructions.{base_rows, parker_blocks, quadruple, translate, translates_below};

use crate::blocks::{push_raised, with_room};
use design_base::{Memory, PACKED_MAX, TD_N_MAX};
use incidence::{Rows, array_of_td, push_block};
use std::alloc::Global;

/// The columns of Parker's rows.
const COLUMNS: u16 = 4;

/// The transversal design of four groups of `3 * m + 1` points, made from one of four groups of `m` points.
///
/// `m` is at least 1, and `3 * m + 1` is at most `TD_N_MAX`. The symbols are the integers modulo `2 * m + 1` and `m`
/// infinite ones. The construction, by a quasi-difference matrix, is that of E. T. Parker, Orthogonal Latin squares (1959).
/// The answer is `Memory` only for want of memory.
pub fn parker(alloc: Global, m: u16, inner: &Rows) -> Result<Rows, Memory>
    requires { CanUseParker m inner.now }
    ensures blocks { IfOk result (λ rows. rows ≡ canonical (parker_blocks m inner.now)) }
    ensures design { IfOk result (λ rows. IsTd rows 4 (3 * m + 1)) }
{
    let inner = array_of_td(alloc, COLUMNS, m, inner)?;
    let mut rows = with_room(alloc, COLUMNS, 3 * m + 1)?;
    push_translates(&mut rows, m)?;
    push_raised(&mut rows, COLUMNS, 3 * m + 1, 2 * m + 1, m, &inner)?;
    let blocks = rows.canonical()?;
    Ok(blocks)
}

// Appends the translates of the base rows by each number below `2 * m + 1`.
#[tactic(auto, using(crate::proofs::Steps::steps))]
fn push_translates(rows: &mut Rows, m: u16) -> Result<(), Memory>
    requires points { 3 * m + 1 ≤ TD_N_MAX }
    requires room { size_of rows.old + 20 * TD_N_MAX * (2 * m + 1) < PACKED_MAX }
    ensures ok { OnOk result (rows.new ≡ rows.old ++ blocks_of_rows 4 (3 * m + 1) (translates_below (2 * m + 1) (2 * m + 1) (base_rows m m))) }
    ensures size { OnOk result (size_of rows.new ≤ size_of rows.old + 20 * TD_N_MAX * (2 * m + 1)) }
{
    for c in 0..2 * m + 1 {
        push_base_rows(rows, m, c)?;
    }
    Ok(())
}

// Appends the translate of the base rows by `c`.
#[tactic(auto, using(crate::proofs::Steps::steps))]
fn push_base_rows(rows: &mut Rows, m: u16, c: u16) -> Result<(), Memory>
    requires points { 3 * m + 1 ≤ TD_N_MAX }
    requires finite { c < 2 * m + 1 }
    requires room { size_of rows.old + 20 * m + 5 < PACKED_MAX }
    ensures ok { OnOk result (rows.new ≡ rows.old ++ blocks_of_rows 4 (3 * m + 1) (translate (2 * m + 1) c (base_rows m m))) }
    ensures size { OnOk result (size_of rows.new ≡ size_of rows.old + 20 * m + 5) }
{
    push_block(rows, COLUMNS, 3 * m + 1, &[c, c, c, c])?;
    for i in 0..m {
        push_quadruple(rows, m, c, i + 1)?;
    }
    Ok(())
}

// Appends the rows of 0, i, -i and the infinite symbol of i, translated by `c`.
#[tactic(auto, using(crate::proofs::Steps::steps, crate::proofs::ParkerArray::blocks_of_quadruple))]
fn push_quadruple(rows: &mut Rows, m: u16, c: u16, i: u16) -> Result<(), Memory>
    requires points { 3 * m + 1 ≤ TD_N_MAX }
    requires finite { c < 2 * m + 1 }
    requires positive { 1 ≤ i }
    requires within { i ≤ m }
    requires room { size_of rows.old + 20 < PACKED_MAX }
    ensures ok { OnOk result (rows.new ≡ rows.old ++ blocks_of_rows 4 (3 * m + 1) (translate (2 * m + 1) c (quadruple m i))) }
    ensures size { OnOk result (size_of rows.new ≡ size_of rows.old + 20) }
{
    let symbols = 3 * m + 1;
    let modulus = 2 * m + 1;
    let plus = (i + c) % modulus;
    let minus = (modulus - i + c) % modulus;
    let infinite = 2 * m + i;
    push_block(rows, COLUMNS, symbols, &[c, plus, minus, infinite])?;
    push_block(rows, COLUMNS, symbols, &[plus, c, infinite, minus])?;
    push_block(rows, COLUMNS, symbols, &[minus, infinite, c, plus])?;
    push_block(rows, COLUMNS, symbols, &[infinite, minus, plus, c])
}
