// One row, and the integers modulo n.
ghost use Rattle.std.specs.Prelude.{◌≡◌, ◌+◌, ◌*◌, ◌<◌, ◌≤◌, ◌++◌, IfOk, OnOk};
ghost use Rattle.counting.specs.Sums.{list_below};
ghost use Rattle.design_base.specs.Arrays.{blocks_of_rows};
ghost use Rattle.design_base.specs.Blocks.{IsTd};
ghost use Rattle.design_base.specs.Canonical.{canonical};
ghost use Rattle.incidence.specs.Packed.{size_of};
ghost use Rattle.transversal.specs.Conditions.{CanBuildCyclic, CanBuildOne};
ghost use Rattle.transversal.specs.Constructions.{cyclic_blocks, cyclic_row, cyclic_rows, one_blocks};

use crate::blocks::with_room;
use design_base::{Memory, PACKED_MAX, TD_K_MAX, TD_N_MAX};
use incidence::{Rows, push_block};
use std::alloc::Global;

/// The transversal design of `k` groups of one point: its only block holds all points. It is the trivial one of the transversal
/// designs of Colbourn and Dinitz, Handbook of Combinatorial Designs, III.3.
///
/// `k` is from 2 to `TD_K_MAX`. The answer is `Memory` only for want of memory.
#[tactic(auto, using(crate::proofs::Steps::steps, crate::proofs::OneArray::row_of_zeros, crate::proofs::OneArray::block_of_zeros))]
pub fn one(alloc: Global, k: u16) -> Result<Rows, Memory>
    requires { CanBuildOne k }
    ensures blocks { IfOk result (λ rows. rows ≡ canonical (one_blocks k)) }
    ensures design { IfOk result (λ rows. IsTd rows k 1) }
{
    let row = [0; TD_K_MAX as usize];
    let mut rows = with_room(alloc, k, 1)?;
    push_block(&mut rows, k, 1, &row[..k as usize])?;
    let blocks = rows.canonical()?;
    Ok(blocks)
}

// Appends the rows of `x`: for each `y` below `n` the numbers x, y and x + y modulo n, cut to `k` columns.
#[tactic(auto, using(crate::proofs::Steps::steps))]
fn push_sums(rows: &mut Rows, k: u16, n: u16, x: u16) -> Result<(), Memory>
    requires columns { k ≤ 3 }
    requires points { n ≤ TD_N_MAX }
    requires within { x < n }
    requires room { size_of rows.old + 4 * n < PACKED_MAX }
    ensures ok { OnOk result (rows.new ≡ rows.old ++ blocks_of_rows k n (list_below n (cyclic_row k n x))) }
    ensures size { OnOk result (size_of rows.new ≤ size_of rows.old + 4 * n) }
{
    for y in 0..n {
        rows.push_row(&[x, n + y, 2 * n + (x + y) % n][..k as usize])?;
    }
    Ok(())
}

// Appends the rows of all `x` below `n`.
#[tactic(auto, using(crate::proofs::Steps::steps), unfolding(crate::specs::Constructions::cyclic_rows))]
fn push_cyclic(rows: &mut Rows, k: u16, n: u16) -> Result<(), Memory>
    requires columns { k ≤ 3 }
    requires points { n ≤ TD_N_MAX }
    requires room { size_of rows.old + 4 * TD_N_MAX * n < PACKED_MAX }
    ensures ok { OnOk result (rows.new ≡ rows.old ++ blocks_of_rows k n (cyclic_rows k n)) }
{
    for x in 0..n {
        push_sums(rows, k, n, x)?;
    }
    Ok(())
}

/// The transversal design of the rows x, y and x + y modulo `n`, for x and y below `n`, cut to `k` columns.
///
/// `k` is 2 or 3, and `n` is from 1 to `TD_N_MAX`. The rows are those of the addition table of the integers modulo `n`,
/// a Latin square (Colbourn and Dinitz, Handbook of Combinatorial Designs, III.1). The answer is `Memory` only for want of
/// memory.
#[tactic(auto, using(crate::proofs::Steps::steps))]
pub fn cyclic(alloc: Global, k: u16, n: u16) -> Result<Rows, Memory>
    requires { CanBuildCyclic k n }
    ensures blocks { IfOk result (λ rows. rows ≡ canonical (cyclic_blocks k n)) }
    ensures design { IfOk result (λ rows. IsTd rows k n) }
{
    let mut rows = with_room(alloc, k, n)?;
    push_cyclic(&mut rows, k, n)?;
    let blocks = rows.canonical()?;
    Ok(blocks)
}
