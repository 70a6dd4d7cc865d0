//! Rows of symbols and blocks: orthogonal arrays and transversal designs are one thing in two spellings.
ghost use Rattle.std.specs.Prelude.{◌≡◌, ◌+◌, ◌*◌, ◌%◌, ◌<◌, ◌≤◌, ◌++◌, [], ◌∷◌, All, IfOk, OnErr, OnOk, length, slice_index, ℕ};
ghost use Rattle.design_base.specs.Arrays.{IsOa, IsRow, blocks_of_rows as blocks_of, rows_of_blocks};
ghost use Rattle.design_base.specs.Blocks.{IsTd};
ghost use Rattle.incidence.specs.Packed.{size_of};

use crate::packed::Rows;
use design_base::{Memory, PACKED_MAX, TD_K_MAX, TD_N_MAX};
use std::alloc::Global;

/// Appends the block of a row of `k` symbols below `n`: the symbol in column j is a point of group j.
///
/// `k` is at most `TD_K_MAX` and `n` at most `TD_N_MAX`. After `Memory`, which comes only for want of memory, the list is as
/// before.
#[tactic(auto, using(crate::proofs::RowsAndBlocks::row_block_none, crate::proofs::RowsAndBlocks::blocks_of_row))]
pub fn push_block(rows: &mut Rows, k: u16, n: u16, row: &[u16]) -> Result<(), Memory>
    requires row { IsRow k n row.now }
    requires groups { k ≤ TD_K_MAX }
    requires points { n ≤ TD_N_MAX }
    requires room { size_of rows.old + k + 1 < PACKED_MAX }
    ensures ok { OnOk result (rows.new ≡ rows.old ++ blocks_of k n (row.now ∷ [])) }
    ensures size { OnOk result (size_of rows.new ≡ size_of rows.old + k + 1) }
    ensures err { OnErr result (rows.new ≡ rows.old) }
{
    let mut block = [0; TD_K_MAX as usize];
    for (j, symbol) in row.iter().enumerate() {
        block[j] = j as u16 * n + symbol;
    }
    rows.push_row(&block[..k as usize])
}

/// The blocks of rows of `k` symbols below `n`, in their order.
///
/// `k` is at most `TD_K_MAX` and `n` at most `TD_N_MAX`. The answer is `Memory` only for want of memory.
#[tactic(auto, using(crate::proofs::RowsAndBlocks::steps))]
pub fn blocks_of_rows(alloc: Global, k: u16, n: u16, rows: &Rows) -> Result<Rows, Memory>
    requires groups { k ≤ TD_K_MAX }
    requires points { n ≤ TD_N_MAX }
    requires rows { All (IsRow k n) rows.now }
    ensures { IfOk result (λ blocks. blocks ≡ blocks_of k n rows.now) }
{
    let mut list = Rows::new(alloc);
    list.reserve(rows.len(), rows.len() * usize::from(k))?;
    for row in rows.iter() {
        push_block(&mut list, k, n, row)?;
    }
    Ok(list)
}

// Appends the row of a block with one point of each group, in the order of the groups: its entry in column j is the symbol
// of the block's point of group j.
fn push_row_of(rows: &mut Rows, n: u16, block: &[u16]) -> Result<(), Memory>
    requires groups { length block.now ≤ TD_K_MAX }
    requires points { (j : ℕ) → j < length block.now → slice_index block.now j ≡ j * n + slice_index block.now j % n }
    requires room { size_of rows.old + length block.now + 1 < PACKED_MAX }
    ensures { OnOk result (rows.new ≡ rows.old ++ rows_of_blocks n (block.now ∷ [])) }
{
    let mut row = [0; TD_K_MAX as usize];
    for (j, point) in block.iter().enumerate() {
        row[j] = point - j as u16 * n;
    }
    rows.push_row(&row[..block.len()])?;
    Ok(())
}

/// The rows of the blocks of a transversal design with `k` groups of `n` points, in the order of the blocks. They are an
/// orthogonal array (Colbourn and Dinitz, Handbook of Combinatorial Designs, III.3).
///
/// `k` is from 2 to `TD_K_MAX`, and `n` is at least 1. The answer is `Memory` only for want of memory.
#[tactic(auto, using(crate::proofs::RowsAndBlocks::steps))]
pub fn array_of_td(alloc: Global, k: u16, n: u16, td: &Rows) -> Result<Rows, Memory>
    requires two_groups { 2 ≤ k }
    requires groups { k ≤ TD_K_MAX }
    requires one_point { 1 ≤ n }
    requires design { IsTd td.now k n }
    ensures rows { IfOk result (λ rows. rows ≡ rows_of_blocks n td.now) }
    ensures array { IfOk result (λ rows. IsOa rows k n) }
{
    let mut rows = Rows::new(alloc);
    rows.reserve(td.len(), td.len() * usize::from(k))?;
    for block in td.iter() {
        push_row_of(&mut rows, n, block)?;
    }
    Ok(rows)
}
