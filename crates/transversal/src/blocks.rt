// Lists of blocks that grow.
ghost use Rattle.std.specs.Prelude.{◌≡◌, ◌+◌, ◌-◌, ◌*◌, ◌<◌, ◌≤◌, ◌++◌, [], ◌∷◌, All, IfOk, OnErr, OnOk, length, take};
ghost use Rattle.design_base.specs.Arrays.{IsRow, blocks_of_rows};
ghost use Rattle.incidence.specs.Packed.{size_of};
ghost use Rattle.transversal.specs.Constructions.{raised};

use design_base::{Memory, PACKED_MAX, TD_K_MAX, TD_N_MAX};
use incidence::Rows;
use std::alloc::Global;

/// An empty list with room for the `n * n` blocks of a transversal design with `k` groups of `n` points.
///
/// `k` is at most `TD_K_MAX` and `n` at most `TD_N_MAX`. The answer is `Memory` only for want of memory.
pub fn with_room(alloc: Global, k: u16, n: u16) -> Result<Rows, Memory>
    requires groups { k ≤ TD_K_MAX }
    requires points { n ≤ TD_N_MAX }
    ensures { IfOk result (λ rows. rows ≡ []) }
{
    let blocks = usize::from(n) * usize::from(n);
    let mut rows = Rows::new(alloc);
    rows.reserve(blocks, blocks * usize::from(k))?;
    Ok(rows)
}

// Writes the block of a row of `k` symbols below `h`, with `c` added to each, over the front of `block`.
#[tactic(auto, using(incidence::proofs::RowsAndBlocks::row_block_none))]
fn write_raised(block: &mut [u16], k: u16, n: u16, c: u16, h: u16, row: &[u16])
    requires groups { k ≤ TD_K_MAX }
    requires points { n ≤ TD_N_MAX }
    requires raised_points { c + h ≤ n }
    requires row { IsRow k h row.now }
    requires room { k ≤ length block.old }
    ensures len { length block.new ≡ length block.old }
    ensures front { take k block.new ∷ [] ≡ blocks_of_rows k n (raised c (row.now ∷ [])) }
{
    for j in 0..k as usize {
        block[j] = j as u16 * n + (c + row[j]);
    }
}

/// Appends the blocks of rows of `k` symbols below `h`, with `c` added to each symbol.
///
/// `k` is at most `TD_K_MAX`, `n` at most `TD_N_MAX`, and `c + h` at most `n`. After `Memory`, which comes only for want of
/// memory, the list holds what it held and behind it the first ones of the blocks.
#[tactic(auto, using(crate::proofs::Steps::steps))]
pub fn push_raised(
    rows: &mut Rows,
    k: u16,
    n: u16,
    c: u16,
    h: u16,
    array: &Rows,
) -> Result<(), Memory>
    requires groups { k ≤ TD_K_MAX }
    requires points { n ≤ TD_N_MAX }
    requires raised_points { c + h ≤ n }
    requires rows { All (IsRow k h) array.now }
    requires room { size_of rows.old + (k + 1) * length array.now < PACKED_MAX }
    ensures all { OnOk result (rows.new ≡ rows.old ++ blocks_of_rows k n (raised c array.now)) }
    ensures some { OnErr result (rows.new ≡ rows.old ++ take (length rows.new - length rows.old) (blocks_of_rows k n (raised c array.now))) }
{
    let mut block = [0; TD_K_MAX as usize];
    for row in array.iter() {
        write_raised(&mut block, k, n, c, h, row);
        rows.push_row(&block[..k as usize])?;
    }
    Ok(())
}
