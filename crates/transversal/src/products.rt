// Products of two designs.
ghost use Rattle.std.specs.Prelude.{◌≡◌, ◌+◌, ◌*◌, ◌<◌, ◌≤◌, ◌++◌, [], ◌∷◌, All, IfOk, OnOk, length, take};
ghost use Rattle.design_base.specs.Arrays.{IsRow, blocks_of_rows};
ghost use Rattle.design_base.specs.Blocks.{IsTd};
ghost use Rattle.design_base.specs.Canonical.{canonical};
ghost use Rattle.incidence.specs.Packed.{size_of};
ghost use Rattle.transversal.specs.Conditions.{CanMultiply};
ghost use Rattle.transversal.specs.Constructions.{product_blocks, product_row, product_rows, products_of};

use crate::blocks::with_room;
use design_base::{Memory, PACKED_MAX, TD_K_MAX, TD_N_MAX};
use incidence::{Rows, array_of_td};
use std::alloc::Global;

/// The product of a transversal design of `k` groups of `a` points and one of `k` groups of `b` points: for each row r of
/// the first and each row s of the second the entries r_j * b + s_j.
///
/// `k` is from 2 to `TD_K_MAX`, `a` and `b` are at least 1 and their product is at most `TD_N_MAX`. The construction is
/// that of H. F. MacNeish, Euler squares (1922). The answer is `Memory` only for want of memory.
#[tactic(auto, using(crate::proofs::Steps::steps))]
pub fn product(
    alloc: Global,
    k: u16,
    a: u16,
    b: u16,
    first: &Rows,
    second: &Rows,
) -> Result<Rows, Memory>
    requires { CanMultiply k a b first.now second.now }
    ensures blocks { IfOk result (λ rows. rows ≡ canonical (product_blocks k a b first.now second.now)) }
    ensures design { IfOk result (λ rows. IsTd rows k (a * b)) }
{
    let first = array_of_td(alloc, k, a, first)?;
    let second = array_of_td(alloc, k, b, second)?;
    let mut rows = with_room(alloc, k, a * b)?;
    push_products(&mut rows, k, a, b, &first, &second)?;
    let blocks = rows.canonical()?;
    Ok(blocks)
}

// Appends the products of all rows of the first and all rows of the second.
#[tactic(auto, using(crate::proofs::Steps::steps))]
fn push_products(
    rows: &mut Rows,
    k: u16,
    a: u16,
    b: u16,
    first: &Rows,
    second: &Rows,
) -> Result<(), Memory>
    requires groups { k ≤ TD_K_MAX }
    requires points { a * b ≤ TD_N_MAX }
    requires first_rows { All (IsRow k a) first.now }
    requires second_rows { All (IsRow k b) second.now }
    requires room { size_of rows.old + (k + 1) * length (product_rows k b first.now second.now) < PACKED_MAX }
    ensures { OnOk result (rows.new ≡ rows.old ++ blocks_of_rows k (a * b) (product_rows k b first.now second.now)) }
{
    for row in first.iter() {
        push_products_of(rows, k, a, b, row, second)?;
    }
    Ok(())
}

// Appends the products of one row of the first and all rows of the second.
#[tactic(auto, using(crate::proofs::Steps::steps))]
fn push_products_of(
    rows: &mut Rows,
    k: u16,
    a: u16,
    b: u16,
    first: &[u16],
    second: &Rows,
) -> Result<(), Memory>
    requires groups { k ≤ TD_K_MAX }
    requires points { a * b ≤ TD_N_MAX }
    requires first_row { IsRow k a first.now }
    requires second_rows { All (IsRow k b) second.now }
    requires room { size_of rows.old + (k + 1) * length (products_of k b second.now first.now) < PACKED_MAX }
    ensures { OnOk result (rows.new ≡ rows.old ++ blocks_of_rows k (a * b) (products_of k b second.now first.now)) }
{
    let mut block = [0; TD_K_MAX as usize];
    for row in second.iter() {
        write_product(&mut block, k, a, b, first, row);
        rows.push_row(&block[..k as usize])?;
    }
    Ok(())
}

// Writes the block of the product of two rows over the front of `block`.
#[tactic(auto, using(incidence::proofs::RowsAndBlocks::row_block_none))]
fn write_product(block: &mut [u16], k: u16, a: u16, b: u16, first: &[u16], second: &[u16])
    requires groups { k ≤ TD_K_MAX }
    requires points { a * b ≤ TD_N_MAX }
    requires first_row { IsRow k a first.now }
    requires second_row { IsRow k b second.now }
    requires room { k ≤ length block.old }
    ensures len { length block.new ≡ length block.old }
    ensures front { take k block.new ∷ [] ≡ blocks_of_rows k (a * b) (product_row k b first.now second.now ∷ []) }
{
    for j in 0..k as usize {
        block[j] = j as u16 * (a * b) + (first[j] * b + second[j]);
    }
}
