// The lines of an affine plane.
ghost use Rattle.std.specs.Prelude.{◌≡◌, ◌+◌, ◌*◌, ◌<◌, ◌≤◌, ◌++◌, [], ◌∷◌, IfOk, OnOk, length, take};
ghost use Rattle.counting.specs.Sums.{list_below};
ghost use Rattle.design_base.specs.Arrays.{blocks_of_rows};
ghost use Rattle.design_base.specs.Blocks.{IsTd};
ghost use Rattle.design_base.specs.Canonical.{canonical};
ghost use Rattle.design_base.specs.Fields.{field_product};
ghost use Rattle.incidence.specs.Packed.{size_of};
ghost use Rattle.transversal.specs.Conditions.{CanBuildField};
ghost use Rattle.transversal.specs.Constructions.{field_blocks, field_row, field_rows};

use crate::blocks::with_room;
use design_base::{Memory, PACKED_MAX, TD_K_MAX, TD_N_MAX};
use field_tables::Field;
use incidence::Rows;
use std::alloc::Global;

/// The transversal design of the lines over a field: for elements x and y the entries x and y + j * x for each element j,
/// cut to `k` columns.
///
/// `k` is from 2 to `TD_K_MAX` and at most one more than the order of the field, which is at most `TD_N_MAX`. The
/// construction is that of R. C. Bose, On the application of the properties of Galois fields to the problem of construction
/// of hyper-Graeco-Latin squares (1938): two lines of different slopes meet at one point. The answer is `Memory` only for
/// want of memory.
#[tactic(auto, using(crate::proofs::Steps::steps))]
pub fn field_td(alloc: Global, field: &Field, k: u16) -> Result<Rows, Memory>
    requires { CanBuildField k field.now }
    ensures blocks { IfOk result (λ rows. rows ≡ canonical (field_blocks k field.now)) }
    ensures design { IfOk result (λ rows. IsTd rows k field.now) }
{
    let mut rows = with_room(alloc, k, field.order())?;
    push_lines(&mut rows, field, k)?;
    let blocks = rows.canonical()?;
    Ok(blocks)
}

// Appends the blocks of all x.
#[tactic(auto, using(crate::proofs::Steps::steps), unfolding(crate::specs::Constructions::field_rows))]
fn push_lines(rows: &mut Rows, field: &Field, k: u16) -> Result<(), Memory>
    requires one_group { 1 ≤ k }
    requires columns { k ≤ field.now + 1 }
    requires groups { k ≤ TD_K_MAX }
    requires points { field.now ≤ TD_N_MAX }
    requires room { size_of rows.old + (TD_K_MAX + 1) * TD_N_MAX * field.now < PACKED_MAX }
    ensures ok { OnOk result (rows.new ≡ rows.old ++ blocks_of_rows k field.now (field_rows k field.now)) }
{
    for x in 0..field.order() {
        push_lines_at(rows, field, k, x)?;
    }
    Ok(())
}

// The products j * x for each element j.
#[tactic(auto, using(crate::proofs::Steps::steps))]
fn products_by(field: &Field, x: u16) -> [u16; TD_N_MAX as usize]
    requires points { field.now ≤ TD_N_MAX }
    requires within { x < field.now }
    ensures { take field.now result ≡ list_below field.now (λ j. field_product field.now j x) }
{
    let mut products = [0; TD_N_MAX as usize];
    for j in 0..field.order() {
        products[j as usize] = field.mul(j, x);
    }
    products
}

// Appends the blocks of `x`.
#[tactic(auto, using(crate::proofs::Steps::steps))]
fn push_lines_at(rows: &mut Rows, field: &Field, k: u16, x: u16) -> Result<(), Memory>
    requires one_group { 1 ≤ k }
    requires columns { k ≤ field.now + 1 }
    requires groups { k ≤ TD_K_MAX }
    requires points { field.now ≤ TD_N_MAX }
    requires within { x < field.now }
    requires room { size_of rows.old + (TD_K_MAX + 1) * field.now < PACKED_MAX }
    ensures ok { OnOk result (rows.new ≡ rows.old ++ blocks_of_rows k field.now (list_below field.now (field_row k field.now x))) }
    ensures size { OnOk result (size_of rows.new ≤ size_of rows.old + (TD_K_MAX + 1) * field.now) }
{
    let products = products_by(field, x);
    let mut block = [0; TD_K_MAX as usize];
    for y in 0..field.order() {
        write_line(&mut block, field, k, x, y, &products);
        rows.push_row(&block[..k as usize])?;
    }
    Ok(())
}

// Writes the block of `x` and `y` over the front of `block`.
fn write_line(block: &mut [u16], field: &Field, k: u16, x: u16, y: u16, products: &[u16])
    requires one_group { 1 ≤ k }
    requires columns { k ≤ field.now + 1 }
    requires points { field.now ≤ TD_N_MAX }
    requires x_within { x < field.now }
    requires y_within { y < field.now }
    requires products { take field.now products.now ≡ list_below field.now (λ j. field_product field.now j x) }
    requires each_product { length products.now ≡ TD_N_MAX }
    requires room { k ≤ length block.old }
    ensures len { length block.new ≡ length block.old }
    ensures front { take k block.new ∷ [] ≡ blocks_of_rows k field.now (field_row k field.now x y ∷ []) }
{
    let q = field.order();
    block[0] = x;
    for j in 0..k - 1 {
        block[j as usize + 1] = (j + 1) * q + field.add(y, products[j as usize]);
    }
}
