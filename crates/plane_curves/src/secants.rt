// The lines of a plane that hold two vectors of a list, each by the places of the vectors that it holds.
ghost use Rattle.std.specs.Prelude.{◌≡◌, ◌+◌, ◌*◌, ◌<◌, ◌≤◌, ◌++◌, All, IfOk, OnOk, length};
ghost use Rattle.design_base.specs.Canonical.{canonical};
ghost use Rattle.design_base.specs.Fields.{field_product, field_sum};
ghost use Rattle.incidence.specs.Packed.{size_of};
ghost use Rattle.plane_curves.specs.Secants.{IsOver, secant as secant_of, vector_at};
ghost use Rattle.spaces.specs.Least.{are_least, least_lines, lines_to};

use crate::vectors::{Vector, half_cross, is_on};
use design_base::{Memory, PACKED_MAX, POINTS_MAX};
use field_tables::Field;
use incidence::Rows;
use std::alloc::Global;

// Whether the vectors at `i` and `j` are the first two on their line.
#[tactic(auto, using(crate::proofs::SecantSteps::secant_steps))]
fn are_first(field: &Field, vectors: &[Vector], i: u16, j: u16) -> bool
    requires over { All (IsOver field.now) vectors.now }
    requires first { i < length vectors.now }
    requires second { j < length vectors.now }
    ensures { result ≡ are_least i j (secant_of (field_sum field.now) (field_product field.now) vectors.now i j) }
{
    let (x, y) = (vectors[i as usize], vectors[j as usize]);
    let (left, right) = (half_cross(field, x, y), half_cross(field, y, x));
    for m in 0..j {
        let z = vectors[m as usize];
        if m != i && is_on(field, left, right, z) {
            return false;
        }
    }
    true
}

// The places of the vectors on the line of those at `i` and `j`.
#[tactic(auto, using(crate::proofs::SecantSteps::secant_steps))]
fn secant(
    alloc: Global,
    field: &Field,
    vectors: &[Vector],
    i: u16,
    j: u16,
) -> Result<Vec<u16>, Memory>
    requires over { All (IsOver field.now) vectors.now }
    requires few { length vectors.now ≤ POINTS_MAX }
    requires first { i < length vectors.now }
    requires second { j < length vectors.now }
    ensures row { IfOk result (λ row. row.items ≡ secant_of (field_sum field.now) (field_product field.now) vectors.now i j) }
    ensures size { IfOk result (λ row. length row.items ≤ POINTS_MAX) }
{
    let (x, y) = (vectors[i as usize], vectors[j as usize]);
    let (left, right) = (half_cross(field, x, y), half_cross(field, y, x));
    let mut row = Vec::new(alloc);
    for m in 0..vectors.len() as u16 {
        let z = vectors[m as usize];
        if is_on(field, left, right, z) {
            row.push(m)?;
        }
    }
    Ok(row)
}

// Appends the lines on which the vector at `j` is the second of the list.
#[tactic(auto, using(crate::proofs::SecantSteps::secant_steps))]
fn push_secants_to(
    alloc: Global,
    rows: &mut Rows,
    field: &Field,
    vectors: &[Vector],
    j: u16,
) -> Result<(), Memory>
    requires over { All (IsOver field.now) vectors.now }
    requires few { length vectors.now ≤ POINTS_MAX }
    requires second { j < length vectors.now }
    requires room { size_of rows.old + j * (POINTS_MAX + 1) < PACKED_MAX }
    ensures ok { OnOk result (rows.new ≡ rows.old ++ lines_to (secant_of (field_sum field.now) (field_product field.now) vectors.now) j j) }
    ensures size { OnOk result (size_of rows.new ≤ size_of rows.old + j * (POINTS_MAX + 1)) }
{
    for i in 0..j {
        if are_first(field, vectors, i, j) {
            rows.push_row(&secant(alloc, field, vectors, i, j)?)?;
        }
    }
    Ok(())
}

// All lines of two vectors of the list, each once, in canonical form, or `Memory` for want of memory.
#[tactic(auto, using(crate::proofs::SecantSteps::secant_steps))]
pub(crate) fn secants(alloc: Global, field: &Field, vectors: &[Vector]) -> Result<Rows, Memory>
    requires over { All (IsOver field.now) vectors.now }
    requires few { length vectors.now ≤ POINTS_MAX }
    ensures { IfOk result (λ rows. rows ≡ canonical (least_lines (secant_of (field_sum field.now) (field_product field.now) vectors.now) (length vectors.now))) }
{
    let mut rows = Rows::new(alloc);
    for j in 0..vectors.len() as u16 {
        push_secants_to(alloc, &mut rows, field, vectors, j)?;
    }
    rows.canonical()
}
