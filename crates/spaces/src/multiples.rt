// The multiples of the points of a geometry, by their entries.
ghost use Rattle.std.specs.Prelude.{◌≡◌, ◌+◌, ◌*◌, ◌^◌, ◌<◌, ◌≤◌, ◌++◌, [], ◌∷◌, IfOk, OnOk, length, map};
ghost use Rattle.design_base.specs.Digits.{digits};
ghost use Rattle.design_base.specs.Fields.{field_product};
ghost use Rattle.incidence.specs.Packed.{size_of};
ghost use Rattle.spaces.specs.Vectors.{multiple, multiples_below};

use crate::vectors::{combination, write_entries};
use design_base::{Memory, PACKED_MAX, POINTS_MAX};
use field_tables::Field;
use incidence::Rows;
use std::alloc::Global;

// Appends the entries of t * x. The list `entries` is a buffer.
fn push_multiple(
    rows: &mut Rows,
    entries: &mut Vec<u16>,
    field: &Field,
    n: u16,
    t: u16,
    x: u16,
) -> Result<(), Memory>
    requires factor { t < field.now }
    requires fits { field.now ^ n < 2 ^ 16 }
    requires room { size_of rows.old + n + 1 < PACKED_MAX }
    ensures ok { OnOk result (rows.new ≡ rows.old ++ digits field.now n (multiple (field_product field.now) field.now n t x) ∷ []) }
    ensures size { OnOk result (size_of rows.new ≡ size_of rows.old + n + 1) }
{
    let multiple = combination(field, n, t, x, 0, 0);
    write_entries(entries, field.order(), n, multiple)?;
    rows.push_row(entries)?;
    Ok(())
}

// Appends the entries of t * x for each of the points x.
#[tactic(auto, using(crate::proofs::EntrySteps::entry_steps))]
fn push_multiples(
    rows: &mut Rows,
    alloc: Global,
    field: &Field,
    n: u16,
    points: &[u16],
    t: u16,
) -> Result<(), Memory>
    requires factor { t < field.now }
    requires fits { field.now ^ n < 2 ^ 16 }
    requires room { size_of rows.old + length points.now * (n + 1) < PACKED_MAX }
    ensures ok { OnOk result (rows.new ≡ rows.old ++ map (λ x. digits field.now n (multiple (field_product field.now) field.now n t x)) points.now) }
    ensures size { OnOk result (size_of rows.new ≡ size_of rows.old + length points.now * (n + 1)) }
{
    let mut entries = Vec::new(alloc);
    for x in points {
        push_multiple(rows, &mut entries, field, n, t, *x)?;
    }
    Ok(())
}

// The entries of t * x for each element t and each of the points x. The vectors have `n` entries; there are at most
// `POINTS_MAX` elements, entries and points. The answer is `Memory` only for want of memory.
#[tactic(auto, using(crate::proofs::EntrySteps::entry_steps))]
pub(crate) fn multiples(
    alloc: Global,
    field: &Field,
    n: u16,
    points: &[u16],
) -> Result<Rows, Memory>
    requires fits { field.now ^ n < 2 ^ 16 }
    requires order { field.now ≤ POINTS_MAX }
    requires entries { n ≤ POINTS_MAX }
    requires points { length points.now ≤ POINTS_MAX }
    ensures { IfOk result (λ rows. rows ≡ multiples_below (field_product field.now) field.now n points.now field.now) }
{
    let mut rows = Rows::new(alloc);
    for t in 0..field.order() {
        push_multiples(&mut rows, alloc, field, n, points, t)?;
    }
    Ok(rows)
}
