// Cosets of a subgroup of the nonzero elements of a field.
ghost use Rattle.std.specs.Prelude.{◌≡◌, ◌+◌, ◌<◌, ◌≤◌, ◌++◌, [], ◌∷◌, IfOk, OnOk, true};
ghost use Rattle.design_base.specs.Fields.{field_product, gen, has_field};
ghost use Rattle.difference_sets.specs.Conditions.{CanBuildCosets};
ghost use Rattle.difference_sets.specs.Families.{coset, field_cosets, with_zero};
ghost use Rattle.incidence.specs.Packed.{size_of};

use design_base::{Memory, PACKED_MAX, POINTS_MAX};
use field_tables::Field;
use incidence::Rows;
use std::alloc::Global;

// Appends the `f` powers from g ^ i on, each by `e` more, and 0 too where `z` is 1.
#[tactic(auto, using(crate::proofs::CosetSteps::steps))]
fn push_coset(rows: &mut Rows, field: &Field, z: u16, e: u16, f: u16, i: u16) -> Result<(), Memory>
    requires listed { has_field field.now ≡ true }
    requires zero { z ≤ 1 }
    requires few { f < field.now }
    requires room { size_of rows.old + f + z + 1 < PACKED_MAX }
    ensures ok { OnOk result (rows.new ≡ rows.old ++ with_zero z (coset (field_product field.now) (gen field.now) e f i) ∷ []) }
    ensures size { OnOk result (size_of rows.new ≡ size_of rows.old + f + z + 1) }
{
    let generator = field.least_generator();
    let step = field.power(generator, e);
    let mut element = field.power(generator, i);
    let mut row = [0; POINTS_MAX as usize];
    for j in 0..f {
        row[(z + j) as usize] = element;
        element = field.mul(element, step);
    }
    rows.push_row(&row[..(z + f) as usize])
}

// The base blocks of cosets: the first `m` of those of the subgroup of `f` nonzero elements, and 0 too in each where `z` is 1.
//
// `z` is 0 or 1, `m` at most `e`, and `e` times `f` is the number of nonzero elements. The answer is `Memory` only for want of memory.
#[tactic(auto, using(crate::proofs::CosetSteps::steps), unfolding(crate::specs::Families::cosets, crate::specs::Families::field_cosets))]
pub(crate) fn base_blocks_of_cosets(
    alloc: Global,
    field: &Field,
    z: u16,
    e: u16,
    f: u16,
    m: u16,
) -> Result<Rows, Memory>
    requires { CanBuildCosets field.now z e f m }
    ensures { IfOk result (λ rows. rows ≡ field_cosets field.now z e f m) }
{
    let mut rows = Rows::new(alloc);
    rows.reserve(usize::from(m), usize::from(m) * usize::from(f + z))?;
    for i in 0..m {
        push_coset(&mut rows, field, z, e, f, i)?;
    }
    Ok(rows)
}
