// The coefficients (a, b) whose combinations a * x + b * y are on the line of x and y.
ghost use Rattle.std.specs.Prelude.{IfOk};
ghost use Rattle.design_base.specs.Fields.{field_sum};
ghost use Rattle.spaces.specs.Coefficients.{AreAffine, AreElements, AreProjective};

use design_base::Memory;
use field_tables::Field;
use std::alloc::Global;

// The coefficients of an affine geometry: those whose sum is 1. The answer is `Memory` only for want of memory.
#[tactic(auto, using(crate::proofs::CoefficientSteps::coefficient_steps))]
pub(crate) fn affine_coefficients(alloc: Global, field: &Field) -> Result<Vec<(u16, u16)>, Memory>
    ensures affine { IfOk result (λ coefficients. AreAffine (field_sum field.now) field.now coefficients.items) }
    ensures elements { IfOk result (λ coefficients. AreElements field.now coefficients.items) }
{
    let mut coefficients = Vec::new(alloc);
    for t in 0..field.order() {
        coefficients.push((field.add(1, field.neg(t)), t))?;
    }
    Ok(coefficients)
}

// The coefficients of a projective geometry: those whose first nonzero number is 1. The answer is `Memory` only for want of
// memory.
#[tactic(auto, using(crate::proofs::CoefficientSteps::coefficient_steps))]
pub(crate) fn projective_coefficients(
    alloc: Global,
    field: &Field,
) -> Result<Vec<(u16, u16)>, Memory>
    ensures projective { IfOk result (λ coefficients. AreProjective field.now coefficients.items) }
    ensures elements { IfOk result (λ coefficients. AreElements field.now coefficients.items) }
{
    let q = field.order();
    let mut coefficients = Vec::new(alloc);
    for t in 0..q {
        coefficients.push((1, t))?;
    }
    coefficients.push((0, 1))?;
    Ok(coefficients)
}
