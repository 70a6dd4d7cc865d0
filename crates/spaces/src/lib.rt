//! Affine and projective geometries over a finite field.
#![tactic(auto)]

ghost use Rattle.std.specs.Prelude.{◌≡◌, ◌+◌, ◌^◌, ◌≤◌, IfOk};
ghost use Rattle.design_base.specs.Blocks.{IsBibd};
ghost use Rattle.spaces.specs.Lines.{affine_lines as affine_lines_of, projective_lines as projective_lines_of};
ghost use Rattle.design_base.specs.Geometries.{point_count};

mod coefficients;
mod geometry;
mod line_list;
mod multiples;
mod points;
mod vectors;

use design_base::{Memory, POINTS_MAX};
use field_tables::Field;
use geometry::Geometry;
use incidence::Rows;
use std::alloc::Global;
pub use vectors::lead;

/// The lines of the affine geometry of dimension `d` over a field of q elements, in canonical form: q ^ d points, and q points
/// on each line.
///
/// `d` is at least 1, and there are at most `POINTS_MAX` points. A point is the number whose digits to the base q are its
/// coordinates, the first one lowest. The answer is `Memory` only for want of memory.
///
/// D. R. Stinson, Combinatorial Designs: Constructions and Analysis, section 2.3.
pub fn affine_lines(alloc: Global, field: &Field, d: u16) -> Result<Rows, Memory>
    requires dimension { 1 ≤ d }
    requires in_bounds { field.now ^ d ≤ POINTS_MAX }
    ensures blocks { IfOk result (λ rows. rows ≡ affine_lines_of field.now d) }
    ensures design { IfOk result (λ rows. IsBibd rows (field.now ^ d) field.now 1) }
{
    let geometry = Geometry::affine(alloc, field, d)?;
    let lines = geometry.lines(alloc)?;
    Ok(lines)
}

/// The lines of the projective geometry of dimension `d` over a field of q elements, in canonical form: 1 + q + .. + q ^ d
/// points, and q + 1 points on each line.
///
/// `d` is at least 1, and there are at most `POINTS_MAX` points. The points are the vectors of d + 1 entries whose first nonzero
/// entry is 1, in the order of their numbers. The answer is `Memory` only for want of memory.
///
/// D. R. Stinson, Combinatorial Designs: Constructions and Analysis, section 2.3.
pub fn projective_lines(alloc: Global, field: &Field, d: u16) -> Result<Rows, Memory>
    requires dimension { 1 ≤ d }
    requires in_bounds { point_count field.now d ≤ POINTS_MAX }
    ensures blocks { IfOk result (λ rows. rows ≡ projective_lines_of field.now d) }
    ensures design { IfOk result (λ rows. IsBibd rows (point_count field.now d) (field.now + 1) 1) }
{
    let geometry = Geometry::projective(alloc, field, d)?;
    let lines = geometry.lines(alloc)?;
    Ok(lines)
}

#[cfg(test)]
mod tests;
