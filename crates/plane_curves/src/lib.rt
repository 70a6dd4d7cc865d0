//! Block designs on the points of curves in projective planes: the Hermitian unitals and Denniston's arcs.
#![tactic(auto)]

ghost use Rattle.std.specs.Prelude.{◌≡◌, ◌+◌, ◌^◌, ◌≤◌, IfOk};
ghost use Rattle.design_base.specs.Blocks.{IsBibd};
ghost use Rattle.design_base.specs.Canonical.{canonical};
ghost use Rattle.plane_curves.specs.Conditions.{CanBuildArc, CanBuildUnital, arc_size};
ghost use Rattle.plane_curves.specs.Curves.{arc_blocks, unital_blocks};

mod curves;
mod laws;
mod secants;
mod vectors;

use curves::{arc_points, power_points};
use design_base::Memory;
use field_tables::open_field;
use incidence::Rows;
pub use laws::curve_laws;
use secants::secants;
use std::alloc::Global;

/// The Hermitian unital of order `q`, in canonical form: q ^ 3 + 1 points, and q + 1 points in each block. Its blocks are the lines
/// of the plane over the field of q ^ 2 elements that hold more than one point of the Hermitian curve, which is where the sum of the
/// powers x ^ (q + 1) of the coordinates is 0.
///
/// `q` is at least 2, and there are at most `POINTS_MAX` points. The points are in the order of their numbers. The answer is
/// `Memory` only for want of memory.
///
/// R. C. Bose, On the application of finite projective geometry for deriving a certain series of balanced Kirkman arrangements
/// (1958).
pub fn unital(alloc: Global, q: u16) -> Result<Rows, Memory>
    requires { CanBuildUnital q }
    ensures blocks { IfOk result (λ rows. rows ≡ canonical (unital_blocks q)) }
    ensures design { IfOk result (λ rows. IsBibd rows (q ^ 3 + 1) (q + 1) 1) }
{
    let Some(field) = open_field(alloc, q * q)? else {
        unreachable!()
    };
    let points = power_points(alloc, &field, q + 1)?;
    let rows = secants(alloc, &field, &points)?;
    Ok(rows)
}

/// 2 ^ `n`, where `n` is at most 14.
#[tactic(auto, using(crate::proofs::CurveSteps::power_small))]
pub fn power_of_two(n: u16) -> u16
    requires { n ≤ 14 }
    ensures { result ≡ 2 ^ n }
{
    1 << n
}

/// The maximal arc of degree 2 ^ `r` in the plane over the field of 2 ^ `s` elements, in canonical form: 2 ^ (r + s) + 2 ^ r - 2 ^ s
/// points, and 2 ^ r points in each block. Its points are (1, x, y) where x ^ 2 + x * y + c * y ^ 2 is below 2 ^ r, for the least c
/// with which x ^ 2 + x + c has no root; its blocks are the lines that hold points of it.
///
/// `r` is at least 1 and less than `s`, `s` is at most 7, and there are at most `POINTS_MAX` points. The points are in the order of
/// their numbers. The answer is `Memory` only for want of memory.
///
/// R. H. F. Denniston, Some maximal arcs in finite projective planes (1969).
pub fn arc(alloc: Global, r: u16, s: u16) -> Result<Rows, Memory>
    requires { CanBuildArc r s }
    ensures blocks { IfOk result (λ rows. rows ≡ canonical (arc_blocks r s)) }
    ensures design { IfOk result (λ rows. IsBibd rows (arc_size r s) (2 ^ r) 1) }
{
    let (order, bound) = (power_of_two(s), power_of_two(r));
    let Some(field) = open_field(alloc, order)? else {
        unreachable!()
    };
    let points = arc_points(alloc, &field, bound)?;
    let rows = secants(alloc, &field, &points)?;
    Ok(rows)
}

#[cfg(test)]
mod tests;
