// The points of curves in a plane, in the order of their numbers.
ghost use Rattle.std.specs.Prelude.{◌≡◌, ◌==◌, ◌&&◌, ◌<◌, ◌^◌, IfOk, true};
ghost use Rattle.design_base.specs.Fields.{field_product, field_sum, has_field};
ghost use Rattle.field_tables.specs.Powers.{power as power_of};
ghost use Rattle.plane_curves.specs.Curves.{is_on_arc, is_power_zero, is_rootless as is_rootless_of, least_rootless as least_rootless_of, quadratic as quadratic_of};
ghost use Rattle.plane_curves.specs.Secants.{IsOver, curve_points};
ghost use Rattle.spaces.specs.Points.{lead as lead_of};

use crate::vectors::{Vector, entries};
use design_base::Memory;
use field_tables::Field;
use spaces::lead;
use std::alloc::Global;

// The sum of the `n`-th powers of the entries.
fn power_sum(field: &Field, x: Vector, n: u16) -> u16
    requires listed { has_field field.now ≡ true }
    requires over { IsOver field.now x }
    ensures { result ≡ field_sum field.now (power_of (field_product field.now) x.a n) (field_sum field.now (power_of (field_product field.now) x.b n) (power_of (field_product field.now) x.c n)) }
{
    let rest = field.add(field.power(x.b, n), field.power(x.c, n));
    field.add(field.power(x.a, n), rest)
}

// The number of vectors.
fn vector_count(field: &Field) -> u32
    ensures count { result ≡ field.now ^ 3 }
    ensures listed { has_field field.now ≡ true }
{
    u32::from(field.order()).pow(3)
}

// Whether the vector of a number is a point at which the sum of the `n`-th powers of the entries is 0.
#[tactic(auto, unfolding(crate::specs::Curves::is_power_zero, crate::specs::Secants::entries), using(field_tables::proofs::Listed::order_above))]
fn is_power_point(field: &Field, n: u16, z: u32) -> bool
    requires { has_field field.now ≡ true }
    ensures { result ≡ (lead_of field.now 3 z == 1 && is_power_zero (field_sum field.now) (field_product field.now) field.now n z) }
{
    lead(field.order(), 3, z) == 1 && power_sum(field, entries(field, z), n) == 0
}

// The points of the plane at which the sum of the `n`-th powers of the entries is 0, or `Memory` for want of memory.
#[tactic(auto, using(crate::proofs::CurveSteps::curve_steps))]
pub(crate) fn power_points(alloc: Global, field: &Field, n: u16) -> Result<Vec<Vector>, Memory>
    ensures { IfOk result (λ points. points.items ≡ curve_points field.now (is_power_zero (field_sum field.now) (field_product field.now) field.now n) (field.now ^ 3)) }
{
    let mut points = Vec::new(alloc);
    for z in 0..vector_count(field) {
        if is_power_point(field, n, z) {
            points.push(entries(field, z))?;
        }
    }
    Ok(points)
}

// x ^ 2 + x * y + c * y ^ 2
#[tactic(auto, unfolding(crate::specs::Curves::quadratic))]
fn quadratic(field: &Field, c: u16, x: u16, y: u16) -> u16
    requires below { (c < field.now) × (x < field.now) × (y < field.now) }
    ensures { result ≡ quadratic_of (field_sum field.now) (field_product field.now) c x y }
{
    let rest = field.add(field.mul(x, y), field.mul(c, field.mul(y, y)));
    field.add(field.mul(x, x), rest)
}

// Whether x ^ 2 + x + c has no root.
#[tactic(auto, using(field_tables::proofs::Listed::order_above))]
fn is_rootless(field: &Field, c: u16) -> bool
    requires { c < field.now }
    ensures { result ≡ is_rootless_of (field_sum field.now) (field_product field.now) field.now c }
{
    for x in 0..field.order() {
        if field.add(field.mul(x, x), field.add(x, c)) == 0 {
            return false;
        }
    }
    true
}

// The least such c, and 0 where there is none.
#[tactic(auto, using(field_tables::proofs::Listed::order_above))]
fn least_rootless(field: &Field) -> u16
    ensures value { result ≡ least_rootless_of (field_sum field.now) (field_product field.now) field.now }
    ensures below { result < field.now }
{
    for c in 0..field.order() {
        if is_rootless(field, c) {
            return c;
        }
    }
    0
}

// Whether the vector of a number is a point (1, x, y) at which the form's value is below a bound.
#[tactic(auto, unfolding(crate::specs::Curves::is_on_arc, crate::specs::Secants::entries))]
fn is_arc_point(field: &Field, c: u16, bound: u16, z: u32) -> bool
    requires { c < field.now }
    ensures { result ≡ is_on_arc (field_sum field.now) (field_product field.now) field.now c bound z }
{
    let x = entries(field, z);
    x.a == 1 && quadratic(field, c, x.b, x.c) < bound
}

// Those points, where x ^ 2 + x + c has no root for the least such c.
#[tactic(auto, using(crate::proofs::CurveSteps::curve_steps))]
pub(crate) fn arc_points(alloc: Global, field: &Field, bound: u16) -> Result<Vec<Vector>, Memory>
    ensures { IfOk result (λ points. points.items ≡ curve_points field.now (is_on_arc (field_sum field.now) (field_product field.now) field.now (least_rootless_of (field_sum field.now) (field_product field.now) field.now) bound) (field.now ^ 3)) }
{
    let c = least_rootless(field);
    let mut points = Vec::new(alloc);
    for z in 0..vector_count(field) {
        if is_arc_point(field, c, bound, z) {
            points.push(entries(field, z))?;
        }
    }
    Ok(points)
}
