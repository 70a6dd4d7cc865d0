// Vectors of three entries over a field, and the lines of two of them.
ghost use Rattle.std.specs.Prelude.{◌≡◌, ◌<◌, ◌==◌};
ghost use Rattle.design_base.specs.Fields.{field_product, field_sum};
ghost use Rattle.plane_curves.specs.Secants.{IsOver, dot as dot_of, entries as entries_of, half_cross as half_cross_of};

use field_tables::Field;

// A vector.
#[derive(Clone, Copy)]
pub struct Vector {
    pub a: u16,
    pub b: u16,
    pub c: u16,
}

// The vector of a number, whose digits to the base q are its entries, the first one lowest.
#[tactic(auto, unfolding(crate::specs::Secants::entries), using(field_tables::proofs::Listed::order_above))]
pub(crate) fn entries(field: &Field, z: u32) -> Vector
    ensures value { result ≡ entries_of field.now z }
    ensures over { IsOver field.now result }
{
    let q = u32::from(field.order());
    Vector {
        a: (z % q) as u16,
        b: (z / q % q) as u16,
        c: (z / q / q % q) as u16,
    }
}

// The sum of the products of the entries.
#[tactic(auto, unfolding(crate::specs::Secants::dot))]
pub(crate) fn dot(field: &Field, x: Vector, y: Vector) -> u16
    requires first { IsOver field.now x }
    requires second { IsOver field.now y }
    ensures { result ≡ dot_of (field_sum field.now) (field_product field.now) x y }
{
    let rest = field.add(field.mul(x.b, y.b), field.mul(x.c, y.c));
    field.add(field.mul(x.a, y.a), rest)
}

// One half of the terms of the cross product; the other half is that of `y` and `x`.
#[tactic(auto, unfolding(crate::specs::Secants::half_cross))]
pub(crate) fn half_cross(field: &Field, x: Vector, y: Vector) -> Vector
    requires first { IsOver field.now x }
    requires second { IsOver field.now y }
    ensures value { result ≡ half_cross_of (field_product field.now) x y }
    ensures below { IsOver field.now result }
{
    Vector {
        a: field.mul(x.b, y.c),
        b: field.mul(x.c, y.a),
        c: field.mul(x.a, y.b),
    }
}

// Whether a vector is on the line whose vectors have the same product with both halves of a cross product.
pub(crate) fn is_on(field: &Field, left: Vector, right: Vector, z: Vector) -> bool
    requires left { IsOver field.now left }
    requires right { IsOver field.now right }
    requires vector { IsOver field.now z }
    ensures { result ≡ (dot_of (field_sum field.now) (field_product field.now) left z == dot_of (field_sum field.now) (field_product field.now) right z) }
{
    dot(field, left, z) == dot(field, right, z)
}
