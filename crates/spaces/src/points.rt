// The points of a projective geometry, and the point of each vector.
ghost use Rattle.std.specs.Prelude.{ℕ, ◌≡◌, ◌^◌, ◌<◌, Contains, IfOk, Some, length, slice_get};
ghost use Rattle.design_base.specs.Fields.{field_product};
ghost use Rattle.spaces.specs.Points.{ArePlaces, IsPlace, lead as lead_of, points as points_of};
ghost use Rattle.spaces.specs.Vectors.{multiple};

use crate::vectors::{combination, lead};
use design_base::Memory;
use field_tables::Field;
use std::alloc::Global;

// The points among the vectors of `n` entries, in the order of their numbers: those whose first entry but 0 is 1. There are
// `vectors` vectors, q ^ n, over a field of `q` elements. The answer is `Memory` only for want of memory.
#[tactic(auto, using(crate::proofs::PointSteps::point_steps))]
pub(crate) fn points(alloc: Global, q: u16, n: u16, vectors: u16) -> Result<Vec<u16>, Memory>
    requires order { 0 < q }
    requires all { vectors ≡ q ^ n }
    ensures { IfOk result (λ points. points.items ≡ points_of q n) }
{
    let mut points = Vec::new(alloc);
    for x in 0..vectors {
        if lead(q, n, u32::from(x)) == 1 {
            points.push(x)?;
        }
    }
    Ok(points)
}

// The point that is a multiple of the vector `x`, which is not 0.
fn point_of(field: &Field, n: u16, x: u16) -> u16
    requires fits { field.now ^ n < 2 ^ 16 }
    requires below { x < field.now ^ n }
    requires nonzero { 0 < x }
    ensures point { Contains (points_of field.now n) result }
    ensures multiple { (c : ℕ) × (c < field.now) × (multiple (field_product field.now) field.now n c x ≡ result) }
{
    let scale = field.inv(lead(field.order(), n, u32::from(x)));
    combination(field, n, scale, x, 0, 0)
}

// The place of `x` in the list.
fn place_in(list: &[u16], x: u16) -> u16
    requires short { length list.now < 2 ^ 16 }
    requires there { Contains list.now x }
    ensures { slice_get list.now result ≡ Some x }
{
    match list.iter().position(|y| *y == x) {
        Some(i) => i as u16,
        None => unreachable!(),
    }
}

// The place of the point that is a multiple of the vector `x`, which is not 0.
fn place_of(field: &Field, n: u16, points: &[u16], x: u16) -> u16
    requires fits { field.now ^ n < 2 ^ 16 }
    requires below { x < field.now ^ n }
    requires nonzero { 0 < x }
    requires points { points.now ≡ points_of field.now n }
    ensures { IsPlace (field_product field.now) field.now n x result }
{
    place_in(points, point_of(field, n, x))
}

// The places of the points of the vectors of `n` entries; the vector 0 has the place 0. There are `vectors` vectors, q ^ n, and
// `points` are their points in order. The answer is `Memory` only for want of memory.
#[tactic(auto, using(crate::proofs::PointSteps::point_steps))]
pub(crate) fn places(
    alloc: Global,
    field: &Field,
    n: u16,
    points: &[u16],
    vectors: u16,
) -> Result<Vec<u16>, Memory>
    requires some { 0 < vectors }
    requires all { vectors ≡ field.now ^ n }
    requires points { points.now ≡ points_of field.now n }
    ensures { IfOk result (λ places. ArePlaces (field_product field.now) field.now n vectors places.items) }
{
    let mut places = Vec::new(alloc);
    places.push(0)?;
    for x in 1..vectors {
        places.push(place_of(field, n, points, x))?;
    }
    Ok(places)
}
