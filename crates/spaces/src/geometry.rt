// Geometries of vectors, in which two points have one line.
ghost use Rattle.std.specs.Prelude.{◌≡◌, ◌^◌, ◌<◌, ◌≤◌, IfOk, length};
ghost use Rattle.design_base.specs.declared.limits.TheConstants.{POINTS_MAX};
ghost use Rattle.spaces.specs.Points.{AreNumbers};
ghost use Rattle.spaces.specs.Coefficients.{AreElements};
ghost use Rattle.spaces.specs.Vectors.{multiples_below};
ghost use Rattle.design_base.specs.Fields.{field_product};

use crate::coefficients::{affine_coefficients, projective_coefficients};
use crate::line_list::LineList;
use crate::multiples::multiples;
use crate::points::{places, points};
use crate::vectors::sum_of_entries;
use design_base::{Memory, PACKED_MAX, POINTS_MAX};
use field_tables::Field;
use incidence::Rows;
use std::alloc::Global;

// The points are vectors over a field. The line of two points x and y holds the points of the vectors a * x + b * y, where the
// coefficients (a, b) are listed.
#[derive(Drop)]
pub struct Geometry<'a> {
    // The field.
    field: &'a Field,
    // The number of entries of a vector.
    entries: u16,
    // The vector of each point.
    points: Vec<u16>,
    // The entries of each multiple of each point, multiple by multiple.
    multiples: Rows,
    // The point of each vector.
    places: Vec<u16>,
    // The coefficients.
    coefficients: Vec<(u16, u16)>,
    ghost fits: { field.now ^ entries < 2 ^ 16 },
    ghost few: { length points.items ≤ POINTS_MAX },
    ghost placed: { length places.items ≡ field.now ^ entries },
    ghost multiplied: { multiples ≡ multiples_below (field_product field.now) field.now entries points.items field.now },
    ghost elements: { AreElements field.now coefficients.items },
}

// The numbers below `v`, in order, or `Memory` for want of memory.
#[tactic(auto, using(crate::proofs::PointSteps::number_steps))]
fn numbers(alloc: Global, v: u16) -> Result<Vec<u16>, Memory>
    ensures { IfOk result (λ numbers. AreNumbers v numbers.items) }
{
    let mut numbers = Vec::new(alloc);
    for x in 0..v {
        numbers.push(x)?;
    }
    Ok(numbers)
}

impl<'a> Geometry<'a> {
    ghost use Rattle.std.specs.Prelude.{◌+◌, ◌≤◌};
    ghost use Rattle.spaces.specs.GeometryLines.{IsAffine, IsProjective};
    ghost use Rattle.design_base.specs.Geometries.{point_count};

    // The affine geometry of dimension `d`, which is at least 1: its points are all vectors of `d` entries, at most `POINTS_MAX`.
    // The answer is `Memory` only for want of memory.
    #[tactic(auto, using(crate::proofs::Bounds::bounds))]
    pub(crate) fn affine(alloc: Global, field: &'a Field, d: u16) -> Result<Self, Memory>
        requires dimension { 1 ≤ d }
        requires in_bounds { field.now ^ d ≤ POINTS_MAX }
        ensures { IfOk result (IsAffine field.now d) }
    {
        let vectors = field.order().pow(u32::from(d));
        let points = numbers(alloc, vectors)?;
        let multiples = multiples(alloc, field, d, &points)?;
        Ok(Geometry {
            field,
            entries: d,
            points,
            multiples,
            places: numbers(alloc, vectors)?,
            coefficients: affine_coefficients(alloc, field)?,
        })
    }

    // The projective geometry of dimension `d`, which is at least 1: its points are the vectors of `d + 1` entries whose first
    // entry but 0 is 1, at most `POINTS_MAX`. The answer is `Memory` only for want of memory.
    #[tactic(auto, using(crate::proofs::Bounds::bounds))]
    pub(crate) fn projective(alloc: Global, field: &'a Field, d: u16) -> Result<Self, Memory>
        requires dimension { 1 ≤ d }
        requires in_bounds { point_count field.now d ≤ POINTS_MAX }
        ensures { IfOk result (IsProjective field.now (d + 1)) }
    {
        let q = field.order();
        let n = d + 1;
        let vectors = q.pow(u32::from(n));
        let points = points(alloc, q, n, vectors)?;
        let multiples = multiples(alloc, field, n, &points)?;
        let places = places(alloc, field, n, &points, vectors)?;
        let coefficients = projective_coefficients(alloc, field)?;
        Ok(Geometry {
            field,
            entries: n,
            points,
            multiples,
            places,
            coefficients,
        })
    }
}

impl Geometry<'_> {
    ghost use Rattle.std.specs.Prelude.{◌≡◌, ◌+◌, ◌*◌, ◌^◌, ◌<◌, ◌≤◌, ◌++◌, All, IfOk, OnOk, length};
    ghost use Rattle.design_base.specs.Canonical.{canonical};
    ghost use Rattle.incidence.specs.Packed.{size_of};
    ghost use Rattle.spaces.specs.GeometryLines.{entries_in, line_in, point_in};
    ghost use Rattle.spaces.specs.Least.{least_lines, rising_lines};
    ghost use Rattle.spaces.specs.LinearSpaces.{IsLinearSpace};

    // The entries of t * x.
    fn multiple(&self, t: u16, x: u16) -> &[u16]
        requires factor { t < self.now.field.now }
        requires point { x < length self.now.points.items }
        ensures entries { result.now ≡ entries_in self.now t x }
        ensures elements { All (λ a. a < self.now.field.now) result.now }
        ensures size { length result.now ≡ self.now.entries }
    {
        let place = t as usize * self.points.len() + x as usize;
        self.multiples.row(place)
    }

    // The point of the vector a * x + b * y.
    fn point(&self, x: u16, y: u16, coefficients: (u16, u16)) -> u16
        requires first { x < length self.now.points.items }
        requires second { y < length self.now.points.items }
        requires coefficients { (coefficients.0 < self.now.field.now) × (coefficients.1 < self.now.field.now) }
        ensures { result ≡ point_in self.now x y coefficients }
    {
        let (a, b) = coefficients;
        let vector = sum_of_entries(self.field, self.multiple(a, x), self.multiple(b, y));
        self.places[vector as usize]
    }

    // The line of x and y.
    #[tactic(auto, unfolding(crate::specs::Coefficients::combined_line))]
    fn line(&self, alloc: Global, x: u16, y: u16) -> Result<Vec<u16>, Memory>
        requires first { x < length self.now.points.items }
        requires second { y < length self.now.points.items }
        ensures { IfOk result (λ line. line.items ≡ line_in self.now x y) }
    {
        let line = self
            .coefficients
            .iter()
            .map(|coefficients| self.point(x, y, *coefficients))
            .collect(alloc)?;
        Ok(line)
    }

    // Appends the lines of x and a later point whose two least points they are: those that no line holds so far.
    #[tactic(auto, using(crate::proofs::Rising::rising_steps))]
    fn push_lines_from(&self, alloc: Global, lines: &mut LineList, x: u16) -> Result<(), Memory>
        requires point { x < length self.now.points.items }
        requires points { length self.now.points.items ≤ POINTS_MAX }
        requires space { IsLinearSpace (length self.now.points.items) (length self.now.coefficients.items) (line_in self.now) }
        requires lines { lines.old ≡ rising_lines (line_in self.now) (length self.now.points.items) x }
        requires room { size_of lines.old + length self.now.points.items * (length self.now.coefficients.items + 1) < PACKED_MAX }
        ensures ok { OnOk result (lines.new ≡ rising_lines (line_in self.now) (length self.now.points.items) (x + 1)) }
        ensures size { OnOk result (size_of lines.new ≤ size_of lines.old + length self.now.points.items * (length self.now.coefficients.items + 1)) }
    {
        for y in x + 1..self.points.len() as u16 {
            if !lines.joins(x, y) {
                lines.push(&self.line(alloc, x, y)?)?;
            }
        }
        Ok(())
    }

    // All lines, each once, in canonical form. Two points have one line; there are at most `POINTS_MAX` points. The answer is
    // `Memory` only for want of memory.
    #[tactic(auto, using(crate::proofs::Rising::rising_steps))]
    pub(crate) fn lines(&self, alloc: Global) -> Result<Rows, Memory>
        requires points { length self.now.points.items ≤ POINTS_MAX }
        requires coefficients { length self.now.coefficients.items ≤ POINTS_MAX + 1 }
        requires space { IsLinearSpace (length self.now.points.items) (length self.now.coefficients.items) (line_in self.now) }
        ensures { IfOk result (λ rows. rows ≡ canonical (least_lines (line_in self.now) (length self.now.points.items))) }
    {
        let mut lines = LineList::new(alloc)?;
        for x in 0..self.points.len() as u16 {
            self.push_lines_from(alloc, &mut lines, x)?;
        }
        let rows = lines.canonical()?;
        Ok(rows)
    }
}
