// A list of lines, and which two points are on one of them.
ghost use Rattle.std.specs.Prelude.{◌≡◌, ◌+◌, ◌*◌, ◌<◌, ◌++◌, ◌==◌, [], ◌∷◌, All, IfOk, OnOk, length, nat_lt, ℕ};
ghost use Rattle.std.proofs.Common.{◌&&◌, ◌||◌};
ghost use Rattle.design_base.specs.Blocks.{cover, holds};
ghost use Rattle.design_base.specs.Canonical.{canonical as canonical_form};
ghost use Rattle.incidence.specs.Packed.{size_of};
ghost use Rattle.spaces.specs.MetPairs.{entry};

use design_base::{Memory, PACKED_MAX, POINTS_MAX};
use incidence::Rows;
use std::alloc::Global;
use std::marker::Model;

// Lines, with a table of the pairs of points that they hold.
#[derive(Drop)]
pub struct LineList {
    rows: Rows,
    met: Vec<bool>,
}

impl Model for LineList {
    ghost use Rattle.std.specs.Prelude.{List, ℕ};
    ghost use Rattle.spaces.specs.MetPairs.{AreMet};

    ghost Value = { List (List ℕ) };

    ghost view = { λ l. l.rows };

    ghost invariant = { λ l. AreMet l.rows l.met.items };
}

// The place of two points in the table.
fn place(x: u16, y: u16) -> usize
    ensures { result ≡ x * POINTS_MAX + y }
{
    x as usize * POINTS_MAX as usize + y as usize
}

// Marks x with each point of the line.
fn mark_point(met: &mut [bool], x: u16, line: &[u16])
    requires point { x < POINTS_MAX }
    requires line { All (λ y. y < POINTS_MAX) line.now }
    requires size { length met.old ≡ POINTS_MAX * POINTS_MAX }
    ensures size { length met.new ≡ POINTS_MAX * POINTS_MAX }
    ensures marked { (z w : ℕ) → z < POINTS_MAX → w < POINTS_MAX → entry met.new z w ≡ (entry met.old z w || ((z == x) && holds w line.now)) }
{
    for y in line {
        met[place(x, *y)] = true;
    }
}

// Marks each two points of the line, which may be one.
fn mark_line(met: &mut [bool], line: &[u16])
    requires line { All (λ y. y < POINTS_MAX) line.now }
    requires size { length met.old ≡ POINTS_MAX * POINTS_MAX }
    ensures size { length met.new ≡ POINTS_MAX * POINTS_MAX }
    ensures marked { (z w : ℕ) → z < POINTS_MAX → w < POINTS_MAX → entry met.new z w ≡ (entry met.old z w || (holds z line.now && holds w line.now)) }
{
    for x in line {
        mark_point(met, *x, line);
    }
}

impl LineList {
    // No line. The answer is `Memory` only for want of memory.
    pub(crate) fn new(alloc: Global) -> Result<Self, Memory>
        ensures { IfOk result (λ lines. lines ≡ []) }
    {
        let places = POINTS_MAX as usize * POINTS_MAX as usize;
        Ok(LineList {
            rows: Rows::new(alloc),
            met: vec![in alloc; false; places]?,
        })
    }

    // Whether the points `x` and `y`, which are below `POINTS_MAX`, are on a line of the list.
    pub(crate) fn joins(&self, x: u16, y: u16) -> bool
        requires first { x < POINTS_MAX }
        requires second { y < POINTS_MAX }
        ensures { result ≡ nat_lt 0 (cover self.now x y) }
    {
        self.met[place(x, y)]
    }

    // Appends a line of points below `POINTS_MAX`. The answer is `Memory` only for want of memory.
    pub(crate) fn push(&mut self, line: &[u16]) -> Result<(), Memory>
        requires line { All (λ y. y < POINTS_MAX) line.now }
        requires room { size_of self.old + length line.now + 1 < PACKED_MAX }
        ensures ok { OnOk result (self.new ≡ self.old ++ line.now ∷ []) }
        ensures size { OnOk result (size_of self.new ≡ size_of self.old + length line.now + 1) }
    {
        self.rows.push_row(line)?;
        mark_line(&mut self.met, line);
        Ok(())
    }

    // The lines, in canonical form, or `Memory` for want of memory.
    pub(crate) fn canonical(self) -> Result<Rows, Memory>
        ensures { IfOk result (λ rows. rows ≡ canonical_form self) }
    {
        self.rows.canonical()
    }
}
