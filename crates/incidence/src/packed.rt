//! A list of lists of numbers, kept as the numbers one after another and the place where each list ends.
ghost use Rattle.std.specs.Prelude.{◌≡◌, ◌+◌, ◌<◌, ◌≤◌, ◌↔◌, [], ◌∷◌, ◌++◌, ◌&&◌, IfOk, IsTrue, OnErr, OnOk, Some, length, map, nat_le, slice_get, slice_index, take};
ghost use Rattle.counting.specs.Sorting.{sort_by};
ghost use Rattle.design_base.specs.Blocks.{cover as cover_of, holds};
ghost use Rattle.design_base.specs.Canonical.{canonical as canonical_form, lex_le};
ghost use Rattle.incidence.specs.Packed.{AreEnds, rows_from, size_of};

use crate::iter::Iter;
use crate::order::{are_in_order, in_lexicographic_order, pack};
use design_base::{Memory, PACKED_MAX};
use std::alloc::Global;
use std::marker::Model;

/// A list of rows of numbers. Its rows and the numbers in them are together fewer than `PACKED_MAX`.
#[derive(Drop)]
pub struct Rows {
    alloc: Global,
    numbers: Vec<u16>,
    ends: Vec<u32>,
}

impl Model for Rows {
    ghost use Rattle.std.specs.Prelude.{ℕ, ◌+◌, ◌<◌, List, length};
    ghost use Rattle.design_base.specs.declared.limits.TheConstants.{PACKED_MAX};
    ghost use Rattle.incidence.specs.Packed.{rows_from, AreEnds};

    ghost Value = { List (List ℕ) };

    ghost view = { λ r. rows_from 0 r.ends.items r.numbers.items };

    ghost invariant = { λ r. AreEnds 0 r.ends.items (length r.numbers.items) × (length r.ends.items + length r.numbers.items < PACKED_MAX) };
}

// Where the row at place `i` starts.
fn start_of(ends: &[u32], i: usize) -> usize
    requires { i ≤ length ends.now }
    ensures { result ≡ slice_index (0 ∷ ends.now) i }
{
    if i == 0 { 0 } else { ends[i - 1] as usize }
}

// The row at place `i`.
#[tactic(auto, using(crate::proofs::Packing::ends_at, crate::proofs::Packing::row_at))]
fn row_of<'a>(numbers: &'a [u16], ends: &[u32], i: usize) -> &'a [u16]
    requires ends { AreEnds 0 ends.now (length numbers.now) }
    requires within { i < length ends.now }
    ensures { slice_get (rows_from 0 ends.now numbers.now) i ≡ Some result.now }
{
    let start = start_of(ends, i);
    let end = ends[i] as usize;
    &numbers[start..end]
}

// Sorts each row in place.
#[tactic(auto, using(crate::proofs::Pieces::next_within))]
fn sort_pieces(numbers: &mut [u16], ends: &[u32])
    requires { AreEnds 0 ends.now (length numbers.old) }
    ensures len { length numbers.new ≡ length numbers.old }
    ensures rows { rows_from 0 ends.now numbers.new ≡ map (sort_by nat_le) (rows_from 0 ends.now numbers.old) }
{
    let mut start = 0;
    for next in ends {
        let end = *next as usize;
        numbers[start..end].sort_unstable();
        start = end;
    }
}

// Whether x and y both stand in the row.
#[tactic(auto, unfolding(design_base::specs::Blocks::holds))]
fn holds_both(row: &[u16], x: u16, y: u16) -> bool
    ensures { result ≡ (holds x row.now && holds y row.now) }
{
    row.contains(&x) && row.contains(&y)
}

impl Rows {
    /// The empty list.
    pub fn new(alloc: Global) -> Self
        ensures { result ≡ [] }
    {
        Rows {
            alloc,
            numbers: Vec::new(alloc),
            ends: Vec::new(alloc),
        }
    }

    /// Takes memory at once for so many further rows and the numbers in them. The list stays, after `Memory` too, which comes
    /// only for want of memory.
    pub fn reserve(&mut self, rows: usize, numbers: usize) -> Result<(), Memory>
        ensures { self.new ≡ self.old }
    {
        self.ends.reserve(rows)?;
        self.numbers.reserve(numbers)?;
        Ok(())
    }

    /// The number of rows.
    #[tactic(auto, using(crate::proofs::Packing::packed_lengths, crate::proofs::Packing::size_of_rows))]
    pub fn len(&self) -> usize
        ensures len { result ≡ length self.now }
        ensures small { size_of self.now < PACKED_MAX }
    {
        self.ends.len()
    }

    /// Whether there is no row.
    pub fn is_empty(&self) -> bool
        ensures { IsTrue result ↔ (self.now ≡ []) }
    {
        self.len() == 0
    }

    /// The row at place `i`, from 0. There is one.
    #[tactic(auto, using(crate::proofs::Packing::packed_lengths))]
    pub fn row(&self, i: usize) -> &[u16]
        requires { i < length self.now }
        ensures { slice_get self.now i ≡ Some result.now }
    {
        row_of(&self.numbers, &self.ends, i)
    }

    /// Appends a row, which may be empty: any numbers, in any order. The rows and numbers of the list, the new row and its
    /// numbers are together fewer than `PACKED_MAX`. After `Memory`, which comes only for want of memory, the list is as
    /// before.
    #[tactic(auto, using(crate::proofs::Packing::size_of_rows, crate::proofs::Packing::rows_from_push, crate::proofs::Packing::AreEnds_push))]
    pub fn push_row(&mut self, row: &[u16]) -> Result<(), Memory>
        requires { size_of self.old + length row.now + 1 < PACKED_MAX }
        ensures ok { OnOk result (self.new ≡ self.old ++ row.now ∷ []) }
        ensures size { OnOk result (size_of self.new ≡ size_of self.old + length row.now + 1) }
        ensures err { OnErr result (self.new ≡ self.old) }
    {
        self.ends.reserve(1)?;
        self.numbers.extend_from_slice(row)?;
        self.ends.push(self.numbers.len() as u32).unwrap();
        Ok(())
    }

    /// Appends the rows of another list, in their order. The rows and numbers of both lists are together fewer than
    /// `PACKED_MAX`. After `Memory`, which comes only for want of memory, the list is as before.
    #[tactic(auto, using(crate::proofs::Walk::appended))]
    pub fn push_all(&mut self, other: &Rows) -> Result<(), Memory>
        requires { size_of self.old + size_of other.now < PACKED_MAX }
        ensures ok { OnOk result (self.new ≡ self.old ++ other.now) }
        ensures size { OnOk result (size_of self.new ≡ size_of self.old + size_of other.now) }
        ensures err { OnErr result (self.new ≡ self.old) }
    {
        let count = self.len();
        for row in other {
            if self.push_row(row).is_err() {
                self.truncate(count);
                return Err(Memory);
            }
        }
        Ok(())
    }

    /// Another list of the same rows. `Memory` comes only for want of memory.
    #[tactic(auto, using(crate::proofs::Packing::size_of_rows, crate::proofs::Walk::appended))]
    pub fn copied(&self) -> Result<Rows, Memory>
        ensures { IfOk result (λ rows. rows ≡ self.now) }
    {
        let mut rows = Rows::new(self.alloc);
        rows.push_all(self)?;
        Ok(rows)
    }

    /// Keeps the first `count` rows, or all where there are not more. The memory stays taken.
    #[tactic(auto, using(crate::proofs::Fronts::front_all))]
    pub fn truncate(&mut self, count: usize)
        ensures { self.new ≡ take count self.old }
    {
        if count < self.ends.len() {
            let numbers = start_of(&self.ends, count);
            self.numbers.truncate(numbers);
            self.ends.truncate(count);
        }
    }

    /// Puts each row in increasing order. The order of the rows stays.
    #[tactic(auto, using(crate::proofs::Packing::size_of_rows))]
    pub fn sort_each(&mut self)
        ensures { self.new ≡ map (sort_by nat_le) self.old }
    {
        sort_pieces(&mut self.numbers, &self.ends);
    }

    /// The rows in lexicographic order; what is there twice stays there twice. After `Memory`, which comes only for want of
    /// memory, the rows are given up.
    #[tactic(auto, using(crate::proofs::Ordered::sorted_stays, crate::proofs::Sizes::size_of_permuted, crate::proofs::Packing::size_of_rows, design_base::proofs::Sorted::sorted_from_sort))]
    pub fn in_order(self) -> Result<Rows, Memory>
        ensures { IfOk result (λ rows. rows ≡ sort_by lex_le self) }
    {
        if are_in_order(&self) {
            return Ok(self);
        }
        let order = in_lexicographic_order(self.alloc, &self)?;
        pack(self.alloc, &order, self.numbers.len())
    }

    /// Each row in increasing order, and the rows in lexicographic order: the canonical form of a block list. What is there
    /// twice stays there twice. After `Memory`, which comes only for want of memory, the rows are given up.
    #[tactic(auto, unfolding(design_base::specs::Canonical::canonical))]
    pub fn canonical(mut self) -> Result<Rows, Memory>
        ensures { IfOk result (λ rows. rows ≡ canonical_form self) }
    {
        self.sort_each();
        self.in_order()
    }

    /// The rows in their order.
    #[tactic(auto, using(crate::proofs::Packing::size_of_rows))]
    pub fn iter(&self) -> Iter<'_>
        ensures rows { result ≡ self.now }
        ensures small { size_of result < PACKED_MAX }
    {
        Iter::new(&self.numbers, &self.ends)
    }

    /// The number of rows in which both `x` and `y` stand.
    #[tactic(auto, unfolding(design_base::specs::Blocks::cover))]
    pub fn cover(&self, x: u16, y: u16) -> u32
        ensures { result ≡ cover_of self.now x y }
    {
        self.iter().filter(|row| holds_both(row, x, y)).count() as u32
    }
}
