// The rows of a list, one after another.
ghost use Rattle.std.specs.Prelude.{◌<◌, ◌≡◌, IfSome, length};
ghost use Rattle.std.specs.Iterator.{UpTo, YieldsFirstRef, item_count};
ghost use Rattle.std.specs.Iterator.SizeHint.{IsWithinCount};
ghost use Rattle.design_base.specs.declared.limits.TheConstants.{PACKED_MAX};
ghost use Rattle.incidence.specs.Packed.{AreEnds, rows_from, size_of};

use crate::packed::Rows;
use std::marker::Model;

/// The rows that are left to go over.
#[derive(Drop)]
pub struct Iter<'a> {
    numbers: &'a [u16],
    ends: &'a [u32],
    start: usize,
}

impl<'a> Model for Iter<'a> {
    ghost use Rattle.std.specs.Prelude.{List, length, ℕ};
    ghost use Rattle.incidence.specs.Packed.{AreEnds, rows_from};

    ghost Value = { List (List ℕ) };

    ghost view = { λ i. rows_from i.start i.ends.now i.numbers.now };

    ghost invariant = { λ i. AreEnds i.start i.ends.now (length i.numbers.now) };
}

impl<'a> Iter<'a> {
    // From the first row on.
    pub(crate) fn new(numbers: &'a [u16], ends: &'a [u32]) -> Self
        requires { AreEnds 0 ends.now (length numbers.now) }
        ensures { result ≡ rows_from 0 ends.now numbers.now }
    {
        Iter {
            numbers,
            ends,
            start: 0,
        }
    }
}

impl<'a> Iterator for Iter<'a> {
    type Item = &'a [u16];

    ghost next_gives = { YieldsFirstRef (λ rows. rows) };

    ghost remaining = { item_count (λ rows. rows) };

    #[tactic(auto, using(crate::proofs::Packing::start_within))]
    fn next(&mut self) -> Option<&'a [u16]> {
        let (end, ends) = self.ends.split_first()?;
        let end = *end as usize;
        let row = &self.numbers[self.start..end];
        self.ends = ends;
        self.start = end;
        Some(row)
    }

    #[tactic(auto, using(crate::proofs::Packing::packed_lengths))]
    fn size_hint(&self) -> (usize, Option<usize>)
        ensures lower { IsWithinCount result.0 (item_count (λ rows. rows) self.now) }
        ensures upper { IfSome result.1 (UpTo (item_count (λ rows. rows) self.now)) }
        ensures exact { result.0 ≡ length self.now }
    {
        (self.ends.len(), Some(self.ends.len()))
    }
}

impl<'a> IntoIterator for &'a Rows {
    type Item = &'a [u16];

    type IntoIter = Iter<'a>;

    ghost into_iter_gives = { λ rows it. (it ≡ rows.now) × (size_of it < PACKED_MAX) };

    fn into_iter(self) -> Iter<'a> {
        self.iter()
    }
}
