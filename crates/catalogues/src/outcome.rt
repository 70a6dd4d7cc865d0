//! What comes of asking catalogues.
ghost use Rattle.std.specs.Prelude.{◌≡◌, ◌++◌, [], ◌∷◌, OnErr, OnOk};

use design_base::Memory;
use design_checks::Finding;
use incidence::Rows;
use std::alloc::Global;
use std::marker::Model;

/// What the offer of one catalogue came to.
#[derive(Drop)]
pub enum Offered {
    /// It has no entry of the question.
    Nothing,
    /// It offered a list that is no design of the question.
    Unfit(Finding),
    /// It offered a design, here in canonical form.
    Fit(Rows),
}

/// An offer that was no design of the question: the place of its catalogue, from 1, and what the check found.
#[derive(Clone, Copy, Debug, PartialEq, Eq)]
pub struct Rejected {
    pub number: u32,
    pub finding: Finding,
}

/// Offers that were no designs, in the order in which they were made.
#[derive(Drop)]
pub struct Rejections {
    list: Vec<Rejected>,
}

impl Model for Rejections {
    ghost use Rattle.std.specs.Prelude.{List};
    ghost use Rattle.catalogues.specs.declared.outcome.Rejected.{Rejected};

    ghost Value = { List Rejected };

    ghost view = { λ r. r.list.items };
}

impl Rejections {
    // None.
    pub(crate) fn new(alloc: Global) -> Self
        ensures { result ≡ [] }
    {
        Rejections {
            list: Vec::new(alloc),
        }
    }

    // One more, behind the others.
    pub(crate) fn push(&mut self, rejected: Rejected) -> Result<(), Memory>
        ensures ok { OnOk result (self.new ≡ self.old ++ rejected ∷ []) }
        ensures error { OnErr result (self.new ≡ self.old) }
    {
        self.list.push(rejected)?;
        Ok(())
    }

    /// The offers in their order.
    pub fn as_slice(&self) -> &[Rejected]
        ensures { result.now ≡ self.now }
    {
        &self.list
    }
}

/// What the catalogues offered: the offers that were rejected, and the first valid one with the place of its catalogue, from 1.
#[derive(Drop)]
pub struct Consulted {
    pub rejected: Rejections,
    pub valid: Option<(u32, Rows)>,
}

/// Why the catalogues were not asked to the end.
#[derive(Clone, Copy, Debug, PartialEq, Eq)]
pub enum ConsultEnd {
    /// The offer of the catalogue at this place, from 1, failed.
    Failed { number: u32 },
    /// There was no memory.
    Memory,
}
