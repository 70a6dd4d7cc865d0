//! Designs, and how a block list becomes one.
ghost use Rattle.std.specs.Prelude.{◌≡◌, IfErr, IfOk, true};
ghost use Rattle.design_base.specs.Limits.{in_bounds};
ghost use Rattle.design_base.specs.Meets.{Meets};
ghost use Rattle.design_checks.specs.Findings.{finding as finding_of};
ghost use Rattle.proved_designs.specs.Ends.{IsCheckEnd};

use design_base::{Memory, Query};
use design_checks::{Checker, Finding};
use incidence::Rows;
use std::marker::Model;

/// A design: a question within the limits, and blocks that meet it; of a difference family, its base blocks. Each value of the
/// type is one, so whoever takes a `Design` need ask nothing of it. The blocks stand in the order in which they were given.
#[derive(Drop)]
pub struct Design {
    query: Query,
    blocks: Rows,
}

impl Model for Design {
    ghost use Rattle.std.specs.Prelude.{◌≡◌, true};
    ghost use Rattle.design_base.specs.Limits.{in_bounds};
    ghost use Rattle.design_base.specs.Meets.{Meets};
    ghost use Rattle.proved_designs.specs.Designs.{Design as Listed};

    ghost Value = { Listed };

    ghost view = { λ d. record { query = d.query; blocks = d.blocks } };

    ghost invariant = { λ d. (in_bounds d.query ≡ true) × Meets d.query d.blocks };
}

/// Why a block list does not become a design.
#[derive(Clone, Copy, Debug, PartialEq, Eq)]
pub enum CheckEnd {
    /// The list is no design of the question, and this was found first.
    Unfit(Finding),
    /// There was no memory.
    Memory,
}

impl From<Memory> for CheckEnd {
    ghost use Rattle.proved_designs.specs.declared.design.CheckEnd.TheVariants.{Memory as Wanting};

    ghost from_gives = { λ _ e. e ≡ Wanting };

    fn from(_: Memory) -> Self {
        CheckEnd::Memory
    }
}

impl Design {
    /// The design of a question within the limits and a list that is known to meet it, for whoever has proved that.
    pub fn new(query: Query, blocks: Rows) -> Design
        requires bounds { in_bounds query ≡ true }
        requires meets { Meets query blocks }
        ensures { result ≡ record { query = query; blocks = blocks } }
    {
        Design { query, blocks }
    }

    /// The design of a question within the limits and a list, where a check finds that it is one. The answer is `Unfit` exactly where
    /// the list is no design of the question, and says what is found first; `Memory` comes only as from `Checker::check`.
    pub fn checked(query: Query, blocks: Rows, checker: &mut Checker) -> Result<Design, CheckEnd>
        requires { in_bounds query ≡ true }
        ensures design { IfOk result (λ design. design ≡ record { query = query; blocks = blocks }) }
        ensures valid { IfOk result (λ design. finding_of query blocks ≡ Finding.Valid) }
        ensures meets { IfOk result (λ design. Meets query blocks) }
        ensures end { IfErr result (IsCheckEnd query blocks) }
    {
        let finding = checker.check(&query, &blocks)?;
        if finding != Finding::Valid {
            return Err(CheckEnd::Unfit(finding));
        }
        Ok(Design { query, blocks })
    }

    /// The question, which is within the limits.
    pub fn query(&self) -> Query
        ensures query { result ≡ self.now.query }
        ensures bounds { in_bounds result ≡ true }
    {
        self.query
    }

    /// The blocks, which meet the question.
    pub fn blocks(&self) -> &Rows
        ensures blocks { result.now ≡ self.now.blocks }
        ensures meets { Meets self.now.query result.now }
    {
        &self.blocks
    }

    /// The blocks, which meet the question, for whoever keeps nothing else of the design.
    pub fn into_blocks(self) -> Rows
        ensures blocks { result ≡ self.blocks }
        ensures meets { Meets self.query result }
    {
        self.blocks
    }
}
