// An asker over a memo that others may share.
ghost use Rattle.std.specs.Prelude.{◌≡◌};

use crate::cells::{Cells, Pass};
use crate::deciding::decide;
use design_base::{Query, Verdict};
use rule_table::{Asker, Steps, Tools};
use std::marker::Model;
use std::sync::ledger::Ledger;

/// Answers from verdicts in cells, and sets those that it computes. It is seen as its pass; the memo that it asks is that of its pass, which was made
/// from its cells, and it tells the cells that its pass knows.
#[derive(Drop)]
pub struct CellAsker<'a> {
    cells: &'a Cells,
    pass: Pass,
}

impl<'a> Model for CellAsker<'a> {
    ghost use Rattle.std.specs.Prelude.{◌≡◌};
    ghost use Rattle.memo_cells.specs.Knowledge.{PassState, pass_state_code};

    ghost Value = { PassState };

    ghost coded = { pass_state_code };

    ghost view = { λ a. a.pass };

    ghost invariant = { λ a. a.pass.memo ≡ a.cells.now };
}

impl<'a> CellAsker<'a> {
    /// The asker over these cells, by a pass that was made from them.
    pub fn new(cells: &'a Cells, pass: Pass) -> CellAsker<'a>
        requires { pass.memo ≡ cells.now }
        ensures { result ≡ pass }
    {
        CellAsker { cells, pass }
    }

    /// The pass, which knows the cells that the asker told.
    pub fn into_pass(self) -> Pass
        ensures { result ≡ self.entry }
    {
        let CellAsker { cells: _, pass } = self;
        pass
    }
}

impl<'a> Asker for CellAsker<'a> {
    ghost use Rattle.std.specs.Prelude.{Some};

    ghost memo = { λ a. Some a.memo };

    ghost told = { λ a. Some a.knowledge.known };

    fn ask<L: Ledger>(&mut self, q: &Query, tools: &Tools, steps: &mut Steps<L>) -> Verdict {
        decide(self.cells, q, &mut self.pass, tools, steps)
    }
}
