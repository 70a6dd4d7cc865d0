ghost use Rattle.std.specs.Prelude.{◌≡◌, ◌+◌, true};
ghost use Rattle.design_base.specs.Limits.{in_bounds};
ghost use Rattle.rule_table.specs.Told.{ToldAfter};
ghost use Rattle.rule_table.specs.Verdicts.{verdict};
ghost use Rattle.rule_table.specs.Work.{work};

use crate::steps::Steps;
use crate::verdicts::evaluate;
use design_base::{Query, Verdict};
use rule_terms::Tools;
use std::sync::ledger::Ledger;

/// Whoever answers questions for the code above: afresh, or from verdicts that it keeps, each in a cell of its own.
pub trait Asker {
    ghost use Rattle.std.specs.Prelude.{Option};
    ghost use Rattle.atomic_table.specs.Seated.{TableId};
    ghost use Rattle.rule_table.specs.Told.{Cells};

    // The memo that it asks, where it has one.
    ghost memo: { Self → Option TableId };

    // The cells that it knows, where it tells them.
    ghost told: { Self → Option Cells };

    /// The verdict of a question. The question is in bounds. Where the asker tells the cells that it knows, it keeps them and
    /// learns that of the question, no others than those of questions of smaller rank, and at most one step is counted for
    /// each new cell.
    fn ask<L: Ledger>(&mut self, q: &Query, tools: &Tools, steps: &mut Steps<L>) -> Verdict
        requires bounds { in_bounds q.now ≡ true }
        ensures verdict { result ≡ verdict q.now }
        ensures memo { memo self.new ≡ memo self.old }
        ensures told { ToldAfter q.now (told self.old) (told self.new) steps.old steps.new };
}

/// Answers each question afresh: it has no memo, and tells nothing. The steps rise by the work of the question.
#[derive(Drop)]
pub struct PlainAsker;

impl Asker for PlainAsker {
    ghost use Rattle.std.specs.Prelude.{None};

    ghost memo = { λ _. None };

    ghost told = { λ _. None };

    fn ask<L: Ledger>(&mut self, q: &Query, tools: &Tools, steps: &mut Steps<L>) -> Verdict
        requires bounds { in_bounds q.now ≡ true }
        ensures verdict { result ≡ verdict q.now }
        ensures steps { steps.new ≡ steps.old + work q.now }
    {
        evaluate(q, tools, steps)
    }
}
