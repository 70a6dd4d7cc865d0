ghost use Rattle.std.specs.Prelude.{◌≡◌, ◌+◌, ◌<◌, true, []};
ghost use Rattle.design_base.specs.declared.query.Query.{Query as Question};
ghost use Rattle.design_base.specs.Limits.{in_bounds};
ghost use Rattle.rule_table.specs.Asked.{asked};
ghost use Rattle.rule_table.specs.Progress.{AsksNext, TellsNext, IfAsk, IfDone, answered_next};
ghost use Rattle.rule_terms.specs.Rank.{rank};
ghost use Rattle.rule_table.specs.Verdicts.{verdict};

use crate::inquiry::Inquiry;
use crate::steps::Steps;
use crate::turn::Turn;
use design_base::{Query, Verdict};
use rule_terms::Tools;
use std::marker::Model;
use std::sync::ledger::Ledger;

/// A question under evaluation: a walk through its candidates and their premises, which was counted as one step when it
/// began. It is asked for its turns, and told the verdicts of the premises that it asks for, until it is done. It is seen as
/// its question, the premises that were answered so far, and how many answers it can still take; it keeps no list.
#[derive(Drop)]
pub struct Evaluation<'a> {
    inquiry: Inquiry<'a>,
}

impl<'a> Model for Evaluation<'a> {
    ghost use Rattle.rule_table.specs.Progress.{Progress};

    ghost Value = { Progress };

    ghost view = { λ e. e.inquiry };
}

impl<'a> Evaluation<'a> {
    /// Begins the evaluation of a question, and counts it. The question is in bounds.
    pub fn new<L: Ledger>(q: &Query, tools: &'a Tools, steps: &mut Steps<L>) -> Evaluation<'a>
        requires bounds { in_bounds q.now ≡ true }
        ensures question { result.question ≡ q.now }
        ensures begun { result.answered ≡ [] }
        ensures steps { steps.new ≡ steps.old + 1 }
    {
        steps.tick();
        Evaluation {
            inquiry: Inquiry::new(q, tools),
        }
    }

    /// The premise whose verdict is asked for next, which is in bounds and has a smaller rank than the question, or the
    /// verdict of the question where all that are asked for were answered.
    pub fn turn(&self) -> Turn
        ensures bounds { IfAsk result (λ p. in_bounds p ≡ true) }
        ensures smaller { IfAsk result (λ p. rank p < rank self.now.question) }
        ensures left { IfAsk result (λ p. 0 < self.now.left) }
        ensures next { IfAsk result (λ p. AsksNext self.now p) }
        ensures verdict { IfDone result (λ v. v ≡ verdict self.now.question) }
        ensures answered { IfDone result (λ v. self.now.answered ≡ asked self.now.question) }
    {
        self.inquiry.turn()
    }

    /// Takes the verdict of the premise that `turn` asks for.
    pub fn answer(&mut self, told: &Verdict)
        requires told { TellsNext self.old told.now }
        ensures { (p : Question) → AsksNext self.old p → self.new ≡ answered_next self.old p }
    {
        self.inquiry.answer(told)
    }
}
