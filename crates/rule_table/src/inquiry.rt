// The walk through the candidates of a question and their premises.
ghost use Rattle.std.specs.Prelude.{◌≡◌, ◌<◌, true, []};
ghost use Rattle.design_base.specs.declared.query.Query.{Query as Question};
ghost use Rattle.design_base.specs.Limits.{in_bounds};
ghost use Rattle.rule_table.specs.Asked.{asked};
ghost use Rattle.rule_table.specs.Progress.{AsksNext, TellsNext, IfAsk, IfDone, answered_next};
ghost use Rattle.rule_terms.specs.Rank.{rank};
ghost use Rattle.rule_table.specs.Verdicts.{verdict};

use crate::allowed::premises;
use crate::turn::Turn;
use crate::walk::{first_of_rules, following};
use criteria::criterion;
use design_base::{Criterion, Query, Step, Verdict};
use rule_terms::Tools;
use std::marker::Model;

// A walk through the candidates of a question in order, and through the premises of each up to the first that is not Yes. It
// counts no steps: an `Evaluation` is an inquiry that was counted when it began.
#[derive(Drop)]
pub(crate) struct Inquiry<'a> {
    tools: &'a Tools,
    question: Query,
    criterion: Option<Criterion>,
    candidate: Option<Step>,
    place: usize,
}

impl<'a> Model for Inquiry<'a> {
    ghost use Rattle.rule_table.specs.Progress.{Progress, IsPlace, progress};

    ghost Value = { Progress };

    ghost view = { λ e. progress e.question e.criterion e.candidate e.place };

    ghost invariant = { λ e. IsPlace e.question e.criterion e.candidate e.place };
}

impl<'a> Inquiry<'a> {
    // The inquiry into a question before any answer. The question is in bounds.
    pub(crate) fn new(q: &Query, tools: &'a Tools) -> Inquiry<'a>
        requires bounds { in_bounds q.now ≡ true }
        ensures question { result.question ≡ q.now }
        ensures begun { result.answered ≡ [] }
    {
        match criterion(q) {
            Some(criterion) => Inquiry {
                tools,
                question: *q,
                criterion: Some(criterion),
                candidate: None,
                place: 0,
            },
            None => Inquiry {
                tools,
                question: *q,
                criterion: None,
                candidate: first_of_rules(tools, q, 0),
                place: 0,
            },
        }
    }

    // The premise that is asked for next, which is in bounds and has a smaller rank than the question, or the verdict where
    // all that are asked for were answered.
    pub(crate) fn turn(&self) -> Turn
        ensures bounds { IfAsk result (λ p. in_bounds p ≡ true) }
        ensures smaller { IfAsk result (λ p. rank p < rank self.now.question) }
        ensures left { IfAsk result (λ p. 0 < self.now.left) }
        ensures next { IfAsk result (λ p. AsksNext self.now p) }
        ensures verdict { IfDone result (λ v. v ≡ verdict self.now.question) }
        ensures answered { IfDone result (λ v. self.now.answered ≡ asked self.now.question) }
    {
        if let Some(criterion) = self.criterion {
            return Turn::Done(Verdict::No(criterion));
        }
        let Some(step) = self.candidate else {
            return Turn::Done(Verdict::Unknown);
        };
        let list = premises(self.tools, &self.question, &step);
        match list.as_slice().get(self.place) {
            Some(premise) => Turn::Ask(*premise),
            None => Turn::Done(Verdict::Yes(step)),
        }
    }

    // Takes the verdict of the premise that `turn` asks for: on Yes the next premise of the candidate comes, on No or Unknown
    // the first of the next candidate.
    pub(crate) fn answer(&mut self, told: &Verdict)
        requires told { TellsNext self.old told.now }
        ensures { (p : Question) → AsksNext self.old p → self.new ≡ answered_next self.old p }
    {
        let Some(step) = self.candidate else {
            return;
        };
        if let Verdict::Yes(_) = told {
            self.place += 1;
        } else {
            self.candidate = following(self.tools, &self.question, &step);
            self.place = 0;
        }
    }
}
