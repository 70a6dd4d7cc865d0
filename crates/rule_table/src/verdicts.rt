ghost use Rattle.std.specs.Prelude.{◌≡◌, ℕ, ◌+◌, true, List};
ghost use Rattle.design_base.specs.declared.verdict.Criterion.{Criterion as Reason};
ghost use Rattle.design_base.specs.declared.verdict.Verdict.TheVariants.{No};
ghost use Rattle.design_base.specs.Limits.{in_bounds};
ghost use Rattle.design_base.specs.Meets.{Meets};
ghost use Rattle.rule_table.specs.Verdicts.{verdict};
ghost use Rattle.rule_table.specs.Work.{work};

use crate::evaluation::Evaluation;
use crate::steps::Steps;
use crate::turn::Turn;
use design_base::{Query, Verdict};
use rule_terms::Tools;
use std::sync::ledger::Ledger;

/// The verdict of a question, with the verdict of each premise that it asks for computed afresh: No with the first criterion
/// that applies, in which case there is no such design; else Yes with the first candidate all of whose premises are Yes;
/// else Unknown. The question is in bounds. The steps rise by its work: one evaluation, and the work of each question that it asks for.
pub fn evaluate<L: Ledger>(q: &Query, tools: &Tools, steps: &mut Steps<L>) -> Verdict
    requires bounds { in_bounds q.now ≡ true }
    ensures verdict { result ≡ verdict q.now }
    ensures none { (c : Reason) → result ≡ No c → (B : List (List ℕ)) → ¬ Meets q.now B }
    ensures steps { steps.new ≡ steps.old + work q.now }
{
    let mut evaluation = Evaluation::new(q, tools, steps);
    'turns: loop {
        match evaluation.turn() {
            Turn::Ask(premise) => {
                let told = evaluate(&premise, tools, steps);
                evaluation.answer(&told);
            }
            Turn::Done(told) => return told,
        }
    }
}
