// The unfolding of a verdict into lines.
ghost use Rattle.std.specs.Prelude.{◌≡◌, true, ◌++◌, length, Some, IfOk, OnOk};
ghost use Rattle.design_base.specs.Limits.{in_bounds};
ghost use Rattle.design_base.specs.declared.verdict.Verdict.TheVariants.{Yes};
ghost use Rattle.rule_table.specs.Verdicts.{verdict};
ghost use Rattle.derivations.specs.Derivations.{derivation, derivation_behind, last_question, replayed};
ghost use Rattle.design_base.specs.Meets.{Meets};
ghost use Rattle.rule_table.specs.Told.{KeptAfter};

use crate::line::{Derivation, Line};
use crate::names::Names;
use crate::sound_derivation::SoundDerivation;
use design_base::{Memory, Query, Step, Verdict};
use rule_table::{Asker, Steps, Tools, premises};
use std::alloc::Global;
use std::sync::ledger::Ledger;

// Appends the lines that lead to a question.
fn unfold<A: Asker, L: Ledger>(
    alloc: Global,
    q: &Query,
    step: &Step,
    tools: &Tools,
    asker: &mut A,
    steps: &mut Steps<L>,
    lines: &mut Derivation,
) -> Result<(), Memory>
    requires bounds { in_bounds q.now ≡ true }
    requires verdict { verdict q.now ≡ Yes step.now }
    ensures lines { OnOk result (lines.new ≡ lines.old ++ derivation_behind (length lines.old) q.now) }
    ensures memo { A.memo asker.new ≡ A.memo asker.old }
    ensures told { KeptAfter q.now (A.told asker.old) (A.told asker.new) steps.old steps.new }
{
    let found = premises(tools, q, step);
    let asked = found.as_slice();
    let mut from = Names::new(alloc);
    for premise in asked {
        match asker.ask(premise, tools, steps) {
            Verdict::Yes(chosen) => {
                unfold(alloc, premise, &chosen, tools, asker, steps, lines)?;
                from.push(lines.len() as u64)?;
            }
            Verdict::No(_) => unreachable!(),
            Verdict::Unknown => unreachable!(),
        }
    }
    lines.push(Line {
        query: *q,
        step: *step,
        from,
    })?;
    Ok(())
}

/// The derivation of a question: the lines that lead to a design of it. For each premise of the step in order come the lines
/// of its own derivation, and then the line of the question, which cites the last line of each.
///
/// The question is in bounds, and its verdict is yes by this step. The answer is `Memory` only for want of memory. After it too
/// the asker asks the same memo, and where it tells the cells that it knows, it keeps them, has learned those of questions of
/// smaller rank alone, and has counted at most one step for each new one.
pub fn derive<A: Asker, L: Ledger>(
    alloc: Global,
    q: &Query,
    step: &Step,
    tools: &Tools,
    asker: &mut A,
    steps: &mut Steps<L>,
) -> Result<SoundDerivation, Memory>
    requires bounds { in_bounds q.now ≡ true }
    requires verdict { verdict q.now ≡ Yes step.now }
    ensures lines { IfOk result (λ lines. lines ≡ derivation q.now) }
    ensures question { IfOk result (λ lines. last_question lines ≡ Some q.now) }
    ensures design { IfOk result (λ lines. Meets q.now (replayed lines)) }
    ensures memo { A.memo asker.new ≡ A.memo asker.old }
    ensures told { KeptAfter q.now (A.told asker.old) (A.told asker.new) steps.old steps.new }
{
    let mut lines = Derivation::new(alloc);
    unfold(alloc, q, step, tools, asker, steps, &mut lines)?;
    Ok(SoundDerivation::new(lines))
}
