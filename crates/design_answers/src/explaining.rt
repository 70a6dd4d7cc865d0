//! The answer to `explain`: the verdict, and why it is so.
ghost use Rattle.std.specs.Prelude.{◌≡◌, ◌≢◌, [], ◌++◌, Some, true, ℕ};
ghost use Rattle.std.specs.List.{flat_map};
ghost use Rattle.criteria.specs.Criteria.{criterion_of, numbers_of};
ghost use Rattle.derivation_text.specs.Text.{derivation_lines};
ghost use Rattle.design_base.specs.Limits.{in_bounds};
ghost use Rattle.design_answers.specs.Requests.{reason_lines};
ghost use Rattle.design_io.specs.Faults.{HasCause};
ghost use Rattle.design_io.specs.Pieces.{AppendsWhole};
ghost use Rattle.design_reports.specs.Answers.{EndsWith, HasFault, IsAnswer};
ghost use Rattle.design_reports.specs.Reports.{verdict_report};
ghost use Rattle.design_reports.specs.Texts.{because_lines, verdict_line as verdict_text};
ghost use Rattle.rule_table.specs.Verdicts.{verdict as verdict_of};

use crate::oracle::Oracle;
use criteria::numbers;
use derivation_text::print_v1;
use derivations::SoundDerivation;
use design_base::{Criterion, Query, Step, Verdict};
use design_io::{Failed, Sink};
use design_reports::{Ending, write_because, write_verdict};
use rule_table::Asker;
use std::sync::ledger::Ledger;

/// Answers with the verdict alone. It takes no memory.
pub fn answer_verdict<K: Sink>(query: &Query, verdict: &Verdict, out: &mut K) -> Ending
    ensures ends { EndsWith (verdict_report query.now verdict.now []) result (K.held out.old) (K.held out.new) }
    ensures cause { HasFault result (K.faults out.old) (K.faults out.new) }
    ensures answered { IsAnswer result }
    ensures no_read { result ≢ Ending.ReadFault }
    ensures no_offer { (number : ℕ) → result ≢ Ending.CatalogueFault number }
    ensures memory { result ≢ Ending.NoMemory }
{
    match write_verdict(out, query, verdict) {
        Ok(()) => Ending::of_verdict(verdict),
        Err(Failed) => Ending::WriteFault,
    }
}

// Writes the verdict yes and its derivation.
#[tactic(auto, using(design_io::proofs::Pieces::composed))]
fn write_derivation<K: Sink>(
    out: &mut K,
    query: &Query,
    step: &Step,
    derivation: &SoundDerivation,
) -> Result<(), Failed>
    ensures bytes { AppendsWhole (K.held out.old) (K.held out.new) result (verdict_text query.now (Verdict.Yes step.now) ++ flat_map (λ line. line) (derivation_lines derivation.now)) }
    ensures cause { HasCause (K.faults out.old) (K.faults out.new) result }
{
    write_verdict(out, query, &Verdict::Yes(*step))?;
    print_v1(derivation.lines(), out)
}

// Explains a question that the table of rules answers by yes, by its derivation.
fn explain_yes<K: Sink>(
    query: &Query,
    step: &Step,
    derivation: &SoundDerivation,
    out: &mut K,
) -> Ending
    ensures ends { EndsWith (verdict_report query.now (Verdict.Yes step.now) (derivation_lines derivation.now)) result (K.held out.old) (K.held out.new) }
    ensures cause { HasFault result (K.faults out.old) (K.faults out.new) }
    ensures answered { IsAnswer result }
    ensures no_read { result ≢ Ending.ReadFault }
    ensures no_offer { (number : ℕ) → result ≢ Ending.CatalogueFault number }
    ensures memory { result ≢ Ending.NoMemory }
{
    match write_derivation(out, query, step, derivation) {
        Ok(()) => Ending::Yes,
        Err(Failed) => Ending::WriteFault,
    }
}

// Writes the verdict no, and the two numbers that the criterion compares.
#[tactic(auto, using(design_io::proofs::Pieces::composed))]
fn write_reason<K: Sink>(out: &mut K, query: &Query, criterion: Criterion) -> Result<(), Failed>
    requires bounds { in_bounds query.now ≡ true }
    requires criterion { criterion_of query.now ≡ Some criterion }
    ensures bytes { AppendsWhole (K.held out.old) (K.held out.new) result (verdict_text query.now (Verdict.No criterion) ++ flat_map (λ line. line) (because_lines (numbers_of query.now))) }
    ensures cause { HasCause (K.faults out.old) (K.faults out.new) result }
{
    write_verdict(out, query, &Verdict::No(criterion))?;
    let (first, second) = numbers(query, &criterion);
    write_because(out, first, second)
}

// Explains a question that the table of rules answers by no.
fn explain_no<K: Sink>(query: &Query, criterion: Criterion, out: &mut K) -> Ending
    requires bounds { in_bounds query.now ≡ true }
    requires criterion { criterion_of query.now ≡ Some criterion }
    ensures ends { EndsWith (verdict_report query.now (Verdict.No criterion) (because_lines (numbers_of query.now))) result (K.held out.old) (K.held out.new) }
    ensures cause { HasFault result (K.faults out.old) (K.faults out.new) }
    ensures answered { IsAnswer result }
    ensures no_read { result ≢ Ending.ReadFault }
    ensures no_offer { (number : ℕ) → result ≢ Ending.CatalogueFault number }
    ensures memory { result ≢ Ending.NoMemory }
{
    match write_reason(out, query, criterion) {
        Ok(()) => Ending::No,
        Err(Failed) => Ending::WriteFault,
    }
}

/// Answers `explain` on a question in bounds: its verdict, and its derivation or the two numbers of its criterion.
#[tactic(auto, using(rule_table::proofs::Meanings::criterion_of_no))]
pub fn answer_explain<K: Sink, A: Asker + Drop, L: Ledger>(
    query: &Query,
    oracle: &mut Oracle<A, L>,
    out: &mut K,
) -> Ending
    requires { in_bounds query.now ≡ true }
    ensures ends { EndsWith (verdict_report query.now (verdict_of query.now) (reason_lines query.now (verdict_of query.now))) result (K.held out.old) (K.held out.new) }
    ensures cause { HasFault result (K.faults out.old) (K.faults out.new) }
    ensures answered { IsAnswer result }
    ensures no_read { result ≢ Ending.ReadFault }
    ensures no_offer { (number : ℕ) → result ≢ Ending.CatalogueFault number }
{
    match oracle.verdict(query) {
        Verdict::Yes(step) => {
            let Ok(derivation) = oracle.derivation(query, &step) else {
                return Ending::NoMemory;
            };
            explain_yes(query, &step, &derivation, out)
        }
        Verdict::No(criterion) => explain_no(query, criterion, out),
        Verdict::Unknown => answer_verdict(query, &Verdict::Unknown, out),
    }
}
