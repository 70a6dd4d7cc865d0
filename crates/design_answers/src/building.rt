//! The answer to `build`: the verdict, for yes its derivation and its blocks, and for an open question what catalogues offer.
ghost use Rattle.std.specs.Prelude.{◌≡◌, ◌≢◌, ◌<◌, ◌^◌, ◌++◌, ℕ, false, length, map, true};
ghost use Rattle.std.specs.List.{flat_map};
ghost use Rattle.catalogues.specs.Consulted.{consulted};
ghost use Rattle.catalogues.specs.Consults.{HasFailed};
ghost use Rattle.catalogues.specs.Left.{AreLeft};
ghost use Rattle.derivation_text.specs.Text.{derivation_lines};
ghost use Rattle.design_base.specs.Limits.{in_bounds};
ghost use Rattle.design_answers.specs.Answered.{AnswersOn, HasOfferFault};
ghost use Rattle.design_answers.specs.Draws.{is_unknown};
ghost use Rattle.design_answers.specs.Offers.{handed_report};
ghost use Rattle.design_answers.specs.Requests.{asked_by, build_report, built_lines, design_lines, left_by};
ghost use Rattle.design_io.specs.Faults.{HasCause};
ghost use Rattle.design_io.specs.Pieces.{AppendsWhole};
ghost use Rattle.design_reports.specs.Answers.{EndsWith, HasFault, IsAnswer};
ghost use Rattle.design_reports.specs.Parts.{IsPrintable, part_lines};
ghost use Rattle.design_reports.specs.Reports.{verdict_report};
ghost use Rattle.design_reports.specs.Texts.{verdict_line as verdict_text};
ghost use Rattle.rule_table.specs.Verdicts.{verdict as verdict_of};

use crate::explaining::answer_verdict;
use crate::offers::{answer_handed, ending_of};
use crate::oracle::{Built, Oracle};
use catalogues::Catalogue;
use derivation_text::print_v1;
use derivations::SoundDerivation;
use design_base::{Query, Step, Verdict};
use design_io::{Failed, Sink};
use design_lines::Shape;
use design_reports::{Ending, Part, part_of_design, write_part, write_verdict};
use rule_table::Asker;
use std::alloc::Global;
use std::sync::ledger::Ledger;

// Writes the verdict yes, its derivation, and the blocks.
#[tactic(auto, using(design_io::proofs::Pieces::composed))]
fn write_yes<K: Sink>(
    out: &mut K,
    query: &Query,
    step: &Step,
    derivation: &SoundDerivation,
    part: &Part,
) -> Result<(), Failed>
    requires printable { IsPrintable part.now }
    ensures bytes { AppendsWhole (K.held out.old) (K.held out.new) result (verdict_text query.now (Verdict.Yes step.now) ++ (flat_map (λ line. line) (derivation_lines derivation.now) ++ flat_map (λ line. line) (part_lines part.now))) }
    ensures cause { HasCause (K.faults out.old) (K.faults out.new) result }
{
    write_verdict(out, query, &Verdict::Yes(*step))?;
    print_v1(derivation.lines(), out)?;
    write_part(out, part)
}

// Answers a question whose verdict is yes with its design. All blocks are made before the first byte is written.
#[tactic(auto, using(design_reports::proofs::Outputs::output_of_both))]
fn answer_built<K: Sink>(
    alloc: Global,
    shape: Shape,
    step: &Step,
    built: Built,
    out: &mut K,
) -> Ending
    ensures ends { EndsWith (verdict_report built.design.query (Verdict.Yes step.now) (built_lines built.design.query shape built.derivation built.design.blocks)) result (K.held out.old) (K.held out.new) }
    ensures cause { HasFault result (K.faults out.old) (K.faults out.new) }
    ensures no_read { result ≢ Ending.ReadFault }
    ensures no_offer { (number : ℕ) → result ≢ Ending.CatalogueFault number }
    ensures answered { IsAnswer result }
{
    let Built { derivation, design } = built;
    let query = design.query();
    let Ok(part) = part_of_design(alloc, design, shape) else {
        return Ending::NoMemory;
    };
    match write_yes(out, &query, step, &derivation, &part) {
        Ok(()) => Ending::Yes,
        Err(Failed) => Ending::WriteFault,
    }
}

// Answers an open question with what the catalogues offer, and the blocks of the offer that is a design.
fn answer_open<K: Sink, A: Asker + Drop, L: Ledger>(
    query: &Query,
    shape: Shape,
    catalogues: &mut Vec<Box<dyn Catalogue>>,
    oracle: &mut Oracle<A, L>,
    out: &mut K,
) -> Ending
    requires bounds { in_bounds query.now ≡ true }
    requires few { length catalogues.old.items < 2 ^ 32 }
    ensures ends { AnswersOn (map seen catalogues.old.items) (map seen catalogues.new.items) (handed_report query.now shape) (λ lists. (consulted query.now lists).lists) (asked_by query.now Verdict.Unknown) result (K.held out.old) (K.held out.new) }
    ensures cause { HasFault result (K.faults out.old) (K.faults out.new) }
    ensures offer { (number : ℕ) → result ≡ Ending.CatalogueFault number → HasFailed (map seen catalogues.old.items) (map seen catalogues.new.items) number }
    ensures left { AreLeft (map seen catalogues.old.items) (map seen catalogues.new.items) }
    ensures no_read { result ≢ Ending.ReadFault }
    ensures answered { IsAnswer result }
{
    match oracle.consult(query, catalogues) {
        Ok(offers) => answer_handed(oracle.alloc(), query, shape, offers, out),
        Err(end) => ending_of(end),
    }
}

// Answers a question whose verdict is yes by its design.
fn answer_yes<K: Sink, A: Asker + Drop, L: Ledger>(
    query: &Query,
    shape: Shape,
    step: &Step,
    oracle: &mut Oracle<A, L>,
    out: &mut K,
) -> Ending
    requires bounds { in_bounds query.now ≡ true }
    requires yes { verdict_of query.now ≡ Verdict.Yes step.now }
    ensures ends { EndsWith (verdict_report query.now (verdict_of query.now) (design_lines query.now shape (verdict_of query.now))) result (K.held out.old) (K.held out.new) }
    ensures cause { HasFault result (K.faults out.old) (K.faults out.new) }
    ensures no_read { result ≢ Ending.ReadFault }
    ensures no_offer { (number : ℕ) → result ≢ Ending.CatalogueFault number }
    ensures answered { IsAnswer result }
{
    let Ok(built) = oracle.build(query, step) else {
        return Ending::NoMemory;
    };
    answer_built(oracle.alloc(), shape, step, built, out)
}

/// Answers `build` on a question in bounds: its verdict, for yes its design, and for an open question what the catalogues offer and the blocks of the
/// offer that is a design.
pub fn answer_build<K: Sink, A: Asker + Drop, L: Ledger>(
    query: &Query,
    shape: Shape,
    catalogues: &mut Vec<Box<dyn Catalogue>>,
    oracle: &mut Oracle<A, L>,
    out: &mut K,
) -> Ending
    requires bounds { in_bounds query.now ≡ true }
    requires few { length catalogues.old.items < 2 ^ 32 }
    ensures ends { AnswersOn (map seen catalogues.old.items) (map seen catalogues.new.items) (build_report query.now shape (verdict_of query.now)) (left_by query.now (verdict_of query.now)) (asked_by query.now (verdict_of query.now)) result (K.held out.old) (K.held out.new) }
    ensures cause { HasFault result (K.faults out.old) (K.faults out.new) }
    ensures offer { (number : ℕ) → result ≡ Ending.CatalogueFault number → HasOfferFault (is_unknown (verdict_of query.now)) (map seen catalogues.old.items) (map seen catalogues.new.items) number }
    ensures left { AreLeft (map seen catalogues.old.items) (map seen catalogues.new.items) }
    ensures unasked { is_unknown (verdict_of query.now) ≡ false → catalogues.new ≡ catalogues.old }
    ensures no_read { result ≢ Ending.ReadFault }
    ensures answered { IsAnswer result }
{
    match oracle.verdict(query) {
        Verdict::Yes(step) => answer_yes(query, shape, &step, oracle, out),
        Verdict::No(criterion) => answer_verdict(query, &Verdict::No(criterion), out),
        Verdict::Unknown => answer_open(query, shape, catalogues, oracle, out),
    }
}
