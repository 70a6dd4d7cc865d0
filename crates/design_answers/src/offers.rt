//! What is said of offers: those that are no designs, and the one that is.
ghost use Rattle.std.specs.Prelude.{◌≡◌, ◌≢◌, ◌++◌, [], IfSome, Some, true, ℕ};
ghost use Rattle.std.specs.List.{flat_map};
ghost use Rattle.design_answers.specs.Offers.{counted as counted_offer, ending_at_consult, handed_lines, offers_report, refused_lines, valid_lines};
ghost use Rattle.design_base.specs.Limits.{in_bounds};
ghost use Rattle.design_base.specs.Meets.{Meets};
ghost use Rattle.design_io.specs.Faults.{HasCause};
ghost use Rattle.design_io.specs.Pieces.{AppendsWhole};
ghost use Rattle.design_reports.specs.Answers.{EndsWith, HasFault, IsAnswer};
ghost use Rattle.design_reports.specs.Parts.{IsPrintable, part_lines};
ghost use Rattle.design_reports.specs.Texts.{verdict_line as verdict_text};

use catalogues::{ConsultEnd, Consulted, Rejected};
use design_base::{Query, Verdict};
use design_io::{Failed, Sink};
use design_lines::Shape;
use design_reports::{
    Ending, Part, part_of_design, write_part, write_refused_offer, write_valid_offer, write_verdict,
};
use incidence::Rows;
use proved_designs::Design;
use std::alloc::Global;

/// The number of the catalogue whose offer is a design, and how many blocks that has.
pub fn counted(valid: &Option<(u32, Rows)>) -> Option<(u32, usize)>
    ensures { result ≡ counted_offer valid.now }
{
    match valid {
        Some((number, blocks)) => Some((*number, blocks.len())),
        None => None,
    }
}

// Writes what the check of each offer found that is no design.
fn write_refused<K: Sink>(out: &mut K, refused: &[Rejected]) -> Result<(), Failed>
    ensures bytes { AppendsWhole (K.held out.old) (K.held out.new) result (flat_map (λ line. line) (refused_lines refused.now)) }
    ensures cause { HasCause (K.faults out.old) (K.faults out.new) result }
{
    for offer in refused {
        write_refused_offer(out, offer.number, offer.finding)?;
    }
    Ok(())
}

// Writes that an offer is a design, where one is.
fn write_valid<K: Sink>(out: &mut K, valid: Option<(u32, usize)>) -> Result<(), Failed>
    ensures bytes { AppendsWhole (K.held out.old) (K.held out.new) result (flat_map (λ line. line) (valid_lines valid)) }
    ensures cause { HasCause (K.faults out.old) (K.faults out.new) result }
{
    match valid {
        Some((number, blocks)) => write_valid_offer(out, number, blocks),
        None => Ok(()),
    }
}

// Writes that a question is open, and the offers.
#[tactic(auto, using(design_io::proofs::Pieces::composed))]
fn write_offers<K: Sink>(
    out: &mut K,
    query: &Query,
    refused: &[Rejected],
    valid: Option<(u32, usize)>,
) -> Result<(), Failed>
    ensures bytes { AppendsWhole (K.held out.old) (K.held out.new) result (verdict_text query.now Verdict.Unknown ++ (flat_map (λ line. line) (refused_lines refused.now) ++ flat_map (λ line. line) (valid_lines valid))) }
    ensures cause { HasCause (K.faults out.old) (K.faults out.new) result }
{
    write_verdict(out, query, &Verdict::Unknown)?;
    write_refused(out, refused)?;
    write_valid(out, valid)
}

// Writes the same, and the blocks of the offer that is a design.
#[tactic(auto, using(design_io::proofs::Pieces::composed))]
fn write_handed<K: Sink>(
    out: &mut K,
    query: &Query,
    refused: &[Rejected],
    valid: (u32, usize),
    part: &Part,
) -> Result<(), Failed>
    requires printable { IsPrintable part.now }
    ensures bytes { AppendsWhole (K.held out.old) (K.held out.new) result ((verdict_text query.now Verdict.Unknown ++ (flat_map (λ line. line) (refused_lines refused.now) ++ flat_map (λ line. line) (valid_lines (Some valid)))) ++ flat_map (λ line. line) (part_lines part.now)) }
    ensures cause { HasCause (K.faults out.old) (K.faults out.new) result }
{
    write_offers(out, query, refused, Some(valid))?;
    write_part(out, part)
}

/// How an answer ends where the catalogues were not asked to the end.
pub fn ending_of(end: ConsultEnd) -> Ending
    ensures { result ≡ ending_at_consult end }
{
    match end {
        ConsultEnd::Failed { number } => Ending::CatalogueFault { number },
        ConsultEnd::Memory => Ending::NoMemory,
    }
}

/// Answers an open question with the offers: those that are no designs, and the number of the catalogue whose offer is one, and how many blocks
/// that has. It takes no memory.
#[tactic(auto, using(crate::proofs::Offered::offers_output))]
pub fn answer_offers<K: Sink>(
    query: &Query,
    refused: &[Rejected],
    valid: Option<(u32, usize)>,
    out: &mut K,
) -> Ending
    ensures ends { EndsWith (offers_report query.now refused.now valid []) result (K.held out.old) (K.held out.new) }
    ensures cause { HasFault result (K.faults out.old) (K.faults out.new) }
    ensures memory { result ≢ Ending.NoMemory }
    ensures no_read { result ≢ Ending.ReadFault }
    ensures no_offer { (number : ℕ) → result ≢ Ending.CatalogueFault number }
    ensures answered { IsAnswer result }
{
    match write_offers(out, query, refused, valid) {
        Ok(()) => match valid {
            Some(_) => Ending::Yes,
            None => Ending::Unknown,
        },
        Err(Failed) => Ending::WriteFault,
    }
}

/// Answers an open question with the offers, and the blocks of the one that is a design, in the shape that is asked for. All memory is taken
/// before the first byte is written.
#[tactic(auto, using(crate::proofs::Offered::handed_output))]
pub fn answer_handed<K: Sink>(
    alloc: Global,
    query: &Query,
    shape: Shape,
    offers: Consulted,
    out: &mut K,
) -> Ending
    requires bounds { in_bounds query.now ≡ true }
    requires design { IfSome offers.valid (λ offer. Meets query.now offer.1) }
    ensures ends { EndsWith (offers_report query.now offers.rejected (counted_offer offers.valid) (handed_lines query.now shape offers.valid)) result (K.held out.old) (K.held out.new) }
    ensures cause { HasFault result (K.faults out.old) (K.faults out.new) }
    ensures no_read { result ≢ Ending.ReadFault }
    ensures no_offer { (number : ℕ) → result ≢ Ending.CatalogueFault number }
    ensures answered { IsAnswer result }
{
    let Consulted { rejected, valid } = offers;
    let refused = rejected.as_slice();
    let Some(offer) = valid else {
        return answer_offers(query, refused, None, out);
    };
    let (number, blocks) = offer;
    let count = blocks.len();
    let design = Design::new(*query, blocks);
    let Ok(part) = part_of_design(alloc, design, shape) else {
        return Ending::NoMemory;
    };
    match write_handed(out, query, refused, (number, count), &part) {
        Ok(()) => Ending::Yes,
        Err(Failed) => Ending::WriteFault,
    }
}
