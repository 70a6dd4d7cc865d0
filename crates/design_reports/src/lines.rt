//! The lines of a report, each put together in place and written whole.
ghost use Rattle.std.specs.Prelude.{◌≡◌, ◌+◌, ◌<◌, ◌≤◌, [], ◌∷◌, All, Some, length, slice_range};
ghost use Rattle.std.specs.Fmt.{decimal};
ghost use Rattle.std.specs.List.{flat_map};
ghost use Rattle.design_io.specs.Faults.{HasCause};
ghost use Rattle.design_io.specs.Pieces.{AppendsWhole};
ghost use Rattle.design_base.specs.declared.limits.TheConstants.{POINTS_MAX};
ghost use Rattle.design_lines.specs.Printed.{counted_line as counted_text, with_words};
ghost use Rattle.design_reports.specs.Texts.{because_lines as because_texts, fault_line as fault_text, fault_word, finding_line as finding_text, finding_words, refused_offer_line as refused_offer_text, row_line as row_text, valid_offer_line as valid_offer_text, verdict_line as verdict_text};

use derivations::{Fault, LineFault};
use design_base::{Query, Verdict};
use design_checks::Finding;
use design_io::{Failed, Sink, write_whole};
use design_lines::{RowPrinter, TextLine, counted_line, criterion_name, question_text, step_text};
use incidence::Rows;

/// The question and its verdict.
#[tactic(auto, using(crate::proofs::Words::question_lines), unfolding(crate::specs::Texts::verdict_line))]
fn verdict_line(query: &Query, verdict: &Verdict) -> TextLine
    ensures { result ≡ verdict_text query.now verdict.now }
{
    let mut line = TextLine::new();
    line.push_word(question_text(query).bytes());
    match verdict {
        Verdict::Yes(step) => {
            line.push_word(b"yes");
            line.push_word(step_text(step).bytes());
        }
        Verdict::No(criterion) => {
            line.push_word(b"no");
            line.push_word(criterion_name(*criterion).as_bytes());
        }
        Verdict::Unknown => line.push_word(b"unknown"),
    }
    line.end();
    line
}

// The two numbers that a criterion compares.
#[tactic(auto, using(crate::proofs::Words::line_of_three))]
fn because_line(first: u32, second: u32) -> TextLine
    ensures { because_texts (Some (first, second)) ≡ result ∷ [] }
{
    let mut line = TextLine::new();
    line.push_word(b"because");
    line.push_number(u64::from(first));
    line.push_number(u64::from(second));
    line.end();
    line
}

// Appends what the check of blocks found.
fn push_finding(line: &mut TextLine, finding: Finding)
    requires room { length line.old ≤ 100 }
    ensures words { line.new ≡ with_words line.old (finding_words finding) }
    ensures short { length line.new ≤ length line.old + 100 }
{
    match finding {
        Finding::Valid => line.push_word(b"valid"),
        Finding::BadBlock { index } => {
            line.push_word(b"invalid block");
            line.push_number(u64::from(index));
        }
        Finding::BadPair { x, y, count } => {
            line.push_word(b"invalid pair");
            line.push_number(u64::from(x));
            line.push_number(u64::from(y));
            line.push_word(b"covered");
            line.push_number(u64::from(count));
        }
    }
}

// What the check of blocks found.
#[tactic(auto, using(crate::proofs::Words::finding_joined), unfolding(crate::specs::Texts::finding_line))]
fn finding_line(query: &Query, finding: Finding) -> TextLine
    ensures { result ≡ finding_text query.now finding }
{
    let mut line = TextLine::new();
    line.push_word(question_text(query).bytes());
    push_finding(&mut line, finding);
    line.end();
    line
}

// What the check of an offer found.
#[tactic(auto, using(crate::proofs::Words::offer_joined), unfolding(crate::specs::Texts::refused_offer_line))]
fn refused_offer_line(number: u32, finding: Finding) -> TextLine
    ensures { result ≡ refused_offer_text number finding }
{
    let mut line = TextLine::new();
    line.push_word(b"offer");
    line.push_number(u64::from(number));
    push_finding(&mut line, finding);
    line.end();
    line
}

// That an offer is a design.
#[tactic(auto, using(crate::proofs::Words::valid_joined), unfolding(crate::specs::Texts::valid_offer_line))]
fn valid_offer_line(number: u32, blocks: usize) -> TextLine
    ensures { result ≡ valid_offer_text number blocks }
{
    let mut line = TextLine::new();
    line.push_word(b"offer");
    line.push_number(u64::from(number));
    line.push_word(b"valid");
    line.push_number(blocks as u64);
    line.push_word(b"blocks");
    line.end();
    line
}

// The printed name of what is wrong with a line of a derivation.
fn fault_name(fault: LineFault) -> &'static str
    ensures name { result.now ≡ fault_word fault }
    ensures short { length result.now ≤ 20 }
{
    match fault {
        LineFault::OutOfBounds => "out of bounds",
        LineFault::NotCandidate => "not a candidate",
        LineFault::ForwardReference => "forward reference",
        LineFault::MissingPremise => "missing premise",
        LineFault::UsedTwice => "used twice",
        LineFault::Surplus => "surplus line",
    }
}

// The line of a derivation that has a fault, and what is wrong with it.
#[tactic(auto, using(crate::proofs::Words::line_of_three), unfolding(crate::specs::Texts::fault_line))]
fn fault_line(fault: Fault) -> TextLine
    ensures { result ≡ fault_text fault }
{
    let mut line = TextLine::new();
    line.push_word(b"invalid line");
    line.push_number(fault.number);
    line.push_word(fault_name(fault.fault).as_bytes());
    line.end();
    line
}

// Writes the numbers of a row on a line.
fn write_row<K: Sink>(out: &mut K, printer: &mut RowPrinter, row: &[u16]) -> Result<(), Failed>
    requires { length row.now ≤ POINTS_MAX }
    ensures bytes { AppendsWhole (K.held out.old) (K.held out.new) result (row_text row.now) }
    ensures cause { HasCause (K.faults out.old) (K.faults out.new) result }
{
    write_whole(out, printer.line(row))
}

/// Writes a word of 1 to 100 bytes and a number on a line. It is refused where the output fails; a front of the line may stand then.
pub fn write_counted<K: Sink>(out: &mut K, word: &str, number: u64) -> Result<(), Failed>
    requires started { 0 < length word.now }
    requires short { length word.now ≤ 100 }
    ensures bytes { AppendsWhole (K.held out.old) (K.held out.new) result (counted_text word.now number) }
    ensures cause { HasCause (K.faults out.old) (K.faults out.new) result }
{
    write_whole(out, counted_line(word, number).bytes())
}

/// Writes the numbers of the rows from place `start` on, below place `end`, each row on a line that the printer makes.
#[tactic(auto, using(crate::proofs::Outputs::rows_none))]
pub fn write_rows<K: Sink>(
    out: &mut K,
    printer: &mut RowPrinter,
    rows: &Rows,
    start: usize,
    end: usize,
) -> Result<(), Failed>
    requires within { (start ≤ end) × (end ≤ length rows.now) }
    requires printable { All (λ row. length row ≤ POINTS_MAX) rows.now }
    ensures bytes { AppendsWhole (K.held out.old) (K.held out.new) result (flat_map row_text (slice_range rows.now start end)) }
    ensures cause { HasCause (K.faults out.old) (K.faults out.new) result }
{
    for i in start..end {
        write_row(out, printer, rows.row(i))?;
    }
    Ok(())
}

/// Writes a question and its verdict on a line: `yes` with the step, `no` with the criterion, or `unknown`. It is refused where the
/// output fails; a front of the line may stand then.
pub fn write_verdict<K: Sink>(out: &mut K, query: &Query, verdict: &Verdict) -> Result<(), Failed>
    ensures bytes { AppendsWhole (K.held out.old) (K.held out.new) result (verdict_text query.now verdict.now) }
    ensures cause { HasCause (K.faults out.old) (K.faults out.new) result }
{
    write_whole(out, verdict_line(query, verdict).bytes())
}

/// Writes `because` and the two numbers that a criterion compares on a line. It is refused where the output fails; a front of the line
/// may stand then.
pub fn write_because<K: Sink>(out: &mut K, first: u32, second: u32) -> Result<(), Failed>
    ensures bytes { AppendsWhole (K.held out.old) (K.held out.new) result (flat_map (λ line. line) (because_texts (Some (first, second)))) }
    ensures cause { HasCause (K.faults out.old) (K.faults out.new) result }
{
    write_whole(out, because_line(first, second).bytes())
}

/// Writes a question and what the check of blocks found on a line: `valid`, or `invalid` with the bad block or the bad pair. It is
/// refused where the output fails; a front of the line may stand then.
pub fn write_finding<K: Sink>(out: &mut K, query: &Query, finding: Finding) -> Result<(), Failed>
    ensures bytes { AppendsWhole (K.held out.old) (K.held out.new) result (finding_text query.now finding) }
    ensures cause { HasCause (K.faults out.old) (K.faults out.new) result }
{
    write_whole(out, finding_line(query, finding).bytes())
}

/// Writes `offer`, the number of a catalogue and what the check of its offer found on a line. It is refused where the output fails; a
/// front of the line may stand then.
pub fn write_refused_offer<K: Sink>(
    out: &mut K,
    number: u32,
    finding: Finding,
) -> Result<(), Failed>
    ensures bytes { AppendsWhole (K.held out.old) (K.held out.new) result (refused_offer_text number finding) }
    ensures cause { HasCause (K.faults out.old) (K.faults out.new) result }
{
    write_whole(out, refused_offer_line(number, finding).bytes())
}

/// Writes `offer`, the number of a catalogue and that what it offered is a design of so many blocks on a line. It is refused where the
/// output fails; a front of the line may stand then.
pub fn write_valid_offer<K: Sink>(out: &mut K, number: u32, blocks: usize) -> Result<(), Failed>
    ensures bytes { AppendsWhole (K.held out.old) (K.held out.new) result (valid_offer_text number blocks) }
    ensures cause { HasCause (K.faults out.old) (K.faults out.new) result }
{
    write_whole(out, valid_offer_line(number, blocks).bytes())
}

/// Writes the fault of a derivation on a line: the number of the bad line, and what is wrong with it. It is refused where the output
/// fails; a front of the line may stand then.
pub fn write_fault<K: Sink>(out: &mut K, fault: Fault) -> Result<(), Failed>
    ensures bytes { AppendsWhole (K.held out.old) (K.held out.new) result (fault_text fault) }
    ensures cause { HasCause (K.faults out.old) (K.faults out.new) result }
{
    write_whole(out, fault_line(fault).bytes())
}
