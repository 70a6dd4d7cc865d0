//! Printing a derivation: version 1 of its text.
ghost use Rattle.std.specs.Prelude.{◌≡◌, ◌+◌, ◌*◌, ◌≤◌, true, All, OnErr, OnOk, length};
ghost use Rattle.std.specs.List.{flat_map};
ghost use Rattle.design_base.specs.declared.limits.TheConstants.{PREMISES_MAX};
ghost use Rattle.design_base.specs.Steps.{IsStep};
ghost use Rattle.design_io.specs.Faults.{HasCause, counted};
ghost use Rattle.design_io.specs.Pieces.{AppendsWhole};
ghost use Rattle.design_lines.specs.Grammar.{is_narrow};
ghost use Rattle.design_lines.specs.Printed.{with_words};
ghost use Rattle.design_lines.specs.declared.line.TheConstants.{LINE_ROOM};
ghost use Rattle.derivations.specs.Spelled.{ArePrintable};
ghost use Rattle.derivation_text.specs.Spelling.{IsKept, IsReadBack, text_of};
ghost use Rattle.derivation_text.specs.Text.{from_words, numbered_line as numbered_text, numbered_lines};

use derivations::{Derivation, Line};
use design_base::{Query, Step};
use design_io::{Failed, Sink, write_whole};
use design_lines::{TextLine, counted_line, question_text, step_text};

// Appends the numbers of the lines that a line names, where it names any.
#[tactic(auto, using(crate::proofs::Texts::from_none, design_lines::proofs::Joined::numbers_more))]
fn push_names(text: &mut TextLine, numbers: &[u64])
    requires { length text.old + 5 + 21 * length numbers.now ≤ LINE_ROOM }
    ensures words { text.new ≡ with_words text.old (from_words numbers.now) }
    ensures short { length text.new ≤ length text.old + 5 + 21 * length numbers.now }
{
    if numbers.is_empty() {
        return;
    }
    text.push_word(b"from");
    for number in numbers {
        text.push_number(*number);
    }
}

// No number of a question is above 65,535.
fn narrow(query: Query)
    ensures { is_narrow query ≡ true }
{
    match query {
        Query::Td { k: _k, n: _n } => {}
        Query::Df {
            group: _,
            v: _v,
            k: _k,
            l: _l,
        } => {}
        Query::Bibd {
            v: _v,
            k: _k,
            l: _l,
        } => {}
        Query::Gdd {
            k: _k,
            g: _g,
            u: _u,
        } => {}
        Query::Pbd { v: _v, s: _s } => {}
    }
}

// A step is one of its rule.
fn step_of_rule(step: Step)
    ensures { IsStep step }
{}

// Puts a line with its number in place of what the text held.
#[tactic(auto, using(crate::proofs::Texts::numbered_joined))]
fn set_numbered(text: &mut TextLine, number: u64, line: &Line)
    requires few { length line.now.from ≤ PREMISES_MAX }
    ensures text { text.new ≡ numbered_text number line.now }
    ensures kept { IsKept line.now }
{
    narrow(line.query);
    step_of_rule(line.step);
    text.clear();
    text.push_number(number);
    text.push_word(question_text(&line.query).bytes());
    text.push_word(step_text(&line.step).bytes());
    push_names(text, line.from.as_slice());
    text.end();
}

// Writes the lines, numbered from 1 on.
fn write_numbered<K: Sink>(lines: &[Line], sink: &mut K) -> Result<(), Failed>
    requires few { ArePrintable lines.now }
    ensures bytes { AppendsWhole (K.held sink.old) (K.held sink.new) result (flat_map (λ line. line) (numbered_lines 1 lines.now)) }
    ensures each { OnOk result (All IsKept lines.now) }
    ensures cause { HasCause (K.faults sink.old) (K.faults sink.new) result }
    ensures kept { OnOk result (K.faults sink.new ≡ K.faults sink.old) }
    ensures failed { OnErr result (K.faults sink.new ≡ counted (K.faults sink.old)) }
{
    let mut text = TextLine::new();
    for (i, line) in lines.iter().enumerate() {
        set_numbered(&mut text, i as u64 + 1, line);
        write_whole(sink, text.bytes())?;
    }
    Ok(())
}

/// Writes the text of a derivation, version 1: a line `derivation 1`; each line with its number, from 1 on, its question, its
/// step and, where it names any, the lines that it names; and `end` with the number of lines. No line names more than
/// `PREMISES_MAX` others. `Failed` comes at the first write that fails, which counts as one fault; a proper front of the text was
/// appended then. The text of 1 to `DERIVATION_MAX` lines that can be spelled is read back by `parse_v1`.
pub fn print_v1<K: Sink>(lines: &Derivation, sink: &mut K) -> Result<(), Failed>
    requires few { ArePrintable lines.now }
    ensures bytes { AppendsWhole (K.held sink.old) (K.held sink.new) result (text_of lines.now) }
    ensures read_back { OnOk result (IsReadBack lines.now) }
    ensures cause { HasCause (K.faults sink.old) (K.faults sink.new) result }
    ensures kept { OnOk result (K.faults sink.new ≡ K.faults sink.old) }
    ensures failed { OnErr result (K.faults sink.new ≡ counted (K.faults sink.old)) }
{
    write_whole(sink, counted_line("derivation", 1).bytes())?;
    write_numbered(lines.as_slice(), sink)?;
    write_whole(sink, counted_line("end", lines.len() as u64).bytes())
}
