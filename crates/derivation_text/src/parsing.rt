//! Reading a derivation: version 1 of its text.
ghost use Rattle.std.specs.Prelude.{◌≡◌, ℕ, ◌+◌, ◌<◌, ◌≤◌, [], false, length, IfErr, IfOk, IfSome, Ok, Some};
ghost use Rattle.design_base.specs.declared.limits.TheConstants.{DERIVATION_MAX, PARAMETER_MAX};
ghost use Rattle.design_base.specs.Rules.{kind_of};
ghost use Rattle.design_io.specs.InputLines.{lines_of};
ghost use Rattle.design_lines.specs.Reading.{Reads};
ghost use Rattle.derivation_text.specs.Grammar.{EndIs, is_end, is_head as is_head_line, is_head_text as is_head_bytes, line_read, names, numbers_behind, parameter, parse_behind, parse_text, parsed, rule_word, spelled_line, step_of_rule};
ghost use Rattle.derivation_text.specs.Spelling.{text_of};

use derivations::{Derivation, Line, Names};
use design_base::{
    DERIVATION_MAX, Memory, PARAMETER_MAX, PREMISES_MAX, Query, Rule, Step, rule_named,
};
use design_io::{FirstLine, split_line};
use design_lines::{Reason, Words};
use std::alloc::Global;

/// Why a text is no derivation.
#[derive(Clone, Copy, Debug, PartialEq, Eq)]
pub enum ParseEnd {
    /// The first line, from 1, that is not spelled as it should be, or is missing.
    Spelling { line: u32 },
    /// There are more lines than a derivation may have.
    TooLong,
    /// There was no memory.
    Memory,
}

impl From<Memory> for ParseEnd {
    ghost use Rattle.derivation_text.specs.declared.parsing.ParseEnd.TheVariants.{Memory as Wanting};

    ghost from_gives = { λ _ e. e ≡ Wanting };

    fn from(_: Memory) -> Self {
        ParseEnd::Memory
    }
}

// The name of a rule of the question's kind.
#[tactic(auto, unfolding(crate::specs::Grammar::rule_word, design_lines::specs::Reading::no_fixed_word))]
fn read_rule(words: &mut Words, query: &Query) -> Result<Option<Rule>, Reason>
    ensures { Reads (rule_word (kind_of query.now)) words.old words.new result }
{
    let Some(word) = words.next_word() else {
        return Err(words.no_fixed_word());
    };
    Ok(rule_named(query.kind(), word))
}

// A parameter, where the rule has it, and else 0. None where it is too large.
#[tactic(auto, unfolding(crate::specs::Grammar::parameter))]
fn read_parameter(words: &mut Words, is_used: bool) -> Result<Option<u16>, Reason>
    ensures reads { Reads (parameter is_used) words.old words.new result }
    ensures small { IfOk result (λ o. IfSome o (λ n. n ≤ PARAMETER_MAX)) }
    ensures unused { is_used ≡ false → result ≡ Ok (Some 0) }
{
    if !is_used {
        return Ok(Some(0));
    }
    let number = words.number()?;
    if number > u64::from(PARAMETER_MAX) {
        return Ok(None);
    }
    Ok(Some(number as u16))
}

// As many parameters as the rule has.
#[tactic(auto, unfolding(crate::specs::Grammar::step_of_rule))]
fn read_step(words: &mut Words, rule: Rule) -> Result<Option<Step>, Reason>
    ensures { Reads (step_of_rule rule) words.old words.new result }
{
    let count = rule.parameters();
    let Some(a) = read_parameter(words, 1 <= count)? else {
        return Ok(None);
    };
    let Some(b) = read_parameter(words, 2 <= count)? else {
        return Ok(None);
    };
    let Some(c) = read_parameter(words, 3 <= count)? else {
        return Ok(None);
    };
    let Some(d) = read_parameter(words, 4 <= count)? else {
        return Ok(None);
    };
    Ok(Some(Step::new(rule, a, b, c, d)))
}

// Numbers up to the end of the line, so many at most, behind those before them.
#[tactic(auto, unfolding(crate::specs::Grammar::numbers_behind))]
fn read_numbers(words: &mut Words, mut before: Names, most: usize) -> Result<Names, Reason>
    requires { length before + most ≤ 8 }
    ensures { Reads (numbers_behind most before) words.old words.new result }
{
    if most == 0 || words.is_empty() {
        return Ok(before);
    }
    let number = words.number()?;
    let Ok(()) = before.push(number) else {
        unreachable!();
    };
    let all = read_numbers(words, before, most - 1)?;
    Ok(all)
}

// The lines that are named: none, or behind `from` one at least.
#[tactic(auto, unfolding(crate::specs::Grammar::names, design_lines::specs::Reading::one_of_or))]
fn read_names(alloc: Global, words: &mut Words) -> Result<Names, Reason>
    ensures { Reads names words.old words.new result }
{
    let mut first = Names::new(alloc);
    if !words.takes("from") {
        return Ok(first);
    }
    let number = words.number()?;
    let Ok(()) = first.push(number) else {
        unreachable!();
    };
    let all = read_numbers(words, first, PREMISES_MAX - 1)?;
    Ok(all)
}

// A line with this number.
#[tactic(auto, unfolding(crate::specs::Grammar::line_read))]
fn read_line(alloc: Global, words: &mut Words, number: u64) -> Result<Option<Line>, Reason>
    ensures { Reads (line_read number) words.old words.new result }
{
    if words.number()? != number {
        return Ok(None);
    }
    let Some(query) = words.normal_question()? else {
        return Ok(None);
    };
    let Some(rule) = read_rule(words, &query)? else {
        return Ok(None);
    };
    let Some(step) = read_step(words, rule)? else {
        return Ok(None);
    };
    let from = read_names(alloc, words)?;
    Ok(Some(Line { query, step, from }))
}

// The line of the derivation that a line of the text spells with this number, where it spells one.
#[tactic(auto, unfolding(crate::specs::Grammar::spelled_line, design_lines::specs::Reading::at_end))]
fn line_of(alloc: Global, number: u64, line: &FirstLine) -> Option<Line>
    ensures { result ≡ spelled_line number (record { bytes = line.now.bytes.now; is_ended = line.now.is_ended }) }
{
    if !line.is_ended {
        return None;
    }
    let mut words = Words::of_spaced(line.bytes);
    let Ok(read) = read_line(alloc, &mut words, number) else {
        return None;
    };
    if words.finish().is_err() {
        return None;
    }
    read
}

// Whether a line of the text is the line `end` behind so many lines.
#[tactic(auto, unfolding(crate::specs::Grammar::is_end, crate::specs::Grammar::end_line, design_lines::specs::Reading::at_end, design_lines::specs::Reading::one_of_or))]
fn is_end_line(count: usize, line: &FirstLine) -> bool
    ensures { result ≡ is_end count (record { bytes = line.now.bytes.now; is_ended = line.now.is_ended }) }
{
    if !line.is_ended || count < 1 {
        return false;
    }
    let mut words = Words::of_spaced(line.bytes);
    if !words.takes("end") {
        return false;
    }
    let Ok(number) = words.number() else {
        return false;
    };
    words.finish().is_ok() && number == count as u64
}

/// The lines behind a line `derivation 1`, up to the line `end`, and what stands behind that. Places count from the line
/// `derivation 1` on. `TooLong` comes exactly where a line stands behind `DERIVATION_MAX` numbered lines, none of which is bad, and is
/// not their line `end`; `Spelling` comes exactly where else no derivation stands, and names the first bad line.
pub fn read_lines(alloc: Global, text: &[u8]) -> Result<(Derivation, &[u8]), ParseEnd>
    ensures lines { IfOk result (λ r. parse_behind [] (lines_of text.now) ≡ parsed r.0 (lines_of r.1.now)) }
    ensures end { IfErr result (EndIs (parse_behind [] (lines_of text.now))) }
    ensures few { IfOk result (λ r. length r.0 ≤ DERIVATION_MAX) }
    ensures some { IfOk result (λ r. 0 < length r.0) }
    ensures place { IfErr result (λ end. (line : ℕ) → end ≡ ParseEnd.Spelling line → line ≤ DERIVATION_MAX + 2) }
{
    let mut lines = Derivation::new(alloc);
    let mut rest = text;
    loop {
        let count = lines.len();
        let place = count as u32 + 2;
        let Some(line) = split_line(rest) else {
            return Err(ParseEnd::Spelling { line: place });
        };
        if is_end_line(count, &line) {
            return Ok((lines, line.rest));
        }
        if count >= DERIVATION_MAX {
            return Err(ParseEnd::TooLong);
        }
        let Some(next) = line_of(alloc, count as u64 + 1, &line) else {
            return Err(ParseEnd::Spelling { line: place });
        };
        lines.push(next)?;
        rest = line.rest;
    }
}

/// Whether the bytes are those of the line `derivation 1`.
pub fn is_head_text(bytes: &[u8]) -> bool
    ensures { result ≡ is_head_bytes bytes.now }
{
    bytes == b"derivation 1".as_slice()
}

// Whether a line of the text is the line `derivation 1`.
fn is_head(line: &FirstLine) -> bool
    ensures { result ≡ is_head_line (record { bytes = line.now.bytes.now; is_ended = line.now.is_ended }) }
{
    line.is_ended && is_head_text(line.bytes)
}

// What is read of a text.
#[tactic(auto, unfolding(crate::specs::Grammar::parse_text))]
fn read_text(alloc: Global, text: &[u8]) -> Result<Derivation, ParseEnd>
    ensures derivation { IfOk result (λ lines. parse_text text.now ≡ parsed lines []) }
    ensures end { IfErr result (EndIs (parse_text text.now)) }
    ensures few { IfOk result (λ lines. length lines ≤ DERIVATION_MAX) }
    ensures some { IfOk result (λ lines. 0 < length lines) }
{
    let Some(first) = split_line(text) else {
        return Err(ParseEnd::Spelling { line: 1 });
    };
    if !is_head(&first) {
        return Err(ParseEnd::Spelling { line: 1 });
    }
    let (lines, rest) = read_lines(alloc, first.rest)?;
    if split_line(rest).is_some() {
        return Err(ParseEnd::Spelling {
            line: lines.len() as u32 + 3,
        });
    }
    Ok(lines)
}

/// The derivation whose text this is, as `print_v1` writes it: a line `derivation 1`; each line with its number, from 1 on, its
/// question, its step and, where it names any, the lines that it names; and `end` with the number of lines. `TooLong` comes exactly
/// where a line stands behind `DERIVATION_MAX` numbered lines, none of which is bad, and is not their line `end`. `Spelling` comes
/// exactly where the text is otherwise no text of a derivation, and names the first bad line, from 1; a missing line is bad where it
/// would stand. Want of memory aside, what `print_v1` writes of 1 to `DERIVATION_MAX` lines that can be spelled is read back.
#[tactic(auto, using(crate::proofs::Printed::printed_text))]
pub fn parse_v1(alloc: Global, text: &[u8]) -> Result<Derivation, ParseEnd>
    ensures derivation { IfOk result (λ lines. parse_text text.now ≡ parsed lines []) }
    ensures text { IfOk result (λ lines. text.now ≡ text_of lines) }
    ensures end { IfErr result (EndIs (parse_text text.now)) }
    ensures few { IfOk result (λ lines. length lines ≤ DERIVATION_MAX) }
    ensures some { IfOk result (λ lines. 0 < length lines) }
{
    let lines = read_text(alloc, text)?;
    Ok(lines)
}
