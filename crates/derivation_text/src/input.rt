//! Reading the derivation that an input holds.
ghost use Rattle.std.specs.Prelude.{◌≡◌, ℕ, ◌+◌, ◌<◌, ◌≤◌, [], IfErr, IfOk, Ok, length};
ghost use Rattle.design_base.specs.declared.limits.TheConstants.{DERIVATION_MAX, INPUT_MAX};
ghost use Rattle.design_io.specs.InputLines.{lines_of};
ghost use Rattle.derivation_text.specs.Grammar.{EndIs, InputEndIs, Parsed, behind_skipped, parse_behind, parse_input as input_derivation};

use crate::parsing::{ParseEnd, is_head_text, read_lines};
use derivations::Derivation;
use design_base::{DERIVATION_MAX, INPUT_MAX};
use design_io::split_line;
use std::alloc::Global;

/// Why an input holds no derivation.
#[derive(Clone, Copy, Debug, PartialEq, Eq)]
pub enum InputEnd {
    /// The first bad line, from 1.
    BadLine { line: u32 },
    /// There was no memory.
    Memory,
}

// How the reading of an input ends, of which so many lines were skipped.
fn end_behind(skipped: u32, end: ParseEnd) -> InputEnd
    requires small { skipped ≤ INPUT_MAX }
    requires place { (line : ℕ) → end ≡ ParseEnd.Spelling line → line ≤ DERIVATION_MAX + 2 }
    ensures { (read : Parsed) → EndIs read end → InputEndIs (behind_skipped skipped read) result }
{
    match end {
        ParseEnd::Spelling { line } => InputEnd::BadLine {
            line: skipped + line,
        },
        ParseEnd::TooLong => InputEnd::BadLine {
            line: skipped + (DERIVATION_MAX as u32 + 2),
        },
        ParseEnd::Memory => InputEnd::Memory,
    }
}

// The derivation behind so many lines of an input and its line `derivation 1`.
fn read_behind(alloc: Global, skipped: u32, text: &[u8]) -> Result<Derivation, InputEnd>
    requires small { skipped ≤ INPUT_MAX }
    ensures derivation { IfOk result (λ lines. behind_skipped skipped (parse_behind [] (lines_of text.now)) ≡ Ok lines) }
    ensures end { IfErr result (InputEndIs (behind_skipped skipped (parse_behind [] (lines_of text.now)))) }
    ensures few { IfOk result (λ lines. length lines ≤ DERIVATION_MAX) }
    ensures some { IfOk result (λ lines. 0 < length lines) }
{
    match read_lines(alloc, text) {
        Ok((lines, _)) => Ok(lines),
        Err(end) => Err(end_behind(skipped, end)),
    }
}

/// The derivation that an input of at most `INPUT_MAX` bytes holds. The lines before its first line `derivation 1` are skipped, and
/// what stands behind the line `end` of the derivation is not looked at; between them stands what `parse_v1` reads. `BadLine` comes
/// exactly where that is no text of a derivation, and names the first bad line among those of the whole input. An input without a line
/// `derivation 1` is bad at one more than its number of lines, and that line itself is bad where it lacks its line feed. Of a derivation
/// of more than `DERIVATION_MAX` lines the first line too many is bad.
pub fn parse_input(alloc: Global, text: &[u8]) -> Result<Derivation, InputEnd>
    requires short { length text.now ≤ INPUT_MAX }
    ensures derivation { IfOk result (λ lines. input_derivation text.now ≡ Ok lines) }
    ensures end { IfErr result (InputEndIs (input_derivation text.now)) }
    ensures few { IfOk result (λ lines. length lines ≤ DERIVATION_MAX) }
    ensures some { IfOk result (λ lines. 0 < length lines) }
{
    let mut rest = text;
    let mut skipped: u32 = 0;
    loop {
        let Some(line) = split_line(rest) else {
            return Err(InputEnd::BadLine { line: skipped + 1 });
        };
        if is_head_text(line.bytes) {
            if !line.is_ended {
                return Err(InputEnd::BadLine { line: skipped + 1 });
            }
            return read_behind(alloc, skipped, line.rest);
        }
        rest = line.rest;
        skipped += 1;
    }
}
