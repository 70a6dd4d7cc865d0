// The first fault of a list of lines.
ghost use Rattle.std.specs.Prelude.{◌≡◌, ℕ, ◌+◌, ◌<◌, ◌≤◌, true, false, List, [], ◌++◌, length, None, IfOk, All};
ghost use Rattle.std.specs.List.{list_all};
ghost use Rattle.derivations.specs.Derivations.{answers, comes_before, used_twice, fault_of_line as fault_of, surplus_from, fault};
ghost use Rattle.derivations.specs.Marks.{Marks};

use crate::line::{Fault, Line, LineFault};
use design_base::{Memory, Query, in_bounds, is_same};
use rule_table::{Tools, candidate_premises};
use std::alloc::Global;

// Whether the lines that are named have the premises as their questions, in order and one each.
fn is_answered(lines: &[Line], from: &[u64], premises: &[Query]) -> bool
    requires { All (λ j. (0 < j) × (j ≤ length lines.now)) from.now }
    ensures { result ≡ answers lines.now from.now premises.now }
{
    if from.len() != premises.len() {
        return false;
    }
    for (i, number) in from.iter().enumerate() {
        let line = &lines[*number as usize - 1];
        if !is_same(&line.query, &premises[i]) {
            return false;
        }
    }
    true
}

// Marks the numbers in order, up to one that is marked, and says whether there was such a one.
fn mark(marks: &mut [bool], from: &[u64]) -> bool
    requires { All (λ j. j < length marks.old) from.now }
    ensures twice { (named : List ℕ) → Marks named marks.old → result ≡ used_twice named from.now }
    ensures marks { (named : List ℕ) → Marks named marks.old → result ≡ false → Marks (from.now ++ named) marks.new }
{
    for number in from {
        let place = *number as usize;
        if marks[place] {
            return true;
        }
        marks[place] = true;
    }
    false
}

// Whether each number is that of a line before line number `own`.
fn is_backward(from: &[u64], own: u64) -> bool
    ensures test { result ≡ list_all (comes_before own) from.now }
    ensures each { result ≡ true → All (λ j. (0 < j) × (j < own)) from.now }
{
    for number in from {
        if *number == 0 || *number >= own {
            return false;
        }
    }
    true
}

// The fault of the line at place `i`, where the lines before it name what is marked.
fn fault_of_line(
    lines: &[Line],
    i: usize,
    line: &Line,
    marks: &mut [bool],
    tools: &Tools,
) -> Option<LineFault>
    requires place { i < length lines.now }
    requires marks { length marks.old ≡ length lines.now + 1 }
    ensures fault { (named : List ℕ) → Marks named marks.old → result ≡ fault_of lines.now (i + 1) named line.now }
    ensures marks { (named : List ℕ) → Marks named marks.old → result ≡ None → Marks (line.now.from ++ named) marks.new }
{
    if !in_bounds(&line.query) {
        return Some(LineFault::OutOfBounds);
    }
    let Some(asked) = candidate_premises(tools, &line.query, &line.step) else {
        return Some(LineFault::NotCandidate);
    };
    let from = line.from.as_slice();
    if !is_backward(from, i as u64 + 1) {
        return Some(LineFault::ForwardReference);
    }
    if !is_answered(lines, from, asked.as_slice()) {
        return Some(LineFault::MissingPremise);
    }
    if mark(marks, from) {
        return Some(LineFault::UsedTwice);
    }
    None
}

// The first of the lines, but for the last, whose number is not marked.
fn surplus(marks: &[bool], lines: &[Line]) -> Option<Fault>
    requires { length marks.now ≡ length lines.now + 1 }
    ensures { (named : List ℕ) → Marks named marks.now → result ≡ surplus_from 1 named lines.now }
{
    for number in 1..lines.len() {
        if !marks[number] {
            return Some(Fault {
                number: number as u64,
                fault: LineFault::Surplus,
            });
        }
    }
    None
}

// The first fault of the lines, found with marks of which none is set yet.
fn fault_among(lines: &[Line], marks: &mut [bool], tools: &Tools) -> Option<Fault>
    requires unmarked { Marks [] marks.old }
    requires size { length marks.old ≡ length lines.now + 1 }
    ensures { result ≡ fault lines.now }
{
    for (i, line) in lines.iter().enumerate() {
        if let Some(fault) = fault_of_line(lines, i, line, marks, tools) {
            return Some(Fault {
                number: i as u64 + 1,
                fault,
            });
        }
    }
    surplus(marks, lines)
}

/// The first fault of the lines, where they have one. The answer is `Memory` only for want of memory.
pub fn first_fault(alloc: Global, lines: &[Line], tools: &Tools) -> Result<Option<Fault>, Memory>
    ensures { IfOk result (λ found. found ≡ fault lines.now) }
{
    let mut marks = vec![in alloc; false; lines.len() + 1]?;
    Ok(fault_among(lines, &mut marks, tools))
}
