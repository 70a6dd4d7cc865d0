// The design that a derivation leads to.
ghost use Rattle.std.specs.Prelude.{◌≡◌, ◌≢◌, ℕ, ◌+◌, ◌-◌, ◌<◌, ◌≤◌, true, length, map, Some, None, IfOk, IfErr, All, slice_index_or};
ghost use Rattle.design_base.specs.Limits.{in_bounds};
ghost use Rattle.design_base.specs.Meets.{Meets};
ghost use Rattle.design_base.specs.declared.query.Query.{Query};
ghost use Rattle.rule_table.specs.Candidates.{is_candidate, premises};
ghost use Rattle.derivations.specs.AllMeet.{AllMeet};
ghost use Rattle.derivations.specs.Blocks.{blocks};
ghost use Rattle.derivations.specs.Derivations.{replayed, last_question, IsSound};
ghost use Rattle.derivations.specs.Ends.{EndIs};
ghost use Rattle.derivations.specs.Kept.{IsKept, kept_lists};

use crate::building::build;
use crate::faults::first_fault;
use crate::line::{Derivation, Line, ReplayEnd};
use crate::sound_derivation::SoundDerivation;
use design_base::Memory;
use incidence::Rows;
use proved_designs::Design;
use rule_table::Tools;
use std::alloc::Global;

// The lists of the lines that are named, lent in the order of the numbers.
fn lent<'a>(alloc: Global, kept: &'a [Option<Rows>], from: &[u64]) -> Result<Vec<&'a Rows>, Memory>
    requires { All (IsKept kept.now) from.now }
    ensures { IfOk result (λ refs. map (λ r. r.now) refs.items ≡ kept_lists kept.now from.now) }
{
    let mut refs = Vec::new(alloc);
    for number in from {
        match &kept[*number as usize - 1] {
            Some(rows) => refs.push(rows)?,
            None => unreachable!(),
        }
    }
    Ok(refs)
}

// The list of a line, made of the lists of the lines that it names.
fn list_of_line(alloc: Global, kept: &[Option<Rows>], line: &Line) -> Result<Rows, Memory>
    requires bounds { in_bounds line.now.query ≡ true }
    requires candidate { is_candidate line.now.query line.now.step ≡ true }
    requires kept { All (IsKept kept.now) line.now.from }
    requires ingredients { AllMeet (premises line.now.query line.now.step) (kept_lists kept.now line.now.from) }
    ensures list { IfOk result (λ rows. rows ≡ blocks line.now.query line.now.step (kept_lists kept.now line.now.from)) }
    ensures meets { IfOk result (λ rows. Meets line.now.query rows) }
{
    let ingredients = lent(alloc, kept, line.from.as_slice())?;
    let rows = build(alloc, &line.query, &line.step, ingredients.as_slice())?;
    Ok(rows)
}

// Lets the lists of these lines go.
fn let_go(kept: &mut [Option<Rows>], from: &[u64])
    requires { All (λ j. (0 < j) × (j ≤ length kept.old)) from.now }
    ensures size { length kept.new ≡ length kept.old }
    ensures gone { All (λ j. slice_index_or kept.new (j - 1) None ≡ None) from.now }
    ensures others { (j : ℕ) → All (λ i. i ≢ j + 1) from.now → slice_index_or kept.new j None ≡ slice_index_or kept.old j None }
{
    for number in from {
        kept[*number as usize - 1] = None;
    }
}

// The list of the last of the lines, which have no fault. The list of each line is kept up to its last use: no two lines name it.
fn list_of_lines(alloc: Global, lines: &[Line]) -> Result<Rows, Memory>
    requires { IsSound lines.now }
    ensures list { IfOk result (λ rows. rows ≡ replayed lines.now) }
    ensures meets { (q : Query) → last_question lines.now ≡ Some q → IfOk result (λ rows. Meets q rows) }
{
    let mut kept = Vec::new(alloc);
    for line in lines {
        let rows = list_of_line(alloc, kept.as_slice(), line)?;
        let_go(&mut kept, line.from.as_slice());
        kept.push(Some(rows))?;
    }
    match kept.pop() {
        Some(last) => match last {
            Some(rows) => Ok(rows),
            None => unreachable!(),
        },
        None => unreachable!(),
    }
}

// The design of the last of the lines, which have no fault.
#[tactic(auto, using(crate::proofs::Replays::sound_bounds))]
fn design_of_lines(alloc: Global, lines: &Derivation) -> Result<Design, Memory>
    requires { IsSound lines.now }
    ensures question { IfOk result (λ design. last_question lines.now ≡ Some design.query) }
    ensures list { IfOk result (λ design. design.blocks ≡ replayed lines.now) }
{
    let question = lines.line(lines.len() - 1).query;
    let blocks = list_of_lines(alloc, lines.as_slice())?;
    Ok(Design::new(question, blocks))
}

/// The design that a derivation without a fault leads to: that of its last question. Nothing is searched for faults. The list of a line
/// is lent to the line that cites it, and let go after it. The answer is `Memory` only for want of memory.
pub fn replay_sound(alloc: Global, derivation: &SoundDerivation) -> Result<Design, Memory>
    ensures question { IfOk result (λ design. last_question derivation.now ≡ Some design.query) }
    ensures list { IfOk result (λ design. design.blocks ≡ replayed derivation.now) }
{
    let design = design_of_lines(alloc, derivation.lines())?;
    Ok(design)
}

/// The design that the lines lead to: that of the last question.
///
/// There is a line. The answer is `BadLine` exactly where the lines have a fault, and names the first; `Memory` comes only for
/// want of memory. All faults are found before the first list is made, and then the lines are replayed as by `replay_sound`.
pub fn replay(alloc: Global, lines: &Derivation, tools: &Tools) -> Result<Design, ReplayEnd>
    requires { 0 < length lines.now }
    ensures sound { IfOk result (λ design. IsSound lines.now) }
    ensures question { IfOk result (λ design. last_question lines.now ≡ Some design.query) }
    ensures list { IfOk result (λ design. design.blocks ≡ replayed lines.now) }
    ensures end { IfErr result (EndIs lines.now) }
{
    if let Some(found) = first_fault(alloc, lines.as_slice(), tools)? {
        return Err(ReplayEnd::BadLine {
            number: found.number,
            fault: found.fault,
        });
    }
    let design = design_of_lines(alloc, lines)?;
    Ok(design)
}
