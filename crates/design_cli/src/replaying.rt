//! The answer to `replay`: what the derivation that the input holds leads to.
ghost use Rattle.std.specs.Prelude.{◌≡◌, ◌≢◌, ◌++◌, ◌<◌, ◌≤◌, length, ℕ};
ghost use Rattle.std.specs.List.{flat_map};
ghost use Rattle.derivation_text.specs.Grammar.{parse_input as input_derivation};
ghost use Rattle.derivations.specs.Derivations.{fault as fault_of};
ghost use Rattle.design_base.specs.declared.limits.TheConstants.{INPUT_MAX};
ghost use Rattle.design_cli.specs.Replays.{derivation_report, design_report, fault_report, read_report, replay_report};
ghost use Rattle.design_cli.specs.Runs.{EndsOn};
ghost use Rattle.design_io.specs.Faults.{HasCause};
ghost use Rattle.design_io.specs.Pieces.{AppendsWhole};
ghost use Rattle.design_reports.specs.Answers.{EndsWith, HasFault, HasReadFault, IsAnswer};
ghost use Rattle.design_reports.specs.Parts.{IsPrintable, part_lines};
ghost use Rattle.design_reports.specs.Texts.{finding_line};

use derivation_text::{InputEnd, parse_input};
use derivations::{Derivation, Fault, ReplayEnd, replay};
use design_base::{INPUT_MAX, Query};
use design_checks::Finding;
use design_io::{Failed, Sink, Source, read_all};
use design_reports::{Ending, Part, write_fault, write_finding, write_part};
use proved_designs::Design;
use rule_table::Tools;
use std::alloc::Global;

// Says the first fault.
fn answer_fault<K: Sink>(fault: Fault, out: &mut K) -> Ending
    ensures ends { EndsWith (fault_report fault) result (K.held out.old) (K.held out.new) }
    ensures cause { HasFault result (K.faults out.old) (K.faults out.new) }
    ensures answered { IsAnswer result }
    ensures no_offer { (number : ℕ) → result ≢ Ending.CatalogueFault number }
    ensures no_read { result ≢ Ending.ReadFault }
{
    match write_fault(out, fault) {
        Ok(()) => Ending::No,
        Err(Failed) => Ending::WriteFault,
    }
}

// Writes that the question has a design, and its blocks.
#[tactic(auto, using(design_io::proofs::Pieces::composed))]
fn write_design<K: Sink>(out: &mut K, query: &Query, blocks: &Part) -> Result<(), Failed>
    requires printable { IsPrintable blocks.now }
    ensures bytes { AppendsWhole (K.held out.old) (K.held out.new) result (finding_line query.now Finding.Valid ++ flat_map (λ line. line) (part_lines blocks.now)) }
    ensures cause { HasCause (K.faults out.old) (K.faults out.new) result }
{
    write_finding(out, query, Finding::Valid)?;
    write_part(out, blocks)
}

// Says that the question has a design, and its blocks.
#[tactic(auto, using(design_reports::proofs::Printable::blocks_fit))]
fn answer_design<K: Sink>(design: Design, out: &mut K) -> Ending
    ensures ends { EndsWith (design_report design.query design.blocks) result (K.held out.old) (K.held out.new) }
    ensures cause { HasFault result (K.faults out.old) (K.faults out.new) }
    ensures answered { IsAnswer result }
    ensures no_offer { (number : ℕ) → result ≢ Ending.CatalogueFault number }
    ensures no_read { result ≢ Ending.ReadFault }
{
    let query = design.query();
    match write_design(out, &query, &Part::Blocks(design.into_blocks())) {
        Ok(()) => Ending::Yes,
        Err(Failed) => Ending::WriteFault,
    }
}

// Replays a derivation. All faults are found before the first block is made.
fn answer_derivation<K: Sink>(alloc: Global, lines: &Derivation, out: &mut K) -> Ending
    requires some { 0 < length lines.now }
    ensures ends { EndsWith (derivation_report lines.now (fault_of lines.now)) result (K.held out.old) (K.held out.new) }
    ensures cause { HasFault result (K.faults out.old) (K.faults out.new) }
    ensures answered { IsAnswer result }
    ensures no_offer { (number : ℕ) → result ≢ Ending.CatalogueFault number }
    ensures no_read { result ≢ Ending.ReadFault }
{
    let tools = Tools::new(alloc);
    match replay(alloc, lines, &tools) {
        Ok(design) => answer_design(design, out),
        Err(ReplayEnd::BadLine { number, fault }) => answer_fault(Fault { number, fault }, out),
        Err(ReplayEnd::Memory) => Ending::NoMemory,
    }
}

// Replays the derivation that a text holds. The text goes before the first block is made.
fn answer_text<K: Sink>(alloc: Global, text: Vec<u8>, out: &mut K) -> Ending
    requires short { length text.items ≤ INPUT_MAX }
    ensures ends { EndsWith (read_report (input_derivation text.items)) result (K.held out.old) (K.held out.new) }
    ensures cause { HasFault result (K.faults out.old) (K.faults out.new) }
    ensures answered { IsAnswer result }
    ensures no_offer { (number : ℕ) → result ≢ Ending.CatalogueFault number }
    ensures no_read { result ≢ Ending.ReadFault }
{
    let lines = match parse_input(alloc, &text) {
        Ok(lines) => lines,
        Err(InputEnd::BadLine { line }) => return Ending::BadInput { line },
        Err(InputEnd::Memory) => return Ending::NoMemory,
    };
    drop(text);
    answer_derivation(alloc, &lines, out)
}

/// Answers `replay`. The whole input is read before anything of it is looked at.
#[tactic(auto, using(crate::proofs::Endings::unread_answers, crate::proofs::Endings::unread_offers))]
pub fn answer_replay<S: Source, K: Sink>(alloc: Global, input: &mut S, out: &mut K) -> Ending
    ensures ends { EndsOn (S.left input.old) replay_report result (K.held out.old) (K.held out.new) }
    ensures cause { HasFault result (K.faults out.old) (K.faults out.new) }
    ensures read_cause { HasReadFault result (S.faults input.old) (S.faults input.new) }
    ensures answered { IsAnswer result }
    ensures no_offer { (number : ℕ) → result ≢ Ending.CatalogueFault number }
{
    let text = match read_all(alloc, input, INPUT_MAX) {
        Ok(text) => text,
        Err(end) => return Ending::of_unread(end),
    };
    answer_text(alloc, text, out)
}
