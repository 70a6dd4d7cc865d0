//! The answer to `check`: what the check of the input's blocks finds.
ghost use Rattle.std.specs.Prelude.{◌≡◌, ◌≢◌, ◌≤◌, IfOk, length, true, ℕ};
ghost use Rattle.design_base.specs.Limits.{in_bounds};
ghost use Rattle.design_base.specs.declared.limits.TheConstants.{INPUT_MAX};
ghost use Rattle.block_texts.specs.BlockText.{block_text};
ghost use Rattle.design_cli.specs.LineFindings.{IsFoundIn, lines_finding, shortest_line};
ghost use Rattle.design_cli.specs.Report.{check_report, text_report};
ghost use Rattle.design_cli.specs.Runs.{EndsOn};
ghost use Rattle.design_reports.specs.Answers.{EndsWith, HasFault, HasReadFault, IsAnswer};
ghost use Rattle.design_reports.specs.Reports.{found_report};

use arrays::{ArrayEnd, td_of_rows, td_of_squares};
use block_texts::{BlockTextEnd, read_blocks};
use design_base::{INPUT_MAX, Memory, Query};
use design_checks::{Checker, Finding};
use design_io::{Failed, Sink, Source, read_all};
use design_lines::Shape;
use design_reports::{Ending, write_finding};
use incidence::Rows;
use std::alloc::Global;

/// A block has at least so many points in any design that is asked for.
const SHORTEST_BLOCK: usize = 2;

// Writes what was found.
fn answer_finding<K: Sink>(query: &Query, finding: Finding, out: &mut K) -> Ending
    ensures ends { EndsWith (found_report query.now finding) result (K.held out.old) (K.held out.new) }
    ensures cause { HasFault result (K.faults out.old) (K.faults out.new) }
    ensures answered { IsAnswer result }
    ensures no_offer { (number : ℕ) → result ≢ Ending.CatalogueFault number }
    ensures no_read { result ≢ Ending.ReadFault }
    ensures memory { result ≢ Ending.NoMemory }
{
    match write_finding(out, query, finding) {
        Ok(()) => Ending::of_finding(finding),
        Err(Failed) => Ending::WriteFault,
    }
}

// What the check of the blocks that lines stand for finds, or that a line is bad.
fn found_in_td(
    alloc: Global,
    query: &Query,
    blocks: Result<Rows, ArrayEnd>,
) -> Result<Finding, Memory>
    requires { in_bounds query.now ≡ true }
    ensures { IfOk result (IsFoundIn query.now blocks) }
{
    match blocks {
        Ok(blocks) => Checker::new(alloc).check(query, &blocks),
        Err(ArrayEnd::BadLine { index }) => Ok(Finding::BadBlock { index }),
        Err(ArrayEnd::Memory) => Err(Memory),
    }
}

// What the check of lines in a shape finds.
fn found_in_lines(
    alloc: Global,
    query: &Query,
    shape: Shape,
    mut lines: Rows,
) -> Result<Finding, Memory>
    requires { in_bounds query.now ≡ true }
    ensures { IfOk result (λ found. found ≡ lines_finding query.now shape lines) }
{
    match (*query, shape) {
        (Query::Td { k, n }, Shape::Rows) => {
            found_in_td(alloc, query, td_of_rows(alloc, k, n, &lines))
        }
        (Query::Td { k, n }, Shape::Squares) => {
            found_in_td(alloc, query, td_of_squares(alloc, k, n, &lines))
        }
        _ => {
            lines.sort_each();
            Checker::new(alloc).check(query, &lines)
        }
    }
}

// No more lines are kept than up to the first that has fewer numbers. Such a one is no block, and no row of an array.
fn shortest(shape: Shape) -> usize
    ensures { result ≡ shortest_line shape }
{
    match shape {
        Shape::Blocks | Shape::Rows => SHORTEST_BLOCK,
        Shape::Squares => 0,
    }
}

// Checks the lines of a text. The text goes before the tools come, so that the memory for both is never held at once.
fn answer_text<K: Sink>(
    alloc: Global,
    query: &Query,
    shape: Shape,
    text: Vec<u8>,
    out: &mut K,
) -> Ending
    requires bounds { in_bounds query.now ≡ true }
    requires short { length text.items ≤ INPUT_MAX }
    ensures ends { EndsWith (text_report query.now shape (block_text text.items)) result (K.held out.old) (K.held out.new) }
    ensures cause { HasFault result (K.faults out.old) (K.faults out.new) }
    ensures answered { IsAnswer result }
    ensures no_offer { (number : ℕ) → result ≢ Ending.CatalogueFault number }
    ensures no_read { result ≢ Ending.ReadFault }
{
    let lines = match read_blocks(alloc, &text, shortest(shape)) {
        Ok(lines) => lines,
        Err(BlockTextEnd::BadLine { line }) => return Ending::BadInput { line },
        Err(BlockTextEnd::Memory) => return Ending::NoMemory,
    };
    drop(text);
    let Ok(finding) = found_in_lines(alloc, query, shape, lines) else {
        return Ending::NoMemory;
    };
    answer_finding(query, finding, out)
}

/// Answers `check` on a question in bounds. The whole input is read before anything of it is looked at.
#[tactic(auto, using(crate::proofs::Endings::unread_answers, crate::proofs::Endings::unread_offers))]
pub fn answer_check<S: Source, K: Sink>(
    alloc: Global,
    query: &Query,
    shape: Shape,
    input: &mut S,
    out: &mut K,
) -> Ending
    requires { in_bounds query.now ≡ true }
    ensures ends { EndsOn (S.left input.old) (check_report query.now shape) result (K.held out.old) (K.held out.new) }
    ensures cause { HasFault result (K.faults out.old) (K.faults out.new) }
    ensures read_cause { HasReadFault result (S.faults input.old) (S.faults input.new) }
    ensures answered { IsAnswer result }
    ensures no_offer { (number : ℕ) → result ≢ Ending.CatalogueFault number }
{
    let text = match read_all(alloc, input, INPUT_MAX) {
        Ok(text) => text,
        Err(end) => return Ending::of_unread(end),
    };
    answer_text(alloc, query, shape, text, out)
}
