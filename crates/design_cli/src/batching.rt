//! The answer to `batch`: the answers to the lines of the input, one after another.
ghost use Rattle.std.specs.Prelude.{◌≡◌, ◌≢◌, ◌↔◌, ◌<◌, ◌^◌, ℕ, Err, List, Ok, Option, length, map, true};
ghost use Rattle.catalogues.specs.Entries.{Seen};
ghost use Rattle.catalogues.specs.Left.{AreLeft};
ghost use Rattle.catalogues.specs.declared.catalogue.Entry.{Entry};
ghost use Rattle.design_answers.specs.Answered.{AsksBy, LeavesTold};
ghost use Rattle.design_base.specs.declared.limits.TheConstants.{INPUT_MAX};
ghost use Rattle.design_cli.specs.Batches.{AnswersLine, EndsLine, LeavesLine, StopsWith, ending_at, line_asks, written};
ghost use Rattle.design_cli.specs.Runs.{Answers};
ghost use Rattle.design_lines.specs.CommandLines.{parse_in_batch};
ghost use Rattle.design_lines.specs.declared.command.Command.TheVariants.{Batch};
ghost use Rattle.design_reports.specs.Answers.{EndsWith, HasFault, HasReadFault, IsAnswer};
ghost use Rattle.design_reports.specs.Reports.{Report};

use catalogues::Catalogue;
use design_answers::{Oracle, answer_request};
use design_base::INPUT_MAX;
use design_io::{Failed, LineEnd, LineReader, Sink, Source, write_whole};
use design_lines::read_line;
use design_reports::Ending;
use rule_table::Asker;
use std::sync::ledger::Ledger;

/// Why a batch stops at a line.
#[derive(Clone, Copy, Debug, PartialEq, Eq)]
pub enum Stop {
    /// There was no memory, and nothing was written of the line.
    Memory,
    /// The offer of the catalogue at this place, from 1, failed, and nothing was written of the line.
    Catalogue { number: u32 },
    /// The output failed.
    Write,
}

// Ends the answer to a line: says on the output why the line is refused, or that the batch stops at it.
fn end_line<K: Sink>(ending: Ending, out: &mut K) -> Result<(), Stop>
    requires no_read { ending ≢ Ending.ReadFault }
    ensures ends { (report : Report) → (before : Option (List ℕ)) → EndsWith report ending before (K.held out.old) → EndsLine (written report) result before (K.held out.new) }
    ensures stops { (number : ℕ) → (result ≡ Err (Stop.Catalogue number)) ↔ (ending ≡ Ending.CatalogueFault number) }
    ensures leaves { (new : List Seen) → (entries : List (List Entry)) → LeavesTold ending new entries → LeavesLine result new entries }
    ensures asked { (asks : Option ℕ) → (old : List Seen) → (new : List Seen) → AsksBy ending asks old new → AsksBy (ending_at result) asks old new }
    ensures cause { (before : ℕ) → HasFault ending before (K.faults out.old) → StopsWith result before (K.faults out.new) }
{
    match ending {
        Ending::NoMemory => return Err(Stop::Memory),
        Ending::CatalogueFault { number } => return Err(Stop::Catalogue { number }),
        Ending::WriteFault => return Err(Stop::Write),
        _ => {}
    }
    match write_whole(out, ending.message().bytes()) {
        Ok(()) => Ok(()),
        Err(Failed) => Err(Stop::Write),
    }
}

// Answers a line.
fn answer_line<K: Sink, A: Asker + Drop, L: Ledger>(
    line: &[u8],
    catalogues: &mut Vec<Box<dyn Catalogue>>,
    oracle: &mut Oracle<A, L>,
    out: &mut K,
) -> Result<(), Stop>
    requires { length catalogues.old.items < 2 ^ 32 }
    ensures ends { AnswersLine line.now (map seen catalogues.old.items) (map seen catalogues.new.items) result (K.held out.old) (K.held out.new) }
    ensures cause { StopsWith result (K.faults out.old) (K.faults out.new) }
    ensures offer { (number : ℕ) → result ≡ Err (Stop.Catalogue number) → line_asks (parse_in_batch line.now) ≡ true }
    ensures left { AreLeft (map seen catalogues.old.items) (map seen catalogues.new.items) }
{
    match read_line(line) {
        Err(reason) => end_line(Ending::Refused { reason }, out),
        Ok(None) => Ok(()),
        Ok(Some(request)) => {
            let ending = answer_request(request, catalogues, oracle, out);
            end_line(ending, out)
        }
    }
}

/// Answers `batch`: the lines of the input one after another, until the input is over or refused, a read, an offer or a write fails, or there is
/// no memory for a line. What the catalogues hold is handed from line to line; there are fewer than 4,294,967,296 of them. A line that is refused is answered by its usage text, on the output. The input is read as it is answered, over a
/// buffer of fixed size.
pub fn answer_batch<S: Source, K: Sink, A: Asker + Drop, L: Ledger>(
    catalogues: &mut Vec<Box<dyn Catalogue>>,
    oracle: &mut Oracle<A, L>,
    input: &mut S,
    out: &mut K,
) -> Ending
    requires { length catalogues.old.items < 2 ^ 32 }
    ensures ends { Answers true (Ok Batch) (S.left input.old) (S.left input.new) (map seen catalogues.old.items) (map seen catalogues.new.items) result (K.held out.old) (K.held out.new) }
    ensures cause { HasFault result (K.faults out.old) (K.faults out.new) }
    ensures read_cause { HasReadFault result (S.faults input.old) (S.faults input.new) }
    ensures answered { IsAnswer result }
{
    let mut reader = LineReader::new(INPUT_MAX);
    loop {
        match reader.advance(input) {
            Ok(true) => {}
            Ok(false) => return Ending::Yes,
            Err(LineEnd::Failed) => return Ending::ReadFault,
            Err(LineEnd::TooLong { line }) => return Ending::BadInput { line },
        }
        match answer_line(reader.line(), catalogues, oracle, out) {
            Ok(()) => {}
            Err(Stop::Memory) => return Ending::NoMemory,
            Err(Stop::Catalogue { number }) => return Ending::CatalogueFault { number },
            Err(Stop::Write) => return Ending::WriteFault,
        }
    }
}
