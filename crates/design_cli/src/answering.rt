//! The top call.
ghost use Rattle.std.specs.Prelude.{◌≡◌, ◌≢◌, ◌<◌, ◌^◌, List, Ok, OnErr, false, length, map, true, ℕ};
ghost use Rattle.catalogues.specs.Left.{AreLeft};
ghost use Rattle.derivation_text.specs.Spelling.{ReadBackLaw};
ghost use Rattle.derivations.specs.Laws.{DerivationLaw, ReplayLaw, YesLaw};
ghost use Rattle.design_answers.specs.Answered.{AnswersOn, HasOfferFault};
ghost use Rattle.design_answers.specs.Requests.{asked_for, asks_catalogues, lists_after, request_report, workload_report};
ghost use Rattle.design_base.specs.Limits.{in_bounds, within};
ghost use Rattle.design_base.specs.declared.limits.TheConstants.{WORKLOAD_MAX};
ghost use Rattle.design_cli.specs.Laws.{PrintedRowsLaw, PrintedSquaresLaw, ValidLaw, ValidRowsLaw, ValidSquaresLaw};
ghost use Rattle.design_cli.specs.Report.{command_of, may_ask};
ghost use Rattle.design_cli.specs.Runs.{Answers, RunsOn};
ghost use Rattle.design_io.specs.Faults.{Rose};
ghost use Rattle.design_lines.specs.CommandLines.{IsInBounds};
ghost use Rattle.design_lines.specs.Keywords.{reads_input};
ghost use Rattle.design_lines.specs.declared.command.Command.TheVariants.{Batch};
ghost use Rattle.design_reports.specs.Answers.{EndsWith, HasFault, HasReadFault, IsAnswer, Says};
ghost use Rattle.rule_table.specs.Laws.{NoLaw, UnknownLaw};

use crate::batching::answer_batch;
use crate::checking::answer_check;
use crate::replaying::answer_replay;
use catalogues::Catalogue;
use design_answers::{Oracle, answer_request, answer_workload};
use design_base::Memory;
use design_io::{Sink, Source};
use design_lines::{Command, Request, read_words};
use design_reports::{Ending, Status, say};
use rule_table::{Notes, Steps};
use std::alloc::Global;
use std::sync::ledger::Ledger;

// The table of rules, with nothing asked of it yet. The answer is `Memory` only for want of memory.
fn open_oracle<'a, L: Ledger>(
    alloc: Global,
    steps: &'a mut Steps<L>,
) -> Result<Oracle<'a, Notes, L>, Memory> {
    let notes = Notes::open(alloc)?;
    Oracle::open(alloc, notes, steps)
}

// Answers a verb on a question by the table of rules.
#[tactic(auto, using(catalogues::proofs::Left::left_refl, crate::proofs::Runnings::unopened_request))]
fn answer_on<K: Sink, L: Ledger>(
    alloc: Global,
    request: Request,
    catalogues: &mut Vec<Box<dyn Catalogue>>,
    steps: &mut Steps<L>,
    out: &mut K,
) -> Ending
    requires bounds { in_bounds request.query ≡ true }
    requires few { length catalogues.old.items < 2 ^ 32 }
    ensures ends { AnswersOn (map seen catalogues.old.items) (map seen catalogues.new.items) (request_report request) (lists_after request) (asked_for request) result (K.held out.old) (K.held out.new) }
    ensures cause { HasFault result (K.faults out.old) (K.faults out.new) }
    ensures offer { (number : ℕ) → result ≡ Ending.CatalogueFault number → HasOfferFault (asks_catalogues request) (map seen catalogues.old.items) (map seen catalogues.new.items) number }
    ensures left { AreLeft (map seen catalogues.old.items) (map seen catalogues.new.items) }
    ensures unasked { asks_catalogues request ≡ false → catalogues.new ≡ catalogues.old }
    ensures no_read { result ≢ Ending.ReadFault }
    ensures answered { IsAnswer result }
{
    let Ok(mut oracle) = open_oracle(alloc, steps) else {
        return Ending::NoMemory;
    };
    answer_request(request, catalogues, &mut oracle, out)
}

// Answers the lines of the input by the table of rules.
#[tactic(auto, using(crate::proofs::Runnings::unopened_batch))]
fn answer_lines<S: Source, K: Sink, L: Ledger>(
    alloc: Global,
    input: &mut S,
    catalogues: &mut Vec<Box<dyn Catalogue>>,
    steps: &mut Steps<L>,
    out: &mut K,
) -> Ending
    requires { length catalogues.old.items < 2 ^ 32 }
    ensures ends { Answers true (Ok Batch) (S.left input.old) (S.left input.new) (map seen catalogues.old.items) (map seen catalogues.new.items) result (K.held out.old) (K.held out.new) }
    ensures cause { HasFault result (K.faults out.old) (K.faults out.new) }
    ensures read_cause { HasReadFault result (S.faults input.old) (S.faults input.new) }
{
    let Ok(mut oracle) = open_oracle(alloc, steps) else {
        return Ending::NoMemory;
    };
    answer_batch(catalogues, &mut oracle, input, out)
}

// Answers the draws of a workload by the table of rules.
fn answer_draws<K: Sink, L: Ledger>(
    alloc: Global,
    n: u32,
    steps: &mut Steps<L>,
    out: &mut K,
) -> Ending
    requires { within 1 WORKLOAD_MAX n ≡ true }
    ensures ends { EndsWith (workload_report n) result (K.held out.old) (K.held out.new) }
    ensures cause { HasFault result (K.faults out.old) (K.faults out.new) }
    ensures answered { IsAnswer result }
    ensures no_read { result ≢ Ending.ReadFault }
    ensures no_offer { (number : ℕ) → result ≢ Ending.CatalogueFault number }
{
    let Ok(mut oracle) = open_oracle(alloc, steps) else {
        return Ending::NoMemory;
    };
    answer_workload(n, &mut oracle, out)
}

// Answers a command.
fn answer_command<S: Source, K: Sink, L: Ledger>(
    alloc: Global,
    command: Command,
    input: &mut S,
    catalogues: &mut Vec<Box<dyn Catalogue>>,
    steps: &mut Steps<L>,
    out: &mut K,
) -> Ending
    requires bounds { IsInBounds command }
    requires few { length catalogues.old.items < 2 ^ 32 }
    ensures ends { Answers true (Ok command) (S.left input.old) (S.left input.new) (map seen catalogues.old.items) (map seen catalogues.new.items) result (K.held out.old) (K.held out.new) }
    ensures cause { HasFault result (K.faults out.old) (K.faults out.new) }
    ensures read_cause { HasReadFault result (S.faults input.old) (S.faults input.new) }
    ensures reading { result ≡ Ending.ReadFault → reads_input (Ok command) ≡ true }
    ensures unread { reads_input (Ok command) ≡ false → input.new ≡ input.old }
    ensures unasked { may_ask (Ok command) ≡ false → catalogues.new ≡ catalogues.old }
{
    match command {
        Command::On(request) => answer_on(alloc, request, catalogues, steps, out),
        Command::Check(asked) => answer_check(alloc, &asked.query, asked.shape, input, out),
        Command::Replay => answer_replay(alloc, input, out),
        Command::Batch => answer_lines(alloc, input, catalogues, steps, out),
        Command::Workload { n } => answer_draws(alloc, n, steps, out),
        Command::Table { .. } => Ending::NotBuilt,
    }
}

// Answers the words, and says how the answer ends.
#[tactic(auto, using(crate::proofs::Runnings::refused_ends))]
pub(crate) fn answer<S: Source, K: Sink, L: Ledger>(
    alloc: Global,
    words: &[String],
    input: &mut S,
    catalogues: &mut Vec<Box<dyn Catalogue>>,
    steps: &mut Steps<L>,
    out: &mut K,
) -> Ending
    requires { length catalogues.old.items < 2 ^ 32 }
    ensures ends { Answers true (command_of words.now) (S.left input.old) (S.left input.new) (map seen catalogues.old.items) (map seen catalogues.new.items) result (K.held out.old) (K.held out.new) }
    ensures cause { HasFault result (K.faults out.old) (K.faults out.new) }
    ensures read_cause { HasReadFault result (S.faults input.old) (S.faults input.new) }
    ensures reading { result ≡ Ending.ReadFault → reads_input (command_of words.now) ≡ true }
    ensures memory { OnErr (command_of words.now) (result ≢ Ending.NoMemory) }
    ensures unread { reads_input (command_of words.now) ≡ false → input.new ≡ input.old }
    ensures unasked { may_ask (command_of words.now) ≡ false → catalogues.new ≡ catalogues.old }
{
    match read_words(words) {
        Ok(command) => answer_command(alloc, command, input, catalogues, steps, out),
        Err(reason) => Ending::Refused { reason },
    }
}

/// Answers the words of a command line: writes the report on `out`, and at most one line on `err`, and says how that
/// ended. The input is read only where the words ask for a check, a replay or a batch. The catalogues, of which there are fewer than
/// 4,294,967,296, are asked only where `ask` or `build`, alone or in a batch, has a question that the table of rules leaves open. `steps` counts the
/// evaluations that are begun. Words that are refused are told so before any memory is taken.
#[tactic(auto, using(rule_table::proofs::Meanings::none_meets, rule_table::proofs::Meanings::unknown_is_open, crate::proofs::Designed::sound_is_designed, crate::proofs::Designed::yes_is_derived, derivation_text::proofs::ReadBack::each_text_is_read, crate::proofs::Designed::valid_is_design, crate::proofs::Designed::valid_is_array, crate::proofs::Designed::valid_are_squares))]
pub fn run<S: Source, K: Sink, E: Sink, L: Ledger>(
    alloc: Global,
    words: &[String],
    input: &mut S,
    out: &mut K,
    err: &mut E,
    catalogues: &mut Vec<Box<dyn Catalogue>>,
    steps: &mut Steps<L>,
) -> Status
    requires { length catalogues.old.items < 2 ^ 32 }

    // There are a text, what the input has left where that is told, and entries, those of the catalogues where they are told, whose report this is: the
    // status, the bytes on the output, of which a part stands after a fault, the line on the error output, and the entries afterwards. The catalogues
    // were asked where the report says so and as it says, each once, told or not; a fault names the one whose offer failed. After a write that failed
    // the answers to the lines of a batch before it stand whole.
    ensures report { RunsOn true (command_of words.now) (S.left input.old) (S.left input.new) (map seen catalogues.old.items) (map seen catalogues.new.items) result (K.held out.old) (K.held out.new) (λ line. Says line (E.held err.old) (E.held err.new) (E.faults err.old) (E.faults err.new)) }

    // The blocks of a yes are such a design, under a no there is no such design, and a question is unknown exactly where no criterion
    // and no rule applies.
    ensures design { YesLaw }
    ensures none { NoLaw }
    ensures unknown { UnknownLaw }

    // The derivation of a yes is sound and ends with its question; a sound derivation leads to a design of its last question; what is printed of
    // one is read back as it.
    ensures derived { DerivationLaw }
    ensures replays { ReplayLaw }
    ensures read_back { ReadBackLaw }

    // What is printed of a transversal design are an orthogonal array and Latin squares.
    ensures printed_rows { PrintedRowsLaw }
    ensures printed_squares { PrintedSquaresLaw }

    // Exactly the blocks, the rows and the squares of such designs are found valid.
    ensures valid { ValidLaw }
    ensures valid_rows { ValidRowsLaw }
    ensures valid_squares { ValidSquaresLaw }

    // A fault comes exactly where the count of its object rose, and a read fault only where the words read the input.
    ensures write_fault { result ≡ Status.WriteFault → Rose (K.faults out.old) (K.faults out.new) }
    ensures no_write_fault { result ≢ Status.WriteFault → K.faults out.new ≡ K.faults out.old }
    ensures read_fault { result ≡ Status.ReadFault → Rose (S.faults input.old) (S.faults input.new) }
    ensures no_read_fault { result ≢ Status.ReadFault → S.faults input.new ≡ S.faults input.old }
    ensures reading { result ≡ Status.ReadFault → reads_input (command_of words.now) ≡ true }

    // These are left of the catalogues, in their order, and the others are spent.
    ensures left { AreLeft (map seen catalogues.old.items) (map seen catalogues.new.items) }

    ensures memory { OnErr (command_of words.now) (result ≢ Status.NoMemory) }
    ensures unread { reads_input (command_of words.now) ≡ false → input.new ≡ input.old }
    ensures unasked { may_ask (command_of words.now) ≡ false → catalogues.new ≡ catalogues.old }
{
    let ending = answer(alloc, words, input, catalogues, steps, out);
    say(err, ending.message().bytes());
    ending.status()
}
