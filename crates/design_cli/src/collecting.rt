//! The top call over an output that gets the report in few pieces.
ghost use Rattle.std.specs.Prelude.{◌≡◌, ◌≢◌, ◌<◌, ◌^◌, OnErr, OnOk, false, length, map, true};
ghost use Rattle.catalogues.specs.Left.{AreLeft};
ghost use Rattle.derivation_text.specs.Spelling.{ReadBackLaw};
ghost use Rattle.derivations.specs.Laws.{DerivationLaw, ReplayLaw, YesLaw};
ghost use Rattle.design_cli.specs.Laws.{PrintedRowsLaw, PrintedSquaresLaw, ValidLaw, ValidRowsLaw, ValidSquaresLaw};
ghost use Rattle.design_cli.specs.Report.{command_of, may_ask};
ghost use Rattle.design_cli.specs.Runs.{Answers, RunsOn};
ghost use Rattle.design_io.specs.Buffers.{handed};
ghost use Rattle.design_lines.specs.Keywords.{reads_input};
ghost use Rattle.design_io.specs.Faults.{HasCause, Rose};
ghost use Rattle.design_io.specs.Pieces.{AppendsWhole};
ghost use Rattle.design_reports.specs.Answers.{HasFault, HasReadFault, Says};
ghost use Rattle.rule_table.specs.Laws.{NoLaw, UnknownLaw};

use crate::answering::answer;
use catalogues::Catalogue;
use design_io::{Buffered, Failed, Origin, Sink, Source};
use design_reports::{Ending, Status, say};
use rule_table::Steps;
use std::alloc::Global;
use std::marker::Brand;
use std::sync::ledger::Ledger;

// How an answer ends once the last bytes were flushed, or could not be.
fn flushed_ending(ending: Ending, end: Result<(), Failed>) -> Ending
    ensures kept { OnOk end (result ≡ ending) }
    ensures failed { OnErr end (result ≡ Ending.WriteFault) }
{
    match end {
        Ok(()) => ending,
        Err(Failed) => Ending::WriteFault,
    }
}

// Flushes a buffer, and hands back the output behind it.
fn flushed<K: Sink, O: Origin>(mut buffered: Buffered<K, O>) -> (Result<(), Failed>, K)
    ensures bytes { AppendsWhole O.start (K.held result.1) result.0 (handed buffered) }
    ensures cause { HasCause (K.faults buffered.inner) (K.faults result.1) result.0 }
{
    let end = buffered.flush();
    (end, buffered.into_inner())
}

// Answers the words on a buffer before the output, and flushes it.
fn answer_buffered<S: Source, K: Sink, L: Ledger, O: Origin>(
    alloc: Global,
    words: &[String],
    input: &mut S,
    catalogues: &mut Vec<Box<dyn Catalogue>>,
    steps: &mut Steps<L>,
    out: K,
) -> (Ending, K)
    requires few { length catalogues.old.items < 2 ^ 32 }
    requires start { O.start ≡ K.held out }
    ensures ends { Answers false (command_of words.now) (S.left input.old) (S.left input.new) (map seen catalogues.old.items) (map seen catalogues.new.items) result.0 (K.held out) (K.held result.1) }
    ensures cause { HasFault result.0 (K.faults out) (K.faults result.1) }
    ensures read_cause { result.0 ≢ Ending.WriteFault → HasReadFault result.0 (S.faults input.old) (S.faults input.new) }
    ensures reading { result.0 ≡ Ending.ReadFault → reads_input (command_of words.now) ≡ true }
    ensures memory { OnErr (command_of words.now) (result.0 ≢ Ending.NoMemory) }
    ensures unread { reads_input (command_of words.now) ≡ false → input.new ≡ input.old }
    ensures unasked { may_ask (command_of words.now) ≡ false → catalogues.new ≡ catalogues.old }
{
    let mut buffered = Buffered::<K, O>::new(out);
    let ending = answer(alloc, words, input, catalogues, steps, &mut buffered);
    let (end, inner) = flushed(buffered);
    (flushed_ending(ending, end), inner)
}

/// Answers the words of a command line as `run` does, but collects the report in a buffer of fixed size, which is written on `out`
/// where it is full and at the end. `out` is handed back behind the status.
#[tactic(auto, using(rule_table::proofs::Meanings::none_meets, rule_table::proofs::Meanings::unknown_is_open, crate::proofs::Designed::sound_is_designed, crate::proofs::Designed::yes_is_derived, derivation_text::proofs::ReadBack::each_text_is_read, crate::proofs::Designed::valid_is_design, crate::proofs::Designed::valid_is_array, crate::proofs::Designed::valid_are_squares))]
pub fn run_buffered<S: Source, K: Sink, E: Sink, L: Ledger>(
    alloc: Global,
    words: &[String],
    input: &mut S,
    out: K,
    err: &mut E,
    catalogues: &mut Vec<Box<dyn Catalogue>>,
    steps: &mut Steps<L>,
) -> (Status, K)
    requires { length catalogues.old.items < 2 ^ 32 }

    // There are a text, what the input has left where that is told, and entries, those of the catalogues where they are told, whose report this is: the
    // status, the bytes on the output, of which a part stands after a fault, the line on the error output, and the entries afterwards. The catalogues
    // were asked where the report says so and as it says, each once, told or not, also where the output failed later; a fault names the one whose offer
    // failed.
    ensures report { RunsOn false (command_of words.now) (S.left input.old) (S.left input.new) (map seen catalogues.old.items) (map seen catalogues.new.items) result.0 (K.held out) (K.held result.1) (λ line. Says line (E.held err.old) (E.held err.new) (E.faults err.old) (E.faults err.new)) }

    // The blocks of a yes are such a design, under a no there is no such design, and a question is unknown exactly where no criterion
    // and no rule applies.
    ensures design { YesLaw }
    ensures none { NoLaw }
    ensures unknown { UnknownLaw }

    // The derivation of a yes is sound and ends with its question; a sound derivation leads to a design of its last question; what is printed of
    // one is read back as it.
    ensures derived { DerivationLaw }
    ensures replays { ReplayLaw }
    ensures read_back { ReadBackLaw }

    // What is printed of a transversal design are an orthogonal array and Latin squares.
    ensures printed_rows { PrintedRowsLaw }
    ensures printed_squares { PrintedSquaresLaw }

    // Exactly the blocks, the rows and the squares of such designs are found valid.
    ensures valid { ValidLaw }
    ensures valid_rows { ValidRowsLaw }
    ensures valid_squares { ValidSquaresLaw }

    // A fault comes exactly where the count of its object rose, and a read fault only where the words read the input.
    ensures write_fault { result.0 ≡ Status.WriteFault → Rose (K.faults out) (K.faults result.1) }
    ensures no_write_fault { result.0 ≢ Status.WriteFault → K.faults result.1 ≡ K.faults out }
    ensures read_fault { result.0 ≡ Status.ReadFault → Rose (S.faults input.old) (S.faults input.new) }
    ensures no_read_fault { result.0 ≢ Status.ReadFault → result.0 ≢ Status.WriteFault → S.faults input.new ≡ S.faults input.old }
    ensures reading { result.0 ≡ Status.ReadFault → reads_input (command_of words.now) ≡ true }

    // These are left of the catalogues, in their order, and the others are spent.
    ensures left { AreLeft (map seen catalogues.old.items) (map seen catalogues.new.items) }

    ensures memory { OnErr (command_of words.now) (result.0 ≢ Status.NoMemory) }
    ensures unread { reads_input (command_of words.now) ≡ false → input.new ≡ input.old }
    ensures unasked { may_ask (command_of words.now) ≡ false → catalogues.new ≡ catalogues.old }
{
    let (ending, inner) = answer_buffered::<S, K, L, Brand>(
        alloc, words, input, catalogues, steps, out,
    );
    say(err, ending.message().bytes());
    (ending.status(), inner)
}
