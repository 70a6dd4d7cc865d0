//! The top call over an output that collects: what arrives, also where a call of the input or of the output fails.
ghost use Rattle.std.specs.Prelude.{◌≡◌, ◌<◌};

use crate::cases::{Case, words_of};
use crate::run_buffered;
use catalogues::Catalogue;
use design_io::{MemorySink, MemorySource};
use design_reports::Status;
use rule_table::Steps;
use std::alloc::{AllocError, Global};
use std::marker::Brand;
use std::sync::ledger::{Blank, Ledger};
use std::test::Fail;

// How a run ended, what arrived at the output, and what stands on the error output.
#[derive(Drop)]
struct Ran {
    status: Status,
    arrived: MemorySink,
    message: MemorySink,
}

// The text, so often.
fn repeated(alloc: Global, text: &str, times: u32) -> Result<Vec<u8>, AllocError> {
    let mut bytes = Vec::new(alloc);
    for _ in 0..times {
        bytes.extend_from_slice(text.as_bytes())?;
    }
    Ok(bytes)
}

// Runs a case on its input so often, and counts the steps on a ledger.
fn run_counted<L: Ledger>(
    alloc: Global,
    case: &Case,
    times: u32,
    blank: Blank,
) -> Result<Ran, AllocError>
    requires name { L.name ≡ blank.name }
    requires parts { L.parts ≡ blank.parts }
    requires some { 0 < blank.parts }
{
    let words = words_of(alloc, case.words)?;
    let input = repeated(alloc, case.input, times)?;
    let mut input = MemorySource::new(input, vec![in alloc; case.failing_read]?);
    let Ok(output) = MemorySink::new(alloc, 65_536, vec![in alloc; case.failing]?) else {
        return Err(AllocError);
    };
    let Ok(mut message) = MemorySink::new(alloc, 64, Vec::new(alloc)) else {
        return Err(AllocError);
    };
    let mut catalogues: Vec<Box<dyn Catalogue>> = Vec::new(alloc);
    let mut steps = Steps::<L>::new(blank);
    let (status, arrived) = run_buffered(
        alloc,
        &words,
        &mut input,
        output,
        &mut message,
        &mut catalogues,
        &mut steps,
    );
    Ok(Ran {
        status,
        arrived,
        message,
    })
}

// Runs a case on its input so often.
fn run_case(alloc: Global, case: &Case, times: u32) -> Result<Ran, AllocError> {
    run_counted::<Brand>(alloc, case, times, Blank::new(1))
}

// Whether the case comes out so, and so many bytes of its output, as often, arrive.
fn holds(alloc: Global, case: &Case, times: u32, count: usize) -> Result<bool, AllocError> {
    let ran = run_case(alloc, case, times)?;
    let output = repeated(alloc, case.output, times)?;
    let arrived = ran.arrived.bytes();
    Ok(
        ran.status.number() == case.status
            && ran.message.bytes() == case.message.as_bytes()
            && arrived.len() == count
            && output.as_slice().starts_with(arrived),
    )
}

// A batch of one question as often as it is asked, where calls with these numbers fail.
fn batch(failing_read: u32, failing: u32, message: &'static str, status: u8) -> Case {
    Case {
        words: "batch",
        input: "ask td 5 4\n",
        failing_read,
        failing,
        output: "td 5 4 yes field\n",
        message,
        status,
    }
}

// A line of words that leave the input unread, where the call of the output with this number fails.
fn line(
    words: &'static str,
    failing: u32,
    output: &'static str,
    message: &'static str,
    status: u8,
) -> Case {
    Case {
        words,
        input: "",
        failing_read: 0,
        failing,
        output,
        message,
        status,
    }
}

#[test]
fn what_is_collected_arrives(rt: HostRuntime) -> Result<(), Fail> {
    const YES: &str = "td 5 4 yes field\n";
    for (case, times, count) in [
        (line("ask td 5 4", 0, YES, "", 0), 1, 17),
        (line("ask td 5 4", 2, YES, "", 0), 1, 17),
        (line("ask td 5 4", 1, YES, "write fault\n", 74), 1, 0),
        (
            line("ask foo", 1, "", "usage: unknown word at 2\n", 64),
            1,
            0,
        ),
        (batch(0, 0, "", 0), 1_000, 17_000),
        (batch(0, 1, "write fault\n", 74), 1_000, 16_384),
        (batch(0, 2, "write fault\n", 74), 1_000, 16_384),
        (batch(0, 3, "", 0), 1_000, 17_000),
        (batch(0, 1, "write fault\n", 74), 2, 0),
        (batch(2, 0, "read fault\n", 66), 2, 34),
        (batch(2, 1, "write fault\n", 74), 2, 0),
    ] {
        let right = holds(rt.alloc(), &case, times, count)?;
        assert!(rt; right, "at {} where {} fails", case.words, case.failing);
    }
    Ok(())
}
