//! What tests of the top call share: a line of words on an input, and what comes of it.
ghost use Rattle.std.specs.Prelude.{◌≡◌, ◌<◌, ◌^◌, length};

use crate::run;
use catalogues::Catalogue;
use design_io::{MemorySink, MemorySource};
use design_reports::Status;
use rule_table::Steps;
use std::alloc::{AllocError, Global};
use std::marker::Brand;
use std::sync::ledger::{Blank, Ledger};

/// A line of words, the input, the numbers of its call and of the output's that fail, and what comes of it.
#[derive(Drop)]
pub struct Case {
    pub words: &'static str,
    pub input: &'static str,
    pub failing_read: u32,
    pub failing: u32,
    pub output: &'static str,
    pub message: &'static str,
    pub status: u8,
}

// How a run ended, and what stands on the output and on the error output.
#[derive(Drop)]
struct Ran {
    status: Status,
    output: MemorySink,
    message: MemorySink,
}

impl Ran {
    // Whether the run came out as the case says.
    fn is_as(&self, case: &Case) -> bool {
        self.status.number() == case.status
            && self.output.bytes() == case.output.as_bytes()
            && self.message.bytes() == case.message.as_bytes()
    }
}

/// The words of a line.
pub fn words_of(alloc: Global, text: &str) -> Result<Vec<String>, AllocError> {
    let mut words = Vec::new(alloc);
    for word in text.split_whitespace() {
        words.push(String::from_str(alloc, word)?)?;
    }
    Ok(words)
}

// An output of which one call fails.
fn sink(alloc: Global, failing: u32) -> Result<MemorySink, AllocError> {
    MemorySink::new(alloc, 4096, vec![in alloc; failing]?).map_err(|_| AllocError)
}

// Runs a case on the input with catalogues at hand, and counts the steps on a ledger.
fn run_counted<L: Ledger>(
    alloc: Global,
    case: &Case,
    input: Vec<u8>,
    catalogues: &mut Vec<Box<dyn Catalogue>>,
    blank: Blank,
) -> Result<Ran, AllocError>
    requires few { length catalogues.old.items < 2 ^ 32 }
    requires name { L.name ≡ blank.name }
    requires parts { L.parts ≡ blank.parts }
    requires some { 0 < blank.parts }
{
    let words = words_of(alloc, case.words)?;
    let mut input = MemorySource::new(input, vec![in alloc; case.failing_read]?);
    let mut output = sink(alloc, case.failing)?;
    let mut message = sink(alloc, 0)?;
    let mut steps = Steps::<L>::new(blank);
    let status = run(
        alloc,
        &words,
        &mut input,
        &mut output,
        &mut message,
        catalogues,
        &mut steps,
    );
    Ok(Ran {
        status,
        output,
        message,
    })
}

// Runs a case on the input with catalogues at hand.
fn run_case(
    alloc: Global,
    case: &Case,
    input: Vec<u8>,
    catalogues: &mut Vec<Box<dyn Catalogue>>,
) -> Result<Ran, AllocError>
    requires { length catalogues.old.items < 2 ^ 32 }
{
    run_counted::<Brand>(alloc, case, input, catalogues, Blank::new(1))
}

/// Whether the case comes out so with these catalogues at hand.
pub fn holds_with(
    alloc: Global,
    case: &Case,
    catalogues: &mut Vec<Box<dyn Catalogue>>,
) -> Result<bool, AllocError>
    requires { length catalogues.old.items < 2 ^ 32 }
{
    let ran = run_case(
        alloc,
        case,
        case.input.as_bytes().to_vec(alloc)?,
        catalogues,
    )?;
    Ok(ran.is_as(case))
}

/// Whether the case comes out so on this input, in place of its own.
pub fn holds_on(alloc: Global, case: &Case, input: Vec<u8>) -> Result<bool, AllocError> {
    let mut none: Vec<Box<dyn Catalogue>> = Vec::new(alloc);
    let ran = run_case(alloc, case, input, &mut none)?;
    Ok(ran.is_as(case))
}

/// Whether the case comes out so.
pub fn holds(alloc: Global, case: &Case) -> Result<bool, AllocError> {
    holds_on(alloc, case, case.input.as_bytes().to_vec(alloc)?)
}

/// The lines of the plane on seven points.
pub const FANO: &str = "0 1 3\n1 2 4\n2 3 5\n3 4 6\n0 4 5\n1 5 6\n0 2 6\n";

/// A case in which no call fails.
pub fn told(
    words: &'static str,
    input: &'static str,
    output: &'static str,
    message: &'static str,
    status: u8,
) -> Case {
    Case {
        words,
        input,
        failing_read: 0,
        failing: 0,
        output,
        message,
        status,
    }
}
