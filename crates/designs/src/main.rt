// The program: an oracle and builder for combinatorial designs.
#![tactic(auto)]

ghost use Rattle.std.specs.Prelude.{◌≡◌, ◌<◌};

use catalogues::{Catalogue, SourceCatalogue};
use design_cli::run_buffered;
use design_io::{StdSink, StdSource};
use design_reports::Status;
use rule_table::Steps;
use std::alloc::AllocError;
use std::marker::Brand;
use std::process::ExitCode;
use std::rt::Env;
use std::sync::ledger::{Blank, Ledger};
use std::{env, fs, io};

/// The file of the current folder whose designs are offered for open questions, where it is there.
const CATALOGUE: &str = "designs.catalogue";

// Why the words of the command line are not answered.
#[derive(Clone, Copy, Debug, PartialEq, Eq)]
enum StartEnd {
    Words,
    Memory,
}

impl StartEnd {
    // What is then said on the error output, and the status.
    fn parts(self) -> (&'static str, u8) {
        match self {
            StartEnd::Words => ("no words", 70),
            StartEnd::Memory => ("no memory", 71),
        }
    }
}

// The words after the program's name.
fn words_of<R: Env + AllocGlobal>(rt: &R) -> Result<Vec<String>, StartEnd> {
    let args = env::args(rt).map_err(|error| match error.kind() {
        io::ErrorKind::OutOfMemory => StartEnd::Memory,
        _ => StartEnd::Words,
    })?;
    let mut words = Vec::new(rt.alloc());
    for word in args.skip(1) {
        if words.push(word).is_err() {
            return Err(StartEnd::Memory);
        }
    }
    Ok(words)
}

// Answers the words on the standard streams, with the catalogue of the current folder at hand, and counts on a ledger of its own.
fn answer<L: Ledger>(rt: &HostRuntime, words: &[String], blank: Blank) -> Result<Status, AllocError>
    requires name { L.name ≡ blank.name }
    requires parts { L.parts ≡ blank.parts }
    requires some { 0 < blank.parts }
{
    let alloc = rt.alloc();
    let mut catalogues: Vec<Box<dyn Catalogue>> = Vec::new(alloc);
    if let Ok(file) = fs::open(rt, CATALOGUE) {
        let catalogue = SourceCatalogue::new(alloc, StdSource::new(file));
        catalogues.push(Box::new(alloc, catalogue)?)?;
    }
    let mut input = StdSource::new(rt.stdin());
    let out = StdSink::new(rt.stdout());
    let mut err = StdSink::new(rt.stderr());
    let mut steps = Steps::<L>::new(blank);
    let (status, _) = run_buffered(
        alloc,
        words,
        &mut input,
        out,
        &mut err,
        &mut catalogues,
        &mut steps,
    );
    Ok(status)
}

// Answers the words of the command line.
fn answer_words(rt: &HostRuntime) -> Result<Status, StartEnd> {
    let words = words_of(rt)?;
    match answer::<Brand>(rt, &words, Blank::new(1)) {
        Ok(status) => Ok(status),
        Err(_) => Err(StartEnd::Memory),
    }
}

fn main(rt: HostRuntime) -> ExitCode {
    match answer_words(&rt) {
        Ok(status) => ExitCode::from(status.number()),
        Err(end) => {
            let (text, status) = end.parts();
            let _ = eprintln!(rt; "{text}");
            ExitCode::from(status)
        }
    }
}
