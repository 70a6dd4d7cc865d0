//! How the answer to a line ends, and what is then said on the error output.
ghost use Rattle.std.specs.Prelude.{◌≡◌, ◌≤◌, [], ◌∷◌, length};
ghost use Rattle.design_lines.specs.Printed.{line_of};
ghost use Rattle.design_reports.specs.Reports.{ending_of, ending_with};
ghost use Rattle.design_reports.specs.Endings.{ending_at, status_of, refusal_line, message_of};

use crate::status::Status;
use design_base::Verdict;
use design_checks::Finding;
use design_io::ReadEnd;
use design_lines::{Reason, TextLine, counted_line};

/// How an answer ends.
#[derive(Clone, Copy, Debug, PartialEq, Eq)]
pub enum Ending {
    Yes,
    No,
    Unknown,
    /// The words are refused.
    Refused { reason: Reason },
    /// The words are in the grammar, and no line yet answers them.
    NotBuilt,
    /// The input is bad at this line.
    BadInput { line: u32 },
    ReadFault,
    /// The offer of the catalogue at this place, from 1, failed.
    CatalogueFault { number: u32 },
    NoMemory,
    WriteFault,
}

// A text, ended as a line.
fn said(text: &str) -> TextLine
    requires { length text.now ≤ 100 }
    ensures { result ≡ line_of (text.now ∷ []) }
{
    let mut line = TextLine::new();
    line.push_word(text.as_bytes());
    line.end();
    line
}

// What is said of words that are refused.
fn refusal(reason: Reason) -> TextLine
    ensures { result ≡ refusal_line reason }
{
    match reason {
        Reason::Missing { at } => counted_line("usage: missing word at", at),
        Reason::Unknown { at } => counted_line("usage: unknown word at", at),
        Reason::Spelling { at } => counted_line("usage: number spelling at", at),
        Reason::Surplus { at } => counted_line("usage: surplus word at", at),
        Reason::OutOfBounds => said("usage: out of bounds"),
    }
}

impl Ending {
    /// How an answer ends where the input was not read.
    pub fn of_unread(end: ReadEnd) -> Ending
        ensures { result ≡ ending_at end }
    {
        match end {
            ReadEnd::Failed => Ending::ReadFault,
            ReadEnd::TooLong { line } => Ending::BadInput { line },
            ReadEnd::Memory => Ending::NoMemory,
        }
    }

    /// How an answer ends that says this verdict and no more: as yes, no or unknown, by the verdict.
    pub fn of_verdict(verdict: &Verdict) -> Ending
        ensures { result ≡ ending_with verdict.now }
    {
        match verdict {
            Verdict::Yes(_) => Ending::Yes,
            Verdict::No(_) => Ending::No,
            Verdict::Unknown => Ending::Unknown,
        }
    }

    /// How an answer ends that says this finding: as yes where the blocks are valid, and else as no.
    pub fn of_finding(finding: Finding) -> Ending
        ensures { result ≡ ending_of finding }
    {
        match finding {
            Finding::Valid => Ending::Yes,
            Finding::BadBlock { .. } | Finding::BadPair { .. } => Ending::No,
        }
    }

    /// The status of a run that ends so.
    pub fn status(&self) -> Status
        ensures { result ≡ status_of self.now }
    {
        match self {
            Ending::Yes => Status::Yes,
            Ending::No => Status::No,
            Ending::Unknown => Status::Unknown,
            Ending::Refused { .. } | Ending::NotBuilt => Status::Usage,
            Ending::BadInput { .. } => Status::BadInput,
            Ending::ReadFault => Status::ReadFault,
            Ending::CatalogueFault { .. } => Status::CatalogueFault,
            Ending::NoMemory => Status::NoMemory,
            Ending::WriteFault => Status::WriteFault,
        }
    }

    /// The line on the error output, which is empty where nothing is said.
    #[tactic(auto, unfolding(crate::specs::Endings::message_of))]
    pub fn message(&self) -> TextLine
        ensures { result ≡ message_of self.now }
    {
        match *self {
            Ending::Yes | Ending::No | Ending::Unknown => TextLine::new(),
            Ending::Refused { reason } => refusal(reason),
            Ending::NotBuilt => said("usage: not built"),
            Ending::BadInput { line } => counted_line("bad input at line", u64::from(line)),
            Ending::ReadFault => said("read fault"),
            Ending::CatalogueFault { number } => {
                counted_line("catalogue fault at", u64::from(number))
            }
            Ending::NoMemory => said("no memory"),
            Ending::WriteFault => said("write fault"),
        }
    }
}
