//! What a line commands, and why a line is refused.

use design_base::{Query, TableAsk};

/// Why a line is refused: the first word at fault, counted from 1, or that the line breaks the limits.
#[derive(Clone, Copy, Debug, PartialEq, Eq)]
pub enum Reason {
    /// The line ends where this word is due.
    Missing { at: u64 },
    /// A fixed word is due here, and this is none of them.
    Unknown { at: u64 },
    /// A number is due here, and this word spells none.
    Spelling { at: u64 },
    /// The line is complete before this word.
    Surplus { at: u64 },
    /// The line is well formed, and its numbers break the limits.
    OutOfBounds,
}

/// What is asked of the table of rules on a question.
#[derive(Clone, Copy, Debug, PartialEq, Eq)]
pub enum Verb {
    Ask,
    Build,
    Explain,
    Closure,
}

/// How the blocks of a design are written.
#[derive(Clone, Copy, Debug, PartialEq, Eq)]
pub enum Shape {
    /// A block a line.
    Blocks,
    /// The rows of an orthogonal array.
    Rows,
    /// The lines of Latin squares.
    Squares,
}

/// A question, and how its blocks are written.
#[derive(Clone, Copy, Debug, PartialEq, Eq)]
pub struct Asked {
    pub query: Query,
    pub shape: Shape,
}

/// A verb on a question, and how its blocks are written. It may stand in a batch.
#[derive(Clone, Copy, Debug, PartialEq, Eq)]
pub struct Request {
    pub verb: Verb,
    pub query: Query,
    pub shape: Shape,
}

/// What a line commands.
#[derive(Clone, Copy, Debug, PartialEq, Eq)]
pub enum Command {
    /// A verb on a question.
    On(Request),
    /// The blocks of the input are to be checked against a question.
    Check(Asked),
    /// A derivation is to be read and replayed.
    Replay,
    /// The lines of the input are to be answered.
    Batch,
    /// So many questions are to be answered and counted.
    Workload { n: u32 },
    /// A table of questions, answered by 1 to 16 workers.
    Table { ask: TableAsk, workers: u8 },
}
