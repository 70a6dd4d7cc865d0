// Lines, and lists of them.
ghost use Rattle.std.specs.Prelude.{◌≡◌, ◌<◌, [], ◌∷◌, ◌++◌, length, Some, slice_get, OnOk, OnErr};

use crate::names::Names;
use design_base::{Memory, Query, Step};
use std::alloc::Global;
use std::marker::Model;

/// A line of a derivation: a question, the step that answers it, and the numbers of the lines that answer its premises.
#[derive(Drop)]
pub struct Line {
    pub query: Query,
    pub step: Step,
    pub from: Names,
}

/// What is wrong with a line. Of several the first in this order is named.
#[derive(Clone, Copy, Debug, PartialEq, Eq)]
pub enum LineFault {
    /// The question is not in bounds.
    OutOfBounds,
    /// The step is no candidate of the question.
    NotCandidate,
    /// A number is 0, or not below the line's own.
    ForwardReference,
    /// The lines that are named do not have the premises as their questions, in order and one each.
    MissingPremise,
    /// A number names a line that was named before, in this line or an earlier one.
    UsedTwice,
    /// No line names the line, and it is not the last.
    Surplus,
}

/// A fault, and the number of the line that has it.
#[derive(Clone, Copy, Debug, PartialEq, Eq)]
pub struct Fault {
    pub number: u64,
    pub fault: LineFault,
}

/// Why a replay gives no design.
#[derive(Clone, Copy, Debug, PartialEq, Eq)]
pub enum ReplayEnd {
    /// The derivation has a fault, and this is the first.
    BadLine { number: u64, fault: LineFault },
    /// There was no memory.
    Memory,
}

impl From<Memory> for ReplayEnd {
    ghost use Rattle.derivations.specs.declared.line.ReplayEnd.TheVariants.{Memory as Wanting};

    ghost from_gives = { λ _ e. e ≡ Wanting };

    fn from(_: Memory) -> Self {
        ReplayEnd::Memory
    }
}

/// Lines, numbered from 1.
#[derive(Drop)]
pub struct Derivation {
    lines: Vec<Line>,
}

impl Model for Derivation {
    ghost use Rattle.std.specs.Prelude.{List};
    ghost use Rattle.derivations.specs.declared.line.Line.{Line};

    ghost Value = { List Line };

    ghost view = { λ d. d.lines.items };
}

impl Derivation {
    /// The derivation without lines.
    pub fn new(alloc: Global) -> Self
        ensures { result ≡ [] }
    {
        Derivation {
            lines: Vec::new(alloc),
        }
    }

    /// Appends a line. After `Memory` the lines are as before.
    pub fn push(&mut self, line: Line) -> Result<(), Memory>
        ensures ok { OnOk result (self.new ≡ self.old ++ line ∷ []) }
        ensures err { OnErr result (self.new ≡ self.old) }
    {
        self.lines.push(line)?;
        Ok(())
    }

    /// The number of lines.
    pub fn len(&self) -> usize
        ensures { result ≡ length self.now }
    {
        self.lines.len()
    }

    /// The line at place `i`, counted from 0: line number `i + 1`. `i` is below the number of lines.
    pub fn line(&self, i: usize) -> &Line
        requires { i < length self.now }
        ensures { slice_get self.now i ≡ Some result.now }
    {
        &self.lines[i]
    }

    /// The lines in order.
    pub fn as_slice(&self) -> &[Line]
        ensures { result.now ≡ self.now }
    {
        self.lines.as_slice()
    }
}
