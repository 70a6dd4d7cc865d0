// An asker that remembers.
ghost use Rattle.std.specs.Prelude.{◌≡◌, true, IfOk, MatchOption};
ghost use Rattle.std.specs.FinSet as set;
ghost use Rattle.design_base.specs.Cells.{cell_of as cell_number};
ghost use Rattle.design_base.specs.Limits.{in_bounds};
ghost use Rattle.rule_table.specs.Told.{Has, Learns, IsCounted};
ghost use Rattle.rule_table.specs.Verdicts.{verdict};

use crate::asker::Asker;
use crate::evaluation::Evaluation;
use crate::steps::Steps;
use crate::turn::Turn;
use design_base::{CELLS, Memory, Query, Verdict, cell_of, code, read_code};
use rule_terms::Tools;
use sparse_words::SparseWords;
use std::alloc::Global;
use std::marker::Model;
use std::sync::ledger::Ledger;

/// A memo: it remembers each verdict that it computes, and answers from what it remembers. It keeps a word for each cell, which is 0 where the
/// verdict is not known, and else its code. It is seen as the cells that it knows, and tells them; it asks no memo that others see. Each cell
/// that it comes to know is one evaluation and one step. It takes no memory but where it is made, and touches only the parts of it in which a
/// verdict is noted.
#[derive(Drop)]
pub struct Notes {
    words: SparseWords,
}

impl Model for Notes {
    ghost use Rattle.std.specs.Ordering.{nat_cmp};
    ghost use Rattle.std.specs.FinSet as set;
    ghost use Rattle.std.specs.Coded.{coded_ℕ};
    ghost use Rattle.rule_table.specs.Noted.{noted, AreNotes};

    ghost Value = { set.FinSet nat_cmp };

    ghost coded = { set.code coded_ℕ };

    ghost view = { λ n. noted n.words };

    ghost invariant = { λ n. AreNotes n.words };
}

impl Notes {
    /// Notes in which no verdict is known. The answer is `Memory` only for want of memory.
    pub fn open(alloc: Global) -> Result<Notes, Memory>
        ensures { IfOk result (λ n. n ≡ set.empty) }
    {
        let words = SparseWords::new(alloc, CELLS)?;
        Ok(Notes { words })
    }

    // The verdict of a question in bounds, where it is known.
    fn read(&self, q: &Query) -> Option<Verdict>
        requires { in_bounds q.now ≡ true }
        ensures { MatchOption result (¬ Has self.now (cell_number q.now)) (λ v. (v ≡ verdict q.now) × Has self.now (cell_number q.now)) }
    {
        let word = self.words.get(cell_of(q));
        if word == 0 {
            return None;
        }
        read_code(word)
    }

    // Notes the verdict of a question in bounds.
    fn write(&mut self, q: &Query, told: &Verdict)
        requires bounds { in_bounds q.now ≡ true }
        requires told { told.now ≡ verdict q.now }
        ensures { self.new ≡ set.insert self.old (cell_number q.now) }
    {
        self.words.set(cell_of(q), code(told));
    }
}

// The verdict of a question, which is noted afterwards. What its evaluation asks for is noted before it. Each cell that was not known is
// evaluated once.
fn note<L: Ledger>(notes: &mut Notes, q: &Query, tools: &Tools, steps: &mut Steps<L>) -> Verdict
    requires { in_bounds q.now ≡ true }
    ensures verdict { result ≡ verdict q.now }
    ensures learns { Learns q.now notes.old notes.new }
    ensures counted { IsCounted notes.old notes.new steps.old steps.new }
{
    if let Some(found) = notes.read(q) {
        return found;
    }
    let mut evaluation = Evaluation::new(q, tools, steps);
    'turns: loop {
        match evaluation.turn() {
            Turn::Ask(premise) => {
                let told = note(notes, &premise, tools, steps);
                evaluation.answer(&told);
            }
            Turn::Done(told) => {
                notes.write(q, &told);
                return told;
            }
        }
    }
}

impl Asker for Notes {
    ghost use Rattle.std.specs.Prelude.{None, Some};

    ghost memo = { λ _. None };

    ghost told = { λ n. Some n };

    fn ask<L: Ledger>(&mut self, q: &Query, tools: &Tools, steps: &mut Steps<L>) -> Verdict
        requires bounds { in_bounds q.now ≡ true }
        ensures verdict { result ≡ verdict q.now }
        ensures learns { Learns q.now self.old self.new }
        ensures counted { IsCounted self.old self.new steps.old steps.new }
    {
        note(self, q, tools, steps)
    }
}
