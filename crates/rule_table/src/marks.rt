// The closure of a question, marked.
ghost use Rattle.std.specs.Prelude.{◌≡◌, true, false, length, IfOk};
ghost use Rattle.std.specs.FinSet as set;
ghost use Rattle.design_base.specs.Cells.{cell_of as cell_number};
ghost use Rattle.design_base.specs.Limits.{in_bounds};
ghost use Rattle.rule_table.specs.Closure.{closure, with_closure, IsClosed};
ghost use Rattle.rule_table.specs.Told.{Has, KeptAfter};

use crate::asker::Asker;
use crate::inquiry::Inquiry;
use crate::steps::Steps;
use crate::turn::Turn;
use design_base::{CELLS, Memory, Query, cell_of};
use rule_terms::Tools;
use sparse_words::SparseWords;
use std::alloc::Global;
use std::marker::Model;
use std::sync::ledger::Ledger;

/// Marks on questions, seen as the cells that are marked. They take no memory but where they are made.
#[derive(Drop)]
pub struct Marks {
    words: SparseWords,
    marked: u32,
}

impl Model for Marks {
    ghost use Rattle.std.specs.Ordering.{nat_cmp};
    ghost use Rattle.std.specs.FinSet as set;
    ghost use Rattle.std.specs.Coded.{coded_ℕ};
    ghost use Rattle.rule_table.specs.Noted.{noted, AreMarks};

    ghost Value = { set.FinSet nat_cmp };

    ghost coded = { set.code coded_ℕ };

    ghost view = { λ m. noted m.words };

    ghost invariant = { λ m. AreMarks m.words m.marked };
}

impl Marks {
    /// No marks. The answer is `Memory` only for want of memory.
    pub fn open(alloc: Global) -> Result<Marks, Memory>
        ensures none { IfOk result (λ m. m ≡ set.empty) }
        ensures closed { IfOk result IsClosed }
    {
        let words = SparseWords::new(alloc, CELLS)?;
        Ok(Marks { words, marked: 0 })
    }

    /// Takes all marks away.
    pub fn clear(&mut self)
        ensures none { self.new ≡ set.empty }
        ensures closed { IsClosed self.new }
    {
        self.words.clear();
        self.marked = 0;
    }

    /// How many questions are marked.
    pub fn count(&self) -> u32
        ensures { result ≡ set.len self.now }
    {
        self.marked
    }

    // Whether the question, which is in bounds, is marked.
    fn has(&self, q: &Query) -> bool
        requires { in_bounds q.now ≡ true }
        ensures yes { result ≡ true → Has self.now (cell_number q.now) }
        ensures no { result ≡ false → ¬ Has self.now (cell_number q.now) }
    {
        self.words.get(cell_of(q)) != 0
    }

    // Marks a question in bounds.
    fn mark(&mut self, q: &Query)
        requires { in_bounds q.now ≡ true }
        ensures { self.new ≡ set.insert self.old (cell_number q.now) }
    {
        let cell = cell_of(q);
        if self.words.get(cell) != 0 {
            return;
        }
        self.words.set(cell, 1);
        self.marked += 1;
    }
}

/// Marks the closure of a question: the question and all that its verdict rests on, each question that is asked on the way down. The
/// question is in bounds, and with each marked question all of its closure is marked; so it is afterwards. Takes no memory. The asker asks the
/// same memo as before; where it tells the cells that it knows, it keeps them, learns those of questions of smaller rank alone, and at most
/// one step is counted for each new one.
pub fn visit<A: Asker, L: Ledger>(
    q: &Query,
    tools: &Tools,
    asker: &mut A,
    marks: &mut Marks,
    steps: &mut Steps<L>,
)
    requires bounds { in_bounds q.now ≡ true }
    requires closed { IsClosed marks.old }
    ensures marks { marks.new ≡ with_closure marks.old q.now }
    ensures count { marks.old ≡ set.empty → set.len marks.new ≡ length (closure q.now) }
    ensures closed { IsClosed marks.new }
    ensures memo { A.memo asker.new ≡ A.memo asker.old }
    ensures told { KeptAfter q.now (A.told asker.old) (A.told asker.new) steps.old steps.new }
{
    if marks.has(q) {
        return;
    }
    let mut inquiry = Inquiry::new(q, tools);
    'turns: loop {
        match inquiry.turn() {
            Turn::Ask(premise) => {
                let told = asker.ask(&premise, tools, steps);
                visit(&premise, tools, asker, marks, steps);
                inquiry.answer(&told);
            }
            Turn::Done(_) => {
                marks.mark(q);
                return;
            }
        }
    }
}
