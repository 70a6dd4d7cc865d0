// The memo and its passes.
ghost use Rattle.std.specs.Prelude.{◌≡◌, true, IfOk};
ghost use Rattle.design_base.specs.Cells.{cell_of as cell_number};
ghost use Rattle.design_base.specs.Limits.{in_bounds};
ghost use Rattle.memo_cells.specs.Knowledge.{KnowsAll, joined, no_knowledge, published, split_off};
ghost use Rattle.memo_cells.specs.Lawful.{Loads};
ghost use Rattle.rule_table.specs.Asked.{asked};
ghost use Rattle.rule_table.specs.Verdicts.{verdict};

use crate::events::{Joining, Law, Loading, Publishing, Splitting, View};
use atomic_table::{Seat, Table};
use design_base::{CELLS, Memory, Query, Verdict, cell_of, code};
use std::alloc::Global;
use std::marker::Model;

// The words of a memo in which no verdict is set.
static NO_VERDICTS: [u64; CELLS] = [0; CELLS];

/// A memo that any number of threads share: a word for each question, which is 0 until it is set, once, to the code of the verdict of its
/// question. Contracts see it as the name of its words, which no other memo has. It takes no memory but where it is made.
#[derive(Drop)]
pub struct Cells {
    table: Table<(), View, (), Law, Global>,
}

impl Model for Cells {
    ghost use Rattle.std.specs.Prelude.{◌≡◌};
    ghost use Rattle.atomic_table.specs.Seated.{TableId, table_id_coded};
    ghost use Rattle.design_base.specs.declared.cells.TheConstants.{CELLS};

    ghost Value = { TableId };

    ghost coded = { table_id_coded };

    ghost view = { λ c. c.table.shared.table_id };

    ghost invariant = { λ c. c.table.shared.table_id.words ≡ CELLS };
}

/// What one worker knows of a memo. Contracts see it as the memo that it was made from and its knowledge: the cells that it knows, how many loads it
/// made, and the last of them. It takes no bytes, and may go to another thread.
#[derive(Drop)]
pub struct Pass {
    seat: Seat<(), View>,
}

impl Model for Pass {
    ghost use Rattle.std.specs.Prelude.{◌≡◌, []};
    ghost use Rattle.memo_cells.specs.Knowledge.{PassState, pass_state_code};

    ghost Value = { PassState };

    ghost coded = { pass_state_code };

    ghost view = { λ p. record { memo = p.seat.table_id; knowledge = p.seat.me.0 } };

    ghost invariant = { λ p. p.seat.me.1 ≡ [] };
}

impl Cells {
    /// A memo in which no verdict is set, and a pass that knows nothing. The answer is `Memory` only for want of memory.
    pub fn open(alloc: Global) -> Result<(Cells, Pass), Memory>
        ensures own { IfOk result (λ made. made.1.memo ≡ made.0) }
        ensures nothing { IfOk result (λ made. made.1.knowledge ≡ no_knowledge) }
    {
        let (table, seat) = Table::of_words(alloc, &NO_VERDICTS, &())?;
        Ok((Cells { table }, Pass { seat }))
    }

    /// A second pass, which knows what the first knows and has made no loads. The first stays as it is. The pass was made from this memo.
    pub fn split(&self, pass: &mut Pass) -> Pass
        requires own { pass.old.memo ≡ self.now }
        ensures kept { pass.new ≡ pass.old }
        ensures memo { result.memo ≡ self.now }
        ensures knowledge { result.knowledge ≡ split_off pass.old.knowledge }
    {
        Pass {
            seat: self.table.shared.split_seat::<Splitting>(&mut pass.seat),
        }
    }

    /// Gives the other pass up. Afterwards the first knows what either knew. Both were made from this memo.
    pub fn join(&self, pass: &mut Pass, other: Pass)
        requires own { pass.old.memo ≡ self.now }
        requires other { other.memo ≡ self.now }
        ensures memo { pass.new.memo ≡ pass.old.memo }
        ensures knowledge { pass.new.knowledge ≡ joined pass.old.knowledge other.knowledge }
    {
        let Pass { seat } = other;
        self.table.shared.join_seat::<Joining>(&mut pass.seat, seat);
    }

    // Reads the word of a question in bounds: 0, or the code of its verdict.
    pub(crate) fn load(&self, q: &Query, pass: &mut Pass) -> u64
        requires bounds { in_bounds q.now ≡ true }
        requires own { pass.old.memo ≡ self.now }
        ensures memo { pass.new.memo ≡ pass.old.memo }
        ensures loads { Loads (cell_number q.now) pass.old.knowledge result pass.new.knowledge }
    {
        self.table
            .shared
            .load::<Loading>(&mut pass.seat, cell_of(q))
    }

    // Sets the verdict of a question in bounds, where it is not set. The pass knows the cells of the questions that the verdict asks for.
    pub(crate) fn publish(&self, q: &Query, told: &Verdict, pass: &mut Pass)
        requires bounds { in_bounds q.now ≡ true }
        requires own { pass.old.memo ≡ self.now }
        requires told { told.now ≡ verdict q.now }
        requires grounded { KnowsAll pass.old.knowledge.known (asked q.now) }
        ensures memo { pass.new.memo ≡ pass.old.memo }
        ensures knowledge { pass.new.knowledge ≡ published pass.old.knowledge (cell_number q.now) }
    {
        self.table
            .shared
            .compare_exchange::<Publishing>(&mut pass.seat, cell_of(q), 0, code(told));
    }
}
