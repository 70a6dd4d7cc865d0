// Verdicts by way of a memo.
ghost use Rattle.std.specs.Prelude.{◌≡◌, true, IfSome, IfNone};
ghost use Rattle.design_base.specs.Cells.{cell_of as cell_number};
ghost use Rattle.design_base.specs.Codes.{code as code_of};
ghost use Rattle.design_base.specs.Limits.{in_bounds};
ghost use Rattle.memo_cells.specs.Knowledge.{loaded};
ghost use Rattle.memo_cells.specs.Lawful.{IsUnreached};
ghost use Rattle.rule_table.specs.Told.{Has, Learns, IsPaid};
ghost use Rattle.rule_table.specs.Verdicts.{verdict};

use crate::cells::{Cells, Pass};
use design_base::{Query, Verdict, read_code};
use rule_table::{Evaluation, Steps, Tools, Turn};
use std::sync::ledger::Ledger;

/// The verdict of a question, where it is set. The one load of its word is told by the knowledge of the pass; where the word was not 0, the pass knows
/// the cell from then on. None comes only where it was 0, and never where the pass knew the cell of a question whose closure holds this one. The
/// question is in bounds, and the pass was made from these cells.
pub fn known(cells: &Cells, q: &Query, pass: &mut Pass) -> Option<Verdict>
    requires bounds { in_bounds q.now ≡ true }
    requires own { pass.old.memo ≡ cells.now }
    ensures memo { pass.new.memo ≡ pass.old.memo }
    ensures verdict { IfSome result (λ v. v ≡ verdict q.now) }
    ensures some { IfSome result (λ v. pass.new.knowledge ≡ loaded pass.old.knowledge (cell_number q.now) (code_of v)) }
    ensures knows { IfSome result (λ _. Has pass.new.knowledge.known (cell_number q.now)) }
    ensures none { IfNone result (pass.new.knowledge ≡ loaded pass.old.knowledge (cell_number q.now) 0) }
    ensures unreached { IfNone result (IsUnreached pass.old.knowledge.known (cell_number q.now)) }
{
    let word = cells.load(q, pass);
    if word == 0 {
        return None;
    }
    read_code(word)
}

/// The verdict of a question, whatever other passes do meanwhile. Afterwards the pass knows its cell and all that it knew, and no other cells than those
/// of questions of smaller rank. The steps rise by at most the number of cells that the pass newly knows, and not at all where it knew the cell of the
/// question. The question is in bounds, and the pass was made from these cells. Takes no memory, and waits for no one.
pub fn decide<L: Ledger>(
    cells: &Cells,
    q: &Query,
    pass: &mut Pass,
    tools: &Tools,
    steps: &mut Steps<L>,
) -> Verdict
    requires bounds { in_bounds q.now ≡ true }
    requires own { pass.old.memo ≡ cells.now }
    ensures memo { pass.new.memo ≡ pass.old.memo }
    ensures verdict { result ≡ verdict q.now }
    ensures learns { Learns q.now pass.old.knowledge.known pass.new.knowledge.known }
    ensures paid { IsPaid pass.old.knowledge.known pass.new.knowledge.known steps.old steps.new }
    ensures free { Has pass.old.knowledge.known (cell_number q.now) → steps.new ≡ steps.old }
{
    if let Some(found) = known(cells, q, pass) {
        return found;
    }
    let mut evaluation = Evaluation::new(q, tools, steps);
    'turns: loop {
        match evaluation.turn() {
            Turn::Ask(premise) => {
                let told = decide(cells, &premise, pass, tools, steps);
                evaluation.answer(&told);
            }
            Turn::Done(told) => {
                cells.publish(q, &told, pass);
                return told;
            }
        }
    }
}
