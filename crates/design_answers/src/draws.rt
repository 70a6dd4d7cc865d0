//! The questions that a workload draws.
ghost use Rattle.std.specs.Prelude.{◌≡◌, ◌≤◌, ◌<◌, None, true};
ghost use Rattle.design_base.specs.declared.query.Query.{Query as Question};
ghost use Rattle.design_base.specs.Cells.{cell_of as number_of};
ghost use Rattle.design_base.specs.Limits.{in_bounds};
ghost use Rattle.design_base.specs.Questions.{query_of as question_of};
ghost use Rattle.design_answers.specs.Draws.{IsFirstFrom, draw as draw_of, first_from as first_question, start_of};

use design_base::{CELLS, POINTS_MAX, Query, TD_K_MAX, TD_N_MAX, cell_of, query_of};

/// How many cells are between the starts of two draws.
const STRIDE: usize = 65_537;

/// The question that is drawn first.
const FIRST_DRAWN: Query = Query::Bibd { v: 9, k: 3, l: 1 };

// The cells of the transversal designs, each of which has a question.
const TD_CELLS: usize = (TD_K_MAX as usize - 1) * TD_N_MAX as usize;

// The cells behind them come in rows. In each row the cells that have a question stand in front.
const ROW: usize = POINTS_MAX as usize - 1;

// The end of the row of a cell that has no question. No question has a number from that cell to the end.
fn row_end(cell: usize) -> usize
    requires within { cell < CELLS }
    requires none { question_of cell ≡ None }
    ensures later { cell < result }
    ensures none { (p : Question) → in_bounds p ≡ true → cell ≤ number_of p → result ≤ number_of p }
{
    TD_CELLS + ((cell - TD_CELLS) / ROW + 1) * ROW
}

// The question of the first cell from this one on that has a question.
fn find_from(start: usize) -> Query
    requires { start < CELLS }
    ensures { IsFirstFrom start result }
{
    let mut cell = start;
    'cells: loop {
        match query_of(cell) {
            Some(query) => return query,
            None => cell = row_end(cell),
        }
    }
}

// The same, which is the stated one.
fn first_from(start: usize) -> Query
    requires { start < CELLS }
    ensures value { result ≡ first_question start }
    ensures first { IsFirstFrom start result }
{
    find_from(start)
}

/// The question of a draw, counted from 0: that of the least cell from the draw's start on that has a question. The starts go through the cells
/// in strides, round and round.
#[tactic(auto, unfolding(crate::specs::Draws::draw, design_base::specs::Limits::in_bounds))]
pub fn draw(j: u32) -> Query
    ensures value { result ≡ draw_of j }
    ensures bounds { in_bounds result ≡ true }
    ensures first { IsFirstFrom (start_of j) result }
{
    first_from((j as usize * STRIDE + cell_of(&FIRST_DRAWN)) % CELLS)
}
