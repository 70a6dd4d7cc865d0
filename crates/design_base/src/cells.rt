//! The numbers of the questions in bounds: each has a cell of its own, and some cells have no question.
ghost use Rattle.std.specs.Prelude.{◌≡◌, ◌+◌, ◌-◌, ◌*◌, ◌/◌, ◌%◌, ◌≤◌, ◌<◌, true, Some, IfSome};
ghost use Rattle.design_base.specs.declared.cells.TheConstants.{BIBD_CELLS, CELLS, GDD_CELLS, PBD_CELLS, TD_CELLS};
ghost use Rattle.design_base.specs.declared.limits.TheConstants.{COVER_MAX, GDD_K_MAX, PBD_S_MAX, POINTS_MAX, TD_K_MAX, TD_N_MAX};
ghost use Rattle.design_base.specs.declared.query.Query.{Query as Question};
ghost use Rattle.design_base.specs.Cells.{cell_of as number_of, group_number as number_of_group, triple_number as number_of_triple};
ghost use Rattle.design_base.specs.Limits.{in_bounds as is_in_bounds};
ghost use Rattle.design_base.specs.Questions.{gdd_number as number_of_gdd, bibd_at as bibd_of, df_at as df_of, gdd_at as gdd_of, pbd_at as pbd_of, query_of as question_of, question_at as question_found, td_at as td_of};

use crate::limits::{COVER_MAX, GDD_K_MAX, PBD_S_MAX, POINTS_MAX, TD_K_MAX, TD_N_MAX};
use crate::query::{Group, Query, in_bounds};

// How many cells the questions of each kind take. Difference families take two times as many as block designs.
const TD_CELLS: usize = (TD_K_MAX as usize - 1) * TD_N_MAX as usize;

const BIBD_CELLS: usize = (POINTS_MAX as usize - 1)
    * (POINTS_MAX as usize - 1)
    * COVER_MAX as usize;

const GDD_CELLS: usize = (GDD_K_MAX as usize - 1)
    * (POINTS_MAX as usize / 2)
    * (POINTS_MAX as usize - 1);

const PBD_CELLS: usize = (POINTS_MAX as usize - 1) * (PBD_S_MAX as usize - 1);

/// The number of all cells.
pub const CELLS: usize = TD_CELLS + 2 * BIBD_CELLS + BIBD_CELLS + GDD_CELLS + PBD_CELLS;

// The place of the group among the two.
fn group_number(group: Group) -> usize
    ensures { result ≡ number_of_group group }
{
    match group {
        Group::Cyclic => 0,
        Group::Field => 1,
    }
}

// The place of v, k and l among all of them.
fn triple_number(v: u16, k: u16, l: u16) -> usize
    requires least { 2 ≤ k }
    requires block { k ≤ v }
    requires points { v ≤ POINTS_MAX }
    requires some { 1 ≤ l }
    requires cover { l ≤ COVER_MAX }
    ensures value { result ≡ number_of_triple v k l }
    ensures within { result < BIBD_CELLS }
{
    let pair = (usize::from(v) - 2) * (usize::from(POINTS_MAX) - 1) + (usize::from(k) - 2);
    pair * usize::from(COVER_MAX) + (usize::from(l) - 1)
}

// The place of k, g and u among all of them.
#[tactic(auto, using(crate::proofs::Numbering::gdd_laws))]
fn gdd_number(k: u16, g: u16, u: u16) -> usize
    requires least { 2 ≤ k }
    requires narrow { k ≤ GDD_K_MAX }
    requires some { 1 ≤ g }
    requires groups { 2 ≤ u }
    requires points { g * u ≤ POINTS_MAX }
    ensures value { result ≡ number_of_gdd k g u }
    ensures within { result < GDD_CELLS }
{
    let pair = (usize::from(k) - 2) * usize::from(POINTS_MAX / 2) + (usize::from(g) - 1);
    pair * (usize::from(POINTS_MAX) - 1) + (usize::from(u) - 2)
}

/// The number of a question, which is in bounds: it is below `CELLS`, and no other question in bounds has it. The kinds stand one after
/// another: transversal designs, difference families over the integers and then those over fields, block designs, group divisible and
/// pairwise balanced designs. Within a kind the numbers of a question are the digits of its number, each counted from its least value,
/// so that `td k n` has the number (k - 2) * `TD_N_MAX` + n - 1.
#[tactic(auto, unfolding(crate::specs::Cells::cell_of), using(crate::proofs::Bounds::bounds_laws))]
pub fn cell_of(q: &Query) -> usize
    requires bounds { is_in_bounds q.now ≡ true }
    ensures value { result ≡ number_of q.now }
    ensures within { result < CELLS }
{
    match *q {
        Query::Td { k, n } => (usize::from(k) - 2) * usize::from(TD_N_MAX) + (usize::from(n) - 1),
        Query::Df { group, v, k, l } => {
            TD_CELLS + group_number(group) * BIBD_CELLS + triple_number(v, k, l)
        }
        Query::Bibd { v, k, l } => TD_CELLS + 2 * BIBD_CELLS + triple_number(v, k, l),
        Query::Gdd { k, g, u } => TD_CELLS + 3 * BIBD_CELLS + gdd_number(k, g, u),
        Query::Pbd { v, s } => {
            let pair = (usize::from(v) - 2) * (usize::from(PBD_S_MAX) - 1) + (usize::from(s) - 2);
            TD_CELLS + 3 * BIBD_CELLS + GDD_CELLS + pair
        }
    }
}

// The question on transversal designs with this place among them.
fn td_at(x: usize) -> Query
    requires { x < TD_CELLS }
    ensures { result ≡ td_of x }
{
    let n = usize::from(TD_N_MAX);
    Query::Td {
        k: (x / n + 2) as u16,
        n: (x % n + 1) as u16,
    }
}

// The numbers v, k and l with this place among them.
fn triple_at(x: usize) -> (u16, u16, u16)
    requires { x < BIBD_CELLS }
    ensures first { result.0 ≡ x / COVER_MAX / (POINTS_MAX - 1) + 2 }
    ensures second { result.1 ≡ x / COVER_MAX % (POINTS_MAX - 1) + 2 }
    ensures third { result.2 ≡ x % COVER_MAX + 1 }
{
    let covers = usize::from(COVER_MAX);
    let sizes = usize::from(POINTS_MAX) - 1;
    let pair = x / covers;
    (
        (pair / sizes + 2) as u16,
        (pair % sizes + 2) as u16,
        (x % covers + 1) as u16,
    )
}

// The question on difference families with this place among them.
fn df_at(x: usize) -> Query
    requires { x < 2 * BIBD_CELLS }
    ensures { result ≡ df_of x }
{
    let group = if x / BIBD_CELLS == 0 {
        Group::Cyclic
    } else {
        Group::Field
    };
    let (v, k, l) = triple_at(x % BIBD_CELLS);
    Query::Df { group, v, k, l }
}

// The question on block designs with this place among them.
fn bibd_at(x: usize) -> Query
    requires { x < BIBD_CELLS }
    ensures { result ≡ bibd_of x }
{
    let (v, k, l) = triple_at(x);
    Query::Bibd { v, k, l }
}

// The question on group divisible designs with this place among them.
fn gdd_at(x: usize) -> Query
    requires { x < GDD_CELLS }
    ensures { result ≡ gdd_of x }
{
    let sizes = usize::from(POINTS_MAX / 2);
    let counts = usize::from(POINTS_MAX) - 1;
    Query::Gdd {
        k: (x / counts / sizes + 2) as u16,
        g: (x / counts % sizes + 1) as u16,
        u: (x % counts + 2) as u16,
    }
}

// The question on pairwise balanced designs with this place among them.
fn pbd_at(x: usize) -> Query
    requires { x < PBD_CELLS }
    ensures { result ≡ pbd_of x }
{
    let sizes = usize::from(PBD_S_MAX) - 1;
    Query::Pbd {
        v: (x / sizes + 2) as u16,
        s: (x % sizes + 2) as u16,
    }
}

// The question that a number leads back to, in bounds or not.
fn question_at(cell: usize) -> Option<Query>
    ensures { result ≡ question_found cell }
{
    if cell < TD_CELLS {
        return Some(td_at(cell));
    }
    let behind_td = cell - TD_CELLS;
    if behind_td < 2 * BIBD_CELLS {
        return Some(df_at(behind_td));
    }
    let behind_df = behind_td - 2 * BIBD_CELLS;
    if behind_df < BIBD_CELLS {
        return Some(bibd_at(behind_df));
    }
    let behind_bibd = behind_df - BIBD_CELLS;
    if behind_bibd < GDD_CELLS {
        return Some(gdd_at(behind_bibd));
    }
    let behind_gdd = behind_bibd - GDD_CELLS;
    if behind_gdd < PBD_CELLS {
        return Some(pbd_at(behind_gdd));
    }
    None
}

// The same, where it is in bounds.
#[tactic(auto, unfolding(crate::specs::Questions::query_of))]
fn bounded_at(cell: usize) -> Option<Query>
    ensures { result ≡ question_of cell }
{
    let q = question_at(cell)?;
    if in_bounds(&q) { Some(q) } else { None }
}

/// The question in bounds with this number. None exactly where no question in bounds has it.
#[tactic(auto, using(crate::proofs::Numbering::question_laws))]
pub fn query_of(cell: usize) -> Option<Query>
    ensures value { result ≡ question_of cell }
    ensures found { IfSome result (λ q. (is_in_bounds q ≡ true) × (number_of q ≡ cell)) }
    ensures only { (q : Question) → is_in_bounds q ≡ true → number_of q ≡ cell → result ≡ Some q }
{
    bounded_at(cell)
}
