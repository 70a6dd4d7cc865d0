// Rows that are borrowed, put in lexicographic order, and packed again.
ghost use Rattle.std.specs.Prelude.{◌≡◌, ◌<◌, IfOk, IsPermutation, IsSorted, IsTrue, map};
ghost use Rattle.counting.specs.Sorting.{sort_by};
ghost use Rattle.design_base.specs.Canonical.{lex_le};
ghost use Rattle.std.specs.Cmp.Lexicographic.{slice_cmp};
ghost use Rattle.std.specs.Ordering.{nat_cmp};
ghost use Rattle.incidence.specs.Packed.{size_of};

use crate::packed::Rows;
use design_base::{Memory, PACKED_MAX};
use std::alloc::Global;

// The rows in their order, each borrowed.
fn row_list(alloc: Global, rows: &Rows) -> Result<Vec<&[u16]>, Memory>
    ensures { IfOk result (λ list. map (λ row. row.now) list.items ≡ rows.now) }
{
    let list = rows.iter().collect(alloc)?;
    Ok(list)
}

// Whether the rows stand in lexicographic order.
#[tactic(auto, using(crate::proofs::Ordered::ascends_more))]
pub(crate) fn are_in_order(rows: &Rows) -> bool
    ensures { IsTrue result → IsSorted (slice_cmp nat_cmp) rows.now }
{
    for i in 1..rows.len() {
        if rows.row(i).cmp(rows.row(i - 1)).is_lt() {
            return false;
        }
    }
    true
}

// The rows in lexicographic order, each borrowed.
pub(crate) fn in_lexicographic_order(alloc: Global, rows: &Rows) -> Result<Vec<&[u16]>, Memory>
    ensures same { IfOk result (λ order. IsPermutation rows.now (map (λ row. row.now) order.items)) }
    ensures sorted { IfOk result (λ order. IsSorted (slice_cmp nat_cmp) (map (λ row. row.now) order.items)) }
{
    let mut order = row_list(alloc, rows)?;
    order.sort_unstable();
    Ok(order)
}

// The rows of the list, packed. Memory for so many numbers is taken at once.
#[tactic(auto, using(crate::proofs::Ordered::size_more))]
pub(crate) fn pack(alloc: Global, list: &[&[u16]], numbers: usize) -> Result<Rows, Memory>
    requires { size_of (map (λ row. row.now) list.now) < PACKED_MAX }
    ensures { IfOk result (λ rows. rows ≡ map (λ row. row.now) list.now) }
{
    let mut rows = Rows::new(alloc);
    rows.reserve(list.len(), numbers)?;
    for row in list {
        rows.push_row(row)?;
    }
    Ok(rows)
}
