// The blocks that rows and squares stand for.
ghost use Rattle.std.specs.Prelude.{◌≡◌, ◌≤◌, ◌<◌, ◌+◌, ◌-◌, ◌*◌, ◌↔◌, ◌++◌, true, All, IfOk, IfErr, IsOk, OnOk, None, length};
ghost use Rattle.counting.specs.Sums.{list_below};
ghost use Rattle.design_base.specs.Arrays.{IsOa, IsRow, blocks_of_rows as blocks_of};
ghost use Rattle.design_base.specs.Blocks.{IsTd};
ghost use Rattle.design_base.specs.Canonical.{canonical};
ghost use Rattle.design_base.specs.Limits.{in_bounds};
ghost use Rattle.design_base.specs.Squares.{IsMols};
ghost use Rattle.design_base.specs.declared.query.Query.TheVariants.{Td};
ghost use Rattle.incidence.specs.Packed.{size_of};
ghost use Rattle.arrays.specs.Arrays.{row_of_cell, rows_of_squares as rows_of};
ghost use Rattle.arrays.specs.Lines.{IsNamed, bad_line as bad_line_of, bad_row as bad_row_of};

use crate::end::ArrayEnd;
use crate::lines::{bad_line, bad_row};
use design_base::{Memory, PACKED_MAX, TD_K_MAX, TD_N_MAX};
use incidence::{Rows, blocks_of_rows};
use std::alloc::Global;

// The blocks of rows, in canonical form.
fn canonical_blocks(alloc: Global, k: u16, n: u16, rows: &Rows) -> Result<Rows, Memory>
    requires bounds { in_bounds (Td k n) ≡ true }
    requires rows { All (IsRow k n) rows.now }
    ensures { IfOk result (λ td. td ≡ canonical (blocks_of k n rows.now)) }
{
    let blocks = blocks_of_rows(alloc, k, n, rows)?;
    blocks.canonical()
}

/// The blocks that rows of `k` symbols below `n` stand for, in canonical form: the symbol in column j is the place of the
/// block's point in group j. They are a transversal design exactly where the rows are an orthogonal array (Colbourn and
/// Dinitz, Handbook of Combinatorial Designs, III.3).
///
/// `k` is from 2 to `TD_K_MAX` and `n` from 1 to `TD_N_MAX`; nothing is asked of the rows. Where a row has not `k` symbols,
/// each below `n`, the answer is `BadLine` with the first such row. It is `Memory` only for want of memory.
pub fn td_of_rows(alloc: Global, k: u16, n: u16, rows: &Rows) -> Result<Rows, ArrayEnd>
    requires { in_bounds (Td k n) ≡ true }
    ensures shape { IsOk result → bad_row_of k n rows.now ≡ None }
    ensures bad_line { IfErr result (IsNamed (bad_row_of k n rows.now)) }
    ensures blocks { IfOk result (λ td. td ≡ canonical (blocks_of k n rows.now)) }
    ensures design { IfOk result (λ td. IsTd td k n ↔ IsOa rows.now k n) }
{
    if let Some(index) = bad_row(k, n, rows, rows.len()) {
        return Err(ArrayEnd::BadLine { index });
    }
    let td = canonical_blocks(alloc, k, n, rows)?;
    Ok(td)
}

// The row of cell `x`, `y`: these two, and the symbols that the `m` squares of order `n` have in row `x` and column `y`.
#[tactic(auto, using(crate::proofs::Steps::steps))]
fn cell_row(
    alloc: Global,
    m: u16,
    n: u16,
    squares: &Rows,
    x: u16,
    y: u16,
) -> Result<Vec<u16>, Memory>
    requires cell { (x < n) × (y < n) }
    requires count { length squares.now ≡ m * n }
    requires shape { All (IsRow n n) squares.now }
    ensures { IfOk result (λ row. row.items ≡ row_of_cell m n squares.now x y) }
{
    let mut row = Vec::with_capacity(alloc, usize::from(m) + 2)?;
    row.push(x)?;
    row.push(y)?;
    for s in 0..m {
        row.push(squares.row(usize::from(s) * usize::from(n) + usize::from(x))[usize::from(y)])?;
    }
    Ok(row)
}

// Appends the rows of the cells in row `x` of the squares.
#[tactic(auto, using(crate::proofs::Steps::steps))]
fn push_cells(
    alloc: Global,
    m: u16,
    n: u16,
    squares: &Rows,
    x: u16,
    rows: &mut Rows,
) -> Result<(), Memory>
    requires row { x < n }
    requires count { length squares.now ≡ m * n }
    requires shape { All (IsRow n n) squares.now }
    requires room { size_of rows.old + n * (m + 3) < PACKED_MAX }
    ensures ok { OnOk result (rows.new ≡ rows.old ++ list_below n (row_of_cell m n squares.now x)) }
    ensures size { OnOk result (size_of rows.new ≡ size_of rows.old + n * (m + 3)) }
{
    for y in 0..n {
        let row = cell_row(alloc, m, n, squares, x, y)?;
        rows.push_row(&row)?;
    }
    Ok(())
}

// The rows of the cells of `m` squares of order `n`.
#[tactic(auto, using(crate::proofs::Steps::steps), unfolding(crate::specs::Arrays::rows_of_squares))]
fn rows_of_squares(alloc: Global, m: u16, n: u16, squares: &Rows) -> Result<Rows, Memory>
    requires small { (m ≤ TD_K_MAX) × (n ≤ TD_N_MAX) }
    requires count { length squares.now ≡ m * n }
    requires shape { All (IsRow n n) squares.now }
    ensures { IfOk result (λ rows. rows ≡ rows_of m n squares.now) }
{
    let mut rows = Rows::new(alloc);
    for x in 0..n {
        push_cells(alloc, m, n, squares, x, &mut rows)?;
    }
    Ok(rows)
}

/// The blocks that k - 2 squares of order `n` stand for, in canonical form. The squares stand one below the other, `n` rows of
/// `n` symbols below `n` each, and for each row x and column y there is a block: through place x of group 0, place y of
/// group 1 and, for each square s, the place in group s + 2 that its symbol there says. The blocks are a transversal design
/// exactly where the squares are mutually orthogonal Latin squares (Colbourn and Dinitz, Handbook of Combinatorial Designs,
/// III.3).
///
/// `k` is from 2 to `TD_K_MAX` and `n` from 1 to `TD_N_MAX`; nothing is asked of the rows. Where one has not `n` symbols, each
/// below `n`, is surplus or is missing, the answer is `BadLine` with the first such row. It is `Memory` only for want of
/// memory.
pub fn td_of_squares(alloc: Global, k: u16, n: u16, squares: &Rows) -> Result<Rows, ArrayEnd>
    requires { in_bounds (Td k n) ≡ true }
    ensures shape { IsOk result → bad_line_of (k - 2) n squares.now ≡ None }
    ensures bad_line { IfErr result (IsNamed (bad_line_of (k - 2) n squares.now)) }
    ensures blocks { IfOk result (λ td. td ≡ canonical (blocks_of k n (rows_of (k - 2) n squares.now))) }
    ensures design { IfOk result (λ td. IsTd td k n ↔ IsMols squares.now n (k - 2)) }
{
    if let Some(index) = bad_line(k - 2, n, squares) {
        return Err(ArrayEnd::BadLine { index });
    }
    let rows = rows_of_squares(alloc, k - 2, n, squares)?;
    let td = canonical_blocks(alloc, k, n, &rows)?;
    Ok(td)
}

#[cfg(test)]
mod tests {
    use super::*;
    use crate::rows::{rows_of_td, squares_of_td};
    use std::process::Abort;
    use std::test::Fail;

    fn packed<const W: usize>(alloc: Global, list: &[[u16; W]]) -> Result<Rows, Memory>
        requires few { length list.now ≤ 16 }
        requires short { W ≤ 16 }
        ensures { IfOk result (λ rows. rows ≡ list.now) }
    {
        let mut rows = Rows::new(alloc);
        for row in list {
            rows.push_row(row)?;
        }
        Ok(rows)
    }

    fn assert_rows<const W: usize>(rt: &impl Abort, rows: &Rows, list: &[[u16; W]]) {
        assert_eq!(rt; rows.len(), list.len());
        for (i, row) in list.iter().enumerate() {
            assert_eq!(rt; rows.row(i), row.as_slice());
        }
    }

    #[test]
    #[tactic(auto, using(crate::proofs::Samples::four_rows_array), unfolding(design_base::specs::Limits::in_bounds))]
    fn rows_and_back(rt: HostRuntime) -> Result<(), Fail> {
        let alloc = rt.alloc();
        let list = [[0, 0, 0], [0, 1, 1], [1, 0, 1], [1, 1, 0]];
        let td = td_of_rows(alloc, 3, 2, &packed(alloc, &list)?)?;
        assert_rows(&rt, &td, &[[0, 2, 4], [0, 3, 5], [1, 2, 5], [1, 3, 4]]);
        assert_rows(&rt, &rows_of_td(alloc, 3, 2, &td)?, &list);
        Ok(())
    }

    #[test]
    #[tactic(auto, using(crate::proofs::Samples::six_rows_mols), unfolding(design_base::specs::Limits::in_bounds))]
    fn squares_and_back(rt: HostRuntime) -> Result<(), Fail> {
        let alloc = rt.alloc();
        let list = [
            [0, 1, 2],
            [1, 2, 0],
            [2, 0, 1],
            [0, 1, 2],
            [2, 0, 1],
            [1, 2, 0],
        ];
        let td = td_of_squares(alloc, 4, 3, &packed(alloc, &list)?)?;
        let blocks = [
            [0, 3, 6, 9],
            [0, 4, 7, 10],
            [0, 5, 8, 11],
            [1, 3, 7, 11],
            [1, 4, 8, 9],
            [1, 5, 6, 10],
            [2, 3, 8, 10],
            [2, 4, 6, 11],
            [2, 5, 7, 9],
        ];
        assert_rows(&rt, &td, &blocks);
        assert_rows(&rt, &squares_of_td(alloc, 4, 3, &td)?, &list);
        Ok(())
    }

    #[test]
    #[tactic(auto, unfolding(design_base::specs::Limits::in_bounds))]
    fn too_many_rows(rt: HostRuntime) -> Result<(), Fail> {
        let alloc = rt.alloc();
        let list = [[1, 1, 0], [0, 0, 0], [0, 1, 1], [1, 1, 0], [1, 0, 1]];
        let td = td_of_rows(alloc, 3, 2, &packed(alloc, &list)?)?;
        assert_rows(
            &rt,
            &td,
            &[[0, 2, 4], [0, 3, 5], [1, 2, 5], [1, 3, 4], [1, 3, 4]],
        );
        let long = td_of_rows(alloc, 3, 2, &packed(alloc, &[[0, 0, 0, 0]])?);
        assert_eq!(rt; long.err(), Some(ArrayEnd::BadLine { index: 1 }));
        Ok(())
    }

    #[test]
    #[tactic(auto, unfolding(design_base::specs::Limits::in_bounds))]
    fn bad_lines(rt: HostRuntime) -> Result<(), Fail> {
        let alloc = rt.alloc();
        let mut lines = packed(alloc, &[[0, 1]])?;
        let missing = td_of_squares(alloc, 3, 2, &lines);
        assert_eq!(rt; missing.err(), Some(ArrayEnd::BadLine { index: 2 }));
        lines.push_row(&[1])?;
        let short = td_of_squares(alloc, 3, 2, &lines);
        assert_eq!(rt; short.err(), Some(ArrayEnd::BadLine { index: 2 }));
        let surplus = td_of_squares(alloc, 3, 2, &packed(alloc, &[[0, 1], [1, 0], [0, 1]])?);
        assert_eq!(rt; surplus.err(), Some(ArrayEnd::BadLine { index: 3 }));
        Ok(())
    }
}
