// The rows and the squares of a transversal design.
ghost use Rattle.std.specs.Prelude.{◌≡◌, ◌<◌, ◌+◌, ◌-◌, ◌*◌, ◌++◌, true, All, IfOk, OnOk, length};
ghost use Rattle.design_base.specs.Arrays.{IsOa, rows_of_blocks};
ghost use Rattle.design_base.specs.Blocks.{IsTd};
ghost use Rattle.design_base.specs.Limits.{in_bounds};
ghost use Rattle.design_base.specs.Squares.{IsMols};
ghost use Rattle.design_base.specs.declared.query.Query.TheVariants.{Td};
ghost use Rattle.incidence.specs.Packed.{size_of};
ghost use Rattle.arrays.specs.Arrays.{row_of_column, rows_of_td as rows_of, square_of_column, squares_of_rows};

use design_base::{Memory, PACKED_MAX};
use incidence::{Rows, array_of_td};
use std::alloc::Global;

/// The rows of a transversal design with `k` groups of `n` points, in lexicographic order: the number in column j of a row is
/// the place in group j of its block's point. They are an orthogonal array (Colbourn and Dinitz, Handbook of Combinatorial
/// Designs, III.3).
///
/// `k` is from 2 to `TD_K_MAX` and `n` from 1 to `TD_N_MAX`. The answer is `Memory` only for want of memory.
pub fn rows_of_td(alloc: Global, k: u16, n: u16, td: &Rows) -> Result<Rows, Memory>
    requires bounds { in_bounds (Td k n) ≡ true }
    requires td { IsTd td.now k n }
    ensures rows { IfOk result (λ rows. rows ≡ rows_of n td.now) }
    ensures array { IfOk result (λ rows. IsOa rows k n) }
{
    let array = array_of_td(alloc, k, n, td)?;
    let rows = array.in_order()?;
    Ok(rows)
}

// Writes row `x` of the square of column `j`.
#[tactic(auto, using(crate::proofs::Steps::steps), unfolding(crate::specs::Arrays::row_of_column))]
fn write_row(n: u16, rows: &Rows, x: u16, j: u16, row: &mut [u16])
    requires row { (x < n) × (length row.old ≡ n) }
    requires array { length rows.now ≡ n * n }
    requires column { All (λ row. j < length row) rows.now }
    ensures { row.new ≡ row_of_column n rows.now j x }
{
    for y in 0..n {
        row[y as usize] = rows.row(x as usize * n as usize + y as usize)[j as usize];
    }
}

// Appends the square of column `j`. Each of its rows is written into `row` first.
#[tactic(auto, using(crate::proofs::Steps::steps), unfolding(crate::specs::Arrays::square_of_column))]
fn push_square(
    n: u16,
    rows: &Rows,
    j: u16,
    row: &mut [u16],
    squares: &mut Rows,
) -> Result<(), Memory>
    requires row { length row.old ≡ n }
    requires array { length rows.now ≡ n * n }
    requires column { All (λ row. j < length row) rows.now }
    requires room { size_of squares.old + n * (n + 1) < PACKED_MAX }
    ensures ok { OnOk result (squares.new ≡ squares.old ++ square_of_column n rows.now j) }
    ensures size { OnOk result (size_of squares.new ≡ size_of squares.old + n * (n + 1)) }
{
    for x in 0..n {
        write_row(n, rows, x, j, row);
        squares.push_row(row)?;
    }
    Ok(())
}

/// The k - 2 mutually orthogonal Latin squares of a transversal design with `k` groups of `n` points, one below the other,
/// `n` rows of `n` symbols each: in row x and column y of square s, from 0 on, stands the number in column s + 2 of the row
/// that begins with x and y (Colbourn and Dinitz, Handbook of Combinatorial Designs, III.3).
///
/// `k` is from 2 to `TD_K_MAX` and `n` from 1 to `TD_N_MAX`. The answer is `Memory` only for want of memory.
pub fn squares_of_td(alloc: Global, k: u16, n: u16, td: &Rows) -> Result<Rows, Memory>
    requires bounds { in_bounds (Td k n) ≡ true }
    requires td { IsTd td.now k n }
    ensures squares { IfOk result (λ squares. squares ≡ squares_of_rows (k - 2) n (rows_of_blocks n td.now)) }
    ensures mols { IfOk result (λ squares. IsMols squares n (k - 2)) }
{
    let rows = rows_of_td(alloc, k, n, td)?;
    let mut row = vec![in alloc; 0; usize::from(n)]?;
    let mut squares = Rows::new(alloc);
    let count = usize::from(k - 2) * usize::from(n);
    squares.reserve(count, count * usize::from(n))?;
    for s in 0..k - 2 {
        push_square(n, &rows, s + 2, &mut row, &mut squares)?;
    }
    Ok(squares)
}
