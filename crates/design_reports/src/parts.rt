//! The blocks of a design, as they are written.
ghost use Rattle.std.specs.Prelude.{◌≡◌, ◌+◌, ◌*◌, ◌<◌, ◌≤◌, ◌∷◌, All, IfOk, length, map};
ghost use Rattle.std.specs.List.{flat_map};
ghost use Rattle.counting.specs.Sums.{join_below};
ghost use Rattle.design_base.specs.declared.limits.TheConstants.{POINTS_MAX};
ghost use Rattle.design_io.specs.Faults.{HasCause};
ghost use Rattle.design_io.specs.Pieces.{AppendsWhole};
ghost use Rattle.design_reports.specs.Parts.{IsPrintable, part_lines, part_of, square_lines};
ghost use Rattle.design_lines.specs.Printed.{counted_line as counted_text};
ghost use Rattle.design_reports.specs.Texts.{row_line as row_text};

use crate::lines::{write_counted, write_rows};
use arrays::{rows_of_td, squares_of_td};
use design_base::{Memory, Query};
use design_io::{Failed, Sink};
use design_lines::{RowPrinter, Shape};
use incidence::Rows;
use proved_designs::Design;
use std::alloc::Global;

/// The blocks of a design, in the shape that was asked for.
#[derive(Drop)]
pub enum Part {
    /// A block a line.
    Blocks(Rows),
    /// The rows of an orthogonal array.
    Rows(Rows),
    /// So many Latin squares of this order, one below the other.
    Squares(u16, u16, Rows),
}

/// The blocks of a design, in a shape. The answer is `Memory` only for want of memory.
pub fn part_of_design(alloc: Global, design: Design, shape: Shape) -> Result<Part, Memory>
    ensures part { IfOk result (λ part. part ≡ part_of design.query shape design.blocks) }
    ensures printable { IfOk result IsPrintable }
{
    match (design.query(), shape) {
        (Query::Td { k, n }, Shape::Rows) => {
            let rows = rows_of_td(alloc, k, n, design.blocks())?;
            Ok(Part::Rows(rows))
        }
        (Query::Td { k, n }, Shape::Squares) => {
            let lines = squares_of_td(alloc, k, n, design.blocks())?;
            Ok(Part::Squares(k - 2, n, lines))
        }
        _ => Ok(Part::Blocks(design.into_blocks())),
    }
}

// Writes a word with the number of the rows, and the rows.
#[tactic(auto, using(design_io::proofs::Pieces::composed))]
fn write_counted_rows<K: Sink>(
    out: &mut K,
    printer: &mut RowPrinter,
    word: &str,
    rows: &Rows,
) -> Result<(), Failed>
    requires started { 0 < length word.now }
    requires short { length word.now ≤ 100 }
    requires printable { All (λ row. length row ≤ POINTS_MAX) rows.now }
    ensures bytes { AppendsWhole (K.held out.old) (K.held out.new) result (flat_map (λ line. line) (counted_text word.now (length rows.now) ∷ map row_text rows.now)) }
    ensures cause { HasCause (K.faults out.old) (K.faults out.new) result }
{
    write_counted(out, word, rows.len() as u64)?;
    write_rows(out, printer, rows, 0, rows.len())
}

// Writes square `s` of those that stand one below the other.
#[tactic(auto, using(design_io::proofs::Pieces::composed), unfolding(crate::specs::Parts::square_lines))]
fn write_square<K: Sink>(
    out: &mut K,
    printer: &mut RowPrinter,
    n: u16,
    lines: &Rows,
    s: u16,
) -> Result<(), Failed>
    requires lines { (s + 1) * n ≤ length lines.now }
    requires printable { All (λ row. length row ≤ POINTS_MAX) lines.now }
    ensures bytes { AppendsWhole (K.held out.old) (K.held out.new) result (flat_map (λ line. line) (square_lines n lines.now s)) }
    ensures cause { HasCause (K.faults out.old) (K.faults out.new) result }
{
    write_counted(out, "square", u64::from(s) + 1)?;
    let start = usize::from(s) * usize::from(n);
    write_rows(out, printer, lines, start, start + usize::from(n))
}

// Writes squares that stand one below the other.
#[tactic(auto, using(design_io::proofs::Pieces::composed))]
fn write_squares<K: Sink>(
    out: &mut K,
    printer: &mut RowPrinter,
    m: u16,
    n: u16,
    lines: &Rows,
) -> Result<(), Failed>
    requires count { length lines.now ≡ m * n }
    requires printable { All (λ row. length row ≤ POINTS_MAX) lines.now }
    ensures bytes { AppendsWhole (K.held out.old) (K.held out.new) result (flat_map (λ line. line) (join_below m (square_lines n lines.now))) }
    ensures cause { HasCause (K.faults out.old) (K.faults out.new) result }
{
    for s in 0..m {
        write_square(out, printer, n, lines, s)?;
    }
    Ok(())
}

/// Writes the blocks.
#[tactic(auto, unfolding(crate::specs::Parts::part_lines))]
pub fn write_part<K: Sink>(out: &mut K, part: &Part) -> Result<(), Failed>
    requires printable { IsPrintable part.now }
    ensures bytes { AppendsWhole (K.held out.old) (K.held out.new) result (flat_map (λ line. line) (part_lines part.now)) }
    ensures cause { HasCause (K.faults out.old) (K.faults out.new) result }
{
    let mut printer = RowPrinter::new();
    match part {
        Part::Blocks(blocks) => write_counted_rows(out, &mut printer, "blocks", blocks),
        Part::Rows(rows) => write_counted_rows(out, &mut printer, "rows", rows),
        Part::Squares(m, n, lines) => write_squares(out, &mut printer, *m, *n, lines),
    }
}
