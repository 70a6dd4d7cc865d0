//! The blocks of a text.
ghost use Rattle.std.specs.Prelude.{◌≡◌, ◌+◌, ◌<◌, ◌≤◌, IfErr, IfOk, OnOk, length, nat_lt};
ghost use Rattle.std.specs.List.{list_any};
ghost use Rattle.design_base.specs.declared.limits.TheConstants.{INPUT_MAX, PACKED_MAX};
ghost use Rattle.incidence.specs.Packed.{size_of};
ghost use Rattle.block_texts.specs.BlockLines.{with_row};
ghost use Rattle.block_texts.specs.BlockText.{IsBadText, block_text, blocks, shortened, until_short};

use crate::walk::{BlockLineEnd, read_row};
use design_base::Memory;
use incidence::Rows;
use std::alloc::Global;

/// Why a text gave no blocks.
#[derive(Clone, Copy, Debug, PartialEq, Eq)]
pub enum BlockTextEnd {
    /// The first line that is neither blank nor holds the numbers of a block.
    BadLine { line: u32 },
    /// There was no memory.
    Memory,
}

// Whether the last row has fewer than `least` numbers.
fn ends_short(rows: &Rows, least: usize) -> bool
    requires { until_short least rows.now ≡ rows.now }
    ensures { result ≡ list_any (λ row. nat_lt (length row) least) rows.now }
{
    let count = rows.len();
    count > 0 && rows.row(count - 1).len() < least
}

// Appends the numbers of a line as a row, unless a row of fewer than `least` numbers stands before it. A blank line has none.
fn push_until_short(rows: &mut Rows, least: usize, row: &[u16]) -> Result<(), Memory>
    requires room { size_of rows.old + length row.now + 1 < PACKED_MAX }
    requires short { until_short least rows.old ≡ rows.old }
    ensures row { OnOk result (rows.new ≡ until_short least (with_row rows.old row.now)) }
    ensures size { OnOk result (size_of rows.new ≤ size_of rows.old + length row.now + 1) }
{
    if row.is_empty() || ends_short(rows, least) {
        return Ok(());
    }
    rows.push_row(row)?;
    Ok(())
}

/// The blocks of a text, in their order, up to the first of fewer than `least` points: no more is kept than is needed to find
/// that one bad. The whole text is read: `BadLine` names its first bad line, counted from 1, and `Memory` comes only for want
/// of memory. The text has at most `INPUT_MAX` bytes.
pub fn read_blocks(alloc: Global, text: &[u8], least: usize) -> Result<Rows, BlockTextEnd>
    requires { length text.now ≤ INPUT_MAX }
    ensures blocks { IfOk result (λ rows. shortened least (block_text text.now) ≡ blocks rows) }
    ensures bad { IfErr result (IsBadText text.now) }
{
    let mut rows = Rows::new(alloc);
    let mut row = Vec::new(alloc);
    let mut rest = text;
    let mut line = 1;
    'lines: loop {
        let next = match read_row(&mut row, rest) {
            Ok(next) => next,
            Err(BlockLineEnd::Bad) => return Err(BlockTextEnd::BadLine { line }),
            Err(BlockLineEnd::Memory) => return Err(BlockTextEnd::Memory),
        };
        let Ok(()) = push_until_short(&mut rows, least, &row) else {
            return Err(BlockTextEnd::Memory);
        };
        let Some(more) = next else {
            return Ok(rows);
        };
        rest = more;
        line += 1;
    }
}
