//! Block lines: the numbers of a block, as they are handed in.
ghost use Rattle.std.specs.Prelude.{◌≡◌, ◌+◌, ◌<◌, ◌≤◌, Err, IfOk, IfSome, None, OnErr, OnOk, length};
ghost use Rattle.design_base.specs.declared.limits.TheConstants.{PACKED_MAX};
ghost use Rattle.incidence.specs.Packed.{size_of};
ghost use Rattle.block_texts.specs.BlockLines.{AddsLine, block_line};

use crate::walk::{BlockLineEnd, read_row};
use design_base::PACKED_MAX;
use incidence::Rows;
use std::alloc::Global;

/// Appends the numbers of a block line as one row, in their order, and tells whether there were any. A block line has
/// numbers of 1 to 5 digits, each at most 65,535, with runs of spaces and tabs between them and at either end; leading
/// zeros are allowed, and so is one carriage return as the last byte. A line without numbers adds nothing. There is room for
/// the numbers of a block line in the rows. `Bad` comes exactly where the line is no block line, and `Memory` only for want of
/// memory. After a refusal the rows are as before.
pub fn push_block_line(alloc: Global, rows: &mut Rows, line: &[u8]) -> Result<bool, BlockLineEnd>
    requires { IfSome (block_line line.now) (λ row. size_of rows.old + length row + 1 < PACKED_MAX) }
    ensures ok { IfOk result (AddsLine rows.old rows.new line.now) }
    ensures bad { result ≡ Err BlockLineEnd.Bad → block_line line.now ≡ None }
    ensures err { OnErr result (rows.new ≡ rows.old) }
    ensures size { OnOk result (size_of rows.new ≤ size_of rows.old + length line.now + 1) }
{
    let mut row = Vec::new(alloc);
    if read_row(&mut row, line)?.is_some() {
        return Err(BlockLineEnd::Bad);
    }
    if row.is_empty() {
        return Ok(false);
    }
    rows.push_row(&row)?;
    Ok(true)
}
