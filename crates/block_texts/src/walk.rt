// The numbers of the first line of a text.
ghost use Rattle.std.specs.Prelude.{◌≡◌, Err, IfOk, option_map};
ghost use Rattle.block_texts.specs.declared.walk.BlockLineEnd.TheVariants.{Bad, Memory};
ghost use Rattle.block_texts.specs.Fronts.{HasBadFirst, IsFirstRow};

use crate::front::{behind_blanks, line_end, number_at_front};
use design_base::Memory;
use std::alloc::AllocFailed;

/// Why a line was not added to the rows.
#[derive(Clone, Copy, Debug, PartialEq, Eq)]
pub enum BlockLineEnd {
    /// It is no block line.
    Bad,
    /// There was no memory.
    Memory,
}

impl From<Memory> for BlockLineEnd {
    ghost from_gives = { λ _ e. e ≡ Memory };

    fn from(_: Memory) -> Self {
        BlockLineEnd::Memory
    }
}

impl<T: Drop> From<AllocFailed<T>> for BlockLineEnd {
    ghost from_gives = { λ _ e. e ≡ Memory };

    fn from(_: AllocFailed<T>) -> Self {
        BlockLineEnd::Memory
    }
}

// Puts the numbers of the first line of a text in place of those of the row, and answers what stands behind its line feed,
// where it has one. `Bad` comes exactly where the line is no block line.
pub fn read_row<'a>(row: &mut Vec<u16>, text: &'a [u8]) -> Result<Option<&'a [u8]>, BlockLineEnd>
    ensures row { IfOk result (λ next. IsFirstRow text.now row.new.items (option_map (λ rest. rest.now) next)) }
    ensures bad { result ≡ Err BlockLineEnd.Bad → HasBadFirst text.now }
{
    row.clear();
    let mut rest = text;
    loop {
        rest = behind_blanks(rest);
        if let Some(next) = line_end(rest) {
            return Ok(next);
        }
        let Some((number, more)) = number_at_front(rest) else {
            return Err(BlockLineEnd::Bad);
        };
        row.push(number)?;
        rest = more;
    }
}
