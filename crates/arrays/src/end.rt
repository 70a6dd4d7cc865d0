ghost use Rattle.std.specs.Prelude.{◌≡◌};
ghost use Rattle.arrays.specs.declared.end.ArrayEnd.TheVariants.{Memory as NoMemory};

use design_base::Memory;

/// Why lines give no blocks.
#[derive(Clone, Copy, Debug, PartialEq, Eq)]
pub enum ArrayEnd {
    /// The first line that has a wrong length or a symbol out of range, is surplus or is missing, counted from 1.
    BadLine { index: u32 },
    /// There was no memory.
    Memory,
}

impl From<Memory> for ArrayEnd {
    ghost from_gives = { λ _ end. end ≡ NoMemory };

    fn from(_: Memory) -> Self {
        ArrayEnd::Memory
    }
}
