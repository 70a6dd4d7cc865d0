// The numbers of lines.
ghost use Rattle.std.specs.Prelude.{◌≡◌, ◌<◌, [], ◌∷◌, ◌++◌, length, IsOk, OnOk, OnErr};

use design_base::Memory;
use smallvec::SmallVec;
use std::alloc::Global;
use std::marker::Model;

/// The citations of a line: the numbers of the lines that it cites, in the order of the premises. Up to eight of them stand
/// in the value itself.
#[derive(Drop)]
pub struct Names {
    numbers: SmallVec<u64, 8>,
}

impl Model for Names {
    ghost use Rattle.std.specs.Prelude.{ℕ, ◌≤◌, List};

    ghost Value = { List ℕ };

    ghost view = { λ n. n.numbers.items };

    ghost invariant = { λ n. 8 ≤ n.numbers.capacity };
}

impl Names {
    /// The empty list.
    pub fn new(alloc: Global) -> Self
        ensures { result ≡ [] }
    {
        Names {
            numbers: SmallVec::new(alloc),
        }
    }

    /// Appends a number. `Memory` does not come below eight numbers; after it the list is as before.
    pub fn push(&mut self, number: u64) -> Result<(), Memory>
        ensures ok { OnOk result (self.new ≡ self.old ++ number ∷ []) }
        ensures err { OnErr result (self.new ≡ self.old) }
        ensures room { length self.old < 8 → IsOk result }
    {
        self.numbers.push(number)?;
        Ok(())
    }

    /// The numbers in order.
    pub fn as_slice(&self) -> &[u64]
        ensures { result.now ≡ self.now }
    {
        self.numbers.as_slice()
    }
}
