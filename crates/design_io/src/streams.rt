ghost use Rattle.std.specs.Prelude.{ℕ, List, OnErr, OnOk, ◌≡◌, ◌≤◌};
ghost use Rattle.std.specs.Io.{ReadsAtMost, WritesAtMost};
ghost use Rattle.std.specs.Io.KnownBytes.{ReadConsumes, WriteAppends};
ghost use Rattle.std.specs.declared.option.Option.{Option};
ghost use Rattle.design_io.specs.Faults.{counted};
ghost use Rattle.design_io.specs.Pieces.{TakesSome};

/// A read or a write failed, and was counted as one fault.
#[derive(Clone, Copy, Debug, PartialEq, Eq)]
pub struct Failed;

/// What gives bytes.
pub trait Source {
    /// The bytes that are left, where it tells them.
    ghost left: { Self → Option (List ℕ) };

    /// The count of faults, which never falls and ends at the last value of the type u64.
    ghost faults: { Self → ℕ };

    /// Reads into the front of the buffer, and says how many bytes. `Ok(0)` for a buffer that is
    /// not empty is the end of input. A failed call takes no byte and counts as one fault; another
    /// leaves the count.
    fn read(&mut self, buf: &mut [u8]) -> Result<usize, Failed>
        ensures bound { ReadsAtMost result buf.new }
        ensures bytes { ReadConsumes (left self.old) (left self.new) result buf.new }
        ensures later { faults self.old ≤ faults self.new }
        ensures kept { OnOk result (faults self.new ≡ faults self.old) }
        ensures failed { OnErr result (faults self.new ≡ counted (faults self.old)) };
}

/// What takes bytes.
pub trait Sink {
    /// The bytes that it holds, where it tells them.
    ghost held: { Self → Option (List ℕ) };

    /// The count of faults, which never falls and ends at the last value of the type u64.
    ghost faults: { Self → ℕ };

    /// Appends a front of the piece, and says how long it is: not 0 where the piece has bytes.
    /// A failed call appends no byte and counts as one fault; another leaves the count.
    fn write(&mut self, piece: &[u8]) -> Result<usize, Failed>
        ensures bound { WritesAtMost result piece.now }
        ensures some { TakesSome result piece.now }
        ensures bytes { WriteAppends (held self.old) (held self.new) result piece.now }
        ensures later { faults self.old ≤ faults self.new }
        ensures kept { OnOk result (faults self.new ≡ faults self.old) }
        ensures failed { OnErr result (faults self.new ≡ counted (faults self.old)) };
}
