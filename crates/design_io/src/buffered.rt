//! A sink that collects what is written, and passes it on where its buffer is full.
ghost use Rattle.std.specs.Prelude.{◌≡◌, ◌≤◌, ◌++◌, ◌+◌, ◌-◌, [], length, min, take, OnErr, OnOk, Some};
ghost use Rattle.std.specs.Io.KnownBytes.{Appends, Keeps};
ghost use Rattle.design_io.specs.Buffers.{handed};
ghost use Rattle.design_io.specs.Faults.{HasCause, counted};
ghost use Rattle.design_io.specs.Pieces.{AppendsWhole};

use crate::history::History;
use crate::window::move_to_front;
use crate::writing::write_front;
use crate::{Failed, Sink};
use std::marker::{Brand, Model, PhantomData};

// How many bytes are collected at most.
const BUFFER: usize = 16_384;

/// What the sink behind a buffer held when it was wrapped. A call picks it.
pub trait Origin {
    ghost use Rattle.std.specs.Prelude.{ℕ, List};
    ghost use Rattle.std.specs.declared.option.Option.{Option};

    /// The bytes, where they are told.
    ghost start: { Option (List ℕ) };
}

impl Origin for Brand {
    ghost use Rattle.std.specs.Prelude.{None};

    ghost start = { None };
}

/// A sink that collects what is written in a buffer of fixed size. A write copies into the buffer what there is room for; where
/// it is full, what it holds is first written to the sink behind. What is still held at the end has to be flushed.
#[derive(Drop)]
pub struct Buffered<K: Sink, O: Origin> {
    inner: K,
    bytes: [u8; BUFFER],
    len: usize,
    passed: History<[u8; BUFFER], usize>,
    of: PhantomData<O>,
}

impl<K: Sink, O: Origin> Model for Buffered<K, O> {
    ghost use Rattle.std.specs.Prelude.{◌≤◌, take};
    ghost use Rattle.std.specs.Io.KnownBytes.{Appends};
    ghost use Rattle.design_io.specs.Buffers.{Collected, fronts};
    ghost use Rattle.design_io.specs.declared.buffered.TheConstants.{BUFFER};

    ghost Value = { Collected K };

    ghost view = { λ s. record {
      inner = s.inner;
      passed = fronts s.passed.items;
      left = take s.len s.bytes;
    } };

    ghost invariant = { λ s. (s.len ≤ BUFFER) × Appends O.start (K.held s.inner) (fronts s.passed.items) };
}

// Copies as many bytes of the piece behind the first `len` as there is room for, and says how many.
fn copy_behind(bytes: &mut [u8; BUFFER], len: usize, piece: &[u8]) -> usize
    requires { len ≤ length bytes.old }
    ensures count { result ≡ min (length piece.now) (length bytes.old - len) }
    ensures copied { take (len + result) bytes.new ≡ take len bytes.old ++ take result piece.now }
{
    let count = piece.len().min(BUFFER - len);
    bytes[len..len + count].copy_from_slice(&piece[..count]);
    count
}

impl<K: Sink, O: Origin> Buffered<K, O> {
    /// An empty buffer before a sink, which holds what the origin says, where that is told.
    pub fn new(inner: K) -> Self
        requires { Keeps O.start (K.held inner) }
        ensures { result ≡ record { inner = inner; passed = []; left = [] } }
    {
        Buffered {
            inner,
            bytes: [0; BUFFER],
            len: 0,
            passed: History::new(),
            of: PhantomData,
        }
    }

    /// Writes what the buffer holds to the sink behind. Then the buffer is empty, and since its origin that sink has got all that
    /// was handed in. It fails at the first write that fails, which counts as one fault of that sink, and a proper
    /// prefix of what was handed in was passed on then; the rest is kept.
    pub fn flush(&mut self) -> Result<(), Failed>
        ensures bytes { AppendsWhole O.start (K.held self.new.inner) result (handed self.old) }
        ensures handed { handed self.new ≡ handed self.old }
        ensures empty { OnOk result (self.new.left ≡ []) }
        ensures cause { HasCause (K.faults self.old.inner) (K.faults self.new.inner) result }
        ensures kept { OnOk result (K.faults self.new.inner ≡ K.faults self.old.inner) }
        ensures failed { OnErr result (K.faults self.new.inner ≡ counted (K.faults self.old.inner)) }
    {
        let (count, end) = write_front(&mut self.inner, &self.bytes[..self.len]);
        self.passed = self.passed.and(&self.bytes, &count);
        move_to_front(&mut self.bytes, count, self.len);
        self.len -= count;
        end
    }

    /// The sink behind. What the buffer holds is given up.
    pub fn into_inner(self) -> K
        ensures inner { result ≡ self.inner }
        ensures bytes { Appends O.start (K.held result) self.passed }
    {
        self.inner
    }
}

impl<K: Sink, O: Origin> Sink for Buffered<K, O> {
    ghost held = { λ s. Some (handed s) };

    ghost faults = { λ s. K.faults s.inner };

    fn write(&mut self, piece: &[u8]) -> Result<usize, Failed> {
        if self.len == BUFFER {
            self.flush()?;
        }
        let count = copy_behind(&mut self.bytes, self.len, piece);
        self.len += count;
        Ok(count)
    }
}
