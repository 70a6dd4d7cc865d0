ghost use Rattle.std.specs.Prelude.{◌≡◌, ◌<◌, ◌≤◌, ◌+◌, ◌⊎◌, ◌↔◌, ◌++◌, length, min, take, drop, Contains, IsErr, IsTrue, IfOk, MatchResult, OnErr, OnOk, Some};
ghost use Rattle.std.specs.Io.{ReadsAtMost, WritesAtMost};
ghost use Rattle.std.specs.Io.KnownBytes.{ReadConsumes, WriteAppends};
ghost use Rattle.design_io.specs.Faults.{counted};
ghost use Rattle.design_io.specs.Pieces.{TakesSome};
ghost use Rattle.design_io.specs.Recorded.{new_input, new_output, after_read, after_failed_read, after_write, after_failed_write};

use crate::{Failed, Sink, Source};
use design_base::Memory;
use std::alloc::Global;
use std::marker::Model;

/// Bytes in memory. Call number i, from 1, fails exactly where i is in `failing`, and then takes
/// no byte and leaves the buffer. Another call gives as many bytes as are left, or as the buffer has
/// room for, and leaves the buffer behind them.
#[derive(Drop)]
pub struct MemorySource {
    bytes: Vec<u8>,
    at: usize,
    failing: Vec<u32>,
    next: u64,
    faults: u64,
}

impl Model for MemorySource {
    ghost use Rattle.std.specs.Prelude.{◌≤◌, drop, length};
    ghost use Rattle.design_io.specs.Recorded.{Input};

    ghost Value = { Input };

    ghost view = { λ s. record {
      left = drop s.at s.bytes.items;
      failing = s.failing.items;
      next = s.next;
      faults = s.faults;
    } };

    ghost invariant = { λ s. s.at ≤ length s.bytes.items };
}

impl MemorySource {
    /// A source of these bytes, of whose calls those numbered in `failing` fail.
    pub fn new(bytes: Vec<u8>, failing: Vec<u32>) -> Self
        ensures { result ≡ new_input bytes.items failing.items }
    {
        MemorySource {
            bytes,
            at: 0,
            failing,
            next: 1,
            faults: 0,
        }
    }
}

// Is this the number of a call that fails?
fn fails(failing: &[u32], number: u64) -> bool
    ensures { IsTrue result ↔ Contains failing.now number }
{
    failing.iter().any(|n| u64::from(*n) == number)
}

// Copies as many bytes to the front of the buffer as there are, or as it has room for.
fn copy_front(buf: &mut [u8], bytes: &[u8]) -> usize
    ensures count { result ≡ min (length bytes.now) (length buf.old) }
    ensures copied { take result buf.new ≡ take result bytes.now }
    ensures behind { drop result buf.new ≡ drop result buf.old }
{
    let count = bytes.len().min(buf.len());
    buf[..count].copy_from_slice(&bytes[..count]);
    count
}

impl Source for MemorySource {
    ghost left = { λ s. Some s.left };

    ghost faults = { λ s. s.faults };

    fn read(&mut self, buf: &mut [u8]) -> Result<usize, Failed>
        ensures bound { ReadsAtMost result buf.new }
        ensures bytes { ReadConsumes (Some self.old.left) (Some self.new.left) result buf.new }
        ensures later { self.old.faults ≤ self.new.faults }
        ensures kept { OnOk result (self.new.faults ≡ self.old.faults) }
        ensures failed { OnErr result (self.new.faults ≡ counted self.old.faults) }
        ensures fails { IsErr result ↔ Contains self.old.failing self.old.next }
        ensures whole { IfOk result (λ count. count ≡ min (length self.old.left) (length buf.old)) }
        ensures after { MatchResult result (λ count. self.new ≡ after_read self.old count)
            (λ _. self.new ≡ after_failed_read self.old) }
        ensures behind { IfOk result (λ count. drop count buf.new ≡ drop count buf.old) }
        ensures unspoiled { OnErr result (buf.new ≡ buf.old) }
    {
        let failed = fails(&self.failing, self.next);
        self.next = self.next.saturating_add(1);
        if failed {
            self.faults = self.faults.saturating_add(1);
            return Err(Failed);
        }
        let count = copy_front(buf, &self.bytes[self.at..]);
        self.at += count;
        Ok(count)
    }
}

/// A sink with room for so many bytes. Call number i, from 1, fails exactly where i is in `failing`
/// or the piece does not fit in what is left of the room. A failed call keeps no byte, and another
/// takes the whole piece.
#[derive(Drop)]
pub struct MemorySink {
    bytes: Vec<u8>,
    room: usize,
    failing: Vec<u32>,
    next: u64,
    faults: u64,
}

impl Model for MemorySink {
    ghost use Rattle.std.specs.Prelude.{◌≤◌, length, vec_capacity};
    ghost use Rattle.design_io.specs.Recorded.{Output};

    ghost Value = { Output };

    ghost view = { λ s. record {
      held = s.bytes.items;
      room = s.room;
      failing = s.failing.items;
      next = s.next;
      faults = s.faults;
    } };

    ghost invariant = { λ s. (length s.bytes.items ≤ s.room) × (s.room ≤ vec_capacity s.bytes) };
}

impl MemorySink {
    /// An empty sink. All its room is taken here, so that a write asks for no memory; `Memory` comes
    /// where there is not so much.
    pub fn new(alloc: Global, room: usize, failing: Vec<u32>) -> Result<Self, Memory>
        ensures { IfOk result (λ sink. sink ≡ new_output room failing.items) }
    {
        let bytes = Vec::with_capacity(alloc, room)?;
        Ok(MemorySink {
            bytes,
            room,
            failing,
            next: 1,
            faults: 0,
        })
    }

    /// The bytes that it holds.
    pub fn bytes(&self) -> &[u8]
        ensures { result.now ≡ self.now.held }
    {
        &self.bytes
    }
}

impl Sink for MemorySink {
    ghost held = { λ s. Some s.held };

    ghost faults = { λ s. s.faults };

    fn write(&mut self, piece: &[u8]) -> Result<usize, Failed>
        ensures bound { WritesAtMost result piece.now }
        ensures some { TakesSome result piece.now }
        ensures bytes { WriteAppends (Some self.old.held) (Some self.new.held) result piece.now }
        ensures later { self.old.faults ≤ self.new.faults }
        ensures kept { OnOk result (self.new.faults ≡ self.old.faults) }
        ensures failed { OnErr result (self.new.faults ≡ counted self.old.faults) }
        ensures fails { IsErr result ↔ (Contains self.old.failing self.old.next ⊎
            self.old.room < length self.old.held + length piece.now) }
        ensures whole { IfOk result (λ count. count ≡ length piece.now) }
        ensures after { MatchResult result (λ _. self.new ≡ after_write self.old piece.now)
            (λ _. self.new ≡ after_failed_write self.old) }
    {
        let failed = fails(&self.failing, self.next) || self.room - self.bytes.len() < piece.len();
        self.next = self.next.saturating_add(1);
        if failed {
            self.faults = self.faults.saturating_add(1);
            return Err(Failed);
        }
        self.bytes.extend_from_slice(piece).unwrap();
        Ok(piece.len())
    }
}
