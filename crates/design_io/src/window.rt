//! The bytes of a source that were read and not yet used.
ghost use Rattle.std.specs.Prelude.{◌≡◌, ◌+◌, ◌-◌, ◌<◌, ◌≤◌, [], IfOk, OnErr, OnOk, drop, length, take};
ghost use Rattle.std.specs.List.{position_or_len};
ghost use Rattle.std.specs.Io.KnownBytes.{Consumes, IsAtEnd, Keeps, prepend_known};
ghost use Rattle.design_base.specs.declared.limits.TheConstants.{LINE_MAX};
ghost use Rattle.design_io.specs.Faults.{HasCause, counted};
ghost use Rattle.design_io.specs.InputLines.{feeds_in, is_feed};

use crate::split::feed_place;
use crate::{Failed, Source};
use design_base::LINE_MAX;
use std::marker::Model;

// How many bytes are held at most: more than a line has.
const WINDOW: usize = 4_096;

/// Bytes that were read and not yet dropped.
#[derive(Drop)]
pub struct Window {
    bytes: [u8; WINDOW],
    start: usize,
    end: usize,
}

impl Model for Window {
    ghost use Rattle.std.specs.Prelude.{ℕ, List, ◌-◌, ◌≤◌, take, drop};
    ghost use Rattle.design_io.specs.declared.window.TheConstants.{WINDOW};

    ghost Value = { List ℕ };

    ghost view = { λ w. take (w.end - w.start) (drop w.start w.bytes) };

    ghost invariant = { λ w. (w.start ≤ w.end) × (w.end ≤ WINDOW) };
}

// Moves the bytes between two places to the front.
pub(crate) fn move_to_front(bytes: &mut [u8], start: usize, end: usize)
    requires { (start ≤ end) × (end ≤ length bytes.old) }
    ensures moved { take (end - start) bytes.new ≡ take (end - start) (drop start bytes.old) }
    ensures len { length bytes.new ≡ length bytes.old }
{
    bytes.copy_within(start..end, 0);
}

// Reads into the room from a place on.
fn read_behind<S: Source>(source: &mut S, bytes: &mut [u8], place: usize) -> Result<usize, Failed>
    requires { place < length bytes.old }
    ensures kept { take place bytes.new ≡ take place bytes.old }
    ensures len { length bytes.new ≡ length bytes.old }
    ensures within { IfOk result (λ count. place + count ≤ length bytes.new) }
    ensures read { IfOk result (λ count. Consumes (S.left source.old) (S.left source.new) (take count (drop place bytes.new))) }
    ensures end { IfOk result (λ count. count ≡ 0 → IsAtEnd (S.left source.new)) }
    ensures failed { OnErr result (Keeps (S.left source.old) (S.left source.new)) }
    ensures cause { HasCause (S.faults source.old) (S.faults source.new) result }
    ensures faultless { OnOk result (S.faults source.new ≡ S.faults source.old) }
    ensures one_fault { OnErr result (S.faults source.new ≡ counted (S.faults source.old)) }
{
    source.read(&mut bytes[place..])
}

impl Window {
    /// No bytes.
    pub fn new() -> Self
        ensures { result ≡ [] }
    {
        Window {
            bytes: [0; WINDOW],
            start: 0,
            end: 0,
        }
    }

    /// How many bytes are held.
    pub fn len(&self) -> usize
        ensures { result ≡ length self.now }
    {
        self.end - self.start
    }

    /// The bytes that are held.
    pub fn bytes(&self) -> &[u8]
        ensures { result.now ≡ self.now }
    {
        &self.bytes[self.start..self.end]
    }

    /// Drops bytes from the front.
    pub fn skip(&mut self, count: usize)
        requires { count ≤ length self.old }
        ensures { self.new ≡ drop count self.old }
    {
        self.start += count;
    }

    // Reads into the room behind the bytes, where there is some.
    fn fill<S: Source>(&mut self, source: &mut S) -> Result<usize, Failed>
        requires { length self.old ≤ LINE_MAX }
        ensures bytes { Keeps (prepend_known self.old (S.left source.old)) (prepend_known self.new (S.left source.new)) }
        ensures grown { IfOk result (λ count. length self.new ≡ length self.old + count) }
        ensures end { IfOk result (λ count. count ≡ 0 → IsAtEnd (S.left source.new)) }
        ensures none { IfOk result (λ count. count ≡ 0 → self.new ≡ self.old) }
        ensures failed { OnErr result (self.new ≡ self.old) }
        ensures cause { HasCause (S.faults source.old) (S.faults source.new) result }
        ensures faultless { OnOk result (S.faults source.new ≡ S.faults source.old) }
        ensures one_fault { OnErr result (S.faults source.new ≡ counted (S.faults source.old)) }
    {
        move_to_front(&mut self.bytes, self.start, self.end);
        self.end -= self.start;
        self.start = 0;
        let count = read_behind(source, &mut self.bytes, self.end)?;
        self.end += count;
        Ok(count)
    }

    /// Reads until a line feed is held, or more bytes than a line has, or all that the source has. The answer is the place of
    /// the first line feed, or how many bytes are held where none of them is one.
    #[tactic(auto, using(crate::proofs::LinesOfText::unfinished_feeds))]
    pub fn fill_line<S: Source>(&mut self, source: &mut S) -> Result<usize, Failed>
        ensures bytes { Keeps (prepend_known self.old (S.left source.old)) (prepend_known self.new (S.left source.new)) }
        ensures place { IfOk result (λ at. at ≡ position_or_len is_feed self.new) }
        ensures within { IfOk result (λ at. at ≤ length self.new) }
        ensures whole { IfOk result (λ at. length self.new ≤ at → at ≤ LINE_MAX → IsAtEnd (S.left source.new)) }
        ensures failed { OnErr result (feeds_in self.new ≡ 0) }
        ensures cause { HasCause (S.faults source.old) (S.faults source.new) result }
        ensures faultless { OnOk result (S.faults source.new ≡ S.faults source.old) }
        ensures one_fault { OnErr result (S.faults source.new ≡ counted (S.faults source.old)) }
    {
        loop {
            let place = feed_place(self.bytes());
            if place < self.len() || place > LINE_MAX {
                return Ok(place);
            }
            let count = self.fill(source)?;
            if count == 0 {
                return Ok(place);
            }
        }
    }
}
