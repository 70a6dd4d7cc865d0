//! Lines of a source.
ghost use Rattle.std.specs.Prelude.{◌≡◌, ◌+◌, ℕ, min, ◌<◌, ◌≤◌, false, true, length, IfOk, IfErr, IfSome, IsErrOf, IsTrue, None, Ok, OnErr, OnOk};
ghost use Rattle.std.specs.Io.KnownBytes.{prepend_known};
ghost use Rattle.std.specs.Io.BufRead.{Rests};
ghost use types.Logic.{sem};
ghost use Rattle.design_base.specs.declared.limits.TheConstants.{LINE_MAX};
ghost use Rattle.design_io.specs.Faults.{Rose};
ghost use Rattle.design_io.specs.InputLines.{Advances, GivesFrom, content_of, faults_behind, feeds_in, new_reader, size_of, was_given};
ghost use Rattle.design_io.specs.contracts.lines.LineReader.{the_row};

use crate::Source;
use crate::split::without_return;
use crate::window::Window;
use design_base::LINE_MAX;
use std::marker::Model;
use thiserror::Error;

/// Why there is no next line.
#[derive(Clone, Copy, Debug, PartialEq, Eq, Error)]
pub enum LineEnd {
    /// A read failed, and was counted as one fault.
    #[error("read fault")]
    Failed,
    /// This line, from 1, has more than `LINE_MAX` bytes, or the first byte past the limit of the input stands on it or ends it.
    #[error("too long at line {line}")]
    TooLong { line: u32 },
}

/// A reader of lines over a buffer of fixed size. A line has at most `LINE_MAX` bytes; a carriage return at its end counts, and
/// its line feed does not. A last line without a line feed is a line, where it has a byte.
#[derive(Drop)]
pub struct LineReader {
    // What was read: the line that was given last and its line feed, and what is not yet given.
    window: Window,
    // How many bytes the line that was given last has, without its line feed and with it.
    span: usize,
    size: usize,
    lines: u32,
    room: u32,
    is_over: bool,
}

impl Model for LineReader {
    ghost use Rattle.std.specs.Prelude.{ℕ, ◌≤◌, ◌<◌, ◌+◌, take, drop, length, nat_lt};
    ghost use Rattle.design_io.specs.InputLines.{LinesRead};
    ghost use Rattle.std.below.core.specs.declared.int.u32.TheConstants.{MAX};

    ghost Value = { LinesRead };

    ghost view = { λ r. record {
      held = drop r.size r.window;
      last = record { bytes = take r.span r.window; is_ended = nat_lt r.span r.size };
      lines = r.lines;
      room = r.room;
      is_over = r.is_over;
    } };

    ghost invariant = { λ r. (r.span ≤ r.size) × (r.size ≤ r.span + 1) × (r.size ≤ length r.window) × (r.lines + r.room < MAX) };
}

// How long a line is with its line feed, which stands at this place where it is held.
fn size_with_feed(place: usize, held: usize) -> usize
    requires { place ≤ held }
    ensures { result ≡ min (place + 1) held }
{
    if place < held { place + 1 } else { held }
}

impl LineReader {
    /// A reader of an input of at most `limit` bytes, its line feeds among them. `limit` is below 4,294,967,295.
    pub fn new(limit: u32) -> Self
        requires { limit < u32.MAX }
        ensures { result ≡ new_reader limit }
    {
        LineReader {
            window: Window::new(),
            span: 0,
            size: 0,
            lines: 0,
            room: limit,
            is_over: false,
        }
    }

    /// The line that was given last, without its line feed and without one carriage return before it.
    pub fn line(&self) -> &[u8]
        ensures { result.now ≡ content_of self.now.last }
    {
        let line = &self.window.bytes()[..self.span];
        if self.span < self.size {
            without_return(line)
        } else {
            line
        }
    }

    /// Takes the next line, and tells whether there was one: then `line` is that line. It reads only where no whole line is
    /// held. `TooLong` comes exactly where the line has more than `LINE_MAX` bytes, or holds or is ended by the first byte past
    /// the limit. `Failed` comes at the first read that fails, which counts as one fault; no whole line is held then. After
    /// either, and behind the last line, there is no other line.
    pub fn advance<S: Source>(&mut self, source: &mut S) -> Result<bool, LineEnd>
        ensures given { IfSome (prepend_known self.old.held (S.left source.old)) (λ left. GivesFrom self.old self.new left (prepend_known self.new.held (S.left source.new)) result) }
        ensures over { self.old.is_over ≡ true → result ≡ Ok false }
        ensures lines { IfOk result (λ given. IsTrue given → self.new.lines ≡ self.old.lines + 1) }
        ensures room { IfOk result (λ given. IsTrue given → self.old.room ≡ self.new.room + size_of self.new.last) }
        ensures some { IfOk result (λ given. IsTrue given → 0 < size_of self.new.last) }
        ensures short { IfOk result (λ given. IsTrue given → length self.new.last.bytes ≤ LINE_MAX) }
        ensures alone { IfOk result (λ given. IsTrue given → feeds_in self.new.last.bytes ≡ 0) }
        ensures ended { IfOk result (λ given. self.new.is_over ≡ false → (given ≡ true) × (self.new.last.is_ended ≡ true)) }
        ensures closed { OnErr result (self.new.is_over ≡ true) }
        ensures too_long { IfErr result (λ end. (line : ℕ) → end ≡ LineEnd.TooLong line → line ≡ self.old.lines + 1) }
        ensures unfinished { IsErrOf result LineEnd.Failed → feeds_in self.new.held ≡ 0 }
        ensures faults { S.faults source.new ≡ faults_behind (S.faults source.old) result }
        ensures cause { IsErrOf result LineEnd.Failed → Rose (S.faults source.old) (S.faults source.new) }
        ensures later { S.faults source.old ≤ S.faults source.new }
    {
        self.window.skip(self.size);
        self.span = 0;
        self.size = 0;
        if self.is_over {
            return Ok(false);
        }
        self.is_over = true;
        let Ok(place) = self.window.fill_line(source) else {
            return Err(LineEnd::Failed);
        };
        let held = self.window.len();
        if held == 0 {
            return Ok(false);
        }
        let size = size_with_feed(place, held);
        if place > LINE_MAX || size > self.room as usize {
            return Err(LineEnd::TooLong {
                line: self.lines + 1,
            });
        }
        self.span = place;
        self.size = size;
        self.lines += 1;
        self.room -= size as u32;
        self.is_over = size == place;
        Ok(true)
    }

    /// The next line, without its line feed and without one carriage return before it; None behind the last line. It is what
    /// `advance` takes and `line` shows, with the refusals of `advance`, and after a refusal the answer is None.
    pub fn next<S: Source>(&mut self, source: &mut S) -> Result<Option<&[u8]>, LineEnd>
        ensures* after_borrow { sem 𝓛 (Rests the_row self.entry (λ new. IfSome (prepend_known self.old.held (S.left source.old)) (λ left. GivesFrom self.old new left (prepend_known new.held (S.left source.new)) (was_given result)) × Advances self.old new (was_given result) × IfOk result (λ o. IfSome o (λ line. line.now ≡ content_of new.last)))) }
        ensures over { self.old.is_over ≡ true → result ≡ Ok None }
        ensures faults { S.faults source.new ≡ faults_behind (S.faults source.old) result }
        ensures cause { IsErrOf result LineEnd.Failed → Rose (S.faults source.old) (S.faults source.new) }
        ensures later { S.faults source.old ≤ S.faults source.new }
    {
        if self.advance(source)? {
            Ok(Some(self.line()))
        } else {
            Ok(None)
        }
    }
}
