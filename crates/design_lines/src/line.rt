//! Lines of text that are put together in place, with no memory of their own.
ghost use Rattle.std.specs.Prelude.{◌≡◌, ◌+◌, ◌*◌, ◌≤◌, [], ◌∷◌, ◌++◌, length, map, take};
ghost use Rattle.std.specs.Fmt.{decimal};
ghost use Rattle.design_lines.specs.Printed.{with_word, with_words};
ghost use Rattle.design_lines.specs.NumberTexts.{IsText};

use crate::number_texts::{NumberText, TEXT_SIZE};
use itoa::Buffer;
use std::marker::Model;

/// The longest line that is printed: room for 256 numbers of up to five digits and more.
pub const LINE_ROOM: usize = 2_048;

/// The longest text of a question or of a step.
pub const TEXT_ROOM: usize = 64;

/// At most `ROOM` bytes.
#[derive(Drop)]
pub struct InPlace<const ROOM: usize> {
    bytes: [u8; ROOM],
    len: usize,
}

impl<const ROOM: usize> Model for InPlace<ROOM> {
    ghost use Rattle.std.specs.Prelude.{ℕ, List, ◌≤◌, take};

    ghost Value = { List ℕ };

    ghost view = { λ s. take s.len s.bytes };

    ghost invariant = { λ s. s.len ≤ ROOM };
}

/// A line that is put together word by word.
pub type TextLine = InPlace<LINE_ROOM>;

/// A question or a step in words.
pub type Text = InPlace<TEXT_ROOM>;

impl<const ROOM: usize> InPlace<ROOM> {
    /// No bytes.
    pub fn new() -> Self
        ensures { result ≡ [] }
    {
        InPlace {
            bytes: [0; ROOM],
            len: 0,
        }
    }

    /// Drops all bytes, so that the next line is put together in their place.
    pub fn clear(&mut self)
        ensures { self.new ≡ [] }
    {
        self.truncate(0);
    }

    /// How many bytes there are.
    pub fn len(&self) -> usize
        ensures { result ≡ length self.now }
    {
        self.len
    }

    /// The bytes.
    pub fn bytes(&self) -> &[u8]
        ensures bytes { result.now ≡ self.now }
        ensures fits { length result.now ≤ ROOM }
    {
        &self.bytes[..self.len]
    }

    // Appends bytes.
    fn push(&mut self, bytes: &[u8])
        requires { length self.old + length bytes.now ≤ ROOM }
        ensures { self.new ≡ self.old ++ bytes.now }
    {
        let end = self.len + bytes.len();
        let room = &mut self.bytes[..];
        room[self.len..end].copy_from_slice(bytes);
        self.len = end;
    }

    // Keeps the first bytes.
    fn truncate(&mut self, len: usize)
        requires { len ≤ length self.old }
        ensures { self.new ≡ take len self.old }
    {
        self.len = len;
    }

    // Appends the text of a number. There is room for all bytes that the text has.
    #[tactic(auto, using(crate::proofs::NumberTexts::text_short))]
    pub(crate) fn push_text(&mut self, number: u16, text: NumberText)
        requires text { IsText number text }
        requires room { length self.old + TEXT_SIZE ≤ ROOM }
        ensures text { self.new ≡ self.old ++ 32 ∷ decimal number }
        ensures short { length self.new ≤ length self.old + 6 }
    {
        let end = self.len() + usize::from(text.len);
        self.push(&text.bytes);
        self.truncate(end);
    }

    /// Appends a word, behind a space where it is not the first. There is room for both.
    pub fn push_word(&mut self, word: &[u8])
        requires { length self.old + length word.now + 1 ≤ ROOM }
        ensures word { self.new ≡ with_word self.old word.now }
        ensures short { length self.new ≤ length self.old + length word.now + 1 }
    {
        if self.len() > 0 {
            self.push(b" ");
        }
        self.push(word);
    }

    // Appends a number as a word.
    fn push_decimal(&mut self, number: u64)
        requires { length self.old + length (decimal number) + 1 ≤ ROOM }
        ensures word { self.new ≡ with_word self.old (decimal number) }
        ensures short { length self.new ≤ length self.old + length (decimal number) + 1 }
    {
        let mut digits = Buffer::new();
        self.push_word(digits.format(number).as_bytes());
    }

    /// Appends a number in decimal digits, as a word. There is room for 21 bytes.
    #[tactic(auto, using(crate::proofs::Digits::length_of_long))]
    pub fn push_number(&mut self, number: u64)
        requires { length self.old + 21 ≤ ROOM }
        ensures word { self.new ≡ with_word self.old (decimal number) }
        ensures short { length self.new ≤ length self.old + 21 }
    {
        self.push_decimal(number);
    }

    /// Appends numbers, each as a word. There is room for 6 bytes each.
    #[tactic(auto, using(crate::proofs::Digits::length_of_short, crate::proofs::Joined::numbers_more))]
    pub fn push_numbers(&mut self, numbers: &[u16])
        requires { length self.old + 6 * length numbers.now ≤ ROOM }
        ensures words { self.new ≡ with_words self.old (map decimal numbers.now) }
        ensures short { length self.new ≤ length self.old + 6 * length numbers.now }
    {
        for number in numbers {
            self.push_decimal(u64::from(*number));
        }
    }

    /// Ends the line by a line feed, for which there is room.
    pub fn end(&mut self)
        requires { length self.old + 1 ≤ ROOM }
        ensures { self.new ≡ self.old ++ 10 ∷ [] }
    {
        self.push(b"\n");
    }
}
