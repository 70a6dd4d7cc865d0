//! Reading a line word by word, from the left.
ghost use Rattle.std.specs.Prelude.{◌≡◌, ◌↔◌, ◌+◌, ◌^◌, ◌<◌, ◌≤◌, [], ◌∷◌, IfNone, IfOk, IfSome, IsTrue, MatchOption, drop, false, length, take, take_while};
ghost use Rattle.std.specs.List.{position_or_len};
ghost use Rattle.design_base.specs.Limits.{HasFewDigits};
ghost use Rattle.design_lines.specs.Reading.{Reads, at_end, behind_word, is_next, no_fixed_word, number, pair, triple};
ghost use Rattle.design_lines.specs.Source.{words_in};
ghost use Rattle.design_lines.specs.Words.{is_space, spaced_words, texts, words_of, is_blank as is_blank_byte, is_in_word};

use crate::command::Reason;
use crate::numbers::number_of;
use std::marker::Model;

// The number of a line's first word.
const FIRST_WORD: u64 = 1;

// Where the words come from.
#[derive(Clone, Copy)]
enum Source<'a> {
    // Each text is a word.
    Texts(&'a [String]),
    // The words are the longest runs of bytes other than space and tab.
    Line(&'a [u8]),
    // The words stand between single spaces; none is left where there is no text.
    Spaced(Option<&'a [u8]>),
}

/// The words of a line that are left, of which the first has the number `at`.
#[derive(Drop)]
pub struct Words<'a> {
    source: Source<'a>,
    at: u64,
}

impl<'a> Model for Words<'a> {
    ghost use Rattle.std.specs.Prelude.{ℕ, ◌+◌, ◌<◌, ◌^◌, List, length};
    ghost use Rattle.design_lines.specs.Reading.{Rest};

    ghost Value = { Rest };

    ghost use Rattle.design_lines.specs.Source.{words_in};

    ghost view = { λ w. record { at = w.at; words = words_in w.source } };

    ghost invariant = { λ w. w.at + length (words_in w.source) < 2 ^ 64 };
}

// Whether a byte separates words.
fn is_blank(byte: u8) -> bool
    ensures { result ≡ is_blank_byte byte }
{
    byte == b' ' || byte == b'\t'
}

// How many blanks a line begins with.
fn blanks_at_start(line: &[u8]) -> usize
    ensures { result ≡ length (take_while is_blank_byte line.now) }
{
    line.iter().take_while(|byte| is_blank(**byte)).count()
}

// How many bytes a line has before its first blank.
fn run_at_start(line: &[u8]) -> usize
    ensures { result ≡ length (take_while is_in_word line.now) }
{
    line.iter().take_while(|byte| !is_blank(**byte)).count()
}

// The first word of a line, and what stands behind it.
fn first_word(line: &[u8]) -> Option<(&[u8], &[u8])>
    ensures { MatchOption result (words_of line.now ≡ []) (λ r. words_of line.now ≡ r.0.now ∷ words_of r.1.now) }
{
    let (_, rest) = line.split_at(blanks_at_start(line));
    if rest.is_empty() {
        return None;
    }
    Some(rest.split_at(run_at_start(rest)))
}

// How many bytes a text has before its first space.
fn space_place(text: &[u8]) -> usize
    ensures place { result ≡ position_or_len is_space text.now }
    ensures within { result ≤ length text.now }
{
    text.iter().take_while(|byte| **byte != b' ').count()
}

// What stands before the first space.
fn before_space(text: &[u8], place: usize) -> &[u8]
    requires { place ≤ length text.now }
    ensures { result.now ≡ take place text.now }
{
    &text[..place]
}

// What stands behind the first space.
fn behind_space(text: &[u8], place: usize) -> &[u8]
    requires { place < length text.now }
    ensures { result.now ≡ drop (place + 1) text.now }
{
    &text[place + 1..]
}

// What stands before the first space, and what stands behind it.
#[tactic(auto, using(crate::proofs::Spaces::space_steps))]
fn first_spaced(text: &[u8]) -> (&[u8], Option<&[u8]>)
    ensures { spaced_words text.now ≡ result.0.now ∷ words_in (Source.Spaced result.1) }
{
    let place = space_place(text);
    if place < text.len() {
        (before_space(text, place), Some(behind_space(text, place)))
    } else {
        (text, None)
    }
}

// The first word of a source, and what stands behind it.
fn first_of<'a>(source: Source<'a>) -> Option<(&'a [u8], Source<'a>)>
    ensures { MatchOption result (words_in source.entry ≡ []) (λ r. words_in source.entry ≡ r.0.now ∷ words_in r.1) }
{
    match source {
        Source::Texts(words) => {
            let (first, rest) = words.split_first()?;
            Some((first.as_bytes(), Source::Texts(rest)))
        }
        Source::Line(line) => {
            let (first, rest) = first_word(line)?;
            Some((first, Source::Line(rest)))
        }
        Source::Spaced(text) => {
            let (first, rest) = first_spaced(text?);
            Some((first, Source::Spaced(rest)))
        }
    }
}

impl<'a> Words<'a> {
    /// The words of a command line, each of which is a text.
    pub fn of_texts(words: &'a [String]) -> Self
        ensures { result ≡ record { at = 1; words = texts words.now } }
    {
        Words {
            source: Source::Texts(words),
            at: FIRST_WORD,
        }
    }

    /// The words of a line, which are its longest runs of bytes other than space and tab.
    #[tactic(auto, using(crate::proofs::Runs::few_words))]
    pub fn of_line(line: &'a [u8]) -> Self
        ensures { result ≡ record { at = 1; words = words_of line.now } }
    {
        Words {
            source: Source::Line(line),
            at: FIRST_WORD,
        }
    }

    /// The words of a line that stand between single spaces.
    #[tactic(auto, using(crate::proofs::Spaces::few_spaced))]
    pub fn of_spaced(line: &'a [u8]) -> Self
        ensures { result ≡ record { at = 1; words = spaced_words line.now } }
    {
        Words {
            source: Source::Spaced(Some(line)),
            at: FIRST_WORD,
        }
    }

    /// Whether no word is left.
    pub fn is_empty(&self) -> bool
        ensures { IsTrue result ↔ (self.now.words ≡ []) }
    {
        first_of(self.source).is_none()
    }

    /// Takes the next word, where one is left.
    pub fn next_word(&mut self) -> Option<&'a [u8]>
        ensures end { IfNone result (self.old.words ≡ []) }
        ensures same { IfNone result (self.new ≡ self.old) }
        ensures word { IfSome result (λ word. self.old.words ≡ word.now ∷ self.new.words) }
        ensures at { IfSome result (λ _. self.new.at ≡ self.old.at + 1) }
    {
        let (word, rest) = first_of(self.source)?;
        self.source = rest;
        self.at += 1;
        Some(word)
    }

    /// Takes the next word where it is this text, and tells whether it was.
    #[tactic(auto, unfolding(crate::specs::Reading::is_next))]
    pub fn takes(&mut self, text: &str) -> bool
        ensures told { result ≡ is_next text.now self.old.words }
        ensures taken { IsTrue result → self.new ≡ record { at = self.old.at + 1; words = drop 1 self.old.words } }
        ensures left { result ≡ false → self.new ≡ self.old }
    {
        match first_of(self.source) {
            Some((word, rest)) if word == text.as_bytes() => {
                self.source = rest;
                self.at += 1;
                true
            }
            _ => false,
        }
    }

    /// Why a line is refused whose next word is none of the fixed words that are due.
    #[tactic(auto, unfolding(crate::specs::Reading::no_fixed_word))]
    pub fn no_fixed_word(&self) -> Reason
        ensures { result ≡ no_fixed_word self.now.at self.now.words }
    {
        match first_of(self.source) {
            Some(_) => Reason::Unknown { at: self.at },
            None => Reason::Missing { at: self.at },
        }
    }

    /// Ok where no word is left, and else the next one is surplus.
    #[tactic(auto, unfolding(crate::specs::Reading::at_end))]
    pub fn finish(&self) -> Result<(), Reason>
        ensures { Reads (at_end (record {})) self.now self.now result }
    {
        match first_of(self.source) {
            Some(_) => Err(Reason::Surplus { at: self.at }),
            None => Ok(()),
        }
    }

    /// Reads a number of one to six digits. A word that is no such number is taken, and no other: `Spelling` names it, and `Missing` the place where
    /// no word is left.
    #[tactic(auto, unfolding(crate::specs::Reading::number, crate::specs::Reading::behind_word))]
    pub fn number(&mut self) -> Result<u64, Reason>
        ensures reads { Reads number self.old self.new result }
        ensures small { IfOk result HasFewDigits }
        ensures left { self.new ≡ behind_word self.old }
    {
        let at = self.at;
        let word = self.next_word().ok_or(Reason::Missing { at })?;
        number_of(word).ok_or(Reason::Spelling { at })
    }

    /// Reads two numbers of one to six digits. Words are taken up to the first that is none, which is refused as by `number`.
    #[tactic(auto, unfolding(crate::specs::Reading::pair))]
    pub fn pair(&mut self) -> Result<(u64, u64), Reason>
        ensures reads { Reads pair self.old self.new result }
        ensures small { IfOk result (λ x. HasFewDigits x.0 × HasFewDigits x.1) }
    {
        let first = self.number()?;
        let second = self.number()?;
        Ok((first, second))
    }

    /// Reads three numbers of one to six digits. Words are taken up to the first that is none, which is refused as by `number`.
    #[tactic(auto, unfolding(crate::specs::Reading::triple))]
    pub fn triple(&mut self) -> Result<(u64, u64, u64), Reason>
        ensures { Reads triple self.old self.new result }
    {
        let first = self.number()?;
        let second = self.number()?;
        let third = self.number()?;
        Ok((first, second, third))
    }
}
