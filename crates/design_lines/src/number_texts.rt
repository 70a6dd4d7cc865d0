// The texts of numbers behind a space, which are kept where they have been asked for once.
ghost use Rattle.std.specs.Prelude.{◌≡◌};
ghost use Rattle.design_lines.specs.NumberTexts.{IsText};

use design_base::{TD_K_MAX, TD_N_MAX};
use itoa::Buffer;
use std::marker::Model;

// Room for a space and the five digits of the largest number, and one byte more.
pub(crate) const TEXT_SIZE: usize = 7;

// The texts of the numbers below this are kept: they are the points of transversal designs.
const KEPT: usize = TD_K_MAX as usize * TD_N_MAX as usize;

// The first `len` bytes are a space and the digits of a number.
#[derive(Clone, Copy)]
pub(crate) struct NumberText {
    pub(crate) bytes: [u8; TEXT_SIZE],
    pub(crate) len: u8,
}

// Stands where no text is kept.
const NO_TEXT: NumberText = NumberText {
    bytes: [0; TEXT_SIZE],
    len: 0,
};

// A space and the digits of a number.
#[tactic(auto, using(crate::proofs::Digits::length_of_short))]
fn text_of(number: u16) -> NumberText
    ensures { IsText number result }
{
    let mut bytes = [b' '; TEXT_SIZE];
    let mut buffer = Buffer::new();
    let digits = buffer.format(number).as_bytes();
    bytes[1..=digits.len()].copy_from_slice(digits);
    NumberText {
        bytes,
        len: digits.len() as u8 + 1,
    }
}

// The texts that are kept, each at the place of its number.
#[derive(Drop)]
pub(crate) struct NumberTexts {
    texts: [NumberText; KEPT],
}

impl Model for NumberTexts {
    ghost use Rattle.design_lines.specs.NumberTexts.{AreTexts};

    ghost Value = { Unit {0} };

    ghost view = { λ _. tt };

    ghost invariant = { λ kept. AreTexts kept.texts };
}

impl NumberTexts {
    // None is kept yet.
    pub(crate) fn new() -> Self {
        NumberTexts {
            texts: [NO_TEXT; KEPT],
        }
    }

    // The text of a number. It is kept from now on, where there is a place for it.
    pub(crate) fn text(&mut self, number: u16) -> NumberText
        ensures { IsText number result }
    {
        let place = usize::from(number);
        if place >= KEPT {
            return text_of(number);
        }
        if self.texts[place].len == 0 {
            self.texts[place] = text_of(number);
        }
        self.texts[place]
    }
}
