//! Derivations without a fault.
ghost use Rattle.std.specs.Prelude.{◌≡◌};
ghost use Rattle.derivations.specs.Derivations.{IsSound};
ghost use Rattle.derivations.specs.Spelled.{ArePrintable};

use crate::line::Derivation;
use std::marker::Model;

/// A derivation that has a line and no fault, so that it leads to a design of its last question. Each value of the type is one: `derive`
/// answers them.
#[derive(Drop)]
pub struct SoundDerivation {
    lines: Derivation,
}

impl Model for SoundDerivation {
    ghost use Rattle.std.specs.Prelude.{List};
    ghost use Rattle.derivations.specs.declared.line.Line.{Line};

    ghost Value = { List Line };

    ghost use Rattle.derivations.specs.Derivations.{IsSound};

    ghost view = { λ d. d.lines };

    ghost invariant = { λ d. IsSound d.lines };
}

impl SoundDerivation {
    // The lines, which are known to have no fault.
    pub(crate) fn new(lines: Derivation) -> SoundDerivation
        requires { IsSound lines }
        ensures { result ≡ lines }
    {
        SoundDerivation { lines }
    }

    /// The lines. They have no fault, and none of them names more than `PREMISES_MAX` others.
    #[tactic(auto, using(crate::proofs::Spellable::names_are_few))]
    pub fn lines(&self) -> &Derivation
        ensures lines { result.now ≡ self.now }
        ensures sound { IsSound result.now }
        ensures few { ArePrintable result.now }
    {
        &self.lines
    }
}
