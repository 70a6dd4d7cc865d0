ghost use Rattle.derivations.specs.Laws.{DerivationLaw, ReplayLaw, SpellingLaw, YesLaw};

/// Lines without a fault replay to a design of their last question, and each of them can be spelled where their number can.
/// The derivation of a question in bounds whose verdict is yes has no fault and ends with that question, so that the question
/// has a design. No value is computed: the clauses are for the crates above.
pub fn derivation_laws()
    ensures replays { ReplayLaw }
    ensures sound { DerivationLaw }
    ensures designs { YesLaw }
    ensures spelled { SpellingLaw }
{}
