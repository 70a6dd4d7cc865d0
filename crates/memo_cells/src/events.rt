// The law that a memo keeps between any two events, and the four kinds of event.
use atomic_table::{Join, Play, Split, TableRule};
use std::marker::Model;

// What a pass knows. No value of it is made: it says what the table knows of each of its seats.
pub struct View {
    nothing: (),
}

impl Model for View {
    ghost use Rattle.memo_cells.specs.Knowledge.{Knowledge, knowledge_code, no_knowledge};

    ghost Value = { Knowledge };

    ghost coded = { knowledge_code };

    ghost view = { λ _. no_knowledge };
}

// The memo is lawful.
pub struct Law;

impl TableRule<(), View, ()> for Law {
    ghost use Rattle.memo_cells.specs.Knowledge.{no_knowledge};
    ghost use Rattle.memo_cells.specs.Lawful.{IsLawful};

    ghost holds = { λ _ s. IsLawful s.words s.views };

    ghost first = { λ _. no_knowledge };
}

// A word is read. Where it is not 0, its cell is known from then on.
pub struct Loading;

impl Play<(), View> for Loading {
    ghost use Rattle.std.specs.Prelude.{◌≡◌};
    ghost use Rattle.memo_cells.specs.Lawful.{Loads};

    ghost then = { λ s me found after. (after.1 ≡ me.1) × Loads s.word me.0 found after.0 };
}

// The verdict of a question is put where the word is 0. Its cell is known from then on, whoever filled it.
pub struct Publishing;

impl Play<(), View> for Publishing {
    ghost use Rattle.std.specs.Prelude.{◌≡◌};
    ghost use Rattle.memo_cells.specs.Knowledge.{published};

    ghost then = { λ s me _ after. (after.1 ≡ me.1) × (after.0 ≡ published me.0 s.word) };
}

// A second pass begins with the cells that the first knows.
pub struct Splitting;

impl Split<View> for Splitting {
    ghost use Rattle.memo_cells.specs.Knowledge.{split_off};

    ghost left = { λ v. v };

    ghost right = { split_off };
}

// A pass learns what another knows, which is given up.
pub struct Joining;

impl Join<View> for Joining {
    ghost use Rattle.memo_cells.specs.Knowledge.{joined, no_knowledge};

    ghost both = { joined };

    ghost spent = { no_knowledge };
}
