//! The one table of the commands.

use crate::command::Verb;

/// The first word of a command.
#[derive(Clone, Copy, Debug, PartialEq, Eq)]
pub enum Keyword {
    Ask,
    Build,
    Explain,
    Closure,
    Check,
    Replay,
    Batch,
    Workload,
    Table,
}

/// What the table of commands says of one: its keyword, as it is spelled, and whether its answer reads the input, asks the table of rules, may
/// ask catalogues, and takes memory where no catalogue is asked.
pub type CommandRow = (Keyword, &'static str, bool, bool, bool, bool);

/// The one table of the commands, in the order of their keywords. Specs read it too.
pub const COMMANDS: &[CommandRow] = &[
    // keyword, spelled, reads the input, asks the rules, may ask catalogues, takes memory
    (Keyword::Ask, "ask", false, true, true, false),
    (Keyword::Build, "build", false, true, true, true),
    (Keyword::Explain, "explain", false, true, false, true),
    (Keyword::Closure, "closure", false, true, false, false),
    (Keyword::Check, "check", true, false, false, true),
    (Keyword::Replay, "replay", true, false, false, true),
    (Keyword::Batch, "batch", true, true, true, true),
    (Keyword::Workload, "workload", false, true, false, false),
    (Keyword::Table, "table", false, false, false, true),
];

impl Keyword {
    ghost use Rattle.std.specs.Prelude.{◌≡◌};
    ghost use Rattle.design_lines.specs.Keywords.{verb_of};

    /// The verb on a question that the keyword is, where it is one: these alone may stand in a batch.
    pub fn verb(self) -> Option<Verb>
        ensures { result ≡ verb_of self }
    {
        match self {
            Keyword::Ask => Some(Verb::Ask),
            Keyword::Build => Some(Verb::Build),
            Keyword::Explain => Some(Verb::Explain),
            Keyword::Closure => Some(Verb::Closure),
            _ => None,
        }
    }
}
