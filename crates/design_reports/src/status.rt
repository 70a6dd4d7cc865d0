//! The status of a run.
ghost use Rattle.std.specs.Prelude.{◌≡◌};
ghost use Rattle.design_reports.specs.Endings.{number_of};

/// How a run ends.
#[derive(Clone, Copy, Debug, PartialEq, Eq)]
pub enum Status {
    /// The design exists, or one is handed in; the blocks are valid.
    Yes,
    /// The design does not exist; the blocks are not valid.
    No,
    /// The table of rules does not tell, and no design is handed in.
    Unknown,
    /// The words are no line that is answered.
    Usage,
    /// The input is not in its grammar, or too long.
    BadInput,
    /// The input could not be read.
    ReadFault,
    /// A catalogue could not be asked.
    CatalogueFault,
    /// There was no memory.
    NoMemory,
    /// The output could not be written.
    WriteFault,
}

impl Status {
    /// The number that the program ends with.
    pub fn number(&self) -> u8
        ensures { result ≡ number_of self.now }
    {
        match self {
            Status::Yes => 0,
            Status::No => 1,
            Status::Unknown => 2,
            Status::Usage => 64,
            Status::BadInput => 65,
            Status::ReadFault => 66,
            Status::CatalogueFault => 69,
            Status::NoMemory => 71,
            Status::WriteFault => 74,
        }
    }
}
