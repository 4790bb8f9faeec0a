//! How a run ends.
ghost use Rattle.std.specs.Prelude.{◌≡◌};

/// How a run ended.
#[derive(Clone, Copy, Debug, PartialEq, Eq)]
pub enum Status {
    /// Every declaration was answered.
    Done,
    /// Memory was wanting.
    Memory,
    /// The words have no reading.
    Usage,
    /// Neither a blank nor a token begins at a byte of the script.
    Text,
    /// A declaration has no reading.
    Syntax,
    /// A declaration has no type.
    Type,
    /// The scan over the script passes its limit at a token.
    Deep,
    /// A declaration is too large.
    Large,
    /// The source gave more than a script may have.
    Long,
    /// A file cannot be read as it is asked for.
    File,
    /// The source failed.
    Input,
    /// The sink failed.
    Output,
    /// A declaration passes the budget.
    Spent,
    /// A call on the files failed.
    Files,
}

impl Status {
    ghost use Rattle.aql_run.specs.Codes.{code_of};

    /// The number of the status, which is the program's exit status.
    pub fn code(self) -> u8
        ensures { result ≡ code_of self }
    {
        match self {
            Status::Done => 0,
            Status::Memory => 1,
            Status::Usage => 2,
            Status::Text => 3,
            Status::Syntax => 4,
            Status::Type => 5,
            Status::Deep => 6,
            Status::Large => 7,
            Status::Long => 8,
            Status::File => 9,
            Status::Input => 10,
            Status::Output => 11,
            Status::Spent => 12,
            Status::Files => 13,
        }
    }
}
