ghost use Rattle.std.specs.Prelude.{◌≡◌};
ghost use Rattle.sy_run.specs.ExitNumbers.{exit_number};

/// How a run ended.
#[derive(Clone, Copy, Debug, PartialEq, Eq)]
pub enum Status {
    /// The work was done.
    Done,
    /// The work was done, and what was sought after was found: a broken property, say.
    Found,
    /// A text, a line, a limit or a value was refused. The last line says which.
    Refused,
    /// The words are of no form.
    Usage,
    /// A read failed, of a file or of the input.
    ReadFault,
    /// A write failed.
    WriteFault,
    /// Memory was wanting.
    Memory,
    /// A search spent its budget.
    Undecided,
}

impl Status {
    /// The exit status that the program ends with.
    pub fn number(self) -> u8
        ensures { result ≡ exit_number self }
    {
        match self {
            Status::Done => 0,
            Status::Found => 1,
            Status::Refused => 2,
            Status::Usage => 3,
            Status::ReadFault => 4,
            Status::WriteFault => 5,
            Status::Memory => 6,
            Status::Undecided => 7,
        }
    }
}
