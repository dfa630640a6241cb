//! The statuses with which the program ends.

ghost use Rattle.std.specs.Prelude.{◌≡◌};
ghost use Rattle.kaos_program.specs.Statuses.{code_of};

/// How a run ends.
#[derive(Clone, Copy, Debug, PartialEq, Eq)]
pub enum Status {
    /// All demands hold, or all goals are true on all traces.
    Held,
    /// A demand fails, or a goal is false on a trace.
    Failed,
    /// The text is refused.
    Refused,
    /// The words ask for nothing.
    BadWords,
    /// A read failed.
    ReadFault,
    /// A write failed.
    WriteFault,
    /// No demand fails, and one is withheld.
    Withheld,
    /// Memory ran out.
    OutOfMemory,
}

impl Status {
    /// The number with which the program ends, from 0 to 7.
    pub fn code(self) -> u8
        ensures { result ≡ code_of self }
    {
        match self {
            Status::Held => 0,
            Status::Failed => 1,
            Status::Refused => 2,
            Status::BadWords => 3,
            Status::ReadFault => 4,
            Status::WriteFault => 5,
            Status::Withheld => 6,
            Status::OutOfMemory => 7,
        }
    }
}
