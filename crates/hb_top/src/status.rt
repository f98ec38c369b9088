//! How a run ended.

ghost use Rattle.std.specs.Prelude.{◌≡◌};
ghost use Rattle.hb_top.specs.Exit.{status_number};

/// The status that a run answers, and the program ends with.
#[derive(Clone, Copy, Debug, PartialEq, Eq)]
pub enum Status {
    /// 0: the files were read to their ends and every command accepted.
    Done,
    /// 1: a file or a command was refused; the last line says why.
    Refused,
    /// 2: the words are in no row of the usage text.
    Usage,
    /// 3: the depot failed.
    SourceFault,
    /// 4: the sink failed.
    SinkFault,
    /// 5: a budget was spent; the last line says on what.
    Spent,
    /// 6: out of memory.
    NoMemory,
    /// 7: all was done, but some texts were lost.
    EmitLost,
}

impl Status {
    /// The number of the status, from 0 to 7, which the program ends with.
    pub fn number(self) -> u8
        ensures { result ≡ status_number self }
    {
        match self {
            Status::Done => 0,
            Status::Refused => 1,
            Status::Usage => 2,
            Status::SourceFault => 3,
            Status::SinkFault => 4,
            Status::Spent => 5,
            Status::NoMemory => 6,
            Status::EmitLost => 7,
        }
    }
}
