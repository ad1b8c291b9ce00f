//! How a call of the tool ended.
ghost use Rattle.std.specs.Prelude.{◌≡◌};
ghost use Rattle.tool_answers.specs.Status.{number_of};

/// How a call of the tool ended.
#[derive(Clone, Copy, Debug, PartialEq, Eq)]
pub enum Status {
    /// The command did its work.
    Done,
    /// The file is not one that the command takes.
    Refused,
    /// The words have no command's form.
    Usage,
    /// A file could not be read.
    ReadFault,
    /// A file has more bytes than its limit.
    TooLong,
    /// A put to one of the sinks failed.
    WriteFault,
    /// A received promise was broken.
    Breach,
    /// No memory was found, before anything was put to `out`.
    NoMemory,
}

impl Status {
    /// The exit status of the program, from 0 to 7.
    pub fn number(self) -> u8
        ensures { result ≡ number_of self }
    {
        match self {
            Status::Done => 0,
            Status::Refused => 1,
            Status::Usage => 2,
            Status::ReadFault => 3,
            Status::TooLong => 4,
            Status::WriteFault => 5,
            Status::Breach => 6,
            Status::NoMemory => 7,
        }
    }
}
