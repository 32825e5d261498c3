//! The status with which a command ends.

ghost use Rattle.std.specs.Prelude.{◌≡◌};
ghost use Rattle.relay_model.specs.Ending.{status_of as status_in};
ghost use Rattle.relay_model.specs.Status.{is_clean as is_clean_in, number as number_in};

use crate::ending::Outcome;

/// How a command ended. Its number is the program's exit status.
#[derive(Clone, Copy, Debug, PartialEq, Eq)]
pub enum Status {
    /// 0: all was relayed.
    Clean,
    /// 1: the words are no command.
    Usage,
    /// 2: a frame is bad.
    BadFrame,
    /// 3: the source ends within a frame.
    Truncated,
    /// 4: a read failed.
    ReadFault,
    /// 5: a write or a flush failed.
    WriteFault,
    /// 6: there is no memory.
    OutOfMemory,
    /// 7: the source has more bytes than a relay takes.
    TooLong,
    /// 8: an opening was refused.
    DoorFault,
}

impl Status {
    /// The exit status, 0 to 8.
    pub fn number(self) -> u8
        ensures { result ≡ number_in self }
    {
        match self {
            Status::Clean => 0,
            Status::Usage => 1,
            Status::BadFrame => 2,
            Status::Truncated => 3,
            Status::ReadFault => 4,
            Status::WriteFault => 5,
            Status::OutOfMemory => 6,
            Status::TooLong => 7,
            Status::DoorFault => 8,
        }
    }

    /// Whether all was relayed.
    pub fn is_clean(self) -> bool
        ensures { result ≡ is_clean_in self }
    {
        matches!(self, Status::Clean)
    }
}

/// The status of a command whose relay ended so.
pub fn status_of(outcome: Outcome) -> Status
    ensures { result ≡ status_in outcome }
{
    match outcome {
        Outcome::Clean => Status::Clean,
        Outcome::BadFrame { .. } => Status::BadFrame,
        Outcome::Truncated { .. } => Status::Truncated,
        Outcome::ReadFault => Status::ReadFault,
        Outcome::WriteFault => Status::WriteFault,
        Outcome::TooLong => Status::TooLong,
    }
}
