//! The answers of a pipe's calls.

/// What a flush tells: .NET's `FlushResult`, without waiting for it.
#[derive(Clone, Copy, Debug, PartialEq, Eq)]
pub enum FlushReply {
    /// The writer may go on.
    Ready {
        /// A cancellation of flushes stood since the last commit: `FlushResult.IsCanceled`.
        canceled: bool,
        /// The code with which the reader has completed: `FlushResult.IsCompleted`. Nobody will read what is committed.
        gone: Option<u32>,
    },
    /// Back-pressure holds the writer, which is to ask again by a commit of nothing once it is woken.
    Pending {
        /// How many committed bytes the reader has not examined: at least the resume threshold.
        unexamined: u64,
    },
}

/// What a read tells: .NET's `ReadResult`, without waiting for it.
#[derive(Clone, Copy, Debug, PartialEq, Eq)]
pub enum ReadReply {
    /// Bytes are lent, maybe none, until the next advance.
    Ready {
        /// A cancellation of reads stood since the last read: `ReadResult.IsCanceled`.
        canceled: bool,
        /// The code with which the writer has completed: `ReadResult.IsCompleted`. No byte will follow those that are lent.
        ended: Option<u32>,
        /// How many bytes are lent: all that is committed and not consumed.
        len: u64,
    },
    /// All that is committed was examined, or fewer bytes are held than were asked for. The reader is to read again once it is
    /// woken.
    Pending {
        /// How far the reader has examined, in bytes from the first one of the pipe.
        examined: u64,
        /// How many bytes are held: all that is committed and not consumed.
        held: u64,
    },
}

/// Which waiting end a call has made ready, so that it is to ask again.
#[derive(Clone, Copy, Debug, PartialEq, Eq)]
pub struct Wake {
    /// The reader's last read was answered Pending, and now one for as many bytes would be ready.
    pub reader: bool,
    /// The writer's last flush was answered Pending, and now a flush of nothing would be ready.
    pub writer: bool,
}

impl Wake {
    ghost use Rattle.std.specs.Prelude.{◌≡◌};
    ghost use Rattle.pipe_core.specs.Wakes.{either_wake};

    /// Whom one of two calls wakes, or both.
    pub fn or(self, other: Wake) -> Wake
        ensures { result ≡ either_wake self other }
    {
        Wake {
            reader: self.reader || other.reader,
            writer: self.writer || other.writer,
        }
    }
}

/// A commit that would take the total past 2^62 bytes. Nothing was changed by it.
#[derive(Clone, Copy, Debug, PartialEq, Eq)]
pub struct TooMuch {
    /// How many bytes were committed before, those not counted that were committed after the reader had completed.
    pub total: u64,
}
