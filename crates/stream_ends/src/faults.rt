//! Why a call of an end over a device did not do what it was asked.

/// Why a read over a source was not answered. What was committed stays, and a later read goes on from there.
#[derive(Clone, Copy, Debug, PartialEq, Eq)]
pub enum StreamFault {
    /// A read of the source failed. The source has counted it.
    ReadFault,
    /// As many bytes are held as there is room for, and they don't answer the read: all of them were examined, or fewer
    /// were to be held than were asked for. The reader is to consume some.
    Full {
        /// How many bytes are held: the capacity.
        held: u64,
    },
    /// The source has given 2^62 bytes in all, which is the most that a reader takes.
    TooMuch {
        /// How many bytes were committed in all.
        total: u64,
    },
}

/// A write or a flush of the sink failed. The sink has counted it. What it took has left the draft, and the next flush goes
/// on behind it.
#[derive(Clone, Copy, Debug, PartialEq, Eq)]
pub struct WriteFault {
    /// How many bytes of this call the sink took.
    pub taken: u64,
}
