//! Why a call was refused. A refused call has made no entry.

/// Why a call that makes an entry was refused. Busy comes before Worn.
#[derive(Clone, Copy, Debug, PartialEq, Eq)]
pub enum TryFault {
    /// The turn was held: the word that the one exchange of the call found, odd, twice the number of entries and one
    /// more. The call may be made again.
    Busy { word: u64 },
    /// The history takes no more entries: how many it has, at least 2^62 - 2. No later call makes an entry.
    Worn { entries: u64 },
}

/// Why a flush or the writer's completion was refused. Busy comes before Worn, and Worn before TooMuch.
#[derive(Clone, Copy, Debug, PartialEq, Eq)]
pub enum FlushFault {
    /// As `TryFault::Busy`.
    Busy { word: u64 },
    /// As `TryFault::Worn`.
    Worn { entries: u64 },
    /// The draft would take the total past 2^62 bytes: how many were committed before. The draft stays.
    TooMuch { total: u64 },
}

impl FlushFault {
    ghost use Rattle.std.specs.Prelude.{◌≡◌};
    ghost use Rattle.pipe_turns.specs.Faults.{is_tried_again};

    /// Whether a call that waits for its turn tries again.
    pub fn is_tried_again(self) -> bool
        ensures { result ≡ is_tried_again self }
    {
        match self {
            FlushFault::Busy { .. } => true,
            FlushFault::Worn { .. } => true,
            FlushFault::TooMuch { .. } => false,
        }
    }
}

impl From<TryFault> for FlushFault {
    ghost use Rattle.std.specs.Prelude.{◌≡◌};
    ghost use Rattle.pipe_turns.specs.Faults.{flush_fault};

    ghost from_gives = { λ fault given. given ≡ flush_fault fault };

    fn from(fault: TryFault) -> FlushFault
        ensures { result ≡ flush_fault fault }
    {
        match fault {
            TryFault::Busy { word } => FlushFault::Busy { word },
            TryFault::Worn { entries } => FlushFault::Worn { entries },
        }
    }
}
