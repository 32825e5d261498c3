//! Why a call was refused. A refused call has made no entry.

use pipe_state::Full;

/// Why no room was granted. TooLarge comes before Busy, and Busy before Full.
#[derive(Clone, Copy, Debug, PartialEq, Eq)]
pub enum RoomFault {
    /// As `TryFault::Busy`.
    Busy { word: u64 },
    /// The hint, in bytes, is larger than a segment. No exchange was made.
    TooLarge { hint: usize, segment: usize },
    /// No segment is at home.
    Full(Full),
}

/// Why a pipe for one thread granted no room.
#[derive(Clone, Copy, Debug, PartialEq, Eq)]
pub enum LocalRoomFault {
    /// As `RoomFault::TooLarge`.
    TooLarge { hint: usize, segment: usize },
    /// No segment is at home.
    Full(Full),
}
