//! The framings, and why a frame is refused.

/// How a stream of bytes is cut into frames, each of which carries a payload.
#[derive(Clone, Copy, Debug, PartialEq, Eq)]
pub enum Framing {
    /// The payload's length in 4 bytes, most significant first, and the payload.
    Len4,
    /// The payload's length in 2 bytes, most significant first, and the payload.
    Len2,
    /// The payload, which has no line feed, and a line feed.
    Line,
    /// The payload's length in groups of 7 bits, least significant first, in as few bytes as it needs, and the payload.
    VLen,
}

/// Why a frame can't be relayed.
#[derive(Clone, Copy, Debug, PartialEq, Eq)]
pub enum BadKind {
    /// The payload is longer than is allowed: `len` bytes, or for a line at least so many.
    TooBig { len: u64 },
    /// The output's framing can't spell the payload, because of its byte at the index `at`.
    Unspellable { at: u64 },
    /// So many bytes begin no head, where heads have a shortest spelling.
    BadHead { bytes: u64 },
}
