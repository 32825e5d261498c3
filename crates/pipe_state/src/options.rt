//! What a pipe is made with.

ghost use Rattle.std.specs.Prelude.{◌≡◌};
ghost use Rattle.pipe_state.specs.Options.{first_bad};

/// How a pipe is made: .NET's `PipeOptions`. What the thresholds count are committed bytes that the reader hasn't
/// examined.
#[derive(Clone, Copy, Debug, PartialEq, Eq)]
pub struct Options {
    /// The size of a segment, in bytes: 64 to 65,536. No room larger than a segment is ever granted at once.
    /// `MinimumSegmentSize`.
    pub segment: usize,
    /// How many segments the pipe has: 2 to 8,388,608.
    pub segments: usize,
    /// From how many unexamined bytes on a flush waits: 0, for never, to 2^40. `PauseWriterThreshold`.
    pub pause: u64,
    /// Below how many unexamined bytes the wait ends: 1 to `pause`, or any number where that is 0.
    /// `ResumeWriterThreshold`.
    pub resume: u64,
}

/// A field of `Options`.
#[derive(Clone, Copy, Debug, PartialEq, Eq)]
pub enum Field {
    Segment,
    Segments,
    Pause,
    Resume,
}

impl Options {
    /// The first field that is out of its range, in the order of the fields, and its number.
    pub fn first_bad(&self) -> Option<(Field, u64)>
        ensures { result ≡ first_bad self.now }
    {
        if self.segment < 64 || self.segment > 65_536 {
            Some((Field::Segment, self.segment as u64))
        } else if self.segments < 2 || self.segments > 8_388_608 {
            Some((Field::Segments, self.segments as u64))
        } else if self.pause > 1 << 40 {
            Some((Field::Pause, self.pause))
        } else if self.pause != 0 && (self.resume < 1 || self.resume > self.pause) {
            Some((Field::Resume, self.resume))
        } else {
            None
        }
    }
}
