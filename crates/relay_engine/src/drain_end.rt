//! Why a drainer ends.

use frame_grammar::BadKind;

/// The code with which the reader completes behind a bad frame.
const BAD: u32 = 2;
/// Where a write or a flush failed.
const FAULTY: u32 = 5;
/// Where all that is to be written was.
const PASSED_ON: u32 = 0;

/// Why no more is written.
#[derive(Clone, Copy, Debug, PartialEq, Eq)]
pub enum DrainEnd {
    /// The input is at its end, and all of it was passed on.
    Clean,
    /// The writer completed with another code than 0. The whole frames of what came were passed on.
    Stopped,
    /// The input ends within a frame. `place` is the offset of that frame's first byte in the input.
    Rest { place: u64 },
    /// A frame is bad. `place` is the offset of its first byte in the input.
    Bad { place: u64, kind: BadKind },
    /// A write or a flush of the sink failed.
    SinkFault,
}

impl DrainEnd {
    ghost use Rattle.std.specs.Prelude.{◌≡◌};
    ghost use Rattle.relay_engine.specs.Drainer.{end_code};

    /// The code with which the reader completes.
    pub(crate) fn code(self) -> u32
        ensures { result ≡ end_code self }
    {
        match self {
            DrainEnd::Bad { .. } => BAD,
            DrainEnd::SinkFault => FAULTY,
            DrainEnd::Clean | DrainEnd::Stopped | DrainEnd::Rest { .. } => PASSED_ON,
        }
    }
}
