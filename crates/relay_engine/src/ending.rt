//! How a relay ends.

ghost use Rattle.std.specs.Prelude.{◌≡◌};
ghost use Rattle.relay_model.specs.Ending.{outcome_of as outcome_in};
ghost use Rattle.relay_engine.specs.Ending.{is_sink_fault, verdict_for};

use crate::drain_end::DrainEnd;
use relay_model::{FillEnd, Outcome};

/// How a relay ends whose sides end so: for a failed write, else for a bad frame, else for a failed read, else for the limit,
/// else for a rest that is no frame.
pub fn outcome_of(fill: FillEnd, drain: DrainEnd) -> Outcome
    ensures { result ≡ outcome_in (is_sink_fault drain) fill (verdict_for drain) }
{
    match (drain, fill) {
        (DrainEnd::SinkFault, _) => Outcome::WriteFault,
        (DrainEnd::Bad { place, kind }, _) => Outcome::BadFrame { place, kind },
        (_, FillEnd::Fault) => Outcome::ReadFault,
        (_, FillEnd::Long) => Outcome::TooLong,
        (DrainEnd::Rest { place }, _) => Outcome::Truncated { place },
        (DrainEnd::Clean | DrainEnd::Stopped, _) => Outcome::Clean,
    }
}
