//! The side of a relay that takes bytes from a source, as a whole.

ghost use Rattle.std.specs.Prelude.{◌≡◌, false, None};
ghost use Rattle.turn_cell.specs.Seat.{IsIdle};
ghost use Rattle.relay_engine.specs.PipeFiller.{IsUnused};
ghost use Rattle.relay_engine.specs.Sides.{HasFilled};

use crate::pipe_filler::{FillStep, Filler};
use edge_core::Source;
use pipe_shared::{Attempts, Pipe, WriterDone};
use relay_model::FillEnd;
use std::sync::Wait;

/// Makes the steps of a new filler on its pipe until the last one, and tells how the taking ended and how many bytes were
/// taken. Between steps that moved nothing it waits: for a turn, or for the reader, for which its thread may sleep. Once
/// the history takes no more entries it doesn't return.
pub fn fill<R: Wait, S: Source>(
    rt: &R,
    pipe: &Pipe,
    filler: Filler,
    source: &mut S,
) -> (FillEnd, WriterDone, u64)
    requires new { IsUnused filler }
    requires pipe { IsIdle pipe.now filler.end.seat }
    ensures pipe { IsIdle pipe.now result.1 }
    ensures filled { HasFilled filler.limit result.0 result.1 result.2 (S.state source.old) (S.state source.new) }
{
    let mut filler = filler;
    let mut attempts = Attempts::new();
    for _ in rt.forever() {
        match filler.step(pipe, source) {
            FillStep::Moved { .. } => attempts = Attempts::new(),
            FillStep::Paused { .. } => filler.wait(rt, &mut attempts),
            FillStep::Full(_) => filler.wait(rt, &mut attempts),
            FillStep::Busy { .. } => attempts.wait_for_turn(),
            FillStep::Worn { .. } => attempts.wait_for_turn(),
            FillStep::Done(end) => {
                let taken = filler.taken();
                return (end, filler.finish(), taken);
            }
        }
    }
    unreachable!()
}
