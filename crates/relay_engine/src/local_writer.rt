//! A pipe for one thread, as a filler sees it.

use crate::fill_pipe::{FillPipe, NoRoom};
use crate::reading::read_into;
use edge_core::Source;
use pipe_core::FlushReply;
use pipe_shared::{Full, LocalPipe, LocalRoomFault, TryFault, local_segments_have_a_byte};
use relay_model::FillEnd;

impl FillPipe for LocalPipe {
    type Pipe = ();

    type Full = Full;

    ghost use Rattle.relay_engine.specs.WriterEnds.{IsLocalFull, IsUnended, local_drafting, local_made};
    ghost use Rattle.relay_engine.specs.LocalEnds.{HoldsLocal, NoOthers, RefusesNone};

    ghost may_call = { IsUnended };

    ghost at = { HoldsLocal };

    ghost others = { NoOthers };

    ghost writer = { local_drafting };

    ghost made = { local_made };

    ghost refuses = { RefusesNone };

    ghost is_full = { IsLocalFull };

    ghost others_write_nothing = { λ call is. absurd is };

    fn room(&mut self, _pipe: &()) -> Result<(), NoRoom<Full>> {
        local_segments_have_a_byte(self);
        match self.room(1) {
            Ok(_) => Ok(()),
            Err(LocalRoomFault::Full(full)) => Err(NoRoom::Full(full)),
            Err(LocalRoomFault::TooLarge { .. }) => unreachable!(),
        }
    }

    fn draft_from<S: Source>(&mut self, source: &mut S, left: u64) -> Result<usize, FillEnd> {
        match read_into(source, self.spare_mut(), left) {
            Err(end) => Err(end),
            Ok(read) => {
                self.advance_draft(read);
                Ok(read)
            }
        }
    }

    fn commit(&mut self, _pipe: &()) -> Result<FlushReply, TryFault> {
        match self.flush() {
            Ok((reply, _)) => Ok(reply),
            Err(_) => unreachable!(),
        }
    }
}
