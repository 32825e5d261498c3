//! The writing end of a pipe for two threads, as a filler sees it.

use crate::fill_pipe::{FillPipe, NoRoom};
use crate::reading::read_into;
use edge_core::Source;
use pipe_core::FlushReply;
use pipe_shared::{
    FlushFault, Full, Pipe, RoomFault, TryFault, WriterEnd, others_are_heard_first,
    segments_have_a_byte, writer_has_its_seat,
};
use relay_model::FillEnd;

impl FillPipe for WriterEnd {
    type Pipe = Pipe;

    type Full = Full;

    ghost use Rattle.relay_engine.specs.WriterEnds.{FindsNoRoom, HasWritten, IsOthers, IsWriterOf, RefusesWriter, drafting, writer_made};

    ghost may_call = { IsWriterOf };

    ghost at = { HasWritten };

    ghost others = { IsOthers };

    ghost writer = { drafting };

    ghost made = { writer_made };

    ghost refuses = { RefusesWriter };

    ghost is_full = { FindsNoRoom };

    ghost others_write_nothing = { λ call is. is };

    fn room(&mut self, pipe: &Pipe) -> Result<(), NoRoom<Full>> {
        others_are_heard_first();
        writer_has_its_seat(self);
        segments_have_a_byte(pipe);
        match pipe.try_room(self, 1) {
            Ok(_) => Ok(()),
            Err(RoomFault::Full(full)) => Err(NoRoom::Full(full)),
            Err(RoomFault::Busy { word }) => Err(NoRoom::Refused(TryFault::Busy { word })),
            Err(RoomFault::TooLarge { .. }) => unreachable!(),
        }
    }

    fn draft_from<S: Source>(&mut self, source: &mut S, left: u64) -> Result<usize, FillEnd> {
        match read_into(source, self.spare_mut(), left) {
            Err(end) => Err(end),
            Ok(read) => {
                self.advance(read);
                Ok(read)
            }
        }
    }

    fn commit(&mut self, pipe: &Pipe) -> Result<FlushReply, TryFault> {
        others_are_heard_first();
        writer_has_its_seat(self);
        match pipe.try_flush(self) {
            Ok((reply, _)) => Ok(reply),
            Err(FlushFault::Busy { word }) => Err(TryFault::Busy { word }),
            Err(FlushFault::Worn { entries }) => Err(TryFault::Worn { entries }),
            Err(FlushFault::TooMuch { .. }) => unreachable!(),
        }
    }
}
