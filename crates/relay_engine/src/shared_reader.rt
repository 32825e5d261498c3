//! The ends of a pipe for two threads, as a filler and a drainer see them.

use crate::drain_pipe::DrainPipe;
use pipe_core::ReadReply;
use pipe_shared::{Pipe, ReaderEnd, TryFault, others_are_heard_first, reader_has_its_seat};
use pipe_state::Chain;
use span_seq::Sequence;

impl DrainPipe for ReaderEnd {
    type Pipe = Pipe;

    type Lent = Chain;

    ghost use Rattle.std.specs.Prelude.{◌≢◌};
    ghost use Rattle.pipe_core.specs.History.{seat_of};
    ghost use Rattle.relay_engine.specs.ReaderEnds.{HasRead, IsReaderOf, RefusesReader, lent_len, nothing_aside, reader_tally};

    ghost may_call = { IsReaderOf };

    ghost at = { HasRead };

    ghost others = { λ call. seat_of call ≢ 1 };

    ghost refuses = { RefusesReader };

    ghost lent = { lent_len };

    ghost tally = { reader_tally };

    ghost aside = { nothing_aside };

    ghost not_ours = { λ call other. other };

    fn read(&mut self, pipe: &Pipe) -> Result<ReadReply, TryFault> {
        others_are_heard_first();
        reader_has_its_seat(self);
        match pipe.try_read(self) {
            Ok((reply, _)) => Ok(reply),
            Err(fault) => Err(fault),
        }
    }

    fn lent(&self) -> Sequence<'_, Chain> {
        self.lent()
    }

    fn advance(&mut self, pipe: &Pipe, c: u64, e: u64) -> Result<(), TryFault> {
        others_are_heard_first();
        reader_has_its_seat(self);
        match pipe.try_advance(self, c, e) {
            Ok(_) => Ok(()),
            Err(fault) => Err(fault),
        }
    }
}
