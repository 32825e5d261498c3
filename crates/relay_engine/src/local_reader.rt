//! The pipe for one thread, as a filler and a drainer see its ends.

use crate::drain_pipe::DrainPipe;
use pipe_core::ReadReply;
use pipe_shared::{LocalPipe, TryFault};
use pipe_state::Chain;
use span_seq::Sequence;

impl DrainPipe for LocalPipe {
    type Pipe = ();

    type Lent = Chain;

    ghost use Rattle.relay_engine.specs.ReaderEnds.{IsAttended, aside_local, lent_local, local_tally};
    ghost use Rattle.relay_engine.specs.LocalEnds.{HoldsLocal, NoOthers, RefusesNone};

    ghost may_call = { IsAttended };

    ghost at = { HoldsLocal };

    ghost others = { NoOthers };

    ghost refuses = { RefusesNone };

    ghost lent = { lent_local };

    ghost tally = { local_tally };

    ghost aside = { aside_local };

    ghost not_ours = { λ call other. absurd other };

    fn read(&mut self, _pipe: &()) -> Result<ReadReply, TryFault> {
        let (reply, _) = self.read();
        Ok(reply)
    }

    fn lent(&self) -> Sequence<'_, Chain> {
        self.lent()
    }

    fn advance(&mut self, _pipe: &(), c: u64, e: u64) -> Result<(), TryFault> {
        self.advance(c, e);
        Ok(())
    }
}
