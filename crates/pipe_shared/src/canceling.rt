//! The cancellations of a pipe.

ghost use Rattle.std.specs.Prelude.{[], ◌∷◌, IfOk, IfErr};
ghost use Rattle.turn_cell.specs.Seat.{IsOf, IsIdle};
ghost use Rattle.pipe_core.specs.History.{CancelRead, CancelFlush};
ghost use Rattle.pipe_core.specs.Answers.{Woke};
ghost use Rattle.pipe_turns.specs.Turns.{Refuses, Makes};

use crate::ends::Canceller;
use crate::pipe::Pipe;
use pipe_core::Wake;
use pipe_turns::TryFault;

impl Pipe {
    /// Ends the pending read, or the next one if none is pending, as `PipeReader.CancelPendingRead` does. No byte is lost.
    pub fn try_cancel_read(&self, k: &mut Canceller) -> Result<Wake, TryFault>
        requires { IsOf self.now k.old }
        ensures pipe { IsIdle self.now k.new }
        ensures made { IfOk result (λ wake. Makes self.now.name.options k.old (CancelRead ∷ []) (Woke wake) k.new) }
        ensures refused { IfErr result (λ fault. Refuses fault k.old k.new) }
    {
        let wake = pipe_turns::cancel_read(&self.cell, &mut k.seat)?;
        self.unpark(wake);
        Ok(wake)
    }

    /// Ends the pending flush, or the next one if none is pending, as `PipeWriter.CancelPendingFlush` does. A pause goes
    /// on.
    pub fn try_cancel_flush(&self, k: &mut Canceller) -> Result<Wake, TryFault>
        requires { IsOf self.now k.old }
        ensures pipe { IsIdle self.now k.new }
        ensures made { IfOk result (λ wake. Makes self.now.name.options k.old (CancelFlush ∷ []) (Woke wake) k.new) }
        ensures refused { IfErr result (λ fault. Refuses fault k.old k.new) }
    {
        let wake = pipe_turns::cancel_flush(&self.cell, &mut k.seat)?;
        self.unpark(wake);
        Ok(wake)
    }
}
