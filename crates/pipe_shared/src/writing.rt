//! The writer's calls on a pipe.

ghost use Rattle.std.specs.Prelude.{◌≡◌, ◌<◌, ◌≤◌, [], ◌∷◌, length, max, IfOk, IfErr};
ghost use Rattle.turn_cell.specs.Seat.{IsOf, IsIdle};
ghost use Rattle.pipe_core.specs.History.{Commit, bytes_of, closing};
ghost use Rattle.pipe_core.specs.Answers.{Flushed, Woke};
ghost use Rattle.pipe_turns.specs.Turns.{RefusesFlush, Makes};
ghost use Rattle.pipe_shared.specs.Granting.{RefusesRoom, Grants};

use crate::ends::{WriterDone, WriterEnd, WriterRefused};
use crate::faults::RoomFault;
use crate::pipe::Pipe;
use pipe_core::{FlushReply, Wake};
use pipe_turns::FlushFault;
use std::marker::Brand;
use turn_cell::Busy;

impl Pipe {
    /// Grants a free part of at least `hint` bytes, as `PipeWriter.GetMemory(sizeHint)` does, and tells its length. The
    /// hint 0 stands for 1. It makes no entry, and no exchange where the free part is long enough already.
    pub fn try_room(&self, w: &mut WriterEnd, hint: usize) -> Result<usize, RoomFault>
        requires { IsOf self.now w.old.seat }
        ensures pipe { IsIdle self.now w.new.seat }
        ensures granted { IfOk result (λ n. Grants self.now.name.options (max hint 1) n w.old w.new) }
        ensures refused { IfErr result (λ fault. RefusesRoom self.now.name.options (max hint 1) fault w.old w.new) }
    {
        let hint = hint.max(1);
        let free = w.part.free_len();
        let segment = self.options.segment;
        if hint > segment {
            return Err(RoomFault::TooLarge { hint, segment });
        }
        if hint <= free {
            return Ok(free);
        }
        self.grant(w, hint)
    }

    // Grants another segment, for want of room for the hint in the one that the writer fills.
    fn grant(&self, w: &mut WriterEnd, hint: usize) -> Result<usize, RoomFault>
        requires pipe { IsOf self.now w.old.seat }
        requires some { 1 ≤ hint }
        requires small { hint ≤ self.now.name.options.segment }
        requires short { length w.old.free < hint }
        ensures pipe { IsIdle self.now w.new.seat }
        ensures granted { IfOk result (λ n. Grants self.now.name.options hint n w.old w.new) }
        ensures refused { IfErr result (λ fault. RefusesRoom self.now.name.options hint fault w.old w.new) }
    {
        match pipe_turns::room(&self.cell, &mut w.seat, hint, &mut w.part) {
            Ok(Ok(granted)) => Ok(granted),
            Ok(Err(full)) => Err(RoomFault::Full(full)),
            Err(Busy { word }) => Err(RoomFault::Busy { word }),
        }
    }

    /// Commits the draft, as `PipeWriter.FlushAsync` does without waiting. A flush of nothing asks again whether the
    /// writer may go on. The draft stays where it is refused.
    pub fn try_flush(&self, w: &mut WriterEnd) -> Result<(FlushReply, Wake), FlushFault>
        requires { IsOf self.now w.old.seat }
        ensures pipe { IsIdle self.now w.new.seat }
        ensures made { IfOk result (λ answer.
            Makes self.now.name.options w.old.seat (Commit w.old.draft ∷ []) (Flushed answer.0 answer.1) w.new.seat) }
        ensures draft { IfOk result (λ _. w.new.draft ≡ []) }
        ensures free { IfOk result (λ _. length w.new.free ≡ length w.old.free) }
        ensures hint { w.new.hint ≡ w.old.hint }
        ensures refused { IfErr result (λ fault. RefusesFlush (length (bytes_of w.old.draft)) fault w.old.seat w.new.seat) }
        ensures kept { IfErr result (λ _. (w.new.draft ≡ w.old.draft) × (w.new.free ≡ w.old.free)) }
    {
        let answer = pipe_turns::commit::<Brand>(&self.cell, &mut w.seat, &mut w.part)?;
        self.unpark(answer.1);
        Ok(answer)
    }

    /// Commits the draft, if there is one, and completes the writer with a code, 0 for success, as `PipeWriter.Complete`
    /// does.
    pub fn try_complete(&self, w: WriterEnd, code: u32) -> Result<(WriterDone, Wake), WriterRefused>
        requires { IsOf self.now w.seat }
        ensures pipe { IfOk result (λ done. IsIdle self.now done.0) }
        ensures made { IfOk result (λ done. Makes self.now.name.options w.seat (closing w.draft code) (Woke done.1) done.0) }
        ensures back { IfErr result (λ back. IsIdle self.now back.end.seat) }
        ensures refused { IfErr result (λ back. RefusesFlush (length (bytes_of w.draft)) back.fault w.seat back.end.seat) }
        ensures kept { IfErr result (λ back. (back.end.draft ≡ w.draft) × (back.end.free ≡ w.free) × (back.end.hint ≡ w.hint)) }
    {
        let WriterEnd {
            mut seat,
            part,
            parker,
        } = w;
        match pipe_turns::complete::<Brand>(&self.cell, &mut seat, part, code) {
            Ok(wake) => {
                self.unpark(wake);
                Ok((WriterDone { seat }, wake))
            }
            Err((part, fault)) => Err(WriterRefused {
                end: WriterEnd { seat, part, parker },
                fault,
            }),
        }
    }
}
