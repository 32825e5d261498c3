//! The reader's calls on a pipe.

ghost use Rattle.std.specs.Prelude.{◌≡◌, ◌≤◌, ◌^◌, [], ◌∷◌, length, None, IsNone, IsSomeAnd, IfOk, IfErr, option_map};
ghost use Rattle.turn_cell.specs.Seat.{IsOf, IsIdle};
ghost use Rattle.pipe_core.specs.History.{Read, Advance, EndReader};
ghost use Rattle.pipe_core.specs.Lends.{lend};
ghost use Rattle.pipe_core.specs.Answers.{Gave, Woke};
ghost use Rattle.pipe_turns.specs.Log.{calls_of};
ghost use Rattle.pipe_turns.specs.Lends.{is_lending, len_of};
ghost use Rattle.pipe_turns.specs.Turns.{Refuses, Makes};

use crate::ends::{ReaderDone, ReaderEnd, ReaderRefused};
use crate::pipe::Pipe;
use pipe_core::{ReadReply, Wake};
use pipe_turns::TryFault;
use std::marker::Brand;

impl Pipe {
    /// Lends all that is committed and not consumed, as `PipeReader.ReadAsync` does without waiting. Where it answers
    /// Pending no lend stands.
    pub fn try_read(&self, r: &mut ReaderEnd) -> Result<(ReadReply, Wake), TryFault>
        requires pipe { IsOf self.now r.old.seat }
        requires no_lend { IsNone r.old.lent }
        ensures pipe { IsIdle self.now r.new.seat }
        ensures made { IfOk result (λ answer. Makes self.now.name.options r.old.seat (Read 0 ∷ []) (Gave answer.0 answer.1) r.new.seat) }
        ensures lent { IfOk result (λ _. r.new.lent ≡ lend (calls_of r.new.seat.seen)) }
        ensures lends { IfOk result (λ answer. option_map length r.new.lent ≡ len_of answer.0) }
        ensures refused { IfErr result (λ fault. Refuses fault r.old.seat r.new.seat) }
        ensures kept { IfErr result (λ _. r.new.lent ≡ r.old.lent) }
    {
        self.try_read_at_least(r, 0)
    }

    /// The same for at least `n` bytes, as `PipeReader.ReadAtLeastAsync(minimumSize)` does without waiting. Pending also where
    /// fewer are committed and not consumed. A read for 1 byte or more that is answered Pending ends a pause, and none
    /// begins while it waits; one for 0 is `try_read`.
    pub fn try_read_at_least(
        &self,
        r: &mut ReaderEnd,
        n: u64,
    ) -> Result<(ReadReply, Wake), TryFault>
        requires bound { n ≤ 2 ^ 62 }
        requires pipe { IsOf self.now r.old.seat }
        requires no_lend { IsNone r.old.lent }
        ensures pipe { IsIdle self.now r.new.seat }
        ensures made { IfOk result (λ answer. Makes self.now.name.options r.old.seat (Read n ∷ []) (Gave answer.0 answer.1) r.new.seat) }
        ensures lent { IfOk result (λ _. r.new.lent ≡ lend (calls_of r.new.seat.seen)) }
        ensures lends { IfOk result (λ answer. option_map length r.new.lent ≡ len_of answer.0) }
        ensures refused { IfErr result (λ fault. Refuses fault r.old.seat r.new.seat) }
        ensures kept { IfErr result (λ _. r.new.lent ≡ r.old.lent) }
    {
        let answer = pipe_turns::read::<Brand>(&self.cell, &mut r.seat, n, &mut r.part)?;
        r.lending = lends(answer.0);
        self.unpark(answer.1);
        Ok(answer)
    }

    /// Gives up the first `c` of the lent bytes, tells that the first `e` of them were examined, and ends the lend, as
    /// `PipeReader.AdvanceTo(consumed, examined)` does. The lend stays where it is refused.
    pub fn try_advance(&self, r: &mut ReaderEnd, c: u64, e: u64) -> Result<Wake, TryFault>
        requires pipe { IsOf self.now r.old.seat }
        requires lent { IsSomeAnd r.old.lent (λ bytes. (c ≤ e) × (e ≤ length bytes)) }
        ensures pipe { IsIdle self.now r.new.seat }
        ensures made { IfOk result (λ wake. Makes self.now.name.options r.old.seat (Advance c e ∷ []) (Woke wake) r.new.seat) }
        ensures lent { IfOk result (λ _. r.new.lent ≡ None) }
        ensures refused { IfErr result (λ fault. Refuses fault r.old.seat r.new.seat) }
        ensures kept { IfErr result (λ _. r.new.lent ≡ r.old.lent) }
    {
        let wake = pipe_turns::advance::<Brand>(&self.cell, &mut r.seat, c, e, &mut r.part)?;
        r.lending = false;
        self.unpark_for_room(wake);
        Ok(wake)
    }

    /// Completes the reader with a code, 0 for success, as `PipeReader.Complete` does. A lend may stand.
    pub fn try_complete_reader(
        &self,
        r: ReaderEnd,
        code: u32,
    ) -> Result<(ReaderDone, Wake), ReaderRefused>
        requires { IsOf self.now r.seat }
        ensures pipe { IfOk result (λ done. IsIdle self.now done.0) }
        ensures made { IfOk result (λ done. Makes self.now.name.options r.seat (EndReader code ∷ []) (Woke done.1) done.0) }
        ensures back { IfErr result (λ back. IsIdle self.now back.end.seat) }
        ensures refused { IfErr result (λ back. Refuses back.fault r.seat back.end.seat) }
        ensures kept { IfErr result (λ back. back.end.lent ≡ r.lent) }
    {
        let ReaderEnd {
            mut seat,
            part,
            lending,
            parker,
        } = r;
        match pipe_turns::end_reader::<Brand>(&self.cell, &mut seat, part, code) {
            Ok(wake) => {
                self.unpark_for_room(wake);
                Ok((ReaderDone { seat }, wake))
            }
            Err((part, fault)) => Err(ReaderRefused {
                end: ReaderEnd {
                    seat,
                    part,
                    lending,
                    parker,
                },
                fault,
            }),
        }
    }
}

// Whether a read lends, by its reply.
fn lends(reply: ReadReply) -> bool
    ensures { result ≡ is_lending reply }
{
    match reply {
        ReadReply::Ready { .. } => true,
        ReadReply::Pending { .. } => false,
    }
}
