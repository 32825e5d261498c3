//! The calls of a pipe that wait. Each makes attempts, one behind the other, until one of them has its answer; an attempt
//! is the call of the same name that doesn't wait.

ghost use Rattle.std.specs.Prelude.{◌≡◌, ◌+◌, ◌^◌, ◌<◌, ◌≤◌, ◌↔◌, [], ◌∷◌, length, max, Some, None, Ok, Err, IsNone, IsSomeAnd, IsErr, IfOk, IfErr, OnErr, OnOk};
ghost use Rattle.turn_cell.specs.Seat.{IsOf, IsIdle};
ghost use Rattle.pipe_core.specs.declared.reply.Wake.{Wake};
ghost use Rattle.pipe_core.specs.History.{Advance, EndReader, bytes_of, closing};
ghost use Rattle.pipe_core.specs.Progress.{total};
ghost use Rattle.pipe_shared.specs.declared.faults.RoomFault.TheVariants.{TooLarge};
ghost use Rattle.pipe_turns.specs.declared.faults.FlushFault.TheVariants.{TooMuch};
ghost use Rattle.pipe_turns.specs.Log.{calls_of};
ghost use Rattle.pipe_turns.specs.Lends.{len_of};
ghost use Rattle.pipe_shared.specs.Waiting.{AtLast};
ghost use Rattle.pipe_shared.specs.Attempts.{TriesRoom, TriesCompletion, TriesRead, TriesToEnd, waits_for_room, waits_to_complete, waits_to_read, waits_for_turn, FlushesAtLast, completed, without_lend, FlushesOn, ReadsOn, CallsOnce};

use crate::ends::{ReaderDone, ReaderEnd, ReaderRefused, WriterDone, WriterEnd, WriterRefused};
use crate::faults::RoomFault;
use crate::parking::Attempts;
use crate::pipe::Pipe;
use pipe_core::{FlushReply, ReadReply};
use pipe_turns::FlushFault;
use std::sync::Wait;

impl Pipe {
    /// Grants a free part of at least `hint` bytes as `try_room` does, and waits while the pipe has no room for it.
    /// TooLarge is the one refusal. It makes no entry. While the draft alone leaves no room for the hint nobody can make
    /// any, and it doesn't return.
    pub fn room<R: Wait>(&self, rt: &R, w: &mut WriterEnd, hint: usize) -> Result<usize, RoomFault>
        requires { IsOf self.now w.old.seat }
        ensures pipe { IsIdle self.now w.new.seat }
        ensures at_last { AtLast (TriesRoom self.now.name.options (max hint 1)) waits_for_room w.old result w.new }
        ensures granted { IfOk result (λ n. (max hint 1 ≤ n) × (length w.new.free ≡ n)) }
        ensures too_large { IsErr result ↔ self.now.name.options.segment < max hint 1 }
        ensures refused { IfErr result (λ fault. fault ≡ TooLarge (max hint 1) self.now.name.options.segment) }
        ensures unchanged { OnErr result (w.new ≡ w.old) }
        ensures draft { w.new.draft ≡ w.old.draft }
        ensures own { w.new.seat.own ≡ w.old.seat.own }
    {
        let mut attempts = Attempts::new();
        for _ in rt.forever() {
            match self.try_room(w, hint) {
                Ok(granted) => return Ok(granted),
                Err(RoomFault::TooLarge { hint, segment }) => {
                    return Err(RoomFault::TooLarge { hint, segment });
                }
                Err(RoomFault::Full(_)) => attempts.wait_for_reader(rt, w),
                Err(RoomFault::Busy { .. }) => attempts.wait_for_turn(),
            }
        }
        unreachable!()
    }

    /// Commits the draft as `PipeWriter.FlushAsync` does, and waits while back-pressure holds the writer: it asks again
    /// by flushes of nothing. TooMuch leaves the draft as it was. Once the history takes no more entries it doesn't
    /// return.
    pub fn flush<R: Wait>(
        &self,
        rt: &R,
        w: &mut WriterEnd,
    ) -> Result<FlushReply, pipe_core::TooMuch>
        requires { IsOf self.now w.old.seat }
        ensures pipe { IsIdle self.now w.new.seat }
        ensures at_last { FlushesAtLast self.now.name.options w.old result w.new }
        ensures flushes { IfOk result (λ reply. FlushesOn self.now.name.options w.old.seat w.old.draft reply w.new.seat) }
        ensures draft { OnOk result (w.new.draft ≡ []) }
        ensures free { length w.new.free ≡ length w.old.free }
        ensures kept { OnErr result ((w.new.draft ≡ w.old.draft) × (w.new.free ≡ w.old.free) × (w.new.seat.own ≡ w.old.seat.own)) }
    {
        let mut attempts = Attempts::new();
        for _ in rt.forever() {
            match self.try_flush(w) {
                Ok((FlushReply::Ready { canceled, gone }, _)) => {
                    return Ok(FlushReply::Ready { canceled, gone });
                }
                Ok((FlushReply::Pending { .. }, _)) => attempts.wait_for_reader(rt, w),
                Err(FlushFault::TooMuch { total }) => return Err(pipe_core::TooMuch { total }),
                Err(FlushFault::Busy { .. }) => attempts.wait_for_turn(),
                Err(FlushFault::Worn { .. }) => attempts.wait_for_turn(),
            }
        }
        unreachable!()
    }

    /// Commits the draft, if there is one, and completes the writer as `try_complete` does. It waits for turns alone, and
    /// TooMuch is the one fault. Once the history takes no more entries it doesn't return.
    pub fn complete<R: Wait>(
        &self,
        rt: &R,
        w: WriterEnd,
        code: u32,
    ) -> Result<WriterDone, WriterRefused>
        requires { IsOf self.now w.seat }
        ensures pipe { IfOk result (λ done. IsIdle self.now done) }
        ensures at_last { IfOk result (λ done.
            (wake : Wake) × AtLast (TriesCompletion self.now.name.options code) waits_to_complete w (Ok wake) (completed done)) }
        ensures made { IfOk result (λ done. CallsOnce w.seat (closing w.draft code) done) }
        ensures back { IfErr result (λ back. IsIdle self.now back.end.seat) }
        ensures refused { IfErr result (λ back.
            AtLast (TriesCompletion self.now.name.options code) waits_to_complete w (Err back.fault) back.end) }
        ensures too_much { IfErr result (λ back.
            (back.fault ≡ TooMuch (length (total (calls_of back.end.seat.seen))))
            × (2 ^ 62 < length (total (calls_of back.end.seat.seen)) + length (bytes_of w.draft))) }
        ensures kept { IfErr result (λ back.
            (back.end.draft ≡ w.draft) × (back.end.free ≡ w.free) × (back.end.hint ≡ w.hint) × (back.end.seat.own ≡ w.seat.own)) }
    {
        let attempts = Attempts::new();
        let mut end = w;
        for _ in rt.forever() {
            match self.try_complete(end, code) {
                Ok((done, _)) => return Ok(done),
                Err(WriterRefused { end: back, fault }) => {
                    if !fault.is_tried_again() {
                        return Err(WriterRefused { end: back, fault });
                    }
                    end = back;
                    attempts.wait_for_turn();
                }
            }
        }
        unreachable!()
    }

    /// Lends all that is committed and not consumed, as `PipeReader.ReadAsync` does. It waits until there is a byte that
    /// wasn't examined, the writer has completed, or the read is canceled. Once the history takes no more entries it
    /// doesn't return.
    pub fn read<R: Wait>(&self, rt: &R, r: &mut ReaderEnd) -> ReadReply
        requires pipe { IsOf self.now r.old.seat }
        requires no_lend { IsNone r.old.lent }
        ensures pipe { IsIdle self.now r.new.seat }
        ensures at_last { (wake : Wake) × AtLast (TriesRead self.now.name.options 0) waits_to_read r.old (Ok (result, wake)) r.new }
        ensures lends { IsSomeAnd r.new.lent (λ bytes. len_of result ≡ Some (length bytes)) }
        ensures reads { ReadsOn 0 r.old.seat result r.new.seat }
    {
        self.read_at_least(rt, r, 0)
    }

    /// The same for at least `n` bytes, as `PipeReader.ReadAtLeastAsync(minimumSize)` does: it waits also while fewer are
    /// committed and not consumed, and no pause holds the writer meanwhile. Where the pipe has no room for `n` bytes it
    /// returns only once the writer has completed or the read is canceled.
    pub fn read_at_least<R: Wait>(&self, rt: &R, r: &mut ReaderEnd, n: u64) -> ReadReply
        requires bound { n ≤ 2 ^ 62 }
        requires pipe { IsOf self.now r.old.seat }
        requires no_lend { IsNone r.old.lent }
        ensures pipe { IsIdle self.now r.new.seat }
        ensures at_last { (wake : Wake) × AtLast (TriesRead self.now.name.options n) waits_to_read r.old (Ok (result, wake)) r.new }
        ensures lends { IsSomeAnd r.new.lent (λ bytes. len_of result ≡ Some (length bytes)) }
        ensures reads { ReadsOn n r.old.seat result r.new.seat }
    {
        let mut attempts = Attempts::new();
        for _ in rt.forever() {
            match self.try_read_at_least(r, n) {
                Ok(
                    (
                        ReadReply::Ready {
                            canceled,
                            ended,
                            len,
                        },
                        _,
                    ),
                ) => {
                    return ReadReply::Ready {
                        canceled,
                        ended,
                        len,
                    };
                }
                Ok((ReadReply::Pending { .. }, _)) => attempts.wait_for_writer(rt, r),
                Err(_) => attempts.wait_for_turn(),
            }
        }
        unreachable!()
    }

    /// Gives up the first `c` of the lent bytes, tells that the first `e` of them were examined, and ends the lend, as
    /// `try_advance` does. It waits for turns alone. Once the history takes no more entries it doesn't return.
    pub fn advance<R: Wait>(&self, rt: &R, r: &mut ReaderEnd, c: u64, e: u64)
        requires pipe { IsOf self.now r.old.seat }
        requires lent { IsSomeAnd r.old.lent (λ bytes. (c ≤ e) × (e ≤ length bytes)) }
        ensures pipe { IsIdle self.now r.new.seat }
        ensures at_last { (wake : Wake) × AtLast (TriesToEnd self.now.name.options (Advance c e)) waits_for_turn r.old (Ok wake) r.new }
        ensures lent { r.new.lent ≡ None }
        ensures made { CallsOnce r.old.seat (Advance c e ∷ []) r.new.seat }
    {
        let attempts = Attempts::new();
        for _ in rt.forever() {
            match self.try_advance(r, c, e) {
                Ok(_) => return,
                Err(_) => attempts.wait_for_turn(),
            }
        }
        unreachable!()
    }

    /// Completes the reader as `try_complete_reader` does. It waits for turns alone. Once the history takes no more
    /// entries it doesn't return.
    pub fn complete_reader<R: Wait>(&self, rt: &R, r: ReaderEnd, code: u32) -> ReaderDone
        requires { IsOf self.now r.seat }
        ensures pipe { IsIdle self.now result }
        ensures at_last { (wake : Wake) × AtLast (TriesToEnd self.now.name.options (EndReader code)) waits_for_turn r (Ok wake) (without_lend result r.chain) }
        ensures made { CallsOnce r.seat (EndReader code ∷ []) result }
    {
        let attempts = Attempts::new();
        let mut end = r;
        for _ in rt.forever() {
            match self.try_complete_reader(end, code) {
                Ok((done, _)) => return done,
                Err(ReaderRefused { end: back, .. }) => end = back,
            }
            attempts.wait_for_turn();
        }
        unreachable!()
    }
}
