//! A pipe's marks and flags, and what each call answers by them.

ghost use Rattle.std.specs.Prelude.{◌≡◌, ◌+◌, ◌^◌, ◌<◌, ◌≤◌, ◌↔◌, ℕ, List, [], length, is_some, unwrap_or, false, IsNone, IsErr, IfErr, IfOk, OnErr};
ghost use Rattle.pipe_core.specs.History.{Run, Call, Commit, EndWriter, Read, Advance, EndReader, CancelRead, CancelFlush, bytes_of};
ghost use Rattle.pipe_core.specs.Reads.{read_is_ready};
ghost use Rattle.pipe_core.specs.Answers.{Flushed, Gave, Woke};
ghost use Rattle.pipe_core.specs.Standing.{StandsFor, AreThresholds, MayAdvance, ControlAnswers};

use crate::marks::{Marks, awaited_where, flush_goes, flush_reply, lent_where, read_reply};
use crate::reply::{FlushReply, ReadReply, TooMuch, Wake};
use std::marker::Model;

/// The control of a pipe: marks and flags of fixed width, and no bytes.
///
/// No call waits. A call that .NET would let wait is answered Pending, and a later call tells by its `Wake` that it is to
/// be made again. Who makes the calls, and from which thread, is left to the crates above.
#[derive(Debug, Drop)]
pub struct Control {
    pub(crate) marks: Marks,
}

// Clauses see the marks. They always stand for some history of calls.
impl Model for Control {
    ghost use Rattle.pipe_core.specs.declared.marks.Marks.{Marks};
    ghost use Rattle.pipe_core.specs.Standing.{IsSound};

    ghost Value = { Marks };

    ghost view = { λ c. c.marks };

    ghost invariant = { λ c. IsSound c.marks };
}

impl Control {
    /// A control of which nothing was asked yet: `PipeOptions` with a `PauseWriterThreshold` of `pause` bytes, where 0 is
    /// never, and a `ResumeWriterThreshold` of `resume` bytes. What the thresholds count are the committed bytes that
    /// the reader hasn't examined.
    pub fn new(pause: u64, resume: u64) -> Control
        requires { AreThresholds pause resume }
        ensures pause { result.pause ≡ pause }
        ensures resume { result.resume ≡ resume }
        ensures stands { StandsFor result [] }
    {
        Control {
            marks: Marks {
                pause,
                resume,
                committed: 0,
                consumed: 0,
                examined: 0,
                ended: None,
                gone: None,
                read_canceled: false,
                flush_canceled: false,
                paused: false,
                lent: None,
                awaited: None,
                writer_waits: false,
            },
        }
    }

    /// Commits `n` bytes, as `PipeWriter.FlushAsync` does with what was written. A commit of nothing asks again.
    ///
    /// Once the reader has completed, the bytes are dropped, and any number of them is welcome. Until then TooMuch is the
    /// answer where the total would pass 2^62 bytes, and the control stays as it was.
    pub fn commit(&mut self, n: u64) -> Result<(FlushReply, Wake), TooMuch>
        requires { IsNone self.old.ended }
        ensures too_much { IsErr result ↔ (IsNone self.old.gone × 2 ^ 62 < self.old.committed + n) }
        ensures told_total { IfErr result (λ refused. refused.total ≡ self.old.committed) }
        ensures unchanged { OnErr result (self.new ≡ self.old) }
        ensures answers { IfOk result (λ answer. (runs : List Run) → length (bytes_of runs) ≡ n →
            ControlAnswers self.old (Commit runs) (Flushed answer.0 answer.1) self.new) }
    {
        let before = self.marks;
        let Some(committed) = before.total_with(n) else {
            return Err(TooMuch {
                total: before.committed,
            });
        };
        let grown = Marks {
            committed,
            ..before
        };
        let paused = grown.pauses_now();
        let ready = flush_goes(before.flush_canceled, before.gone, paused);
        let after = Marks {
            committed,
            paused,
            flush_canceled: false,
            writer_waits: !ready,
            ..before
        };
        self.marks = after;
        let unexamined = committed - before.examined;
        let reply = flush_reply(ready, before.flush_canceled, before.gone, unexamined);
        Ok((reply, after.woken_since(&before)))
    }

    /// Lends all that is committed and not consumed, as `PipeReader.ReadAsync` does. Pending where all of it was examined,
    /// no cancellation stands and the writer hasn't completed.
    pub fn read(&mut self) -> (ReadReply, Wake)
        requires attended { IsNone self.old.gone }
        requires no_lend { IsNone self.old.lent }
        ensures { ControlAnswers self.old (Read 0) (Gave result.0 result.1) self.new }
    {
        self.read_at_least(0)
    }

    /// The same for at least `n` bytes, as `PipeReader.ReadAtLeastAsync(minimumSize)` does. Pending also where fewer are
    /// committed and not consumed. A read for 1 byte or more that is answered Pending ends a pause, and none begins while
    /// it waits; one for 0 is `read`.
    pub fn read_at_least(&mut self, n: u64) -> (ReadReply, Wake)
        requires bound { n ≤ 2 ^ 62 }
        requires attended { IsNone self.old.gone }
        requires no_lend { IsNone self.old.lent }
        ensures { ControlAnswers self.old (Read n) (Gave result.0 result.1) self.new }
    {
        let before = self.marks;
        let ready = before.reads_now(n);
        let held = before.committed - before.consumed;
        let waiting = Marks {
            read_canceled: false,
            lent: lent_where(ready, held),
            awaited: awaited_where(ready, n),
            ..before
        };
        let after = Marks {
            paused: waiting.paused_still(),
            ..waiting
        };
        self.marks = after;
        let reply = read_reply(
            ready,
            before.read_canceled,
            before.ended,
            held,
            before.examined,
        );
        (reply, after.woken_since(&before))
    }

    /// Gives up the first `c` of the lent bytes, tells that the first `e` of them were examined, and ends the lend, as
    /// `PipeReader.AdvanceTo(consumed, examined)` does. An examined mark never goes back.
    pub fn advance(&mut self, c: u64, e: u64) -> Wake
        requires { MayAdvance self.old.lent c e }
        ensures { ControlAnswers self.old (Advance c e) (Woke result) self.new }
    {
        let before = self.marks;
        let examined = before.examined.max(before.consumed + e);
        let moved = Marks {
            consumed: before.consumed + c,
            examined,
            lent: None,
            awaited: None,
            ..before
        };
        let after = Marks {
            paused: moved.paused_still(),
            ..moved
        };
        self.marks = after;
        after.woken_since(&before)
    }

    /// Completes the writer, as `PipeWriter.Complete` does, with a code: 0 for success. What is committed stays readable.
    pub fn end_writer(&mut self, code: u32) -> Wake
        requires { IsNone self.old.ended }
        ensures { ControlAnswers self.old (EndWriter code) (Woke result) self.new }
    {
        let before = self.marks;
        let after = Marks {
            ended: Some(code),
            writer_waits: false,
            ..before
        };
        self.marks = after;
        after.woken_since(&before)
    }

    /// Completes the reader, as `PipeReader.Complete` does, with a code: 0 for success. A lend and a pause end by it.
    pub fn end_reader(&mut self, code: u32) -> Wake
        requires { IsNone self.old.gone }
        ensures { ControlAnswers self.old (EndReader code) (Woke result) self.new }
    {
        let before = self.marks;
        let after = Marks {
            gone: Some(code),
            paused: false,
            lent: None,
            awaited: None,
            ..before
        };
        self.marks = after;
        after.woken_since(&before)
    }

    /// Ends the pending read, or the next one if none is pending, as `PipeReader.CancelPendingRead` does. No byte is lost.
    pub fn cancel_read(&mut self) -> Wake
        ensures { ControlAnswers self.old CancelRead (Woke result) self.new }
    {
        let before = self.marks;
        let after = Marks {
            read_canceled: true,
            ..before
        };
        self.marks = after;
        after.woken_since(&before)
    }

    /// Ends the pending flush, or the next one if none is pending, as `PipeWriter.CancelPendingFlush` does. A pause goes on.
    pub fn cancel_flush(&mut self) -> Wake
        ensures { ControlAnswers self.old CancelFlush (Woke result) self.new }
    {
        let before = self.marks;
        let after = Marks {
            flush_canceled: true,
            ..before
        };
        self.marks = after;
        after.woken_since(&before)
    }

    // Whether a read for at least `n` bytes would be ready.
    pub(crate) fn is_read_ready(&self, n: u64) -> bool
        ensures told { (h : List Call) → StandsFor self.now h → result ≡ read_is_ready n h }
        ensures unended { result ≡ false → IsNone self.now.ended }
    {
        self.marks.reads_now(n)
    }

    // Whether a lend stands.
    pub(crate) fn is_lending(&self) -> bool
        ensures { result ≡ is_some self.now.lent }
    {
        self.marks.lent.is_some()
    }

    // The total.
    pub fn committed(&self) -> u64
        ensures { result ≡ self.now.committed }
    {
        self.marks.committed
    }

    // How many bytes the reader has given up.
    pub fn consumed(&self) -> u64
        ensures { result ≡ self.now.consumed }
    {
        self.marks.consumed
    }

    // Whether the reader has completed.
    pub(crate) fn is_reader_gone(&self) -> bool
        ensures { result ≡ is_some self.now.gone }
    {
        self.marks.gone.is_some()
    }

    // The length of the lend, 0 where none stands.
    pub(crate) fn lent_len(&self) -> u64
        ensures { result ≡ unwrap_or self.now.lent 0 }
    {
        self.marks.lent.unwrap_or(0)
    }
}
