//! A pipe over one buffer, for one thread.

ghost use Rattle.std.specs.Prelude.{◌≡◌, ◌+◌, ◌^◌, ◌<◌, ◌≤◌, ◌↔◌, ℕ, List, [], ◌∷◌, length, take, is_some, unwrap_or, false, IsNone, IsSome, Some, IsErr, IfErr, IfOk, OnErr, OnOk};
ghost use Rattle.std.specs.Borrow.{sem};
ghost use Rattle.pipe_core.specs.History.{Run, Call, Commit, Read, Advance, EndReader, CancelRead, CancelFlush, bytes_of, closing, AreRunsOf};
ghost use Rattle.pipe_core.specs.Reads.{read_is_ready};
ghost use Rattle.pipe_core.specs.Lends.{lend};
ghost use Rattle.pipe_core.specs.Answers.{Flushed, Gave, Woke};
ghost use Rattle.pipe_core.specs.Standing.{AreThresholds, MayAdvance};
ghost use Rattle.pipe_core.specs.Bytes.{capacity_of, with_draft};
ghost use Rattle.pipe_core.specs.Pipe.{HoldsFor, PipeAnswers};
ghost use Rattle.pipe_core.specs.Lending.{LendsSpare};

use crate::buffer::Buffer;
use crate::control::Control;
use crate::reply::{FlushReply, ReadReply, TooMuch, Wake};
use std::alloc::{AllocError, Global};
use std::marker::Model;

/// A pipe over one buffer, for one thread: `System.IO.Pipelines.Pipe` with both ends in one value.
///
/// The writer writes into `spare_mut`, tells by `advance_draft` how much, and makes it visible by `flush`. The reader
/// reads, looks at `lent`, and says by `advance` what it consumed and how far it looked. No call waits or takes memory
/// but `make`, and none but `advance` and `end_reader` moves a byte: each moves no byte that was moved before.
#[derive(Debug, Drop)]
pub struct PlainPipe {
    control: Control,
    pub(crate) buffer: Buffer,
}

// Clauses see the marks and the parts of the buffer. A pipe always stands for some history of calls.
impl Model for PlainPipe {
    ghost use Rattle.std.specs.Prelude.{List};
    ghost use Rattle.pipe_core.specs.History.{Call};
    ghost use Rattle.pipe_core.specs.Pipe.{Pipe, HoldsFor};

    ghost Value = { Pipe };

    ghost view = { λ p. record { control = p.control; bytes = p.buffer } };

    ghost invariant = { λ p. (h : List Call) × HoldsFor (record { control = p.control; bytes = p.buffer }) h };
}

impl PlainPipe {
    /// An empty pipe for at most `capacity` bytes, draft included, with the thresholds of `Control::new`. It takes room
    /// for twice as many, once and for all; want of memory is the one refusal.
    pub fn make(
        alloc: Global,
        capacity: usize,
        pause: u64,
        resume: u64,
    ) -> Result<PlainPipe, AllocError>
        requires { AreThresholds pause resume }
        ensures pause { IfOk result (λ pipe. pipe.control.pause ≡ pause) }
        ensures resume { IfOk result (λ pipe. pipe.control.resume ≡ resume) }
        ensures stands { IfOk result (λ pipe. HoldsFor pipe []) }
        ensures draft { IfOk result (λ pipe. pipe.bytes.draft ≡ []) }
        ensures free { IfOk result (λ pipe. length pipe.bytes.free ≡ capacity) }
    {
        let buffer = Buffer::make(alloc, capacity)?;
        Ok(PlainPipe {
            control: Control::new(pause, resume),
            buffer,
        })
    }

    /// How many bytes the pipe has room for: those that are committed and not consumed (none once the reader has
    /// completed), the draft, and the free part.
    pub fn capacity(&self) -> usize
        ensures { result ≡ capacity_of self.now.bytes }
    {
        self.buffer.capacity()
    }

    /// How long the free part is, in bytes.
    pub fn room(&self) -> usize
        ensures { result ≡ length self.now.bytes.free }
    {
        self.buffer.free_len()
    }

    /// How many bytes are committed and not consumed: none once the reader has completed.
    pub fn held_len(&self) -> usize
        ensures { result ≡ length self.now.bytes.held }
    {
        self.buffer.held().len()
    }

    /// The total: how many bytes were committed before the reader completed.
    pub fn committed(&self) -> u64
        ensures { result ≡ self.now.control.committed }
    {
        self.control.committed()
    }

    /// How many bytes the reader has consumed.
    pub fn consumed(&self) -> u64
        ensures { result ≡ self.now.control.consumed }
    {
        self.control.consumed()
    }

    /// The free part behind the draft, as `PipeWriter.GetMemory` gives it, all of it in one piece. Its length is always the
    /// capacity less the draft, and less what is committed and not consumed. What was written to it stays there until
    /// the next `advance`, `end_reader`, `flush` or `end_writer`.
    pub fn spare_mut(&mut self) -> &mut [u8]
        ensures* lends { sem 𝓛 (LendsSpare self.entry result) }
        ensures value { result.now ≡ self.old.bytes.free }
    {
        self.buffer.free_mut()
    }

    /// The first `n` bytes of the free part, for a writer that was granted no more.
    pub fn spare_front_mut(&mut self, n: usize) -> &mut [u8]
        requires { n ≤ length self.old.bytes.free }
        ensures* lends { sem 𝓛 (LendsSpare self.entry result) }
        ensures value { result.now ≡ take n self.old.bytes.free }
    {
        self.buffer.free_front_mut(n)
    }

    /// Takes the first `n` bytes of the free part to the end of the draft, as `PipeWriter.Advance` does.
    pub fn advance_draft(&mut self, n: usize)
        requires { n ≤ length self.old.bytes.free }
        ensures { self.new ≡ record self.old { bytes = with_draft self.old.bytes n } }
    {
        self.buffer.extend_draft(n);
    }

    /// Commits the draft, as `PipeWriter.FlushAsync` does, and answers as `Control::commit` does. Once the reader has
    /// completed the draft is dropped. After TooMuch the pipe is as it was, draft included.
    pub fn flush(&mut self) -> Result<(FlushReply, Wake), TooMuch>
        requires { IsNone self.old.control.ended }
        ensures too_much { IsErr result ↔
            (IsNone self.old.control.gone × 2 ^ 62 < self.old.control.committed + length self.old.bytes.draft) }
        ensures told_total { IfErr result (λ refused. refused.total ≡ self.old.control.committed) }
        ensures unchanged { OnErr result (self.new ≡ self.old) }
        ensures answers { IfOk result (λ answer. (runs : List Run) → bytes_of runs ≡ self.old.bytes.draft →
            PipeAnswers self.old (Commit runs ∷ []) (Flushed answer.0 answer.1) self.new) }
        ensures draft { OnOk result (self.new.bytes.draft ≡ []) }
    {
        let dropped = self.control.is_reader_gone();
        let answer = self.control.commit(self.buffer.draft_len() as u64)?;
        self.buffer.settle_draft(dropped);
        Ok(answer)
    }

    /// Whether a read for at least `n` bytes would be answered Ready. It is no call of the pipe's history.
    pub fn is_read_ready(&self, n: u64) -> bool
        ensures told { (h : List Call) → HoldsFor self.now h → result ≡ read_is_ready n h }
        ensures unended { result ≡ false → IsNone self.now.control.ended }
    {
        self.control.is_read_ready(n)
    }

    /// Lends all that is committed and not consumed, as `Control::read` answers. The bytes stay where they are.
    pub fn read(&mut self) -> (ReadReply, Wake)
        requires attended { IsNone self.old.control.gone }
        requires no_lend { IsNone self.old.control.lent }
        ensures answers { PipeAnswers self.old (Read 0 ∷ []) (Gave result.0 result.1) self.new }
        ensures bytes { self.new.bytes ≡ self.old.bytes }
    {
        self.read_at_least(0)
    }

    /// The same for at least `n` bytes, as `Control::read_at_least` answers. A read for more than the pipe has room for is
    /// Ready only once the writer has completed, or by a cancellation.
    pub fn read_at_least(&mut self, n: u64) -> (ReadReply, Wake)
        requires bound { n ≤ 2 ^ 62 }
        requires attended { IsNone self.old.control.gone }
        requires no_lend { IsNone self.old.control.lent }
        ensures answers { PipeAnswers self.old (Read n ∷ []) (Gave result.0 result.1) self.new }
        ensures bytes { self.new.bytes ≡ self.old.bytes }
    {
        self.control.read_at_least(n)
    }

    /// Whether a lend stands.
    pub fn is_lending(&self) -> bool
        ensures { result ≡ is_some self.now.control.lent }
    {
        self.control.is_lending()
    }

    /// The bytes that the last read lent, in place: `ReadResult.Buffer`. What was committed since is not among them. Where no
    /// lend stands there are none.
    pub fn lent(&self) -> &[u8]
        ensures front { result.now ≡ take (unwrap_or self.now.control.lent 0) self.now.bytes.held }
        ensures bytes { (h : List Call) → HoldsFor self.now h → IsSome self.now.control.lent → lend h ≡ Some result.now }
        ensures len { length result.now ≡ unwrap_or self.now.control.lent 0 }
    {
        let len = self.control.lent_len() as usize;
        &self.buffer.held()[..len]
    }

    /// Gives up the first `c` of the lent bytes, tells that the first `e` of them were examined, and ends the lend, as
    /// `PipeReader.AdvanceTo` does. The draft stays; what the free part holds does not.
    pub fn advance(&mut self, c: u64, e: u64) -> Wake
        requires { MayAdvance self.old.control.lent c e }
        ensures answers { PipeAnswers self.old (Advance c e ∷ []) (Woke result) self.new }
        ensures draft { self.new.bytes.draft ≡ self.old.bytes.draft }
    {
        let wake = self.control.advance(c, e);
        self.buffer.release(c as usize);
        wake
    }

    /// Copies these bytes behind what is committed and commits them, as `PipeWriter.WriteAsync` does, where nothing is
    /// drafted. It answers as `flush` does. Once the reader has completed the bytes are dropped, and not copied.
    pub fn write(&mut self, bytes: &[u8]) -> Result<(FlushReply, Wake), TooMuch>
        requires open { IsNone self.old.control.ended }
        requires no_draft { self.old.bytes.draft ≡ [] }
        requires room { length bytes.now ≤ length self.old.bytes.free }
        ensures too_much { IsErr result ↔
            (IsNone self.old.control.gone × 2 ^ 62 < self.old.control.committed + length bytes.now) }
        ensures told_total { IfErr result (λ refused. refused.total ≡ self.old.control.committed) }
        ensures unchanged { OnErr result (self.new ≡ self.old) }
        ensures answers { IfOk result (λ answer. (runs : List Run) → bytes_of runs ≡ bytes.now →
            PipeAnswers self.old (Commit runs ∷ []) (Flushed answer.0 answer.1) self.new) }
        ensures draft { self.new.bytes.draft ≡ [] }
    {
        let dropped = self.control.is_reader_gone();
        let answer = self.control.commit(bytes.len() as u64)?;
        self.buffer.commit(bytes, dropped);
        Ok(answer)
    }

    /// Commits these bytes as `write` does, if there are any, and completes the writer with a code. After TooMuch the pipe
    /// is as it was: neither committed nor completed.
    pub fn write_last(&mut self, bytes: &[u8], code: u32) -> Result<Wake, TooMuch>
        requires open { IsNone self.old.control.ended }
        requires no_draft { self.old.bytes.draft ≡ [] }
        requires room { length bytes.now ≤ length self.old.bytes.free }
        ensures too_much { IsErr result ↔
            (IsNone self.old.control.gone × 2 ^ 62 < self.old.control.committed + length bytes.now) }
        ensures told_total { IfErr result (λ refused. refused.total ≡ self.old.control.committed) }
        ensures unchanged { OnErr result (self.new ≡ self.old) }
        ensures answers { IfOk result (λ wake. (runs : List Run) → AreRunsOf runs bytes.now →
            PipeAnswers self.old (closing runs code) (Woke wake) self.new) }
        ensures draft { self.new.bytes.draft ≡ [] }
    {
        if bytes.len() == 0 {
            return Ok(self.control.end_writer(code));
        }
        let (_, first) = self.write(bytes)?;
        let second = self.control.end_writer(code);
        Ok(second.or(first))
    }

    /// Commits the draft, if there is one, and completes the writer with a code, as `PipeWriter.Complete` does. After
    /// TooMuch, which comes as with `flush`, the pipe is as it was: neither committed nor completed.
    pub fn end_writer(&mut self, code: u32) -> Result<Wake, TooMuch>
        requires { IsNone self.old.control.ended }
        ensures too_much { IsErr result ↔
            (IsNone self.old.control.gone × 2 ^ 62 < self.old.control.committed + length self.old.bytes.draft) }
        ensures told_total { IfErr result (λ refused. refused.total ≡ self.old.control.committed) }
        ensures unchanged { OnErr result (self.new ≡ self.old) }
        ensures answers { IfOk result (λ wake. (runs : List Run) → AreRunsOf runs self.old.bytes.draft →
            PipeAnswers self.old (closing runs code) (Woke wake) self.new) }
        ensures draft { OnOk result (self.new.bytes.draft ≡ []) }
    {
        if self.buffer.draft_len() == 0 {
            return Ok(self.control.end_writer(code));
        }
        let (_, first) = self.flush()?;
        let second = self.control.end_writer(code);
        Ok(second.or(first))
    }

    /// Completes the reader with a code, as `PipeReader.Complete` does. A lend ends, and what was committed is given up.
    pub fn end_reader(&mut self, code: u32) -> Wake
        requires { IsNone self.old.control.gone }
        ensures answers { PipeAnswers self.old (EndReader code ∷ []) (Woke result) self.new }
        ensures draft { self.new.bytes.draft ≡ self.old.bytes.draft }
    {
        self.buffer.release_all();
        self.control.end_reader(code)
    }

    /// Ends the pending read or the next one, as `Control::cancel_read` does. Bytes, draft and lend stay.
    pub fn cancel_read(&mut self) -> Wake
        ensures answers { PipeAnswers self.old (CancelRead ∷ []) (Woke result) self.new }
        ensures bytes { self.new.bytes ≡ self.old.bytes }
    {
        self.control.cancel_read()
    }

    /// Ends the pending flush or the next one, as `Control::cancel_flush` does. Bytes, draft and pause stay.
    pub fn cancel_flush(&mut self) -> Wake
        ensures answers { PipeAnswers self.old (CancelFlush ∷ []) (Woke result) self.new }
        ensures bytes { self.new.bytes ≡ self.old.bytes }
    {
        self.control.cancel_flush()
    }
}
