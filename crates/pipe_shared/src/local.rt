//! The pipe for one thread.

ghost use Rattle.std.specs.Prelude.{◌≡◌, ◌+◌, ◌^◌, ◌<◌, ◌≤◌, ◌↔◌, ◌++◌, List, [], ◌∷◌, length, take, drop, max, true, Some, None, IsSome, IsNone, IsErr, IfSome, IfOk, IfErr, OnOk, OnErr};
ghost use Rattle.std.specs.Borrow.{sem};
ghost use Rattle.span_seq.specs.Sequence.{bytes, part};
ghost use Rattle.span_seq.specs.Spans.{whole_of};
ghost use Rattle.pipe_core.specs.History.{Call, Commit, Read, Advance, EndReader, bytes_of, closing};
ghost use Rattle.pipe_core.specs.Lends.{lend};
ghost use Rattle.pipe_core.specs.Answers.{Flushed, Gave, Woke};
ghost use Rattle.pipe_core.specs.Standing.{MayAdvance};
ghost use Rattle.pipe_state.specs.Held.{HoldsRuns};
ghost use Rattle.pipe_state.specs.Options.{first_bad};
ghost use Rattle.pipe_state.specs.Released.{names_of};
ghost use Rattle.pipe_state.specs.Chains.{spans_of};
ghost use Rattle.pipe_state.specs.Fetched.{all_fetched};
ghost use Rattle.pipe_state.specs.Segments.{AreOf, AreSized};
ghost use Rattle.pipe_state.specs.Sides.{reader_has};
ghost use Rattle.pipe_state.specs.Lying.{HaveOwnIds};
ghost use Rattle.pipe_turns.specs.Lends.{lend_runs, runs_in};
ghost use Rattle.pipe_shared.specs.Made.{RefusesOptions};
ghost use Rattle.pipe_shared.specs.Local.{LocalKeeps, LocalAnswers, LocalGrants, LocalRefuses, LocalCloses};
ghost use Rattle.pipe_shared.specs.LocalLending.{LendsLocal};

use crate::faults::LocalRoomFault;
use crate::local_writer::LocalWriter;
use crate::options::{MakeError, MakeRefused};
use crate::parts::Parts;
use crate::pipe::Closed;
use core::mem::replace;
use pipe_core::{FlushReply, ReadReply, TooMuch, Wake};
use pipe_state::{Chain, Options, PipeState, Reading};
use seg_block::Block;
use span_seq::Sequence;
use std::alloc::Global;
use std::marker::Model;

/// A byte pipe for one thread, with the options and the answers of a `Pipe`: .NET's `Pipe` where reader and writer take
/// turns. It has both ends in one value, and no turn, so no call is Busy or Worn. No call waits, none but `make` takes
/// memory, and no byte is copied. A refused call leaves it as it was.
#[derive(Drop)]
pub struct LocalPipe {
    state: PipeState,
    writer: LocalWriter,
    reading: Option<Reading>,
    pub(crate) options: Options,
    // The empty list that the blocks came in, and will leave in.
    list: Vec<Block>,
}

impl Model for LocalPipe {
    ghost use Rattle.pipe_shared.specs.Local.{Local, local_of, IsLocal};

    ghost Value = { Local };

    ghost view = { λ p. local_of p.options p.state p.writer p.reading };

    ghost invariant = { λ p. IsLocal p.options p.state p.writer p.reading p.list };
}

impl LocalPipe {
    /// An empty pipe with these options over these blocks. All its memory but the blocks is taken here: three rings, each
    /// with a place for every block.
    pub fn make(
        alloc: Global,
        options: Options,
        blocks: Vec<Block>,
    ) -> Result<LocalPipe, MakeRefused>
        requires count { length blocks.items ≡ options.segments }
        requires sized { AreSized options.segment (names_of blocks.items) }
        requires own { HaveOwnIds (names_of blocks.items) }
        ensures good { IfOk result (λ pipe. first_bad options ≡ None) }
        ensures refused { IfErr result (λ refused. RefusesOptions options refused.error) }
        ensures back { IfErr result (λ refused. names_of refused.blocks.items ≡ names_of blocks.items) }
        ensures options { IfOk result (λ pipe. pipe.options ≡ options) }
        ensures blocks { IfOk result (λ pipe. pipe.pipe.segments.blocks ≡ names_of blocks.items) }
        ensures keeps { IfOk result (λ pipe. LocalKeeps pipe []) }
        ensures nothing { IfOk result (λ pipe. (pipe.draft ≡ []) × (pipe.free ≡ []) × (pipe.hint ≡ 0)) }
    {
        if let Some((field, number)) = options.first_bad() {
            return Err(MakeRefused {
                error: MakeError::BadOptions { field, number },
                blocks,
            });
        }
        match Parts::make(alloc, options, blocks) {
            Ok(parts) => Ok(LocalPipe {
                state: parts.pipe,
                writer: LocalWriter::Going(parts.writing),
                reading: Some(parts.reading),
                options,
                list: parts.list,
            }),
            Err(blocks) => Err(MakeRefused {
                error: MakeError::OutOfMemory,
                blocks,
            }),
        }
    }

    /// Grants a free part of at least `hint` bytes, and tells its length, as `Pipe::try_room` does.
    pub fn room(&mut self, hint: usize) -> Result<usize, LocalRoomFault>
        requires { IsNone self.old.pipe.control.ended }
        ensures granted { IfOk result (λ n. LocalGrants (max hint 1) n self.old self.new) }
        ensures refused { IfErr result (λ fault. LocalRefuses (max hint 1) fault self.old) }
        ensures unchanged { OnErr result (self.new ≡ self.old) }
    {
        let hint = hint.max(1);
        let segment = self.options.segment;
        if hint > segment {
            return Err(LocalRoomFault::TooLarge { hint, segment });
        }
        let LocalWriter::Going(writing) = &mut self.writer else {
            unreachable!()
        };
        let free = writing.free_len();
        if hint <= free {
            return Ok(free);
        }
        match self.state.room(hint, writing) {
            Ok(granted) => Ok(granted),
            Err(full) => Err(LocalRoomFault::Full(full)),
        }
    }

    /// The free part that was granted, in the segment itself, as `PipeWriter.GetMemory` gives it: empty where there is none,
    /// as after the writer has completed. What it holds isn't specified.
    pub fn spare_mut(&mut self) -> &mut [u8]
        ensures* lends { sem 𝓛 (LendsLocal self.entry result) }
        ensures value { result.now ≡ self.old.free }
    {
        self.writer.spare_mut()
    }

    /// Takes the first `n` bytes of the free part to the end of the draft, as `PipeWriter.Advance` does.
    pub fn advance_draft(&mut self, n: usize)
        requires { n ≤ length self.old.free }
        ensures draft { bytes_of self.new.draft ≡ bytes_of self.old.draft ++ take n self.old.free }
        ensures free { self.new.free ≡ drop n self.old.free }
        ensures others { self.new ≡ record self.old { draft = self.new.draft; free = self.new.free } }
    {
        match &mut self.writer {
            LocalWriter::Going(writing) => writing.advance(n),
            LocalWriter::Completed(_) => {}
        }
    }

    /// Commits the draft, as `PipeWriter.FlushAsync` does without waiting. A flush of nothing asks again whether the
    /// writer may go on. The free part stays.
    pub fn flush(&mut self) -> Result<(FlushReply, Wake), TooMuch>
        requires { IsNone self.old.pipe.control.ended }
        ensures too_much { IsErr result ↔
            (IsNone self.old.pipe.control.gone × 2 ^ 62 < self.old.pipe.control.committed + length (bytes_of self.old.draft)) }
        ensures told_total { IfErr result (λ refused. refused.total ≡ self.old.pipe.control.committed) }
        ensures unchanged { OnErr result (self.new ≡ self.old) }
        ensures answers { IfOk result (λ answer. LocalAnswers self.old (Commit self.old.draft ∷ []) (Flushed answer.0 answer.1) self.new) }
        ensures draft { OnOk result (self.new.draft ≡ []) }
        ensures free { self.new.free ≡ self.old.free }
        ensures hint { self.new.hint ≡ self.old.hint }
    {
        match &mut self.writer {
            LocalWriter::Going(writing) => self.state.commit(writing),
            LocalWriter::Completed(_) => unreachable!(),
        }
    }

    /// Lends all that is committed and not consumed, in place, as `PipeReader.ReadAsync` does without waiting.
    pub fn read(&mut self) -> (ReadReply, Wake)
        requires attended { IsNone self.old.pipe.control.gone }
        requires no_lend { IsNone self.old.pipe.control.lent }
        ensures answers { LocalAnswers self.old (Read 0 ∷ []) (Gave result.0 result.1) self.new }
        ensures writer { self.new ≡ record self.old { pipe = self.new.pipe; chain = self.new.chain } }
    {
        self.read_at_least(0)
    }

    /// The same for at least `n` bytes, as `PipeReader.ReadAtLeastAsync(minimumSize)` does without waiting. Pending also where
    /// fewer are committed and not consumed. A read for 1 byte or more that is answered Pending ends a pause, and none
    /// begins while it waits; one for 0 is `read`.
    pub fn read_at_least(&mut self, n: u64) -> (ReadReply, Wake)
        requires bound { n ≤ 2 ^ 62 }
        requires attended { IsNone self.old.pipe.control.gone }
        requires no_lend { IsNone self.old.pipe.control.lent }
        ensures answers { LocalAnswers self.old (Read n ∷ []) (Gave result.0 result.1) self.new }
        ensures writer { self.new ≡ record self.old { pipe = self.new.pipe; chain = self.new.chain } }
    {
        match &mut self.reading {
            Some(reading) => self.state.read_at_least(n, reading),
            None => unreachable!(),
        }
    }

    /// The bytes that the last read lent, in the segments in which they were written: `ReadResult.Buffer`. What was committed
    /// since is not among them.
    pub fn lent(&self) -> Sequence<'_, Chain>
        requires { IsSome self.now.pipe.control.lent }
        ensures bytes { (h : List Call) → HoldsRuns self.now.pipe h → lend h ≡ Some (bytes result) }
        ensures len { self.now.pipe.control.lent ≡ Some (length (bytes result)) }
        ensures whole { IfSome self.now.chain (λ chain. part result ≡ whole_of (spans_of chain.skip (all_fetched chain.links))) }
    {
        match &self.reading {
            Some(reading) => reading.chain.whole(),
            None => unreachable!(),
        }
    }

    /// The segments in which these bytes lie: span by span, those of `lent`. They are of the pipe's blocks, and what is lent
    /// by some history that the pipe stands for are their runs.
    pub fn chain(&self) -> &Chain
        requires { IsSome self.now.pipe.control.lent }
        ensures chain { self.now.chain ≡ Some result.now }
        ensures runs { (h : List Call) × HoldsRuns self.now.pipe h × (lend_runs h ≡ runs_in true (reader_has result.now)) }
        ensures blocks { AreOf self.now.pipe.segments.blocks (all_fetched result.now.links) }
    {
        match &self.reading {
            Some(reading) => &reading.chain,
            None => unreachable!(),
        }
    }

    /// Gives up the first `c` of the lent bytes, tells that the first `e` of them were examined, and ends the lend, as
    /// `PipeReader.AdvanceTo(consumed, examined)` does. The draft stays, and the free part.
    pub fn advance(&mut self, c: u64, e: u64) -> Wake
        requires { MayAdvance self.old.pipe.control.lent c e }
        ensures answers { LocalAnswers self.old (Advance c e ∷ []) (Woke result) self.new }
        ensures writer { self.new ≡ record self.old { pipe = self.new.pipe; chain = self.new.chain } }
    {
        match &mut self.reading {
            Some(reading) => self.state.advance(c, e, reading),
            None => unreachable!(),
        }
    }

    /// Commits the draft, if there is one, and completes the writer with a code, 0 for success, as `PipeWriter.Complete`
    /// does. No free part is left. After TooMuch the pipe is as it was.
    pub fn end_writer(&mut self, code: u32) -> Result<Wake, TooMuch>
        requires { IsNone self.old.pipe.control.ended }
        ensures too_much { IsErr result ↔
            (IsNone self.old.pipe.control.gone × 2 ^ 62 < self.old.pipe.control.committed + length (bytes_of self.old.draft)) }
        ensures told_total { IfErr result (λ refused. refused.total ≡ self.old.pipe.control.committed) }
        ensures unchanged { OnErr result (self.new ≡ self.old) }
        ensures answers { IfOk result (λ wake. LocalAnswers self.old (closing self.old.draft code) (Woke wake) self.new) }
        ensures nothing { OnOk result ((self.new.draft ≡ []) × (self.new.free ≡ []) × (self.new.hint ≡ 0)) }
    {
        let none = LocalWriter::Completed(Vec::new(*self.list.allocator()));
        let LocalWriter::Going(writing) = replace(&mut self.writer, none) else {
            unreachable!()
        };
        match self.state.complete(writing, code) {
            Ok(wake) => Ok(wake),
            Err((writing, refused)) => {
                self.writer = LocalWriter::Going(writing);
                Err(refused)
            }
        }
    }

    /// Completes the reader with a code, 0 for success, as `PipeReader.Complete` does. A lend ends, and what was committed
    /// is given up. The draft stays, and the free part.
    pub fn end_reader(&mut self, code: u32) -> Wake
        requires { IsNone self.old.pipe.control.gone }
        ensures answers { LocalAnswers self.old (EndReader code ∷ []) (Woke result) self.new }
        ensures writer { self.new ≡ record self.old { pipe = self.new.pipe; chain = self.new.chain } }
    {
        let Some(reading) = self.reading.take() else {
            unreachable!()
        };
        self.state.end_reader(reading, code)
    }

    /// What the pipe has carried, once both its ends have completed, and all its blocks.
    pub fn close(self) -> Closed
        requires writer { IsSome self.pipe.control.ended }
        requires reader { IsSome self.pipe.control.gone }
        ensures { LocalCloses self result }
    {
        let LocalPipe { state, list, .. } = self;
        let mut blocks = list;
        let (committed, consumed) = state.close(&mut blocks);
        Closed {
            committed,
            consumed,
            blocks,
        }
    }
}
