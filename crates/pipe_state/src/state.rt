//! What the two ends of a pipe share.

ghost use Rattle.std.specs.Prelude.{◌≡◌, ◌≢◌, ◌≤◌, ◌<◌, ◌+◌, ◌^◌, ◌↔◌, ◌∷◌, ◌++◌, List, [], length, max, IsNone, IsSome, IfSome, IsErr, IfErr, IfOk, OnErr, OnOk};
ghost use Rattle.std.specs.Vec.{vec_len, vec_capacity};
ghost use Rattle.pipe_core.specs.History.{Call, Commit, EndWriter, EndReader, Read, Advance, CancelRead, CancelFlush, bytes_of, closing};
ghost use Rattle.pipe_core.specs.Answers.{Flushed, Gave, Woke};
ghost use Rattle.pipe_core.specs.Standing.{AreThresholds, MayAdvance};
ghost use Rattle.pipe_state.specs.Released.{BlockName, bytes_in, names_of};
ghost use Rattle.pipe_state.specs.Segments.{AreOf, AreSized, all_home, reads_none, writes_none};
ghost use Rattle.pipe_state.specs.Lying.{HaveOwnIds};
ghost use Rattle.pipe_state.specs.Sides.{reader_has};
ghost use Rattle.pipe_state.specs.Full.{IsFull};
ghost use Rattle.pipe_state.specs.Held.{AreAll, HeldAnswers, HoldsRuns, Settles, held_made};

use crate::full::Full;
use crate::reading::Reading;
use crate::segments::Segments;
use crate::sides::{ReaderSide, WriterSide};
use crate::writing::Writing;
use ghost_halves::PrivateHalf;
use pipe_core::{Control, FlushReply, ReadReply, TooMuch, Wake};
use seg_block::Block;
use std::alloc::{AllocError, Global};
use std::marker::Model;

/// Marks and flags, and the segments. While the reader attends, it has its part for itself; once it has completed, that lies
/// here, and takes what the writer still commits home.
#[derive(Drop)]
pub struct PipeState {
    control: Control,
    segments: Segments,
    retired: Option<Reading>,
}

impl Model for PipeState {
    ghost use Rattle.pipe_state.specs.Held.{PipeHeld, IsHeld};

    ghost Value = { PipeHeld };

    ghost view = { λ p. record { control = p.control; segments = p.segments } };

    ghost invariant = { λ p. IsHeld (record { control = p.control; segments = p.segments }) p.retired };
}

impl PipeState {
    /// The state of a new pipe of these blocks, all at home, with the thresholds of `Control::new`, and what each end knows of it.
    /// The blocks are moved out of the list, whose room stays. For want of memory, which is the one refusal, the list is as it was.
    pub fn make(
        alloc: Global,
        blocks: &mut Vec<Block>,
        pause: u64,
        resume: u64,
    ) -> Result<(PipeState, PrivateHalf<ReaderSide>, PrivateHalf<WriterSide>), AllocError>
        requires thresholds { AreThresholds pause resume }
        requires own { HaveOwnIds (names_of blocks.old.items) }
        ensures stands { IfOk result (λ made. HoldsRuns made.0 []) }
        ensures thresholds { IfOk result (λ made. (made.0.control.pause ≡ pause) × (made.0.control.resume ≡ resume)) }
        ensures segments { IfOk result (λ made. made.0.segments ≡ all_home (names_of blocks.old.items) made.1.name made.2.name) }
        ensures reader { IfOk result (λ made. made.1.value ≡ reads_none) }
        ensures writer { IfOk result (λ made. made.2.value ≡ writes_none) }
        ensures moved { OnOk result (blocks.new.items ≡ []) }
        ensures capacity { vec_capacity blocks.new ≡ vec_capacity blocks.old }
        ensures unchanged { OnErr result (blocks.new ≡ blocks.old) }
    {
        let (segments, reader, writer) = Segments::make(alloc, blocks)?;
        let state = PipeState {
            control: Control::new(pause, resume),
            segments,
            retired: None,
        };
        Ok((state, reader, writer))
    }

    /// Another segment for the writer, for want of room for `hint` bytes in the one that it fills. How many bytes are free then,
    /// which are all that it has, or what fills the pipe, where no segment is at home. It is no call of the pipe's history.
    pub fn room(&mut self, hint: usize, writing: &mut Writing) -> Result<usize, Full>
        requires pair { writing.old.name ≡ self.old.segments.writer_name }
        requires going { IsNone self.old.control.ended }
        requires short { length writing.old.free < hint }
        requires fits { hint ≤ writing.old.size }
        requires sizes { AreSized writing.old.size self.old.segments.blocks }
        requires count { length self.old.segments.blocks ≡ writing.old.count }
        ensures stands { (h : List Call) → HoldsRuns self.old h → HoldsRuns self.new h }
        ensures made { held_made self.new ≡ held_made self.old }
        ensures control { self.new.control ≡ self.old.control }
        ensures granted { IfOk result (λ n. (n ≡ length writing.new.free) × (n ≡ writing.old.size) × (hint ≤ n)) }
        ensures home { OnOk result (self.old.segments.home ≢ []) }
        ensures writing { OnOk result ((writing.new ≡ record writing.old { free = writing.new.free; has = writing.new.has }) × (writing.new.has.hint ≡ max writing.old.has.hint hint)) }
        ensures full { IfErr result (λ told. IsFull (max writing.old.has.hint hint) told self.old writing.old) }
        ensures unchanged { OnErr result ((self.new ≡ self.old) × (writing.new ≡ writing.old)) }
    {
        match writing.take_next(hint, &mut self.segments) {
            Some(free) => {
                settle(&mut self.retired, &mut self.segments, 0);
                Ok(free)
            }
            None => Err(self.full(hint, writing)),
        }
    }

    // What fills a pipe that has no segment at home.
    fn full(&self, hint: usize, writing: &Writing) -> Full
        requires home { self.now.segments.home ≡ [] }
        requires same { writing.now.has ≡ self.now.segments.writer }
        requires going { IsNone self.now.control.ended }
        requires short { length writing.now.free < hint }
        requires fits { hint ≤ writing.now.size }
        requires sizes { AreSized writing.now.size self.now.segments.blocks }
        requires count { length self.now.segments.blocks ≡ writing.now.count }
        ensures { IsFull (max writing.now.has.hint hint) result self.now writing.now }
    {
        self.segments.order();
        writing.take_up(hint, &self.segments);
        let unfinished = writing.unfinished_len();
        let finished = self.segments.count() - unfinished;
        let reader = finished.min(self.segments.fetched_len());
        Full {
            writer: unfinished,
            waiting: finished - reader,
            reader,
        }
    }

    /// Commits the draft. Once the reader has completed it goes home with its segments, but for the one that is still filled. After TooMuch all is as it was.
    pub fn commit(&mut self, writing: &mut Writing) -> Result<(FlushReply, Wake), TooMuch>
        requires pair { writing.old.name ≡ self.old.segments.writer_name }
        requires going { IsNone self.old.control.ended }
        ensures too_much { IsErr result ↔
            (IsNone self.old.control.gone × 2 ^ 62 < self.old.control.committed + length (bytes_of writing.old.draft)) }
        ensures told_total { IfErr result (λ refused. refused.total ≡ self.old.control.committed) }
        ensures unchanged { OnErr result ((self.new ≡ self.old) × (writing.new ≡ writing.old)) }
        ensures answers { IfOk result (λ answer. HeldAnswers self.old (Commit writing.old.draft ∷ []) (Flushed answer.0 answer.1) self.new) }
        ensures writing { OnOk result (writing.new ≡ record writing.old { draft = []; has = writing.new.has }) }
        ensures hint { writing.new.has.hint ≡ writing.old.has.hint }
    {
        writing.is_full();
        let drafted = writing.draft_len();
        match self.control.commit(drafted) {
            Ok(answer) => {
                writing.commit(&mut self.segments);
                settle(&mut self.retired, &mut self.segments, drafted as usize);
                Ok(answer)
            }
            Err(refused) => Err(refused),
        }
    }

    /// Commits the draft, if there is one, and completes the writer with a code. After TooMuch all is as it was, and the writer's
    /// part comes back.
    pub fn complete(&mut self, writing: Writing, code: u32) -> Result<Wake, (Writing, TooMuch)>
        requires pair { writing.name ≡ self.old.segments.writer_name }
        requires going { IsNone self.old.control.ended }
        ensures too_much { IsErr result ↔
            (IsNone self.old.control.gone × 2 ^ 62 < self.old.control.committed + length (bytes_of writing.draft)) }
        ensures back { IfErr result (λ back. (back.0 ≡ writing) × (back.1.total ≡ self.old.control.committed)) }
        ensures unchanged { OnErr result (self.new ≡ self.old) }
        ensures answers { IfOk result (λ wake. HeldAnswers self.old (closing writing.draft code) (Woke wake) self.new) }
    {
        let mut writing = writing;
        let _ = &self.segments;
        writing.is_full();
        if writing.draft_len() == 0 {
            return Ok(self.end(writing, code));
        }
        match self.commit(&mut writing) {
            Ok((_, first)) => {
                let second = self.end(writing, code);
                Ok(second.or(first))
            }
            Err(refused) => Err((writing, refused)),
        }
    }

    // Completes a writer that has no draft.
    fn end(&mut self, writing: Writing, code: u32) -> Wake
        requires pair { writing.name ≡ self.old.segments.writer_name }
        requires going { IsNone self.old.control.ended }
        requires settled { writing.draft ≡ [] }
        ensures { HeldAnswers self.old (EndWriter code ∷ []) (Woke result) self.new }
    {
        let wake = self.control.end_writer(code);
        self.segments.order();
        writing.complete(&mut self.segments);
        settle(&mut self.retired, &mut self.segments, 0);
        wake
    }

    /// Reads for at least `n` bytes, and gets the reader all that was committed. No byte moves.
    pub fn read_at_least(&mut self, n: u64, reading: &mut Reading) -> (ReadReply, Wake)
        requires bound { n ≤ 2 ^ 62 }
        requires pair { reading.old.half.name ≡ self.old.segments.reader_name }
        requires room { length self.old.segments.blocks ≤ reading.old.chain.capacity }
        requires attended { IsNone self.old.control.gone }
        requires no_lend { IsNone self.old.control.lent }
        ensures answers { HeldAnswers self.old (Read n ∷ []) (Gave result.0 result.1) self.new }
        ensures chain { reader_has reading.new.chain ≡ self.new.segments.reader }
        ensures fetched { self.new.segments.reader.segments ≡ self.new.segments.live }
        ensures blocks { AreOf self.new.segments.blocks self.new.segments.reader.segments }
        ensures pair { reading.new.half.name ≡ self.new.segments.reader_name }
        ensures capacity { reading.new.chain.capacity ≡ reading.old.chain.capacity }
    {
        let answer = self.control.read_at_least(n);
        self.segments.fetch(reading);
        self.segments.reader_blocks();
        answer
    }

    /// Gives up the first `c` of the lent bytes, tells that the first `e` of them were examined, and ends the lend. The segments
    /// that are finished, and of which all is given up, go home.
    pub fn advance(&mut self, c: u64, e: u64, reading: &mut Reading) -> Wake
        requires pair { reading.old.half.name ≡ self.old.segments.reader_name }
        requires lent { MayAdvance self.old.control.lent c e }
        ensures answers { HeldAnswers self.old (Advance c e ∷ []) (Woke result) self.new }
        ensures blocks { AreOf self.new.segments.blocks self.new.segments.reader.segments }
        ensures chain { reader_has reading.new.chain ≡ self.new.segments.reader }
        ensures pair { reading.new.half.name ≡ self.new.segments.reader_name }
        ensures capacity { reading.new.chain.capacity ≡ reading.old.chain.capacity }
    {
        let wake = self.control.advance(c, e);
        self.segments.agree_reader(reading);
        self.segments.release(c as usize, reading);
        self.segments.reader_blocks();
        wake
    }

    /// Completes the reader with a code. A lend ends, what was committed is given up, and the segments that are finished go home.
    /// The reader's part stays here.
    pub fn end_reader(&mut self, reading: Reading, code: u32) -> Wake
        requires pair { reading.half.name ≡ self.old.segments.reader_name }
        requires room { length self.old.segments.blocks ≤ reading.chain.capacity }
        requires attended { IsNone self.old.control.gone }
        ensures { HeldAnswers self.old (EndReader code ∷ []) (Woke result) self.new }
    {
        let mut reading = reading;
        let held = self.control.committed() - self.control.consumed();
        let wake = self.control.end_reader(code);
        self.segments.fetch(&mut reading);
        self.segments.release(held as usize, &mut reading);
        self.retired = Some(reading);
        wake
    }

    /// How many bytes were committed before the reader completed, and how many of them it consumed. All blocks go behind those in
    /// the list, which has room for them.
    pub fn close(self, list: &mut Vec<Block>) -> (u64, u64)
        requires writer { IsSome self.control.ended }
        requires reader { IsSome self.control.gone }
        requires room { vec_len list.old + length self.segments.blocks ≤ vec_capacity list.old }
        ensures committed { result.0 ≡ self.control.committed }
        ensures consumed { result.1 ≡ self.control.consumed }
        ensures blocks { (home : List BlockName) × (names_of list.new.items ≡ names_of list.old.items ++ home) × AreAll home self.segments.blocks }
    {
        self.segments.order();
        let carried = (self.control.committed(), self.control.consumed());
        self.segments.into_blocks(list);
        carried
    }

    /// The blocks that are at home, put behind those in the list, which has room for them.
    pub fn into_blocks(self, list: &mut Vec<Block>)
        requires room { vec_len list.old + length self.segments.home ≤ vec_capacity list.old }
        ensures blocks { names_of list.new.items ≡ names_of list.old.items ++ self.segments.home }
    {
        self.segments.into_blocks(list);
    }

    /// Cancels the pending read, or the next one.
    pub fn cancel_read(&mut self) -> Wake
        ensures { HeldAnswers self.old (CancelRead ∷ []) (Woke result) self.new }
    {
        self.control.cancel_read()
    }

    /// Cancels the pending flush, or the next one.
    pub fn cancel_flush(&mut self) -> Wake
        ensures { HeldAnswers self.old (CancelFlush ∷ []) (Woke result) self.new }
    {
        self.control.cancel_flush()
    }
}

// The part of a reader that has completed takes all that was sent to it, and gives up `n` bytes more.
fn settle(retired: &mut Option<Reading>, segments: &mut Segments, n: usize)
    requires kept { IfSome retired.old (λ reading. (reading.half.name ≡ segments.old.reader_name) × (length segments.old.blocks ≤ reading.chain.capacity)) }
    requires within { IsSome retired.old → segments.old.reader.skip + n ≤ length (bytes_in segments.old.live) }
    ensures { Settles n retired.old segments.old retired.new segments.new }
{
    match retired {
        Some(reading) => {
            segments.fetch(reading);
            segments.release(n, reading);
        }
        None => {}
    }
}
