//! The filler of a pipe that two threads use.

ghost use Rattle.std.specs.Prelude.{◌≡◌, ◌≤◌, ◌^◌, [], false, true, length, None, Some, IfOk};
ghost use Rattle.turn_cell.specs.Seat.{IsIdle};
ghost use Rattle.pipe_turns.specs.Ends.{IsEnd};
ghost use Rattle.relay_engine.specs.Filler.{fill_code};
ghost use Rattle.relay_engine.specs.Filling.{FillsOn, HasTaken, owes};
ghost use Rattle.relay_engine.specs.WriterEnds.{FindsNoRoom, HasWritten, IsOthers, RefusesWriter, drafting};
ghost use Rattle.relay_engine.specs.PipeFiller.{Closes, CompletesBy, IfAnswered, IsUnused, MayClose, OwesBy, SpendsBy, StepsOn, TakesOrEnds, all_of, closed_as, filling_of, is_closed, is_done, seen_by, writer_in};
ghost use Rattle.relay_engine.specs.declared.pipe_filler.FillerEnd.TheVariants.{Open};

use crate::filling::{Filled, Filling};
use core::mem::replace_with;
use edge_core::Source;
use pipe_shared::{
    Attempts, FlushFault, Full, Pipe, TryFault, WriterDone, WriterEnd, WriterRefused,
    done_writer_has_its_seat, others_are_heard_first, writer_has_its_seat,
};
use relay_model::FillEnd;
use std::marker::Model;
use std::sync::Wait;

/// The code with which the writer completes where the input ended.
const ENDED: u32 = 0;
/// Where a read failed.
const FAULTY: u32 = 4;
/// Where the input is longer than the limit.
const LONG: u32 = 7;

/// What a step of a filler did.
#[derive(Clone, Copy, Debug, PartialEq, Eq)]
pub enum FillStep {
    /// It committed so many bytes, at least one.
    Moved {
        taken: usize,
    },
    /// Its flush was Pending. The bytes are committed. The next step asks again before it reads.
    Paused {
        /// How many committed bytes the reader has not examined.
        unexamined: u64,
    },
    /// The pipe has no room for one byte, and tells what fills it. Nothing was read.
    Full(Full),
    /// A call was refused as Busy, as `TryFault::Busy` says. Nothing is lost: the next step goes on there.
    Busy {
        word: u64,
    },
    /// A call was refused as Worn, as `TryFault::Worn` says. No later step makes an entry.
    Worn {
        entries: u64,
    },
    /// No more is taken, and the writer has completed: with code 0 at the input's end, 4 where a read failed, 7 where
    /// the input is longer than the limit, and where the reader is gone with the reader's own code.
    Done(FillEnd),
}

/// The writing end, until its writer has completed.
#[derive(Drop)]
pub enum FillerEnd {
    Open(WriterEnd),
    Closed(WriterDone),
}

/// Takes bytes from a source into a pipe, whose writer it is, in steps between which the reader makes its calls.
#[derive(Drop)]
pub struct Filler {
    filling: Filling,
    end: FillerEnd,
    ending: Option<FillEnd>,
}

impl Model for Filler {
    ghost use Rattle.relay_engine.specs.PipeFiller.{FillerState, IsFiller, filler_of};

    ghost Value = { FillerState };

    ghost view = { λ f. filler_of f.filling f.end f.ending };

    ghost invariant = { λ f. IsFiller f.filling f.end f.ending };
}

impl Filler {
    /// A filler that takes at most `limit` bytes in all, 2^40 or less. Its end has made no entry yet, whatever others did, and
    /// has no draft.
    pub fn new(end: WriterEnd, limit: u64) -> Filler
        requires limit { limit ≤ 2 ^ 40 }
        requires unused { end.seat.own ≡ [] }
        requires undrafted { end.draft ≡ [] }
        ensures filler { result ≡ record { limit = limit; taken = 0; owed = false; drafted = 0; end = end; ending = None; done = false } }
        ensures unused { IsUnused result }
    {
        writer_has_its_seat(&end);
        Filler {
            filling: Filling::new(limit),
            end: FillerEnd::Open(end),
            ending: None,
        }
    }

    /// How many bytes it has taken from its source. A byte past the limit isn't counted.
    pub fn taken(&self) -> u64
        ensures taken { result ≡ self.now.taken }
        ensures counted { result ≡ length (all_of self.now.end) }
        ensures within { result ≤ self.now.limit }
    {
        self.filling.taken()
    }

    /// One step: it asks a flush that was Pending again, reads once into the pipe's free part, and flushes; where that is
    /// the last, it completes the writer. After Busy or Worn the next step goes on there.
    ///
    /// The pipe is that of its end.
    pub fn step<S: Source>(&mut self, pipe: &Pipe, source: &mut S) -> FillStep
        requires going { self.old.done ≡ false }
        requires pipe { IsIdle pipe.now self.old.end.seat }
        ensures pipe { IsIdle pipe.now self.new.end.seat }
        ensures limit { self.new.limit ≡ self.old.limit }
        ensures done { self.new.done ≡ is_done result }
        ensures steps { StepsOn pipe.now self.old (S.state source.old) result self.new (S.state source.new) }
        ensures counted { self.new.taken ≡ length (all_of self.new.end) }
        ensures within { self.new.taken ≤ self.new.limit }
        ensures draft { IfAnswered result (self.new.end.draft ≡ []) }
        ensures owed { OwesBy result self.new.owed }
        ensures spent { SpendsBy result self.old.end self.new.end }
    {
        match self.take(pipe, source) {
            Ok(step) => step,
            Err(reason) => self.complete(pipe, reason),
        }
    }

    /// Whether the writer has completed: the last step was Done.
    pub fn is_done(&self) -> bool
        ensures { result ≡ self.now.done }
    {
        match &self.end {
            FillerEnd::Open(_) => false,
            FillerEnd::Closed(_) => true,
        }
    }

    /// Waits for the reader, behind a step that was Paused or Full, as `Attempts::wait_for_reader` does.
    pub fn wait<R: Wait>(&self, rt: &R, attempts: &mut Attempts) {
        if let FillerEnd::Open(end) = &self.end {
            attempts.wait_for_reader(rt, end);
        }
    }

    /// The end, whose writer has completed.
    pub fn finish(self) -> WriterDone
        requires { self.done ≡ true }
        ensures { result ≡ self.end.seat }
    {
        match self.end {
            FillerEnd::Closed(done) => done,
            FillerEnd::Open(_) => unreachable!(),
        }
    }

    /// Takes more, unless the taking has ended.
    fn take<S: Source>(&mut self, pipe: &Pipe, source: &mut S) -> Result<FillStep, FillEnd>
        requires going { self.old.done ≡ false }
        requires pipe { IsIdle pipe.now self.old.end.seat }
        ensures pipe { IsIdle pipe.now self.new.end.seat }
        ensures limit { self.new.limit ≡ self.old.limit }
        ensures done { self.new.done ≡ false }
        ensures takes { TakesOrEnds pipe.now self.old (S.state source.old) result self.new (S.state source.new) }
        ensures counted { self.new.taken ≡ length (all_of self.new.end) }
        ensures within { self.new.taken ≤ self.new.limit }
        ensures draft { IfOk result (λ step. IfAnswered step (self.new.end.draft ≡ [])) }
        ensures owed { IfOk result (λ step. OwesBy step self.new.owed) }
    {
        if let Some(reason) = self.ending {
            return Err(reason);
        }
        match self.fill(pipe, source) {
            Ok(Filled::Moved { taken }) => Ok(FillStep::Moved { taken }),
            Ok(Filled::Paused { unexamined }) => Ok(FillStep::Paused { unexamined }),
            Ok(Filled::Full(full)) => Ok(FillStep::Full(full)),
            Ok(Filled::Ended(reason)) => {
                self.ending = Some(reason);
                Err(reason)
            }
            Err(TryFault::Busy { word }) => Ok(FillStep::Busy { word }),
            Err(TryFault::Worn { entries }) => Ok(FillStep::Worn { entries }),
        }
    }

    /// A step of the part that knows no pipe.
    fn fill<S: Source>(&mut self, pipe: &Pipe, source: &mut S) -> Result<Filled<Full>, TryFault>
        requires going { self.old.done ≡ false }
        requires taking { self.old.ending ≡ None }
        requires pipe { IsIdle pipe.now self.old.end.seat }
        ensures pipe { IsIdle pipe.now self.new.end.seat }
        ensures fills { FillsOn HasWritten IsOthers drafting RefusesWriter pipe.now.name.options (FindsNoRoom pipe.now) (filling_of self.old) self.old.end (S.state source.old) result (filling_of self.new) self.new.end (S.state source.new) (seen_by self.old.end) (all_of self.old.end) }
        ensures draft { IfOk result (λ _. self.new.end.draft ≡ []) }
        ensures owed { IfOk result (λ filled. self.new.owed ≡ owes filled) }
        ensures limit { self.new.limit ≡ self.old.limit }
        ensures counted { self.new.taken ≡ length (all_of self.new.end) }
        ensures within { self.new.taken ≤ self.new.limit }
        ensures ending { self.new.ending ≡ None }
        ensures done { self.new.done ≡ false }
    {
        match &mut self.end {
            FillerEnd::Open(end) => self.filling.step(pipe, end, source),
            FillerEnd::Closed(_) => unreachable!(),
        }
    }

    /// Completes the writer for this reason.
    fn complete(&mut self, pipe: &Pipe, reason: FillEnd) -> FillStep
        requires going { self.old.done ≡ false }
        requires ended { self.old.ending ≡ Some reason }
        requires pipe { IsIdle pipe.now self.old.end.seat }
        ensures pipe { IsIdle pipe.now self.new.end.seat }
        ensures completes { CompletesBy result reason self.old.end self.new.end }
        ensures counted { self.new.taken ≡ length (all_of self.new.end) }
        ensures within { self.new.taken ≤ self.new.limit }
        ensures draft { self.new.end.draft ≡ [] }
        ensures ending { self.new.ending ≡ Some reason }
        ensures filling { filling_of self.new ≡ filling_of self.old }
        ensures limit { self.new.limit ≡ self.old.limit }
        ensures done { self.new.done ≡ is_done result }
    {
        let closed = replace_with(&mut self.end, (pipe, code_of(reason)), FillerEnd::close);
        step_of(reason, closed)
    }
}

impl FillerEnd {
    /// Completes the writer with a code. Where that is refused, it goes on.
    fn close(self, asked: (&Pipe, u32)) -> (FillerEnd, Result<(), TryFault>)
        requires going { is_closed self ≡ false }
        requires pipe { IsIdle asked.0.now (writer_in self).seat }
        requires may { MayClose (writer_in self) }
        ensures pipe { IsIdle asked.entry.0.now (writer_in result.0).seat }
        ensures closes { Closes asked.entry.1 self result.1 result.0 }
    {
        match self {
            FillerEnd::Open(end) => try_to_close(asked.0, end, asked.1),
            FillerEnd::Closed(_) => unreachable!(),
        }
    }
}

/// Completes the writer with a code.
fn try_to_close(pipe: &Pipe, end: WriterEnd, code: u32) -> (FillerEnd, Result<(), TryFault>)
    requires pipe { IsIdle pipe.now end.seat }
    requires may { MayClose end }
    ensures pipe { IsIdle pipe.now (writer_in result.0).seat }
    ensures closes { Closes code (Open end) result.1 result.0 }
{
    others_are_heard_first();
    writer_has_its_seat(&end);
    match pipe.try_complete(end, code) {
        Ok((done, _)) => {
            done_writer_has_its_seat(&done);
            (FillerEnd::Closed(done), Ok(()))
        }
        Err(WriterRefused { end: back, fault }) => {
            match fault {
                FlushFault::Busy { word } => (FillerEnd::Open(back), Err(TryFault::Busy { word })),
                FlushFault::Worn { entries } => {
                    (FillerEnd::Open(back), Err(TryFault::Worn { entries }))
                }
                FlushFault::TooMuch { .. } => unreachable!(),
            }
        }
    }
}

/// How a step answers behind an attempt at the completion.
fn step_of(reason: FillEnd, closed: Result<(), TryFault>) -> FillStep
    ensures { result ≡ closed_as reason closed }
{
    match closed {
        Ok(()) => FillStep::Done(reason),
        Err(TryFault::Busy { word }) => FillStep::Busy { word },
        Err(TryFault::Worn { entries }) => FillStep::Worn { entries },
    }
}

/// What a filler has taken is what its end has committed and drafted, as the end has seen it. The end's own entries stand in
/// that.
pub fn filler_has_taken(filler: &Filler)
    ensures taken { HasTaken HasWritten drafting (filling_of filler.now) filler.now.end (seen_by filler.now.end) (all_of filler.now.end) }
    ensures seat { IsEnd 0 filler.now.end.seat }
{
    match &filler.end {
        FillerEnd::Open(end) => writer_has_its_seat(end),
        FillerEnd::Closed(done) => done_writer_has_its_seat(done),
    }
}

/// The code with which the writer completes where the taking ended so.
pub(crate) fn code_of(end: FillEnd) -> u32
    ensures { result ≡ fill_code end }
{
    match end {
        FillEnd::End => ENDED,
        FillEnd::Fault => FAULTY,
        FillEnd::Long => LONG,
        FillEnd::Gone { code } => code,
    }
}
