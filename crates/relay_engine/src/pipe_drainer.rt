//! The side of a relay that writes frames to a sink, on a pipe for two threads.

ghost use Rattle.std.specs.Prelude.{◌≡◌, ℕ, List, [], Some, None, IsSome, IsSomeAnd};
ghost use Rattle.turn_cell.specs.Seat.{IsIdle};
ghost use Rattle.relay_engine.specs.Sides.{HasDrained};
ghost use Rattle.pipe_core.specs.Legal.{IsLegal};
ghost use Rattle.relay_engine.specs.Sides.{Concludes};
ghost use Rattle.relay_engine.specs.PipeDrainer.{CompletesFor, IsDrainer, IsDraining, IsOfPipe, IsUnwritten, SpendsBy, StepsDrainer, end_by, refused_step, seen_by};

use crate::drain_end::DrainEnd;
use crate::draining::{Draining, Progress};
use edge_core::Sink;
use frame_grammar::Job;
use pipe_shared::{
    Attempts, Pipe, ReaderDone, ReaderEnd, ReaderRefused, TryFault, others_are_heard_first,
    reader_has_its_seat, reader_is_lent_what_it_has_seen,
};
use std::marker::Model;
use std::sync::Wait;

/// What a step of a drainer did.
#[derive(Clone, Copy, Debug, PartialEq, Eq)]
pub enum DrainStep {
    /// It passed over so many frames, maybe none, that it or the steps before it that were refused have written.
    Moved {
        frames: u64,
    },
    /// Its read was Pending.
    Idle {
        /// How far the reader has examined, in bytes from the first one of the pipe.
        examined: u64,
    },
    /// A call of the pipe was refused as `TryFault::Busy`. What came before it is done, and the next step goes on there.
    Busy {
        word: u64,
    },
    /// A call of the pipe was refused as `TryFault::Worn`. No later step goes on.
    Worn {
        entries: u64,
    },
    /// No more is written, and the reader has completed: with code 2 behind a bad frame, 5 where a call of the sink failed, and
    /// 0 otherwise.
    Done(DrainEnd),
}

/// Writes the frames of what a pipe lends to a sink, in steps that may come in any order with the writer's calls, which
/// another thread may make meanwhile. It is the pipe's reader. No step waits or takes memory.
#[derive(Drop)]
pub struct Drainer {
    draining: Draining,
    end: Option<ReaderEnd>,
    ending: Option<DrainEnd>,
    done: Option<ReaderDone>,
}

impl Model for Drainer {
    ghost use Rattle.relay_engine.specs.PipeDrainer.{DrainerState, IsDrainer};

    ghost Value = { DrainerState };

    ghost view = { λ d. record { draining = d.draining; end = d.end; ending = d.ending; done = d.done } };

    ghost invariant = { λ d. IsDrainer (record { draining = d.draining; end = d.end; ending = d.ending; done = d.done }) };
}

impl Drainer {
    /// A drainer that cuts frames and spells them anew as the job says. Its end has made no call yet, whatever others did.
    pub fn new(end: ReaderEnd, job: &Job) -> Drainer
        requires { end.seat.own ≡ [] }
        ensures { result ≡ record { draining = record { drained = record { job = job.now; place = 0; frames = 0; written = 0; known = 0 }; owed = None }; end = Some end; ending = None; done = None } }
    {
        reader_has_its_seat(&end);
        reader_is_lent_what_it_has_seen(&end);
        Drainer {
            draining: Draining::new(job),
            end: Some(end),
            ending: None,
            done: None,
        }
    }

    /// How many frames it has written whole.
    pub fn frames(&self) -> u64
        ensures { result ≡ self.now.draining.drained.frames }
    {
        self.draining.frames()
    }

    /// How many bytes the sink has taken, up to 2^64 - 1.
    pub fn written(&self) -> u64
        ensures { result ≡ self.now.draining.drained.written }
    {
        self.draining.written()
    }

    /// One step: it reads once, writes all whole frames of what is lent, and advances over them, with all examined. Before
    /// each end but that of a failed write it flushes the sink once. A call that was refused in the step before is made
    /// first, and nothing that came before it is done again.
    pub fn step<K: Sink>(&mut self, pipe: &Pipe, sink: &mut K) -> DrainStep
        requires pipe { IsSomeAnd self.old.end (λ r. IsIdle pipe.now r.seat) }
        ensures pipe { IsOfPipe pipe.now result self.new }
        ensures step { StepsDrainer self.old (K.state sink.old) result self.new (K.state sink.new) }
        ensures spent { SpendsBy result self.old self.new }
    {
        let Some(end) = self.end.take() else {
            unreachable!()
        };
        match self.ending {
            Some(ending) => self.complete(ending, pipe, end),
            None => self.go_on(pipe, end, sink),
        }
    }

    fn go_on<K: Sink>(&mut self, pipe: &Pipe, end: ReaderEnd, sink: &mut K) -> DrainStep
        requires pipe { IsIdle pipe.now end.seat }
        requires taken { self.old.end ≡ None }
        requires ending { self.old.ending ≡ None }
        requires going { (text : List ℕ) × IsDraining (record self.old { end = Some end }) text }
        ensures pipe { IsOfPipe pipe.now result self.new }
        ensures step { StepsDrainer (record self.old { end = Some end }) (K.state sink.old) result self.new (K.state sink.new) }
    {
        let mut end = end;
        match self.draining.step(pipe, &mut end, sink) {
            Ok(Progress::Moved { frames }) => {
                self.end = Some(end);
                DrainStep::Moved { frames }
            }
            Ok(Progress::Idle { examined }) => {
                self.end = Some(end);
                DrainStep::Idle { examined }
            }
            Ok(Progress::Ended(ending)) => self.complete(ending, pipe, end),
            Err(fault) => {
                self.end = Some(end);
                refused(fault)
            }
        }
    }

    /// Completes the reader. That is owed where it is refused.
    fn complete(&mut self, ending: DrainEnd, pipe: &Pipe, end: ReaderEnd) -> DrainStep
        requires pipe { IsIdle pipe.now end.seat }
        requires taken { self.old.end ≡ None }
        requires legal { IsLegal (seen_by end) }
        requires concluded { (text : List ℕ) × Concludes self.old.draining.drained.job self.old.draining.drained.frames self.old.draining.drained.written (seen_by end) text ending }
        ensures pipe { IsOfPipe pipe.now result self.new }
        ensures completes { CompletesFor ending self.old.draining end result self.new }
    {
        others_are_heard_first();
        reader_has_its_seat(&end);
        match pipe.try_complete_reader(end, ending.code()) {
            Ok((done, _)) => {
                self.ending = None;
                self.done = Some(done);
                DrainStep::Done(ending)
            }
            Err(ReaderRefused { end, fault }) => {
                self.end = Some(end);
                self.ending = Some(ending);
                self.done = None;
                refused(fault)
            }
        }
    }

    // Waits for what the next step wants.
    fn wait_behind<R: Wait>(&self, rt: &R, step: DrainStep, attempts: &mut Attempts) {
        match (step, &self.end) {
            (DrainStep::Idle { .. }, Some(end)) => attempts.wait_for_writer(rt, end),
            (DrainStep::Busy { .. } | DrainStep::Worn { .. }, _) => attempts.wait_for_turn(),
            _ => *attempts = Attempts::new(),
        }
    }

    /// The reader that has completed, by which the pipe is closed.
    pub fn finish(self) -> ReaderDone
        requires { IsSome self.done }
        ensures { Some result ≡ self.done }
    {
        let Drainer { done, .. } = self;
        match done {
            Some(done) => done,
            None => unreachable!(),
        }
    }
}

fn refused(fault: TryFault) -> DrainStep
    ensures { result ≡ refused_step fault }
{
    match fault {
        TryFault::Busy { word } => DrainStep::Busy { word },
        TryFault::Worn { entries } => DrainStep::Worn { entries },
    }
}

/// What a drainer that goes on has done to its pipe comes from some text that it has written.
pub fn drainer_has_written(drainer: &Drainer)
    ensures { IsDrainer drainer.now }
{
    let _ = &drainer.end;
}

/// Runs a drainer to its end. It waits for turns, and for the writer where there is nothing to lend: its thread may sleep
/// meanwhile. It answers why it ended, the reader that has completed, how many frames were written whole, and how many bytes
/// the sink has taken, up to 2^64 - 1. Once the pipe's history takes no more entries it doesn't return.
pub fn drain<R: Wait, K: Sink>(
    rt: &R,
    pipe: &Pipe,
    drainer: Drainer,
    sink: &mut K,
) -> (DrainEnd, ReaderDone, u64, u64)
    requires pipe { IsSomeAnd drainer.end (λ r. IsIdle pipe.now r.seat) }
    requires new { IsUnwritten drainer }
    ensures pipe { IsIdle pipe.now result.1 }
    ensures drained { HasDrained drainer.draining.drained.job result.0 result.1 result.2 result.3 (K.state sink.old) (K.state sink.new) }
{
    drainer_has_written(&drainer);
    let mut drainer = drainer;
    let mut attempts = Attempts::new();
    for _ in rt.forever() {
        let step = drainer.step(pipe, sink);
        if let Some(end) = done_by(step) {
            let frames = drainer.frames();
            let written = drainer.written();
            return (end, drainer.finish(), frames, written);
        }
        drainer.wait_behind(rt, step, &mut attempts);
    }
    unreachable!()
}

/// How a drainer ended by a step, if it did.
fn done_by(step: DrainStep) -> Option<DrainEnd>
    ensures { result ≡ end_by step }
{
    match step {
        DrainStep::Done(end) => Some(end),
        _ => None,
    }
}
