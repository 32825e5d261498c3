//! The part of a drainer that doesn't know which pipe it runs on.

ghost use Rattle.std.specs.Prelude.{◌≡◌, ◌≤◌, ℕ, List, length, Some, None, IsSome, IfOk};
ghost use Rattle.pipe_core.specs.History.{Call};
ghost use Rattle.pipe_core.specs.Legal.{IsLegal};
ghost use Rattle.span_seq.specs.Sequence.{bytes};
ghost use Rattle.pipe_core.specs.Lends.{lend};
ghost use Rattle.relay_engine.specs.Drainer.{IsDrained, is_success as is_success_code};
ghost use Rattle.relay_engine.specs.Passing.{IsKnown, added, end_at};
ghost use Rattle.relay_engine.specs.Tally.{Spends};
ghost use Rattle.relay_engine.specs.Draining.{AdvancesTo, DrainsOnce, EndsOwed, HasPassed, IfMore, IsWithin, Owes, PassesLend, has_failed, is_fault, lent_for};

use crate::drain_end::DrainEnd;
use crate::drain_pipe::DrainPipe;
use crate::frames::{Stop, write_lent};
use crate::gathering::Gathering;
use edge_core::Sink;
use frame_grammar::Job;
use pipe_core::ReadReply;
use pipe_shared::TryFault;
use std::marker::Model;

/// What a step of the part that knows no pipe came to, where no call was refused. What a whole step of a `Drainer` did is a
/// `DrainStep`: that tells refusals too, and the end only once the reader has completed.
#[derive(Clone, Copy, Debug, PartialEq, Eq)]
pub enum Progress {
    /// It wrote so many frames, maybe none, and passed over them.
    Moved {
        frames: u64,
    },
    /// Its read was Pending.
    Idle {
        /// How far the reader has examined, in bytes from the first one of the pipe.
        examined: u64,
    },
    /// No more is written, and the reader is to complete.
    Ended(DrainEnd),
}

/// What is to be told to the pipe of a lend whose frames were written.
#[derive(Clone, Copy, Debug)]
pub struct Owed {
    /// How many of its bytes were passed over.
    pub passed: u64,
    /// How many bytes it has. All of them were examined.
    pub len: u64,
    /// How many frames were written.
    pub frames: u64,
    /// Why nothing more is written, if so.
    pub end: Option<DrainEnd>,
}

/// Writes the frames of what a pipe lends to a sink.
#[derive(Drop)]
pub struct Draining {
    job: Job,
    place: u64,
    frames: u64,
    written: u64,
    known: u64,
    owed: Option<Owed>,
    gathering: Gathering,
}

impl Model for Draining {
    ghost use Rattle.relay_engine.specs.Draining.{DrainingState};

    ghost Value = { DrainingState };

    ghost view = { λ d. record { drained = record { job = d.job; place = d.place; frames = d.frames; written = d.written; known = d.known }; owed = d.owed } };
}

impl Draining {
    /// Nothing was written yet.
    pub fn new(job: &Job) -> Draining
        ensures { result ≡ record { drained = record { job = job.now; place = 0; frames = 0; written = 0; known = 0 }; owed = None } }
    {
        Draining {
            job: *job,
            place: 0,
            frames: 0,
            written: 0,
            known: 0,
            owed: None,
            gathering: Gathering::new(),
        }
    }

    /// How many frames were written whole.
    pub fn frames(&self) -> u64
        ensures { result ≡ self.now.drained.frames }
    {
        self.frames
    }

    /// How many bytes the sink has taken, up to 2^64 - 1.
    pub fn written(&self) -> u64
        ensures { result ≡ self.now.drained.written }
    {
        self.written
    }

    /// One step: it reads once, writes all whole frames of what is lent, and advances over them, with all examined. Before
    /// each end but that of a failed write it flushes the sink once. Where its advance was refused before, it makes that
    /// and nothing else.
    pub fn step<P: DrainPipe, K: Sink>(
        &mut self,
        pipe: &P::Pipe,
        end: &mut P,
        sink: &mut K,
    ) -> Result<Progress, TryFault>
        requires may { P.may_call pipe.now end.old }
        requires lent { P.lent end.old ≡ lent_for self.old.owed }
        requires within { IsWithin self.old.owed }
        requires own { (h : List Call) × (text : List ℕ) × P.at end.old h × HasPassed self.old h text }
        ensures may { P.may_call pipe.now end.new }
        ensures step { DrainsOnce P.at P.others P.refuses P.tally P.lent P.aside self.old end.old (K.state sink.old) result self.new end.new (K.state sink.new) }
    {
        match self.owed {
            Some(owed) => self.advance(owed, pipe, end),
            None => self.read_on(pipe, end, sink),
        }
    }

    fn read_on<P: DrainPipe, K: Sink>(
        &mut self,
        pipe: &P::Pipe,
        end: &mut P,
        sink: &mut K,
    ) -> Result<Progress, TryFault>
        requires may { P.may_call pipe.now end.old }
        requires fresh { self.old.owed ≡ None }
        requires no_lend { P.lent end.old ≡ None }
        requires own { (h : List Call) × (text : List ℕ) × P.at end.old h × IsDrained self.old.drained h text }
        ensures may { P.may_call pipe.now end.new }
        ensures step { DrainsOnce P.at P.others P.refuses P.tally P.lent P.aside self.old end.old (K.state sink.old) result self.new end.new (K.state sink.new) }
    {
        match end.read(pipe) {
            Err(fault) => Err(fault),
            Ok(ReadReply::Pending { examined, .. }) => Ok(Progress::Idle { examined }),
            Ok(ReadReply::Ready { ended, .. }) => match self.pass_on(ended, end, sink) {
                Some(owed) => self.advance(owed, pipe, end),
                None => Ok(Progress::Ended(DrainEnd::SinkFault)),
            },
        }
    }

    /// Writes the whole frames of the standing lend, and says what is to be told of them, unless a call of the sink failed.
    /// `ended` is the code with which the writer has completed.
    fn pass_on<P: DrainPipe, K: Sink>(
        &mut self,
        ended: Option<u32>,
        end: &P,
        sink: &mut K,
    ) -> Option<Owed>
        requires lent { IsSome (P.lent end.now) }
        requires known { (h : List Call) × P.at end.now h × IsLegal h × IsKnown self.old.drained h }
        ensures lent { (lent : List ℕ) × ((h : List Call) → P.at end.now h → lend h ≡ Some lent) × (P.lent end.now ≡ Some (length lent))
            × PassesLend ended lent self.old.drained (K.state sink.old) result self.new.drained (K.state sink.new) }
        ensures owed { self.new.owed ≡ self.old.owed }
    {
        let known = self.known;
        let lent = end.lent();
        let len = lent.len();
        let job = self.job;
        let gathering = &mut self.gathering;
        match write_lent(&job, &lent, known, is_success(ended), gathering, sink) {
            Ok(drained) => {
                self.add(
                    drained.passed,
                    drained.frames,
                    drained.written,
                    len - drained.passed,
                );
                let end = flushed(end_of(drained.stop, ended, self.place), sink);
                Some(Owed {
                    passed: drained.passed,
                    len,
                    frames: drained.frames,
                    end,
                })
            }
            Err(broken) => {
                self.add(0, broken.frames, broken.written, known);
                None
            }
        }
    }

    /// Advances over the frames that were written. It is owed where it is refused.
    fn advance<P: DrainPipe>(
        &mut self,
        owed: Owed,
        pipe: &P::Pipe,
        end: &mut P,
    ) -> Result<Progress, TryFault>
        requires may { P.may_call pipe.now end.old }
        requires lent { P.lent end.old ≡ Some owed.len }
        requires within { owed.passed ≤ owed.len }
        ensures may { P.may_call pipe.now end.new }
        ensures advanced { (h : List Call) (text : List ℕ) → P.at end.old h → Owes self.old.drained owed h text →
            AdvancesTo P.at P.others P.refuses self.old owed h text end.old result self.new end.new }
        ensures drained { self.new.drained ≡ self.old.drained }
        ensures tally { IfOk result (λ _. Spends 0 (P.tally end.old) (P.tally end.new)) }
        ensures aside { P.aside end.new ≡ P.aside end.old }
        ensures lends { IfMore result (P.lent end.new ≡ lent_for self.new.owed) }
        ensures within { IsWithin self.new.owed }
        ensures failed { has_failed result self.new ≡ is_fault owed.end }
    {
        match end.advance(pipe, owed.passed, owed.len) {
            Ok(()) => {
                self.owed = None;
                match owed.end {
                    Some(end) => Ok(Progress::Ended(end)),
                    None => Ok(Progress::Moved {
                        frames: owed.frames,
                    }),
                }
            }
            Err(fault) => {
                self.owed = Some(owed);
                Err(fault)
            }
        }
    }

    fn add(&mut self, passed: u64, frames: u64, written: u64, known: u64)
        ensures drained { self.new.drained ≡ added self.old.drained passed frames written known }
        ensures owed { self.new.owed ≡ self.old.owed }
    {
        self.place = self.place.saturating_add(passed);
        self.frames = self.frames.saturating_add(frames);
        self.written = self.written.saturating_add(written);
        self.known = known;
    }
}

/// Whether the writer has completed so that the input is at its end.
fn is_success(ended: Option<u32>) -> bool
    ensures { result ≡ is_success_code ended }
{
    matches!(ended, Some(0))
}

/// Why nothing more is written where the frames of a lend end so at `place`, if so.
fn end_of(stop: Stop, ended: Option<u32>, place: u64) -> Option<DrainEnd>
    ensures { result ≡ end_at stop ended place }
{
    match (stop, ended) {
        (Stop::Bad(kind), _) => Some(DrainEnd::Bad { place, kind }),
        (Stop::Rest, _) => Some(DrainEnd::Rest { place }),
        (Stop::End, _) => Some(DrainEnd::Clean),
        (Stop::More, Some(_)) => Some(DrainEnd::Stopped),
        (Stop::More, None) => None,
    }
}

/// Flushes the sink before an end.
fn flushed<K: Sink>(end: Option<DrainEnd>, sink: &mut K) -> Option<DrainEnd>
    ensures { EndsOwed end (K.state sink.old) result (K.state sink.new) }
{
    let end = end?;
    if sink.flush().is_ok() {
        Some(end)
    } else {
        Some(DrainEnd::SinkFault)
    }
}
