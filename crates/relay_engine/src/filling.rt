//! The part of a filler that knows no pipe: it takes bytes from a source into whichever pipe it is given the end of.

ghost use Rattle.std.specs.Prelude.{◌≡◌, ◌≤◌, ◌+◌, ◌^◌, false, true, ℕ, List, [], IfOk};
ghost use Rattle.pipe_core.specs.History.{Call};
ghost use Rattle.relay_engine.specs.Filling.{FillsOn, HasTaken, Settles, TakesBy, owes};

use crate::fill_pipe::{FillPipe, NoRoom};
use edge_core::Source;
use pipe_core::FlushReply;
use pipe_shared::TryFault;
use relay_model::FillEnd;
use std::marker::Model;

/// What a step of the part that knows no pipe did, where no call was refused. What a whole step of a `Filler` did is a
/// `FillStep`: that tells refusals too, and the end only once the writer has completed.
#[derive(Clone, Copy, Debug, PartialEq, Eq)]
pub enum Filled<F> {
    /// So many bytes were committed, at least one.
    Moved { taken: usize },
    /// Its flush was Pending. The bytes are committed.
    Paused { unexamined: u64 },
    /// The pipe has no room. Nothing was read.
    Full(F),
    /// No more is to be taken, and the writer is to be completed for this reason.
    Ended(FillEnd),
}

impl<F: Copy> Filled<F> {
    ghost use Rattle.std.specs.Prelude.{◌≡◌};
    ghost use Rattle.relay_engine.specs.Filling.{moves_nothing};

    /// Whether a commit went through of which there is nothing to tell.
    fn moves_nothing(self) -> bool
        ensures { result ≡ moves_nothing self }
    {
        match self {
            Filled::Moved { taken } => taken == 0,
            Filled::Paused { .. } => false,
            Filled::Full(_) => false,
            Filled::Ended(_) => false,
        }
    }
}

/// Takes bytes from a source into a pipe in steps, between which others may make their calls.
#[derive(Debug, Drop)]
pub struct Filling {
    limit: u64,
    taken: u64,
    owed: bool,
    drafted: usize,
}

impl Model for Filling {
    ghost use Rattle.std.specs.Prelude.{◌≤◌, ◌^◌};
    ghost use Rattle.relay_engine.specs.Filling.{FillingState};

    ghost Value = { FillingState };

    ghost view = { λ f. record { limit = f.limit; taken = f.taken; owed = f.owed; drafted = f.drafted } };

    ghost invariant = { λ f. (f.taken ≤ f.limit) × (f.limit ≤ 2 ^ 40) };
}

impl Filling {
    /// It takes at most `limit` bytes in all.
    pub fn new(limit: u64) -> Filling
        requires { limit ≤ 2 ^ 40 }
        ensures { result ≡ record { limit = limit; taken = 0; owed = false; drafted = 0 } }
    {
        Filling {
            limit,
            taken: 0,
            owed: false,
            drafted: 0,
        }
    }

    /// How many bytes it has taken from its source. A byte past the limit isn't counted.
    pub fn taken(&self) -> u64
        ensures taken { result ≡ self.now.taken }
        ensures within { result ≤ self.now.limit }
    {
        self.taken
    }

    /// One step: it makes the commit that is owed, and where that left nothing to tell it reads once and commits. After a
    /// step that was refused the next one goes on there. It takes at most a segment.
    pub fn step<P: FillPipe, S: Source>(
        &mut self,
        pipe: &P::Pipe,
        end: &mut P,
        source: &mut S,
    ) -> Result<Filled<P::Full>, TryFault>
        requires may { P.may_call pipe.now end.old }
        requires holds { (h : List Call) × (bytes : List ℕ) × HasTaken P.at P.writer self.old end.old h bytes }
        ensures may { P.may_call pipe.now end.new }
        ensures fills { (h : List Call) (bytes : List ℕ) → HasTaken P.at P.writer self.old end.old h bytes →
            FillsOn P.at P.others P.writer P.refuses (P.made pipe.now end.old).options (P.is_full pipe.now) self.old end.old (S.state source.old) result self.new end.new (S.state source.new) h bytes }
        ensures owed { IfOk result (λ filled. self.new.owed ≡ owes filled) }
        ensures draft { IfOk result (λ _. (P.writer end.new).draft ≡ []) }
        ensures limit { self.new.limit ≡ self.old.limit }
        ensures within { self.new.taken ≤ self.new.limit }
        ensures one_read { self.new.taken ≤ self.old.taken + (P.made pipe.now end.old).options.segment }
        ensures reading { (P.writer end.new).reading ≡ (P.writer end.old).reading }
        ensures made { P.made pipe.now end.new ≡ P.made pipe.now end.old }
    {
        if !self.owed {
            return self.take(pipe, end, source);
        }
        match self.settle(pipe, end) {
            Err(fault) => Err(fault),
            Ok(settled) => {
                if settled.moves_nothing() {
                    return self.take(pipe, end, source);
                }
                Ok(settled)
            }
        }
    }

    /// Reads once, and commits what was read.
    fn take<P: FillPipe, S: Source>(
        &mut self,
        pipe: &P::Pipe,
        end: &mut P,
        source: &mut S,
    ) -> Result<Filled<P::Full>, TryFault>
        requires may { P.may_call pipe.now end.old }
        requires settled { self.old.owed ≡ false }
        requires holds { (h : List Call) × (bytes : List ℕ) × HasTaken P.at P.writer self.old end.old h bytes }
        ensures may { P.may_call pipe.now end.new }
        ensures takes { (h : List Call) (bytes : List ℕ) → HasTaken P.at P.writer self.old end.old h bytes →
            TakesBy P.at P.others P.writer P.refuses (P.made pipe.now end.old).options (P.is_full pipe.now) result self.old end.old (S.state source.old) self.new end.new (S.state source.new) h bytes }
        ensures owed { IfOk result (λ filled. self.new.owed ≡ owes filled) }
        ensures draft { IfOk result (λ _. (P.writer end.new).draft ≡ []) }
        ensures limit { self.new.limit ≡ self.old.limit }
        ensures within { self.new.taken ≤ self.new.limit }
        ensures one_read { self.new.taken ≤ self.old.taken + (P.made pipe.now end.old).options.segment }
        ensures reading { (P.writer end.new).reading ≡ (P.writer end.old).reading }
        ensures made { P.made pipe.now end.new ≡ P.made pipe.now end.old }
    {
        let left = self.limit - self.taken;
        match end.room(pipe) {
            Err(NoRoom::Refused(fault)) => Err(fault),
            Err(NoRoom::Full(full)) => Ok(Filled::Full(full)),
            Ok(()) => {
                match end.draft_from(source, left) {
                    Err(reason) => Ok(Filled::Ended(reason)),
                    Ok(read) => {
                        self.taken += read as u64;
                        self.drafted = read;
                        self.owed = true;
                        self.settle(pipe, end)
                    }
                }
            }
        }
    }

    /// Commits what is drafted. Where the reader is there and doesn't hold the writer, it tells how much that was.
    fn settle<P: FillPipe>(
        &mut self,
        pipe: &P::Pipe,
        end: &mut P,
    ) -> Result<Filled<P::Full>, TryFault>
        requires may { P.may_call pipe.now end.old }
        requires owed { self.old.owed ≡ true }
        requires holds { (h : List Call) × (bytes : List ℕ) × HasTaken P.at P.writer self.old end.old h bytes }
        ensures may { P.may_call pipe.now end.new }
        ensures settles { (h : List Call) (bytes : List ℕ) → HasTaken P.at P.writer self.old end.old h bytes →
            Settles P.at P.others P.writer P.refuses (P.made pipe.now end.old).options result end.old self.new end.new h bytes }
        ensures owed { IfOk result (λ filled. self.new.owed ≡ owes filled) }
        ensures draft { IfOk result (λ _. (P.writer end.new).draft ≡ []) }
        ensures limit { self.new.limit ≡ self.old.limit }
        ensures taken { self.new.taken ≡ self.old.taken }
        ensures reading { (P.writer end.new).reading ≡ (P.writer end.old).reading }
        ensures made { P.made pipe.now end.new ≡ P.made pipe.now end.old }
    {
        let drafted = self.drafted;
        match end.commit(pipe) {
            Err(fault) => Err(fault),
            Ok(FlushReply::Pending { unexamined }) => {
                self.drafted = 0;
                Ok(Filled::Paused { unexamined })
            }
            Ok(
                FlushReply::Ready {
                    gone: Some(code),
                    ..
                },
            ) => {
                self.drafted = 0;
                self.owed = false;
                Ok(Filled::Ended(FillEnd::Gone { code }))
            }
            Ok(FlushReply::Ready { gone: None, .. }) => {
                self.drafted = 0;
                self.owed = false;
                Ok(Filled::Moved { taken: drafted })
            }
        }
    }
}
