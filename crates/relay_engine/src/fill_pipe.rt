//! What a filler asks of the writing end of a pipe. It knows no more of it, and so not which pipe it runs on.

ghost use Rattle.std.specs.Prelude.{◌≡◌, ◌≢◌, ◌<◌, ◌≤◌, ◌+◌, ◌^◌, ℕ, List, [], ◌∷◌, length, IfOk, IfErr};
ghost use Rattle.pipe_core.specs.History.{Call, Commit, bytes_of, seat_of};
ghost use Rattle.pipe_core.specs.Flushes.{reply_to_commit};
ghost use Rattle.pipe_turns.specs.declared.faults.TryFault.{TryFault};
ghost use Rattle.pipe_turns.specs.Name.{Name};
ghost use Rattle.relay_engine.specs.Filler.{written};
ghost use Rattle.relay_engine.specs.Later.{CallsLater, HearsLater};
ghost use Rattle.relay_engine.specs.Filling.{Drafting, Drafts, IsGranted, RefusesRoomTo};
ghost use Rattle.relay_engine.specs.Tally.{Spends};

use edge_core::Source;
use pipe_core::FlushReply;
use pipe_shared::TryFault;
use relay_model::FillEnd;

/// Why no room was granted.
#[derive(Clone, Copy, Debug, PartialEq, Eq)]
pub enum NoRoom<F> {
    /// The pipe has no room for one byte, and tells what fills it.
    Full(F),
    /// The call was refused.
    Refused(TryFault),
}

/// The writing end of a pipe, whose writer goes on.
pub trait FillPipe {
    /// What the end is an end of: nothing, where it is the whole pipe.
    type Pipe;

    /// What it tells of a pipe that is full.
    type Full: Copy;

    /// Its calls may be made on this pipe.
    ghost may_call: { Self.Pipe → Self → Type 0 };

    /// It stands for this history.
    ghost at: { Self → List Call → Type 0 };

    /// The calls that others may make between two of its own.
    ghost others: { Call → Type 0 };

    /// What is seen of it.
    ghost writer: { Self → Drafting };

    /// With which options and of which blocks its pipe was made.
    ghost made: { Self.Pipe → Self → Name };

    /// Its call was refused so, and made no entry.
    ghost refuses: { TryFault → Self → Self → Type 0 };

    /// Its call found that the pipe has no room for one byte more, and tells this of it.
    ghost is_full: { Self.Pipe → Self.Full → Self → Self → Type 0 };

    /// Grants a free part of at least one byte behind the draft, and of at most a segment.
    fn room(&mut self, pipe: &Self::Pipe) -> Result<(), NoRoom<Self::Full>>
        requires may { may_call pipe.now self.old }
        ensures may { may_call pipe.now self.new }
        ensures at { (h : List Call) → at self.old h → HearsLater at others h self.new }
        ensures some { IfOk result (λ _. 0 < (writer self.new).room) }
        ensures at_most { IfOk result (λ _. (writer self.new).room ≤ (made pipe.now self.old).options.segment) }
        ensures refused { IfErr result (λ fault. RefusesRoomTo (is_full pipe.now) refuses fault self.old self.new) }
        ensures draft { (writer self.new).draft ≡ (writer self.old).draft }
        ensures granted { IfOk result (λ _. IsGranted (writer self.old) (writer self.new)) }
        ensures reading { (writer self.new).reading ≡ (writer self.old).reading }
        ensures made { made pipe.now self.new ≡ made pipe.now self.old };

    /// Reads once into the free part, at most `left` bytes, and drafts what was read. Where none is left, one more is
    /// read, which is dropped.
    fn draft_from<S: Source>(&mut self, source: &mut S, left: u64) -> Result<usize, FillEnd>
        requires some { 0 < (writer self.old).room }
        ensures may { (pipe : Self.Pipe) → may_call pipe self.old → may_call pipe self.new }
        ensures at { (h : List Call) → at self.old h → at self.new h }
        ensures fits { IfOk result (λ n. n ≤ (writer self.old).room) }
        ensures drafts { Drafts left (S.state source.old) (writer self.old).draft result (writer self.new).draft (S.state source.new) }
        ensures tally { (writer self.new).tally ≡ (writer self.old).tally }
        ensures reading { (writer self.new).reading ≡ (writer self.old).reading }
        ensures made { (pipe : Self.Pipe) → made pipe self.new ≡ made pipe self.old };

    /// Commits the draft.
    fn commit(&mut self, pipe: &Self::Pipe) -> Result<FlushReply, TryFault>
        requires may { may_call pipe.now self.old }
        requires total { (h : List Call) × at self.old h × (length (written h) + length (bytes_of (writer self.old).draft) ≤ 2 ^ 62) }
        ensures may { may_call pipe.now self.new }
        ensures at { IfOk result (λ reply. (h : List Call) → at self.old h →
            CallsLater at others h (Commit (writer self.old).draft)
            (λ found. reply ≡ reply_to_commit (made pipe.now self.old).options.pause (made pipe.now self.old).options.resume found (writer self.old).draft)
            self.new) }
        ensures draft { IfOk result (λ _. (writer self.new).draft ≡ []) }
        ensures heard { IfErr result (λ _. (h : List Call) → at self.old h → HearsLater at others h self.new) }
        ensures refused { IfErr result (λ fault. refuses fault self.old self.new) }
        ensures kept { IfErr result (λ _. (writer self.new).draft ≡ (writer self.old).draft) }
        ensures tally { IfOk result (λ _. Spends 0 (writer self.old).tally (writer self.new).tally) }
        ensures reading { (writer self.new).reading ≡ (writer self.old).reading }
        ensures made { made pipe.now self.new ≡ made pipe.now self.old };

    /// No other makes a commit.
    ghost others_write_nothing: { (call : Call) → others call → seat_of call ≢ 0 };
}
