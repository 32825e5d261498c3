//! What a drainer asks of the reading end of a pipe. It knows no more of it, and so not which pipe it runs on.

ghost use Rattle.std.specs.Prelude.{◌≡◌, ◌≢◌, ℕ, List, ◌∷◌, length, Some, None, Option, IsSome, IfOk, IfErr};
ghost use Rattle.span_seq.specs.Sequence.{bytes};
ghost use Rattle.pipe_core.specs.History.{Call, Read, Advance, seat_of};
ghost use Rattle.pipe_core.specs.Reads.{reply_to_read};
ghost use Rattle.pipe_core.specs.Lends.{lend};
ghost use Rattle.pipe_core.specs.Standing.{MayAdvance};
ghost use Rattle.pipe_turns.specs.declared.faults.TryFault.{TryFault};
ghost use Rattle.relay_engine.specs.Ends.{lent_by};
ghost use Rattle.relay_engine.specs.Later.{CallsLater, HearsLater};
ghost use Rattle.relay_engine.specs.ReaderEnds.{Aside};
ghost use Rattle.relay_engine.specs.Tally.{Spends, Tally};

use pipe_core::ReadReply;
use pipe_shared::TryFault;
use span_seq::{Sequence, Spans};

/// The reading end of a pipe, whose reader goes on.
pub trait DrainPipe {
    /// What the end is an end of: nothing, where it is the whole pipe.
    type Pipe;

    /// Where the spans of a lend lie.
    type Lent: Spans;

    /// Its calls may be made on this pipe.
    ghost may_call: { Self.Pipe → Self → Type 0 };

    /// It stands for this history.
    ghost at: { Self → List Call → Type 0 };

    /// The calls that others may make between two of its own.
    ghost others: { Call → Type 0 };

    /// Its call was refused so, and made no entry.
    ghost refuses: { TryFault → Self → Self → Type 0 };

    /// The length of what is lent, where a lend stands.
    ghost lent: { Self → Option ℕ };

    /// How often it has turned to its pipe.
    ghost tally: { Self → Tally };

    /// What its calls leave as it is, of what no history tells.
    ghost aside: { Self → Option Aside };

    /// Asks for what is committed and not consumed.
    fn read(&mut self, pipe: &Self::Pipe) -> Result<ReadReply, TryFault>
        requires may { may_call pipe.now self.old }
        requires no_lend { lent self.old ≡ None }
        ensures may { may_call pipe.now self.new }
        ensures at { IfOk result (λ reply. (h : List Call) → at self.old h → CallsLater at others h (Read 0) (λ found. reply ≡ reply_to_read 0 found) self.new) }
        ensures lent { IfOk result (λ reply. lent self.new ≡ lent_by reply) }
        ensures heard { IfErr result (λ fault. (h : List Call) → at self.old h → HearsLater at others h self.new) }
        ensures refused { IfErr result (λ fault. refuses fault self.old self.new) }
        ensures kept { IfErr result (λ fault. lent self.new ≡ lent self.old) }
        ensures tally { IfOk result (λ _. Spends 0 (tally self.old) (tally self.new)) }
        ensures aside { aside self.new ≡ aside self.old };

    /// The bytes that the last read lent, in place.
    fn lent(&self) -> Sequence<'_, Self::Lent>
        requires { IsSome (lent self.now) }
        ensures bytes { (h : List Call) → at self.now h → lend h ≡ Some (bytes result) }
        ensures len { lent self.now ≡ Some (length (bytes result)) };

    /// Gives up the first `c` of the lent bytes, of which the first `e` were examined, and ends the lend.
    fn advance(&mut self, pipe: &Self::Pipe, c: u64, e: u64) -> Result<(), TryFault>
        requires may { may_call pipe.now self.old }
        requires lent { MayAdvance (lent self.old) c e }
        ensures may { may_call pipe.now self.new }
        ensures at { IfOk result (λ _. (h : List Call) → at self.old h → CallsLater at others h (Advance c e) (λ _. Unit {0}) self.new) }
        ensures lent { IfOk result (λ _. lent self.new ≡ None) }
        ensures heard { IfErr result (λ fault. (h : List Call) → at self.old h → HearsLater at others h self.new) }
        ensures refused { IfErr result (λ fault. refuses fault self.old self.new) }
        ensures kept { IfErr result (λ fault. lent self.new ≡ lent self.old) }
        ensures tally { IfOk result (λ _. Spends 0 (tally self.old) (tally self.new)) }
        ensures aside { aside self.new ≡ aside self.old };

    /// What others call isn't the reader's.
    ghost not_ours: { (call : Call) → others call → seat_of call ≢ 1 };
}
