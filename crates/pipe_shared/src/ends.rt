//! The ends of a pipe.

ghost use Rattle.std.specs.Prelude.{◌≡◌, ◌≤◌, ◌++◌, length, take, drop, true, is_some, Some, IsSome};
ghost use Rattle.std.specs.Borrow.{sem};
ghost use Rattle.span_seq.specs.Sequence.{bytes, part};
ghost use Rattle.span_seq.specs.Spans.{whole_of};
ghost use Rattle.pipe_core.specs.History.{bytes_of};
ghost use Rattle.pipe_core.specs.Lends.{lend};
ghost use Rattle.pipe_state.specs.Chains.{spans_of};
ghost use Rattle.pipe_state.specs.Fetched.{all_fetched};
ghost use Rattle.pipe_state.specs.Segments.{AreOf};
ghost use Rattle.pipe_state.specs.Sides.{reader_has};
ghost use Rattle.pipe_turns.specs.Log.{calls_of};
ghost use Rattle.pipe_turns.specs.Lends.{lend_runs, runs_in};
ghost use Rattle.pipe_turns.specs.Name.{Name};
ghost use Rattle.pipe_shared.specs.Lending.{LendsSpare};

use crossbeam_utils::sync::Parker;
use pipe_state::{Chain, Reading, Writing};
use pipe_turns::{FlushFault, SharedPipe, TryFault};
use span_seq::Sequence;
use std::marker::Model;
use turn_cell::TurnSeat;

/// The writing end of a pipe: .NET's `PipeWriter`. It may go to another thread.
///
/// Writing into the free part and telling how much was written are its own affair: they take neither the turn nor the
/// pipe.
#[derive(Drop)]
pub struct WriterEnd {
    pub(crate) seat: TurnSeat<SharedPipe>,
    pub(crate) part: Writing,
    pub(crate) parker: Parker,
}

impl Model for WriterEnd {
    ghost use Rattle.pipe_shared.specs.Ends.{Writer, IsWriter};

    ghost Value = { Writer };

    ghost view = { λ w. record { seat = w.seat; draft = w.part.draft; free = w.part.free; hint = w.part.has.hint } };

    ghost invariant = { λ w. IsWriter w.seat w.part };
}

impl WriterEnd {
    /// The free part that was granted, in the segment itself, as `PipeWriter.GetMemory` gives it: empty where there is none.
    /// What it holds isn't specified.
    pub fn spare_mut(&mut self) -> &mut [u8]
        ensures* lends { sem 𝓛 (LendsSpare self.entry result) }
        ensures value { result.now ≡ self.old.free }
    {
        self.part.spare_mut()
    }

    /// Takes the first `n` bytes of the free part to the end of the draft, as `PipeWriter.Advance` does.
    pub fn advance(&mut self, n: usize)
        requires { n ≤ length self.old.free }
        ensures draft { bytes_of self.new.draft ≡ bytes_of self.old.draft ++ take n self.old.free }
        ensures free { self.new.free ≡ drop n self.old.free }
        ensures others { self.new ≡ record self.old { draft = self.new.draft; free = self.new.free } }
    {
        self.part.advance(n);
    }

    /// How many bytes are drafted: `PipeWriter.UnflushedBytes`.
    pub fn unflushed(&self) -> u64
        ensures { result ≡ length (bytes_of self.now.draft) }
    {
        self.part.draft_len()
    }
}

/// The reading end of a pipe: .NET's `PipeReader`. It may go to another thread.
#[derive(Drop)]
pub struct ReaderEnd {
    pub(crate) seat: TurnSeat<SharedPipe>,
    pub(crate) part: Reading,
    pub(crate) lending: bool,
    pub(crate) parker: Parker,
}

impl Model for ReaderEnd {
    ghost use Rattle.pipe_shared.specs.Ends.{Reader, IsReader, lent_in};

    ghost Value = { Reader };

    ghost view = { λ r. record { seat = r.seat; lent = lent_in r.lending r.part; chain = r.part.chain } };

    ghost invariant = { λ r. IsReader r.seat r.part r.lending };
}

impl ReaderEnd {
    /// Whether a lend stands: the last read was answered Ready, and there was no advance since.
    pub fn lending(&self) -> bool
        ensures { result ≡ is_some self.now.lent }
    {
        self.lending
    }

    /// The bytes that the last read lent, in the segments in which they were written: `ReadResult.Buffer`. What was committed
    /// since is not among them.
    pub fn lent(&self) -> Sequence<'_, Chain>
        requires { IsSome self.now.lent }
        ensures lent { self.now.lent ≡ Some (bytes result) }
        ensures bytes { lend (calls_of self.now.seat.seen) ≡ Some (bytes result) }
        ensures whole { part result ≡ whole_of (spans_of self.now.chain.skip (all_fetched self.now.chain.links)) }
    {
        self.part.chain.whole()
    }

    /// The segments in which these bytes lie: span by span, those of `lent`. They are of the pipe's blocks.
    pub fn chain(&self) -> &Chain
        requires { IsSome self.now.lent }
        ensures chain { result.now ≡ self.now.chain }
        ensures runs { lend_runs (calls_of self.now.seat.seen) ≡ runs_in true (reader_has self.now.chain) }
        ensures blocks { (name : Name) → self.now.seat.name ≡ Some name → AreOf name.blocks (all_fetched self.now.chain.links) }
    {
        &self.part.chain
    }
}

/// The right to cancel the pending read or flush of a pipe, or the next one: .NET's `CancelPendingRead` and
/// `CancelPendingFlush`. It may go to another thread.
#[derive(Drop)]
pub struct Canceller {
    pub(crate) seat: TurnSeat<SharedPipe>,
}

impl Model for Canceller {
    ghost use Rattle.pipe_turns.specs.Turns.{Seat};
    ghost use Rattle.pipe_turns.specs.Ends.{IsEnd};

    ghost Value = { Seat };

    ghost view = { λ k. k.seat };

    ghost invariant = { λ k. IsEnd 2 k.seat };
}

/// A writer that has completed. With the reader's fellow and the canceller it closes the pipe.
#[derive(Drop)]
pub struct WriterDone {
    pub(crate) seat: TurnSeat<SharedPipe>,
}

impl Model for WriterDone {
    ghost use Rattle.pipe_turns.specs.Turns.{Seat};
    ghost use Rattle.pipe_shared.specs.Ends.{IsWriterDone};

    ghost Value = { Seat };

    ghost view = { λ w. w.seat };

    ghost invariant = { λ w. IsWriterDone w.seat };
}

/// A reader that has completed.
#[derive(Drop)]
pub struct ReaderDone {
    pub(crate) seat: TurnSeat<SharedPipe>,
}

impl Model for ReaderDone {
    ghost use Rattle.pipe_turns.specs.Turns.{Seat};
    ghost use Rattle.pipe_shared.specs.Ends.{IsReaderDone};

    ghost Value = { Seat };

    ghost view = { λ r. r.seat };

    ghost invariant = { λ r. IsReaderDone r.seat };
}

/// A completion of the writer that was refused: the end as it was, draft included.
#[derive(Drop)]
pub struct WriterRefused {
    pub end: WriterEnd,
    pub fault: FlushFault,
}

/// A completion of the reader that was refused: the end as it was, with its lend.
#[derive(Drop)]
pub struct ReaderRefused {
    pub end: ReaderEnd,
    pub fault: TryFault,
}
