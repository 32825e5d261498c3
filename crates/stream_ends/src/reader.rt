//! The reader over a source.

ghost use Rattle.std.specs.Prelude.{◌≡◌, ◌<◌, ◌≤◌, ◌+◌, ◌^◌, true, false, ℕ, List, [], ◌∷◌, length, Option, None, Ok, Err, take, unwrap_or, is_some, IsNone, IsSome, IfOk, IfErr, OnOk};
ghost use Rattle.pipe_core.specs.History.{Call, Commit, EndWriter, Read, Advance, CancelRead, run_in};
ghost use Rattle.pipe_core.specs.Reads.{read_is_ready, reply_to_read};
ghost use Rattle.pipe_core.specs.Pipe.{HoldsFor};
ghost use Rattle.pipe_core.specs.Lends.{lend};
ghost use Rattle.pipe_core.specs.Standing.{MayAdvance};
ghost use Rattle.stream_ends.specs.Reader.{Stands, lend_len, room_for};
ghost use Rattle.stream_ends.specs.Reads.{ReadsIn, FillsOnce, FindsRoom, CountsFault, IsReady, IsTold, lent_by, reads_left, telling};

use crate::faults::StreamFault;
use edge_core::{Failed, Source};
use pipe_core::{PlainPipe, ReadReply, plain_pipe_has_a_history};
use std::alloc::{AllocError, Global};
use std::marker::Model;

/// The most bytes that a reader takes from its source in all.
const MOST: u64 = 1 << 62;

/// A pipe's reader over a source, for one thread: `PipeReader.Create(stream)`. The source is the pipe's writer.
///
/// A read lends what is held, and reads the source where that doesn't answer it: into the buffer, where the bytes stay
/// until they are consumed. Each is moved at most once. No call but `make` takes memory.
#[derive(Debug, Drop)]
pub struct StreamReader<S: Source> {
    source: S,
    pipe: PlainPipe,
}

// Clauses see the source's state, and the pipe. Between calls the pipe has no draft, and its reader is there.
impl<S: Source> Model for StreamReader<S> {
    ghost use Rattle.std.specs.Prelude.{◌≡◌, ◌≤◌, ◌^◌, [], IsNone};
    ghost use Rattle.pipe_core.specs.Bytes.{capacity_of};
    ghost use Rattle.stream_ends.specs.Reader.{ReaderState};

    ghost Value = { ReaderState };

    ghost view = { λ r. record { source = S.state r.source; pipe = r.pipe } };

    ghost invariant = { λ r. IsNone r.pipe.control.gone × (r.pipe.bytes.draft ≡ []) × (capacity_of r.pipe.bytes ≤ 2 ^ 31) };
}

impl<S: Source> StreamReader<S> {
    /// A reader that has read nothing, with room for `capacity` bytes, for which it takes twice as much memory. The source
    /// comes back, unread, for want of memory alone.
    pub fn make(alloc: Global, source: S, capacity: usize) -> Result<StreamReader<S>, S>
        requires some { 1 ≤ capacity }
        requires most { capacity ≤ 2 ^ 31 }
        ensures unread { IfOk result (λ reader. reader.source ≡ S.state source) }
        ensures stands { IfOk result (λ reader. Stands (S.state source).left reader []) }
        ensures no_lend { IfOk result (λ reader. lend_len reader ≡ None) }
        ensures capacity { IfOk result (λ reader. room_for reader ≡ capacity) }
        ensures given_back { IfErr result (λ back. back ≡ source) }
    {
        match PlainPipe::make(alloc, capacity, 0, 1) {
            Ok(pipe) => Ok(StreamReader { source, pipe }),
            Err(AllocError) => Err(source),
        }
    }

    /// How many bytes there is room for.
    pub fn capacity(&self) -> usize
        ensures room { result ≡ room_for self.now }
        ensures most { result ≤ 2 ^ 31 }
    {
        self.pipe.capacity()
    }

    /// Whether a lend stands, which only `advance` ends.
    pub fn lending(&self) -> bool
        ensures { result ≡ is_some (lend_len self.now) }
    {
        self.pipe.is_lending()
    }

    /// Lends all that is held, where some of it wasn't examined, the input has ended, or a cancellation stands; else it
    /// reads the source first: `PipeReader.ReadAsync`. It waits as long as the source's reads do, and its answer is never
    /// Pending. Once the input has ended `ended` is `Some(0)`.
    pub fn read(&mut self) -> Result<ReadReply, StreamFault>
        requires { IsNone (lend_len self.old) }
        ensures reads { (first : Option (List ℕ)) (h : List Call) → Stands first self.old h → ReadsIn first 0 self.old result self.new h }
        ensures ready { IfOk result IsReady }
        ensures lend { lend_len self.new ≡ lent_by result }
        ensures faults { CountsFault result self.old.source.faults self.new.source.faults }
        ensures capacity { room_for self.new ≡ room_for self.old }
    {
        self.read_for(0)
    }

    /// The same for at least `n` bytes, fewer only where the input has ended or a cancellation stands:
    /// `PipeReader.ReadAtLeastAsync`. It reads the source at most `n` times.
    pub fn read_at_least(&mut self, n: u64) -> Result<ReadReply, StreamFault>
        requires no_lend { IsNone (lend_len self.old) }
        requires some { 1 ≤ n }
        requires most { n ≤ room_for self.old }
        ensures reads { (first : Option (List ℕ)) (h : List Call) → Stands first self.old h → ReadsIn first n self.old result self.new h }
        ensures ready { IfOk result IsReady }
        ensures lend { lend_len self.new ≡ lent_by result }
        ensures faults { CountsFault result self.old.source.faults self.new.source.faults }
        ensures capacity { room_for self.new ≡ room_for self.old }
    {
        // What the invariant says, that there is room for at most 2^31 bytes, bounds `n`.
        let _ = &self.pipe;
        self.read_for(n)
    }

    /// The bytes that the last read lent, in place: `ReadResult.Buffer`. Where no lend stands there are none.
    pub fn lent(&self) -> &[u8]
        ensures bytes { (first : Option (List ℕ)) (h : List Call) → Stands first self.now h → IsSome (lend_len self.now) → lend h ≡ Some result.now }
        ensures len { length result.now ≡ unwrap_or (lend_len self.now) 0 }
        ensures most { length result.now ≤ 2 ^ 31 }
    {
        self.pipe.lent()
    }

    /// Gives up the first `c` of the lent bytes, tells that the first `e` of them were examined, and ends the lend:
    /// `PipeReader.AdvanceTo(consumed, examined)`. What isn't consumed is lent by the next read, which reads the source
    /// first where all was examined.
    pub fn advance(&mut self, c: u64, e: u64)
        requires { MayAdvance (lend_len self.old) c e }
        ensures stands { (first : Option (List ℕ)) (h : List Call) → Stands first self.old h → Stands first self.new (Advance c e ∷ h) }
        ensures no_lend { lend_len self.new ≡ None }
        ensures source { self.new.source ≡ self.old.source }
        ensures capacity { room_for self.new ≡ room_for self.old }
    {
        self.pipe.advance(c, e);
    }

    /// Lets the next read be answered at once, with `canceled` and with all that is held: `PipeReader.CancelPendingRead`.
    /// No byte is lost.
    pub fn cancel(&mut self)
        ensures stands { (first : Option (List ℕ)) (h : List Call) → Stands first self.old h → Stands first self.new (CancelRead ∷ h) }
        ensures lend { lend_len self.new ≡ lend_len self.old }
        ensures source { self.new.source ≡ self.old.source }
        ensures capacity { room_for self.new ≡ room_for self.old }
    {
        self.pipe.cancel_read();
    }

    /// Gives the source back, as it is: `PipeReader.Complete` of a reader that leaves its stream open. What is held is let go.
    pub fn complete(self) -> S
        ensures { S.state result ≡ self.source }
    {
        let StreamReader { source, .. } = self;
        source
    }

    // A read for at least so many bytes.
    fn read_for(&mut self, n: u64) -> Result<ReadReply, StreamFault>
        requires no_lend { IsNone (lend_len self.old) }
        requires most { n ≤ 2 ^ 62 }
        ensures reads { (first : Option (List ℕ)) (h : List Call) → Stands first self.old h → ReadsIn first n self.old result self.new h }
        ensures ready { IfOk result IsReady }
        ensures lend { lend_len self.new ≡ lent_by result }
        ensures faults { CountsFault result self.old.source.faults self.new.source.faults }
        ensures capacity { room_for self.new ≡ room_for self.old }
    {
        while !self.is_ready(n) {
            match self.fill() {
                Ok(()) => (),
                Err(fault) => return Err(fault),
            }
        }
        Ok(self.answer(n))
    }

    // Whether a read for at least so many bytes can be answered as things are.
    fn is_ready(&self, n: u64) -> bool
        ensures told { (h : List Call) → HoldsFor self.now.pipe h → result ≡ read_is_ready n h }
        ensures unended { result ≡ false → IsNone self.now.pipe.control.ended }
    {
        self.pipe.is_read_ready(n)
    }

    // Answers a read that can be answered.
    fn answer(&mut self, n: u64) -> ReadReply
        requires no_lend { IsNone (lend_len self.old) }
        requires most { n ≤ 2 ^ 62 }
        requires ready { (h : List Call) → HoldsFor self.old.pipe h → read_is_ready n h ≡ true }
        ensures told { (first : Option (List ℕ)) (h : List Call) → Stands first self.old h → result ≡ reply_to_read n h }
        ensures stands { (first : Option (List ℕ)) (h : List Call) → Stands first self.old h → Stands first self.new (Read n ∷ h) }
        ensures ready { IsReady result }
        ensures lend { lend_len self.new ≡ lent_by (Ok result) }
        ensures source { self.new.source ≡ self.old.source }
        ensures capacity { room_for self.new ≡ room_for self.old }
    {
        plain_pipe_has_a_history(&self.pipe);
        let (reply, _) = self.pipe.read_at_least(n);
        reply
    }

    // Reads the source once, and tells the pipe what it gave.
    fn fill(&mut self) -> Result<(), StreamFault>
        requires { IsNone self.old.pipe.control.ended }
        ensures fills { (first : Option (List ℕ)) (n : ℕ) (h : List Call) → Stands first self.old h → read_is_ready n h ≡ false →
            FillsOnce first n self.old result self.new h }
        ensures lend { lend_len self.new ≡ lend_len self.old }
        ensures capacity { room_for self.new ≡ room_for self.old }
        ensures less { OnOk result (reads_left self.new.pipe < reads_left self.old.pipe) }
        ensures unfailed { OnOk result (self.new.source.faults ≡ self.old.source.faults) }
        ensures faults { IfErr result (λ fault. CountsFault (Err fault) self.old.source.faults self.new.source.faults) }
    {
        match self.room_to_fill() {
            Err(fault) => Err(fault),
            Ok(most) => match self.source.read(self.pipe.spare_front_mut(most)) {
                Err(Failed) => Err(StreamFault::ReadFault),
                Ok(read) => {
                    tell(&mut self.pipe, read);
                    Ok(())
                }
            },
        }
    }

    // How many bytes the source may be read for: at least one.
    fn room_to_fill(&self) -> Result<usize, StreamFault>
        ensures some { IfOk result (λ most. 0 < most) }
        ensures room { IfOk result (λ most. most ≤ length self.now.pipe.bytes.free) }
        ensures below { IfOk result (λ most. self.now.pipe.control.committed + most ≤ 2 ^ 62) }
        ensures why { (first : Option (List ℕ)) (n : ℕ) (h : List Call) → Stands first self.now h → read_is_ready n h ≡ false →
            FindsRoom n (room_for self.now) h self.now.source result }
        ensures faults { IfErr result (λ fault. CountsFault (Err fault) self.now.source.faults self.now.source.faults) }
    {
        plain_pipe_has_a_history(&self.pipe);
        let total = self.pipe.committed();
        if total == MOST {
            return Err(StreamFault::TooMuch { total });
        }
        let room = self.pipe.room();
        if room == 0 {
            let held = self.pipe.held_len() as u64;
            return Err(StreamFault::Full { held });
        }
        Ok(room.min((MOST - total) as usize))
    }
}

// Tells a pipe what a read of the source gave: so many bytes at the front of the free part, or the end.
fn tell(pipe: &mut PlainPipe, read: usize)
    requires writing { IsNone pipe.old.control.ended }
    requires attended { IsNone pipe.old.control.gone }
    requires no_draft { pipe.old.bytes.draft ≡ [] }
    requires room { read ≤ length pipe.old.bytes.free }
    requires below { pipe.old.control.committed + read ≤ 2 ^ 62 }
    ensures { IsTold (telling (take read pipe.old.bytes.free)) pipe.old pipe.new }
{
    if read == 0 {
        end(pipe);
    } else {
        commit(pipe, read);
    }
}

// Completes the writer of a pipe that has no draft.
fn end(pipe: &mut PlainPipe)
    requires writing { IsNone pipe.old.control.ended }
    requires attended { IsNone pipe.old.control.gone }
    requires no_draft { pipe.old.bytes.draft ≡ [] }
    ensures { IsTold (EndWriter 0) pipe.old pipe.new }
{
    plain_pipe_has_a_history(pipe);
    match pipe.end_writer(0) {
        Ok(_) => (),
        Err(_) => unreachable!(),
    }
}

// Commits so many bytes of the free part, where there is no draft.
fn commit(pipe: &mut PlainPipe, read: usize)
    requires writing { IsNone pipe.old.control.ended }
    requires attended { IsNone pipe.old.control.gone }
    requires no_draft { pipe.old.bytes.draft ≡ [] }
    requires some { 0 < read }
    requires room { read ≤ length pipe.old.bytes.free }
    requires below { pipe.old.control.committed + read ≤ 2 ^ 62 }
    ensures { IsTold (Commit (run_in 0 (take read pipe.old.bytes.free))) pipe.old pipe.new }
{
    plain_pipe_has_a_history(pipe);
    pipe.advance_draft(read);
    match pipe.flush() {
        Ok(_) => (),
        Err(_) => unreachable!(),
    }
}
