//! The writer over a sink.

ghost use Rattle.std.specs.Prelude.{◌≡◌, ◌≤◌, ◌^◌, ◌++◌, true, false, ℕ, List, [], length, Option, take, Err, IfOk, IfErr};
ghost use Rattle.std.specs.Borrow.{Lends, Array, u8, sem};
ghost use Rattle.std.specs.Io.KnownBytes.{Appends};
ghost use Rattle.edge_core.specs.Device.{Takes};
ghost use Rattle.stream_ends.specs.contracts.writer.StreamWriter.{the_row};
ghost use Rattle.stream_ends.specs.Writer.{Flushes, HasWritten, Writes, advanced, room_of};
ghost use Rattle.stream_ends.specs.Lending.{with_spare};

use crate::faults::WriteFault;
use edge_core::{BrokenOff, Failed, Sink, write_all};
use pipe_core::{Buffer, FlushReply};
use std::alloc::{AllocError, Global};
use std::marker::Model;

/// A pipe's writer over a sink, for one thread: `PipeWriter.Create(stream)`.
///
/// What is written into the free part and advanced is the draft, which a flush hands to the sink. No call but `make`
/// takes memory.
#[derive(Debug, Drop)]
pub struct StreamWriter<K: Sink> {
    sink: K,
    buffer: Buffer,
    canceled: bool,
}

// What a failed flush has left stands in the buffer as held, and what was advanced since as its draft.
impl<K: Sink> Model for StreamWriter<K> {
    ghost use Rattle.std.specs.Prelude.{◌++◌};
    ghost use Rattle.stream_ends.specs.Writer.{WriterState};

    ghost Value = { WriterState };

    ghost view = { λ w. record { sink = K.state w.sink; draft = w.buffer.held ++ w.buffer.draft; free = w.buffer.free; canceled = w.canceled } };
}

/// A completion that failed, with the writer, which may complete again.
#[derive(Debug, Drop)]
pub struct WriterKept<K: Sink> {
    pub end: StreamWriter<K>,
    pub fault: WriteFault,
}

impl<K: Sink> StreamWriter<K> {
    /// A writer with nothing written, and room for `capacity` bytes, for which it takes twice as much memory. The sink comes
    /// back, unwritten, for want of memory alone.
    pub fn make(alloc: Global, sink: K, capacity: usize) -> Result<StreamWriter<K>, K>
        requires some { 1 ≤ capacity }
        requires most { capacity ≤ 2 ^ 31 }
        ensures unwritten { IfOk result (λ writer. writer.sink ≡ K.state sink) }
        ensures no_draft { IfOk result (λ writer. writer.draft ≡ []) }
        ensures room { IfOk result (λ writer. length writer.free ≡ capacity) }
        ensures uncanceled { IfOk result (λ writer. writer.canceled ≡ false) }
        ensures given { IfOk result (λ writer. HasWritten (K.state sink).written writer []) }
        ensures given_back { IfErr result (λ back. back ≡ sink) }
    {
        match Buffer::make(alloc, capacity) {
            Ok(buffer) => Ok(StreamWriter {
                sink,
                buffer,
                canceled: false,
            }),
            Err(AllocError) => Err(sink),
        }
    }

    /// The free part: room for the capacity less the draft. `PipeWriter.GetMemory`. What was written into it and not
    /// advanced isn't specified after another call.
    pub fn spare_mut(&mut self) -> &mut [u8]
        ensures* lends { sem 𝓛 (Lends (the_row K.row K.Sink) (Array u8 0) self.entry result (with_spare self.old)) }
        ensures value { result.now ≡ self.old.free }
    {
        self.buffer.free_mut()
    }

    /// Takes the first `n` bytes of the free part to the end of the draft: `PipeWriter.Advance`.
    pub fn advance(&mut self, n: usize)
        requires { n ≤ length self.old.free }
        ensures advanced { self.new ≡ advanced self.old n }
        ensures written { (first : Option (List ℕ)) (bytes : List ℕ) → HasWritten first self.old bytes → HasWritten first self.new (bytes ++ take n self.old.free) }
    {
        self.buffer.extend_draft(n);
    }

    /// How many bytes the draft has: `PipeWriter.UnflushedBytes`.
    pub fn unflushed(&self) -> u64
        ensures { result ≡ length self.now.draft }
    {
        (self.buffer.capacity() - self.buffer.free_len()) as u64
    }

    /// Lets the next flush that goes through answer `canceled`: `PipeWriter.CancelPendingFlush`. No byte is lost.
    pub fn cancel(&mut self)
        ensures { self.new ≡ record self.old { canceled = true } }
    {
        self.canceled = true;
    }

    /// Writes the draft to the sink, and flushes the sink: `PipeWriter.FlushAsync`. It waits as long as they do. Its answer is
    /// never Pending, and `gone` is None. Where a call of the sink failed, the bytes that it took have left the draft, and
    /// the next flush goes on behind them.
    pub fn flush(&mut self) -> Result<FlushReply, WriteFault>
        ensures flushes { Flushes self.old result self.new }
        ensures written { (first : Option (List ℕ)) (bytes : List ℕ) → HasWritten first self.old bytes → HasWritten first self.new bytes }
        ensures room { room_of self.new ≡ room_of self.old }
    {
        match self.write_draft() {
            Err(fault) => Err(fault),
            Ok(()) => {
                let canceled = self.canceled;
                self.canceled = false;
                Ok(FlushReply::Ready {
                    canceled,
                    gone: None,
                })
            }
        }
    }

    /// Flushes, and gives the sink back: `PipeWriter.Complete` of a writer that leaves its stream open. Where the flush
    /// failed, the writer comes back with what is left of its draft.
    pub fn complete(self) -> Result<K, WriterKept<K>>
        ensures whole { IfOk result (λ sink. Takes self.sink self.draft (K.state sink)) }
        ensures kept { IfErr result (λ kept. Flushes self (Err kept.fault) kept.end) }
        ensures written { IfOk result (λ sink. (first : Option (List ℕ)) (bytes : List ℕ) → HasWritten first self bytes → Appends first (K.state sink).written bytes) }
        ensures unwritten { IfErr result (λ kept. (first : Option (List ℕ)) (bytes : List ℕ) → HasWritten first self bytes → HasWritten first kept.end bytes) }
        ensures room { IfErr result (λ kept. room_of kept.end ≡ room_of self) }
    {
        let mut end = self;
        match end.flush() {
            Ok(_) => {
                let StreamWriter { sink, .. } = end;
                Ok(sink)
            }
            Err(fault) => Err(WriterKept { end, fault }),
        }
    }

    // Writes the draft, and flushes the sink.
    fn write_draft(&mut self) -> Result<(), WriteFault>
        ensures writes { Writes self.old result self.new }
        ensures canceled { self.new.canceled ≡ self.old.canceled }
        ensures room { room_of self.new ≡ room_of self.old }
    {
        self.buffer.settle_draft(false);
        let len = self.buffer.held().len() as u64;
        if let Err(BrokenOff { written }) = write_all(&mut self.sink, self.buffer.held()) {
            self.buffer.release(written as usize);
            return Err(WriteFault { taken: written });
        }
        self.buffer.release_all();
        match self.sink.flush() {
            Ok(()) => Ok(()),
            Err(Failed) => Err(WriteFault { taken: len }),
        }
    }
}
