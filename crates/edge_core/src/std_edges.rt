//! std's readers and writers as devices.

ghost use Rattle.std.specs.Prelude.{◌≡◌, ◌<◌, ◌≤◌, [], length, take, OnErr, OnOk, IfOk};
ghost use Rattle.std.specs.Io.KnownBytes.{IsAtEnd};
ghost use Rattle.edge_core.specs.Device.{Gives, Takes, Fails, SinkFails};
ghost use Rattle.edge_core.specs.Plan.{raised};
ghost use Rattle.edge_core.specs.StdEdges.{reader_state, writer_state};

use crate::device::{Failed, Sink, Source};
use std::io::{Read, Write};

/// A reader as a source. Each read that answers an error counts as a fault, an interrupted one too. What a reader
/// answers is in no contract, so none says that a fault comes from it alone.
#[derive(Debug, Drop)]
pub struct ReadEdge<R> {
    inner: R,
    faults: u64,
}

impl<R: Read> ReadEdge<R> {
    /// A source of what `inner` will still give, with no fault counted.
    pub fn new(inner: R) -> Self
        ensures { reader_state R.remaining result ≡ record { left = R.remaining inner; faults = 0 } }
    {
        ReadEdge { inner, faults: 0 }
    }

    /// How many reads have failed; the count stops at `u64::MAX`.
    pub fn faults(&self) -> u64
        ensures { result ≡ (reader_state R.remaining self.now).faults }
    {
        self.faults
    }
}

impl<R: Read> Source for ReadEdge<R> {
    ghost state = { reader_state R.remaining };

    fn read(&mut self, buf: &mut [u8]) -> Result<usize, Failed>
        ensures room { IfOk result (λ n. n ≤ length buf.old) }
        ensures given { IfOk result (λ n.
            Gives (reader_state R.remaining self.old) (take n buf.new) (reader_state R.remaining self.new)) }
        ensures end { IfOk result (λ n.
            n ≡ 0 → 0 < length buf.old → IsAtEnd (reader_state R.remaining self.new).left) }
        ensures failed { OnErr result (Fails (reader_state R.remaining self.old) (reader_state R.remaining self.new)) }
        ensures counted { OnErr result (
            (reader_state R.remaining self.new).faults ≡ raised (reader_state R.remaining self.old).faults) }
    {
        match self.inner.read(buf) {
            Ok(count) => Ok(count),
            Err(_) => {
                self.faults = self.faults.saturating_add(1);
                Err(Failed)
            }
        }
    }
}

/// A writer as a sink. Each write or flush that answers an error counts as a fault, an interrupted one too, and so
/// does a write that takes nothing of some bytes. What a writer answers, and that it was flushed, is in no contract.
#[derive(Debug, Drop)]
pub struct WriteEdge<W> {
    inner: W,
    faults: u64,
}

impl<W: Write> WriteEdge<W> {
    /// A sink that passes on to `inner`, with no fault counted.
    pub fn new(inner: W) -> Self
        ensures { writer_state W.contents result ≡ record { written = W.contents inner; faults = 0; name = None } }
    {
        WriteEdge { inner, faults: 0 }
    }

    /// How many writes and flushes have failed; the count stops at `u64::MAX`.
    pub fn faults(&self) -> u64
        ensures { result ≡ (writer_state W.contents self.now).faults }
    {
        self.faults
    }

    /// The writer itself.
    pub fn into_inner(self) -> W
        ensures { W.contents result ≡ (writer_state W.contents self).written }
    {
        self.inner
    }
}

impl<W: Write> Sink for WriteEdge<W> {
    ghost state = { writer_state W.contents };

    fn write(&mut self, piece: &[u8]) -> Result<usize, Failed>
        ensures some { IfOk result (λ n. n ≤ length piece.now) }
        ensures progress { IfOk result (λ n. 0 < length piece.now → 0 < n) }
        ensures taken { IfOk result (λ n.
            Takes (writer_state W.contents self.old) (take n piece.now) (writer_state W.contents self.new)) }
        ensures failed { OnErr result (SinkFails (writer_state W.contents self.old) (writer_state W.contents self.new)) }
        ensures counted { OnErr result (
            (writer_state W.contents self.new).faults ≡ raised (writer_state W.contents self.old).faults) }
    {
        match self.inner.write(piece) {
            Ok(count) if count > 0 || piece.is_empty() => Ok(count),
            _ => {
                self.faults = self.faults.saturating_add(1);
                Err(Failed)
            }
        }
    }

    fn flush(&mut self) -> Result<(), Failed>
        ensures taken { OnOk result (Takes (writer_state W.contents self.old) [] (writer_state W.contents self.new)) }
        ensures failed { OnErr result (SinkFails (writer_state W.contents self.old) (writer_state W.contents self.new)) }
        ensures counted { OnErr result (
            (writer_state W.contents self.new).faults ≡ raised (writer_state W.contents self.old).faults) }
    {
        match self.inner.flush() {
            Ok(()) => Ok(()),
            Err(_) => {
                self.faults = self.faults.saturating_add(1);
                Err(Failed)
            }
        }
    }
}
