//! Devices of which one call waits until the other device's call has begun, so that they pass only where both run beside
//! each other.

ghost use Rattle.std.specs.Prelude.{◌≡◌, None, Some, IsErr, OnErr, OnOk};
ghost use Rattle.edge_core.specs.Device.{SinkState, SourceState, HasRisen};

use edge_core::{Failed, Sink, Source, WholeSource};
use std::sync::atomic::{AtomicBool, Ordering};
use std::thread::yield_now;

/// How often a held call gives way before it fails.
const TURNS: u32 = 4_000_000;

/// Whether each call has begun.
#[derive(Drop)]
pub struct Begun {
    read: AtomicBool,
    write: AtomicBool,
}

impl Begun {
    pub fn new() -> Begun {
        Begun {
            read: AtomicBool::new(false),
            write: AtomicBool::new(false),
        }
    }

    /// Both have, so no call waits.
    pub fn both() -> Begun {
        Begun {
            read: AtomicBool::new(true),
            write: AtomicBool::new(true),
        }
    }
}

/// Tells that a call has begun, and waits until the other one has. Whether it did.
fn meet(mine: &AtomicBool, other: &AtomicBool) -> bool {
    mine.store(true, Ordering::SeqCst);
    for _ in 0..TURNS {
        if other.load(Ordering::SeqCst) {
            return true;
        }
        yield_now();
    }
    false
}

/// A source whose second read waits for a write.
#[derive(Drop)]
pub struct HeldSource<'a> {
    content: WholeSource,
    reads: u64,
    faults: u64,
    begun: &'a Begun,
}

impl<'a> HeldSource<'a> {
    pub fn new(content: Vec<u8>, begun: &'a Begun) -> HeldSource<'a> {
        HeldSource {
            content: WholeSource::make(content),
            reads: 0,
            faults: 0,
            begun,
        }
    }
}

impl Source for HeldSource<'_> {
    ghost state = { λ source. record { left = Some source.content; faults = source.faults } };

    fn read(&mut self, buf: &mut [u8]) -> Result<usize, Failed> {
        self.reads = self.reads.saturating_add(1);
        if self.reads == 2 && !meet(&self.begun.read, &self.begun.write) {
            self.faults = self.faults.saturating_add(1);
            return Err(Failed);
        }
        self.content.read(buf)
    }
}

/// A sink whose first write waits for the second read.
#[derive(Drop)]
pub struct HeldSink<'a> {
    written: Vec<u8>,
    writes: u64,
    faults: u64,
    begun: &'a Begun,
}

impl<'a> HeldSink<'a> {
    pub fn new(written: Vec<u8>, begun: &'a Begun) -> HeldSink<'a> {
        HeldSink {
            written,
            writes: 0,
            faults: 0,
            begun,
        }
    }

    pub fn bytes(&self) -> &[u8] {
        self.written.as_slice()
    }
}

impl Sink for HeldSink<'_> {
    ghost state = { λ sink. record { written = Some sink.written.items; faults = sink.faults; name = None } };

    fn write(&mut self, piece: &[u8]) -> Result<usize, Failed> {
        self.writes = self.writes.saturating_add(1);
        if self.writes == 1 && !meet(&self.begun.write, &self.begun.read) {
            self.faults = self.faults.saturating_add(1);
            return Err(Failed);
        }
        if self.written.extend_from_slice(piece).is_err() {
            self.faults = self.faults.saturating_add(1);
            return Err(Failed);
        }
        Ok(piece.len())
    }

    fn flush(&mut self) -> Result<(), Failed> {
        Ok(())
    }
}
