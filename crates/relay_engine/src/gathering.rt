//! Small pieces, gathered until they are worth a call of a sink.

ghost use Rattle.std.specs.Prelude.{◌≡◌, ◌+◌, ◌<◌, ◌≤◌, ℕ, [], ◌++◌, length, min, take, drop, OnErr, OnOk};
ghost use Rattle.edge_core.specs.Device.{Takes, TakesFront};
ghost use Rattle.span_seq.specs.Sequence.{bytes};
ghost use Rattle.relay_engine.specs.Gathering.{Puts, PutsFront, begun, counted};
ghost use Rattle.relay_engine.specs.Spelling.{SpellsFront};

use edge_core::{Failed, Sink, write_all};
use frame_fronts::spell_front;
use frame_grammar::Job;
use span_seq::{Sequence, Spans};
use std::marker::Model;

/// How many bytes are gathered at most.
const ROOM: usize = 32_768;

/// A piece of so many bytes is handed on from where it lies: a call of the sink costs less than to copy it.
const LARGE: usize = 16_384;

/// A whole payload of so many bytes is left to the call that puts piece by piece.
const LONG: u64 = 4_096;

/// How many bytes at the front of some others were passed over, in how many frames, and in how many bytes these were put.
/// Where lines come in, so many bytes behind them are known to have no line feed.
#[derive(Clone, Copy)]
pub struct Passed {
    pub len: usize,
    pub frames: u64,
    pub written: usize,
    pub searched: usize,
}

/// Bytes on their way to a sink, behind all that came to it since the gathering began.
#[derive(Drop)]
pub struct Gathering {
    room: [u8; ROOM],
    len: usize,
    // All frames of a lend may have more bytes than 64 bits tell.
    passed: u128,
}

impl Model for Gathering {
    ghost use Rattle.std.specs.Prelude.{◌≤◌, take};
    ghost use Rattle.relay_engine.specs.Gathering.{Gathered};

    ghost Value = { Gathered };

    ghost view = { λ g. record { bytes = take g.len g.room; passed = g.passed } };

    ghost invariant = { λ g. g.len ≤ 32768 };
}

impl Gathering {
    /// Nothing is gathered, and nothing came to the sink.
    pub fn new() -> Gathering
        ensures { result ≡ begun }
    {
        Gathering {
            room: [0; ROOM],
            len: 0,
            passed: 0,
        }
    }

    /// Begins anew.
    pub fn begin(&mut self)
        ensures { self.new ≡ begun }
    {
        self.len = 0;
        self.passed = 0;
    }

    /// How many bytes came to the sink.
    pub fn passed(&self) -> u128
        ensures { result ≡ self.now.passed }
    {
        self.passed
    }

    /// Puts a piece behind what is gathered. A large one is handed on in place.
    #[inline(always)]
    pub fn put<K: Sink>(&mut self, sink: &mut K, piece: &[u8]) -> Result<(), Failed>
        ensures put { OnOk result (Puts self.old (K.state sink.old) piece.now self.new (K.state sink.new)) }
        ensures failed { OnErr result (PutsFront self.old (K.state sink.old) piece.now self.new (K.state sink.new)) }
    {
        // A head or a tail is often empty.
        if piece.len() == 0 {
            return Ok(());
        }
        if piece.len() <= (ROOM - self.len).min(LARGE - 1) {
            self.append(piece);
            return Ok(());
        }
        self.put_over(sink, piece)
    }

    // Puts a piece that is large, or for which the room that is left may be too small.
    #[cold]
    #[inline(never)]
    fn put_over<K: Sink>(&mut self, sink: &mut K, piece: &[u8]) -> Result<(), Failed>
        ensures put { OnOk result (Puts self.old (K.state sink.old) piece.now self.new (K.state sink.new)) }
        ensures failed { OnErr result (PutsFront self.old (K.state sink.old) piece.now self.new (K.state sink.new)) }
    {
        if piece.len() >= LARGE {
            self.write_out(sink)?;
            return self.hand_on(sink, piece);
        }
        let (front, rest) = piece.split_at(piece.len().min(ROOM - self.len));
        self.append(front);
        self.write_out(sink)?;
        self.append(rest);
        Ok(())
    }

    /// Puts the frames at the front of some bytes, spelt anew, behind what is gathered, as far as they are small and there is
    /// room for them. It makes no call of a sink.
    #[inline(always)]
    pub fn spell(&mut self, job: &Job, bytes: &[u8]) -> Passed
        ensures { SpellsFront job.now bytes.now self.old result self.new }
    {
        let at = self.len;
        let max = copied_at_most(job.max);
        let spelt = spell_front(job.input, job.output, max, bytes, &mut self.room, at);
        self.len = spelt.end;
        Passed {
            len: spelt.len,
            frames: spelt.frames,
            written: spelt.end - at,
            searched: 0,
        }
    }

    /// Puts all spans of a sequence behind what is gathered, in order.
    pub fn put_spans<C: Spans, K: Sink>(
        &mut self,
        sink: &mut K,
        seq: &Sequence<'_, C>,
    ) -> Result<(), Failed>
        ensures put { OnOk result (Puts self.old (K.state sink.old) (bytes seq.now) self.new (K.state sink.new)) }
        ensures failed { OnErr result (PutsFront self.old (K.state sink.old) (bytes seq.now) self.new (K.state sink.new)) }
    {
        let first = seq.first();
        if first.len() as u64 == seq.len() {
            return self.put(sink, first);
        }
        let mut rest = *seq;
        while let Some((first, behind)) = rest.split_first() {
            self.put(sink, first)?;
            rest = behind;
        }
        Ok(())
    }

    /// Writes what is gathered, which makes no call where that is nothing.
    pub fn write_out<K: Sink>(&mut self, sink: &mut K) -> Result<(), Failed>
        ensures none { OnOk result (self.new.bytes ≡ []) }
        ensures put { OnOk result (Puts self.old (K.state sink.old) [] self.new (K.state sink.new)) }
        ensures failed { OnErr result (PutsFront self.old (K.state sink.old) [] self.new (K.state sink.new)) }
    {
        let (written, passed) = write_counted(sink, &self.room[..self.len], self.passed);
        self.len = 0;
        self.passed = passed;
        written
    }

    // Writes a piece where nothing is gathered.
    fn hand_on<K: Sink>(&mut self, sink: &mut K, piece: &[u8]) -> Result<(), Failed>
        requires { self.old.bytes ≡ [] }
        ensures put { OnOk result (Puts self.old (K.state sink.old) piece.now self.new (K.state sink.new)) }
        ensures failed { OnErr result (PutsFront self.old (K.state sink.old) piece.now self.new (K.state sink.new)) }
    {
        let (written, passed) = write_counted(sink, piece, self.passed);
        self.passed = passed;
        written
    }

    // Takes a piece for which there is room.
    #[inline(always)]
    fn append(&mut self, piece: &[u8])
        requires { length self.old.bytes + length piece.now ≤ 32768 }
        ensures { self.new ≡ record { bytes = self.old.bytes ++ piece.now; passed = self.old.passed } }
    {
        copy_at(&mut self.room, self.len, piece);
        self.len += piece.len();
    }
}

// How many bytes a payload has at most that is copied, and not handed on in place.
#[inline(always)]
fn copied_at_most(max: u64) -> u64
    ensures { result ≡ min max 4095 }
{
    max.min(LONG - 1)
}

// Writes a piece behind so many bytes, and answers how many there are then.
fn write_counted<K: Sink>(sink: &mut K, piece: &[u8], before: u128) -> (Result<(), Failed>, u128)
    ensures whole { OnOk result.0 (Takes (K.state sink.old) piece.now (K.state sink.new) × (result.1 ≡ counted (before + length piece.now))) }
    ensures front { OnErr result.0 ((count : ℕ) × (count < length piece.now) × TakesFront (K.state sink.old) piece.now count (K.state sink.new) × (result.1 ≡ counted (before + count))) }
{
    match write_all(sink, piece) {
        Ok(()) => (Ok(()), before.saturating_add(piece.len() as u128)),
        Err(broken) => (
            Err(Failed),
            before.saturating_add(u128::from(broken.written)),
        ),
    }
}

// Copies a piece over the bytes of a room from `at` on.
fn copy_at(room: &mut [u8], at: usize, piece: &[u8])
    requires { at + length piece.now ≤ length room.old }
    ensures { room.new ≡ take at room.old ++ (piece.now ++ drop (at + length piece.now) room.old) }
{
    room[at..at + piece.len()].copy_from_slice(piece);
}
