//! A reader of a sequence.

ghost use Rattle.std.specs.Prelude.{◌≡◌, ◌&&◌, ◌-◌, ◌<◌, ◌≤◌, ◌↔◌, [], length, take, IsTrue, is_some, if◌then◌else◌, slice_get, slice_index_or};
ghost use Rattle.span_seq.specs.Spans.{spans_of};
ghost use Rattle.span_seq.specs.Sequence.{bytes, part};
ghost use Rattle.seq_reader.specs.Reading.{list_of, moved, rest_of, rest_part};

use span_seq::{Sequence, Spans};
use std::marker::Model;

/// Reads a sequence from its front, as .NET's `SequenceReader<byte>`.
///
/// An answer of `None` or `false` leaves it where it was. Nothing that it is asked takes memory.
#[derive(Drop)]
pub struct SeqReader<'a, C: Spans> {
    rest: Sequence<'a, C>,
    place: u64,
}

impl<'a, C: Spans> Model for SeqReader<'a, C> {
    ghost use Rattle.std.specs.Prelude.{◌-◌, ◌≤◌};
    ghost use Rattle.span_seq.specs.Spans.{Part};
    ghost use Rattle.span_seq.specs.Sequence.{part};
    ghost use Rattle.seq_reader.specs.Reading.{Reading};

    ghost Value = { Reading };

    ghost view = { λ reader. record {
      part = record (part reader.rest) { from = (part reader.rest).from - reader.place };
      place = reader.place;
    } };

    ghost invariant = { λ reader. reader.place ≤ (part reader.rest).from };
}

impl<'a, C: Spans> SeqReader<'a, C> {
    /// A reader that has passed nothing of a sequence.
    #[inline]
    pub fn new(seq: Sequence<'a, C>) -> Self
        ensures { result ≡ record { part = part seq.entry; place = 0 } }
    {
        SeqReader {
            rest: seq,
            place: 0,
        }
    }

    /// How many bytes it has passed, as `Consumed`.
    #[inline]
    pub fn consumed(&self) -> u64
        ensures { result ≡ self.now.place }
    {
        self.place
    }

    /// How many bytes it hasn't passed, as `Remaining`.
    #[inline]
    pub fn remaining(&self) -> u64
        ensures { result ≡ length (rest_of self.now) }
    {
        self.rest.len()
    }

    /// How many bytes there are in all, as `Length`.
    #[inline]
    pub fn len(&self) -> u64
        ensures { result ≡ length (list_of self.now) }
    {
        self.place + self.rest.len()
    }

    /// Whether it has passed all bytes, as `End`.
    #[inline]
    pub fn end(&self) -> bool
        ensures { IsTrue result ↔ (rest_of self.now ≡ []) }
    {
        self.unread().is_empty()
    }

    /// What the next span has of the bytes that it hasn't passed, as `UnreadSpan`. Empty only at the end.
    #[inline]
    pub fn unread_span(&self) -> &'a [u8]
        ensures span { result.now ≡ slice_index_or (spans_of (rest_part self.now)) 0 [] }
        ensures front { take (length result.now) (rest_of self.now) ≡ result.now }
        ensures some { 0 < length (rest_of self.now) → 0 < length result.now }
    {
        self.unread().first()
    }

    /// The bytes that it hasn't passed, as `UnreadSequence`.
    #[inline]
    pub fn unread(&self) -> Sequence<'a, C>
        ensures part { part result ≡ rest_part self.now }
        ensures bytes { bytes result ≡ rest_of self.now }
    {
        self.rest
    }

    /// The next byte, as `TryPeek`.
    #[inline]
    pub fn peek(&self) -> Option<u8>
        ensures { result ≡ slice_get (rest_of self.now) 0 }
    {
        self.rest.first().first().copied()
    }

    /// The byte `offset` bytes behind the next one, as `TryPeek` with an offset.
    pub fn peek_at(&self, offset: u64) -> Option<u8>
        ensures { result ≡ slice_get (rest_of self.now) offset }
    {
        if offset >= self.rest.len() {
            return None;
        }
        self.rest.without_front(offset).first().first().copied()
    }

    /// Reads the next byte, as `TryRead`.
    #[inline]
    pub fn read(&mut self) -> Option<u8>
        ensures value { result ≡ slice_get (rest_of self.old) 0 }
        ensures place { self.new ≡ moved self.old (if is_some result then 1 else 0) }
    {
        let byte = self.peek()?;
        self.advance(1);
        Some(byte)
    }

    /// Passes `count` bytes, as `Advance`.
    #[inline]
    pub fn advance(&mut self, count: u64)
        requires { count ≤ length (rest_of self.old) }
        ensures { self.new ≡ moved self.old count }
    {
        self.rest = self.rest.without_front(count);
        self.place += count;
    }

    /// Goes back `count` bytes, as `Rewind`.
    pub fn rewind(&mut self, count: u64)
        requires { count ≤ self.old.place }
        ensures { self.new ≡ record self.old { place = self.old.place - count } }
    {
        self.rest = self.rest.with_front(count);
        self.place -= count;
    }

    /// Whether these bytes come next, which it then passes where `past`, as `IsNext`.
    pub fn is_next(&mut self, bytes: &[u8], past: bool) -> bool
        ensures next { IsTrue result ↔ (take (length bytes.now) (rest_of self.old) ≡ bytes.now) }
        ensures place { self.new ≡ moved self.old (if result && past then length bytes.now else 0) }
    {
        let is_next = self.unread().starts_with(bytes);
        if is_next && past {
            self.advance(bytes.len() as u64);
        }
        is_next
    }

    /// Copies the next bytes to all of `out`, where there are as many, as `TryCopyTo`. It passes none of them.
    pub fn copy_to(&self, out: &mut [u8]) -> bool
        ensures enough { IsTrue result ↔ (length out.old ≤ length (rest_of self.now)) }
        ensures copied { out.new ≡ (if result then take (length out.old) (rest_of self.now) else out.old) }
    {
        let rest = self.unread();
        let len = out.len() as u64;
        if len > rest.len() {
            return false;
        }
        rest.slice(rest.start(), rest.position(len)).copy_to(out);
        true
    }
}
