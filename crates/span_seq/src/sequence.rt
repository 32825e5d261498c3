//! A part of the concatenated spans.

ghost use Rattle.std.specs.Prelude.{true, ◌≡◌, ◌==◌, ◌+◌, ◌-◌, ◌^◌, ◌<◌, ◌≤◌, ◌↔◌, ◌∷◌, ◌++◌, [], length, min, take, drop, All, IsTrue, IsNone, IsSome, IfNone, IfSome, IfOk, option_map, position, slice_index_or, slice_range};
ghost use Rattle.std.specs.List.{concat};
ghost use Rattle.span_seq.specs.Spans.{Holds, IsAt, IsAtByte, IsPart, size_of, spans_of, whole_of};

use crate::position::Position;
use crate::search::{Byte, Search};
use crate::span_iter::SpanIter;
use crate::spans::Spans;
use crate::walk::{Cursor, before_end, seek, seek_back, total_len};
use std::alloc::{AllocError, Global};

/// A part of the concatenated spans, as .NET's `ReadOnlySequence<byte>`. To copy it copies no byte.
///
/// Nothing that it is asked joins spans. A call that looks for a place takes a step for each span that lies before it, or, where
/// the sequence reaches the end of the spans and the place is nearer to that, for each span behind it.
pub struct Sequence<'a, C: Spans> {
    spans: &'a C,
    start: Cursor,
    from: u64,
    len: u64,
    // Nothing of the spans lies behind it.
    reaches_end: bool,
    ghost within: { from + len ≤ size_of (C.spans spans.now) },
    ghost counted: { size_of (C.spans spans.now) ≤ 2 ^ 62 },
    ghost placed: { IsAt (C.spans spans.now) from start.index start.skip },
    ghost begins: { 0 < len → IsAtByte (C.spans spans.now) from start.index start.skip },
    ghost ends: { reaches_end ≡ true → from + len ≡ size_of (C.spans spans.now) },
}

impl<C: Spans> Clone for Sequence<'_, C> {
    ghost is_clone = { λ s t. t ≡ s };

    fn clone(&self) -> Result<Self, AllocError> {
        Ok(*self)
    }
}

impl<C: Spans> Copy for Sequence<'_, C> {}

impl<'a, C: Spans> Sequence<'a, C> {
    ghost use Rattle.span_seq.specs.Sequence.{bytes, part};
    ghost use Rattle.span_seq.specs.SpanIter.{spans_left};

    /// All of the spans, whose bytes are counted.
    #[inline]
    pub fn whole(spans: &'a C) -> Self
        requires { size_of (C.spans spans.now) ≤ 2 ^ 62 }
        ensures part { part result ≡ whole_of (C.spans spans.now) }
    {
        Sequence::whole_with_len(spans, total_len(spans))
    }

    /// All of the spans, which have `len` bytes.
    #[inline]
    pub fn whole_with_len(spans: &'a C, len: u64) -> Self
        requires counted { len ≡ size_of (C.spans spans.now) }
        requires bound { len ≤ 2 ^ 62 }
        ensures part { part result ≡ whole_of (C.spans spans.now) }
    {
        let start = if len == 0 {
            Cursor { index: 0, skip: 0 }
        } else {
            seek(spans, 0, 0)
        };
        Sequence {
            spans,
            start,
            from: 0,
            len,
            reaches_end: true,
        }
    }

    /// How many bytes it has.
    #[inline]
    pub fn len(&self) -> u64
        ensures len { result ≡ length (bytes self.now) }
        ensures part { IsPart (part self.now) }
        ensures ends { (part self.now).from + result ≡ (part self.now).to }
        ensures small { (part self.now).to ≤ 2 ^ 62 }
    {
        self.len
    }

    /// Whether it has no byte.
    #[inline]
    pub fn is_empty(&self) -> bool
        ensures { IsTrue result ↔ (bytes self.now ≡ []) }
    {
        self.len == 0
    }

    /// Whether at most one span has bytes of it, as .NET's `IsSingleSegment`.
    #[inline]
    pub fn is_single(&self) -> bool
        ensures { IsTrue result ↔ (length (spans_of (part self.now)) ≤ 1) }
    {
        self.first().len() as u64 == self.len
    }

    /// Its bytes in the first span that has some, and no bytes where there are none, as .NET's `FirstSpan`.
    #[inline]
    pub fn first(&self) -> &'a [u8]
        ensures first { result.now ≡ slice_index_or (spans_of (part self.now)) 0 [] }
        ensures front { take (length result.now) (bytes self.now) ≡ result.now }
        ensures some { 0 < length (bytes self.now) → 0 < length result.now }
        ensures within { length result.now ≤ length (bytes self.now) }
    {
        if self.len == 0 {
            return &[];
        }
        let spans = self.spans;
        let behind = &spans.span(self.start.index)[self.start.skip..];
        let len = behind.len().min(self.len as usize);
        &behind[..len]
    }

    /// The place where it begins.
    #[inline]
    pub fn start(&self) -> Position
        ensures place { result ≡ (part self.now).from }
        ensures held { Holds (part self.now) result }
    {
        Position::new(self.from)
    }

    /// The place behind its last byte.
    #[inline]
    pub fn end(&self) -> Position
        ensures place { result ≡ (part self.now).to }
        ensures held { Holds (part self.now) result }
    {
        Position::new(self.from + self.len)
    }

    /// The place `offset` bytes behind its start, as .NET's `GetPosition`.
    #[inline]
    pub fn position(&self, offset: u64) -> Position
        requires { offset ≤ length (bytes self.now) }
        ensures place { result ≡ (part self.now).from + offset }
        ensures held { Holds (part self.now) result }
    {
        Position::new(self.from + offset)
    }

    /// How many bytes stand before a place in it, as .NET's `GetOffset`, but counted from this sequence's start.
    #[inline]
    pub fn offset_of(&self, at: Position) -> u64
        requires { Holds (part self.now) at }
        ensures offset { (part self.now).from + result ≡ at }
        ensures within { result ≤ length (bytes self.now) }
    {
        at.place() - self.from
    }

    /// The part of it from one place up to another.
    #[inline]
    pub fn slice(&self, from: Position, to: Position) -> Self
        requires from_held { Holds (part self.now) from }
        requires to_held { Holds (part self.now) to }
        requires ordered { from ≤ to }
        ensures part { part result ≡ record (part self.now) { from = from; to = to } }
        ensures bytes { bytes result ≡ slice_range (bytes self.now) (from - (part self.now).from) (to - (part self.now).from) }
    {
        let behind = self.without_front(from.place() - self.from);
        Sequence {
            spans: behind.spans,
            start: behind.start,
            from: behind.from,
            len: to.place() - from.place(),
            reaches_end: behind.reaches_end && to == self.end(),
        }
    }

    /// What stands behind its first `count` bytes.
    #[inline]
    pub fn without_front(&self, count: u64) -> Self
        requires { count ≤ length (bytes self.now) }
        ensures part { part result ≡ record (part self.now) { from = (part self.now).from + count } }
        ensures bytes { bytes result ≡ drop count (bytes self.now) }
    {
        Sequence {
            spans: self.spans,
            start: self.behind(count),
            from: self.from + count,
            len: self.len - count,
            reaches_end: self.reaches_end,
        }
    }

    // The place behind its first `count` bytes, sought from the nearer end.
    #[inline]
    fn behind(&self, count: u64) -> Cursor
        requires { count ≤ length (bytes self.now) }
        ensures at { IsAt (C.spans self.now.spans.now) ((part self.now).from + count) result.index result.skip }
        ensures byte { (part self.now).from + count < (part self.now).to → IsAtByte (C.spans self.now.spans.now) ((part self.now).from + count) result.index result.skip }
    {
        if count == 0 {
            return self.start;
        }
        let left = self.len - count;
        if self.reaches_end && left < count {
            return before_end(self.spans, left);
        }
        let offset = self.start.skip as u64 + count;
        if left > 0 {
            return seek(self.spans, self.start.index, offset);
        }
        let last = seek(self.spans, self.start.index, offset - 1);
        Cursor {
            index: last.index,
            skip: last.skip + 1,
        }
    }

    /// This sequence with the `count` bytes that stand before it in the spans.
    pub fn with_front(&self, count: u64) -> Self
        requires { count ≤ (part self.now).from }
        ensures { part result ≡ record (part self.now) { from = (part self.now).from - count } }
    {
        if count == 0 {
            return *self;
        }
        Sequence {
            spans: self.spans,
            start: seek_back(self.spans, self.start, count),
            from: self.from - count,
            len: self.len + count,
            reaches_end: self.reaches_end,
        }
    }

    /// Its bytes in the first span that has some, and the part behind them. `None` where it has no byte.
    #[inline]
    pub fn split_first(&self) -> Option<(&'a [u8], Self)>
        ensures none { IsNone result ↔ (bytes self.now ≡ []) }
        ensures end { IfNone result (spans_of (part self.now) ≡ []) }
        ensures spans { IfSome result (λ split. spans_of (part self.now) ≡ split.0.now ∷ spans_of (part split.1)) }
        ensures bytes { IfSome result (λ split. bytes self.now ≡ split.0.now ++ bytes split.1) }
        ensures some { IfSome result (λ split. 0 < length split.0.now) }
        ensures part { IfSome result (λ split. part split.1 ≡ record (part self.now) { from = (part self.now).from + length split.0.now }) }
    {
        if self.len == 0 {
            return None;
        }
        let first = self.first();
        Some((first, self.without_front(first.len() as u64)))
    }

    /// The offset of the first byte that a search finds, from this sequence's start. It searches span by span.
    pub fn index_of<S: Search>(&self, search: &S) -> Option<u64>
        ensures { result ≡ position (S.meets search.now) (bytes self.now) }
    {
        let mut rest = *self;
        let mut passed = 0;
        while !rest.is_empty() {
            let first = rest.first();
            if let Some(index) = search.index_in(first) {
                return Some(passed + index as u64);
            }
            let len = first.len() as u64;
            passed += len;
            rest = rest.without_front(len);
        }
        None
    }

    /// The first place of a byte, as .NET's `PositionOf`.
    pub fn position_of(&self, byte: u8) -> Option<Position>
        ensures place { result ≡ option_map (λ index. (part self.now).from + index) (position (λ other. other == byte) (bytes self.now)) }
        ensures held { IfSome result (λ at. Holds (part self.now) at) }
    {
        match self.index_of(&Byte(byte)) {
            Some(index) => Some(self.position(index)),
            None => None,
        }
    }

    /// Whether its first bytes are these.
    pub fn starts_with(&self, wanted: &[u8]) -> bool
        ensures { IsTrue result ↔ (take (length wanted.now) (bytes self.now) ≡ wanted.now) }
    {
        let mut rest = *self;
        let mut left = wanted;
        while !left.is_empty() {
            let Some((first, behind)) = rest.split_first() else {
                return false;
            };
            let Some(later) = behind_match(first, left) else {
                return false;
            };
            left = later;
            rest = behind;
        }
        true
    }

    /// Copies its bytes to the front of `out`, as .NET's `CopyTo`.
    pub fn copy_to(&self, out: &mut [u8])
        requires { length (bytes self.now) ≤ length out.old }
        ensures { out.new ≡ bytes self.now ++ drop (length (bytes self.now)) out.old }
    {
        let mut rest = *self;
        let mut done = 0;
        while let Some((first, behind)) = rest.split_first() {
            out[done..done + first.len()].copy_from_slice(first);
            done += first.len();
            rest = behind;
        }
    }

    /// Its bytes in a vector, as .NET's `ToArray`.
    pub fn to_vec(&self, alloc: Global) -> Result<Vec<u8>, AllocError>
        ensures { IfOk result (λ vec. vec.items ≡ bytes self.now) }
    {
        let mut vec = Vec::with_capacity(alloc, self.len as usize)?;
        let mut rest = *self;
        while let Some((first, behind)) = rest.split_first() {
            vec.extend_from_slice(first)?;
            rest = behind;
        }
        Ok(vec)
    }

    /// Its bytes in each span that has some, in order, as .NET's `GetEnumerator`.
    #[inline]
    pub fn spans(&self) -> SpanIter<'a, C>
        ensures spans { spans_left result ≡ spans_of (part self.now) }
        ensures bytes { concat (spans_of (part self.now)) ≡ bytes self.now }
        ensures some { All (λ span. 0 < length span) (spans_of (part self.now)) }
    {
        SpanIter::new(*self)
    }
}

// What of `wanted` stands behind the bytes of `first`, where they agree as far as both go.
#[inline]
fn behind_match<'b>(first: &[u8], wanted: &'b [u8]) -> Option<&'b [u8]>
    ensures agree { let len = min (length first.now) (length wanted.now) in IsSome result ↔ (take len first.now ≡ take len wanted.now) }
    ensures rest { IfSome result (λ rest. rest.now ≡ drop (min (length first.now) (length wanted.now)) wanted.now) }
{
    let len = first.len().min(wanted.len());
    let (front, rest) = wanted.split_at(len);
    if &first[..len] == front {
        Some(rest)
    } else {
        None
    }
}
