//! Walking over spans, a step for each.

ghost use Rattle.std.specs.Prelude.{◌≡◌, ◌+◌, ◌-◌, ◌^◌, ◌<◌, ◌≤◌, length};
ghost use Rattle.span_seq.specs.Spans.{place_of, size_of, IsAt, IsAtByte};

use crate::spans::Spans;

/// Where a byte lies: in which span, and how many of that span's bytes stand before it.
#[derive(Clone, Copy, Debug)]
pub(crate) struct Cursor {
    pub(crate) index: usize,
    pub(crate) skip: usize,
}

/// How many bytes there are in all.
pub(crate) fn total_len<C: Spans>(spans: &C) -> u64
    requires { size_of (C.spans spans.now) ≤ 2 ^ 62 }
    ensures { result ≡ size_of (C.spans spans.now) }
{
    let mut total = 0;
    for index in 0..spans.count() {
        total += spans.span(index).len() as u64;
    }
    total
}

/// The byte that lies `offset` bytes behind the start of the span at `index`.
#[inline]
pub(crate) fn seek<C: Spans>(spans: &C, index: usize, offset: u64) -> Cursor
    requires { place_of (C.spans spans.now) index offset < size_of (C.spans spans.now) }
    ensures { IsAtByte (C.spans spans.now) (place_of (C.spans spans.now) index offset) result.index result.skip }
{
    let mut skip = offset;
    for at in index..spans.count() {
        let len = spans.span(at).len() as u64;
        if skip < len {
            return Cursor {
                index: at,
                skip: skip as usize,
            };
        }
        skip -= len;
    }
    unreachable!()
}

/// The place `count` bytes before a cursor.
#[inline]
pub(crate) fn seek_back<C: Spans>(spans: &C, from: Cursor, count: u64) -> Cursor
    requires placed { IsAt (C.spans spans.now) (place_of (C.spans spans.now) from.index from.skip) from.index from.skip }
    requires some { 0 < count }
    requires within { count ≤ place_of (C.spans spans.now) from.index from.skip }
    ensures { IsAtByte (C.spans spans.now) (place_of (C.spans spans.now) from.index from.skip - count) result.index result.skip }
{
    let mut index = from.index;
    let mut ahead = from.skip;
    let mut left = count;
    while (ahead as u64) < left {
        left -= ahead as u64;
        index -= 1;
        ahead = spans.span(index).len();
    }
    Cursor {
        index,
        skip: ahead - left as usize,
    }
}

/// The place `count` bytes before the end of the spans.
#[inline]
pub(crate) fn before_end<C: Spans>(spans: &C, count: u64) -> Cursor
    requires { count ≤ size_of (C.spans spans.now) }
    ensures at { IsAt (C.spans spans.now) (size_of (C.spans spans.now) - count) result.index result.skip }
    ensures byte { 0 < count → IsAtByte (C.spans spans.now) (size_of (C.spans spans.now) - count) result.index result.skip }
{
    let end = Cursor {
        index: spans.count(),
        skip: 0,
    };
    if count == 0 {
        return end;
    }
    seek_back(spans, end, count)
}
