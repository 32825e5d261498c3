//! The byte that ends a line.

ghost use Rattle.std.specs.Prelude.{◌≡◌, ◌≤◌, length, position, take, IsNone};
ghost use Rattle.std.specs.List.{position_or_len};
ghost use Rattle.frame_model.specs.Spelling.{is_line_feed};
ghost use Rattle.span_seq.specs.Sequence.{bytes};

use span_seq::{Byte, Sequence, Spans};

pub const LINE_FEED: u8 = 10;

/// The index of the first line feed, where there is none among the first `known` bytes. Only what is behind these is searched.
pub fn first_line_feed<C: Spans>(seq: &Sequence<'_, C>, known: u64) -> Option<u64>
    requires within { known ≤ length (bytes seq.now) }
    requires searched { IsNone (position is_line_feed (take known (bytes seq.now))) }
    ensures { result ≡ position is_line_feed (bytes seq.now) }
{
    match seq.without_front(known).index_of(&Byte(LINE_FEED)) {
        Some(at) => Some(known + at),
        None => None,
    }
}

/// How many bytes stand before the first line feed, or how many there are.
#[inline(always)]
pub fn line_len<C: Spans>(seq: &Sequence<'_, C>, known: u64) -> u64
    requires within { known ≤ length (bytes seq.now) }
    requires searched { IsNone (position is_line_feed (take known (bytes seq.now))) }
    ensures { result ≡ position_or_len is_line_feed (bytes seq.now) }
{
    match first_line_feed(seq, known) {
        Some(at) => at,
        None => seq.len(),
    }
}
