//! The spans of a sequence, one after the other.

ghost use Rattle.std.specs.Prelude.{◌≡◌};
ghost use Rattle.std.specs.Iterator.{YieldsFirstRef, item_count};
ghost use Rattle.span_seq.specs.Spans.{spans_of};
ghost use Rattle.span_seq.specs.Sequence.{part};
ghost use Rattle.span_seq.specs.SpanIter.{spans_left};

use crate::sequence::Sequence;
use crate::spans::Spans;

/// What a sequence has of each span, in order, and nothing empty.
#[derive(Drop)]
pub struct SpanIter<'a, C: Spans> {
    rest: Sequence<'a, C>,
}

impl<'a, C: Spans> SpanIter<'a, C> {
    #[inline]
    pub(crate) fn new(sequence: Sequence<'a, C>) -> Self
        ensures { spans_left result ≡ spans_of (part sequence.entry) }
    {
        SpanIter { rest: sequence }
    }
}

impl<'a, C: Spans> Iterator for SpanIter<'a, C> {
    type Item = &'a [u8];

    ghost next_gives = { YieldsFirstRef spans_left };

    ghost remaining = { item_count spans_left };

    #[inline]
    fn next(&mut self) -> Option<&'a [u8]> {
        match self.rest.split_first() {
            Some((first, behind)) => {
                self.rest = behind;
                Some(first)
            }
            None => None,
        }
    }
}
