//! What sequences answer on known spans.

ghost use Rattle.std.specs.Prelude.{[], ◌∷◌};

use span_seq::*;
use std::test::Fail;

// Three spans.
#[derive(Clone, Copy)]
struct Cut<'a> {
    front: &'a [u8],
    middle: &'a [u8],
    back: &'a [u8],
}

impl Spans for Cut<'_> {
    ghost spans = { λ cut. cut.front.now ∷ cut.middle.now ∷ cut.back.now ∷ [] };

    fn count(&self) -> usize {
        3
    }

    fn span(&self, index: usize) -> &[u8] {
        match index {
            0 => self.front,
            1 => self.middle,
            _ => self.back,
        }
    }
}

#[test]
fn a_sequence_over_vectors(rt: HostRuntime) -> Result<(), Fail> {
    let held = [
        b"ab".to_vec(rt.alloc())?,
        b"c\n".to_vec(rt.alloc())?,
        Vec::new(rt.alloc()),
        b"de".to_vec(rt.alloc())?,
    ];
    let many = Many(&held);
    let whole = Sequence::whole(&many);
    assert!(rt; whole.len() == 6);
    assert!(rt; !whole.is_single());
    assert!(rt; whole.first() == b"ab".as_slice());
    let vec = whole.to_vec(rt.alloc())?;
    assert!(rt; vec.as_slice() == b"abc\nde".as_slice());
    Ok(())
}

#[test]
fn a_sequence_over_one_slice(rt: HostRuntime) {
    let one = One(b"abc\nde");
    let whole = Sequence::whole(&one);
    assert!(rt; whole.is_single());
    assert!(rt; whole.first() == b"abc\nde".as_slice());
    let line = match whole.position_of(10) {
        Some(end) => whole.slice(whole.start(), end),
        None => whole,
    };
    assert!(rt; line.first() == b"abc".as_slice());
    assert!(rt; whole.position_of(13) == None);
}

/// Whether a copy of a sequence has these bytes, and nothing is written behind them.
fn is_copied<C: Spans>(part: Sequence<'_, C>, want: &[u8]) -> bool {
    let mut out = [7; 8];
    if want.len() > 8 || part.len() != want.len() as u64 {
        return false;
    }
    part.copy_to(&mut out);
    let (copied, behind) = out.split_at(want.len());
    copied == want && behind == &[7; 8][want.len()..]
}

/// Whether none of its spans is empty, and it tells whether there is more than one.
fn has_full_spans<C: Spans>(part: Sequence<'_, C>) -> bool {
    let mut spans = 0u8;
    for span in part.spans() {
        if span.is_empty() {
            return false;
        }
        spans = spans.saturating_add(1);
    }
    part.is_single() == (spans <= 1)
}

/// Whether its first line feed stands where these bytes have it.
fn has_line_feed_of<C: Spans>(part: Sequence<'_, C>, want: &[u8]) -> bool {
    let found = part.position_of(10).map(|at| part.offset_of(at) as usize);
    found == want.iter().position(|byte| *byte == 10)
}

#[test]
fn parts_of_a_text_that_is_cut_at_two_places(rt: HostRuntime) {
    let text = b"abc\nd\n";
    for i in 0..7 {
        for j in i..7 {
            let cut = Cut {
                front: &text[..i],
                middle: &text[i..j],
                back: &text[j..],
            };
            let whole = Sequence::whole(&cut);
            assert!(rt; whole.len() == 6);
            for from in 0..7 {
                for to in from..7 {
                    let part = whole.slice(whole.position(from as u64), whole.position(to as u64));
                    let want = &text[from..to];
                    assert!(rt; is_copied(part, want));
                    assert!(rt; has_full_spans(part));
                    assert!(rt; has_line_feed_of(part, want));
                }
            }
        }
    }
}
