//! What a reader answers on known spans.

ghost use Rattle.std.specs.Prelude.{[], ◌∷◌};

use byte_kernels::ByteSet;
use seq_reader::*;
use span_seq::{Many, One, Sequence, Spans};
use std::test::Fail;

// Three spans.
#[derive(Clone, Copy)]
struct Cut<'a> {
    front: &'a [u8],
    middle: &'a [u8],
    back: &'a [u8],
}

impl Spans for Cut<'_> {
    ghost spans = { λ cut. cut.front.now ∷ cut.middle.now ∷ cut.back.now ∷ [] };

    fn count(&self) -> usize {
        3
    }

    fn span(&self, index: usize) -> &[u8] {
        match index {
            0 => self.front,
            1 => self.middle,
            _ => self.back,
        }
    }
}

// The bytes 1 to 5, with an empty span in the middle.
const FIVE: Cut<'static> = Cut {
    front: &[1, 2],
    middle: &[],
    back: &[3, 4, 5],
};

#[test]
fn numbers_lie_in_several_spans(rt: HostRuntime) {
    let five = FIVE;
    let mut reader = SeqReader::new(Sequence::whole(&five));
    assert!(rt; reader.read_u32_be() == Some(16909060));
    assert!(rt; reader.consumed() == 4);
    assert!(rt; reader.read_u16_be() == None);
    assert!(rt; reader.consumed() == 4);
    let mut reader = SeqReader::new(Sequence::whole(&five));
    assert!(rt; reader.read_u32_le() == Some(67305985));
    assert!(rt; reader.consumed() == 4);
    let mut reader = SeqReader::new(Sequence::whole(&five));
    reader.advance(2);
    assert!(rt; reader.read_u32_be() == None);
    assert!(rt; reader.consumed() == 2);
    let eight = One(&[1, 2, 3, 4, 5, 6, 7, 8]);
    let mut reader = SeqReader::new(Sequence::whole(&eight));
    assert!(rt; reader.read_u64_be() == Some(72623859790382856));
    assert!(rt; reader.end());
    let mut reader = SeqReader::new(Sequence::whole(&eight));
    assert!(rt; reader.read_u64_le() == Some(578437695752307201));
    let mut reader = SeqReader::new(Sequence::whole(&eight));
    assert!(rt; reader.read_u16_le() == Some(513));
}

#[test]
fn looks_pass_over_what_comes_where_that_is_asked(rt: HostRuntime) {
    let five = FIVE;
    let mut reader = SeqReader::new(Sequence::whole(&five));
    assert!(rt; reader.peek_at(4) == Some(5));
    assert!(rt; reader.peek_at(5) == None);
    assert!(rt; reader.is_next(&[], true));
    assert!(rt; reader.read() == Some(1));
    assert!(rt; reader.is_next(&[2, 3], false));
    assert!(rt; reader.consumed() == 1);
    assert!(rt; !reader.is_next(&[2, 3, 4, 5, 6], true));
    assert!(rt; reader.is_next(&[2, 3], true));
    assert!(rt; reader.consumed() == 3);
    assert!(rt; reader.remaining() == 2);
    assert!(rt; reader.len() == 5);
    assert!(rt; reader.unread_span() == [4, 5].as_slice());
    assert!(rt; reader.unread().len() == 2);
}

#[test]
fn steps_pass_over_bytes_and_back(rt: HostRuntime) {
    let five = FIVE;
    let mut reader = SeqReader::new(Sequence::whole(&five));
    assert!(rt; reader.advance_past(1) == 1);
    assert!(rt; reader.advance_past(1) == 0);
    assert!(rt; reader.advance_past_any(&ByteSet::of(&[2, 3, 5])) == 2);
    assert!(rt; reader.advance_to(5, false));
    assert!(rt; reader.peek() == Some(5));
    assert!(rt; reader.consumed() == 4);
    reader.rewind(4);
    assert!(rt; reader.peek() == Some(1));
}

#[test]
fn a_line_lies_in_several_spans(rt: HostRuntime) -> Result<(), Fail> {
    let held = [
        b"ab".to_vec(rt.alloc())?,
        b"c\n".to_vec(rt.alloc())?,
        Vec::new(rt.alloc()),
        b"de".to_vec(rt.alloc())?,
    ];
    let many = Many(&held);
    let mut reader = SeqReader::new(Sequence::whole(&many));
    let line = reader.read_to(10, true).ok_or("no line")?;
    let bytes = line.to_vec(rt.alloc())?;
    assert!(rt; bytes.as_slice() == b"abc".as_slice());
    assert!(rt; reader.consumed() == 4);
    assert!(rt; reader.read_to(10, true).is_none());
    assert!(rt; reader.consumed() == 4);
    assert!(rt; reader.read_u16_be() == Some(25701));
    assert!(rt; reader.peek() == None);
    Ok(())
}

/// Its first byte of a line's end stands at the place 2.
const TEXT: &[u8; 6] = b"ab\rd\n\n";

/// Whether a reader of the text stops at the line's end, and goes past it where that is asked.
fn stops_at_an_end<C: Spans>(whole: Sequence<'_, C>) -> bool {
    let ends = ByteSet::of(b"\n\r");
    let mut reader = SeqReader::new(whole);
    let line = match reader.read_to_any(&ends, false) {
        Some(line) => line.len(),
        None => return false,
    };
    let mut passing = SeqReader::new(whole);
    line == 2
        && reader.consumed() == 2
        && passing.advance_to_any(&ends, true)
        && passing.consumed() == 3
}

/// Whether a reader of the text copies it whole, reads it byte for byte, and does so again once it was moved back.
fn reads_all<C: Spans>(whole: Sequence<'_, C>) -> bool {
    let mut reader = SeqReader::new(whole);
    let mut out = [0; 6];
    if !reader.is_next(TEXT, false) || !reader.copy_to(&mut out) || out != *TEXT {
        return false;
    }
    for byte in TEXT {
        if reader.read() != Some(*byte) {
            return false;
        }
    }
    if reader.read().is_some() {
        return false;
    }
    let back = reader.consumed();
    reader.rewind(back);
    reader.is_next(TEXT, true) && reader.end()
}

#[test]
fn a_text_that_is_cut_at_two_places(rt: HostRuntime) {
    let text = TEXT.as_slice();
    for i in 0..7 {
        for j in i..7 {
            let cut = Cut {
                front: &text[..i],
                middle: &text[i..j],
                back: &text[j..],
            };
            let whole = Sequence::whole(&cut);
            assert!(rt; stops_at_an_end(whole));
            assert!(rt; reads_all(whole));
        }
    }
}
