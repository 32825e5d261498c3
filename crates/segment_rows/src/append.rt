//! What tests write to a segment.

ghost use Rattle.std.specs.Prelude.{◌≡◌};
ghost use Rattle.seg_block.specs.Words.{SameTail, published};

use seg_block::SegTail;

/// Writes the bytes to the free part and adds them to the draft, if they fit.
pub fn append(tail: &mut SegTail, bytes: &[u8])
    ensures tail { SameTail tail.old tail.new }
    ensures published { published tail.new ≡ published tail.old }
{
    let spare = tail.spare_mut();
    if bytes.len() <= spare.len() {
        spare[..bytes.len()].copy_from_slice(bytes);
    }
    if bytes.len() <= tail.room() {
        tail.advance(bytes.len());
    }
}
