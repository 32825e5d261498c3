//! Both ends of a segment in one hand.

ghost use Rattle.seg_block.specs.Words.{IsEndOf, IsTheBlock};

use crate::block::Block;
use crate::front::SegFront;
use crate::tail::TailEnd;

/// The block of a segment whose tail has ended so, and whose front ends here, whichever of them ended first.
pub fn block_of(front: SegFront, end: TailEnd) -> Block
    requires { IsEndOf front end }
    ensures { IsTheBlock front result }
{
    match end {
        TailEnd::Note(note) => front.finish_with(note),
        TailEnd::Last(block) => {
            drop(front);
            block
        }
    }
}
