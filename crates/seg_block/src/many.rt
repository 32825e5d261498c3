//! Many blocks at once.

ghost use Rattle.std.specs.Prelude.{◌≡◌, ℕ, List, length, map, IfOk};
ghost use Rattle.seg_block.specs.Memory.{IsBlockSize};
ghost use Rattle.seg_block.specs.Numbered.{AreDistinct, AreNumbered};
ghost use Rattle.seg_block.specs.Words.{id_of};

use crate::block::Block;
use std::alloc::{AllocError, Global};

/// `segments` blocks of `segment` bytes each, 1 to 65,536, with the numbers from 0 on in order. The one refusal is
/// for want of memory.
pub fn own_blocks(alloc: Global, segments: usize, segment: usize) -> Result<Vec<Block>, AllocError>
    requires { IsBlockSize segment }
    ensures count { IfOk result (λ blocks. length blocks.items ≡ segments) }
    ensures numbers { IfOk result (λ blocks. AreNumbered 0 segment blocks.items) }
{
    let mut blocks = Vec::with_capacity(alloc, segments)?;
    for id in 0..segments {
        blocks.push(Block::make(alloc, id as u64, segment)?)?;
    }
    Ok(blocks)
}

/// Blocks with numbers in order have different numbers. The function does nothing: what it ensures is the law.
pub fn ids_differ()
    ensures { (first size : ℕ) (blocks : List Block) → AreNumbered first size blocks → AreDistinct (map id_of blocks) }
{}
