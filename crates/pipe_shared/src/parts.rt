//! What a pipe is put together of.

ghost use Rattle.std.specs.Prelude.{◌≡◌, ◌≤◌, [], length, None, IfOk, IfErr};
ghost use Rattle.std.specs.Vec.{vec_capacity};
ghost use Rattle.pipe_state.specs.Options.{first_bad};
ghost use Rattle.pipe_state.specs.Released.{names_of};
ghost use Rattle.pipe_state.specs.Segments.{AreSized};
ghost use Rattle.pipe_state.specs.Lying.{HaveOwnIds};
ghost use Rattle.pipe_shared.specs.Made.{AreParts};

use pipe_state::{Chain, Options, PipeState, Reading, Writing};
use seg_block::Block;
use std::alloc::{AllocError, Global};

// What the ends of a pipe share, what each has for itself, and the empty list that its blocks came in.
#[derive(Drop)]
pub(crate) struct Parts {
    pub pipe: PipeState,
    pub writing: Writing,
    pub reading: Reading,
    pub list: Vec<Block>,
}

impl Parts {
    // The parts of a new pipe. Where there is no memory for them the blocks come back.
    pub fn make(alloc: Global, options: Options, blocks: Vec<Block>) -> Result<Parts, Vec<Block>>
        requires good { first_bad options ≡ None }
        requires count { length blocks.items ≡ options.segments }
        requires sized { AreSized options.segment (names_of blocks.items) }
        requires own { HaveOwnIds (names_of blocks.items) }
        ensures back { IfErr result (λ back. names_of back.items ≡ names_of blocks.items) }
        ensures parts { IfOk result (λ parts. AreParts options (names_of blocks.items) parts) }
    {
        let mut blocks = blocks;
        let Ok(chain) = Chain::make(alloc, options.segments) else {
            return Err(blocks);
        };
        let made = PipeState::make(alloc, &mut blocks, options.pause, options.resume);
        let Ok((pipe, reader, writer)) = made else {
            return Err(blocks);
        };
        let reading = Reading {
            chain,
            half: reader,
        };
        let Ok(writing) = Writing::make(alloc, options.segments, options.segment, writer) else {
            return Err(blocks_of(pipe, blocks));
        };
        Ok(Parts {
            pipe,
            writing,
            reading,
            list: blocks,
        })
    }
}

// The blocks of a state whose segments are at home, in the list that they came in.
pub(crate) fn blocks_of(pipe: PipeState, list: Vec<Block>) -> Vec<Block>
    requires empty { list.items ≡ [] }
    requires room { length pipe.segments.home ≤ vec_capacity list }
    ensures { names_of result.items ≡ pipe.segments.home }
{
    let mut blocks = list;
    pipe.into_blocks(&mut blocks);
    blocks
}
