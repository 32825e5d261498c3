//! What the ends of a pipe share under its turn.

use crate::entry::{Entry, PipeName};
use pipe_state::{Options, PipeState};
use seg_block::Block;
use turn_cell::Stands;

/// Marks, flags and segments, and the options and a list, which stay.
#[derive(Drop)]
pub struct SharedPipe {
    pub pipe: PipeState,
    pub options: Options,
    /// The empty list that the blocks came in, and will leave in.
    pub list: Vec<Block>,
}

impl Stands for SharedPipe {
    type Entry = Entry;

    type Name = PipeName;

    ghost use Rattle.pipe_turns.specs.State.{Keeps, name_of};

    ghost stands = { Keeps };

    ghost name = { name_of };
}
