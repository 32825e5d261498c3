//! Why no pipe was made.

use pipe_state::Field;
use seg_block::Block;

/// Why no pipe was made.
#[derive(Clone, Copy, Debug, PartialEq, Eq)]
pub enum MakeError {
    /// A field is out of its range: the first such one, and what it was.
    BadOptions { field: Field, number: u64 },
    /// There was no memory for the pipe.
    OutOfMemory,
}

/// No pipe was made: why, and the blocks that it was to be made of.
#[derive(Drop)]
pub struct MakeRefused {
    pub error: MakeError,
    pub blocks: Vec<Block>,
}
