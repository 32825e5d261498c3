//! What is told of a pool's blocks.

use std::collections::LinkedList;

/// How many blocks a pool has made, and how many of them are at home, are out and were freed.
#[derive(Clone, Copy, Debug, PartialEq, Eq)]
pub struct Books {
    pub made: u64,
    pub home: u64,
    pub out: u64,
    pub freed: u64,
}

/// The books of a pass, which contracts alone know. No value of it is made.
pub struct PassBooks {
    /// How many blocks the pool keeps at home.
    pub keep: u64,
    /// How many bytes each block has.
    pub segment: u64,
    /// How many of the pool's 2^62 parts it has. The pass with all of them is the only one.
    pub parts: u64,
    /// It makes the block with this id next.
    pub next: u64,
    /// It may make the blocks with ids below this one.
    pub limit: u64,
    /// The ids of the blocks that it has made, also of those that passes made which it took in.
    pub made: LinkedList<u64>,
    /// The ids of the blocks that are out with it.
    pub out: LinkedList<u64>,
    /// The ids of the blocks that it has freed, also of those that passes freed which it took in.
    pub freed: LinkedList<u64>,
}
