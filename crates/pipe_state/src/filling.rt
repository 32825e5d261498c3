//! A segment that the writer has not finished.

ghost use Rattle.std.specs.Prelude.{◌≡◌, ◌≤◌, ◌+◌, true, false, [], ◌++◌, length, take, drop};
ghost use Rattle.pipe_state.specs.Released.{block_in, name_of};
ghost use Rattle.pipe_state.specs.Sending.{Tells, committed_in, with_committed};
ghost use Rattle.std.specs.Borrow.{sem};
ghost use Rattle.pipe_state.specs.Lending.{LendsFree};

use crate::arrival::Arrival;
use seg_block::{Block, SegFront, SegTail, block_of};
use std::marker::Model;

/// A segment that the writer fills, with its front until that is sent to the reader.
#[derive(Drop)]
pub struct Filling {
    tail: SegTail,
    front: Option<SegFront>,
}

impl Model for Filling {
    ghost use Rattle.pipe_state.specs.Sides.{FillingState, IsFilling, filling_of};

    ghost Value = { FillingState };

    ghost view = { λ f. filling_of f.tail f.front };

    ghost invariant = { λ f. IsFilling f.tail f.front };
}

impl Filling {
    /// The segment of a block, with nothing in it.
    pub fn start(block: Block) -> Filling
        ensures block { block_in result.label ≡ name_of block }
        ensures empty { (result.bytes ≡ []) × (result.draft ≡ []) × (result.sent ≡ false) }
    {
        let (tail, front) = block.part();
        Filling {
            tail,
            front: Some(front),
        }
    }

    /// How many bytes are free.
    pub fn room(&self) -> usize
        ensures spare { result ≡ length self.now.spare }
        ensures size { length self.now.bytes + length self.now.draft + result ≡ self.now.label.size }
    {
        self.tail.room()
    }

    /// Whether its front was sent to the reader.
    pub fn is_sent(&self) -> bool
        ensures { result ≡ self.now.sent }
    {
        self.front.is_none()
    }

    /// How many bytes are drafted.
    pub fn draft_len(&self) -> usize
        ensures { result ≡ length self.now.draft }
    {
        self.tail.draft_len()
    }

    /// The free part of the segment itself. What it holds isn't specified.
    pub fn spare_mut(&mut self) -> &mut [u8]
        ensures* lends { sem 𝓛 (LendsFree self.entry result) }
        ensures value { result.now ≡ self.old.spare }
    {
        self.tail.spare_mut()
    }

    /// Takes the first `n` bytes of the free part to the end of the draft.
    pub fn advance(&mut self, n: usize)
        requires { n ≤ length self.old.spare }
        ensures { self.new ≡ record self.old { draft = self.old.draft ++ take n self.old.spare; spare = drop n self.old.spare } }
    {
        self.tail.advance(n);
    }

    /// Commits the draft.
    pub fn commit(&mut self) -> Arrival
        ensures filling { self.new ≡ with_committed self.old }
        ensures told { Tells self.old (committed_in self.old false) result }
    {
        Arrival {
            mark: self.tail.commit(),
            front: self.front.take(),
            end: None,
        }
    }

    /// Commits the draft, and finishes the segment.
    pub fn finish(self) -> Arrival
        ensures { Tells self (committed_in self true) result }
    {
        let Filling { mut tail, front } = self;
        Arrival {
            mark: tail.commit(),
            front,
            end: Some(tail.finish()),
        }
    }

    /// The block of a segment of which nothing was committed. A draft is given up.
    pub fn give_up(self) -> Block
        requires { self.sent ≡ false }
        ensures { name_of result ≡ block_in self.label }
    {
        let Filling { tail, front } = self;
        match front {
            Some(front) => block_of(front, tail.finish()),
            None => unreachable!(),
        }
    }
}
