//! A block: the memory of one segment, while it is not parted.

ghost use Rattle.std.specs.Prelude.{◌≡◌, ℕ, [], length, IfOk};
ghost use Rattle.seg_block.specs.Memory.{IsBlockSize, words_of, place};

use crate::front::SegFront;
use crate::home::Home;
use crate::land::Land;
use crate::run::{Run, vacate};
use crate::tail::SegTail;
use std::alloc::{AllocError, Global};

/// The memory of one segment, and a number that its maker chose.
///
/// The memory is one allocation, which is freed when the block is dropped.
pub struct Block {
    home: Home,
    bytes: Run,
    id: u64,
    size: usize,
    alloc: Global,
    ghost sized: { IsBlockSize size × (home.size ≡ size) },
    ghost lies: { (bytes.ptr ≡ place home.base 0) × (length bytes.items ≡ size) },
}

impl Drop for Block {
    fn drop(self) {
        let Block {
            home,
            bytes,
            id: _,
            size,
            alloc,
        } = self;
        let land = home.raze(bytes, &alloc);
        land.free(&alloc, words_of(size));
    }
}

// How many words of eight bytes a block takes: the watermark, and the bytes.
const fn words_of(size: usize) -> usize
    requires { IsBlockSize size }
    ensures { result ≡ words_of size }
{
    1 + (size + 7) / 8
}

impl Block {
    ghost use Rattle.seg_block.specs.Words.{id_of, size_of, IsTailOf, IsFrontOf, published, draft, seen, acquired, tail_part, front_part};

    /// A block of `size` bytes, 1 to 65,536, with the number `id`. The one refusal is for want of memory.
    pub fn make(alloc: Global, id: u64, size: usize) -> Result<Block, AllocError>
        requires { IsBlockSize size }
        ensures { IfOk result (λ block. (id_of block ≡ id) × (size_of block ≡ size)) }
    {
        let land = Land::<u64, Global>::new(&alloc, words_of(size))?;
        let (home, mut bytes) = Home::lay(land, size);
        for _ in 0..size {
            bytes.push_reserved(0);
        }
        Ok(Block {
            home,
            bytes: vacate(bytes),
            id,
            size,
            alloc,
        })
    }

    // The block that the last end has again.
    pub(crate) fn whole(home: Home, bytes: Run, id: u64, size: usize, alloc: Global) -> Block
        requires sized { IsBlockSize size × (home.size ≡ size) }
        requires lies { (bytes.ptr ≡ place home.base 0) × (length bytes.items ≡ size) }
        ensures { (id_of result ≡ id) × (size_of result ≡ size) × (result.home.base ≡ home.base) }
    {
        Block {
            home,
            bytes,
            id,
            size,
            alloc,
        }
    }

    /// The number that the block was made with.
    pub fn id(&self) -> u64
        ensures { result ≡ id_of self.now }
    {
        self.id
    }

    /// How many bytes the segment has.
    pub fn size(&self) -> usize
        ensures { result ≡ size_of self.now }
    {
        self.size
    }

    /// The two ends of the segment, with nothing published. It takes no memory.
    pub fn part(self) -> (SegTail, SegFront)
        ensures tail { IsTailOf result.0 self }
        ensures front { IsFrontOf result.1 self }
        ensures nothing { (published result.0 ≡ []) × (draft result.0 ≡ [])
            × (seen result.1 ≡ []) × (acquired result.1 ≡ []) }
        ensures one_part { front_part result.1 ≡ tail_part result.0 }
    {
        let Block {
            home,
            bytes,
            id,
            size,
            alloc,
        } = self;
        let (tail, front, start, none) = home.open();
        let known = start.again();
        (
            SegTail::start(tail, bytes, known, id, size, alloc),
            SegFront::start(front, none, start, id, size, alloc),
        )
    }
}
