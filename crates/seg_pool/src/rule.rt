//! The rule of the queue of blocks at home, and what each kind of step tells its pass.

ghost use Rattle.std.specs.Prelude.{ℕ};

use crate::books::PassBooks;
use crossbeam_queue::protocol::{Join, Lesson, Outcome, Protocol, Split};
use seg_block::Block;
use std::marker::{Brand, PhantomData};

/// The books balance.
pub struct Balanced;

impl Protocol<Block, PassBooks> for Balanced {
    ghost use Rattle.seg_pool.specs.Books.{IsBalanced, fresh};

    ghost holds = { IsBalanced };

    ghost first = { fresh 0 0 };
}

/// What a pool is made with.
pub trait Setting {
    ghost keep: { ℕ };

    ghost segment: { ℕ };
}

impl Setting for Brand {
    ghost keep = { 0 };

    ghost segment = { 0 };
}

/// The first pass of a pool gives way to one that knows the pool's numbers.
pub struct SetUp<G> {
    of: PhantomData<G>,
}

impl<G: Setting> Split<PassBooks> for SetUp<G> {
    ghost use Rattle.seg_pool.specs.Books.{fresh, spent};

    ghost left = { λ v. spent };

    ghost right = { λ v. fresh G.keep G.segment };
}

/// A pass makes the next block that it may make. The second pass has nothing, and is let go.
pub struct Make;

impl Split<PassBooks> for Make {
    ghost use Rattle.seg_pool.specs.Books.{spent};
    ghost use Rattle.seg_pool.specs.Steps.{making};

    ghost left = { making };

    ghost right = { λ v. spent };
}

/// Which block is freed.
pub trait Freed {
    ghost id: { ℕ };
}

impl Freed for Brand {
    ghost id = { 0 };
}

/// A pass frees a block that is out with it. The second pass has nothing, and is let go.
pub struct Free<G> {
    of: PhantomData<G>,
}

impl<G: Freed> Split<PassBooks> for Free<G> {
    ghost use Rattle.seg_pool.specs.Books.{spent};
    ghost use Rattle.seg_pool.specs.Steps.{freeing};

    ghost left = { freeing G.id };

    ghost right = { λ v. spent };
}

/// A pass gives a new one a share of what it may do.
pub struct Share;

impl Split<PassBooks> for Share {
    ghost use Rattle.seg_pool.specs.Steps.{split_new, split_old};

    ghost left = { split_old };

    ghost right = { split_new };
}

/// A pass takes in another.
pub struct Merge;

impl Join<PassBooks> for Merge {
    ghost use Rattle.seg_pool.specs.Books.{spent};
    ghost use Rattle.seg_pool.specs.Steps.{merged};

    ghost both = { merged };

    ghost spent = { spent };
}

/// A block leaves home, or none is there.
pub struct Rent;

impl Outcome<Block, PassBooks> for Rent {
    ghost use Rattle.seg_pool.specs.Steps.{Takes};

    ghost then = { Takes };
}

impl Lesson<Block, PassBooks> for Rent {
    ghost use Rattle.seg_pool.specs.Books.{AtHome};

    ghost fact = { AtHome };
}

/// A block comes home, or too many are there.
pub struct Give;

impl Outcome<Block, PassBooks> for Give {
    ghost use Rattle.seg_pool.specs.Steps.{Returns};

    ghost then = { Returns };
}

impl Lesson<Block, PassBooks> for Give {
    ghost use Rattle.seg_pool.specs.Books.{AtHome};

    ghost fact = { AtHome };
}

/// A pass looks at what is at home.
pub struct Look;

impl Lesson<Block, PassBooks> for Look {
    ghost use Rattle.seg_pool.specs.Books.{AtHome};

    ghost fact = { AtHome };
}
