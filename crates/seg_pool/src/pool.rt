//! A pool of blocks, and the passes by which threads rent of it.

ghost use Rattle.std.specs.Prelude.{◌≡◌, ◌≤◌, ◌<◌, ◌+◌, ℕ, List, [], ◌∷◌, length, IfOk, OnErr};
ghost use Rattle.crossbeam_queue.specs.Passes.{view, IsPassOf};
ghost use Rattle.seg_block.specs.Memory.{IsBlockSize};
ghost use Rattle.seg_block.specs.Words.{id_of, size_of};
ghost use Rattle.seg_block.specs.Numbered.{AreDistinct, times};
ghost use Rattle.seg_block.specs.declared.block.Block.{Block};
ghost use Rattle.seg_pool.specs.Books.{AreOfSize, AtHome, IsOut, KnowsAll, fresh, ids_of, whole};
ghost use Rattle.seg_pool.specs.Steps.{freeing, making, merged, share_of, split_new, split_old};
ghost use Rattle.seg_pool.specs.Words.{Adds, Gives, GivesEach, GivesUp, IsOf, Removes, Rents, RentsEach};

use crate::books::{Books, PassBooks};
use crate::rule::{Balanced, Free, Freed, Give, Look, Make, Merge, Rent, SetUp, Setting, Share};
use crossbeam_queue::{Pass, RuledArrayQueue};
use seg_block::Block;
use std::alloc::{AllocError, Global};
use std::marker::{Brand, Model};
use std::sync::Wait;

type Home = RuledArrayQueue<Block, PassBooks, Balanced>;

// How many parts all passes have together, and how many ids there are.
const WHOLE: u64 = 1 << 62;

/// Blocks of one size, which many pipes rent and give back, as .NET's `MemoryPool<T>`. Some stay at home for the next rent.
#[derive(Drop)]
pub struct Pool {
    home: Home,
    segment: usize,
}

/// The right to rent blocks of a pool, and to give them back: each thread has its own.
#[derive(Drop)]
pub struct PoolPass {
    pass: Pass<Block, PassBooks>,
    parts: u64,
    next: u64,
    limit: u64,
    made: u64,
    freed: u64,
}

impl Model for Pool {
    ghost use Rattle.crossbeam_queue.specs.Passes.{ruled_capacity};
    ghost use Rattle.seg_block.specs.Memory.{IsBlockSize};
    ghost use Rattle.seg_pool.specs.Words.{PoolState};

    ghost Value = { PoolState };

    ghost view = { λ p. record { table = p.home.table.shared.table_id; keep = ruled_capacity p.home; segment = p.segment } };

    ghost invariant = { λ p. IsBlockSize p.segment };
}

impl Model for PoolPass {
    ghost use Rattle.std.specs.Prelude.{◌≡◌, []};
    ghost use Rattle.seg_pool.specs.Words.{PassState, Tallies, known};

    ghost Value = { PassState };

    ghost view = { λ p. record { pool = p.pass.table_id; books = known p.pass } };

    ghost invariant = { λ p. (p.pass.me.1 ≡ []) × Tallies p.parts p.next p.limit p.made p.freed (known p.pass) };
}

impl Pool {
    /// A pool that keeps at most `keep` blocks at home, each of `segment` bytes, 1 to 65,536, and its one pass, which may
    /// make the blocks with the ids below 2^62. Nothing is made yet. The one refusal is for want of memory.
    pub fn make(alloc: Global, keep: usize, segment: usize) -> Result<(Pool, PoolPass), AllocError>
        requires keep { 1 ≤ keep }
        requires segment { IsBlockSize segment }
        ensures pool { IfOk result (λ made. (made.0.keep ≡ keep) × (made.0.segment ≡ segment)) }
        ensures pass { IfOk result (λ made. IsOf made.0 made.1) }
        ensures fresh { IfOk result (λ made. made.1.books ≡ fresh keep segment) }
    {
        let (home, mut first) = Home::ruled(alloc, keep)?;
        let pass = set_up::<Brand>(&home, &mut first, keep, segment);
        let pool = Pool { home, segment };
        let pass = PoolPass {
            pass,
            parts: WHOLE,
            next: 0,
            limit: WHOLE,
            made: 0,
            freed: 0,
        };
        Ok((pool, pass))
    }

    /// A new pass with nothing out, which may make the last 2^40 of the ids that this pass may make, or half of them,
    /// rounded down, where that is fewer. In the same way it gets a share of this pass's parts, and where these are fewer
    /// than 2 the split is refused. Merging puts the parts together again.
    pub fn split(&self, pass: &mut PoolPass) -> Result<PoolPass, AllocError>
        requires { IsOf self.now pass.old }
        ensures pool { IsOf self.now pass.new }
        ensures new { IfOk result (λ new. IsOf self.now new) }
        ensures split { IfOk result (λ new. (1 < pass.old.books.parts) × (pass.new.books ≡ split_old pass.old.books) × (new.books ≡ split_new pass.old.books)) }
        ensures refused { OnErr result ((pass.old.books.parts ≤ 1) × (pass.new ≡ pass.old)) }
    {
        let parts = share_of(pass.parts);
        if parts == 0 {
            return Err(AllocError);
        }
        let rights = share_of(pass.limit - pass.next);
        let new = self.home.another::<Share>(&mut pass.pass);
        let limit = pass.limit;
        pass.parts -= parts;
        pass.limit -= rights;
        Ok(PoolPass {
            pass: new,
            parts,
            next: limit - rights,
            limit,
            made: 0,
            freed: 0,
        })
    }

    /// Takes another pass in: what was out with that one is out with this one. The ids that only the other could make are
    /// lost.
    pub fn merge(&self, into: &mut PoolPass, from: PoolPass)
        requires into { IsOf self.now into.old }
        requires from { IsOf self.now from }
        ensures pool { IsOf self.now into.new }
        ensures merged { into.new.books ≡ merged into.old.books from.books }
        ensures out { (id : ℕ) → times id into.new.books.out ≡ times id into.old.books.out + times id from.books.out }
        ensures distinct { AreDistinct into.new.books.out }
    {
        let PoolPass {
            pass,
            parts,
            next: _,
            limit: _,
            made,
            freed,
        } = from;
        self.home.absorb::<Merge>(&mut into.pass, pass);
        self.home.learn_as::<Look>(&mut into.pass);
        into.parts += parts;
        into.made += made;
        into.freed += freed;
    }

    /// A block from home, or a new one where none is there, as .NET's `MemoryPool<T>.Rent`. It is out with this pass from
    /// then on. Want of memory is the one refusal, and comes only where none is at home. Where none is at home and the pass
    /// may make no id any more, the call doesn't return.
    pub fn rent<R: Wait>(
        &self,
        rt: &R,
        alloc: Global,
        pass: &mut PoolPass,
    ) -> Result<Block, AllocError>
        requires { IsOf self.now pass.old }
        ensures pool { IsOf self.now pass.new }
        ensures size { IfOk result (λ block. size_of block ≡ self.now.segment) }
        ensures rented { IfOk result (λ block. Rents pass.old.books (id_of block) pass.new.books) }
        ensures out { IfOk result (λ block. Adds pass.old.books (id_of block ∷ []) pass.new.books) }
        ensures refused { OnErr result (AtHome pass.old.books [] × (pass.old.books.next < pass.old.books.limit) × (pass.new ≡ pass.old)) }
    {
        match self.home.pop_as::<Rent, R>(rt, &mut pass.pass) {
            Some(block) => Ok(block),
            None => self.make_block(rt, alloc, pass),
        }
    }

    fn make_block<R: Wait>(
        &self,
        rt: &R,
        alloc: Global,
        pass: &mut PoolPass,
    ) -> Result<Block, AllocError>
        requires { IsOf self.now pass.old }
        ensures pool { IsOf self.now pass.new }
        ensures size { IfOk result (λ block. size_of block ≡ self.now.segment) }
        ensures right { pass.old.books.next < pass.old.books.limit }
        ensures made { IfOk result (λ block. (id_of block ≡ pass.old.books.next) × (pass.new.books ≡ making pass.old.books)) }
        ensures refused { OnErr result (pass.new ≡ pass.old) }
    {
        if pass.next >= pass.limit {
            for _ in rt.forever() {}
            unreachable!()
        }
        let block = Block::make(alloc, pass.next, self.segment)?;
        let _spent = self.home.another::<Make>(&mut pass.pass);
        pass.next += 1;
        pass.made += 1;
        Ok(block)
    }

    /// Gives a block back, as disposing of .NET's `IMemoryOwner<T>` does: it goes home, or is freed where as many blocks as
    /// the pool keeps are at home.
    pub fn give<R: Wait>(&self, rt: &R, pass: &mut PoolPass, block: Block)
        requires pool { IsOf self.now pass.old }
        requires out { IsOut pass.old.books (id_of block) }
        requires size { size_of block ≡ self.now.segment }
        ensures pool { IsOf self.now pass.new }
        ensures given { Gives pass.old.books (id_of block) pass.new.books }
        ensures out { Removes pass.old.books (id_of block ∷ []) pass.new.books }
    {
        let id = block.id();
        match self.home.push_as::<Give, R>(rt, &mut pass.pass, block) {
            Ok(()) => {}
            Err(_freed) => {
                free::<Brand>(&self.home, &mut pass.pass, id);
                pass.freed += 1;
            }
        }
    }

    /// Rents `n` blocks, one after the other. Where there is no memory for all, those that were rented are given back.
    pub fn rent_all<R: Wait>(
        &self,
        rt: &R,
        alloc: Global,
        pass: &mut PoolPass,
        n: usize,
    ) -> Result<Vec<Block>, AllocError>
        requires { IsOf self.now pass.old }
        ensures pool { IsOf self.now pass.new }
        ensures count { IfOk result (λ blocks. length blocks.items ≡ n) }
        ensures sizes { IfOk result (λ blocks. AreOfSize self.now.segment blocks.items) }
        ensures distinct { IfOk result (λ blocks. AreDistinct (ids_of blocks.items)) }
        ensures rented { IfOk result (λ blocks. RentsEach pass.old.books (ids_of blocks.items) pass.new.books) }
        ensures out { IfOk result (λ blocks. Adds pass.old.books (ids_of blocks.items) pass.new.books) }
        ensures refused { OnErr result (GivesUp n pass.old.books pass.new.books) }
        ensures kept { OnErr result (Adds pass.old.books [] pass.new.books) }
    {
        let mut blocks = Vec::with_capacity(alloc, n)?;
        for _ in 0..n {
            match self.rent(rt, alloc, pass) {
                Ok(block) => blocks.push_reserved(block),
                Err(error) => {
                    self.give_all(rt, pass, blocks);
                    return Err(error);
                }
            }
        }
        self.home.learn_as::<Look>(&mut pass.pass);
        Ok(blocks)
    }

    /// Gives these blocks back, one after the other.
    pub fn give_all<R: Wait>(&self, rt: &R, pass: &mut PoolPass, blocks: Vec<Block>)
        requires pool { IsOf self.now pass.old }
        requires out { (id : ℕ) → times id (ids_of blocks.items) ≤ times id pass.old.books.out }
        requires sizes { AreOfSize self.now.segment blocks.items }
        ensures pool { IsOf self.now pass.new }
        ensures given { GivesEach pass.old.books (ids_of blocks.items) pass.new.books }
        ensures out { Removes pass.old.books (ids_of blocks.items) pass.new.books }
    {
        for block in blocks {
            self.give(rt, pass, block);
        }
    }

    /// How many blocks were made, are at home, are out and were freed, once all other passes were merged into this one.
    /// Blocks may be out.
    pub fn audit<R: Wait>(self, rt: &R, mut pass: PoolPass) -> Books
        requires pool { IsOf self pass }
        requires all { pass.books.parts ≡ whole }
        ensures made { result.made ≡ length pass.books.made }
        ensures out { result.out ≡ length pass.books.out }
        ensures freed { result.freed ≡ length pass.books.freed }
        ensures home { (home : List Block) × (length home ≡ result.home) × KnowsAll pass.books home }
        ensures balance { result.made ≡ result.home + result.out + result.freed }
    {
        let home = self.home.len_as::<Look, R>(rt, &mut pass.pass) as u64;
        Books {
            made: pass.made,
            home,
            out: pass.made - pass.freed - home,
            freed: pass.freed,
        }
    }
}

// How many of n parts or ids a new pass gets.
fn share_of(n: u64) -> u64
    ensures { result ≡ share_of n }
{
    (n / 2).min(1 << 40)
}

// A pass frees a block.
fn free<G: Freed>(home: &Home, pass: &mut Pass<Block, PassBooks>, id: u64)
    requires id { id ≡ G.id }
    requires pass { IsPassOf home.now pass.old }
    requires part { 0 < (view pass.old).parts }
    requires out { IsOut (view pass.old) id }
    ensures pass { IsPassOf home.now pass.new }
    ensures freed { view pass.new ≡ freeing id (view pass.old) }
{
    let _spent = home.another::<Free<G>>(pass);
}

// The pass of a new queue, with the pool's numbers.
fn set_up<G: Setting>(
    home: &Home,
    first: &mut Pass<Block, PassBooks>,
    keep: usize,
    segment: usize,
) -> Pass<Block, PassBooks>
    requires numbers { (keep ≡ G.keep) × (segment ≡ G.segment) }
    requires pass { IsPassOf home.now first.old × (view first.old ≡ fresh 0 0) }
    ensures { IsPassOf home.now result × (view result ≡ fresh keep segment) }
{
    home.another::<SetUp<G>>(first)
}
