//! A pool of segments, rented and given back by one thread and by four.

ghost use Rattle.std.specs.Prelude.{[]};
ghost use Rattle.std.specs.Thread.{IsSync};
ghost use Rattle.seg_pool.specs.Words.{Adds, IsOf};

use seg_pool::{Books, Pool, PoolPass, nothing_is_out, split_and_merged};
use std::alloc::{AllocError, Global};
use std::sync::Wait;
use std::test::Fail;
use std::thread::{Threads, join, yield_now};

// Rents two blocks and gives both back.
fn rent_two<R: Wait>(
    rt: &R,
    alloc: Global,
    pool: &Pool,
    pass: &mut PoolPass,
) -> Result<(), AllocError>
    requires { IsOf pool.now pass.old }
    ensures pool { IsOf pool.now pass.new }
    ensures out { Adds pass.old.books [] pass.new.books }
{
    let blocks = pool.rent_all(rt, alloc, pass, 2)?;
    pool.give_all(rt, pass, blocks);
    nothing_is_out();
    Ok(())
}

// Does so many times, as long as there is memory.
fn rent_often<R: Wait>(
    rt: &R,
    alloc: Global,
    pool: &Pool,
    pass: &mut PoolPass,
    times: u32,
) -> Result<(), AllocError>
    requires { IsOf pool.now pass.old }
    ensures pool { IsOf pool.now pass.new }
    ensures out { Adds pass.old.books [] pass.new.books }
{
    for _ in 0..times {
        rent_two(rt, alloc, pool, pass)?;
        yield_now();
    }
    Ok(())
}

// What a pool tells that keeps so many blocks, after so many times two blocks, and where so many were let go of at last.
fn books_of_a_run<R: Wait>(
    rt: &R,
    alloc: Global,
    keep: usize,
    times: u32,
    lost: usize,
) -> Result<Books, AllocError> {
    let (pool, mut pass) = Pool::make(alloc, keep.max(1), 64)?;
    rent_often(rt, alloc, &pool, &mut pass, times)?;
    let _lost = pool.rent_all(rt, alloc, &mut pass, lost)?;
    Ok(pool.audit(rt, pass))
}

// How many blocks a pool keeps, how often two are rented and given back, how many are let go of, and its books.
#[derive(Drop)]
struct Run(usize, u32, usize, Books);

fn books(made: u64, home: u64, out: u64, freed: u64) -> Books {
    Books {
        made,
        home,
        out,
        freed,
    }
}

#[test]
fn books_tell_what_was_made_is_at_home_out_and_freed(rt: HostRuntime) -> Result<(), Fail> {
    let runs = [
        Run(1, 0, 0, books(0, 0, 0, 0)),
        Run(1, 1, 0, books(2, 1, 0, 1)),
        Run(2, 1, 0, books(2, 2, 0, 0)),
        Run(2, 2, 0, books(2, 2, 0, 0)),
        Run(2, 1, 2, books(2, 0, 2, 0)),
        Run(1, 2, 0, books(3, 1, 0, 2)),
        Run(8, 0, 4, books(4, 0, 4, 0)),
        Run(8, 1, 4, books(4, 0, 4, 0)),
    ];
    for Run(keep, times, lost, books) in &runs {
        assert!(rt; books_of_a_run(&rt, rt.alloc(), *keep, *times, *lost)? == *books);
    }
    Ok(())
}

#[test]
fn a_new_pass_rents_what_is_at_home_and_else_makes_the_last_ids(
    rt: HostRuntime,
) -> Result<(), Fail> {
    let alloc = rt.alloc();
    let (pool, mut pass) = Pool::make(alloc, 2, 4096)?;
    let first = pool.rent(&rt, alloc, &mut pass)?;
    assert!(rt; first.id() == 0);
    assert!(rt; first.size() == 4096);
    let mut other = pool.split(&mut pass)?;
    let new = pool.rent(&rt, alloc, &mut other)?;
    assert!(rt; new.id() == 4_611_684_918_915_760_128);
    pool.give(&rt, &mut pass, first);
    let again = pool.rent(&rt, alloc, &mut other)?;
    assert!(rt; again.id() == 0);
    pool.merge(&mut pass, other);
    assert!(rt; pool.audit(&rt, pass) == books(2, 0, 2, 0));
    Ok(())
}

// How often a new pass can be split off the one before, at most a hundred times.
fn splits_in_a_row(pool: &Pool, mut pass: PoolPass) -> u32
    requires { IsOf pool.now pass }
{
    let mut splits: u32 = 0;
    for _ in 0..100 {
        let Ok(next) = pool.split(&mut pass) else {
            break;
        };
        pass = next;
        splits = splits.saturating_add(1);
    }
    splits
}

#[test]
fn a_pass_is_split_until_it_has_one_part(rt: HostRuntime) -> Result<(), Fail> {
    let (pool, mut pass) = Pool::make(rt.alloc(), 1, 1)?;
    let other = pool.split(&mut pass)?;
    assert!(rt; splits_in_a_row(&pool, other) == 40);
    Ok(())
}

// Rents and gives back on the thread that has the pass, and hands the pass back.
fn rent_by_one<R: Wait>(rt: &R, alloc: Global, pool: &Pool, mut pass: PoolPass) -> PoolPass
    requires { IsOf pool.now pass }
    ensures pool { IsOf pool.now result }
    ensures out { Adds pass.books [] result.books }
{
    let _done = rent_often(rt, alloc, pool, &mut pass, 1000);
    pass
}

// Two threads rent and give back beside each other.
fn rent_by_two<R: Threads + Wait + Sync>(
    rt: &R,
    alloc: Global,
    pool: &Pool,
    mut pass: PoolPass,
) -> PoolPass
    requires { IsOf pool.now pass }
    ensures pool { IsOf pool.now result }
    ensures out { Adds pass.books [] result.books }
{
    let Ok(other) = pool.split(&mut pass) else {
        return pass;
    };
    let (mut one, two) = join(
        rt,
        move || -> PoolPass
            requires { IsOf pool.now pass }
            ensures pool { IsOf pool.entry.now result }
            ensures out { Adds pass.books [] result.books }
        { rent_by_one(rt, alloc, pool, pass) },
        move || -> PoolPass
            requires { IsOf pool.now other }
            ensures pool { IsOf pool.entry.now result }
            ensures out { Adds other.books [] result.books }
        { rent_by_one(rt, alloc, pool, other) },
    );
    pool.merge(&mut one, two);
    split_and_merged();
    one
}

// Two pairs of threads do.
fn rent_by_four<R: Threads + Wait + Sync>(
    rt: &R,
    alloc: Global,
    pool: &Pool,
    mut pass: PoolPass,
) -> PoolPass
    requires { IsOf pool.now pass }
    ensures pool { IsOf pool.now result }
    ensures out { Adds pass.books [] result.books }
{
    let Ok(other) = pool.split(&mut pass) else {
        return pass;
    };
    let (mut one, two) = join(
        rt,
        move || -> PoolPass
            requires { IsOf pool.now pass × IsSync R.row }
            ensures pool { IsOf pool.entry.now result }
            ensures out { Adds pass.books [] result.books }
        { rent_by_two(rt, alloc, pool, pass) },
        move || -> PoolPass
            requires { IsOf pool.now other × IsSync R.row }
            ensures pool { IsOf pool.entry.now result }
            ensures out { Adds other.books [] result.books }
        { rent_by_two(rt, alloc, pool, other) },
    );
    pool.merge(&mut one, two);
    split_and_merged();
    one
}

#[test]
fn four_threads_rent_and_give_back_and_the_books_balance(rt: HostRuntime) -> Result<(), Fail> {
    let alloc = rt.alloc();
    let (pool, pass) = Pool::make(alloc, 3, 64)?;
    let pass = rent_by_four(&rt, alloc, &pool, pass);
    let books = pool.audit(&rt, pass);
    assert!(rt; books.out == 0);
    assert!(rt; books.home <= 3);
    assert!(rt; books.home >= 1);
    assert!(rt; books.made >= 2);
    assert!(rt; books.made == books.home.saturating_add(books.freed));
    Ok(())
}
