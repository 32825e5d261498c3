//! Known runs.

ghost use Rattle.std.specs.Prelude.{◌≡◌, []};
ghost use Rattle.seg_pool.specs.Words.{Adds, IsOf};

use crate::{Work, run_all};
use seg_pool::{Pool, PoolPass};
use std::alloc::Global;
use std::sync::Wait;
use std::sync::atomic::{AtomicU64, Ordering};
use std::test::Fail;
use std::thread::yield_now;

/// How often a held task gives way before it gives up.
const TURNS: u32 = 4_000_000;

/// Which tasks have begun. One of three is held until the two others have.
#[derive(Drop)]
struct Held {
    begun: AtomicU64,
    held: u64,
}

impl Work<u64> for Held {
    type Done = (u64, bool);

    ghost gives = { λ held task done. done.0 ≡ task };

    ghost may_use = { λ held pool. pool.segment ≡ 64 };

    fn run<R: Wait>(
        &self,
        _rt: &R,
        _alloc: Global,
        pool: &Pool,
        pass: &mut PoolPass,
        task: u64,
    ) -> (u64, bool)
        requires may_use { pool.now.segment ≡ 64 }
        requires pool { IsOf pool.now pass.old }
        ensures pool { IsOf pool.now pass.new }
        ensures out { Adds pass.old.books [] pass.new.books }
        ensures done { result.0 ≡ task }
    {
        self.begun.fetch_add(1, Ordering::SeqCst);
        if task != self.held {
            return (task, true);
        }
        for _ in 0..TURNS {
            if self.begun.load(Ordering::SeqCst) == 3 {
                return (task, true);
            }
            yield_now();
        }
        (task, false)
    }
}

#[test]
fn a_held_task_waits_for_the_two_others(rt: HostRuntime) -> Result<(), Fail> {
    let alloc = rt.alloc();
    for held in [0, 1] {
        let (pool, mut pass) = Pool::make(alloc, 2, 64)?;
        let work = Held {
            begun: AtomicU64::new(0),
            held,
        };
        let mut tasks = Vec::new(alloc);
        for task in 0..3 {
            tasks.push(task)?;
        }
        let done = run_all(&rt, alloc, tasks, 2, &work, &pool, &mut pass)?;
        assert!(rt; done.as_slice() == [(0, true), (1, true), (2, true)].as_slice());
        assert!(rt; pool.audit(&rt, pass).out == 0);
    }
    Ok(())
}
