//! What is done to a task.

ghost use Rattle.std.specs.Prelude.{[]};
ghost use Rattle.seg_pool.specs.Words.{Adds, IsOf, PoolState};

use seg_pool::{Pool, PoolPass};
use std::alloc::Global;
use std::sync::Wait;

/// Does tasks one by one, each with blocks of a pool that it gives back.
pub trait Work<T> {
    /// What comes out of a task.
    type Done: Send + Drop;

    ghost gives: { Self → T → Self.Done → Type 0 };

    ghost may_use: { Self → PoolState → Type 0 };

    fn run<R: Wait>(
        &self,
        rt: &R,
        alloc: Global,
        pool: &Pool,
        pass: &mut PoolPass,
        task: T,
    ) -> Self::Done
        requires may_use { may_use self.now pool.now }
        requires pool { IsOf pool.now pass.old }
        ensures pool { IsOf pool.now pass.new }
        ensures out { Adds pass.old.books [] pass.new.books }
        ensures done { gives self.now task result };
}
