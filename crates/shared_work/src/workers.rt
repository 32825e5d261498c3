//! Workers that take tasks from a queue.

ghost use Rattle.std.specs.Prelude.{◌≡◌, ◌≤◌, ◌<◌, [], IfOk, IfSome, IfNone, OnOk};
ghost use Rattle.std.specs.List.{AllZip};
ghost use denote.Param.Send.{IsSync};
ghost use Rattle.crossbeam_queue.specs.Passes.{view, IsPassOf};
ghost use Rattle.seg_pool.specs.Words.{Adds, IsOf};
ghost use Rattle.shared_work.specs.Tasks.{AreTaken, view_with, whole};
ghost use Rattle.shared_work.specs.Workers.{Forks, HasRoom, IsWorkerOf, Meets, SameWorker};

use crate::ordering::{empty_slots, in_order};
use crate::placed::{Placed, WorkerView};
use crate::rule::{EachOnce, Fork, Meet, Put, Take};
use crate::task::Work;
use crossbeam_queue::{Pass, RuledArrayQueue};
use seg_pool::{Pool, PoolPass, split_and_merged};
use std::alloc::{AllocError, Global};
use std::sync::Wait;
use std::thread::{Threads, join};

/// The tasks that no worker has taken.
type Queue<T> = RuledArrayQueue<Placed<T>, WorkerView<T>, EachOnce<T>>;

/// What a worker has: its passes of the queue and of the pool, and what has come out of the tasks
/// that it took.
#[derive(Drop)]
pub(crate) struct Worker<T, D> {
    pub(crate) pass: Pass<Placed<T>, WorkerView<T>>,
    pub(crate) blocks: PoolPass,
    pub(crate) done: Vec<Placed<D>>,
}

/// Does each task, by at most so many workers (1 to 16), and hands back what came out, in the order
/// of the tasks.
///
/// All tasks stand in a queue before the first is done. The workers go on beside each other, this
/// thread one of them, and each takes the next task as soon as it has done one, until none is left.
/// Each has a pass that is split from `pass`, and merged into it again at the end. Where no thread
/// can be made for a worker, it goes on behind the others, on the thread that would have made it.
///
/// It takes its memory before the first task. Want of that is the one refusal, with no task done,
/// and the tasks are dropped. Where a worker has no memory for what comes out of one task more, it
/// leaves the tasks to the others, and at last to this thread.
pub fn run_all<R: Threads + Wait + Sync, T: Send + Drop, W: Work<T> + Sync>(
    rt: &R,
    alloc: Global,
    tasks: Vec<T>,
    workers: usize,
    work: &W,
    pool: &Pool,
    pass: &mut PoolPass,
) -> Result<Vec<W::Done>, AllocError>
    requires workers { (1 ≤ workers) × (workers ≤ 16) }
    requires may_use { W.may_use work.now pool.now }
    requires pool { IsOf pool.now pass.old }
    ensures pool { IsOf pool.now pass.new }
    ensures done { IfOk result (λ done. AllZip (W.gives work.now) tasks.items done.items) }
    ensures out { OnOk result (Adds pass.old.books [] pass.new.books) }
{
    split_and_merged();
    let count = tasks.len();
    let list = Vec::with_capacity(alloc, count)?;
    let slots = empty_slots(alloc, count)?;
    let done = Vec::with_capacity(alloc, count)?;
    let (queue, first) = queue_up(rt, alloc, tasks)?;
    let blocks = pool.split(pass)?;
    let worker = Worker {
        pass: first,
        blocks,
        done,
    };
    let worker = share_out(rt, alloc, &queue, pool, work, worker, workers.min(count));
    let worker = do_the_rest(rt, alloc, &queue, pool, work, worker);
    let Worker { blocks, done, .. } = worker;
    pool.merge(pass, blocks);
    Ok(in_order(done, slots, list))
}

/// A queue of all tasks, each with its place.
fn queue_up<R: Wait, T: Drop>(
    rt: &R,
    alloc: Global,
    tasks: Vec<T>,
) -> Result<(Queue<T>, Pass<Placed<T>, WorkerView<T>>), AllocError>
    ensures pass { IfOk result (λ made. IsPassOf made.0 made.1) }
    ensures all { IfOk result (λ made. view made.1 ≡ view_with whole tasks.items []) }
{
    let (queue, mut pass) = Queue::<T>::ruled(alloc, tasks.len().max(1))?;
    let mut place = 0;
    for it in tasks {
        let Ok(()) = queue.push_as::<Put, R>(rt, &mut pass, Placed { place, it }) else {
            unreachable!()
        };
        place += 1;
    }
    Ok((queue, pass))
}

/// Takes tasks and does them, by so many workers, this thread one of them.
fn share_out<R: Threads + Wait + Sync, T: Send + Drop, W: Work<T> + Sync>(
    rt: &R,
    alloc: Global,
    queue: &Queue<T>,
    pool: &Pool,
    work: &W,
    worker: Worker<T, W::Done>,
    workers: usize,
) -> Worker<T, W::Done>
    requires may_use { W.may_use work.now pool.now }
    requires worker { IsWorkerOf (W.gives work.now) queue.now pool.now worker }
    requires parts { workers < (view worker.pass).parts }
    requires room { HasRoom worker }
    ensures worker { IsWorkerOf (W.gives work.now) queue.now pool.now result }
    ensures same { SameWorker worker result }
{
    split_and_merged();
    let mut worker = worker;
    if workers <= 1 {
        return do_tasks(rt, alloc, queue, pool, work, worker);
    }
    let Some(other) = fork::<T, W>(alloc, queue, pool, work, &mut worker) else {
        return do_tasks(rt, alloc, queue, pool, work, worker);
    };
    let more = workers - 1;
    let (theirs, mine) = join(
        rt,
        move || -> Worker<T, W::Done>
            requires { W.may_use work.now pool.now × IsWorkerOf (W.gives work.now) queue.now pool.now other }
            ensures { IsWorkerOf (W.gives work.entry.now) queue.entry.now pool.entry.now result × SameWorker other result }
        { do_tasks(rt, alloc, queue, pool, work, other) },
        move || -> Worker<T, W::Done>
            requires { IsSync R.row × W.may_use work.now pool.now × IsWorkerOf (W.gives work.now) queue.now pool.now worker × (more < (view worker.pass).parts) × HasRoom worker }
            ensures { IsWorkerOf (W.gives work.entry.now) queue.entry.now pool.entry.now result × SameWorker worker result }
        { share_out(rt, alloc, queue, pool, work, worker, more) },
    );
    take_in::<T, W>(queue, pool, work, mine, theirs)
}

/// Takes tasks and does them, until there are none, or no memory for what comes out of one more.
fn do_tasks<R: Wait, T: Drop, W: Work<T>>(
    rt: &R,
    alloc: Global,
    queue: &Queue<T>,
    pool: &Pool,
    work: &W,
    worker: Worker<T, W::Done>,
) -> Worker<T, W::Done>
    requires may_use { W.may_use work.now pool.now }
    requires worker { IsWorkerOf (W.gives work.now) queue.now pool.now worker }
    ensures worker { IsWorkerOf (W.gives work.now) queue.now pool.now result }
    ensures same { SameWorker worker result }
{
    let mut worker = worker;
    for _ in rt.forever() {
        if worker.done.reserve(1).is_err() {
            break;
        }
        let Some(task) = queue.pop_as::<Take, R>(rt, &mut worker.pass) else {
            break;
        };
        let Placed { place, it } = task;
        let it = work.run(rt, alloc, pool, &mut worker.blocks, it);
        worker.done.push_reserved(Placed { place, it });
    }
    worker
}

/// Takes tasks and does them, until there are none. There is room for what comes out of each.
fn do_the_rest<R: Wait, T: Drop, W: Work<T>>(
    rt: &R,
    alloc: Global,
    queue: &Queue<T>,
    pool: &Pool,
    work: &W,
    worker: Worker<T, W::Done>,
) -> Worker<T, W::Done>
    requires may_use { W.may_use work.now pool.now }
    requires worker { IsWorkerOf (W.gives work.now) queue.now pool.now worker }
    requires room { HasRoom worker }
    requires all { (view worker.pass).parts ≡ whole }
    ensures worker { IsWorkerOf (W.gives work.now) queue.now pool.now result }
    ensures same { SameWorker worker result }
    ensures taken { AreTaken (view result.pass).all (view result.pass).taken }
{
    let mut worker = worker;
    for _ in rt.forever() {
        let Some(task) = queue.pop_as::<Take, R>(rt, &mut worker.pass) else {
            return worker;
        };
        queue.learn_as::<Take>(&mut worker.pass);
        let Placed { place, it } = task;
        let it = work.run(rt, alloc, pool, &mut worker.blocks, it);
        worker.done.push_reserved(Placed { place, it });
    }
    unreachable!()
}

/// A second worker, with nothing done, unless the pass of the pool can't be split any more.
fn fork<T: Drop, W: Work<T>>(
    alloc: Global,
    queue: &Queue<T>,
    pool: &Pool,
    work: &W,
    worker: &mut Worker<T, W::Done>,
) -> Option<Worker<T, W::Done>>
    requires worker { IsWorkerOf (W.gives work.now) queue.now pool.now worker.old }
    requires parts { 1 < (view worker.old.pass).parts }
    ensures worker { IsWorkerOf (W.gives work.now) queue.now pool.now worker.new }
    ensures new { IfSome result (λ new. IsWorkerOf (W.gives work.now) queue.now pool.now new × Forks worker.old worker.new new) }
    ensures none { IfNone result (worker.new ≡ worker.old) }
{
    let Ok(blocks) = pool.split(&mut worker.blocks) else {
        return None;
    };
    let pass = queue.another::<Fork>(&mut worker.pass);
    Some(Worker {
        pass,
        blocks,
        done: Vec::new(alloc),
    })
}

/// A worker takes in another, with what that one has done.
fn take_in<T: Drop, W: Work<T>>(
    queue: &Queue<T>,
    pool: &Pool,
    work: &W,
    mine: Worker<T, W::Done>,
    theirs: Worker<T, W::Done>,
) -> Worker<T, W::Done>
    requires mine { IsWorkerOf (W.gives work.now) queue.now pool.now mine }
    requires theirs { IsWorkerOf (W.gives work.now) queue.now pool.now theirs }
    requires room { HasRoom mine }
    ensures worker { IsWorkerOf (W.gives work.now) queue.now pool.now result }
    ensures met { Meets mine theirs result }
{
    let Worker {
        mut pass,
        mut blocks,
        mut done,
    } = mine;
    let Worker {
        pass: their_pass,
        blocks: their_blocks,
        done: mut their_done,
    } = theirs;
    queue.absorb::<Meet>(&mut pass, their_pass);
    queue.learn_as::<Take>(&mut pass);
    pool.merge(&mut blocks, their_blocks);
    let Ok(()) = done.append(&mut their_done) else {
        unreachable!()
    };
    Worker { pass, blocks, done }
}
