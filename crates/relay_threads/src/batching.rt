//! Many relays, by a few threads.

ghost use Rattle.std.specs.Prelude.{◌≡◌, ◌≤◌, [], IfOk, OnOk};
ghost use Rattle.std.specs.List.{AllZip};
ghost use Rattle.edge_core.specs.Device.{SourceState, SinkState};
ghost use Rattle.frame_grammar.specs.Job.{IsInRange};
ghost use Rattle.relay_model.specs.Answers.{FinishesAlone};
ghost use Rattle.seg_pool.specs.Words.{Adds, IsOf};

use edge_core::{Sink, Source};
use frame_grammar::{Job, segments_of};
use relay_engine::pump_over;
use relay_model::Answer;
use seg_pool::{Pool, PoolPass, nothing_is_out};
use shared_work::{Work, run_all};
use std::alloc::{AllocError, Global};
use std::sync::Wait;
use std::thread::Threads;

/// The devices of one relay.
#[derive(Drop)]
pub struct Task<I, O> {
    pub inlet: I,
    pub outlet: O,
}

/// The devices of a relay that has ended, and its report, or that there was no memory for it.
#[derive(Drop)]
pub struct Finished<I, O> {
    pub inlet: I,
    pub outlet: O,
    pub report: Answer,
}

/// Relays each task's inlet to its outlet, by at most as many threads as there are workers (1 to 16), and hands the devices
/// back in the order of the tasks, each task once, with what a relay on one thread alone gives.
///
/// The tasks stand in a queue, from which each worker takes the next one as soon as it has relayed one. The workers go on
/// beside each other, this thread one of them, each with a pass of the pool, of which it rents the segments of a task's pipe
/// before it reads, and to which it gives them back once the relay has ended. Where no thread can be made for a worker, it
/// goes on behind the others, on the thread that would have made it.
///
/// It waits for the devices, and returns once all relays have ended. A fault is told in the report of its own task alone, and
/// so is want of memory for a task's pipe, by which that task's devices stay as they were: neither ends another relay.
///
/// It takes the memory for its answer before the first read. Want of that is the one refusal: nothing was read or written, and
/// the devices are dropped.
pub fn batch<R: Threads + Wait + Sync, I: Source + Send + Drop, O: Sink + Send + Drop>(
    rt: &R,
    alloc: Global,
    tasks: Vec<Task<I, O>>,
    workers: usize,
    job: &Job,
    pool: &Pool,
    pass: &mut PoolPass,
) -> Result<Vec<Finished<I, O>>, AllocError>
    requires workers { (1 ≤ workers) × (workers ≤ 16) }
    requires range { IsInRange job.now }
    requires pool { IsOf pool.now pass.old }
    requires segment { pool.now.segment ≡ job.now.seg }
    ensures finished { IfOk result (λ finished. AllZip (λ task done.
        FinishesAlone job.now done.report (I.state task.inlet) (I.state done.inlet) (O.state task.outlet) (O.state done.outlet))
        tasks.items finished.items) }
    ensures pool { IsOf pool.now pass.new }
    ensures out { OnOk result (Adds pass.old.books [] pass.new.books) }
{
    run_all(
        rt,
        alloc,
        tasks,
        workers,
        &Relaying { job: *job },
        pool,
        pass,
    )
}

/// What is done to each task.
#[derive(Drop)]
struct Relaying {
    job: Job,
}

impl<I: Source + Send + Drop, O: Sink + Send + Drop> Work<Task<I, O>> for Relaying {
    type Done = Finished<I, O>;

    ghost use Rattle.std.specs.Prelude.{◌≡◌, []};
    ghost use Rattle.frame_grammar.specs.Job.{IsInRange};
    ghost use Rattle.relay_model.specs.Answers.{FinishesAlone};
    ghost use Rattle.seg_pool.specs.Words.{Adds, IsOf};

    ghost gives = { λ relaying task done.
        FinishesAlone relaying.job done.report (I.state task.inlet) (I.state done.inlet) (O.state task.outlet) (O.state done.outlet) };

    ghost may_use = { λ relaying pool. IsInRange relaying.job × (pool.segment ≡ relaying.job.seg) };

    fn run<R: Wait>(
        &self,
        rt: &R,
        alloc: Global,
        pool: &Pool,
        pass: &mut PoolPass,
        task: Task<I, O>,
    ) -> Finished<I, O>
        requires may_use { IsInRange self.now.job × (pool.now.segment ≡ self.now.job.seg) }
        requires pool { IsOf pool.now pass.old }
        ensures pool { IsOf pool.now pass.new }
        ensures out { Adds pass.old.books [] pass.new.books }
        ensures done { FinishesAlone self.now.job result.report (I.state task.inlet) (I.state result.inlet) (O.state task.outlet) (O.state result.outlet) }
    {
        let Task {
            mut inlet,
            mut outlet,
        } = task;
        let report = relay_alone(rt, alloc, &mut inlet, &mut outlet, &self.job, pool, pass);
        Finished {
            inlet,
            outlet,
            report,
        }
    }
}

/// Relays a source to a sink on this thread, over rented segments, which are given back.
fn relay_alone<R: Wait, S: Source, K: Sink>(
    rt: &R,
    alloc: Global,
    source: &mut S,
    sink: &mut K,
    job: &Job,
    pool: &Pool,
    pass: &mut PoolPass,
) -> Answer
    requires range { IsInRange job.now }
    requires pool { IsOf pool.now pass.old }
    requires segment { pool.now.segment ≡ job.now.seg }
    ensures done { FinishesAlone job.now result (S.state source.old) (S.state source.new) (K.state sink.old) (K.state sink.new) }
    ensures pool { IsOf pool.now pass.new }
    ensures out { Adds pass.old.books [] pass.new.books }
{
    nothing_is_out();
    let Ok(blocks) = pool.rent_all(rt, alloc, pass, segments_of(job)) else {
        return Err(AllocError);
    };
    let (answer, blocks) = pump_over(alloc, blocks, source, sink, job);
    pool.give_all(rt, pass, blocks);
    answer
}
