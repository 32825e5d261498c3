//! Known runs of batches.

ghost use Rattle.std.specs.Prelude.{◌≡◌, ◌≤◌, Some};
ghost use Rattle.frame_grammar.specs.Job.{IsInRange};

use crate::{Finished, Task, batch};
use edge_core::{Failed, MemSink, MemSource, Sink, Source, WholeSource};
use frame_grammar::{Framing, Job};
use relay_model::{Outcome, Report};
use seg_pool::{Books, Pool};
use std::alloc::{AllocError, Global};
use std::sync::Wait;
use std::sync::atomic::{AtomicU64, Ordering};
use std::test::Fail;
use std::thread::{Threads, yield_now};

/// How often a held read gives way before it fails.
const TURNS: u32 = 4_000_000;

fn job() -> Job
    ensures range { IsInRange result }
    ensures segment { result.seg ≡ 4096 }
{
    Job {
        input: Framing::Len4,
        output: Framing::Line,
        max: 65_536,
        seg: 4_096,
        pause: 65_536,
        resume: 32_768,
        limit: 1_048_576,
    }
}

/// What a batch of these tasks gives by so many workers, and the books of its pool at the end.
fn relayed<R: Threads + Wait + Sync, I: Source + Send + Drop, O: Sink + Send + Drop>(
    rt: &R,
    alloc: Global,
    tasks: Vec<Task<I, O>>,
    workers: usize,
) -> Result<(Vec<Finished<I, O>>, Books), AllocError>
    requires { (1 ≤ workers) × (workers ≤ 16) }
{
    let (pool, mut pass) = Pool::make(alloc, 36, 4_096)?;
    let finished = batch(rt, alloc, tasks, workers, &job(), &pool, &mut pass)?;
    Ok((finished, pool.audit(rt, pass)))
}

/// A task over memory, whose calls of these numbers fail. None has the number 0.
fn task(
    alloc: Global,
    content: &[u8],
    failing_read: u64,
    failing_write: u64,
) -> Result<Task<MemSource, MemSink>, AllocError> {
    let reads = [failing_read].to_vec(alloc)?;
    let writes = [failing_write].to_vec(alloc)?;
    Ok(Task {
        inlet: MemSource::make(content.to_vec(alloc)?, Vec::new(alloc), reads),
        outlet: MemSink::make(alloc, 64, Vec::new(alloc), writes)?,
    })
}

/// Of five tasks the input, the numbers of the calls that fail, and how each ends: with how many frames and bytes of output.
const TASKS: [(&[u8], u64, u64, Outcome, u64, &[u8]); 5] = [
    (&[0, 0, 0, 1, b'a'], 0, 0, Outcome::Clean, 1, b"a\n"),
    (
        &[0, 0, 0, 5, b'h'],
        0,
        0,
        Outcome::Truncated { place: 0 },
        0,
        b"",
    ),
    (&[0, 0, 0, 1, b'b'], 0, 1, Outcome::WriteFault, 0, b""),
    (&[0, 0, 0, 1, b'c'], 2, 0, Outcome::ReadFault, 1, b"c\n"),
    (&[0, 0, 0, 1, b'd'], 0, 0, Outcome::Clean, 1, b"d\n"),
];

fn tasks(alloc: Global) -> Result<Vec<Task<MemSource, MemSink>>, AllocError> {
    let mut tasks = Vec::new(alloc);
    for (content, failing_read, failing_write, _, _, _) in TASKS {
        tasks.push(task(alloc, content, failing_read, failing_write)?)?;
    }
    Ok(tasks)
}

/// Whether each task has ended as is told of it.
fn ended_so(finished: &[Finished<MemSource, MemSink>]) -> bool {
    for (done, (content, _, _, outcome, frames, text)) in finished.iter().zip(TASKS) {
        let told = Report {
            outcome,
            frames,
            taken: content.len() as u64,
            written: text.len() as u64,
        };
        if done.report.ok() != Some(told) || done.outlet.bytes() != text {
            return false;
        }
    }
    finished.len() == TASKS.len()
}

/// One worker relays all of them over the segments of one pipe.
#[test]
fn each_task_has_its_own_report_at_its_place(rt: HostRuntime) -> Result<(), Fail> {
    let alloc = rt.alloc();
    for workers in [1, 2, 16] {
        assert!(rt; 1 <= workers && workers <= 16);
        let (finished, books) = relayed(&rt, alloc, tasks(alloc)?, workers)?;
        assert!(rt; ended_so(finished.as_slice()));
        assert!(rt; books.out == 0);
        assert!(rt; workers > 1 || books.made == 36);
    }
    Ok(())
}

#[test]
fn no_tasks_give_no_answers(rt: HostRuntime) -> Result<(), Fail> {
    let alloc = rt.alloc();
    let none: Vec<Task<MemSource, MemSink>> = Vec::new(alloc);
    let (finished, books) = relayed(&rt, alloc, none, 3)?;
    assert!(rt; finished.len() == 0);
    assert!(rt; books.made == 0);
    Ok(())
}

/// A source that counts its first read, and of which that one may be held until three have begun.
#[derive(Drop)]
struct HeldSource<'a> {
    content: WholeSource,
    is_held: bool,
    has_begun: bool,
    faults: u64,
    begun: &'a AtomicU64,
}

impl HeldSource<'_> {
    ghost use Rattle.std.specs.Prelude.{◌≡◌};

    /// Tells that the first read has begun, and waits until all have, where it is held. Whether they have.
    fn begin(&mut self) -> bool
        ensures content { self.new.content ≡ self.old.content }
        ensures faults { self.new.faults ≡ self.old.faults }
    {
        if self.has_begun {
            return true;
        }
        self.has_begun = true;
        self.begun.fetch_add(1, Ordering::SeqCst);
        if !self.is_held {
            return true;
        }
        for _ in 0..TURNS {
            if self.begun.load(Ordering::SeqCst) == 3 {
                return true;
            }
            yield_now();
        }
        false
    }
}

impl Source for HeldSource<'_> {
    ghost state = { λ source. record { left = Some source.content; faults = source.faults } };

    fn read(&mut self, buf: &mut [u8]) -> Result<usize, Failed> {
        if !self.begin() {
            self.faults = self.faults.saturating_add(1);
            return Err(Failed);
        }
        self.content.read(buf)
    }
}

/// A task whose input is one frame.
fn held_task<'a>(
    alloc: Global,
    is_held: bool,
    begun: &'a AtomicU64,
) -> Result<Task<HeldSource<'a>, MemSink>, AllocError> {
    let content = [0, 0, 0, 1, b'a'].as_slice().to_vec(alloc)?;
    let inlet = HeldSource {
        content: WholeSource::make(content),
        is_held,
        has_begun: false,
        faults: 0,
        begun,
    };
    let outlet = MemSink::make(alloc, 64, Vec::new(alloc), Vec::new(alloc))?;
    Ok(Task { inlet, outlet })
}

/// Whether two workers relay three tasks of which this one is held.
fn go_on<R: Threads + Wait + Sync>(rt: &R, alloc: Global, held: u64) -> Result<bool, AllocError> {
    let begun = AtomicU64::new(0);
    let mut tasks = Vec::new(alloc);
    for place in 0..3 {
        tasks.push(held_task(alloc, place == held, &begun)?)?;
    }
    let (finished, books) = relayed(rt, alloc, tasks, 2)?;
    for done in &finished {
        if done.outlet.bytes() != b"a\n".as_slice() {
            return Ok(false);
        }
    }
    Ok(finished.len() == 3 && books.out == 0)
}

/// So no worker alone, and no two that have a fixed part each, relay both of them.
#[test]
fn a_read_that_waits_for_the_other_tasks_goes_on(rt: HostRuntime) -> Result<(), Fail> {
    let alloc = rt.alloc();
    assert!(rt; go_on(&rt, alloc, 0)?);
    assert!(rt; go_on(&rt, alloc, 1)?);
    Ok(())
}
