//! Relays whose devices wait for each other, so that they pass only where both sides, or two workers, go on beside each other.

ghost use Rattle.std.specs.Prelude.{◌≡◌};
ghost use Rattle.frame_grammar.specs.Job.{IsInRange};

use crate::case::succeeds;
use crate::held::{Begun, HeldSink, HeldSource};
use edge_core::NoDoors;
use frame_grammar::{Framing, Job};
use relay_model::{Status, status_of_answer};
use relay_threads::{Task, batch};
use seg_pool::Pool;
use std::test::Fail;

/// The source's second read and the sink's first write wait for each other. A relay on one thread, or one that fills first, ends
/// with a fault.
#[test]
fn pump_runs_on_two_threads(rt: HostRuntime) -> Result<(), Fail> {
    let alloc = rt.alloc();
    let begun = Begun::new();
    let mut source = HeldSource::new(b"\0\0\0\x02hi".to_vec(alloc)?, &begun);
    let mut sink = HeldSink::new(Vec::new(alloc), &begun);
    let words = ["pump", "len4", "line"];
    let mut doors = NoDoors::new();
    assert!(rt; succeeds(&rt, alloc, &words, &mut source, &mut sink, &mut doors)?);
    assert!(rt; sink.bytes() == b"hi\n".as_slice());
    Ok(())
}

fn job() -> Job
    ensures range { IsInRange result }
    ensures segment { result.seg ≡ 4096 }
{
    Job {
        input: Framing::Line,
        output: Framing::Line,
        max: 65_536,
        seg: 4_096,
        pause: 65_536,
        resume: 32_768,
        limit: 1_048_576,
    }
}

/// The first task's second read and the second task's first write wait for each other.
#[test]
fn two_workers_go_on_beside_each_other(rt: HostRuntime) -> Result<(), Fail> {
    let alloc = rt.alloc();
    let (held, free) = (Begun::new(), Begun::both());
    let mut tasks = Vec::new(alloc);
    tasks.push(Task {
        inlet: HeldSource::new(b"a\n".to_vec(alloc)?, &held),
        outlet: HeldSink::new(Vec::new(alloc), &free),
    })?;
    tasks.push(Task {
        inlet: HeldSource::new(b"b\n".to_vec(alloc)?, &free),
        outlet: HeldSink::new(Vec::new(alloc), &held),
    })?;
    let (pool, mut pass) = Pool::make(alloc, 72, 4_096)?;
    let finished = batch(&rt, alloc, tasks, 2, &job(), &pool, &mut pass)?;
    assert!(rt; pool.audit(&rt, pass).out == 0);
    assert!(rt; finished.len() == 2);
    for (done, text) in finished.iter().zip([b"a\n", b"b\n"]) {
        assert!(rt; status_of_answer(&done.report) == Status::Clean);
        assert!(rt; done.outlet.bytes() == text.as_slice());
    }
    Ok(())
}
