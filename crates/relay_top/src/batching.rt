//! A batch: many names, each with a source that is relayed to a sink.

ghost use Rattle.std.specs.Prelude.{◌≡◌, ◌<◌, ◌≤◌, ◌+◌, ◌*◌, ◌^◌, min, length};
ghost use Rattle.frame_grammar.specs.Job.{IsInRange, segments};
ghost use Rattle.edge_core.specs.Device.{SourceState};
ghost use Rattle.relay_model.specs.World.{world};
ghost use Rattle.relay_words.specs.Names.{AreNames};
ghost use Rattle.relay_words.specs.Words.{texts};
ghost use Rattle.relay_top.specs.Batch.{Batches};
ghost use Rattle.relay_top.specs.Opening.{IfFailed, TellsRefusal};

use crate::doors::{Refusal, give_back_all, open_all};
use crate::name_lines::sum_up;
use edge_core::{DoorError, Doors, Sink};
use frame_grammar::{Job, segments_of};
use relay_engine::Told;
use relay_model::Status;
use relay_threads::{LINE, batch as relay_all, report_on, tell_no_memory};
use seg_pool::Pool;
use std::alloc::Global;
use std::sync::Wait;
use std::thread::Threads;

/// How many segments a pool keeps at home at most.
const MOST_KEPT: usize = 65_536;

/// Relays the source of each name to its sink, by so many workers, gives all devices back, and writes a line for each name. `first`
/// is the index of the first name among the words.
pub(crate) fn batch<R: Threads + Wait + Sync, K: Sink, E: Sink, D: Doors>(
    rt: &R,
    alloc: Global,
    workers: usize,
    job: &Job,
    first: usize,
    names: &[String],
    sink: &mut K,
    faults: &mut E,
    doors: &mut D,
) -> Status
    requires workers { (1 ≤ workers) × (workers ≤ 16) }
    requires range { IsInRange job.now }
    requires names { AreNames (texts names.now) }
    requires few { first + length names.now < 2 ^ 32 }
    ensures { (source : SourceState) → Batches (texts names.now) first job.now result
        (world source (D.state doors.old) (K.state sink.old) (E.state faults.old)) (world source (D.state doors.new) (K.state sink.new) (E.state faults.new)) }
{
    let (Ok(lines), Ok(answers)) = (
        Vec::with_capacity(alloc, LINE * names.len()),
        Vec::with_capacity(alloc, names.len()),
    ) else {
        return tell_no_memory(faults);
    };
    let Ok((pool, mut pass)) = Pool::make(alloc, kept_segments(workers, job), job.seg) else {
        return tell_no_memory(faults);
    };
    let tasks = match open_all(alloc, names, doors) {
        Ok(tasks) => tasks,
        Err(refusal) => return tell_refusal(refusal, first, faults),
    };
    let Ok(finished) = relay_all(rt, alloc, tasks, workers, job, &pool, &mut pass) else {
        return tell_no_memory(faults);
    };
    let answers = give_back_all(finished, answers, doors);
    sum_up(names, answers.as_slice(), lines, sink, faults)
}

/// How many segments the pool of a batch keeps at home: those of a pipe for each worker, if that is not too many.
fn kept_segments(workers: usize, job: &Job) -> usize
    requires workers { 1 ≤ workers }
    requires range { IsInRange job.now }
    ensures kept { result ≡ min (workers * segments job.now) 65536 }
    ensures some { 1 ≤ result }
{
    workers.saturating_mul(segments_of(job)).min(MOST_KEPT)
}

/// Tells why not all names were opened.
fn tell_refusal<E: Sink>(refusal: Refusal, first: usize, faults: &mut E) -> Status
    requires { IfFailed refusal.error (first + refusal.opened < 2 ^ 64) }
    ensures { TellsRefusal refusal.error (first + refusal.opened) result (E.state faults.old) (E.state faults.new) }
{
    match refusal.error {
        DoorError::Failed => {
            let word = first + refusal.opened;
            report_on(faults, Told::Door { word });
            Status::DoorFault
        }
        DoorError::OutOfMemory => tell_no_memory(faults),
    }
}
