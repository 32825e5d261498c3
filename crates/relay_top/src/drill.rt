//! A drill: a large lawful input that is made from a number, and relayed into memory.

ghost use Rattle.std.specs.Prelude.{◌≡◌, ◌≤◌, ◌^◌, ℕ, IfOk, string_bytes};
ghost use Rattle.frame_grammar.specs.Job.{IsInRange};
ghost use Rattle.frame_grammar.specs.declared.job.Job.{Job as JobState};
ghost use Rattle.relay_model.specs.declared.ending.Outcome.TheVariants.{Clean};
ghost use Rattle.edge_core.specs.Device.{SourceState};
ghost use Rattle.edge_core.specs.Doors.{DoorsState};
ghost use Rattle.relay_model.specs.World.{world};
ghost use Rattle.relay_top.specs.Drill.{Drills, EndsAs, summary_line};

use crate::pumping::pump_and_settle;
use edge_core::{MemSink, Sink};
use frame_grammar::Job;
use frame_model::{bad_stays_bad, open_until_the_end};
use gen_core::{GenSource, generated_has_no_rest, generated_is_small};
use relay_engine::Told;
use relay_model::{Outcome, Report, Status, status_of};
use relay_threads::{report_on, tell_broken_off, tell_no_memory, write_summary};
use std::alloc::{AllocError, Global};
use std::sync::Wait;
use std::thread::Threads;

/// How many bytes of memory there are for a frame. Each has at most 99.
const ROOM: usize = 100;

/// Relays the input of `count` frames that is generated from `seed` into memory, on two threads, and writes the summary of it
/// to the sink.
pub(crate) fn drill<R: Wait + Threads + Sync, K: Sink, E: Sink>(
    rt: &R,
    alloc: Global,
    seed: u32,
    count: u32,
    job: &Job,
    sink: &mut K,
    faults: &mut E,
) -> Status
    requires range { IsInRange job.now }
    requires limit { job.now.limit ≡ 2 ^ 40 }
    requires few { count ≤ 1000000 }
    ensures { (source : SourceState) (doors : DoorsState) → Drills seed count job.now result
        (world source doors (K.state sink.old) (E.state faults.old)) (world source doors (K.state sink.new) (E.state faults.new)) }
{
    let Ok(report) = relay_into_memory(rt, alloc, seed, count, job) else {
        return tell_no_memory(faults);
    };
    match report.outcome {
        Outcome::Clean => sum_up(alloc, count, &report, sink, faults),
        Outcome::BadFrame { .. } => {
            report_on(faults, Told::Relay { report });
            status_of(report.outcome)
        }
        Outcome::WriteFault => tell_no_memory(faults),
        _ => unreachable!(),
    }
}

/// Relays the generated input into memory, for which there is room before it is made.
fn relay_into_memory<R: Wait + Threads + Sync>(
    rt: &R,
    alloc: Global,
    seed: u32,
    count: u32,
    job: &Job,
) -> Result<Report, AllocError>
    requires range { IsInRange job.now }
    requires limit { job.now.limit ≡ 2 ^ 40 }
    requires few { count ≤ 1000000 }
    ensures { IfOk result (λ report. EndsAs seed count job.now report.taken report.written report.outcome) }
{
    bad_stays_bad();
    open_until_the_end();
    generated_has_no_rest();
    generated_is_small();
    let room = ROOM * count as usize;
    let mut memory = MemSink::make(alloc, room, Vec::new(alloc), Vec::new(alloc))?;
    let mut source = GenSource::new(seed, count, job.input);
    pump_and_settle(rt, alloc, &mut source, &mut memory, job)
}

/// Writes the summary of a relay that ended clean.
fn sum_up<K: Sink, E: Sink>(
    alloc: Global,
    count: u32,
    report: &Report,
    sink: &mut K,
    faults: &mut E,
) -> Status
    ensures { (seed : ℕ) (job : JobState) (source : SourceState) (doors : DoorsState) → EndsAs seed count job report.now.taken report.now.written Clean →
        Drills seed count job result
        (world source doors (K.state sink.old) (E.state faults.old)) (world source doors (K.state sink.new) (E.state faults.new)) }
{
    let Ok(line) = summary(alloc, count, report.taken, report.written) else {
        return tell_no_memory(faults);
    };
    match write_summary(sink, line.as_bytes()) {
        Ok(()) => Status::Clean,
        Err(broken) => tell_broken_off(faults, broken),
    }
}

/// The summary.
fn summary(alloc: Global, frames: u32, taken: u64, written: u64) -> Result<String, AllocError>
    ensures { IfOk result (λ line. string_bytes line ≡ summary_line frames taken written) }
{
    format!(in alloc; "frames={frames} in={taken} out={written}\n")
}
