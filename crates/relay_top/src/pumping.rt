//! A relay on two threads whose pipe is closed.

ghost use Rattle.std.specs.Prelude.{◌≡◌, IfOk, OnErr};
ghost use Rattle.frame_grammar.specs.Job.{IsInRange};
ghost use Rattle.relay_model.specs.Run.{IsReported};

use edge_core::{Sink, Source};
use frame_grammar::{Job, segments_of};
use relay_model::Report;
use relay_threads::{pump, settle, settled_pump_is_reported};
use seg_pool::Pool;
use std::alloc::{AllocError, Global};
use std::sync::Wait;
use std::thread::Threads;

/// Relays as the job says, on two threads, over a pool that keeps the segments of one pipe, and closes the pipe.
pub(crate) fn pump_and_settle<R: Wait + Threads + Sync, S: Source + Send, K: Sink + Send>(
    rt: &R,
    alloc: Global,
    source: &mut S,
    sink: &mut K,
    job: &Job,
) -> Result<Report, AllocError>
    requires { IsInRange job.now }
    ensures reported { IfOk result (λ report. IsReported job.now report (S.state source.old) (S.state source.new) (K.state sink.old) (K.state sink.new)) }
    ensures source_untouched { OnErr result (S.state source.new ≡ S.state source.old) }
    ensures sink_untouched { OnErr result (K.state sink.new ≡ K.state sink.old) }
{
    settled_pump_is_reported();
    let (pool, mut pass) = Pool::make(alloc, segments_of(job), job.seg)?;
    let done = pump(rt, alloc, source, sink, job, &pool, &mut pass)?;
    Ok(settle(rt, done, &pool, &mut pass))
}
