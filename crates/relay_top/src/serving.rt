//! A server: connections that are accepted one after the other, each relayed to a new one.

ghost use Rattle.std.specs.Prelude.{◌≡◌};
ghost use Rattle.edge_core.specs.Device.{SourceState};
ghost use Rattle.frame_grammar.specs.Job.{IsInRange};
ghost use Rattle.relay_model.specs.World.{world};
ghost use Rattle.relay_top.specs.Serving.{ServesAt, status_of_end as status_of};

use edge_core::{Doors, Sink};
use frame_grammar::{Job, segments_of};
use relay_model::Status;
use relay_threads::{ServeEnd, serve as serve_connections, tell_no_memory};
use seg_pool::Pool;
use std::alloc::Global;
use std::sync::Wait;
use std::thread::Threads;

/// Listens at `listen`, and relays so many connections, each to a new one to `target`, over a pool that keeps the segments of one
/// pipe.
pub(crate) fn serve<R: Threads + Wait + Sync, K: Sink, E: Sink, D: Doors>(
    rt: &R,
    alloc: Global,
    listen: &str,
    target: &str,
    count: u32,
    job: &Job,
    sink: &mut K,
    faults: &mut E,
    doors: &mut D,
) -> Status
    requires { IsInRange job.now }
    ensures { (source : SourceState) → ServesAt target.now count job.now result
        (world source (D.state doors.old) (K.state sink.old) (E.state faults.old)) (world source (D.state doors.new) (K.state sink.new) (E.state faults.new)) }
{
    let Ok((pool, mut pass)) = Pool::make(alloc, segments_of(job), job.seg) else {
        return tell_no_memory(faults);
    };
    let end = serve_connections(
        rt, alloc, doors, sink, faults, listen, target, count, job, &pool, &mut pass,
    );
    status_of_end(end)
}

/// The status of a server that ended so.
fn status_of_end(end: ServeEnd) -> Status
    ensures { result ≡ status_of end }
{
    match end {
        ServeEnd::Served { status } => status,
        ServeEnd::Door { .. } => Status::DoorFault,
        ServeEnd::SinkFault => Status::WriteFault,
        ServeEnd::OutOfMemory => Status::OutOfMemory,
    }
}
