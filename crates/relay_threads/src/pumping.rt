//! A relay on two threads.

ghost use Rattle.std.specs.Prelude.{◌≡◌, ◌*◌, ◌^◌, ◌≤◌, ℕ, [], None, Some, IfOk, OnErr};
ghost use Rattle.turn_cell.specs.Seat.{IsIdle, IsOf, new_seat};
ghost use Rattle.frame_grammar.specs.Job.{IsInRange};
ghost use Rattle.pipe_shared.specs.declared.pipe.Closed.{Closed};
ghost use Rattle.pipe_shared.specs.Made.{ClosesPipe};
ghost use Rattle.pipe_state.specs.Segments.{AreSized};
ghost use Rattle.seg_block.specs.Numbered.{times};
ghost use Rattle.seg_pool.specs.Words.{Adds, IsOf as IsPassOf, Removes};
ghost use Rattle.relay_engine.specs.Sides.{HasDrained, HasFilled};
ghost use Rattle.relay_engine.specs.Pump.{options_for};
ghost use Rattle.relay_engine.specs.Pumped.{HasPumped};
ghost use Rattle.relay_threads.specs.NewEnds.{new_reader, new_writer};
ghost use Rattle.relay_threads.specs.Rented.{ids_named};

use edge_core::{Sink, Source};
use frame_grammar::Job;
use pipe_shared::{
    Canceller, Made, MakeError, MakeRefused, Pipe, ReaderDone, ReaderEnd, WriterDone, WriterEnd,
};
use relay_engine::{DrainEnd, Drainer, Filler, drain, fill, options_of, outcome_of};
use relay_model::{FillEnd, Report};
use seg_pool::{Pool, PoolPass, nothing_is_out};
use std::alloc::{AllocError, Global};
use std::sync::Wait;
use std::thread::{Threads, join_mut};

/// A relay that has ended on both sides, with its pipe, whose ends have completed and which isn't closed yet.
#[derive(Drop)]
pub struct Pumped {
    /// How the relay ended, by what its two sides have told.
    pub report: Report,
    pub pipe: Pipe,
    pub writer: WriterDone,
    pub reader: ReaderDone,
    pub canceller: Canceller,
}

/// How a filler ended, its writer, and how many bytes it took.
type FilledSide = (FillEnd, WriterDone, u64);

/// How a drainer ended, its reader, and how many frames and bytes it wrote.
type DrainedSide = (DrainEnd, ReaderDone, u64, u64);

/// Relays a source to a sink on two threads, and hands back how that ended, with the pipe for `settle` to close. This thread
/// takes bytes from the source into the pipe, and a new one writes the frames of what the pipe lends to the sink: the two
/// tasks that .NET's guide to pipelines starts and awaits by `Task.WhenAll`.
///
/// It rents the segments of its pipe before the first read, and they are out with the pass until `settle` gives them back.
/// Want of memory for them or for the pipe is the one refusal: nothing is read or written, and what was rented is given back.
/// The options of a job in range are never bad.
///
/// It waits for its devices, and its sides for each other: the one that fills while the pipe has no room, or while `pause`
/// bytes or more are unexamined until fewer than `resume` are, and the one that drains while nothing is committed that it
/// has not examined. Where the sink's side ends first, for a bad frame or a failed write, the source's side is told so by
/// its next flush, behind one more read at most. Where no thread can be made, the sink's side runs once the source's has
/// ended; an input for which the pipe has no room is then waited for without end.
pub fn pump<R: Wait + Threads + Sync, S: Source + Send, K: Sink + Send>(
    rt: &R,
    alloc: Global,
    source: &mut S,
    sink: &mut K,
    job: &Job,
    pool: &Pool,
    pass: &mut PoolPass,
) -> Result<Pumped, AllocError>
    requires range { IsInRange job.now }
    requires pool { IsPassOf pool.now pass.old }
    requires segment { pool.now.segment ≡ job.now.seg }
    ensures options { IfOk result (λ done. done.pipe.name.options ≡ options_for job.now) }
    ensures writer { IfOk result (λ done. IsOf done.pipe done.writer) }
    ensures reader { IfOk result (λ done. IsOf done.pipe done.reader) }
    ensures canceller { IfOk result (λ done. IsOf done.pipe done.canceller) }
    ensures pumped { IfOk result (λ done.
        HasPumped job.now done.report done.writer done.reader (S.state source.old) (S.state source.new) (K.state sink.old) (K.state sink.new)) }
    ensures source_untouched { OnErr result (S.state source.new ≡ S.state source.old) }
    ensures sink_untouched { OnErr result (K.state sink.new ≡ K.state sink.old) }
    ensures pool { IsPassOf pool.now pass.new }
    ensures rented { IfOk result (λ done. Adds pass.old.books (ids_named done.pipe.name.blocks) pass.new.books) }
    ensures sized { IfOk result (λ done. AreSized pool.now.segment done.pipe.name.blocks) }
    ensures given_back { OnErr result (Adds pass.old.books [] pass.new.books) }
{
    let (pipe, writer, reader, canceller) = rent_pipe(rt, alloc, job, pool, pass)?;
    let (filled, drained) = run_both(rt, &pipe, writer, reader, source, sink, job);
    let (taking, writer, taken) = filled;
    let (writing, reader, frames, written) = drained;
    let report = Report {
        outcome: outcome_of(taking, writing),
        frames,
        taken,
        written,
    };
    Ok(Pumped {
        report,
        pipe,
        writer,
        reader,
        canceller,
    })
}

/// Closes the pipe of a relay whose sides have both ended, and gives its segments back, as .NET's `Pipe` does once both its
/// ends have completed. The report is then one of a run, by `settled_pump_is_reported`.
///
/// It may spin while another thread is in the middle of a step of the pool, and takes no memory.
pub fn settle<R: Wait>(rt: &R, done: Pumped, pool: &Pool, pass: &mut PoolPass) -> Report
    requires writer { IsOf done.pipe done.writer }
    requires reader { IsOf done.pipe done.reader }
    requires canceller { IsOf done.pipe done.canceller }
    requires pool { IsPassOf pool.now pass.old }
    requires out { (id : ℕ) → times id (ids_named done.pipe.name.blocks) ≤ times id pass.old.books.out }
    requires sized { AreSized pool.now.segment done.pipe.name.blocks }
    ensures report { result ≡ done.report }
    ensures closes { (closed : Closed) × ClosesPipe done.pipe.name.blocks done.writer done.reader done.canceller closed }
    ensures pool { IsPassOf pool.now pass.new }
    ensures given_back { Removes pass.old.books (ids_named done.pipe.name.blocks) pass.new.books }
{
    let Pumped {
        report,
        pipe,
        writer,
        reader,
        canceller,
    } = done;
    let carried = pipe.close(writer, reader, canceller);
    pool.give_all(rt, pass, carried.blocks);
    report
}

/// The pipe of a relay, of rented segments. Where there is no memory for it they are given back.
fn rent_pipe<R: Wait>(
    rt: &R,
    alloc: Global,
    job: &Job,
    pool: &Pool,
    pass: &mut PoolPass,
) -> Result<Made, AllocError>
    requires range { IsInRange job.now }
    requires pool { IsPassOf pool.now pass.old }
    requires segment { pool.now.segment ≡ job.now.seg }
    ensures options { IfOk result (λ made. made.0.name.options ≡ options_for job.now) }
    ensures writer { IfOk result (λ made. made.1 ≡ new_writer made.0) }
    ensures reader { IfOk result (λ made. made.2 ≡ new_reader made.0) }
    ensures canceller { IfOk result (λ made. made.3 ≡ new_seat made.0 2) }
    ensures pool { IsPassOf pool.now pass.new }
    ensures rented { IfOk result (λ made. Adds pass.old.books (ids_named made.0.name.blocks) pass.new.books) }
    ensures sized { IfOk result (λ made. AreSized pool.now.segment made.0.name.blocks) }
    ensures given_back { OnErr result (Adds pass.old.books [] pass.new.books) }
{
    nothing_is_out();
    let options = options_of(job);
    let blocks = pool.rent_all(rt, alloc, pass, options.segments)?;
    match Pipe::make(alloc, options, blocks) {
        Ok(made) => Ok(made),
        Err(MakeRefused { error, blocks }) => {
            pool.give_all(rt, pass, blocks);
            match error {
                MakeError::OutOfMemory => Err(AllocError),
                MakeError::BadOptions { .. } => unreachable!(),
            }
        }
    }
}

/// Runs both sides to their ends, the one that drains on a new thread. Where none can be made, it runs once the other has ended.
fn run_both<R: Wait + Threads + Sync, S: Source + Send, K: Sink + Send>(
    rt: &R,
    pipe: &Pipe,
    writer: WriterEnd,
    reader: ReaderEnd,
    source: &mut S,
    sink: &mut K,
    job: &Job,
) -> (FilledSide, DrainedSide)
    requires writer { writer ≡ new_writer pipe.now }
    requires reader { reader ≡ new_reader pipe.now }
    requires limit { job.now.limit ≤ 2 ^ 40 }
    ensures writer { IsIdle pipe.now result.0.1 }
    ensures reader { IsIdle pipe.now result.1.1 }
    ensures filled { HasFilled job.now.limit result.0.0 result.0.1 result.0.2 (S.state source.old) (S.state source.new) }
    ensures drained { HasDrained job.now result.1.0 result.1.1 result.1.2 result.1.3 (K.state sink.old) (K.state sink.new) }
{
    let mut writer = Some(writer);
    let mut reader = Some(reader);
    let (drained, filled) = join_mut(
        rt,
        &mut || drain_pipe(rt, pipe, &mut reader, sink, job),
        &mut || fill_pipe(rt, pipe, &mut writer, source, job),
    );
    (filled, drained)
}

/// Takes bytes from a source into a new pipe, until no more are taken. The pipe's writer is there, and isn't afterwards.
fn fill_pipe<R: Wait, S: Source>(
    rt: &R,
    pipe: &Pipe,
    writer: &mut Option<WriterEnd>,
    source: &mut S,
    job: &Job,
) -> FilledSide
    requires new { writer.old ≡ Some (new_writer pipe.now) }
    requires limit { job.now.limit ≤ 2 ^ 40 }
    ensures pipe { IsIdle pipe.now result.1 }
    ensures filled { HasFilled job.now.limit result.0 result.1 result.2 (S.state source.old) (S.state source.new) }
{
    match writer.take() {
        Some(end) => fill(rt, pipe, Filler::new(end, job.limit), source),
        None => unreachable!(),
    }
}

/// Writes the frames of what a new pipe lends to a sink, until no more are written. The pipe's reader is there, and isn't
/// afterwards.
fn drain_pipe<R: Wait, K: Sink>(
    rt: &R,
    pipe: &Pipe,
    reader: &mut Option<ReaderEnd>,
    sink: &mut K,
    job: &Job,
) -> DrainedSide
    requires new { reader.old ≡ Some (new_reader pipe.now) }
    ensures pipe { IsIdle pipe.now result.1 }
    ensures drained { HasDrained job.now result.0 result.1 result.2 result.3 (K.state sink.old) (K.state sink.new) }
{
    match reader.take() {
        Some(end) => drain(rt, pipe, Drainer::new(end, job), sink),
        None => unreachable!(),
    }
}
