//! Known runs of a relay on two threads.

ghost use Rattle.std.specs.Prelude.{◌≡◌, [], IfOk};
ghost use Rattle.frame_grammar.specs.Job.{IsInRange};
ghost use Rattle.relay_model.specs.Run.{IsReported};
ghost use Rattle.seg_pool.specs.Words.{Adds, IsOf as IsPassOf};

use crate::{pump, settle, settled_pump_is_reported};
use edge_core::{MemSink, MemSource, Sink, Source};
use frame_grammar::{Framing, Job};
use relay_model::{Outcome, Report};
use seg_pool::{Books, Pool, PoolPass, nothing_is_out};
use std::alloc::{AllocError, Global};
use std::sync::Wait;
use std::test::Fail;
use std::thread::Threads;

fn job(input: Framing, output: Framing) -> Job
    ensures range { IsInRange result }
    ensures segment { result.seg ≡ 4096 }
{
    Job {
        input,
        output,
        max: 65_536,
        seg: 4_096,
        pause: 65_536,
        resume: 32_768,
        limit: 1_048_576,
    }
}

// What the calls come to.
fn relay<R: Wait + Threads + Sync, S: Source + Send, K: Sink + Send>(
    rt: &R,
    alloc: Global,
    source: &mut S,
    sink: &mut K,
    job: &Job,
    pool: &Pool,
    pass: &mut PoolPass,
) -> Result<Report, AllocError>
    requires range { IsInRange job.now }
    requires pool { IsPassOf pool.now pass.old }
    requires segment { pool.now.segment ≡ job.now.seg }
    ensures reported { IfOk result (λ report. IsReported job.now report (S.state source.old) (S.state source.new) (K.state sink.old) (K.state sink.new)) }
    ensures pool { IsPassOf pool.now pass.new }
    ensures books { Adds pass.old.books [] pass.new.books }
{
    settled_pump_is_reported();
    nothing_is_out();
    let done = pump(rt, alloc, source, sink, job, pool, pass)?;
    Ok(settle(rt, done, pool, pass))
}

const FRAMES: &[u8] = &[0, 0, 0, 2, b'h', b'i', 0, 0, 0, 0, 0, 0, 0, 1, b'a'];

// Whether all of a content is relayed, by this job, as this text.
fn becomes<R: Wait + Threads + Sync>(
    rt: &R,
    alloc: Global,
    content: &[u8],
    text: &[u8],
    job: &Job,
    pool: &Pool,
    pass: &mut PoolPass,
) -> Result<bool, AllocError>
    requires range { IsInRange job.now }
    requires pool { IsPassOf pool.now pass.old }
    requires segment { pool.now.segment ≡ job.now.seg }
    ensures pool { IsPassOf pool.now pass.new }
    ensures books { pass.new.books.parts ≡ pass.old.books.parts }
{
    let mut source = MemSource::make(content.to_vec(alloc)?, Vec::new(alloc), Vec::new(alloc));
    let mut sink = MemSink::make(alloc, 64, Vec::new(alloc), Vec::new(alloc))?;
    let report = relay(rt, alloc, &mut source, &mut sink, job, pool, pass)?;
    let clean = Report {
        outcome: Outcome::Clean,
        frames: 3,
        taken: content.len() as u64,
        written: text.len() as u64,
    };
    Ok(report == clean && sink.bytes() == text)
}

// The second relay's pipe is made of the segments that the first one's gave back.
#[test]
fn frames_become_lines_and_lines_become_frames(rt: HostRuntime) -> Result<(), Fail> {
    let alloc = rt.alloc();
    let (pool, mut pass) = Pool::make(alloc, 36, 4_096)?;
    let lines = job(Framing::Len4, Framing::Line);
    assert!(rt; becomes(&rt, alloc, FRAMES, b"hi\n\na\n", &lines, &pool, &mut pass)?);
    let frames = job(Framing::Line, Framing::Len4);
    assert!(rt; becomes(&rt, alloc, b"hi\n\na", FRAMES, &frames, &pool, &mut pass)?);
    let books = Books {
        made: 36,
        home: 36,
        out: 0,
        freed: 0,
    };
    assert!(rt; pool.audit(&rt, pass) == books);
    Ok(())
}
