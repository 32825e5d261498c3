//! A drainer on a pipe for two threads, of which one thread makes all calls.

ghost use Rattle.std.specs.Prelude.{◌≡◌, [], IfSome, IsSomeAnd};
ghost use Rattle.turn_cell.specs.Seat.{IsIdle, IsOf};
ghost use Rattle.relay_engine.specs.PipeDrainer.{IsOfPipe};

use edge_core::MemSink;
use frame_grammar::{BadKind, Framing, Job};
use pipe_core::{FlushReply, Wake};
use pipe_shared::{FlushFault, Made, Options, Pipe, WriterDone, WriterEnd};
use pipe_state::numbered_blocks_fit;
use relay_engine::{DrainEnd, DrainStep, Drainer, drain};
use seg_block::own_blocks;
use std::alloc::{AllocError, Global};
use std::sync::Wait;
use std::test::Fail;

const OPTIONS: Options = Options {
    segment: 64,
    segments: 2,
    pause: 8,
    resume: 4,
};

const JOB: Job = Job {
    input: Framing::Len4,
    output: Framing::Line,
    max: 65_536,
    seg: 4_096,
    pause: 65_536,
    resume: 32_768,
    limit: 1_000,
};

fn made(alloc: Global) -> Option<Made>
    ensures { IfSome result (λ made. IsIdle made.0 made.1.seat × IsIdle made.0 made.2.seat × IsOf made.0 made.3
        × (made.2.seat.own ≡ [])) }
{
    numbered_blocks_fit();
    let blocks = own_blocks(alloc, OPTIONS.segments, OPTIONS.segment).ok()?;
    Pipe::make(alloc, OPTIONS, blocks).ok()
}

fn sink(alloc: Global, failing_calls: &[u64]) -> Result<MemSink, AllocError> {
    MemSink::make(alloc, 64, Vec::new(alloc), failing_calls.to_vec(alloc)?)
}

/// Writes these bytes and commits them.
fn send(
    pipe: &Pipe,
    w: &mut WriterEnd,
    bytes: &[u8],
) -> Option<Result<(FlushReply, Wake), FlushFault>>
    requires { IsIdle pipe.now w.old.seat }
    ensures { IsIdle pipe.now w.new.seat }
{
    let Ok(free) = pipe.try_room(w, bytes.len()) else {
        return None;
    };
    if bytes.len() > free {
        return None;
    }
    w.spare_mut()[..bytes.len()].copy_from_slice(bytes);
    w.advance(bytes.len());
    Some(pipe.try_flush(w))
}

fn complete(pipe: &Pipe, w: WriterEnd) -> Option<WriterDone>
    requires { IsIdle pipe.now w.seat }
    ensures { IfSome result (λ done. IsIdle pipe.now done) }
{
    match pipe.try_complete(w, 0) {
        Ok((done, _)) => Some(done),
        Err(_) => None,
    }
}

/// A step that isn't the last.
fn step(drainer: &mut Drainer, pipe: &Pipe, sink: &mut MemSink) -> Option<DrainStep>
    requires { IsSomeAnd drainer.old.end (λ r. IsIdle pipe.now r.seat) }
    ensures { IfSome result (λ step. IsOfPipe pipe.now step drainer.new) }
{
    Some(drainer.step(pipe, sink))
}

/// What a drainer makes of this input, of which the writer has completed: why it ended, the frames, and what the sink has.
fn drained<R: Wait>(
    rt: &R,
    alloc: Global,
    input: &[u8],
    failing_call: u64,
) -> Option<(DrainEnd, u64, MemSink)> {
    let (pipe, mut w, r, _) = made(alloc)?;
    let mut sink = sink(alloc, &[failing_call]).ok()?;
    let drainer = Drainer::new(r, &JOB);
    let _ = send(&pipe, &mut w, input)?;
    let _ = complete(&pipe, w)?;
    let (end, _, frames, _) = drain(rt, &pipe, drainer, &mut sink);
    Some((end, frames, sink))
}

#[test]
fn a_pipe_is_drained_to_its_end(rt: HostRuntime) -> Result<(), Fail> {
    let rest = DrainEnd::Rest { place: 6 };
    let bad = DrainEnd::Bad {
        place: 6,
        kind: BadKind::TooBig { len: 65_537 },
    };
    let cases: [(&[u8], u64, DrainEnd, u64, &[u8]); 4] = [
        (
            b"\0\0\0\x02hi\0\0\0\x01a",
            9,
            DrainEnd::Clean,
            2,
            b"hi\na\n",
        ),
        (b"\0\0\0\x02hi\0\0", 9, rest, 1, b"hi\n"),
        (b"\0\0\0\x02hi\0\x01\0\x01", 9, bad, 1, b"hi\n"),
        (b"\0\0\0\x02hi", 1, DrainEnd::SinkFault, 0, b""),
    ];
    for (input, failing_call, end, frames, text) in cases {
        let (why, written, sink) = drained(&rt, rt.alloc(), input, failing_call).ok_or("memory")?;
        assert!(rt; (why, written) == (end, frames));
        assert!(rt; sink.bytes() == text);
    }
    Ok(())
}

#[test]
fn a_drainer_idles_until_a_frame_comes(rt: HostRuntime) -> Result<(), Fail> {
    let alloc = rt.alloc();
    let (pipe, _, r, _) = made(alloc).ok_or("memory")?;
    let mut sink = sink(alloc, &[])?;
    let mut drainer = Drainer::new(r, &JOB);
    assert!(rt; step(&mut drainer, &pipe, &mut sink) == Some(DrainStep::Idle { examined: 0 }));
    assert!(rt; (drainer.frames(), drainer.written()) == (0, 0));
    Ok(())
}
