//! The engine in steps, and as a whole.

ghost use Rattle.std.specs.Prelude.{◌≤◌, ◌^◌};
ghost use Rattle.frame_grammar.specs.Job.{IsInRange};

use edge_core::{MemSink, MemSource};
use frame_grammar::{BadKind, Framing, Job};
use relay_engine::{
    DrainEnd, FillEnd, Outcome, Report, Told, outcome_of, pump_local, status_of, tell,
};
use std::alloc::{AllocError, Global};
use std::test::Fail;

const TWO_FRAMES: &[u8] = &[0, 0, 0, 2, b'h', b'i', 0, 0, 0, 1, b'a'];

fn job(input: Framing, output: Framing, limit: u64) -> Job
    requires { limit ≤ 2 ^ 40 }
    ensures { IsInRange result }
{
    Job {
        input,
        output,
        max: 65_536,
        seg: 4_096,
        pause: 65_536,
        resume: 32_768,
        limit,
    }
}

fn source(alloc: Global, content: &[u8], failing_calls: &[u64]) -> Result<MemSource, AllocError> {
    Ok(MemSource::make(
        content.to_vec(alloc)?,
        Vec::new(alloc),
        failing_calls.to_vec(alloc)?,
    ))
}

fn sink_with(alloc: Global, caps: &[usize], failing_call: u64) -> Result<MemSink, AllocError> {
    MemSink::make(
        alloc,
        64,
        caps.to_vec(alloc)?,
        [failing_call].to_vec(alloc)?,
    )
}

const BAD_FRAME: Outcome = Outcome::BadFrame {
    place: 0,
    kind: BadKind::TooBig { len: 65_537 },
};

fn report(outcome: Outcome, frames: u64, taken: u64, written: u64) -> Report {
    Report {
        outcome,
        frames,
        taken,
        written,
    }
}

/// What a relay of `len4` to lines reports that takes at most `limit` bytes.
fn relay(
    alloc: Global,
    limit: u64,
    source: &mut MemSource,
    sink: &mut MemSink,
) -> Result<Report, AllocError> {
    let job = job(Framing::Len4, Framing::Line, limit.min(1_000));
    pump_local(alloc, source, sink, &job)
}

/// The same where a call of the source and one of the sink fail, with what the sink has. No call has the number 0. A sink
/// with `caps` takes that many bytes by each of its first calls.
fn relayed(
    alloc: Global,
    limit: u64,
    input: &[u8],
    failing_read: u64,
    caps: &[usize],
    failing_write: u64,
) -> Result<(Report, MemSink), AllocError> {
    let mut source = source(alloc, input, &[failing_read])?;
    let mut sink = sink_with(alloc, caps, failing_write)?;
    let report = relay(alloc, limit, &mut source, &mut sink)?;
    Ok((report, sink))
}

#[test]
fn a_relay_takes_no_more_than_its_limit(rt: HostRuntime) -> Result<(), Fail> {
    let alloc = rt.alloc();
    let cases: [(u64, Report, &[u8]); 3] = [
        (11, report(Outcome::Clean, 2, 11, 5), b"hi\na\n"),
        (10, report(Outcome::TooLong, 1, 10, 3), b"hi\n"),
        (0, report(Outcome::TooLong, 0, 0, 0), b""),
    ];
    for (limit, told, text) in cases {
        let (report, sink) = relayed(alloc, limit, TWO_FRAMES, 0, &[], 0)?;
        assert!(rt; report == told);
        assert!(rt; sink.bytes() == text);
    }
    Ok(())
}

/// The sink counts its calls, of which the last that is made is the flush, and no piece is empty.
#[test]
fn a_sink_is_flushed_once_before_an_end(rt: HostRuntime) -> Result<(), Fail> {
    let alloc = rt.alloc();
    let cases: [(&[u8], u64, u64, Outcome, u64); 10] = [
        (TWO_FRAMES, 1_000, 2, Outcome::WriteFault, 2),
        (TWO_FRAMES, 1_000, 3, Outcome::Clean, 2),
        (TWO_FRAMES, 10, 2, Outcome::WriteFault, 1),
        (TWO_FRAMES, 10, 3, Outcome::TooLong, 1),
        (&[0, 0, 0, 0], 1_000, 2, Outcome::WriteFault, 1),
        (&[0, 0, 0, 0], 1_000, 3, Outcome::Clean, 1),
        (&[0, 0], 1_000, 1, Outcome::WriteFault, 0),
        (&[0, 0], 1_000, 2, Outcome::Truncated { place: 0 }, 0),
        (&[0, 1, 0, 1], 1_000, 1, Outcome::WriteFault, 0),
        (&[0, 1, 0, 1], 1_000, 2, BAD_FRAME, 0),
    ];
    for (input, limit, failing_call, outcome, frames) in cases {
        let (report, _) = relayed(alloc, limit, input, 0, &[], failing_call)?;
        assert!(rt; (report.outcome, report.frames) == (outcome, frames));
    }
    Ok(())
}

/// The source counts its calls: one read takes up to a segment, and one more finds the end.
#[test]
fn a_read_that_fails_ends_the_taking(rt: HostRuntime) -> Result<(), Fail> {
    let alloc = rt.alloc();
    let empty_frames = [0; 80];
    let cases: [(u64, Report); 3] = [
        (1, report(Outcome::ReadFault, 0, 0, 0)),
        (2, report(Outcome::ReadFault, 20, 80, 20)),
        (3, report(Outcome::Clean, 20, 80, 20)),
    ];
    for (failing_call, told) in cases {
        let (report, _) = relayed(alloc, 1_000, &empty_frames, failing_call, &[], 0)?;
        assert!(rt; report == told);
    }
    Ok(())
}

#[test]
fn a_frame_that_was_broken_off_is_not_counted(rt: HostRuntime) -> Result<(), Fail> {
    let alloc = rt.alloc();
    let cases: [(u64, u64, u64); 5] = [(1, 0, 0), (2, 0, 1), (3, 0, 2), (4, 1, 3), (5, 1, 4)];
    for (failing_call, frames, written) in cases {
        let (told, _) = relayed(alloc, 1_000, TWO_FRAMES, 0, &[1; 5], failing_call)?;
        assert!(rt; told == report(Outcome::WriteFault, frames, 11, written));
    }
    Ok(())
}

fn relay_of_lines(
    alloc: Global,
    source: &mut MemSource,
    sink: &mut MemSink,
) -> Result<Report, AllocError> {
    let job = Job {
        seg: 65_536,
        ..job(Framing::Line, Framing::Len4, 1 << 20)
    };
    pump_local(alloc, source, sink, &job)
}

/// What a relay of lines to `len4` reports whose input is read at once and whose sink fails at that call.
fn report_of_lines(alloc: Global, content: &[u8], failing_call: u64) -> Result<Report, AllocError> {
    let mut source = source(alloc, content, &[])?;
    let fails = [failing_call].to_vec(alloc)?;
    let mut sink = MemSink::make(alloc, 65_536, Vec::new(alloc), fails)?;
    relay_of_lines(alloc, &mut source, &mut sink)
}

/// The last call is the flush.
#[test]
fn small_frames_cost_few_calls(rt: HostRuntime) -> Result<(), Fail> {
    let empty_lines = [b'\n'; 12_000];
    let cases: [(u64, Report); 4] = [
        (1, report(Outcome::WriteFault, 0, 12_000, 0)),
        (2, report(Outcome::WriteFault, 8_192, 12_000, 32_768)),
        (3, report(Outcome::WriteFault, 12_000, 12_000, 48_000)),
        (4, report(Outcome::Clean, 12_000, 12_000, 48_000)),
    ];
    for (failing_call, told) in cases {
        assert!(rt; report_of_lines(rt.alloc(), &empty_lines, failing_call)? == told);
    }
    Ok(())
}

/// Its head is written before it, with all that was gathered.
#[test]
fn a_large_payload_costs_a_call(rt: HostRuntime) -> Result<(), Fail> {
    let alloc = rt.alloc();
    let mut content = [b'\n'; 5].to_vec(alloc)?;
    content.extend_from_slice(&[b'x'; 16_384])?;
    content.push(b'\n')?;
    let cases: [(u64, Report); 4] = [
        (1, report(Outcome::WriteFault, 0, 16_390, 0)),
        (2, report(Outcome::WriteFault, 5, 16_390, 24)),
        (3, report(Outcome::WriteFault, 6, 16_390, 16_408)),
        (4, report(Outcome::Clean, 6, 16_390, 16_408)),
    ];
    for (failing_call, told) in cases {
        assert!(rt; report_of_lines(alloc, &content, failing_call)? == told);
    }
    Ok(())
}

#[test]
fn an_outcome_has_an_order_a_status_and_a_line(rt: HostRuntime) -> Result<(), Fail> {
    let bad = DrainEnd::Bad {
        place: 5,
        kind: BadKind::Unspellable { at: 1 },
    };
    let cases: [(FillEnd, DrainEnd, u8, &[u8]); 7] = [
        (FillEnd::End, DrainEnd::Clean, 0, b""),
        (FillEnd::Fault, bad, 2, b"bad frame at 5: byte 1\n"),
        (
            FillEnd::End,
            DrainEnd::Rest { place: 6 },
            3,
            b"truncated at 6\n",
        ),
        (
            FillEnd::Fault,
            DrainEnd::Stopped,
            4,
            b"read fault after 7\n",
        ),
        (
            FillEnd::Fault,
            DrainEnd::SinkFault,
            5,
            b"write fault after 4\n",
        ),
        (
            FillEnd::Gone { code: 5 },
            DrainEnd::SinkFault,
            5,
            b"write fault after 4\n",
        ),
        (FillEnd::Long, DrainEnd::Stopped, 7, b"too long\n"),
    ];
    for (fill, drain, status, line) in cases {
        let outcome = outcome_of(fill, drain);
        assert!(rt; status_of(outcome).number() == status);
        let report = report(outcome, 1, 7, 4);
        assert!(rt; tells(rt.alloc(), Told::Relay { report }, line)?);
    }
    Ok(())
}

/// Whether this is told so.
fn tells(alloc: Global, told: Told, line: &[u8]) -> Result<bool, AllocError> {
    let mut faults = sink_with(alloc, &[], 0)?;
    Ok(tell(&mut faults, told).is_ok() && faults.bytes() == line)
}

#[test]
fn other_lines(rt: HostRuntime) -> Result<(), Fail> {
    let cases: [(Told, &[u8]); 3] = [
        (Told::Usage { word: 0 }, b"usage: word 0\n"),
        (Told::Memory, b"out of memory\n"),
        (Told::Door { word: 12 }, b"door fault at word 12\n"),
    ];
    for (told, line) in cases {
        assert!(rt; tells(rt.alloc(), told, line)?);
    }
    Ok(())
}
