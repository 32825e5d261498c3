//! `batch`, whose names belong to devices in memory.

ghost use Rattle.std.specs.Prelude.{◌≡◌, IfOk};
ghost use Rattle.edge_core.specs.MemDoors.{IsFresh, name_of};

use crate::case::{Devices, Opening, Wanted, fails_next, opens};
use edge_core::{MemDoors, MemSink, MemSource};
use std::alloc::{AllocError, Global};
use std::sync::Wait;
use std::test::Fail;
use std::thread::Threads;

/// What the two names a and b have, which reads of a and writes to it fail, which openings fail, the words behind the command,
/// which calls of the sink fail, and what is to come out: the bytes of each sink that came back, in their order, the lines, the
/// status and the line on faults.
#[derive(Clone, Copy)]
struct Batch<'a> {
    contents: [&'a [u8]; 2],
    failing_reads: &'a [u64],
    failing_writes: &'a [u64],
    failing_openings: &'a [u64],
    words: &'a [&'a str],
    fails: &'a [u64],
    outlets: &'a [&'a [u8]],
    output: &'a [u8],
    status: u8,
    line: &'a [u8],
}

/// One frame, and a frame of which four bytes are missing.
const USUAL: Batch<'static> = Batch {
    contents: [&[0, 0, 0, 1, b'a'], &[0, 0, 0, 5, b'h']],
    failing_reads: &[],
    failing_writes: &[],
    failing_openings: &[],
    words: &["2", "len4", "line", "a", "b"],
    fails: &[],
    outlets: &[b"a\n", b""],
    output: b"a 0 1\nb 3 0\n",
    status: 3,
    line: b"b: truncated at 0\n",
};

/// The same where an opening is refused.
fn refused<'a>(failing_openings: &'a [u64], outlets: &'a [&'a [u8]], line: &'a [u8]) -> Batch<'a> {
    Batch {
        failing_openings,
        outlets,
        output: b"",
        status: 8,
        line,
        ..USUAL
    }
}

/// A name with a source of these bytes and a sink. What it is made of comes in, so that few ways out let go of few things.
fn named(
    alloc: Global,
    name: &str,
    content: Vec<u8>,
    failing_reads: Vec<u64>,
    failing_writes: Vec<u64>,
) -> Result<(String, MemSource, MemSink), AllocError>
    ensures name { IfOk result (λ devices. name_of devices ≡ name.now) }
    ensures fresh { IfOk result IsFresh }
{
    let text = String::from_str(alloc, name)?;
    let sink = MemSink::make(alloc, 64, Vec::new(alloc), failing_writes)?;
    Ok((
        text,
        MemSource::make(content, Vec::new(alloc), failing_reads),
        sink,
    ))
}

fn doors_of(alloc: Global, case: &Batch<'_>) -> Result<MemDoors, AllocError> {
    let [first, second] = case.contents;
    let reads = case.failing_reads.to_vec(alloc)?;
    let writes = case.failing_writes.to_vec(alloc)?;
    let mut names = Vec::new(alloc);
    names.push(named(alloc, "a", first.to_vec(alloc)?, reads, writes)?)?;
    names.push(named(
        alloc,
        "b",
        second.to_vec(alloc)?,
        Vec::new(alloc),
        Vec::new(alloc),
    )?)?;
    MemDoors::make(
        alloc,
        names,
        Vec::new(alloc),
        Vec::new(alloc),
        case.failing_openings.to_vec(alloc)?,
    )
}

/// Whether the command does what the case says, and reads nothing of its source; and its devices then.
fn run<R: Wait + Threads + Sync>(
    rt: &R,
    alloc: Global,
    case: &Batch<'_>,
) -> Result<(bool, Devices), AllocError> {
    let opening = Opening {
        words: case.words,
        fails: case.fails,
        outlets: case.outlets,
        wanted: Wanted {
            output: case.output,
            status: case.status,
            line: case.line,
        },
    };
    opens(rt, alloc, "batch", &opening, doors_of(alloc, case)?)
}

fn holds<R: Wait + Threads + Sync>(
    rt: &R,
    alloc: Global,
    case: &Batch<'_>,
) -> Result<bool, AllocError> {
    let (holds, _devices) = run(rt, alloc, case)?;
    Ok(holds)
}

// The lines are one write, the flush is the second call of the sink, and there is no third one. A fault of it comes before those
// of names.
#[test]
fn each_name_has_its_line_or_a_fault_is_told(rt: HostRuntime) -> Result<(), Fail> {
    let alloc = rt.alloc();
    let cases = [
        USUAL,
        Batch {
            words: &["1", "len4", "line", "seg=64", "b", "a"],
            outlets: &[b"", b"a\n"],
            output: b"b 3 0\na 0 1\n",
            ..USUAL
        },
        Batch {
            words: &["16", "line", "line", "max=9", "a"],
            contents: [b"x\ny\n", b""],
            outlets: &[b"x\ny\n"],
            output: b"a 0 2\n",
            status: 0,
            line: b"",
            ..USUAL
        },
        Batch {
            words: &["2", "len4", "line", "max=0", "a", "b"],
            outlets: &[b"", b""],
            output: b"a 2 0\nb 2 0\n",
            status: 2,
            line: b"a: bad frame at 0: length 1\n",
            ..USUAL
        },
        Batch {
            failing_reads: &[1],
            outlets: &[b"", b""],
            output: b"a 4 0\nb 3 0\n",
            status: 4,
            line: b"a: read fault after 0\n",
            ..USUAL
        },
        Batch {
            failing_writes: &[1],
            outlets: &[b"", b""],
            output: b"a 5 0\nb 3 0\n",
            status: 5,
            line: b"a: write fault after 0\n",
            ..USUAL
        },
        refused(&[1], &[], b"door fault at word 4\n"),
        refused(&[2], &[], b"door fault at word 4\n"),
        refused(&[3], &[b""], b"door fault at word 5\n"),
        refused(&[4], &[b""], b"door fault at word 5\n"),
        Batch {
            words: &["2", "len4", "line", "seg=64", "a", "c"],
            ..refused(&[], &[b""], b"door fault at word 6\n")
        },
        // Behind the first name, words that begin as keys are names.
        Batch {
            words: &["2", "line", "len4", "max=9", "a", "max=9"],
            ..refused(&[], &[b""], b"door fault at word 6\n")
        },
        Batch {
            fails: &[1],
            output: b"",
            status: 5,
            line: b"write fault after 0\n",
            ..USUAL
        },
        Batch {
            fails: &[2],
            status: 5,
            line: b"write fault after 12\n",
            ..USUAL
        },
        Batch {
            fails: &[3],
            ..USUAL
        },
    ];
    for case in &cases {
        assert!(rt; holds(&rt, alloc, case)?);
    }
    Ok(())
}

// Neither a failed write of the lines nor a refused opening is followed by a flush: the call that fails next is the first that
// the command didn't make.
#[test]
fn the_sink_is_called_no_more_behind_a_fault(rt: HostRuntime) -> Result<(), Fail> {
    let alloc = rt.alloc();
    let cases = [
        Batch {
            fails: &[1, 2],
            output: b"",
            status: 5,
            line: b"write fault after 0\n",
            ..USUAL
        },
        Batch {
            fails: &[1],
            ..refused(&[1], &[], b"door fault at word 4\n")
        },
    ];
    for case in &cases {
        let (holds, mut devices) = run(&rt, alloc, case)?;
        assert!(rt; holds && fails_next(&mut devices));
    }
    Ok(())
}
