//! `serve`, whose connections are devices in memory.

ghost use Rattle.std.specs.Prelude.{IfOk};
ghost use Rattle.edge_core.specs.MemSink.{mem_sink_state};
ghost use Rattle.edge_core.specs.MemSource.{mem_source_state};
ghost use Rattle.edge_core.specs.Names.{IsFreshSink, IsFreshSource};

use crate::case::{Devices, Opening, Wanted, fails_next, opens};
use edge_core::{MemDoors, MemSink, MemSource};
use std::alloc::{AllocError, Global};
use std::sync::Wait;
use std::test::Fail;
use std::thread::Threads;

/// What the two connections hold, which reads of the first one and writes to its target fail, which openings fail, the words
/// behind the command, which calls of the sink fail, and what is to come out: the bytes of each target that came back, in their
/// order, the lines, the status and the line on faults.
#[derive(Clone, Copy)]
struct Serve<'a> {
    contents: [&'a [u8]; 2],
    failing_reads: &'a [u64],
    failing_writes: &'a [u64],
    failing_openings: &'a [u64],
    words: &'a [&'a str],
    fails: &'a [u64],
    outlets: &'a [&'a [u8]],
    output: &'a [u8],
    status: u8,
    line: &'a [u8],
}

const HI: &[u8] = &[0, 0, 0, 2, b'h', b'i'];

/// One frame each.
const USUAL: Serve<'static> = Serve {
    contents: [HI, HI],
    failing_reads: &[],
    failing_writes: &[],
    failing_openings: &[],
    words: &["L", "T", "len4", "line", "2"],
    fails: &[],
    outlets: &[b"hi\n", b"hi\n"],
    output: b"1 0 1\n2 0 1\n",
    status: 0,
    line: b"",
};

/// The same where an opening is refused before the first connection was relayed.
const REFUSED: Serve<'static> = Serve {
    outlets: &[],
    output: b"",
    status: 8,
    ..USUAL
};

/// The same where one is refused behind it.
const CUT_OFF: Serve<'static> = Serve {
    outlets: &[b"hi\n"],
    output: b"1 0 1\n",
    ..REFUSED
};

fn source_of(content: Vec<u8>, cuts: Vec<usize>, fails: Vec<u64>) -> MemSource
    ensures fresh { IsFreshSource result }
{
    MemSource::make(content, cuts, fails)
}

fn sink_of(alloc: Global, fails: Vec<u64>) -> Result<MemSink, AllocError>
    ensures fresh { IfOk result (λ sink. IsFreshSink sink) }
{
    MemSink::make(alloc, 64, Vec::new(alloc), fails)
}

fn doors_of(alloc: Global, case: &Serve<'_>) -> Result<MemDoors, AllocError> {
    let [first, second] = case.contents;
    let (first, second) = (first.to_vec(alloc)?, second.to_vec(alloc)?);
    let (reads, writes) = (
        case.failing_reads.to_vec(alloc)?,
        case.failing_writes.to_vec(alloc)?,
    );
    let openings = case.failing_openings.to_vec(alloc)?;
    let mut accepted = Vec::new(alloc);
    accepted.push(source_of(first, Vec::new(alloc), reads))?;
    accepted.push(source_of(second, Vec::new(alloc), Vec::new(alloc)))?;
    let mut connected = Vec::new(alloc);
    connected.push(sink_of(alloc, writes)?)?;
    connected.push(sink_of(alloc, Vec::new(alloc))?)?;
    MemDoors::make(alloc, Vec::new(alloc), accepted, connected, openings)
}

/// Whether the command does what the case says, and reads nothing of its source; and its devices then.
fn run<R: Wait + Threads + Sync>(
    rt: &R,
    alloc: Global,
    case: &Serve<'_>,
) -> Result<(bool, Devices), AllocError> {
    let opening = Opening {
        words: case.words,
        fails: case.fails,
        outlets: case.outlets,
        wanted: Wanted {
            output: case.output,
            status: case.status,
            line: case.line,
        },
    };
    opens(rt, alloc, "serve", &opening, doors_of(alloc, case)?)
}

fn holds<R: Wait + Threads + Sync>(
    rt: &R,
    alloc: Global,
    case: &Serve<'_>,
) -> Result<bool, AllocError> {
    let (holds, _devices) = run(rt, alloc, case)?;
    Ok(holds)
}

/// The openings are listening, and then accepting and connecting for each connection. Each line is a write of the sink, and the
/// flush behind them its last call.
const CASES: [Serve<'static>; 17] = [
    USUAL,
    Serve {
        words: &["L", "T", "len4", "line", "1", "seg=64"],
        outlets: &[b"hi\n"],
        output: b"1 0 1\n",
        ..USUAL
    },
    // There is no third connection.
    Serve {
        words: &["L", "T", "len4", "line", "3"],
        status: 8,
        line: b"door fault at word 1\n",
        ..USUAL
    },
    Serve {
        failing_openings: &[1],
        line: b"door fault at word 1\n",
        ..REFUSED
    },
    Serve {
        failing_openings: &[2],
        line: b"door fault at word 1\n",
        ..REFUSED
    },
    Serve {
        failing_openings: &[3],
        line: b"door fault at word 2\n",
        ..REFUSED
    },
    Serve {
        failing_openings: &[4],
        line: b"door fault at word 1\n",
        ..CUT_OFF
    },
    Serve {
        failing_openings: &[5],
        line: b"door fault at word 2\n",
        ..CUT_OFF
    },
    Serve {
        failing_reads: &[1],
        outlets: &[b"", b"hi\n"],
        output: b"1 4 0\n2 0 1\n",
        status: 4,
        line: b"1: read fault after 0\n",
        ..USUAL
    },
    Serve {
        failing_writes: &[1],
        outlets: &[b"", b"hi\n"],
        output: b"1 5 0\n2 0 1\n",
        status: 5,
        line: b"1: write fault after 0\n",
        ..USUAL
    },
    // The status and the line are those of the first connection that failed, and not of the last one.
    Serve {
        contents: [&[0, 0, 0, 3, b'h', b'i', b'!'], &[0, 0, 0, 5, b'h']],
        words: &["L", "T", "len4", "line", "2", "max=2"],
        outlets: &[b"", b""],
        output: b"1 2 0\n2 2 0\n",
        status: 2,
        line: b"1: bad frame at 0: length 3\n",
        ..USUAL
    },
    Serve {
        contents: [HI, &[0, 0, 0, 5, b'h']],
        outlets: &[b"hi\n", b""],
        output: b"1 0 1\n2 3 0\n",
        status: 3,
        line: b"2: truncated at 0\n",
        ..USUAL
    },
    Serve {
        fails: &[1],
        outlets: &[b"hi\n"],
        output: b"",
        status: 5,
        line: b"write fault after 0\n",
        ..USUAL
    },
    Serve {
        fails: &[2],
        output: b"1 0 1\n",
        status: 5,
        line: b"write fault after 6\n",
        ..USUAL
    },
    Serve {
        fails: &[3],
        status: 5,
        line: b"write fault after 12\n",
        ..USUAL
    },
    Serve {
        fails: &[4],
        ..USUAL
    },
    Serve {
        words: &["L", "T", "len4", "line", "0"],
        outlets: &[],
        output: b"",
        status: 1,
        line: b"usage: word 5\n",
        ..USUAL
    },
];

#[test]
fn each_connection_has_its_line_or_a_fault_is_told(rt: HostRuntime) -> Result<(), Fail> {
    let alloc = rt.alloc();
    for case in &CASES {
        assert!(rt; holds(&rt, alloc, case)?);
    }
    Ok(())
}

/// Behind a refused opening and a failed line nothing is flushed: the call that fails next is the first that the command didn't
/// make.
const FAULTS: [Serve<'static>; 3] = [
    Serve {
        fails: &[1],
        failing_openings: &[1],
        line: b"door fault at word 1\n",
        ..REFUSED
    },
    Serve {
        fails: &[2],
        failing_openings: &[4],
        line: b"door fault at word 1\n",
        ..CUT_OFF
    },
    Serve {
        fails: &[1, 2],
        outlets: &[b"hi\n"],
        output: b"",
        status: 5,
        line: b"write fault after 0\n",
        ..USUAL
    },
];

#[test]
fn the_sink_is_not_flushed_behind_a_fault(rt: HostRuntime) -> Result<(), Fail> {
    let alloc = rt.alloc();
    for case in &FAULTS {
        let (holds, mut devices) = run(&rt, alloc, case)?;
        assert!(rt; holds && fails_next(&mut devices));
    }
    Ok(())
}
