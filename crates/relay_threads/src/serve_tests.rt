//! Known runs of serving.

ghost use Rattle.std.specs.Prelude.{◌≡◌, IfOk};
ghost use Rattle.edge_core.specs.MemSink.{mem_sink_state};
ghost use Rattle.edge_core.specs.Names.{IsFreshSink, IsFreshSource};
ghost use Rattle.frame_grammar.specs.Job.{IsInRange};

use crate::{ServeEnd, serve};
use edge_core::{DoorError, Doors, Failed, MemDoors, MemSink, MemSource, Sink, Source};
use frame_grammar::{Framing, Job};
use relay_model::Status;
use seg_pool::{Books, Pool};
use std::alloc::{AllocError, Global};
use std::sync::Wait;
use std::sync::atomic::{AtomicU64, Ordering};
use std::test::Fail;
use std::thread::Threads;

const LISTEN: &str = "here";

const TARGET: &str = "there";

/// A frame with the payload `hi`.
const FRAME: &[u8] = &[0, 0, 0, 2, b'h', b'i'];

/// How many connections are to be served, what each of two clients sends, which call of a device fails, where none has the number
/// 0, and what comes of it: how it ends, how many openings were asked for, what each sink took that came back, the lines, in how
/// many calls of their sink, and the line on faults.
#[derive(Clone, Copy)]
struct Case<'a> {
    count: u32,
    contents: [&'a [u8]; 2],
    failing_opening: u64,
    /// The opening for which there is no memory.
    lacking: u64,
    /// The call of the first client, and of the first sink that is connected to.
    failing_read: u64,
    failing_write: u64,
    /// The write or flush of the lines.
    failing_line: u64,
    end: ServeEnd,
    openings: u64,
    outlets: &'a [&'a [u8]],
    lines: &'a [u8],
    calls: u64,
    line: &'a [u8],
}

/// Two clients send a frame each.
const USUAL: Case<'static> = Case {
    count: 2,
    contents: [FRAME, FRAME],
    failing_opening: 0,
    lacking: 0,
    failing_read: 0,
    failing_write: 0,
    failing_line: 0,
    end: ServeEnd::Served {
        status: Status::Clean,
    },
    openings: 5,
    outlets: &[b"hi\n", b"hi\n"],
    lines: b"1 0 1\n2 0 1\n",
    calls: 3,
    line: b"",
};

/// The same where it ends before the first of them was served.
const NONE_SERVED: Case<'static> = Case {
    outlets: &[],
    lines: b"",
    calls: 0,
    ..USUAL
};

/// The same where it ends behind the first of them.
const ONE_SERVED: Case<'static> = Case {
    outlets: &[b"hi\n"],
    lines: b"1 0 1\n",
    calls: 1,
    ..USUAL
};

const COUNTS: [Case<'static>; 4] = [
    USUAL,
    Case {
        count: 1,
        openings: 3,
        calls: 2,
        ..ONE_SERVED
    },
    Case {
        count: 0,
        openings: 1,
        calls: 1,
        ..NONE_SERVED
    },
    // There is no third client.
    Case {
        count: 3,
        end: ServeEnd::Door { word: 1 },
        openings: 6,
        calls: 2,
        line: b"door fault at word 1\n",
        ..USUAL
    },
];

/// An opening is refused.
const REFUSALS: [Case<'static>; 5] = [
    Case {
        failing_opening: 1,
        end: ServeEnd::Door { word: 1 },
        openings: 1,
        line: b"door fault at word 1\n",
        ..NONE_SERVED
    },
    Case {
        failing_opening: 2,
        end: ServeEnd::Door { word: 1 },
        openings: 2,
        line: b"door fault at word 1\n",
        ..NONE_SERVED
    },
    Case {
        failing_opening: 3,
        end: ServeEnd::Door { word: 2 },
        openings: 3,
        line: b"door fault at word 2\n",
        ..NONE_SERVED
    },
    Case {
        failing_opening: 4,
        end: ServeEnd::Door { word: 1 },
        openings: 4,
        line: b"door fault at word 1\n",
        ..ONE_SERVED
    },
    Case {
        failing_opening: 5,
        end: ServeEnd::Door { word: 2 },
        openings: 5,
        line: b"door fault at word 2\n",
        ..ONE_SERVED
    },
];

/// A client sends what isn't whole or good, or a device of a connection fails. The next one is served.
const CONNECTIONS: [Case<'static>; 6] = [
    Case {
        contents: [&[0, 1, 0, 1, b'h'], FRAME],
        end: ServeEnd::Served {
            status: Status::BadFrame,
        },
        outlets: &[b"", b"hi\n"],
        lines: b"1 2 0\n2 0 1\n",
        line: b"1: bad frame at 0: length 65537\n",
        ..USUAL
    },
    Case {
        contents: [FRAME, &[0, 0, 0, 5, b'h']],
        end: ServeEnd::Served {
            status: Status::Truncated,
        },
        outlets: &[b"hi\n", b""],
        lines: b"1 0 1\n2 3 0\n",
        line: b"2: truncated at 0\n",
        ..USUAL
    },
    // The status is that of the first whose status isn't 0, and not the least.
    Case {
        contents: [&[0, 0, 0, 1, b'a', 0, 0], &[0, 1, 0, 1]],
        end: ServeEnd::Served {
            status: Status::Truncated,
        },
        outlets: &[b"a\n", b""],
        lines: b"1 3 1\n2 2 0\n",
        line: b"1: truncated at 5\n",
        ..USUAL
    },
    Case {
        contents: [&[], &[]],
        outlets: &[b"", b""],
        lines: b"1 0 0\n2 0 0\n",
        ..USUAL
    },
    Case {
        failing_read: 1,
        end: ServeEnd::Served {
            status: Status::ReadFault,
        },
        outlets: &[b"", b"hi\n"],
        lines: b"1 4 0\n2 0 1\n",
        line: b"1: read fault after 0\n",
        ..USUAL
    },
    Case {
        failing_write: 1,
        end: ServeEnd::Served {
            status: Status::WriteFault,
        },
        outlets: &[b"", b"hi\n"],
        lines: b"1 5 0\n2 0 1\n",
        line: b"1: write fault after 0\n",
        ..USUAL
    },
];

/// A write of the lines fails, or their flush, which is the last call.
const LINES: [Case<'static>; 4] = [
    Case {
        failing_line: 1,
        end: ServeEnd::SinkFault,
        openings: 3,
        lines: b"",
        line: b"write fault after 0\n",
        ..ONE_SERVED
    },
    Case {
        failing_line: 2,
        end: ServeEnd::SinkFault,
        lines: b"1 0 1\n",
        calls: 2,
        line: b"write fault after 6\n",
        ..USUAL
    },
    Case {
        failing_line: 3,
        end: ServeEnd::SinkFault,
        line: b"write fault after 12\n",
        ..USUAL
    },
    // What the sink of the lines comes to is told before what a connection came to.
    Case {
        failing_line: 3,
        failing_read: 1,
        end: ServeEnd::SinkFault,
        outlets: &[b"", b"hi\n"],
        lines: b"1 4 0\n2 0 1\n",
        line: b"write fault after 12\n",
        ..USUAL
    },
];

/// How many devices are out, and how many reads were begun of those that were accepted.
#[derive(Drop)]
struct Watch {
    out: AtomicU64,
    reads: AtomicU64,
}

/// A source that counts its reads.
#[derive(Drop)]
struct WatchedSource<'a> {
    source: MemSource,
    watch: &'a Watch,
}

impl Source for WatchedSource<'_> {
    ghost use Rattle.edge_core.specs.MemSource.{mem_source_state};

    ghost state = { λ watched. mem_source_state watched.source };

    fn read(&mut self, buf: &mut [u8]) -> Result<usize, Failed> {
        self.watch.reads.fetch_add(1, Ordering::SeqCst);
        self.source.read(buf)
    }
}

/// Doors in memory that count what is out, tell whether they were to listen at LISTEN, and have no memory for one of the openings.
#[derive(Drop)]
struct WatchedDoors<'a> {
    doors: MemDoors,
    openings: u64,
    lacking: u64,
    is_at_listen: bool,
    watch: &'a Watch,
}

impl<'a> WatchedDoors<'a> {
    ghost use Rattle.std.specs.Prelude.{◌≡◌, OnErr, IfErr};
    ghost use Rattle.edge_core.specs.declared.doors.DoorError.TheVariants.{OutOfMemory};

    /// Counts an opening, and tells whether there is memory for it.
    fn begin(&mut self) -> Result<(), DoorError>
        ensures doors { self.new.doors ≡ self.old.doors }
        ensures lacking { IfErr result (λ error. error ≡ OutOfMemory) }
    {
        self.openings = self.openings.saturating_add(1);
        if self.openings == self.lacking {
            Err(DoorError::OutOfMemory)
        } else {
            Ok(())
        }
    }

    /// Counts a device as out.
    fn watched(&self, source: MemSource) -> WatchedSource<'a>
        ensures { result.source ≡ source }
    {
        self.watch.out.fetch_add(1, Ordering::SeqCst);
        WatchedSource {
            source,
            watch: self.watch,
        }
    }
}

impl<'a> Doors for WatchedDoors<'a> {
    ghost use Rattle.edge_core.specs.MemDoors.{mem_doors_state};

    type Inlet = WatchedSource<'a>;

    type Outlet = MemSink;

    ghost state = { λ watched. mem_doors_state watched.doors };

    fn inlet(&mut self, alloc: Global, name: &str) -> Result<WatchedSource<'a>, DoorError> {
        match self.doors.inlet(alloc, name) {
            Ok(source) => Ok(self.watched(source)),
            Err(error) => Err(error),
        }
    }

    fn outlet(&mut self, alloc: Global, name: &str) -> Result<MemSink, DoorError> {
        self.doors.outlet(alloc, name)
    }

    fn listen(&mut self, alloc: Global, address: &str) -> Result<(), DoorError> {
        self.is_at_listen = address == LISTEN;
        let Ok(()) = self.begin() else {
            return Err(DoorError::OutOfMemory);
        };
        self.doors.listen(alloc, address)
    }

    fn accept(&mut self, alloc: Global) -> Result<WatchedSource<'a>, DoorError> {
        let Ok(()) = self.begin() else {
            return Err(DoorError::OutOfMemory);
        };
        match self.doors.accept(alloc) {
            Ok(source) => Ok(self.watched(source)),
            Err(error) => Err(error),
        }
    }

    fn connect(&mut self, alloc: Global, address: &str) -> Result<MemSink, DoorError> {
        let Ok(()) = self.begin() else {
            return Err(DoorError::OutOfMemory);
        };
        match self.doors.connect(alloc, address) {
            Ok(sink) => {
                self.watch.out.fetch_add(1, Ordering::SeqCst);
                Ok(sink)
            }
            Err(error) => Err(error),
        }
    }

    fn give_inlet(&mut self, inlet: WatchedSource<'a>) {
        self.watch.out.fetch_sub(1, Ordering::SeqCst);
        self.doors.give_inlet(inlet.source);
    }

    fn give_outlet(&mut self, outlet: MemSink) {
        self.watch.out.fetch_sub(1, Ordering::SeqCst);
        self.doors.give_outlet(outlet);
    }
}

/// A sink that counts its calls, and tells whether one came while a device was out.
#[derive(Drop)]
struct WatchedSink<'a> {
    sink: MemSink,
    calls: u64,
    was_early: bool,
    watch: &'a Watch,
}

impl WatchedSink<'_> {
    ghost use Rattle.std.specs.Prelude.{◌≡◌};

    fn begin(&mut self)
        ensures { self.new.sink ≡ self.old.sink }
    {
        self.calls = self.calls.saturating_add(1);
        self.was_early |= self.watch.out.load(Ordering::SeqCst) != 0;
    }
}

impl Sink for WatchedSink<'_> {
    ghost use Rattle.edge_core.specs.MemSink.{mem_sink_state};

    ghost state = { λ watched. mem_sink_state watched.sink };

    fn write(&mut self, piece: &[u8]) -> Result<usize, Failed> {
        self.begin();
        self.sink.write(piece)
    }

    fn flush(&mut self) -> Result<(), Failed> {
        self.begin();
        self.sink.flush()
    }
}

fn job() -> Job
    ensures range { IsInRange result }
    ensures segment { result.seg ≡ 4096 }
{
    Job {
        input: Framing::Len4,
        output: Framing::Line,
        max: 65_536,
        seg: 4_096,
        pause: 65_536,
        resume: 32_768,
        limit: 1_048_576,
    }
}

/// How serving ends, and the books of its pool then.
fn served<R: Wait + Threads + Sync, D: Doors, K: Sink, E: Sink>(
    rt: &R,
    alloc: Global,
    doors: &mut D,
    sink: &mut K,
    faults: &mut E,
    count: u32,
) -> Result<(ServeEnd, Books), AllocError> {
    let (pool, mut pass) = Pool::make(alloc, 36, 4_096)?;
    let end = serve(
        rt,
        alloc,
        doors,
        sink,
        faults,
        LISTEN,
        TARGET,
        count,
        &job(),
        &pool,
        &mut pass,
    );
    Ok((end, pool.audit(rt, pass)))
}

/// A client that sends this, and whose read of this number fails.
fn source_of(alloc: Global, content: &[u8], failing_read: u64) -> Result<MemSource, AllocError>
    ensures { IfOk result IsFreshSource }
{
    let content = content.to_vec(alloc)?;
    let fails = [failing_read].to_vec(alloc)?;
    Ok(MemSource::make(content, Vec::new(alloc), fails))
}

/// A sink whose call of this number fails.
fn sink_of(alloc: Global, failing_call: u64) -> Result<MemSink, AllocError>
    ensures { IfOk result IsFreshSink }
{
    let fails = [failing_call].to_vec(alloc)?;
    MemSink::make(alloc, 64, Vec::new(alloc), fails)
}

/// The clients of a case, and the sinks that it connects to.
fn doors_of(alloc: Global, case: &Case<'_>) -> Result<MemDoors, AllocError> {
    let [first, second] = case.contents;
    let mut accepted = Vec::new(alloc);
    accepted.push(source_of(alloc, first, case.failing_read)?)?;
    accepted.push(source_of(alloc, second, 0)?)?;
    let mut connected = Vec::new(alloc);
    connected.push(sink_of(alloc, case.failing_write)?)?;
    connected.push(sink_of(alloc, 0)?)?;
    let fails = [case.failing_opening].to_vec(alloc)?;
    MemDoors::make(alloc, Vec::new(alloc), accepted, connected, fails)
}

/// Whether these sinks took these bytes.
fn hold(sinks: &[MemSink], bytes: &[&[u8]]) -> bool {
    sinks.len() == bytes.len()
        && sinks
            .iter()
            .zip(bytes)
            .all(|(sink, bytes)| sink.bytes() == *bytes)
}

/// Whether devices hold what a case is to leave in them, and no line was told before its devices came back.
fn are_left(
    doors: &WatchedDoors<'_>,
    sink: &WatchedSink<'_>,
    faults: &MemSink,
    case: &Case<'_>,
) -> bool {
    doors.is_at_listen
        && doors.openings == case.openings
        && hold(doors.doors.outlets(), case.outlets)
        && sink.sink.bytes() == case.lines
        && sink.calls == case.calls
        && !sink.was_early
        && faults.bytes() == case.line
}

/// Whether a case comes to what it is to come to, and gives all back. Then, how many reads of its clients were begun.
fn reads_of<R: Wait + Threads + Sync>(
    rt: &R,
    alloc: Global,
    case: &Case<'_>,
) -> Result<Option<u64>, AllocError> {
    let watch = Watch {
        out: AtomicU64::new(0),
        reads: AtomicU64::new(0),
    };
    let mut doors = WatchedDoors {
        doors: doors_of(alloc, case)?,
        openings: 0,
        lacking: case.lacking,
        is_at_listen: false,
        watch: &watch,
    };
    let mut sink = WatchedSink {
        sink: sink_of(alloc, case.failing_line)?,
        calls: 0,
        was_early: false,
        watch: &watch,
    };
    let mut faults = sink_of(alloc, 0)?;
    let (end, books) = served(rt, alloc, &mut doors, &mut sink, &mut faults, case.count)?;
    let is_left = are_left(&doors, &sink, &faults, case);
    if end != case.end || !is_left || books.out != 0 || watch.out.load(Ordering::SeqCst) != 0 {
        return Ok(None);
    }
    Ok(Some(watch.reads.load(Ordering::SeqCst)))
}

/// Whether each case comes to what it is to come to.
fn all_hold<R: Wait + Threads + Sync>(
    rt: &R,
    alloc: Global,
    cases: &[Case<'_>],
) -> Result<bool, AllocError> {
    for case in cases {
        if reads_of(rt, alloc, case)?.is_none() {
            return Ok(false);
        }
    }
    Ok(true)
}

#[test]
fn each_connection_has_its_line_or_a_fault_is_told(rt: HostRuntime) -> Result<(), Fail> {
    let alloc = rt.alloc();
    assert!(rt; all_hold(&rt, alloc, &COUNTS)?);
    assert!(rt; all_hold(&rt, alloc, &REFUSALS)?);
    assert!(rt; all_hold(&rt, alloc, &CONNECTIONS)?);
    assert!(rt; all_hold(&rt, alloc, &LINES)?);
    Ok(())
}

/// As where it is refused, but that this is told.
#[test]
fn an_opening_without_memory_ends_it(rt: HostRuntime) -> Result<(), Fail> {
    let alloc = rt.alloc();
    for case in REFUSALS {
        let lacking = Case {
            failing_opening: 0,
            lacking: case.failing_opening,
            end: ServeEnd::OutOfMemory,
            line: b"out of memory\n",
            ..case
        };
        assert!(rt; reads_of(&rt, alloc, &lacking)?.is_some());
    }
    Ok(())
}

/// Each of a client's two reads is counted, of which the second tells the end.
#[test]
fn a_client_is_read_once_its_target_is_reached(rt: HostRuntime) -> Result<(), Fail> {
    let alloc = rt.alloc();
    for (case, reads) in REFUSALS.iter().zip([0, 0, 0, 2, 2]) {
        assert!(rt; reads_of(&rt, alloc, case)? == Some(reads));
    }
    Ok(())
}
