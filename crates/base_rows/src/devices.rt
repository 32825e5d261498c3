//! Devices in memory, and readers and writers as devices, call by call.

use edge_core::{
    BrokenOff, Failed, MemSink, MemSource, ReadEdge, Sink, Source, WholeSource, WriteEdge,
    write_all,
};
use std::alloc::{AllocError, Global};
use std::io::{self, ErrorKind, Read, Write};
use std::test::Fail;

const FRAMES: &[u8] = &[0, 0, 0, 1, 97, 0, 0];

/// Whether the reads of a source, each into so many bytes, answer so, and begin their buffer so.
fn reads<S: Source>(source: &mut S, room: usize, steps: &[(Result<usize, Failed>, &[u8])]) -> bool {
    for (answer, front) in steps {
        let mut buf = [9; 8];
        if source.read(&mut buf[..room.min(8)]) != *answer || !buf.starts_with(front) {
            return false;
        }
    }
    true
}

/// A call of a sink, and what it is to answer.
#[derive(Clone, Copy)]
enum Call<'a> {
    Write(&'a [u8], Result<usize, Failed>),
    Flush(Result<(), Failed>),
}

/// Whether the calls of a sink answer so.
fn answers<K: Sink>(sink: &mut K, calls: &[Call<'_>]) -> bool {
    for call in calls {
        let is_so = match call {
            Call::Write(piece, answer) => sink.write(piece) == *answer,
            Call::Flush(answer) => sink.flush() == *answer,
        };
        if !is_so {
            return false;
        }
    }
    true
}

fn source_of(alloc: Global, cuts: &[usize], fails: &[u64]) -> Result<MemSource, AllocError> {
    Ok(MemSource::make(
        FRAMES.to_vec(alloc)?,
        cuts.to_vec(alloc)?,
        fails.to_vec(alloc)?,
    ))
}

fn sink_of(
    alloc: Global,
    room: usize,
    caps: &[usize],
    fails: &[u64],
) -> Result<MemSink, AllocError> {
    MemSink::make(alloc, room, caps.to_vec(alloc)?, fails.to_vec(alloc)?)
}

#[test]
fn a_source_in_memory_cuts_its_reads_and_fails_as_told(rt: HostRuntime) -> Result<(), Fail> {
    let mut source = source_of(rt.alloc(), &[5, 2], &[3])?;
    let steps: [(Result<usize, Failed>, &[u8]); 4] = [
        (Ok(5), &[0, 0, 0, 1, 97]),
        (Ok(2), &[0, 0]),
        (Err(Failed), &[]),
        (Ok(0), &[]),
    ];
    assert!(rt; reads(&mut source, 8, &steps));
    Ok(())
}

#[test]
fn a_cut_of_nothing_gives_a_byte_and_past_the_cuts_a_read_fills_its_buffer(
    rt: HostRuntime,
) -> Result<(), Fail> {
    let mut source = source_of(rt.alloc(), &[0], &[1, 5])?;
    let steps: [(Result<usize, Failed>, &[u8]); 6] = [
        (Err(Failed), &[]),
        (Ok(1), &[0]),
        (Ok(4), &[0, 0, 1, 97]),
        (Ok(2), &[0, 0]),
        (Err(Failed), &[]),
        (Ok(0), &[]),
    ];
    assert!(rt; reads(&mut source, 4, &steps));
    Ok(())
}

#[test]
fn a_whole_source_gives_all_that_fits(rt: HostRuntime) -> Result<(), Fail> {
    let mut source = WholeSource::make(FRAMES.to_vec(rt.alloc())?);
    let steps: [(Result<usize, Failed>, &[u8]); 3] = [
        (Ok(4), &[0, 0, 0, 1]),
        (Ok(3), &[97, 0, 0]),
        (Ok(0), &[]),
    ];
    assert!(rt; reads(&mut source, 4, &steps));
    Ok(())
}

#[test]
fn a_sink_of_one_byte_a_write_keeps_the_front_before_its_fault(
    rt: HostRuntime,
) -> Result<(), Fail> {
    let mut sink = sink_of(rt.alloc(), 16, &[1; 7], &[4])?;
    assert!(rt; write_all(&mut sink, FRAMES) == Err(BrokenOff { written: 3 }));
    assert!(rt; sink.bytes() == [0, 0, 0].as_slice());
    assert!(rt; write_all(&mut sink, &[1, 97, 0, 0]) == Ok(()));
    assert!(rt; sink.bytes() == FRAMES);
    Ok(())
}

#[test]
fn a_full_sink_fails_and_still_flushes(rt: HostRuntime) -> Result<(), Fail> {
    let mut sink = sink_of(rt.alloc(), 4, &[0], &[3])?;
    let calls = [
        Call::Write(b"abcdef", Ok(1)),
        Call::Write(b"bcdef", Ok(3)),
        Call::Flush(Err(Failed)),
        Call::Write(b"ef", Err(Failed)),
        Call::Write(b"", Ok(0)),
        Call::Flush(Ok(())),
    ];
    assert!(rt; answers(&mut sink, &calls));
    assert!(rt; sink.bytes() == b"abcd".as_slice());
    Ok(())
}

// Every other call is interrupted, from the first one on.
#[derive(Drop)]
struct Interrupted<T> {
    inner: T,
    is_interrupted: bool,
}

impl<T> Interrupted<T> {
    fn pass(&mut self) -> io::Result<&mut T> {
        self.is_interrupted = !self.is_interrupted;
        if self.is_interrupted {
            return Err(io::Error::from(ErrorKind::Interrupted));
        }
        Ok(&mut self.inner)
    }
}

impl<R: Read> Read for Interrupted<R> {
    fn read(&mut self, buf: &mut [u8]) -> io::Result<usize> {
        self.pass()?.read(buf)
    }
}

impl<W: Write> Write for Interrupted<W> {
    fn write(&mut self, buf: &[u8]) -> io::Result<usize> {
        self.pass()?.write(buf)
    }

    fn flush(&mut self) -> io::Result<()> {
        self.pass()?.flush()
    }
}

#[test]
fn a_reader_passes_on_its_bytes_and_its_errors(rt: HostRuntime) {
    let mut source = ReadEdge::new(Interrupted {
        inner: FRAMES,
        is_interrupted: false,
    });
    let steps: [(Result<usize, Failed>, &[u8]); 6] = [
        (Err(Failed), &[]),
        (Ok(5), &[0, 0, 0, 1, 97]),
        (Err(Failed), &[]),
        (Ok(2), &[0, 0]),
        (Err(Failed), &[]),
        (Ok(0), &[]),
    ];
    assert!(rt; reads(&mut source, 5, &steps));
    assert!(rt; source.faults() == 3);
}

#[test]
fn a_writer_passes_on_its_bytes_and_its_errors(rt: HostRuntime) {
    let mut written = Vec::new(rt.alloc());
    let mut sink = WriteEdge::new(Interrupted {
        inner: &mut written,
        is_interrupted: false,
    });
    let calls = [
        Call::Flush(Err(Failed)),
        Call::Write(b"ab", Ok(2)),
        Call::Write(b"cd", Err(Failed)),
        Call::Flush(Ok(())),
    ];
    assert!(rt; answers(&mut sink, &calls));
    assert!(rt; sink.faults() == 2);
    assert!(rt; sink.into_inner().inner.as_slice() == b"ab".as_slice());
}

#[test]
fn a_writer_that_takes_nothing_of_some_bytes_fails(rt: HostRuntime) {
    let mut room = [0; 3];
    let mut sink = WriteEdge::new(room.as_mut_slice());
    let calls = [
        Call::Write(b"abcd", Ok(3)),
        Call::Write(b"d", Err(Failed)),
        Call::Write(b"", Ok(0)),
    ];
    assert!(rt; answers(&mut sink, &calls));
}
