//! Known runs over devices in memory.

ghost use Rattle.std.specs.Prelude.{◌≡◌, ◌≤◌, IsNone};
ghost use Rattle.stream_ends.specs.Reader.{lend_len, room_for};

use crate::faults::{StreamFault, WriteFault};
use crate::reader::StreamReader;
use crate::writer::{StreamWriter, WriterKept};
use edge_core::{MemSink, MemSource, Sink, Source};
use pipe_core::{FlushReply, ReadReply};
use std::alloc::{AllocError, Global};

// A source of these bytes, by its cuts, and with the number of the read that fails, or 0.
fn source(
    alloc: Global,
    bytes: &[u8],
    cuts: &[usize],
    fails: u64,
) -> Result<MemSource, AllocError> {
    Ok(MemSource::make(
        bytes.to_vec(alloc)?,
        cuts.to_vec(alloc)?,
        vec![in alloc; fails]?,
    ))
}

fn sink(alloc: Global, cuts: &[usize], fails: u64) -> Result<MemSink, AllocError> {
    MemSink::make(alloc, 16, cuts.to_vec(alloc)?, vec![in alloc; fails]?)
}

// Reads, examines all that is lent, and consumes so much of it.
fn take<S: Source>(reader: &mut StreamReader<S>, consumed: u64) -> Result<ReadReply, StreamFault>
    requires { IsNone (lend_len reader.old) }
    ensures no_lend { IsNone (lend_len reader.new) }
    ensures room { room_for reader.new ≡ room_for reader.old }
{
    let reply = reader.read();
    if let Ok(ReadReply::Ready { len, .. }) = reply {
        reader.advance(consumed.min(len), len);
    }
    reply
}

// The same for at least three bytes.
fn take_three<S: Source>(
    reader: &mut StreamReader<S>,
    consumed: u64,
) -> Result<ReadReply, StreamFault>
    requires no_lend { IsNone (lend_len reader.old) }
    requires room { 3 ≤ room_for reader.old }
    ensures no_lend { IsNone (lend_len reader.new) }
    ensures room { room_for reader.new ≡ room_for reader.old }
{
    let reply = reader.read_at_least(3);
    if let Ok(ReadReply::Ready { len, .. }) = reply {
        reader.advance(consumed.min(len), len);
    }
    reply
}

fn lends(len: u64) -> Result<ReadReply, StreamFault> {
    Ok(ReadReply::Ready {
        canceled: false,
        ended: None,
        len,
    })
}

fn ends(len: u64) -> Result<ReadReply, StreamFault> {
    Ok(ReadReply::Ready {
        canceled: false,
        ended: Some(0),
        len,
    })
}

const CANCELED: Result<ReadReply, StreamFault> = Ok(ReadReply::Ready {
    canceled: true,
    ended: None,
    len: 4,
});

#[test]
fn what_was_examined_is_lent_with_more(rt: HostRuntime) -> Result<(), AllocError> {
    let Ok(mut reader) = StreamReader::make(
        rt.alloc(),
        source(rt.alloc(), b"abcde", &[2, 2], 0)?,
        64,
    ) else {
        return Err(AllocError);
    };
    assert!(rt; take(&mut reader, 0) == lends(2));
    assert!(rt; take(&mut reader, 0) == lends(4));
    assert!(rt; take(&mut reader, 5) == lends(5));
    assert!(rt; take(&mut reader, 0) == ends(0));
    Ok(())
}

#[test]
fn a_full_reader_reads_on_once_bytes_are_consumed(rt: HostRuntime) -> Result<(), AllocError> {
    let Ok(mut reader) = StreamReader::make(rt.alloc(), source(rt.alloc(), b"abcdef", &[], 0)?, 4)
    else {
        return Err(AllocError);
    };
    assert!(rt; take(&mut reader, 0) == lends(4));
    assert!(rt; take(&mut reader, 0) == Err(StreamFault::Full { held: 4 }));
    reader.cancel();
    assert!(rt; take(&mut reader, 4) == CANCELED);
    assert!(rt; take(&mut reader, 0) == lends(2));
    Ok(())
}

#[test]
fn a_read_for_three_bytes_reads_three_times_and_a_fault_keeps_what_came(
    rt: HostRuntime,
) -> Result<(), AllocError> {
    let alloc = rt.alloc();
    let Ok(mut reader) = StreamReader::make(
        alloc,
        source(alloc, b"abcdefg", &[1, 1, 1, 1, 1], 6)?,
        8,
    ) else {
        return Err(AllocError);
    };
    assert!(rt; take_three(&mut reader, 3) == lends(3));
    assert!(rt; take_three(&mut reader, 3) == Err(StreamFault::ReadFault));
    assert!(rt; take(&mut reader, 0) == lends(2));
    assert!(rt; take_three(&mut reader, 4) == lends(4));
    assert!(rt; take_three(&mut reader, 0) == ends(0));
    Ok(())
}

#[test]
fn a_reader_lends_in_place_and_gives_its_source_back(rt: HostRuntime) -> Result<(), AllocError> {
    let Ok(mut reader) = StreamReader::make(rt.alloc(), source(rt.alloc(), b"abcde", &[3], 0)?, 8)
    else {
        return Err(AllocError);
    };
    assert!(rt; !reader.lending());
    assert!(rt; reader.read() == lends(3));
    assert!(rt; reader.lending());
    assert!(rt; reader.lent() == b"abc".as_slice());
    let mut source = reader.complete();
    let mut rest = [0; 4];
    assert!(rt; source.read(&mut rest) == Ok(2));
    assert!(rt; rest == [b'd', b'e', 0, 0]);
    Ok(())
}

// Advances these bytes, where there is room for all of them.
fn draft<K: Sink>(writer: &mut StreamWriter<K>, bytes: &[u8]) -> bool {
    let spare = writer.spare_mut();
    if spare.len() < bytes.len() {
        return false;
    }
    spare[..bytes.len()].copy_from_slice(bytes);
    writer.advance(bytes.len());
    true
}

fn flushed(canceled: bool) -> Result<FlushReply, WriteFault> {
    Ok(FlushReply::Ready {
        canceled,
        gone: None,
    })
}

#[test]
fn a_flush_goes_on_behind_what_the_sink_took(rt: HostRuntime) -> Result<(), AllocError> {
    let Ok(mut writer) = StreamWriter::make(rt.alloc(), sink(rt.alloc(), &[1, 1], 3)?, 8) else {
        return Err(AllocError);
    };
    assert!(rt; draft(&mut writer, b"abcd"));
    writer.cancel();
    assert!(rt; writer.flush() == Err(WriteFault { taken: 2 }));
    assert!(rt; writer.unflushed() == 2);
    assert!(rt; draft(&mut writer, b"efghij"));
    assert!(rt; !draft(&mut writer, b"k"));
    assert!(rt; writer.flush() == flushed(true));
    assert!(rt; writer.flush() == flushed(false));
    let Ok(sink) = writer.complete() else {
        return Err(AllocError);
    };
    assert!(rt; sink.bytes() == b"abcdefghij".as_slice());
    Ok(())
}

#[test]
fn a_sink_that_fails_to_flush_has_taken_all(rt: HostRuntime) -> Result<(), AllocError> {
    let Ok(mut writer) = StreamWriter::make(rt.alloc(), sink(rt.alloc(), &[], 2)?, 8) else {
        return Err(AllocError);
    };
    assert!(rt; draft(&mut writer, b"abcd"));
    let Err(WriterKept { end, fault }) = writer.complete() else {
        return Err(AllocError);
    };
    assert!(rt; fault == WriteFault { taken: 4 });
    assert!(rt; end.unflushed() == 0);
    let Ok(sink) = end.complete() else {
        return Err(AllocError);
    };
    assert!(rt; sink.bytes() == b"abcd".as_slice());
    Ok(())
}
