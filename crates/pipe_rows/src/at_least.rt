//! Known runs of reads that ask for at least so many bytes.

ghost use Rattle.std.specs.Prelude.{◌≡◌, IsNone};
ghost use Rattle.turn_cell.specs.Seat.{IsOf};

use crate::local::{ask_room, draft_local, flush as flush_local, make_local};
use crate::plain::{flush, write};
use crate::player::{self, Call, Player, Told, advances, commits, reads};
use crate::replies::{FLUSHED, NOBODY, THE_READER, THE_WRITER, is_held, reply, waits};
use crate::shared::{SMALL, make, send_waiting};
use crate::steps::{Step, are_told};
use pipe_core::{PlainPipe, ReadReply, Wake};
use pipe_shared::{LocalPipe, MakeError, Options, Pipe, ReaderEnd, WriterEnd};
use std::alloc::AllocError;
use std::sync::Wait;
use std::test::Fail;
use std::thread::{Threads, join};

#[test]
fn a_control_ends_a_pause_for_a_read_that_waits_for_more(rt: HostRuntime) {
    let rows = [
        commits(8, is_held(8), NOBODY),
        reads(20, waits(0, 8), THE_WRITER),
        commits(0, FLUSHED, NOBODY),
        commits(6, FLUSHED, NOBODY),
        commits(6, is_held(20), THE_READER),
        reads(20, reply(None, 20), NOBODY),
        advances(20, 20, THE_WRITER),
        commits(0, FLUSHED, NOBODY),
    ];
    assert!(rt; player::are_told(&mut Player::new(8, 4), &rows));
}

#[test]
fn a_control_pauses_again_once_the_read_is_canceled(rt: HostRuntime) {
    let rows = [
        commits(9, is_held(9), NOBODY),
        reads(20, waits(0, 9), THE_WRITER),
        commits(0, FLUSHED, NOBODY),
        (Call::CancelRead, Told::Woke(THE_READER)),
        commits(0, is_held(9), NOBODY),
    ];
    assert!(rt; player::are_told(&mut Player::new(8, 4), &rows));
}

// Asks for at least three bytes, and consumes what is lent.
fn take_three(pipe: &mut PlainPipe) -> (ReadReply, Wake)
    requires attended { IsNone pipe.old.control.gone }
    requires no_lend { IsNone pipe.old.control.lent }
    ensures ended { pipe.new.control.ended ≡ pipe.old.control.ended }
    ensures gone { pipe.new.control.gone ≡ pipe.old.control.gone }
    ensures lent { IsNone pipe.new.control.lent }
{
    let (reply, wake) = pipe.read_at_least(3);
    if let ReadReply::Ready { len, .. } = reply {
        return (reply, pipe.advance(len, len));
    }
    (reply, wake)
}

#[test]
fn a_pipe_lends_at_least_what_was_asked_for(rt: HostRuntime) -> Result<(), AllocError> {
    let mut pipe = PlainPipe::make(rt.alloc(), 64, 2, 1)?;
    write(&mut pipe, b"ab");
    assert!(rt; flush(&mut pipe) == Ok((is_held(2), NOBODY)));
    assert!(rt; take_three(&mut pipe) == (waits(0, 2), THE_WRITER));
    write(&mut pipe, b"c");
    assert!(rt; flush(&mut pipe) == Ok((is_held(3), THE_READER)));
    assert!(rt; take_three(&mut pipe) == (reply(None, 3), THE_WRITER));
    Ok(())
}

// The same of a pipe for one thread.
fn take_three_locally(pipe: &mut LocalPipe) -> (ReadReply, Wake)
    requires attended { IsNone pipe.old.pipe.control.gone }
    requires no_lend { IsNone pipe.old.pipe.control.lent }
    ensures ended { pipe.new.pipe.control.ended ≡ pipe.old.pipe.control.ended }
    ensures gone { pipe.new.pipe.control.gone ≡ pipe.old.pipe.control.gone }
    ensures lent { IsNone pipe.new.pipe.control.lent }
{
    let (reply, wake) = pipe.read_at_least(3);
    if let ReadReply::Ready { len, .. } = reply {
        return (reply, pipe.advance(len, len));
    }
    (reply, wake)
}

#[test]
fn a_pipe_for_one_thread_lends_at_least_what_was_asked_for(
    rt: HostRuntime,
) -> Result<(), MakeError> {
    let mut pipe = make_local(&rt, 2, 1)?;
    assert!(rt; ask_room(&mut pipe, 3) == Ok(64));
    assert!(rt; draft_local(&mut pipe, b"ab"));
    assert!(rt; flush_local(&mut pipe) == Ok((is_held(2), NOBODY)));
    assert!(rt; take_three_locally(&mut pipe) == (waits(0, 2), THE_WRITER));
    assert!(rt; draft_local(&mut pipe, b"c"));
    assert!(rt; flush_local(&mut pipe) == Ok((is_held(3), THE_READER)));
    assert!(rt; take_three_locally(&mut pipe) == (reply(None, 3), THE_WRITER));
    Ok(())
}

#[test]
fn a_pipe_of_two_ends_lets_the_writer_go_on_for_a_read(rt: HostRuntime) -> Result<(), Fail> {
    let (pipe, mut w, mut r, _k) = make(&rt, SMALL).ok_or("memory")?;
    let steps = [
        Step::Send(b"12345678", is_held(8), NOBODY),
        Step::ReadTwenty(waits(0, 8), THE_WRITER),
        Step::Flush(FLUSHED, NOBODY),
        Step::Send(b"123456", FLUSHED, NOBODY),
        Step::Send(b"123456", is_held(20), THE_READER),
        Step::ReadTwenty(reply(None, 20), NOBODY),
    ];
    assert!(rt; are_told(&pipe, &mut w, &mut r, &steps));
    Ok(())
}

// Room for 2 MB, and a pause from 64 KiB on.
const LARGE: Options = Options {
    segment: 1 << 16,
    segments: 32,
    pause: 1 << 16,
    resume: 1 << 15,
};

// Writes this piece so often, and waits where back-pressure holds the writer. Whether all were written.
fn write_on<R: Wait>(
    rt: &R,
    pipe: &Pipe,
    mut w: WriterEnd,
    piece: &[u8],
    times: u64,
) -> (WriterEnd, bool)
    requires { IsOf pipe.now w.seat }
{
    let mut all = true;
    for _ in 0..times {
        all = all && send_waiting(rt, pipe, &mut w, piece);
    }
    (w, all)
}

// Reads once for at least 1 MB, consumes what is lent, and tells how much that was.
fn take_a_megabyte<R: Wait>(rt: &R, pipe: &Pipe, mut r: ReaderEnd) -> Option<u64>
    requires { IsOf pipe.now r.seat }
{
    if r.lending() {
        return None;
    }
    pipe.read_at_least(rt, &mut r, 1 << 20);
    let len = r.lent().len();
    pipe.advance(rt, &mut r, len, len);
    Some(len)
}

// How much one read for at least 1 MB is lent by a writer of a piece, so often, which waits for the reader.
fn taken<R: Threads + Wait + Sync>(
    rt: &R,
    pipe: &Pipe,
    w: WriterEnd,
    r: ReaderEnd,
    piece: &[u8],
    times: u64,
) -> Option<u64>
    requires writer { IsOf pipe.now w.seat }
    requires reader { IsOf pipe.now r.seat }
{
    let ((_writer, all), len) = join(
        rt,
        || -> (WriterEnd, bool)
            requires { IsOf pipe.now w.seat }
        { write_on(rt, pipe, w, piece, times) },
        || -> Option<u64>
            requires { IsOf pipe.now r.seat }
        { take_a_megabyte(rt, pipe, r) },
    );
    len.filter(|_| all)
}

#[test]
fn one_read_takes_a_megabyte_past_a_pause_of_64_kib(rt: HostRuntime) -> Result<(), Fail> {
    let (pipe, w, r, _k) = make(&rt, LARGE).ok_or("memory")?;
    assert!(rt; taken(&rt, &pipe, w, r, &[7; 1 << 16], 16) == Some(1 << 20));
    Ok(())
}
