//! Known runs of a control and of a pipe over one buffer.

ghost use Rattle.std.specs.Prelude.{◌≡◌, ◌≤◌, [], length, IsNone};

use crate::player::{Call, Player, Told, advances, are_told, commits, reads};
use crate::replies::{FLUSHED, NOBODY, THE_READER, THE_WRITER, is_held, reply, waits};
use pipe_core::{Control, FlushReply, PlainPipe, ReadReply, TooMuch, Wake};
use std::alloc::AllocError;

pub(crate) type Flushed = Result<(FlushReply, Wake), TooMuch>;

fn pauses(unexamined: u64) -> Flushed {
    Ok((is_held(unexamined), NOBODY))
}

fn lent(len: u64) -> ReadReply {
    reply(None, len)
}

// Commits so many bytes. Whether an end has completed and what is lent stay, also where there would be too many.
pub(crate) fn commit(control: &mut Control, n: u64) -> Flushed
    requires { IsNone control.old.ended }
    ensures ended { control.new.ended ≡ control.old.ended }
    ensures gone { control.new.gone ≡ control.old.gone }
    ensures lent { control.new.lent ≡ control.old.lent }
{
    match control.commit(n) {
        Ok(answer) => Ok(answer),
        Err(refused) => Err(refused),
    }
}

// Reads, and where that is ready consumes and examines so many of the lent bytes.
fn use_up(control: &mut Control, consumed: u64, examined: u64) -> (ReadReply, Wake)
    requires attended { IsNone control.old.gone }
    requires no_lend { IsNone control.old.lent }
    ensures ended { control.new.ended ≡ control.old.ended }
    ensures gone { control.new.gone ≡ control.old.gone }
    ensures lent { IsNone control.new.lent }
{
    let (reply, wake) = control.read();
    if let ReadReply::Ready { len, .. } = reply {
        let examined = examined.min(len);
        return (reply, control.advance(consumed.min(examined), examined));
    }
    (reply, wake)
}

#[test]
fn a_control_pauses_and_wakes(rt: HostRuntime) {
    let mut control = Control::new(8, 4);
    assert!(rt; commit(&mut control, 7) == Ok((FLUSHED, NOBODY)));
    assert!(rt; commit(&mut control, 1) == pauses(8));
    assert!(rt; use_up(&mut control, 0, 4) == (lent(8), NOBODY));
    assert!(rt; commit(&mut control, 0) == pauses(4));
    assert!(rt; use_up(&mut control, 0, 5) == (lent(8), THE_WRITER));
    assert!(rt; commit(&mut control, 0) == Ok((FLUSHED, NOBODY)));
}

#[test]
fn a_control_cancels_and_completes(rt: HostRuntime) {
    let canceled = ReadReply::Ready {
        canceled: true,
        ended: None,
        len: 5,
    };
    let rows = [
        commits(5, FLUSHED, NOBODY),
        reads(0, lent(5), NOBODY),
        advances(0, 5, NOBODY),
        reads(0, waits(5, 5), NOBODY),
        (Call::CancelRead, Told::Woke(THE_READER)),
        reads(0, canceled, NOBODY),
        advances(0, 5, NOBODY),
        reads(0, waits(5, 5), NOBODY),
        (Call::EndWriter { code: 7 }, Told::Woke(THE_READER)),
        reads(0, reply(Some(7), 5), NOBODY),
        advances(5, 5, NOBODY),
    ];
    assert!(rt; are_told(&mut Player::new(0, 1), &rows));
}

#[test]
fn a_control_lets_a_writer_go_on(rt: HostRuntime) {
    let ready = |canceled, gone| FlushReply::Ready { canceled, gone };
    let rows = [
        commits(8, is_held(8), NOBODY),
        (Call::CancelFlush, Told::Woke(THE_WRITER)),
        commits(0, ready(true, None), NOBODY),
        commits(0, is_held(8), NOBODY),
        (Call::EndReader { code: 9 }, Told::Woke(THE_WRITER)),
        commits(0, ready(false, Some(9)), NOBODY),
        commits(5, ready(false, Some(9)), NOBODY),
    ];
    assert!(rt; are_told(&mut Player::new(8, 4), &rows));
}

#[test]
fn a_control_takes_two_to_the_62_bytes(rt: HostRuntime) {
    let most = 1 << 62;
    let mut control = Control::new(0, 1);
    assert!(rt; commit(&mut control, most) == Ok((FLUSHED, NOBODY)));
    assert!(rt; commit(&mut control, 1) == Err(TooMuch { total: most }));
    assert!(rt; commit(&mut control, 0) == Ok((FLUSHED, NOBODY)));
}

#[test]
fn an_examined_mark_never_falls(rt: HostRuntime) {
    let rows = [
        commits(10, FLUSHED, NOBODY),
        reads(0, lent(10), NOBODY),
        advances(0, 10, NOBODY),
        commits(1, FLUSHED, NOBODY),
        reads(0, lent(11), NOBODY),
        advances(0, 2, NOBODY),
        reads(0, lent(11), NOBODY),
        advances(0, 11, NOBODY),
    ];
    assert!(rt; are_told(&mut Player::new(0, 1), &rows));
    // Where it fell to 2, the last commit would begin no pause.
    let rows = [
        commits(10, is_held(10), NOBODY),
        reads(0, lent(10), NOBODY),
        advances(0, 10, THE_WRITER),
        commits(1, FLUSHED, NOBODY),
        reads(0, lent(11), NOBODY),
        advances(0, 2, NOBODY),
        commits(3, is_held(4), NOBODY),
    ];
    assert!(rt; are_told(&mut Player::new(4, 4), &rows));
}

// Writes as much of `bytes` as there is room for.
pub(crate) fn write(pipe: &mut PlainPipe, bytes: &[u8])
    ensures control { pipe.new.control ≡ pipe.old.control }
{
    let spare = pipe.spare_mut();
    let count = bytes.len().min(spare.len());
    spare[..count].copy_from_slice(&bytes[..count]);
    pipe.advance_draft(count);
}

// Commits the draft, as `commit` does.
pub(crate) fn flush(pipe: &mut PlainPipe) -> Flushed
    requires { IsNone pipe.old.control.ended }
    ensures ended { pipe.new.control.ended ≡ pipe.old.control.ended }
    ensures gone { pipe.new.control.gone ≡ pipe.old.control.gone }
    ensures lent { pipe.new.control.lent ≡ pipe.old.control.lent }
{
    match pipe.flush() {
        Ok(answer) => Ok(answer),
        Err(refused) => Err(refused),
    }
}

// Commits bytes that were not drafted, as `commit` does.
fn write_whole(pipe: &mut PlainPipe, bytes: &[u8]) -> Flushed
    requires going { IsNone pipe.old.control.ended }
    requires no_draft { pipe.old.bytes.draft ≡ [] }
    requires room { length bytes.now ≤ length pipe.old.bytes.free }
    ensures gone { pipe.new.control.gone ≡ pipe.old.control.gone }
    ensures lent { pipe.new.control.lent ≡ pipe.old.control.lent }
{
    match pipe.write(bytes) {
        Ok(answer) => Ok(answer),
        Err(refused) => Err(refused),
    }
}

// Completes the writer. What the reader has done stays.
fn complete(pipe: &mut PlainPipe, code: u32) -> Result<Wake, TooMuch>
    requires { IsNone pipe.old.control.ended }
    ensures gone { pipe.new.control.gone ≡ pipe.old.control.gone }
    ensures lent { pipe.new.control.lent ≡ pipe.old.control.lent }
{
    match pipe.end_writer(code) {
        Ok(wake) => Ok(wake),
        Err(refused) => Err(refused),
    }
}

// Reads, and where the lent bytes are those, consumes and examines so many of them.
fn use_up_bytes(pipe: &mut PlainPipe, bytes: &[u8], consumed: u64, examined: u64) -> Option<Wake>
    requires attended { IsNone pipe.old.control.gone }
    requires no_lend { IsNone pipe.old.control.lent }
    ensures ended { pipe.new.control.ended ≡ pipe.old.control.ended }
    ensures gone { pipe.new.control.gone ≡ pipe.old.control.gone }
    ensures lent { IsNone pipe.new.control.lent }
{
    let (ReadReply::Ready { len, .. }, _) = pipe.read() else {
        return None;
    };
    let is_lent = pipe.lent() == bytes;
    let examined = examined.min(len);
    let wake = pipe.advance(consumed.min(examined), examined);
    is_lent.then_some(wake)
}

// A call of a pipe that no end has left, with no lend before it and behind it, and what it is told.
#[derive(Clone, Copy)]
enum Step<'a> {
    Write(&'a [u8]),
    Flush(FlushReply, Wake),
    // These bytes are lent, of which the first so many are consumed and the first so many examined.
    UseUp(&'a [u8], u64, u64, Wake),
    // So many bytes are free.
    Spare(usize),
}

fn is_told(pipe: &mut PlainPipe, step: Step<'_>) -> bool
    requires going { IsNone pipe.old.control.ended }
    requires attended { IsNone pipe.old.control.gone }
    requires no_lend { IsNone pipe.old.control.lent }
    ensures going { IsNone pipe.new.control.ended }
    ensures attended { IsNone pipe.new.control.gone }
    ensures no_lend { IsNone pipe.new.control.lent }
{
    match step {
        Step::Write(bytes) => {
            write(pipe, bytes);
            true
        }
        Step::Flush(reply, wake) => flush(pipe) == Ok((reply, wake)),
        Step::UseUp(bytes, c, e, wake) => use_up_bytes(pipe, bytes, c, e) == Some(wake),
        Step::Spare(count) => pipe.spare_mut().len() == count,
    }
}

// Whether each step in turn is told so.
fn are_all_told(pipe: &mut PlainPipe, steps: &[Step<'_>]) -> bool
    requires going { IsNone pipe.old.control.ended }
    requires attended { IsNone pipe.old.control.gone }
    requires no_lend { IsNone pipe.old.control.lent }
    ensures going { IsNone pipe.new.control.ended }
    ensures attended { IsNone pipe.new.control.gone }
    ensures no_lend { IsNone pipe.new.control.lent }
{
    for step in steps {
        if !is_told(pipe, *step) {
            return false;
        }
    }
    true
}

#[test]
fn a_pipe_pauses_and_wakes(rt: HostRuntime) -> Result<(), AllocError> {
    let mut pipe = PlainPipe::make(rt.alloc(), 64, 8, 4)?;
    assert!(rt; pipe.capacity() == 64);
    let steps = [
        Step::Spare(64),
        Step::Write(b"abcdefg"),
        Step::Flush(FLUSHED, NOBODY),
        Step::Write(b"h"),
        Step::Flush(is_held(8), NOBODY),
        Step::UseUp(b"abcdefgh", 0, 4, NOBODY),
        Step::Flush(is_held(4), NOBODY),
        Step::UseUp(b"abcdefgh", 0, 5, THE_WRITER),
        Step::Flush(FLUSHED, NOBODY),
        Step::Spare(56),
    ];
    assert!(rt; are_all_told(&mut pipe, &steps));
    Ok(())
}

// Whether three bytes are lent, and the same ones once two more are committed. They are examined then.
fn is_lent_as_before(pipe: &mut PlainPipe) -> bool
    requires going { IsNone pipe.old.control.ended }
    requires attended { IsNone pipe.old.control.gone }
    requires no_lend { IsNone pipe.old.control.lent }
    ensures going { IsNone pipe.new.control.ended }
    ensures attended { IsNone pipe.new.control.gone }
    ensures no_lend { IsNone pipe.new.control.lent }
{
    let (ReadReply::Ready { len, .. }, _) = pipe.read() else {
        return false;
    };
    write(pipe, b"de");
    let flushed = flush(pipe);
    let is_lent = pipe.lent() == b"abc".as_slice();
    let wake = pipe.advance(0, len);
    len == 3 && flushed == Ok((FLUSHED, NOBODY)) && is_lent && wake == NOBODY
}

#[test]
fn a_pipe_lends_what_was_committed_before_the_read(rt: HostRuntime) -> Result<(), AllocError> {
    let mut pipe = PlainPipe::make(rt.alloc(), 64, 0, 1)?;
    let steps = [Step::Write(b"abc"), Step::Flush(FLUSHED, NOBODY)];
    assert!(rt; are_all_told(&mut pipe, &steps));
    assert!(rt; is_lent_as_before(&mut pipe));
    let steps = [Step::Write(b"f"), Step::UseUp(b"abcde", 2, 5, NOBODY)];
    assert!(rt; are_all_told(&mut pipe, &steps));
    let waiting = ReadReply::Pending {
        examined: 5,
        held: 3,
    };
    assert!(rt; pipe.read() == (waiting, NOBODY));
    assert!(rt; complete(&mut pipe, 7) == Ok(THE_READER));
    assert!(rt; use_up_bytes(&mut pipe, b"cdef", 4, 4) == Some(NOBODY));
    assert!(rt; pipe.end_reader(0) == NOBODY);
    Ok(())
}

#[test]
fn a_pipe_is_canceled_and_left(rt: HostRuntime) -> Result<(), AllocError> {
    let mut pipe = PlainPipe::make(rt.alloc(), 8, 2, 2)?;
    assert!(rt; pipe.cancel_read() == NOBODY);
    write(&mut pipe, b"abc");
    assert!(rt; flush(&mut pipe) == pauses(3));
    assert!(rt; pipe.cancel_flush() == THE_WRITER);
    assert!(rt; pipe.end_reader(9) == NOBODY);
    assert!(rt; pipe.spare_mut().len() == 8);
    write(&mut pipe, b"abcdefgh");
    assert!(rt; pipe.spare_mut().len() == 0);
    let left = FlushReply::Ready {
        canceled: true,
        gone: Some(9),
    };
    assert!(rt; flush(&mut pipe) == Ok((left, NOBODY)));
    assert!(rt; pipe.spare_mut().len() == 8);
    Ok(())
}

// How many bytes it holds, and how many were committed and consumed.
fn counts(pipe: &PlainPipe) -> (u64, u64, u64) {
    (pipe.held_len() as u64, pipe.committed(), pipe.consumed())
}

#[test]
fn a_pipe_takes_bytes_that_were_not_drafted(rt: HostRuntime) -> Result<(), AllocError> {
    let mut pipe = PlainPipe::make(rt.alloc(), 8, 0, 1)?;
    assert!(rt; write_whole(&mut pipe, b"abc") == Ok((FLUSHED, NOBODY)));
    assert!(rt; counts(&pipe) == (3, 3, 0));
    assert!(rt; use_up_bytes(&mut pipe, b"abc", 1, 3) == Some(NOBODY));
    assert!(rt; counts(&pipe) == (2, 3, 1));
    Ok(())
}

#[test]
fn a_pipe_takes_its_last_bytes_and_completes(rt: HostRuntime) -> Result<(), AllocError> {
    let mut pipe = PlainPipe::make(rt.alloc(), 8, 0, 1)?;
    assert!(rt; pipe.write_last(b"ab", 7) == Ok(NOBODY));
    assert!(rt; counts(&pipe) == (2, 2, 0));
    Ok(())
}
