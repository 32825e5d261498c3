//! Known runs of a pipe for one thread.

ghost use Rattle.std.specs.Prelude.{◌≡◌, [], None, IsNone, IsSome, IfOk, OnOk};
ghost use Rattle.pipe_shared.specs.Local.{LocalKeeps};

use crate::replies::{FLUSHED, NOBODY, THE_READER, reply};
use crate::shared::{SMALL, are_all, is_just};
use pipe_core::{FlushReply, ReadReply, TooMuch, Wake};
use pipe_shared::{Full, LocalPipe, LocalRoomFault, MakeError, Options};
use pipe_state::numbered_blocks_fit;
use seg_block::own_blocks;
use std::process::Abort;

// A pipe of two segments of 64 bytes, with these thresholds.
pub(crate) fn make_local(rt: &HostRuntime, pause: u64, resume: u64) -> Result<LocalPipe, MakeError>
    ensures { IfOk result (λ pipe. LocalKeeps pipe []) }
{
    numbered_blocks_fit();
    let options = Options {
        pause,
        resume,
        ..SMALL
    };
    let Ok(blocks) = own_blocks(rt.alloc(), 2, 64) else {
        return Err(MakeError::OutOfMemory);
    };
    match LocalPipe::make(rt.alloc(), options, blocks) {
        Ok(pipe) => Ok(pipe),
        Err(refused) => Err(refused.error),
    }
}

// Asks for room. Whether an end has completed and what is lent stay.
pub(crate) fn ask_room(pipe: &mut LocalPipe, hint: usize) -> Result<usize, LocalRoomFault>
    requires { IsNone pipe.old.pipe.control.ended }
    ensures { pipe.new.pipe.control ≡ pipe.old.pipe.control }
{
    match pipe.room(hint) {
        Ok(granted) => Ok(granted),
        Err(fault) => Err(fault),
    }
}

// Writes these bytes to the front of the free part, and tells so.
pub(crate) fn draft_local(pipe: &mut LocalPipe, bytes: &[u8]) -> bool
    ensures { pipe.new.pipe.control ≡ pipe.old.pipe.control }
{
    let spare = pipe.spare_mut();
    if spare.len() < bytes.len() {
        return false;
    }
    spare[..bytes.len()].copy_from_slice(bytes);
    pipe.advance_draft(bytes.len());
    true
}

// Commits the draft. Whether an end has completed and what is lent stay, also where there would be too many bytes.
pub(crate) fn flush(pipe: &mut LocalPipe) -> Result<(FlushReply, Wake), TooMuch>
    requires { IsNone pipe.old.pipe.control.ended }
    ensures ended { pipe.new.pipe.control.ended ≡ pipe.old.pipe.control.ended }
    ensures gone { pipe.new.pipe.control.gone ≡ pipe.old.pipe.control.gone }
    ensures lent { pipe.new.pipe.control.lent ≡ pipe.old.pipe.control.lent }
{
    match pipe.flush() {
        Ok(answer) => Ok(answer),
        Err(refused) => Err(refused),
    }
}

// Completes the writer. What the reader has done stays.
fn complete(pipe: &mut LocalPipe, code: u32) -> Result<Wake, TooMuch>
    requires { IsNone pipe.old.pipe.control.ended }
    ensures ended { OnOk result (IsSome pipe.new.pipe.control.ended) }
    ensures gone { pipe.new.pipe.control.gone ≡ pipe.old.pipe.control.gone }
    ensures lent { pipe.new.pipe.control.lent ≡ pipe.old.pipe.control.lent }
{
    match pipe.end_writer(code) {
        Ok(wake) => Ok(wake),
        Err(refused) => Err(refused),
    }
}

// Reads, and where these bytes are lent gives up the first `c` of them, of which `e` were examined.
fn use_up(pipe: &mut LocalPipe, bytes: &[u8], c: u64, e: u64) -> Option<(ReadReply, Wake)>
    requires attended { IsNone pipe.old.pipe.control.gone }
    requires no_lend { IsNone pipe.old.pipe.control.lent }
    ensures ended { pipe.new.pipe.control.ended ≡ pipe.old.pipe.control.ended }
    ensures gone { pipe.new.pipe.control.gone ≡ pipe.old.pipe.control.gone }
    ensures lent { IsNone pipe.new.pipe.control.lent }
{
    let (reply, _) = pipe.read();
    let ReadReply::Ready { len, .. } = reply else {
        return None;
    };
    let is_lent = is_just(&pipe.lent(), bytes);
    let examined = e.min(len);
    let wake = pipe.advance(c.min(examined), examined);
    is_lent.then_some((reply, wake))
}

// Writes the first three bytes of the run. Before they are committed there is nothing to read.
fn begin_run(rt: &impl Abort, pipe: &mut LocalPipe)
    requires going { IsNone pipe.old.pipe.control.ended }
    requires attended { IsNone pipe.old.pipe.control.gone }
    requires no_lend { IsNone pipe.old.pipe.control.lent }
    ensures ended { pipe.new.pipe.control.ended ≡ pipe.old.pipe.control.ended }
    ensures gone { pipe.new.pipe.control.gone ≡ pipe.old.pipe.control.gone }
    ensures lent { pipe.new.pipe.control.lent ≡ None }
{
    assert!(rt; pipe.room(0) == Ok(64));
    assert!(rt; draft_local(pipe, b"abc"));
    let (
        ReadReply::Pending {
            examined: 0,
            held: 0,
        },
        NOBODY,
    ) = pipe.read()
    else {
        panic!(rt; "something is lent");
    };
    assert!(rt; flush(pipe) == Ok((FLUSHED, THE_READER)));
}

// Reads, and where these bytes are lent commits two more before it gives up the first and has examined all.
fn write_while_lent(
    pipe: &mut LocalPipe,
    lent: &[u8],
) -> Option<(ReadReply, Result<(FlushReply, Wake), TooMuch>, Wake)>
    requires going { IsNone pipe.old.pipe.control.ended }
    requires attended { IsNone pipe.old.pipe.control.gone }
    requires no_lend { IsNone pipe.old.pipe.control.lent }
    ensures ended { pipe.new.pipe.control.ended ≡ pipe.old.pipe.control.ended }
    ensures gone { pipe.new.pipe.control.gone ≡ pipe.old.pipe.control.gone }
    ensures lent { IsNone pipe.new.pipe.control.lent }
{
    let (reply, _) = pipe.read();
    let ReadReply::Ready { len, .. } = reply else {
        return None;
    };
    let is_lent = is_just(&pipe.lent(), lent) && draft_local(pipe, b"de");
    let flushed = flush(pipe);
    let wake = pipe.advance(len.min(1), len);
    is_lent.then_some((reply, flushed, wake))
}

// Commits eight bytes, which begin a pause. Before there is nothing to read.
fn pause_run(rt: &impl Abort, pipe: &mut LocalPipe)
    requires going { IsNone pipe.old.pipe.control.ended }
    requires attended { IsNone pipe.old.pipe.control.gone }
    requires no_lend { IsNone pipe.old.pipe.control.lent }
    ensures ended { pipe.new.pipe.control.ended ≡ pipe.old.pipe.control.ended }
    ensures gone { pipe.new.pipe.control.gone ≡ pipe.old.pipe.control.gone }
    ensures lent { pipe.new.pipe.control.lent ≡ None }
{
    let (
        ReadReply::Pending {
            examined: 5,
            held: 0,
        },
        NOBODY,
    ) = pipe.read()
    else {
        panic!(rt; "something is lent");
    };
    assert!(rt; draft_local(pipe, b"12345678"));
    let held = FlushReply::Pending { unexamined: 8 };
    assert!(rt; flush(pipe) == Ok((held, THE_READER)));
}

#[test]
fn a_plain_run_of_a_pipe_for_one_thread(rt: HostRuntime) -> Result<(), MakeError> {
    let mut pipe = make_local(&rt, 8, 4)?;
    begin_run(&rt, &mut pipe);
    let (_, flushed, woken) = write_while_lent(&mut pipe, b"abc").ok_or(MakeError::OutOfMemory)?;
    assert!(rt; flushed == Ok((FLUSHED, NOBODY)) && woken == NOBODY);
    assert!(rt; use_up(&mut pipe, b"bcde", 4, 4) == Some((reply(None, 4), NOBODY)));
    pause_run(&rt, &mut pipe);
    let Ok(NOBODY) = complete(&mut pipe, 0) else {
        return Err(MakeError::OutOfMemory);
    };
    assert!(rt; use_up(&mut pipe, b"12345678", 8, 8) == Some((reply(Some(0), 8), NOBODY)));
    assert!(rt; pipe.read() == (reply(Some(0), 0), NOBODY));
    assert!(rt; pipe.end_reader(0) == NOBODY);
    let closed = pipe.close();
    assert!(rt; closed.committed == 13 && closed.consumed == 13);
    assert!(rt; closed.blocks.len() == 2 && are_all(&closed.blocks, 2));
    Ok(())
}

// How room is refused where so many segments are with the writer, wait for the reader, and are with it.
fn full(writer: usize, waiting: usize, reader: usize) -> LocalRoomFault {
    LocalRoomFault::Full(Full {
        writer,
        waiting,
        reader,
    })
}

#[test]
fn room_for_one_thread_is_granted_while_a_segment_is_at_home(
    rt: HostRuntime,
) -> Result<(), MakeError> {
    let mut pipe = make_local(&rt, 8, 4)?;
    let too_large = LocalRoomFault::TooLarge {
        hint: 65,
        segment: 64,
    };
    assert!(rt; pipe.spare_mut().len() == 0);
    assert!(rt; ask_room(&mut pipe, 65) == Err(too_large));
    assert!(rt; ask_room(&mut pipe, 1) == Ok(64));
    assert!(rt; draft_local(&mut pipe, &[7; 60]));
    assert!(rt; ask_room(&mut pipe, 4) == Ok(4));
    assert!(rt; flush(&mut pipe).is_ok());
    assert!(rt; ask_room(&mut pipe, 5) == Ok(64));
    assert!(rt; draft_local(&mut pipe, &[9; 64]));
    assert!(rt; ask_room(&mut pipe, 1) == Err(full(1, 1, 0)));
    assert!(rt; use_up(&mut pipe, &[7; 60], 59, 60).is_some());
    assert!(rt; ask_room(&mut pipe, 1) == Err(full(1, 0, 1)));
    assert!(rt; flush(&mut pipe).is_ok());
    let mut lent = [9; 65];
    lent[0] = 7;
    assert!(rt; use_up(&mut pipe, &lent, 1, 65).is_some());
    assert!(rt; ask_room(&mut pipe, 1) == Ok(64));
    Ok(())
}
