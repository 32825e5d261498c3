//! What room a pipe of two ends grants, and what fills it.

ghost use Rattle.turn_cell.specs.Seat.{IsOf};

use crate::replies::{FLUSHED, NOBODY, THE_WRITER, is_held, reply};
use crate::shared::{SMALL, Woke, draft, is_in_order, make};
use crate::steps::{Step, are_told};
use pipe_core::FlushReply;
use pipe_shared::{Full, Options, Pipe, ReaderEnd, RoomFault, WriterEnd};
use std::test::Fail;

const TOO_LARGE: RoomFault = RoomFault::TooLarge {
    hint: 65,
    segment: 64,
};

fn full(writer: usize, waiting: usize, reader: usize) -> Result<usize, RoomFault> {
    Err(RoomFault::Full(Full {
        writer,
        waiting,
        reader,
    }))
}

#[test]
fn room_is_granted_by_the_segment(rt: HostRuntime) -> Result<(), Fail> {
    let (pipe, mut w, mut r, _k) = make(&rt, SMALL).ok_or("memory")?;
    let steps = [
        Step::Room(65, Err(TOO_LARGE)),
        Step::Send(&[7; 60], is_held(60), NOBODY),
        Step::Room(4, Ok(4)),
        Step::Draft(&[8; 4]),
        Step::Room(64, Ok(64)),
        Step::Draft(&[9; 60]),
        Step::Room(5, full(2, 0, 0)),
        Step::Flush(is_held(124), NOBODY),
        Step::Room(5, full(1, 1, 0)),
        Step::Read(reply(None, 124), NOBODY),
        Step::Consume(63, THE_WRITER),
        Step::Room(5, full(1, 0, 1)),
        Step::Room(4, Ok(4)),
        Step::Send(&[10], FLUSHED, NOBODY),
        Step::Read(reply(None, 62), NOBODY),
        Step::Consume(1, NOBODY),
        Step::Room(5, Ok(64)),
    ];
    assert!(rt; are_told(&pipe, &mut w, &mut r, &steps));
    Ok(())
}

// Gives up the first `c` of the lent bytes, all of which were examined.
pub(crate) fn consume_first(pipe: &Pipe, r: &mut ReaderEnd, c: u64) -> Option<Woke>
    requires { IsOf pipe.now r.old.seat }
    ensures { IsOf pipe.now r.new.seat }
{
    if !r.lending() {
        return None;
    }
    let len = r.lent().len();
    Some(pipe.try_advance(r, c.min(len), len))
}

const FIVE_SEGMENTS: Options = Options {
    segment: 64,
    segments: 5,
    pause: 0,
    resume: 1,
};

// Whether a segment is granted for one byte, and filled with its number, and its flush is ready.
pub(crate) fn fill_segment(pipe: &Pipe, w: &mut WriterEnd, number: u8) -> bool
    requires { IsOf pipe.now w.old.seat }
    ensures { IsOf pipe.now w.new.seat }
{
    let granted = pipe.try_room(w, 1) == Ok(64);
    let drafted = draft(w, &[number; 64]);
    granted && drafted && matches!(pipe.try_flush(w), Ok((FLUSHED, _)))
}

// All five segments are filled, each with its number.
const FILL_ALL: [Step<'static>; 5] = [
    Step::Fill(0),
    Step::Fill(1),
    Step::Fill(2),
    Step::Fill(3),
    Step::Fill(4),
];

// Whether the bytes that are lent are those of these pieces of so many bytes.
fn lends_pieces(r: &ReaderEnd, before: u64, piece: u64) -> bool {
    r.lending() && is_in_order(&r.lent(), before, piece)
}

#[test]
fn a_full_pipe_grants_a_segment_once_one_is_consumed(rt: HostRuntime) -> Result<(), Fail> {
    let (pipe, mut w, mut r, _k) = make(&rt, FIVE_SEGMENTS).ok_or("memory")?;
    assert!(rt; are_told(&pipe, &mut w, &mut r, &FILL_ALL));
    let steps = [
        Step::Room(1, full(1, 4, 0)),
        Step::Room(65, Err(TOO_LARGE)),
        Step::Read(reply(None, 320), NOBODY),
        Step::Room(1, full(1, 0, 4)),
    ];
    assert!(rt; are_told(&pipe, &mut w, &mut r, &steps));
    assert!(rt; lends_pieces(&r, 0, 64));
    let steps = [Step::Consume(64, NOBODY), Step::Room(1, Ok(64))];
    assert!(rt; are_told(&pipe, &mut w, &mut r, &steps));
    Ok(())
}

#[test]
fn a_full_pipe_grants_a_segment_once_the_reader_has_completed(rt: HostRuntime) -> Result<(), Fail> {
    let (pipe, mut w, mut r, _k) = make(&rt, FIVE_SEGMENTS).ok_or("memory")?;
    assert!(rt; are_told(&pipe, &mut w, &mut r, &FILL_ALL));
    assert!(rt; pipe.try_room(&mut w, 1) == full(1, 4, 0));
    let done = pipe.try_complete_reader(r, 9);
    assert!(rt; matches!(done, Ok((_, NOBODY))));
    assert!(rt; pipe.try_room(&mut w, 1) == Ok(64));
    let gone = FlushReply::Ready {
        canceled: false,
        gone: Some(9),
    };
    assert!(rt; pipe.try_flush(&mut w) == Ok((gone, NOBODY)));
    Ok(())
}
