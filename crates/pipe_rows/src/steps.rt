//! Calls of the two ends of a pipe, which one thread makes, as tables.

ghost use Rattle.turn_cell.specs.Seat.{IsOf};

use crate::rooms::{consume_first, fill_segment};
use crate::shared::{Gave, advance, draft, lends_one_span, read, send};
use pipe_core::{FlushReply, ReadReply, Wake};
use pipe_shared::{Pipe, ReaderEnd, RoomFault, WriterEnd};

/// A call, or a look at an end, and what it is told.
#[derive(Clone, Copy)]
pub(crate) enum Step<'a> {
    /// Asks for so much room.
    Room(usize, Result<usize, RoomFault>),
    /// Writes these bytes, for which there is room.
    Draft(&'a [u8]),
    /// How many bytes are drafted.
    Unflushed(u64),
    Flush(FlushReply, Wake),
    /// Asks for room for these bytes, writes them and flushes.
    Send(&'a [u8], FlushReply, Wake),
    /// Asks for a byte, is granted a segment, and fills it with this number.
    Fill(u8),
    Read(ReadReply, Wake),
    /// Reads for at least 20 bytes.
    ReadTwenty(ReadReply, Wake),
    /// All that is lent lies in one span.
    LendsOneSpan,
    /// These bytes are lent, of which the first so many are consumed and the first so many examined.
    Advance(&'a [u8], u64, u64, Wake),
    /// The first so many of the lent bytes are consumed, and all examined.
    Consume(u64, Wake),
}

/// Whether a step is told so.
pub(crate) fn is_told(pipe: &Pipe, w: &mut WriterEnd, r: &mut ReaderEnd, step: Step<'_>) -> bool
    requires writer { IsOf pipe.now w.old.seat }
    requires reader { IsOf pipe.now r.old.seat }
    ensures writer { IsOf pipe.now w.new.seat }
    ensures reader { IsOf pipe.now r.new.seat }
{
    match step {
        Step::Room(hint, told) => pipe.try_room(w, hint) == told,
        Step::Draft(bytes) => draft(w, bytes),
        Step::Unflushed(count) => w.unflushed() == count,
        Step::Flush(reply, wake) => pipe.try_flush(w) == Ok((reply, wake)),
        Step::Send(bytes, reply, wake) => send(pipe, w, bytes) == Some(Ok((reply, wake))),
        Step::Fill(number) => fill_segment(pipe, w, number),
        Step::Read(reply, wake) => read(pipe, r) == Some(Ok((reply, wake))),
        Step::ReadTwenty(reply, wake) => read_twenty(pipe, r) == Some(Ok((reply, wake))),
        Step::LendsOneSpan => lends_one_span(r),
        Step::Advance(lent, c, e, wake) => advance(pipe, r, lent, c, e) == Some(Ok(wake)),
        Step::Consume(c, wake) => consume_first(pipe, r, c) == Some(Ok(wake)),
    }
}

// Reads for at least 20 bytes, where no lend stands.
fn read_twenty(pipe: &Pipe, r: &mut ReaderEnd) -> Option<Gave>
    requires { IsOf pipe.now r.old.seat }
    ensures { IsOf pipe.now r.new.seat }
{
    if r.lending() {
        return None;
    }
    Some(pipe.try_read_at_least(r, 20))
}

/// Whether each step in turn is told so.
pub(crate) fn are_told(
    pipe: &Pipe,
    w: &mut WriterEnd,
    r: &mut ReaderEnd,
    steps: &[Step<'_>],
) -> bool
    requires writer { IsOf pipe.now w.old.seat }
    requires reader { IsOf pipe.now r.old.seat }
    ensures writer { IsOf pipe.now w.new.seat }
    ensures reader { IsOf pipe.now r.new.seat }
{
    for step in steps {
        if !is_told(pipe, w, r, *step) {
            return false;
        }
    }
    true
}
