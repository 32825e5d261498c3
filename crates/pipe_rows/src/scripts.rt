//! Random scripts of calls of both ends of a pipe, by one thread. Each answer, and all that is lent, is compared with what a plain queue
//! tells.

ghost use Rattle.std.specs.Prelude.{◌≡◌};
ghost use Rattle.turn_cell.specs.Seat.{IsOf};

use crate::dice::Dice;
use crate::queue::{Queue, SEGMENT};
use crate::replies::NOBODY;
use crate::shared::{
    are_all, complete, complete_reader, draft, is_in_order, make, number_at, read,
};
use pipe_shared::{Canceller, Closed, Options, Pipe, ReaderEnd, WriterEnd};

const SCRIPTS: u64 = 1_000;

const CALLS: u64 = 50;

// The bytes of a script are pieces of so many bytes, each of which has its number in every byte.
const PIECE: u64 = 3;

// The bytes behind so many others.
fn numbered(before: u64) -> [u8; SEGMENT] {
    let mut bytes = [0; SEGMENT];
    for i in 0..SEGMENT {
        bytes[i] = number_at(before.saturating_add(i as u64), PIECE);
    }
    bytes
}

// Asks for room, and tells whether it is granted or refused as by the queue.
fn is_granted_alike(pipe: &Pipe, w: &mut WriterEnd, queue: &mut Queue, hint: usize) -> Option<bool>
    requires { IsOf pipe.now w.old.seat }
    ensures { IsOf pipe.now w.new.seat }
{
    let told = queue.room(hint).ok()?;
    Some(pipe.try_room(w, hint) == told)
}

// Drafts up to so many bytes, as many as are free by the queue.
fn drafts_alike(w: &mut WriterEnd, queue: &mut Queue, most: usize) -> bool
    ensures { w.new.seat ≡ w.old.seat }
{
    let n = most.min(queue.free()).min(SEGMENT);
    let (written, _) = queue.carried();
    queue.write(n);
    draft(w, &numbered(written)[..n])
}

// Whether what is lent is what the queue has.
fn lends_alike(r: &ReaderEnd, queue: &Queue) -> bool {
    if !r.lending() {
        return false;
    }
    let lent = r.lent();
    let (before, len) = queue.lent();
    lent.len() == len && is_in_order(&lent, before, PIECE)
}

// Reads where no lend stands, and else advances. Whether that is answered as by the queue.
fn is_read_alike(pipe: &Pipe, r: &mut ReaderEnd, queue: &mut Queue, dice: &mut Dice) -> bool
    requires { IsOf pipe.now r.old.seat }
    ensures { IsOf pipe.now r.new.seat }
{
    if r.lending() {
        return is_advanced_alike(pipe, r, queue, dice);
    }
    let told = queue.read();
    read(pipe, r) == Some(Ok(told)) && (!r.lending() || lends_alike(r, queue))
}

// Consumes and examines some of what is lent. Whether that was lent by the queue.
fn is_advanced_alike(pipe: &Pipe, r: &mut ReaderEnd, queue: &mut Queue, dice: &mut Dice) -> bool
    requires { IsOf pipe.now r.old.seat }
    ensures { IsOf pipe.now r.new.seat }
{
    if !lends_alike(r, queue) || !r.lending() {
        return false;
    }
    let len = r.lent().len();
    let e = dice.below(2 * SEGMENT as u64).min(len);
    let c = dice.below(2 * SEGMENT as u64).min(e);
    queue.advance(c, e);
    pipe.try_advance(r, c, e) == Ok(NOBODY)
}

// Makes a random call, and tells whether it is answered as by the queue.
fn is_answered_alike(
    pipe: &Pipe,
    w: &mut WriterEnd,
    r: &mut ReaderEnd,
    queue: &mut Queue,
    dice: &mut Dice,
) -> Option<bool>
    requires writer { IsOf pipe.now w.old.seat }
    requires reader { IsOf pipe.now r.old.seat }
    ensures writer { IsOf pipe.now w.new.seat }
    ensures reader { IsOf pipe.now r.new.seat }
{
    match dice.below(8) {
        0 | 1 => is_granted_alike(pipe, w, queue, dice.below(70) as usize),
        2 | 3 => Some(drafts_alike(w, queue, dice.below(70) as usize)),
        4 | 5 => {
            let told = queue.flush();
            Some(pipe.try_flush(w) == Ok(told))
        }
        _ => Some(is_read_alike(pipe, r, queue, dice)),
    }
}

// Whether all calls of a random script are answered as by the queue. None for want of memory.
fn are_answered_alike(
    pipe: &Pipe,
    w: &mut WriterEnd,
    r: &mut ReaderEnd,
    queue: &mut Queue,
    dice: &mut Dice,
) -> Option<bool>
    requires writer { IsOf pipe.now w.old.seat }
    requires reader { IsOf pipe.now r.old.seat }
    ensures writer { IsOf pipe.now w.new.seat }
    ensures reader { IsOf pipe.now r.new.seat }
{
    for _ in 0..CALLS {
        if !is_answered_alike(pipe, w, r, queue, dice)? {
            return Some(false);
        }
    }
    Some(true)
}

// The same on a new pipe, and whether it has then carried as much as the queue.
fn is_played_alike(rt: &HostRuntime, segments: usize, dice: &mut Dice) -> Option<bool> {
    let options = Options {
        segment: SEGMENT,
        segments,
        pause: 0,
        resume: 0,
    };
    let (pipe, mut w, mut r, k) = make(rt, options)?;
    let mut queue = Queue::new(rt.alloc(), segments);
    let played = are_answered_alike(&pipe, &mut w, &mut r, &mut queue, dice);
    let closed = close(pipe, w, r, k)?;
    let carried = (closed.committed, closed.consumed) == queue.carried();
    Some(played? && carried && are_all(&closed.blocks, segments as u64))
}

// Completes both ends, and closes the pipe.
fn close(pipe: Pipe, w: WriterEnd, r: ReaderEnd, k: Canceller) -> Option<Closed>
    requires writer { IsOf pipe w.seat }
    requires reader { IsOf pipe r.seat }
    requires canceller { IsOf pipe k }
{
    let (w, _) = complete(&pipe, w)?;
    let (r, _) = complete_reader(&pipe, r)?;
    Some(pipe.close(w, r, k))
}

#[test]
fn a_pipe_answers_random_scripts_as_a_plain_queue_does(rt: HostRuntime) {
    let mut dice = Dice::new(11);
    for i in 0..SCRIPTS {
        let segments = 2 + (i % 4) as usize;
        assert!(rt; is_played_alike(&rt, segments, &mut dice) == Some(true));
    }
}
