//! Known runs of a pipe that two threads use, and a third cancels.

ghost use Rattle.std.specs.Prelude.{◌≡◌, None, IfOk, IfSome, IsNone};
ghost use Rattle.std.specs.Thread.{IsSync};
ghost use Rattle.turn_cell.specs.Seat.{IsOf};

use crate::replies::{FLUSHED, NOBODY, THE_READER, is_held, reply, waits};
use crate::steps::{Step, are_told, is_told};
use pipe_core::{FlushReply, ReadReply, Wake};
use pipe_shared::{
    Canceller, Closed, Field, FlushFault, Made, MakeError, MakeRefused, Options, Pipe, ReaderDone,
    ReaderEnd, ReaderRefused, TryFault, WriterDone, WriterEnd, WriterRefused,
};
use pipe_state::numbered_blocks_fit;
use seg_block::{Block, own_blocks};
use span_seq::{Sequence, Spans};
use std::sync::Wait;
use std::test::Fail;
use std::thread::{Threads, join, yield_now};

pub(crate) const SMALL: Options = Options {
    segment: 64,
    segments: 2,
    pause: 8,
    resume: 4,
};

pub(crate) type Flushed = Result<(FlushReply, Wake), FlushFault>;

pub(crate) type Gave = Result<(ReadReply, Wake), TryFault>;

pub(crate) type Woke = Result<Wake, TryFault>;

// A pipe with these options, where they are small.
pub(crate) fn make(rt: &HostRuntime, options: Options) -> Option<Made>
    ensures { IfSome result (λ made.
        IsOf made.0 made.1.seat × IsOf made.0 made.2.seat × IsOf made.0 made.3) }
{
    make_of(rt, options)?.ok()
}

// The same, or why there is none and the blocks.
fn make_of(rt: &HostRuntime, options: Options) -> Option<Result<Made, MakeRefused>>
    ensures { IfSome result (λ outcome. IfOk outcome (λ made.
        IsOf made.0 made.1.seat × IsOf made.0 made.2.seat × IsOf made.0 made.3)) }
{
    if options.segments > 32 || options.segment == 0 || options.segment > 65_536 {
        return None;
    }
    numbered_blocks_fit();
    let blocks = own_blocks(rt.alloc(), options.segments, options.segment).ok()?;
    Some(Pipe::make(rt.alloc(), options, blocks))
}

// Whether these are so many blocks, with the numbers from 0 on, in any order.
pub(crate) fn are_all(blocks: &[Block], count: u64) -> bool {
    for number in 0..count {
        if !blocks.iter().any(|block| block.id() == number) {
            return false;
        }
    }
    blocks.len() as u64 == count
}

// Whether a closed pipe has carried so many bytes, which were all consumed, and gives back so many blocks.
fn has_carried(closed: &Closed, bytes: u64, blocks: u64) -> bool {
    closed.committed == bytes && closed.consumed == bytes && are_all(&closed.blocks, blocks)
}

pub(crate) fn complete(pipe: &Pipe, w: WriterEnd) -> Option<(WriterDone, Wake)>
    requires { IsOf pipe.now w.seat }
    ensures { IfSome result (λ done. IsOf pipe.now done.0) }
{
    pipe.try_complete(w, 0).ok()
}

pub(crate) fn complete_reader(pipe: &Pipe, r: ReaderEnd) -> Option<(ReaderDone, Wake)>
    requires { IsOf pipe.now r.seat }
    ensures { IfSome result (λ done. IsOf pipe.now done.0) }
{
    pipe.try_complete_reader(r, 0).ok()
}

// Takes room for these bytes, writes them, tells so, and flushes.
pub(crate) fn send(pipe: &Pipe, w: &mut WriterEnd, bytes: &[u8]) -> Option<Flushed>
    requires { IsOf pipe.now w.old.seat }
    ensures { IsOf pipe.now w.new.seat }
{
    if pipe.try_room(w, bytes.len()).is_err() || !draft(w, bytes) {
        return None;
    }
    Some(pipe.try_flush(w))
}

// Writes these bytes to the front of the free part, and tells so.
pub(crate) fn draft(w: &mut WriterEnd, bytes: &[u8]) -> bool
    ensures { w.new.seat ≡ w.old.seat }
{
    let spare = w.spare_mut();
    if spare.len() < bytes.len() {
        return false;
    }
    spare[..bytes.len()].copy_from_slice(bytes);
    w.advance(bytes.len());
    true
}

// Reads, where no lend stands.
pub(crate) fn read(pipe: &Pipe, r: &mut ReaderEnd) -> Option<Gave>
    requires { IsOf pipe.now r.old.seat }
    ensures { IsOf pipe.now r.new.seat }
{
    if r.lending() {
        return None;
    }
    Some(pipe.try_read(r))
}

// Whether a lend is just these bytes.
pub(crate) fn is_just<C: Spans>(lent: &Sequence<'_, C>, bytes: &[u8]) -> bool {
    lent.len() == bytes.len() as u64 && lent.starts_with(bytes)
}

// Advances, where so many bytes are lent and are these.
pub(crate) fn advance(pipe: &Pipe, r: &mut ReaderEnd, lent: &[u8], c: u64, e: u64) -> Option<Woke>
    requires { IsOf pipe.now r.old.seat }
    ensures { IsOf pipe.now r.new.seat }
{
    if !r.lending() {
        return None;
    }
    let seq = r.lent();
    if !is_just(&seq, lent) || c > e || e > seq.len() {
        return None;
    }
    Some(pipe.try_advance(r, c, e))
}

// Whether all that is lent lies in one span.
pub(crate) fn lends_one_span(r: &ReaderEnd) -> bool {
    r.lending() && r.lent().is_single() && r.chain().count() == 1
}

fn ready(ended: Option<u32>, len: u64) -> Option<Gave> {
    Some(Ok((reply(ended, len), NOBODY)))
}

#[test]
fn a_plain_run_of_a_pipe(rt: HostRuntime) -> Result<(), Fail> {
    let (pipe, mut w, mut r, k) = make(&rt, SMALL).ok_or("memory")?;
    let steps = [
        Step::Room(0, Ok(64)),
        Step::Draft(b"abc"),
        Step::Unflushed(3),
        Step::Read(waits(0, 0), NOBODY),
        Step::Flush(FLUSHED, THE_READER),
        Step::Read(reply(None, 3), NOBODY),
        Step::LendsOneSpan,
        Step::Send(b"de", FLUSHED, NOBODY),
        Step::Advance(b"abc", 1, 3, NOBODY),
        Step::Read(reply(None, 4), NOBODY),
        Step::LendsOneSpan,
        Step::Advance(b"bcde", 4, 4, NOBODY),
        Step::Read(waits(5, 0), NOBODY),
        Step::Send(b"12345678", is_held(8), THE_READER),
    ];
    assert!(rt; are_told(&pipe, &mut w, &mut r, &steps));
    let (w, wake) = complete(&pipe, w).ok_or("free")?;
    assert!(rt; wake == NOBODY);
    assert!(rt; are_last_reads(&pipe, &mut r));
    let (r, wake) = complete_reader(&pipe, r).ok_or("free")?;
    assert!(rt; wake == NOBODY);
    let closed = pipe.close(w, r, k);
    assert!(rt; has_carried(&closed, 13, 2));
    Ok(())
}

// Whether the last eight bytes are lent with the writer's code, and nothing behind them.
fn are_last_reads(pipe: &Pipe, r: &mut ReaderEnd) -> bool
    requires { IsOf pipe.now r.old.seat }
    ensures { IsOf pipe.now r.new.seat }
{
    read(pipe, r) == ready(Some(0), 8)
        && advance(pipe, r, b"12345678", 8, 8) == Some(Ok(NOBODY))
        && read(pipe, r) == ready(Some(0), 0)
}

// Reads by the call that waits, where no lend stands.
fn read_waiting<R: Wait>(rt: &R, pipe: &Pipe, r: &mut ReaderEnd) -> Option<ReadReply>
    requires { IsOf pipe.now r.old.seat }
    ensures { IsOf pipe.now r.new.seat }
{
    if r.lending() {
        return None;
    }
    Some(pipe.read(rt, r))
}

// Advances by the call that waits, where so many bytes are lent and are these.
fn advance_waiting<R: Wait>(
    rt: &R,
    pipe: &Pipe,
    r: &mut ReaderEnd,
    lent: &[u8],
    c: u64,
    e: u64,
) -> bool
    requires { IsOf pipe.now r.old.seat }
    ensures { IsOf pipe.now r.new.seat }
{
    if !r.lending() {
        return false;
    }
    let seq = r.lent();
    if !is_just(&seq, lent) || c > e || e > seq.len() {
        return false;
    }
    pipe.advance(rt, r, c, e);
    true
}

// Completes the writer by the call that waits.
fn complete_waiting<R: Wait>(rt: &R, pipe: &Pipe, w: WriterEnd) -> Option<WriterDone>
    requires { IsOf pipe.now w.seat }
    ensures { IfSome result (λ done. IsOf pipe.now done) }
{
    pipe.complete(rt, w, 0).ok()
}

// A call that waits, and what it is told, or a step.
#[derive(Clone, Copy)]
enum Waiting<'a> {
    Room(usize, usize),
    Flush(FlushReply),
    Read(ReadReply),
    Advance(&'a [u8], u64, u64),
    Tries(Step<'a>),
}

// Whether a call is told so.
fn is_told_waiting<R: Wait>(
    rt: &R,
    pipe: &Pipe,
    w: &mut WriterEnd,
    r: &mut ReaderEnd,
    call: Waiting<'_>,
) -> bool
    requires writer { IsOf pipe.now w.old.seat }
    requires reader { IsOf pipe.now r.old.seat }
    ensures writer { IsOf pipe.now w.new.seat }
    ensures reader { IsOf pipe.now r.new.seat }
{
    match call {
        Waiting::Room(hint, free) => pipe.room(rt, w, hint) == Ok(free),
        Waiting::Flush(told) => pipe.flush(rt, w) == Ok(told),
        Waiting::Read(told) => read_waiting(rt, pipe, r) == Some(told),
        Waiting::Advance(lent, c, e) => advance_waiting(rt, pipe, r, lent, c, e),
        Waiting::Tries(step) => is_told(pipe, w, r, step),
    }
}

// Whether each call in turn is told so.
fn are_told_waiting<R: Wait>(
    rt: &R,
    pipe: &Pipe,
    w: &mut WriterEnd,
    r: &mut ReaderEnd,
    calls: &[Waiting<'_>],
) -> bool
    requires writer { IsOf pipe.now w.old.seat }
    requires reader { IsOf pipe.now r.old.seat }
    ensures writer { IsOf pipe.now w.new.seat }
    ensures reader { IsOf pipe.now r.new.seat }
{
    for call in calls {
        if !is_told_waiting(rt, pipe, w, r, *call) {
            return false;
        }
    }
    true
}

#[test]
fn a_plain_run_of_a_pipe_by_calls_that_wait(rt: HostRuntime) -> Result<(), Fail> {
    let (pipe, mut w, mut r, k) = make(&rt, SMALL).ok_or("memory")?;
    let calls = [
        Waiting::Room(0, 64),
        Waiting::Tries(Step::Draft(b"abc")),
        Waiting::Tries(Step::Read(waits(0, 0), NOBODY)),
        Waiting::Flush(FLUSHED),
        Waiting::Read(reply(None, 3)),
        Waiting::Tries(Step::Draft(b"de")),
        Waiting::Flush(FLUSHED),
        Waiting::Advance(b"abc", 1, 3),
        Waiting::Read(reply(None, 4)),
        Waiting::Advance(b"bcde", 4, 4),
        Waiting::Tries(Step::Read(waits(5, 0), NOBODY)),
        Waiting::Tries(Step::Send(b"12345678", is_held(8), THE_READER)),
    ];
    assert!(rt; are_told_waiting(&rt, &pipe, &mut w, &mut r, &calls));
    let w = complete_waiting(&rt, &pipe, w).ok_or("too much")?;
    assert!(rt; are_last_reads_waiting(&rt, &pipe, &mut r));
    let r = pipe.complete_reader(&rt, r, 0);
    let closed = pipe.close(w, r, k);
    assert!(rt; has_carried(&closed, 13, 2));
    Ok(())
}

// The last reads by the calls that wait.
fn are_last_reads_waiting<R: Wait>(rt: &R, pipe: &Pipe, r: &mut ReaderEnd) -> bool
    requires { IsOf pipe.now r.old.seat }
    ensures { IsOf pipe.now r.new.seat }
{
    read_waiting(rt, pipe, r) == Some(reply(Some(0), 8))
        && advance_waiting(rt, pipe, r, b"12345678", 8, 8)
        && read_waiting(rt, pipe, r) == Some(reply(Some(0), 0))
}

#[test]
fn cancellations_end_the_pending_call_or_the_next(rt: HostRuntime) -> Result<(), Fail> {
    let (pipe, mut w, mut r, mut k) = make(&rt, SMALL).ok_or("memory")?;
    assert!(rt; read(&pipe, &mut r) == Some(Ok((waits(0, 0), NOBODY))));
    assert!(rt; pipe.try_cancel_read(&mut k) == Ok(THE_READER));
    let reply = ReadReply::Ready {
        canceled: true,
        ended: None,
        len: 0,
    };
    assert!(rt; read(&pipe, &mut r) == Some(Ok((reply, NOBODY))));
    assert!(rt; pipe.try_cancel_flush(&mut k) == Ok(NOBODY));
    let reply = FlushReply::Ready {
        canceled: true,
        gone: None,
    };
    assert!(rt; send(&pipe, &mut w, b"12345678") == Some(Ok((reply, NOBODY))));
    Ok(())
}

// Why no pipe was made with these options, where all blocks came back.
fn refusal(rt: &HostRuntime, options: Options) -> Option<MakeError> {
    let refused = make_of(rt, options)?.err()?;
    are_all(&refused.blocks, options.segments as u64).then_some(refused.error)
}

#[test]
fn the_first_field_out_of_its_range_is_told(rt: HostRuntime) {
    let cases = [
        (
            Options {
                segment: 63,
                ..SMALL
            },
            Field::Segment,
            63,
        ),
        (
            Options {
                segments: 1,
                pause: 0,
                ..SMALL
            },
            Field::Segments,
            1,
        ),
        (
            Options {
                pause: (1 << 40) + 1,
                ..SMALL
            },
            Field::Pause,
            (1 << 40) + 1,
        ),
        (Options { resume: 9, ..SMALL }, Field::Resume, 9),
        (Options { resume: 0, ..SMALL }, Field::Resume, 0),
    ];
    for (options, field, number) in cases {
        let wanted = MakeError::BadOptions { field, number };
        assert!(rt; refusal(&rt, options) == Some(wanted));
    }
    let never = Options {
        pause: 0,
        resume: 0,
        ..SMALL
    };
    assert!(rt; make(&rt, never).is_some());
}

// Tries until there is room for a piece, and drafts it.
fn draft_on<R: Wait>(rt: &R, pipe: &Pipe, w: &mut WriterEnd, piece: &[u8])
    requires { IsOf pipe.now w.old.seat }
    ensures { IsOf pipe.now w.new.seat }
{
    for _ in rt.forever() {
        if pipe.try_room(w, piece.len()).is_ok() && draft(w, piece) {
            break;
        }
    }
}

// Tries until the draft is flushed, whether or not the writer may go on.
fn flush_on<R: Wait>(rt: &R, pipe: &Pipe, w: &mut WriterEnd)
    requires { IsOf pipe.now w.old.seat }
    ensures { IsOf pipe.now w.new.seat }
{
    for _ in rt.forever() {
        if pipe.try_flush(w).is_ok() {
            break;
        }
    }
}

// Tries until the writer has completed.
fn complete_on<R: Wait>(rt: &R, pipe: &Pipe, w: WriterEnd) -> WriterDone
    requires { IsOf pipe.now w.seat }
    ensures { IsOf pipe.now result }
{
    let mut end = w;
    for _ in rt.forever() {
        match pipe.try_complete(end, 0) {
            Ok((done, _)) => return done,
            Err(WriterRefused { end: back, .. }) => end = back,
        }
    }
    unreachable!()
}

// Writes so many pieces, and completes.
fn write_on<R: Wait>(rt: &R, pipe: &Pipe, mut w: WriterEnd, pieces: u64) -> WriterDone
    requires { IsOf pipe.now w.seat }
    ensures { IsOf pipe.now result }
{
    for _ in 0..pieces {
        draft_on(rt, pipe, &mut w, b"a piece of 20 bytes.");
        flush_on(rt, pipe, &mut w);
    }
    complete_on(rt, pipe, w)
}

// Consumes what is lent, and tells how much that was.
fn consume(pipe: &Pipe, r: &mut ReaderEnd) -> u64
    requires { IsOf pipe.now r.old.seat }
    ensures { IsOf pipe.now r.new.seat }
{
    if !r.lending() {
        return 0;
    }
    let len = r.lent().len();
    match pipe.try_advance(r, len, len) {
        Ok(_) => len,
        Err(_) => 0,
    }
}

// Reads where no lend stands, and tells whether that was the last read.
fn is_at_end(pipe: &Pipe, r: &mut ReaderEnd) -> bool
    requires { IsOf pipe.now r.old.seat }
    ensures { IsOf pipe.now r.new.seat }
{
    let Some(Ok((ReadReply::Ready { ended, len, .. }, _))) = read(pipe, r) else {
        return false;
    };
    ended == Some(0) && len == 0
}

// Tries until the reader has completed.
fn end_on<R: Wait>(rt: &R, pipe: &Pipe, r: ReaderEnd) -> ReaderDone
    requires { IsOf pipe.now r.seat }
    ensures { IsOf pipe.now result }
{
    let mut end = r;
    for _ in rt.forever() {
        match pipe.try_complete_reader(end, 0) {
            Ok((done, _)) => return done,
            Err(ReaderRefused { end: back, .. }) => end = back,
        }
    }
    unreachable!()
}

// Reads to the end, and tells how much it consumed.
fn read_on<R: Wait>(rt: &R, pipe: &Pipe, mut r: ReaderEnd) -> (ReaderDone, u64)
    requires { IsOf pipe.now r.seat }
    ensures { IsOf pipe.now result.0 }
{
    let mut sum: u64 = 0;
    for _ in rt.forever() {
        sum = sum.saturating_add(consume(pipe, &mut r));
        if is_at_end(pipe, &mut r) {
            break;
        }
    }
    (end_on(rt, pipe, r), sum)
}

// Tries so often to cancel a read and a flush.
fn cancel_often(pipe: &Pipe, mut k: Canceller, times: u64) -> Canceller
    requires { IsOf pipe.now k }
    ensures { IsOf pipe.now result }
{
    for _ in 0..times {
        let _canceled = pipe.try_cancel_read(&mut k);
        let _canceled = pipe.try_cancel_flush(&mut k);
    }
    k
}

type Read = (ReaderDone, u64);

fn read_and_cancel<R: Threads + Wait + Sync>(
    rt: &R,
    pipe: &Pipe,
    r: ReaderEnd,
    k: Canceller,
    times: u64,
) -> (Read, Canceller)
    requires reader { IsOf pipe.now r.seat }
    requires canceller { IsOf pipe.now k }
    ensures reader { IsOf pipe.now result.0.0 }
    ensures canceller { IsOf pipe.now result.1 }
{
    join(
        rt,
        || -> Read
            requires { IsOf pipe.now r.seat }
            ensures { IsOf pipe.entry.now result.0 }
        { read_on(rt, pipe, r) },
        || -> Canceller
            requires { IsOf pipe.now k }
            ensures { IsOf pipe.entry.now result }
        { cancel_often(pipe, k, times) },
    )
}

// What three threads have done, one for each end.
fn use_by_three<R: Threads + Wait + Sync>(
    rt: &R,
    pipe: &Pipe,
    w: WriterEnd,
    r: ReaderEnd,
    k: Canceller,
    times: u64,
) -> (WriterDone, (Read, Canceller))
    requires writer { IsOf pipe.now w.seat }
    requires reader { IsOf pipe.now r.seat }
    requires canceller { IsOf pipe.now k }
    ensures writer { IsOf pipe.now result.0 }
    ensures reader { IsOf pipe.now result.1.0.0 }
    ensures canceller { IsOf pipe.now result.1.1 }
{
    join(
        rt,
        || -> WriterDone
            requires { IsOf pipe.now w.seat }
            ensures { IsOf pipe.entry.now result }
        { write_on(rt, pipe, w, times) },
        || -> (Read, Canceller)
            requires { IsSync R.row × IsOf pipe.now r.seat × IsOf pipe.now k }
            ensures { IsOf pipe.entry.now result.0.0 × IsOf pipe.entry.now result.1 }
        { read_and_cancel(rt, pipe, r, k, times) },
    )
}

#[test]
fn three_threads_use_a_pipe_and_no_byte_is_lost(rt: HostRuntime) -> Result<(), Fail> {
    let (pipe, w, r, k) = make(&rt, SMALL).ok_or("memory")?;
    let (w, ((r, read), k)) = use_by_three(&rt, &pipe, w, r, k, 500);
    let closed = pipe.close(w, r, k);
    assert!(rt; read == 10_000);
    assert!(rt; has_carried(&closed, 10_000, 2));
    Ok(())
}

const TWO_SEGMENTS: Options = Options {
    segment: 64,
    segments: 2,
    pause: 0,
    resume: 0,
};

// Takes room for these bytes, writes them and flushes, by calls that wait. Whether it was all granted.
pub(crate) fn send_waiting<R: Wait>(rt: &R, pipe: &Pipe, w: &mut WriterEnd, bytes: &[u8]) -> bool
    requires { IsOf pipe.now w.old.seat }
    ensures { IsOf pipe.now w.new.seat }
{
    pipe.room(rt, w, bytes.len()).is_ok() && draft(w, bytes) && pipe.flush(rt, w).is_ok()
}

// Writes so many pieces of 20 bytes, each of which has its number in every byte, unless one is refused.
fn write_numbered<R: Wait>(rt: &R, pipe: &Pipe, w: &mut WriterEnd, pieces: u64) -> bool
    requires { IsOf pipe.now w.old.seat }
    ensures { IsOf pipe.now w.new.seat }
{
    for i in 0..pieces {
        if !send_waiting(rt, pipe, w, &[(i & 255) as u8; 20]) {
            return false;
        }
    }
    true
}

// The same, and completes.
fn write_pieces<R: Wait>(rt: &R, pipe: &Pipe, mut w: WriterEnd, pieces: u64) -> Option<WriterDone>
    requires { IsOf pipe.now w.seat }
{
    let all = write_numbered(rt, pipe, &mut w, pieces);
    let done = complete_waiting(rt, pipe, w)?;
    all.then_some(done)
}

// Whether these bytes are those of pieces of so many bytes, each of which has its number in every byte, where so many bytes went before.
pub(crate) fn is_in_order<C: Spans>(lent: &Sequence<'_, C>, before: u64, piece: u64) -> bool {
    let mut at = before;
    for span in lent.spans() {
        if !are_numbered(span, at, piece) {
            return false;
        }
        at = at.saturating_add(span.len() as u64);
    }
    true
}

// The same of one span.
fn are_numbered(bytes: &[u8], before: u64, piece: u64) -> bool {
    let mut at = before;
    for byte in bytes {
        if *byte != number_at(at, piece) {
            return false;
        }
        at = at.saturating_add(1);
    }
    true
}

// The byte that stands behind so many bytes of pieces.
pub(crate) fn number_at(at: u64, piece: u64) -> u8 {
    (at / piece.max(1) & 255) as u8
}

// Reads and consumes once, behind so many bytes. None at the end, or where the bytes aren't those that were written.
fn read_once<R: Wait>(rt: &R, pipe: &Pipe, r: &mut ReaderEnd, before: u64) -> Option<u64>
    requires { IsOf pipe.now r.old.seat }
    ensures { IsOf pipe.now r.new.seat }
{
    if r.lending() {
        return None;
    }
    pipe.read(rt, r);
    let lent = r.lent();
    let len = lent.len();
    if !is_in_order(&lent, before, 20) {
        return None;
    }
    pipe.advance(rt, r, len, len);
    (len > 0).then_some(len)
}

// Reads to the end, and tells how many bytes came in order.
fn read_pieces<R: Wait>(rt: &R, pipe: &Pipe, mut r: ReaderEnd) -> (ReaderDone, u64)
    requires { IsOf pipe.now r.seat }
    ensures { IsOf pipe.now result.0 }
{
    let mut sum: u64 = 0;
    for _ in rt.forever() {
        match read_once(rt, pipe, &mut r, sum) {
            Some(len) => sum = sum.saturating_add(len),
            None => break,
        }
    }
    (pipe.complete_reader(rt, r, 0), sum)
}

// How many of the bytes of so many pieces come through a pipe in order, between two threads that wait for each other.
fn passed<R: Threads + Wait + Sync>(
    rt: &R,
    pipe: &Pipe,
    w: WriterEnd,
    r: ReaderEnd,
    pieces: u64,
) -> u64
    requires writer { IsOf pipe.now w.seat }
    requires reader { IsOf pipe.now r.seat }
{
    let (_done, (_reader, sum)) = join(
        rt,
        || -> Option<WriterDone>
            requires { IsOf pipe.now w.seat }
        { write_pieces(rt, pipe, w, pieces) },
        || -> (ReaderDone, u64)
            requires { IsOf pipe.now r.seat }
        { read_pieces(rt, pipe, r) },
    );
    sum
}

#[test]
fn bytes_pass_in_order_between_threads_that_wait(rt: HostRuntime) -> Result<(), Fail> {
    let (pipe, w, r, _k) = make(&rt, SMALL).ok_or("memory")?;
    assert!(rt; passed(&rt, &pipe, w, r, 250) == 5_000);
    let (pipe, w, r, _k) = make(&rt, TWO_SEGMENTS).ok_or("memory")?;
    assert!(rt; passed(&rt, &pipe, w, r, 250) == 5_000);
    Ok(())
}

// Gives way for so long that a thread beside this one, which waits for it, sleeps.
fn linger() {
    for _ in 0..2_000 {
        yield_now();
    }
}

// Reads once, and waits for that.
fn read_first<R: Wait>(rt: &R, pipe: &Pipe, mut r: ReaderEnd) -> Option<ReadReply>
    requires { IsOf pipe.now r.seat }
{
    read_waiting(rt, pipe, &mut r)
}

// Cancels a read, late.
fn cancel_later<R: Wait>(rt: &R, pipe: &Pipe, mut k: Canceller) -> Canceller
    requires { IsOf pipe.now k }
{
    linger();
    for _ in rt.forever() {
        if pipe.try_cancel_read(&mut k).is_ok() {
            break;
        }
    }
    k
}

// Fills a pipe of two segments, and waits for room.
fn room_when_full<R: Wait>(rt: &R, pipe: &Pipe, mut w: WriterEnd) -> Option<usize>
    requires { IsOf pipe.now w.seat }
{
    let is_filled = send_waiting(rt, pipe, &mut w, &[7; 64])
        && send_waiting(rt, pipe, &mut w, &[7; 64]);
    let granted = pipe.room(rt, &mut w, 1).ok();
    granted.filter(|_| is_filled)
}

// Completes the reader, late.
fn leave_later<R: Wait>(rt: &R, pipe: &Pipe, r: ReaderEnd) -> ReaderDone
    requires { IsOf pipe.now r.seat }
{
    linger();
    pipe.complete_reader(rt, r, 9)
}

// What a reader that waits is told when its read is canceled.
fn canceled<R: Threads + Wait + Sync>(
    rt: &R,
    pipe: &Pipe,
    r: ReaderEnd,
    k: Canceller,
) -> Option<ReadReply>
    requires reader { IsOf pipe.now r.seat }
    requires canceller { IsOf pipe.now k }
{
    let (reply, _canceller) = join(
        rt,
        || -> Option<ReadReply>
            requires { IsOf pipe.now r.seat }
        { read_first(rt, pipe, r) },
        || -> Canceller
            requires { IsOf pipe.now k }
        { cancel_later(rt, pipe, k) },
    );
    reply
}

// How much room a writer that waits is granted when the reader completes.
fn left<R: Threads + Wait + Sync>(rt: &R, pipe: &Pipe, w: WriterEnd, r: ReaderEnd) -> Option<usize>
    requires writer { IsOf pipe.now w.seat }
    requires reader { IsOf pipe.now r.seat }
{
    let (granted, _reader) = join(
        rt,
        || -> Option<usize>
            requires { IsOf pipe.now w.seat }
        { room_when_full(rt, pipe, w) },
        || -> ReaderDone
            requires { IsOf pipe.now r.seat }
        { leave_later(rt, pipe, r) },
    );
    granted
}

#[test]
fn an_end_that_waits_is_woken_by_a_cancellation_and_a_completion(
    rt: HostRuntime,
) -> Result<(), Fail> {
    let (pipe, _w, r, k) = make(&rt, SMALL).ok_or("memory")?;
    let empty = ReadReply::Ready {
        canceled: true,
        ended: None,
        len: 0,
    };
    assert!(rt; canceled(&rt, &pipe, r, k) == Some(empty));
    let (pipe, w, r, _k) = make(&rt, TWO_SEGMENTS).ok_or("memory")?;
    assert!(rt; left(&rt, &pipe, w, r) == Some(64));
    Ok(())
}
