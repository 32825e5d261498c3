//! A filler in steps and as a whole, on a pipe of two threads.

ghost use Rattle.std.specs.Prelude.{IfSome};
ghost use Rattle.turn_cell.specs.Seat.{IsIdle, IsOf};
ghost use Rattle.relay_engine.specs.PipeFiller.{IsUnused};

use edge_core::{MemSource, Source};
use pipe_core::ReadReply;
use pipe_shared::{Full, Options, Pipe, ReaderEnd};
use pipe_state::numbered_blocks_fit;
use relay_engine::{FillEnd, FillStep, Filler, fill};
use seg_block::own_blocks;
use std::alloc::{AllocError, Global};
use std::test::Fail;

/// Room for 128 bytes, of which 64 are granted at once, and no pause.
const SMALL: Options = Options {
    segment: 64,
    segments: 2,
    pause: 0,
    resume: 0,
};

/// The same with a pause from 64 bytes on.
const PAUSING: Options = Options {
    segment: 64,
    segments: 2,
    pause: 64,
    resume: 32,
};

fn source(alloc: Global, len: usize, failing_calls: &[u64]) -> Result<MemSource, AllocError> {
    let mut content = Vec::new(alloc);
    content.resize(len, b'x')?;
    Ok(MemSource::make(content, Vec::new(alloc), failing_calls.to_vec(alloc)?))
}

fn make(rt: &HostRuntime, options: Options, limit: u64) -> Option<(Pipe, Filler, ReaderEnd)>
    ensures { IfSome result (λ made.
        IsIdle made.0 made.1.end.seat × IsOf made.0 made.2.seat × IsUnused made.1) }
{
    if limit > 1_000_000 || options.segment == 0 || options.segment > 64 {
        return None;
    }
    numbered_blocks_fit();
    let blocks = own_blocks(rt.alloc(), options.segments, options.segment).ok()?;
    match Pipe::make(rt.alloc(), options, blocks) {
        Ok((pipe, writer, reader, _)) => Some((pipe, Filler::new(writer, limit), reader)),
        Err(_) => None,
    }
}

// A step, where the writer goes on.
fn step<S: Source>(pipe: &Pipe, filler: &mut Filler, source: &mut S) -> Option<FillStep>
    requires { IsIdle pipe.now filler.old.end.seat }
    ensures { IsIdle pipe.now filler.new.end.seat }
{
    if filler.is_done() {
        return None;
    }
    Some(filler.step(pipe, source))
}

// Reads, where no lend stands, and consumes all that is lent. How much that was, and how the writer has ended.
fn consume(pipe: &Pipe, r: &mut ReaderEnd) -> Option<(u64, Option<u32>)>
    requires { IsOf pipe.now r.old.seat }
    ensures { IsOf pipe.now r.new.seat }
{
    if r.lending() {
        return None;
    }
    match pipe.try_read(r) {
        Ok((ReadReply::Ready { ended, .. }, _)) => {
            if !r.lending() {
                return None;
            }
            let len = r.lent().len();
            pipe.try_advance(r, len, len).ok()?;
            Some((len, ended))
        }
        _ => None,
    }
}

/// A step of the filler, or all that is lent is consumed, and what is told.
#[derive(Clone, Copy)]
enum Told {
    Step(FillStep),
    /// So many bytes were lent, and the writer has ended so.
    Consumed(u64, Option<u32>),
    /// So many bytes were taken so far.
    Taken(u64),
}

fn is_told<S: Source>(
    pipe: &Pipe,
    filler: &mut Filler,
    source: &mut S,
    reader: &mut ReaderEnd,
    told: Told,
) -> bool
    requires filler { IsIdle pipe.now filler.old.end.seat }
    requires reader { IsOf pipe.now reader.old.seat }
    ensures filler { IsIdle pipe.now filler.new.end.seat }
    ensures reader { IsOf pipe.now reader.new.seat }
{
    match told {
        Told::Step(told) => step(pipe, filler, source) == Some(told),
        Told::Consumed(len, ended) => consume(pipe, reader) == Some((len, ended)),
        Told::Taken(taken) => filler.taken() == taken,
    }
}

/// Whether each of these is told in turn.
fn are_told<S: Source>(
    pipe: &Pipe,
    filler: &mut Filler,
    source: &mut S,
    reader: &mut ReaderEnd,
    all: &[Told],
) -> bool
    requires filler { IsIdle pipe.now filler.old.end.seat }
    requires reader { IsOf pipe.now reader.old.seat }
    ensures filler { IsIdle pipe.now filler.new.end.seat }
    ensures reader { IsOf pipe.now reader.new.seat }
{
    for told in all {
        if !is_told(pipe, filler, source, reader, *told) {
            return false;
        }
    }
    true
}

/// Whether a filler of so many bytes tells these in turn, where a call of its source may fail. None for want of memory.
fn fills(
    rt: &HostRuntime,
    options: Options,
    limit: u64,
    source: &mut MemSource,
    all: &[Told],
) -> Option<bool> {
    let (pipe, mut filler, mut reader) = make(rt, options, limit)?;
    Some(are_told(&pipe, &mut filler, source, &mut reader, all))
}

fn moved(taken: usize) -> Told {
    Told::Step(FillStep::Moved { taken })
}

fn paused(unexamined: u64) -> Told {
    Told::Step(FillStep::Paused { unexamined })
}

fn done(end: FillEnd) -> Told {
    Told::Step(FillStep::Done(end))
}

#[test]
fn a_full_pipe_takes_more_once_it_is_read(rt: HostRuntime) -> Result<(), Fail> {
    let full = Told::Step(FillStep::Full(Full {
        writer: 1,
        waiting: 1,
        reader: 0,
    }));
    let all = [
        moved(64),
        moved(64),
        full,
        Told::Consumed(128, None),
        moved(2),
    ];
    let mut source = source(rt.alloc(), 130, &[])?;
    assert!(rt; fills(&rt, SMALL, 200, &mut source, &all) == Some(true));
    Ok(())
}

#[test]
fn a_paused_filler_asks_again_before_it_reads(rt: HostRuntime) -> Result<(), Fail> {
    let all = [
        paused(64),
        paused(64),
        Told::Taken(64),
        Told::Consumed(64, None),
        moved(1),
        done(FillEnd::End),
    ];
    let mut source = source(rt.alloc(), 65, &[])?;
    assert!(rt; fills(&rt, PAUSING, 65, &mut source, &all) == Some(true));
    Ok(())
}

#[test]
fn a_filler_ends_where_a_read_fails(rt: HostRuntime) -> Result<(), Fail> {
    let all = [
        moved(64),
        done(FillEnd::Fault),
        Told::Taken(64),
        Told::Consumed(64, Some(4)),
    ];
    let mut failing = source(rt.alloc(), 65, &[2])?;
    assert!(rt; fills(&rt, SMALL, 65, &mut failing, &all) == Some(true));
    Ok(())
}

#[test]
fn a_filler_ends_behind_its_limit(rt: HostRuntime) -> Result<(), Fail> {
    let all = [moved(64), done(FillEnd::Long), Told::Consumed(64, Some(7))];
    let mut longer = source(rt.alloc(), 65, &[])?;
    assert!(rt; fills(&rt, SMALL, 64, &mut longer, &all) == Some(true));
    Ok(())
}

#[test]
fn a_filler_ends_with_the_code_of_a_reader_that_is_gone(rt: HostRuntime) -> Result<(), Fail> {
    let mut source = source(rt.alloc(), 65, &[])?;
    let (pipe, mut filler, reader) = make(&rt, SMALL, 65).ok_or("memory")?;
    let _reader = pipe.try_complete_reader(reader, 9).ok().ok_or("free")?;
    let gone = FillStep::Done(FillEnd::Gone { code: 9 });
    assert!(rt; step(&pipe, &mut filler, &mut source) == Some(gone));
    assert!(rt; (filler.taken(), filler.is_done()) == (64, true));
    Ok(())
}

#[test]
fn a_whole_side_runs_until_its_source_ends(rt: HostRuntime) -> Result<(), Fail> {
    let mut source = source(rt.alloc(), 100, &[])?;
    let (pipe, filler, mut reader) = make(&rt, SMALL, 100).ok_or("memory")?;
    let (end, _writer, taken) = fill(&rt, &pipe, filler, &mut source);
    assert!(rt; (end, taken) == (FillEnd::End, 100));
    assert!(rt; consume(&pipe, &mut reader) == Some((100, Some(0))));
    Ok(())
}
