//! The two ends of a segment, on one thread and on two.

ghost use Rattle.std.specs.Prelude.{◌≡◌};
ghost use mathlib.Core.List.{IsPrefix};
ghost use Rattle.seg_block.specs.Words.{SameTail, SameFront, tail_part, front_part, published, seen};

use crate::append::append;
use seg_block::{Block, FrontEnd, SegFront, SegTail, TailEnd, block_of, own_blocks};
use std::sync::Wait;
use std::test::Fail;
use std::thread;

// Where both ends are in one hand, a look after a commit shows all that is published.
fn commit_and_look(tail: &mut SegTail, front: &mut SegFront) -> usize
    requires { front_part front.old ≡ tail_part tail.old }
    ensures ends { SameTail tail.old tail.new × SameFront front.old front.new }
    ensures fresh { IsPrefix (published tail.new) (seen front.new) }
    ensures covered { IsPrefix (seen front.new) (published tail.new) }
{
    let mark = tail.commit();
    front.acquire(&mark);
    let len = front.look();
    tail.covers(front);
    len
}

#[test]
fn a_front_sees_what_is_committed_and_gives_the_block_with_the_note(
    rt: HostRuntime,
) -> Result<(), Fail> {
    let (mut tail, mut front) = Block::make(rt.alloc(), 7, 64)?.part();
    assert!(rt; tail.room() == 64);
    append(&mut tail, b"abc");
    assert!(rt; tail.draft_len() == 3);
    assert!(rt; tail.room() == 61);
    assert!(rt; front.look() == 0);
    assert!(rt; tail.commit().len() == 3);
    assert!(rt; tail.draft_len() == 0);
    assert!(rt; front.look() == 3);
    assert!(rt; front.seen() == b"abc".as_slice());
    append(&mut tail, b"d");
    let mark = tail.commit();
    assert!(rt; mark.len() == 4);
    assert!(rt; front.seen() == b"abc".as_slice());
    front.learn(&mark);
    assert!(rt; front.seen() == b"abcd".as_slice());
    append(&mut tail, b"e");
    assert!(rt; commit_and_look(&mut tail, &mut front) == 5);
    match tail.finish() {
        TailEnd::Last(_) => assert!(rt; false),
        TailEnd::Note(note) => {
            let block = front.finish_with(note);
            assert!(rt; block.id() == 7);
            assert!(rt; block.size() == 64);
        }
    }
    Ok(())
}

#[test]
fn a_mark_shows_no_more_than_it_stands_for(rt: HostRuntime) -> Result<(), Fail> {
    let (mut tail, mut front) = Block::make(rt.alloc(), 0, 8)?.part();
    append(&mut tail, b"one");
    let first = tail.commit();
    append(&mut tail, b"two");
    let second = tail.commit();
    front.learn(&first);
    assert!(rt; front.seen() == b"one".as_slice());
    front.learn(&second);
    assert!(rt; front.seen() == b"onetwo".as_slice());
    front.learn(&first);
    assert!(rt; front.seen() == b"onetwo".as_slice());
    append(&mut tail, b"three");
    assert!(rt; tail.draft_len() == 0);
    append(&mut tail, b"!!");
    assert!(rt; tail.room() == 0);
    Ok(())
}

#[test]
fn the_end_that_ends_second_has_the_block_again(rt: HostRuntime) -> Result<(), Fail> {
    let mut block = Block::make(rt.alloc(), 3, 16)?;
    for tail_first in [true, false, false] {
        let (mut tail, front) = block.part();
        append(&mut tail, b"given up");
        block = if tail_first {
            match (tail.finish(), front.finish()) {
                (TailEnd::Note(_), FrontEnd::Last(block)) => block,
                _ => {
                    assert!(rt; false);
                    return Ok(());
                }
            }
        } else {
            match (front.finish(), tail.finish()) {
                (FrontEnd::Early(_), TailEnd::Last(block)) => block,
                _ => {
                    assert!(rt; false);
                    return Ok(());
                }
            }
        };
        assert!(rt; block.id() == 3);
        assert!(rt; block.size() == 16);
    }
    let (tail, front) = block.part();
    drop(front);
    assert!(rt; matches!(tail.finish(), TailEnd::Last(_)));
    Ok(())
}

#[test]
fn a_note_of_either_end_gives_the_other_the_block(rt: HostRuntime) -> Result<(), Fail> {
    let (tail, front) = Block::make(rt.alloc(), 3, 16)?.part();
    let FrontEnd::Early(note) = front.finish() else {
        assert!(rt; false);
        return Ok(());
    };
    let block = tail.finish_with(note);
    assert!(rt; block.id() == 3);
    let (tail, front) = block.part();
    let TailEnd::Note(note) = tail.finish() else {
        assert!(rt; false);
        return Ok(());
    };
    let block = block_of(front, TailEnd::Note(note));
    assert!(rt; block.id() == 3);
    assert!(rt; block.size() == 16);
    Ok(())
}

#[test]
fn either_end_can_be_dropped_first(rt: HostRuntime) -> Result<(), Fail> {
    let (tail, front) = Block::make(rt.alloc(), 0, 1)?.part();
    drop(tail);
    assert!(rt; matches!(front.finish(), FrontEnd::Last(_)));
    let (tail, front) = Block::make(rt.alloc(), 0, 65536)?.part();
    drop(tail);
    drop(front);
    let (tail, front) = Block::make(rt.alloc(), 0, 63)?.part();
    drop(front);
    drop(tail);
    Ok(())
}

#[test]
fn blocks_are_numbered_from_nought(rt: HostRuntime) -> Result<(), Fail> {
    let blocks = own_blocks(rt.alloc(), 5, 64)?;
    assert!(rt; blocks.len() == 5);
    for (number, block) in blocks.iter().enumerate() {
        assert!(rt; block.id() == number as u64);
        assert!(rt; block.size() == 64);
    }
    Ok(())
}

// Commits the bytes from `first` on, one at a time, and then ends. The answer is whether the block came out.
fn commit_each(mut tail: SegTail, first: usize, count: usize) -> bool {
    for at in 0..count {
        append(&mut tail, &[(first.saturating_add(at) % 251) as u8]);
        tail.commit();
    }
    matches!(tail.finish(), TailEnd::Last(_))
}

// Looks until all bytes are seen, and then ends. The answer is whether each look saw a prefix of what was written, and whether the block came out.
fn look_on<R: Wait>(rt: &R, mut front: SegFront, first: usize, count: usize) -> (bool, bool) {
    let mut alike = true;
    for _ in rt.forever() {
        let len = front.look();
        alike &= len <= count;
        for (at, &byte) in front.seen().iter().enumerate() {
            alike &= byte == (first.saturating_add(at) % 251) as u8;
        }
        if count <= len {
            break;
        }
        thread::yield_now();
    }
    (alike, matches!(front.finish(), FrontEnd::Last(_)))
}

#[test]
fn one_thread_looks_while_another_commits(rt: HostRuntime) -> Result<(), Fail> {
    let mut first: usize = 0;
    for segment in 0..16 {
        let count = if segment < 15 { 64 } else { 40 };
        let (tail, front) = Block::make(rt.alloc(), segment, 64)?.part();
        let shared = &rt;
        let (tail_has_it, (alike, front_has_it)) = thread::join(
            shared,
            move || commit_each(tail, first, count),
            move || look_on(shared, front, first, count),
        );
        assert!(rt; alike);
        assert!(rt; tail_has_it != front_has_it);
        first = first.saturating_add(count);
    }
    assert!(rt; first == 1000);
    Ok(())
}
