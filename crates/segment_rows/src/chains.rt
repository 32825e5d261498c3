//! What is committed in segments, as a chain of them lends it.

ghost use Rattle.seg_block.specs.Words.{SameTail, published};
ghost use Rattle.std.specs.Prelude.{◌≡◌};

use crate::append::append;
use pipe_state::{Chain, Inbox};
use seg_block::{Block, SegTail};
use span_seq::Spans;
use std::test::Fail;

#[test]
fn what_is_committed_is_lent_where_it_lies(rt: HostRuntime) -> Result<(), Fail> {
    let alloc = rt.alloc();
    let (mut tail, front) = Block::make(alloc, 7, 8)?.part();
    let mut inbox = Inbox::make(alloc, 2)?;
    let mut chain = Chain::make(alloc, 2)?;
    append(&mut tail, b"abc");
    let mark = tail.commit();
    inbox.put(Some(front), mark, None);
    chain.fetch(&mut inbox.arrivals);
    assert!(rt; chain.count() == 1);
    assert!(rt; chain.span(0) == b"abc".as_slice());
    append(&mut tail, b"de");
    let mark = tail.commit();
    inbox.put(None, mark, Some(tail.finish()));
    assert!(rt; chain.span(0) == b"abc".as_slice());
    chain.fetch(&mut inbox.arrivals);
    assert!(rt; chain.count() == 1);
    assert!(rt; chain.span(0) == b"abcde".as_slice());
    assert!(rt; chain.front(0).seen() == b"abcde".as_slice());
    Ok(())
}
