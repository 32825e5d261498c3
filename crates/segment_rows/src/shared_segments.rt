//! Segments between a writer's and a reader's part.

ghost use Rattle.std.specs.Prelude.{◌≡◌, ◌∷◌, [], Some, IfSome, IsSome};

use pipe_core::ReadReply;
use pipe_state::{Chain, Filling, PipeState, Reading, Segments, Writing, numbered_blocks_fit};
use seg_block::own_blocks;
use span_seq::Spans;
use std::test::Fail;

// Writes the bytes to the free part and adds them to the draft, if they fit.
fn append(filling: &mut Filling, bytes: &[u8])
    ensures label { filling.new.label ≡ filling.old.label }
    ensures bytes { filling.new.bytes ≡ filling.old.bytes }
    ensures sent { filling.new.sent ≡ filling.old.sent }
{
    let spare = filling.spare_mut();
    if bytes.len() <= spare.len() {
        spare[..bytes.len()].copy_from_slice(bytes);
    }
    if bytes.len() <= filling.room() {
        filling.advance(bytes.len());
    }
}

#[test]
fn segments_are_filled_lent_and_brought_home(rt: HostRuntime) -> Result<(), Fail> {
    let alloc = rt.alloc();
    let mut blocks = own_blocks(alloc, 2, 64)?;
    let (mut segments, half, mut writer) = Segments::make(alloc, &mut blocks)?;
    let chain = Chain::make(alloc, 2)?;
    let mut reading = Reading { chain, half };
    let Some(mut first) = segments.take(1, &mut writer) else {
        return Err(Fail::new("no block is at home"));
    };
    append(&mut first, b"abc");
    segments.commit(&mut first, &mut writer);
    append(&mut first, b"de");
    segments.finish(first, &mut writer);
    segments.fetch(&mut reading);
    assert!(rt; reading.chain.count() == 1);
    assert!(rt; reading.chain.span(0) == b"abcde".as_slice());
    Ok(())
}

#[test]
fn what_is_committed_is_lent_and_comes_home(rt: HostRuntime) -> Result<(), Fail> {
    let alloc = rt.alloc();
    numbered_blocks_fit();
    let mut blocks = own_blocks(alloc, 2, 64)?;
    let (mut state, half, writer) = PipeState::make(alloc, &mut blocks, 0, 1)?;
    let mut writing = Writing::make(alloc, 2, 64, writer)?;
    let chain = Chain::make(alloc, 2)?;
    let mut reading = Reading { chain, half };
    assert!(rt; state.room(1, &mut writing) == Ok(64));
    writing.advance(60);
    assert!(rt; state.commit(&mut writing).is_ok());
    let (reply, _) = state.read_at_least(0, &mut reading);
    assert!(rt; matches!(reply, ReadReply::Ready { len: 60, .. }));
    assert!(rt; reading.chain.count() == 1);
    assert!(rt; reading.chain.span(0).len() == 60);
    Ok(())
}
