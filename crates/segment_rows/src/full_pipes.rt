//! What fills a pipe of five segments of 64 bytes.

ghost use Rattle.std.specs.Prelude.{◌≡◌, length, IsNone};
ghost use Rattle.pipe_state.specs.Held.{held_made};
ghost use Rattle.pipe_state.specs.Segments.{AreSized};

use pipe_state::{Chain, Full, PipeState, Reading, Writing, numbered_blocks_fit};
use seg_block::own_blocks;
use std::test::Fail;

// Another segment of 64 bytes is filled and flushed, where the one before has no byte free.
fn fill(state: &mut PipeState, writing: &mut Writing) -> bool
    requires pair { writing.old.name ≡ state.old.segments.writer_name }
    requires going { IsNone state.old.control.ended }
    requires size { writing.old.size ≡ 64 }
    requires sizes { AreSized 64 state.old.segments.blocks }
    requires count { length state.old.segments.blocks ≡ writing.old.count }
    ensures made { held_made state.new ≡ held_made state.old }
    ensures ended { state.new.control.ended ≡ state.old.control.ended }
    ensures gone { state.new.control.gone ≡ state.old.control.gone }
    ensures lent { state.new.control.lent ≡ state.old.control.lent }
    ensures name { writing.new.name ≡ writing.old.name }
    ensures size { writing.new.size ≡ 64 }
    ensures count { writing.new.count ≡ writing.old.count }
{
    if writing.free_len() > 0 {
        return false;
    }
    match state.room(1, writing) {
        Ok(_) => {
            writing.advance(64);
            state.commit(writing).is_ok()
        }
        Err(_) => false,
    }
}

#[test]
fn a_full_pipe_tells_what_fills_it(rt: HostRuntime) -> Result<(), Fail> {
    let alloc = rt.alloc();
    numbered_blocks_fit();
    let mut blocks = own_blocks(alloc, 5, 64)?;
    let (mut state, half, writer) = PipeState::make(alloc, &mut blocks, 0, 1)?;
    let mut writing = Writing::make(alloc, 5, 64, writer)?;
    let chain = Chain::make(alloc, 5)?;
    let mut reading = Reading { chain, half };
    assert!(rt; fill(&mut state, &mut writing));
    assert!(rt; fill(&mut state, &mut writing));
    assert!(rt; fill(&mut state, &mut writing));
    assert!(rt; fill(&mut state, &mut writing));
    assert!(rt; fill(&mut state, &mut writing));
    assert!(rt; writing.free_len() == 0);
    let unread = Full {
        writer: 1,
        waiting: 4,
        reader: 0,
    };
    assert!(rt; state.room(1, &mut writing) == Err(unread));
    state.read_at_least(0, &mut reading);
    let read = Full {
        writer: 1,
        waiting: 0,
        reader: 4,
    };
    assert!(rt; state.room(1, &mut writing) == Err(read));
    state.end_reader(reading, 0);
    assert!(rt; state.room(1, &mut writing) == Ok(64));
    Ok(())
}

#[test]
fn what_the_reader_has_is_told_from_what_waits(rt: HostRuntime) -> Result<(), Fail> {
    let alloc = rt.alloc();
    numbered_blocks_fit();
    let mut blocks = own_blocks(alloc, 5, 64)?;
    let (mut state, half, writer) = PipeState::make(alloc, &mut blocks, 0, 1)?;
    let mut writing = Writing::make(alloc, 5, 64, writer)?;
    let chain = Chain::make(alloc, 5)?;
    let mut reading = Reading { chain, half };
    assert!(rt; fill(&mut state, &mut writing));
    assert!(rt; fill(&mut state, &mut writing));
    state.read_at_least(0, &mut reading);
    assert!(rt; fill(&mut state, &mut writing));
    assert!(rt; fill(&mut state, &mut writing));
    assert!(rt; fill(&mut state, &mut writing));
    assert!(rt; writing.free_len() == 0);
    let full = Full {
        writer: 1,
        waiting: 2,
        reader: 2,
    };
    assert!(rt; state.room(1, &mut writing) == Err(full));
    Ok(())
}
