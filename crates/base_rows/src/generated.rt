//! Small inputs, read in pieces.

use edge_core::Source;
use frame_grammar::Framing;
use gen_core::{GenSource, gen_len};
use std::alloc::{AllocError, Global};
use std::test::Fail;

/// The whole input, read by a buffer of `room` bytes.
fn read_all(alloc: Global, source: &mut GenSource, room: usize) -> Result<Vec<u8>, AllocError> {
    let mut all = Vec::new(alloc);
    let mut buf = vec![in alloc; 0u8; room]?;
    for _ in 0..10_000 {
        match source.read(buf.as_mut_slice()) {
            Ok(count) if count > 0 && count <= buf.len() => all.extend_from_slice(&buf[..count])?,
            _ => break,
        }
    }
    Ok(all)
}

#[test]
fn an_input_is_the_same_in_all_pieces(rt: HostRuntime) -> Result<(), Fail> {
    let alloc = rt.alloc();
    let cases: [(u32, u32, Framing, &[u8]); 4] = [
        (2, 1, Framing::Line, b"\"#\n"),
        (2, 1, Framing::Len4, b"\0\0\0\x02\"#"),
        (0, 2, Framing::Len2, b"\0\0\0\x0d!\"#$%&'()*+,-"),
        (
            83,
            1,
            Framing::Line,
            b"stuvwxyz{|}~ !\"#$%&'()*+,-./0123456789:;<=>?@ABCDEFGHIJKLMNOPQRSTUVWXYZ[\\]^_`abcdef\n",
        ),
    ];
    for (seed, count, framing, input) in cases {
        for room in [1, 3, 1_000] {
            let mut source = GenSource::new(seed, count, framing);
            assert!(rt; read_all(alloc, &mut source, room)?.as_slice() == input);
        }
        assert!(rt; gen_len(seed, count, framing) == input.len() as u64);
    }
    Ok(())
}

#[test]
fn a_length_is_that_of_the_input(rt: HostRuntime) -> Result<(), Fail> {
    let cases = [
        (95, 2, Framing::Line, 109),
        (95, 2, Framing::Len4, 115),
        (u32::MAX, 100, Framing::Len2, 4_994),
        (7, 0, Framing::Len4, 0),
    ];
    for (seed, count, framing, len) in cases {
        let mut source = GenSource::new(seed, count, framing);
        assert!(rt; gen_len(seed, count, framing) == len);
        assert!(rt; read_all(rt.alloc(), &mut source, 64)?.len() as u64 == len);
    }
    Ok(())
}
