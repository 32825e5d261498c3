//! What the functions answer on known inputs.

ghost use Rattle.std.specs.Prelude.{[], ◌∷◌};

use frame_grammar::*;
use span_seq::{One, Sequence, Spans};
use std::process::Abort;

/// Bytes in three spans, some of which may be empty.
#[derive(Clone, Copy)]
struct Pieces<'a> {
    front: &'a [u8],
    middle: &'a [u8],
    back: &'a [u8],
}

impl Spans for Pieces<'_> {
    ghost spans = { λ pieces. pieces.front.now ∷ pieces.middle.now ∷ pieces.back.now ∷ [] };

    fn count(&self) -> usize {
        3
    }

    fn span(&self, index: usize) -> &[u8] {
        match index {
            0 => self.front,
            1 => self.middle,
            _ => self.back,
        }
    }
}

fn frame(from: u64, to: u64, end: u64) -> Cut {
    Cut::Frame { from, to, end }
}

fn too_big(len: u64) -> Cut {
    Cut::Bad(BadKind::TooBig { len })
}

fn bad_head(bytes: u64) -> Cut {
    Cut::Bad(BadKind::BadHead { bytes })
}

/// Cuts the first frame off bytes that lie in spans which end at any two places.
fn check_cut(rt: &impl Abort, framing: Framing, max: u64, bytes: &[u8], at_end: bool, want: Cut) {
    assert!(rt; bytes.len() <= 11);
    for first in 0..bytes.len() + 1 {
        for second in first..bytes.len() + 1 {
            let pieces = Pieces {
                front: &bytes[..first],
                middle: &bytes[first..second],
                back: &bytes[second..],
            };
            let cut = next_frame(framing, max, &Sequence::whole(&pieces), 0, at_end);
            assert!(rt; cut == want);
        }
    }
}

#[test]
fn next_frame_cuts_these_inputs(rt: HostRuntime) {
    let cases: [(Framing, u64, &[u8], bool, Cut); 44] = [
        (
            Framing::Len4,
            65536,
            &[0, 0, 0, 2, 104, 105, 0, 0, 0, 1, 97],
            true,
            frame(4, 6, 6),
        ),
        (
            Framing::Line,
            65536,
            &[97, 13, 10, 98],
            true,
            frame(0, 2, 3),
        ),
        (Framing::Len4, 65536, &[0, 0, 0], false, Cut::More),
        (Framing::Len4, 65536, &[0, 0, 0], true, Cut::Rest),
        (Framing::Len4, 1, &[0, 0, 0, 2], false, too_big(2)),
        (Framing::Len4, 2, &[0, 0, 0, 2, 97], false, Cut::More),
        (Framing::Len2, 2, &[0, 2, 97, 98, 99], false, frame(2, 4, 4)),
        (Framing::Line, 2, &[97, 98], false, Cut::More),
        (Framing::Line, 2, &[97, 98], true, frame(0, 2, 2)),
        (Framing::Line, 2, &[97, 98, 99], false, too_big(3)),
        (Framing::Line, 2, &[97, 98, 10], false, frame(0, 2, 3)),
        (Framing::Line, 0, &[10], false, frame(0, 0, 1)),
        (Framing::Line, 0, &[], true, Cut::End),
        // a counted frame
        (Framing::Len4, 2, &[], true, Cut::End),
        (Framing::Len2, 2, &[], true, Cut::End),
        (Framing::Len4, 2, &[], false, Cut::More),
        (Framing::Len2, 2, &[], false, Cut::More),
        (Framing::Len2, 2, &[0], false, Cut::More),
        (Framing::Len2, 2, &[0], true, Cut::Rest),
        (Framing::Len2, 1, &[0, 2, 97, 98], true, too_big(2)),
        (Framing::Len4, 2, &[0, 0, 0, 2, 97], true, Cut::Rest),
        (Framing::Len2, 2, &[0, 2, 97], false, Cut::More),
        (Framing::Len2, 2, &[0, 2, 97], true, Cut::Rest),
        (Framing::Len4, 1, &[0, 0, 0, 1, 97], true, frame(4, 5, 5)),
        (Framing::Len4, 0, &[0, 0, 0, 0], false, frame(4, 4, 4)),
        (Framing::Len2, 255, &[1, 0], false, too_big(256)),
        (Framing::Len2, u64::MAX, &[255, 255], true, Cut::Rest),
        (Framing::VLen, 2, &[], true, Cut::End),
        (Framing::VLen, 2, &[], false, Cut::More),
        (Framing::VLen, 2, &[2, 97, 98, 99], false, frame(1, 3, 3)),
        (Framing::VLen, 2, &[2, 97], true, Cut::Rest),
        (Framing::VLen, 1, &[2, 97, 98], true, too_big(2)),
        (Framing::VLen, 9, &[128, 128, 128], true, Cut::Rest),
        (Framing::VLen, 9, &[128, 128, 128], false, Cut::More),
        (Framing::VLen, 9, &[128, 0], false, bad_head(2)),
        (Framing::VLen, 9, &[128, 128, 0], false, bad_head(3)),
        (Framing::VLen, 9, &[255, 255, 255, 0], true, bad_head(4)),
        (Framing::VLen, 9, &[128, 128, 128, 128], true, bad_head(4)),
        (
            Framing::VLen,
            9,
            &[255, 255, 255, 127],
            true,
            too_big(268_435_455),
        ),
        // a line
        (Framing::Line, 2, &[], false, Cut::More),
        (Framing::Line, 2, &[97, 98, 99, 10], true, too_big(3)),
        (Framing::Line, 2, &[13, 10, 10], false, frame(0, 1, 2)),
        (Framing::Line, 0, &[97], true, too_big(1)),
        (Framing::Line, u64::MAX, &[97], true, frame(0, 1, 1)),
    ];
    for (framing, max, bytes, at_end, want) in cases {
        check_cut(&rt, framing, max, bytes, at_end, want);
    }
}

#[test]
fn can_spell_refuses_a_line_feed_and_a_length_too_many(rt: HostRuntime) {
    let bytes = [97; 65536];
    let long = One(&bytes);
    let long = Sequence::whole(&long);
    assert!(rt; can_spell(Framing::Len4, &long) == Ok(()));
    assert!(rt; can_spell(Framing::Len2, &long.without_front(1)) == Ok(()));
    assert!(rt; can_spell(Framing::Len2, &long) == Err(BadKind::Unspellable { at: 65535 }));
    assert!(rt; can_spell(Framing::VLen, &long) == Ok(()));
    assert!(rt; can_spell(Framing::Line, &long) == Ok(()));
    let pieces = Pieces {
        front: b"",
        middle: b"a",
        back: b"\n\n",
    };
    assert!(rt;
        can_spell(Framing::Line, &Sequence::whole(&pieces)) == Err(BadKind::Unspellable { at: 1 })
    );
}

#[test]
fn heads_and_tails(rt: HostRuntime) {
    let heads: [(Framing, u64, &[u8]); 13] = [
        (Framing::Len4, 65535, &[0, 0, 255, 255]),
        (Framing::Len4, 65536, &[0, 1, 0, 0]),
        (Framing::Len2, 2, &[0, 2]),
        (Framing::Len2, 65535, &[255, 255]),
        (Framing::VLen, 0, &[0]),
        (Framing::VLen, 127, &[127]),
        (Framing::VLen, 128, &[128, 1]),
        (Framing::VLen, 16_383, &[255, 127]),
        (Framing::VLen, 16_384, &[128, 128, 1]),
        (Framing::VLen, 2_097_151, &[255, 255, 127]),
        (Framing::VLen, 2_097_152, &[128, 128, 128, 1]),
        (Framing::VLen, 268_435_455, &[255, 255, 255, 127]),
        (Framing::Line, 65536, &[]),
    ];
    for (framing, len, want) in heads {
        assert!(rt; spell_head(framing, len).bytes() == want);
    }
    let tails: [(Framing, &[u8]); 4] = [
        (Framing::Len4, &[]),
        (Framing::Len2, &[]),
        (Framing::VLen, &[]),
        (Framing::Line, &[10]),
    ];
    for (framing, want) in tails {
        assert!(rt; spell_tail(framing).bytes() == want);
    }
}

#[test]
fn segments_hold_a_payload_and_a_pause(rt: HostRuntime) {
    let usual = Job {
        input: Framing::Len4,
        output: Framing::Line,
        max: 65_536,
        seg: 4_096,
        pause: 65_536,
        resume: 32_768,
        limit: 1 << 40,
    };
    assert!(rt; segments_of(&usual) == 36);
    assert!(rt;
        segments_of(&Job {
            max: 65_528,
            ..usual
        }) == 35
    );
    assert!(rt;
        segments_of(&Job {
            max: 65_529,
            ..usual
        }) == 36
    );
    assert!(rt;
        segments_of(&Job {
            max: 0,
            seg: 64,
            pause: 0,
            ..usual
        }) == 4
    );
    assert!(rt;
        segments_of(&Job {
            max: 268_435_455,
            seg: 64,
            pause: 16_777_216,
            ..usual
        }) == 4_210_692
    );
}
