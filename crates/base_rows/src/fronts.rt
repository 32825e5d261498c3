//! What stands at the front of known inputs.

use frame_fronts::{spell_front, whole_front};
use frame_model::Framing;
use std::process::Abort;

#[test]
fn whole_frames_are_counted(rt: HostRuntime) {
    let cases: [(Framing, u64, &[u8], usize, u64); 8] = [
        (Framing::Len4, 9, b"\0\0\0\x02ab\0\0\0\0\0\0\0\x02a", 10, 2),
        (Framing::Len4, 1, b"\0\0\0\x02ab", 0, 0),
        (Framing::Len2, 9, b"\0\x02ab\0\x01c\0", 7, 2),
        (Framing::VLen, 9, b"\x02ab\x01c\x80\0d", 5, 2),
        (Framing::Line, 9, b"ab\n\ncd", 4, 2),
        (Framing::Line, 2, b"ab\n\ncd\nabc\na\n", 7, 3),
        (Framing::Line, 0, b"\n\na\n", 2, 2),
        (Framing::Line, u64::MAX, b"ab\ncd\n", 6, 2),
    ];
    for (framing, max, bytes, len, frames) in cases {
        let front = whole_front(framing, max, bytes);
        assert!(rt; (front.len, front.frames) == (len, frames));
    }
}

// The frames at the front, behind one byte of a room.
fn check_spelt(
    rt: &impl Abort,
    input: Framing,
    output: Framing,
    bytes: &[u8],
    len: usize,
    text: &[u8],
) {
    let mut room = [b'.'; 400];
    let spelt = spell_front(input, output, 300, bytes, &mut room, 1);
    assert!(rt; spelt.len == len);
    assert!(rt; &room[..spelt.end] == text);
}

#[test]
fn frames_are_spelt_anew(rt: HostRuntime) {
    let len4 = b"\0\0\0\x02ab\0\0\0\0\xff\xff\xff\xffbehind......";
    check_spelt(
        &rt,
        Framing::Len4,
        Framing::Len2,
        len4,
        10,
        b".\0\x02ab\0\0",
    );
    check_spelt(&rt, Framing::Len4, Framing::Line, len4, 10, b".ab\n\n");
    let len2 = b"\0\x02ab\0\0\xff\xffbehind........";
    check_spelt(
        &rt,
        Framing::Len2,
        Framing::Len4,
        len2,
        6,
        b".\0\0\0\x02ab\0\0\0\0",
    );
    check_spelt(&rt, Framing::Len2, Framing::Line, len2, 6, b".ab\n\n");
    check_spelt(&rt, Framing::Len2, Framing::VLen, len2, 6, b".\x02ab\0");
    let vlen = b"\x02ab\0\x80behind...............";
    check_spelt(&rt, Framing::VLen, Framing::Len2, vlen, 4, b".\0\x02ab\0\0");
    let line = b"ab\n\nbehind..........";
    check_spelt(
        &rt,
        Framing::Line,
        Framing::Len4,
        line,
        4,
        b".\0\0\0\x02ab\0\0\0\0",
    );
    check_spelt(&rt, Framing::Line, Framing::Len2, line, 4, b".\0\x02ab\0\0");
    check_spelt(&rt, Framing::Line, Framing::Line, line, 4, b".ab\n\n");
}

#[test]
fn a_payload_with_a_line_feed_is_left(rt: HostRuntime) {
    for at in [0, 15, 16, 63, 64, 127, 128, 199] {
        let mut bytes = [b'a'; 218];
        bytes[0] = 0;
        bytes[1] = 200;
        let mut text = [b'a'; 202];
        text[0] = b'.';
        text[201] = b'\n';
        check_spelt(&rt, Framing::Len2, Framing::Line, &bytes, 202, &text);
        bytes[2 + at] = b'\n';
        check_spelt(&rt, Framing::Len2, Framing::Line, &bytes, 0, b".");
    }
}

#[test]
fn a_room_that_is_too_small_is_not_filled(rt: HostRuntime) {
    let bytes = b"abc\nbehind...........";
    let mut room = [0; 25];
    let none = spell_front(Framing::Line, Framing::Len4, 9, bytes, &mut room, 2);
    assert!(rt; (none.len, none.frames, none.end) == (0, 0, 2));
    let one = spell_front(Framing::Line, Framing::Len4, 9, bytes, &mut room, 1);
    assert!(rt; (one.len, one.frames, one.end) == (4, 1, 8));
}
