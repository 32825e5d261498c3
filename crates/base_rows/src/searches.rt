//! What the searches answer on known inputs.

use byte_kernels::{
    ByteSet, common_front, count_of, index_in_range, index_near, index_not_in_range, index_of_any,
    index_of_any_except, last_index_of_any, lowest, marks_near, marks_near_64, plain,
};
use std::process::Abort;
use std::test::Fail;

#[test]
fn a_set_has_the_bytes_that_it_is_made_of(rt: HostRuntime) {
    let bytes = [0, 63, 64, 127, 128, 200, 255, 200];
    let set = ByteSet::of(&bytes);
    let one = ByteSet::of(&[200, 200]);
    let none = ByteSet::of(&[]);
    for byte in 0..=255u8 {
        assert!(rt; set.contains(byte) == bytes.contains(&byte));
        assert!(rt; one.contains(byte) == (byte == 200));
        assert!(rt; !none.contains(byte));
    }
}

#[test]
fn searches_stop_at_the_first_byte(rt: HostRuntime) {
    let set = ByteSet::of(b"\r\n");
    let cases: [(&[u8], Option<usize>, Option<usize>, Option<usize>); 6] = [
        (b"", None, None, None),
        (b"\n", Some(0), Some(0), None),
        (b"ab", None, None, Some(0)),
        (b"ab\ncd\r", Some(2), Some(5), Some(0)),
        (b"\r\n\ra\n", Some(0), Some(4), Some(3)),
        (b"\n\n\r", Some(0), Some(2), None),
    ];
    for (hay, any, last, except) in cases {
        assert!(rt; index_of_any(hay, &set) == any);
        assert!(rt; last_index_of_any(hay, &set) == last);
        assert!(rt; index_of_any_except(hay, &set) == except);
    }
}

#[test]
fn ranges_have_both_their_ends(rt: HostRuntime) {
    assert!(rt; index_in_range(b"/:0", 48, 57) == Some(2));
    assert!(rt; index_in_range(b"/:9", 48, 57) == Some(2));
    assert!(rt; index_not_in_range(b"09:", 48, 57) == Some(2));
    assert!(rt; index_not_in_range(b"90/", 48, 57) == Some(2));
    assert!(rt; index_in_range(b"0123", 57, 48) == None);
    assert!(rt; index_not_in_range(b"0123", 57, 48) == Some(0));
}

// Each search of bytes whose only hit is the last one.
fn check_hit_at_end(rt: &impl Abort, bytes: &[u8]) {
    let end = bytes.len().checked_sub(1);
    let many = ByteSet::of(b"\n\r\t:z");
    let one = ByteSet::of(b"z");
    assert!(rt; index_of_any(bytes, &many) == end);
    assert!(rt; index_of_any(bytes, &one) == end);
    assert!(rt; last_index_of_any(bytes, &many) == end);
    assert!(rt; last_index_of_any(bytes, &one) == end);
    assert!(rt; index_of_any_except(bytes, &ByteSet::of(b"ab")) == end);
    assert!(rt; index_of_any_except(bytes, &ByteSet::of(b"a")) == end);
    assert!(rt; index_in_range(bytes, 122, 255) == end);
    assert!(rt; index_not_in_range(bytes, 97, 121) == end);
    assert!(rt; index_not_in_range(bytes, 0, 255) == None);
    assert!(rt; index_near(bytes, b'z') == end);
    assert!(rt; count_of(bytes, b'a') == bytes.len().saturating_sub(1));
    assert!(rt; common_front(bytes, bytes) == bytes.len());
}

#[test]
fn a_hit_at_the_end_is_found_at_each_length(rt: HostRuntime) -> Result<(), Fail> {
    for len in [0, 1, 15, 16, 17, 31, 32, 33, 63, 64, 65, 80, 128] {
        let mut bytes = vec![in rt.alloc(); b'a'; len]?;
        if let Some(last) = bytes.last_mut() {
            *last = b'z';
        }
        check_hit_at_end(&rt, &bytes);
    }
    Ok(())
}

#[test]
fn marks_tell_where_a_byte_stands(rt: HostRuntime) {
    let hay = b"_\nabc\ndefghijklmn\n";
    assert!(rt; marks_near(hay, 1, b'\n') == 0b10001);
    assert!(rt; marks_near(hay, 2, b'\n') == 0b1000_0000_0000_1000);
    let long = [b'a'; 70];
    assert!(rt; marks_near_64(&long, 6, b'a') == u64::MAX);
    assert!(rt; marks_near_64(&long, 0, b'b') == 0);
    assert!(rt; lowest(0b1000_1000) == 3);
    assert!(rt; lowest(1 << 63) == 63);
}

// All searches of bytes, as the plain loops make them.
fn check_against_plain(rt: &impl Abort, hay: &[u8], other: &[u8], set: &ByteSet) {
    assert!(rt; index_of_any(hay, set) == plain::index_of_any(hay, set));
    assert!(rt; last_index_of_any(hay, set) == plain::last_index_of_any(hay, set));
    assert!(rt; index_of_any_except(hay, set) == plain::index_of_any_except(hay, set));
    assert!(rt; index_in_range(hay, 100, 180) == plain::index_in_range(hay, 100, 180));
    assert!(rt; index_not_in_range(hay, 1, 254) == plain::index_not_in_range(hay, 1, 254));
    assert!(rt; common_front(hay, other) == plain::common_front(hay, other));
}

#[test]
fn lanes_answer_as_plain_loops(rt: HostRuntime) {
    let mut bytes = [0u8; 150];
    let mut byte = 7u8;
    for place in bytes.iter_mut() {
        byte = byte.wrapping_mul(29).wrapping_add(17);
        *place = byte;
    }
    let sets = [
        ByteSet::of(&[]),
        ByteSet::of(&[200]),
        ByteSet::of(&[3, 130]),
        ByteSet::of(&bytes[..100]),
    ];
    for from in 0..bytes.len() {
        for set in &sets {
            check_against_plain(&rt, &bytes[from..], &bytes[from / 2..], set);
            check_against_plain(&rt, &bytes[..from], &bytes, set);
        }
    }
}
