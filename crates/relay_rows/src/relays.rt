//! `copy` and `pump`, between devices in memory. What they answer is the same.

use crate::case::{
    Case, Wanted, are_unread, does, does_alone, holds, holds_alone, no_names, plain, strings,
    unread_devices,
};
use relay_top::is_local;
use std::alloc::{AllocError, Global};
use std::sync::Wait;
use std::test::Fail;
use std::thread::Threads;

const LEN4_LINE: &[&str] = &["len4", "line"];

const TWO_FRAMES: &[u8] = &[0, 0, 0, 2, b'h', b'i', 0, 0, 0, 1, b'a'];

/// Whether `copy`, by both calls, and `pump` do what the cases say.
fn hold<R: Wait + Threads + Sync>(
    rt: &R,
    alloc: Global,
    cases: &[Case<'_>],
) -> Result<bool, AllocError> {
    for case in cases {
        if !holds(rt, alloc, "copy", case, None)?
            || !holds_alone(alloc, case)?
            || !holds(rt, alloc, "pump", case, None)?
        {
            return Ok(false);
        }
    }
    Ok(true)
}

#[test]
fn frames_come_out_in_the_other_framing_up_to_a_fault(rt: HostRuntime) -> Result<(), Fail> {
    let alloc = rt.alloc();
    let cases = [
        plain(LEN4_LINE, &[0, 0, 0, 2, b'h', b'i'], b"hi\n", 0, b""),
        Case {
            cuts: &[1; 12],
            ..plain(LEN4_LINE, TWO_FRAMES, b"hi\na\n", 0, b"")
        },
        Case {
            cuts: &[5, 2],
            failing_reads: &[3],
            ..plain(
                LEN4_LINE,
                &[0, 0, 0, 1, b'a', 0, 0],
                b"a\n",
                4,
                b"read fault after 7\n",
            )
        },
        Case {
            caps: &[1; 8],
            failing_writes: &[4],
            ..plain(
                LEN4_LINE,
                &[0, 0, 0, 5, b'h', b'e', b'l', b'l', b'o', 0, 2, 0, 0],
                b"hel",
                5,
                b"write fault after 3\n",
            )
        },
    ];
    assert!(rt; hold(&rt, alloc, &cases)?);
    Ok(())
}

#[test]
fn copy_reads_no_more_behind_a_bad_frame_or_a_fault(rt: HostRuntime) -> Result<(), Fail> {
    let alloc = rt.alloc();
    let cases = [
        Case {
            cuts: &[4, 3],
            ..plain(
                LEN4_LINE,
                &[0, 1, 0, 1, b'a', b'b', b'c'],
                b"",
                2,
                b"bad frame at 0: length 65537\n",
            )
        },
        Case {
            cuts: &[5, 3],
            failing_writes: &[1],
            ..plain(
                LEN4_LINE,
                &[0, 0, 0, 1, b'a', 0, 0, 0],
                b"",
                5,
                b"write fault after 0\n",
            )
        },
        Case {
            cuts: &[5, 3],
            failing_reads: &[2],
            ..plain(
                LEN4_LINE,
                &[0, 0, 0, 1, b'a', 0, 0, 0],
                b"a\n",
                4,
                b"read fault after 5\n",
            )
        },
    ];
    for case in &cases {
        assert!(rt; holds(&rt, alloc, "copy", case, Some(3))?);
    }
    Ok(())
}

/// Whether `copy` does this where the third read fails.
fn ends_with_the_third_read<R: Wait + Threads + Sync>(
    rt: &R,
    alloc: Global,
    words: &[&str],
    input: &[u8],
    wanted: Wanted<'_>,
) -> Result<bool, AllocError> {
    let case = Case {
        failing_reads: &[3],
        ..plain(words, input, wanted.output, wanted.status, wanted.line)
    };
    holds(rt, alloc, "copy", &case, None)
}

/// Two reads of a segment come before the third one, or else the end of the input.
#[test]
fn a_read_of_copy_takes_at_most_a_segment(rt: HostRuntime) -> Result<(), Fail> {
    let alloc = rt.alloc();
    let bytes = [b'\n'; 8193];
    let cases: [(&[&str], usize, usize, u8, &[u8]); 5] = [
        (
            &["line", "line", "seg=64"],
            128,
            128,
            4,
            b"read fault after 128\n",
        ),
        (&["line", "line", "seg=64"], 64, 64, 0, b""),
        (
            &["line", "line", "seg=65"],
            131,
            130,
            4,
            b"read fault after 130\n",
        ),
        (&["line", "line"], 8193, 8192, 4, b"read fault after 8192\n"),
        (&["line", "line"], 4096, 4096, 0, b""),
    ];
    for (words, given, taken, status, line) in cases {
        let wanted = Wanted {
            output: &bytes[..taken],
            status,
            line,
        };
        assert!(rt; ends_with_the_third_read(&rt, alloc, words, &bytes[..given], wanted)?);
    }
    Ok(())
}

fn usage_of(line: &[u8]) -> Wanted<'_> {
    Wanted {
        output: b"",
        status: 1,
        line,
    }
}

/// Whether words that are no command are told by this line, and nothing is read or written.
fn told<R: Wait + Threads + Sync>(
    rt: &R,
    alloc: Global,
    words: &[String],
    line: &[u8],
) -> Result<bool, AllocError> {
    let mut devices = unread_devices(alloc, 64, &[], no_names(alloc)?)?;
    Ok(does(rt, alloc, words, &mut devices, &usage_of(line)) && are_unread(&mut devices))
}

/// The same by the call for commands on one thread, where the words ask for no more.
fn told_alone(alloc: Global, words: &[String], line: &[u8]) -> Result<bool, AllocError> {
    if !is_local(words) {
        return Ok(true);
    }
    let mut devices = unread_devices(alloc, 64, &[], no_names(alloc)?)?;
    Ok(does_alone(alloc, words, &mut devices, &usage_of(line)) && are_unread(&mut devices))
}

#[test]
fn other_words_are_told(rt: HostRuntime) -> Result<(), Fail> {
    let alloc = rt.alloc();
    let cases: [(&[&str], &[u8]); 5] = [
        (&[], b"usage: word 0\n"),
        (&["copy", "len4", "foo"], b"usage: word 2\n"),
        (&["pump", "len4", "foo"], b"usage: word 2\n"),
        (&["drill", "len4", "line"], b"usage: word 1\n"),
        (
            &["batch", "2", "line", "len4", "a", "a"],
            b"usage: word 5\n",
        ),
    ];
    for (words, line) in &cases {
        let words = strings(alloc, words)?;
        assert!(rt; told(&rt, alloc, words.as_slice(), line)?);
        assert!(rt; told_alone(alloc, words.as_slice(), line)?);
    }
    Ok(())
}

#[test]
fn words_that_need_one_thread(rt: HostRuntime) -> Result<(), Fail> {
    let alloc = rt.alloc();
    let cases: [(&[&str], bool); 8] = [
        (&[], true),
        (&["copy", "line", "len4"], true),
        (&["Pump"], true),
        (&["copy", "pump"], true),
        (&["pump"], false),
        (&["drill", "x"], false),
        (&["batch"], false),
        (&["serve"], false),
    ];
    for (words, local) in cases {
        let words = strings(alloc, words)?;
        assert!(rt; is_local(words.as_slice()) == local);
    }
    Ok(())
}
