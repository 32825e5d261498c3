//! `drill`, whose summary goes to a sink in memory.

use crate::case::{Wanted, are_unread, command_with, does, no_names, unread_devices};
use std::alloc::{AllocError, Global};
use std::sync::Wait;
use std::test::Fail;
use std::thread::Threads;

/// The words behind the command, which calls of the sink fail, how much room it has, and what is to come out.
#[derive(Clone, Copy)]
struct Drill<'a> {
    words: &'a [&'a str],
    room: usize,
    fails: &'a [u64],
    output: &'a [u8],
    status: u8,
    line: &'a [u8],
}

fn plain<'a>(words: &'a [&'a str], output: &'a [u8], status: u8, line: &'a [u8]) -> Drill<'a> {
    Drill {
        words,
        room: 64,
        fails: &[],
        output,
        status,
        line,
    }
}

/// Whether the command does what the case says, and reads nothing.
fn holds<R: Wait + Threads + Sync>(
    rt: &R,
    alloc: Global,
    case: &Drill<'_>,
) -> Result<bool, AllocError> {
    let words = command_with(alloc, "drill", case.words)?;
    let mut devices = unread_devices(alloc, case.room, case.fails, no_names(alloc)?)?;
    let wanted = Wanted {
        output: case.output,
        status: case.status,
        line: case.line,
    };
    let is_done = does(rt, alloc, words.as_slice(), &mut devices, &wanted);
    Ok(is_done && are_unread(&mut devices))
}

// The summary is one write, the flush is the second call, and there is no third one. Behind a bad frame there is no call.
#[test]
fn the_sink_is_called_for_a_summary_and_one_flush(rt: HostRuntime) -> Result<(), Fail> {
    let alloc = rt.alloc();
    let summary = b"frames=1 in=3 out=6\n";
    let summed = plain(&["2", "1", "line", "len4"], summary, 0, b"");
    let broken_off = Drill {
        output: b"",
        status: 5,
        line: b"write fault after 0\n",
        ..summed
    };
    let cases = [
        Drill {
            fails: &[3],
            ..summed
        },
        Drill {
            fails: &[1],
            ..broken_off
        },
        Drill {
            fails: &[2],
            output: summary,
            line: b"write fault after 20\n",
            ..broken_off
        },
        Drill {
            room: 7,
            output: b"frames=",
            line: b"write fault after 7\n",
            ..broken_off
        },
        Drill {
            fails: &[1],
            ..plain(
                &["0", "2", "len4", "len2", "max=12"],
                b"",
                2,
                b"bad frame at 4: length 13\n",
            )
        },
    ];
    for case in &cases {
        assert!(rt; holds(&rt, alloc, case)?);
    }
    Ok(())
}
