//! Counts the lines of standard input, and tells how many bytes the longest has: a parser over a stream.
//!
//! A `StreamReader` lends what has come, in place, and a `SeqReader` takes each whole line from that. The front of a line
//! that has come in part stays in the reader, which then asks for more.
#![tactic(auto)]

mod lines;

use edge_core::ReadEdge;
use lines::{Lines, take_lines};
use std::io::{self, ErrorKind};
use std::process::ExitCode;
use stream_ends::StreamReader;

/// How many bytes are held at most, and so how long a line may be, with its line feed.
const CAPACITY: usize = 65_536;

fn main(rt: HostRuntime) -> io::Result<ExitCode> {
    let input = ReadEdge::new(rt.stdin());
    let Ok(mut reader) = StreamReader::make(rt.alloc(), input, CAPACITY) else {
        return Err(io::Error::from(ErrorKind::OutOfMemory));
    };
    let mut lines = Lines::default();
    for _ in 0..u64::MAX {
        match take_lines(&mut reader, &mut lines) {
            Ok(true) => (),
            Ok(false) => break,
            Err(fault) => {
                eprintln!(rt; "{fault:?}")?;
                return Ok(ExitCode::FAILURE);
            }
        }
    }
    let Lines { count, longest } = lines;
    println!(rt; "{count} lines, the longest of {longest} bytes")?;
    Ok(ExitCode::SUCCESS)
}
