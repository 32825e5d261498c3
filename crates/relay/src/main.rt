//! The program `relay`: its words, its standard streams, its files and its status.
#![tactic(auto)]

mod help;

use edge_core::{Doors, ReadEdge, Sink, Source, WriteEdge, write_all};
use help::{HELP, VERSION};
use relay_top::{Status, relay_main};
use socket_edge::RealDoors;
use std::alloc::Global;
use std::io::BufReader;
use std::process::ExitCode;
use std::sync::Wait;
use std::thread::Threads;
use std::{env, io};

/// How many bytes of standard input are asked for at once.
const READ_AHEAD: usize = 65_536;

/// So many words are too many for a command.
const TOO_MANY: usize = 1 << 32;

fn main(rt: HostRuntime) -> ExitCode {
    let mut output = WriteEdge::new(rt.stdout());
    let mut faults = WriteEdge::new(rt.stderr());
    let Ok(stdin) = BufReader::with_capacity(rt.alloc(), READ_AHEAD, rt.stdin()) else {
        let status = tell(&mut faults, "out of memory\n", Status::OutOfMemory);
        return ExitCode::from(status.number());
    };
    let mut input = ReadEdge::new(stdin);
    let mut doors = RealDoors::new(rt);
    let status = match words(&rt) {
        Ok(words) => run(
            &rt,
            rt.alloc(),
            words.as_slice(),
            &mut input,
            &mut output,
            &mut faults,
            &mut doors,
        ),
        Err(error) if error.kind() == io::ErrorKind::OutOfMemory => {
            tell(&mut faults, "out of memory\n", Status::OutOfMemory)
        }
        Err(_) => tell(&mut faults, "usage: a word is not text\n", Status::Usage),
    };
    ExitCode::from(status.number())
}

/// Does what the words ask for, and answers the status.
fn run<R: Wait + Threads + Sync, S: Source + Send, K: Sink + Send, E: Sink, D: Doors>(
    rt: &R,
    alloc: Global,
    words: &[String],
    input: &mut S,
    output: &mut K,
    faults: &mut E,
    doors: &mut D,
) -> Status {
    if words.len() >= TOO_MANY {
        return tell(faults, "usage: too many words\n", Status::Usage);
    }
    match only_word(words) {
        Some("--help") => print(output, HELP),
        Some("--version") => print(output, VERSION),
        _ => relay_main(rt, alloc, words, input, output, faults, doors),
    }
}

/// The words behind the program's name.
fn words(rt: &HostRuntime) -> io::Result<Vec<String>> {
    let mut words = Vec::new(rt.alloc());
    for word in env::args(rt)?.skip(1) {
        words.push(word)?;
    }
    Ok(words)
}

fn only_word(words: &[String]) -> Option<&str> {
    match words.split_first() {
        Some((word, [])) => Some(word.as_str()),
        _ => None,
    }
}

/// Writes what was asked for, and answers the status.
fn print<K: Sink>(output: &mut K, text: &str) -> Status {
    if write_all(output, text.as_bytes()).is_err() {
        return Status::WriteFault;
    }
    Status::Clean
}

/// Tells of a fault, as far as that can be written, and answers its status.
fn tell<K: Sink>(faults: &mut K, line: &str, status: Status) -> Status {
    let _ = write_all(faults, line.as_bytes());
    status
}
