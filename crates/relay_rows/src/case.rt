//! A case of a command, and what comes out of it.

use edge_core::{Doors, MemDoors, MemSink, MemSource, Sink, Source};
use relay_top::{is_local, relay_local, relay_main};
use std::alloc::{AllocError, Global};
use std::sync::Wait;
use std::thread::Threads;

/// What a command has to do with: its source, its sink, where faults are told, and its doors.
#[derive(Drop)]
pub struct Devices {
    pub source: MemSource,
    pub sink: MemSink,
    pub faults: MemSink,
    pub doors: MemDoors,
}

/// What is to come out of a command.
#[derive(Clone, Copy)]
pub struct Wanted<'a> {
    pub output: &'a [u8],
    pub status: u8,
    pub line: &'a [u8],
}

/// The words behind a command, its input, how reads and writes are cut and fail, and what is to come out.
#[derive(Clone, Copy)]
pub struct Case<'a> {
    pub words: &'a [&'a str],
    pub input: &'a [u8],
    pub cuts: &'a [usize],
    pub failing_reads: &'a [u64],
    pub caps: &'a [usize],
    pub failing_writes: &'a [u64],
    pub wanted: Wanted<'a>,
}

pub fn plain<'a>(
    words: &'a [&'a str],
    input: &'a [u8],
    output: &'a [u8],
    status: u8,
    line: &'a [u8],
) -> Case<'a> {
    Case {
        words,
        input,
        cuts: &[],
        failing_reads: &[],
        caps: &[],
        failing_writes: &[],
        wanted: Wanted {
            output,
            status,
            line,
        },
    }
}

pub fn strings(alloc: Global, texts: &[&str]) -> Result<Vec<String>, AllocError> {
    let mut words = Vec::new(alloc);
    for text in texts {
        words.push(String::from_str(alloc, text)?)?;
    }
    Ok(words)
}

/// A command with the words behind it.
pub fn command_with(
    alloc: Global,
    command: &str,
    texts: &[&str],
) -> Result<Vec<String>, AllocError> {
    let mut words = strings(alloc, texts)?;
    words.insert(0, String::from_str(alloc, command)?)?;
    Ok(words)
}

// A function that makes a thing which is seen as a state has no contract here: what it tells would be asked of each goal of a
// caller that makes several.

fn source_of(
    alloc: Global,
    bytes: &[u8],
    cuts: &[usize],
    fails: &[u64],
) -> Result<MemSource, AllocError> {
    Ok(MemSource::make(
        bytes.to_vec(alloc)?,
        cuts.to_vec(alloc)?,
        fails.to_vec(alloc)?,
    ))
}

fn sink_of(
    alloc: Global,
    room: usize,
    caps: &[usize],
    fails: &[u64],
) -> Result<MemSink, AllocError> {
    MemSink::make(alloc, room, caps.to_vec(alloc)?, fails.to_vec(alloc)?)
}

/// Doors that refuse each opening.
pub fn no_names(alloc: Global) -> Result<MemDoors, AllocError> {
    MemDoors::make(
        alloc,
        Vec::new(alloc),
        Vec::new(alloc),
        Vec::new(alloc),
        Vec::new(alloc),
    )
}

const UNREAD: &[u8] = b"unread";

/// Devices of a command that reads nothing of its source.
pub fn unread_devices(
    alloc: Global,
    room: usize,
    fails: &[u64],
    doors: MemDoors,
) -> Result<Devices, AllocError> {
    Ok(Devices {
        source: source_of(alloc, UNREAD, &[], &[])?,
        sink: sink_of(alloc, room, &[], fails)?,
        faults: sink_of(alloc, 64, &[], &[])?,
        doors,
    })
}

/// Whether nothing was read of their source.
pub fn are_unread(devices: &mut Devices) -> bool {
    gives(&mut devices.source, UNREAD.len())
}

/// Whether these sinks have taken these bytes.
fn hold(sinks: &[MemSink], bytes: &[&[u8]]) -> bool {
    sinks.len() == bytes.len()
        && sinks
            .iter()
            .zip(bytes)
            .all(|(sink, bytes)| sink.bytes() == *bytes)
}

/// A command that opens its devices: its words, which calls of its sink fail, and what is to come out: the bytes of each sink that
/// came back, in their order, and the rest.
#[derive(Clone, Copy)]
pub struct Opening<'a> {
    pub words: &'a [&'a str],
    pub fails: &'a [u64],
    pub outlets: &'a [&'a [u8]],
    pub wanted: Wanted<'a>,
}

/// Whether a command over these doors does what is wanted, and reads nothing of its source; and its devices then.
pub fn opens<R: Wait + Threads + Sync>(
    rt: &R,
    alloc: Global,
    command: &str,
    case: &Opening<'_>,
    doors: MemDoors,
) -> Result<(bool, Devices), AllocError> {
    let words = command_with(alloc, command, case.words)?;
    let mut devices = unread_devices(alloc, 64, case.fails, doors)?;
    let is_done = does(rt, alloc, words.as_slice(), &mut devices, &case.wanted);
    let is_unread = are_unread(&mut devices);
    let has_outlets = hold(devices.doors.outlets(), case.outlets);
    Ok((is_done && is_unread && has_outlets, devices))
}

/// The exit status of a command, if there are few enough words. Only here does the check meet the long contract of `relay_main`.
fn run<R: Wait + Threads + Sync>(
    rt: &R,
    alloc: Global,
    words: &[String],
    devices: &mut Devices,
) -> Option<u8> {
    if words.len() >= 1 << 32 {
        return None;
    }
    let status = relay_main(
        rt,
        alloc,
        words,
        &mut devices.source,
        &mut devices.sink,
        &mut devices.faults,
        &mut devices.doors,
    );
    Some(status.number())
}

/// The same by the call for commands on one thread, if the words ask for no more.
fn run_alone(alloc: Global, words: &[String], devices: &mut Devices) -> Option<u8> {
    if !is_local(words) {
        return None;
    }
    let status = relay_local(
        alloc,
        words,
        &mut devices.source,
        &mut devices.sink,
        &mut devices.faults,
    );
    Some(status.number())
}

/// Whether a command that ended so did what was wanted.
fn has_come(status: Option<u8>, devices: &Devices, wanted: &Wanted<'_>) -> bool {
    status == Some(wanted.status)
        && devices.sink.bytes() == wanted.output
        && devices.faults.bytes() == wanted.line
}

/// Whether this comes out of a command.
pub fn does<R: Wait + Threads + Sync>(
    rt: &R,
    alloc: Global,
    words: &[String],
    devices: &mut Devices,
    wanted: &Wanted<'_>,
) -> bool {
    let status = run(rt, alloc, words, devices);
    has_come(status, devices, wanted)
}

/// Whether this comes out of a command by the call for commands on one thread.
pub fn does_alone(
    alloc: Global,
    words: &[String],
    devices: &mut Devices,
    wanted: &Wanted<'_>,
) -> bool {
    let status = run_alone(alloc, words, devices);
    has_come(status, devices, wanted)
}

/// Whether the next call of the sink fails. Which one that is tells how many were made.
pub fn fails_next(devices: &mut Devices) -> bool {
    devices.sink.flush().is_err()
}

/// Whether a read of this source gives so many bytes.
fn gives(source: &mut MemSource, count: usize) -> bool {
    let mut bytes = [0; 64];
    source.read(&mut bytes) == Ok(count)
}

/// The devices of a case of `copy` or `pump`.
fn devices_of(alloc: Global, case: &Case<'_>) -> Result<Devices, AllocError> {
    Ok(Devices {
        source: source_of(alloc, case.input, case.cuts, case.failing_reads)?,
        sink: sink_of(alloc, 131_072, case.caps, case.failing_writes)?,
        faults: sink_of(alloc, 64, &[], &[])?,
        doors: no_names(alloc)?,
    })
}

/// Whether a command does what the case says, and a read of its source gives so many bytes then, where that is asked.
pub fn holds<R: Wait + Threads + Sync>(
    rt: &R,
    alloc: Global,
    command: &str,
    case: &Case<'_>,
    left: Option<usize>,
) -> Result<bool, AllocError> {
    let words = command_with(alloc, command, case.words)?;
    let mut devices = devices_of(alloc, case)?;
    let is_done = does(rt, alloc, words.as_slice(), &mut devices, &case.wanted);
    Ok(is_done && left.is_none_or(|count| gives(&mut devices.source, count)))
}

/// Whether `copy`, by the call for commands on one thread, does what the case says.
pub fn holds_alone(alloc: Global, case: &Case<'_>) -> Result<bool, AllocError> {
    let words = command_with(alloc, "copy", case.words)?;
    let mut devices = devices_of(alloc, case)?;
    Ok(does_alone(alloc, words.as_slice(), &mut devices, &case.wanted))
}

/// Whether a command ends well and tells nothing of faults.
pub fn succeeds<R: Wait + Threads + Sync, S: Source + Send, K: Sink + Send, D: Doors>(
    rt: &R,
    alloc: Global,
    words: &[&str],
    source: &mut S,
    sink: &mut K,
    doors: &mut D,
) -> Result<bool, AllocError> {
    let words = strings(alloc, words)?;
    let mut faults = MemSink::make(alloc, 64, Vec::new(alloc), Vec::new(alloc))?;
    if words.len() >= 1 << 32 {
        return Ok(false);
    }
    let status = relay_main(
        rt,
        alloc,
        words.as_slice(),
        source,
        sink,
        &mut faults,
        doors,
    );
    Ok(status.is_clean() && faults.bytes().is_empty())
}
