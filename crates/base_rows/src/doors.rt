//! Doors in memory, and doors that open nothing.

ghost use Rattle.std.specs.Prelude.{◌≡◌, IfOk};
ghost use Rattle.edge_core.specs.MemDoors.{IsFresh, name_of};

use edge_core::{DoorError, Doors, Failed, MemDoors, MemSink, MemSource, NoDoors, Sink, Source};
use std::alloc::{AllocError, Global};
use std::fmt::Write as _;
use std::test::Fail;

#[test]
fn the_texts_of_a_door_error(rt: HostRuntime) -> Result<(), Fail> {
    let mut text = String::new(rt.alloc());
    write!(text, "{}, {}", DoorError::Failed, DoorError::OutOfMemory)?;
    assert!(rt; text.as_str() == "door failed, out of memory");
    Ok(())
}

// What came of some calls: the bytes that were read, how many were written, or why a door didn't open.
#[derive(Clone, Copy, PartialEq, Eq)]
struct Passed {
    read: Result<usize, Failed>,
    written: Result<usize, Failed>,
}

const WHOLE: Passed = Passed {
    read: Ok(5),
    written: Ok(5),
};

// Opens the devices of a name, moves some bytes from one to the other, and gives them back.
fn pass_name<D: Doors>(
    doors: &mut D,
    alloc: Global,
    name: &str,
    buf: &mut [u8],
) -> Result<Passed, DoorError> {
    let mut inlet = doors.inlet(alloc, name)?;
    let mut outlet = doors.outlet(alloc, name)?;
    let read = inlet.read(buf);
    let written = outlet.write(buf);
    doors.give_inlet(inlet);
    doors.give_outlet(outlet);
    Ok(Passed { read, written })
}

// Does the same with the next connection.
fn pass_connection<D: Doors>(
    doors: &mut D,
    alloc: Global,
    address: &str,
    buf: &mut [u8],
) -> Result<Passed, DoorError> {
    doors.listen(alloc, address)?;
    let mut inlet = doors.accept(alloc)?;
    let mut outlet = doors.connect(alloc, address)?;
    let read = inlet.read(buf);
    let written = outlet.write(buf);
    doors.give_inlet(inlet);
    doors.give_outlet(outlet);
    Ok(Passed { read, written })
}

#[test]
fn no_doors_open_nothing(rt: HostRuntime) {
    let alloc = rt.alloc();
    let mut doors = NoDoors::new();
    let mut buf = [9; 5];
    assert!(rt; pass_name(&mut doors, alloc, "a", &mut buf) == Err(DoorError::Failed));
    assert!(rt; pass_connection(&mut doors, alloc, "a", &mut buf) == Err(DoorError::Failed));
    assert!(rt; doors.outlet(alloc, "a").err() == Some(DoorError::Failed));
    assert!(rt; doors.connect(alloc, "a").err() == Some(DoorError::Failed));
}

// A name with a source of these bytes and a sink.
fn named(
    alloc: Global,
    name: &str,
    content: &[u8],
) -> Result<(String, MemSource, MemSink), AllocError>
    ensures name { IfOk result (λ devices. name_of devices ≡ name.now) }
    ensures fresh { IfOk result IsFresh }
{
    Ok((
        String::from_str(alloc, name)?,
        MemSource::make(content.to_vec(alloc)?, Vec::new(alloc), Vec::new(alloc)),
        MemSink::make(alloc, 16, Vec::new(alloc), Vec::new(alloc))?,
    ))
}

// Doors with the names a and b, whose opening calls of this number fail.
fn two_names(alloc: Global, failing_call: u64) -> Result<MemDoors, AllocError> {
    let mut names = Vec::new(alloc);
    names.push(named(alloc, "a", &[0, 0, 0, 1, 97])?)?;
    names.push(named(alloc, "b", &[0, 0, 0, 5, 104])?)?;
    MemDoors::make(
        alloc,
        names,
        Vec::new(alloc),
        Vec::new(alloc),
        vec![in alloc; failing_call]?,
    )
}

// Whether one sink has come back, which took these bytes.
fn has_come_back(sinks: &[MemSink], bytes: &[u8]) -> bool {
    match sinks.first() {
        Some(sink) => sinks.len() == 1 && sink.bytes() == bytes,
        None => false,
    }
}

#[test]
fn a_name_is_opened_once_and_its_sink_is_kept(rt: HostRuntime) -> Result<(), Fail> {
    let alloc = rt.alloc();
    let mut doors = two_names(alloc, 4)?;
    let steps: [(&str, Result<Passed, DoorError>, [u8; 5]); 4] = [
        ("b", Ok(WHOLE), [0, 0, 0, 5, 104]),
        ("b", Err(DoorError::Failed), [9; 5]),
        ("a", Err(DoorError::Failed), [9; 5]),
        ("c", Err(DoorError::Failed), [9; 5]),
    ];
    for (name, answer, bytes) in steps {
        let mut buf = [9; 5];
        assert!(rt; pass_name(&mut doors, alloc, name, &mut buf) == answer);
        assert!(rt; buf == bytes);
    }
    assert!(rt; doors.outlet(alloc, "a").is_ok());
    assert!(rt; has_come_back(doors.outlets(), &[0, 0, 0, 5, 104]));
    Ok(())
}

// Doors with one connection to accept, and one to make.
fn one_connection(alloc: Global) -> Result<MemDoors, AllocError> {
    let (_, source, sink) = named(alloc, "", &[0, 0, 0, 2, 104])?;
    let mut accepted = Vec::new(alloc);
    accepted.push(source)?;
    let mut connected = Vec::new(alloc);
    connected.push(sink)?;
    MemDoors::make(alloc, Vec::new(alloc), accepted, connected, Vec::new(alloc))
}

#[test]
fn a_connection_is_accepted_once(rt: HostRuntime) -> Result<(), Fail> {
    let alloc = rt.alloc();
    let mut doors = one_connection(alloc)?;
    let mut buf = [9; 5];
    assert!(rt; pass_connection(&mut doors, alloc, "l", &mut buf) == Ok(WHOLE));
    assert!(rt; buf == [0, 0, 0, 2, 104]);
    assert!(rt; pass_connection(&mut doors, alloc, "l", &mut buf) == Err(DoorError::Failed));
    assert!(rt; doors.connect(alloc, "t").err() == Some(DoorError::Failed));
    assert!(rt; has_come_back(doors.outlets(), &[0, 0, 0, 2, 104]));
    Ok(())
}
