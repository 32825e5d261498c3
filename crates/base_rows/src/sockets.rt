//! Files in the system's folder for temporary ones, and connections over loopback.

use edge_core::{DoorError, Doors, Sink, Source};
use socket_edge::RealDoors;
use std::alloc::Global;
use std::net::TcpListener;
use std::test::Fail;
use std::{env, fs, io, process};

/// The path of a temporary file that no other program uses.
fn temporary(rt: &HostRuntime, name: &str) -> io::Result<String> {
    let folder = env::temp_dir(rt)?;
    let number = process::id(rt.process());
    Ok(format!(in rt.alloc(); "{}/{name} {number}", folder.as_str())?)
}

/// An address of this machine at which nobody listens.
fn free_address(rt: &HostRuntime) -> io::Result<String> {
    let port = TcpListener::bind(rt, "127.0.0.1:0")?.local_addr()?.port();
    Ok(format!(in rt.alloc(); "127.0.0.1:{port}")?)
}

/// Whether a name is opened, three bytes are read of it and two are written.
fn passes<D: Doors>(doors: &mut D, alloc: Global, name: &str) -> Result<bool, DoorError> {
    let mut inlet = doors.inlet(alloc, name)?;
    let mut outlet = doors.outlet(alloc, name)?;
    let mut buf = [0; 8];
    let is_read = inlet.read(&mut buf) == Ok(3) && buf.starts_with(b"abc");
    let is_at_end = inlet.read(&mut buf) == Ok(0);
    let is_written = outlet.write(b"xy") == Ok(2);
    doors.give_inlet(inlet);
    doors.give_outlet(outlet);
    Ok(is_read && is_at_end && is_written)
}

#[test]
fn a_name_has_its_file_and_an_output_that_is_made_anew(rt: HostRuntime) -> Result<(), Fail> {
    let alloc = rt.alloc();
    let name = temporary(&rt, "a name")?;
    let output = format!(in alloc; "{name}.out")?;
    fs::write(&rt, name.as_str(), "abc")?;
    fs::write(&rt, output.as_str(), "more than is to come")?;
    assert!(rt; passes(&mut RealDoors::new(rt), alloc, name.as_str()) == Ok(true));
    assert!(rt; fs::read(&rt, output.as_str())?.as_slice() == b"xy".as_slice());
    fs::remove_file(&rt, name.as_str())?;
    fs::remove_file(&rt, output.as_str())?;
    Ok(())
}

#[test]
fn a_peer_may_connect_before_it_is_accepted_and_sees_the_end(rt: HostRuntime) -> Result<(), Fail> {
    let alloc = rt.alloc();
    let address = free_address(&rt)?;
    let mut doors = RealDoors::new(rt);
    doors.listen(alloc, address.as_str())?;
    let mut outlet = doors.connect(alloc, address.as_str())?;
    let mut inlet = doors.accept(alloc)?;
    assert!(rt; outlet.write(b"hi") == Ok(2));
    doors.give_outlet(outlet);
    let mut buf = [0; 8];
    assert!(rt; inlet.read(&mut buf) == Ok(2));
    assert!(rt; inlet.read(&mut buf) == Ok(0));
    doors.give_inlet(inlet);
    Ok(())
}

// Of both sides of a connection, the one that closes first keeps its port for a while.
#[test]
fn a_port_that_was_just_left_can_be_taken_again(rt: HostRuntime) -> Result<(), Fail> {
    let alloc = rt.alloc();
    let address = free_address(&rt)?;
    for _ in 0..2 {
        let mut doors = RealDoors::new(rt);
        doors.listen(alloc, address.as_str())?;
        let outlet = doors.connect(alloc, address.as_str())?;
        let inlet = doors.accept(alloc)?;
        doors.give_inlet(inlet);
        doors.give_outlet(outlet);
    }
    Ok(())
}

#[test]
fn what_the_system_refuses_is_a_failed_opening(rt: HostRuntime) -> Result<(), Fail> {
    let alloc = rt.alloc();
    let missing = temporary(&rt, "missing/name")?;
    let mut doors = RealDoors::new(rt);
    assert!(rt; doors.inlet(alloc, missing.as_str()).err() == Some(DoorError::Failed));
    assert!(rt; doors.outlet(alloc, missing.as_str()).err() == Some(DoorError::Failed));
    assert!(rt; doors.connect(alloc, "127.0.0.1:1").err() == Some(DoorError::Failed));
    assert!(rt; doors.listen(alloc, "nowhere") == Err(DoorError::Failed));
    Ok(())
}
