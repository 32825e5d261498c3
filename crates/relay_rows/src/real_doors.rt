//! A command between connections, opened by doors over the system's.

use crate::case::succeeds;
use edge_core::{Doors, NoDoors};
use socket_edge::RealDoors;
use std::io;
use std::io::{Read, Write};
use std::net::{Shutdown, TcpListener, TcpStream};
use std::test::Fail;

/// An address of this machine at which nobody listens.
fn free_address(rt: &HostRuntime) -> io::Result<String> {
    address_of(rt, &TcpListener::bind(rt, "127.0.0.1:0")?)
}

fn address_of(rt: &HostRuntime, listener: &TcpListener) -> io::Result<String> {
    let port = listener.local_addr()?.port();
    Ok(format!(in rt.alloc(); "127.0.0.1:{port}")?)
}

// What the target sends is never read. It sees the end of the stream all the same, and no connection that was cut off.
#[test]
fn two_frames_go_from_a_client_to_a_target(rt: HostRuntime) -> Result<(), Fail> {
    let alloc = rt.alloc();
    let target = TcpListener::bind(&rt, "127.0.0.1:0")?;
    let address = free_address(&rt)?;
    let mut doors = RealDoors::new(rt);
    doors.listen(alloc, address.as_str())?;
    let mut client = TcpStream::connect(&rt, address.as_str())?;
    client.write_all(b"\0\0\0\x02hi\0\0\0\x05hello")?;
    client.shutdown(Shutdown::Write)?;
    let mut inlet = doors.accept(alloc)?;
    let mut outlet = doors.connect(alloc, address_of(&rt, &target)?.as_str())?;
    let (mut peer, _) = target.accept()?;
    peer.write_all(b"unread")?;
    let words = ["copy", "len4", "line"];
    assert!(rt;
        succeeds(
            &rt,
            alloc,
            &words,
            &mut inlet,
            &mut outlet,
            &mut NoDoors::new()
        )?
    );
    doors.give_inlet(inlet);
    doors.give_outlet(outlet);
    let mut frames = Vec::new(alloc);
    peer.read_to_end(&mut frames)?;
    assert!(rt; frames.as_slice() == b"hi\nhello\n".as_slice());
    Ok(())
}
