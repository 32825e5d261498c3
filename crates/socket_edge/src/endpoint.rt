//! A file or a TCP stream, read from or written to.

use std::fs::File;
use std::io;
use std::io::{Read, Write};
use std::net::{Shutdown, TcpStream};

/// An open file, or this side of a TCP connection. It is closed where it is dropped.
#[derive(Debug, Drop)]
pub enum Endpoint {
    File(File),
    Stream(TcpStream),
}

impl Endpoint {
    /// A stream that sends at once what is written to it, also where that is little.
    pub(crate) fn of_stream(stream: TcpStream) -> Self {
        // Where the system refuses this, small frames are sent later, and nothing else changes.
        let _ = stream.set_nodelay(true);
        Endpoint::Stream(stream)
    }

    /// Shows a peer that nothing more will be written.
    ///
    /// Closing alone would tell it of a connection that was cut off, where it has sent something that nobody read.
    pub(crate) fn end(self) {
        if let Endpoint::Stream(stream) = self {
            let _ = stream.shutdown(Shutdown::Write);
        }
    }
}

impl Read for Endpoint {
    fn read(&mut self, buf: &mut [u8]) -> io::Result<usize> {
        match self {
            Endpoint::File(file) => file.read(buf),
            Endpoint::Stream(stream) => stream.read(buf),
        }
    }
}

impl Write for Endpoint {
    fn write(&mut self, buf: &[u8]) -> io::Result<usize> {
        match self {
            Endpoint::File(file) => file.write(buf),
            Endpoint::Stream(stream) => stream.write(buf),
        }
    }

    fn flush(&mut self) -> io::Result<()> {
        match self {
            Endpoint::File(file) => file.flush(),
            Endpoint::Stream(stream) => stream.flush(),
        }
    }
}
