//! A connection of the operating system, as a full-duplex byte stream.

use daide_io::duplex::Duplex;
use mio::net::{TcpStream, UnixStream};
use std::io;
use std::io::{Read, Write};
use std::net::Shutdown;

/// A connection of the operating system: of a bot or the server, or one by which an operator controls the run. It records
/// neither its bytes nor its calls.
#[derive(Drop)]
pub enum Connection {
    /// To a bot or to the server.
    Tcp(TcpStream),
    /// To a client of the control socket.
    Control(UnixStream),
}

impl Duplex for Connection {
    ghost use Rattle.std.specs.Prelude.{None};

    ghost to_give = { λ _. None };

    ghost taken = { λ _. None };

    ghost calls = { λ _. None };

    fn read(&mut self, buffer: &mut [u8]) -> io::Result<usize> {
        match self {
            Connection::Tcp(stream) => stream.read(buffer),
            Connection::Control(stream) => stream.read(buffer),
        }
    }

    fn write(&mut self, bytes: &[u8]) -> io::Result<usize> {
        match self {
            Connection::Tcp(stream) => stream.write(bytes),
            Connection::Control(stream) => stream.write(bytes),
        }
    }

    fn end_writing(&mut self) {
        // A connection that is gone already has no writing direction to shut down.
        let _ = match self {
            Connection::Tcp(stream) => stream.shutdown(Shutdown::Write),
            Connection::Control(stream) => stream.shutdown(Shutdown::Write),
        };
    }
}
