//! The network of the operating system: `Network` over `mio` and `std`.
//!
//! A poll passes on each event that it received (`PassesOn`). Of the other calls no clause says what the system does, so this
//! module is trusted. Each call passes on what it is given, and returns what the system returns. Nothing is decided here.

ghost use Rattle.std.specs.Prelude.{◌≡◌, OnOk, OnErr, map};
ghost use Rattle.mio.specs.Events.{items};
ghost use Rattle.daide_causes.specs.Causes.{WasRefused};
ghost use Rattle.daide_sockets.specs.OsEvents.{PassesOn, socket_event_of};

use crate::connection::Connection;
use daide_causes::Growth;
use daide_frame::Memory;
use daide_io::network::{ConnectReport, Network, SocketEvent};
use mio::event::Event;
use mio::net::{TcpListener, TcpStream, UnixListener};
use mio::{Events, Interest, Poll, Registry, Token};
use std::alloc::{AllocError, Global};
use std::io;
use std::io::ErrorKind;
use std::net::{Net, SocketAddr};
use std::rt::Clock;
use std::time::{Duration, Instant};

/// The sockets and the clock of the operating system, with a listener for bots, and one for control connections if there
/// is a control socket.
#[derive(Drop)]
pub struct OsNetwork<'r, R: Clock + Net> {
    runtime: &'r R,
    /// The listener for bots; `None` once it is closed.
    listener: Option<TcpListener>,
    /// The listener for control connections; `None` if the run has no control socket.
    control: Option<UnixListener>,
    registry: Registry,
    poll: Poll,
    events: Events,
    /// Further descriptors, while it is checked that they are free.
    probes: Vec<Registry>,
}

/// Why there is no network.
#[derive(Clone, Copy)]
pub enum NetworkError {
    /// The system has no descriptor for it, with its error.
    System(ErrorKind),
    /// The allocator refused it.
    Memory,
}

/// Returns what the system reports of one socket.
fn socket_event(event: &Event) -> SocketEvent
    ensures { result ≡ socket_event_of event.now }
{
    let Token(key) = event.token();
    SocketEvent {
        key,
        is_readable: event.is_readable(),
        is_writable: event.is_writable(),
        is_read_closed: event.is_read_closed(),
        is_write_closed: event.is_write_closed(),
        is_error: event.is_error(),
        is_priority: event.is_priority(),
    }
}

/// Replaces a list by the reports of these events, in their order. Fails if the list has no room and its growth is refused.
fn pass_on<A: Growth>(
    events: &[Event],
    socket_events: &mut Vec<SocketEvent, A>,
) -> Result<(), AllocError>
    ensures all { OnOk result (socket_events.new.items ≡ map socket_event_of events.now) }
    ensures refused { OnErr result (WasRefused A.Refuses) }
{
    socket_events.clear();
    for event in events {
        A::append(socket_events, &[socket_event(event)])?;
    }
    Ok(())
}

/// Turns off the delay of small writes. A connection that delays them is slower, but correct.
fn undelayed(stream: TcpStream) -> Connection {
    let _ = stream.set_nodelay(true);
    Connection::Tcp(stream)
}

impl<'r, R: Clock + Net> OsNetwork<'r, R> {
    /// Creates a network with this listener for bots, without a control socket. Allocates its
    /// descriptors and its memory at once: a poll reports at most `events`.
    ///
    /// Fails with `System`, then with `Memory`.
    pub fn new(
        alloc: Global,
        runtime: &'r R,
        listener: TcpListener,
        events: usize,
    ) -> Result<OsNetwork<'r, R>, NetworkError> {
        let poll = match Poll::new(runtime) {
            Ok(poll) => poll,
            Err(error) => return Err(NetworkError::System(error.kind())),
        };
        let registry = match poll.registry().try_clone() {
            Ok(registry) => registry,
            Err(error) => return Err(NetworkError::System(error.kind())),
        };
        let Ok(events) = Events::with_capacity(alloc, events) else {
            return Err(NetworkError::Memory);
        };
        Ok(OsNetwork {
            runtime,
            listener: Some(listener),
            control: None,
            registry,
            poll,
            events,
            probes: Vec::new(alloc),
        })
    }

    /// Takes this many further descriptors.
    fn probe(&mut self, count: usize) -> io::Result<()> {
        for _ in 0..count {
            let probe = self.registry.try_clone()?;
            if self.probes.push(probe).is_err() {
                return Err(ErrorKind::OutOfMemory.into());
            }
        }
        Ok(())
    }

    /// Sets the listener of the control socket, before the sockets of a run are created over the network.
    pub fn set_control(&mut self, listener: UnixListener) {
        self.control = Some(listener);
    }
}

impl<R: Clock + Net> Network for OsNetwork<'_, R> {
    type Connection = Connection;

    ghost transition = { λ _ call new. PassesOn ⟦<Global as Memory>⟧.Refuses (items new.events) call };

    fn now(&mut self) -> Option<Instant> {
        Instant::now(self.runtime).ok()
    }

    fn poll(&mut self, timeout: Option<Duration>, socket_events: &mut Vec<SocketEvent>) {
        // A failed poll has no events.
        let _ = self.poll.poll(&mut self.events, timeout);
        // The caller has room for as many as a poll reports.
        let _ = pass_on(self.events.iter().as_slice(), socket_events);
    }

    fn listen(&mut self, key: usize) -> bool {
        match &mut self.listener {
            Some(listener) => self
                .registry
                .register(listener, Token(key), Interest::READABLE)
                .is_ok(),
            None => false,
        }
    }

    fn check_descriptors(&mut self, count: usize) -> io::Result<()> {
        let checked = self.probe(count);
        self.probes.clear();
        checked
    }

    fn accept(&mut self) -> io::Result<(Connection, SocketAddr)> {
        let Some(listener) = &self.listener else {
            return Err(ErrorKind::WouldBlock.into());
        };
        let (stream, address) = listener.accept()?;
        Ok((undelayed(stream), address))
    }

    fn stop_listening(&mut self) {
        self.listener = None;
    }

    fn listen_for_control(&mut self, key: usize) -> Option<bool> {
        let Some(listener) = &mut self.control else {
            return None;
        };
        let followed = self
            .registry
            .register(listener, Token(key), Interest::READABLE);
        Some(followed.is_ok())
    }

    fn accept_control(&mut self) -> io::Result<Connection> {
        let Some(listener) = &self.control else {
            return Err(ErrorKind::WouldBlock.into());
        };
        let (stream, _address) = listener.accept()?;
        Ok(Connection::Control(stream))
    }

    fn connect(&mut self, address: SocketAddr) -> io::Result<Connection> {
        Ok(undelayed(TcpStream::connect(self.runtime, address)?))
    }

    fn follow(&mut self, connection: &mut Connection, key: usize) -> bool {
        // A read stops before an urgent byte, which is reported as a priority event.
        let interest = Interest::READABLE | Interest::WRITABLE | Interest::PRIORITY;
        match connection {
            Connection::Tcp(stream) => self.registry.register(stream, Token(key), interest).is_ok(),
            Connection::Control(stream) => {
                self.registry.register(stream, Token(key), interest).is_ok()
            }
        }
    }

    fn refollow(&mut self, connection: &mut Connection, key: usize) -> bool {
        let interest = Interest::READABLE | Interest::WRITABLE | Interest::PRIORITY;
        match connection {
            Connection::Tcp(stream) => self
                .registry
                .reregister(stream, Token(key), interest)
                .is_ok(),
            Connection::Control(stream) => self
                .registry
                .reregister(stream, Token(key), interest)
                .is_ok(),
        }
    }

    fn connect_report(&mut self, connection: &Connection) -> ConnectReport {
        match connection {
            Connection::Tcp(stream) => ConnectReport {
                failure: match stream.take_error() {
                    Ok(failure) => failure.map(|error| error.kind()),
                    Err(error) => Some(error.kind()),
                },
                has_peer: stream.peer_addr().is_ok(),
            },
            // Only connects to the server have a state.
            Connection::Control(_) => ConnectReport {
                failure: Some(ErrorKind::NotConnected),
                has_peer: false,
            },
        }
    }

    fn local_address(&self, connection: &Connection) -> Option<SocketAddr> {
        match connection {
            Connection::Tcp(stream) => stream.local_addr().ok(),
            Connection::Control(_) => None,
        }
    }
}
