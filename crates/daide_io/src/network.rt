//! What a process asks of the operating system for its sockets, beside the reads and writes of a connection (`Duplex`).
//!
//! A network has a listener for bots, and may have one for the connections by which an operator controls the run. Each socket that it follows has a key, by which a poll names it. No call but `poll`
//! blocks, and none decides anything: what is asked, and when, is the caller's choice.

ghost use Rattle.std.specs.Prelude.{◌≡◌};
ghost use Rattle.daide_io.specs.Network.{NetworkCall, ReadsClock, Polls, Listens, ChecksDescriptors, AcceptsConnection};
ghost use Rattle.daide_io.specs.Streams.{IsSameStream};
ghost use Rattle.daide_io.specs.Network.{StopsListening, ListensForControl, AcceptsControl, BeginsConnect, Follows, AsksConnect};
ghost use Rattle.daide_io.specs.Network.{connect_status};

use crate::duplex::Duplex;
use std::io;
use std::io::ErrorKind;
use std::net::SocketAddr;
use std::time::{Duration, Instant};

/// What a poll reports of one socket, as the system reports it. A report may be spurious: the call that follows may still
/// block.
#[derive(Clone, Copy)]
pub struct SocketEvent {
    /// The key of the socket.
    pub key: usize,
    /// Whether a read, or a listener's accept, may succeed.
    pub is_readable: bool,
    /// Whether a write may accept bytes.
    pub is_writable: bool,
    /// Whether the peer ended what it sends.
    pub is_read_closed: bool,
    /// Whether the peer accepts nothing more.
    pub is_write_closed: bool,
    /// Whether the socket failed.
    pub is_error: bool,
    /// Whether an urgent byte came.
    pub is_priority: bool,
}

/// What the system reports of a connect.
#[derive(Clone, Copy)]
pub struct ConnectReport {
    /// Why the connect failed, or why the system does not say whether it did.
    pub failure: Option<ErrorKind>,
    /// Whether the socket has a peer.
    pub has_peer: bool,
}

/// The state of a connect.
#[derive(Clone, Copy)]
pub enum ConnectStatus {
    /// The peer is connected.
    Connected,
    /// The connect failed.
    Failed,
    /// The system has no result yet.
    Pending,
}

impl ConnectReport {
    /// Returns the state of the connect: it failed if a failure is reported, and otherwise it is pending until it has a peer.
    pub fn status(self) -> ConnectStatus
        ensures { result ≡ connect_status self.failure self.has_peer }
    {
        match self.failure {
            Some(_) => ConnectStatus::Failed,
            None if self.has_peer => ConnectStatus::Connected,
            None => ConnectStatus::Pending,
        }
    }
}

/// The sockets of the operating system, and its clock, as a process calls them.
///
/// Contracts of a caller speak of the calls with their results. Each implementor defines the effect of a call on
/// itself: a network in memory says what arrives, and that of the operating system relates any two values.
pub trait Network: Drop {
    /// A connection, as a stream.
    type Connection: Duplex + Drop;

    /// The effect of a call with its result on the network.
    ghost transition: { Self → NetworkCall Self.Connection → Self → Type 0 };

    /// Reads the clock; `None` if it cannot be read.
    fn now(&mut self) -> Option<Instant>
        ensures { transition self.old (ReadsClock result) self.new };

    /// Waits until a socket that is followed is ready, at most for `timeout`; without one, for ever. Replaces `socket_events` by
    /// the reports, at most as many as it has room for. A poll that fails reports nothing.
    fn poll(&mut self, timeout: Option<Duration>, socket_events: &mut Vec<SocketEvent>)
        ensures { transition self.old (Polls timeout socket_events.new.items) self.new };

    /// Follows the listener under this key. Returns whether the system accepts that.
    fn listen(&mut self, key: usize) -> bool
        ensures { transition self.old (Listens key result) self.new };

    /// Finds out whether this many further descriptors are free. They still are once it returns.
    ///
    /// Fails with the system's own error.
    fn check_descriptors(&mut self, count: usize) -> io::Result<()>
        ensures { transition self.old (ChecksDescriptors count result) self.new };

    /// Accepts a connection, and returns it with its peer's address.
    ///
    /// Fails with `WouldBlock` if there is none, or with the system's own error.
    fn accept(&mut self) -> io::Result<(Self::Connection, SocketAddr)>
        ensures { transition self.old (AcceptsConnection result) self.new };

    /// Closes the listener for bots: the system accepts no further connection for it. An accept then returns none.
    fn stop_listening(&mut self)
        ensures { transition self.old StopsListening self.new };

    /// Follows the listener for control connections under this key. Returns whether the system accepts that; `None` if
    /// the network has no such listener.
    fn listen_for_control(&mut self, key: usize) -> Option<bool>
        ensures { transition self.old (ListensForControl key result) self.new };

    /// Accepts a control connection.
    ///
    /// Fails with `WouldBlock` if there is none, or with the system's own error.
    fn accept_control(&mut self) -> io::Result<Self::Connection>
        ensures { transition self.old (AcceptsControl result) self.new };

    /// Begins a connect to this address. Its result comes later (`connect_report`).
    ///
    /// Fails with the system's own error.
    fn connect(&mut self, address: SocketAddr) -> io::Result<Self::Connection>
        ensures { transition self.old (BeginsConnect address result) self.new };

    /// Follows a connection under this key. Returns whether the system accepts that.
    fn follow(&mut self, connection: &mut Self::Connection, key: usize) -> bool
        ensures { transition self.old (Follows connection.old key result connection.new) self.new };

    /// Follows a connection, which was followed under another key, under this one from now on. What is ready already is
    /// reported again. Returns whether the system accepts that; if not, nothing more is reported of the connection.
    fn refollow(&mut self, connection: &mut Self::Connection, key: usize) -> bool
        ensures call { transition self.old (Follows connection.old key result connection.new) self.new }
        ensures same { IsSameStream Self.Connection.to_give Self.Connection.taken Self.Connection.calls connection.old
            connection.new };

    /// Returns what the system reports of a connection's connect.
    fn connect_report(&mut self, connection: &Self::Connection) -> ConnectReport
        ensures { transition self.old (AsksConnect connection.now result) self.new };

    /// Returns the address from which a connection was made; `None` if the system does not say.
    fn local_address(&self, connection: &Self::Connection) -> Option<SocketAddr>;
}
