//! The network of a run, polled into its table.

ghost use Rattle.std.specs.Prelude.{◌≡◌, ℕ, List, Option, IfOk};
ghost use Rattle.std.specs.declared.time.Duration.{Duration};
ghost use Rattle.std.specs.declared.time.Instant.{Instant};
ghost use Rattle.daide_io.specs.Network.{Follows, ReadsClock};
ghost use Rattle.daide_io.specs.ReadyQueue.{woken_all};
ghost use Rattle.daide_sockets.specs.Accepting.{AcceptsBeside};
ghost use Rattle.daide_sockets.specs.Table.{PollsOnce, IsPollTime, freed};
ghost use Rattle.daide_sockets.specs.Wakeups.{PollsPlaces};

use crate::table::SocketTable;
use daide_io::network::{Network, SocketEvent};
use daide_io::ready_queue::ReadyQueue;
use std::alloc::{AllocError, Allocator, Global};
use std::io;
use std::net::SocketAddr;
use std::time::Duration;

/// The most events that one poll receives; further ones are received by the next.
pub const EVENTS: usize = 256;

/// The network of a run, with the table of its sockets, and what the last poll reported.
#[derive(Drop)]
pub struct Poller<N: Network> {
    /// The network.
    pub network: N,
    /// The table.
    pub table: SocketTable,
    socket_events: Vec<SocketEvent>,
}

impl<N: Network> Poller<N> {
    /// Creates the poller of a network, and reads the clock. Fails if its memory is refused.
    pub fn new(alloc: Global, network: N, table: SocketTable) -> Result<Poller<N>, AllocError>
        ensures table { IfOk result (λ poller. poller.table ≡ record table { reading = poller.table.reading }) }
        ensures clock { IfOk result (λ poller. (reading : Option Instant)
            × N.transition network (ReadsClock reading) poller.network) }
    {
        let socket_events = Vec::with_capacity(alloc, EVENTS)?;
        let mut poller = Poller {
            network,
            table,
            socket_events,
        };
        let now = poller.network.now();
        poller.table.note_now(now);
        Ok(poller)
    }

    /// Has the network follow a connection under the key of a row, of which nothing is known then. Returns whether the
    /// system accepts that.
    pub(crate) fn follow(&mut self, connection: &mut N::Connection, key: usize) -> bool
        ensures call { N.transition self.old.network (Follows connection.old key result connection.new) self.new.network }
        ensures table { self.new.table ≡ freed self.old.table key }
    {
        self.table.release(key);
        self.network.follow(connection, key)
    }

    /// Accepts a connection, if this many further descriptors are free. Fails with the system's own error.
    pub(crate) fn accept(&mut self, descriptors: usize) -> io::Result<(N::Connection, SocketAddr)>
        ensures calls { AcceptsBeside N.transition descriptors self.old.network self.new.network result }
        ensures table { self.new.table ≡ self.old.table }
    {
        match self.network.check_descriptors(descriptors) {
            Ok(()) => self.network.accept(),
            Err(error) => Err(error),
        }
    }

    /// Returns the time of a poll: none at all if it may not block, or if something that is watched has work; otherwise the
    /// time until the nearest deadline.
    fn poll_time(&self, may_block: bool) -> Option<Duration>
        ensures { IsPollTime may_block self.now.table result }
    {
        if !may_block || self.table.has_work() {
            return Some(Duration::ZERO);
        }
        self.table.until_next()
    }

    /// Polls the network once, and reads the clock. Blocks only if it may, and if nothing that is watched has work: until a
    /// socket is ready, or until the nearest deadline.
    pub fn poll(&mut self, may_block: bool)
        ensures { (time : Option Duration) × IsPollTime may_block self.old.table time
            × (polls : PollsOnce N.transition time self.old.network self.old.table self.new.network self.new.table)
            × (polls.socket_events ≡ self.new.socket_events.items) }
    {
        let timeout = self.poll_time(may_block);
        self.network.poll(timeout, &mut self.socket_events);
        self.table.note_events(self.socket_events.as_slice());
        let now = self.network.now();
        self.table.note_now(now);
    }

    /// Polls the network once, and wakes the places for which there is something to do. Any other keeps its reports and its
    /// deadline.
    pub(crate) fn poll_for<A: Allocator>(&mut self, may_block: bool, ready: &mut ReadyQueue<A>)
        ensures { (woken : List ℕ) × (ready.new ≡ woken_all woken ready.old)
            × (time : Option Duration) × IsPollTime may_block self.old.table time
            × PollsPlaces N.transition time woken self.old.network self.old.table self.new.network self.new.table }
    {
        self.poll(may_block);
        self.table.wake(self.socket_events.as_slice(), ready);
    }
}
