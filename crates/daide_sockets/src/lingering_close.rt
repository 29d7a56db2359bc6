//! Closing in stages, so that the last message of a session isn't destroyed by a reset.
//!
//! Closing a socket with unread bytes of its peer resets the connection, and the last bytes written may never arrive.
//! So the buffered bytes are written, and writing is shut down. Then the bytes received are dropped, within bounds, and
//! the socket is closed. If the peer doesn't read, the buffered bytes are written once it does.

ghost use Rattle.std.specs.Prelude.{◌≡◌, ◌⊎◌, ℕ, ◌+◌, ◌<◌, ◌≤◌, List, Option, [], ◌∷◌, ◌++◌, length, min, remove, true, false};
ghost use Rattle.std.specs.Prelude.{IfOk};
ghost use Rattle.daide_io.specs.declared.ports.Pull.{Pull};
ghost use Rattle.daide_io.specs.Ports.{AppendsTo};
ghost use Rattle.daide_io.specs.Streams.{IsSameStream, StreamCall, WritingEnded};
ghost use Rattle.daide_buffered_io.specs.Buffers.{Passes, ReadsNothing, WritesNothing, with_stream};
ghost use Rattle.daide_sockets.specs.Accepting.{FollowsAtMostOnce};
ghost use Rattle.daide_sockets.specs.PollTimes.{may_close_on, closing_due, stage_due, closings_armed};
ghost use Rattle.daide_sockets.specs.Finishing.{FinishesAll, WaitsOnce};
ghost use Rattle.daide_sockets.specs.Table.{arming_all};
ghost use Rattle.daide_sockets.specs.Lingering.{ClosingStream, ClosingList, IsClosingBound, begins_closing, no_closing, TriesWriting, WritesOut};
ghost use Rattle.daide_sockets.specs.Lingering.{Discards, is_released, LingersOn, LeavesNow, with_report, LooksAtOne, LooksAlong};
ghost use Rattle.daide_sockets.specs.Lingering.{in_pass, LooksAround, GoOnFor};
ghost use Rattle.daide_sockets.specs.Pairing.{ClosesAt, ClosesBothAt, with_room};
ghost use Rattle.daide_sockets.specs.Rows.{AreRowsOf, KeepsClosingRows, closing_keys};
ghost use Rattle.daide_sockets.specs.Scheduling.{pair_of};
ghost use Rattle.daide_sockets.specs.Table.{IsFull, TakesRow, freed, report_at, arming, without_report, without_reports};

use crate::clock::{after, earlier, is_past, is_time_over};
use crate::poller::Poller;
use crate::ports::SocketPorts;
use crate::socket::Socket;
use crate::table::{SocketTable, merged};
use daide_buffered_io::dropping::Dropping;
use daide_io::duplex::Duplex;
use daide_io::network::Network;
use std::alloc::{AllocError, Global};
use std::marker::Model;
use std::time::{Duration, Instant};

/// The most bytes that are read from one socket and dropped.
const MOST_DROPPED: usize = 1 << 20;

/// The number of seconds for which the peer's end is awaited.
const SECONDS: u64 = 1;

/// The most sockets that one round advances, so that closing sockets don't delay active ones.
const MOST_LOOKS: usize = 8;

/// The most sockets that close at once. A further one closes the oldest.
pub const MOST_CLOSING: usize = 256;

/// Returns the bound of a closing that begins at this reading of the clock: the stall timeout and the time for the peer's
/// end later. `None` for never.
fn closing_bound(now: Option<Instant>, stall_time: Option<Duration>) -> Option<Instant>
    ensures { IsClosingBound now stall_time result }
{
    match stall_time {
        None => None,
        Some(time) => after(after(now, time), Duration::from_secs(SECONDS)),
    }
}

/// Has a socket followed under a row of closing sockets, of which there is one for each.
fn moved<'w, S: Duplex + Drop, N: Network<Connection = S>>(
    poller: &mut Poller<N>,
    socket: Socket<'w, S>,
) -> Socket<'w, S>
    ensures stream { result.stream ≡ with_stream socket.entry.stream result.stream.stream }
    ensures same { IsSameStream S.to_give S.taken S.calls socket.entry.stream.stream result.stream.stream }
    ensures calls { FollowsAtMostOnce N.transition socket.entry.stream.stream poller.old.network poller.new.network }
    ensures row { TakesRow poller.old.table result.key poller.new.table
        ⊎ (IsFull poller.old.table × (poller.new.table ≡ poller.old.table)) }
{
    let mut socket = socket;
    let Some(key) = poller.table.take_closing_row() else {
        return socket;
    };
    socket.move_to(poller, key);
    socket
}

/// A closing socket. Its writing is over once no buffered byte may still be written.
#[derive(Drop)]
struct LingeringClose<'w, S: Duplex + Drop> {
    socket: Socket<'w, S>,
    /// The bytes that may still be dropped.
    rest: Dropping,
    /// The moment at which it is closed at the latest, counted from the reading of the clock at which its writing was
    /// over.
    released_at: Option<Instant>,
    /// The moment at which it is closed at the latest, whatever its peer does, counted from the reading of the clock at
    /// which it began. `None` without a stall timeout.
    closes_at: Option<Instant>,
}

impl<'w, S: Duplex + Drop> Model for LingeringClose<'w, S> {
    ghost use Rattle.daide_sockets.specs.Lingering.{ClosingStream};

    ghost Value = { ClosingStream S };

    ghost view = { λ c. record {
      stream = c.socket.stream;
      key = c.socket.key;
      known = c.socket.readiness;
      stall_time = c.socket.stall_time;
      stalls_at = c.socket.stalls_at;
      quota = c.rest;
      released_at = c.released_at;
      closes_at = c.closes_at;
    } };
}

impl<'w, S: Duplex + Drop> LingeringClose<'w, S> {
    /// Begins with a socket that no session reads any more, at this reading of the clock. Its peer has this time to take
    /// bytes; `None` for ever.
    fn new(
        socket: Socket<'w, S>,
        stall_time: Option<Duration>,
        now: Option<Instant>,
    ) -> LingeringClose<'w, S>
        ensures begins { result ≡ begins_closing stall_time result.closes_at socket.entry.key socket.entry.readiness
            socket.entry.stream }
        ensures bound { IsClosingBound now stall_time result.closes_at }
    {
        let mut socket = socket;
        // Until the buffered bytes are written, the stall timeout is the only deadline.
        socket.restart_stall(stall_time);
        LingeringClose {
            socket,
            rest: Dropping::new(MOST_DROPPED),
            released_at: None,
            closes_at: closing_bound(now, stall_time),
        }
    }

    /// Shuts down writing, if all buffered bytes are written. After a failed write there is nothing to shut down.
    fn shut_down(&mut self)
        ensures passes { Passes S.to_give S.taken self.old.stream [] [] self.new.stream }
        ensures unread { ReadsNothing S.to_give self.old.stream self.new.stream }
        ensures unwritten { WritesNothing S.taken self.old.stream self.new.stream }
        ensures failed { self.new.stream.has_failed ≡ self.old.stream.has_failed }
        ensures stays { (self.new.quota ≡ self.old.quota) × (self.new.released_at ≡ self.old.released_at) }
        ensures bound { self.new.closes_at ≡ self.old.closes_at }
        ensures stalls { (self.new.stall_time ≡ self.old.stall_time) × (self.new.stalls_at ≡ self.old.stalls_at) }
        ensures known { (self.new.key ≡ self.old.key) × (self.new.known ≡ self.old.known) }
        ensures appended { self.old.stream.write_buffer ≡ [] → AppendsTo (S.calls self.old.stream.stream) (WritingEnded ∷ [])
            (S.calls self.new.stream.stream) }
    {
        if !self.socket.stream.is_written() {
            return;
        }
        self.socket.stream.end_writing();
    }

    /// Writes buffered bytes, as many as the stream accepts. Gives up writing if it accepts none, and the stall timeout of
    /// the peer is over at this reading of the clock. It reads nothing, and drops no byte before that.
    fn write_on(&mut self, now: Option<Instant>)
        ensures passes { Passes S.to_give S.taken self.old.stream [] [] self.new.stream }
        ensures unread { ReadsNothing S.to_give self.old.stream self.new.stream }
        ensures stays { (self.new.quota ≡ self.old.quota) × (self.new.released_at ≡ self.old.released_at) }
        ensures bound { self.new.closes_at ≡ self.old.closes_at }
        ensures tries { TriesWriting S.calls now self.old self.new }
    {
        self.socket.flush_in_time(now, true);
    }

    /// Writes the buffered bytes. Its writing is over once all are written, once a write failed, or once the peer is
    /// stalled. Then it shuts down writing, and awaits the peer's end from this reading of the clock on.
    ///
    /// `writes`: no buffered byte is dropped before its writing is over (`TriesWriting`). Each try writes all of them
    /// once. Only a failed write, or a stall timeout that is over by the reading, gives up.
    ///
    /// `appended`: writing is shut down once no byte is buffered.
    ///
    /// Not said: that no frame of the session waits for the socket then. It is read from the callers: a run retires
    /// closed sessions alone, and nothing was written to a bot that could not be joined.
    fn end_writing(&mut self, now: Option<Instant>)
        ensures writes { WritesOut S.to_give S.taken S.calls now self.old self.new }
        ensures appended { self.new.stream.write_buffer ≡ [] → (before : Option (List StreamCall))
            × AppendsTo before (WritingEnded ∷ []) (S.calls self.new.stream.stream) }
    {
        self.write_on(now);
        if self.socket.stream.has_queued() {
            return;
        }
        self.released_at = after(now, Duration::from_secs(SECONDS));
        self.shut_down();
    }

    /// Drops the next bytes of the stream, after all that its session read, and returns whether the socket is to be
    /// closed now. The stream takes nothing more.
    fn drops_last(&mut self, now: Option<Instant>) -> bool
        ensures { (pull : Pull) × Discards S.to_give S.taken S.calls pull self.old self.new
            × (result ≡ is_released now pull self.new) }
    {
        let Socket {
            stream,
            readiness,
            pool,
            ..
        } = &mut self.socket;
        let is_last = self.rest.drop_piece(stream, *pool, readiness);
        if is_last {
            return true;
        }
        is_time_over(now, self.released_at)
    }

    /// Makes a step of closing a socket, and returns false if it is to be closed now.
    ///
    /// `lingers`: it stays only while its bound is not past. While bytes are buffered for it, they are written. After that
    /// it drops a piece of the bytes received.
    ///
    /// `leaves`: before its bound it leaves only after its writing is over. Then it leaves at the stream's end, once 1 MiB
    /// was dropped, or a second later by the reading of the clock. It leaves at once if the clock can't be read
    /// (`LeavesNow`).
    fn lingers(&mut self, now: Option<Instant>) -> bool
        ensures lingers { result ≡ true → LingersOn S.to_give S.taken S.calls now self.old self.new }
        ensures leaves { result ≡ false → LeavesNow S.to_give S.taken S.calls now self.old }
        ensures key { self.new.key ≡ self.old.key }
    {
        if is_past(now, self.closes_at) {
            return false;
        }
        if self.socket.stream.has_queued() {
            self.end_writing(now);
            return true;
        }
        !self.drops_last(now)
    }

    /// Takes the report of its row.
    fn take_report(&mut self, table: &mut SocketTable)
        ensures taken { self.new ≡ with_report (report_at table.old self.old.key) self.old }
        ensures table { table.new ≡ without_report table.old self.old.key }
    {
        self.socket.take_report(table);
    }

    /// Makes a step of closing a socket (`lingers`), with the report of its row. Frees the row if it is to be closed now.
    fn goes_on(&mut self, table: &mut SocketTable, now: Option<Instant>) -> bool
        ensures lingers { result ≡ true → LingersOn S.to_give S.taken S.calls now
            (with_report (report_at table.old self.old.key) self.old) self.new }
        ensures leaves { result ≡ false → LeavesNow S.to_give S.taken S.calls now
            (with_report (report_at table.old self.old.key) self.old) }
        ensures stays { result ≡ true → table.new ≡ without_report table.old self.old.key }
        ensures frees { result ≡ false → table.new ≡ freed (without_report table.old self.old.key) self.old.key }
        ensures key { self.new.key ≡ self.old.key }
    {
        self.take_report(table);
        if self.lingers(now) {
            return true;
        }
        table.release(self.socket.key);
        false
    }

    /// Returns whether a step may do something at once.
    fn is_ready(&self, table: &SocketTable) -> bool
        ensures { result ≡ may_close_on table.now self.now }
    {
        let readiness = merged(self.socket.readiness, table.report(self.socket.key));
        if self.socket.stream.has_queued() {
            readiness.may_write
        } else {
            readiness.may_read || self.socket.stream.has_read_ahead()
        }
    }

    /// Returns the deadline of its stage: of its peer's stall timeout while buffered bytes may be written, and then of its
    /// release.
    fn stage_due(&self) -> Option<Instant>
        ensures { result ≡ stage_due self.now }
    {
        if self.socket.stream.has_queued() {
            self.socket.stalls_at()
        } else {
            self.released_at
        }
    }

    /// Returns its deadline: of its stage, or its bound, whichever is earlier.
    fn due(&self) -> Option<Instant>
        ensures { result ≡ closing_due self.now }
    {
        earlier(self.stage_due(), self.closes_at)
    }

    /// Has the next wait watch it.
    fn arm(&self, table: &mut SocketTable)
        ensures { table.new ≡ arming table.old (may_close_on table.old self.now) (closing_due self.now) }
    {
        let has_work = self.is_ready(table);
        table.arm(has_work, self.due());
    }
}

/// The closing sockets, oldest first, with room for all.
#[derive(Drop)]
struct ClosingSockets<'w, S: Duplex + Drop> {
    sockets: Vec<LingeringClose<'w, S>>,
}

impl<'w, S: Duplex + Drop> Model for ClosingSockets<'w, S> {
    ghost use Rattle.std.specs.Prelude.{◌≤◌, List, vec_len, vec_capacity};
    ghost use Rattle.daide_sockets.specs.Lingering.{ClosingStream};

    ghost Value = { List (ClosingStream S) };

    ghost view = { λ c. c.sockets.items };

    // there is room for all
    ghost invariant = { λ c. (vec_len c.sockets ≤ 256) × (256 ≤ vec_capacity c.sockets) };
}

impl<'w, S: Duplex + Drop> ClosingSockets<'w, S> {
    /// Creates an empty list, with room for all.
    fn new(alloc: Global) -> Result<ClosingSockets<'w, S>, AllocError>
        ensures { IfOk result (λ sockets. sockets ≡ []) }
    {
        Ok(ClosingSockets {
            sockets: Vec::with_capacity(alloc, MOST_CLOSING)?,
        })
    }

    /// Returns their number.
    fn len(&self) -> usize
        ensures count { result ≡ length self.now }
        ensures few { result ≤ MOST_CLOSING }
    {
        self.sockets.len()
    }

    /// Closes the oldest, and frees its row.
    fn remove_first(&mut self, table: &mut SocketTable)
        requires { 0 < length self.old }
        ensures oldest { self.new ≡ remove self.old 0 }
        ensures clock { table.new.reading ≡ table.old.reading }
        ensures rows { KeepsClosingRows table.old (closing_keys self.old) table.new (closing_keys self.new) }
    {
        let oldest = self.sockets.remove(0);
        table.release(oldest.socket.key);
    }

    /// Appends one.
    fn push(&mut self, closing: LingeringClose<'w, S>)
        requires { length self.old < MOST_CLOSING }
        ensures { self.new ≡ self.old ++ closing.entry ∷ [] }
    {
        self.sockets.push_reserved(closing);
    }

    /// Advances the socket at a position, closes it if it leaves, and returns the position of the next.
    fn look_at(&mut self, table: &mut SocketTable, now: Option<Instant>, at: usize) -> usize
        requires { at < length self.old }
        ensures looks { LooksAtOne S.to_give S.taken S.calls now at self.old result self.new }
        ensures clock { table.new.reading ≡ table.old.reading }
        ensures rows { KeepsClosingRows table.old (closing_keys self.old) table.new (closing_keys self.new) }
    {
        let closing = &mut self.sockets[at];
        if closing.goes_on(table, now) {
            return at + 1;
        }
        self.sockets.remove(at);
        at
    }

    /// Advances those from one position up to another, and returns the position of the next.
    fn look_along(
        &mut self,
        table: &mut SocketTable,
        now: Option<Instant>,
        from: usize,
        to: usize,
    ) -> usize
        requires order { from ≤ to }
        requires there { to ≤ length self.old }
        ensures looks { LooksAlong S.to_give S.taken S.calls now from to self.old result self.new }
        ensures clock { table.new.reading ≡ table.old.reading }
        ensures rows { KeepsClosingRows table.old (closing_keys self.old) table.new (closing_keys self.new) }
    {
        let mut at = from;
        for _place in from..to {
            at = self.look_at(table, now, at);
        }
        at
    }

    /// Has the next wait watch each.
    fn arm(&self, table: &mut SocketTable)
        ensures { table.new ≡ arming_all table.old (closings_armed table.old self.now) }
    {
        for closing in self.sockets.iter() {
            closing.arm(table);
        }
    }
}

/// The closing sockets, in the order in which they began: 256 at most. A further one closes the oldest as it is
/// (`with_room`). They are advanced in passes, so that none waits for those that come after it (`in_pass`).
#[derive(Drop)]
pub struct Closings<'w, S: Duplex + Drop> {
    sockets: ClosingSockets<'w, S>,
    /// The position of the next to advance.
    next: usize,
    /// The number of sockets in this pass: those that were closing when it began.
    pass_end: usize,
    /// The stall timeout of a peer; `None` if there is none.
    stall_time: Option<Duration>,
}

impl<'w, S: Duplex + Drop> Model for Closings<'w, S> {
    ghost use Rattle.std.specs.Prelude.{◌≤◌, length};
    ghost use Rattle.daide_sockets.specs.Lingering.{ClosingList};

    ghost Value = { ClosingList S };

    ghost view = { λ c. record {
      streams = c.sockets;
      next = c.next;
      pass_end = c.pass_end;
      stall_time = c.stall_time;
    } };

    ghost invariant = { λ c. (c.next ≤ c.pass_end) × (c.pass_end ≤ length c.sockets) };
}

impl<'w, S: Duplex + Drop> Closings<'w, S> {
    /// Creates an empty list, with room for all. A peer has this time to take bytes; `None` for ever.
    pub fn new(alloc: Global, stall_time: Option<Duration>) -> Result<Closings<'w, S>, AllocError>
        ensures { IfOk result (λ closings. closings ≡ no_closing stall_time) }
    {
        Ok(Closings {
            sockets: ClosingSockets::new(alloc)?,
            next: 0,
            pass_end: 0,
            stall_time,
        })
    }

    /// Closes the oldest, if there are `MOST_CLOSING`.
    fn make_room(&mut self, table: &mut SocketTable)
        ensures last_ones { self.new ≡ with_room self.old }
        ensures room { length self.new.streams < MOST_CLOSING }
        ensures clock { table.new.reading ≡ table.old.reading }
        ensures rows { KeepsClosingRows table.old (closing_keys self.old.streams) table.new (closing_keys self.new.streams) }
    {
        if self.sockets.len() < MOST_CLOSING {
            return;
        }
        self.sockets.remove_first(table);
        self.next = self.next.saturating_sub(1);
        self.pass_end = self.pass_end.saturating_sub(1);
    }

    /// Begins to close a socket, which took the report of the row of its place, and has a row of its own from now on. If there
    /// are `MOST_CLOSING` already, the oldest is closed.
    ///
    /// `rows`: so each closing socket has a row of its own, and the row of a place is free for its next socket.
    pub fn begin<N: Network<Connection = S>>(
        &mut self,
        poller: &mut Poller<N>,
        socket: Socket<'w, S>,
    )
        ensures closes { ClosesAt S.to_give S.taken S.calls poller.old.table.reading self.old socket.entry.stream self.new }
        ensures calls { FollowsAtMostOnce N.transition socket.entry.stream.stream poller.old.network poller.new.network }
        ensures clock { poller.new.table.reading ≡ poller.old.table.reading }
        ensures rows { KeepsClosingRows poller.old.table (closing_keys self.old.streams) poller.new.table
            (closing_keys self.new.streams) }
    {
        let now = poller.table.now();
        self.make_room(&mut poller.table);
        let socket = moved(poller, socket);
        let mut closing = LingeringClose::new(socket, self.stall_time, now);
        closing.end_writing(now);
        self.sockets.push(closing);
    }

    /// Begins to close both sockets of a session, which take the reports of the rows of its place.
    pub fn begin_both<N: Network<Connection = S>>(
        &mut self,
        poller: &mut Poller<N>,
        place: usize,
        ports: SocketPorts<'w, S>,
    )
        ensures closes { ClosesBothAt S.to_give S.taken S.calls poller.old.table.reading self.old
            (pair_of ports.entry) self.new }
        ensures calls { (mid : N)
            × FollowsAtMostOnce N.transition ports.entry.sides.bot.stream.stream poller.old.network mid
            × FollowsAtMostOnce N.transition ports.entry.sides.server.stream.stream mid poller.new.network }
        ensures clock { poller.new.table.reading ≡ poller.old.table.reading }
        ensures rows { KeepsClosingRows (without_reports poller.old.table place) (closing_keys self.old.streams)
            poller.new.table (closing_keys self.new.streams) }
    {
        let mut ports = ports;
        ports.take_reports(place, &mut poller.table);
        let (bot, server) = ports.into_sockets();
        self.begin(poller, bot);
        self.begin(poller, server);
    }

    /// Begins the next pass, if all of the last one were advanced.
    fn begin_pass(&mut self)
        ensures { self.new ≡ in_pass self.old }
    {
        if self.next == self.pass_end {
            self.next = 0;
            self.pass_end = self.sockets.len();
        }
    }

    /// Advances the next few of the pass, at this reading of the clock.
    fn look_around(&mut self, table: &mut SocketTable, now: Option<Instant>)
        ensures looks { LooksAround S.to_give S.taken S.calls now (in_pass self.old) self.new }
        ensures clock { table.new.reading ≡ table.old.reading }
        ensures rows { KeepsClosingRows table.old (closing_keys self.old.streams) table.new (closing_keys self.new.streams) }
    {
        self.begin_pass();
        let came_since = self.sockets.len() - self.pass_end;
        let to = self.pass_end.min(self.next + MOST_LOOKS);
        self.next = self.sockets.look_along(table, now, self.next, to);
        self.pass_end = self.sockets.len() - came_since;
    }

    /// Advances the next few: eight of the pass, or those that are left of it (`LooksAround`).
    pub fn advance(&mut self, table: &mut SocketTable)
        ensures looks { LooksAround S.to_give S.taken S.calls table.old.reading (in_pass self.old) self.new }
        ensures clock { table.new.reading ≡ table.old.reading }
        ensures rows { KeepsClosingRows table.old (closing_keys self.old.streams) table.new (closing_keys self.new.streams) }
    {
        // Most rounds have no closing socket.
        if self.sockets.len() == 0 {
            return;
        }
        let now = table.now();
        self.look_around(table, now);
    }

    /// Makes the same rounds until no socket closes, or until 2^64 - 1 rounds were made, and waits between them
    /// (`GoOnFor`). So at the end of a run a socket is closed as in any round: after its bytes are written, after a write
    /// that failed, or once its time is over.
    ///
    /// `readings`: each round is at the last reading of the clock, and the wait after it watches each socket.
    pub fn finish<N: Network>(&mut self, poller: &mut Poller<N>)
        ensures rounds { (rounds : ℕ) × GoOnFor S.to_give S.taken S.calls rounds self.old self.new
            × ((self.new.streams ≡ []) ⊎ (rounds ≡ u64.MAX)) }
        ensures readings { FinishesAll N.transition S.to_give S.taken S.calls u64.MAX poller.old.network
            poller.old.table.reading self.old self.new }
        ensures rows { AreRowsOf poller.old.table (closing_keys self.old.streams) →
            AreRowsOf poller.new.table (closing_keys self.new.streams) }
    {
        // No place is woken any more.
        poller.table.forget_places();
        for _round in 0..u64::MAX {
            self.advance(&mut poller.table);
            if self.is_empty() {
                return;
            }
            self.rest(poller);
        }
    }

    /// Waits, and watches each socket: it only polls if one may make progress at once, and waits at most until the
    /// nearest deadline.
    pub fn rest<N: Network>(&self, poller: &mut Poller<N>)
        ensures { WaitsOnce N.transition (closings_armed poller.old.table self.now.streams) poller.old.network
            poller.old.table poller.new.network poller.new.table }
    {
        poller.table.disarm();
        self.arm(&mut poller.table);
        poller.poll(true);
    }

    /// Has the next wait watch each socket.
    pub fn arm(&self, table: &mut SocketTable)
        ensures { table.new ≡ arming_all table.old (closings_armed table.old self.now.streams) }
    {
        self.sockets.arm(table);
    }

    /// Returns whether there are none.
    pub fn is_empty(&self) -> bool
        ensures none { result ≡ true → self.now.streams ≡ [] }
        ensures some { result ≡ false → 0 < length self.now.streams }
    {
        self.sockets.len() == 0
    }
}
