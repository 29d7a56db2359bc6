//! The ports of a session over two sockets.
//!
//! The ports work over any two streams, and their contracts state the bytes that these returned and accepted. A
//! connection of the operating system records nothing, so for it the contracts state only the results of its reads and
//! writes.

ghost use Rattle.std.specs.Prelude.{◌≡◌, ◌≢◌, ◌+◌, ◌<◌, ◌||◌, IsNone, None, Some, [], min, length, take, is_none, true, false};
ghost use Rattle.daide_frame.specs.declared.side.Side.TheVariants as Sides;
ghost use Rattle.daide_frame.specs.PerSide.{at};
ghost use Rattle.daide_frame.specs.Side.{other};
ghost use Rattle.daide_io.specs.Ports.{TurnBegins, Clock as Popped, Pulled, Offered, IsPullWithin, IsPutWithin, pulled_len};
ghost use Rattle.daide_buffered_io.specs.Buffers.{Passes, ReadsNothing, IsBufferedPull};
ghost use Rattle.daide_buffered_io.specs.Streams.{Transfers};
ghost use Rattle.daide_buffered_io.specs.Taking.{bytes_taken};
ghost use Rattle.daide_sockets.specs.Sockets.{read_if};
ghost use Rattle.daide_sockets.specs.Clock.{due_after, IsStallEnd, has_stalled, is_past};
ghost use Rattle.daide_sockets.specs.Stops.{first_stop};
ghost use Rattle.daide_sockets.specs.Table.{key_of, merged, report_at, without_reports};
ghost use Rattle.daide_sockets.specs.Timers.{BeginsAt, PullsInTime, PutsInTime, FlushesInTime, BeginsInTime, SetsTimers, PortsEvolve, clock_event, is_got, streams_of, timers_of};
ghost use Rattle.daide_sockets.specs.Wakeups.{StaysUnread, IsFlushedUnlessGathered, IsPulled, IsOffered, Settles};
ghost use Rattle.daide_sockets.specs.Wakeups.{BeginsWriting, TakesReports, may_session_go_on, session_due};

use crate::clock::{earlier, has_stalled, is_past, timeout_end};
use crate::present::Bot;
use crate::socket::Socket;
use crate::table::{SocketTable, merged};
use daide_buffered_io::readiness::Readiness;
use daide_frame::per_side::PerSide;
use daide_frame::side::{Side, other};
use daide_io::duplex::Duplex;
use daide_io::ports::{ClockEvent, Ports, Pull, Put};
use std::time::{Duration, Instant};

/// Why a session is stopped.
#[derive(Clone, Copy, Debug, PartialEq, Eq)]
pub enum StopCause {
    /// The operator requested it.
    Operator,
    /// As many messages of this side were refused as the settings allow.
    Refusals(Side),
}

/// The idle timeout of the peers of a session, and the reading of the clock at which its turn began.
#[derive(Clone, Copy)]
struct IdleTimeout {
    reading: Option<Instant>,
    /// `None` if there is none.
    time: Option<Duration>,
}

impl IdleTimeout {
    /// Returns the moment at which an idle timeout expires that begins now; `None` for never.
    fn end(self) -> Option<Instant>
        ensures { IsStallEnd self.reading self.time result }
    {
        timeout_end(self.reading, self.time)
    }

    /// Returns true if the idle timeout of a socket is over; never true without one.
    fn is_over(self, silent_from: Option<Instant>) -> bool
        ensures { result ≡ has_stalled self.time self.reading silent_from }
    {
        has_stalled(self.time, self.reading, silent_from)
    }
}

/// Pulls from one socket of a session. If nothing came for too long, one more read is made, and if it finds nothing, the
/// side counts as ended. So does a stalled side of which nothing comes.
///
/// `silent`: a side that counts as ended for its silence moves no byte.
///
/// `early`, `late`: a side counts as silent only if its idle timeout is over at the reading of the turn, and then a read
/// that finds nothing is its end.
///
/// `starts`, `goes_on`: the timeout starts again at the reading of the turn whenever the side sends something. A pull that
/// finds nothing leaves it as it is.
///
/// `in_time`: a pull ends no stall timeout.
fn pull_in_time<S: Duplex + Drop>(
    idle: &IdleTimeout,
    socket: &mut Socket<'_, S>,
    buffer: &mut [u8],
) -> Pull
    ensures within { IsPullWithin result (length buffer.old) }
    ensures len { length buffer.new ≡ length buffer.old }
    ensures passes { Passes S.to_give S.taken socket.old.stream (take (pulled_len result) buffer.new) [] socket.new.stream }
    // a side that does not count as ended by a timeout is reported as its stream is read; one that is late is read once
    ensures asked { socket.new.timed.is_silent ≡ false → socket.new.timed.ends_stalled ≡ false →
        IsBufferedPull S.calls (length buffer.old)
        (read_if (has_stalled idle.now.time idle.now.reading socket.old.silent_from) socket.old.readiness)
        socket.old.stream result socket.new.readiness socket.new.stream }
    // a side is marked as silent or stalled only with an end, and without an idle timeout never as silent
    ensures silent { result ≢ Pull.Ended → socket.new.timed ≡ socket.old.timed }
    ensures patient { IsNone idle.now.time → socket.new.timed.is_silent ≡ socket.old.timed.is_silent }
    // a timeout that is not over ends nothing, and one that is over ends a side that sends nothing
    ensures early { has_stalled idle.now.time idle.now.reading socket.old.silent_from ≡ false →
        socket.new.timed.is_silent ≡ socket.old.timed.is_silent }
    ensures late { has_stalled idle.now.time idle.now.reading socket.old.silent_from ≡ true → result ≢ Pull.Idle }
    // the timeout starts again with what a side sends
    ensures starts { pulled_len result ≢ 0 → IsStallEnd idle.now.reading idle.now.time socket.new.silent_from }
    ensures heard { pulled_len result ≢ 0 → socket.new.heard_at ≡ idle.now.reading }
    ensures goes_on { result ≡ Pull.Idle → socket.new.silent_from ≡ socket.old.silent_from }
    ensures stays { socket.old.timed.is_silent ≡ true → socket.new.timed.is_silent ≡ true }
    // a side counts as ended for a stall only if its writes fail for that
    ensures stalled { socket.new.timed.is_stalled ≡ socket.old.timed.is_stalled }
    ensures ends { socket.old.timed.is_stalled ≡ false → socket.new.timed.ends_stalled ≡ socket.old.timed.ends_stalled }
    // with room, nothing is left that may be read, but for a read that must be tried again
    ensures pulled { IsPulled (length buffer.old) result socket.old socket.new }
    ensures in_time { PullsInTime idle.now.reading idle.now.time result socket.old socket.new }
{
    let is_late = idle.is_over(socket.silent_from);
    if is_late {
        socket.readiness.may_read = true;
    }
    let pull = socket.pull(buffer);
    match pull {
        Pull::Got(_) => {
            socket.silent_from = idle.end();
            socket.heard_at = idle.reading;
            return pull;
        }
        Pull::Ended => return pull,
        Pull::Idle => {}
    }
    if socket.timed.is_stalled {
        socket.timed.ends_stalled = true;
        return Pull::Ended;
    }
    if is_late {
        socket.timed.is_silent = true;
        return Pull::Ended;
    }
    pull
}

/// The connections of a session, as its ports. Each side's socket gave exactly the bytes that a result says it gave,
/// and took exactly those that it says it took (`transition`, `Transfers`). Of the other side nothing is read,
/// and only bytes that were held for it are written. A call of the clock leaves both sides unchanged.
///
/// What is held for a side is flushed after 128 turns, and once a pull of the other side or a put finds nothing to do
/// (`pull`, `put`: `written`). The parts of an answer are not flushed by such a pull or put while the turn still puts some.
///
/// A pull with room that finds nothing leaves the socket not readable, with nothing read ahead, or it must be tried again.
/// A put that nothing is taken of leaves it not writable, or it must be tried again (`transition`, `Settles`). What must be
/// tried again, and what is held that may be written, is work, with which no session rests (`may_go_on`). A socket that is writable
/// stays so, but for a write that its stream did not take whole (`transition`, `OnlyPuts`). So while a run waits, bytes are
/// held only after such a write, or before a poll first reported the socket as writable.
///
/// The clock reports a stop if the caller stops the session, and in the turn with which its system stops it; otherwise
/// the expiry of the IM timer (`clock`: `answer`). A stop ends the session, so nothing is read after it.
///
/// The timeouts start and expire by the reading of the turn (`transition`, `SetsTimers`). To a peer whose stall timeout is
/// over when a turn begins, what is held is written, whatever is known of its socket (`begin_turn`: `takes`). If it takes no
/// byte, or none is held, it is given up: its writes fail. The timeout starts when bytes wait for the peer, and starts again
/// only if the peer takes a byte. The silence of a side starts again only with a pull that returns bytes. Once it is over, a pull that finds
/// nothing is the side's end.
///
/// Not said: the bytes of the operating system's own connections (`Connection`), of which nothing is known but what its
/// calls returned.
#[derive(Drop)]
pub struct SocketPorts<'w, S: Drop> {
    /// The bot whose session it is.
    identity: Bot,
    idle: IdleTimeout,
    /// The deadline of the initial message; `None` once it expired, and outside a run.
    im_due: Option<Instant>,
    /// Whether the deadline of the initial message passed at the beginning of the turn, for the first time.
    im_timer_expired: bool,
    /// Why the session was stopped, if it was.
    stop: Option<StopCause>,
    /// Whether it was stopped at the beginning of this turn.
    stops: bool,
    sides: PerSide<Socket<'w, S>>,
}

impl<'w, S: Drop> SocketPorts<'w, S> {
    /// Creates the ports of a bot's session from its socket and that of the server. The session begins at this reading of the
    /// clock, with this deadline of its initial message. The first time is the idle timeout of both sides, the second their stall
    /// timeout; `None` if there is none.
    pub fn new(
        identity: Bot,
        sockets: (Socket<'w, S>, Socket<'w, S>),
        now: Option<Instant>,
        im_due: Option<Instant>,
        times: (Option<Duration>, Option<Duration>),
    ) -> SocketPorts<'w, S>
        ensures identity { result.identity ≡ identity }
        ensures bot { result.sides.bot ≡ record sockets.entry.0 {
          stall_time = times.1;
          stalls_at = None;
          silent_from = result.sides.bot.silent_from;
        } }
        ensures server { result.sides.server ≡ record sockets.entry.1 {
          stall_time = times.1;
          stalls_at = None;
          silent_from = result.sides.server.silent_from;
        } }
        ensures im_due { result.im_due ≡ im_due }
        ensures goes_on { result.stop ≡ None }
        ensures begins { BeginsAt now times (timers_of result) }
    {
        let (mut bot, mut server) = sockets;
        let (time, stall_time) = times;
        let idle = IdleTimeout { reading: now, time };
        bot.restart_stall(stall_time);
        server.restart_stall(stall_time);
        bot.silent_from = idle.end();
        server.silent_from = idle.end();
        SocketPorts {
            identity,
            idle,
            im_due,
            im_timer_expired: false,
            stop: None,
            stops: false,
            sides: PerSide::new(bot, server),
        }
    }

    /// Returns the bot whose session it is.
    pub fn identity(&self) -> Bot
        ensures { result ≡ self.now.identity }
    {
        self.identity
    }

    /// Stops the session, if it was not stopped before: the clock reports that in this turn, and in no later one. No byte
    /// that was put is lost.
    pub(crate) fn stop(&mut self, cause: StopCause)
        ensures { self.new ≡ record self.old {
          stop = first_stop self.old.stop (Some cause);
          stops = is_none self.old.stop;
        } }
    {
        self.stops = self.stop.is_none();
        if self.stops {
            self.stop = Some(cause);
        }
    }

    /// Returns why the session was stopped; `None` if it was not.
    pub fn stop_cause(&self) -> Option<StopCause>
        ensures { result ≡ self.now.stop }
    {
        self.stop
    }

    /// Returns the sockets of the bot and of the server.
    pub fn sockets(&self) -> &PerSide<Socket<'w, S>>
        ensures { result.now ≡ self.now.sides }
    {
        &self.sides
    }

    /// Gives up the ports, and returns the sockets of the bot and of the server.
    pub fn into_sockets(self) -> (Socket<'w, S>, Socket<'w, S>)
        ensures { result ≡ (self.entry.sides.bot, self.entry.sides.server) }
    {
        let SocketPorts {
            identity: _,
            idle: _,
            im_due: _,
            im_timer_expired: _,
            stop: _,
            stops: _,
            sides,
        } = self;
        sides.into_both()
    }

    /// Returns whether something may be done at once for the session at this place: something was reported of its sockets,
    /// bytes are held that may be written, or a read or a write was interrupted.
    pub(crate) fn may_go_on(&self, place: usize, table: &SocketTable) -> bool
        ensures { result ≡ may_session_go_on table.now place (timers_of self.now).sockets }
    {
        let bot = self.sides.at(Side::Bot);
        let server = self.sides.at(Side::Server);
        (table.is_bot_reported(place) || bot.has_work())
            || (table.is_server_reported(place) || server.has_work())
    }

    /// Returns the nearest deadline of the session after its last turn; `None` if there is none.
    pub fn due(&self) -> Option<Instant>
        ensures { result ≡ session_due (timers_of self.now).sockets }
    {
        let now = self.idle.reading;
        let bot = self.sides.at(Side::Bot).deadline(now);
        let server = self.sides.at(Side::Server).deadline(now);
        let due = earlier(bot, server);
        earlier(due, self.im_due)
    }

    /// Notes the reading of the clock at which a turn begins. Makes no system call.
    fn note_reading(&mut self, now: Option<Instant>)
        ensures { self.new ≡ record self.old { stops = false; idle = record self.old.idle { reading = now } } }
    {
        self.stops = false;
        self.idle.reading = now;
    }
}

impl<S: Duplex + Drop> SocketPorts<'_, S> {
    /// Takes the reports of both rows of the session's place.
    pub(crate) fn take_reports(&mut self, place: usize, table: &mut SocketTable)
        ensures bot { self.new.sides.bot ≡ record self.old.sides.bot {
          readiness = merged self.old.sides.bot.readiness (report_at table.old (key_of place Sides.Bot));
        } }
        ensures server { self.new.sides.server ≡ record self.old.sides.server {
          readiness = merged self.old.sides.server.readiness (report_at table.old (key_of place Sides.Server));
        } }
        ensures rest { self.new ≡ record self.old { sides = self.new.sides } }
        ensures streams { streams_of self.new ≡ streams_of self.old }
        ensures table { table.new ≡ without_reports table.old place }
    {
        let (bot, server) = table.take_reports(place);
        self.sides.at_mut(Side::Bot).note_report(bot);
        self.sides.at_mut(Side::Server).note_report(server);
    }

    /// Begins a turn of both sockets.
    fn begin_both(&mut self)
        ensures bot { Passes S.to_give S.taken self.old.sides.bot.stream [] [] self.new.sides.bot.stream }
        ensures server { Passes S.to_give S.taken self.old.sides.server.stream [] [] self.new.sides.server.stream }
        ensures bot_unread { ReadsNothing S.to_give self.old.sides.bot.stream self.new.sides.bot.stream }
        ensures server_unread { ReadsNothing S.to_give self.old.sides.server.stream self.new.sides.server.stream }
        ensures silent { (self.new.sides.bot.timed.is_silent ≡ self.old.sides.bot.timed.is_silent)
            × (self.new.sides.server.timed.is_silent ≡ self.old.sides.server.timed.is_silent) }
        ensures ends { (self.new.sides.bot.timed.ends_stalled ≡ self.old.sides.bot.timed.ends_stalled)
            × (self.new.sides.server.timed.ends_stalled ≡ self.old.sides.server.timed.ends_stalled) }
        ensures gathering { (self.new.sides.bot.is_gathering ≡ false) × (self.new.sides.server.is_gathering ≡ false) }
        ensures rest { self.new ≡ record self.old { sides = self.new.sides } }
        ensures bot_time { BeginsInTime self.old.idle.reading self.old.sides.bot self.new.sides.bot }
        ensures server_time { BeginsInTime self.old.idle.reading self.old.sides.server self.new.sides.server }
        ensures bot_writes { BeginsWriting S.calls self.old.idle.reading self.old.sides.bot.readiness self.old.sides.bot
            self.new.sides.bot }
        ensures server_writes { BeginsWriting S.calls self.old.idle.reading self.old.sides.server.readiness self.old.sides.server
            self.new.sides.server }
        ensures keys { (self.new.sides.bot.key ≡ self.old.sides.bot.key) × (self.new.sides.server.key ≡ self.old.sides.server.key) }
    {
        let now = self.idle.reading;
        self.sides.at_mut(Side::Bot).begin_turn(now);
        self.sides.at_mut(Side::Server).begin_turn(now);
    }

    /// Reads the deadline of the initial message. It expires once: in the first turn that begins at or after it.
    fn read_deadline(&mut self)
        ensures { self.new ≡ record self.old {
          im_timer_expired = is_past self.old.idle.reading self.old.im_due;
          im_due = due_after self.old.idle.reading self.old.im_due;
        } }
    {
        self.im_timer_expired = is_past(self.idle.reading, self.im_due);
        if self.im_timer_expired {
            self.im_due = None;
        }
    }

    /// Begins a turn of the session at this place: notes its reading, takes the reports of both rows, gives up stalled peers, writes
    /// buffered bytes whose turns are over, and reads the deadline of the initial message. Nothing is read, and nothing is
    /// put yet. All is by the table's reading of the clock.
    ///
    /// `expires`: the IM timer expires exactly in the first turn that begins at its deadline or after it (`once`).
    ///
    /// `timers`: a peer is given up if its stall timeout is over at that reading, and it takes no byte of what is held for it,
    /// which is written in any case (`takes`). No silence begins with a turn.
    pub fn begin_turn(&mut self, place: usize, table: &mut SocketTable)
        ensures begins { Transfers S.to_give S.taken (streams_of self.old) TurnBegins (streams_of self.new) }
        ensures silent { (self.new.sides.bot.timed.is_silent ≡ self.old.sides.bot.timed.is_silent)
            × (self.new.sides.server.timed.is_silent ≡ self.old.sides.server.timed.is_silent) }
        ensures ends { (self.new.sides.bot.timed.ends_stalled ≡ self.old.sides.bot.timed.ends_stalled)
            × (self.new.sides.server.timed.ends_stalled ≡ self.old.sides.server.timed.ends_stalled) }
        ensures gathering { (self.new.sides.bot.is_gathering ≡ false) × (self.new.sides.server.is_gathering ≡ false) }
        ensures identity { self.new.identity ≡ self.old.identity }
        ensures idle { self.new.idle ≡ record self.old.idle { reading = table.old.reading } }
        ensures expires { self.new.im_timer_expired ≡ is_past table.old.reading self.old.im_due }
        ensures once { self.new.im_due ≡ due_after table.old.reading self.old.im_due }
        ensures goes_on { self.new.stop ≡ self.old.stop }
        ensures no_stop { self.new.stops ≡ false }
        ensures timers { SetsTimers TurnBegins (timers_of self.old) (timers_of self.new) }
        ensures settles { Settles S.calls TurnBegins self.old.sides self.new.sides }
        ensures keys { (self.new.sides.bot.key ≡ self.old.sides.bot.key) × (self.new.sides.server.key ≡ self.old.sides.server.key) }
        ensures takes { TakesReports S.calls table.old place (timers_of self.old).sockets (timers_of self.new).sockets
            table.new }
    {
        self.note_reading(table.now());
        self.take_reports(place, table);
        self.begin_both();
        self.read_deadline();
    }
}

/// Returns what the clock reports, by whether the session is stopped in this turn, and whether the IM timer expired.
fn clock_event(stops: bool, im_timer_expired: bool) -> ClockEvent
    ensures { result ≡ clock_event stops im_timer_expired }
{
    match (stops, im_timer_expired) {
        (true, _) => ClockEvent::StopIsRequested,
        (false, true) => ClockEvent::ImTimeIsOver,
        (false, false) => ClockEvent::NoEvent,
    }
}

impl<S: Duplex + Drop> Ports for SocketPorts<'_, S> {
    ghost transition = { λ old call new. PortsEvolve S.to_give S.taken S.calls old call new };

    /// Pulls from the socket of a side. If it returns nothing, what is held for the other side is written (`written`), but not
    /// the parts of an answer to it that were put in this turn.
    fn pull(&mut self, side: Side, buffer: &mut [u8]) -> Pull
        ensures within { IsPullWithin result (length buffer.old) }
        ensures transition { PortsEvolve S.to_give S.taken S.calls self.old
            (Pulled side (length buffer.old) result (take (pulled_len result) buffer.new)) self.new }
        ensures asked { let old = at self.old.sides side in let new = at self.new.sides side in
            new.timed.is_silent ≡ false → new.timed.ends_stalled ≡ false →
            IsBufferedPull S.calls (length buffer.old)
            (read_if (has_stalled self.old.idle.time self.old.idle.reading old.silent_from) old.readiness)
            old.stream result new.readiness new.stream }
        ensures written { result ≡ Pull.Idle →
            IsFlushedUnlessGathered S.calls (at self.old.sides (other side)) (at self.new.sides (other side)) }
    {
        let pull = pull_in_time(&self.idle, self.sides.at_mut(side), buffer);
        if pull == Pull::Idle {
            self.sides
                .at_mut(other(side))
                .flush_gathered(self.idle.reading);
        }
        pull
    }

    /// Puts to the socket of a side. If it takes nothing, its session may have nothing more to do, and what is held for the other
    /// side is written in the same way.
    fn put(&mut self, side: Side, bytes: &[u8]) -> Put
        ensures within { IsPutWithin result (length bytes.now) }
        ensures transition { PortsEvolve S.to_give S.taken S.calls self.old (Offered side bytes.now result) self.new }
        ensures written { result ≡ Put.Took 0 →
            IsFlushedUnlessGathered S.calls (at self.old.sides (other side)) (at self.new.sides (other side)) }
    {
        let now = self.idle.reading;
        let put = self.sides.at_mut(side).put(now, bytes);
        if put == Put::Took(0) {
            self.sides.at_mut(other(side)).flush_gathered(now);
        }
        put
    }

    fn clock(&mut self, is_spent: bool) -> ClockEvent
        ensures stops { is_spent ≡ true → result ≡ ClockEvent.StopIsRequested }
        ensures transition { PortsEvolve S.to_give S.taken S.calls self.old (Popped result) self.new }
        ensures answer { result ≡ clock_event (is_spent || self.old.stops) self.old.im_timer_expired }
        ensures same { self.new ≡ self.old }
    {
        clock_event(is_spent || self.stops, self.im_timer_expired)
    }
}
