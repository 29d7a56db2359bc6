//! The environment of the event loop, `System`, over sockets.

ghost use Rattle.std.specs.Net.Socket.{socket_ip};
ghost use Rattle.std.specs.Option.{is_some};
ghost use Rattle.std.specs.Prelude.{◌≡◌, ◌≢◌, ◌⊎◌, ℕ, List, Option, ◌<◌, ◌&&◌, IfSome, None, true, false, [], length, is_none, if◌then◌else◌, slice_get};
ghost use Rattle.std.specs.declared.time.Duration.{Duration};
ghost use Rattle.daide_frame.specs.declared.side.Side.TheVariants as Sides;
ghost use Rattle.daide_io.specs.Ports.{TurnBegins};
ghost use Rattle.daide_io.specs.ReadyQueue.{is_among, woken_all};
ghost use Rattle.daide_io.specs.System.{Polls, Shows, Accepts, Connects, BeginsTurn, Rests, Retires, Notifies};
ghost use Rattle.daide_status.specs.declared.snapshot.SessionRow.{SessionRow};
ghost use Rattle.daide_protocol.specs.Account.{nothing_accounted};
ghost use Rattle.daide_status.specs.Counts.{ending_counted, no_counts, session_counted};
ghost use Rattle.daide_settings.specs.BotsInAll.{bots_in_all};
ghost use Rattle.daide_settings.specs.Ranges.{host_of, may_come};
ghost use Rattle.daide_sockets.specs.Accepting.{descriptors_for, is_bot_due, round_begun, BringsNoBot, HasConnected, IsUnreached};
ghost use Rattle.daide_sockets.specs.PollTimes.{listener_armed, others_armed};
ghost use Rattle.daide_sockets.specs.Capacity.{capacity_after};
ghost use Rattle.daide_sockets.specs.ControlSlots.{Each, PlaceShows, arming_control};
ghost use Rattle.daide_sockets.specs.Finishing.{FinishesAll};
ghost use Rattle.daide_sockets.specs.Table.{arming_all};
ghost use Rattle.daide_sockets.specs.Lines.{Logs, LogsNoBot, end_cause_of, end_notice, no_bot_counted, timed_of, why_retired, why_unreached};
ghost use Rattle.daide_sockets.specs.Lingering.{LooksAround, in_pass, GoOnFor, no_closing};
ghost use Rattle.daide_sockets.specs.Pairing.{Arriving, arrival_at, ClosesBothAt, TakesOut, is_vacant, pending_connects};
ghost use Rattle.daide_sockets.specs.Present.{AdmitsBot, HasRoomForOne, hosts_of, without_bot};
ghost use Rattle.daide_sockets.specs.Rows.{AreRowsOf, KeepsClosingRows, closing_keys};
ghost use Rattle.daide_sockets.specs.Scheduling.{BeginsListening, RunEvolves, pair_of, run_state};
ghost use Rattle.daide_sockets.specs.ServerStates.{away_at, one_more_unreached, reached_at, untried_at};
ghost use Rattle.daide_sockets.specs.Snapshot.{IsSessionRow};
ghost use Rattle.daide_sockets.specs.Stops.{first_stop, is_connect_stopped, is_refused_often, is_stop_requested};
ghost use Rattle.daide_sockets.specs.Stops.{refused_side, stop_begins, stop_due};
ghost use Rattle.daide_sockets.specs.Clock.{due_after, IsSeconds, IsIdleTime, is_past};
ghost use Rattle.daide_sockets.specs.Table.{Table, IsPollTime, disarmed, key_of};
ghost use Rattle.daide_sockets.specs.Timers.{PortsEvolve};
ghost use Rattle.daide_sockets.specs.Wakeups.{PollsPlaces};
ghost use Rattle.daide_sockets.specs.declared.admission.NoBot.{NoBot as NoBotOf};
ghost use Rattle.daide_sockets.specs.declared.ports.SocketPorts.{SocketPorts as PortsOf};

mod arrivals;
mod beginning;
mod orders;

use crate::admission::{Acceptor, NoBot, PendingConnection};
use crate::capacity::Capacity;
use crate::clock::idle_time_of;
use crate::control::{Control, seconds_between};
use crate::lingering_close::Closings;
use crate::poller::Poller;
use crate::ports::{SocketPorts, StopCause};
use crate::present::{Bot, Present};
use crate::server_state::KnownServer;
use crate::session_notice::{Lasted, NoticeLine, SessionNotice, Why, end_cause, why_of};
use crate::system::beginning::{Listening, RunLists};
use crate::table::{SocketTable, server_key};
use daide_buffered_io::pool::Pool;
use daide_causes::Sink;
use daide_frame::per_side::PerSide;
use daide_frame::side::Side;
use daide_io::network::Network;
use daide_io::ready_queue::ReadyQueue;
use daide_io::system::{Connect, Notice, Orders, SessionEnd, SessionStatus, System};
use daide_protocol::{Account, SideCounts};
use daide_settings::{AddressRange, Settings};
use daide_status::{RunCounts, SessionRow};
use std::alloc::{Allocator, Global};
use std::io::Write;
use std::net::SocketAddr;
use std::time::Duration;

/// The sockets of a run: its system. What each call does to them is one relation (`transition`, `RunEvolves`).
/// `Transits` says what it does to the bots and to the sockets that close. An accept that returned true added one bot,
/// with the next number, at its place, which was free, and with the connect that was begun for it. Ports that are ready have
/// the two connections of the bot at their place: its own, and the one made for it. A bot whose server can't be reached begins
/// to close. So do both connections of a session that is retired, with what is held for them. A pending connect keeps its bot,
/// and may be begun again. It is given up only after a stop of its session, after its deadline, or once each address of the
/// server was tried (`connected`: `unreached`). Except `poll`, no other call changes them.
///
/// In `poll` the sockets that close make progress, by the table's reading of the clock (`tidy`: `closing`): all of them, or
/// eight if there are more (`ClosingsGoOn`). They keep their order. If a turn begins, what was held for too long is written to
/// that session's own sockets, and neither is read. A session rests exactly if nothing may be done at once for it, and then
/// until its nearest deadline (`Wakes`). A poll names each place of which something was reported, and each whose deadline is
/// past. It polls once, and watches the listener and each closing socket (`PollsForRun`) beside the places and the control
/// socket. It blocks only if it may, and if nothing of these has work, until the nearest deadline. What it reported of a place
/// stays in its rows until the session takes it. With a free place, exactly one accept is made if the listener is ready
/// (`accept_next`: `made`) while the descriptors for its connection, its connect and its record are free, and one for a control
/// connection, and no other call but connects for its bot. No other call of these sockets accepts one (`GoesBy`). If it brings
/// no bot, it failed, or its bot may not come, or the system refused to follow its connection (`kept`). Each bot that was
/// accepted and closed at once is counted, and its line is logged if sessions are, with its address and why. From then on the
/// next poll is for bots too (`awaited`), so it does not block while an accept is due. A bot is accepted only if it may come by
/// the settings, beside the hosts of those that are there. What is judged is the address that the network returned with its
/// connection (`accept`: `admitted`). A bot that comes is added to those, with this address, which the ports of its session have
/// for the records and the status (`IsJoined`). The end of its session removes it (`retire`: `present`), or that of its connect
/// (`connected`: `leaves`), and no other call changes them.
///
/// The rows of a place are fixed by its number, and those of the listeners and of control connections by theirs. Only a closing
/// socket takes a row, and the taken rows are always exactly those of the closing sockets (`HoldsRows`). A run begins with none
/// (`new`: `rows`).
///
/// No call changes the limits, the ranges, the timeouts or the server of the run (`same`). The timeouts are those of
/// the settings (`new`: `idle_time`, `stall_time`). The ports of a connect begin with them, at the table's reading of
/// the clock (`Schedules`). The place of a pending connect rests until the deadline of the connect.
///
/// At the end of `poll` the control socket advances, and the next poll watches it (`take_orders`: `control`, `armed`). What a poll
/// returns as orders is what the control connections requested, by what that poll reported of them, and a status has the row of
/// each session that is shown (`Controls`). No other call changes the control socket. Once a
/// stop is requested, or all bots of the run came, the listener for bots is closed (`acceptor`, `closes`). Otherwise a poll at most
/// ends the pause after a failed accept, once its time is over (`Schedules`). Once it is requested
/// that sessions end now, or one of them, each place is woken (`poll`: `stops`), and a pending connect of such a session is given
/// up (`connected`). The next turn of the session stops it, and no later one (`begin_turn`: `stops`, `once`). So does the next turn
/// after as many messages of a side were refused as the settings allow.
///
/// In each poll a run notes whether it is full and whether accepts pause, and logs what changed (`poll`: `capacity`).
///
/// Not said: that a poll ended because something came, and that the port in a row of a status is the connection's: the
/// system returns it (`Network::local_address`). That held bytes are given up only after a failed write, or after
/// `stall_seconds`, is read from `flush_at` and `flush_in_time`. Nor the lines of the server that is away or reached again, and
/// those of the capacity: scenes compare them. Which lines `--verbose` writes of bots and of the ends of sessions is in the
/// clauses `logged`, and what a run counts in `counted`.
#[derive(Drop)]
pub struct Sockets<'w, N: Network, E: Sink + Drop> {
    poller: Poller<N>,
    acceptor: Acceptor,
    servers: &'w [SocketAddr],
    /// The buffers of the sockets.
    pool: &'w Pool,
    im_time: Duration,
    /// The idle timeout of each peer; `None` if there is none.
    idle_time: Option<Duration>,
    /// The stall timeout of each peer; `None` if there is none.
    stall_time: Option<Duration>,
    /// The same in seconds, as in the settings.
    stall_seconds: u32,
    connect_time: Duration,
    /// The bot at each place, while its connect is under way.
    arrivals: Vec<Option<PendingConnection<'w, N::Connection>>>,
    closings: Closings<'w, N::Connection>,
    /// The ranges of addresses from which a bot may come.
    allow: &'w [AddressRange],
    /// The greatest number of sessions at once with bots from one address; 0 for no limit.
    max_per_address: u16,
    /// The number of refused messages of one side at which its session is stopped; 0 for never.
    max_refused: u32,
    /// The most sessions at once.
    max_sessions: usize,
    /// The number of bots of the run in all.
    bots_in_all: u32,
    /// The bots that are there.
    present: Present,
    /// The number of bots whose server could not be reached.
    unreached: u32,
    /// What the connects showed of the server.
    server: KnownServer,
    /// What the run counted.
    counts: RunCounts,
    /// The control socket.
    control: Control<N::Connection>,
    /// The output for log lines.
    pub errors: E,
    /// Whether the beginning and the end of each session are logged, and the capacity of the run.
    is_verbose: bool,
    /// The capacity of the run, as it was logged last.
    capacity: Capacity,
}

/// Returns whether as many messages of a side were refused, with PRN or with HUH, as may be; 0 is no limit.
fn is_refused_often(most: u32, counts: SideCounts) -> bool
    ensures { result ≡ is_refused_often most counts }
{
    most > 0 && counts.prn.saturating_add(counts.huh) >= u64::from(most)
}

impl<'w, N: Network, E: Sink + Drop> Sockets<'w, N, E> {
    /// Creates the sockets of a run with no bot yet, over a network, with the addresses of the server, a table and a pool,
    /// and a deadline for connects. Returns `None` if memory is refused or the listener cannot be followed. Sessions are not
    /// logged.
    pub fn new(
        alloc: Global,
        resources: (N, &'w [SocketAddr], SocketTable, &'w Pool),
        settings: &'w Settings,
        connect_time: Duration,
        errors: E,
    ) -> Option<Sockets<'w, N, E>>
        ensures none_came { IfSome result (λ sockets. (sockets.acceptor.came ≡ 0) × (sockets.is_verbose ≡ false)) }
        ensures none_pending { IfSome result (λ sockets. (pending_connects sockets.arrivals.items ≡ 0)
            × (sockets.closings ≡ no_closing sockets.stall_time)) }
        ensures room { IfSome result (λ sockets. (length sockets.arrivals.items ≡ settings.now.max_sessions)
            × (length sockets.poller.table.deadlines ≡ length resources.entry.2.deadlines)) }
        ensures im_time { IfSome result (λ sockets. IsSeconds settings.now.im_seconds sockets.im_time) }
        ensures idle_time { IfSome result (λ sockets. IsIdleTime settings.now.idle_seconds sockets.idle_time) }
        ensures stall_time { IfSome result (λ sockets. IsIdleTime settings.now.stall_seconds sockets.stall_time
            × (sockets.stall_seconds ≡ settings.now.stall_seconds)) }
        ensures connect_time { IfSome result (λ sockets. sockets.connect_time ≡ connect_time) }
        ensures servers { IfSome result (λ sockets. sockets.servers.now ≡ resources.entry.1.now) }
        ensures rules { IfSome result (λ sockets. (sockets.allow.now ≡ settings.now.allow.items)
            × (sockets.max_per_address ≡ settings.now.max_per_address)
            × (sockets.max_refused ≡ settings.now.max_refused)) }
        ensures no_orders { IfSome result (λ sockets. (sockets.control.stops_accepting ≡ false)
            × (sockets.control.stops_now ≡ false)) }
        ensures bots { IfSome result (λ sockets. (sockets.bots_in_all ≡ bots_in_all settings.now)
            × (sockets.acceptor.is_closed ≡ false)) }
        ensures none_present { IfSome result (λ sockets. sockets.present.bots.items ≡ []) }
        ensures none_counted { IfSome result (λ sockets. (sockets.counts ≡ no_counts)
            × (sockets.server ≡ untried_at sockets.poller.table.reading)) }
        ensures listens { IfSome result (λ sockets.
            BeginsListening N.transition sockets.poller.table resources.entry.0 sockets.poller.network) }
        ensures rows { AreRowsOf resources.entry.2 [] → IfSome result (λ sockets. AreRowsOf sockets.poller.table
            (closing_keys sockets.closings.streams)) }
    {
        let (network, servers, table, pool) = resources;
        let stall_time = idle_time_of(settings.stall_seconds);
        let RunLists {
            arrivals,
            present,
            closings,
        } = RunLists::new(alloc, settings.max_sessions, stall_time)?;
        let Listening {
            poller,
            acceptor,
            control,
        } = Listening::new(alloc, network, table)?;
        let server = KnownServer::new(poller.table.now());
        Some(Sockets {
            poller,
            acceptor,
            servers,
            pool,
            im_time: Duration::from_secs(u64::from(settings.im_seconds)),
            idle_time: idle_time_of(settings.idle_seconds),
            stall_time,
            stall_seconds: settings.stall_seconds,
            connect_time,
            arrivals,
            closings,
            allow: settings.allow.as_slice(),
            max_per_address: settings.max_per_address,
            max_refused: settings.max_refused,
            max_sessions: settings.max_sessions,
            bots_in_all: settings.bots_in_all(),
            present,
            unreached: 0,
            server,
            counts: RunCounts::new(),
            control,
            errors,
            is_verbose: false,
            capacity: Capacity::NEW,
        })
    }

    /// Sets whether the beginning and the end of each session are logged, and the capacity of the run.
    pub fn set_verbose(&mut self, is_verbose: bool)
        ensures { self.new ≡ record self.old { is_verbose = is_verbose } }
    {
        self.is_verbose = is_verbose;
    }

    /// Has each accept make sure of a descriptor for the file of a record, too, or not.
    pub fn set_recorded(&mut self, is_recorded: bool)
        ensures { self.new ≡ record self.old {
          acceptor = record self.old.acceptor { descriptors = descriptors_for is_recorded };
        } }
    {
        self.acceptor.set_recorded(is_recorded);
    }

    /// Logs a line of a session, if sessions are logged.
    fn log_session(&mut self, notice: SessionNotice)
        ensures logged { Logs E.contents E.Fails self.old.is_verbose notice self.old.errors self.new.errors }
        ensures same { self.new ≡ record self.old { errors = self.new.errors } }
    {
        if self.is_verbose {
            // The run goes on if the line cannot be written.
            let _ = self.errors.write_text(NoticeLine { notice });
        }
    }

    /// Looks whether a further bot can be accepted. Logs what changed in that, if sessions are logged.
    fn note_capacity(&mut self)
        ensures capacity { self.new.capacity ≡ capacity_after self.old.capacity
            (length self.old.present.bots.items) self.old.max_sessions (is_some self.old.acceptor.listener.resumes_at)
            self.old.acceptor.came }
        ensures same { self.new ≡ record self.old { errors = self.new.errors; capacity = self.new.capacity } }
    {
        let (present, most) = (self.present.len(), self.max_sessions);
        let is_paused = self.acceptor.listener.is_paused();
        let after = self
            .capacity
            .after(present, most, is_paused, self.acceptor.came());
        if self.is_verbose {
            self.capacity.log_change(after, most, &mut self.errors);
        }
        self.capacity = after;
    }

    /// Begins a round of the acceptor, and advances the closing sockets.
    fn tidy(&mut self)
        ensures acceptor { self.new.acceptor ≡ round_begun self.old.poller.table.reading self.old.acceptor }
        ensures arrivals { self.new.arrivals.items ≡ self.old.arrivals.items }
        ensures closing { LooksAround N.Connection.to_give N.Connection.taken N.Connection.calls
            self.old.poller.table.reading (in_pass self.old.closings) self.new.closings }
        ensures clock { self.new.poller.table.reading ≡ self.old.poller.table.reading }
        ensures control { self.new.control ≡ self.old.control }
        ensures times { (self.new.idle_time ≡ self.old.idle_time) × (self.new.stall_time ≡ self.old.stall_time) }
        ensures rows { KeepsClosingRows self.old.poller.table (closing_keys self.old.closings.streams)
            self.new.poller.table (closing_keys self.new.closings.streams) }
        ensures network { self.new.poller.network ≡ self.old.poller.network }
        ensures same { self.new ≡ record self.old {
          poller = self.new.poller;
          acceptor = self.new.acceptor;
          closings = self.new.closings;
        } }
    {
        self.acceptor.begin_round(self.poller.table.now());
        self.closings.advance(&mut self.poller.table);
    }

    /// Returns the gateway's own port of a session's connection to the server, if the system says it.
    fn port_to_server(&self, ports: &SocketPorts<'w, N::Connection>) -> Option<u16> {
        let server = ports.sockets().at(Side::Server);
        let own = self.poller.network.local_address(server.connection())?;
        Some(own.port())
    }

    /// Returns the row of a session with this status.
    fn row_of(&self, ports: &SocketPorts<'w, N::Connection>, status: SessionStatus) -> SessionRow
        ensures { IsSessionRow self.now.poller.table.reading ports.now.identity ports.now.sides status result }
    {
        let identity = ports.identity();
        let bot = ports.sockets().at(Side::Bot);
        let server = ports.sockets().at(Side::Server);
        let now = self.poller.table.now();
        SessionRow {
            number: identity.number,
            bot: identity.address,
            port_to_server: self.port_to_server(ports),
            phase: status.phase,
            level: status.level,
            account: status.account,
            queued_to_bot: status.queued_to_bot,
            queued_to_server: status.queued_to_server,
            buffered_to_bot: bot.stream.queued_len(),
            buffered_to_server: server.stream.queued_len(),
            received_from_bot: status.bytes.from_bot,
            received_from_server: status.bytes.from_server,
            sent_to_bot: status.bytes.to_bot,
            sent_to_server: status.bytes.to_server,
            bot_idle: seconds_between(bot.heard_at, now),
            server_idle: seconds_between(server.heard_at, now),
        }
    }

    /// Waits until the last sockets are closed. That takes at most a second after their peers accepted the buffered
    /// bytes, or are stalled. The closing sockets are advanced by rounds, and by nothing else. Each round is at the last
    /// reading of the clock (`readings`).
    pub fn finish(&mut self)
        ensures closing { (rounds : ℕ) × GoOnFor N.Connection.to_give N.Connection.taken
            N.Connection.calls rounds self.old.closings self.new.closings
            × ((self.new.closings.streams ≡ []) ⊎ (rounds ≡ u64.MAX)) }
        ensures readings { FinishesAll N.transition N.Connection.to_give N.Connection.taken N.Connection.calls u64.MAX
            self.old.poller.network self.old.poller.table.reading self.old.closings self.new.closings }
        ensures came { self.new.acceptor.came ≡ self.old.acceptor.came }
        ensures arrivals { self.new.arrivals.items ≡ self.old.arrivals.items }
        ensures rows { AreRowsOf self.old.poller.table (closing_keys self.old.closings.streams) →
            AreRowsOf self.new.poller.table (closing_keys self.new.closings.streams) }
        ensures same { self.new ≡ record self.old { poller = self.new.poller; closings = self.new.closings } }
    {
        self.closings.finish(&mut self.poller);
    }

    /// Returns the side of which as many messages were refused as the settings allow, the bot first.
    fn refused_side(&self, account: &Account) -> Option<Side>
        ensures { result ≡ refused_side self.now.max_refused account.now }
    {
        if is_refused_often(self.max_refused, account.bot) {
            return Some(Side::Bot);
        }
        if is_refused_often(self.max_refused, account.server) {
            return Some(Side::Server);
        }
        None
    }

    /// Returns whether the operator requested the stop of all sessions, or of the one with this number.
    fn is_stop_requested(&self, number: u32) -> bool
        ensures { result ≡ is_stop_requested self.now.control number }
    {
        self.control.stops_now() || self.control.ends_session(number)
    }

    /// Returns why the session with this number and this account is to be stopped; `None` if it goes on.
    fn stop_of(&self, number: u32, account: &Account) -> Option<StopCause>
        ensures { result ≡ stop_due (is_stop_requested self.now.control number) self.now.max_refused account.now }
    {
        if self.is_stop_requested(number) {
            return Some(StopCause::Operator);
        }
        self.refused_side(account).map(StopCause::Refusals)
    }

    /// Has the next poll watch the listener and each closing socket, beside the control socket.
    fn arm_others(&mut self)
        ensures armed { self.new.poller.table ≡ arming_all self.old.poller.table (others_armed self.old.poller.table
            (listener_armed self.old.poller.table self.old.acceptor) self.old.closings.streams) }
        ensures network { self.new.poller.network ≡ self.old.poller.network }
        ensures same { self.new ≡ record self.old { poller = self.new.poller } }
    {
        self.acceptor.arm(&mut self.poller.table);
        self.closings.arm(&mut self.poller.table);
    }

    /// Polls the network once, for a poll that may block or not, and wakes the places for which there is something to do.
    fn poll_places<A: Allocator>(&mut self, may_block: bool, ready: &mut ReadyQueue<A>)
        ensures polls { (woken : List ℕ) × (ready.new ≡ woken_all woken ready.old) × (time : Option Duration)
            × IsPollTime may_block (arming_all self.old.poller.table (others_armed self.old.poller.table
            (listener_armed self.old.poller.table self.old.acceptor) self.old.closings.streams)) time
            × (armed : Table) × (armed ≡ record self.old.poller.table {
              armed_work = armed.armed_work;
              armed_due = armed.armed_due;
            }) × (polled : Table) × PollsPlaces N.transition time woken self.old.poller.network armed
            self.new.poller.network polled × (self.new.poller.table ≡ disarmed polled) }
        ensures same { self.new ≡ record self.old { poller = self.new.poller } }
    {
        if may_block {
            self.arm_others();
        }
        self.poller.poll_for(may_block, ready);
        self.poller.table.disarm();
    }

    /// Wakes each place once an operator stops all sessions, which was not so before, or one of them.
    fn wake_stopped<A: Allocator>(&self, was_stopped: bool, ready: &mut ReadyQueue<A>)
        ensures { (woken : List ℕ) × (ready.new ≡ woken_all woken ready.old)
            × (stop_begins self.now.control was_stopped ≡ true → (place : ℕ) →
            place < length self.now.poller.table.deadlines → is_among place woken ≡ true) }
    {
        let stops_all = self.control.stops_now() && !was_stopped;
        if !(stops_all || self.control.ends_some()) {
            return;
        }
        for place in 0..self.poller.table.places() {
            ready.wake(place);
        }
    }
}

impl<'w, N: Network, E: Sink + Drop> System<SocketPorts<'w, N::Connection>> for Sockets<'w, N, E> {
    ghost transition = { λ old call new. RunEvolves N.transition N.Connection.to_give N.Connection.taken N.Connection.calls
        (λ (ports : PortsOf N.Connection). ports)
        (run_state (old.poller.network, old.poller.table) (old.idle_time, old.stall_time) old.acceptor old.arrivals.items
        old.closings old.control) call
        (run_state (new.poller.network, new.poller.table) (new.idle_time, new.stall_time) new.acceptor new.arrivals.items
        new.closings new.control) };

    fn poll<A: Allocator>(&mut self, may_block: bool, ready: &mut ReadyQueue<A>) -> Orders
        ensures transition { (woken : List ℕ) × (ready.new ≡ woken_all woken ready.old)
            × RunEvolves N.transition N.Connection.to_give N.Connection.taken N.Connection.calls
            (λ (ports : PortsOf N.Connection). ports)
            (run_state (self.old.poller.network, self.old.poller.table) (self.old.idle_time, self.old.stall_time) self.old.acceptor
            self.old.arrivals.items self.old.closings self.old.control)
            (Polls may_block woken result)
            (run_state (self.new.poller.network, self.new.poller.table) (self.new.idle_time, self.new.stall_time) self.new.acceptor
            self.new.arrivals.items self.new.closings self.new.control) }
        ensures stops { stop_begins self.new.control self.old.control.stops_now ≡ true → (woken : List ℕ)
            × (ready.new ≡ woken_all woken ready.old) × ((place : ℕ) →
            place < length self.new.poller.table.deadlines → is_among place woken ≡ true) }
        ensures orders { result.stops_accepting ≡ self.new.control.stops_accepting }
        ensures kept { self.old.control.stops_accepting ≡ true → self.new.control.stops_accepting ≡ true }
        ensures now_kept { self.old.control.stops_now ≡ true → self.new.control.stops_now ≡ true }
        ensures armed { (before : Table) × (self.new.poller.table ≡ arming_control before self.new.control) }
        ensures capacity { self.new.capacity ≡ capacity_after self.old.capacity
            (length self.old.present.bots.items) self.old.max_sessions (is_some self.old.acceptor.listener.resumes_at)
            self.old.acceptor.came }
        ensures same { self.new ≡ record self.old {
          poller = self.new.poller;
          acceptor = self.new.acceptor;
          closings = self.new.closings;
          control = self.new.control;
          errors = self.new.errors;
          capacity = self.new.capacity;
        } }
    {
        self.note_capacity();
        self.poll_places(may_block, ready);
        self.tidy();
        let was_stopped = self.control.stops_now();
        let orders = self.take_orders();
        self.wake_stopped(was_stopped, ready);
        self.poller.table.is_bounded();
        orders
    }

    fn show(&mut self, ports: &SocketPorts<'w, N::Connection>, status: SessionStatus)
        ensures transition { RunEvolves N.transition N.Connection.to_give N.Connection.taken N.Connection.calls
            (λ (ports : PortsOf N.Connection). ports)
            (run_state (self.old.poller.network, self.old.poller.table) (self.old.idle_time, self.old.stall_time) self.old.acceptor
            self.old.arrivals.items self.old.closings self.old.control) (Shows ports.now status)
            (run_state (self.new.poller.network, self.new.poller.table) (self.new.idle_time, self.new.stall_time) self.new.acceptor
            self.new.arrivals.items self.new.closings self.new.control) }
        ensures shows { (row : SessionRow) × IsSessionRow self.old.poller.table.reading ports.now.identity
            ports.now.sides status row
            × Each (PlaceShows row) self.old.control.slots self.new.control.slots }
        ensures same { self.new ≡ record self.old { control = self.new.control } }
    {
        let row = self.row_of(ports, status);
        self.control.show(&row);
        self.poller.table.is_bounded();
    }

    fn begin_turn(
        &mut self,
        place: usize,
        account: &Account,
        ports: &mut SocketPorts<'w, N::Connection>,
    )
        ensures ports { PortsEvolve N.Connection.to_give N.Connection.taken N.Connection.calls ports.old TurnBegins ports.new }
        ensures system { RunEvolves N.transition N.Connection.to_give N.Connection.taken N.Connection.calls
            (λ (ports : PortsOf N.Connection). ports)
            (run_state (self.old.poller.network, self.old.poller.table) (self.old.idle_time, self.old.stall_time) self.old.acceptor
            self.old.arrivals.items self.old.closings self.old.control) (BeginsTurn place account.now ports.old ports.new)
            (run_state (self.new.poller.network, self.new.poller.table) (self.new.idle_time, self.new.stall_time) self.new.acceptor
            self.new.arrivals.items self.new.closings self.new.control) }
        ensures silent { (ports.new.sides.bot.timed.is_silent ≡ ports.old.sides.bot.timed.is_silent)
            × (ports.new.sides.server.timed.is_silent ≡ ports.old.sides.server.timed.is_silent) }
        ensures gathering { (ports.new.sides.bot.is_gathering ≡ false) × (ports.new.sides.server.is_gathering ≡ false) }
        ensures identity { ports.new.identity ≡ ports.old.identity }
        ensures same { self.new ≡ record self.old { poller = self.new.poller } }
        ensures clock { self.new.poller.table.reading ≡ self.old.poller.table.reading }
        ensures expires { ports.new.im_timer_expired ≡ is_past self.old.poller.table.reading ports.old.im_due }
        ensures im_once { ports.new.im_due ≡ due_after self.old.poller.table.reading ports.old.im_due }
        ensures stops { ports.new.stop ≡ first_stop ports.old.stop
            (stop_due (is_stop_requested self.old.control ports.old.identity.number) self.old.max_refused account.now) }
        ensures once { ports.new.stops ≡ (is_none ports.old.stop
            && is_some (stop_due (is_stop_requested self.old.control ports.old.identity.number) self.old.max_refused
            account.now)) }
    {
        let number = ports.identity().number;
        ports.begin_turn(place, &mut self.poller.table);
        self.poller.table.is_bounded();
        if let Some(cause) = self.stop_of(number, account) {
            ports.stop(cause);
        }
    }

    #[inline(always)]
    fn rest(&mut self, place: usize, ports: &SocketPorts<'w, N::Connection>) -> bool
        ensures transition { RunEvolves N.transition N.Connection.to_give N.Connection.taken N.Connection.calls
            (λ (ports : PortsOf N.Connection). ports)
            (run_state (self.old.poller.network, self.old.poller.table) (self.old.idle_time, self.old.stall_time) self.old.acceptor
            self.old.arrivals.items self.old.closings self.old.control)
            (Rests place ports.now result)
            (run_state (self.new.poller.network, self.new.poller.table) (self.new.idle_time, self.new.stall_time) self.new.acceptor
            self.new.arrivals.items self.new.closings self.new.control) }
        ensures same { self.new ≡ record self.old { poller = self.new.poller } }
    {
        if ports.may_go_on(place, &self.poller.table) {
            self.poller.table.is_bounded();
            return false;
        }
        self.poller.table.rest(place, ports.due());
        self.poller.table.is_bounded();
        true
    }

    /// Accepts the next bot, if there is one, and begins its connect.
    ///
    /// `admitted`: the address of a bot that came is the one that the network returned with its connection. By this address it
    /// may come, by `allow` and `max_per_address` beside those that are there. It is the last of those from then on, with this
    /// address, and the connection is that of the bot at its place. The line of its session is logged, with its number and this
    /// address, if sessions are.
    ///
    /// `absent`: if none came, those that are there are the same.
    ///
    /// `kept`: if a due accept brings no bot to a free place, and one more may be present, then it failed, or its bot may not come
    /// by its address, or the system refused to follow its connection. No other bot is dropped. The line of a bot that is dropped
    /// is logged if sessions are, with its address and why, and no other line. It is counted (`no_bot_counted`).
    fn accept(&mut self, place: usize) -> bool
        ensures transition { RunEvolves N.transition N.Connection.to_give N.Connection.taken N.Connection.calls
            (λ (ports : PortsOf N.Connection). ports)
            (run_state (self.old.poller.network, self.old.poller.table) (self.old.idle_time, self.old.stall_time) self.old.acceptor
            self.old.arrivals.items self.old.closings self.old.control) (Accepts place result)
            (run_state (self.new.poller.network, self.new.poller.table) (self.new.idle_time, self.new.stall_time) self.new.acceptor
            self.new.arrivals.items self.new.closings self.new.control) }
        ensures admitted { result ≡ true → (address : SocketAddr) × AdmitsBot N.transition self.old.acceptor.descriptors self.old.servers.now
            (self.old.allow.now, self.old.max_per_address) self.old.poller.table.reading place self.new.acceptor.came address
            (self.old.poller.network, self.old.arrivals.items, self.old.present)
            (self.new.poller.network, self.new.arrivals.items, self.new.present)
            × Logs E.contents E.Fails self.old.is_verbose (SessionNotice.Began self.new.acceptor.came address) self.old.errors
            self.new.errors }
        ensures counted { result ≡ true → self.new.counts ≡ self.old.counts }
        ensures absent { result ≡ false → self.new.present ≡ self.old.present }
        ensures kept { result ≡ false → (why : NoBotOf) × LogsNoBot E.contents E.Fails self.old.is_verbose why self.old.errors
            self.new.errors × (self.new.counts ≡ no_bot_counted why self.old.counts)
            × (is_bot_due self.old.poller.table self.old.acceptor ≡ false → why ≡ NoBot.NoneCame)
            × (place < length self.old.poller.table.deadlines → is_vacant self.old.arrivals.items place ≡ true →
            self.old.acceptor.came < u32.MAX → is_bot_due self.old.poller.table self.old.acceptor ≡ true → HasRoomForOne self.old.present →
            BringsNoBot N.transition self.old.acceptor.descriptors (λ address. may_come self.old.allow.now self.old.max_per_address
            (hosts_of self.old.present.bots.items) (host_of (socket_ip address))) self.old.poller.network
            self.new.poller.network why) }
        ensures same { self.new ≡ record self.old {
          poller = self.new.poller;
          acceptor = self.new.acceptor;
          arrivals = self.new.arrivals;
          present = self.new.present;
          counts = self.new.counts;
          errors = self.new.errors;
        } }
    {
        // Most rounds end here.
        if !self.acceptor.is_due(&self.poller.table) {
            self.acceptor.await_bots();
            self.poller.table.is_bounded();
            return false;
        }
        self.accept_due(place)
    }

    /// Returns the result of the connect for the bot at a place, if it has one. Otherwise the place rests, until something is
    /// reported of the connect, or until its deadline. After a request that its session ends now, the connect is given up.
    ///
    /// `present`, `leaves`: those present are the same, except for a bot whose connect is given up. The line of the end of its
    /// session is logged if sessions are.
    ///
    /// `reached`, `counted`, `kept`: a server that was reached is up, and one that was not is away, unless sessions end now. A
    /// connect that is given up counts as an end, by no server or by the stop.
    ///
    /// `transition`: it makes only calls of a connect: one begins, is asked for its state, or a socket is followed. So it accepts
    /// no bot and closes no listener (`GoesBy`). Each connection that a connect began is followed
    /// under the key of its place (`ConnectsFrom`).
    ///
    /// `connected`: ports are ready only if the network reported that the connect of their server's connection succeeded.
    #[inline(never)]
    fn connected(&mut self, place: usize) -> Connect<SocketPorts<'w, N::Connection>>
        ensures transition { RunEvolves N.transition N.Connection.to_give N.Connection.taken N.Connection.calls
            (λ (ports : PortsOf N.Connection). ports)
            (run_state (self.old.poller.network, self.old.poller.table) (self.old.idle_time, self.old.stall_time) self.old.acceptor
            self.old.arrivals.items self.old.closings self.old.control) (Connects place result)
            (run_state (self.new.poller.network, self.new.poller.table) (self.new.idle_time, self.new.stall_time) self.new.acceptor
            self.new.arrivals.items self.new.closings self.new.control) }
        ensures unreached { result ≡ Connect.Failed →
            is_connect_stopped self.old.control (arrival_at self.old.arrivals.items place) ≡ false →
            (arrival : Arriving N.Connection) × (tried : N) × TakesOut self.old.arrivals.items place arrival self.new.arrivals.items
            × IsUnreached N.transition self.old.servers.now (key_of place Sides.Server) self.old.poller.table.reading arrival.gives_up arrival.tried
            self.old.poller.network tried }
        ensures connected { (ports : PortsOf N.Connection) → result ≡ Connect.Ready ports → HasConnected N.transition
            ports.sides.server.stream.stream self.old.poller.network self.new.poller.network }
        ensures present { result ≢ Connect.Failed → self.new.present ≡ self.old.present }
        ensures kept { result ≡ Connect.Pending → (self.new.server ≡ self.old.server) × (self.new.counts ≡ self.old.counts)
            × (self.new.unreached ≡ self.old.unreached) }
        ensures reached { (ports : PortsOf N.Connection) → result ≡ Connect.Ready ports →
            (self.new.server ≡ reached_at self.old.poller.table.reading self.old.server) × (self.new.counts ≡ self.old.counts)
            × (self.new.unreached ≡ self.old.unreached) }
        ensures counted { result ≡ Connect.Failed →
            (self.new.counts ≡ ending_counted (end_cause_of (why_unreached
            (is_connect_stopped self.old.control (arrival_at self.old.arrivals.items place)))) self.old.counts)
            × (self.new.server ≡ (if is_connect_stopped self.old.control (arrival_at self.old.arrivals.items place)
            then self.old.server else away_at self.old.poller.table.reading self.old.server))
            × (self.new.unreached ≡ (if is_connect_stopped self.old.control (arrival_at self.old.arrivals.items place)
            then self.old.unreached else one_more_unreached self.old.unreached)) }
        ensures leaves { result ≡ Connect.Failed → (arrival : Arriving N.Connection)
            × TakesOut self.old.arrivals.items place arrival self.new.arrivals.items
            × (self.new.present.bots.items ≡ without_bot arrival.identity.number self.old.present.bots.items)
            × (noted : E) × Logs E.contents E.Fails self.old.is_verbose (end_notice arrival.identity self.old.poller.table.reading
            (why_unreached (is_connect_stopped self.old.control (arrival_at self.old.arrivals.items place)))
            nothing_accounted) noted self.new.errors }
        ensures same { self.new ≡ record self.old {
          poller = self.new.poller;
          arrivals = self.new.arrivals;
          closings = self.new.closings;
          present = self.new.present;
          unreached = self.new.unreached;
          server = self.new.server;
          counts = self.new.counts;
          errors = self.new.errors;
        } }
    {
        let Some(arrival) = self.take_arrival(place) else {
            self.poller.table.is_bounded();
            return Connect::Pending;
        };
        let mut arrival = arrival;
        if self.is_stop_requested(arrival.number()) {
            self.let_go(place, arrival.give_up(), Why::STOPPED);
            self.poller.table.is_bounded();
            return Connect::Failed;
        }
        if arrival.advances(&mut self.poller, self.servers, server_key(place)) {
            self.poller.table.rest(place, arrival.due());
            self.put_arrival(place, arrival);
            self.poller.table.is_bounded();
            return Connect::Pending;
        }
        let now = self.poller.table.now();
        match arrival.join(now, (self.idle_time, self.stall_time)) {
            Ok(ports) => {
                self.note_reached();
                self.log_server(&ports);
                self.poller.table.is_bounded();
                Connect::Ready(ports)
            }
            Err(left) => {
                self.note_away(left.tried, left.failure);
                self.let_go(place, left, Why::NoServer);
                self.poller.table.is_bounded();
                Connect::Failed
            }
        }
    }

    /// Ends the session at a place: both its sockets begin to close.
    ///
    /// `transition`: it makes no call of the network but those that follow these two sockets (`GoesBy`).
    ///
    /// `logged`: the line of its end is logged if sessions are: with its number, its time, its cause and its counts.
    ///
    /// `counted`: its frames and its faults are added to those of the run, and its end counts by its cause.
    fn retire(&mut self, place: usize, ports: SocketPorts<'w, N::Connection>, end: SessionEnd)
        ensures transition { RunEvolves N.transition N.Connection.to_give N.Connection.taken N.Connection.calls
            (λ (ports : PortsOf N.Connection). ports)
            (run_state (self.old.poller.network, self.old.poller.table) (self.old.idle_time, self.old.stall_time) self.old.acceptor
            self.old.arrivals.items self.old.closings self.old.control) (Retires place ports.entry end)
            (run_state (self.new.poller.network, self.new.poller.table) (self.new.idle_time, self.new.stall_time) self.new.acceptor
            self.new.arrivals.items self.new.closings self.new.control) }
        ensures closes { ClosesBothAt N.Connection.to_give N.Connection.taken N.Connection.calls
            self.old.poller.table.reading self.old.closings (pair_of ports.entry) self.new.closings }
        ensures present { self.new.present.bots.items ≡ without_bot ports.entry.identity.number self.old.present.bots.items }
        ensures logged { Logs E.contents E.Fails self.old.is_verbose (end_notice ports.entry.identity self.old.poller.table.reading
            (why_retired end (timed_of ports.entry.sides) ports.entry.stop self.old.stall_seconds) end.account) self.old.errors self.new.errors }
        ensures counted { self.new.counts ≡ ending_counted
            (end_cause_of (why_retired end (timed_of ports.entry.sides) ports.entry.stop self.old.stall_seconds))
            (session_counted end.account self.old.counts) }
        ensures same { self.new ≡ record self.old {
          poller = self.new.poller;
          closings = self.new.closings;
          present = self.new.present;
          counts = self.new.counts;
          errors = self.new.errors;
        } }
    {
        let Bot { number, since, .. } = ports.identity();
        self.present.remove(number);
        let lasted = Lasted::between(since, self.poller.table.now());
        let sockets = ports.sockets();
        let timed = PerSide::new(sockets.at(Side::Bot).timed, sockets.at(Side::Server).timed);
        let stop = ports.stop_cause();
        let why = why_of(end.cause, end.fault_field, &timed, stop, self.stall_seconds);
        let account = end.account;
        self.counts.add_session(&account);
        self.counts.count_end(end_cause(why));
        self.log_session(SessionNotice::Ended {
            number,
            lasted,
            why,
            account,
        });
        self.poller.table.forget(place);
        self.closings.begin_both(&mut self.poller, place, ports);
        self.poller.table.is_bounded();
    }

    fn log(&mut self, notice: Notice)
        ensures transition { RunEvolves N.transition N.Connection.to_give N.Connection.taken N.Connection.calls
            (λ (ports : PortsOf N.Connection). ports)
            (run_state (self.old.poller.network, self.old.poller.table) (self.old.idle_time, self.old.stall_time) self.old.acceptor
            self.old.arrivals.items self.old.closings self.old.control) (Notifies notice)
            (run_state (self.new.poller.network, self.new.poller.table) (self.new.idle_time, self.new.stall_time) self.new.acceptor
            self.new.arrivals.items self.new.closings self.new.control) }
        ensures same { self.new ≡ record self.old { errors = self.new.errors } }
    {
        self.poller.table.is_bounded();
        // The run goes on if the line cannot be written.
        let _ = writeln!(self.errors, "daide-gate: {notice}");
    }
}
