//! Accepted bots, and their connects to the server.
//!
//! Neither an accept nor a connect blocks. The server's name is resolved at the start. If it has several addresses,
//! they are tried one after the other, within one deadline for all: each but the last has an equal part of the time.

ghost use Rattle.std.specs.Duration.{as_nanos};
ghost use Rattle.std.specs.Net.Socket.{socket_ip};
ghost use Rattle.std.specs.Prelude.{◌≡◌, ◌⊎◌, ℕ, ◌+◌, ◌<◌, ◌≤◌, ◌++◌, ◌∷◌, ◌||◌, nat_lt, [], Some, None, Err, true, false, IfOk, IfErr, IfSome, IfNone, IsSome, length};
ghost use Rattle.daide_buffered_io.specs.Buffers.{Buffer};
ghost use Rattle.daide_io.specs.Network.{AsksConnect, Listens, StopsListening, connect_status};
ghost use Rattle.daide_io.specs.declared.network.ConnectReport.{ConnectReport};
ghost use Rattle.daide_settings.specs.Ranges.{host_of, may_come};
ghost use Rattle.daide_sockets.specs.Accepting.{is_bot_due, is_declined, may_connect, descriptors_for, round_begun, shut, AcceptsOnce, AcceptsOneBot, BringsBot};
ghost use Rattle.daide_sockets.specs.Accepting.{AsksAtMostOnce, BringsNoBot, IsNextTry, time_part, ConnectsFrom, HasConnected, TriesOn, GivesConnection, Pauses};
ghost use Rattle.daide_sockets.specs.PollTimes.{listener_armed};
ghost use Rattle.daide_sockets.specs.KeptRows.{ChangesRows};
ghost use Rattle.daide_sockets.specs.Pairing.{ConnectsTo, StaysPending, IsFreshConnect, IsFresh, IsJoined, pending_connects};
ghost use Rattle.daide_sockets.specs.Present.{HasRoomForOne, bot_from, hosts_of};
ghost use Rattle.daide_sockets.specs.Scheduling.{pair_of};
ghost use Rattle.daide_sockets.specs.Table.{listener_key, merged, report_at, arming};
ghost use Rattle.daide_sockets.specs.Timers.{BeginsAt, timers_of};
ghost use Rattle.daide_sockets.specs.Clock.{IsAfter, earlier, is_past};

use crate::clock::earlier;
use crate::listener::Listener;
use crate::poller::Poller;
use crate::ports::SocketPorts;
use crate::present::{Bot, Present};
use crate::socket::Socket;
use crate::table::SocketTable;
use daide_buffered_io::pool::Pool;
use daide_io::duplex::Duplex;
use daide_io::network::{ConnectStatus, Network};
use daide_settings::{AddressRange, Host};
use std::io::ErrorKind;
use std::marker::Model;
use std::net::SocketAddr;
use std::time::{Duration, Instant};

/// The listener for bots.
#[derive(Drop)]
pub struct Acceptor {
    pub listener: Listener,
    /// Whether it was asked for a bot since the last poll, so that the next one is for bots too.
    awaits_bots: bool,
    /// Whether the listener is closed.
    is_closed: bool,
    /// The number of bots accepted.
    came: u32,
    /// The further descriptors that must be free for an accept: for the connection, for that to the server, for a record, and
    /// one that is left to a control connection.
    descriptors: usize,
}

/// Why an accept brings no bot.
#[derive(Clone, Copy)]
pub enum NoBot {
    /// None came, a descriptor is missing, or no number is left.
    NoneCame,
    /// The bot at this address may not come.
    MayNotCome(SocketAddr),
    /// The system does not follow the connection of the bot at this address, or the list of those present has no room.
    NotFollowed(SocketAddr),
}

impl Acceptor {
    /// Has the listener followed. Returns `None` if the system refuses.
    pub fn new<N: Network>(poller: &mut Poller<N>) -> Option<Acceptor>
        ensures begins { IfSome result (λ acceptor. (acceptor.came ≡ 0) × (acceptor.listener.resumes_at ≡ None)
            × (acceptor.awaits_bots ≡ false) × (acceptor.is_closed ≡ false)
            × (acceptor.descriptors ≡ descriptors_for false)) }
        ensures listens { IsSome result → N.transition poller.old.network (Listens (listener_key poller.old.table) true)
            poller.new.network }
        ensures table { poller.new.table ≡ poller.old.table }
    {
        let key = poller.table.listener_key();
        if !poller.network.listen(key) {
            return None;
        }
        Some(Acceptor {
            listener: Listener::new(),
            awaits_bots: false,
            is_closed: false,
            came: 0,
            descriptors: 3,
        })
    }

    /// Has each accept need a descriptor for the file of a record, too, or not.
    pub(crate) fn set_recorded(&mut self, is_recorded: bool)
        ensures { self.new ≡ record self.old { descriptors = descriptors_for is_recorded } }
    {
        self.descriptors = if is_recorded { 4 } else { 3 };
    }

    /// Begins a round, in which it was not asked for a bot yet. Ends the pause after a failed accept, if its time is over
    /// at this reading of the clock.
    pub(crate) fn begin_round(&mut self, now: Option<Instant>)
        ensures { self.new ≡ round_begun now self.old }
    {
        self.awaits_bots = false;
        self.listener.end_pause(now);
    }

    /// Has the next poll be for bots too.
    pub(crate) fn await_bots(&mut self)
        ensures { self.new ≡ record self.old { awaits_bots = true } }
    {
        self.awaits_bots = true;
    }

    /// Has the next poll watch the listener: it does not block if it is for bots too and an accept is due, and lasts at
    /// most until the end of the pause.
    pub fn arm(&self, table: &mut SocketTable)
        ensures { table.new ≡ arming table.old (listener_armed table.old self.now).0
            (listener_armed table.old self.now).1 }
    {
        let is_due = self.awaits_bots && self.is_due(table);
        table.arm(is_due, self.listener.resumes_at);
    }

    /// Closes the listener: no bot is accepted any more, and no poll is for one.
    pub(crate) fn close<N: Network>(&mut self, poller: &mut Poller<N>)
        ensures shut { self.new ≡ shut self.old }
        ensures table { poller.new.table ≡ poller.old.table }
        ensures closes { N.transition poller.old.network StopsListening poller.new.network }
    {
        self.awaits_bots = false;
        self.listener.resumes_at = None;
        self.is_closed = true;
        poller.network.stop_listening();
    }

    /// Returns the number of bots accepted.
    pub(crate) fn came(&self) -> u32
        ensures { result ≡ self.now.came }
    {
        self.came
    }

    /// Returns whether the listener is closed.
    pub(crate) fn is_closed(&self) -> bool
        ensures { result ≡ self.now.is_closed }
    {
        self.is_closed
    }

    /// Returns whether an accept is made now: the listener is not closed, it is ready by the table, and no pause is under
    /// way.
    pub(crate) fn is_due(&self, table: &SocketTable) -> bool
        ensures { result ≡ is_bot_due table.now self.now }
    {
        !self.is_closed && self.listener.is_due(table, table.listener_key())
    }

    /// Accepts a connection, and returns it with its address. Returns `None` if there is none, or if a descriptor is missing.
    /// Makes no system call during the pause after a failed accept.
    ///
    /// `once`: if an accept is due, exactly one is tried, and what it gave is returned. So no connection is dropped.
    ///
    /// `left`: if it returns none, no accept is due any more at this reading of the clock.
    ///
    /// `given`, `due`: it returns only what the network gave, in a call that was due.
    pub fn accept<N: Network>(
        &mut self,
        poller: &mut Poller<N>,
    ) -> Option<(N::Connection, SocketAddr)>
        ensures came { self.new.came ≡ self.old.came }
        ensures awaited { self.new.awaits_bots ≡ self.old.awaits_bots }
        ensures descriptors { self.new.descriptors ≡ self.old.descriptors }
        ensures clock { poller.new.table.reading ≡ poller.old.table.reading }
        ensures once { is_bot_due poller.old.table self.old ≡ true →
            AcceptsOnce N.transition self.old.descriptors poller.old.network poller.new.network result }
        ensures not_made { is_bot_due poller.old.table self.old ≡ false →
            (result ≡ None) × (poller.new.network ≡ poller.old.network) }
        ensures left { result ≡ None →
            is_bot_due poller.new.table self.new ≡ false }
        ensures due { IfSome result (λ _.
            is_bot_due poller.old.table self.old ≡ true) }
        ensures given { IfSome result (λ _. GivesConnection N.transition self.old.descriptors poller.old.network) }
        ensures table { ChangesRows (λ key. key ≡ listener_key poller.old.table) poller.old.table poller.new.table }
    {
        if !self.is_due(&poller.table) {
            return None;
        }
        let key = poller.table.listener_key();
        match poller.accept(self.descriptors) {
            Ok(came) => {
                self.listener.note_accept(&mut poller.table, key, None);
                Some(came)
            }
            Err(error) => {
                self.listener
                    .note_accept(&mut poller.table, key, Some(error.kind()));
                None
            }
        }
    }

    /// Returns the next bot that came, and its socket. The bot is added to those present.
    ///
    /// Fails with `NoneCame` if all numbers are given, or if none came; with `MayNotCome` for a bot that may not come by the
    /// ranges and the limit `rules`, beside those present; and with `NotFollowed` if the system refuses to follow it. The
    /// connection of either bot is closed at once. The next poll does not block after `MayNotCome`, since an accept is still due:
    /// the system does not report again the bots that wait behind it. After a refusal a pause begins, as after a failed accept.
    ///
    /// `one`: exactly one bot was accepted, is followed, and is counted. It has the next number, and came at the table's reading
    /// of the clock.
    ///
    /// `none`: no bot is counted.
    ///
    /// `once`: if an accept is due, exactly one is tried, and then the network at most follows its connection.
    ///
    /// `not_made`, `due`: if none is due, or if all numbers are given, no call is made, and no bot is returned.
    ///
    /// `accepted`: the address of the bot is the one that the network returned with its connection, which is followed under
    /// this key.
    ///
    /// `kept`: a connection that was accepted is closed only if its bot may not come, if the list of those present has no room,
    /// or if the system refuses to follow it under this key. The error says which, with the address that the network returned.
    ///
    /// `none_due`: if no accept is due, none came.
    ///
    /// `awaited`: the next poll is for bots if it was.
    ///
    /// `left`: an accept is still due only if one was made that gave a connection: of a bot that may not come, or of one that
    /// was refused. After a refusal it is due only if no pause could begin, without a clock (`refused`).
    pub(crate) fn next_bot<'w, N: Network>(
        &mut self,
        key: usize,
        poller: &mut Poller<N>,
        pool: &'w Pool,
        rules: (&[AddressRange], u16),
        present: &mut Present,
    ) -> Result<(Bot, Socket<'w, N::Connection>), NoBot>
        ensures one { IfOk result (λ bot. (self.new.came ≡ self.old.came + 1)
            × (bot.0 ≡ bot_from self.new.came bot.0.address poller.old.table.reading) × IsFresh bot.1.stream) }
        ensures none { IfErr result (λ _. self.new.came ≡ self.old.came) }
        ensures once { is_bot_due poller.old.table self.old ≡ true →
            self.old.came < u32.MAX → AcceptsOneBot N.transition self.old.descriptors poller.old.network poller.new.network }
        ensures not_made { (self.old.came < u32.MAX →
            is_bot_due poller.old.table self.old ≡ false) →
            poller.new.network ≡ poller.old.network }
        ensures due { IfOk result (λ _. (self.old.came < u32.MAX)
            × (is_bot_due poller.old.table self.old ≡ true)) }
        ensures accepted { IfOk result (λ bot. BringsBot N.transition self.old.descriptors bot.0.address key bot.1.stream.stream poller.old.network
            poller.new.network) }
        ensures kept { IfErr result (λ why. self.old.came < u32.MAX →
            is_bot_due poller.old.table self.old ≡ true →
            HasRoomForOne present.old → BringsNoBot N.transition self.old.descriptors
            (λ address. may_come rules.entry.0.now rules.entry.1 (hosts_of present.old.bots.items) (host_of (socket_ip address)))
            poller.old.network poller.new.network why) }
        ensures none_due { is_bot_due poller.old.table self.old ≡ false → result ≡ Err NoBot.NoneCame }
        ensures clock { poller.new.table.reading ≡ poller.old.table.reading }
        ensures allowed { IfOk result (λ bot. may_come rules.entry.0.now rules.entry.1 (hosts_of present.old.bots.items)
            (host_of (socket_ip bot.0.address)) ≡ true) }
        ensures added { IfOk result (λ bot. present.new.bots.items ≡ present.old.bots.items ++ bot.0 ∷ []) }
        ensures same { IfErr result (λ _. present.new ≡ present.old) }
        ensures awaited { self.new.awaits_bots ≡ self.old.awaits_bots }
        ensures left { IfErr result (λ _. self.old.came < u32.MAX →
            is_bot_due poller.new.table self.new ≡ true →
            GivesConnection N.transition self.old.descriptors poller.old.network) }
        ensures refused { IfErr result (λ why. is_declined why ≡ false → self.old.came < u32.MAX →
            is_bot_due poller.new.table self.new ≡ true →
            Pauses poller.old.table.reading ErrorKind.Other None) }
        ensures table { ChangesRows (λ row. (row ≡ listener_key poller.old.table) ⊎ (row ≡ key)) poller.old.table
            poller.new.table }
        ensures declined { (address : SocketAddr) → result ≡ Err (NoBot.MayNotCome address) →
            may_come rules.entry.0.now rules.entry.1 (hosts_of present.old.bots.items) (host_of (socket_ip address)) ≡ false }
    {
        let Some(number) = self.came.checked_add(1) else {
            return Err(NoBot::NoneCame);
        };
        let Some((stream, address)) = self.accept(poller) else {
            return Err(NoBot::NoneCame);
        };
        let host = Host::of(address.ip());
        let (allow, most) = rules;
        if !present.may_come(allow, most, host) {
            return Err(NoBot::MayNotCome(address));
        }
        let Some(socket) = Socket::new(poller, pool, stream, key) else {
            self.listener.pause(poller.table.now(), ErrorKind::Other);
            return Err(NoBot::NotFollowed(address));
        };
        let bot = Bot {
            number,
            host,
            address,
            since: poller.table.now(),
        };
        // The list has room for each bot of a run.
        if !present.add(bot) {
            self.listener.pause(poller.table.now(), ErrorKind::Other);
            return Err(NoBot::NotFollowed(address));
        }
        self.came = number;
        Ok((bot, socket))
    }
}

/// A bot whose connect to the server is under way.
#[derive(Drop)]
pub(crate) struct PendingConnection<'w, S: Drop> {
    identity: Bot,
    bot: Socket<'w, S>,
    server: Option<Socket<'w, S>>,
    /// The number of addresses tried.
    tried: usize,
    /// The deadline of the connect.
    gives_up: Option<Instant>,
    /// The deadline of the initial message.
    im_due: Option<Instant>,
    /// The time that each address has, if a further one is left.
    part: Duration,
    /// The moment at which the next address is tried; `None` if none is left, or for never.
    moves_on: Option<Instant>,
    /// Why the connect to the address that was tried last failed; `None` if it did not, or not yet.
    failure: Option<ErrorKind>,
}

impl<'w, S: Drop> Model for PendingConnection<'w, S> {
    ghost use Rattle.std.specs.Prelude.{option_map};
    ghost use Rattle.daide_sockets.specs.Pairing.{Arriving};

    ghost Value = { Arriving S };

    ghost view = { λ a. record {
      identity = a.identity;
      bot = a.bot.stream;
      server = option_map (λ socket. socket.stream) a.server;
      known = option_map (λ socket. socket.readiness) a.server;
      tried = a.tried;
      gives_up = a.gives_up;
      im_due = a.im_due;
      part = a.part;
      moves_on = a.moves_on;
    } };
}

/// Returns an equal part of a time for each of this number of addresses.
fn time_part(time: Duration, addresses: usize) -> Duration
    ensures { as_nanos result ≡ time_part (as_nanos time) addresses }
{
    let count = u32::try_from(addresses).unwrap_or(u32::MAX);
    time.checked_div(count).unwrap_or(time)
}

/// Returns the moment at which the next address is tried, by the table's reading of the clock: after this part of the time if
/// an address is left; `None` for never.
fn next_try(table: &SocketTable, is_left: bool, part: Duration) -> Option<Instant>
    ensures { IsNextTry table.now.reading is_left (as_nanos part) result }
{
    if is_left && part > Duration::ZERO {
        return table.after(part);
    }
    None
}

/// Returns how many connects are under way.
pub(crate) fn pending_count<S: Drop>(arrivals: &[Option<PendingConnection<'_, S>>]) -> usize
    ensures { result ≡ pending_connects arrivals.now }
{
    let mut count = 0;
    for arrival in arrivals {
        if arrival.is_some() {
            count += 1;
        }
    }
    count
}

/// A bot with no server reached before the deadline, and its socket.
#[derive(Drop)]
pub(crate) struct Unreached<'w, S: Drop> {
    pub identity: Bot,
    pub bot: Socket<'w, S>,
    /// The number of addresses tried.
    pub tried: usize,
    /// Why the connect to the last of them failed; `None` if it had no result.
    pub failure: Option<ErrorKind>,
}

/// Starts a connect to the next address that permits one, and returns its connection, followed under this key. Returns
/// `None` if no address is left. `failure` is then the error of the last connect that did not begin, or `Other` if the system
/// does not follow its connection.
fn begun<N: Network>(
    poller: &mut Poller<N>,
    servers: &[SocketAddr],
    key: usize,
    tried: &mut usize,
    failure: &mut Option<ErrorKind>,
) -> Option<N::Connection>
    ensures connects { IfSome result (λ begun. ConnectsTo N.transition servers.now begun key poller.new.network) }
    ensures calls { (count : ℕ) × (tried.new ≡ tried.old + count)
        × ConnectsFrom N.transition servers.now key tried.old count poller.old.network poller.new.network }
    ensures all { IfNone result (length servers.now ≤ tried.new) }
    ensures unknown { IfSome result (λ _. (report_at poller.new.table key).may_write ≡ false) }
    ensures table { ChangesRows (λ row. row ≡ key) poller.old.table poller.new.table }
{
    while let Some(address) = servers.get(*tried) {
        *tried += 1;
        let mut stream = match poller.network.connect(*address) {
            Ok(stream) => stream,
            Err(error) => {
                *failure = Some(error.kind());
                continue;
            }
        };
        if poller.follow(&mut stream, key) {
            *failure = None;
            return Some(stream);
        }
        *failure = Some(ErrorKind::Other);
    }
    None
}

/// Creates the socket of a connect that began.
fn connecting<'w, S: Duplex + Drop>(
    begun: Option<S>,
    key: usize,
    pool: &'w Pool,
) -> Option<Socket<'w, S>>
    ensures fresh { IfSome result (λ socket. IsFresh socket.stream × (socket.readiness.may_write ≡ false)) }
    ensures none { (result ≡ None → begun ≡ None) × (begun ≡ None → result ≡ None) }
{
    match begun {
        Some(stream) => Some(Socket::over(pool, stream, key)),
        None => None,
    }
}

impl<'w, S: Duplex + Drop> PendingConnection<'w, S> {
    /// Starts the connect of a newly accepted bot, with this socket, which is followed under this key.
    ///
    /// `calls`, `all`: connects are made to the first addresses of the server, until one begins or no address is left, and
    /// no other call.
    pub(crate) fn new<N: Network<Connection = S>>(
        poller: &mut Poller<N>,
        servers: &[SocketAddr],
        key: usize,
        came: (Bot, Socket<'w, S>),
        times: (Duration, Duration),
    ) -> PendingConnection<'w, S>
        ensures identity { result.identity ≡ came.entry.0 }
        ensures bot { result.bot ≡ came.entry.1.stream }
        ensures server { IsFreshConnect result.server }
        ensures calls { ConnectsFrom N.transition servers.now key 0 result.tried poller.old.network poller.new.network }
        ensures all { result.server ≡ None → length servers.now ≤ result.tried }
        ensures table { ChangesRows (λ row. row ≡ key) poller.old.table poller.new.table }
        ensures im_due { IsAfter poller.old.table.reading (as_nanos times.0) result.im_due }
        ensures gives_up { IsAfter poller.old.table.reading (as_nanos times.1) result.gives_up }
        ensures moves_on { IsNextTry poller.old.table.reading (nat_lt result.tried (length servers.now))
            (time_part (as_nanos times.1) (length servers.now)) result.moves_on }
    {
        let (identity, bot) = came;
        let (im_time, connect_time) = times;
        let part = time_part(connect_time, servers.len());
        let gives_up = poller.table.after(connect_time);
        let im_due = poller.table.after(im_time);
        let (mut tried, mut failure) = (0, None);
        let begun = begun(poller, servers, key, &mut tried, &mut failure);
        let server = connecting(begun, key, bot.pool);
        let moves_on = next_try(&poller.table, tried < servers.len(), part);
        PendingConnection {
            identity,
            bot,
            server,
            tried,
            gives_up,
            im_due,
            part,
            moves_on,
            failure,
        }
    }

    /// Returns the state of the connect to the present address, whose socket has the row with this key. Asks the network if a
    /// poll reported something of it.
    ///
    /// `quiet`: without a report it is pending, and no call is made.
    ///
    /// `asked`: with one it is the state that the network reports.
    ///
    /// `still`: if it is pending, the connect has no result until the next report.
    ///
    /// `reported`: if it is connected, what was reported is known of its socket.
    fn progress<N: Network<Connection = S>>(
        &mut self,
        poller: &mut Poller<N>,
        key: usize,
    ) -> ConnectStatus
        ensures quiet { may_connect poller.old.table key self.old.known ≡ false →
            (result ≡ ConnectStatus.Pending) × (poller.new.network ≡ poller.old.network) }
        ensures asked { may_connect poller.old.table key self.old.known ≡ true → (server : Buffer S) →
            self.old.server ≡ Some server →
            (report : ConnectReport) × N.transition poller.old.network (AsksConnect server.stream report) poller.new.network
            × (result ≡ connect_status report.failure report.has_peer) }
        ensures still { result ≡ ConnectStatus.Pending → may_connect poller.new.table key self.new.known ≡ false }
        ensures reported { result ≡ ConnectStatus.Connected → IfSome self.new.known (λ known.
            merged known (report_at poller.old.table key) ≡ known) }
        ensures calls { AsksAtMostOnce N.transition poller.old.network poller.new.network }
        ensures connected { result ≡ ConnectStatus.Connected → IfSome self.old.server (λ server.
            HasConnected N.transition server.stream poller.old.network poller.new.network) }
        ensures none { self.old.server ≡ None → result ≡ ConnectStatus.Failed }
        ensures rest { self.new ≡ record self.old { known = self.new.known } }
        ensures table { ChangesRows (λ row. row ≡ key) poller.old.table poller.new.table }
    {
        let Some(server) = &mut self.server else {
            return ConnectStatus::Failed;
        };
        let known = poller.table.take_report(key);
        server.note_report(known);
        if !server.readiness.may_write {
            return ConnectStatus::Pending;
        }
        let report = poller.network.connect_report(server.connection());
        self.failure = report.failure;
        let status = report.status();
        if status == ConnectStatus::Pending {
            server.readiness.may_write = false;
        }
        status
    }

    /// Closes the connect, and starts one to the next address, if one is left. It has its part of the time if another is left.
    fn try_next<N: Network<Connection = S>>(
        &mut self,
        poller: &mut Poller<N>,
        servers: &[SocketAddr],
        key: usize,
    )
        ensures goes_on { StaysPending self.old self.new }
        ensures calls { (count : ℕ) × (self.new.tried ≡ self.old.tried + count)
            × ConnectsFrom N.transition servers.now key self.old.tried count poller.old.network poller.new.network }
        ensures all { self.new.server ≡ None → length servers.now ≤ self.new.tried }
        ensures still { IsSome self.new.server → may_connect poller.new.table key self.new.known ≡ false }
        ensures moves_on { IsNextTry poller.old.table.reading (nat_lt self.new.tried (length servers.now)) (as_nanos self.old.part)
            self.new.moves_on }
        ensures table { ChangesRows (λ row. row ≡ key) poller.old.table poller.new.table }
    {
        self.server = None;
        let begun = begun(poller, servers, key, &mut self.tried, &mut self.failure);
        self.server = connecting(begun, key, self.bot.pool);
        self.moves_on = next_try(&poller.table, self.tried < servers.len(), self.part);
    }

    /// Closes the connect once its deadline is past at the table's reading of the clock.
    fn drop_if_late(&mut self, table: &SocketTable)
        ensures in_time { is_past table.now.reading self.old.gives_up ≡ false → self.new ≡ self.old }
        ensures late { is_past table.now.reading self.old.gives_up ≡ true →
            self.new ≡ record self.old { server = None; known = None } }
        ensures goes_on { StaysPending self.old self.new }
    {
        if table.is_over(self.gives_up) {
            self.server = None;
            self.failure = None;
        }
    }

    /// Returns the number of the session of its bot.
    pub(crate) fn number(&self) -> u32
        ensures { result ≡ self.now.identity.number }
    {
        self.identity.number
    }

    /// Returns its nearest deadline: of the present address, or of all.
    pub(crate) fn due(&self) -> Option<Instant>
        ensures { result ≡ earlier self.now.moves_on self.now.gives_up }
    {
        earlier(self.moves_on, self.gives_up)
    }

    /// Advances the connect without blocking. Returns true if it is still under way; otherwise the server is connected,
    /// or no address is left, or the deadline is over.
    ///
    /// `late`: once its deadline is past at the reading of the clock, it is no longer under way.
    ///
    /// `early`: before its deadline it is given up only after a poll reported something of the connect, or once the time of the
    /// present address is over.
    ///
    /// `moves`: while it is under way the time of the present address is not over, if a further one is left.
    ///
    /// `tries`: a connect that failed, or whose time is over, is followed by connects to the next addresses, each once, and no other
    /// call is made.
    ///
    /// `all`: before its deadline it is given up only if no address is left.
    ///
    /// `still`: while it is under way it has no result until the next report.
    ///
    /// `reported`: once it is not, what was reported is known of a socket that is connected.
    ///
    /// `connected`: the server is reached only if the network reports that its connect succeeded.
    pub(crate) fn advances<N: Network<Connection = S>>(
        &mut self,
        poller: &mut Poller<N>,
        servers: &[SocketAddr],
        key: usize,
    ) -> bool
        ensures goes_on { StaysPending self.old self.new }
        ensures reached { result ≡ false → IsSome self.new.server → self.new ≡ record self.old { known = self.new.known } }
        ensures reported { result ≡ false → IfSome self.new.known (λ known.
            merged known (report_at poller.old.table key) ≡ known) }
        ensures connected { result ≡ false → IfSome self.new.server (λ server.
            HasConnected N.transition server.stream poller.old.network poller.new.network) }
        ensures still { result ≡ true → may_connect poller.new.table key self.new.known ≡ false }
        ensures late { result ≡ true → is_past poller.old.table.reading self.old.gives_up ≡ false }
        ensures early { result ≡ false → is_past poller.old.table.reading self.old.gives_up ≡ false →
            (may_connect poller.old.table key self.old.known || is_past poller.old.table.reading self.old.moves_on) ≡ true }
        ensures moves { result ≡ true → is_past poller.old.table.reading self.new.moves_on ≡ false }
        ensures tries { TriesOn N.transition servers.now key self.old.tried self.new.tried poller.old.network
            poller.new.network }
        ensures all { is_past poller.old.table.reading self.old.gives_up ≡ false → self.new.server ≡ None →
            length servers.now ≤ self.new.tried }
        ensures table { ChangesRows (λ row. row ≡ key) poller.old.table poller.new.table }
    {
        let moves_on = match self.progress(poller, key) {
            ConnectStatus::Connected => return false,
            ConnectStatus::Failed => true,
            ConnectStatus::Pending => poller.table.is_over(self.moves_on),
        };
        if moves_on {
            self.try_next(poller, servers, key);
        }
        self.drop_if_late(&poller.table);
        self.server.is_some()
    }

    /// Returns the ports of a bot whose server is connected, at this reading of the clock. The first time is the idle
    /// timeout of both sides, the second their stall timeout; `None` for no timeout.
    ///
    /// Fails with the bot if the server was not reached.
    pub(crate) fn join(
        self,
        now: Option<Instant>,
        times: (Option<Duration>, Option<Duration>),
    ) -> Result<SocketPorts<'w, S>, Unreached<'w, S>>
        ensures joined { IfOk result (λ ports. IsJoined self.entry (pair_of ports)) }
        ensures im_due { IfOk result (λ ports. ports.im_due ≡ self.entry.im_due) }
        ensures begins { IfOk result (λ ports. BeginsAt now times (timers_of ports)) }
        ensures known { IfOk result (λ ports. self.entry.known ≡ Some ports.sides.server.readiness) }
        ensures unreached { IfErr result (λ left. (left.identity ≡ self.entry.identity)
            × (left.bot.stream ≡ self.entry.bot) × (self.entry.server ≡ None)) }
    {
        let PendingConnection {
            identity,
            bot,
            server,
            tried,
            gives_up: _,
            im_due,
            part: _,
            moves_on: _,
            failure,
        } = self;
        let Some(server) = server else {
            return Err(Unreached {
                identity,
                bot,
                tried,
                failure,
            });
        };
        Ok(SocketPorts::new(identity, (bot, server), now, im_due, times))
    }

    /// Gives up the connect, and returns the bot.
    pub(crate) fn give_up(self) -> Unreached<'w, S>
        ensures { (result.identity ≡ self.entry.identity) × (result.bot.stream ≡ self.entry.bot) }
    {
        let PendingConnection {
            identity,
            bot,
            server: _,
            tried,
            gives_up: _,
            im_due: _,
            part: _,
            moves_on: _,
            failure,
        } = self;
        Unreached {
            identity,
            bot,
            tried,
            failure,
        }
    }
}
