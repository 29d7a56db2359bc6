//! The bots that come to a run: accepts, connects to the server, and those that are given up.

ghost use Rattle.std.specs.Duration.{as_nanos};
ghost use Rattle.std.specs.Net.Socket.{socket_ip};
ghost use Rattle.std.specs.Prelude.{◌≡◌, ◌<◌, ◌≤◌, ◌&&◌, nat_lt, IfOk, IfErr, IfSome, IfNone, None, Some, Err, true, false, length, slice_set};
ghost use Rattle.daide_io.specs.System.{Accepts};
ghost use Rattle.daide_frame.specs.declared.side.Side.TheVariants.{Server};
ghost use Rattle.daide_protocol.specs.Account.{nothing_accounted};
ghost use Rattle.daide_status.specs.Counts.{ending_counted};
ghost use Rattle.daide_settings.specs.Ranges.{host_of, may_come};
ghost use Rattle.daide_sockets.specs.Accepting.{is_bot_due, AcceptsThenConnects, BringsNoBot, GivesConnection};
ghost use Rattle.daide_sockets.specs.KeptRows.{ChangesRows, IsAcceptRow};
ghost use Rattle.daide_sockets.specs.Lines.{Logs, LogsNoBot, end_cause_of, end_notice, no_bot_counted};
ghost use Rattle.daide_sockets.specs.Pairing.{ClosesAt, Comes, ComesWith, TakesOut, arrival_at, is_vacant};
ghost use Rattle.daide_sockets.specs.Present.{AdmitsBot, HasRoomForOne, hosts_of, without_bot};
ghost use Rattle.daide_sockets.specs.Rows.{KeepsClosingRows, closing_keys};
ghost use Rattle.daide_sockets.specs.Scheduling.{RunEvolves, run_state};
ghost use Rattle.daide_sockets.specs.ServerStates.{away_at, one_more_unreached, reached_at};
ghost use Rattle.daide_sockets.specs.Table.{forgotten, key_of};
ghost use Rattle.daide_sockets.specs.Wakeups.{GoesBy, is_of_connect};
ghost use Rattle.daide_sockets.specs.declared.admission.NoBot.{NoBot as NoBotOf};
ghost use Rattle.daide_sockets.specs.declared.ports.SocketPorts.{SocketPorts as PortsOf};

use super::Sockets;
use crate::admission::{NoBot, PendingConnection, Unreached};
use crate::ports::SocketPorts;
use crate::session_notice::{Lasted, SessionNotice, Why, end_cause};
use crate::table::{bot_key, server_key};
use daide_causes::Sink;
use daide_frame::side::Side;
use daide_io::network::Network;
use daide_protocol::account::Account;
use daide_status::{ServerState, ServerStatus};
use std::io::{ErrorKind, Write};
use std::net::SocketAddr;

impl<'w, N: Network, E: Sink + Drop> Sockets<'w, N, E> {
    /// Logs the address from which the server of a session was reached, if the system says it and sessions are logged.
    pub(super) fn log_server(&mut self, ports: &SocketPorts<'w, N::Connection>)
        ensures { self.new ≡ record self.old { errors = self.new.errors } }
    {
        let server = ports.sockets().at(Side::Server);
        if let Some(own) = self.poller.network.local_address(server.connection()) {
            let number = ports.identity().number;
            self.log_session(SessionNotice::Reached { number, own });
        }
    }

    /// Counts the bot that was accepted and closed at once, if there is one, and logs why, if sessions are logged.
    fn note_no_bot(&mut self, why: NoBot)
        ensures counted { self.new.counts ≡ no_bot_counted why self.old.counts }
        ensures logged { LogsNoBot E.contents E.Fails self.old.is_verbose why self.old.errors self.new.errors }
        ensures same { self.new ≡ record self.old { errors = self.new.errors; counts = self.new.counts } }
    {
        match why {
            NoBot::NoneCame => {}
            NoBot::MayNotCome(bot) => {
                self.counts.count_declined();
                self.log_session(SessionNotice::Declined { bot });
            }
            NoBot::NotFollowed(bot) => {
                self.counts.count_dropped();
                self.log_session(SessionNotice::Dropped { bot });
            }
        }
    }

    /// Notes that the server was reached, and logs it if it could not be reached before.
    pub(super) fn note_reached(&mut self)
        ensures server { self.new.server ≡ reached_at self.old.poller.table.reading self.old.server }
        ensures same { self.new ≡ record self.old { errors = self.new.errors; server = self.new.server } }
    {
        let now = self.poller.table.now();
        let before = self.server;
        self.server = before.reached(now);
        if matches!(before.state, ServerState::Away) {
            let ServerStatus {
                seconds,
                unreached,
                ..
            } = before.status(now);
            // The run goes on if the line cannot be written.
            let _ = writeln!(
                self.errors,
                "daide-gate: server reached again after {unreached} bots and {seconds} s"
            );
        }
    }

    /// Notes that the server could not be reached for one more bot, and logs it if no bot noted that before: the address that was
    /// tried last, and why that failed.
    pub(super) fn note_away(&mut self, tried: usize, failure: Option<ErrorKind>)
        ensures server { self.new.server ≡ away_at self.old.poller.table.reading self.old.server }
        ensures unreached { self.new.unreached ≡ one_more_unreached self.old.unreached }
        ensures same { self.new ≡ record self.old {
          errors = self.new.errors;
          server = self.new.server;
          unreached = self.new.unreached;
        } }
    {
        self.unreached = self.unreached.saturating_add(1);
        let before = self.server.state;
        self.server = self.server.away(self.poller.table.now());
        if matches!(before, ServerState::Away) {
            return;
        }
        let Some(address) = self.servers.get(tried.saturating_sub(1)) else {
            return;
        };
        // The run goes on if the line cannot be written.
        let _ = match failure {
            Some(kind) => writeln!(
                self.errors,
                "daide-gate: server {address} cannot be reached: {kind}"
            ),
            None => writeln!(
                self.errors,
                "daide-gate: server {address} cannot be reached: no answer in {} s",
                self.connect_time.as_secs()
            ),
        };
    }

    /// Ends the session of a bot for which no server was reached, for this reason, and starts the close of its socket.
    pub(super) fn let_go(&mut self, place: usize, left: Unreached<'w, N::Connection>, why: Why)
        ensures closes { ClosesAt N.Connection.to_give N.Connection.taken N.Connection.calls
            self.old.poller.table.reading self.old.closings left.entry.bot.stream self.new.closings }
        ensures present { self.new.present.bots.items ≡ without_bot left.entry.identity.number self.old.present.bots.items }
        ensures clock { self.new.poller.table.reading ≡ self.old.poller.table.reading }
        ensures counted { self.new.counts ≡ ending_counted (end_cause_of why) self.old.counts }
        ensures logged { Logs E.contents E.Fails self.old.is_verbose
            (end_notice left.entry.identity self.old.poller.table.reading why nothing_accounted) self.old.errors self.new.errors }
        ensures calls { GoesBy is_of_connect N.transition self.old.poller.network self.new.poller.network }
        ensures rows { KeepsClosingRows (forgotten self.old.poller.table place) (closing_keys self.old.closings.streams)
            self.new.poller.table (closing_keys self.new.closings.streams) }
        ensures same { self.new ≡ record self.old {
          poller = self.new.poller;
          closings = self.new.closings;
          present = self.new.present;
          counts = self.new.counts;
          errors = self.new.errors;
        } }
    {
        self.poller.table.forget(place);
        let number = left.identity.number;
        let lasted = Lasted::between(left.identity.since, self.poller.table.now());
        self.present.remove(number);
        self.counts.count_end(end_cause(why));
        self.log_session(SessionNotice::Ended {
            number,
            lasted,
            why,
            account: Account::new(),
        });
        self.closings.begin(&mut self.poller, left.bot);
    }

    /// Takes out the bot at a place whose connect is under way, if there is one.
    pub(super) fn take_arrival(
        &mut self,
        place: usize,
    ) -> Option<PendingConnection<'w, N::Connection>>
        ensures some { IfSome result (λ arrival. TakesOut self.old.arrivals.items place arrival self.new.arrivals.items) }
        ensures rows { IfSome result (λ _. (place < length self.old.poller.table.deadlines)
            × (key_of place Server ≤ usize.MAX)) }
        ensures none { IfNone result ((place < length self.old.poller.table.deadlines →
            arrival_at self.old.arrivals.items place ≡ None) × (self.new.arrivals.items ≡ self.old.arrivals.items)) }
        ensures same { self.new ≡ record self.old { arrivals = self.new.arrivals } }
    {
        if place >= self.poller.table.places() || place >= self.arrivals.len() {
            return None;
        }
        self.arrivals[place].take()
    }

    /// Puts a bot whose connect is under way to a place.
    pub(super) fn put_arrival(
        &mut self,
        place: usize,
        arrival: PendingConnection<'w, N::Connection>,
    )
        ensures put { self.new.arrivals.items ≡ slice_set self.old.arrivals.items place (Some arrival.entry) }
        ensures same { self.new ≡ record self.old { arrivals = self.new.arrivals } }
    {
        if place < self.arrivals.len() {
            self.arrivals[place] = Some(arrival);
        }
    }

    /// Returns whether a bot may have this place: it has rows, and no connect is under way there.
    fn has_place(&self, place: usize) -> bool
        ensures free { result ≡ (nat_lt place (length self.now.poller.table.deadlines)
            && is_vacant self.now.arrivals.items place) }
        ensures rows { result ≡ true → (place < length self.now.poller.table.deadlines)
            × (key_of place Server ≤ usize.MAX) }
    {
        place < self.poller.table.places()
            && place < self.arrivals.len()
            && self.arrivals[place].is_none()
    }

    /// Accepts the next bot, if there is one, and begins its connect. Returns the line of its session.
    /// Fails if no bot came, and says why. The connection of one that may not come, or that the system refuses to follow, is
    /// closed.
    ///
    /// `made`: with room for one more, exactly one accept is tried if the listener is ready by the table, and no pause is
    /// under way; it is made if its descriptors are free. Then only connects for its bot begin, so no other bot is accepted and dropped.
    ///
    /// `not_made`: otherwise no call is made.
    ///
    /// `kept`: if a due accept brings no bot, and one more may be present, then it failed, or its bot may not come, or no row
    /// is left, or the system refused to follow its connection. No other bot is dropped. The error says which.
    ///
    /// `none_due`: if no accept is due, none came.
    ///
    /// `awaited`: the next poll is for bots too, so it does not block while an accept is due.
    ///
    /// `left`: if no bot came, none is due any more, unless one gave a connection that may not come or was refused.
    ///
    /// `times`: its IM timer, and the time of its connect, run from the table's reading of the clock on.
    ///
    /// `admitted`: the network returned the address of the line with the connection of the bot, which is now at this place. By
    /// this address it may come, beside those that are there. It is the last of those from then on, with the number and the
    /// address of the line.
    pub(super) fn accept_next(&mut self, place: usize) -> Result<SessionNotice, NoBot>
        ensures comes { IfOk result (λ _. Comes
            (record { came = self.old.acceptor.came; arrivals = self.old.arrivals.items; closing = self.old.closings }) place
            (record { came = self.new.acceptor.came; arrivals = self.new.arrivals.items; closing = self.new.closings })) }
        ensures none { IfErr result (λ _. (self.new.acceptor.came ≡ self.old.acceptor.came)
            × (self.new.arrivals.items ≡ self.old.arrivals.items) × (self.new.closings ≡ self.old.closings)) }
        ensures made { place < length self.old.poller.table.deadlines →
            is_vacant self.old.arrivals.items place ≡ true →
            self.old.acceptor.came < u32.MAX → is_bot_due self.old.poller.table self.old.acceptor ≡ true →
            AcceptsThenConnects N.transition self.old.acceptor.descriptors self.old.servers.now (key_of place Server) self.old.poller.network self.new.poller.network }
        ensures not_made { (place < length self.old.poller.table.deadlines →
            is_vacant self.old.arrivals.items place ≡ true →
            self.old.acceptor.came < u32.MAX → is_bot_due self.old.poller.table self.old.acceptor ≡ false) →
            self.new.poller.network ≡ self.old.poller.network }
        ensures kept { IfErr result (λ why. place < length self.old.poller.table.deadlines →
            is_vacant self.old.arrivals.items place ≡ true →
            self.old.acceptor.came < u32.MAX → is_bot_due self.old.poller.table self.old.acceptor ≡ true → HasRoomForOne self.old.present →
            BringsNoBot N.transition self.old.acceptor.descriptors (λ address. may_come self.old.allow.now self.old.max_per_address
            (hosts_of self.old.present.bots.items) (host_of (socket_ip address))) self.old.poller.network
            self.new.poller.network why) }
        ensures none_due { is_bot_due self.old.poller.table self.old.acceptor ≡ false → result ≡ Err NoBot.NoneCame }
        ensures awaited { self.new.acceptor.awaits_bots ≡ true }
        ensures left { IfErr result (λ _. place < length self.old.poller.table.deadlines →
            is_vacant self.old.arrivals.items place ≡ true →
            self.old.acceptor.came < u32.MAX → is_bot_due self.new.poller.table self.new.acceptor ≡ true →
            GivesConnection N.transition self.old.acceptor.descriptors self.old.poller.network) }
        ensures times { IfOk result (λ _. ComesWith self.old.arrivals.items place self.old.poller.table.reading
            (as_nanos self.old.im_time) (as_nanos self.old.connect_time) self.new.arrivals.items) }
        ensures admitted { IfOk result (λ began. (address : SocketAddr)
            × (began ≡ SessionNotice.Began self.new.acceptor.came address) × AdmitsBot N.transition self.old.acceptor.descriptors self.old.servers.now
            (self.old.allow.now, self.old.max_per_address) self.old.poller.table.reading place self.new.acceptor.came address
            (self.old.poller.network, self.old.arrivals.items, self.old.present)
            (self.new.poller.network, self.new.arrivals.items, self.new.present)) }
        ensures absent { IfErr result (λ _. self.new.present ≡ self.old.present) }
        ensures table { ChangesRows (IsAcceptRow self.old.poller.table place) self.old.poller.table self.new.poller.table }
        ensures same { self.new ≡ record self.old {
          poller = self.new.poller;
          acceptor = self.new.acceptor;
          arrivals = self.new.arrivals;
          present = self.new.present;
        } }
    {
        self.acceptor.await_bots();
        if !self.has_place(place) {
            return Err(NoBot::NoneCame);
        }
        let rules = (self.allow, self.max_per_address);
        let next = self.acceptor.next_bot(
            bot_key(place),
            &mut self.poller,
            self.pool,
            rules,
            &mut self.present,
        );
        let (identity, bot) = match next {
            Ok(next) => next,
            Err(why) => return Err(why),
        };
        let times = (self.im_time, self.connect_time);
        let key = server_key(place);
        let arrival = PendingConnection::new(
            &mut self.poller,
            self.servers,
            key,
            (identity, bot),
            times,
        );
        self.put_arrival(place, arrival);
        Ok(SessionNotice::Began {
            number: identity.number,
            bot: identity.address,
        })
    }

    /// Accepts the next bot, if there is one, and logs that its session begins, with the address that was judged. It is apart
    /// from `accept`, which each round calls, since a call clears its locals.
    #[inline(never)]
    pub(super) fn accept_due(&mut self, place: usize) -> bool
        ensures transition { RunEvolves N.transition N.Connection.to_give N.Connection.taken N.Connection.calls
            (λ (ports : PortsOf N.Connection). ports)
            (run_state (self.old.poller.network, self.old.poller.table) (self.old.idle_time, self.old.stall_time) self.old.acceptor
            self.old.arrivals.items self.old.closings self.old.control) (Accepts place result)
            (run_state (self.new.poller.network, self.new.poller.table) (self.new.idle_time, self.new.stall_time) self.new.acceptor
            self.new.arrivals.items self.new.closings self.new.control) }
        ensures admitted { result ≡ true → (address : SocketAddr) × AdmitsBot N.transition self.old.acceptor.descriptors self.old.servers.now
            (self.old.allow.now, self.old.max_per_address) self.old.poller.table.reading place self.new.acceptor.came address
            (self.old.poller.network, self.old.arrivals.items, self.old.present)
            (self.new.poller.network, self.new.arrivals.items, self.new.present)
            × Logs E.contents E.Fails self.old.is_verbose (SessionNotice.Began self.new.acceptor.came address) self.old.errors
            self.new.errors }
        ensures counted { result ≡ true → self.new.counts ≡ self.old.counts }
        ensures absent { result ≡ false → self.new.present ≡ self.old.present }
        ensures kept { result ≡ false → (why : NoBotOf) × LogsNoBot E.contents E.Fails self.old.is_verbose why self.old.errors
            self.new.errors × (self.new.counts ≡ no_bot_counted why self.old.counts)
            × (is_bot_due self.old.poller.table self.old.acceptor ≡ false → why ≡ NoBot.NoneCame)
            × (place < length self.old.poller.table.deadlines → is_vacant self.old.arrivals.items place ≡ true →
            self.old.acceptor.came < u32.MAX → is_bot_due self.old.poller.table self.old.acceptor ≡ true → HasRoomForOne self.old.present →
            BringsNoBot N.transition self.old.acceptor.descriptors (λ address. may_come self.old.allow.now self.old.max_per_address
            (hosts_of self.old.present.bots.items) (host_of (socket_ip address))) self.old.poller.network
            self.new.poller.network why) }
        ensures same { self.new ≡ record self.old {
          poller = self.new.poller;
          acceptor = self.new.acceptor;
          arrivals = self.new.arrivals;
          present = self.new.present;
          counts = self.new.counts;
          errors = self.new.errors;
        } }
    {
        let began = match self.accept_next(place) {
            Ok(began) => began,
            Err(why) => {
                self.note_no_bot(why);
                self.poller.table.is_bounded();
                return false;
            }
        };
        self.log_session(began);
        self.poller.table.is_bounded();
        true
    }
}
