//! What an operator requests of a run: its status, and its stop.

ghost use Rattle.std.specs.Prelude.{◌≡◌, ◌≤◌, ◌&&◌, ◌||◌, nat_le, not, true, false, length};
ghost use Rattle.daide_io.specs.Network.{StopsListening};
ghost use Rattle.daide_status.specs.declared.snapshot.RunStatus.{RunStatus};
ghost use Rattle.daide_sockets.specs.Accepting.{is_bot_due, shut_if, ClosesOrNot};
ghost use Rattle.daide_sockets.specs.ControlSlots.{BeginsRound, IsControlRow, are_places_free, arming_control, is_listener_due};
ghost use Rattle.daide_sockets.specs.KeptRows.{ChangesRows};
ghost use Rattle.daide_sockets.specs.Pairing.{pending_connects};
ghost use Rattle.daide_sockets.specs.ServerStates.{server_shown};
ghost use Rattle.daide_sockets.specs.Snapshot.{counted, seconds_between, or_zero, IsRunStatus};
ghost use Rattle.daide_sockets.specs.Table.{Table};
ghost use Rattle.daide_sockets.specs.Wakeups.{GoesBy, is_after_poll};

use super::Sockets;
use crate::admission::pending_count;
use daide_causes::Sink;
use daide_io::network::Network;
use daide_io::system::Orders;
use daide_status::RunStatus;

/// Returns a number of bots as 32 bits.
fn counted(count: usize) -> u32
    ensures { result ≡ counted count }
{
    u32::try_from(count).unwrap_or(u32::MAX)
}

impl<'w, N: Network, E: Sink + Drop> Sockets<'w, N, E> {
    /// Returns the status of the run.
    fn run_status(&self) -> RunStatus
        ensures { IsRunStatus self.now.acceptor.came (length self.now.present.bots.items)
            (pending_connects self.now.arrivals.items) self.now.unreached
            (nat_le self.now.max_sessions (length self.now.present.bots.items)
            && is_bot_due self.now.poller.table self.now.acceptor) self.now.control.stops_accepting
            (or_zero (seconds_between self.now.control.started_at self.now.poller.table.reading))
            (server_shown self.now.poller.table.reading self.now.server) self.now.counts result }
    {
        let connecting = counted(pending_count(self.arrivals.as_slice()));
        let present = counted(self.present.len());
        RunStatus {
            open: present.saturating_sub(connecting),
            connecting,
            served: self
                .acceptor
                .came()
                .saturating_sub(present)
                .saturating_sub(self.unreached),
            unreached: self.unreached,
            has_waiting: self.has_waiting(),
            is_stopping: self.control.stops_accepting(),
            seconds: self.control.seconds(self.poller.table.now()),
            server: self.server.status(self.poller.table.now()),
            counts: self.counts,
        }
    }

    /// Returns whether the run is full while an accept of a bot is due.
    fn has_waiting(&self) -> bool
        ensures { result ≡ (nat_le self.now.max_sessions (length self.now.present.bots.items)
            && is_bot_due self.now.poller.table self.now.acceptor) }
    {
        self.present.len() >= self.max_sessions && self.acceptor.is_due(&self.poller.table)
    }

    /// Returns whether all bots of the run came.
    fn has_all_bots(&self) -> bool
        ensures { result ≡ nat_le self.now.bots_in_all self.now.acceptor.came }
    {
        self.acceptor.came() >= self.bots_in_all
    }

    /// Returns true only if a round has no order to take: the control socket is at rest, and the listener for bots need not
    /// be closed, since it is closed or further bots may come.
    fn has_no_orders(&self) -> bool
        ensures open { result ≡ true → self.now.bots_in_all ≤ self.now.acceptor.came → self.now.acceptor.is_closed ≡ true }
        ensures free { result ≡ true → are_places_free self.now.control.slots ≡ true }
        ensures not_due { result ≡ true → is_listener_due self.now.poller.table self.now.control.listener ≡ false }
        ensures armed { result ≡ true →
            self.now.poller.table ≡ arming_control self.now.poller.table self.now.control }
    {
        (self.acceptor.is_closed() || !self.has_all_bots())
            && self.control.is_at_rest(&self.poller.table)
    }

    /// Advances the control socket, and returns the operator's orders. Once a stop is requested, or all bots of the run
    /// came, the listener for bots is closed. So a bot that comes too late is refused.
    ///
    /// `control`: a status has the run as it is at the beginning of the round, and a stop of a session the bots that are there. Of
    /// the orders, each is what a control connection requested, now or before, and one that is due is accepted (`BeginsRound`).
    /// Then the network closes the listener for bots, or makes no call.
    ///
    /// `armed`: the next poll watches the control socket.
    ///
    /// `calls`: of the network it only accepts and follows control connections, and closes the listener for bots (`GoesBy`).
    pub(super) fn take_orders(&mut self) -> Orders
        ensures orders { result.stops_accepting ≡ self.new.control.stops_accepting }
        ensures kept { self.old.control.stops_accepting ≡ true → self.new.control.stops_accepting ≡ true }
        ensures now_kept { self.old.control.stops_now ≡ true → self.new.control.stops_now ≡ true }
        ensures control { (run : RunStatus) × IsRunStatus self.old.acceptor.came
            (length self.old.present.bots.items) (pending_connects self.old.arrivals.items) self.old.unreached
            (nat_le self.old.max_sessions (length self.old.present.bots.items)
            && is_bot_due self.old.poller.table self.old.acceptor) self.old.control.stops_accepting
            (or_zero (seconds_between self.old.control.started_at self.old.poller.table.reading))
            (server_shown self.old.poller.table.reading self.old.server) self.old.counts run
            × (after : N) × BeginsRound N.transition N.Connection.to_give N.Connection.taken N.Connection.calls run
            self.old.present.bots.items self.old.poller.table self.old.poller.network self.old.control result after self.new.control
            × ClosesOrNot N.transition after self.new.poller.network }
        ensures armed { (before : Table) × ChangesRows (IsControlRow self.old.poller.table) self.old.poller.table before
            × (self.new.poller.table ≡ arming_control before self.new.control) }
        ensures calls { GoesBy is_after_poll N.transition self.old.poller.network self.new.poller.network }
        ensures closes { result.stops_accepting ≡ true → self.old.control.stops_accepting ≡ false →
            (before : N) × N.transition before StopsListening self.new.poller.network }
        ensures all_came { self.old.bots_in_all ≤ self.old.acceptor.came → self.old.acceptor.is_closed ≡ false →
            (before : N) × N.transition before StopsListening self.new.poller.network }
        ensures acceptor { self.new.acceptor ≡ shut_if ((result.stops_accepting && not self.old.control.stops_accepting)
            || (nat_le self.old.bots_in_all self.old.acceptor.came && not self.old.acceptor.is_closed)) self.old.acceptor }
        ensures same { self.new ≡ record self.old {
          poller = self.new.poller;
          acceptor = self.new.acceptor;
          control = self.new.control;
        } }
    {
        // Most rounds end here.
        if self.has_no_orders() {
            return self.control.orders_at_rest(&self.poller);
        }
        let was_stopped = self.control.stops_accepting();
        let run = self.run_status();
        let orders = self
            .control
            .begin_round(&mut self.poller, &run, &self.present);
        let is_stopped_now = orders.stops_accepting & !was_stopped;
        let closes = is_stopped_now | (self.has_all_bots() & !self.acceptor.is_closed());
        if closes {
            self.acceptor.close(&mut self.poller);
        }
        self.control.arm(&mut self.poller.table);
        orders
    }
}
