//! Counters of the bots of a run, and their limit.

ghost use Rattle.std.specs.Prelude.{◌≡◌, ◌==◌};
ghost use Rattle.daide_event_loop.specs.Serving.{heeding};

use daide_io::system::Orders;

/// The limits of a run: bots in all (`sessions`), turns a session. Its count: bots accepted. The count never exceeds its
/// limit, so it does not wrap.
#[derive(Clone, Copy)]
pub struct AdmissionCounters {
    pub sessions: u32,
    pub turns: u64,
    pub accepted: u32,
}

impl AdmissionCounters {
    /// Heeds the operator's orders: an order to stop accepting makes the bots accepted so far all bots of the run.
    pub fn heed(&mut self, orders: Orders)
        ensures { self.new ≡ heeding orders self.old }
    {
        if orders.stops_accepting {
            self.sessions = self.accepted;
        }
    }

    /// Returns true if all bots of the run were accepted.
    pub fn have_all_come(&self) -> bool
        ensures { result ≡ (self.now.accepted == self.now.sessions) }
    {
        self.accepted == self.sessions
    }
}
