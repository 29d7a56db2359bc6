//! The interface of the loop over sessions to the system. Its calls poll for what happened and return the operator's orders,
//! show the status of a session, accept a bot, return the result of its connect to the server, begin a turn of a session,
//! and have a session rest. They also retire the ports of a closed session, with how it ended, and log a line for the
//! operator.
//!
//! ```text
//! accept --true--> pending connect --Ready--> a session's ports --over--> retire
//!                                  `-Failed-> the place is free, and the run goes on
//! ```

ghost use Rattle.std.specs.Prelude.{◌≡◌, ℕ, List};
ghost use Rattle.daide_io.specs.Ports.{TurnBegins};
ghost use Rattle.daide_io.specs.ReadyQueue.{woken_all};
ghost use Rattle.daide_io.specs.System.{SystemCall, Polls, Shows, Accepts, Connects, BeginsTurn, Rests, Retires, Notifies};

use crate::byte_counts::ByteCounts;
use crate::fault_field::FaultField;
use crate::ports::Ports;
use crate::ready_queue::ReadyQueue;
use daide_grammar::level::Level;
use daide_protocol::account::Account;
use daide_protocol::ending::Ending;
use daide_protocol::phase::Phase;
use std::alloc::Allocator;
use thiserror::Error;

/// The result for the pending connects to the server.
#[derive(Debug, Drop)]
pub enum Connect<P> {
    /// One of them succeeded: the ports to its bot and the server, on which no call was made yet.
    Ready(P),
    /// One of them failed or timed out; the connection to its bot was closed.
    Failed,
    /// None of them has a result yet.
    Pending,
}

/// A log line for the operator. The run continues.
#[derive(Clone, Copy, Debug, PartialEq, Eq, Error)]
pub enum Notice {
    /// A session used all its turns, and was ended.
    #[error("turns spent")]
    TurnsSpent,
}

/// Why a session ended.
#[derive(Clone, Copy, Debug, PartialEq, Eq)]
pub enum Cause {
    /// It used all its turns.
    TurnsSpent,
    /// This event ended it before it used all its turns.
    Session(Ending),
}

/// How a session ended, and what it did before.
#[derive(Clone, Copy, Debug, PartialEq, Eq)]
pub struct SessionEnd {
    /// Why it ended.
    pub cause: Cause,
    /// Its counts by side, modulo 2^64, and the level of press that was last in force.
    pub account: Account,
    /// The field that its fault is about, if a fault ended it.
    pub fault_field: Option<FaultField>,
}

/// The operator's orders to a run when a round begins.
#[derive(Clone, Copy, Debug, PartialEq, Eq)]
pub struct Orders {
    /// Whether the run stops accepting: from this round on it accepts no more bots.
    pub stops_accepting: bool,
    /// Whether the run shows the status of each session in this round.
    pub shows_sessions: bool,
}

impl Orders {
    /// No orders: the run goes on as before.
    pub const NONE: Orders = Orders {
        stops_accepting: false,
        shows_sessions: false,
    };
}

/// The status of a session, except for what its ports know.
#[derive(Clone, Copy, Debug, PartialEq, Eq)]
pub struct SessionStatus {
    pub phase: Phase,
    /// The press level of an open session; level 0 in every other phase.
    pub level: Level,
    /// Its counts by side so far, modulo 2^64.
    pub account: Account,
    /// The bytes that are queued for the bot.
    pub queued_to_bot: usize,
    /// The bytes that are queued for the server.
    pub queued_to_server: usize,
    /// The bytes that its ports delivered and took so far, each number modulo 2^64.
    pub bytes: ByteCounts,
}

/// The environment of a run. Only `poll` blocks.
///
/// A bot has a place from its accept on, until it is given up or its ports are retired. The loop chooses the places, each
/// below the most sessions of the run. In both directions a place names the bot and its session.
///
/// Contracts of a caller speak of the calls with their results. Each implementor defines the effect of a call on
/// itself.
pub trait System<P: Ports> {
    /// The effect of a call with its result on the system.
    ghost transition: { Self → SystemCall P → Self → Type 0 };

    /// Collects what happened since the last poll, makes progress with the system's own work, such as closing sockets, and
    /// returns the operator's orders. Each place that rests and for which there is something to do is added to the queue:
    /// something was reported for one of its wires, its deadline is past, or the operator stops all sessions. Blocks until
    /// there may be something to do, for a place or for the system, only if `may_block`.
    fn poll<A: Allocator>(&mut self, may_block: bool, ready: &mut ReadyQueue<A>) -> Orders
        ensures { (woken : List ℕ) × (ready.new ≡ woken_all woken ready.old)
            × transition self.old (Polls may_block woken result) self.new };

    /// Shows the operator the status of the session with these ports. If the orders of a poll require it, this is called
    /// once for each session, before any other call. It changes no port, and calls none.
    fn show(&mut self, ports: &P, status: SessionStatus)
        ensures { transition self.old (Shows ports.now status) self.new };

    /// Returns whether a bot arrived, which has this place from then on. Its connect to the server is pending, and its IM
    /// timer runs.
    fn accept(&mut self, place: usize) -> bool
        ensures { transition self.old (Accepts place result) self.new };

    /// Returns the result of the pending connect of the bot at a place. While it has none, the place rests.
    fn connected(&mut self, place: usize) -> Connect<P>
        ensures { transition self.old (Connects place result) self.new };

    /// Begins a turn of the session at a place, with its account before the turn and its ports. It does what the ports
    /// have to do once a turn, such as writing bytes that were held for too long, and reading a deadline. So the calls of
    /// the ports only return results. By the account it may have the ports stop the session, such as one of which too many
    /// messages were refused.
    fn begin_turn(&mut self, place: usize, account: &Account, ports: &mut P)
        ensures ports { P.transition ports.old TurnBegins ports.new }
        ensures system { transition self.old (BeginsTurn place account.now ports.old ports.new) self.new };

    /// Has the session at a place rest, whose last turn made no progress: returns true if nothing may be done at once for
    /// its ports. Then a later poll names the place once there is something to do.
    fn rest(&mut self, place: usize, ports: &P) -> bool
        ensures { transition self.old (Rests place ports.now result) self.new };

    /// Takes the ports of the session at a place, which is over and makes no more calls on them, with how it ended and its
    /// account. The place is free. The run does not wait for the ports to close.
    fn retire(&mut self, place: usize, ports: P, end: SessionEnd)
        ensures { transition self.old (Retires place ports end) self.new };

    /// Logs a line for the operator. A failure to do so ends nothing.
    fn log(&mut self, notice: Notice)
        ensures { transition self.old (Notifies notice) self.new };
}
