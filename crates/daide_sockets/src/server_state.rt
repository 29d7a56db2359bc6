//! What the connects of a run showed of its server.

ghost use Rattle.std.specs.Prelude.{◌≡◌};
ghost use Rattle.daide_sockets.specs.ServerStates.{away_at, reached_at, server_shown, untried_at};

use crate::control::seconds_between;
use daide_status::{ServerState, ServerStatus};
use std::time::Instant;

/// What the last connect that came to an end showed of the server.
#[derive(Clone, Copy)]
pub struct KnownServer {
    /// Whether the server was reached.
    pub state: ServerState,
    /// The reading of the clock at the first connect that showed this; before any, at which the run began.
    pub since: Option<Instant>,
    /// The number of bots for which the server could not be reached since then.
    pub unreached: u64,
}

impl KnownServer {
    /// Returns that no connect came to an end, from this reading of the clock on.
    pub(crate) fn new(now: Option<Instant>) -> KnownServer
        ensures { result ≡ untried_at now }
    {
        KnownServer {
            state: ServerState::Untried,
            since: now,
            unreached: 0,
        }
    }

    /// Returns what is known once the server was reached.
    pub(crate) fn reached(self, now: Option<Instant>) -> KnownServer
        ensures { result ≡ reached_at now self }
    {
        match self.state {
            ServerState::Up => self,
            ServerState::Untried | ServerState::Away => KnownServer {
                state: ServerState::Up,
                since: now,
                unreached: 0,
            },
        }
    }

    /// Returns what is known once the server could not be reached.
    pub(crate) fn away(self, now: Option<Instant>) -> KnownServer
        ensures { result ≡ away_at now self }
    {
        match self.state {
            ServerState::Away => KnownServer {
                state: ServerState::Away,
                since: self.since,
                unreached: self.unreached.wrapping_add(1),
            },
            ServerState::Untried | ServerState::Up => KnownServer {
                state: ServerState::Away,
                since: now,
                unreached: 1,
            },
        }
    }

    /// Returns what a status shows of it.
    pub(crate) fn status(self, now: Option<Instant>) -> ServerStatus
        ensures { result ≡ server_shown now self }
    {
        ServerStatus {
            state: self.state,
            seconds: seconds_between(self.since, now).unwrap_or(0),
            unreached: self.unreached,
        }
    }
}
