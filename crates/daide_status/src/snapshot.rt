//! The status of a run and of a session, as values.

ghost use Rattle.std.specs.Prelude.{◌≡◌};
ghost use Rattle.daide_status.specs.Pieces.{server_state_name};

use crate::counts::RunCounts;
use daide_grammar::Level;
use daide_protocol::{Account, Phase};
use std::net::SocketAddr;

/// What the last connect to the server that came to an end showed.
#[derive(Clone, Copy)]
pub enum ServerState {
    /// No connect came to an end yet.
    Untried,
    /// The server was reached.
    Up,
    /// The server could not be reached.
    Away,
}

impl ServerState {
    /// Returns the name of the state in texts.
    pub fn name(self) -> &'static str
        ensures { result.now ≡ server_state_name self }
    {
        match self {
            ServerState::Untried => "untried",
            ServerState::Up => "up",
            ServerState::Away => "away",
        }
    }
}

/// The state of the server.
#[derive(Clone, Copy)]
pub struct ServerStatus {
    /// What the last connect showed.
    pub state: ServerState,
    /// The seconds since the first connect that showed this state; before any connect, since the run began.
    pub seconds: u64,
    /// The number of bots for which the server could not be reached since then, with the one that showed it first.
    pub unreached: u64,
}

/// The status of a run.
#[derive(Clone, Copy)]
pub struct RunStatus {
    /// The number of open sessions.
    pub open: u32,
    /// The number of bots for which a connect to the server is pending.
    pub connecting: u32,
    /// The number of sessions that are over.
    pub served: u32,
    /// The number of bots for which the server could not be reached.
    pub unreached: u32,
    /// Whether bots may wait for a place.
    pub has_waiting: bool,
    /// Whether no further bot is accepted.
    pub is_stopping: bool,
    /// The seconds since the run began.
    pub seconds: u64,
    /// The state of the server.
    pub server: ServerStatus,
    /// What the run counted. The frames and faults are those of the sessions that ended.
    pub counts: RunCounts,
}

/// The status of a session, with what its sockets know of it.
#[derive(Clone, Copy)]
pub struct SessionRow {
    /// The number of the session.
    pub number: u32,
    /// The address of its bot.
    pub bot: SocketAddr,
    /// The gateway's own port of the connection to the server; `None` if the system does not say it.
    pub port_to_server: Option<u16>,
    /// Its phase.
    pub phase: Phase,
    /// Its level of press; level 0 before it is open.
    pub level: Level,
    /// Its counts by side, modulo 2^64.
    pub account: Account,
    /// The bytes that the session has queued for the bot.
    pub queued_to_bot: usize,
    /// The bytes that the session has queued for the server.
    pub queued_to_server: usize,
    /// The bytes that the bot's socket holds and has still to write.
    pub buffered_to_bot: usize,
    /// The bytes that the server's socket holds and has still to write.
    pub buffered_to_server: usize,
    /// The bytes received from the bot, and from the server, each modulo 2^64.
    pub received_from_bot: u64,
    pub received_from_server: u64,
    /// The bytes sent to the bot, and to the server, each modulo 2^64.
    pub sent_to_bot: u64,
    pub sent_to_server: u64,
    /// The seconds since the bot's last byte; `None` if it has sent none.
    pub bot_idle: Option<u64>,
    /// The seconds since the server's last byte; `None` if it has sent none.
    pub server_idle: Option<u64>,
}
