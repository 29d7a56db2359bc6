//! What a run counts from its start on. Every number is modulo 2^64.

ghost use Rattle.std.specs.Prelude.{◌≡◌};
ghost use Rattle.daide_status.specs.Counts.{end_cause_name, count_sum, declined_counted, dropped_counted, end_count, end_counted, ending_counted};
ghost use Rattle.daide_status.specs.Counts.{no_counts, no_ends, session_counted, side_sum};

use daide_frame::Side;
use daide_protocol::{Account, SideCounts};

/// Why a session ended, without what differs from session to session.
#[derive(Clone, Copy)]
pub enum EndCause {
    /// This side's stream ended.
    Ended(Side),
    /// The connection to this side failed.
    Lost(Side),
    /// This side sent a final message (FM).
    Final(Side),
    /// This side sent an error message (EM).
    Error(Side),
    /// This side made a fault, other than a late initial message.
    Fault(Side),
    /// The bot's initial message (IM) was late.
    NoIm,
    /// The operator stopped the session.
    Stopped,
    /// This side sent nothing for the idle timeout.
    Silent(Side),
    /// This side accepted no byte for the stall timeout, while some were queued for it.
    Stalled(Side),
    /// As many messages of this side were refused as the settings allow.
    Refused(Side),
    /// The session used all its turns.
    TurnsSpent,
    /// The server could not be reached.
    NoServer,
}

/// The number of sessions that ended, by cause.
#[derive(Clone, Copy)]
pub struct EndCounts {
    pub bot_ended: u64,
    pub server_ended: u64,
    pub bot_lost: u64,
    pub server_lost: u64,
    pub bot_final: u64,
    pub server_final: u64,
    pub bot_error: u64,
    pub server_error: u64,
    pub bot_fault: u64,
    pub server_fault: u64,
    pub no_im: u64,
    pub stopped: u64,
    pub bot_silent: u64,
    pub server_silent: u64,
    pub bot_stalled: u64,
    pub server_stalled: u64,
    pub bot_refused: u64,
    pub server_refused: u64,
    pub turns_spent: u64,
    pub no_server: u64,
}

/// What a run counts. In a `RunStatus` the frames and faults are those of the sessions that ended; a text adds
/// those of its rows, so that a count never decreases when a session ends.
#[derive(Clone, Copy)]
pub struct RunCounts {
    /// The frames from bots.
    pub bot: SideCounts,
    /// The frames from the server.
    pub server: SideCounts,
    /// Faults of both sides.
    pub faults: u64,
    /// The sessions that ended.
    pub ends: EndCounts,
    /// Connections that were closed at once, since their bot may not come.
    pub declined: u64,
    /// Connections that were accepted, and that the system could not follow.
    pub dropped: u64,
}

/// Returns a count with a further one.
fn count_sum(count: u64, more: u64) -> u64
    ensures { result ≡ count_sum count more }
{
    count.wrapping_add(more)
}

/// Returns the counts of a side with further ones.
fn side_sum(counts: SideCounts, more: SideCounts) -> SideCounts
    ensures { result ≡ side_sum counts more }
{
    SideCounts {
        relayed: count_sum(counts.relayed, more.relayed),
        prn: count_sum(counts.prn, more.prn),
        huh: count_sum(counts.huh, more.huh),
    }
}

impl EndCause {
    /// All causes, in the order in which texts have them.
    pub const ALL: [EndCause; 20] = [
        EndCause::Ended(Side::Bot),
        EndCause::Ended(Side::Server),
        EndCause::Lost(Side::Bot),
        EndCause::Lost(Side::Server),
        EndCause::Final(Side::Bot),
        EndCause::Final(Side::Server),
        EndCause::Error(Side::Bot),
        EndCause::Error(Side::Server),
        EndCause::Fault(Side::Bot),
        EndCause::Fault(Side::Server),
        EndCause::NoIm,
        EndCause::Stopped,
        EndCause::Silent(Side::Bot),
        EndCause::Silent(Side::Server),
        EndCause::Stalled(Side::Bot),
        EndCause::Stalled(Side::Server),
        EndCause::Refused(Side::Bot),
        EndCause::Refused(Side::Server),
        EndCause::TurnsSpent,
        EndCause::NoServer,
    ];

    /// Returns the name of the cause in texts: that of the line `ended`, without what differs from session to session.
    pub fn name(self) -> &'static str
        ensures { result.now ≡ end_cause_name self }
    {
        match self {
            EndCause::Ended(Side::Bot) => "bot ended",
            EndCause::Ended(Side::Server) => "server ended",
            EndCause::Lost(Side::Bot) => "bot lost",
            EndCause::Lost(Side::Server) => "server lost",
            EndCause::Final(Side::Bot) => "FM of bot",
            EndCause::Final(Side::Server) => "FM of server",
            EndCause::Error(Side::Bot) => "EM of bot",
            EndCause::Error(Side::Server) => "EM of server",
            EndCause::Fault(Side::Bot) => "fault of bot",
            EndCause::Fault(Side::Server) => "fault of server",
            EndCause::NoIm => "no IM in time",
            EndCause::Stopped => "stopped by the operator",
            EndCause::Silent(Side::Bot) => "bot silent",
            EndCause::Silent(Side::Server) => "server silent",
            EndCause::Stalled(Side::Bot) => "bot took nothing",
            EndCause::Stalled(Side::Server) => "server took nothing",
            EndCause::Refused(Side::Bot) => "too many refusals of bot",
            EndCause::Refused(Side::Server) => "too many refusals of server",
            EndCause::TurnsSpent => "turns spent",
            EndCause::NoServer => "no server",
        }
    }
}

impl EndCounts {
    /// Returns counts of 0.
    pub fn new() -> EndCounts
        ensures { result ≡ no_ends }
    {
        EndCounts {
            bot_ended: 0,
            server_ended: 0,
            bot_lost: 0,
            server_lost: 0,
            bot_final: 0,
            server_final: 0,
            bot_error: 0,
            server_error: 0,
            bot_fault: 0,
            server_fault: 0,
            no_im: 0,
            stopped: 0,
            bot_silent: 0,
            server_silent: 0,
            bot_stalled: 0,
            server_stalled: 0,
            bot_refused: 0,
            server_refused: 0,
            turns_spent: 0,
            no_server: 0,
        }
    }

    /// Returns the number of sessions that ended by a cause.
    pub fn of(&self, cause: EndCause) -> u64
        ensures { result ≡ end_count cause self.now }
    {
        match cause {
            EndCause::Ended(Side::Bot) => self.bot_ended,
            EndCause::Ended(Side::Server) => self.server_ended,
            EndCause::Lost(Side::Bot) => self.bot_lost,
            EndCause::Lost(Side::Server) => self.server_lost,
            EndCause::Final(Side::Bot) => self.bot_final,
            EndCause::Final(Side::Server) => self.server_final,
            EndCause::Error(Side::Bot) => self.bot_error,
            EndCause::Error(Side::Server) => self.server_error,
            EndCause::Fault(Side::Bot) => self.bot_fault,
            EndCause::Fault(Side::Server) => self.server_fault,
            EndCause::NoIm => self.no_im,
            EndCause::Stopped => self.stopped,
            EndCause::Silent(Side::Bot) => self.bot_silent,
            EndCause::Silent(Side::Server) => self.server_silent,
            EndCause::Stalled(Side::Bot) => self.bot_stalled,
            EndCause::Stalled(Side::Server) => self.server_stalled,
            EndCause::Refused(Side::Bot) => self.bot_refused,
            EndCause::Refused(Side::Server) => self.server_refused,
            EndCause::TurnsSpent => self.turns_spent,
            EndCause::NoServer => self.no_server,
        }
    }

    /// Counts one more session that ended by a cause.
    pub fn count(&mut self, cause: EndCause)
        ensures { self.new ≡ end_counted cause self.old }
    {
        let more = count_sum(self.of(cause), 1);
        match cause {
            EndCause::Ended(Side::Bot) => self.bot_ended = more,
            EndCause::Ended(Side::Server) => self.server_ended = more,
            EndCause::Lost(Side::Bot) => self.bot_lost = more,
            EndCause::Lost(Side::Server) => self.server_lost = more,
            EndCause::Final(Side::Bot) => self.bot_final = more,
            EndCause::Final(Side::Server) => self.server_final = more,
            EndCause::Error(Side::Bot) => self.bot_error = more,
            EndCause::Error(Side::Server) => self.server_error = more,
            EndCause::Fault(Side::Bot) => self.bot_fault = more,
            EndCause::Fault(Side::Server) => self.server_fault = more,
            EndCause::NoIm => self.no_im = more,
            EndCause::Stopped => self.stopped = more,
            EndCause::Silent(Side::Bot) => self.bot_silent = more,
            EndCause::Silent(Side::Server) => self.server_silent = more,
            EndCause::Stalled(Side::Bot) => self.bot_stalled = more,
            EndCause::Stalled(Side::Server) => self.server_stalled = more,
            EndCause::Refused(Side::Bot) => self.bot_refused = more,
            EndCause::Refused(Side::Server) => self.server_refused = more,
            EndCause::TurnsSpent => self.turns_spent = more,
            EndCause::NoServer => self.no_server = more,
        }
    }
}

impl RunCounts {
    /// Returns the counts of a run that begins.
    pub fn new() -> RunCounts
        ensures { result ≡ no_counts }
    {
        RunCounts {
            bot: SideCounts::new(),
            server: SideCounts::new(),
            faults: 0,
            ends: EndCounts::new(),
            declined: 0,
            dropped: 0,
        }
    }

    /// Adds the frames and the faults of a session.
    pub fn add_session(&mut self, account: &Account)
        ensures { self.new ≡ session_counted account.now self.old }
    {
        self.bot = side_sum(self.bot, account.bot);
        self.server = side_sum(self.server, account.server);
        self.faults = count_sum(self.faults, account.faults);
    }

    /// Counts one more session that ended by a cause.
    pub fn count_end(&mut self, cause: EndCause)
        ensures { self.new ≡ ending_counted cause self.old }
    {
        self.ends.count(cause);
    }

    /// Counts one more connection that was closed at once, since its bot may not come.
    pub fn count_declined(&mut self)
        ensures { self.new ≡ declined_counted self.old }
    {
        self.declined = count_sum(self.declined, 1);
    }

    /// Counts one more connection that was accepted, and that the system could not follow.
    pub fn count_dropped(&mut self)
        ensures { self.new ≡ dropped_counted self.old }
    {
        self.dropped = count_sum(self.dropped, 1);
    }
}
