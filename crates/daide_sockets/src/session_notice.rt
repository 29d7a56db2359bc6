//! The log lines about the sessions of a run, which `--verbose` requests.

ghost use Rattle.std.specs.Prelude.{◌≡◌, Some};
ghost use Rattle.daide_sockets.specs.Lines.{end_cause_of, why_by, why_ended, why_stopped, milliseconds_between};
ghost use Rattle.daide_sockets.specs.Lines.{ending_text, lasted_text, line_of, notice_text, side_name, why_text};

use crate::ports::StopCause;
use crate::timed::Timed;
use daide_frame::code::Code;
use daide_frame::per_side::PerSide;
use daide_frame::side::Side;
use daide_io::fault_field::{FaultCause, FaultField};
use daide_io::system::Cause;
use daide_protocol::account::Account;
use daide_protocol::ending::Ending;
use daide_status::EndCause;
use std::fmt;
use std::net::SocketAddr;
use std::time::Instant;

/// A log line about a session, with its number, or about a bot that gets none. The run goes on.
#[derive(Clone, Copy)]
pub enum SessionNotice {
    /// Its bot connected from this address.
    Began {
        number: u32,
        bot: SocketAddr,
    },
    /// A bot at this address may not come. It gets no number.
    Declined {
        bot: SocketAddr,
    },
    /// A bot at this address came, and the system does not follow its connection. It gets no number.
    Dropped {
        bot: SocketAddr,
    },
    /// Its server was reached, by a connection from this address.
    Reached {
        number: u32,
        own: SocketAddr,
    },
    /// It is over, after this time, for this reason, with these counts by side and this last level.
    Ended {
        number: u32,
        lasted: Lasted,
        why: Why,
        account: Account,
    },
}

/// The time from the connect of a session's bot to its end.
#[derive(Clone, Copy)]
pub struct Lasted {
    /// `None` without a clock.
    pub milliseconds: Option<u128>,
}

impl Lasted {
    /// Returns the time between two readings of the clock.
    pub(crate) fn between(began: Option<Instant>, now: Option<Instant>) -> Lasted
        ensures { result.milliseconds ≡ milliseconds_between began now }
    {
        let milliseconds = match (began, now) {
            (Some(began), Some(now)) => Some(now.saturating_duration_since(began).as_millis()),
            _ => None,
        };
        Lasted { milliseconds }
    }
}

impl fmt::Display for Lasted {
    ghost output = { λ lasted. Some (lasted_text lasted.milliseconds) };

    /// Writes seconds with one digit after the point; nothing without a clock.
    fn fmt<W: fmt::Write>(&self, f: &mut fmt::Formatter<W>) -> fmt::Result {
        match self.milliseconds {
            Some(time) => write!(f, " after {}.{} s", time / 1000, time % 1000 / 100),
            None => Ok(()),
        }
    }
}

impl fmt::Display for SessionNotice {
    ghost output = { λ notice. Some (notice_text notice) };

    fn fmt<W: fmt::Write>(&self, f: &mut fmt::Formatter<W>) -> fmt::Result {
        match self {
            SessionNotice::Began { number, bot } => {
                write!(f, "session {number} began: bot at {bot}")
            }
            SessionNotice::Declined { bot } => write!(f, "bot at {bot} may not come"),
            SessionNotice::Dropped { bot } => {
                write!(
                    f,
                    "bot at {bot} is dropped: the system cannot follow its connection"
                )
            }
            SessionNotice::Reached { number, own } => {
                write!(f, "session {number} reached the server from {own}")
            }
            SessionNotice::Ended {
                number,
                lasted,
                why,
                account,
            } => write!(f, "session {number} ended{lasted}: {why}; {account}"),
        }
    }
}

/// The line of a notice.
#[derive(Drop)]
pub(crate) struct NoticeLine {
    pub notice: SessionNotice,
}

impl fmt::Display for NoticeLine {
    ghost output = { λ line. Some (line_of line.notice) };

    fn fmt<W: fmt::Write>(&self, f: &mut fmt::Formatter<W>) -> fmt::Result {
        writeln!(f, "daide-gate: {}", self.notice)
    }
}

/// Why a session is over.
#[derive(Clone, Copy, Debug, PartialEq, Eq)]
pub enum Why {
    /// This event ended it, or its turns are spent. A fault is about this field.
    Ended(Cause, Option<FaultField>),
    /// This side sent nothing for the idle timeout.
    Silent(Side),
    /// This side accepted no byte for this many seconds, while some were queued for it.
    Stalled(Side, u32),
    /// As many messages of this side were refused as the settings allow.
    Refused(Side),
    /// Its server was unreachable.
    NoServer,
}

impl Why {
    /// An operator stopped it.
    pub(crate) const STOPPED: Why = Why::Ended(Cause::Session(Ending::Stopped), None);
}

/// Returns the reason for a session that the end of this side ended.
fn why_ended(side: Side, timed: Timed, stall_seconds: u32) -> Why
    ensures { result ≡ why_ended side timed stall_seconds }
{
    if timed.is_silent {
        return Why::Silent(side);
    }
    if timed.ends_stalled {
        return Why::Stalled(side, stall_seconds);
    }
    Why::Ended(Cause::Session(Ending::Ended(side)), None)
}

/// Returns the reason for a session that was stopped, for this cause if its run did it.
fn why_stopped(stop: Option<StopCause>) -> Why
    ensures { result ≡ why_stopped stop }
{
    match stop {
        Some(StopCause::Refusals(side)) => Why::Refused(side),
        Some(StopCause::Operator) | None => Why::STOPPED,
    }
}

/// Returns why a session is over, from its cause, the field that its fault is about, the expired timeouts of its two
/// sockets, why it was stopped, if it was, and the stall timeout in seconds.
pub fn why_of(
    cause: Cause,
    field: Option<FaultField>,
    timed: &PerSide<Timed>,
    stop: Option<StopCause>,
    stall_seconds: u32,
) -> Why
    ensures { result ≡ why_by cause field timed.now stop stall_seconds }
{
    match cause {
        Cause::Session(Ending::Ended(side)) => { why_ended(side, *timed.at(side), stall_seconds) }
        Cause::Session(Ending::Lost(side)) if timed.at(side).is_stalled => {
            Why::Stalled(side, stall_seconds)
        }
        Cause::Session(Ending::Fault(_, _)) => Why::Ended(cause, field),
        Cause::Session(Ending::Stopped) => why_stopped(stop),
        _ => Why::Ended(cause, None),
    }
}

/// Returns the cause by which a session is counted that is over for this reason.
pub(crate) fn end_cause(why: Why) -> EndCause
    ensures { result ≡ end_cause_of why }
{
    match why {
        Why::Ended(Cause::TurnsSpent, _) => EndCause::TurnsSpent,
        Why::Ended(Cause::Session(ending), _) => match ending {
            Ending::Ended(side) => EndCause::Ended(side),
            Ending::Lost(side) => EndCause::Lost(side),
            Ending::Final(side) => EndCause::Final(side),
            Ending::Error(side) => EndCause::Error(side),
            Ending::Fault(_, Code::ImTimeout) => EndCause::NoIm,
            Ending::Fault(side, _) => EndCause::Fault(side),
            Ending::Stopped => EndCause::Stopped,
        },
        Why::Silent(side) => EndCause::Silent(side),
        Why::Stalled(side, _) => EndCause::Stalled(side),
        Why::Refused(side) => EndCause::Refused(side),
        Why::NoServer => EndCause::NoServer,
    }
}

/// Returns a side's name in a line.
fn name_of(side: Side) -> &'static str
    ensures { result.now ≡ side_name side }
{
    match side {
        Side::Bot => "bot",
        Side::Server => "server",
    }
}

/// The event that ended a session, with the field that a fault is about.
#[derive(Drop)]
struct Event {
    ending: Ending,
    field: Option<FaultField>,
}

impl fmt::Display for Event {
    ghost output = { λ event. Some (ending_text event.ending event.field) };

    fn fmt<W: fmt::Write>(&self, f: &mut fmt::Formatter<W>) -> fmt::Result {
        match self.ending {
            Ending::Ended(side) => write!(f, "{} ended", name_of(side)),
            Ending::Lost(side) => write!(f, "{} lost", name_of(side)),
            Ending::Final(side) => write!(f, "FM of {}", name_of(side)),
            Ending::Error(side) => write!(f, "EM of {}", name_of(side)),
            Ending::Fault(_, Code::ImTimeout) => f.write_str("no IM in time"),
            Ending::Fault(side, code) => {
                let (number, field) = (code.number(), self.field);
                let cause = FaultCause { code, field };
                write!(f, "fault {number:02X} of {}: {cause}", name_of(side))
            }
            Ending::Stopped => f.write_str("stopped by the operator"),
        }
    }
}

impl fmt::Display for Why {
    ghost output = { λ why. Some (why_text why) };

    fn fmt<W: fmt::Write>(&self, f: &mut fmt::Formatter<W>) -> fmt::Result {
        match *self {
            Why::Ended(Cause::Session(ending), field) => {
                let event = Event { ending, field };
                write!(f, "{event}")
            }
            Why::Ended(Cause::TurnsSpent, _) => f.write_str("turns spent"),
            Why::Silent(side) => write!(f, "{} silent", name_of(side)),
            Why::Stalled(side, seconds) => {
                write!(f, "{} took nothing for {seconds} s", name_of(side))
            }
            Why::Refused(side) => write!(f, "too many refusals of {}", name_of(side)),
            Why::NoServer => f.write_str("no server"),
        }
    }
}
