//! The answer on a control connection.

ghost use Rattle.std.specs.Prelude.{◌≡◌};
ghost use Rattle.daide_sockets.specs.ControlAnswer.{reply_text, ordered_by, waits_by, Begins, Adds, Finishes, SaysNoSession};

use crate::control_request::RequestedStop;
use daide_status::{Format, RunStatus, SessionRow, StatusText};
use std::alloc::Global;

/// The answer to anything that is no request.
const UNKNOWN_REQUEST: &[u8] = b"unknown request\n";

/// The answer if memory for another one is refused.
const OUT_OF_MEMORY: &[u8] = b"out of memory\n";

/// The answer to a stop whose connection stays until what it stops is over.
const STOPPING: &[u8] = b"stopping\n";

/// The answer to a stop whose connection does not stay, since as many stay as may.
const TOO_MANY_WAIT: &[u8] = b"too many wait\n";

/// An answer.
#[derive(Drop)]
pub(crate) enum Answer {
    /// The text of a status, or that a session is not there.
    Text(Vec<u8>),
    /// What was received is no request.
    UnknownRequest,
    /// Memory for the text was refused.
    OutOfMemory,
    /// The stop is carried out, and its connection stays.
    Stopping(RequestedStop),
    /// As many stops wait as may. That of the run is carried out all the same.
    TooManyWait(RequestedStop),
}

impl Answer {
    /// Returns its bytes.
    pub(crate) fn as_slice(&self) -> &[u8]
        ensures { result.now ≡ reply_text self.now }
    {
        match self {
            Answer::Text(text) => text.as_slice(),
            Answer::UnknownRequest => UNKNOWN_REQUEST,
            Answer::OutOfMemory => OUT_OF_MEMORY,
            Answer::Stopping(_) => STOPPING,
            Answer::TooManyWait(_) => TOO_MANY_WAIT,
        }
    }

    /// Returns the stop that is carried out, if one is.
    pub(crate) fn order(&self) -> Option<RequestedStop>
        ensures { result ≡ ordered_by self.now }
    {
        match self {
            Answer::Stopping(order) => Some(*order),
            Answer::TooManyWait(RequestedStop::Finish) => Some(RequestedStop::Finish),
            Answer::TooManyWait(RequestedStop::Now) => Some(RequestedStop::Now),
            _ => None,
        }
    }

    /// Returns the stop that its connection waits for, if it does.
    pub(crate) fn waits(&self) -> Option<RequestedStop>
        ensures { result ≡ waits_by self.now }
    {
        match self {
            Answer::Stopping(order) => Some(*order),
            _ => None,
        }
    }
}

/// Begins the text of a status. Returns `None` if memory is refused.
pub(crate) fn begun(alloc: Global, format: Format, run: &RunStatus) -> Option<StatusText>
    ensures { Begins format run.now result }
{
    StatusText::begin(alloc, format, run).ok()
}

/// Adds the row of a session to a status. If memory is refused, there is no status any more.
pub(crate) fn add(status: &mut Option<StatusText>, row: &SessionRow)
    ensures { Adds row.now status.old status.new }
{
    let Some(text) = status else {
        return;
    };
    if text.add(row).is_err() {
        *status = None;
    }
}

/// Finishes a status, and returns the answer.
pub(crate) fn finished(status: Option<StatusText>) -> Answer
    ensures { Finishes status result }
{
    let Some(text) = status else {
        return Answer::OutOfMemory;
    };
    match text.finish() {
        Ok(text) => Answer::Text(text),
        Err(_) => Answer::OutOfMemory,
    }
}

/// Returns the answer that the session with this number is not there.
pub(crate) fn no_session(alloc: Global, number: u32) -> Answer
    ensures { SaysNoSession number result }
{
    match format!(in alloc; "no session {number}\n") {
        Ok(text) => Answer::Text(text.into_bytes()),
        Err(_) => Answer::OutOfMemory,
    }
}
