//! What ended a session.

use daide_frame::{Code, Side};

/// The event that ended a session. It is the first such event; no later one changes it.
#[derive(Clone, Copy, Debug, PartialEq, Eq)]
pub enum Ending {
    /// This side's stream ended.
    Ended(Side),
    /// The wire to this side failed.
    Lost(Side),
    /// This side sent a final message (FM).
    Final(Side),
    /// This side sent an error message (EM).
    Error(Side),
    /// This side made a fault. A late initial message is the bot's fault.
    Fault(Side, Code),
    /// The operator stopped the session.
    Stopped,
}
