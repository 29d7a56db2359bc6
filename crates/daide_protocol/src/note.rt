//! The result of a session's call for the bytes received.

use daide_frame::{Code, Head};

/// What was done with a whole frame.
#[derive(Clone, Copy, PartialEq, Eq)]
pub enum Deed {
    /// It was relayed to the other side.
    Relayed,
    /// It was dropped: an FM or EM of the bot before the IM was relayed.
    Dropped,
    /// Its brackets are not paired: the sender gets PRN.
    Prn,
    /// It is no message of the grammar, or too deep: the sender gets HUH, with ERR after this number of its tokens.
    Huh(u16),
}

/// What bytes, the timer or a stop caused.
#[derive(Clone, Copy, PartialEq, Eq)]
pub enum Note {
    /// No frame was completed, there was no fault, and no stop ended the session.
    Nothing,
    /// A frame with this header was completed.
    Frame(Head, Deed),
    /// A fault, which ended the session.
    Fault(Code),
    /// The operator stopped the session.
    Stopped,
}
