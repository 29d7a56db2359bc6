//! The phase of a session.

ghost use Rattle.std.specs.Prelude.{◌≡◌};
ghost use Rattle.daide_protocol.specs.Machine.{ending_in, level_in, plain_phase, is_over as is_over_phase};

use crate::ending::Ending;
use daide_grammar::Level;

/// The phase of a session, in chronological order, as callers see it.
#[derive(Clone, Copy, Debug, PartialEq, Eq)]
pub enum Phase {
    /// Nothing was relayed yet: the bot's initial message (IM) must come first.
    WaitIm,
    /// The IM was relayed: the server's representation message (RM) is next.
    WaitRm,
    /// The RM was relayed: diplomacy messages (DM) are judged, and relayed or returned.
    Open,
    /// After an end, a fault, an FM, an EM or a stop: no frame is processed any more.
    Over,
}

/// The phase of a session with what is known in it: the press level of an open session, the ending of one that is over.
#[derive(Clone, Copy)]
pub enum SessionPhase {
    /// As `Phase::WaitIm`.
    WaitIm,
    /// As `Phase::WaitRm`.
    WaitRm,
    /// As `Phase::Open`, at this press level.
    Open(Level),
    /// As `Phase::Over`, since this event.
    Over(Ending),
}

impl SessionPhase {
    /// Returns the phase alone.
    pub fn plain(self) -> Phase
        ensures { result ≡ plain_phase self }
    {
        match self {
            SessionPhase::WaitIm => Phase::WaitIm,
            SessionPhase::WaitRm => Phase::WaitRm,
            SessionPhase::Open(_) => Phase::Open,
            SessionPhase::Over(_) => Phase::Over,
        }
    }

    /// Returns the press level of an open session, and level 0 in every other phase.
    pub fn level(self) -> Level
        ensures { result ≡ level_in self }
    {
        match self {
            SessionPhase::Open(level) => level,
            SessionPhase::WaitIm | SessionPhase::WaitRm | SessionPhase::Over(_) => Level::L0,
        }
    }

    /// Returns the event that ended the session, once it is over.
    pub fn ending(self) -> Option<Ending>
        ensures { result ≡ ending_in self }
    {
        match self {
            SessionPhase::Over(ending) => Some(ending),
            SessionPhase::WaitIm | SessionPhase::WaitRm | SessionPhase::Open(_) => None,
        }
    }

    /// Returns whether the session is over.
    pub fn is_over(self) -> bool
        ensures { result ≡ is_over_phase self }
    {
        match self {
            SessionPhase::Over(_) => true,
            SessionPhase::WaitIm | SessionPhase::WaitRm | SessionPhase::Open(_) => false,
        }
    }
}
