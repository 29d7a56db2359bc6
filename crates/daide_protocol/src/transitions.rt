//! The session's rules, one small function each: which frame may arrive in which phase, the destination of its answer,
//! and what a frame changes. Each function has the rows of its table in `specs/Machine`, in their order.

ghost use Rattle.std.specs.Prelude.{◌≡◌, ℕ, List};
ghost use Rattle.daide_protocol.specs.HloLevel.{lvl_scan_of};
ghost use Rattle.daide_protocol.specs.Machine.{untimely as untimely_code, may_reach as may_reach_side};
ghost use Rattle.daide_protocol.specs.Machine.{is_sent as is_sent_to, destination as destination_of, deed_of as deed_by};
ghost use Rattle.daide_protocol.specs.Machine.{phase_after as next_phase};
ghost use Rattle.daide_protocol.specs.Machine.{side2_of as grammar_side};

use crate::ending::Ending;
use crate::hlo::{LvlScan, level_reported};
use crate::note::Deed;
use crate::phase::SessionPhase;
use daide_frame::side::other;
use daide_frame::{Code, Kind, Side};
use daide_grammar::{Level, Side2};
use daide_reader::Verdict;

/// Returns whose grammar judges a side's messages: to the bot the gateway is the server, and to the server the client.
pub fn side2_of(side: Side) -> Side2
    ensures { result ≡ grammar_side side }
{
    match side {
        Side::Bot => Side2::Client,
        Side::Server => Side2::ServerEnd,
    }
}

/// Returns the code of a header that may not come now. The protocol leaves two choices open. Here the bot's first frame
/// gets 02 and not 0D, and an RM before the IM gets 08.
pub fn untimely(phase: SessionPhase, side: Side, kind: Kind) -> Option<Code>
    ensures { result ≡ untimely_code phase side kind }
{
    match (phase, side, kind) {
        (SessionPhase::WaitIm, Side::Bot, Kind::Rm) => Some(Code::ImNotFirst),
        (SessionPhase::WaitIm, Side::Bot, Kind::Dm) => Some(Code::ImNotFirst),
        (SessionPhase::WaitIm, Side::Server, Kind::Im) => Some(Code::ImFromServer),
        (SessionPhase::WaitIm, Side::Server, Kind::Rm) => Some(Code::UnknownMessage),
        (SessionPhase::WaitIm, Side::Server, Kind::Dm) => Some(Code::RmNotFirst),
        (SessionPhase::WaitRm, Side::Bot, Kind::Im) => Some(Code::SecondIm),
        (SessionPhase::WaitRm, Side::Bot, Kind::Rm) => Some(Code::RmFromClient),
        (SessionPhase::WaitRm, Side::Bot, Kind::Dm) => Some(Code::DmBeforeRm),
        (SessionPhase::WaitRm, Side::Server, Kind::Im) => Some(Code::ImFromServer),
        (SessionPhase::WaitRm, Side::Server, Kind::Dm) => Some(Code::RmNotFirst),
        (SessionPhase::Open(_), Side::Bot, Kind::Im) => Some(Code::SecondIm),
        (SessionPhase::Open(_), Side::Bot, Kind::Rm) => Some(Code::RmFromClient),
        (SessionPhase::Open(_), Side::Server, Kind::Im) => Some(Code::ImFromServer),
        (SessionPhase::Open(_), Side::Server, Kind::Rm) => Some(Code::SecondRm),
        _ => None,
    }
}

/// Returns whether anything may be sent toward a side: nothing reaches the server before the IM was relayed.
pub fn may_reach(phase: SessionPhase, to: Side) -> bool
    ensures { result ≡ may_reach_side phase to }
{
    match (phase, to) {
        (SessionPhase::WaitIm, Side::Server) => false,
        _ => true,
    }
}

/// Returns whether the answer to a frame of a kind is sent: an FM or EM of the bot before the IM is not.
pub fn is_sent(phase: SessionPhase, kind: Kind, to: Side) -> bool
    ensures { result ≡ is_sent_to phase kind to }
{
    match kind {
        Kind::Im | Kind::Rm | Kind::Dm => true,
        Kind::Fm | Kind::Em => may_reach(phase, to),
    }
}

/// Returns where the answer to a side's frame goes: to the other side, or back to its sender.
pub fn destination(side: Side, verdict: Verdict) -> Side
    ensures { result ≡ destination_of side verdict }
{
    match verdict {
        Verdict::Relay => other(side),
        Verdict::Prn | Verdict::Huh(_) => side,
    }
}

/// Returns the move for a whole frame, by whether its answer is sent and by its verdict.
pub fn deed_of(is_sent: bool, verdict: Verdict) -> Deed
    ensures { result ≡ deed_by is_sent verdict }
{
    match (is_sent, verdict) {
        (false, Verdict::Relay | Verdict::Prn | Verdict::Huh(_)) => Deed::Dropped,
        (true, Verdict::Relay) => Deed::Relayed,
        (true, Verdict::Prn) => Deed::Prn,
        (true, Verdict::Huh(place)) => Deed::Huh(place),
    }
}

impl SessionPhase {
    /// Returns the phase after a side's frame of a kind was answered, by what its message contains. An FM or an EM ends
    /// the session. A relayed HLO of the server sets the level, to at most `top`. A bot's HLO never changes it.
    #[inline(always)]
    pub fn after(
        self,
        top: Level,
        kind: Kind,
        side: Side,
        verdict: Verdict,
        found: LvlScan,
    ) -> SessionPhase
        ensures { (tokens : List ℕ) → found ≡ lvl_scan_of tokens →
            result ≡ next_phase top kind side verdict tokens self }
    {
        match (kind, side, verdict, self) {
            (Kind::Im, _, _, _) => SessionPhase::WaitRm,
            (Kind::Rm, _, _, _) => SessionPhase::Open(Level::L0),
            (Kind::Dm, Side::Server, Verdict::Relay, SessionPhase::Open(level)) => {
                SessionPhase::Open(level_reported(top, found, level))
            }
            (Kind::Dm, _, _, phase) => phase,
            (Kind::Fm, _, _, _) => SessionPhase::Over(Ending::Final(side)),
            (Kind::Em, _, _, _) => SessionPhase::Over(Ending::Error(side)),
        }
    }
}
