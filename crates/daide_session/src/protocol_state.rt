//! The protocol state of a session, and how the session ends: by a side's fault, a side's end, or a stop.
//!
//! Only this module and `frame_events` change the phase, and count moves.

ghost use Rattle.std.specs.Prelude.{◌≡◌, ◌++◌, false};
ghost use Rattle.daide_frame.specs.declared.side.Side.{Side};
ghost use Rattle.daide_protocol.specs.declared.ending.Ending.TheVariants as Endings;
ghost use Rattle.daide_protocol.specs.declared.phase.SessionPhase.TheVariants.{Over};
ghost use Rattle.daide_protocol.specs.declared.note.Note.TheVariants as Notes;
ghost use Rattle.daide_frame.specs.Side.{other as other_side};
ghost use Rattle.daide_protocol.specs.Machine.{fault, fm_to, is_over as is_over_phase};
ghost use Rattle.daide_protocol.specs.Wires.{frames_to, note_of};
ghost use Rattle.daide_frame.specs.PerSide.{at};
ghost use Rattle.daide_channels.specs.Channels.{has_final_frame};
ghost use Rattle.daide_channels.specs.Fronts.{KeepsFronts};
ghost use Rattle.daide_session.specs.Session.{state_of, view_of, IsConsistentSession};
ghost use Rattle.daide_session.specs.FrameEvents.{Emits, KeepsSides, stopped, terminated};

use daide_channels::channels::Channels;
use daide_frame::code::Code;
use daide_frame::side::{Side, other};
use daide_grammar::level::Level;
use daide_protocol::account::Account;
use daide_protocol::ending::Ending;
use daide_protocol::note::Note;
use daide_protocol::phase::SessionPhase;
use daide_protocol::transitions::may_reach;
use std::alloc::Allocator;

/// The phase of a session with its level or its ending, the highest level that an HLO may set, and its account.
#[derive(Clone, Copy)]
pub struct ProtocolState {
    /// The highest level that an HLO may set.
    pub top_level: Level,
    /// The phase of the session.
    pub phase: SessionPhase,
    /// The counted effects of the session, by side, and the level that was last in force.
    pub account: Account,
}

impl ProtocolState {
    /// Returns whether the session has ended.
    pub fn is_over(&self) -> bool
        ensures { result ≡ is_over_phase self.now.phase }
    {
        self.phase.is_over()
    }
}

/// Ends the session, and queues an FM for the peer of `side` if an FM may be sent to it.
fn terminate<A: Allocator>(
    channels: &mut Channels<A>,
    protocol: &mut ProtocolState,
    side: Side,
    ending: Ending,
)
    requires { has_final_frame (at channels.old.queued (other_side side)) ≡ false }
    ensures protocol { protocol.new ≡ record {
      top_level = protocol.old.top_level;
      phase = Over ending;
      account = protocol.old.account;
    } }
    ensures keeps { KeepsSides channels.old channels.new }
    ensures sent { (wire : Side) → at channels.new.queued wire
        ≡ at channels.old.queued wire ++ frames_to wire (fm_to protocol.old.phase (other_side side)) }
    ensures fronts { KeepsFronts channels.old channels.new }
{
    if may_reach(protocol.phase, other(side)) {
        channels.queue_final(other(side), None);
    }
    protocol.phase = SessionPhase::Over(ending);
}

/// Handles a side's end, by its stream or its wire. Has no effect if the session is over.
pub fn on_peer_closed<A: Allocator>(
    channels: &mut Channels<A>,
    protocol: &mut ProtocolState,
    side: Side,
    ending: Ending,
)
    requires { IsConsistentSession (view_of channels.old protocol.old) }
    ensures moves { Emits (view_of channels.old protocol.old) (stopped (state_of channels.old protocol.old) ending side)
        (view_of channels.new protocol.new) }
    ensures keeps { KeepsSides channels.old channels.new }
    ensures fronts { KeepsFronts channels.old channels.new }
{
    if protocol.is_over() {
        return;
    }
    terminate(channels, protocol, side, ending);
}

/// Handles a stop by the operator: queues an FM for each side that an FM may be sent to, and ends the session. Has no
/// effect if the session is over.
pub fn on_stop<A: Allocator>(channels: &mut Channels<A>, protocol: &mut ProtocolState) -> Note
    requires { IsConsistentSession (view_of channels.old protocol.old) }
    ensures note { result ≡ note_of (terminated (state_of channels.old protocol.old)).effects }
    ensures moves { Emits (view_of channels.old protocol.old) (terminated (state_of channels.old protocol.old))
        (view_of channels.new protocol.new) }
    ensures keeps { KeepsSides channels.old channels.new }
    ensures fronts { KeepsFronts channels.old channels.new }
{
    if protocol.is_over() {
        return Note::Nothing;
    }
    channels.queue_final(Side::Bot, None);
    terminate(channels, protocol, Side::Bot, Ending::Stopped);
    Note::Stopped
}

/// Handles a side's fault: queues an EM for it and an FM for the other side, and ends the session.
pub fn fail<A: Allocator>(
    channels: &mut Channels<A>,
    protocol: &mut ProtocolState,
    side: Side,
    code: Code,
) -> Note
    requires { (wire : Side) → has_final_frame (at channels.old.queued wire) ≡ false }
    ensures note { result ≡ Notes.Fault code }
    ensures moves { Emits (view_of channels.old protocol.old) (fault (state_of channels.old protocol.old) side code)
        (view_of channels.new protocol.new) }
    ensures keeps { KeepsSides channels.old channels.new }
    ensures fronts { KeepsFronts channels.old channels.new }
{
    channels.queue_final(side, Some(code));
    terminate(channels, protocol, side, Ending::Fault(side, code));
    protocol.account.count_fault();
    Note::Fault(code)
}
