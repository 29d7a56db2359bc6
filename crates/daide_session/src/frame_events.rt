//! The transitions of a session on frame events: the effects of the last byte of a piece.

ghost use Rattle.std.specs.Prelude.{◌≡◌, ◌⊎◌, [], ◌∷◌, length, drop, Some, None, Ok};
ghost use Rattle.daide_frame.specs.declared.head.Kind.TheVariants as Kinds;
ghost use Rattle.daide_frame.specs.Frames.{Begun, Whole, HoldsFrame, IsBodied, head_in, items_of_step, IsWholeBody};
ghost use Rattle.daide_protocol.specs.Machine.{untimely as untimely_code};
ghost use Rattle.daide_channels.specs.Fronts.{KeepsFronts};
ghost use Rattle.daide_channels.specs.Channels.{pending, side_holding};
ghost use Rattle.daide_session.specs.Session.{view_of};
ghost use Rattle.daide_session.specs.FrameEvents.{HandlesFrameEvents, MayHandleEvents, StartsMessage, note_by, check_of};

use crate::protocol_state::{ProtocolState, fail};
use daide_channels::channels::Channels;
use daide_frame::code::Code;
use daide_frame::cutter::Step;
use daide_frame::head::{Head, Kind};
use daide_frame::initial_message::check_im;
use daide_frame::side::{Side, other};
use daide_protocol::hlo::LvlScan;
use daide_protocol::note::{Deed, Note};
use daide_protocol::transitions::{deed_of, is_sent, untimely};
use daide_reader::Verdict;
use std::alloc::Allocator;

/// Checks the body of a whole frame: an IM must have the protocol's magic number and version.
#[tactic(auto, unfolding(daide_frame::specs::InitialMessage::im_of))]
fn check_frame(kind: Kind, body: &[u8]) -> Result<(), Code>
    requires { kind ≡ Kinds.Im → length body.now ≡ 4 }
    ensures { result ≡ check_of kind body.now }
{
    match kind {
        Kind::Im => check_im([body[0], body[1], body[2], body[3]]),
        Kind::Rm | Kind::Dm | Kind::Fm | Kind::Em => Ok(()),
    }
}

/// Handles a whole header. An untimely header is a fault and ends the session; otherwise its message starts at the
/// present level.
#[inline(always)]
fn begin<A: Allocator>(
    channels: &mut Channels<A>,
    protocol: &mut ProtocolState,
    side: Side,
    head: Head,
) -> Note
    requires ready { MayHandleEvents channels.old protocol.old side }
    requires bodiless { drop 4 (pending channels.old side) ≡ [] }
    ensures reacts { HandlesFrameEvents (view_of channels.old protocol.old) side (Begun head ∷ []) result
        (view_of channels.new protocol.new) }
    ensures note { result ≡ note_by (untimely_code protocol.old.phase side head.kind) }
    ensures begun { untimely_code protocol.old.phase side head.kind ≡ None →
        StartsMessage side channels.old protocol.old channels.new protocol.new }
    ensures fronts { KeepsFronts channels.old channels.new }
    ensures unasked { (side_holding channels.new side).total ≡ (side_holding channels.old side).total }
{
    if let Some(code) = untimely(protocol.phase, side, head.kind) {
        return fail(channels, protocol, side, code);
    }
    channels.begin(side, protocol.phase.level());
    Note::Nothing
}

/// Handles a whole frame that passed its check: judges it, queues its answer, and counts the move. It records what the
/// bot calls itself, and the power that it plays. It drops the frame without counting it if the answer must not be sent.
#[inline(always)]
fn answer<A: Allocator>(
    channels: &mut Channels<A>,
    protocol: &mut ProtocolState,
    side: Side,
    head: Head,
) -> Note
    requires ready { MayHandleEvents channels.old protocol.old side }
    requires head { head_in channels.old.cap (pending channels.old side) ≡ Some head }
    requires good { check_of head.kind (drop 4 (pending channels.old side)) ≡ Ok tt }
    ensures reacts { HandlesFrameEvents (view_of channels.old protocol.old) side
        (Whole head (drop 4 (pending channels.old side)) ∷ []) result (view_of channels.new protocol.new) }
    ensures fronts { KeepsFronts channels.old channels.new }
{
    // Only an FM or EM can be unsent here, and both are relayed.
    if !is_sent(protocol.phase, head.kind, other(side)) {
        channels.clear(side);
        protocol.phase = protocol.phase.after(
            protocol.top_level,
            head.kind,
            side,
            Verdict::Relay,
            LvlScan::NoToken,
        );
        return Note::Frame(head, Deed::Dropped);
    }
    let verdict = channels.reply(side, head);
    protocol.phase = protocol.phase.after(
        protocol.top_level,
        head.kind,
        side,
        verdict,
        channels.found(side),
    );
    let deed = deed_of(true, verdict);
    protocol.account.count_frame(
        protocol.top_level,
        side,
        head.kind,
        deed,
        channels.found(side),
    );
    protocol
        .account
        .record_message(side, head.kind, deed, channels.body(side));
    Note::Frame(head, deed)
}

/// Handles a whole frame: checks it, and then queues its answer.
#[inline(always)]
fn complete<A: Allocator>(
    channels: &mut Channels<A>,
    protocol: &mut ProtocolState,
    side: Side,
    head: Head,
) -> Note
    requires ready { MayHandleEvents channels.old protocol.old side }
    requires head { head_in channels.old.cap (pending channels.old side) ≡ Some head }
    requires full { IsWholeBody head (drop 4 (pending channels.old side)) }
    ensures reacts { HandlesFrameEvents (view_of channels.old protocol.old) side
        (Whole head (drop 4 (pending channels.old side)) ∷ []) result (view_of channels.new protocol.new) }
    ensures fronts { KeepsFronts channels.old channels.new }
{
    match check_frame(head.kind, channels.body(side)) {
        Err(code) => fail(channels, protocol, side, code),
        Ok(()) => answer(channels, protocol, side, head),
    }
}

/// Handles a whole header without a body, which is a whole frame: starts its message and, if the header is timely,
/// completes it.
#[inline(always)]
fn begin_and_complete<A: Allocator>(
    channels: &mut Channels<A>,
    protocol: &mut ProtocolState,
    side: Side,
    head: Head,
) -> Note
    requires ready { MayHandleEvents channels.old protocol.old side }
    requires bodiless { drop 4 (pending channels.old side) ≡ [] }
    requires head { head_in channels.old.cap (pending channels.old side) ≡ Some head }
    requires full { IsWholeBody head [] }
    ensures reacts { HandlesFrameEvents (view_of channels.old protocol.old) side (Begun head ∷ Whole head [] ∷ []) result
        (view_of channels.new protocol.new) }
    ensures fronts { KeepsFronts channels.old channels.new }
{
    match begin(channels, protocol, side, head) {
        Note::Nothing => complete(channels, protocol, side, head),
        fault => fault,
    }
}

/// Handles the step that the last byte of a piece completed in a side's frame.
#[inline(always)]
pub fn on_frame_event<A: Allocator>(
    channels: &mut Channels<A>,
    protocol: &mut ProtocolState,
    side: Side,
    step: Step,
) -> Note
    requires ready { MayHandleEvents channels.old protocol.old side }
    requires frame_bytes { HoldsFrame step (head_in channels.old.cap (pending channels.old side))
        (drop 4 (pending channels.old side)) }
    ensures reacts { HandlesFrameEvents (view_of channels.old protocol.old) side
        (items_of_step step (drop 4 (pending channels.old side))) result (view_of channels.new protocol.new) }
    ensures fronts { KeepsFronts channels.old channels.new }
    ensures unasked { IsBodied step ⊎ ((side_holding channels.new side).total ≡ (side_holding channels.old side).total) }
{
    match step {
        Step::More => Note::Nothing,
        Step::Fault(code) => fail(channels, protocol, side, code),
        Step::Headed(head) => begin(channels, protocol, side, head),
        Step::Bodied(head) => {
            if head.len > 0 {
                return complete(channels, protocol, side, head);
            }
            begin_and_complete(channels, protocol, side, head)
        }
    }
}
