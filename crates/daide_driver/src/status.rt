//! The status of a session, and the field that its fault is about, as an operator sees them.

ghost use Rattle.std.specs.Prelude.{◌≡◌, true, is_some, take, drop};
ghost use Rattle.daide_frame.specs.Frames.{head_in};
ghost use Rattle.daide_protocol.specs.Machine.{coming};
ghost use Rattle.daide_protocol.specs.Wires.{is_closed};
ghost use Rattle.daide_io.specs.FaultField.{fault_field, fault_field_of};
ghost use Rattle.daide_io.specs.System.{status_of};

use daide_frame::code::Code;
use daide_frame::side::Side;
use daide_io::byte_counts::ByteCounts;
use daide_io::fault_field::FaultField;
use daide_io::system::SessionStatus;
use daide_protocol::ending::Ending;
use daide_session::session::Session;
use std::alloc::Allocator;

/// Returns the status of a session: its phase, its level, its counts by side, how many bytes are queued for each side, and
/// the bytes that its ports delivered and took.
pub fn session_status<A: Allocator>(session: &Session<A>, bytes: ByteCounts) -> SessionStatus
    ensures { result ≡ status_of session.now bytes }
{
    SessionStatus {
        phase: session.phase(),
        level: session.level(),
        account: session.account(),
        queued_to_bot: session.queued_len(Side::Bot),
        queued_to_server: session.queued_len(Side::Server),
        bytes,
    }
}

/// Returns the field that a side's fault is about, from the bytes of its frame that a closed session still holds.
fn field_of_side<A: Allocator>(session: &Session<A>, side: Side, code: Code) -> Option<FaultField>
    requires { is_closed session.now ≡ true }
    ensures { result ≡ fault_field code (is_some (head_in session.now.state.limits.cap
        (coming session.now.state side).pending)) (take 4 (coming session.now.state side).pending)
        (drop 4 (coming session.now.state side).pending) }
{
    let is_good = session.head(side).is_some();
    FaultField::of(code, is_good, session.header(side), session.body(side))
}

/// Returns the field that the fault is about which ended a closed session: what was wrong of the frame, and its place in
/// it. Returns `None` if no fault ended the session, and for an IM that did not arrive in time.
///
/// It depends on the bytes received alone: those of the side at fault since its last whole frame.
pub fn fault_field<A: Allocator>(session: &Session<A>) -> Option<FaultField>
    requires { is_closed session.now ≡ true }
    ensures { result ≡ fault_field_of session.now.state }
{
    match session.ending() {
        Some(Ending::Fault(side, code)) => field_of_side(session, side, code),
        _ => None,
    }
}
