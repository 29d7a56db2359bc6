//! A turn: moves bytes between a session and its two wires.
//!
//! The clock is read first, so that a late initial message or a stop ends the session before anything is read. Then the queued
//! frames are written, so that a side whose answer is sent can be read in the same turn. A turn makes at most one call
//! for each wire and one for each side, so neither peer can delay the other.

ghost use Rattle.std.specs.Prelude.{◌≡◌, ◌<◌, ◌≤◌, min, length};
ghost use Rattle.daide_frame.specs.declared.side.Side.{Side};
ghost use Rattle.daide_reader.specs.Reading.{IsRaised};
ghost use Rattle.daide_frame.specs.Side.{other};
ghost use Rattle.daide_protocol.specs.Wires.{holding, room_of, AsksNothing};
ghost use Rattle.daide_protocol.specs.Weight.{weight_of, weight_bound};
ghost use Rattle.daide_driver.specs.Meter.{nothing_moved, Moving, Stopping};
ghost use Rattle.daide_driver.specs.Record.{EvolveTogether};
ghost use Rattle.daide_driver.specs.Totals.{Working};
ghost use Rattle.daide_driver.specs.Turn.{AsksClock, Puts, Pulls, AsksAtMost, most_pulled, turn_steps};
ghost use Rattle.daide_driver.specs.Whole.{WholeTurn};

use crate::meter::Moved;
use daide_frame::side::Side;
use daide_io::ports::{ClockEvent, Ports, Pull, Put};
use daide_session::session::Session;
use std::alloc::Allocator;

/// The most bytes that a turn reads from a side.
pub(crate) const BUFFER: usize = 512;

/// Reads the clock, and reports an expired IM timer or a stop to the session. If its turns are spent, it is a stop.
fn ask_clock<A: Allocator, P: Ports>(
    session: &mut Session<A>,
    ports: &mut P,
    is_spent: bool,
    moved: &mut Moved,
)
    ensures clock { EvolveTogether P.transition (Stopping is_spent (Moving moved.old moved.new (Working AsksClock)))
        (session.old, ports.old) (session.new, ports.new) }
    ensures asks_nothing { AsksNothing session.old session.new }
    ensures limits { session.new.state.limits ≡ session.old.state.limits }
{
    let event = ports.clock(is_spent);
    moved.add_clock(event);
    match event {
        ClockEvent::NoEvent => {}
        ClockEvent::ImTimeIsOver => {
            session.im_timeout();
        }
        ClockEvent::StopIsRequested => {
            session.stop();
        }
    }
}

/// Puts the whole front of a send queue to its wire.
#[inline(always)]
fn put_front<A: Allocator, P: Ports>(
    session: &mut Session<A>,
    ports: &mut P,
    side: Side,
    moved: &mut Moved,
)
    ensures puts { EvolveTogether P.transition (Moving moved.old moved.new (Working (Puts side))) (session.old, ports.old)
        (session.new, ports.new) }
    ensures asks_nothing { AsksNothing session.old session.new }
    ensures limits { session.new.state.limits ≡ session.old.state.limits }
{
    let front = session.front(side);
    if front.is_empty() {
        return;
    }
    let put = ports.put(side, front);
    moved.add_put(side, put);
    match put {
        Put::Took(n) => session.wrote(side, n),
        Put::Failed => session.lost(side),
    }
}

/// Pulls bytes from a side into a buffer, and feeds them to the session.
#[inline(always)]
fn pull_into<A: Allocator, P: Ports>(
    session: &mut Session<A>,
    ports: &mut P,
    side: Side,
    moved: &mut Moved,
    buffer: &mut [u8],
)
    requires room { 0 < room_of session.old side }
    requires len { length buffer.old ≡ min (room_of session.old side) most_pulled }
    ensures pulls { EvolveTogether P.transition (Moving moved.old moved.new (Working (Pulls side))) (session.old, ports.old)
        (session.new, ports.new) }
    ensures asked { IsRaised turn_steps (holding session.old side).total (holding session.new side).total }
    ensures other_side { (holding session.new (other side)).total ≡ (holding session.old (other side)).total }
    ensures limits { session.new.state.limits ≡ session.old.state.limits }
{
    let pull = ports.pull(side, buffer);
    moved.add_pull(side, pull);
    match pull {
        Pull::Got(n) => {
            session.feed(side, &buffer[..n]);
        }
        Pull::Idle => {}
        Pull::Ended => {
            session.ended(side);
        }
    }
}

/// Pulls as many bytes from a side as the session has room for and the buffer holds.
#[inline(always)]
fn pull<A: Allocator, P: Ports>(
    session: &mut Session<A>,
    ports: &mut P,
    side: Side,
    moved: &mut Moved,
    buffer: &mut [u8; BUFFER],
)
    ensures pulls { EvolveTogether P.transition (Moving moved.old moved.new (Working (Pulls side))) (session.old, ports.old)
        (session.new, ports.new) }
    ensures asked { IsRaised turn_steps (holding session.old side).total (holding session.new side).total }
    ensures other_side { (holding session.new (other side)).total ≡ (holding session.old (other side)).total }
    ensures limits { session.new.state.limits ≡ session.old.state.limits }
{
    let room = session.room(side);
    if room == 0 {
        return;
    }
    let len = room.min(BUFFER);
    pull_into(session, ports, side, moved, &mut buffer[..len]);
}

/// Makes one turn: calls the clock once, puts once to each wire for which something waits, and pulls once from each
/// side that has room. The bot comes first each time.
///
/// `exchange` (`in_order`): each call is decided by the session's state at that step. The session takes one step for
/// each result (`Refines`, `Wrote`, `Lost`), and the ports evolve by the same results (`EvolveTogether`). The relation
/// `transition` of the ports says what a result does to them.
///
/// A put hands over the whole front that the session has then. A pull has a buffer as long as the room, of at most 512
/// bytes. An FM or EM is handed over whole. An answer is handed over in parts (`AreAnswerParts`): its header, the
/// frame's body, and the fixed words around it, `PRN (`, `HUH (`, `ERR` and `)`. What a put took is removed from these
/// parts (`TakesFront`). A wire that takes all that it is handed gets a relayed message in two puts. It gets a PRN in
/// four puts and a HUH in six, at most.
///
/// `exchange` (`delivered`): by the events that the ports returned in the call, the state is the machine's. For each
/// wire, what waited before and the machine's answers are the bytes that it took and what waits after. A wire that
/// failed took a prefix of that, nothing waits for it, and the session is over.
///
/// `exchange` (`totals`): over all that the ports returned since the session was made, the session counted the moves
/// of the machine, and a side's table makes at most two look-ups for each byte received, modulo 2^64 (`HasTotals`). A
/// token of two bytes takes at most four look-ups, and the four bytes of a message's header pay for the four at its end.
/// Neither pieces nor the number of messages matter. Between any two calls the same holds, with what is left over for
/// the bytes held at the beginning (`Works`). So it holds of a relay, and of each session of a hub and of a run
/// (`sessions_are_apart`, `sessions_are_served`).
///
/// `exchange` (`headline`): let the session be reachable, by all that its ports returned before: a run from its opening
/// leads to it (`IsReachable`). Then it is reachable after the call, and bounded and exact (`IsBoundedAndExact`). In
/// each direction it holds at most one message's announced length, capped, plus eight entries for each open bracket,
/// plus sixteen. It holds at most 64 further entries in all. It took at most four table steps a token, and four more a
/// message. Each wire took a prefix of the machine's answers, and unless it failed, what waits is all that is left of
/// them. Once the session is closed, a wire that did not fail took all of them.
///
/// `exchange` (`bounds`): the bounds on what is held and on steps hold after each turn of any session, wherever it
/// began.
///
/// `asked`: the call makes at most 1,032 look-ups in each side's table, whatever the ports return (`turn_steps`). A turn
/// pulls at most 512 bytes from a side, which complete at most 257 tokens.
///
/// `exchange`: by the same calls, it returns what the calls moved: whether they made progress, and the bytes that they delivered and
/// took for each side (`moved_by`).
///
/// Not said: which of two adjacent words `ERR` was inserted, if the body has one at that place.
pub fn turn<A: Allocator, P: Ports>(session: &mut Session<A>, ports: &mut P) -> Moved
    ensures exchange { EvolveTogether P.transition (Moving nothing_moved result WholeTurn) (session.old, ports.old)
        (session.new, ports.new) }
    ensures asked { AsksAtMost turn_steps session.old session.new }
    ensures weight { weight_of session.new ≤ weight_bound session.new }
    ensures limits { session.new.state.limits ≡ session.old.state.limits }
{
    let mut moved = Moved::nothing();
    turn_through(session, ports, false, &mut moved, &mut [0; BUFFER]);
    moved
}

/// Makes one turn that reads through the given buffer, whose old contents have no effect, and adds what moved. If the turns
/// of the session are spent, its clock stops it.
#[inline(always)]
pub(crate) fn turn_through<A: Allocator, P: Ports>(
    session: &mut Session<A>,
    ports: &mut P,
    is_spent: bool,
    moved: &mut Moved,
    buffer: &mut [u8; BUFFER],
)
    ensures exchange { EvolveTogether P.transition (Stopping is_spent (Moving moved.old moved.new WholeTurn))
        (session.old, ports.old) (session.new, ports.new) }
    ensures asked { AsksAtMost turn_steps session.old session.new }
    ensures weight { weight_of session.new ≤ weight_bound session.new }
    ensures limits { session.new.state.limits ≡ session.old.state.limits }
{
    ask_clock(session, ports, is_spent, moved);
    put_front(session, ports, Side::Bot, moved);
    put_front(session, ports, Side::Server, moved);
    pull(session, ports, Side::Bot, moved, buffer);
    pull(session, ports, Side::Server, moved, buffer);
    session.bounds();
}
