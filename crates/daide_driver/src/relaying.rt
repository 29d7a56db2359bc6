//! The loop of turns, which ends with the session.

ghost use Rattle.std.specs.Prelude.{◌≡◌, ◌≤◌, not};
ghost use Rattle.daide_protocol.specs.Wires.{is_closed};
ghost use Rattle.daide_protocol.specs.Weight.{weight_of, weight_bound};
ghost use Rattle.daide_driver.specs.Record.{EvolveTogether};
ghost use Rattle.daide_driver.specs.Relay.{MakesTurns, WholeRelay, is_spent};

use crate::turn_io::turn;
use daide_io::ports::Ports;
use daide_session::session::Session;
use std::alloc::Allocator;

/// How a relay ended.
#[derive(Clone, Copy, Debug, PartialEq, Eq)]
pub enum RelayEnd {
    /// The session is over, and both send queues are empty.
    Closed,
    /// All turns were made, and the session may be relayed further.
    TurnsSpent,
}

/// Makes at most `turns` turns, and stops as soon as the session is closed.
fn make_turns<A: Allocator, P: Ports>(
    session: &mut Session<A>,
    ports: &mut P,
    turns: u64,
) -> RelayEnd
    ensures turns { EvolveTogether P.transition (MakesTurns result turns) (session.old, ports.old) (session.new, ports.new) }
    ensures closed { is_closed session.new ≡ not (is_spent result) }
{
    for _ in 0..turns {
        if session.is_closed() {
            return RelayEnd::Closed;
        }
        turn(session, ports);
    }
    if session.is_closed() {
        RelayEnd::Closed
    } else {
        RelayEnd::TurnsSpent
    }
}

/// Makes at most `turns` turns while the session is not closed. Beside the session it keeps one array of 512 bytes.
///
/// `relayed`: it says of all turns together what `exchange` of `turn` says of one: `in_order`, `delivered`, `headline`
/// and `totals`. The bounds hold after each turn.
///
/// `closed`: it returns `Closed` if and only if the session is over and nothing waits. Else it made all its turns.
///
/// Not said: that a relay of no turns calls no port. Tests show it.
pub fn relay<A: Allocator, P: Ports>(
    session: &mut Session<A>,
    ports: &mut P,
    turns: u64,
) -> RelayEnd
    ensures relayed { EvolveTogether P.transition (WholeRelay result turns) (session.old, ports.old) (session.new, ports.new) }
    ensures closed { is_closed session.new ≡ not (is_spent result) }
    ensures weight { weight_of session.new ≤ weight_bound session.new }
{
    let end = make_turns(session, ports, turns);
    session.bounds();
    end
}
