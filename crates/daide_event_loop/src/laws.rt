//! Laws of runs: functions with no parameters and an empty body, whose contracts are the laws.

ghost use Rattle.daide_event_loop.specs.Served.{SessionsAreServed, OrdersAreHeeded};
ghost use Rattle.daide_event_loop.specs.Independence.{SessionsAreIndependent};
ghost use Rattle.daide_event_loop.specs.Fairness.{RoundsAreShort, ReadyPlacesAdvance};
ghost use Rattle.daide_event_loop.specs.Waiting.{RestingSessionsAreIdle, NoBotIsLeftOut};

use daide_io::ports::Ports;

/// After any rounds of a run from its opening, each session, held or retired, began at its place with ports that the
/// connect of the bot there returned. By all that these ports returned since, it is bounded and exact (`IsSessionOfRun`).
/// Each session that was retired is closed, so each of its wires that did not fail took all of the machine's answers. As
/// many ports were received as are held and were handed back. Each bot that came has a session, or its connect is pending
/// or failed.
///
/// Its meter has the bytes that its ports delivered from each side and took for each, modulo 2^64: those of all calls since
/// a connect returned the ports (`bytes`). A status shows these counts (`shows`). Its turns are spent if and only if it was
/// open after all turns of the settings, and one more began (`spent`). That turn stopped it, as an operator does
/// (`stopped`). So a session of which more turns began is over, and ends by the protocol (`ends`).
///
/// Not said: that a peer received the bytes that were taken.
pub fn sessions_are_served<P: Ports>()
    ensures { SessionsAreServed P.transition }
{}

/// The orders of the operator are heeded (`HeedsOrders`). After an order to stop accepting, accept is not called any more,
/// and the run is done as soon as each place is free. Without orders, a run is what it is
/// without an operator: it accepts as many bots as its settings say, and shows no session. Which session is shown, and
/// with which status, a round says (`shows`). No order is in the premises of `sessions_are_independent`.
pub fn orders_are_heeded<P: Ports>()
    ensures { OrdersAreHeeded P.transition }
{}

/// Sessions do not influence one another. Take a session of each of two runs, of any two systems with any two kinds of
/// ports, whose settings have the same limits, words and turns. If the calls of the two sessions' own ports returned the
/// same (`results_of`), the sessions have the same state and the same counts. If as many bytes were taken of each, the
/// same bytes were taken, and the same are queued (`AreAlike`). The ends that are reported of them are the same, too.
/// What any other session does is in no premise.
///
/// Not said: that calls return the same: what a port returns, and when, is the system's.
pub fn sessions_are_independent<P: Ports, Q: Ports>()
    ensures { SessionsAreIndependent P.transition Q.transition }
{}

/// After any rounds of a run, each place that is used and not in the queue is at rest (`IsAtRest`). The last turn of its
/// session made no progress: the clock reported nothing, each side for whose bytes it has room returned none, and each wire
/// for which bytes are queued took none (`IsIdleSession`). Then the system had these ports rest, and no later call is about
/// the place: no poll has woken it. Or its bot has no session, and its connect was pending when it was last asked for. A poll
/// may block only if the queue is empty (`Round`), so then all used places are at rest. So if the system wakes a place that
/// rests once there is something to do, no wake-up is lost.
///
/// Not said: that the system does.
pub fn resting_sessions_are_idle<P: Ports>()
    ensures { RestingSessionsAreIdle P.transition }
{}

/// If a run may accept one more bot when its queue is empty, the last call of the round before asked for one, and none came.
/// So a poll that may block leaves no bot out that had come until then. The first poll of a run comes before any accept.
pub fn no_bot_is_left_out<P: Ports>()
    ensures { NoBotIsLeftOut P.transition }
{}

/// In a round sessions have at most 32 turns. Then the network is polled again. A visit without a session counts as one.
///
/// Not said: how long a turn takes.
pub fn rounds_are_short<P: Ports>()
    ensures { RoundsAreShort P.transition }
{}

/// A place that has something to do comes nearer to its visit in each round, whatever the others do (`Advances`). One that was
/// at rest passes at least three others in a round, and one that had turns before passes at least one. So with `k` others
/// before it, a session has a turn after at most `k / 3 + 1` rounds if it was at rest, and else after at most `k + 1`. A
/// session that has its quantum in a visit joins those that had turns before.
pub fn ready_places_advance<P: Ports>()
    ensures { ReadyPlacesAdvance P.transition }
{}
