//! Laws of runs over sockets: functions with no parameters and an empty body, whose contracts are the laws.

ghost use Rattle.daide_sockets.specs.Timers.{timers_of};
ghost use Rattle.daide_run_laws.specs.FinishTime.{FinishingSocketsLeave};
ghost use Rattle.daide_run_laws.specs.FreedPlaces.{NoSessionWaitsForEver, TimeoutsStay, DeadlinesPassSeldom};
ghost use Rattle.daide_run_laws.specs.NoLostWakeups.{NoWakeupIsLost, NoBotWaits};
ghost use Rattle.daide_run_laws.specs.Room.{EachBotHasRoom};

use daide_io::duplex::Duplex;
use daide_io::network::Network;
use daide_io::ports::Ports;
use daide_log::{Recording, Sink};
use daide_sockets::ports::SocketPorts;

/// No wake-up is lost. At each poll of a run over sockets that may block the network is polled once, and what it reports is
/// in the rows. Each session sleeps (`Sleeps`): polls reported nothing of its sockets that was not taken. From each side
/// for whose bytes it has room, its socket is not readable, and nothing was read ahead. To each side for which bytes are
/// queued or buffered, its socket is not writable. The poll ends by the nearest deadline of the session.
///
/// The ports are those that ship, over any two streams, around which a record may be, and `N` is the network. The calls of the run have their effect on
/// it and on the table as the sockets' own `transition` says (`Wakes`).
///
/// Not said: that the network reports what becomes readable or writable after a call that would have blocked. That depends
/// on the network.
pub fn no_wakeup_is_lost<S: Duplex + Drop, N: Network, W: Sink + Drop>()
    ensures { NoWakeupIsLost ⟦<Recording<SocketPorts<'static, S>, W> as Ports>⟧.transition (λ ports. (timers_of ports.ports).sockets)
        S.calls N.transition }
{}

/// No bot waits. Take a poll of a run over sockets that may block, after one round or more, while one more bot may be accepted
/// and a place is free. It takes no time while an accept is due: while the listener is ready and no pause of accepts is under
/// way, or the pause is over. In each round that accepts exactly one accept is made, if it is due and its descriptors are free
/// (`each_bot_has_room`).
pub fn no_bot_waits<S: Duplex + Drop, N: Network, W: Sink + Drop>()
    ensures { NoBotWaits ⟦<Recording<SocketPorts<'static, S>, W> as Ports>⟧.transition (λ ports. timers_of ports.ports)
        N.transition }
{}

/// The sockets have room for each bot that the loop may accept. Take a run over sockets with no bot yet, whose closing
/// streams have rows of their own, any number of rounds, and one more that accepts. No connect is pending at the place that
/// the loop chose, and a number is left for the bot (`HasRoomForBot`). So exactly one accept is made whenever it is due and its
/// descriptors are free, and then only connects for its bot (`AcceptsThenConnects`). The rows of both sockets are those of the place.
///
/// A run has at most 2^32 - 1 bots.
pub fn each_bot_has_room<S: Duplex + Drop, N: Network<Connection = S>, W: Sink + Drop>()
    ensures { EachBotHasRoom ⟦<Recording<SocketPorts<'static, S>, W> as Ports>⟧.transition N.transition S.to_give S.taken
        S.calls (λ ports. ports.ports) }
{}

/// No session waits for ever. Take a run over sockets whose settings have an idle timeout and a stall timeout, and a
/// session of it. Its clock goes on: the session begins at a reading, and each of its turns at a reading that is not before
/// the one of the turn before (`ClockGoesOn`). At each poll of the run that may block the session has a nearest deadline.
/// It is at most the longer of the two timeouts after the reading of its last turn, and the poll ends by it
/// (`HasDeadline`). A session at rest whose deadline is past at the reading of a poll, which may block or not, is woken by
/// the poll, and so has a turn after as many rounds as `ready_places_advance` says. What its peers do is in no premise.
///
/// The calls of the run have their effect on the network and the table (`Wakes`), and schedule (`Schedules`), as the sockets'
/// own `transition` says: so each session began with the timeouts of the run, which are those of the settings
/// (`Sockets::new`: `idle_time`, `stall_time`).
pub fn no_session_waits_for_ever<S: Duplex + Drop, N: Network, W: Sink + Drop>()
    ensures { NoSessionWaitsForEver ⟦<Recording<SocketPorts<'static, S>, W> as Ports>⟧.transition
        (λ ports. timers_of ports.ports) S.calls N.transition }
{}

/// The timeouts of a session stay while no byte moves. Take any calls of a session's ports in a run by which no byte comes
/// from the peer of a side or goes to it (`IsQuietFor`). However many turns they are, and whatever the other side does, the
/// silence of the peer is over at the same moment as before, and so is a stall timeout that runs, unless the wire fails.
pub fn timeouts_stay<S: Duplex + Drop, W: Sink + Drop>()
    ensures { TimeoutsStay ⟦<Recording<SocketPorts<'static, S>, W> as Ports>⟧.transition (λ ports. timers_of ports.ports) }
{}

/// The deadlines of a session pass seldom. Of its turns between two pulls that return bytes of a peer, at most five begin
/// at or past the deadline that it had without a peer that takes a byte late: one for the initial message, one for the
/// silence of each peer, and one for the stall of each. A peer takes a byte late if its stall timeout is over, and it takes
/// a byte of what is held for it when the turn begins (`takes_late`). Each other such turn uses up one of these timeouts,
/// and a pull that returns bytes gives back at most one (`timeouts_left`). So, with `no_session_waits_for_ever`, a session
/// whose peers send nothing, and take nothing late, waits for at most five deadlines, and leaves its place. It holds of
/// each session of a run, whichever timeouts its settings have.
///
/// Not said: how long a peer may go on that takes a byte before each stall timeout is over, or late.
pub fn deadlines_pass_seldom<S: Duplex + Drop, N: Network, W: Sink + Drop>()
    ensures { DeadlinesPassSeldom ⟦<Recording<SocketPorts<'static, S>, W> as Ports>⟧.transition
        (λ ports. timers_of ports.ports) N.transition }
{}

/// No socket closes for ever at the end of a run either. Take a run over sockets with a stall timeout, any trace of its calls,
/// and then any number of the rounds of `Sockets::finish` (`readings`). Each socket that still closes is within the bound that
/// it had while the run went on (`closing_sockets_leave`): the stall timeout and a second after it began to close, by the
/// readings of the clock of the run and of these rounds (`IsClosingInTime`). Each wait of these rounds ends by that bound
/// (`FinishRound`).
pub fn finishing_sockets_leave<P: Ports, S: Duplex + Drop, N: Network>()
    ensures { FinishingSocketsLeave N.transition S.to_give S.taken S.calls P }
{}
