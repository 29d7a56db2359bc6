//! Laws of what ports answer: functions with no parameters and an empty body, whose contracts are the laws.

ghost use Rattle.daide_driver.specs.Laws.{RelaysJoin, NewSessionsAreReachable, HeadlinesJoin};
ghost use Rattle.daide_driver.specs.HubRuns.{SessionsAreApart, PortsComeBackApart, EachHasItsHeadline};
ghost use Rattle.daide_driver.specs.HubRuns.{OpenedSessionsAreReachable};
ghost use Rattle.daide_driver.specs.Due.{DueBytesGo, FramesGo};

use daide_io::ports::Ports;

/// What ports returned in two consecutive calls moves a session as if they had returned it in one call.
pub fn relays_join()
    ensures { RelaysJoin }
{}

/// A new session is reachable: it is where the empty run from its opening leads, with nothing counted.
pub fn new_sessions_stand()
    ensures { NewSessionsAreReachable }
{}

/// The headline and the totals of one call and those of the next are those of both, so to relay twice is to relay once.
pub fn headlines_join<P: Ports>()
    ensures { HeadlinesJoin P.transition }
{}

/// Over any calls of a hub, the session at each place evolved by its own calls alone, in their order, however it moved
/// (`kept`). So its answers, and what its ports were called for, are those that it would have had alone. The same holds
/// of a session that was taken out, whose ports are returned (`taken_out`). Each session that was turned has the
/// headline, and its totals (`headline`). Each that was added is reachable, by all that its ports returned since (`stands`).
///
/// Premise: the calls are `add`, `turn`, `remove_over`, and `ports_mut` to begin a turn with the ports that it lends.
///
/// Not said: when a session's turn comes.
pub fn sessions_are_apart<P: Ports>()
    ensures kept { SessionsAreApart P.transition }
    ensures taken_out { PortsComeBackApart P.transition }
    ensures headline { EachHasItsHeadline P.transition }
    ensures stands { OpenedSessionsAreReachable P.transition }
{}

/// While each put to a wire takes at least one byte (`EachTurnTakesSome`), n waiting bytes are taken within n turns,
/// whatever else happens. The bytes that waited first are taken first (`delivered` of `turn`). In a run each session
/// that is due a turn has one in each round (`round`).
pub fn due_bytes_go()
    ensures { DueBytesGo }
{}

/// While each put to a wire takes all that it is handed (`EachTurnTakesAll`), a frame of which nothing was taken is
/// gone within six turns. An answer has at most six parts (`AreFresh`), and an end has one.
pub fn frames_go()
    ensures { FramesGo }
{}
