//! Laws of the sockets of a run: functions with no parameters and an empty body, whose contracts are the laws.

ghost use Rattle.daide_sockets.specs.Accounted.{SocketsAreAccounted};
ghost use Rattle.daide_sockets.specs.PollTimes.{WaitsAreInTimeBeside, ControlWaitsAreInTime, WaitsAreInTime};
ghost use Rattle.daide_sockets.specs.ClosingTime.{ClosingSocketsLeave};
ghost use Rattle.daide_sockets.specs.PairedOnce.{SessionsComeOnce};

use daide_io::duplex::Duplex;
use daide_io::network::Network;
use daide_io::ports::Ports;

/// Over any calls of the sockets of a run, no session's ports come twice. Each bot that came is joined at most once, by
/// its own number, to the connect that was made for it.
pub fn sessions_come_once<P: Ports, S: Duplex + Drop>()
    ensures { SessionsComeOnce P S.to_give S.taken S.calls }
{}

/// A poll that may block lasts at most until the deadline of each of those that it watches, and takes no time if one of them
/// has work. It ends by the bound of the deadlines of all places, too.
pub fn waits_are_in_time()
    ensures { WaitsAreInTime }
{}

/// A poll lasts at most until the deadline of each control connection, and takes no time while one of them may be read or
/// written. The same holds of the listener of the control socket while a place is free.
pub fn control_waits_are_in_time<S: Duplex + Drop>()
    ensures { ControlWaitsAreInTime S }
{}

/// A poll leaves out no socket that is not of a place. Each poll of a run watches the listener and each closing socket
/// (`Schedules`, `others_armed`). If it may block, it takes no time if an accept is awaited and due, or if a closing socket may
/// do something at once: it has buffered bytes and is writable, or its writing is over and it is readable. It ends by the end of
/// the pause of accepts, and by the deadline of each closing socket: of its stall timeout, or of its release.
pub fn waits_are_in_time_beside<S: Duplex + Drop>()
    ensures { WaitsAreInTimeBeside S }
{}

/// Over any calls of the sockets of a run, each bot that came waits for its connect, was joined to it, or was given up. At
/// most 256 sockets close: of each bot that was given up its socket, and of each session that was retired its two. A socket
/// that is none of these any more was closed. So beside the listener a run holds two sockets for each bot that waits, two
/// for each session, and those that close.
pub fn sockets_are_accounted<P: Ports, S: Duplex + Drop>()
    ensures { SocketsAreAccounted P S.to_give S.taken S.calls }
{}

/// No socket closes for ever. Take a run over sockets with a stall timeout. The bound of a socket that closes is the stall
/// timeout and a second after the reading of the clock at which it began. It is advanced at no reading at or past its bound:
/// there it leaves, whatever its peer does, and whether or not the clock went on (`IsWithinBound`). Each poll ends by its
/// bound at the latest (`waits_are_in_time_beside`), since its deadline is not after it, and reads the clock (`PollsOnce`).
///
/// The readings are those that the table of the run has at its calls, as the sockets' own `transition` says
/// (`ClosesByClock`).
///
/// While the clock goes on it has a deadline that is at most the stall timeout after it was advanced last, or a second once
/// its writing is over. As long as it closes, it was advanced at most once at or past a deadline that it had while its peer
/// took no byte (`IsClosingInTime`).
///
/// A socket may leave before: at its peer's end, after 1 MiB, a second after its last byte was written, or as the oldest of
/// more than 256 (`sockets_are_accounted`).
pub fn closing_sockets_leave<P: Ports, S: Duplex + Drop, N: Network>()
    ensures { ClosingSocketsLeave S.to_give S.taken S.calls N P }
{}
