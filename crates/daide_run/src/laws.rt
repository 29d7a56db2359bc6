//! Laws of sessions over streams and of a run over sockets: functions with no parameters and an empty body, whose
//! contracts are the laws.

ghost use Rattle.daide_run.specs.Exchanged.{SessionsExchange, ServedSessionsExchange};
ghost use Rattle.daide_run.specs.Accepted.{BotsAreCounted};
ghost use Rattle.daide_sockets.specs.Timers.{streams_of};

use daide_io::Ports;
use daide_io::duplex::Duplex;
use daide_log::{Recording, Sink};
use daide_sockets::ports::SocketPorts;

/// Let a session have two streams that record their bytes. What it received from a side is what was read from that
/// side's socket, in order (`passes`). What a socket took is a prefix of the machine's answers to that (`front`). It is
/// all of them if the session is closed and the wire did not fail (`all`).
///
/// Let nothing be held at the beginning, as for each connection. Then a stream gave what the session received and what
/// is in its read buffer (`heard`). It took a prefix of the machine's answers, and the write buffer has what comes next
/// (`sent`). If the write buffer is empty and the wire did not fail, the stream of a closed session took all of them
/// (`whole`).
///
/// Not said: that the write buffer is flushed at last. Tests show it.
pub fn sessions_exchange<S: Duplex>()
    ensures { SessionsExchange S.to_give S.taken }
{}

/// The same holds of each session of a run, with its quota of turns. The ports are those that ship, over any two
/// streams that record their bytes, around which a record may be.
pub fn served_sessions_exchange<S: Duplex + Drop, W: Sink + Drop>()
    ensures { ServedSessionsExchange ⟦<Recording<SocketPorts<'static, S>, W> as Ports>⟧.transition
        (λ ports. streams_of ports.ports) S.to_give S.taken }
{}

/// The sockets of a run count as many bots as their calls returned.
pub fn bots_are_counted<P: Ports, S: Duplex>()
    ensures { BotsAreCounted P S.to_give S.taken S.calls }
{}
