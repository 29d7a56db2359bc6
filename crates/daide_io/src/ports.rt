//! The two wires and the clock, as a turn calls them.

ghost use Rattle.std.specs.Prelude.{◌≡◌, true, length, take};
ghost use Rattle.daide_io.specs.Ports.{PortCall, Clock, Pulled, Offered, IsPullWithin, IsPutWithin};
ghost use Rattle.daide_io.specs.Ports.{pulled_len};

use daide_frame::side::Side;

/// The result of a pull.
#[derive(Clone, Copy, Debug, PartialEq, Eq)]
pub enum Pull {
    /// This number of bytes, at the front of the buffer. 0 is the same as `Idle`.
    Got(usize),
    /// Nothing to read yet.
    Idle,
    /// The side's stream ended or failed.
    Ended,
}

/// The result of a put.
#[derive(Clone, Copy, Debug, PartialEq, Eq)]
pub enum Put {
    /// The wire took this number of bytes from the front, perhaps 0.
    Took(usize),
    /// The wire failed, and takes no more bytes.
    Failed,
}

/// The result of a call of the clock: what ends a session although no side sent anything.
#[derive(Clone, Copy, Debug, PartialEq, Eq)]
pub enum ClockEvent {
    /// Nothing.
    NoEvent,
    /// The time for the initial message is over.
    ImTimeIsOver,
    /// The session is to end: the operator requested it, or its turns are spent.
    StopIsRequested,
}

/// The wires to a bot and a server, and the clock, by which the time for the initial message and a stop come.
///
/// Contracts of a caller speak of the calls with their results. Each implementor defines the effect of a call on
/// itself: ports with a record append the call to it, and those over two streams say which stream gave or took the
/// bytes. In a run, a turn of a session begins with a call of the run's system.
pub trait Ports: Drop {
    /// The effect of a call with its result on the ports, and the effect of the system when a turn begins.
    ghost transition: { Self → PortCall → Self → Type 0 };

    /// Reads bytes from a side into the front of the buffer. Returns `Got`, `Idle` or `Ended`.
    fn pull(&mut self, side: Side, buffer: &mut [u8]) -> Pull
        ensures within { IsPullWithin result (length buffer.old) }
        ensures transition { transition self.old (Pulled side (length buffer.old) result
            (take (pulled_len result) buffer.new)) self.new };

    /// Offers bytes to the wire to a side, which may take fewer. Returns `Took` or `Failed`.
    fn put(&mut self, side: Side, bytes: &[u8]) -> Put
        ensures within { IsPutWithin result (length bytes.now) }
        ensures transition { transition self.old (Offered side bytes.now result) self.new };

    /// Returns whether the IM timer has expired, or the session is to stop. The caller says whether it stops the session,
    /// since its turns are spent; the operator may stop it too. The call itself counts, reads and writes nothing.
    ///
    /// `stops`: a session that the caller stops gets a stop.
    fn clock(&mut self, is_spent: bool) -> ClockEvent
        ensures stops { is_spent ≡ true → result ≡ ClockEvent.StopIsRequested }
        ensures transition { transition self.old (Clock result) self.new };
}
