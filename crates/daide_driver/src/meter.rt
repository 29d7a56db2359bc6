//! What the turns of a session moved, and how many turns it has left.

ghost use Rattle.std.specs.Prelude.{◌≡◌};
ghost use Rattle.daide_driver.specs.Meter.{nothing_moved, clock_moved, pull_moved, put_moved, is_gain, is_loss, new_meter, with_turn_begun, is_stopped_by};
ghost use Rattle.daide_driver.specs.Meter.{has_spent_turns};

use daide_frame::side::Side;
use daide_io::byte_counts::ByteCounts;
use daide_io::ports::{ClockEvent, Pull, Put};

/// What the calls of the ports moved.
#[derive(Clone, Copy, Debug, PartialEq, Eq)]
pub struct Moved {
    /// Whether they made progress: the clock reported something, bytes were received or sent, a side ended, or a wire
    /// failed.
    pub made_progress: bool,
    /// The bytes that they delivered and took, each number modulo 2^64.
    pub bytes: ByteCounts,
}

/// Returns true if bytes were received, or the side ended.
fn is_gain(pull: Pull) -> bool
    ensures { result ≡ is_gain pull }
{
    match pull {
        Pull::Got(count) => count > 0,
        Pull::Idle => false,
        Pull::Ended => true,
    }
}

/// Returns true if bytes were sent, or the wire failed.
fn is_loss(put: Put) -> bool
    ensures { result ≡ is_loss put }
{
    match put {
        Put::Took(count) => count > 0,
        Put::Failed => true,
    }
}

impl Moved {
    /// Returns what no call moved.
    pub fn nothing() -> Moved
        ensures { result ≡ nothing_moved }
    {
        Moved {
            made_progress: false,
            bytes: ByteCounts::new(),
        }
    }

    /// Adds what a call of the clock moved.
    #[inline(always)]
    pub(crate) fn add_clock(&mut self, event: ClockEvent)
        ensures { self.new ≡ clock_moved event self.old }
    {
        self.made_progress = self.made_progress
            || match event {
                ClockEvent::NoEvent => false,
                ClockEvent::ImTimeIsOver | ClockEvent::StopIsRequested => true,
            };
    }

    /// Adds what a pull from a side moved.
    #[inline(always)]
    pub(crate) fn add_pull(&mut self, side: Side, pull: Pull)
        ensures { self.new ≡ pull_moved side pull self.old }
    {
        self.made_progress = self.made_progress || is_gain(pull);
        self.bytes = self.bytes.after_pull(side, pull);
    }

    /// Adds what a put to a side moved.
    #[inline(always)]
    pub(crate) fn add_put(&mut self, side: Side, put: Put)
        ensures { self.new ≡ put_moved side put self.old }
    {
        self.made_progress = self.made_progress || is_loss(put);
        self.bytes = self.bytes.after_put(side, put);
    }
}

/// The meter of a session: its quota of turns, and what its turns moved. A turn is counted while the session is not over.
#[derive(Clone, Copy, Debug, PartialEq, Eq)]
pub struct Meter {
    /// The turns left; `None` once the session began one more turn than its quota has. That turn stops it.
    pub turns_left: Option<u64>,
    /// Whether the last turn made progress, true before the first one, so that it is made at once; and the bytes of all
    /// turns so far.
    pub moved: Moved,
}

impl Meter {
    /// Creates the meter of a session with a quota of turns, which had none yet.
    pub fn new(turns: u64) -> Meter
        ensures { result ≡ new_meter turns }
    {
        Meter {
            turns_left: Some(turns),
            moved: Moved {
                made_progress: true,
                bytes: ByteCounts::new(),
            },
        }
    }

    /// Begins a turn: counts it, unless the session is over. Returns true if it stops the session, which is open and has no
    /// turn left.
    #[inline(always)]
    pub(crate) fn begin_turn(&mut self, is_over: bool) -> bool
        ensures counts { self.new ≡ with_turn_begun is_over self.old }
        ensures stops { result ≡ is_stopped_by is_over self.old }
    {
        self.moved.made_progress = false;
        if is_over {
            return false;
        }
        self.turns_left = self.turns_left.and_then(|turns| turns.checked_sub(1));
        self.turns_left.is_none()
    }

    /// Returns true if the turns of the session were spent while it was open. That ended it.
    pub fn is_spent(&self) -> bool
        ensures { result ≡ has_spent_turns self.now }
    {
        self.turns_left.is_none()
    }
}
