//! The clock of a run: how a deadline is set, and when it is past.

ghost use Rattle.std.specs.Prelude.{◌≡◌, false, IsNone};
ghost use Rattle.std.specs.Duration.{as_nanos};
ghost use Rattle.daide_sockets.specs.Clock.{earlier, has_stalled, is_past, is_time_over, IsAfter, IsIdleTime, IsStallEnd, StallsNext};

use std::time::{Duration, Instant};

/// Converts a timeout from seconds; 0 is `None`, for never.
pub(crate) fn idle_time_of(seconds: u32) -> Option<Duration>
    ensures { IsIdleTime seconds result }
{
    if seconds == 0 {
        return None;
    }
    Some(Duration::from_secs(u64::from(seconds)))
}

/// Returns true if a moment is past at the last reading of the clock; false without a moment.
pub(crate) fn is_past(now: Option<Instant>, moment: Option<Instant>) -> bool
    ensures never { IsNone moment → result ≡ false }
    ensures past { result ≡ is_past now moment }
{
    match (now, moment) {
        (Some(now), Some(moment)) => now.checked_duration_since(moment).is_some(),
        _ => false,
    }
}

/// Returns true if a peer with this timeout, whose moment is given, is late at the last reading of the clock.
pub(crate) fn has_stalled(
    time: Option<Duration>,
    now: Option<Instant>,
    moment: Option<Instant>,
) -> bool
    ensures { result ≡ has_stalled time now moment }
{
    time.is_some() && is_past(now, moment)
}

/// Returns true if a time that ends at this moment is over at the last reading of the clock; true without a moment.
pub(crate) fn is_time_over(now: Option<Instant>, moment: Option<Instant>) -> bool
    ensures { result ≡ is_time_over now moment }
{
    moment.is_none() || is_past(now, moment)
}

/// Returns the moment this long after a reading of the clock; `None` without a reading, or if the moment is out of
/// range.
pub(crate) fn after(now: Option<Instant>, duration: Duration) -> Option<Instant>
    ensures { IsAfter now (as_nanos duration) result }
{
    match now {
        None => None,
        Some(now) => now.checked_add(duration),
    }
}

/// Returns the moment at which a timeout expires that starts at this reading of the clock. Returns `None` for never.
pub(crate) fn timeout_end(now: Option<Instant>, time: Option<Duration>) -> Option<Instant>
    ensures { IsStallEnd now time result }
{
    match time {
        None => None,
        Some(time) => after(now, time),
    }
}

/// Returns the moment at which the stall timeout expires after a write that leaves bytes queued. The timeout starts
/// again if the peer took a byte, or if no byte was queued before.
pub(crate) fn stalls_next(
    time: Option<Duration>,
    now: Option<Instant>,
    before: Option<Instant>,
    took: bool,
) -> Option<Instant>
    ensures { StallsNext time now before took result }
{
    match before {
        None => timeout_end(now, time),
        Some(moment) => {
            if took {
                timeout_end(now, time)
            } else {
                Some(moment)
            }
        }
    }
}

/// Returns the earlier of two moments; one or both may be missing.
#[inline(always)]
pub(crate) fn earlier(one: Option<Instant>, other: Option<Instant>) -> Option<Instant>
    ensures { result ≡ earlier one other }
{
    match (one, other) {
        (None, other) => other,
        (one, None) => one,
        (Some(one), Some(other)) => {
            if other.checked_duration_since(one).is_some() {
                Some(one)
            } else {
                Some(other)
            }
        }
    }
}
