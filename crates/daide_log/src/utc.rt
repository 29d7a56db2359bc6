//! A moment in UTC.

ghost use Rattle.std.specs.Prelude.{◌≡◌};
ghost use Rattle.daide_log.specs.UtcText.{IsUtcOf, are_apart};

use crate::moment::Moment;
use jiff_core::civil::DateTime;

/// The least number of milliseconds between two times in a record.
const STEP: u64 = 10;

impl Moment {
    /// Returns the date and the time of day in UTC.
    pub fn utc(self) -> DateTime
        ensures { IsUtcOf self result }
    {
        DateTime::from_nanosecond_in_range(self.millisecond as i128 * 1_000_000)
    }

    /// Returns whether at least 10 milliseconds lie between two moments, whichever is first.
    pub(crate) fn is_apart(self, other: Moment) -> bool
        ensures { result ≡ are_apart self other }
    {
        self.millisecond + STEP <= other.millisecond || other.millisecond + STEP <= self.millisecond
    }
}
