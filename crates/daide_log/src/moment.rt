//! A moment of a run.

ghost use Rattle.std.specs.Prelude.{◌≡◌, ◌≤◌, IfSome, IsSome};

/// The last millisecond of the year 9999.
const LAST: u64 = 253_402_300_799_999;

/// A moment: whole milliseconds since 1970-01-01T00:00:00 in UTC, without leap seconds, up to the year 9999.
#[derive(Clone, Copy)]
pub struct Moment {
    pub(crate) millisecond: u64,
    ghost in_range: { millisecond ≤ 253_402_300_799_999 },
}

impl Moment {
    /// Returns the moment that many milliseconds after 1970-01-01T00:00:00 in UTC, or `None` after the year 9999.
    pub fn from_millisecond(millisecond: u64) -> Option<Moment>
        ensures value { IfSome result (λ moment. moment.millisecond ≡ millisecond) }
        ensures some { millisecond ≤ 253_402_300_799_999 → IsSome result }
    {
        if millisecond > LAST {
            return None;
        }
        Some(Moment { millisecond })
    }
}
