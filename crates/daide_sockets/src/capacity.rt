//! The log lines about the capacity of a run, which `--verbose` requests: when it is full, when it can accept no bot,
//! and when that is over.

ghost use Rattle.std.specs.Prelude.{◌≡◌};
ghost use Rattle.daide_sockets.specs.Capacity.{paused_after, capacity_after, full_notice, pause_notice};

use std::io::Write;
use thiserror::Error;

/// Whether a run can accept a further bot, as it was logged last.
#[derive(Clone, Copy)]
pub struct Capacity {
    /// Whether as many bots are present as may be at once.
    pub is_full: bool,
    /// The number of bots that had been accepted when a pause of accepts was logged; `None` once a further one was.
    pub paused_at: Option<u32>,
}

/// A log line about the capacity of a run. The run goes on.
#[derive(Clone, Copy, Debug, PartialEq, Eq, Error)]
pub enum CapacityNotice {
    /// As many bots are present as may be at once.
    #[error("full: {0} of {0} sessions; further bots wait")]
    Full(usize),
    /// A place is free again.
    #[error("no longer full")]
    NoLongerFull,
    /// The system accepted no bot, so accepts pause.
    #[error("bots wait: the system has no descriptor or no memory for another one")]
    Paused,
    /// A bot was accepted after that.
    #[error("bots are accepted again")]
    Resumed,
}

/// Returns the number of bots that had been accepted when a pause was logged, from the number logged before.
fn paused_after(before: Option<u32>, is_paused: bool, came: u32) -> Option<u32>
    ensures { result ≡ paused_after before is_paused came }
{
    match before {
        None if is_paused => Some(came),
        Some(number) if number == came => Some(number),
        _ => None,
    }
}

/// Returns the line of a run that became full, or is no longer full. It has at most `most` sessions at once.
pub fn full_notice(most: usize, before: bool, after: bool) -> Option<CapacityNotice>
    ensures { result ≡ full_notice most before after }
{
    match (before, after) {
        (false, true) => Some(CapacityNotice::Full(most)),
        (true, false) => Some(CapacityNotice::NoLongerFull),
        _ => None,
    }
}

/// Returns the line of a pause that began, or of a bot that was accepted after it.
pub fn pause_notice(before: Option<u32>, after: Option<u32>) -> Option<CapacityNotice>
    ensures { result ≡ pause_notice before after }
{
    match (before, after) {
        (None, Some(_)) => Some(CapacityNotice::Paused),
        (Some(_), None) => Some(CapacityNotice::Resumed),
        _ => None,
    }
}

/// Logs a line, if there is one. The run goes on if it cannot be written.
fn log_line<E: Write>(notice: Option<CapacityNotice>, errors: &mut E) {
    if let Some(notice) = notice {
        let _ = writeln!(errors, "daide-gate: {notice}");
    }
}

impl Capacity {
    /// Nothing was logged: the run is not full, and accepts bots.
    pub const NEW: Capacity = Capacity {
        is_full: false,
        paused_at: None,
    };

    /// Returns what is logged last once this number of bots is present, of `most` at once, accepts pause or not, and
    /// this number was accepted.
    pub fn after(self, present: usize, most: usize, is_paused: bool, came: u32) -> Capacity
        ensures { result ≡ capacity_after self present most is_paused came }
    {
        Capacity {
            is_full: most <= present,
            paused_at: paused_after(self.paused_at, is_paused, came),
        }
    }

    /// Logs what changed until this value. The run has at most `most` sessions at once.
    pub(crate) fn log_change<E: Write>(self, after: Capacity, most: usize, errors: &mut E) {
        log_line(full_notice(most, self.is_full, after.is_full), errors);
        log_line(pause_notice(self.paused_at, after.paused_at), errors);
    }
}
