//! A listener of a run, for bots or for control connections.
//!
//! Its row is fixed by what it is for, so each call takes the key of the row from the table.

ghost use Rattle.std.specs.Option.{is_some};
ghost use Rattle.std.specs.Prelude.{◌≡◌, ◌⊎◌, IsSome, None, Some, true, false};
ghost use Rattle.daide_sockets.specs.Accepting.{is_accept_due, accept_pause, resumed, Pauses};
ghost use Rattle.daide_sockets.specs.Table.{without_report};
ghost use Rattle.daide_sockets.specs.Clock.{IsAfter, is_past};

use crate::clock::{after, is_past};
use crate::table::SocketTable;
use std::io::ErrorKind;
use std::time::{Duration, Instant};

/// The pause after a failed accept, for example for lack of descriptors, in milliseconds.
const ACCEPT_PAUSE: u64 = 100;

/// What is known of a listener without a system call, with a pause after a failed accept.
#[derive(Drop)]
pub struct Listener {
    /// Whether an accept may give a connection, whatever polls report.
    may_accept: bool,
    /// The end of the pause after a failed accept; `None` if there is no pause.
    pub(crate) resumes_at: Option<Instant>,
}

impl Listener {
    /// Creates a listener of which nothing is known, with no pause.
    pub(crate) fn new() -> Listener
        ensures { result ≡ record { may_accept = false; resumes_at = None } }
    {
        Listener {
            may_accept: false,
            resumes_at: None,
        }
    }

    /// Returns whether an accept is made now: the listener is ready by the row with this key, and no pause is under way.
    pub(crate) fn is_due(&self, table: &SocketTable, key: usize) -> bool
        ensures { result ≡ is_accept_due table.now key self.now }
    {
        match self.resumes_at {
            None => self.may_accept || table.report(key).may_read,
            Some(_) => is_past(table.now(), self.resumes_at),
        }
    }

    /// Returns true only if no accept is due by the row with this key, and a poll has nothing to watch for one.
    pub(crate) fn rests(&self, table: &SocketTable, key: usize) -> bool
        ensures not_due { result ≡ true → is_accept_due table.now key self.now ≡ false }
        ensures no_pause { result ≡ true → self.now.resumes_at ≡ None }
    {
        self.resumes_at.is_none() && !self.is_due(table, key)
    }

    /// Returns whether a pause after a failed accept is under way, or over and no accept was made since.
    pub(crate) fn is_paused(&self) -> bool
        ensures { result ≡ is_some self.now.resumes_at }
    {
        self.resumes_at.is_some()
    }

    /// Ends the pause if its time is over at this reading of the clock: then an accept may give a connection.
    pub(crate) fn end_pause(&mut self, now: Option<Instant>)
        ensures { self.new ≡ resumed now self.old }
    {
        if is_past(now, self.resumes_at) {
            self.resumes_at = None;
            self.may_accept = true;
        }
    }

    /// Starts the pause after an accept that failed for this reason, or after a refusal; `WouldBlock` is not a failure.
    pub fn pause(&mut self, now: Option<Instant>, why: ErrorKind)
        ensures pauses { Pauses now why self.new.resumes_at }
        ensures later { (self.new.resumes_at ≡ None) ⊎ IsAfter now accept_pause self.new.resumes_at }
        ensures rest { self.new ≡ record self.old { resumes_at = self.new.resumes_at } }
    {
        self.resumes_at = match why {
            ErrorKind::WouldBlock => None,
            _ => after(now, Duration::from_millis(ACCEPT_PAUSE)),
        };
    }

    /// Records an accept, and takes the report of the row with this key: it gave a connection, which others may follow, or it
    /// failed for this reason.
    ///
    /// `failed`: one that would have blocked begins no pause, and any other failure begins one of 100 ms. After either the
    /// listener counts as not ready.
    ///
    /// `left`: then no accept is due any more at this reading of the clock.
    pub(crate) fn note_accept(
        &mut self,
        table: &mut SocketTable,
        key: usize,
        failure: Option<ErrorKind>,
    )
        ensures gave { failure ≡ None → self.new ≡ record { may_accept = true; resumes_at = None } }
        ensures failed { (kind : ErrorKind) → failure ≡ Some kind →
            Pauses table.old.reading kind self.new.resumes_at × (self.new.may_accept ≡ false) }
        ensures left { IsSome failure → is_accept_due table.new key self.new ≡ false }
        ensures table { table.new ≡ without_report table.old key }
    {
        table.take_report(key);
        match failure {
            None => {
                self.may_accept = true;
                self.resumes_at = None;
            }
            Some(kind) => {
                self.may_accept = false;
                self.pause(table.now(), kind);
            }
        }
    }
}
