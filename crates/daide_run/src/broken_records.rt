//! The records of sessions that broke off, each of which is reported once.
//!
//! A record may break off whenever it is written. So it is looked at when a turn of its session begins, when the session is
//! to rest, and when it is retired.

ghost use Rattle.std.specs.Prelude.{◌≡◌, ◌⊎◌, ℕ, None, Some, true, replicate, slice_get};
ghost use Rattle.daide_log.specs.declared.record.RecordEnd.{RecordEnd};
ghost use Rattle.daide_run.specs.Folder.{ClosesRecord, record_events};
ghost use Rattle.daide_run.specs.Notices.{AreReported, EndIsReported, ReportsEnd};

use crate::folder::{SessionFile, finish, log_end};
use crate::notices::NoticeLog;
use daide_io::Ports;
use daide_log::{RecordEnd, Recording, Sink};
use daide_protocol::MAX_SESSIONS;
use std::io::Write;
use std::marker::{Model, PhantomData};

/// The number of a session, and how its record ended.
type End = (u32, RecordEnd);

/// Returns whether this end is the one at a place.
fn has(ends: &[Option<End>], place: usize, end: End) -> bool
    ensures { result ≡ true → slice_get ends.now place ≡ Some (Some end) }
{
    match ends.get(place) {
        Some(Some(known)) => known.0 == end.0 && known.1 == end.1,
        _ => false,
    }
}

/// Puts this end at a place, if there is the place.
fn put(ends: &mut [Option<End>], place: usize, end: End)
    ensures { (other : ℕ) (one : ℕ × RecordEnd) → slice_get ends.new other ≡ Some (Some one) →
        (slice_get ends.old other ≡ Some (Some one)) ⊎ (one ≡ end) }
{
    if place < ends.len() {
        ends[place] = Some(end);
    }
}

/// Returns no end for each place.
fn no_ends() -> [Option<End>; MAX_SESSIONS]
    ensures { result ≡ replicate MAX_SESSIONS None }
{
    [None; MAX_SESSIONS]
}

/// Reports the end of a record in a file, if it has one that is not the last one reported at this place.
fn log_once<F: Drop, E: NoticeLog>(
    ends: &mut [Option<End>],
    place: usize,
    end: End,
    file: &SessionFile<F>,
    errors: &mut E,
)
    requires { AreReported E.Reported ends.old }
    ensures reported { ReportsEnd E.Reported end.0 end.1 }
    ensures kept { AreReported E.Reported ends.new }
{
    if end.1 == RecordEnd::Whole {
        return;
    }
    if has(ends, place, end) {
        return;
    }
    log_end(end.0, file, end.1, errors);
    put(ends, place, end);
}

/// At each place the end of a record that was reported last, by a stream like `E`.
#[derive(Drop)]
pub(crate) struct BrokenRecords<E: NoticeLog> {
    ends: [Option<End>; MAX_SESSIONS],
    stream: PhantomData<E>,
}

impl<E: NoticeLog> Model for BrokenRecords<E> {
    ghost use Rattle.daide_run.specs.Notices.{AreReported};

    ghost Value = { Unit {0} };

    ghost view = { λ b. tt };

    ghost invariant = { λ b. AreReported E.Reported b.ends };
}

impl<E: NoticeLog> BrokenRecords<E> {
    /// Creates the table of a run in which no record broke off yet.
    pub fn none() -> BrokenRecords<E> {
        BrokenRecords {
            ends: no_ends(),
            stream: PhantomData,
        }
    }

    /// Reports that the record of the session with this number at a place broke off, if it did, once.
    pub fn report<P: Ports, F: Write + Drop>(
        &mut self,
        session: (usize, u32),
        recorded: &Recording<P, SessionFile<F>>,
        errors: &mut E,
    )
        ensures { EndIsReported E.Reported session.1 recorded.now.record_of }
    {
        let (place, number) = session;
        let Some(record) = recorded.record() else {
            return;
        };
        let end = (number, record.ending());
        log_once(&mut self.ends, place, end, record.writer(), errors);
    }

    /// Ends the record of the session with this number at a place, if there is one: reports that it broke off before, if
    /// that was not reported, and writes the rest of it to its file (`finish`). Returns the ports.
    pub fn close<P: Ports, F: Write + Drop>(
        &mut self,
        session: (usize, u32),
        recorded: Recording<P, SessionFile<F>>,
        errors: &mut E,
    ) -> P
        ensures ports { result ≡ recorded.ports }
        ensures closed { ClosesRecord (record_events ⟦<SessionFile<F> as Write>⟧.contents
            ⟦<SessionFile<F> as Sink>⟧.Fails E.Reported) session.1 recorded.record_of }
    {
        self.report(session, &recorded, errors);
        let (ports, log) = recorded.into_parts();
        if let Some(log) = log {
            finish(session.1, log, errors);
        }
        ports
    }
}
