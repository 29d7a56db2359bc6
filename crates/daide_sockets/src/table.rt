//! The table of a run: what polls reported of each socket, the deadlines of the places at rest, and the last reading of the
//! clock.
//!
//! The table is a value, and calls nothing of the network: `poller` does. The row of a socket is fixed by what it is: the
//! two of a place by the place, the listeners and the control connections by their number. Only a closing socket takes a
//! free row. So an idle session makes no system call, and nothing looks at it.

ghost use Rattle.std.specs.Duration.{as_nanos};
ghost use Rattle.std.specs.Prelude.{◌≡◌, ℕ, List, [], ◌+◌, ◌*◌, ◌<◌, ◌≤◌, ◌||◌, true, false, min, length, slice_get, replicate, None, IsNone, IfSome, IfNone, IfOk};
ghost use Rattle.daide_frame.specs.declared.side.Side.TheVariants.{Bot, Server};
ghost use Rattle.daide_sockets.specs.Clock.{earlier, IsUntil, IsAfter, is_past};
ghost use Rattle.daide_io.specs.ReadyQueue.{is_among, woken_all};
ghost use Rattle.daide_sockets.specs.Table.{AreBounded, AreDeadlinesBounded, ForgetsPlaces, IsFull, TakesRow, WakesPlaces};
ghost use Rattle.daide_sockets.specs.Table.{deadline_in, event_places, forgotten, free_row, freed, row_at};
ghost use Rattle.daide_sockets.specs.Table.{has_report, is_reported_at, key_of, latest, merged, new_table, report_at, report_of, resting, disarmed};
ghost use Rattle.daide_sockets.specs.Table.{arming, with_event, with_events, without_report, without_reports};

use crate::clock::{after, earlier, is_past};
use daide_buffered_io::readiness::Readiness;
use daide_io::network::SocketEvent;
use daide_io::ready_queue::ReadyQueue;
use std::alloc::{AllocError, Allocator, Global};
use std::marker::Model;
use std::time::{Duration, Instant};

/// The rows beside those of the places: of two listeners and of eight control connections, and then of closing sockets.
const FIXED_ROWS: usize = 10;

/// The row of one socket.
#[derive(Drop, Clone, Copy)]
struct Row {
    /// Whether a closing socket has it. Other rows need no mark.
    is_taken: bool,
    /// What polls reported of the socket since it last took the report.
    report: Readiness,
}

impl Row {
    /// A row of which nothing is known.
    const FREE: Row = Row {
        is_taken: false,
        report: Readiness::UNKNOWN,
    };
}

/// The table of a run, with the time of the last poll.
#[derive(Drop)]
pub struct SocketTable {
    /// The last reading of the clock; `None` if it cannot be read: then no timeout expires.
    reading: Option<Instant>,
    /// The most sessions: the number of places.
    places: usize,
    /// The deadline of each place as it last came to rest; `None` if it has none.
    deadlines: Vec<Option<Instant>>,
    /// No place at rest has an earlier deadline than this; `None` if none has one.
    due: Option<Instant>,
    /// Whether something may be done at once for one of those beside the places that the next poll is to watch.
    armed_work: bool,
    /// The nearest deadline of those; `None` if there is none.
    armed_due: Option<Instant>,
    rows: Vec<Row>,
}

impl Model for SocketTable {
    ghost use Rattle.std.specs.Prelude.{◌≡◌, ◌+◌, ◌*◌, ◌≤◌, length, vec_len};
    ghost use Rattle.daide_sockets.specs.Table.{Table, AreBounded};

    ghost Value = { Table };

    ghost view = { λ t. record {
      reading = t.reading;
      deadlines = t.deadlines.items;
      due = t.due;
      armed_work = t.armed_work;
      armed_due = t.armed_due;
      rows = t.rows.items;
    } };

    // each place has a deadline, which is not before `due`, and two rows
    ghost invariant = { λ t. (length t.deadlines.items ≡ t.places) × (2 * t.places + 10 ≤ vec_len t.rows)
        × AreBounded t.due t.deadlines.items };
}

/// Returns two reports of a socket together.
pub(crate) fn merged(one: Readiness, other: Readiness) -> Readiness
    ensures { result ≡ merged one other }
{
    Readiness {
        may_read: one.may_read | other.may_read,
        may_write: one.may_write | other.may_write,
        reads_on: one.reads_on | other.reads_on,
    }
}

/// Returns what a poll reports of a socket. The system reports an end, a failure or an urgent byte only once, so from
/// then on a short read does not clear `may_read`.
fn report_of(event: SocketEvent) -> Readiness
    ensures { result ≡ report_of event }
{
    Readiness {
        may_read: event.is_readable | event.is_read_closed | event.is_error,
        may_write: event.is_writable | event.is_write_closed | event.is_error,
        reads_on: event.is_read_closed | event.is_error | event.is_priority,
    }
}

/// Returns whether a report has something.
fn has_report(report: Readiness) -> bool
    ensures { result ≡ has_report report }
{
    report.may_read | report.may_write | report.reads_on
}

/// Returns whether one of two things is so.
pub(crate) fn either(one: bool, other: bool) -> bool
    ensures { result ≡ (one || other) }
{
    one || other
}

/// Returns the key of the row of the bot at a place.
pub(crate) fn bot_key(place: usize) -> usize
    ensures { result ≡ min (key_of place Bot) usize.MAX }
{
    place.saturating_mul(2)
}

/// Returns the key of the row of the server at a place.
pub(crate) fn server_key(place: usize) -> usize
    ensures { result ≡ min (key_of place Server) usize.MAX }
{
    place.saturating_mul(2).saturating_add(1)
}

/// Returns the number of rows for this number of places and of closing sockets; `None` if they are too many.
fn row_count(places: usize, closing: usize) -> Option<usize>
    ensures { IfSome result (λ count. count ≡ 2 * places + 10 + closing) }
{
    places
        .checked_mul(2)?
        .checked_add(FIXED_ROWS)?
        .checked_add(closing)
}

/// Returns this number of rows without a socket. Fails if their memory is refused.
fn free_rows(alloc: Global, count: usize) -> Result<Vec<Row>, AllocError>
    ensures { IfOk result (λ rows. rows.items ≡ replicate count free_row) }
{
    let mut rows = Vec::with_capacity(alloc, count)?;
    for _row in 0..count {
        rows.push_reserved(Row::FREE);
    }
    Ok(rows)
}

/// Returns no deadline for each of this number of places. Fails if their memory is refused.
fn no_deadlines(alloc: Global, places: usize) -> Result<Vec<Option<Instant>>, AllocError>
    ensures { IfOk result (λ deadlines. deadlines.items ≡ replicate places None) }
{
    let mut deadlines = Vec::with_capacity(alloc, places)?;
    for _place in 0..places {
        deadlines.push_reserved(None);
    }
    Ok(deadlines)
}

/// Returns the key of the first free row, from `first` on; `None` if all are taken.
fn first_free(rows: &[Row], first: usize) -> Option<usize>
    ensures some { IfSome result (λ key. (first ≤ key) × (key < length rows.now) × ((row_at rows.now key).is_taken ≡ false)) }
    ensures none { IfNone result ((key : ℕ) → first ≤ key → key < length rows.now → (row_at rows.now key).is_taken ≡ true) }
{
    for key in first..rows.len() {
        if !rows[key].is_taken {
            return Some(key);
        }
    }
    None
}

/// Forgets each of these deadlines.
fn forget_all(deadlines: &mut [Option<Instant>])
    ensures none { (place : ℕ) → deadline_in (slice_get deadlines.new place) ≡ None }
    ensures places { length deadlines.new ≡ length deadlines.old }
{
    for place in 0..deadlines.len() {
        deadlines[place] = None;
    }
}

/// Wakes each place whose deadline is past, and forgets that. Returns the nearest deadline of the others.
#[inline(never)]
fn wake_late<A: Allocator>(
    now: Option<Instant>,
    deadlines: &mut [Option<Instant>],
    ready: &mut ReadyQueue<A>,
) -> Option<Instant>
    ensures woken { (woken : List ℕ) × (ready.new ≡ woken_all woken ready.old)
        × ((place : ℕ) → is_among place woken ≡ false →
        (deadline_in (slice_get deadlines.new place) ≡ deadline_in (slice_get deadlines.old place))
        × (is_past now (deadline_in (slice_get deadlines.old place)) ≡ false)) }
    ensures bounded { AreBounded result deadlines.new }
    ensures places { length deadlines.new ≡ length deadlines.old }
{
    let mut nearest = None;
    for place in 0..deadlines.len() {
        let due = deadlines[place];
        if is_past(now, due) {
            deadlines[place] = None;
            ready.wake(place);
        } else {
            nearest = earlier(nearest, due);
        }
    }
    nearest
}

impl SocketTable {
    /// Creates a table for this number of places and of closing sockets, before any reading of the clock. Fails if its
    /// memory is refused, or if they are too many.
    pub fn new(alloc: Global, places: usize, closing: usize) -> Result<SocketTable, AllocError>
        ensures { IfOk result (λ table. table ≡ new_table places closing) }
    {
        let Some(count) = row_count(places, closing) else {
            return Err(AllocError);
        };
        Ok(SocketTable {
            reading: None,
            places,
            deadlines: no_deadlines(alloc, places)?,
            due: None,
            armed_work: false,
            armed_due: None,
            rows: free_rows(alloc, count)?,
        })
    }

    /// Proof hook: establishes for callers that no place has a deadline before `due`. No effect at run time.
    pub(crate) fn is_bounded(&self)
        ensures { AreDeadlinesBounded self.now }
    {
        let _ = &self.due;
    }

    /// Returns the last reading of the clock; `None` if it cannot be read.
    pub fn now(&self) -> Option<Instant>
        ensures { result ≡ self.now.reading }
    {
        self.reading
    }

    /// Returns the moment this long after the last poll; `None` if the clock cannot be read, or if the moment is out of
    /// range.
    pub fn after(&self, duration: Duration) -> Option<Instant>
        ensures { IsAfter self.now.reading (as_nanos duration) result }
    {
        after(self.reading, duration)
    }

    /// Returns true if a moment is past; false without a moment.
    pub fn is_over(&self, moment: Option<Instant>) -> bool
        ensures { result ≡ is_past self.now.reading moment }
    {
        is_past(self.reading, moment)
    }

    // ---- rows

    /// Returns the number of places.
    pub(crate) fn places(&self) -> usize
        ensures count { result ≡ length self.now.deadlines }
        ensures few { 2 * result + 10 ≤ usize.MAX }
    {
        self.places
    }

    /// Returns the key of the row of the listener for bots.
    pub(crate) fn listener_key(&self) -> usize
        ensures key { result ≡ 2 * length self.now.deadlines }
        ensures few { result + 10 ≤ usize.MAX }
    {
        self.places * 2
    }

    /// Returns the key of the row of the listener for control connections.
    pub(crate) fn control_key(&self) -> usize
        ensures { result ≡ 2 * length self.now.deadlines + 1 }
    {
        self.listener_key() + 1
    }

    /// Returns the key of the row of the control connection with this number, from 0 to 7.
    pub(crate) fn control_connection_key(&self, number: usize) -> usize
        ensures { number < 8 → result ≡ 2 * length self.now.deadlines + 2 + number }
    {
        (self.listener_key() + 2).saturating_add(number)
    }

    /// Takes a free row for a closing socket, and returns its key; `None` if there is none.
    pub(crate) fn take_closing_row(&mut self) -> Option<usize>
        ensures row { IfSome result (λ key. TakesRow self.old key self.new) }
        ensures full { IfNone result (IsFull self.old × (self.new ≡ self.old)) }
    {
        let key = first_free(&self.rows, self.listener_key() + FIXED_ROWS)?;
        self.rows[key] = Row {
            is_taken: true,
            ..Row::FREE
        };
        Some(key)
    }

    /// Clears a row, since another socket may have it.
    pub(crate) fn release(&mut self, key: usize)
        ensures { self.new ≡ freed self.old key }
    {
        if key < self.rows.len() {
            self.rows[key] = Row::FREE;
        }
    }

    /// Returns what polls reported of a socket since it last took the report.
    pub fn report(&self, key: usize) -> Readiness
        ensures report { result ≡ report_at self.now key }
        ensures few { length self.now.rows ≤ usize.MAX }
    {
        match self.rows.get(key) {
            Some(row) => row.report,
            None => Readiness::UNKNOWN,
        }
    }

    /// Returns the report of a socket, and takes it out of its row.
    #[inline(always)]
    pub fn take_report(&mut self, key: usize) -> Readiness
        ensures report { result ≡ report_at self.old key }
        ensures table { self.new ≡ without_report self.old key }
        ensures few { length self.old.rows ≤ usize.MAX }
    {
        if key >= self.rows.len() {
            return Readiness::UNKNOWN;
        }
        let report = self.rows[key].report;
        self.rows[key].report = Readiness::UNKNOWN;
        report
    }

    /// Returns the reports of the sockets of a place, the bot's and the server's, and takes them out of their rows.
    #[inline(always)]
    pub(crate) fn take_reports(&mut self, place: usize) -> (Readiness, Readiness)
        ensures bot { result.0 ≡ report_at self.old (key_of place Bot) }
        ensures server { result.1 ≡ report_at self.old (key_of place Server) }
        ensures table { self.new ≡ without_reports self.old place }
    {
        let bot = self.take_report(bot_key(place));
        let server = self.take_report(server_key(place));
        (bot, server)
    }

    /// Returns whether something was reported of the bot at a place since it last took the report.
    #[inline(always)]
    pub(crate) fn is_bot_reported(&self, place: usize) -> bool
        ensures { result ≡ is_reported_at self.now (key_of place Bot) }
    {
        has_report(self.report(bot_key(place)))
    }

    /// Returns whether something was reported of the server at a place since it last took the report.
    #[inline(always)]
    pub(crate) fn is_server_reported(&self, place: usize) -> bool
        ensures { result ≡ is_reported_at self.now (key_of place Server) }
    {
        has_report(self.report(server_key(place)))
    }

    /// Adds the report of an event to its row.
    fn note_event(&mut self, event: SocketEvent)
        ensures { self.new ≡ record self.old { rows = with_event self.old.rows event } }
    {
        if event.key < self.rows.len() {
            let row = &mut self.rows[event.key];
            row.report = merged(row.report, report_of(event));
        }
    }

    /// Adds what a poll reported to the rows.
    pub(crate) fn note_events(&mut self, socket_events: &[SocketEvent])
        ensures { self.new ≡ record self.old { rows = with_events self.old.rows socket_events.now } }
    {
        for event in socket_events {
            self.note_event(*event);
        }
    }

    /// Wakes the places of which a poll reported these events.
    fn wake_reported<A: Allocator>(&self, socket_events: &[SocketEvent], ready: &mut ReadyQueue<A>)
        ensures { ready.new ≡ woken_all (event_places (2 * length self.now.deadlines) socket_events.now) ready.old }
    {
        for event in socket_events {
            if event.key < self.listener_key() {
                ready.wake(event.key / 2);
            }
        }
    }

    /// Wakes the places of which a poll reported these events, and those whose deadline is past.
    pub(crate) fn wake<A: Allocator>(
        &mut self,
        socket_events: &[SocketEvent],
        ready: &mut ReadyQueue<A>,
    )
        ensures { (woken : List ℕ) × (ready.new ≡ woken_all woken ready.old)
            × WakesPlaces socket_events.now woken self.old self.new }
    {
        self.wake_reported(socket_events, ready);
        if is_past(self.reading, self.due) {
            self.due = wake_late(self.reading, &mut self.deadlines, ready);
        }
    }

    // ---- deadlines of places

    /// Has a place rest until this deadline at the latest; `None` for ever.
    #[inline(always)]
    pub(crate) fn rest(&mut self, place: usize, due: Option<Instant>)
        ensures { self.new ≡ resting self.old place due }
    {
        self.due = earlier(self.due, due);
        if place < self.deadlines.len() {
            self.deadlines[place] = due;
        }
    }

    /// Forgets the deadline of a place, whose session is over.
    pub(crate) fn forget(&mut self, place: usize)
        ensures { self.new ≡ forgotten self.old place }
    {
        if place < self.deadlines.len() {
            self.deadlines[place] = None;
        }
    }

    /// Forgets the deadlines of all places, since the run is over.
    pub(crate) fn forget_places(&mut self)
        ensures { ForgetsPlaces self.old self.new }
    {
        forget_all(&mut self.deadlines);
        self.due = None;
    }

    /// Records a reading of the clock. Without one the last reading stays.
    pub(crate) fn note_now(&mut self, now: Option<Instant>)
        ensures { self.new ≡ record self.old { reading = latest self.old.reading now } }
    {
        if now.is_some() {
            self.reading = now;
        }
    }

    // ---- what a poll watches beside the places

    /// Has the next poll watch something else: whether something may be done at once for it, and its nearest deadline.
    #[inline(always)]
    pub(crate) fn arm(&mut self, has_work: bool, due: Option<Instant>)
        ensures { self.new ≡ arming self.old has_work due }
    {
        self.armed_work = self.armed_work || has_work;
        self.armed_due = earlier(self.armed_due, due);
    }

    /// Returns what the next poll watches beside the places: whether something may be done at once, and the nearest deadline.
    pub fn armed(&self) -> (bool, Option<Instant>)
        ensures { result ≡ (self.now.armed_work, self.now.armed_due) }
    {
        (self.armed_work, self.armed_due)
    }

    /// Forgets what was watched.
    pub fn disarm(&mut self)
        ensures { self.new ≡ disarmed self.old }
    {
        self.armed_work = false;
        self.armed_due = None;
    }

    /// Returns whether a poll must not block, since something that it watches has work.
    pub(crate) fn has_work(&self) -> bool
        ensures { result ≡ self.now.armed_work }
    {
        self.armed_work
    }

    /// Returns the time from the last reading of the clock until the nearest deadline; `None` without one.
    pub(crate) fn until_next(&self) -> Option<Duration>
        ensures { IsUntil self.now.reading (earlier self.now.due self.now.armed_due) result }
    {
        match (self.reading, earlier(self.due, self.armed_due)) {
            (Some(now), Some(moment)) => Some(moment.saturating_duration_since(now)),
            _ => None,
        }
    }
}
