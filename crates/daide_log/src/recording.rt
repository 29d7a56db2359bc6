//! Ports that record their calls, with times.

ghost use Rattle.std.specs.Prelude.{◌≡◌, ◌≢◌, []};
ghost use Rattle.daide_io.specs.Ports.{TurnBegins};
ghost use Rattle.daide_io.specs.System.{BeginsTurn};
ghost use Rattle.daide_log.specs.Recording.{due_time as time_due};

use crate::comment::Comment;
use crate::moment::Moment;
use crate::record::{Record, RecordEnd, RecordedEvent};
use daide_causes::Sink;
use daide_frame::Side;
use daide_io::ports::{ClockEvent, Ports, Pull, Put};
use daide_io::system::System;
use daide_log_lines::event_line::MOST;
use daide_protocol::account::Account;
use std::marker::Model;

/// Whether bytes move between the two sides, by what the ports returned last.
#[derive(Clone, Copy)]
pub enum Activity {
    /// The last pull returned bytes, or none was made yet.
    Moving,
    /// The last pull returned nothing.
    Idle,
    /// A side ended or failed, the IM timer expired, or the operator stopped the session, and nothing was returned since.
    Ended,
}

/// Returns the time to be written before the next line: the present one, unless the last one written is less than 10
/// milliseconds from it.
fn due_time(now: Option<Moment>, last: Option<Moment>) -> Option<Moment>
    ensures { result ≡ time_due now last }
{
    let now = now?;
    match last {
        Some(last) if !now.is_apart(last) => None,
        _ => Some(now),
    }
}

/// Ports that may record what they return to a session, with times: bytes received, ends, the IM timer, stops, and a
/// failed wire as the end of its side. They return what the inner ports return, which get at most 1,024 bytes of a buffer
/// (`asked_within`).
///
/// Each call adds to the record the line of what it returned, or nothing (`Records`). A whole record takes it
/// while it has fewer than 1,000,000 lines; else it hands over what it holds, and is full. A record that failed or is
/// full does not change. Ports without a record are as those whose record failed before its first line.
///
/// The caller gives the present time at the beginning of each turn (`begin_turn`). A comment with it stands before the
/// line of an event, unless the last time in the record is less than 10 milliseconds from it (`due_time`). Without a
/// time there is no comment.
///
/// The record is written when no more bytes move, so that its writer has all of it before a run waits: at the second
/// idle pull in a row, and in the turn after an end (`written`).
///
/// Premise: a writer that records its bytes.
///
/// Not said: that the time which the caller gives is right.
#[derive(Drop)]
pub struct Recording<P: Ports, W: Sink + Drop> {
    ports: P,
    log: Option<Record<W>>,
    activity: Activity,
    present: Option<Moment>,
    last: Option<Moment>,
}

impl<P: Ports, W: Sink + Drop> Model for Recording<P, W> {
    ghost use Rattle.daide_log.specs.Recording.{Recorded, written_in};

    ghost Value = { Recorded P };

    ghost view = { λ r. record {
      ports = r.ports;
      record_of = written_in r.log;
      activity = r.activity;
      present = r.present;
      last = r.last;
    } };
}

impl<P: Ports, W: Sink + Drop> Recording<P, W> {
    ghost use Rattle.std.specs.Prelude.{None, Some, IsNone, IfSome};
    ghost use Rattle.daide_log.specs.Recording.{KeepsText, HasFailed, FitsLine, line_event, no_record, written_in};
    ghost use Rattle.daide_log.specs.Recording.{Records, TakesTime, TakesCall, last_time};

    /// Wraps ports. If there is a record, their calls are recorded in it from now on. `began` is the last time that the
    /// record has.
    pub fn new(ports: P, log: Option<Record<W>>, began: Option<Moment>) -> Recording<P, W>
        ensures { result ≡ record {
          ports = ports;
          record_of = written_in log;
          activity = Activity.Moving;
          present = began;
          last = began;
        } }
    {
        Recording {
            ports,
            log,
            activity: Activity::Moving,
            present: began,
            last: began,
        }
    }

    /// Has the system begin a turn of the session at a place, with the session's account and the inner ports, at this
    /// time. The record is unchanged.
    pub fn begin_turn<S: System<P>>(
        &mut self,
        place: usize,
        account: &Account,
        system: &mut S,
        now: Option<Moment>,
    )
        ensures begins { Records P.transition (HasFailed W.Fails) self.old TurnBegins self.new }
        ensures time { self.new.present ≡ now }
        ensures asked { S.transition system.old (BeginsTurn place account.now self.old.ports self.new.ports) system.new }
    {
        self.present = now;
        system.begin_turn(place, account, &mut self.ports);
    }

    /// Records the time that is due, if one is.
    #[tactic(auto, using(crate::proofs::EventTaken::time_taken))]
    fn record_time(&mut self)
        ensures ports { self.new.ports ≡ self.old.ports }
        ensures activity { self.new.activity ≡ self.old.activity }
        ensures present { self.new.present ≡ self.old.present }
        ensures taken { TakesTime (HasFailed W.Fails) (time_due self.old.present self.old.last) self.old.record_of self.new.record_of }
        ensures last { self.new.last ≡ last_time (time_due self.old.present self.old.last) self.old.last }
    {
        if let Some(due) = due_time(self.present, self.last) {
            let at = due.utc();
            if let Some(log) = &mut self.log {
                log.comment(Comment::Timed(at));
            }
            self.last = Some(due);
        }
    }

    /// Records an event, after which bytes move or do not, and before it the time that is due.
    #[tactic(auto, using(crate::proofs::EventTaken::silent_taken, crate::proofs::EventTaken::lined_taken))]
    fn record_event(&mut self, event: RecordedEvent<'_>, activity: Activity)
        requires { FitsLine event }
        ensures ports { self.new.ports ≡ self.old.ports }
        ensures present { self.new.present ≡ self.old.present }
        ensures taken { TakesCall (HasFailed W.Fails) self.old (line_event event.entry) self.new }
        ensures activity { self.new.activity ≡ activity }
    {
        if !event.is_silent() {
            self.record_time();
            if let Some(log) = &mut self.log {
                log.record(event);
            }
        }
        self.activity = activity;
    }

    /// Notes that nothing was returned, and writes the record if no bytes moved before.
    #[tactic(auto, using(crate::proofs::PauseLemmas::unwritten_kept))]
    fn pause(&mut self)
        ensures ports { self.new.ports ≡ self.old.ports }
        ensures present { self.new.present ≡ self.old.present }
        ensures kept { TakesCall (HasFailed W.Fails) self.old None self.new }
        ensures written { self.old.activity ≢ Activity.Moving → self.new.record_of.ending ≡ RecordEnd.Whole →
            self.new.record_of.unwritten ≡ [] }
        ensures activity { self.new.activity ≡ Activity.Idle }
    {
        if self.activity != Activity::Moving {
            if let Some(log) = &mut self.log {
                log.flush();
            }
        }
        self.activity = Activity::Idle;
    }

    /// Returns the inner ports.
    pub fn ports(&self) -> &P
        ensures { result.now ≡ self.now.ports }
    {
        &self.ports
    }

    /// Returns the record, if there is one.
    pub fn record(&self) -> Option<&Record<W>>
        ensures some { IfSome result (λ log. log.now ≡ self.now.record_of) }
        ensures none { IsNone result → self.now.record_of ≡ no_record }
    {
        self.log.as_ref()
    }

    /// Returns the inner ports and the record, if there is one.
    pub fn into_parts(self) -> (P, Option<Record<W>>)
        ensures { (result.0 ≡ self.ports) × (written_in result.1 ≡ self.record_of) }
    {
        (self.ports, self.log)
    }
}

impl<P: Ports, W: Sink + Drop> Ports for Recording<P, W> {
    ghost use Rattle.daide_log.specs.Recording.{Records, HasFailed};

    ghost transition = { Records P.transition (HasFailed W.Fails) };

    fn pull(&mut self, side: Side, buffer: &mut [u8]) -> Pull {
        let most = buffer.len().min(MOST);
        let pull = self.ports.pull(side, &mut buffer[..most]);
        match pull {
            Pull::Got(count) => {
                self.record_event(
                    RecordedEvent::Received(side, &buffer[..count]),
                    Activity::Moving,
                );
            }
            Pull::Idle => self.pause(),
            Pull::Ended => self.record_event(RecordedEvent::EndOf(side), Activity::Ended),
        }
        pull
    }

    fn put(&mut self, side: Side, bytes: &[u8]) -> Put {
        let put = self.ports.put(side, bytes);
        if put == Put::Failed {
            self.record_event(RecordedEvent::EndOf(side), Activity::Ended);
        }
        put
    }

    fn clock(&mut self, is_spent: bool) -> ClockEvent {
        let event = self.ports.clock(is_spent);
        match event {
            ClockEvent::NoEvent => {
                if self.activity == Activity::Ended {
                    self.pause();
                }
            }
            ClockEvent::ImTimeIsOver => self.record_event(RecordedEvent::ImTimer, Activity::Ended),
            ClockEvent::StopIsRequested => self.record_event(RecordedEvent::Stop, Activity::Ended),
        }
        event
    }
}
