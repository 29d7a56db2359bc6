//! One connection of the control socket: it reads a request and writes the answer. After a stop it stays open until what it stops
//! is over.

ghost use Rattle.std.specs.Prelude.{◌≡◌, [], None, false, true};
ghost use Rattle.daide_sockets.specs.Table.{merged};
ghost use Rattle.daide_sockets.specs.Clock.{is_past};
ghost use Rattle.daide_sockets.specs.Control.{Hears, Receives, BeginsReply, stage_after, AnswersStop, MakesSure, is_session_over};
ghost use Rattle.daide_sockets.specs.Control.{WritesOn, Completes, StaysOpen, Advances, ShowsOn};
ghost use Rattle.daide_sockets.specs.Control.{has_control_work, control_due, gathers_at};
ghost use Rattle.daide_sockets.specs.ControlAnswer.{ordered_by};
ghost use Rattle.daide_sockets.specs.ControlSlots.{is_waiting};

use crate::clock::{after, is_past};
use crate::control_answer::{Answer, add, begun, finished, no_session};
use crate::control_request::{Judgement, LONGEST_REQUEST, RequestedStop, at_end, judgement_of};
use crate::present::Present;
use crate::table::merged;
use arrayvec::ArrayVec;
use daide_buffered_io::calls::{pull_from, put_to};
use daide_buffered_io::readiness::Readiness;
use daide_io::duplex::Duplex;
use daide_io::ports::{Pull, Put};
use daide_status::{ControlRequest, RunStatus, SessionRow, StatusText};
use std::alloc::Global;
use std::time::{Duration, Instant};

/// The milliseconds after which a stop that waits is looked at again: whether its session is over.
const LOOK_MILLIS: u64 = 100;

/// What a control connection does.
#[derive(Clone, Copy)]
pub(crate) enum Stage {
    /// It reads a request.
    Reads,
    /// It requested this stop, and makes sure that its client is still there.
    Confirms(RequestedStop),
    /// It gathers the status of each session.
    Gathers,
    /// It writes its answer, of which this many bytes were written.
    Writes(usize),
    /// Its stop waits until what it stops is over.
    Stays(RequestedStop),
}

/// What a round gives to the control connections.
#[derive(Clone, Copy)]
pub(crate) struct RoundView<'a> {
    pub alloc: Global,
    /// The status of the run.
    pub run: &'a RunStatus,
    /// The bots that are there.
    pub present: &'a Present,
}

/// A connection of the control socket.
#[derive(Drop)]
pub(crate) struct ControlConnection<S: Duplex + Drop> {
    stream: S,
    /// What is known of it without a system call.
    readiness: Readiness,
    /// The moment at which it is closed, or looked at again if its stop waits for a session; `None` for never.
    closes_at: Option<Instant>,
    /// The bytes received so far.
    line: ArrayVec<u8, LONGEST_REQUEST>,
    stage: Stage,
    /// The status that it gathers; `None` if there is none, or if its memory was refused.
    status: Option<StatusText>,
    answer: Answer,
}

impl<S: Duplex + Drop> ControlConnection<S> {
    /// Begins with a connection. Nothing is known of its readiness.
    pub(crate) fn new(stream: S, closes_at: Option<Instant>) -> ControlConnection<S>
        ensures stream { result.stream ≡ stream }
        ensures reads { result.stage ≡ Stage.Reads }
        ensures empty { result.line.items ≡ [] }
        ensures closes_at { result.closes_at ≡ closes_at }
    {
        ControlConnection {
            stream,
            readiness: Readiness::UNKNOWN,
            closes_at,
            line: ArrayVec::new(),
            stage: Stage::Reads,
            status: None,
            answer: Answer::UnknownRequest,
        }
    }

    /// Reads once, as far as a request may go, and returns the result. The bytes are appended to those received so far.
    fn hear(&mut self) -> Pull
        ensures { Hears S.to_give S.taken S.calls self.old result self.new }
    {
        let mut piece = [0; LONGEST_REQUEST];
        let room = LONGEST_REQUEST - self.line.len();
        let pull = pull_from(&mut self.stream, &mut self.readiness, &mut piece[..room]);
        if let Pull::Got(count) = pull {
            // A pull returns at most as many bytes as there is room for.
            let _ = self.line.try_extend_from_slice(&piece[..count]);
        }
        pull
    }

    /// Begins the answer to what was received, with the status of the run.
    fn begin(&mut self, alloc: Global, judgement: Judgement, run: &RunStatus)
        requires { self.old.stage ≡ Stage.Reads }
        ensures stage { self.new.stage ≡ stage_after judgement }
        ensures answer { BeginsReply run.now judgement self.new.status self.new.answer }
        ensures rest { self.new ≡ record self.old {
          stage = self.new.stage;
          status = self.new.status;
          answer = self.new.answer;
        } }
    {
        match judgement {
            Judgement::Unfinished => {}
            Judgement::Unknown => {
                self.answer = Answer::UnknownRequest;
                self.stage = Stage::Writes(0);
            }
            Judgement::Requests(ControlRequest::Status(format)) => {
                self.status = begun(alloc, format, run);
                self.stage = Stage::Gathers;
            }
            Judgement::Requests(ControlRequest::Stop) => {
                self.stage = Stage::Confirms(RequestedStop::Finish);
            }
            Judgement::Requests(ControlRequest::StopNow) => {
                self.stage = Stage::Confirms(RequestedStop::Now);
            }
            Judgement::Requests(ControlRequest::StopSession(number)) => {
                self.stage = Stage::Confirms(RequestedStop::Session(number));
            }
        }
    }

    /// Reads once, and begins the answer if the request is complete, or if there is none.
    fn receive(&mut self, alloc: Global, run: &RunStatus)
        requires { self.old.stage ≡ Stage.Reads }
        ensures { Receives S.to_give S.taken S.calls run.now self.old self.new }
    {
        let pull = self.hear();
        let judgement = at_end(judgement_of(self.line.as_slice()), pull);
        self.begin(alloc, judgement, run);
    }

    /// Writes the rest of its answer once, after the bytes that were written before. Returns false if it is written
    /// then and no stop waits, or if the write failed.
    fn write_on(&mut self, written: usize, now: Option<Instant>) -> bool
        ensures { WritesOn S.to_give S.taken S.calls now self.old written result self.new }
    {
        let text = self.answer.as_slice();
        let from = written.min(text.len());
        let rest = &text[from..];
        let left = rest.len();
        let Put::Took(count) = put_to(&mut self.stream, &mut self.readiness, rest) else {
            return false;
        };
        if count < left {
            self.stage = Stage::Writes(from + count);
            return true;
        }
        let Some(order) = self.answer.waits() else {
            return false;
        };
        self.stage = Stage::Stays(order);
        self.closes_at = after(now, Duration::from_millis(LOOK_MILLIS));
        true
    }

    /// Finishes the status, and writes it once. Returns false if it is written then, or if the write failed.
    fn complete(&mut self, now: Option<Instant>) -> bool
        ensures { Completes S.to_give S.taken S.calls now self.old result self.new }
    {
        self.answer = finished(self.status.take());
        self.write_on(0, now)
    }

    /// Returns the answer to a stop whose client is there, if one more stop may wait or not. One that ends all sessions waits in
    /// any case.
    fn answer_to(view: RoundView<'_>, has_room: bool, order: RequestedStop) -> Answer
        ensures { AnswersStop view.entry.present.now.bots.items has_room order result }
    {
        match order {
            RequestedStop::Now => return Answer::Stopping(order),
            RequestedStop::Session(number) if !view.present.has(number) => {
                return no_session(view.alloc, number);
            }
            RequestedStop::Session(_) | RequestedStop::Finish => {}
        }
        if has_room {
            Answer::Stopping(order)
        } else {
            Answer::TooManyWait(order)
        }
    }

    /// Reads once after a stop, and answers it if its client is there: at once if the stop waits, since the run may end with this
    /// round. Returns false if the client is gone, or if the write failed.
    fn make_sure(
        &mut self,
        view: RoundView<'_>,
        has_room: bool,
        order: RequestedStop,
        now: Option<Instant>,
    ) -> bool
        requires { self.old.stage ≡ Stage.Confirms order }
        ensures { MakesSure S.to_give S.taken S.calls now view.entry.present.now.bots.items has_room order self.old result self.new }
    {
        match pull_from(&mut self.stream, &mut self.readiness, &mut [0; 1]) {
            Pull::Ended => false,
            Pull::Got(_) => true,
            Pull::Idle => {
                self.answer = ControlConnection::<S>::answer_to(view, has_room, order);
                if self.answer.waits().is_some() {
                    return self.write_on(0, now);
                }
                self.stage = Stage::Writes(0);
                true
            }
        }
    }

    /// Reads once while a stop waits, and returns false if the client sent something or ended.
    fn is_quiet(&mut self, now: Option<Instant>) -> bool
        ensures { StaysOpen S.to_give S.taken S.calls now self.old result self.new }
    {
        let pull = pull_from(&mut self.stream, &mut self.readiness, &mut [0; 1]);
        self.closes_at = after(now, Duration::from_millis(LOOK_MILLIS));
        matches!(pull, Pull::Idle)
    }

    /// Returns whether the session that a stop ends is over.
    fn is_session_over(view: RoundView<'_>, order: RequestedStop) -> bool
        ensures { result ≡ is_session_over view.entry.present.now.bots.items order }
    {
        match order {
            RequestedStop::Finish | RequestedStop::Now => false,
            RequestedStop::Session(number) => !view.present.has(number),
        }
    }

    /// Returns whether its time is over at this reading of the clock; never, if it could not be read when it was accepted.
    fn is_late(&self, now: Option<Instant>) -> bool
        ensures { result ≡ is_past now self.now.closes_at }
    {
        is_past(now, self.closes_at)
    }

    /// Makes the step of a round at this reading of the clock, and returns whether the connection stays open.
    ///
    /// `advances`: it reads once, of a request of at most 64 bytes, or writes its answer once. It is closed two seconds
    /// after it was accepted, and before that once its answer is written. A stop counts only if a further read finds nothing:
    /// at the end of the stream its client is gone, and it is not carried out. It is answered that the session is not there, that
    /// too many stops wait, or that it is carried out. Then it stays open until the session that it stops is over, or until
    /// its client sends something or ends.
    pub(crate) fn advance(
        &mut self,
        view: RoundView<'_>,
        has_room: bool,
        now: Option<Instant>,
    ) -> bool
        ensures advances { Advances S.to_give S.taken S.calls view.entry.run.now view.entry.present.now.bots.items has_room now self.old
            result self.new }
    {
        let is_late = self.is_late(now);
        match self.stage {
            Stage::Stays(order) => {
                if ControlConnection::<S>::is_session_over(view, order) {
                    return false;
                }
                self.is_quiet(now)
            }
            _ if is_late => false,
            Stage::Reads => {
                self.receive(view.alloc, view.run);
                true
            }
            Stage::Confirms(order) => self.make_sure(view, has_room, order, now),
            Stage::Gathers => self.complete(now),
            Stage::Writes(written) => self.write_on(written, now),
        }
    }

    /// Adds a report to its readiness.
    pub(crate) fn note_report(&mut self, report: Readiness)
        ensures { self.new ≡ record self.old { readiness = merged self.old.readiness report } }
    {
        self.readiness = merged(self.readiness, report);
    }

    /// Adds the row of a session, if it gathers a status.
    pub(crate) fn show(&mut self, row: &SessionRow)
        ensures shows { ShowsOn row.now self.old self.new }
    {
        if self.gathers() {
            add(&mut self.status, row);
        }
    }

    /// Returns whether something may be done at once.
    pub(crate) fn has_work(&self) -> bool
        ensures { result ≡ has_control_work self.now }
    {
        match self.stage {
            Stage::Reads | Stage::Stays(_) => self.readiness.may_read,
            Stage::Confirms(_) | Stage::Gathers => true,
            Stage::Writes(_) => self.readiness.may_write,
        }
    }

    /// Returns the moment at which it is closed or looked at again at the latest; `None` for never.
    pub(crate) fn due(&self) -> Option<Instant>
        ensures { result ≡ control_due self.now }
    {
        match self.stage {
            Stage::Stays(RequestedStop::Finish | RequestedStop::Now) => None,
            _ => self.closes_at,
        }
    }

    /// Returns whether it gathers the status of each session.
    pub(crate) fn gathers(&self) -> bool
        ensures { result ≡ gathers_at self.now.stage }
    {
        matches!(self.stage, Stage::Gathers)
    }

    /// Returns the stop that it requested and that is carried out, if there is one.
    pub(crate) fn order(&self) -> Option<RequestedStop>
        ensures { result ≡ ordered_by self.now.answer }
    {
        self.answer.order()
    }
    /// Returns whether it is that of a stop that waits, or whose line is still to be written.
    pub(crate) fn waits(&self) -> bool
        ensures { result ≡ is_waiting self.now }
    {
        self.answer.waits().is_some()
    }
}
