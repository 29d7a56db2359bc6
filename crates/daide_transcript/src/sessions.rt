//! The sessions of logs: what the moves of each came to.

use crate::stamp::Opening;
use daide_frame::{Code, Side};
use daide_io::{Cause, FaultField};
use daide_log::{Observer, Preamble, ReportKey, Version};
use daide_protocol::{BotName, Deed, Ending, NameText, Note, Power, Summary};
use daide_session::Session;
use daide_sockets::session_notice::Why;
use std::alloc::{AllocError, Allocator, Global};

/// A message that was refused.
#[derive(Clone, Copy)]
pub(crate) struct Refusal {
    /// The number of the log's line with its last byte.
    pub(crate) line: u32,
    /// Its sender.
    pub(crate) side: Side,
    /// What was done with it.
    pub(crate) deed: Deed,
}

/// What the moves of a session came to.
#[derive(Clone, Copy)]
pub(crate) struct SessionResult {
    /// Its number, if the log has one.
    pub(crate) number: Option<u32>,
    /// The name of the bot's last NME.
    pub(crate) name: Option<NameText>,
    /// The power of the bot, as the session's account has it.
    pub(crate) power: Option<Power>,
    /// The session's own counts after its last move.
    pub(crate) counts: Summary,
    /// The first message that got PRN or HUH.
    pub(crate) refusal: Option<Refusal>,
    /// Why it is over.
    pub(crate) end: Option<Why>,
}

/// Returns the field that a side's fault is about, from the frame that the session still holds.
fn field_of<A: Allocator>(session: &Session<A>, side: Side, code: Code) -> Option<FaultField> {
    let is_good = session.head(side).is_some();
    FaultField::of(code, is_good, session.header(side), session.body(side))
}

/// Returns why a session is over, if it is. It still holds the frame that a fault is about.
fn why_over<A: Allocator>(session: &Session<A>) -> Option<Why> {
    let ending = session.ending()?;
    let field = match ending {
        Ending::Fault(side, code) => field_of(session, side, code),
        _ => None,
    };
    Some(Why::Ended(Cause::Session(ending), field))
}

/// Returns the refusal that a move is.
fn refusal_in(source: ReportKey, side: Side, reported: Note) -> Option<Refusal> {
    match reported {
        Note::Frame(_, deed) if matches!(deed, Deed::Prn | Deed::Huh(_)) => Some(Refusal {
            line: source.line,
            side,
            deed,
        }),
        _ => None,
    }
}

impl SessionResult {
    /// Returns the result of a session without a move.
    fn new(number: Option<u32>) -> SessionResult {
        SessionResult {
            number,
            name: None,
            power: None,
            counts: Summary::new(),
            refusal: None,
            end: None,
        }
    }

    /// Adds a move. The session still holds the frame that caused it.
    fn add_move<A: Allocator>(
        &mut self,
        source: ReportKey,
        session: &Session<A>,
        side: Side,
        reported: Note,
    ) {
        let account = session.account();
        if let BotName::Nme(name) = account.name {
            self.name = Some(name);
        }
        self.power = account.power;
        self.counts = account.summary();
        self.refusal = self.refusal.or(refusal_in(source, side, reported));
        self.end = why_over(session);
    }
}

/// The results of sessions: those of each log after those of the log before it.
#[derive(Drop)]
pub struct Sessions {
    results: Vec<SessionResult>,
    /// The number of results of earlier logs.
    earlier: usize,
    /// Whether the allocator refused to keep a result.
    is_refused: bool,
}

/// Returns the number of a session by its index, if the lines of the log name the session.
fn number_by(version: Version, index: u16) -> Option<u32> {
    match version {
        Version::Single => None,
        Version::Match => Some(u32::from(index) + 1),
    }
}

impl Sessions {
    /// Returns no results.
    pub fn new(alloc: Global) -> Sessions {
        Sessions {
            results: Vec::new(alloc),
            earlier: 0,
            is_refused: false,
        }
    }

    /// Begins a further log.
    pub fn begin_log(&mut self) {
        self.earlier = self.results.len();
    }

    /// Drops the results.
    pub(crate) fn clear(&mut self) {
        self.results.clear();
        self.earlier = 0;
    }

    /// Returns the results. Fails if the allocator refused to keep one of them.
    pub(crate) fn results(&self) -> Result<&[SessionResult], AllocError> {
        if self.is_refused {
            return Err(AllocError);
        }
        Ok(self.results.as_slice())
    }

    /// Returns the result of the session of a move, in the log that is being read.
    pub(crate) fn result_at(&self, source: ReportKey) -> Option<&SessionResult> {
        self.results.get(self.place_of(source))
    }

    /// Returns the place of the session of a move.
    fn place_of(&self, source: ReportKey) -> usize {
        let index = source.session.unwrap_or(1).saturating_sub(1);
        self.earlier.saturating_add(usize::from(index))
    }

    /// Adds the results of the sessions of a log.
    fn add_sessions(&mut self, head: &Preamble) -> Result<(), AllocError> {
        for index in 0..head.limits.sessions {
            let result = SessionResult::new(number_by(head.version, index));
            // The kit cannot prove a `push` of it.
            self.results.extend_from_slice(&[result])?;
        }
        Ok(())
    }

    /// Adds the results of the sessions of the log that is being read, unless they are there.
    fn see_head(&mut self, head: &Preamble) {
        if self.results.len() == self.earlier && self.add_sessions(head).is_err() {
            self.is_refused = true;
        }
    }

    /// Notes the number of the only session of a log.
    fn see_opening(&mut self, head: &Preamble, opening: Opening) {
        if head.limits.sessions == 1
            && let Some(only) = self.results.get_mut(self.earlier)
        {
            only.number = Some(opening.session);
        }
    }
}

impl Observer for Sessions {
    fn see_line(&mut self, head: &Preamble, line: &[u8]) {
        self.see_head(head);
        if let Some(opening) = Opening::of_line(line) {
            self.see_opening(head, opening);
        }
    }

    fn see_move<A: Allocator>(
        &mut self,
        head: &Preamble,
        source: ReportKey,
        session: &Session<A>,
        side: Side,
        reported: Note,
    ) {
        self.see_head(head);
        let place = self.place_of(source);
        if let Some(result) = self.results.get_mut(place) {
            result.add_move(source, session, side, reported);
        }
    }

    fn see_end(&mut self, head: &Preamble) {
        self.see_head(head);
    }
}
