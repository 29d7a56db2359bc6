//! One line of a log after its head, judged by its session.

ghost use Rattle.std.specs.Prelude.{◌≡◌, ◌⊎◌, ◌≤◌, ℕ, List, All, length, Ok, Err, None, IfSome, OnOk, IfErr, MatchResult, option_map};
ghost use Rattle.daide_causes.specs.Causes.{HasFailed};
ghost use Rattle.daide_log_lines.specs.LogLine.{longest_piece};
ghost use Rattle.daide_log_lines.specs.Output.{IsSameWriter, all_of};
ghost use Rattle.daide_log.specs.Report.{events_of_line, side_of};
ghost use Rattle.daide_log.specs.Log.{event_in, source_in};
ghost use Rattle.daide_log_lines.specs.ParsedEvents.{IsWithinPieceLimit, event_reported};
ghost use Rattle.daide_protocol.specs.Bounds.{most_sessions};
ghost use Rattle.daide_protocol.specs.Summary.{HasRoom, IsMoreBy};
ghost use Rattle.daide_words.specs.Words.{words_of};
ghost use Rattle.daide_log.specs.Reporting.{IsReady, IsLateFault, IsQuietWith, ReportsEvents, fault_of_unreported};
ghost use Rattle.std.specs.Io.KnownBytes.{Appends};
ghost use Rattle.daide_log_lines.specs.ParsedMatchEvents.{IsMatchWithin, match_event_reported};
ghost use Rattle.daide_log.specs.Progress.{Judges, states_of};

use crate::heading::Version;
use crate::line_reason::line_reason;
use crate::page::Unreported;
use crate::play::{apply, feed_all, report_move};
use crate::report::ReportKey;
use crate::report_builder::ReportBuilder;
use crate::style::Style;
use daide_causes::Sink;
use daide_log_lines::event_line::{MOST, ParsedEvent, read_event};
use daide_log_lines::fault::LogFault;
use daide_log_lines::match_line::{ParsedMatchEvent, read_match_event};
use daide_session::Session;
use std::alloc::Allocator;

/// Converts the reason why a report's line is missing into a fault of the log.
pub(crate) fn as_fault(reported: Result<(), Unreported>) -> Result<(), LogFault>
    ensures { MatchResult reported (λ _. result ≡ Ok tt) (λ fault. result ≡ Err (fault_of_unreported fault)) }
{
    match reported {
        Ok(()) => Ok(()),
        Err(Unreported::Write) => Err(LogFault::Write),
        Err(Unreported::Memory) => Err(LogFault::Memory),
    }
}

/// Judges an event. Feeds its bytes, which are at the front of the buffer, or reports its end, the timer or a stop to the
/// session, and reports the session's moves.
#[inline(always)]
pub fn judge<A: Allocator, W: Sink, S: Style>(
    session: &mut Session<A>,
    reported: ParsedEvent,
    source: ReportKey,
    bytes: &[u8; MOST],
    report: &mut ReportBuilder<'_, '_, W, S>,
) -> Result<(), LogFault>
    requires ready { IsReady report.old.head.limits.config (words_of report.old.head.words) session.old }
    requires within { IsWithinPieceLimit reported }
    requires room { HasRoom longest_piece report.old.summary }
    ensures ready { IsReady report.old.head.limits.config (words_of report.old.head.words) session.new }
    ensures few { IsMoreBy longest_piece report.old.summary report.new.summary }
    ensures judged { OnOk result (ReportsEvents (S.form (words_of report.old.head.words))
        (S.knows (words_of report.old.head.words) report.old.style.now)
        (S.knows (words_of report.old.head.words) report.new.style.now) source
        (side_of (event_reported bytes.now reported)) session.old.state
        (events_of_line (event_reported bytes.now reported)) session.new.state
        report.old.summary report.new.summary (all_of W.contents report.old.output)
        (all_of W.contents report.new.output)) }
    ensures refused { IfErr result (IsLateFault (S.form (words_of report.old.head.words)) (HasFailed W.Fails) S.refused) }
    ensures same_head { report.new.head ≡ report.old.head }
    ensures same_writer { IsSameWriter report.old.output report.new.output }
{
    if let ParsedEvent::Received(side, count) = reported {
        return as_fault(feed_all(session, side, &bytes[..count], source, report));
    }
    let (side, moved) = apply(session, reported);
    as_fault(report_move(session, source, side, moved, report))
}

/// Parses an event line. In version 1 its session is the only one.
#[inline(always)]
pub(crate) fn read_reported(
    version: Version,
    line: &[u8],
    sessions: u16,
    bytes: &mut [u8; MOST],
) -> Option<ParsedMatchEvent>
    requires { 1 ≤ sessions }
    ensures reported { option_map (match_event_reported bytes.new) result ≡ event_in version sessions line.now }
    ensures within { IfSome result (IsMatchWithin sessions) }
{
    match version {
        Version::Single => Some(ParsedMatchEvent::Of(1, read_event(line, bytes)?)),
        Version::Match => read_match_event(line, sessions, bytes),
    }
}

/// The context of a line that is judged.
#[derive(Clone, Copy)]
pub struct LineContext {
    /// The version of the log.
    pub version: Version,
    /// The number of the line, counted from 1.
    pub line: u32,
}

impl LineContext {
    /// Returns the key under which the report lists a session's moves.
    fn source(self, session: u16) -> ReportKey
        ensures { result ≡ source_in self.version self.line session }
    {
        let session = match self.version {
            Version::Single => None,
            Version::Match => Some(session),
        };
        ReportKey {
            line: self.line,
            session,
        }
    }
}

/// Writes what the style reports for the line itself.
fn quote<W: Sink, S: Style>(
    line: &[u8],
    report: &mut ReportBuilder<'_, '_, W, S>,
) -> Result<(), LogFault>
    ensures text { OnOk result ((text : List ℕ)
        × IsQuietWith (S.form (words_of report.old.head.words)) line.now text
        × Appends (all_of W.contents report.old.output) (all_of W.contents report.new.output) text) }
    ensures refused { IfErr result (IsLateFault (S.form (words_of report.old.head.words)) (HasFailed W.Fails) S.refused) }
    ensures same_head { report.new.head ≡ report.old.head }
    ensures same_summary { report.new.summary ≡ report.old.summary }
    ensures known { (context : (S.form (words_of report.old.head.words)).Context) →
        S.knows (words_of report.old.head.words) report.old.style.now context →
        S.knows (words_of report.old.head.words) report.new.style.now context }
    ensures same_writer { IsSameWriter report.old.output report.new.output }
{
    as_fault(report.style.quote(&report.head, line, &mut report.output))
}

/// Judges a line by the session that it names. Decodes a side's bytes into the buffer.
///
/// Fails with `BadLine` if the line has no allowed form, and records why; and else with the faults of writing the report.
#[inline(always)]
pub fn judge_line<A: Allocator, W: Sink, S: Style>(
    sessions: &mut Vec<Session<A>, A>,
    line: &[u8],
    origin: LineContext,
    bytes: &mut [u8; MOST],
    report: &mut ReportBuilder<'_, '_, W, S>,
) -> Result<(), LogFault>
    requires some { 1 ≤ length sessions.old.items }
    requires few { length sessions.old.items ≤ most_sessions }
    requires ready { All (IsReady report.old.head.limits.config (words_of report.old.head.words)) sessions.old.items }
    requires room { HasRoom longest_piece report.old.summary }
    ensures same { length sessions.new.items ≡ length sessions.old.items }
    ensures ready { All (IsReady report.old.head.limits.config (words_of report.old.head.words)) sessions.new.items }
    ensures few { IsMoreBy longest_piece report.old.summary report.new.summary }
    ensures judged { OnOk result (Judges (S.form (words_of report.old.head.words))
        (S.knows (words_of report.old.head.words) report.old.style.now)
        (S.knows (words_of report.old.head.words) report.new.style.now) origin.version origin.line
        (states_of sessions.old.items) line.now
        (states_of sessions.new.items) report.old.summary report.new.summary
        (all_of W.contents report.old.output)
        (all_of W.contents report.new.output)) }
    ensures same_head { report.new.head ≡ report.old.head }
    ensures refused { IfErr result (λ fault. IsLateFault (S.form (words_of report.old.head.words)) (HasFailed W.Fails) S.refused fault ⊎ ((fault ≡ LogFault.BadLine origin.line)
        × (event_in origin.version (length sessions.old.items) line.now ≡ None)
        × (all_of W.contents report.new.output ≡ all_of W.contents report.old.output))) }
    ensures same_writer { IsSameWriter report.old.output report.new.output }
{
    let count = sessions.len() as u16;
    match read_reported(origin.version, line, count, bytes) {
        None => {
            report.refused = Some(line_reason(origin.version, count, line));
            Err(LogFault::BadLine(origin.line))
        }
        Some(ParsedMatchEvent::Quiet) => quote(line, report),
        Some(ParsedMatchEvent::Of(session, reported)) => {
            quote(line, report)?;
            let place = session as usize - 1;
            let source = origin.source(session);
            judge(&mut sessions[place], reported, source, bytes, report)
        }
    }
}
