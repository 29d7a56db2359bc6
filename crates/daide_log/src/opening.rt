//! The opening of a log: its head is read, then its sessions are created.

ghost use Rattle.std.specs.Prelude.{◌≡◌, ◌≢◌, ◌+◌, ◌≤◌, [], All, Ok, option_map, replicate, IfOk, IfErr, IfSome, OnOk};
ghost use Rattle.std.specs.Io.KnownBytes.{Keeps};
ghost use Rattle.daide_causes.specs.Causes.{WasRefused};
ghost use Rattle.daide_log_lines.specs.Cause.{HasCause};
ghost use Rattle.daide_log_lines.specs.Input.{IsSameReader};
ghost use Rattle.daide_log_lines.specs.Output.{IsSameWriter, all_of};
ghost use Rattle.daide_protocol.specs.Machine.{initial_state};
ghost use Rattle.daide_protocol.specs.Config.{config_fault, limits_with};
ghost use Rattle.daide_words.specs.Words.{words_of};
ghost use Rattle.daide_log.specs.Heading.{HasSessions, heading_after};
ghost use Rattle.daide_log_lines.specs.LogLine.{most_lines};
ghost use Rattle.daide_log.specs.PreambleKnown.{IsPreambleKnown, heading_of, preamble_after, at_last, whole_preamble, after_line};
ghost use Rattle.daide_log.specs.Progress.{AreOpened, states_of};
ghost use Rattle.daide_log.specs.Reporting.{IsReady};

use crate::heading::{Heading, Preamble};
use crate::line_reason::{LineReason, head_reason};
use crate::style::Style;
use daide_causes::Sink;
use daide_frame::Memory;
use daide_log_lines::fault::LogFault;
use daide_log_lines::input::Input;
use daide_log_lines::lines::{LineEnd, next_line};
use daide_log_lines::output::Output;
use daide_log_lines::reader::LogReader;
use daide_protocol::SessionLimits;
use daide_session::Session;

/// A head that was read.
#[derive(Clone, Copy)]
pub struct Opened {
    /// The contents of the head.
    pub head: Preamble,
    /// The number of its lines.
    pub lines: u32,
    /// Whether the last of them ended with a line feed.
    pub is_ended: bool,
}

/// The state after a line of the head.
#[derive(Clone, Copy)]
pub enum PreambleProgress {
    /// Another line follows.
    More(Heading),
    /// The head is complete.
    Done(Opened),
}

/// Returns the state after `lines` lines, the last one with its line feed.
fn further(heading: Heading, lines: u32) -> PreambleProgress
    ensures { result ≡ preamble_after heading lines (whole_preamble heading) }
{
    match heading.whole() {
        None => PreambleProgress::More(heading),
        Some(head) => PreambleProgress::Done(Opened {
            head,
            lines,
            is_ended: true,
        }),
    }
}

/// Returns the state after `lines` lines, the last one at the end of the log.
fn at_last(heading: Heading, lines: u32) -> Result<PreambleProgress, LogFault>
    requires { lines ≤ most_lines + 1 }
    ensures { result ≡ at_last lines (whole_preamble heading) }
{
    match heading.whole() {
        None => Err(LogFault::BadLine(lines + 1)),
        Some(head) => Ok(PreambleProgress::Done(Opened {
            head,
            lines,
            is_ended: false,
        })),
    }
}

/// Returns the state after the next line. `heading` includes this line, and `count` does not.
fn after_line(
    found: Result<LineEnd, LogFault>,
    heading: Option<Heading>,
    count: u32,
) -> Result<PreambleProgress, LogFault>
    requires { count ≤ most_lines }
    ensures { result ≡ after_line found heading count }
{
    match (found, heading) {
        (Err(fault), _) => Err(fault),
        (Ok(LineEnd::Held(_) | LineEnd::Line), Some(heading)) => Ok(further(heading, count + 1)),
        (Ok(LineEnd::Last), Some(heading)) => at_last(heading, count + 1),
        (Ok(_), _) => Err(LogFault::BadLine(count + 1)),
    }
}

/// Adds the next line to a head, as `Heading::with_line` does. `refused` says why that line is not a log line or is missing,
/// or that the line after it is missing.
fn with_next(
    heading: Heading,
    found: Result<LineEnd, LogFault>,
    line: &[u8],
    refused: &mut Option<LineReason>,
) -> Option<Heading>
    requires { IsPreambleKnown heading }
    ensures within { IfSome result IsPreambleKnown }
    ensures heading { option_map heading_of result ≡ heading_after (heading_of heading) line.now }
{
    let more = heading.with_line(line);
    *refused = head_reason(&heading, found, more.is_some(), line);
    more
}

/// Reads the head of a log, line by line. If a line is not a log line or is missing, `refused` says why.
pub fn read_preamble<S: Style, R: LogReader, W: Sink>(
    input: &mut Input<'_, R>,
    refused: &mut Option<LineReason>,
    output: &mut Output<'_, W>,
) -> Result<Opened, LogFault>
    requires { input.old.block ≡ [] }
    ensures within { IfOk result (λ opened. HasSessions opened.head.limits) }
    ensures opened { AreOpened S.form (all_of W.contents output.old) (R.reader_view input.old.reader.now) (R.reader_view input.new.reader.now)
        input.new.block result }
    ensures kept { OnOk result (Keeps (all_of W.contents output.old) (all_of W.contents output.new)) }
    ensures kept_at_fault { IfErr result (λ fault. fault ≢ LogFault.Write →
        Keeps (all_of W.contents output.old) (all_of W.contents output.new)) }
    ensures cause { IfErr result (HasCause R.Fails W.Fails ⊥) }
    ensures same_reader { IsSameReader input.old input.new }
    ensures same_writer { IsSameWriter output.old output.new }
{
    let mut heading = Heading::Unnamed;
    let mut count = 0;
    'lines: loop {
        let found = next_line(input, count, output);
        let more = with_next(heading, found, input.text.as_slice(), refused);
        match after_line(found, more, count) {
            Err(fault) => return Err(fault),
            Ok(PreambleProgress::Done(opened)) => return Ok(opened),
            Ok(PreambleProgress::More(next)) => heading = next,
        }
        count += 1;
    }
}

/// Creates the sessions of a log, with the words of its head. Allocates all their memory: one list for all of them, and
/// two growths for each. Fails with `Memory`.
pub fn open_sessions<A: Memory + Copy>(
    alloc: A,
    head: &Preamble,
) -> Result<Vec<Session<A>, A>, LogFault>
    requires { config_fault head.now.limits.config ≡ Ok tt }
    ensures begun { IfOk result (λ sessions. states_of sessions.items ≡ replicate head.now.limits.sessions
        (initial_state (limits_with head.now.limits.config (words_of head.now.words)))) }
    ensures ready { IfOk result (λ sessions.
        All (IsReady head.now.limits.config (words_of head.now.words)) sessions.items) }
    ensures refused { IfErr result (λ fault. (fault ≡ LogFault.Memory) × WasRefused A.Refuses) }
{
    let count = head.limits.sessions as usize;
    let Ok(mut sessions) = alloc.with_capacity(count) else {
        return Err(LogFault::Memory);
    };
    let limits = SessionLimits::of(head.limits.config);
    for _session in 0..count {
        let Ok(session) = Session::with_limits(alloc, limits, head.words) else {
            return Err(LogFault::Memory);
        };
        sessions.push_reserved(session);
    }
    Ok(sessions)
}
