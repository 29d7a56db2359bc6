//! The lines of a match's log: its first line, and the events of its sessions.

ghost use Rattle.std.specs.Prelude.{◌≡◌, ◌≤◌, IfSome, option_map};
ghost use Rattle.daide_log_lines.specs.LogLine.{plain_number, event_of_line};
ghost use Rattle.daide_log_lines.specs.MatchLine.{is_match_name as has_match_name, within};
ghost use Rattle.daide_log_lines.specs.MatchLine.{loud as loud_event, match_event_of_line};
ghost use Rattle.daide_log_lines.specs.ParsedMatchEvents.{IsMatchWithin, match_event_reported};
ghost use Rattle.daide_log_lines.specs.ParsedEvents.{event_reported, IsWithinPieceLimit};

use crate::event_line::{MOST, ParsedEvent, read_event};
use crate::parts::{parted_at_space, plain_number};

/// The event of a line after the words.
#[derive(Clone, Copy, Debug, PartialEq, Eq)]
pub enum ParsedMatchEvent {
    /// An event of the session of this number.
    Of(u16, ParsedEvent),
    /// A comment or an empty line: no event.
    Quiet,
}

/// Returns whether the first line is that of a match's log.
pub fn is_match_name(line: &[u8]) -> bool
    ensures { result ≡ has_match_name line.now }
{
    line == b"daide-log 2".as_slice()
}

/// Parses a plain number within the given limits.
pub fn number_within(least: u16, most: u16, digits: &[u8]) -> Option<u16>
    ensures value { result ≡ within least most (plain_number digits.now) }
    ensures within { IfSome result (λ number. (least ≤ number) × (number ≤ most)) }
{
    let number = plain_number(digits)?;
    if least <= number && number <= most {
        Some(number)
    } else {
        None
    }
}

/// Parses an event of version 1. Returns `None` for a comment, an empty line, or a line without an allowed form.
fn read_loud(line: &[u8], bytes: &mut [u8; MOST]) -> Option<ParsedEvent>
    ensures reported { option_map (event_reported bytes.new) result ≡ loud_event (event_of_line line.now) }
    ensures within { IfSome result IsWithinPieceLimit }
{
    match read_event(line, bytes) {
        None | Some(ParsedEvent::Silence) => None,
        Some(reported) => Some(reported),
    }
}

/// Parses a line after the words, and writes a side's bytes to the front of the buffer. Returns `None` if the line has
/// no allowed form.
#[tactic(auto, unfolding(crate::specs::MatchLine::match_event_of_line))]
pub fn read_match_event(
    line: &[u8],
    sessions: u16,
    bytes: &mut [u8; MOST],
) -> Option<ParsedMatchEvent>
    ensures reported { option_map (match_event_reported bytes.new) result ≡ match_event_of_line sessions line.now }
    ensures within { IfSome result (IsMatchWithin sessions) }
{
    if line.is_empty() || line[0] == b'#' {
        return Some(ParsedMatchEvent::Quiet);
    }
    let (number, event) = parted_at_space(line)?;
    let session = number_within(1, sessions, number)?;
    let reported = read_loud(event, bytes)?;
    Some(ParsedMatchEvent::Of(session, reported))
}
