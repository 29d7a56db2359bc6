//! The event lines of a log, from the third line on.

ghost use Rattle.std.specs.Prelude.{◌≡◌, IfSome, option_map};
ghost use Rattle.daide_log_lines.specs.LogLine.{event_of_line, parse_received as reported_traffic, event_of_word};
ghost use Rattle.daide_log_lines.specs.ParsedEvents.{event_reported, IsWithinPieceLimit};

use crate::digits::read_digits;
use daide_frame::Side;

/// The greatest number of a side's bytes in one line.
pub const MOST: usize = 1024;

/// The event of a line.
#[derive(Clone, Copy, Debug, PartialEq, Eq)]
pub enum ParsedEvent {
    /// A side sent this number of bytes.
    Received(Side, usize),
    /// A side's stream ended.
    EndOf(Side),
    /// The IM timer expired.
    ImTimerLine,
    /// The operator stopped the session.
    StopLine,
    /// A comment or an empty line: no event.
    Silence,
}

/// Parses the hexadecimal digits of a side's bytes, and writes the bytes to the front of the buffer. Returns `None` if
/// there are no digits, too many, an odd number of them, or another character.
#[inline(always)]
fn read_traffic(side: Side, digits: &[u8], bytes: &mut [u8; MOST]) -> Option<ParsedEvent>
    ensures reported { option_map (event_reported bytes.new) result ≡ reported_traffic side digits.now }
    ensures within { IfSome result IsWithinPieceLimit }
{
    let count = digits.len() / 2;
    if count == 0 || digits.len() > 2 * MOST {
        return None;
    }
    if digits.len() % 2 == 0 && read_digits(digits, &mut bytes[..count]) {
        return Some(ParsedEvent::Received(side, count));
    }
    None
}

/// Parses a line without a side's bytes. Returns `None` if it has no allowed form.
fn read_word(line: &[u8], bytes: &[u8; MOST]) -> Option<ParsedEvent>
    ensures reported { option_map (event_reported bytes.now) result ≡ event_of_word line.now }
    ensures within { IfSome result IsWithinPieceLimit }
{
    if line.is_empty() || line[0] == b'#' {
        return Some(ParsedEvent::Silence);
    }
    if line == b"timer".as_slice() {
        return Some(ParsedEvent::ImTimerLine);
    }
    if line == b"stop".as_slice() {
        return Some(ParsedEvent::StopLine);
    }
    if line == b"end bot".as_slice() {
        return Some(ParsedEvent::EndOf(Side::Bot));
    }
    if line == b"end server".as_slice() {
        return Some(ParsedEvent::EndOf(Side::Server));
    }
    None
}

/// Parses an event line, and writes a side's bytes to the front of the buffer. Returns `None` if the line has no
/// allowed form.
#[tactic(auto, unfolding(crate::specs::LogLine::event_of_line))]
#[inline(always)]
pub fn read_event(line: &[u8], bytes: &mut [u8; MOST]) -> Option<ParsedEvent>
    ensures reported { option_map (event_reported bytes.new) result ≡ event_of_line line.now }
    ensures within { IfSome result IsWithinPieceLimit }
{
    if let Some(digits) = line.strip_prefix(b"bot ") {
        return read_traffic(Side::Bot, digits, bytes);
    }
    if let Some(digits) = line.strip_prefix(b"server ") {
        return read_traffic(Side::Server, digits, bytes);
    }
    read_word(line, bytes)
}
