//! Why a line is not a log line, for people. No contract is about it: tests show it.

use crate::heading::{Heading, Version};
use daide_grammar::level::Level;
use daide_log_lines::event_line::MOST;
use daide_log_lines::fault::LogFault;
use daide_log_lines::lines::LineEnd;
use daide_log_lines::match_line::number_within;
use daide_log_lines::parts::plain_number;
use daide_log_lines::word_line::read_word;
use daide_protocol::MAX_SESSIONS;
use daide_protocol::bounds::{MIN_BODY, MIN_DEPTH};
use daide_session::Config;
use daide_words::word::WordError;
use daide_words::words::MAX_WORDS;
use daide_words::{Operand, Slot, Words};
use thiserror::Error;

/// What is wrong with a line that is not a log line.
#[derive(Clone, Copy, Debug, PartialEq, Eq, Error)]
pub enum LineProblem {
    /// The log ends too early.
    #[error("the log ends before this line")]
    Missing,
    /// The first line names no version.
    #[error("the first line is daide-log 1 or daide-log 2")]
    NoVersion,
    /// The second line has other parts than `config` and this number of numbers.
    #[error("the second line is config and {0} numbers")]
    NotConfig(usize),
    /// A part is not a number.
    #[error("a number is decimal digits, without leading zeros")]
    NotNumber,
    /// A number is not allowed at its place.
    #[error("the number is out of range")]
    OutOfRange,
    /// The line of a word has other parts.
    #[error("the line is word NAME CODE SLOT LEVEL OPERAND")]
    NotWord,
    /// A word is refused, for this part.
    #[error("the word is not accepted")]
    RefusedWord,
    /// A match has no session of this number, or the line has no number.
    #[error("the line begins with the number of a session")]
    NoSession,
    /// No event has this name.
    #[error("an event is bot, server, end, timer or stop")]
    NoEvent,
    /// The end is of no side.
    #[error("end is followed by bot or server")]
    NoSide,
    /// The line goes on after its event.
    #[error("nothing follows the event")]
    Rest,
    /// A character in HEX is not a digit.
    #[error("the character is not a hexadecimal digit")]
    NotDigit,
    /// The last byte has one digit.
    #[error("the number of digits is odd")]
    OddDigits,
    /// There are no digits, or too many.
    #[error("a line has 2 to 2048 digits")]
    DigitCount,
}

/// What is wrong, and the column of the first byte that is.
#[derive(Clone, Copy, Debug, PartialEq, Eq, Error)]
#[error("column {column}: {problem}")]
pub struct LineReason {
    /// The column, counted from 1 in bytes.
    pub column: usize,
    pub problem: LineProblem,
}

/// Returns the reason at an index of a line.
fn at(problem: LineProblem, index: usize) -> LineReason {
    LineReason {
        column: index.saturating_add(1),
        problem,
    }
}

/// Returns the bytes of a line from an index on.
fn rest_at(line: &[u8], index: usize) -> &[u8] {
    match line.get(index..) {
        Some(rest) => rest,
        None => &[],
    }
}

/// Returns the bytes before the first space.
fn first_part(text: &[u8]) -> &[u8] {
    match text.iter().position(|byte| *byte == b' ') {
        Some(end) => &text[..end],
        None => text,
    }
}

/// Returns how many bytes at the front of a line are those of a text.
fn same_bytes(line: &[u8], text: &[u8]) -> usize {
    for (i, byte) in text.iter().enumerate() {
        if line.get(i) != Some(byte) {
            return i;
        }
    }
    text.len()
}

/// Returns the index of the first byte that makes a part no number.
fn no_number_at(part: &[u8]) -> Option<usize> {
    if part.is_empty() || (part.len() > 1 && part[0] == b'0') {
        return Some(0);
    }
    part.iter().position(|digit| !digit.is_ascii_digit())
}

/// Returns why the first line names no version.
fn version_reason(line: &[u8]) -> LineReason {
    let same = same_bytes(line, b"daide-log ");
    match rest_at(line, same) {
        [b'1' | b'2', ..] if same == 10 => at(LineProblem::NoVersion, 11),
        _ => at(LineProblem::NoVersion, same),
    }
}

/// The lines of a log that have parts after their first word.
#[derive(Clone, Copy)]
enum PartedLine {
    /// The second line, with this number of numbers.
    Config(usize),
    /// The line of a word.
    Word,
}

impl PartedLine {
    /// Returns the first word, and the space after it.
    fn name(self) -> &'static [u8] {
        match self {
            PartedLine::Config(_) => b"config ",
            PartedLine::Word => b"word ",
        }
    }

    /// Returns the number of parts.
    fn count(self) -> usize {
        match self {
            PartedLine::Config(count) => count,
            PartedLine::Word => 5,
        }
    }

    /// Returns the reason for a line with other parts.
    fn shape(self) -> LineProblem {
        match self {
            PartedLine::Config(count) => LineProblem::NotConfig(count),
            PartedLine::Word => LineProblem::NotWord,
        }
    }

    /// Returns what is wrong with a part, and the index of the first byte of it that is.
    fn problem_of(self, place: usize, part: &[u8]) -> Option<(LineProblem, usize)> {
        match (self, place) {
            (PartedLine::Config(_), _) | (PartedLine::Word, 3) => {
                if let Some(index) = no_number_at(part) {
                    return Some((LineProblem::NotNumber, index));
                }
                if self.is_in_range(place, plain_number(part)) {
                    return None;
                }
                Some((LineProblem::OutOfRange, 0))
            }
            (PartedLine::Word, _) => match no_word_part_at(place, part) {
                Some(index) => Some((LineProblem::NotWord, index)),
                None => None,
            },
        }
    }

    /// Returns whether a number is allowed at its place.
    fn is_in_range(self, place: usize, number: Option<u16>) -> bool {
        let Some(number) = number else {
            return false;
        };
        let mut config = Config {
            top_level: 0,
            max_body: MIN_BODY,
            max_depth: MIN_DEPTH,
        };
        match (self, place) {
            (PartedLine::Word, _) | (PartedLine::Config(_), 0) => config.top_level = number,
            (PartedLine::Config(_), 1) => config.max_body = number,
            (PartedLine::Config(_), 2) => config.max_depth = number,
            (PartedLine::Config(_), 3) => {
                return 1 <= number && number as usize <= MAX_SESSIONS;
            }
            (PartedLine::Config(_), _) => return number as usize <= MAX_WORDS,
        }
        config.check().is_ok()
    }

    /// Returns what is wrong with the line, unless each of its parts is well-formed.
    fn reason(self, line: &[u8]) -> Option<LineReason> {
        let name = self.name();
        let same = same_bytes(line, name);
        if same < name.len() {
            return Some(at(self.shape(), same));
        }
        let mut from = same;
        for place in 0..self.count() {
            let rest = rest_at(line, from);
            let part = first_part(rest);
            if let Some((problem, index)) = self.problem_of(place, part) {
                return Some(at(problem, from.saturating_add(index)));
            }
            let end = from.saturating_add(part.len());
            let is_last = place.saturating_add(1) == self.count();
            if is_last != (part.len() == rest.len()) {
                return Some(at(self.shape(), end));
            }
            from = end.saturating_add(1);
        }
        None
    }
}

/// Returns the index of the first byte that makes a part no name, code, slot or operand of a word.
fn no_word_part_at(place: usize, part: &[u8]) -> Option<usize> {
    match place {
        0 => no_letters_at(part),
        1 => no_code_at(part),
        2 if Slot::by_name(part).is_none() => Some(0),
        4 if Operand::by_name(part).is_none() => Some(0),
        _ => None,
    }
}

/// Returns the index of the first byte that makes a part no three capital letters.
fn no_letters_at(part: &[u8]) -> Option<usize> {
    match part.iter().position(|letter| !letter.is_ascii_uppercase()) {
        None if part.len() == 3 => None,
        None => Some(part.len().min(3)),
        Some(index) => Some(index.min(3)),
    }
}

/// Returns the index of the first byte that makes a part no four hexadecimal digits.
fn no_code_at(part: &[u8]) -> Option<usize> {
    match part.iter().position(|digit| !digit.is_ascii_hexdigit()) {
        None if part.len() == 4 => None,
        None => Some(part.len().min(4)),
        Some(index) => Some(index.min(4)),
    }
}

/// Returns the part of a word's line for which these words refuse it.
fn refused_part(words: &Words, line: &[u8]) -> usize {
    let mut words = *words;
    let Some(word) = read_word(line) else {
        return 0;
    };
    match words.add(word) {
        Ok(()) | Err(WordError::Full | WordError::Name) => 0,
        Err(WordError::Code) => 1,
        Err(WordError::Level) => 3,
        Err(WordError::Operand) => 4,
    }
}

/// Returns why the line of a word is none, after these words.
fn word_reason(words: &Words, line: &[u8]) -> LineReason {
    if let Some(reason) = PartedLine::Word.reason(line) {
        return reason;
    }
    let mut from: usize = 5;
    for _part in 0..refused_part(words, line) {
        let part = first_part(rest_at(line, from));
        from = from.saturating_add(part.len()).saturating_add(1);
    }
    at(LineProblem::RefusedWord, from)
}

/// Returns why the second line is none.
fn config_reason(version: Version, line: &[u8]) -> LineReason {
    let count = match version {
        Version::Single => 3,
        Version::Match => 5,
    };
    match PartedLine::Config(count).reason(line) {
        Some(reason) => reason,
        None => at(LineProblem::NotConfig(count), 0),
    }
}

/// Returns why a line is not the next one of a head.
fn heading_reason(heading: &Heading, line: &[u8]) -> LineReason {
    match heading {
        Heading::Unnamed => version_reason(line),
        Heading::Named(version) => config_reason(*version, line),
        Heading::Headed(head) => word_reason(&head.words, line),
    }
}

/// Returns why the next line of a head is none, or if it was accepted as the last one, that the line after it is missing.
pub(crate) fn head_reason(
    heading: &Heading,
    found: Result<LineEnd, LogFault>,
    is_accepted: bool,
    line: &[u8],
) -> Option<LineReason> {
    match found {
        Err(_) => None,
        Ok(LineEnd::End) => Some(at(LineProblem::Missing, 0)),
        Ok(LineEnd::Last) if is_accepted => Some(at(LineProblem::Missing, 0)),
        Ok(_) => Some(heading_reason(heading, line)),
    }
}

/// Returns why the digits from an index of a line on are not a side's bytes.
fn digits_reason(line: &[u8], from: usize) -> LineReason {
    let digits = rest_at(line, from);
    for (i, digit) in digits.iter().enumerate() {
        if i == 2 * MOST {
            return at(LineProblem::DigitCount, from.saturating_add(i));
        }
        if !digit.is_ascii_hexdigit() {
            return at(LineProblem::NotDigit, from.saturating_add(i));
        }
    }
    if digits.is_empty() {
        return at(LineProblem::DigitCount, from);
    }
    let last = from.saturating_add(digits.len().saturating_sub(1));
    at(LineProblem::OddDigits, last)
}

/// Returns why the text after `end`, from an index of a line on, is not a side.
fn end_reason(line: &[u8], from: usize) -> LineReason {
    let side = first_part(rest_at(line, from));
    if side == b"bot".as_slice() || side == b"server".as_slice() {
        return at(LineProblem::Rest, from.saturating_add(side.len()));
    }
    at(LineProblem::NoSide, from)
}

/// Returns why the text from an index of a line on is not an event.
fn event_reason(line: &[u8], from: usize) -> LineReason {
    let name = first_part(rest_at(line, from));
    let end = from.saturating_add(name.len());
    let after = end.saturating_add(1).min(line.len());
    if name == b"bot".as_slice() || name == b"server".as_slice() {
        return digits_reason(line, after);
    }
    if name == b"end".as_slice() {
        return end_reason(line, after);
    }
    if name == b"timer".as_slice() || name == b"stop".as_slice() {
        return at(LineProblem::Rest, end);
    }
    at(LineProblem::NoEvent, from)
}

/// Returns why a line after the head, of a log with this number of sessions, is none.
pub(crate) fn line_reason(version: Version, sessions: u16, line: &[u8]) -> LineReason {
    let Version::Match = version else {
        return event_reason(line, 0);
    };
    let number = first_part(line);
    if let Some(index) = no_number_at(number) {
        return at(LineProblem::NoSession, index);
    }
    if number_within(1, sessions, number).is_none() {
        return at(LineProblem::NoSession, 0);
    }
    event_reason(line, number.len().saturating_add(1).min(line.len()))
}
