//! The times in the comments of a record.

use std::str;

/// The form of a time: a digit for each `0`, and every other byte as it is.
const FORM: &[u8; 24] = b"0000-00-00T00:00:00.000Z";

/// A time in a record, as it is written there.
#[derive(Clone, Copy)]
pub(crate) struct Stamp {
    /// Its text.
    pub(crate) text: [u8; 24],
    /// Its digits as one number, which is greater for a later time.
    pub(crate) number: u64,
}

/// What the first comment of a record says.
#[derive(Clone, Copy)]
pub(crate) struct Opening {
    /// The number of the session.
    pub session: u32,
    /// When the record began.
    pub time: Stamp,
}

/// Returns the number with one more digit in place of a `0` of the form, or `None` if the byte does not have the form.
fn with_byte(number: u64, byte: u8, form: u8) -> Option<u64> {
    if form != b'0' {
        return if byte == form { Some(number) } else { None };
    }
    if !byte.is_ascii_digit() {
        return None;
    }
    Some(number.wrapping_mul(10).wrapping_add(u64::from(byte & 15)))
}

impl Stamp {
    /// Reads a time, the whole of a text.
    fn of_text(text: &[u8]) -> Option<Stamp> {
        let mut kept = [0; 24];
        if text.len() != kept.len() {
            return None;
        }
        kept.copy_from_slice(text);
        let mut number = 0;
        for (byte, form) in text.iter().zip(FORM) {
            number = with_byte(number, *byte, *form)?;
        }
        Some(Stamp { text: kept, number })
    }

    /// Reads the time of a line that is a comment with one.
    pub(crate) fn of_line(line: &[u8]) -> Option<Stamp> {
        match Opening::of_line(line) {
            Some(opening) => Some(opening.time),
            None => Stamp::of_text(line.strip_prefix(b"# ")?),
        }
    }
}

/// Splits decimal digits from the front of a text, and returns their number and the rest.
fn number_at_front(text: &[u8]) -> Option<(u32, &[u8])> {
    let count = text.iter().take_while(|byte| byte.is_ascii_digit()).count();
    let (digits, rest) = text.split_at_checked(count)?;
    let number = str::from_utf8(digits).ok()?.parse::<u32>().ok()?;
    Some((number, rest))
}

impl Opening {
    /// Reads the comment `# session N, bot at ADDRESS, TIME`.
    pub(crate) fn of_line(line: &[u8]) -> Option<Opening> {
        let (session, rest) = number_at_front(line.strip_prefix(b"# session ")?)?;
        let after = rest.strip_prefix(b", bot at ")?;
        let (_address, time) = after.split_at_checked(after.len().checked_sub(26)?)?;
        let time = Stamp::of_text(time.strip_prefix(b", ")?)?;
        Some(Opening { session, time })
    }
}
