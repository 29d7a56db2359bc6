//! Why a text is not an item, for people. No contract is about it: tests show it.

use crate::pieces::{quote_end, word_end};
use thiserror::Error;

/// What is wrong with a text that is not an item.
#[derive(Clone, Copy, Debug, PartialEq, Eq, Error)]
pub enum Problem {
    /// A name has a small letter.
    #[error("names are in capital letters")]
    SmallLetters,
    /// No token has a name, nor a word of the operator.
    #[error("no token has this name")]
    UnknownName,
    /// No token has a number.
    #[error("numbers are from -8192 to 8191")]
    OutOfRange,
    /// A number has another character.
    #[error("a number is decimal digits, with a minus sign if it is negative")]
    NotNumber,
    /// A token in digits has not four of them after `#`.
    #[error("a token in digits is # and four hexadecimal digits")]
    NotToken,
    /// Text is in double quotes.
    #[error("text is in single quotes")]
    DoubleQuote,
    /// A quote is not closed.
    #[error("the quote is not closed")]
    OpenQuote,
    /// A byte is above 7E.
    #[error("the character is not ASCII")]
    NotAscii,
    /// A character of a text in quotes is below 20 or is 7F.
    #[error("the character is not printable")]
    NotPrintable,
    /// It is none of these.
    #[error("an item is a bracket, a name, a number, a token in digits, or text in single quotes")]
    NotItem,
}

/// What is wrong, and the column of the first byte that is.
#[derive(Clone, Copy, Debug, PartialEq, Eq, Error)]
#[error("column {column}: {problem}")]
pub struct Reason {
    /// The column, counted from 1 in bytes.
    pub column: usize,
    pub problem: Problem,
}

/// Returns why the text at a column of a line, counted from 1, is not an item.
pub(crate) fn reason_at(line: &[u8], column: usize) -> Reason {
    let text = match line.get(column.saturating_sub(1)..) {
        Some(text) => text,
        None => &[],
    };
    let (problem, offset) = match text {
        [b'\'', characters @ ..] => quote_problem(characters),
        _ => word_problem(&text[..word_end(text)]),
    };
    Reason {
        column: column.saturating_add(offset),
        problem,
    }
}

/// Returns what is wrong with a text after its opening quote, and how far after that quote.
fn quote_problem(characters: &[u8]) -> (Problem, usize) {
    let Some(end) = quote_end(characters) else {
        return (Problem::OpenQuote, 0);
    };
    for (i, character) in characters[..end].iter().enumerate() {
        match *character {
            b' '..=b'~' => {}
            0x80.. => return (Problem::NotAscii, i + 1),
            _ => return (Problem::NotPrintable, i + 1),
        }
    }
    (Problem::NotItem, 0)
}

/// Returns what is wrong with a word, and how far after its first byte.
fn word_problem(word: &[u8]) -> (Problem, usize) {
    if let Some(i) = word.iter().position(|byte| *byte >= 0x80) {
        return (Problem::NotAscii, i);
    }
    let problem = match word {
        [b'"', ..] => Problem::DoubleQuote,
        [b'#', ..] | [b'0', b'x' | b'X', ..] => Problem::NotToken,
        [b'-', digits @ ..] => number_problem(digits),
        [b'0'..=b'9', ..] => number_problem(word),
        [b'+', ..] => Problem::NotNumber,
        _ => name_problem(word),
    };
    (problem, 0)
}

/// Returns what is wrong with the digits of a number.
fn number_problem(digits: &[u8]) -> Problem {
    if !digits.is_empty() && digits.iter().all(|digit| digit.is_ascii_digit()) {
        return Problem::OutOfRange;
    }
    Problem::NotNumber
}

/// Returns what is wrong with any other word.
fn name_problem(word: &[u8]) -> Problem {
    if word.iter().all(|letter| letter.is_ascii_uppercase()) {
        return Problem::UnknownName;
    }
    if word.iter().all(|letter| letter.is_ascii_alphabetic()) {
        return Problem::SmallLetters;
    }
    Problem::NotItem
}
