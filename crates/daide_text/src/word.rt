//! Words: numbers, names and hexadecimal digits.

ghost use Rattle.std.specs.Prelude.{◌≡◌, ◌<◌, ◌≤◌, true, IfSome};
ghost use Rattle.std.specs.List.{list_all};
ghost use Rattle.daide_token.specs.Names.{token_named};
ghost use Rattle.daide_words.specs.Accepted.{is_capital};
ghost use Rattle.daide_words.specs.Word.{names_of};
ghost use Rattle.daide_words.specs.Words.{words_of};
ghost use Rattle.daide_text.specs.Word.{added_token, greatest_magnitude, hex_value, magnitude, token_of_decimal};
ghost use Rattle.daide_text.specs.Word.{token_of_hex, token_of_name, token_of_word};

use daide_token::Token;
use daide_words::Words;
use std::str;

/// The greatest value that another digit may follow: a token has no number of 10,000 or more.
const MOST_BEFORE_A_DIGIT: u16 = 999;

/// Parses a word as a token: four digits after `#`, a number after a digit or a minus sign, else a name.
pub(crate) fn token_of_word(words: &Words, word: &[u8]) -> Option<Token>
    ensures { result ≡ token_of_word (names_of (words_of words.now)) word.now }
{
    match word {
        [] => None,
        [b'#', digits @ ..] => token_of_hex(digits),
        [b'-' | b'0'..=b'9', ..] => token_of_decimal(word),
        _ => token_of_name(words, word),
    }
}

/// Parses four hexadecimal digits.
fn token_of_hex(digits: &[u8]) -> Option<Token>
    ensures { result ≡ token_of_hex digits.now }
{
    let [a, b, c, d] = digits else {
        return None;
    };
    let a = hex_value(*a)?;
    let b = hex_value(*b)?;
    let c = hex_value(*c)?;
    let d = hex_value(*d)?;
    Some(Token::from_code(a * 4096 + b * 256 + c * 16 + d))
}

/// Parses one hexadecimal digit.
fn hex_value(digit: u8) -> Option<u16>
    ensures value { result ≡ hex_value digit }
    ensures bound { IfSome result (λ value. value < 16) }
{
    match digit {
        b'0'..=b'9' => Some(u16::from(digit - b'0')),
        b'A'..=b'F' => Some(u16::from(digit - b'A' + 10)),
        b'a'..=b'f' => Some(u16::from(digit - b'a' + 10)),
        _ => None,
    }
}

/// Parses decimal digits, with an optional minus sign.
fn token_of_decimal(word: &[u8]) -> Option<Token>
    ensures { result ≡ token_of_decimal word.now }
{
    if let [b'-', digits @ ..] = word {
        let value = magnitude(digits)?;
        return Token::of_number(-(value as i16));
    }
    let value = magnitude(word)?;
    Token::of_number(value as i16)
}

/// Parses decimal digits as a number of at most 9,999.
fn magnitude(digits: &[u8]) -> Option<u16>
    ensures value { result ≡ magnitude digits.now }
    ensures bound { IfSome result (λ value. value ≤ greatest_magnitude) }
{
    if digits.is_empty() {
        return None;
    }
    let mut value: u16 = 0;
    let mut rest = digits;
    while let [digit, others @ ..] = rest {
        if !digit.is_ascii_digit() {
            return None;
        }
        if value > MOST_BEFORE_A_DIGIT {
            return None;
        }
        value = value * 10 + u16::from(*digit - b'0');
        rest = others;
    }
    Some(value)
}

/// Parses a name in capital letters: one of the protocol's, else an added one.
fn token_of_name(words: &Words, name: &[u8]) -> Option<Token>
    ensures { result ≡ token_of_name (names_of (words_of words.now)) name.now }
{
    if !are_capitals(name) {
        return None;
    }
    match protocol_token(name) {
        Some(token) => Some(token),
        None => added_token(words.names(), name),
    }
}

/// Returns whether all letters are from A to Z.
fn are_capitals(name: &[u8]) -> bool
    ensures { result ≡ list_all is_capital name.now }
{
    name.iter().all(|letter| letter.is_ascii_uppercase())
}

/// Parses a name of the protocol.
fn protocol_token(name: &[u8]) -> Option<Token>
    requires { list_all is_capital name.now ≡ true }
    ensures { result ≡ token_named name.now }
{
    match str::from_utf8(name) {
        Ok(name) => Token::by_name(name),
        Err(_) => None,
    }
}

/// Returns the token of the first entry with this name.
fn added_token(added: &[(Token, [u8; 3])], name: &[u8]) -> Option<Token>
    ensures { result ≡ added_token added.now name.now }
{
    let entry = added.iter().find(|entry| entry.1.as_slice() == name)?;
    let token = entry.0;
    Some(token)
}
