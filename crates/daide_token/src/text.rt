//! The text form of tokens, for human readers.

ghost use Rattle.std.specs.Prelude.{List, OnOk, IfSome, IfNone, None, drop, [], ◌++◌, length, take, ◌∷◌, ◌%◌, ◌*◌, ◌+◌, ◌<◌, ◌≤◌, ◌≡◌};
ghost use Rattle.std.specs.Io.KnownBytes.{Appends};
ghost use Rattle.std.specs.Prelude.{unwrap_or};
ghost use Rattle.std.specs.Fmt.{decimal, signed_decimal};
ghost use Rattle.std.specs.Int.RustNames.{unsigned_abs};
ghost use Rattle.daide_token.specs.Names.{Named};
ghost use Rattle.daide_token.specs.Text.{added_name_of, hex_digit_of, hex_text, is_quotable, text_of, text_with, text_of_token};
ghost use Rattle.daide_token.specs.TextSteps.{before_character, before_item, end_text, place_after, place_past, some_text};
ghost use Rattle.daide_token.specs.TextSteps.{token_text};
ghost use Rattle.daide_token.specs.Token.{number_of, tokens_of};
ghost use Rattle.daide_token.specs.declared.text.PrinterState.TheVariants.{Quote, Word};

use crate::codes::{BRA, KET};
use crate::names::spaced_name;
use crate::token::Token;
use std::io;
use std::io::Write;

/// How many bytes of tokens `write_text_with` prints at a time.
const TOGETHER: usize = 60;

/// The size of the line buffer, in bytes. It holds the text of `TOGETHER` bytes: at most eight bytes a token.
const ROOM: usize = 256;

/// The category of brackets.
const BRACKETS: u8 = 0x40;

/// What was printed last.
#[derive(Clone, Copy)]
pub enum PrinterState {
    /// Nothing yet.
    Start,
    /// A token by itself.
    Word,
    /// A character; its run is still open.
    Quote,
}

/// The state of a text under construction in a line buffer.
#[derive(Clone, Copy)]
pub struct Printed {
    /// What was printed last.
    pub place: PrinterState,
    /// The number of bytes of text in the buffer.
    pub len: usize,
}

/// The result of printing a run of words.
#[derive(Clone, Copy)]
struct Run {
    /// The number of bytes of text in the buffer.
    len: usize,
    /// The number of bytes of tokens that were printed.
    count: usize,
}

/// Writes tokens, two bytes each with the high byte first, as text without a line end. `GOF ( 'a' #4a12 -1 )` has one
/// of each: a name, brackets, a run of characters, a token without a name, and a number. A failed write is the error.
///
/// `text`: what was written is the text form of the tokens, to the byte.
///
/// Premise: a writer that records its bytes.
///
/// Not said: how much was written before a failed write.
pub fn write_text<W: Write>(tokens: &[u8], writer: &mut W) -> Result<(), io::Error>
    requires { length tokens.now % 2 ≡ 0 }
    ensures text { OnOk result
        (Appends (W.contents writer.old) (W.contents writer.new) (text_of (tokens_of tokens.now))) }
{
    write_text_with(&[], tokens, writer)
}

/// Writes tokens as `write_text` does, but writes a token by its name in `added` if it would write the token's digits.
/// An entry of `added` is a token and its three letters; of several entries for one token the first counts.
pub fn write_text_with<W: Write>(
    added: &[(Token, [u8; 3])],
    tokens: &[u8],
    writer: &mut W,
) -> Result<(), io::Error>
    requires { length tokens.now % 2 ≡ 0 }
    ensures text { OnOk result
        (Appends (W.contents writer.old) (W.contents writer.new) (text_with added.now (tokens_of tokens.now))) }
{
    let mut line = [0; ROOM];
    let mut place = PrinterState::Start;
    let mut rest = tokens;
    'tokens: while !rest.is_empty() {
        let (some, more) = rest.split_at(rest.len().min(TOGETHER));
        let printed = put_tokens(added, some, &mut line, Printed { place, len: 0 });
        writer.write_all(&line[..printed.len])?;
        place = printed.place;
        rest = more;
    }
    writer.write_all(end_of(place))
}

/// Appends the text of some tokens of a message to the first bytes of a line. A token needs at most eight bytes.
pub fn put_tokens(
    added: &[(Token, [u8; 3])],
    tokens: &[u8],
    line: &mut [u8],
    from: Printed,
) -> Printed
    requires { from.len + 4 * length tokens.now ≤ length line.old }
    ensures text { take result.len line.new
        ≡ take from.len line.old ++ some_text added.now from.place (tokens_of tokens.now) }
    ensures place { result.place ≡ place_past from.place (tokens_of tokens.now) }
    ensures len { result.len ≤ from.len + 4 * length tokens.now }
{
    let mut printed = from;
    let mut rest = tokens;
    'tokens: while let [high, low, others @ ..] = rest {
        let token = Token::from_be([*high, *low]);
        let one = put_any(added, token, line, printed);
        let run = put_words_behind(others, line, one);
        let (_put, more) = others.split_at(run.count);
        printed = Printed {
            place: one.place,
            len: run.len,
        };
        rest = more;
    }
    printed
}

/// Returns what ends a text after its last token.
pub fn end_of(place: PrinterState) -> &'static [u8]
    ensures text { result.now ≡ end_text place }
    ensures few { length result.now ≤ 1 }
{
    match place {
        PrinterState::Start | PrinterState::Word => b"",
        PrinterState::Quote => b"'",
    }
}

/// Appends the words at the front of the tokens if they follow a word, which is the common case.
#[inline(always)]
fn put_words_behind(tokens: &[u8], line: &mut [u8], from: Printed) -> Run
    requires { from.len + 4 * length tokens.now ≤ length line.old }
    ensures text { (added : List Named) →
        take result.len line.new ++ some_text added from.place (tokens_of (drop result.count tokens.now))
        ≡ take from.len line.old ++ some_text added from.place (tokens_of tokens.now) }
    ensures place { place_past from.place (tokens_of (drop result.count tokens.now))
        ≡ place_past from.place (tokens_of tokens.now) }
    ensures count { result.count ≤ length tokens.now }
    ensures len { result.len ≤ from.len + 4 * result.count }
{
    match from.place {
        PrinterState::Word => put_words(tokens, line, from.len),
        PrinterState::Start | PrinterState::Quote => Run {
            len: from.len,
            count: 0,
        },
    }
}

/// Appends the words at the front of tokens that follow a word: brackets and names, each with a space before it.
fn put_words(tokens: &[u8], line: &mut [u8], from: usize) -> Run
    requires { from + 4 * length tokens.now ≤ length line.old }
    ensures text { (added : List Named) →
        take result.len line.new ++ some_text added Word (tokens_of (drop result.count tokens.now))
        ≡ take from line.old ++ some_text added Word (tokens_of tokens.now) }
    ensures place { place_past Word (tokens_of (drop result.count tokens.now))
        ≡ place_past Word (tokens_of tokens.now) }
    ensures count { result.count ≤ length tokens.now }
    ensures len { result.len ≤ from + 4 * result.count }
{
    let mut len = from;
    let mut count = 0;
    'words: while tokens.len() - count >= 2 {
        match put_if_word(tokens[count], tokens[count + 1], line, len) {
            None => return Run { len, count },
            Some(end) => {
                len = end;
                count += 2;
            }
        }
    }
    Run { len, count }
}

/// Appends the text of a token that follows a word, by its two bytes, if it is a bracket or has a name.
#[inline(always)]
fn put_if_word(category: u8, code: u8, line: &mut [u8], len: usize) -> Option<usize>
    requires { len + 8 ≤ length line.old }
    ensures text { IfSome result (λ end. (added : List Named) →
        take end line.new ≡ take len line.old ++ token_text added Word (category * 256 + code)) }
    ensures place { IfSome result (λ end. place_after (category * 256 + code) ≡ Word) }
    ensures len { IfSome result (λ end. end ≤ len + 8) }
    ensures unchanged { IfNone result (line.new ≡ line.old) }
{
    if category == BRACKETS {
        return put_if_bracket(code, line, len);
    }
    match spaced_name(category, code).as_bytes() {
        [space, a, b, c] => Some(put([*space, *a, *b, *c], line, len)),
        _ => None,
    }
}

/// Appends the text of a bracket that follows a word, by its code in category 40. Returns `None` for any other code.
#[inline(always)]
fn put_if_bracket(code: u8, line: &mut [u8], len: usize) -> Option<usize>
    requires { len + 8 ≤ length line.old }
    ensures text { IfSome result (λ end. (added : List Named) →
        take end line.new ≡ take len line.old ++ token_text added Word (0x4000 + code)) }
    ensures place { IfSome result (λ end. place_after (0x4000 + code) ≡ Word) }
    ensures len { IfSome result (λ end. end ≤ len + 8) }
    ensures unchanged { IfNone result (line.new ≡ line.old) }
{
    match code {
        0x00 => Some(put(*b" (", line, len)),
        0x01 => Some(put(*b" )", line, len)),
        _ => None,
    }
}

/// Appends bytes to the first `len` bytes of the line.
#[inline(always)]
fn put<const N: usize>(bytes: [u8; N], line: &mut [u8], len: usize) -> usize
    requires { len + N ≤ length line.old }
    ensures text { take result line.new ≡ take len line.old ++ bytes.entry }
    ensures len { result ≡ len + N }
{
    line[len..len + N].copy_from_slice(&bytes);
    len + N
}

/// Appends the text of any token, after whatever was printed last.
#[inline(never)]
fn put_any(added: &[(Token, [u8; 3])], token: Token, line: &mut [u8], from: Printed) -> Printed
    requires { from.len + 8 ≤ length line.old }
    ensures text { take result.len line.new ≡ take from.len line.old ++ token_text added.now from.place token }
    ensures place { result.place ≡ place_after token }
    ensures len { result.len ≤ from.len + 8 }
{
    if quotable(token) {
        return put_character(token, line, from);
    }
    let len = put_before_item(line, from);
    Printed {
        place: PrinterState::Word,
        len: put_by_itself(added, token, line, len),
    }
}

/// Appends a character, and opens its run unless one is open.
fn put_character(token: Token, line: &mut [u8], from: Printed) -> Printed
    requires { from.len + 8 ≤ length line.old }
    ensures text { take result.len line.new
        ≡ take from.len line.old ++ before_character from.place ++ (token % 256) ∷ [] }
    ensures place { result.place ≡ Quote }
    ensures len { result.len ≤ from.len + 8 }
{
    let len = put_before_character(line, from);
    let [_category, character] = token.to_be();
    Printed {
        place: PrinterState::Quote,
        len: put([character], line, len),
    }
}

/// Opens a run, with the space before it, unless one is open.
fn put_before_character(line: &mut [u8], from: Printed) -> usize
    requires { from.len + 8 ≤ length line.old }
    ensures text { take result line.new ≡ take from.len line.old ++ before_character from.place }
    ensures len { result ≤ from.len + 2 }
{
    match from.place {
        PrinterState::Start => put(*b"'", line, from.len),
        PrinterState::Word => put(*b" '", line, from.len),
        PrinterState::Quote => from.len,
    }
}

/// Returns whether a token is a character that can be inside quotes.
fn quotable(token: Token) -> bool
    ensures { result ≡ is_quotable token }
{
    matches!(token.to_be(), [0x4B, 0x20..=0x26 | 0x28..=0x7E])
}

/// Closes the open run, if any, and appends the space before the next item.
fn put_before_item(line: &mut [u8], from: Printed) -> usize
    requires { from.len + 8 ≤ length line.old }
    ensures text { take result line.new ≡ take from.len line.old ++ before_item from.place }
    ensures len { result ≤ from.len + 2 }
{
    match from.place {
        PrinterState::Start => from.len,
        PrinterState::Word => put(*b" ", line, from.len),
        PrinterState::Quote => put(*b"' ", line, from.len),
    }
}

/// Appends a token by itself.
fn put_by_itself(added: &[(Token, [u8; 3])], token: Token, line: &mut [u8], len: usize) -> usize
    requires { len + 6 ≤ length line.old }
    ensures text { take result line.new ≡ take len line.old ++ text_of_token added.now token }
    ensures len { result ≤ len + 6 }
{
    match token.number() {
        Some(number) => put_number(number, line, len),
        None => put_no_number(added, token, line, len),
    }
}

/// Appends a token by itself that is not a number.
fn put_no_number(added: &[(Token, [u8; 3])], token: Token, line: &mut [u8], len: usize) -> usize
    requires room { len + 6 ≤ length line.old }
    requires word { number_of token ≡ None }
    ensures text { take result line.new ≡ take len line.old ++ text_of_token added.now token }
    ensures len { result ≤ len + 6 }
{
    match token.code() {
        BRA => put(*b"(", line, len),
        KET => put(*b")", line, len),
        _ => match token.name() {
            Some(name) => put_name(name, line, len),
            None => put_unnamed(added, token, line, len),
        },
    }
}

/// Appends a name of three letters.
fn put_name(name: &str, line: &mut [u8], len: usize) -> usize
    requires room { len + 6 ≤ length line.old }
    requires three { length name.now ≡ 3 }
    ensures text { take result line.new ≡ take len line.old ++ name.now }
    ensures len { result ≤ len + 6 }
{
    let [a, b, c] = name.as_bytes() else {
        unreachable!();
    };
    put([*a, *b, *c], line, len)
}

/// Appends a token that the protocol doesn't name: by its first entry among the added names, or else as its digits.
fn put_unnamed(added: &[(Token, [u8; 3])], token: Token, line: &mut [u8], len: usize) -> usize
    requires { len + 6 ≤ length line.old }
    ensures text { take result line.new
        ≡ take len line.old ++ unwrap_or (added_name_of added.now token) (hex_text token) }
    ensures len { result ≤ len + 6 }
{
    match added_name_of(added, token) {
        Some(name) => put(name, line, len),
        None => put_hex(token, line, len),
    }
}

/// Returns the name of a token by its first entry among the added names, if it has one.
fn added_name_of(added: &[(Token, [u8; 3])], token: Token) -> Option<[u8; 3]>
    ensures { result ≡ added_name_of added.now token }
{
    let code = token.code();
    let entry = added.iter().find(|entry| entry.0.code() == code)?;
    let name = entry.1;
    Some(name)
}

/// Appends `#` and the four digits of a token.
fn put_hex(token: Token, line: &mut [u8], len: usize) -> usize
    requires { len + 6 ≤ length line.old }
    ensures text { take result line.new ≡ take len line.old ++ hex_text token }
    ensures len { result ≤ len + 6 }
{
    let code = token.code();
    let digits = [
        b'#',
        hex_digit(code / 4096),
        hex_digit(code / 256 % 16),
        hex_digit(code / 16 % 16),
        hex_digit(code % 16),
    ];
    put(digits, line, len)
}

fn hex_digit(value: u16) -> u8
    requires { value < 16 }
    ensures { result ≡ hex_digit_of value }
{
    b"0123456789abcdef"[value as usize]
}

/// Appends a number of at most four digits, after a sign if it is negative.
fn put_number(number: i16, line: &mut [u8], len: usize) -> usize
    requires room { len + 6 ≤ length line.old }
    requires small { unsigned_abs number < 10000 }
    ensures text { take result line.new ≡ take len line.old ++ signed_decimal number }
    ensures len { result ≤ len + 6 }
{
    let value = number.unsigned_abs();
    if number < 0 {
        let digits = put(*b"-", line, len);
        return put_digits(value, line, digits);
    }
    put_digits(value, line, len)
}

/// Appends the decimal digits of a number.
fn put_digits(value: u16, line: &mut [u8], len: usize) -> usize
    requires { len + length (decimal value) ≤ length line.old }
    ensures text { take result line.new ≡ take len line.old ++ decimal value }
    ensures len { result ≡ len + length (decimal value) }
{
    if value < 10 {
        return put([b'0' + value as u8], line, len);
    }
    let front = put_digits(value / 10, line, len);
    put([b'0' + (value % 10) as u8], line, front)
}
