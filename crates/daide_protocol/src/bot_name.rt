//! What a bot calls itself: the name of its NME, or the power of its IAM.

ghost use Rattle.std.specs.Prelude.{◌≡◌, ◌+◌, ◌≤◌, ◌*◌, ◌++◌, [], length, take, map, Some};
ghost use Rattle.daide_token.specs.Token.{tokens_of};
ghost use Rattle.daide_token.specs.Text.{text_with};
ghost use Rattle.daide_token.specs.TextSteps.{some_text, place_past};
ghost use Rattle.daide_protocol.specs.BotName.{characters, kept, most_kept, name_in, token_of_character, name_text, text_room};

use daide_token::{Printed, PrinterState, Token, end_of, put_tokens};
use std::{fmt, str};

/// NME ( name ) ( version ).
const NME: u16 = 0x480C;

/// IAM ( power ) ( passcode ).
pub(crate) const IAM: u16 = 0x4807;

/// The category of characters.
const CHARACTERS: u8 = 0x4B;

/// The most characters of a name that are kept.
pub const MOST_KEPT: usize = 32;

/// The size of a line that has room for the text of any name: at most eight bytes a token, and three after them.
pub const TEXT_ROOM: usize = 272;

/// What is kept of a name: its first characters, at most 32.
#[derive(Clone, Copy, Debug, PartialEq, Eq)]
pub struct NameText {
    /// The characters, with zeros after them if there are fewer.
    bytes: [u8; MOST_KEPT],
    /// The number of characters; 33 if the name has more than 32.
    len: u8,
}

/// What a bot calls itself.
#[derive(Clone, Copy, Debug, PartialEq, Eq)]
pub enum BotName {
    /// No NME and no IAM of it was relayed.
    Unknown,
    /// The first text of its NME.
    Nme(NameText),
    /// The power of its IAM.
    Iam(Token),
}

impl NameText {
    /// Returns what is kept of the text at the front of some tokens.
    fn at_front(tokens: &[u8]) -> NameText
        ensures { result ≡ kept (characters (tokens_of tokens.now)) }
    {
        let mut bytes = [0; MOST_KEPT];
        let mut len = 0;
        let mut rest = tokens;
        'characters: while let [high, low, others @ ..] = rest {
            let [category, character] = Token::from_be([*high, *low]).to_be();
            if category != CHARACTERS {
                return NameText {
                    bytes,
                    len: len as u8,
                };
            }
            if len == MOST_KEPT {
                return NameText {
                    bytes,
                    len: len as u8 + 1,
                };
            }
            bytes[len] = character;
            len += 1;
            rest = others;
        }
        NameText {
            bytes,
            len: len as u8,
        }
    }

    /// Returns the characters that are kept.
    fn characters(&self) -> &[u8]
        ensures shown { result.now ≡ take self.now.len self.now.bytes }
        ensures few { length result.now ≤ most_kept }
    {
        let count = usize::from(self.len).min(MOST_KEPT);
        &self.bytes[..count]
    }

    /// Writes the text of an NME with this name.
    fn put(&self, line: &mut [u8]) -> usize
        requires { text_room ≤ length line.old }
        ensures text { take result line.new ≡ name_text (BotName.Nme self.now) }
        ensures len { result ≤ text_room }
    {
        let command = put_tokens(&[], &NME.to_be_bytes(), line, START);
        let printed = put_characters(self.characters(), line, command);
        let end = put(end_of(printed.place), line, printed.len);
        if usize::from(self.len) > MOST_KEPT {
            return put(b"..", line, end);
        }
        end
    }
}

impl BotName {
    /// Returns the name in a message, if it is an NME or an IAM.
    #[inline(always)]
    pub(crate) fn in_message(body: &[u8]) -> Option<BotName>
        ensures { result ≡ name_in (tokens_of body.now) }
    {
        let [first, second, _, _, high, low, ..] = body else {
            return None;
        };
        match Token::from_be([*first, *second]).code() {
            NME => Some(BotName::Nme(NameText::at_front(&body[4..]))),
            IAM => Some(BotName::Iam(Token::from_be([*high, *low]))),
            _ => None,
        }
    }

    /// Writes the text of the name to the first bytes of a line, and returns its length. The text has printable
    /// characters alone: every other one is written as the four digits of its token after `#`, as the text form of
    /// messages does.
    pub fn put_text(&self, line: &mut [u8]) -> usize
        requires { text_room ≤ length line.old }
        ensures text { take result line.new ≡ name_text self.now }
        ensures len { result ≤ text_room }
    {
        match self {
            BotName::Unknown => 0,
            BotName::Nme(text) => text.put(line),
            BotName::Iam(power) => put_power(*power, line),
        }
    }
}

/// Nothing is printed yet.
const START: Printed = Printed {
    place: PrinterState::Start,
    len: 0,
};

/// Appends bytes to the first `len` bytes of a line.
fn put(bytes: &[u8], line: &mut [u8], len: usize) -> usize
    requires { len + length bytes.now ≤ length line.old }
    ensures text { take result line.new ≡ take len line.old ++ bytes.now }
    ensures len { result ≡ len + length bytes.now }
{
    let end = len + bytes.len();
    line[len..end].copy_from_slice(bytes);
    end
}

/// Writes the text of some tokens.
pub(crate) fn put_whole(tokens: &[u8], line: &mut [u8]) -> usize
    requires { 4 * length tokens.now + 1 ≤ length line.old }
    ensures text { take result line.new ≡ text_with [] (tokens_of tokens.now) }
    ensures len { result ≤ 4 * length tokens.now + 1 }
{
    let printed = put_tokens(&[], tokens, line, START);
    put(end_of(printed.place), line, printed.len)
}

/// Appends characters to the text in a line.
fn put_characters(characters: &[u8], line: &mut [u8], from: Printed) -> Printed
    requires { from.len + 8 * length characters.now ≤ length line.old }
    ensures text { take result.len line.new
        ≡ take from.len line.old ++ some_text [] from.place (map token_of_character characters.now) }
    ensures place { result.place ≡ place_past from.place (map token_of_character characters.now) }
    ensures len { result.len ≤ from.len + 8 * length characters.now }
{
    let mut printed = from;
    let mut rest = characters;
    'characters: while let [character, others @ ..] = rest {
        printed = put_tokens(&[], &[CHARACTERS, *character], line, printed);
        rest = others;
    }
    printed
}

/// Writes the text of an IAM with this power.
fn put_power(power: Token, line: &mut [u8]) -> usize
    requires { text_room ≤ length line.old }
    ensures text { take result line.new ≡ name_text (BotName.Iam power) }
    ensures len { result ≤ text_room }
{
    let [command, code] = IAM.to_be_bytes();
    let [high, low] = power.to_be();
    put_whole(&[command, code, high, low], line)
}

impl fmt::Display for BotName {
    ghost output = { λ name. Some (name_text name) };

    fn fmt<W: fmt::Write>(&self, f: &mut fmt::Formatter<W>) -> fmt::Result {
        let mut line = [0; TEXT_ROOM];
        let len = self.put_text(&mut line);
        match str::from_utf8(&line[..len]) {
            Ok(text) => f.write_str(text),
            Err(_) => Err(fmt::Error),
        }
    }
}
