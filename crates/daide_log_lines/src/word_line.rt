//! The lines of a match's log that add the operator's words.

ghost use Rattle.std.specs.Prelude.{◌≡◌};
ghost use Rattle.daide_words.specs.WordNames.{slot_named, operand_named, word_of_parts};
ghost use Rattle.daide_log_lines.specs.LogLine.{plain_number};
ghost use Rattle.daide_log_lines.specs.WordLine.{parse_name, parse_code, parse_level, word_of_line};

use crate::parts::{parted_at_space, plain_number};
use daide_grammar::level::Level;
use daide_token::Token;
use daide_words::{Operand, Slot, Word};

/// Parses a name of three bytes.
fn name_of(name: &[u8]) -> Option<[u8; 3]>
    ensures { result ≡ parse_name name.now }
{
    match name {
        [first, second, third] => Some([*first, *second, *third]),
        _ => None,
    }
}

/// Parses a token of four hexadecimal digits.
fn code_of(digits: &[u8]) -> Option<Token>
    ensures { result ≡ parse_code digits.now }
{
    if digits.len() != 4 {
        return None;
    }
    let mut bytes = [0; 2];
    match hex::decode_to_slice(digits, &mut bytes) {
        Ok(()) => Some(Token::from_be(bytes)),
        Err(_) => None,
    }
}

/// Parses the number of a level.
fn level_of(digits: &[u8]) -> Option<Level>
    ensures { result ≡ parse_level digits.now }
{
    Level::of(plain_number(digits)?)
}

/// Parses the parts of a word's line. Returns `None` if any of them is wrong.
fn word_of(name: &[u8], code: &[u8], slot: &[u8], level: &[u8], operand: &[u8]) -> Option<Word>
    ensures { result ≡ word_of_parts (parse_name name.now) (parse_code code.now) (slot_named slot.now) (parse_level level.now)
        (operand_named operand.now) }
{
    Some(Word {
        name: name_of(name)?,
        code: code_of(code)?,
        slot: Slot::by_name(slot)?,
        level: level_of(level)?,
        operand: Operand::by_name(operand)?,
    })
}

/// Parses the line of a word. Returns `None` if it has another form.
#[tactic(auto, unfolding(crate::specs::WordLine::word_of_line))]
pub fn read_word(line: &[u8]) -> Option<Word>
    ensures { result ≡ word_of_line line.now }
{
    let rest = line.strip_prefix(b"word ")?;
    let (name, rest) = parted_at_space(rest)?;
    let (code, rest) = parted_at_space(rest)?;
    let (slot, rest) = parted_at_space(rest)?;
    let (level, operand) = parted_at_space(rest)?;
    word_of(name, code, slot, level, operand)
}
