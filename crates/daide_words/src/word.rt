//! A word that an operator adds, and the reasons to refuse one.

use crate::operand::Operand;
use crate::slot::Slot;
use daide_grammar::level::Level;
use daide_token::token::Token;

/// A word of press that an operator adds to the grammar.
#[derive(Clone, Copy, Debug, PartialEq, Eq)]
pub struct Word {
    /// Three letters from A to Z, the printed name.
    pub name: [u8; 3],
    /// Its token, 4A00 to 4AFF hexadecimal.
    pub code: Token,
    /// What it forms with its operand.
    pub slot: Slot,
    /// The lowest level at which it is allowed.
    pub level: Level,
    /// Its operand, in brackets.
    pub operand: Operand,
}

/// What a word forms, from which level on, and with which operand.
#[derive(Clone, Copy)]
pub(crate) struct WordMeaning {
    pub(crate) slot: Slot,
    pub(crate) level: Level,
    pub(crate) operand: Operand,
}

/// Why a word is refused, in the order of the checks.
#[derive(Clone, Copy, Debug, PartialEq, Eq)]
pub enum WordError {
    /// There are sixteen words already.
    Full,
    /// The name isn't three letters from A to Z, or belongs to the protocol or to an earlier word.
    Name,
    /// The code isn't one of 4A00 to 4AFF, is a token of the protocol, is one of the barred 4A0D, 4A12 and 4A1B, or
    /// belongs to an earlier word.
    Code,
    /// The level is 0, which has no press.
    Level,
    /// An arrangement can't contain a press.
    Operand,
}
