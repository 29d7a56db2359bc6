//! Words of a row: repetition counts, and an operator's words.

use daide_grammar::level::Level;
use daide_token::token::Token;
use daide_words::{Operand, Slot, Word, Words};

/// Returns two words: XYZ is a press of a power from level 20 on, QQQ an arrangement of an arrangement from level 30
/// on.
pub fn two_words() -> Words {
    let mut words = Words::new();
    let _ = words.add(Word {
        name: *b"XYZ",
        code: Token::from_code(0x4A40),
        slot: Slot::Press,
        level: Level::L20,
        operand: Operand::Power,
    });
    let _ = words.add(Word {
        name: *b"QQQ",
        code: Token::from_code(0x4A41),
        slot: Slot::Arrangement,
        level: Level::L30,
        operand: Operand::Arrangement,
    });
    words
}

/// Splits a word from its repetition count: `62*4000` is 62 times 4000. Without a count it is 1.
pub fn counted(word: &str) -> (usize, &str) {
    match word.split_once('*') {
        Some((count, word)) => (count.parse().unwrap_or(0), word),
        None => (1, word),
    }
}
