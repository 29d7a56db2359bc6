//! One line of text, parsed as the tokens of a message.

ghost use Rattle.std.specs.Prelude.{IfOk, IfErr};
ghost use Rattle.daide_causes.specs.Causes.{WasRefused};
ghost use Rattle.daide_words.specs.Word.{names_of};
ghost use Rattle.daide_words.specs.Words.{words_of};
ghost use Rattle.daide_text.specs.Line.{IsText};
ghost use Rattle.daide_text.specs.Pieces.{IsLineFault};

use crate::pieces::{PieceFault, take_piece};
use daide_causes::Growth;
use daide_token::Token;
use daide_words::Words;

/// Why a line has no tokens.
#[derive(Clone, Copy)]
pub enum LineFault {
    /// The text at this column, counted from 1 in bytes, is not an item.
    NotItem(usize),
    /// An allocation was refused.
    Memory,
}

/// Parses a line, without its end, as the tokens of a message: the inverse of `write_text_with` of `daide_token`.
///
/// # Errors
///
/// Fails with `NotItem` at the first byte of the first text that is not an item; for an unclosed quote this is the
/// quote itself. Fails with `Memory` only at an allocation that is refused.
pub fn read_tokens<A: Growth>(
    alloc: A,
    words: &Words,
    line: &[u8],
) -> Result<Vec<Token, A>, LineFault>
    ensures text { IfOk result (λ tokens. IsText (names_of (words_of words.now)) line.now tokens.items) }
    ensures refused { IfErr result (IsLineFault (WasRefused A.Refuses) (names_of (words_of words.now)) line.now) }
{
    let mut tokens = Vec::new(alloc);
    let mut rest = line;
    while !rest.is_empty() {
        rest = match take_piece(words, rest, &mut tokens) {
            Ok(after) => after,
            Err(PieceFault::NotItem) => return Err(LineFault::NotItem(line.len() - rest.len() + 1)),
            Err(PieceFault::Memory) => return Err(LineFault::Memory),
        };
    }
    Ok(tokens)
}
