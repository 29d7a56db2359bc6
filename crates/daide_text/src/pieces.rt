//! The pieces of a line, one at a time.

ghost use Rattle.std.specs.Prelude.{◌≡◌, ◌<◌, ◌≤◌, [], ◌∷◌, ◌++◌, true, false, List, length, take, drop, map};
ghost use Rattle.std.specs.Prelude.{IfOk, OnOk, Err, MatchOption};
ghost use Rattle.std.specs.List.{list_all};
ghost use Rattle.daide_causes.specs.Causes.{WasRefused};
ghost use Rattle.daide_token.specs.Names.{Named};
ghost use Rattle.daide_words.specs.Word.{names_of};
ghost use Rattle.daide_words.specs.Words.{words_of};
ghost use Rattle.daide_text.specs.Line.{begins_in_word, character_token, is_in_quote, is_in_word, is_printable};
ghost use Rattle.daide_text.specs.Pieces.{EndsQuote, IsRefusedPiece, IsTakenPiece};

use crate::word::token_of_word;
use daide_causes::Growth;
use daide_token::{BRA, KET, Token};
use daide_words::Words;

/// The token of the character 0.
const CHARACTERS: u16 = 0x4B00;

/// Why a piece is refused.
#[derive(Clone, Copy)]
pub(crate) enum PieceFault {
    /// It is not an item.
    NotItem,
    /// An allocation was refused.
    Memory,
}

/// Parses the first piece of the rest of a line, appends its tokens, and returns the text after it.
pub(crate) fn take_piece<'a, A: Growth>(
    words: &Words,
    rest: &'a [u8],
    tokens: &mut Vec<Token, A>,
) -> Result<&'a [u8], PieceFault>
    requires { 0 < length rest.now }
    ensures taken { IfOk result (λ after. IsTakenPiece (names_of (words_of words.now)) rest.now after.now
        tokens.old.items tokens.new.items) }
    ensures refused { result ≡ Err PieceFault.NotItem → IsRefusedPiece (names_of (words_of words.now)) rest.now }
    ensures memory { result ≡ Err PieceFault.Memory → WasRefused A.Refuses }
{
    let [first, after @ ..] = rest else {
        unreachable!();
    };
    match *first {
        b' ' | b'\t' => Ok(after),
        b'(' => {
            append(Token::from_code(BRA), tokens)?;
            Ok(after)
        }
        b')' => {
            append(Token::from_code(KET), tokens)?;
            Ok(after)
        }
        b'\'' => take_quote(after, tokens),
        _ => take_word(words, rest, tokens),
    }
}

/// Parses the word at the start of the rest of a line.
fn take_word<'a, A: Growth>(
    words: &Words,
    rest: &'a [u8],
    tokens: &mut Vec<Token, A>,
) -> Result<&'a [u8], PieceFault>
    requires { begins_in_word rest.now ≡ true }
    ensures taken { IfOk result (λ after. IsTakenPiece (names_of (words_of words.now)) rest.now after.now
        tokens.old.items tokens.new.items) }
    ensures refused { result ≡ Err PieceFault.NotItem → IsRefusedPiece (names_of (words_of words.now)) rest.now }
    ensures memory { result ≡ Err PieceFault.Memory → WasRefused A.Refuses }
{
    let end = word_end(rest);
    let Some(token) = token_of_word(words, &rest[..end]) else {
        return Err(PieceFault::NotItem);
    };
    append(token, tokens)?;
    Ok(&rest[end..])
}

/// Parses the text after a quote, up to the next quote.
fn take_quote<'a, A: Growth>(
    rest: &'a [u8],
    tokens: &mut Vec<Token, A>,
) -> Result<&'a [u8], PieceFault>
    ensures taken { (added : List Named) → IfOk result (λ after. IsTakenPiece added (39 ∷ rest.now) after.now
        tokens.old.items tokens.new.items) }
    ensures refused { result ≡ Err PieceFault.NotItem → (added : List Named) → IsRefusedPiece added (39 ∷ rest.now) }
    ensures memory { result ≡ Err PieceFault.Memory → WasRefused A.Refuses }
{
    let Some(end) = quote_end(rest) else {
        return Err(PieceFault::NotItem);
    };
    if !are_printable(&rest[..end]) {
        return Err(PieceFault::NotItem);
    }
    append_characters(&rest[..end], tokens)?;
    Ok(&rest[end + 1..])
}

/// Appends a token.
fn append<A: Growth>(token: Token, tokens: &mut Vec<Token, A>) -> Result<(), PieceFault>
    ensures appended { OnOk result (tokens.new.items ≡ tokens.old.items ++ token ∷ []) }
    ensures refused { result ≡ Err PieceFault.NotItem → ⊥ }
    ensures memory { result ≡ Err PieceFault.Memory → WasRefused A.Refuses }
{
    match A::append(tokens, &[token]) {
        Ok(()) => Ok(()),
        Err(_) => Err(PieceFault::Memory),
    }
}

/// Appends the tokens of characters.
fn append_characters<A: Growth>(
    characters: &[u8],
    tokens: &mut Vec<Token, A>,
) -> Result<(), PieceFault>
    ensures appended { OnOk result (tokens.new.items ≡ tokens.old.items ++ map character_token characters.now) }
    ensures refused { result ≡ Err PieceFault.NotItem → ⊥ }
    ensures memory { result ≡ Err PieceFault.Memory → WasRefused A.Refuses }
{
    let mut rest = characters;
    while let [character, others @ ..] = rest {
        append(Token::from_code(CHARACTERS + u16::from(*character)), tokens)?;
        rest = others;
    }
    Ok(())
}

/// Returns whether all characters are from space to tilde.
fn are_printable(characters: &[u8]) -> bool
    ensures { result ≡ list_all is_printable characters.now }
{
    characters
        .iter()
        .all(|character| matches!(*character, b' '..=b'~'))
}

/// Returns the length of the word at the start of the bytes.
pub(crate) fn word_end(bytes: &[u8]) -> usize
    ensures within { result ≤ length bytes.now }
    ensures word { list_all is_in_word (take result bytes.now) ≡ true }
    ensures end { begins_in_word (drop result bytes.now) ≡ false }
{
    let mut end = 0;
    while end < bytes.len() && is_in_word(bytes[end]) {
        end += 1;
    }
    end
}

/// Returns whether a byte is neither a blank nor a bracket nor a quote.
fn is_in_word(byte: u8) -> bool
    ensures { result ≡ is_in_word byte }
{
    !matches!(byte, b' ' | b'\t' | b'(' | b')' | b'\'')
}

/// Returns the number of bytes before the first quote, if there is one.
pub(crate) fn quote_end(bytes: &[u8]) -> Option<usize>
    ensures { MatchOption result (list_all is_in_quote bytes.now ≡ true) (λ end. EndsQuote end bytes.now) }
{
    for end in 0..bytes.len() {
        if bytes[end] == b'\'' {
            return Some(end);
        }
    }
    None
}
