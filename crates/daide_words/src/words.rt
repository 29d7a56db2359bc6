//! The words of an operator, in an array of fixed size.

ghost use Rattle.std.specs.Prelude.{◌≡◌, ◌≤◌, ◌<◌, true, false, ◌==◌, [], ◌∷◌, ◌++◌, take, length};
ghost use Rattle.std.specs.Prelude.{OnOk, OnErr, IfSome, is_some, bytes_eq};
ghost use Rattle.std.specs.List.{list_all, list_any};
ghost use Rattle.daide_token.specs.Names.{token_named};
ghost use Rattle.daide_grammar.specs.Words.{most_words};
ghost use Rattle.daide_words.specs.Word.{names_of, words_with};
ghost use Rattle.daide_words.specs.Table.Places.{place_from};
ghost use Rattle.daide_words.specs.Accepted.{are_accepted, is_capital, is_free_code, is_free_name, word_fault};

use crate::operand::Operand;
use crate::slot::Slot;
use crate::word::{Word, WordError, WordMeaning};
use daide_grammar::level::Level;
use daide_grammar::numbers::WORD_COUNT;
use daide_token::token::Token;
use std::str;

/// The maximum number of words that an operator may add.
pub const MAX_WORDS: usize = WORD_COUNT;

/// Words that an operator added, each accepted after the ones before it.
#[derive(Clone, Copy)]
pub struct Words {
    names: [(Token, [u8; 3]); MAX_WORDS],
    meanings: [WordMeaning; MAX_WORDS],
    count: u8,
    ghost few: { count ≤ most_words },
    ghost accepted: { are_accepted (words_with (take count names) (take count meanings)) ≡ true },
}

impl Words {
    ghost use Rattle.daide_words.specs.Words.{word_at, words_of};

    /// Creates an empty list of words.
    pub fn new() -> Words
        ensures { words_of result ≡ [] }
    {
        Words {
            names: [(Token::from_code(0), [0; 3]); MAX_WORDS],
            meanings: [WordMeaning {
                slot: Slot::Press,
                level: Level::L0,
                operand: Operand::Power,
            }; MAX_WORDS],
            count: 0,
        }
    }

    /// Adds a word after the others, or returns its first fault. The faults are, in order, that sixteen words are
    /// there, and a wrong name, code, level or operand (`word_fault`). After a fault nothing changes.
    pub fn add(&mut self, word: Word) -> Result<(), WordError>
        ensures fault { result ≡ word_fault (names_of (words_of self.old)) word }
        ensures added { OnOk result (words_of self.new ≡ words_of self.old ++ word ∷ []) }
        ensures unchanged { OnErr result (self.new ≡ self.old) }
    {
        check(self.names(), &word)?;
        let place = self.count as usize;
        let name = word.name;
        self.names[place] = (word.code, name);
        self.meanings[place] = WordMeaning {
            slot: word.slot,
            level: word.level,
            operand: word.operand,
        };
        self.count += 1;
        Ok(())
    }

    /// Returns the word at an index, counted from 0.
    pub fn get(&self, place: usize) -> Option<Word>
        ensures { result ≡ word_at place (words_of self.now) }
    {
        if place >= self.names().len() {
            return None;
        }
        let named = self.names[place];
        let code = named.0;
        let name = named.1;
        let meaning = self.meanings[place];
        Some(Word {
            name,
            code,
            slot: meaning.slot,
            level: meaning.level,
            operand: meaning.operand,
        })
    }

    /// Proof hook: establishes for callers that each word was accepted after the ones before it. No effect at run time.
    pub fn are_accepted(&self)
        ensures { are_accepted (words_of self.now) ≡ true }
    {}

    /// Returns each word's code and name, in the order in which the words were added.
    pub fn names(&self) -> &[(Token, [u8; 3])]
        ensures names { result.now ≡ names_of (words_of self.now) }
        ensures few { length result.now ≤ most_words }
    {
        &self.names[..self.count as usize]
    }
}

/// Returns the index of the first entry with a token.
pub(crate) fn place_in(names: &[(Token, [u8; 3])], token: Token) -> Option<u8>
    requires { length names.now ≤ most_words }
    ensures place { result ≡ place_from 0 names.now token }
    ensures few { IfSome result (λ place. place < most_words) }
{
    let code = token.code();
    let mut place = 0;
    let mut rest = names;
    while let [entry, others @ ..] = rest {
        if entry.0.code() == code {
            return Some(place);
        }
        place += 1;
        rest = others;
    }
    None
}

/// Checks a word that is to follow words with these codes and names. Returns the first error of the order of
/// `WordError`.
fn check(taken: &[(Token, [u8; 3])], word: &Word) -> Result<(), WordError>
    ensures { result ≡ word_fault taken.now word.now }
{
    if taken.len() >= MAX_WORDS {
        return Err(WordError::Full);
    }
    let name = word.name;
    if !is_free_name(taken, name) {
        return Err(WordError::Name);
    }
    if !is_free_code(taken, word.code) {
        return Err(WordError::Code);
    }
    if word.level == Level::L0 {
        return Err(WordError::Level);
    }
    if word.slot == Slot::Arrangement && word.operand == Operand::Press {
        return Err(WordError::Operand);
    }
    Ok(())
}

/// Returns whether a name is three capital letters, and belongs neither to the protocol nor to an earlier word.
fn is_free_name(taken: &[(Token, [u8; 3])], name: [u8; 3]) -> bool
    ensures { result ≡ is_free_name taken.now name }
{
    are_capitals(name) && !is_named(name) && !has_name(taken, name)
}

fn are_capitals(name: [u8; 3]) -> bool
    ensures { result ≡ list_all is_capital name }
{
    name.iter().all(|letter| letter.is_ascii_uppercase())
}

fn has_name(taken: &[(Token, [u8; 3])], name: [u8; 3]) -> bool
    ensures { result ≡ list_any (λ entry. bytes_eq entry.1 name) taken.now }
{
    taken.iter().any(|entry| entry.1 == name)
}

fn has_code(taken: &[(Token, [u8; 3])], code: u16) -> bool
    ensures { result ≡ list_any (λ entry. entry.0 == code) taken.now }
{
    taken.iter().any(|entry| entry.0.code() == code)
}

/// Returns whether the protocol has a token with this name.
fn is_named(name: [u8; 3]) -> bool
    requires { list_all is_capital name ≡ true }
    ensures { result ≡ is_some (token_named name) }
{
    match str::from_utf8(&name) {
        Ok(name) => Token::by_name(name).is_some(),
        Err(_) => false,
    }
}

/// Returns whether a code is of category 4A and neither a token of the protocol, nor barred, nor in an entry.
fn is_free_code(taken: &[(Token, [u8; 3])], token: Token) -> bool
    ensures { result ≡ is_free_code taken.now token }
{
    let code = token.code();
    code >= 0x4A00
        && code <= 0x4AFF
        && token.name().is_none()
        && !matches!(code, 0x4A0D | 0x4A12 | 0x4A1B)
        && !has_code(taken, code)
}
