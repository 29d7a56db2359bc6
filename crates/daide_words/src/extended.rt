//! Predictions with the words of an operator.
//!
//! An operator's word can change only a Stop of the protocol's table. So a token that the protocol's table takes needs
//! no further look-up.

ghost use Rattle.std.specs.Prelude.{◌≡◌};
ghost use Rattle.daide_grammar.specs.Table.Answers.{Stop};
ghost use Rattle.daide_grammar.specs.Table.Symbols.{table_answer};
ghost use Rattle.daide_token.specs.Class.{class_of};
ghost use Rattle.daide_grammar.specs.SideMessages.{dialect_of};
ghost use Rattle.daide_words.specs.Words.{words_of};
ghost use Rattle.daide_words.specs.Word.{grammar_words};
ghost use Rattle.daide_words.specs.Table.OverWords.{answer_over, spoken};

use crate::place::{move_in, slot_of};
use crate::words::{Words, place_in};
use daide_grammar::column::Column;
use daide_grammar::dense::Dense;
use daide_grammar::level::Level;
use daide_grammar::numbers::{OTHER, STOP};
use daide_grammar::predict::{Move, Predict};
use daide_grammar::side::Side2;
use daide_grammar::symbol::Symbol;
use daide_grammar::top_symbol::TopSymbol;
use daide_token::token::Token;

/// Predicts by the constant table and the words of an operator, and counts its look-ups. It meets the laws of `Predict`
/// over the messages with its words.
#[derive(Drop)]
pub struct Extended {
    words: Words,
    table: Dense,
}

impl Extended {
    ghost use Rattle.daide_words.specs.Table.Extended.{extended_look_ups, spoken_words};

    /// Creates a table with these words and no look-up counted.
    pub fn new(words: Words) -> Extended
        ensures words { spoken_words result ≡ grammar_words (words_of words) }
        ensures all_spoken { spoken (grammar_words (words_of words)) ≡ grammar_words (words_of words) }
        ensures asked { extended_look_ups result ≡ 0 }
    {
        Extended {
            words,
            table: Dense::new(),
        }
    }
}

/// Returns the entry for a symbol and a class if the protocol's table stops the class.
#[cold]
#[inline(never)]
fn where_stopped(words: &Words, sym: Symbol, class: Column) -> Move
    requires { table_answer sym class ≡ Stop }
    ensures { result ≡ answer_over (grammar_words (words_of words.now)) sym class }
{
    let Some(number) = class.word_number() else {
        return Move::of(STOP);
    };
    let Some(word) = words.get(usize::from(number)) else {
        return Move::of(STOP);
    };
    match slot_of(sym.sym()) {
        Some((place, level)) => move_in(&word, place, level),
        None => Move::of(STOP),
    }
}

/// Returns the class of a word for a token that is one, or else the class that the token has without words.
#[cold]
#[inline(never)]
fn class_among(words: &Words, token: Token, class: Column) -> Column
    requires { class_of token ≡ class }
    ensures { result ≡ (dialect_of (grammar_words (words_of words.now))).class_of token }
{
    match place_in(words.names(), token) {
        Some(place) => Column::word(place),
        None => class,
    }
}

/// Returns what `class_among` returns, but early for tokens with a meaning without words, which most tokens have.
#[inline(always)]
fn class_with(words: &Words, token: Token, class: Column) -> Column
    requires { class_of token ≡ class }
    ensures { result ≡ (dialect_of (grammar_words (words_of words.now))).class_of token }
{
    if class.is_bracket() {
        return class;
    }
    if class.number() == OTHER {
        return class_among(words, token, class);
    }
    class
}

impl Predict for Extended {
    ghost use Rattle.daide_grammar.specs.Table.LawfulStack.{IsLawful};
    ghost use Rattle.daide_grammar.specs.Table.Languages.{SymbolMatchesIn};
    ghost use Rattle.daide_grammar.specs.Table.Symbols.{may_end_of, start_symbol_of};
    ghost use Rattle.daide_words.specs.Table.OverWords.{answer_over, spoken, spoken_dialect};
    ghost use Rattle.daide_words.specs.Table.Extended.{extended_look_ups, spoken_words};
    ghost use Rattle.daide_words.specs.Proofs.WordLaws.{spoken_begins, spoken_laws};

    ghost words = { spoken_words };

    ghost class_of = { λ words. (spoken_dialect words).class_of };

    ghost language = { λ words. SymbolMatchesIn (spoken_dialect words) };

    ghost moves = { λ words. answer_over (spoken words) };

    ghost ends = { λ _. may_end_of };

    ghost start_symbol = { start_symbol_of };

    ghost lawful = { λ words. IsLawful (answer_over (spoken words)) };

    ghost asked = { extended_look_ups };

    #[inline(always)]
    fn predict(&mut self, sym: Symbol, class: Column) -> Move {
        let answer = self.table.predict(sym, class);
        if answer.is_take() {
            return answer;
        }
        if answer.is_stop() {
            return where_stopped(&self.words, sym, class);
        }
        answer
    }

    #[inline(always)]
    fn predict_token(&mut self, sym: TopSymbol, token: Token, column: Column) -> Move {
        self.table.predict_token(sym, token, column)
    }

    fn predict_word(&mut self, sym: Symbol, token: Token, column: Column) -> Move {
        let answer = self.table.predict_word(sym, token, column);
        if answer.is_stop() {
            let class = class_with(&self.words, token, column);
            return where_stopped(&self.words, sym, class);
        }
        answer
    }

    fn may_end(&mut self, sym: Symbol) -> bool {
        self.table.may_end(sym)
    }

    #[inline(always)]
    fn class_of(&self, token: Token) -> Column {
        class_with(&self.words, token, self.table.class_of(token))
    }

    fn start(&self, side: Side2, level: Level) -> Symbol {
        self.table.start(side, level)
    }

    fn asked(&self) -> u64 {
        self.table.asked()
    }

    ghost laws = { spoken_laws };

    ghost begins = { spoken_begins };
}
