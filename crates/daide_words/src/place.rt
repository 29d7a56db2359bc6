//! The positions of a word in the grammar, and the operand after it.

ghost use Rattle.std.specs.Prelude.{◌≡◌, ◌∷◌, [], option_map, ◌<◌};
ghost use Rattle.daide_grammar.specs.Table.Answers.{Stop, Take};
ghost use Rattle.daide_grammar.specs.Table.ParseActions.{action};
ghost use Rattle.daide_grammar.specs.Table.Symbols.{slot_of};
ghost use Rattle.daide_grammar.specs.Words.{an_arrangement};
ghost use Rattle.daide_words.specs.Word.{grammar_operand, grammar_slot, grammar_word};
ghost use Rattle.daide_words.specs.Table.Place.{grammar_place, operand_place};
ghost use Rattle.daide_words.specs.Table.OverWords.{if_stands, makes, operand_symbol, stands};

use crate::operand::Operand;
use crate::slot::Slot;
use crate::word::Word;
use daide_grammar::level::Level;
use daide_grammar::numbers::{
    LEAVES_ARRANGEMENT_GROUP, LEAVES_OPERAND_GROUP, LEAVES_ORDER_GROUP, LEAVES_POWER_GROUP,
    LEAVES_POWERS_GROUP, LEAVES_PRESS_GROUP, LEAVES_PROVINCES_GROUP, STOP,
};
use daide_grammar::predict::Move;
use daide_grammar::symbol::{Sym, level_place};

/// A position for words in the grammar.
#[derive(Clone, Copy)]
pub(crate) enum WordPosition {
    /// Among the presses.
    Press,
    /// Among the arrangements.
    Arrangement,
    /// Among the arrangements without AND and ORR.
    Flat,
}

/// Returns the position for words of a symbol, with its level, if it has one.
pub(crate) fn slot_of(sym: Sym) -> Option<(WordPosition, Level)>
    ensures { option_map (λ slot. (grammar_place slot.0, slot.1)) result ≡ slot_of sym }
{
    match sym {
        Sym::Press(level) => Some((WordPosition::Press, level)),
        Sym::Arrangement(level) => Some((WordPosition::Arrangement, level)),
        Sym::Fact(level) => Some((WordPosition::Arrangement, level)),
        Sym::Operand(level) => Some((operand_place(level), level)),
        _ => None,
    }
}

/// Returns the position of an operand of AND and ORR: from level 50 on any arrangement.
fn operand_place(level: Level) -> WordPosition
    ensures { result ≡ operand_place level }
{
    match level {
        Level::L50 | Level::L60 => WordPosition::Arrangement,
        _ => WordPosition::Flat,
    }
}

/// Returns the entry of a word at a position: its operand follows if the word is allowed there, or else no message
/// continues.
pub(crate) fn move_in(word: &Word, place: WordPosition, level: Level) -> Move
    ensures { result ≡ if_stands (stands (grammar_word word.now) (grammar_place place) level)
        (operand_symbol (grammar_operand word.now.operand) (grammar_place place) level) Stop }
{
    if !may_make(word.slot, place) {
        return Move::of(STOP);
    }
    if word.level.number() > level.number() {
        return Move::of(STOP);
    }
    Move::of(operand_rule(word.operand, place, level))
}

/// Returns whether a word for this slot is allowed at the position.
fn may_make(slot: Slot, place: WordPosition) -> bool
    ensures { result ≡ makes (grammar_slot slot) (grammar_place place) }
{
    match (slot, place) {
        (Slot::Press, WordPosition::Press) => true,
        (Slot::Arrangement, WordPosition::Arrangement | WordPosition::Flat) => true,
        _ => false,
    }
}

/// Returns the rule of the table that leaves a word's operand in brackets.
fn operand_rule(operand: Operand, place: WordPosition, level: Level) -> u8
    ensures { action result ≡ Take (operand_symbol (grammar_operand operand) (grammar_place place) level ∷ []) }
{
    match operand {
        Operand::Power => LEAVES_POWER_GROUP,
        Operand::Powers => LEAVES_POWERS_GROUP,
        Operand::Provinces => LEAVES_PROVINCES_GROUP,
        Operand::Order => LEAVES_ORDER_GROUP,
        Operand::Arrangement => arrangement_rule(place, level),
        Operand::Press => LEAVES_PRESS_GROUP + level_place(level),
    }
}

/// Returns the rule that leaves an arrangement in brackets: a flat one at a position for flat arrangements.
fn arrangement_rule(place: WordPosition, level: Level) -> u8
    ensures { action result ≡ Take (operand_symbol an_arrangement (grammar_place place) level ∷ []) }
{
    let step = level_place(level);
    match place {
        WordPosition::Press => LEAVES_ARRANGEMENT_GROUP + step,
        WordPosition::Arrangement => LEAVES_ARRANGEMENT_GROUP + step,
        WordPosition::Flat => LEAVES_OPERAND_GROUP + step,
    }
}
