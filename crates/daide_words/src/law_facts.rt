//! Uses each law of `laws` once, at concrete values, so that a weaker law does not check. Nothing here is called.

ghost use Rattle.std.specs.Prelude.{◌≡◌, ◌↔◌, ℕ, ◌≤◌, true, List, [], ◌∷◌, codes, length};
ghost use Rattle.daide_token.specs.declared.class.Class.TheVariants as classes;
ghost use Rattle.daide_token.specs.Class.{class_of};
ghost use Rattle.daide_token.specs.Token.{bra, ket, prn, huh, err};
ghost use Rattle.daide_grammar.specs.declared.level.Level.TheVariants.{L0, L10, L20, L60};
ghost use Rattle.daide_grammar.specs.declared.side.Side2.TheVariants.{Client as BotSide, ServerEnd};
ghost use Rattle.daide_grammar.specs.declared.symbol.Sym.{Sym};
ghost use Rattle.daide_grammar.specs.declared.symbol.Sym.TheVariants.{Client, Closing, OnePower, Press, PowerGroup, WordList};
ghost use Rattle.daide_grammar.specs.Paired.{IsPaired};
ghost use Rattle.daide_grammar.specs.Table.Answers.{Stop, Take};
ghost use Rattle.daide_grammar.specs.Table.LawfulStack.{IsLawful};
ghost use Rattle.daide_grammar.specs.Table.Languages.{SymbolMatchesIn};
ghost use Rattle.daide_grammar.specs.Table.Stacks.{StackMatches, ends_asked, skips_before};
ghost use Rattle.daide_grammar.specs.Table.Symbols.{may_end_of};
ghost use Rattle.daide_grammar.specs.SideMessages.{IsMessageOver, dialect_of};
ghost use Rattle.daide_words.specs.declared.operand.Operand.{Operand};
ghost use Rattle.daide_words.specs.declared.operand.Operand.TheVariants as operands;
ghost use Rattle.daide_words.specs.declared.slot.Slot.{Slot};
ghost use Rattle.daide_words.specs.declared.slot.Slot.TheVariants as slots;
ghost use Rattle.daide_words.specs.declared.word.Word.{Word};
ghost use Rattle.daide_words.specs.Word.{grammar_words};
ghost use Rattle.daide_words.specs.WordNames.{operand_named, slot_named};
ghost use Rattle.daide_words.specs.Accepted.{are_accepted};
ghost use Rattle.daide_words.specs.Table.OverWords.{answer_over, spoken};
ghost use Rattle.daide_words.specs.Words.{word_at, words_of};

use crate::laws;
use crate::words::Words;

/// For any single accepted word: a bracket begins `( power )` exactly if a power and the other bracket follow. A stack
/// with 62 open brackets has at most 318 entries, and each token needs few look-ups.
fn prediction_at_values()
    ensures takes { (word : Word) (rest : List ℕ) → are_accepted (word ∷ []) ≡ true →
        let over = SymbolMatchesIn (dialect_of (grammar_words (word ∷ []))) in
        over PowerGroup (bra ∷ rest) ↔ StackMatches over (OnePower ∷ Closing ∷ []) rest }
    ensures entries { (word : Word) (stack : List Sym) → are_accepted (word ∷ []) ≡ true →
        IsLawful (answer_over (grammar_words (word ∷ []))) stack 62 → length stack ≤ 318 }
    ensures skips { (word : Word) (stack : List Sym) → are_accepted (word ∷ []) ≡ true →
        IsLawful (answer_over (grammar_words (word ∷ []))) stack 1 →
        skips_before (answer_over (grammar_words (word ∷ []))) (classes.Word 0) stack ≤ 2 }
    ensures ends { (word : Word) (stack : List Sym) → are_accepted (word ∷ []) ≡ true →
        IsLawful (answer_over (grammar_words (word ∷ []))) stack 0 → ends_asked may_end_of stack ≤ 4 }
{
    laws::added_words_keep_the_laws();
}

/// For any single accepted word: no start symbol of a bot derives a report PRN. A message of a bot at level 20 is one
/// at level 60. A message of a server there is paired. A table takes the word into account.
fn messages_at_values()
    ensures start_symbol { (word : Word) (m : List ℕ) → are_accepted (word ∷ []) ≡ true →
        ¬ SymbolMatchesIn (dialect_of (grammar_words (word ∷ []))) (Client L20) (prn ∷ m) }
    ensures spoken { (word : Word) → are_accepted (word ∷ []) ≡ true →
        spoken (grammar_words (word ∷ [])) ≡ grammar_words (word ∷ []) }
    ensures levels { (word : Word) (m : List ℕ) → IsMessageOver (grammar_words (word ∷ [])) BotSide L20 m →
        IsMessageOver (grammar_words (word ∷ [])) BotSide L60 m }
    ensures paired { (word : Word) (m : List ℕ) → are_accepted (word ∷ []) ≡ true →
        IsMessageOver (grammar_words (word ∷ [])) ServerEnd L60 m → IsPaired m }
{
    laws::start_symbol_stands_for_messages();
    laws::accepted_words_are_spoken();
    laws::levels_only_add();
    laws::messages_are_paired();
}

/// `PRN ( ) )`, `HUH ( ( ) )` and `HUH ( ERR #4A40 )` are messages at level 0, with any single accepted word.
fn answers_at_values()
    ensures prn { (word : Word) →
        IsMessageOver (grammar_words (word ∷ [])) BotSide L0 (prn ∷ bra ∷ ket ∷ ket ∷ []) }
    ensures huh { (word : Word) → are_accepted (word ∷ []) ≡ true →
        IsMessageOver (grammar_words (word ∷ [])) ServerEnd L0 (huh ∷ bra ∷ bra ∷ ket ∷ ket ∷ []) }
    ensures err { (word : Word) → are_accepted (word ∷ []) ≡ true →
        IsMessageOver (grammar_words (word ∷ [])) BotSide L0 (huh ∷ bra ∷ err ∷ 0x4A40 ∷ ket ∷ []) }
{
    laws::prn_answer_is_a_message();
    laws::huh_answer_is_a_message();
    laws::huh_answer_with_err_is_a_message();
}

/// The code of any single accepted word has a class of its own, and without the word no meaning. A press word about a
/// power from level 10 on is a press at level 10. No word begins a message of a bot, as HLO would, and in a list of
/// free words it is one.
fn classes_at_values()
    ensures class { (word : Word) → are_accepted (word ∷ []) ≡ true →
        ((dialect_of (grammar_words (word ∷ []))).class_of word.code ≡ classes.Word 0)
        × (class_of word.code ≡ classes.Other) }
    ensures stands { (word : Word) → are_accepted (word ∷ []) ≡ true → word.slot ≡ slots.Press → word.level ≡ L10 →
        word.operand ≡ operands.Power →
        answer_over (grammar_words (word ∷ [])) (Press L10) (classes.Word 0) ≡ Take (PowerGroup ∷ []) }
    ensures client { (word : Word) → are_accepted (word ∷ []) ≡ true →
        answer_over (grammar_words (word ∷ [])) (Client L60) (classes.Word 0) ≡ Stop }
    ensures list { (word : Word) → are_accepted (word ∷ []) ≡ true →
        answer_over (grammar_words (word ∷ [])) WordList (classes.Word 0) ≡ Take (WordList ∷ []) }
{
    laws::added_words_move_as_other();
}

/// Of two accepted words, the second has another name and another code.
fn words_at_values()
    ensures name { (one other : Word) → are_accepted (one ∷ other ∷ []) ≡ true → ¬ (one.name ≡ other.name) }
    ensures code { (one other : Word) → are_accepted (one ∷ other ∷ []) ≡ true → ¬ (one.code ≡ other.code) }
{
    laws::accepted_words_differ();
}

/// `orders` is no operand's name. `order` is the name of its operand and the only one. `Press` is no slot's name.
fn operands_at_values()
    ensures orders { (operand : Operand) → ¬ (operand_named (codes "orders") ≡ Some operand) }
    ensures order { (name : List ℕ) → operand_named name ≡ Some operands.Order → name ≡ codes "order" }
    ensures read { (operand : Operand) → operand ≡ operands.Order → operand_named (codes "order") ≡ Some operand }
    ensures press { (slot : Slot) → ¬ (slot_named (codes "Press") ≡ Some slot) }
{
    laws::operands_have_one_name();
}

/// The laws hold for the words of any value of `Words`.
fn held_at_values(words: &Words)
    ensures err { IsMessageOver (grammar_words (words_of words.now)) BotSide L0
        (huh ∷ bra ∷ err ∷ 0x4A40 ∷ ket ∷ []) }
    ensures entries { (stack : List Sym) → IsLawful (answer_over (grammar_words (words_of words.now))) stack 62 →
        length stack ≤ 318 }
    ensures codes { (one other : Word) → word_at 0 (words_of words.now) ≡ Some one →
        word_at 15 (words_of words.now) ≡ Some other → ¬ (one.code ≡ other.code) }
    ensures client { (word : Word) → word_at 15 (words_of words.now) ≡ Some word →
        answer_over (grammar_words (words_of words.now)) (Client L60) (classes.Word 15) ≡ Stop }
{
    laws::laws_hold_over(words);
}
