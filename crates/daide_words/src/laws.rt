//! What holds of all words that an operator may add. Each law is a function whose contract says it; none has anything
//! to do. `laws_hold_over` gives them all to who holds `Words`.

ghost use Rattle.std.specs.Prelude.{◌≡◌, ◌↔◌, ℕ, ◌≤◌, true, false, List, [], ◌∷◌, ◌++◌, take, drop};
ghost use Rattle.daide_token.specs.declared.class.Class.TheVariants.{Other, Word as WordClass};
ghost use Rattle.daide_token.specs.Class.{class_of};
ghost use Rattle.daide_token.specs.Token.{bra, ket, prn, huh, err};
ghost use Rattle.daide_grammar.specs.declared.level.Level.{Level};
ghost use Rattle.daide_grammar.specs.declared.side.Side2.{Side2};
ghost use Rattle.daide_grammar.specs.declared.symbol.Sym.{Sym};
ghost use Rattle.daide_grammar.specs.Forms.{Slot as WordPlace};
ghost use Rattle.daide_grammar.specs.Level.{level_number};
ghost use Rattle.daide_grammar.specs.Balanced.{IsBalanced};
ghost use Rattle.daide_grammar.specs.Paired.{begins_with_prn, IsPaired};
ghost use Rattle.daide_grammar.specs.Table.Laws.{IsCorrectPrediction};
ghost use Rattle.daide_grammar.specs.Table.LawfulStack.{IsLawful};
ghost use Rattle.daide_grammar.specs.SideMessages.{IsMessageOver, dialect_of};
ghost use Rattle.daide_grammar.specs.Table.Languages.{SymbolMatchesIn};
ghost use Rattle.daide_grammar.specs.Table.Answers.{Take};
ghost use Rattle.daide_grammar.specs.Table.Symbols.{may_end_of, start_symbol_of, slot_of, table_answer};
ghost use Rattle.daide_words.specs.declared.operand.Operand.{Operand};
ghost use Rattle.daide_words.specs.declared.slot.Slot.{Slot};
ghost use Rattle.daide_words.specs.declared.word.Word.{Word};
ghost use Rattle.daide_words.specs.Word.{grammar_operand, grammar_word, grammar_words};
ghost use Rattle.daide_words.specs.WordNames.{operand_name, operand_named, slot_name, slot_named};
ghost use Rattle.daide_words.specs.Accepted.{are_accepted};
ghost use Rattle.daide_words.specs.Table.OverWords.{answer_over, operand_symbol, spoken, stands, stands_for};
ghost use Rattle.daide_words.specs.Words.{word_at, words_of};

use crate::words::Words;

/// Every list of accepted words keeps the laws of prediction: the answers agree with the messages over these words, and
/// stacks stay as small.
pub fn added_words_keep_the_laws()
    ensures { (words : List Word) → are_accepted words ≡ true →
        IsCorrectPrediction (dialect_of (grammar_words words)).class_of (SymbolMatchesIn (dialect_of (grammar_words words)))
        (answer_over (grammar_words words)) may_end_of (IsLawful (answer_over (grammar_words words))) }
{}

/// With accepted words too, the start symbol derives exactly the messages of its side and level that do not begin
/// with PRN.
pub fn start_symbol_stands_for_messages()
    ensures { (words : List Word) (side : Side2) (level : Level) (m : List ℕ) → are_accepted words ≡ true →
        SymbolMatchesIn (dialect_of (grammar_words words)) (start_symbol_of side level) m
        ↔ (IsMessageOver (grammar_words words) side level m × (begins_with_prn m ≡ false)) }
{}

/// The table uses every accepted word, and passes over none.
pub fn accepted_words_are_spoken()
    ensures { (words : List Word) → are_accepted words ≡ true → spoken (grammar_words words) ≡ grammar_words words }
{}

/// The code of an accepted word has a class of its own. Without the words it has the class `Other`, of a token without
/// a meaning. At each symbol that may derive the word, its operand in brackets follows. At every other symbol its
/// class moves as `Other`.
pub fn added_words_move_as_other()
    ensures class { (words : List Word) (place : ℕ) (word : Word) → are_accepted words ≡ true →
        word_at place words ≡ Some word →
        ((dialect_of (grammar_words words)).class_of word.code ≡ WordClass place) × (class_of word.code ≡ Other) }
    ensures stands { (words : List Word) (place : ℕ) (word : Word) (sym : Sym) (slot : WordPlace) (level : Level) →
        are_accepted words ≡ true → word_at place words ≡ Some word → slot_of sym ≡ Some (slot, level) →
        stands (grammar_word word) slot level ≡ true →
        answer_over (grammar_words words) sym (WordClass place)
        ≡ Take (operand_symbol (grammar_operand word.operand) slot level ∷ []) }
    ensures elsewhere { (words : List Word) (place : ℕ) (word : Word) (sym : Sym) → are_accepted words ≡ true →
        word_at place words ≡ Some word → stands_for (grammar_word word) (slot_of sym) ≡ false →
        answer_over (grammar_words words) sym (WordClass place) ≡ table_answer sym Other }
{}

/// Accepted words have distinct names and distinct codes.
pub fn accepted_words_differ()
    ensures names { (words : List Word) (i j : ℕ) (one other : Word) → are_accepted words ≡ true →
        word_at i words ≡ Some one → word_at j words ≡ Some other → one.name ≡ other.name → i ≡ j }
    ensures codes { (words : List Word) (i j : ℕ) (one other : Word) → are_accepted words ≡ true →
        word_at i words ≡ Some one → word_at j words ≡ Some other → one.code ≡ other.code → i ≡ j }
{}

/// A text is read as an operand if and only if it is the operand's one name of six, letter for letter. The same holds
/// of slots.
pub fn operands_have_one_name()
    ensures operand { (name : List ℕ) (operand : Operand) →
        (operand_named name ≡ Some operand) ↔ (name ≡ operand_name operand) }
    ensures slot { (name : List ℕ) (slot : Slot) → (slot_named name ≡ Some slot) ↔ (name ≡ slot_name slot) }
{}

/// With any words, a message of a side at a level is a message of that side at every higher level.
pub fn levels_only_add()
    ensures { (words : List Word) (side : Side2) (low high : Level) (m : List ℕ) →
        level_number low ≤ level_number high →
        IsMessageOver (grammar_words words) side low m → IsMessageOver (grammar_words words) side high m }
{}

/// With accepted words too, every message is paired, so no message is answered with PRN.
pub fn messages_are_paired()
    ensures { (words : List Word) (side : Side2) (level : Level) (m : List ℕ) → are_accepted words ≡ true →
        IsMessageOver (grammar_words words) side level m → IsPaired m }
{}

/// With any words, `PRN ( m )` is a message of either side at every level, for every list m.
pub fn prn_answer_is_a_message()
    ensures { (words : List Word) (side : Side2) (level : Level) (m : List ℕ) →
        IsMessageOver (grammar_words words) side level (prn ∷ bra ∷ (m ++ ket ∷ [])) }
{}

/// With accepted words, `HUH ( a )` is a message of either side at every level if the brackets of a balance.
pub fn huh_answer_is_a_message()
    ensures { (words : List Word) (side : Side2) (level : Level) (a : List ℕ) → are_accepted words ≡ true →
        IsBalanced a → IsMessageOver (grammar_words words) side level (huh ∷ bra ∷ (a ++ ket ∷ [])) }
{}

/// With accepted words, so is `HUH ( m )` with ERR inserted at any place of m, if the brackets of m balance. So a
/// gateway with words relays each answer that is not too deep for it.
pub fn huh_answer_with_err_is_a_message()
    ensures { (words : List Word) (side : Side2) (level : Level) (m : List ℕ) (place : ℕ) →
        are_accepted words ≡ true → IsBalanced m →
        IsMessageOver (grammar_words words) side level
        (huh ∷ bra ∷ ((take place m ++ err ∷ drop place m) ++ ket ∷ [])) }
{}

/// The laws of this crate on accepted words hold for the words of a `Words`, without a premise.
pub fn laws_hold_over(words: &Words)
    ensures laws { let added = grammar_words (words_of words.now) in
        IsCorrectPrediction (dialect_of added).class_of (SymbolMatchesIn (dialect_of added)) (answer_over added) may_end_of
        (IsLawful (answer_over added)) }
    ensures start_symbol { (side : Side2) (level : Level) (m : List ℕ) →
        let added = grammar_words (words_of words.now) in
        SymbolMatchesIn (dialect_of added) (start_symbol_of side level) m
        ↔ (IsMessageOver added side level m × (begins_with_prn m ≡ false)) }
    ensures spoken { let added = grammar_words (words_of words.now) in spoken added ≡ added }
    ensures paired { (side : Side2) (level : Level) (m : List ℕ) →
        IsMessageOver (grammar_words (words_of words.now)) side level m → IsPaired m }
    ensures huh { (side : Side2) (level : Level) (a : List ℕ) → IsBalanced a →
        IsMessageOver (grammar_words (words_of words.now)) side level (huh ∷ bra ∷ (a ++ ket ∷ [])) }
    ensures huh_with_err { (side : Side2) (level : Level) (m : List ℕ) (place : ℕ) → IsBalanced m →
        IsMessageOver (grammar_words (words_of words.now)) side level
        (huh ∷ bra ∷ ((take place m ++ err ∷ drop place m) ++ ket ∷ [])) }
    ensures class { (place : ℕ) (word : Word) → word_at place (words_of words.now) ≡ Some word →
        ((dialect_of (grammar_words (words_of words.now))).class_of word.code ≡ WordClass place)
        × (class_of word.code ≡ Other) }
    ensures elsewhere { (place : ℕ) (word : Word) (sym : Sym) → word_at place (words_of words.now) ≡ Some word →
        stands_for (grammar_word word) (slot_of sym) ≡ false →
        answer_over (grammar_words (words_of words.now)) sym (WordClass place) ≡ table_answer sym Other }
    ensures names { (i j : ℕ) (one other : Word) → word_at i (words_of words.now) ≡ Some one →
        word_at j (words_of words.now) ≡ Some other → one.name ≡ other.name → i ≡ j }
    ensures codes { (i j : ℕ) (one other : Word) → word_at i (words_of words.now) ≡ Some one →
        word_at j (words_of words.now) ≡ Some other → one.code ≡ other.code → i ≡ j }
{
    words.are_accepted();
    added_words_keep_the_laws();
    start_symbol_stands_for_messages();
    accepted_words_are_spoken();
    messages_are_paired();
    huh_answer_is_a_message();
    huh_answer_with_err_is_a_message();
    added_words_move_as_other();
    accepted_words_differ();
}
