//! What holds of what is expected, and of its explanation, by the grammar alone.

ghost use Rattle.std.specs.Prelude.{◌≡◌, ◌≢◌, ◌↔◌, ◌++◌, [], ◌∷◌, ℕ, Bool, List, length, take, drop, true, false, IsTrue};
ghost use Rattle.daide_token.specs.Token.{bra, ket};
ghost use Rattle.daide_grammar.specs.declared.level.Level.{Level};
ghost use Rattle.daide_grammar.specs.declared.side.Side2.{Side2};
ghost use Rattle.daide_grammar.specs.SideMessages.{IsMessageOver, dialect_of};
ghost use Rattle.daide_words.specs.declared.word.Word.{Word};
ghost use Rattle.daide_words.specs.Accepted.{are_accepted};
ghost use Rattle.daide_words.specs.Word.{grammar_words};
ghost use Rattle.daide_reader.specs.ErrorPlace.{IsErrorPlace};
ghost use Rattle.daide_reader.specs.declared.verdict.Verdict.{Verdict};
ghost use Rattle.daide_reader.specs.Verdict.{IsRelayed};
ghost use Rattle.daide_explain.specs.Expected.{IsExpected, IsEndExpected, OnlyDeeper};
ghost use Rattle.daide_explain.specs.Explained.{expected_line, IsExpectedLine, IsExplained, IsPrinted};
ghost use Rattle.daide_explain.specs.Listed.{AreExpected, IsFilteredBy, IsListed, representatives, unknown_token};

/// A message and its verdict have at most one explanation.
pub fn explained_in_one_way()
    ensures { (words : List Word) (end : Side2) (level : Level) (max_depth : ℕ) (m : List ℕ) (verdict : Verdict)
        (one other : List ℕ) → IsExplained words end level max_depth m verdict one →
        IsExplained words end level max_depth m verdict other → one ≡ other }
{}

/// Whether a token is expected depends on its class alone, with any accepted words.
pub fn class_decides_what_is_expected()
    ensures { (words : List Word) (end : Side2) (level : Level) (max_depth : ℕ) (p : List ℕ) (t u : ℕ) →
        are_accepted words ≡ true →
        (dialect_of (grammar_words words)).class_of t ≡ (dialect_of (grammar_words words)).class_of u →
        IsExpected (IsMessageOver (grammar_words words) end level) max_depth p t →
        IsExpected (IsMessageOver (grammar_words words) end level) max_depth p u }
{}

/// A token is expected if and only if the list of `list_expected` has a token of its class. This holds for every token,
/// also one that no table lists.
pub fn list_is_exact()
    ensures { (words : List Word) (end : Side2) (level : Level) (max_depth : ℕ) (p kept : List ℕ) →
        are_accepted words ≡ true →
        IsFilteredBy (IsExpected (IsMessageOver (grammar_words words) end level) max_depth p)
        (representatives words) kept →
        (t : ℕ) → IsExpected (IsMessageOver (grammar_words words) end level) max_depth p t ↔ IsListed words kept t }
{}

/// If a token of an unknown category is expected, each token except the brackets is: `<any>` stands for all of them.
pub fn any_is_each_token_but_brackets()
    ensures { (words : List Word) (end : Side2) (level : Level) (max_depth : ℕ) (p : List ℕ) →
        are_accepted words ≡ true →
        IsExpected (IsMessageOver (grammar_words words) end level) max_depth p unknown_token →
        (t : ℕ) → t ≢ bra → t ≢ ket → IsExpected (IsMessageOver (grammar_words words) end level) max_depth p t }
{}

/// The line of an explanation prints the class of a token if and only if the token is expected. It prints `<end>` if
/// and only if the end is expected. It holds for each side, level, depth limit and list of accepted words.
pub fn explanation_is_exact()
    ensures { (words : List Word) (end : Side2) (level : Level) (max_depth : ℕ) (p text : List ℕ) →
        are_accepted words ≡ true →
        IsExpectedLine words (IsMessageOver (grammar_words words) end level) max_depth p text →
        (kept : List ℕ) × (ends : Bool) × (text ≡ expected_line words p kept ends)
        × ((t : ℕ) → IsExpected (IsMessageOver (grammar_words words) end level) max_depth p t
        ↔ IsPrinted words kept t)
        × (IsTrue ends ↔ IsEndExpected (IsMessageOver (grammar_words words) end level) max_depth p) }
{}

/// The token at an error place is not expected there.
pub fn refused_token_is_not_expected()
    ensures { (words : List Word) (end : Side2) (level : Level) (max_depth : ℕ) (before after : List ℕ) (t : ℕ) →
        IsErrorPlace (IsMessageOver (grammar_words words) end level) max_depth (before ++ t ∷ after) (length before) →
        ¬ IsExpected (IsMessageOver (grammar_words words) end level) max_depth before t }
{}

/// At an error place the class of the token is neither listed nor printed, nor is `<end>` if the message ends there.
pub fn refused_class_is_never_listed()
    ensures { (words : List Word) (end : Side2) (level : Level) (max_depth : ℕ) (m : List ℕ) (place : ℕ)
        (kept : List ℕ) (ends : Bool) → are_accepted words ≡ true →
        IsErrorPlace (IsMessageOver (grammar_words words) end level) max_depth m place →
        AreExpected words (IsMessageOver (grammar_words words) end level) max_depth (take place m) kept ends →
        ((t : ℕ) (after : List ℕ) → drop place m ≡ t ∷ after
        → (¬ IsListed words kept t) × (¬ IsPrinted words kept t))
        × (place ≡ length m → (¬ IsRelayed (IsMessageOver (grammar_words words) end level) max_depth m)
        → ends ≡ false) }
{}

/// If nothing is expected at an error place, as many brackets are open as may be, and only BRA continues the message.
pub fn nothing_expected_only_for_depth()
    ensures { (words : List Word) (end : Side2) (level : Level) (max_depth : ℕ) (m : List ℕ) (place : ℕ) →
        are_accepted words ≡ true →
        IsErrorPlace (IsMessageOver (grammar_words words) end level) max_depth m place →
        AreExpected words (IsMessageOver (grammar_words words) end level) max_depth (take place m) [] false →
        OnlyDeeper (IsMessageOver (grammar_words words) end level) max_depth (take place m) }
{}
