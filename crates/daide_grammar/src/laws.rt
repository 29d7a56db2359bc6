//! What holds of the grammar as a whole. Each law is a function whose contract says it; none has anything to do.

ghost use Rattle.std.specs.Prelude.{◌≡◌, ◌≢◌, ◌↔◌, ℕ, ◌+◌, ◌≤◌, List, [], ◌∷◌, ◌++◌, length, take, drop, true, false};
ghost use Rattle.std.specs.List.{count_by};
ghost use Rattle.daide_token.specs.declared.class.Class.{Class};
ghost use Rattle.daide_token.specs.declared.class.Class.TheVariants.{Bra, Ket};
ghost use Rattle.daide_token.specs.Class.{class_of};
ghost use Rattle.daide_token.specs.Token.{bra, ket, prn, huh, err};
ghost use Rattle.daide_grammar.specs.declared.level.Level.{Level};
ghost use Rattle.daide_grammar.specs.declared.side.Side2.{Side2};
ghost use Rattle.daide_grammar.specs.declared.symbol.Sym.{Sym};
ghost use Rattle.daide_grammar.specs.Level.{level_number};
ghost use Rattle.daide_grammar.specs.Message.Lists.{any};
ghost use Rattle.daide_grammar.specs.Matches.{Matches};
ghost use Rattle.daide_grammar.specs.Balanced.{IsBalanced};
ghost use Rattle.daide_grammar.specs.Paired.{IsPaired, begins_with_prn};
ghost use Rattle.daide_grammar.specs.Depth.{depth_of};
ghost use Rattle.daide_grammar.specs.Bounds.{height_bound, most_steps};
ghost use Rattle.daide_grammar.specs.Table.Answers.{Take, Skip, Stop};
ghost use Rattle.daide_grammar.specs.Table.Symbols.{entries, may_end_of, start_symbol_of, table_answer};
ghost use Rattle.daide_grammar.specs.Table.Symbols.{is_of_kind};
ghost use Rattle.daide_grammar.specs.Table.Stacks.{StackMatches, skips_before, ends_asked};
ghost use Rattle.daide_grammar.specs.Table.LawfulStack.{IsLawful};
ghost use Rattle.daide_grammar.specs.SideMessages.{IsMessage, IsMessageOver, standard};
ghost use Rattle.daide_grammar.specs.Table.Languages.{SymbolMatches};
ghost use Rattle.daide_grammar.specs.Words.{Words, has_no_word};

/// The start symbol derives exactly the messages of its side and level that do not begin with PRN. The reader
/// handles the report PRN itself.
pub fn start_symbol_stands_for_messages()
    ensures { (side : Side2) (level : Level) (m : List ℕ) →
        SymbolMatches (start_symbol_of side level) m ↔ (IsMessage side level m × (begins_with_prn m ≡ false)) }
{}

/// The form `any` matches exactly the lists whose brackets balance.
pub fn any_is_balanced()
    ensures { (m : List ℕ) → Matches standard any m ↔ IsBalanced m }
{}

/// Every message is paired: it is a report PRN, or it does not begin with PRN and its brackets balance. So the
/// verdict on a message is never PRN.
pub fn messages_are_paired()
    ensures { (side : Side2) (level : Level) (m : List ℕ) → IsMessage side level m → IsPaired m }
{}

/// `PRN ( m )` is a message of either side at every level, for every list m, and its depth is 0. So the next gateway
/// relays it.
pub fn prn_answer_is_a_message()
    ensures message { (side : Side2) (level : Level) (m : List ℕ) → IsMessage side level (prn ∷ bra ∷ (m ++ ket ∷ [])) }
    ensures depth { (m : List ℕ) → depth_of (prn ∷ bra ∷ (m ++ ket ∷ [])) ≡ 0 }
{}

/// `HUH ( a )` is a message of either side at every level if the brackets of a balance. It is one bracket deeper than
/// a, if a does not begin with PRN.
pub fn huh_answer_is_a_message()
    ensures message { (side : Side2) (level : Level) (a : List ℕ) → IsBalanced a →
        IsMessage side level (huh ∷ bra ∷ (a ++ ket ∷ [])) }
    ensures depth { (a : List ℕ) → IsBalanced a → begins_with_prn a ≡ false →
        depth_of (huh ∷ bra ∷ (a ++ ket ∷ [])) ≡ depth_of a + 1 }
{}

/// `HUH ( m )` with ERR inserted at any place of m is a message of either side at every level if the brackets of m
/// balance. ERR makes it no deeper. So the next gateway relays each answer that is not too deep for it.
pub fn huh_answer_with_err_is_a_message()
    ensures message { (side : Side2) (level : Level) (m : List ℕ) (place : ℕ) → IsBalanced m →
        IsMessage side level (huh ∷ bra ∷ ((take place m ++ err ∷ drop place m) ++ ket ∷ [])) }
    ensures depth { (m : List ℕ) (place : ℕ) →
        depth_of (huh ∷ bra ∷ ((take place m ++ err ∷ drop place m) ++ ket ∷ [])) ≡ depth_of (huh ∷ bra ∷ (m ++ ket ∷ [])) }
{}

/// A message of a side at a level is a message of that side at every higher level.
pub fn levels_only_add()
    ensures { (side : Side2) (low high : Level) (m : List ℕ) → level_number low ≤ level_number high →
        IsMessage side low m → IsMessage side high m }
{}

/// Each move of the table agrees with the language of its symbol, at every level. At a `Take` a list continues as a
/// list of the rest. At a `Skip` the symbol is nullable, and none of its lists begins with the token. At a `Stop`
/// neither holds. The symbols that may end are the nullable ones.
pub fn moves_agree()
    ensures takes { (sym : Sym) (rest : List Sym) (t : ℕ) (m : List ℕ) → table_answer sym (class_of t) ≡ Take rest →
        SymbolMatches sym (t ∷ m) ↔ StackMatches SymbolMatches rest m }
    ensures skips { (sym : Sym) (t : ℕ) (m : List ℕ) → table_answer sym (class_of t) ≡ Skip →
        SymbolMatches sym [] × ¬ SymbolMatches sym (t ∷ m) }
    ensures stops { (sym : Sym) (t : ℕ) (m : List ℕ) → table_answer sym (class_of t) ≡ Stop →
        ¬ SymbolMatches sym [] × ¬ SymbolMatches sym (t ∷ m) }
    ensures ends { (sym : Sym) → (may_end_of sym ≡ true) ↔ SymbolMatches sym [] }
{}

/// Each symbol derives some list, so every stack of symbols can be completed.
pub fn no_language_is_empty()
    ensures { (sym : Sym) → (m : List ℕ) × SymbolMatches sym m }
{}

/// No two alternatives of a symbol begin with the same class.
pub fn alternatives_differ()
    ensures { (sym : Sym) (class : Class) → count_by (λ entry. is_of_kind entry.kind class) (entries sym) ≤ 1 }
{}

/// On a stack that can arise, no token begins both a nullable symbol and what follows it.
pub fn neighbours_differ()
    ensures { (sym : Sym) (below : List Sym) (open_brackets t : ℕ) (m n : List ℕ) →
        IsLawful table_answer (sym ∷ below) open_brackets → may_end_of sym ≡ true →
        SymbolMatches sym (t ∷ m) → ¬ StackMatches SymbolMatches below (t ∷ n) }
{}

/// A start symbol alone is a lawful stack with no open bracket. Each entry of the table turns a lawful stack into a
/// lawful stack. BRA opens a bracket, KET closes an open one, and every other class leaves the count.
pub fn stacks_stay_lawful()
    ensures begins { (side : Side2) (level : Level) → IsLawful table_answer (start_symbol_of side level ∷ []) 0 }
    ensures skip { (sym : Sym) (below : List Sym) (open_brackets : ℕ) (class : Class) →
        IsLawful table_answer (sym ∷ below) open_brackets → table_answer sym class ≡ Skip →
        IsLawful table_answer below open_brackets }
    ensures take { (sym : Sym) (rest below : List Sym) (open_brackets : ℕ) (class : Class) →
        IsLawful table_answer (sym ∷ below) open_brackets →
        table_answer sym class ≡ Take rest → class ≢ Bra → class ≢ Ket →
        IsLawful table_answer (rest ++ below) open_brackets }
    ensures bra { (sym : Sym) (rest below : List Sym) (open_brackets : ℕ) →
        IsLawful table_answer (sym ∷ below) open_brackets → table_answer sym Bra ≡ Take rest →
        IsLawful table_answer (rest ++ below) (open_brackets + 1) }
    ensures ket { (sym : Sym) (rest below : List Sym) (open_brackets : ℕ) →
        IsLawful table_answer (sym ∷ below) open_brackets → table_answer sym Ket ≡ Take rest →
        (fewer : ℕ) × (open_brackets ≡ fewer + 1) × IsLawful table_answer (rest ++ below) fewer }
{}

/// A lawful stack has at most five entries for each open bracket, plus eight. A rest has at most twelve symbols.
pub fn stack_is_bounded()
    ensures entries { (stack : List Sym) (open_brackets : ℕ) → IsLawful table_answer stack open_brackets →
        length stack ≤ height_bound open_brackets }
    ensures rests { (sym : Sym) (class : Class) (rest : List Sym) →
        table_answer sym class ≡ Take rest → length rest ≤ 12 }
{}

/// On a lawful stack a token skips at most two nullable symbols before one takes or stops it. With no open bracket, at
/// most four look-ups decide whether all that is left is nullable.
pub fn lookups_are_bounded()
    ensures skips { (stack : List Sym) (open_brackets : ℕ) (class : Class) → IsLawful table_answer stack open_brackets →
        skips_before table_answer class stack ≤ 2 }
    ensures ends { (stack : List Sym) → IsLawful table_answer stack 0 → ends_asked may_end_of stack ≤ most_steps }
{}

/// A list with no code of an operator's words is a message with the words if and only if it is one without them.
pub fn other_messages_stay()
    ensures { (words : Words) (side : Side2) (level : Level) (m : List ℕ) → has_no_word words m ≡ true →
        IsMessageOver words side level m ↔ IsMessage side level m }
{}
