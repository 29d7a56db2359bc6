//! Uses each law of `laws` once, at concrete values, so that a weaker law does not check. Nothing here is called.

ghost use Rattle.std.specs.Prelude.{◌≡◌, ◌↔◌, ◌==◌, ℕ, ◌≤◌, List, [], ◌∷◌, ◌++◌, length, take, drop, false};
ghost use Rattle.std.specs.List.{count_by};
ghost use Rattle.daide_token.specs.declared.class.Class.{Class};
ghost use Rattle.daide_token.specs.declared.class.Class.TheVariants.{Bra};
ghost use Rattle.daide_token.specs.Token.{bra, ket, prn, huh, err};
ghost use Rattle.daide_grammar.specs.declared.level.Level.TheVariants.{L0, L10, L60};
ghost use Rattle.daide_grammar.specs.declared.side.Side2.TheVariants.{Client as BotSide, ServerEnd};
ghost use Rattle.daide_grammar.specs.declared.symbol.Sym.{Sym};
ghost use Rattle.daide_grammar.specs.declared.symbol.Sym.TheVariants.{Any, Client, Closing, MaybeNumber, MaybeNumberGroup, OneNumber, Operands, Press, Texts};
ghost use Rattle.daide_grammar.specs.Message.Lists.{any};
ghost use Rattle.daide_grammar.specs.Matches.{Matches};
ghost use Rattle.daide_grammar.specs.Balanced.{IsBalanced};
ghost use Rattle.daide_grammar.specs.Depth.{depth_of};
ghost use Rattle.daide_grammar.specs.Table.Answers.{Take};
ghost use Rattle.daide_grammar.specs.Table.Symbols.{entries, may_end_of, table_answer, is_of_kind};
ghost use Rattle.daide_grammar.specs.Table.Stacks.{StackMatches, skips_before, ends_asked};
ghost use Rattle.daide_grammar.specs.Table.LawfulStack.{IsLawful};
ghost use Rattle.daide_grammar.specs.SideMessages.{IsMessage, IsMessageOver, standard};
ghost use Rattle.daide_grammar.specs.Table.Languages.{SymbolMatches};
ghost use Rattle.daide_grammar.specs.Words.{AddedWord};

use crate::laws;

/// No start symbol of a bot derives a PRN. `( GOF )` matches `any`, and a list that matches `any` is balanced. A bot's
/// message that begins with GOF balances its brackets. A message of a server at level 10 is one at level 60. An added
/// word other than GOF does not change GOF.
fn messages_at_values()
    ensures start_symbol { (m : List ℕ) → ¬ SymbolMatches (Client L60) (prn ∷ m) }
    ensures any { Matches standard any (bra ∷ 0x4803 ∷ ket ∷ []) }
    ensures balanced { (m : List ℕ) → Matches standard any (ket ∷ m) → IsBalanced (ket ∷ m) }
    ensures paired { (m : List ℕ) → IsMessage BotSide L60 (0x4803 ∷ m) → IsBalanced (0x4803 ∷ m) }
    ensures levels { (m : List ℕ) → IsMessage ServerEnd L10 m → IsMessage ServerEnd L60 m }
    ensures word { (word : AddedWord) → (0x4803 == word.code) ≡ false →
        IsMessageOver (word ∷ []) BotSide L0 (0x4803 ∷ []) ↔ IsMessage BotSide L0 (0x4803 ∷ []) }
{
    laws::start_symbol_stands_for_messages();
    laws::any_is_balanced();
    laws::messages_are_paired();
    laws::levels_only_add();
    laws::other_messages_stay();
}

/// `PRN ( ) )` is a message at level 0, and no PRN has a depth. `HUH ( ( ) )` is a message of depth 2. `HUH ( ERR GOF
/// )` has depth 1, whatever the index of ERR.
fn answers_at_values()
    ensures prn { IsMessage BotSide L0 (prn ∷ bra ∷ ket ∷ ket ∷ []) }
    ensures prn_depth { (m : List ℕ) → depth_of (prn ∷ bra ∷ bra ∷ (m ++ ket ∷ [])) ≡ 0 }
    ensures huh { IsMessage ServerEnd L0 (huh ∷ bra ∷ bra ∷ ket ∷ ket ∷ []) }
    ensures huh_depth { depth_of (huh ∷ bra ∷ bra ∷ ket ∷ ket ∷ []) ≡ 2 }
    ensures err { IsMessage BotSide L0 (huh ∷ bra ∷ err ∷ 0x4803 ∷ ket ∷ []) }
    ensures err_depth { (place : ℕ) →
        depth_of (huh ∷ bra ∷ ((take place (0x4803 ∷ []) ++ err ∷ drop place (0x4803 ∷ [])) ++ ket ∷ [])) ≡ 1 }
{
    laws::prn_answer_is_a_message();
    laws::huh_answer_is_a_message();
    laws::huh_answer_with_err_is_a_message();
}

/// The symbol of the closing bracket takes that bracket and nothing after it, and stops at the other one. A text is no
/// list that begins with a closing bracket, and the operands of AND may be empty. Each press has a derivation. At most
/// one entry of `Any` takes an opening bracket. An optional number takes a token that the closing bracket after it does
/// not take.
fn moves_at_values()
    ensures takes { (m : List ℕ) → SymbolMatches Closing (ket ∷ m) → m ≡ [] }
    ensures skips { (m : List ℕ) → ¬ SymbolMatches Texts (ket ∷ m) }
    ensures stops { (m : List ℕ) → ¬ SymbolMatches Closing (bra ∷ m) }
    ensures ends { SymbolMatches (Operands L60) [] }
    ensures some { (m : List ℕ) × SymbolMatches (Press L60) m }
    ensures alternatives { count_by (λ entry. is_of_kind entry.kind Bra) (entries Any) ≤ 1 }
    ensures neighbours { (brackets : ℕ) (m n : List ℕ) → IsLawful table_answer (MaybeNumber ∷ Closing ∷ []) brackets →
        SymbolMatches MaybeNumber (0x0005 ∷ m) → ¬ StackMatches SymbolMatches (Closing ∷ []) (0x0005 ∷ n) }
{
    laws::moves_agree();
    laws::no_language_is_empty();
    laws::alternatives_differ();
    laws::neighbours_differ();
}

/// TME of a bot leaves a stack that can arise. So do its bracket, its number and the other bracket, or none of these.
/// With 254 open brackets a stack has at most 1,278 entries, and each token needs few look-ups.
fn stacks_at_values()
    ensures begins { IsLawful table_answer (Client L60 ∷ []) 0 }
    ensures take { IsLawful table_answer (Client L60 ∷ []) 0 → IsLawful table_answer (MaybeNumberGroup ∷ []) 0 }
    ensures bra { IsLawful table_answer (MaybeNumberGroup ∷ []) 0 → IsLawful table_answer (OneNumber ∷ Closing ∷ []) 1 }
    ensures ket { IsLawful table_answer (Closing ∷ []) 1 → IsLawful table_answer [] 0 }
    ensures skip { IsLawful table_answer (MaybeNumberGroup ∷ []) 0 → IsLawful table_answer [] 0 }
    ensures entries { (stack : List Sym) → IsLawful table_answer stack 254 → length stack ≤ 1278 }
    ensures rests { (class : Class) (rest : List Sym) → table_answer (Press L60) class ≡ Take rest → length rest ≤ 12 }
    ensures skips { (stack : List Sym) → IsLawful table_answer stack 1 → skips_before table_answer Bra stack ≤ 2 }
    ensures ends { (stack : List Sym) → IsLawful table_answer stack 0 → ends_asked may_end_of stack ≤ 4 }
{
    laws::stacks_stay_lawful();
    laws::stack_is_bounded();
    laws::lookups_are_bounded();
}
