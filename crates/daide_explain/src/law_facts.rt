//! One application of each law of `laws`, to messages with known results, so that a weakened law fails to check.
//! Nothing here is called.

ghost use Rattle.std.specs.Prelude.{◌≡◌, ◌++◌, [], ◌∷◌, ℕ, Bool, List, codes, false, true};
ghost use Rattle.daide_token.specs.Token.{bra, ket};
ghost use Rattle.daide_grammar.specs.declared.level.Level.TheVariants.{L0, L10};
ghost use Rattle.daide_grammar.specs.declared.side.Side2.TheVariants.{Client};
ghost use Rattle.daide_grammar.specs.SideMessages.{IsMessage};
ghost use Rattle.daide_reader.specs.declared.verdict.Verdict.TheVariants.{Prn};
ghost use Rattle.daide_explain.specs.Expected.{IsExpected};
ghost use Rattle.daide_explain.specs.Explained.{IsExpectedLine, IsExplained, IsPrinted, expected_line};
ghost use Rattle.daide_explain.specs.Listed.{AreExpected, IsFilteredBy, IsListed, representatives};

use crate::laws;

/// `GOF (` has exactly one explanation: its bracket is unpaired.
fn one_explanation_at_a_message()
    ensures { (text : List ℕ) → IsExplained [] Client L0 254 (0x4803 ∷ bra ∷ []) Prn text →
        text ≡ codes "unpaired: ( at 1" ++ 10 ∷ [] }
{
    laws::explained_in_one_way();
}

/// If one power is expected, so is any other.
fn class_at_a_power()
    ensures { IsExpected (IsMessage Client L10) 254 (0x4817 ∷ bra ∷ []) 0x4101 →
        IsExpected (IsMessage Client L10) 254 (0x4817 ∷ bra ∷ []) 0x4102 }
{
    laws::class_decides_what_is_expected();
}

/// At the start of a message the list contains the class of OBS. After OBS it does not contain the class of GOF.
fn list_at_two_places()
    ensures listed { (kept : List ℕ) →
        IsFilteredBy (IsExpected (IsMessage Client L0) 254 []) (representatives []) kept →
        IsListed [] kept 0x480F }
    ensures left_out { (kept : List ℕ) →
        IsFilteredBy (IsExpected (IsMessage Client L0) 254 (0x480F ∷ [])) (representatives []) kept →
        ¬ IsListed [] kept 0x4803 }
{
    laws::list_is_exact();
}

/// After `SND ( FRA ) ( TRY (` every token but the brackets is expected, including GOF.
fn any_at_a_message()
    ensures { IsExpected (IsMessage Client L10) 254 (0x4817 ∷ bra ∷ 0x4102 ∷ ket ∷ bra ∷ 0x4A1A ∷ bra ∷ []) 0x4803 }
{
    laws::any_is_each_token_but_brackets();
}

/// At the start, the line of expected items contains OBS. After OBS it contains the end, but not GOF.
fn line_at_two_places()
    ensures start { (text : List ℕ) → IsExpectedLine [] (IsMessage Client L0) 254 [] text →
        (kept : List ℕ) × (ends : Bool) × (text ≡ expected_line [] [] kept ends) × IsPrinted [] kept 0x480F }
    ensures after { (text : List ℕ) → IsExpectedLine [] (IsMessage Client L0) 254 (0x480F ∷ []) text → (kept : List ℕ)
        × (text ≡ expected_line [] (0x480F ∷ []) kept true) × (¬ IsPrinted [] kept 0x4803) }
{
    laws::explanation_is_exact();
}

/// In `OBS GOF` the token GOF is not expected after OBS.
fn refused_at_a_message()
    ensures { ¬ IsExpected (IsMessage Client L0) 254 (0x480F ∷ []) 0x4803 }
{
    laws::refused_token_is_not_expected();
}

/// In `OBS GOF` the class of GOF is neither listed nor printed. In the empty message the end is not expected.
fn never_listed_at_two_messages()
    ensures token { (kept : List ℕ) (ends : Bool) → AreExpected [] (IsMessage Client L0) 254 (0x480F ∷ []) kept ends →
        (¬ IsListed [] kept 0x4803) × (¬ IsPrinted [] kept 0x4803) }
    ensures end { (kept : List ℕ) (ends : Bool) → AreExpected [] (IsMessage Client L0) 254 [] kept ends → ends ≡ false }
{
    laws::refused_class_is_never_listed();
}

/// After OBS something is expected, because no bracket is open.
fn something_expected_at_a_message()
    ensures { ¬ AreExpected [] (IsMessage Client L0) 254 (0x480F ∷ []) [] false }
{
    laws::nothing_expected_only_for_depth();
}
