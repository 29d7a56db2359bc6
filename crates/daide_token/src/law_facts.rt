//! Uses each law of `laws` once, at concrete values, so that a weaker law does not check. Nothing here is called.

ghost use Rattle.std.specs.Prelude.{[], true, ℕ, ℤ, List, ◌^◌, ◌<◌, ◌∷◌, ◌≡◌, Some, negsuc, codes};
ghost use Rattle.std.specs.List.{All};
ghost use Rattle.daide_token.specs.Class.{class_of, is_standard, token_of};
ghost use Rattle.daide_token.specs.ClassNumbers.{same_class};
ghost use Rattle.daide_token.specs.declared.class.Class.{Class};
ghost use Rattle.daide_token.specs.declared.class.Class.TheVariants as classes;
ghost use Rattle.daide_token.specs.Names.{name_of, token_named};
ghost use Rattle.daide_token.specs.Text.{text_of};
ghost use Rattle.daide_token.specs.Token.{bra, ket, hlo, huh, prn, err, lvl};
ghost use Rattle.daide_token.specs.Token.{token_bytes, bytes_of_tokens, number_of, token_of_bytes, token_of_number};

use crate::codes::{BRA, ERR, HLO, HUH, KET, LVL, PRN};
use crate::laws;

/// Each code with a name in the sources is that of the definitions.
fn codes_at_values()
    ensures bra { BRA ≡ bra }
    ensures ket { KET ≡ ket }
    ensures hlo { HLO ≡ hlo }
    ensures huh { HUH ≡ huh }
    ensures prn { PRN ≡ prn }
    ensures err { ERR ≡ err }
    ensures lvl { LVL ≡ lvl }
{}

/// Two bytes determine one token, also with the greatest low byte. Four bytes determine two tokens.
fn bytes_at_values()
    ensures token { (t : ℕ) → token_bytes t ≡ 0x48 ∷ 0x06 ∷ [] → t ≡ 0x4806 }
    ensures bytes { (high : ℕ) → token_bytes (token_of_bytes (high ∷ 0xFF ∷ [])) ≡ high ∷ 0xFF ∷ [] }
    ensures tokens { (ts : List ℕ) → bytes_of_tokens ts ≡ 0x48 ∷ 0x03 ∷ 0x40 ∷ 0x00 ∷ [] →
        ts ≡ 0x4803 ∷ 0x4000 ∷ [] }
{
    laws::bytes_come_back();
}

/// Only one token has the least number. The token of -1 is 3FFF.
fn numbers_at_values()
    ensures token { (t : ℕ) → number_of t ≡ Some (negsuc 8191) → t ≡ 0x2000 }
    ensures number { (n : ℤ) → token_of_number n ≡ Some 0x3FFF → n ≡ negsuc 0 }
{
    laws::numbers_come_back();
}

/// HUH has one token, and that token has one name.
fn names_at_values()
    ensures token { (t : ℕ) → name_of t ≡ Some (codes "HUH") → t ≡ 0x4806 }
    ensures name { (name : List ℕ) → token_named name ≡ Some 0x4806 → name ≡ codes "HUH" }
{
    laws::names_come_back();
}

/// HLO is the only token of its class. No token has the class of an operator's first word. A standard class whose token
/// is 4804 is that of HLO.
fn classes_at_values()
    ensures alone { (t : ℕ) → class_of t ≡ classes.Hlo → t ≡ 0x4804 }
    ensures standard { (t : ℕ) → class_of t ≡ classes.Word 0 → ⊥ }
    ensures own { (class : Class) → is_standard class ≡ true → token_of class ≡ 0x4804 → class ≡ classes.Hlo }
    ensures apart { (class : Class) → same_class classes.Hlo class ≡ true → class ≡ classes.Hlo }
    ensures same { (class : Class) → class ≡ classes.Alien → same_class class classes.Alien ≡ true }
{
    laws::single_tokens_stand_alone();
    laws::numbers_tell_classes_apart();
}

/// The text `GOF (` belongs to one list of two tokens.
fn text_at_values()
    ensures { (ts : List ℕ) → All (λ t. t < 2 ^ 16) ts → text_of ts ≡ codes "GOF (" → ts ≡ 0x4803 ∷ 0x4000 ∷ [] }
{
    laws::text_comes_back();
}
