//! Laws of the definitions: the calls that turn tokens into bytes, numbers and names undo each other.

ghost use Rattle.std.specs.Prelude.{[], true, ℕ, ℤ, List, ◌^◌, ◌<◌, ◌∷◌, ◌≡◌, ◌↔◌};
ghost use Rattle.std.specs.List.{All};
ghost use Rattle.daide_token.specs.Class.{class_of, has_one_token, is_standard, token_of};
ghost use Rattle.daide_token.specs.ClassNumbers.{same_class};
ghost use Rattle.daide_token.specs.declared.class.Class.{Class};
ghost use Rattle.daide_token.specs.Names.{name_of, token_named};
ghost use Rattle.daide_token.specs.Text.{text_of};
ghost use Rattle.daide_token.specs.Token.{token_bytes, bytes_of_tokens, number_of};
ghost use Rattle.daide_token.specs.Token.{token_of_bytes, token_of_number, tokens_of};

/// Tokens and bytes are inverse: a token's bytes give the token back, and two bytes' token gives the bytes back. The
/// same holds of lists of tokens.
#[tactic(auto, using(crate::proofs::TokenLemmas::tokens_of_bytes_of_tokens))]
pub fn bytes_come_back()
    ensures token { (t : ℕ) → token_of_bytes (token_bytes t) ≡ t }
    ensures bytes { (high low : ℕ) → low < 256 → token_bytes (token_of_bytes (high ∷ low ∷ [])) ≡ high ∷ low ∷ [] }
    ensures tokens { (ts : List ℕ) → tokens_of (bytes_of_tokens ts) ≡ ts }
{}

/// Tokens and numbers are inverse: a token has a number if and only if it is the token of that number. In the
/// definitions a token is a natural number. One above 0xFFFF has neither a number nor a name, and is alien.
pub fn numbers_come_back()
    ensures token { (t : ℕ) (n : ℤ) → number_of t ≡ Some n → token_of_number n ≡ Some t }
    ensures number { (n : ℤ) (t : ℕ) → token_of_number n ≡ Some t → number_of t ≡ Some n }
{}

/// Tokens and names are inverse: a token has a name if and only if it is the token of that name. So no two tokens share
/// a name.
pub fn names_come_back()
    ensures token { (t : ℕ) (name : List ℕ) → name_of t ≡ Some name → token_named name ≡ Some t }
    ensures name { (name : List ℕ) (t : ℕ) → token_named name ≡ Some t → name_of t ≡ Some name }
{}

/// A class with a token of its own contains no other token. No token has an operator's word as its class, and every
/// other class contains a token.
pub fn single_tokens_stand_alone()
    ensures alone { (t : ℕ) → has_one_token (class_of t) ≡ true → t ≡ token_of (class_of t) }
    ensures standard { (t : ℕ) → is_standard (class_of t) ≡ true }
    ensures own { (class : Class) → is_standard class ≡ true → class_of (token_of class) ≡ class }
{}

/// Two classes have the same number if and only if they are equal. So the table, which compares classes by number, takes
/// a token exactly if its class is the one that a place of a form accepts.
pub fn numbers_tell_classes_apart()
    ensures { (c d : Class) → (same_class c d ≡ true) ↔ (c ≡ d) }
{}

/// Two lists of tokens with the same printed text are equal. So nothing that docs/FORMATS.md prints makes two messages
/// look alike.
///
/// Premise: tokens below 2^16, and text without an operator's names. With these names the law
/// `printed_text_is_read_back` of `daide_text` says it.
pub fn text_comes_back()
    ensures { (ts us : List ℕ) → All (λ t. t < 2 ^ 16) ts → All (λ t. t < 2 ^ 16) us →
        text_of ts ≡ text_of us → ts ≡ us }
{}
