//! One application of each law of `laws`, to values with known results, so that a weakened law fails to check. Nothing
//! here is called.

ghost use Rattle.std.specs.Prelude.{◌≡◌, ℕ, List, [], ◌∷◌, Result, Err, codes};
ghost use Rattle.daide_text.specs.Line.{IsReadAs, IsText};

use crate::laws;

/// The text `GOF ( -1 )` is printed for four tokens, and is parsed as these.
fn printed_text_at_a_value()
    ensures { IsText [] (codes "GOF ( -1 )") (0x4803 ∷ 0x4000 ∷ 0x3FFF ∷ 0x4001 ∷ []) }
{
    laws::printed_text_is_read_back();
}

/// A word that is not an item has a fault at its own column, and the line has no other result.
fn one_reading_at_a_value()
    ensures { (outcome : Result (List ℕ) ℕ) → IsReadAs [] (codes "GOF gof") outcome → outcome ≡ Err 5 }
{
    laws::lines_are_read_in_one_way();
}

/// A line with a byte that no token has is parsed too: it has a fault.
fn some_reading_at_a_value()
    ensures { (outcome : Result (List ℕ) ℕ) × IsReadAs [] (0xC3 ∷ []) outcome }
{
    laws::each_line_is_read();
}

/// If `TME(007)` is a text of some tokens, so is the text that is printed for them.
fn canonical_text_at_a_value()
    ensures { IsText [] (codes "TME ( 7 )") (0x481B ∷ 0x4000 ∷ 7 ∷ 0x4001 ∷ []) }
{
    laws::canonical_text_is_read_alike();
}

/// A vertical tab is in no line that is read.
fn only_text_at_a_value()
    ensures { (ts : List ℕ) → IsText [] (71 ∷ 11 ∷ []) ts → ⊥ }
{
    laws::text_alone_is_read();
}
