//! One application of each law of `laws`, to inputs with known results, so that a weakened law fails to check. Nothing
//! here is called.

ghost use Rattle.std.specs.Prelude.{◌≡◌, ◌++◌, [], ◌∷◌, Result, Ok, Err, Some, None, codes, true};
ghost use Rattle.daide_frame.specs.declared.code.Code.TheVariants.{InvalidToken};
ghost use Rattle.daide_frame.specs.declared.side.Side.TheVariants.{Bot};
ghost use Rattle.daide_grammar.specs.declared.level.Level.TheVariants.{L0};
ghost use Rattle.daide_reader.specs.declared.verdict.Verdict.TheVariants.{Huh};
ghost use Rattle.daide_show.specs.declared.frame_view.ShowFault.{ShowFault};
ghost use Rattle.daide_show.specs.declared.frame_view.ShowFault.TheVariants.{NotHex};
ghost use Rattle.daide_show.specs.Input.{digits_of};
ghost use Rattle.daide_show.specs.Note.{noted_fault};
ghost use Rattle.daide_show.specs.Shown.{IsShownAs, Shown, frame_fault_lines, plain_request, verdict_lines};

use crate::laws;

/// An FM is shown as its kind, its length and `relay`, and in no other way. The letter G is not a digit.
fn one_way_at_two_inputs()
    ensures shown { (outcome : Result Shown ShowFault) →
        IsShownAs (plain_request Bot L0) (codes "03 00 00 00") outcome →
        outcome ≡ Ok (record { text = codes "FM 0" ++ 10 ∷ codes "relay" ++ 10 ∷ []; relayed = true }) }
    ensures refused { (outcome : Result Shown ShowFault) → IsShownAs (plain_request Bot L0) (codes "0G") outcome →
        outcome ≡ Err NotHex }
{
    laws::input_is_shown_in_one_way();
}

/// A tab, a space, a line feed, a comma and a colon are dropped, also inside a byte. A semicolon stays.
fn separators_at_an_input()
    ensures { digits_of (codes "0\t2 ,0:0\n;") ≡ codes "0200;" }
{
    laws::separators_alone_are_dropped();
}

/// The explanation of an FM adds no line.
fn explanation_at_a_relayed_frame()
    ensures { (explained : Shown) →
        IsShownAs (record { words = []; side = Bot; level = L0; explained = true }) (codes "03 00 00 00") (Ok explained) →
        explained.text ≡ codes "FM 0" ++ 10 ∷ codes "relay" ++ 10 ∷ [] }
{
    laws::explanation_only_adds();
}

/// An input of one digit has the fault of its note, and an input that is shown has no note.
fn note_at_two_inputs()
    ensures odd { (outcome : Result Shown ShowFault) → IsShownAs (plain_request Bot L0) (codes "0") outcome →
        noted_fault outcome ≡ Some NotHex }
    ensures whole { (outcome : Result Shown ShowFault) → IsShownAs (plain_request Bot L0) (codes "03 00 00 00") outcome →
        noted_fault outcome ≡ None }
{
    laws::note_is_of_the_fault();
}

/// For `OBS GOF`, refused at index 1, the shown answer is `HUH ( OBS ERR GOF )`.
fn answer_at_a_message()
    ensures { verdict_lines [] (Huh 1) (0x48 ∷ 0x0F ∷ 0x48 ∷ 0x03 ∷ [])
        ≡ codes "HUH at 1" ++ 10 ∷ codes "HUH ( OBS ERR GOF )" ++ 10 ∷ [] }
{
    laws::shown_answers_are_those_sent();
}

/// Of two invalid tokens the first one is explained, also if it is the first token of its message.
fn invalid_token_at_two_frames()
    ensures first { frame_fault_lines 512 InvalidToken (2 ∷ 0 ∷ 0 ∷ 4 ∷ 0x58 ∷ 0 ∷ 0x60 ∷ 0 ∷ [])
        ≡ codes "invalid token 5800 at byte 4" ++ 10 ∷ codes "expected: 0000 to 4BFF, or 5000 to 57FF" ++ 10 ∷ [] }
    ensures later { frame_fault_lines 512 InvalidToken (2 ∷ 0 ∷ 0 ∷ 6 ∷ 0x48 ∷ 3 ∷ 0x60 ∷ 1 ∷ 0x58 ∷ 0 ∷ [])
        ≡ codes "invalid token 6001 at byte 6" ++ 10 ∷ codes "expected: 0000 to 4BFF, or 5000 to 57FF" ++ 10 ∷ [] }
{
    laws::invalid_token_is_explained();
}
