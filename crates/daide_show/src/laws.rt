//! What holds of the definitions by themselves.

ghost use Rattle.std.specs.Prelude.{◌≡◌, ◌≤◌, ◌+◌, ◌*◌, ℕ, [], ◌∷◌, ◌++◌, codes, false, true, length, List, None, Result, filter, not, option_map};
ghost use Rattle.std.specs.Fmt.{decimal};
ghost use Rattle.std.specs.Int.{w16, from_be_bytes};
ghost use Rattle.std.specs.List.{list_all};
ghost use Rattle.daide_token.specs.Token.{tokens_of};
ghost use Rattle.daide_frame.specs.declared.code.Code.TheVariants.{InvalidToken};
ghost use Rattle.daide_frame.specs.declared.side.Side.{Side};
ghost use Rattle.daide_frame.specs.Frames.{first_alien, is_alien};
ghost use Rattle.daide_grammar.specs.declared.level.Level.{Level};
ghost use Rattle.daide_words.specs.declared.word.Word.{Word};
ghost use Rattle.daide_reader.specs.declared.verdict.Verdict.{Verdict};
ghost use Rattle.daide_protocol.specs.Answers.{answer_body};
ghost use Rattle.daide_io.specs.FaultField.{padded_hex};
ghost use Rattle.daide_show.specs.declared.frame_view.ShowFault.{ShowFault};
ghost use Rattle.daide_show.specs.Input.{digits_of, is_ordinary, is_separator};
ghost use Rattle.daide_show.specs.Note.{fault_of_note, input_note_of, noted_fault};
ghost use Rattle.daide_show.specs.Shown.{ShowRequest, OnlyAdds, Shown, IsShownAs, frame_fault_lines, is_relay, line, printed};
ghost use Rattle.daide_show.specs.Shown.{verdict_lines, verdict_name};

use daide_explain::laws::explained_in_one_way;

/// An input is shown in one way, or refused with one fault, so the clauses of `show` leave no choice.
pub fn input_is_shown_in_one_way()
    ensures { (asked : ShowRequest) (input : List ℕ) (one other : Result Shown ShowFault) →
        IsShownAs asked input one → IsShownAs asked input other → one ≡ other }
{
    explained_in_one_way();
}

/// Of an input without an `x`, a backslash and a quote the separators are dropped, and nothing else. So it is taken only if
/// each other byte of it is a digit.
pub fn separators_alone_are_dropped()
    ensures { (input : List ℕ) → list_all is_ordinary input ≡ true →
        digits_of input ≡ filter (λ b. not (is_separator b)) input }
{}

/// What is shown without an explanation is a prefix of what is shown with one, and the result or fault is the same. If
/// the frame is relayed, nothing is added.
pub fn explanation_only_adds()
    ensures { (words : List Word) (side : Side) (level : Level) (input : List ℕ)
        (plain explained : Result Shown ShowFault) →
        IsShownAs (record { words = words; side = side; level = level; explained = false }) input plain →
        IsShownAs (record { words = words; side = side; level = level; explained = true }) input explained →
        OnlyAdds plain explained }
{}

/// An input has a note if and only if its fault is `NotHex` or `NotOneFrame`, and the note is of that fault.
pub fn note_is_of_the_fault()
    ensures { (asked : ShowRequest) (input : List ℕ) (outcome : Result Shown ShowFault) → IsShownAs asked input outcome →
        option_map fault_of_note (input_note_of input) ≡ noted_fault outcome }
{}

/// The answer that is shown is the text of the body that a session sends back for that verdict.
pub fn shown_answers_are_those_sent()
    ensures { (words : List Word) (body : List ℕ) (verdict : Verdict) → is_relay verdict ≡ false →
        verdict_lines words verdict body
        ≡ line (verdict_name verdict) ++ line (printed words (tokens_of (answer_body body verdict))) }
{}

/// An invalid token is explained by its value and its place, and so is the first token of a message: at byte 4. Neither
/// the tokens before it, all of known categories, nor what follows it change the lines.
pub fn invalid_token_is_explained()
    ensures { (cap count high low : ℕ) (header before after : List ℕ) → length header ≡ 4 →
        length before ≡ 2 * count → first_alien before ≡ None → is_alien high low ≡ true → 2 * count + 2 ≤ cap →
        frame_fault_lines cap InvalidToken (header ++ before ++ high ∷ low ∷ after)
        ≡ line (codes "invalid token " ++ padded_hex 4 (from_be_bytes w16 (high ∷ low ∷ [])) ++ codes " at byte "
        ++ decimal (4 + 2 * count)) ++ line (codes "expected: 0000 to 4BFF, or 5000 to 57FF") }
{}
