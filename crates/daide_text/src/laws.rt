//! Laws of the text form: what is printed is read back, and a line is read in one way.

ghost use Rattle.std.specs.Prelude.{◌≡◌, ◌^◌, ◌<◌, ◌==◌, ◌||◌, ℕ, List, Result, length, true};
ghost use Rattle.std.specs.List.{All, list_all};
ghost use Rattle.daide_token.specs.Names.{Named};
ghost use Rattle.daide_token.specs.Text.{text_with};
ghost use Rattle.daide_words.specs.Accepted.{are_accepted};
ghost use Rattle.daide_words.specs.Word.{names_of};
ghost use Rattle.daide_words.specs.declared.word.Word.{Word};
ghost use Rattle.daide_text.specs.Line.{IsReadAs, IsText, is_printable};

use daide_token::laws::names_come_back;

/// The text that `show` prints for some tokens is read as these tokens, so `frame` undoes what `show` prints. This
/// holds with an operator's words as without.
///
/// Premise: tokens below 2^16, and accepted words with names of three letters, as `Words` has them.
pub fn printed_text_is_read_back()
    ensures { (words : List Word) (ts : List ℕ) → are_accepted words ≡ true →
        All (λ word. length word.name ≡ 3) words → All (λ t. t < 2 ^ 16) ts →
        IsText (names_of words) (text_with (names_of words) ts) ts }
{
    names_come_back();
}

/// A line has at most one reading: as a list of tokens, or with its first fault at one column. It is cut into pieces,
/// and each piece is a blank, an item or a fault (`IsReadAs`).
pub fn lines_are_read_in_one_way()
    ensures { (added : List Named) (line : List ℕ) (one other : Result (List ℕ) ℕ) →
        IsReadAs added line one → IsReadAs added line other → one ≡ other }
{}

/// Every line has a reading: as tokens, or with its first fault at a column.
pub fn each_line_is_read()
    ensures { (added : List Named) (line : List ℕ) → (outcome : Result (List ℕ) ℕ) × IsReadAs added line outcome }
{}

/// A line that is read as tokens has only characters from space to `~`, and tabs.
pub fn text_alone_is_read()
    ensures { (added : List Named) (line ts : List ℕ) → IsText added line ts →
        list_all (λ c. is_printable c || c == 9) line ≡ true }
{}

/// The text that `show` prints for the tokens of a text is a text of the same tokens. Others may exist, since blanks
/// are free and leading zeros count nothing.
///
/// Premise: accepted words with names of three letters.
pub fn canonical_text_is_read_alike()
    ensures { (words : List Word) (line ts : List ℕ) → are_accepted words ≡ true →
        All (λ word. length word.name ≡ 3) words → IsText (names_of words) line ts →
        IsText (names_of words) (text_with (names_of words) ts) ts }
{
    printed_text_is_read_back();
}
