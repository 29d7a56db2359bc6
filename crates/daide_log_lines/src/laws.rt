//! Laws of a log's lines: functions with no parameters and an empty body, whose contracts are the laws.

ghost use Rattle.std.specs.Prelude.{◌≡◌, ◌≤◌, ℕ, List, Some, true, codes};
ghost use Rattle.std.specs.Fmt.{decimal};
ghost use Rattle.daide_words.specs.declared.word.Word.{Word};
ghost use Rattle.daide_log_lines.specs.Forms.{IsEventLine, IsMatchEventLine, IsWordLine};
ghost use Rattle.daide_log_lines.specs.LogLine.{LogEvent, event_of_line, is_name, plain_number};
ghost use Rattle.daide_log_lines.specs.MatchLine.{MatchEvent, is_match_name, match_event_of_line};
ghost use Rattle.daide_log_lines.specs.WordLine.{word_of_line};

/// A line that is accepted is one of the forms that docs/FORMATS.md lists, byte for byte: the first line, a number, an
/// event of version 1 and of version 2, and a word.
pub fn accepted_lines_have_these_forms()
    ensures single { (line : List ℕ) → is_name line ≡ true → line ≡ codes "daide-log 1" }
    ensures match_log { (line : List ℕ) → is_match_name line ≡ true → line ≡ codes "daide-log 2" }
    ensures number { (digits : List ℕ) (number : ℕ) → plain_number digits ≡ Some number →
        (digits ≡ decimal number) × (number ≤ 65535) }
    ensures event { (line : List ℕ) (event : LogEvent) → event_of_line line ≡ Some event → IsEventLine line event }
    ensures match_event { (sessions : ℕ) (line : List ℕ) (event : MatchEvent) →
        match_event_of_line sessions line ≡ Some event → IsMatchEventLine sessions line event }
    ensures word { (line : List ℕ) (word : Word) → word_of_line line ≡ Some word → IsWordLine line word }
{}
