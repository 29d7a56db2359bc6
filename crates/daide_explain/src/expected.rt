//! Whether a token, or the end, is expected after some tokens.

ghost use Rattle.std.specs.Prelude.{◌≡◌, ◌≤◌, ◌↔◌, IsTrue, false, length};
ghost use Rattle.daide_token.specs.Token.{tokens_of};
ghost use Rattle.daide_grammar.specs.Paired.{begins_with_prn};
ghost use Rattle.daide_grammar.specs.SideMessages.{IsMessageOver};
ghost use Rattle.daide_words.specs.Word.{grammar_words};
ghost use Rattle.daide_words.specs.Words.{words_of};
ghost use Rattle.daide_reader.specs.Verdict.{HasVerdict, IsPlaceIn, IsRelayed};
ghost use Rattle.daide_protocol.specs.Bounds.{longest_body, greatest_depth};
ghost use Rattle.daide_explain.specs.Expected.{IsExpected, IsEndExpected};

use crate::rules::Rules;
use daide_protocol::STACK_ENTRIES;
use daide_reader::{Reader, Verdict};
use daide_token::Token;
use daide_words::Extended;
use daide_words::laws::laws_hold_over;

/// Returns whether a token is expected after the tokens of a body. These must not begin with PRN.
pub fn is_expected(rules: &Rules<'_>, before: &[u8], token: Token) -> bool
    requires high { rules.now.max_depth ≤ greatest_depth }
    requires capped { length before.now ≤ longest_body }
    requires plain { begins_with_prn (tokens_of before.now) ≡ false }
    ensures { IsTrue result
        ↔ IsExpected (IsMessageOver (grammar_words (words_of rules.now.words.now)) rules.now.end rules.now.level)
        rules.now.max_depth (tokens_of before.now) token }
{
    // Only PRN begins a report, and the table does not cover reports.
    if before.len() < 2 && token.is_prn() {
        return true;
    }
    // The prover needs the type of the words' codes in scope to build a reader over words.
    let _names = rules.words.names();
    let mut reader: Reader<Extended, STACK_ENTRIES> = Reader::new(
        Extended::new(*rules.words),
        rules.max_depth,
    );
    reader.start(rules.end, rules.level);
    reader.read(before);
    reader.push(token);
    reader.place().is_none()
}

/// Returns the verdict on the message of a body.
pub fn verdict_of(rules: &Rules<'_>, body: &[u8]) -> Verdict
    requires high { rules.now.max_depth ≤ greatest_depth }
    requires capped { length body.now ≤ longest_body }
    ensures verdict { HasVerdict (IsMessageOver (grammar_words (words_of rules.now.words.now)) rules.now.end
        rules.now.level) rules.now.max_depth (tokens_of body.now) result }
    ensures within { IsPlaceIn body.now result }
{
    let _names = rules.words.names();
    let mut reader: Reader<Extended, STACK_ENTRIES> = Reader::new(
        Extended::new(*rules.words),
        rules.max_depth,
    );
    reader.start(rules.end, rules.level);
    reader.read_body(body)
}

/// Returns whether the message of a body is relayed.
pub fn is_relayed(rules: &Rules<'_>, body: &[u8]) -> bool
    requires high { rules.now.max_depth ≤ greatest_depth }
    requires capped { length body.now ≤ longest_body }
    ensures { IsTrue result
        ↔ IsRelayed (IsMessageOver (grammar_words (words_of rules.now.words.now)) rules.now.end rules.now.level)
        rules.now.max_depth (tokens_of body.now) }
{
    laws_hold_over(rules.words);
    matches!(verdict_of(rules, body), Verdict::Relay)
}

/// Returns whether the end is expected after the tokens of a body: whether they are a message that is relayed
/// (`IsEndExpected`).
pub fn is_end_expected(rules: &Rules<'_>, before: &[u8]) -> bool
    requires high { rules.now.max_depth ≤ greatest_depth }
    requires capped { length before.now ≤ longest_body }
    ensures { IsTrue result
        ↔ IsEndExpected (IsMessageOver (grammar_words (words_of rules.now.words.now)) rules.now.end rules.now.level)
        rules.now.max_depth (tokens_of before.now) }
{
    is_relayed(rules, before)
}
