//! The least level above a given one at which a message is relayed.

ghost use Rattle.std.specs.Prelude.{◌≤◌, length};
ghost use Rattle.daide_token.specs.Token.{tokens_of};
ghost use Rattle.daide_words.specs.Word.{grammar_words};
ghost use Rattle.daide_words.specs.Words.{words_of};
ghost use Rattle.daide_protocol.specs.Bounds.{longest_body, greatest_depth};
ghost use Rattle.daide_explain.specs.LowestLevel.{IsLowestAbove};

use crate::expected::is_relayed;
use crate::rules::Rules;
use daide_grammar::Level;

/// The levels with press, in ascending order.
const LEVELS: [Level; 6] = [
    Level::L10,
    Level::L20,
    Level::L30,
    Level::L40,
    Level::L50,
    Level::L60,
];

/// Returns the least level above the given one at which the message of a body is relayed.
pub fn lowest_level(rules: &Rules<'_>, body: &[u8]) -> Option<Level>
    requires high { rules.now.max_depth ≤ greatest_depth }
    requires capped { length body.now ≤ longest_body }
    ensures { IsLowestAbove (grammar_words (words_of rules.now.words.now)) rules.now.end rules.now.level
        rules.now.max_depth (tokens_of body.now) result }
{
    for i in 0..6 {
        let level = LEVELS[i];
        let higher = Rules {
            words: rules.words,
            end: rules.end,
            level,
            max_depth: rules.max_depth,
        };
        if level.number() > rules.level.number() && is_relayed(&higher, body) {
            return Some(level);
        }
    }
    None
}
