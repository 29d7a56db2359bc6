//! The reader's count of open brackets.
//!
//! Whether a message is paired does not depend on the grammar, so brackets are counted apart from the table, in every
//! token, also after one that no message continues.

ghost use Rattle.std.specs.Prelude.{◌≡◌, ◌+◌, ◌<◌, ◌↔◌, ◌||◌, IsTrue, not, Some};
ghost use Rattle.daide_grammar.specs.Table.Brackets.{is_bra, is_ket, count_one};
ghost use Rattle.daide_grammar.specs.Table.Numbers.{is_bracket};
ghost use Rattle.daide_reader.specs.Bounds.{below_zero};
ghost use Rattle.daide_reader.specs.Stack.{open_count};

use daide_grammar::column::Column;
use daide_token::token::Token;

/// The number of open brackets after a KET with nothing open: one below zero, which wraps.
pub const BELOW_ZERO: u16 = u16::MAX;

/// Returns whether exactly `count` brackets are open.
#[inline(always)]
pub fn are_open(unclosed: Option<u16>, count: u16) -> bool
    ensures { IsTrue result ↔ (unclosed ≡ Some count) }
{
    unclosed == Some(count)
}

/// Counts one more token, if no bracket may be opened. Returns false if the token opens one. The class shows that most
/// tokens are no brackets. The count wraps at a KET with nothing open.
#[inline(always)]
pub fn recount(opened: &mut u16, token: Token, class: Column) -> bool
    requires low { opened.old + 1 < below_zero }
    requires told { is_bracket class ≡ (is_bra token || is_ket token) }
    ensures fits { result ≡ not (is_bra token) }
    ensures counted { count_one (is_bra token) (is_ket token) (Some opened.old) ≡ open_count opened.new }
{
    if class.is_bracket() {
        if token.is_bra() {
            *opened += 1;
            return false;
        }
        *opened = opened.wrapping_sub(1);
    }
    true
}
