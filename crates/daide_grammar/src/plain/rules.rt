//! The rule of an entry: the number that represents it in a `Move`.

ghost use Rattle.std.specs.Prelude.{◌≡◌};
ghost use Rattle.std.specs.Bool.{Decides};
ghost use Rattle.daide_grammar.specs.Table.Answers.{Take, entry_of_meaning, symbols_of};
ghost use Rattle.daide_grammar.specs.Table.ParseActions.{HasRule, action, rest_of};

use crate::meaning::{Meaning, Rest};
use crate::numbers::{RULE_COUNT, SKIP, STOP};
use crate::predict::Move;
use crate::symbol::{Sym, Symbol};

/// Returns the move for an entry. It searches the rules in order, since no caller of this table needs speed.
#[tactic(auto, unfolding(crate::specs::Table::ParseActions::action))]
pub(super) fn rule_of(meaning: Meaning) -> Move
    requires { HasRule (entry_of_meaning meaning) }
    ensures { result ≡ entry_of_meaning meaning }
{
    match meaning {
        Meaning::Take(rest) => rule_of_rest(&rest),
        Meaning::Skip => Move::of(SKIP),
        Meaning::Stop => Move::of(STOP),
    }
}

/// Returns the move that takes a token and leaves these symbols.
fn rule_of_rest(rest: &Rest) -> Move
    requires { HasRule (Take (symbols_of rest.now)) }
    ensures { result ≡ Take (symbols_of rest.now) }
{
    let wanted = rest.as_slice();
    for rule in 2..RULE_COUNT {
        if leaves(rule as u8, wanted) {
            return Move::of(rule as u8);
        }
    }
    Move::of(STOP)
}

/// Returns whether a rule leaves exactly these symbols.
fn leaves(rule: u8, wanted: &[Sym]) -> bool
    ensures { Decides result (rest_of (action rule) ≡ wanted.now) }
{
    let answer = Move::of(rule);
    if answer.len() != wanted.len() {
        return false;
    }
    let cells = answer.cells();
    for (place, symbol) in wanted.iter().enumerate() {
        if cells[wanted.len() - 1 - place].number() != Symbol::named(*symbol).number() {
            return false;
        }
    }
    true
}
