//! The end of a message, by the stack of expected symbols.
//!
//! The next symbol is the last of the array; the abstract value is in reverse order.

ghost use Rattle.std.specs.Prelude.{◌≡◌, ◌≤◌, ◌+◌, ◌%◌, ◌^◌, false, reverse};
ghost use Rattle.std.specs.List.{list_all};
ghost use Rattle.daide_grammar.specs.Table.Stacks.{ends_asked};
ghost use Rattle.daide_reader.specs.Bounds.{most_symbols};

use crate::parse_stack::ParseStack;
use daide_grammar::predict::Predict;
use daide_grammar::symbol::Symbol;

/// Returns whether every symbol on the stack is nullable. It looks symbols up from the top, until it finds one that is
/// not.
pub fn may_all_end<T: Predict, const N: usize>(table: &mut T, stack: &ParseStack<Symbol, N>) -> bool
    requires { N ≤ most_symbols }
    ensures all { result ≡ list_all (T.ends (T.words table.old)) (reverse stack.now) }
    ensures words { T.words table.new ≡ T.words table.old }
    ensures steps { T.asked table.new % 2 ^ 64
        ≡ (T.asked table.old + ends_asked (T.ends (T.words table.old)) (reverse stack.now)) % 2 ^ 64 }
{
    let symbols = stack.as_slice();
    let mut left = symbols.len();
    while left > 0 {
        left -= 1;
        if !table.may_end(symbols[left]) {
            return false;
        }
    }
    true
}
