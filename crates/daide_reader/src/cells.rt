//! The stack as an array and a count. A rest is pushed by one copy of a fixed length.

ghost use Rattle.std.specs.Prelude.{◌≡◌, ◌≤◌, ◌<◌, ◌+◌, ◌%◌, ◌^◌, ◌++◌, None, Some, IfSome, IfNone, take, length, reverse};
ghost use Rattle.daide_token.specs.Class.{class_of as known_class};
ghost use Rattle.daide_grammar.specs.Table.ParseActions.{rest_of};
ghost use Rattle.daide_grammar.specs.Table.Stacks.{stack_after};
ghost use Rattle.daide_reader.specs.Bounds.{most_symbols};
ghost use Rattle.daide_reader.specs.Stack.{steps_at};

use daide_grammar::column::Column;
use daide_grammar::predict::{Move, Predict};
use daide_grammar::symbol::Symbol;
use daide_token::token::Token;

/// Writes all eight cells from index `at` on.
#[inline(always)]
fn put_rest<const N: usize>(cells: &mut [Symbol; N], at: usize, rest: [Symbol; 8])
    requires size { N ≤ most_symbols }
    requires room { at + 8 ≤ N }
    ensures { take (at + 8) cells.new ≡ take at cells.old ++ rest }
{
    let mut done = 0;
    while done < 8 {
        cells[at + done] = rest[done];
        done += 1;
    }
}

/// Replaces the top by the symbols that a move leaves, and returns the new height of the stack.
#[inline(always)]
pub(crate) fn put<const N: usize>(cells: &mut [Symbol; N], top: usize, answer: &Move) -> usize
    requires size { N ≤ most_symbols }
    requires room { top + 8 ≤ N }
    ensures stack { reverse (take result cells.new) ≡ rest_of answer.now ++ reverse (take top cells.old) }
    ensures inside { result ≤ N }
    ensures written { result ≤ length cells.new }
{
    put_rest(cells, top, answer.cells());
    answer.height_after(top)
}

/// Applies a token of this class to the stack in the first `count` cells, the last of which is the top. Returns the new
/// height if a symbol takes the token. Writes no cell above that height.
#[inline(never)]
pub(crate) fn follow<T: Predict, const N: usize>(
    table: &mut T,
    cells: &mut [Symbol; N],
    count: usize,
    class: Column,
) -> Option<usize>
    requires size { N ≤ most_symbols }
    requires count { count ≤ N }
    requires room { IfSome (stack_after (T.moves (T.words table.old)) class (reverse (take count cells.old)))
        (λ after. length after ≤ N) }
    ensures taken { IfSome result (λ left.
        stack_after (T.moves (T.words table.old)) class (reverse (take count cells.old))
        ≡ Some (reverse (take left cells.new))) }
    ensures inside { IfSome result (λ left. left ≤ N) }
    ensures reject_at { IfNone result
        (stack_after (T.moves (T.words table.old)) class (reverse (take count cells.old)) ≡ None) }
    ensures words { T.words table.new ≡ T.words table.old }
    ensures steps { T.asked table.new % 2 ^ 64
        ≡ (T.asked table.old + steps_at (T.moves (T.words table.old)) class (reverse (take count cells.old))) % 2 ^ 64 }
{
    let mut left = count;
    while left > 0 {
        left -= 1;
        let answer = table.predict(cells[left], class);
        if answer.is_take() {
            put_slowly(cells, left, answer.cells(), answer.len());
            return Some(left + answer.len());
        }
        if answer.is_stop() {
            return None;
        }
    }
    None
}

/// Does the same after the protocol's own table stopped the token at the top. It looks that symbol up once more, with
/// the token as an operator's word.
#[cold]
#[inline(never)]
pub(crate) fn follow_word<T: Predict, const N: usize>(
    table: &mut T,
    cells: &mut [Symbol; N],
    top: usize,
    token: Token,
    column: Column,
) -> Option<usize>
    requires size { N ≤ most_symbols }
    requires top { top < N }
    requires column { column ≡ known_class token }
    requires room { IfSome (stack_after (T.moves (T.words table.old)) (T.class_of (T.words table.old) token)
        (reverse (take (top + 1) cells.old))) (λ after. length after ≤ N) }
    ensures taken { IfSome result (λ left.
        stack_after (T.moves (T.words table.old)) (T.class_of (T.words table.old) token)
        (reverse (take (top + 1) cells.old)) ≡ Some (reverse (take left cells.new))) }
    ensures inside { IfSome result (λ left. left ≤ N) }
    ensures reject_at { IfNone result
        (stack_after (T.moves (T.words table.old)) (T.class_of (T.words table.old) token)
        (reverse (take (top + 1) cells.old)) ≡ None) }
    ensures words { T.words table.new ≡ T.words table.old }
    ensures steps { T.asked table.new % 2 ^ 64
        ≡ (T.asked table.old + steps_at (T.moves (T.words table.old)) (T.class_of (T.words table.old) token)
        (reverse (take (top + 1) cells.old))) % 2 ^ 64 }
{
    let answer = table.predict_word(cells[top], token, column);
    if answer.is_take() {
        put_slowly(cells, top, answer.cells(), answer.len());
        return Some(top + answer.len());
    }
    if answer.is_stop() {
        return None;
    }
    let class = table.class_of(token);
    follow(table, cells, top, class)
}

/// Writes the first `count` symbols from index `at` on.
#[inline(always)]
fn put_slowly<const N: usize>(cells: &mut [Symbol; N], at: usize, rest: [Symbol; 8], count: usize)
    requires size { N ≤ most_symbols }
    requires few { count ≤ 8 }
    requires room { at + count ≤ N }
    ensures { take (at + count) cells.new ≡ take at cells.old ++ take count rest }
{
    let mut done = 0;
    while done < count {
        cells[at + done] = rest[done];
        done += 1;
    }
}
