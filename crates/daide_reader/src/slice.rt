//! The tokens of a slice in one loop, with all mutable state in locals.
//!
//! The loop does not read what is constant over the message or the slice: whether the message begins with PRN, its
//! outline, and whether an error place was found.

ghost use Rattle.std.specs.Prelude.{◌≡◌, ◌≤◌, ◌<◌, ◌+◌, ◌-◌, ◌/◌, ◌%◌, ◌^◌, ◌⊎◌, ℕ, None, Some, IsSome, IfSome, IfNone, take, drop, length, reverse, true, false};
ghost use Rattle.daide_token.specs.Token.{tokens_of};
ghost use Rattle.daide_grammar.specs.Bounds.{cells_bound};
ghost use Rattle.daide_grammar.specs.Table.Brackets.{is_bra, is_ket, count_one};
ghost use Rattle.daide_grammar.specs.Table.Stacks.{stack_after};
ghost use Rattle.daide_reader.specs.Bounds.{below_zero, longest_message, most_symbols, most_tokens};
ghost use Rattle.daide_reader.specs.LookUps.{open_to};
ghost use Rattle.daide_reader.specs.Outline.{count_all};
ghost use Rattle.daide_reader.specs.Slice.{ReadsTo, place_behind};
ghost use Rattle.daide_reader.specs.Stack.{open_count, steps_at};

use crate::brackets::{BELOW_ZERO, recount};
use crate::cells::{follow, follow_word, put};
use crate::loaded::LoadedToken;
use daide_grammar::column::Column;
use daide_grammar::predict::Predict;
use daide_grammar::symbol::Symbol;
use daide_grammar::top_symbol::TopSymbol;
use daide_token::token::Token;
use daide_token::token_at;

/// The state before tokens of a body are read.
#[derive(Clone, Copy)]
pub struct RunStart {
    /// The index of the next token.
    pub read: usize,
    /// The number of open brackets.
    pub unclosed: u16,
    /// The height of the stack.
    pub count: usize,
}

/// The state after tokens of a body were read: to its end, or to the first token that no message continues.
#[derive(Clone, Copy)]
pub struct RunEnd {
    pub tokens: usize,
    pub unclosed: Option<u16>,
    pub place: Option<u16>,
    /// The height of the stack.
    pub count: usize,
}

/// Applies one token to the stack in the first `count` cells, and counts its bracket. No bracket may be opened. Returns
/// the new height if the token is taken.
#[cold]
fn read_token<T: Predict, const N: usize>(
    table: &mut T,
    cells: &mut [Symbol; N],
    count: usize,
    opened: &mut u16,
    token: Token,
) -> Option<usize>
    requires size { N ≤ most_symbols }
    requires count { count ≤ N }
    requires low { opened.old + 1 < below_zero }
    requires room { is_bra token ≡ false →
        IfSome (stack_after (T.moves (T.words table.old)) (T.class_of (T.words table.old) token)
        (reverse (take count cells.old))) (λ after. length after ≤ N) }
    ensures fits { IsSome result → is_bra token ≡ false }
    ensures taken { IfSome result (λ r.
        stack_after (T.moves (T.words table.old)) (T.class_of (T.words table.old) token)
        (reverse (take count cells.old))
        ≡ Some (reverse (take r cells.new))) }
    ensures inside { IfSome result (λ r. r ≤ N) }
    ensures counted { count_one (is_bra token) (is_ket token) (Some opened.old) ≡ open_count opened.new }
    ensures reject_at { IfNone result ((is_bra token ≡ true)
        ⊎ (stack_after (T.moves (T.words table.old)) (T.class_of (T.words table.old) token)
        (reverse (take count cells.old)) ≡ None)) }
    ensures words { T.words table.new ≡ T.words table.old }
    ensures steps { (n : ℕ)
        × (n ≤ steps_at (T.moves (T.words table.old)) (T.class_of (T.words table.old) token)
        (open_to (is_bra token) true (reverse (take count cells.old))))
        × (T.asked table.new % 2 ^ 64 ≡ (T.asked table.old + n) % 2 ^ 64) }
{
    let class = table.class_of(token);
    if !recount(opened, token, class) {
        return None;
    }
    follow(table, cells, count, class)
}

/// Returns the end of a run at a token that is not taken. The token is counted.
#[inline(always)]
fn reject_at(opened: u16, place: usize) -> RunEnd
    requires { place < most_tokens }
    ensures tokens { result.tokens ≡ place + 1 }
    ensures unclosed { result.unclosed ≡ open_count opened }
    ensures place { result.place ≡ Some place }
    ensures count { result.count ≡ 0 }
{
    RunEnd {
        tokens: place + 1,
        unclosed: if opened == BELOW_ZERO {
            None
        } else {
            Some(opened)
        },
        place: Some(place as u16),
        count: 0,
    }
}

/// Returns the end of a run of tokens that are all taken.
#[inline(always)]
fn run_end(tokens: usize, opened: u16, count: usize) -> RunEnd
    ensures tokens { result.tokens ≡ tokens }
    ensures unclosed { result.unclosed ≡ Some opened }
    ensures place { result.place ≡ None }
    ensures count { result.count ≡ count }
{
    RunEnd {
        tokens,
        unclosed: Some(opened),
        place: None,
        count,
    }
}

/// Reads tokens of a body, at most as many as brackets may still be opened. So no token can open a bracket too many, and
/// the loop checks neither the depth nor the room on the stack. A symbol that is skipped leaves the token and its class
/// as they are, and whether the stack is empty is tested where it may have become so. The symbol on top is in a local:
/// after a token that leaves symbols it comes from the table, so no look-up waits for a cell that was just written.
#[inline(always)]
fn run_below_depth_limit<T: Predict, const N: usize>(
    table: &mut T,
    cells: &mut [Symbol; N],
    body: &[u8],
    start: RunStart,
    max_depth: u16,
) -> RunEnd
    requires size { N ≤ most_symbols }
    requires count { start.count ≤ N }
    requires at_depth_limit { cells_bound max_depth ≤ N }
    requires room { length body.now ≤ longest_message }
    requires read { start.read < length body.now / 2 }
    requires deep { start.unclosed < max_depth }
    requires lawful { T.lawful (T.words table.old) (reverse (take start.count cells.old)) start.unclosed }
    ensures inside { result.count ≤ N }
    ensures moves { start.read < result.tokens }
    ensures tokens { result.tokens ≤ length body.now / 2 }
    ensures reads { ReadsTo T.Predict max_depth body.now start.read start.unclosed
        (record { table = table.old; stack = reverse (take start.count cells.old) })
        result.tokens result.unclosed result.place
        (record { table = table.new; stack = reverse (take result.count cells.new) }) }
    ensures none_left { IsSome result.place → result.count ≡ 0 }
{
    let end = (body.len() / 2).min(start.read + (max_depth - start.unclosed) as usize);
    // The index is compared before it goes up. Otherwise the compiler copies it at each token.
    let last = end - 1;
    let mut opened = start.unclosed;
    let mut left = start.count;
    let mut next = start.read;
    let mut loaded = LoadedToken::at(body, next);
    let mut column = Column::known(loaded.token());
    if left != 0 {
        let mut symbol = TopSymbol::of(cells[left - 1]);
        loop {
            let top = left - 1;
            let answer = table.predict_token(symbol, loaded.token(), column);
            if let Some(first) = answer.first() {
                opened = opened.wrapping_add(column.bracket_step());
                if next == last {
                    return run_end(end, opened, put(cells, top, &answer));
                }
                next += 1;
                loaded = LoadedToken::at(body, next);
                column = Column::known(loaded.token());
                left = put(cells, top, &answer);
                symbol = first;
                continue;
            }
            if answer.is_take() {
                opened = opened.wrapping_add(column.bracket_step());
                if next == last {
                    return run_end(end, opened, top);
                }
                next += 1;
                loaded = LoadedToken::at(body, next);
                column = Column::known(loaded.token());
                left = top;
            } else if answer.is_stop() {
                opened = opened.wrapping_add(column.bracket_step());
                let Some(now) = follow_word(table, cells, top, loaded.token(), column) else {
                    return reject_at(opened, next);
                };
                if next == last {
                    return run_end(end, opened, now);
                }
                next += 1;
                loaded = LoadedToken::at(body, next);
                column = Column::known(loaded.token());
                left = now;
            } else {
                left = top;
            }
            if left == 0 {
                break;
            }
            symbol = TopSymbol::of(cells[left - 1]);
        }
    }
    reject_at(opened.wrapping_add(column.bracket_step()), next)
}

/// Reads the tokens of a body, given the state before them. The index of an error is relative to the body.
#[inline(always)]
pub fn read_tokens<T: Predict, const N: usize>(
    table: &mut T,
    cells: &mut [Symbol; N],
    body: &[u8],
    start: RunStart,
    max_depth: u16,
) -> RunEnd
    requires size { N ≤ most_symbols }
    requires count { start.count ≤ N }
    requires at_depth_limit { cells_bound max_depth ≤ N }
    requires room { length body.now ≤ longest_message }
    requires read { start.read ≤ length body.now / 2 }
    requires deep { start.unclosed ≤ max_depth }
    requires lawful { T.lawful (T.words table.old) (reverse (take start.count cells.old)) start.unclosed }
    ensures inside { result.count ≤ N }
    ensures tokens { result.tokens ≤ length body.now / 2 }
    ensures all { result.place ≡ None → result.tokens ≡ length body.now / 2 }
    ensures reads { ReadsTo T.Predict max_depth body.now start.read start.unclosed
        (record { table = table.old; stack = reverse (take start.count cells.old) })
        result.tokens result.unclosed result.place
        (record { table = table.new; stack = reverse (take result.count cells.new) }) }
{
    let mut opened = start.unclosed;
    let mut left = start.count;
    let mut next = start.read;
    while next < body.len() / 2 {
        if opened < max_depth {
            let from = RunStart {
                read: next,
                unclosed: opened,
                count: left,
            };
            let reached = run_below_depth_limit(table, cells, body, from, max_depth);
            if reached.place.is_some() {
                return reached;
            }
            opened = reached.unclosed.unwrap_or(0);
            left = reached.count;
            next = reached.tokens;
        } else {
            let token = token_at(body, next);
            let Some(now) = read_token(table, cells, left, &mut opened, token) else {
                return reject_at(opened, next);
            };
            left = now;
            next += 1;
        }
    }
    RunEnd {
        tokens: body.len() / 2,
        unclosed: Some(opened),
        place: None,
        count: left,
    }
}

/// Counts the open brackets over the tokens of a body from an index on.
pub fn count_from(unclosed: Option<u16>, body: &[u8], next: usize) -> Option<u16>
    requires room { length body.now ≤ longest_message }
    requires next { next ≤ length body.now / 2 }
    requires few { IfSome unclosed (λ n. n ≤ most_tokens) }
    ensures count { result ≡ count_all unclosed (drop next (tokens_of body.now)) }
{
    let Some(before) = unclosed else {
        return None;
    };
    let mut opened = before;
    for i in next..body.len() / 2 {
        let token = token_at(body, i);
        if token.is_bra() {
            opened += 1;
        } else if token.is_ket() {
            if opened == 0 {
                return None;
            }
            opened -= 1;
        }
    }
    Some(opened)
}

/// Returns the index in the message, for an index in a body that begins after `before` tokens.
pub fn place_behind(before: u16, place: Option<u16>) -> Option<u16>
    requires { IfSome place (λ i. before + i ≤ 65535) }
    ensures { result ≡ place_behind before place }
{
    match place {
        Some(i) => Some(before + i),
        None => None,
    }
}
