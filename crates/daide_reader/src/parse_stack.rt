//! The stack of expected symbols, in an array.
//!
//! The loop over a slice accesses the cells directly: it writes eight of them at once and has their count in a local.
//! docs/DECISIONS.md says what that saves.

ghost use Rattle.std.specs.Prelude.{◌≡◌, ◌≤◌, ◌<◌, ◌+◌, ◌/◌, ◌++◌, ◌∷◌, [], None, take, length, reverse};
ghost use Rattle.daide_grammar.specs.Bounds.{cells_bound};
ghost use Rattle.daide_reader.specs.Bounds.{longest_message, most_symbols};
ghost use Rattle.daide_reader.specs.Slice.{ReadsTo};

use crate::slice::{RunEnd, RunStart, read_tokens};
use daide_grammar::predict::Predict;
use daide_grammar::symbol::Symbol;
use std::marker::Model;

/// At most `N` symbols, the next one last.
#[derive(Drop)]
pub struct ParseStack<S, const N: usize> {
    cells: [S; N],
    count: usize,
}

impl<S, const N: usize> Model for ParseStack<S, N> {
    ghost use Rattle.std.specs.Prelude.{◌≤◌, List, take};

    ghost Value = { List S };

    ghost view = { λ s. take s.count s.cells };

    ghost invariant = { λ s. s.count ≤ N };
}

impl<S: Copy, const N: usize> ParseStack<S, N> {
    /// Creates an empty stack.
    pub fn new(blank: S) -> ParseStack<S, N>
        ensures { result ≡ [] }
    {
        ParseStack {
            cells: [blank; N],
            count: 0,
        }
    }

    /// Returns the number of symbols.
    #[inline(always)]
    pub fn len(&self) -> usize
        ensures value { result ≡ length self.now }
        ensures fits { result ≤ N }
    {
        self.count
    }

    /// Returns the symbols, the next one last.
    #[inline(always)]
    pub fn as_slice(&self) -> &[S]
        ensures value { result.now ≡ self.now }
        ensures fits { length result.now ≤ N }
    {
        let all = &self.cells[..];
        &all[..self.count]
    }

    /// Pushes a symbol.
    pub fn push(&mut self, symbol: S)
        requires { length self.old < N }
        ensures items { self.new ≡ self.old ++ symbol ∷ [] }
        ensures len { length self.new ≡ length self.old + 1 }
    {
        self.cells[self.count] = symbol;
        self.count += 1;
    }

    /// Removes all symbols.
    #[inline(always)]
    pub fn clear(&mut self)
        ensures { self.new ≡ [] }
    {
        self.count = 0;
    }
}

impl<const N: usize> ParseStack<Symbol, N> {
    /// Reads the tokens of a body, given the number of brackets open before it.
    #[inline(always)]
    pub fn read_tokens<T: Predict>(
        &mut self,
        table: &mut T,
        body: &[u8],
        unclosed: u16,
        max_depth: u16,
    ) -> RunEnd
        requires size { N ≤ most_symbols }
        requires at_depth_limit { cells_bound max_depth ≤ N }
        requires room { length body.now ≤ longest_message }
        requires deep { unclosed ≤ max_depth }
        requires lawful { T.lawful (T.words table.old) (reverse self.old) unclosed }
        ensures tokens { result.tokens ≤ length body.now / 2 }
        ensures all { result.place ≡ None → result.tokens ≡ length body.now / 2 }
        ensures reads { ReadsTo T.Predict max_depth body.now 0 unclosed
            (record { table = table.old; stack = reverse self.old })
            result.tokens result.unclosed result.place
            (record { table = table.new; stack = reverse self.new }) }
    {
        let start = RunStart {
            read: 0,
            unclosed,
            count: self.count,
        };
        let reached = read_tokens(table, &mut self.cells, body, start, max_depth);
        self.count = reached.count;
        reached
    }
}
