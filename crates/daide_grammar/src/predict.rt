//! The interface of a table of predictions, and its laws.
//!
//! A call passes the expected symbol and the class of the next token. The table has no stack and no message: its laws
//! say that its results fit together, and a reader needs nothing else. `words` is what an operator added to the
//! grammar. No call changes it, and every other clause depends on it.

ghost use Rattle.std.specs.Prelude.{◌≡◌, ℕ, ◌+◌, ◌%◌, ◌^◌, ◌≤◌, ◌<◌, List, [], ◌∷◌, Bool, true, false, IfNone, IfSome, drop, length, reverse, take};
ghost use Rattle.daide_token.specs.declared.class.Class.{Class};
ghost use Rattle.daide_token.specs.Class.{class_of as known_class, is_standard};
ghost use Rattle.daide_grammar.specs.declared.level.Level.{Level};
ghost use Rattle.daide_grammar.specs.declared.side.Side2.{Side2};
ghost use Rattle.daide_grammar.specs.declared.symbol.Sym.{Sym};
ghost use Rattle.daide_grammar.specs.Table.Answers.{TableEntry};
ghost use Rattle.daide_grammar.specs.Words.{Words};
ghost use Rattle.daide_grammar.specs.Table.Laws.{IsCorrectPrediction};
ghost use Rattle.daide_grammar.specs.Table.ParseActions.{all_rules, action, is_stop, is_take, rest_of};
ghost use Rattle.daide_grammar.specs.Table.Cells.{cell_at, first_at, growth_at, length_at};
ghost use Rattle.daide_grammar.specs.Table.Numbers.{symbol_at};

use crate::column::Column;
use crate::level::Level;
use crate::numbers::TAKE;
use crate::side::Side2;
use crate::symbol::Symbol;
use crate::table::whole;
use crate::top_symbol::TopSymbol;
use daide_token::token::Token;
use std::marker::Model;

/// What a token means to the expected symbol. Its abstract value is the entry.
#[derive(Drop)]
pub struct Move {
    /// The number of the rule, with the width of an index.
    rule: usize,
    /// The number of the first symbol that the rule leaves, or 0 if it leaves none.
    next: usize,
}

impl Model for Move {
    ghost use Rattle.daide_grammar.specs.Table.Answers.{TableEntry};
    ghost use Rattle.daide_grammar.specs.Table.Cells.{first_at};
    ghost use Rattle.daide_grammar.specs.Table.ParseActions.{all_rules, action};
    ghost use Rattle.std.specs.Prelude.{◌<◌, ◌≡◌};

    ghost Value = { TableEntry };

    ghost view = { λ m. action m.rule };

    ghost invariant = { λ m. (m.rule < all_rules) × (m.next ≡ first_at m.rule) };
}

impl Move {
    /// Returns the entry of a rule.
    #[inline(always)]
    pub fn of(rule: u8) -> Move
        ensures { result ≡ action rule }
    {
        let rule = rule as usize;
        Move {
            rule,
            next: first_at(rule) as usize,
        }
    }

    /// Returns the entry of a rule, with the number of the first symbol that it leaves.
    #[inline(always)]
    pub(crate) fn of_cell(rule: u8, next: usize) -> Move
        requires { next ≡ first_at rule }
        ensures { result ≡ action rule }
    {
        Move {
            rule: rule as usize,
            next,
        }
    }

    /// Returns whether the token begins the symbol.
    #[inline(always)]
    pub fn is_take(&self) -> bool
        ensures { result ≡ is_take self.now }
    {
        self.rule >= 2
    }

    /// Returns whether no message continues with the token.
    #[inline(always)]
    pub fn is_stop(&self) -> bool
        ensures { result ≡ is_stop self.now }
    {
        self.rule == 0
    }

    /// Returns how many symbols must follow: 0 unless the token is taken.
    #[inline(always)]
    pub fn len(&self) -> usize
        ensures len { result ≡ length (rest_of self.now) }
        ensures few { result ≤ 8 }
    {
        length_at(self.rule) as usize
    }

    /// Returns the first symbol that must follow, or `None` if none must.
    #[inline(always)]
    pub fn first(&self) -> Option<TopSymbol>
        ensures none { IfNone result (rest_of self.now ≡ []) }
        ensures first { IfSome result (λ s. rest_of self.now ≡ s ∷ drop 1 (rest_of self.now)) }
    {
        if self.rule <= TAKE {
            return None;
        }
        Some(TopSymbol::at(self.next))
    }

    /// Returns the height of a stack after its top, at this index, took the token.
    #[inline(always)]
    pub fn height_after(&self, top: usize) -> usize
        requires { top ≤ 65535 }
        ensures { result ≡ top + length (rest_of self.now) }
    {
        top.wrapping_add(growth_at(self.rule)).wrapping_add(1)
    }

    /// Returns the symbols that must follow, the last one first. The cells after `len` have no meaning.
    #[inline(always)]
    pub fn cells(&self) -> [Symbol; 8]
        ensures { take (length (rest_of self.now)) result ≡ reverse (rest_of self.now) }
    {
        [
            cell_of(self.rule, 0),
            cell_of(self.rule, 1),
            cell_of(self.rule, 2),
            cell_of(self.rule, 3),
            cell_of(self.rule, 4),
            cell_of(self.rule, 5),
            cell_of(self.rule, 6),
            cell_of(self.rule, 7),
        ]
    }
}

#[inline(always)]
fn cell_of(rule: usize, place: usize) -> Symbol
    requires rule { rule < all_rules }
    requires place { place < 8 }
    ensures { result ≡ symbol_at (cell_at rule place) }
{
    Symbol::of(cell_at(rule, place))
}

#[inline(always)]
#[tactic(auto, unfolding(crate::specs::Table::Cells::cell_at))]
fn cell_at(rule: usize, place: usize) -> u8
    requires rule { rule < all_rules }
    requires place { place < 8 }
    ensures { result ≡ cell_at rule place }
{
    whole().rests[rule][place]
}

/// Returns how many symbols a rule leaves.
#[inline(always)]
#[tactic(auto, unfolding(crate::specs::Table::Cells::length_at))]
fn length_at(rule: usize) -> u8
    requires { rule < all_rules }
    ensures { result ≡ length_at rule }
{
    whole().lengths[rule]
}

/// Returns the number of the first symbol that a rule leaves.
#[inline(always)]
#[tactic(auto, unfolding(crate::specs::Table::Cells::first_at))]
fn first_at(rule: usize) -> u8
    requires { rule < all_rules }
    ensures { result ≡ first_at rule }
{
    whole().firsts[rule]
}

/// Returns what a rule adds to the index of a stack's top, modulo 2^64.
#[inline(always)]
#[tactic(auto, unfolding(crate::specs::Table::Cells::growth_at))]
fn growth_at(rule: usize) -> usize
    requires { rule < all_rules }
    ensures { result ≡ growth_at rule }
{
    whole().growths[rule]
}

/// A table of predictions that counts its look-ups. Each look-up raises `asked` by one. Its result depends on the symbol
/// and the class alone. If `predict_token` stops a token, `predict_word` may look it up again; that is a second look-up.
/// `laws` (`IsCorrectPrediction`) says that the entries agree with the languages of the symbols, and that stacks stay
/// small.
pub trait Predict {
    /// The words that an operator added.
    ghost words: { Self → Words };

    /// The class of a token.
    ghost class_of: { Words → ℕ → Class };

    /// The lists of tokens that a symbol derives.
    ghost language: { Words → Sym → List ℕ → Type 0 };

    /// The entry that `predict` returns.
    ghost moves: { Words → Sym → Class → TableEntry };

    /// The result of `may_end`.
    ghost ends: { Words → Sym → Bool };

    /// The result of `start`.
    ghost start_symbol: { Side2 → Level → Sym };

    /// The stacks that can arise, the next symbol first, with their number of open brackets.
    ghost lawful: { Words → List Sym → ℕ → Type 0 };

    /// The number of look-ups so far, modulo 2^64.
    ghost asked: { Self → ℕ };

    /// Returns the entry for a symbol and a class.
    fn predict(&mut self, sym: Symbol, class: Column) -> Move
        ensures answer { result ≡ moves (words self.old) sym class }
        ensures words_stay { words self.new ≡ words self.old }
        ensures counts_each_answer { asked self.new ≡ (asked self.old + 1) % 2 ^ 64 };

    /// Returns the entry for a symbol and a token, by the token's class in the protocol's own table. Unless it is a
    /// `Stop`, it is the entry for the token. A `Stop` is too, unless the token is an operator's word. After a `Stop`,
    /// `predict_word` returns the entry.
    fn predict_token(&mut self, sym: TopSymbol, token: Token, column: Column) -> Move
        requires { column ≡ known_class token }
        ensures answer { is_stop result ≡ false →
            result ≡ moves (words self.old) sym (class_of (words self.old) token) }
        ensures stops { is_standard (class_of (words self.old) token) ≡ true →
            result ≡ moves (words self.old) sym (class_of (words self.old) token) }
        ensures words_stay { words self.new ≡ words self.old }
        ensures counts_each_answer { asked self.new ≡ (asked self.old + 1) % 2 ^ 64 };

    /// Returns the entry for a symbol and a token that may be an operator's word. It is called after `predict_token`
    /// stopped, and counts as a further look-up.
    fn predict_word(&mut self, sym: Symbol, token: Token, column: Column) -> Move
        requires { column ≡ known_class token }
        ensures answer { result ≡ moves (words self.old) sym (class_of (words self.old) token) }
        ensures words_stay { words self.new ≡ words self.old }
        ensures counts_each_answer { asked self.new ≡ (asked self.old + 1) % 2 ^ 64 };

    /// Returns whether the symbol is nullable.
    fn may_end(&mut self, sym: Symbol) -> bool
        ensures answer { result ≡ ends (words self.old) sym }
        ensures words_stay { words self.new ≡ words self.old }
        ensures counts_each_answer { asked self.new ≡ (asked self.old + 1) % 2 ^ 64 };

    /// Returns the class of a token. An operator's word has a class of its own.
    fn class_of(&self, token: Token) -> Column
        ensures { result ≡ class_of (words self.now) token };

    /// Returns the start symbol for a side's messages at a level.
    fn start(&self, side: Side2, level: Level) -> Symbol
        ensures { result ≡ start_symbol side level };

    /// Returns how many calls of `predict`, `predict_token`, `predict_word` and `may_end` were made, modulo 2^64.
    fn asked(&self) -> u64
        ensures { result ≡ asked self.now };

    /// The entries agree with the languages, and the stacks that can arise stay small.
    ghost laws: { (w : Words) → IsCorrectPrediction (class_of w) (language w) (moves w) (ends w) (lawful w) };

    /// A start symbol alone is a stack that can arise.
    ghost begins: { (w : Words) (side : Side2) (level : Level) → lawful w (start_symbol side level ∷ []) 0 };
}
