//! The grammar's predictions, by one look-up in a constant table.
//!
//! The module `table` has the table in a readable layout. A proof shows of each cell that it agrees with the entries of
//! its symbol. So the laws of prediction hold for this table as for `Plain`.

ghost use Rattle.std.specs.Prelude.{◌≡◌, ◌<◌, ◌+◌, ◌%◌, ◌/◌, [], slice_index_or};
ghost use Rattle.daide_token.specs.Class.{class_of};
ghost use Rattle.daide_grammar.specs.Table.Symbols.{may_end_of, start_symbol_of, table_answer};
ghost use Rattle.daide_grammar.specs.Table.AnswersGiven.{look_ups};
ghost use Rattle.daide_grammar.specs.Table.Cells.{class_cell, row_cell, rule_at};
ghost use Rattle.daide_grammar.specs.Table.Numbers.{all_classes, all_symbols};
ghost use Rattle.daide_grammar.specs.declared.table.rows.TheConstants.{TABLE};

use crate::column::Column;
use crate::level::Level;
use crate::numbers::{KET, SKIP, SYMBOL_COUNT};
use crate::predict::{Move, Predict};
use crate::side::Side2;
use crate::symbol::{Sym, Symbol};
use crate::table::whole;
use crate::top_symbol::TopSymbol;
use daide_token::token::Token;

/// Predicts by a constant table, and counts its look-ups. It has the protocol's own grammar at every level, and meets
/// the laws of `Predict`.
#[derive(Debug, Drop)]
pub struct Dense {
    asked: u64,
}

impl Dense {
    /// Creates a table with no look-up counted.
    pub fn new() -> Dense
        ensures { look_ups result ≡ 0 }
    {
        Dense { asked: 0 }
    }
}

/// Returns the entry for a symbol and a class.
#[inline(always)]
fn move_of(sym: TopSymbol, class: Column) -> Move
    ensures { result ≡ table_answer sym class }
{
    let cell = row_cell(class.number(), sym.number());
    Move::of_cell((cell % 256) as u8, cell as usize / 256)
}

#[inline(always)]
fn rule_at(class: usize, symbol: usize) -> u8
    requires class { class < all_classes }
    requires symbol { symbol < all_symbols }
    ensures { result ≡ rule_at class symbol }
{
    (row_cell(class, symbol) % 256) as u8
}

/// Returns the cell of a class and a symbol.
#[inline(always)]
#[tactic(auto, unfolding(crate::specs::Table::Cells::row_cell))]
fn row_cell(class: usize, symbol: usize) -> u16
    requires class { class < all_classes }
    requires symbol { symbol < all_symbols }
    ensures { result ≡ row_cell class symbol }
{
    row_of(class)[symbol]
}

/// Returns the cells of a class, one for each symbol.
#[inline(always)]
fn row_of(class: usize) -> &'static [u16; SYMBOL_COUNT]
    requires { class < all_classes }
    ensures { result.now ≡ slice_index_or TABLE.rows class [] }
{
    whole().rows[class]
}

/// Returns the class of a token.
#[inline(always)]
pub(crate) fn class_of(token: Token) -> Column
    ensures { result ≡ class_of token }
{
    let bits = token.code();
    Column::of(class_cell(bits % 256 * 256 + bits / 256))
}

/// Returns the number of the class at an index of the list of classes.
#[inline(always)]
#[tactic(auto, unfolding(crate::specs::Table::Cells::class_cell))]
fn class_cell(place: u16) -> u8
    ensures { result ≡ class_cell place }
{
    whole().classes.as_flattened()[place as usize]
}

/// Returns whether a symbol is nullable, which holds exactly if a closing bracket skips it.
#[tactic(auto, using(crate::proofs::RowsAgree::ends_told))]
fn is_optional(sym: Symbol) -> bool
    ensures { result ≡ may_end_of sym }
{
    rule_at(KET, sym.number() as usize) == SKIP
}

/// Returns the start symbol for a side's messages at a level.
fn start_symbol(side: Side2, level: Level) -> Symbol
    ensures { result ≡ start_symbol_of side level }
{
    match side {
        Side2::Client => Symbol::named(Sym::Client(level)),
        Side2::ServerEnd => Symbol::named(Sym::Server(level)),
    }
}

impl Predict for Dense {
    ghost use Rattle.daide_token.specs.Class.{class_of};
    ghost use Rattle.daide_grammar.specs.Table.LawfulStack.{IsLawful};
    ghost use Rattle.daide_grammar.specs.Table.Languages.{SymbolMatches};
    ghost use Rattle.daide_grammar.specs.Table.Symbols.{may_end_of, start_symbol_of, table_answer};
    ghost use Rattle.daide_grammar.specs.Proofs.PlainLaws.{plain_laws, plain_begins};
    ghost use Rattle.daide_grammar.specs.Table.AnswersGiven.{look_ups};

    ghost words = { λ _. [] };

    ghost class_of = { λ _. class_of };

    ghost language = { λ _. SymbolMatches };

    ghost moves = { λ _. table_answer };

    ghost ends = { λ _. may_end_of };

    ghost start_symbol = { start_symbol_of };

    ghost lawful = { λ _. IsLawful table_answer };

    ghost asked = { look_ups };

    #[inline(always)]
    fn predict(&mut self, sym: Symbol, class: Column) -> Move {
        self.asked = self.asked.wrapping_add(1);
        move_of(TopSymbol::of(sym), class)
    }

    #[inline(always)]
    fn predict_token(&mut self, sym: TopSymbol, _token: Token, column: Column) -> Move {
        self.asked = self.asked.wrapping_add(1);
        move_of(sym, column)
    }

    fn predict_word(&mut self, sym: Symbol, _token: Token, column: Column) -> Move {
        self.predict(sym, column)
    }

    fn may_end(&mut self, sym: Symbol) -> bool {
        self.asked = self.asked.wrapping_add(1);
        is_optional(sym)
    }

    #[inline(always)]
    fn class_of(&self, token: Token) -> Column {
        class_of(token)
    }

    fn start(&self, side: Side2, level: Level) -> Symbol {
        start_symbol(side, level)
    }

    fn asked(&self) -> u64 {
        self.asked
    }

    ghost laws = { λ _. plain_laws };

    ghost begins = { λ _ side level. plain_begins side level };
}
