//! The symbol on top of a stack, as a number.

ghost use Rattle.std.specs.Prelude.{◌≡◌, ◌<◌};
ghost use Rattle.daide_grammar.specs.Table.Numbers.{all_symbols, symbol_number, symbol_at};

use crate::symbol::Symbol;
use std::marker::Model;

/// The symbol that is next on top of a stack, by its number. Its abstract value is the symbol. The number has the width
/// of an index: with a byte, the compiler would widen it at every token, and the next look-up would wait for that.
#[derive(Clone, Copy)]
pub struct TopSymbol {
    number: usize,
}

impl Model for TopSymbol {
    ghost use Rattle.std.specs.Prelude.{◌≡◌, ◌<◌, ℕ};
    ghost use Rattle.std.proofs.Common.{ap};
    ghost use Rattle.daide_grammar.specs.declared.symbol.Sym.{Sym};
    ghost use Rattle.daide_grammar.specs.Table.Numbers.{all_symbols, symbol_number, symbol_at};
    ghost use Rattle.daide_grammar.specs.Proofs.Numbers.{number_back};

    ghost Value = { Sym };

    ghost view = { λ s. symbol_at s.number };

    ghost invariant = { λ s. s.number < all_symbols };

    ghost inverse = { λ s. record { number = symbol_number s } };

    ghost inverse_ok = { λ s h. ap (λ (n : ℕ). record { number = n }) (number_back s.number h) };
}

impl TopSymbol {
    /// Returns the same symbol with the width of an index.
    #[inline(always)]
    pub fn of(symbol: Symbol) -> TopSymbol
        ensures { result ≡ symbol }
    {
        TopSymbol {
            number: symbol.number() as usize,
        }
    }

    /// Returns the symbol with a number.
    #[inline(always)]
    pub(crate) fn at(number: usize) -> TopSymbol
        requires { number < all_symbols }
        ensures { result ≡ symbol_at number }
    {
        TopSymbol { number }
    }

    /// Returns the symbol, as a stack holds it.
    #[inline(always)]
    pub fn symbol(self) -> Symbol
        ensures { result ≡ self }
    {
        Symbol::of(self.number as u8)
    }

    /// Returns the symbol's number.
    #[inline(always)]
    pub(crate) fn number(self) -> usize
        ensures number { result ≡ symbol_number self }
        ensures symbol { symbol_at result ≡ self }
        ensures below { result < all_symbols }
    {
        self.number
    }
}
