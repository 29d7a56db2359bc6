//! The entry for a token and a symbol, in readable form: with symbols instead of their numbers.

ghost use Rattle.std.specs.Prelude.{◌≡◌, ◌≤◌};
ghost use Rattle.daide_grammar.specs.Table.Answers.{symbols_of};

use crate::symbol::Sym;

/// At most five symbols, in the order in which they must follow. The grammar has no longer rest.
#[derive(Clone, Copy)]
pub struct Rest {
    len: u8,
    symbols: [Sym; 5],
}

impl Rest {
    /// Creates a rest from an array of symbols.
    pub fn of<const N: usize>(symbols: [Sym; N]) -> Rest
        requires { N ≤ 5 }
        ensures { symbols_of result ≡ symbols.entry }
    {
        let mut all = [Sym::Closing; 5];
        for (i, symbol) in symbols.iter().enumerate() {
            all[i] = *symbol;
        }
        Rest {
            len: N as u8,
            symbols: all,
        }
    }

    /// Returns the symbols, the next one first.
    pub fn as_slice(&self) -> &[Sym]
        ensures { result.now ≡ symbols_of self.now }
    {
        &self.symbols[..usize::from(self.len).min(5)]
    }
}

/// What a token means to the expected symbol: an entry of the parse table.
#[derive(Clone, Copy)]
pub enum Meaning {
    /// The token begins the symbol, and these symbols must follow.
    Take(Rest),
    /// The symbol is empty here.
    Skip,
    /// No message continues with this token.
    Stop,
}
