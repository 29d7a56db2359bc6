//! The class of a token, as a number.

ghost use Rattle.std.specs.Prelude.{◌≡◌, ◌<◌};
ghost use Rattle.daide_token.specs.declared.class.Class.TheVariants.{Word};
ghost use Rattle.daide_grammar.specs.Classes.{class_number};
ghost use Rattle.daide_token.specs.Class.{class_of};
ghost use Rattle.daide_grammar.specs.Table.Cells.{bracket_cell};
ghost use Rattle.daide_grammar.specs.Table.Numbers.{all_classes, bracket_step, class_at, is_bracket, word_number};
ghost use Rattle.daide_grammar.specs.Words.{most_words};

use crate::dense::class_of;
use crate::numbers::{KET, OWN_CLASSES};
use crate::table::names::CLASSES;
use crate::table::whole;
use daide_token::class::Class;
use daide_token::token::Token;
use std::marker::Model;

/// A class, by its number, which is its column of the constant table. Its abstract value is the class. The brackets
/// come first, and the sixteen words that an operator may add last. The number has the width of an index: with a byte,
/// the compiler would widen it at every token.
#[derive(Clone, Copy)]
pub struct Column {
    number: usize,
}

impl Model for Column {
    ghost use Rattle.std.specs.Prelude.{◌≡◌, ◌<◌, ℕ};
    ghost use Rattle.std.proofs.Common.{ap};
    ghost use Rattle.daide_token.specs.declared.class.Class.{Class};
    ghost use Rattle.daide_grammar.specs.Classes.{class_number};
    ghost use Rattle.daide_grammar.specs.Table.Numbers.{all_classes, class_at};
    ghost use Rattle.daide_grammar.specs.Proofs.Numbers.{class_number_back};

    ghost Value = { Class };

    ghost view = { λ c. class_at c.number };

    ghost invariant = { λ c. c.number < all_classes };

    ghost inverse = { λ c. record { number = class_number c } };

    ghost inverse_ok = { λ c h. ap (λ (n : ℕ). record { number = n }) (class_number_back c.number h) };
}

impl Column {
    /// Returns the class with a number.
    #[inline(always)]
    pub fn of(number: u8) -> Column
        requires { number < all_classes }
        ensures { result ≡ class_at number }
    {
        Column {
            number: number as usize,
        }
    }

    /// Returns the class with a name.
    #[tactic(auto, using(crate::proofs::WordColumns::class_told))]
    pub fn named(class: Class) -> Column
        requires { class_number class < all_classes }
        ensures { result ≡ class }
    {
        Column {
            number: class.number() as usize,
        }
    }

    /// Returns the class of an added word, by its index among the words.
    #[inline(always)]
    #[tactic(auto, using(crate::proofs::WordColumns::word_at))]
    pub fn word(place: u8) -> Column
        requires { place < most_words }
        ensures { result ≡ Word place }
    {
        Column {
            number: OWN_CLASSES + place as usize,
        }
    }

    /// Returns the class by name.
    pub fn class(self) -> Class
        ensures class { result ≡ self }
        ensures few { class_number result < all_classes }
    {
        listed(self.number)
    }

    /// Returns the class's number.
    #[inline(always)]
    pub fn number(self) -> usize
        ensures number { result ≡ class_number self }
        ensures class { class_at result ≡ self }
        ensures below { result < all_classes }
    {
        self.number
    }

    /// Returns the class of a token by the protocol's own table, in which an operator's word is a token without a
    /// meaning.
    #[inline(always)]
    pub fn known(token: Token) -> Column
        ensures { result ≡ class_of token }
    {
        class_of(token)
    }

    /// Returns what a token of the class adds to a count of open brackets, modulo 2^16.
    #[inline(always)]
    pub fn bracket_step(self) -> u16
        ensures { result ≡ bracket_step self }
    {
        bracket_cell(self.number)
    }

    /// Returns whether the class is that of a bracket.
    #[inline(always)]
    pub fn is_bracket(self) -> bool
        ensures { result ≡ is_bracket self }
    {
        self.number <= KET
    }

    /// Returns the index of the added word with this class, or `None` for any other class.
    #[inline(always)]
    pub fn word_number(self) -> Option<u8>
        ensures { result ≡ word_number self }
    {
        if self.number >= OWN_CLASSES {
            return Some((self.number - OWN_CLASSES) as u8);
        }
        None
    }
}

/// Returns the bracket step of the class with a number.
#[inline(always)]
#[tactic(auto, unfolding(crate::specs::Table::Cells::bracket_cell))]
fn bracket_cell(number: usize) -> u16
    requires { number < all_classes }
    ensures { result ≡ bracket_cell number }
{
    whole().brackets[number]
}

fn listed(number: usize) -> Class
    requires { number < all_classes }
    ensures { result ≡ class_at number }
{
    CLASSES[number]
}
