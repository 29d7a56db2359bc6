//! A token: two bytes, which are a category and a code in it, or a number of fourteen bits.

ghost use Rattle.std.specs.Prelude.{◌≡◌, ◌==◌, ℕ, option_map};
ghost use Rattle.daide_token.specs.Token.{bra, ket, prn, token_bytes, number_of, token_of_bytes, token_of_number};
ghost use Rattle.daide_token.specs.Class.{class_of, has_known_category};
ghost use Rattle.daide_token.specs.Names.{name_of, token_named};

use crate::class::{Class, class_in};
use crate::codes::{BRA, KET, PRN};
use crate::names;
use std::marker::Model;

/// A token. Its abstract value is a whole number, 0 to FFFF hexadecimal.
#[derive(Clone, Copy, Debug, PartialEq, Eq)]
pub struct Token {
    bits: u16,
}

impl Model for Token {
    ghost Value = { ℕ };

    ghost view = { λ t. t.bits };

    ghost inverse = { λ n. record { bits = n } };
}

impl Token {
    /// Returns the token with this whole number.
    pub const fn from_code(code: u16) -> Token
        ensures { result ≡ code }
    {
        Token { bits: code }
    }

    /// Returns the token as a whole number.
    pub const fn code(self) -> u16
        ensures { result ≡ self }
    {
        self.bits
    }

    /// Returns the token of two bytes, high byte first.
    pub const fn from_be(bytes: [u8; 2]) -> Token
        ensures { result ≡ token_of_bytes bytes }
    {
        Token {
            bits: u16::from_be_bytes(bytes),
        }
    }

    /// Returns the token's two bytes, high byte first.
    pub const fn to_be(self) -> [u8; 2]
        ensures { result ≡ token_bytes self }
    {
        self.code().to_be_bytes()
    }

    /// Returns whether the token is BRA, which opens a bracket.
    #[inline(always)]
    pub const fn is_bra(self) -> bool
        ensures { result ≡ (self == bra) }
    {
        self.code() == BRA
    }

    /// Returns whether the token is KET, which closes a bracket.
    #[inline(always)]
    pub const fn is_ket(self) -> bool
        ensures { result ≡ (self == ket) }
    {
        self.code() == KET
    }

    /// Returns whether the token is PRN.
    #[inline(always)]
    pub const fn is_prn(self) -> bool
        ensures { result ≡ (self == prn) }
    {
        self.code() == PRN
    }

    /// Returns the token's number, from -8192 to 8191: two's complement in fourteen bits. Returns `None` for every
    /// token from 0x4000 on.
    pub fn number(self) -> Option<i16>
        ensures { result ≡ number_of self }
    {
        let code = self.code();
        match code {
            0x0000..=0x1FFF => Some(code as i16),
            0x2000..=0x3FFF => Some(code as i16 - 0x4000),
            _ => None,
        }
    }

    /// Returns the token of a number, or `None` outside -8192 to 8191.
    pub fn of_number(number: i16) -> Option<Token>
        ensures { result ≡ token_of_number number }
    {
        match number {
            0..=8191 => Some(Token::from_code(number as u16)),
            -8192..=-1 => Some(Token::from_code((number + 0x4000) as u16)),
            _ => None,
        }
    }

    /// Returns the token's class: by its category, and by its code in a category whose classes have one token.
    #[tactic(auto, unfolding(crate::specs::Class::class_of))]
    pub fn class(self) -> Class
        ensures { result ≡ class_of self }
    {
        // The brackets come first: about every second token is one, and a reader tests for them anyway.
        match self.code() {
            BRA => Class::Bra,
            KET => Class::Ket,
            _ => {
                let [category, code] = self.to_be();
                class_in(category, code)
            }
        }
    }

    /// Returns whether the token is a number, or of a category from 0x40 to 0x4B or from 0x50 to 0x57.
    pub fn has_known_category(self) -> bool
        ensures { result ≡ has_known_category self }
    {
        let [category, _code] = self.to_be();
        matches!(category, 0x00..=0x4B | 0x50..=0x57)
    }

    /// Returns the token's name: three capital letters. Returns `None` for numbers, characters and tokens that no table
    /// lists.
    pub fn name(self) -> Option<&'static str>
        ensures { option_map (λ name. name.now) result ≡ name_of self }
    {
        names::name_of(self.code())
    }

    /// Returns the token of a name in capital letters, or `None` if no token has this name.
    pub fn by_name(name: &str) -> Option<Token>
        ensures { result ≡ token_named name.now }
    {
        let code = names::token_named(name)?;
        Some(Token::from_code(code))
    }
}
