//! A token with its bytes exchanged.
//!
//! The processor loads the two bytes of a token low byte first, and the table lists classes in that order. A loop that
//! keeps such tokens exchanges no bytes.

ghost use Rattle.std.specs.Prelude.{◌≡◌, ◌+◌, ◌*◌, ◌<◌, ◌++◌, [], ◌∷◌, take, drop, length};
ghost use Rattle.daide_token.specs.Token.{tokens_of};

use daide_token::token::Token;
use daide_token::token_at;
use std::marker::Model;

/// A token of a body, as it is loaded. Its abstract value is the token.
#[derive(Drop)]
pub(crate) struct LoadedToken {
    code: u16,
}

impl Model for LoadedToken {
    ghost use Rattle.std.specs.Prelude.{ℕ};
    ghost use Rattle.daide_reader.specs.Loaded.{exchanged};

    ghost Value = { ℕ };

    ghost view = { λ loaded. exchanged loaded.code };
}

impl LoadedToken {
    /// Loads the token at an index of a body.
    #[inline(always)]
    pub(crate) fn at(body: &[u8], place: usize) -> LoadedToken
        requires { 2 * place + 1 < length body.now }
        ensures front { take (place + 1) (tokens_of body.now) ≡ take place (tokens_of body.now) ++ result ∷ [] }
        ensures rest { drop place (tokens_of body.now) ≡ result ∷ drop (place + 1) (tokens_of body.now) }
    {
        let code = token_at(body, place).code();
        LoadedToken {
            code: code % 256 * 256 + code / 256,
        }
    }

    /// Returns the token.
    #[inline(always)]
    pub(crate) fn token(&self) -> Token
        ensures { result ≡ self.now }
    {
        Token::from_code(self.code % 256 * 256 + self.code / 256)
    }
}
