//! The tokens of a body, by their index.

ghost use Rattle.std.specs.Prelude.{◌≡◌, ◌<◌, ◌+◌, ◌*◌, ◌++◌, ◌∷◌, [], length, take, drop};
ghost use Rattle.daide_token.specs.Token.{token_at as token_of_body, tokens_of};

use crate::token::Token;

/// Returns the token at an index of a body: two bytes, high byte first.
///
/// `front`, `rest`: it is the token at that index of the body's tokens.
#[inline(always)]
pub fn token_at(body: &[u8], place: usize) -> Token
    requires { 2 * place + 1 < length body.now }
    ensures value { result ≡ token_of_body body.now place }
    ensures front { take (place + 1) (tokens_of body.now) ≡ take place (tokens_of body.now) ++ result ∷ [] }
    ensures rest { drop place (tokens_of body.now) ≡ result ∷ drop (place + 1) (tokens_of body.now) }
{
    Token::from_be([body[2 * place], body[2 * place + 1]])
}
