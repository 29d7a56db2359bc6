//! The power that a bot plays, as its server says.

ghost use Rattle.std.specs.Prelude.{◌≡◌, Some};
ghost use Rattle.daide_token.specs.Token.{tokens_of};
ghost use Rattle.daide_protocol.specs.Power.{power_in, power_text};

use crate::bot_name::{IAM, put_whole};
use daide_token::{HLO, Token};
use std::{fmt, str};

/// YES ( request ).
const YES: u16 = 0x481C;

/// The size of a line that has room for the text of any token: at most eight bytes, and one after it.
const TOKEN_ROOM: usize = 9;

/// The power that a bot plays. The HLO of an observer has UNO in its place.
#[derive(Clone, Copy, Debug, PartialEq, Eq)]
pub struct Power {
    token: Token,
}

impl Power {
    /// Returns the power in a message, if it is an HLO, or a YES to an IAM.
    #[inline(always)]
    pub(crate) fn in_message(body: &[u8]) -> Option<Power>
        ensures { result ≡ power_in (tokens_of body.now) }
    {
        let [first, second, _, _, third, fourth, rest @ ..] = body else {
            return None;
        };
        let operand = Token::from_be([*third, *fourth]);
        match (Token::from_be([*first, *second]).code(), rest) {
            (HLO, _) => Some(Power { token: operand }),
            (YES, [_, _, high, low, ..]) if operand.code() == IAM => Some(Power {
                token: Token::from_be([*high, *low]),
            }),
            _ => None,
        }
    }
}

impl fmt::Display for Power {
    ghost output = { λ power. Some (power_text power) };

    /// Writes the text form of the token.
    fn fmt<W: fmt::Write>(&self, f: &mut fmt::Formatter<W>) -> fmt::Result {
        let mut line = [0; TOKEN_ROOM];
        let len = put_whole(&self.token.to_be(), &mut line);
        match str::from_utf8(&line[..len]) {
            Ok(text) => f.write_str(text),
            Err(_) => Err(fmt::Error),
        }
    }
}
