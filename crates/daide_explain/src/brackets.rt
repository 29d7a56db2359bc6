//! The first unpaired bracket of a message.

ghost use Rattle.std.specs.Prelude.{◌≤◌, length};
ghost use Rattle.daide_token.specs.Token.{tokens_of};
ghost use Rattle.daide_protocol.specs.Bounds.{longest_body};
ghost use Rattle.daide_explain.specs.Unpaired.{IsUnpairedIn};

use daide_token::token_at;

/// The first unpaired bracket of a message, with the index of its token.
#[derive(Clone, Copy)]
pub enum Unpaired {
    /// The first KET that closes nothing.
    Ket(usize),
    /// The first BRA that is never closed; each KET closes one.
    Bra(usize),
    /// All brackets are paired.
    Nothing,
}

/// Returns the first unpaired bracket of a body.
pub fn find_unpaired(body: &[u8]) -> Unpaired
    requires { length body.now ≤ longest_body }
    ensures { IsUnpairedIn (tokens_of body.now) result }
{
    let mut opened: usize = 0;
    let mut first: usize = 0;
    for i in 0..body.len() / 2 {
        let token = token_at(body, i);
        if token.is_bra() {
            if opened == 0 {
                first = i;
            }
            opened += 1;
        } else if token.is_ket() {
            if opened == 0 {
                return Unpaired::Ket(i);
            }
            opened -= 1;
        }
    }
    if opened == 0 {
        return Unpaired::Nothing;
    }
    Unpaired::Bra(first)
}
