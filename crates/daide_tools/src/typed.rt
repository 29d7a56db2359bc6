//! The arguments of a command as one text.

ghost use Rattle.std.specs.Prelude.{◌≡◌, map, IfOk, OnErr};
ghost use Rattle.std.specs.List.{join_with_byte};
ghost use Rattle.daide_causes.specs.Causes.{WasRefused};

use daide_causes::Growth;
use std::alloc::AllocError;

/// Returns the arguments as one text, with a space between each two.
pub(crate) fn joined<A: Growth>(alloc: A, words: &[&str]) -> Result<Vec<u8, A>, AllocError>
    ensures text { IfOk result (λ text. text.items ≡ join_with_byte 32 (map (λ word. word.now) words.now)) }
    ensures refused { OnErr result (WasRefused A.Refuses) }
{
    let mut text = Vec::new(alloc);
    let mut rest = words;
    while let [word, others @ ..] = rest {
        A::append(&mut text, word.as_bytes())?;
        if !others.is_empty() {
            A::append(&mut text, b" ")?;
        }
        rest = others;
    }
    Ok(text)
}
