//! Tokens as text.

ghost use Rattle.std.specs.Prelude.{◌≡◌, ◌%◌, ◌++◌, length, OnOk, OnErr};
ghost use Rattle.daide_token.specs.Text.{text_with};
ghost use Rattle.daide_token.specs.Token.{tokens_of};
ghost use Rattle.daide_causes.specs.Causes.{WasRefused};
ghost use Rattle.daide_words.specs.Word.{names_of};
ghost use Rattle.daide_words.specs.Words.{words_of};

use daide_causes::Growth;
use daide_token::{Printed, PrinterState, end_of, put_tokens};
use daide_words::Words;
use std::alloc::AllocError;

/// How many bytes of tokens are printed at a time.
const TOGETHER: usize = 60;

/// The size of the line buffer, in bytes: `put_tokens` needs at most four for each byte.
const ROOM: usize = 256;

/// Appends the text form of tokens, two bytes each, as `write_text_with` of `daide_token` writes it, with the operator's
/// words by their names.
pub fn append_tokens<A: Growth>(
    words: &Words,
    tokens: &[u8],
    text: &mut Vec<u8, A>,
) -> Result<(), AllocError>
    requires { length tokens.now % 2 ≡ 0 }
    ensures text { OnOk result
        (text.new.items ≡ text.old.items ++ text_with (names_of (words_of words.now)) (tokens_of tokens.now)) }
    ensures refused { OnErr result (WasRefused A.Refuses) }
{
    let added = words.names();
    let mut line = [0; ROOM];
    let mut place = PrinterState::Start;
    let mut rest = tokens;
    'tokens: while !rest.is_empty() {
        let (some, more) = rest.split_at(rest.len().min(TOGETHER));
        let printed = put_tokens(added, some, &mut line, Printed { place, len: 0 });
        A::append(text, &line[..printed.len])?;
        place = printed.place;
        rest = more;
    }
    A::append(text, end_of(place))
}
