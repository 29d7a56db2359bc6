//! The lines of an input, one at a time.

ghost use Rattle.std.specs.Prelude.{IfErr, MatchOption, IfOk};
ghost use Rattle.daide_causes.specs.Causes.{HasFailed, WasRefused};
ghost use Rattle.daide_text.specs.Frames.{IsTextCause};
ghost use Rattle.daide_text.specs.Lines.{IsLineFrom, IsNoLine, IsInputFault};

use crate::frames::TextFault;
use daide_causes::{Growth, Source};

/// The most bytes of a line before its line feed.
const LONGEST_LINE: usize = 400_000;

/// Reads the line of this number, without its line feed. Every failed read is a fault, even an interrupted one.
pub(crate) fn read_line<A: Growth, R: Source>(
    alloc: A,
    number: u32,
    reader: &mut R,
) -> Result<Option<Vec<u8, A>>, TextFault>
    ensures line { IfOk result (λ found. MatchOption found (IsNoLine (R.remaining reader.old))
        (λ line. IsLineFrom (R.remaining reader.old) (R.remaining reader.new) line.items)) }
    ensures refused { IfErr result (IsInputFault (R.remaining reader.old) number) }
    ensures caused { IfErr result (IsTextCause (HasFailed R.Fails) (WasRefused A.Refuses) ⊥) }
{
    let mut line = Vec::new(alloc);
    let mut piece = [0u8; 1];
    for _count in 0..=LONGEST_LINE {
        match reader.read_some(&mut piece) {
            Ok(0) => return Ok(if line.is_empty() { None } else { Some(line) }),
            Ok(_) => {}
            Err(_) => return Err(TextFault::Read),
        }
        if piece[0] == b'\n' {
            return Ok(Some(line));
        }
        if A::append(&mut line, &piece).is_err() {
            return Err(TextFault::Memory);
        }
    }
    Err(TextFault::TooLong(number))
}
