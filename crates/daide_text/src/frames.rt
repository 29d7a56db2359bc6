//! Lines of text, each written as the frame of its message.

ghost use Rattle.std.specs.Prelude.{◌≡◌, ◌+◌, ◌≤◌, ◌*◌, ◌++◌, ◌∷◌, ℕ, List, length, IfOk, IfErr, OnOk, OnErr, Err};
ghost use Rattle.daide_causes.specs.Causes.{HasFailed, WasRefused};
ghost use Rattle.daide_token.specs.Token.{bytes_of_tokens};
ghost use Rattle.daide_words.specs.Word.{names_of};
ghost use Rattle.daide_words.specs.Words.{words_of};
ghost use Rattle.daide_text.specs.Frames.{IsFaultOfNext, IsFrameLine, IsTextCause, Writes, WritesUpTo};
ghost use Rattle.daide_token.specs.HexDigits.{digits_of_byte as digits_in};
ghost use Rattle.daide_text.specs.Frames.{frame_line, longest_text_line, more_pairs, most_frame_tokens, trimmed};

use crate::input::read_line;
use crate::line::{LineFault, read_tokens};
use crate::reason::{Reason, reason_at};
use daide_causes::{Growth, Sink, Source};
use daide_token::{Token, digits_of_byte};
use daide_words::Words;
use std::alloc::AllocError;
use thiserror::Error;

/// The most tokens of a message.
const MOST_TOKENS: usize = 32_763;

/// The most lines of an input.
const MOST_LINES: u32 = 1_000_000;

/// The type of a frame that has a message.
const DM: u8 = 2;

/// Why no further frames are written. Lines are counted from 1.
#[derive(Clone, Copy, Debug, PartialEq, Eq, Error)]
pub enum TextFault {
    /// A read failed.
    #[error("input could not be read")]
    Read,
    /// The text at this column of this line, counted from 1 in bytes, is not an item. The reason is for people.
    #[error("line {0}: not a message: {1}")]
    NotMessage(u32, usize, Reason),
    /// This line has more than 400,000 bytes, or more than 32,763 tokens.
    #[error("line {0}: too long")]
    TooLong(u32),
    /// There are more than 1,000,000 lines.
    #[error("too many lines")]
    TooManyLines,
    /// An allocation was refused.
    #[error("out of memory")]
    Memory,
    /// A write failed.
    #[error("output could not be written")]
    Write,
}

/// Reads each line of text, and writes the frame of its message as a line of hexadecimal digits before it reads the
/// next line.
///
/// `written`: each line of the input is a message, and the line of its frame was written, in order.
///
/// `refused`: the frames of the lines before the first fault were written, and the fault is that of the next line.
///
/// `caused`: `Read`, `Memory` and `Write` are returned only if a read failed, an allocation was refused or a write failed.
///
/// Premise: a reader and a writer that record their bytes.
///
/// # Errors
///
/// The first line that has a fault is reported, by the first of these: `Read`; `TooLong` for its bytes; `NotMessage`;
/// `TooLong` for its tokens; `Write`. `Memory` is returned for the growth that was refused, and `TooManyLines` once
/// line 1,000,001 was read.
pub fn write_frames<A: Growth + Copy, R: Source, W: Sink>(
    alloc: A,
    words: &Words,
    reader: &mut R,
    writer: &mut W,
) -> Result<(), TextFault>
    ensures written { OnOk result (Writes (names_of (words_of words.now)) (R.remaining reader.old)
        (W.contents writer.old) (W.contents writer.new)) }
    ensures refused { IfErr result (WritesUpTo (names_of (words_of words.now)) (R.remaining reader.old)
        (W.contents writer.old) (W.contents writer.new)) }
    ensures caused { IfErr result (IsTextCause (HasFailed R.Fails) (WasRefused A.Refuses) (HasFailed W.Fails)) }
{
    for count in 0..MOST_LINES {
        let Some(line) = read_line(alloc, count + 1, reader)? else {
            return Ok(());
        };
        let text = frame_text(alloc, words, count + 1, line.as_slice())?;
        if writer.write_whole(text.as_slice()).is_err() {
            return Err(TextFault::Write);
        }
    }
    match read_line(alloc, MOST_LINES + 1, reader)? {
        Some(_line) => Err(TextFault::TooManyLines),
        None => Ok(()),
    }
}

/// Returns the output line for the line of this number.
fn frame_text<A: Growth + Copy>(
    alloc: A,
    words: &Words,
    number: u32,
    line: &[u8],
) -> Result<Vec<u8, A>, TextFault>
    requires { length line.now ≤ longest_text_line }
    ensures text { IfOk result (λ text. IsFrameLine (names_of (words_of words.now)) line.now text.items) }
    ensures refused { IfErr result (λ fault. (count : ℕ) (more : List (List ℕ)) → number ≡ count + 1
        → IsFaultOfNext (names_of (words_of words.now)) count (line.now ∷ more) fault) }
    ensures caused { IfErr result (IsTextCause ⊥ (WasRefused A.Refuses) ⊥) }
{
    let message = trimmed(line);
    let tokens = match read_tokens(alloc, words, message) {
        Ok(tokens) => tokens,
        Err(LineFault::NotItem(column)) => {
            return Err(TextFault::NotMessage(number, column, reason_at(message, column)));
        }
        Err(LineFault::Memory) => return Err(TextFault::Memory),
    };
    if tokens.len() > MOST_TOKENS {
        return Err(TextFault::TooLong(number));
    }
    match frame_line(alloc, tokens.as_slice()) {
        Ok(text) => Ok(text),
        Err(_) => Err(TextFault::Memory),
    }
}

/// Returns a line without the carriage return at its end.
fn trimmed(line: &[u8]) -> &[u8]
    ensures { result.now ≡ trimmed line.now }
{
    match line.strip_suffix(b"\r") {
        Some(front) => front,
        None => line,
    }
}

/// Returns the frame of a message as a line of digits.
fn frame_line<A: Growth>(alloc: A, tokens: &[Token]) -> Result<Vec<u8, A>, AllocError>
    requires { length tokens.now ≤ most_frame_tokens }
    ensures text { IfOk result (λ text. text.items ≡ frame_line tokens.now) }
    ensures refused { OnErr result (WasRefused A.Refuses) }
{
    let [high, low] = ((tokens.len() * 2) as u16).to_be_bytes();
    let mut text = Vec::new(alloc);
    push_first(DM, &mut text)?;
    push_byte(0, &mut text)?;
    push_byte(high, &mut text)?;
    push_byte(low, &mut text)?;
    push_tokens(tokens, &mut text)?;
    A::append(&mut text, b"\n")?;
    Ok(text)
}

/// Appends the bytes of tokens, with a space before each byte.
fn push_tokens<A: Growth>(tokens: &[Token], text: &mut Vec<u8, A>) -> Result<(), AllocError>
    ensures text { OnOk result (text.new.items ≡ text.old.items ++ more_pairs (bytes_of_tokens tokens.now)) }
    ensures refused { OnErr result (WasRefused A.Refuses) }
{
    let mut rest = tokens;
    while let [token, others @ ..] = rest {
        let [high, low] = token.to_be();
        push_byte(high, text)?;
        push_byte(low, text)?;
        rest = others;
    }
    Ok(())
}

/// Appends the two digits of a byte, without a space.
fn push_first<A: Growth>(byte: u8, text: &mut Vec<u8, A>) -> Result<(), AllocError>
    ensures text { OnOk result (text.new.items ≡ text.old.items ++ digits_in byte) }
    ensures refused { OnErr result (WasRefused A.Refuses) }
{
    A::append(text, &digits_of_byte(byte))
}

/// Appends a space and the two digits of a byte.
fn push_byte<A: Growth>(byte: u8, text: &mut Vec<u8, A>) -> Result<(), AllocError>
    ensures text { OnOk result (text.new.items ≡ text.old.items ++ 32 ∷ digits_in byte) }
    ensures refused { OnErr result (WasRefused A.Refuses) }
{
    let [high, low] = digits_of_byte(byte);
    A::append(text, &[b' ', high, low])
}
