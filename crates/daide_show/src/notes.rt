//! Why an input is not hexadecimal, or not one frame.

ghost use Rattle.std.specs.Prelude.{◌≡◌, ◌<◌, length, slice_index, IfOk, OnErr, Some};
ghost use Rattle.std.specs.Fmt.{WritesOnOk};
ghost use Rattle.daide_causes.specs.Causes.{WasRefused};
ghost use Rattle.daide_show.specs.Input.{digits_of};
ghost use Rattle.hex.specs.Hex.{upper_digits};
ghost use Rattle.daide_protocol.specs.Bounds.{longest_body};
ghost use Rattle.daide_show.specs.Shown.{parse_frame};
ghost use Rattle.daide_show.specs.Note.{byte_text, is_bad, digits_note, frame_note, input_note_of, note_of_frame, note_text};

use crate::frame_view::ShowFault;
use crate::frame_view::input::{LIMIT, decode, digits_of};
use crate::frame_view::one_frame::{ParsedInput, find_frame};
use crate::frame_view::places::{
    InputByte, Place, input_byte, is_hex_digit, may_end_at, next_place,
};
use daide_causes::Growth;
use daide_frame::Cutter;
use daide_protocol::MAX_BODY;
use std::alloc::AllocError;
use std::fmt;

/// Why an input is not hexadecimal (the first three), or not one frame.
#[derive(Clone, Copy)]
pub enum InputNote {
    /// This byte, at this place counted from 1, is neither a hexadecimal digit nor dropped.
    BadByte(usize, u8),
    /// The quote of a literal is not closed.
    OpenQuote,
    /// Apart from what is dropped there are only digits, and this odd number of them.
    OddDigits(usize),
    /// There are only this many bytes, fewer than a header has.
    ShortHeader(usize),
    /// The header announces the first number of bytes, but only the second number follows.
    ShortBody(u16, usize),
    /// A complete frame ends at this byte, counted from 1, and more bytes follow.
    AnotherFrame(usize),
}

/// Returns the hexadecimal digit of a value, in upper case.
fn upper_digit(value: u8) -> char
    requires { value < 16 }
    ensures digit { result ≡ slice_index upper_digits value }
    ensures ascii { result < 128 }
{
    char::from(b"0123456789ABCDEF"[usize::from(value)])
}

/// Writes a byte: in quotes if it is printable ASCII other than a space, else in hexadecimal digits.
fn write_byte<W: fmt::Write>(f: &mut fmt::Formatter<W>, byte: u8) -> fmt::Result
    ensures { WritesOnOk W.write_str_gives f.old result (byte_text byte) f.new }
{
    if 0x21 <= byte && byte <= 0x7E {
        let quoted = char::from(byte);
        return write!(f, "'{quoted}'");
    }
    let high = upper_digit(byte / 16);
    let low = upper_digit(byte % 16);
    write!(f, "0x{high}{low}")
}

impl fmt::Display for InputNote {
    ghost output = { λ note. Some (note_text note) };

    fn fmt<W: fmt::Write>(&self, f: &mut fmt::Formatter<W>) -> fmt::Result {
        match *self {
            InputNote::BadByte(place, byte) => {
                write!(f, "byte {place} is ")?;
                write_byte(f, byte)
            }
            InputNote::OpenQuote => f.write_str("the quote is not closed"),
            InputNote::OddDigits(count) => write!(f, "the number of digits is odd: {count}"),
            InputNote::ShortHeader(count) => write!(
                f,
                "a header has 4 bytes, the input has {count}"
            ),
            InputNote::ShortBody(announced, count) => {
                write!(f, "the header announces {announced} bytes, {count} follow")
            }
            InputNote::AnotherFrame(place) => {
                write!(f, "another frame begins after byte {place}")
            }
        }
    }
}

/// Returns whether what a byte gives is not a digit.
fn is_bad(part: InputByte) -> bool
    ensures { result ≡ is_bad part }
{
    match part {
        InputByte::Kept(byte) => !is_hex_digit(byte),
        InputByte::Nothing | InputByte::Byte(_) => false,
    }
}

/// Returns why an input with this number of digits is not hexadecimal.
fn digits_note(input: &[u8], digits: usize) -> InputNote
    requires { digits ≡ length (digits_of input.now) }
    ensures { result ≡ digits_note input.now }
{
    let mut place = Place::Outside;
    let mut rest = input;
    while let [byte, others @ ..] = rest {
        if is_bad(input_byte(place, *byte, others)) {
            return InputNote::BadByte(input.len() - rest.len() + 1, *byte);
        }
        place = next_place(place, *byte, others);
        rest = others;
    }
    if may_end_at(place) {
        return InputNote::OddDigits(digits);
    }
    InputNote::OpenQuote
}

/// Returns why some bytes are not one frame.
fn frame_note(bytes: &[u8]) -> InputNote
    ensures { result ≡ frame_note bytes.now }
{
    if bytes.len() < 4 {
        return InputNote::ShortHeader(bytes.len());
    }
    let announced = u16::from_be_bytes([bytes[2], bytes[3]]);
    let end = 4 + usize::from(announced);
    if bytes.len() < end {
        return InputNote::ShortBody(announced, bytes.len() - 4);
    }
    InputNote::AnotherFrame(end)
}

/// Returns why some bytes are not one frame, if they are not.
fn note_of_frame<A: Growth>(alloc: A, bytes: &[u8]) -> Result<Option<InputNote>, AllocError>
    ensures note { IfOk result (λ note. note ≡ note_of_frame (parse_frame longest_body bytes.now) bytes.now) }
    ensures refused { OnErr result (WasRefused A.Refuses) }
{
    let mut cutter = Cutter::new(alloc, MAX_BODY)?;
    match find_frame(&mut cutter, bytes) {
        ParsedInput::NotOneFrame => Ok(Some(frame_note(bytes))),
        ParsedInput::Fault(_) | ParsedInput::Whole(_) => Ok(None),
    }
}

/// Returns why an input is not hexadecimal, or not one frame, and `None` for every other input. The only error is that
/// the allocator refused memory (`refused`).
pub fn input_note<A: Growth + Copy>(alloc: A, input: &[u8]) -> Result<Option<InputNote>, AllocError>
    ensures note { IfOk result (λ note. note ≡ input_note_of input.now) }
    ensures refused { OnErr result (WasRefused A.Refuses) }
{
    if input.len() > LIMIT {
        return Ok(None);
    }
    let digits = digits_of(alloc, input)?;
    match decode(alloc, digits.as_slice()) {
        Ok(bytes) => note_of_frame(alloc, bytes.as_slice()),
        Err(ShowFault::Memory) => Err(AllocError),
        Err(_) => Ok(Some(digits_note(input, digits.len()))),
    }
}
