//! One frame, shown in plain words.
//!
//! The input is read up to its limit before anything is judged, and the text is complete before any of it is written.
//! So after a fault of the input, or a refused allocation, nothing is written.

mod cause;
pub(crate) mod input;
pub(crate) mod one_frame;
pub(crate) mod places;
mod text;

ghost use Rattle.std.specs.Prelude.{◌≢◌, ◌≤◌, ◌+◌, ℕ, List, length, IfOk, IfErr, IfSome, Ok, Err};
ghost use Rattle.std.specs.Io.KnownBytes.{Consumes, Keeps};
ghost use Rattle.daide_causes.specs.Causes.{HasFailed, WasRefused};
ghost use Rattle.daide_show.specs.Input.{limit};
ghost use Rattle.daide_show.specs.Shown.{request_of, plain_request, AreShownAs, IsShownAs, Shows, IsFaultAt, IsShowCause};

use daide_causes::{Growth, Sink, Source};
use daide_frame::{Cutter, Side};
use daide_grammar::Level;
use daide_protocol::MAX_BODY;
use daide_words::Words;
pub use input::read_input;
use input::{LIMIT, decode, digits_of};
use one_frame::{ParsedInput, find_frame};
use text::{write_bytes_fault, write_frame};
use thiserror::Error;

/// Why nothing is shown, in the order of the tests. `Memory` is returned by the allocation that was refused, before
/// anything is written.
#[derive(Clone, Copy, Debug, PartialEq, Eq, Error)]
pub enum ShowFault {
    /// A read failed.
    #[error("input could not be read")]
    Read,
    /// The input has more than 200,000 bytes.
    #[error("input is too long")]
    TooLong,
    /// The input is not hexadecimal digits, two for each byte, nor a literal of bytes.
    #[error("input is not hexadecimal")]
    NotHex,
    /// The input has fewer bytes than the header announces, or more.
    #[error("input is not one frame")]
    NotOneFrame,
    /// An allocation was refused.
    #[error("out of memory")]
    Memory,
    /// A write failed.
    #[error("output could not be written")]
    Write,
}

/// How a frame is judged and shown.
#[derive(Clone, Copy)]
pub struct Request<'a> {
    /// The side that sent the frame.
    pub side: Side,
    /// The level of press at which a message is judged.
    pub level: Level,
    /// The operator's words. Messages are judged with them and printed with their names.
    pub words: &'a Words,
    /// Whether a frame that is not relayed is explained.
    pub is_explained: bool,
}

/// Returns the text for some bytes, and whether they would be relayed.
fn show_bytes<A: Growth + Copy>(
    alloc: A,
    request: &Request<'_>,
    bytes: &[u8],
) -> Result<(Vec<u8, A>, bool), ShowFault>
    ensures shown { IfOk result (λ answer. AreShownAs (request_of request.now) bytes.now
        (Ok (record { text = answer.0.items; relayed = answer.1 }))) }
    ensures refused { IfErr result (λ fault. fault ≢ ShowFault.Memory
        → AreShownAs (request_of request.now) bytes.now (Err fault)) }
    ensures caused { IfErr result (IsShowCause ⊥ (WasRefused A.Refuses) ⊥) }
{
    let Ok(mut cutter) = Cutter::new(alloc, MAX_BODY) else {
        return Err(ShowFault::Memory);
    };
    let mut text = Vec::new(alloc);
    let written = match find_frame(&mut cutter, bytes) {
        ParsedInput::NotOneFrame => return Err(ShowFault::NotOneFrame),
        ParsedInput::Fault(code) => {
            write_bytes_fault(request.is_explained, code, bytes, &mut text)
        }
        ParsedInput::Whole(head) => write_frame(alloc, request, head, cutter.body(), &mut text),
    };
    match written {
        Ok(relayed) => Ok((text, relayed)),
        Err(_) => Err(ShowFault::Memory),
    }
}

/// Returns the text for an input, and whether its frame would be relayed.
fn text_of_input<A: Growth + Copy>(
    alloc: A,
    request: &Request<'_>,
    input: &[u8],
) -> Result<(Vec<u8, A>, bool), ShowFault>
    ensures shown { IfOk result (λ answer. IsShownAs (request_of request.now) input.now
        (Ok (record { text = answer.0.items; relayed = answer.1 }))) }
    ensures refused { IfErr result (λ fault. fault ≢ ShowFault.Memory
        → IsShownAs (request_of request.now) input.now (Err fault)) }
    ensures caused { IfErr result (IsShowCause ⊥ (WasRefused A.Refuses) ⊥) }
{
    if input.len() > LIMIT {
        return Err(ShowFault::TooLong);
    }
    let Ok(digits) = digits_of(alloc, input) else {
        return Err(ShowFault::Memory);
    };
    match decode(alloc, digits.as_slice()) {
        Ok(bytes) => show_bytes(alloc, request, bytes.as_slice()),
        Err(fault) => Err(fault),
    }
}

/// Shows the frame of an input that was read, as `show_with` does. It returns no `Read`.
pub fn show_input<A: Growth + Copy, W: Sink>(
    alloc: A,
    request: &Request<'_>,
    input: &[u8],
    writer: &mut W,
) -> Result<bool, ShowFault>
    // Writes the text for the input. Returns true exactly if the frame would be relayed.
    ensures shown { IfOk result (λ relayed.
        Shows (request_of request.now) input.now relayed (W.contents writer.old) (W.contents writer.new)) }

    // The input has the fault that is returned. A write can fail only if there is something to show.
    ensures refused { IfErr result (λ fault. IsFaultAt (request_of request.now) input.now fault) }

    // Only a failed write can leave a part of the text written.
    ensures nothing_written { IfErr result (λ fault. fault ≢ ShowFault.Write
        → Keeps (W.contents writer.old) (W.contents writer.new)) }

    // An allocation was refused, or a write failed, if the fault says so. Nothing is read.
    ensures caused { IfErr result (IsShowCause ⊥ (WasRefused A.Refuses) (HasFailed W.Fails)) }
{
    let (text, relayed) = text_of_input(alloc, request, input)?;
    match writer.write_whole(text.as_slice()) {
        Ok(()) => Ok(relayed),
        Err(_) => Err(ShowFault::Write),
    }
}

/// Reads one frame, in hexadecimal digits or as a bytes literal, and writes what it is and its verdict, judged as the
/// side's at the level. Returns whether it would be relayed.
///
/// `shown`: what was written is what `IsShownAs` says of the input. The result is true if and only if the frame is
/// relayed.
///
/// `refused`: `TooLong`, `NotHex` and `NotOneFrame` are returned for their cause and in this order. `Write` is returned
/// only if there is something to write.
///
/// `caused`: `Read`, `Memory` and `Write` are returned only if a read failed, an allocation was refused or a write failed.
///
/// `nothing_written`: every error except `Write` is returned with nothing written.
///
/// `read`: at most 200,001 bytes are read, from a reader that may have no end.
///
/// Premise: a reader and a writer that record their bytes.
pub fn show<A: Growth + Copy, R: Source, W: Sink>(
    alloc: A,
    side: Side,
    level: Level,
    reader: &mut R,
    writer: &mut W,
) -> Result<bool, ShowFault>
    // Writes the text for the input. Returns true exactly if the frame would be relayed.
    ensures shown { IfOk result (λ relayed. IfSome (R.remaining reader.old) (λ input.
        Shows (plain_request side level) input relayed (W.contents writer.old) (W.contents writer.new))) }

    // The input has the fault that is returned. A write can fail only if there is something to show.
    ensures refused { IfErr result (λ fault. IfSome (R.remaining reader.old) (λ input.
        IsFaultAt (plain_request side level) input fault)) }

    // A read failed, an allocation was refused, or a write failed, if the fault says so.
    ensures caused { IfErr result (IsShowCause (HasFailed R.Fails) (WasRefused A.Refuses) (HasFailed W.Fails)) }

    // Only a failed write can leave a part of the text written.
    ensures nothing_written { IfErr result (λ fault. fault ≢ ShowFault.Write
        → Keeps (W.contents writer.old) (W.contents writer.new)) }

    // Reads at most one byte beyond the limit.
    ensures read { (bytes : List ℕ) × Consumes (R.remaining reader.old) (R.remaining reader.new) bytes
        × (length bytes ≤ limit + 1) }
{
    let request = Request {
        side,
        level,
        words: &Words::new(),
        is_explained: false,
    };
    show_with(alloc, &request, reader, writer)
}

/// Shows a frame as `show` does, with an operator's words and an explanation if the request has them. Messages are
/// those with the words, and a word is printed by its name. Both calls judge at 254 brackets, the most that settings
/// can allow.
pub fn show_with<A: Growth + Copy, R: Source, W: Sink>(
    alloc: A,
    request: &Request<'_>,
    reader: &mut R,
    writer: &mut W,
) -> Result<bool, ShowFault>
    // Writes the text for the input. Returns true exactly if the frame would be relayed.
    ensures shown { IfOk result (λ relayed. IfSome (R.remaining reader.old) (λ input.
        Shows (request_of request.now) input relayed (W.contents writer.old) (W.contents writer.new))) }

    // The input has the fault that is returned. A write can fail only if there is something to show.
    ensures refused { IfErr result (λ fault. IfSome (R.remaining reader.old) (λ input.
        IsFaultAt (request_of request.now) input fault)) }

    // A read failed, an allocation was refused, or a write failed, if the fault says so.
    ensures caused { IfErr result (IsShowCause (HasFailed R.Fails) (WasRefused A.Refuses) (HasFailed W.Fails)) }

    // Only a failed write can leave a part of the text written.
    ensures nothing_written { IfErr result (λ fault. fault ≢ ShowFault.Write
        → Keeps (W.contents writer.old) (W.contents writer.new)) }

    // Reads at most one byte beyond the limit.
    ensures read { (bytes : List ℕ) × Consumes (R.remaining reader.old) (R.remaining reader.new) bytes
        × (length bytes ≤ limit + 1) }
{
    let input = read_input(alloc, reader)?;
    show_input(alloc, request, input.as_slice(), writer)
}
