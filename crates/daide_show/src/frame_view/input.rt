//! The input: its bytes up to the limit, and their digits.

ghost use Rattle.std.specs.Prelude.{◌≡◌, ◌≤◌, ◌<◌, ◌+◌, ◌++◌, ◌⊎◌, ℕ, List, length, IfOk, IfErr, IfSome, Err, OnOk, OnErr, Ok, ◌≢◌};
ghost use Rattle.hex.specs.Hex.{decode_of};
ghost use Rattle.hex.specs.declared.error.FromHexError.{FromHexError};
ghost use Rattle.daide_causes.specs.Causes.{HasFailed, WasRefused};
ghost use Rattle.std.specs.Io.KnownBytes.{Consumes};
ghost use Rattle.daide_show.specs.Input.{digits_of, digits_of_input_byte, limit};
ghost use Rattle.daide_show.specs.Shown.{IsShowCause};

use super::ShowFault;
use super::places::{InputByte, Place, input_byte, may_end_at, next_place};
use daide_causes::{Growth, Source};
use daide_token::digits_of_byte;
use std::alloc::AllocError;

/// The most bytes of an input.
pub(crate) const LIMIT: usize = 200_000;

/// The most bytes of one read.
const PIECE: usize = 4096;

/// Reads the whole input, but at most 200,001 bytes.
///
/// Fails with `Read`, `TooLong` and `Memory`, each only for its cause. Every failed read is a fault, even an interrupted
/// one, so the call ends even if the reader is always interrupted.
pub fn read_input<A: Growth, R: Source>(alloc: A, reader: &mut R) -> Result<Vec<u8, A>, ShowFault>
    ensures fits { IfOk result (λ input. length input.items ≤ limit) }
    ensures whole { IfOk result (λ input. IfSome (R.remaining reader.old) (λ all. input.items ≡ all)) }
    ensures too_long { IfErr result (λ fault. fault ≡ ShowFault.TooLong
        → IfSome (R.remaining reader.old) (λ all. limit < length all)) }
    ensures faults { IfErr result (λ fault. (fault ≡ ShowFault.Read) ⊎ (fault ≡ ShowFault.TooLong)
        ⊎ (fault ≡ ShowFault.Memory)) }
    ensures caused { IfErr result (IsShowCause (HasFailed R.Fails) (WasRefused A.Refuses) ⊥) }
    ensures read { (bytes : List ℕ) × Consumes (R.remaining reader.old) (R.remaining reader.new) bytes
        × (length bytes ≤ limit + 1) }
{
    let mut input = Vec::new(alloc);
    let mut piece = [0u8; PIECE];
    for _turn in 0..=LIMIT {
        let room = PIECE.min(LIMIT + 1 - input.len());
        let count = match reader.read_some(&mut piece[..room]) {
            Ok(0) => return Ok(input),
            Ok(count) => count,
            Err(_) => return Err(ShowFault::Read),
        };
        if count > LIMIT - input.len() {
            return Err(ShowFault::TooLong);
        }
        let Ok(()) = A::append(&mut input, &piece[..count]) else {
            return Err(ShowFault::Memory);
        };
    }
    unreachable!()
}

/// Appends what a byte gives.
fn push_input_byte<A: Growth>(part: InputByte, digits: &mut Vec<u8, A>) -> Result<(), AllocError>
    ensures digits { OnOk result (digits.new.items ≡ digits.old.items ++ digits_of_input_byte part) }
    ensures refused { OnErr result (WasRefused A.Refuses) }
{
    match part {
        InputByte::Nothing => Ok(()),
        InputByte::Kept(digit) => A::append(digits, &[digit]),
        InputByte::Byte(byte) => A::append(digits, &digits_of_byte(byte)),
    }
}

/// Returns the digits of an input.
pub(crate) fn digits_of<A: Growth>(alloc: A, input: &[u8]) -> Result<Vec<u8, A>, AllocError>
    ensures digits { IfOk result (λ digits. digits.items ≡ digits_of input.now) }
    ensures refused { OnErr result (WasRefused A.Refuses) }
{
    let mut digits = Vec::new(alloc);
    let mut place = Place::Outside;
    let mut rest = input;
    while let [byte, others @ ..] = rest {
        push_input_byte(input_byte(place, *byte, others), &mut digits)?;
        place = next_place(place, *byte, others);
        rest = others;
    }
    if !may_end_at(place) {
        A::append(&mut digits, b"'")?;
    }
    Ok(digits)
}

/// Returns the bytes of digits.
pub(crate) fn decode<A: Growth>(alloc: A, digits: &[u8]) -> Result<Vec<u8, A>, ShowFault>
    ensures bytes { IfOk result (λ bytes. decode_of digits.now ≡ Ok bytes.items) }
    ensures refused { IfErr result (λ fault. fault ≢ ShowFault.Memory
        → (fault ≡ ShowFault.NotHex) × (error : FromHexError) × (decode_of digits.now ≡ Err error)) }
    ensures caused { IfErr result (IsShowCause ⊥ (WasRefused A.Refuses) ⊥) }
{
    // One byte for two digits. Which bytes these are does not matter.
    let mut bytes = Vec::new(alloc);
    let Ok(()) = A::append(&mut bytes, &digits[..digits.len() / 2]) else {
        return Err(ShowFault::Memory);
    };
    match hex::decode_to_slice(digits, bytes.as_mut_slice()) {
        Ok(()) => Ok(bytes),
        Err(_) => Err(ShowFault::NotHex),
    }
}
