//! Why a frame is at fault.

ghost use Rattle.std.specs.Prelude.{◌≡◌, ◌≤◌, ◌++◌, length, unwrap_or, OnOk, OnErr};
ghost use Rattle.daide_causes.specs.Causes.{WasRefused};
ghost use Rattle.daide_frame.specs.Frames.{first_alien};
ghost use Rattle.daide_frame.specs.Head.{kind_of};
ghost use Rattle.daide_protocol.specs.Bounds.{longest_body};
ghost use Rattle.daide_show.specs.Cause.{expected_length, expected_value, faulty_body, right_length};
ghost use Rattle.daide_show.specs.Shown.{cause_lines};

use daide_causes::Growth;
use daide_frame::Code;
use daide_io::{FaultCause, FaultField};
use daide_token::token_at;
use std::alloc::AllocError;

/// Returns the number of bytes up to the end of the first token of no known category; 0 without one.
fn first_alien_end(body: &[u8]) -> usize
    ensures value { result ≡ unwrap_or (first_alien body.now) 0 }
    ensures within { result ≤ length body.now }
{
    for i in 0..body.len() / 2 {
        if !token_at(body, i).has_known_category() {
            return 2 * i + 2;
        }
    }
    0
}

/// Returns a body up to its fault.
pub(super) fn faulty_body(code: Code, body: &[u8]) -> &[u8]
    ensures value { result.now ≡ faulty_body code body.now }
    ensures within { length result.now ≤ length body.now }
{
    match code {
        Code::InvalidToken => &body[..first_alien_end(body)],
        _ => &[],
    }
}

/// Returns the lengths that are right for the kind of this number.
fn right_length(kind: u8) -> &'static str
    ensures { result.now ≡ right_length (kind_of kind) }
{
    match kind {
        0 => "0004",
        1 => "a multiple of 6",
        2 => "an even number",
        3 => "0000",
        4 => "0002",
        _ => "",
    }
}

/// Returns the lengths that are right in a header.
fn expected_length(code: Code, header: &[u8]) -> &'static str
    ensures { result.now ≡ expected_length code header.now }
{
    match (code, header) {
        (Code::UnknownMessage, _) => "at most FFF6",
        (_, [kind, ..]) => right_length(*kind),
        (_, []) => "",
    }
}

/// Returns the values that are right for the field of a fault.
fn expected_value(code: Code, header: &[u8], field: FaultField) -> &'static str
    ensures { result.now ≡ expected_value code header.now field }
{
    match field {
        FaultField::Kind(_) => "00 to 04",
        FaultField::Length(_) => expected_length(code, header),
        FaultField::Version(_) => "0001",
        FaultField::MagicNumber(_) => "DA10",
        FaultField::Token(_, _) => "0000 to 4BFF, or 5000 to 57FF",
    }
}

/// Writes the lines that explain a fault, from the header and the body up to it.
pub(super) fn write_cause<A: Growth>(
    code: Code,
    header: &[u8],
    body: &[u8],
    text: &mut Vec<u8, A>,
) -> Result<(), AllocError>
    requires { length body.now ≤ longest_body }
    ensures text { OnOk result (text.new.items ≡ text.old.items ++ cause_lines code header.now body.now) }
    ensures refused { OnErr result (WasRefused A.Refuses) }
{
    let field = FaultField::of(code, false, header, body);
    let cause = FaultCause { code, field };
    A::append_text(text, format_args_nl!("{cause}"))?;
    let Some(field) = field else {
        return Ok(());
    };
    let expected = expected_value(code, header, field);
    A::append_text(text, format_args_nl!("expected: {expected}"))
}
