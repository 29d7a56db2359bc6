//! The pieces of which the texts are made.

ghost use Rattle.std.specs.Prelude.{◌≡◌, ◌+◌, codes};
ghost use Rattle.std.specs.List.{flat_map};
ghost use Rattle.std.specs.Fmt.{decimal};
ghost use Rattle.daide_protocol.specs.BotName.{name_text};
ghost use Rattle.daide_status.specs.Pieces.{AppendsOrRefused, phase_name, right_aligned, cell, number_or_dash, number_or_null, text_if};
ghost use Rattle.daide_status.specs.Pieces.{escaped_byte, quoted, quoted_name};

use daide_causes::Growth;
use daide_protocol::bot_name::TEXT_ROOM;
use daide_protocol::{BotName, Phase};
use std::alloc::AllocError;

/// Returns the name of a phase.
pub(crate) fn phase_name(phase: Phase) -> &'static str
    ensures { result.now ≡ phase_name phase }
{
    match phase {
        Phase::WaitIm => "wait IM",
        Phase::WaitRm => "wait RM",
        Phase::Open => "open",
        Phase::Over => "over",
    }
}

/// Returns the sum of two numbers of bytes.
pub(crate) fn sum(one: usize, other: usize) -> u128
    ensures { result ≡ one + other }
{
    one as u128 + other as u128
}

/// Appends a number, after as many spaces as its digits are fewer than a width.
fn put_right<A: Growth>(width: usize, number: u128, out: &mut Vec<u8, A>) -> Result<(), AllocError>
    ensures { AppendsOrRefused A.Refuses out.old out.new result (right_aligned width (decimal number)) }
{
    A::append_text(out, format_args!("{number:>width$}"))
}

/// Appends a dash, after one space less than a width.
fn put_dash<A: Growth>(width: usize, out: &mut Vec<u8, A>) -> Result<(), AllocError>
    ensures { AppendsOrRefused A.Refuses out.old out.new result (right_aligned width (codes "-")) }
{
    A::append_text(out, format_args!("{dash:>width$}", dash = "-"))
}

/// Appends a number in a column of a width, after a space, so that a wider number is apart from the one before it too.
pub(crate) fn put_cell<A: Growth>(
    width: usize,
    number: u128,
    out: &mut Vec<u8, A>,
) -> Result<(), AllocError>
    ensures { AppendsOrRefused A.Refuses out.old out.new result (cell width (decimal number)) }
{
    A::append(out, b" ")?;
    put_right(width, number, out)
}

/// Appends a number in a column, or a dash if there is none.
pub(crate) fn put_or_dash<A: Growth>(
    width: usize,
    number: Option<u64>,
    out: &mut Vec<u8, A>,
) -> Result<(), AllocError>
    ensures { AppendsOrRefused A.Refuses out.old out.new result (number_or_dash width number) }
{
    match number {
        Some(number) => put_cell(width, number as u128, out),
        None => {
            A::append(out, b" ")?;
            put_dash(width, out)
        }
    }
}

/// Appends a number, or `null` if there is none.
pub(crate) fn put_or_null<A: Growth>(
    number: Option<u64>,
    out: &mut Vec<u8, A>,
) -> Result<(), AllocError>
    ensures { AppendsOrRefused A.Refuses out.old out.new result (number_or_null number) }
{
    match number {
        Some(number) => A::append_text(out, format_args!("{number}")),
        None => A::append(out, b"null"),
    }
}

/// Returns a port as a number of 64 bits, if there is one.
pub(crate) fn port_number(port: Option<u16>) -> Option<u64>
    ensures { result ≡ port }
{
    match port {
        Some(port) => Some(u64::from(port)),
        None => None,
    }
}

/// Appends a text if a condition holds.
pub(crate) fn put_if<A: Growth>(
    holds: bool,
    text: &str,
    out: &mut Vec<u8, A>,
) -> Result<(), AllocError>
    ensures { AppendsOrRefused A.Refuses out.old out.new result (text_if holds text.now) }
{
    if holds {
        A::append(out, text.as_bytes())
    } else {
        Ok(())
    }
}

/// Appends a byte of a text between double quotes.
fn put_escaped_byte<A: Growth>(byte: u8, out: &mut Vec<u8, A>) -> Result<(), AllocError>
    ensures { AppendsOrRefused A.Refuses out.old out.new result (escaped_byte byte) }
{
    if byte == b'"' || byte == b'\\' {
        return A::append(out, &[b'\\', byte]);
    }
    A::append(out, &[byte])
}

/// Appends the bytes of a text between double quotes.
fn put_escaped<A: Growth>(text: &[u8], out: &mut Vec<u8, A>) -> Result<(), AllocError>
    ensures { AppendsOrRefused A.Refuses out.old out.new result (flat_map escaped_byte text.now) }
{
    let mut rest = text;
    'bytes: while let [byte, others @ ..] = rest {
        put_escaped_byte(*byte, out)?;
        rest = others;
    }
    Ok(())
}

/// Appends a text between double quotes.
fn put_quoted<A: Growth>(text: &[u8], out: &mut Vec<u8, A>) -> Result<(), AllocError>
    ensures { AppendsOrRefused A.Refuses out.old out.new result (quoted text.now) }
{
    A::append(out, b"\"")?;
    put_escaped(text, out)?;
    A::append(out, b"\"")
}

/// Appends the text of a name.
pub(crate) fn put_name<A: Growth>(name: &BotName, out: &mut Vec<u8, A>) -> Result<(), AllocError>
    ensures { AppendsOrRefused A.Refuses out.old out.new result (name_text name.now) }
{
    let mut line = [0; TEXT_ROOM];
    let len = name.put_text(&mut line);
    A::append(out, &line[..len])
}

/// Appends the text of a name between double quotes.
pub(crate) fn put_quoted_name<A: Growth>(
    name: &BotName,
    out: &mut Vec<u8, A>,
) -> Result<(), AllocError>
    ensures { AppendsOrRefused A.Refuses out.old out.new result (quoted_name name.now) }
{
    let mut line = [0; TEXT_ROOM];
    let len = name.put_text(&mut line);
    put_quoted(&line[..len], out)
}
