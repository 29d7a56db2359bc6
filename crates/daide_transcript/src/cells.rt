//! The cells of a table or a transcript. An unknown one is a dash.

use daide_frame::Side;
use daide_protocol::{BotName, Deed, NameText, Power};
use std::io;
use std::io::Write;

/// Returns the name of a side.
pub(crate) fn side_name(side: Side) -> &'static str {
    match side {
        Side::Bot => "bot",
        Side::Server => "server",
    }
}

/// Returns the word for what was done with a message.
pub(crate) fn deed_word(deed: Deed) -> &'static str {
    match deed {
        Deed::Relayed => "relay",
        Deed::Dropped => "drop",
        Deed::Prn => "prn",
        Deed::Huh(_) => "huh",
    }
}

/// Writes what was done with a message.
pub(crate) fn put_deed<W: Write>(deed: Deed, out: &mut W) -> io::Result<()> {
    let word = deed_word(deed);
    match deed {
        Deed::Huh(place) => write!(out, "{word} {place}"),
        _ => write!(out, "{word}"),
    }
}

/// Writes the number of a session.
pub(crate) fn put_number<W: Write>(number: Option<u32>, out: &mut W) -> io::Result<()> {
    match number {
        Some(number) => write!(out, "{number}"),
        None => out.write_all(b"-"),
    }
}

/// Writes the name of a bot.
pub(crate) fn put_name<W: Write>(name: Option<NameText>, out: &mut W) -> io::Result<()> {
    match name {
        Some(text) => write!(out, "{}", BotName::Nme(text)),
        None => out.write_all(b"-"),
    }
}

/// Writes a power.
pub(crate) fn put_power<W: Write>(power: Option<Power>, out: &mut W) -> io::Result<()> {
    match power {
        Some(power) => write!(out, "{power}"),
        None => out.write_all(b"-"),
    }
}
