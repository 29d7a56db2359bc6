//! The line of a message: columns, or an object of JSON.

use crate::cells::{deed_word, put_deed, put_name, put_number, put_power, side_name};
use crate::sessions::SessionResult;
use crate::stamp::Stamp;
use daide_frame::{Head, Kind, Side};
use daide_protocol::Deed;
use daide_token::write_text_with;
use daide_words::Words;
use std::io;
use std::io::Write;

/// The form of a transcript.
#[derive(Clone, Copy, Debug, PartialEq, Eq)]
pub enum MessageFormat {
    /// Columns, with a tab between each two.
    Text,
    /// An object on each line.
    Json,
}

/// A message that a log's report lists.
#[derive(Clone, Copy)]
pub(crate) struct Message<'m> {
    /// Its time, if the log has one.
    pub(crate) time: Option<Stamp>,
    /// The name of the log.
    pub(crate) record: &'m str,
    /// The number of the log's line with its last byte.
    pub(crate) line: u32,
    /// Its session.
    pub(crate) session: &'m SessionResult,
    /// Its sender.
    pub(crate) side: Side,
    /// Its header.
    pub(crate) head: Head,
    /// Its body.
    pub(crate) body: &'m [u8],
    /// What was done with it.
    pub(crate) deed: Deed,
    /// The operator's words.
    pub(crate) words: &'m Words,
}

/// Writes the text of a message's tokens, with the operator's words by their names.
fn put_tokens<W: Write>(message: &Message<'_>, out: &mut W) -> io::Result<()> {
    let whole = message.body.len() / 2 * 2;
    write_text_with(message.words.names(), &message.body[..whole], out)
}

/// Appends the text of a message: that of its tokens, or the kind of another frame and its length.
fn put_text(message: &Message<'_>, out: &mut Vec<u8>) -> io::Result<()> {
    let Head { kind, len } = message.head;
    match kind {
        Kind::Dm => put_tokens(message, out),
        _ => write!(out, "{} {len}", kind.name()),
    }
}

/// Appends a message in columns, with a tab between each two.
fn put_columns(message: &Message<'_>, out: &mut Vec<u8>) -> io::Result<()> {
    match message.time {
        Some(time) => out.write_all(&time.text)?,
        None => out.write_all(b"-")?,
    }
    out.write_all(b"\t")?;
    put_number(message.session.number, out)?;
    out.write_all(b"\t")?;
    put_name(message.session.name, out)?;
    out.write_all(b"\t")?;
    put_power(message.session.power, out)?;
    write!(out, "\t{}\t", side_name(message.side))?;
    put_text(message, out)?;
    if message.deed != Deed::Relayed {
        out.write_all(b"\t")?;
        put_deed(message.deed, out)?;
    }
    out.write_all(b"\n")
}

/// A writer of what is within a string of JSON.
#[derive(Drop)]
struct JsonString<'o> {
    out: &'o mut Vec<u8>,
}

/// Appends a byte within a string of JSON.
fn put_escaped(byte: u8, out: &mut Vec<u8>) -> io::Result<()> {
    match byte {
        b'"' | b'\\' => out.write_all(&[b'\\', byte]),
        0..=31 => write!(out, "\\u00{byte:02x}"),
        _ => out.write_all(&[byte]),
    }
}

impl Write for JsonString<'_> {
    fn write(&mut self, bytes: &[u8]) -> io::Result<usize> {
        for byte in bytes {
            put_escaped(*byte, self.out)?;
        }
        Ok(bytes.len())
    }

    fn flush(&mut self) -> io::Result<()> {
        Ok(())
    }
}

/// Appends a time as a value of JSON.
fn put_json_time(time: Option<Stamp>, out: &mut Vec<u8>) -> io::Result<()> {
    let Some(time) = time else {
        return out.write_all(b"null");
    };
    out.write_all(b"\"")?;
    out.write_all(&time.text)?;
    out.write_all(b"\"")
}

/// Appends the members that say where a message is: its time, its log, and its line.
fn put_json_place(message: &Message<'_>, out: &mut Vec<u8>) -> io::Result<()> {
    out.write_all(b"{\"time\":")?;
    put_json_time(message.time, out)?;
    out.write_all(b",\"record\":\"")?;
    JsonString { out }.write_all(message.record.as_bytes())?;
    write!(out, "\",\"line\":{}", message.line)
}

/// Appends the members of the session of a message: its number, and the bot's name and power.
fn put_json_session(session: &SessionResult, out: &mut Vec<u8>) -> io::Result<()> {
    match session.number {
        Some(number) => write!(out, ",\"session\":{number},\"name\":")?,
        None => out.write_all(b",\"session\":null,\"name\":")?,
    }
    match session.name {
        None => out.write_all(b"null,\"power\":")?,
        name => {
            out.write_all(b"\"")?;
            put_name(name, &mut JsonString { out })?;
            out.write_all(b"\",\"power\":")?;
        }
    }
    match session.power {
        None => out.write_all(b"null"),
        power => {
            out.write_all(b"\"")?;
            put_power(power, out)?;
            out.write_all(b"\"")
        }
    }
}

/// Appends the members of the frame of a message: its sender, its kind, its length and its text.
fn put_json_frame(message: &Message<'_>, out: &mut Vec<u8>) -> io::Result<()> {
    let Head { kind, len } = message.head;
    let (side, name) = (side_name(message.side), kind.name());
    write!(
        out,
        ",\"side\":\"{side}\",\"kind\":\"{name}\",\"length\":{len},\"text\":"
    )?;
    if kind != Kind::Dm {
        return out.write_all(b"null");
    }
    out.write_all(b"\"")?;
    put_tokens(message, &mut JsonString { out })?;
    out.write_all(b"\"")
}

/// Appends the members of what was done with a message.
fn put_json_deed(deed: Deed, out: &mut Vec<u8>) -> io::Result<()> {
    let word = deed_word(deed);
    write!(out, ",\"result\":\"{word}\",\"place\":")?;
    match deed {
        Deed::Huh(place) => write!(out, "{place}"),
        _ => out.write_all(b"null"),
    }
}

/// Appends a message as an object of JSON.
fn put_json(message: &Message<'_>, out: &mut Vec<u8>) -> io::Result<()> {
    put_json_place(message, out)?;
    put_json_session(message.session, out)?;
    put_json_frame(message, out)?;
    put_json_deed(message.deed, out)?;
    out.write_all(b"}\n")
}

/// Appends the line of a message.
pub(crate) fn put_message(
    format: MessageFormat,
    message: &Message<'_>,
    out: &mut Vec<u8>,
) -> io::Result<()> {
    match format {
        MessageFormat::Text => put_columns(message, out),
        MessageFormat::Json => put_json(message, out),
    }
}
