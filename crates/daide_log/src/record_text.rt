//! The lines of a record, each appended to its page.

ghost use Rattle.std.specs.Prelude.{◌≡◌, ◌≤◌, ◌+◌, ◌*◌, ◌∷◌, ◌++◌, [], Some, length};
ghost use Rattle.hex.specs.Hex.{encode_upper};
ghost use Rattle.daide_token.specs.HexDigits.{digits_of_byte as digits_in};
ghost use Rattle.daide_words.specs.Words.{words_of};
ghost use Rattle.daide_log_lines.specs.LogLine.{LogEvent, Received, EndOf, longest_piece};
ghost use Rattle.daide_log_lines.specs.Output.{page_size};
ghost use Rattle.daide_log.specs.Recording.{FitsLine, line_event, most_held};
ghost use Rattle.daide_log.specs.RecordText.{event_line, line_reported};
ghost use Rattle.daide_log.specs.RecordText.{word_text, config_text, head_text};

use crate::record::RecordedEvent;
use crate::report::{put, put_number, put_side};
use daide_frame::Side;
use daide_log_lines::page::Page;
use daide_protocol::Config;
use daide_token::digits_of_byte;
use daide_words::{Word, Words};

/// Appends the two digits of a byte.
#[inline(always)]
fn put_byte(byte: u8, line: &mut Page)
    requires { length line.old.items + 2 ≤ page_size }
    ensures text { line.new.items ≡ line.old.items ++ digits_in byte }
    ensures length { length line.new.items ≡ length line.old.items + 2 }
{
    let [high, low] = digits_of_byte(byte);
    line.push(high);
    line.push(low);
}

/// Appends bytes in hexadecimal digits.
#[tactic(auto, using(crate::proofs::RecordLines::encode_more))]
fn put_bytes(bytes: &[u8], line: &mut Page)
    requires { length line.old.items + 2 * length bytes.now ≤ page_size }
    ensures text { line.new.items ≡ line.old.items ++ encode_upper bytes.now }
    ensures length { length line.new.items ≡ length line.old.items + 2 * length bytes.now }
{
    for i in 0..bytes.len() {
        put_byte(bytes[i], line);
    }
}

/// Appends the line of bytes received from a side.
#[tactic(auto, unfolding(crate::specs::RecordText::event_line, crate::specs::RecordText::event_text))]
fn put_piece(side: Side, bytes: &[u8], line: &mut Page)
    requires few { length bytes.now ≤ longest_piece }
    requires room { length line.old.items ≤ most_held }
    ensures { line.new.items ≡ line.old.items ++ event_line (Received side bytes.now) }
{
    put(b"1 ", line);
    put_side(side, line);
    put_bytes(bytes, line);
    line.push(b'\n');
}

/// Appends the line of a side's end.
#[tactic(auto, unfolding(crate::specs::RecordText::event_line, crate::specs::RecordText::event_text))]
fn put_end(side: Side, line: &mut Page)
    requires { length line.old.items ≤ most_held }
    ensures { line.new.items ≡ line.old.items ++ event_line (EndOf side) }
{
    match side {
        Side::Bot => put(b"1 end bot\n", line),
        Side::Server => put(b"1 end server\n", line),
    }
}

/// Appends the line of an event, if it has one.
#[tactic(auto, unfolding(crate::specs::RecordText::event_line, crate::specs::RecordText::event_text))]
pub fn put_event(event: RecordedEvent<'_>, line: &mut Page)
    requires few { FitsLine event }
    requires lined { (lined : LogEvent) × (line_event event ≡ Some lined) }
    requires room { length line.old.items ≤ most_held }
    ensures { line.new.items ≡ line.old.items ++ line_reported (line_event event.entry) }
{
    match event {
        RecordedEvent::Received(side, bytes) => put_piece(side, bytes, line),
        RecordedEvent::EndOf(side) => put_end(side, line),
        RecordedEvent::ImTimer => put(b"1 timer\n", line),
        RecordedEvent::Stop => put(b"1 stop\n", line),
    }
}

/// Appends the line of the limits, with one session and this number of words.
#[tactic(auto, unfolding(crate::specs::RecordText::config_text))]
fn put_config(config: &Config, words: usize, line: &mut Page)
    requires { length line.old.items ≤ 64 }
    ensures text { line.new.items ≡ line.old.items ++ config_text config.now words ++ 10 ∷ [] }
    ensures few { length line.new.items ≤ length line.old.items + 93 }
{
    put(b"config ", line);
    put_number(config.top_level as u64, line);
    put(b" ", line);
    put_number(config.max_body as u64, line);
    put(b" ", line);
    put_number(config.max_depth as u64, line);
    put(b" 1 ", line);
    put_number(words as u64, line);
    put(b"\n", line);
}

/// Appends a name, with a space before it and a byte after it.
fn put_name(name: &str, end: u8, line: &mut Page)
    requires { length line.old.items + length name.now + 2 ≤ page_size }
    ensures text { line.new.items ≡ line.old.items ++ 32 ∷ name.now ++ end ∷ [] }
    ensures length { length line.new.items ≡ length line.old.items + length name.now + 2 }
{
    line.push(b' ');
    put(name.as_bytes(), line);
    line.push(end);
}

/// Appends the line of a word.
#[tactic(auto, unfolding(crate::specs::RecordText::word_text))]
fn put_word(word: Word, line: &mut Page)
    requires { length line.old.items ≤ 4096 }
    ensures text { line.new.items ≡ line.old.items ++ word_text word ++ 10 ∷ [] }
    ensures few { length line.new.items ≤ length line.old.items + 64 }
{
    put(b"word ", line);
    put(&word.name, line);
    put(b" ", line);
    put_bytes(&word.code.to_be(), line);
    put_name(word.slot.name(), b' ', line);
    put_number(word.level.number() as u64, line);
    put_name(word.operand.name(), b'\n', line);
}

/// Appends the head of a record.
#[tactic(auto, unfolding(crate::specs::RecordText::head_text))]
pub fn put_head(config: &Config, words: &Words, line: &mut Page)
    requires { line.old.items ≡ [] }
    ensures { line.new.items ≡ head_text config.now (words_of words.now) }
{
    let count = words.names().len();
    put(b"daide-log 2\n", line);
    put_config(config, count, line);
    for place in 0..count {
        if let Some(word) = words.get(place) {
            put_word(word, line);
        }
    }
}
