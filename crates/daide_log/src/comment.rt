//! The comments of a record, each appended to its page.

ghost use Rattle.std.specs.Prelude.{◌≡◌, ◌<◌, ◌≤◌, ◌+◌, ◌∷◌, ◌++◌, [], length, unsigned_abs};
ghost use Rattle.daide_log_lines.specs.Output.{page_size};
ghost use Rattle.daide_log.specs.Recording.{most_held};
ghost use Rattle.daide_log.specs.RecordItem.{address_text, printable as printable_byte, begun_text, time_text};
ghost use Rattle.daide_log.specs.RecordItem.{comment_line, longest_address};
ghost use Rattle.daide_log.specs.UtcText.{two_digits, three_digits, four_digits, date_text, clock_text, utc_text};

use crate::report::{put, put_number};
use daide_log_lines::page::Page;
use jiff_core::civil::{Date, DateTime, Time};

/// The greatest number of bytes of an address in a comment.
const LONGEST_ADDRESS: usize = 64;

/// A comment of a record, with its time in UTC.
#[derive(Clone, Copy)]
pub enum Comment<'a> {
    /// The number of the session, the address of its bot, and when the session began.
    Begun(u32, &'a str, DateTime),
    /// When the line after it was recorded.
    Timed(DateTime),
}

/// Appends two decimal digits.
fn put_pair(number: u8, line: &mut Page)
    requires { length line.old.items + 2 ≤ page_size }
    ensures text { line.new.items ≡ line.old.items ++ two_digits number }
    ensures length { length line.new.items ≡ length line.old.items + 2 }
{
    line.push(b'0' + number / 10);
    line.push(b'0' + number % 10);
}

/// Appends two decimal digits, and a byte.
fn put_pair_and(number: u8, end: u8, line: &mut Page)
    requires { length line.old.items + 3 ≤ page_size }
    ensures text { line.new.items ≡ line.old.items ++ two_digits number ++ end ∷ [] }
    ensures length { length line.new.items ≡ length line.old.items + 3 }
{
    put_pair(number, line);
    line.push(end);
}

/// Appends four decimal digits.
fn put_year(number: u16, line: &mut Page)
    requires few { number < 10000 }
    requires room { length line.old.items + 4 ≤ page_size }
    ensures text { line.new.items ≡ line.old.items ++ four_digits number }
    ensures length { length line.new.items ≡ length line.old.items + 4 }
{
    put_pair((number / 100) as u8, line);
    put_pair((number % 100) as u8, line);
}

/// Appends a date.
fn put_date(date: Date, line: &mut Page)
    requires { length line.old.items + 10 ≤ page_size }
    ensures text { line.new.items ≡ line.old.items ++ date_text date }
    ensures length { length line.new.items ≡ length line.old.items + 10 }
{
    put_year(date.year.unsigned_abs(), line);
    line.push(b'-');
    put_pair_and(date.month, b'-', line);
    put_pair(date.day, line);
}

/// Appends three decimal digits.
fn put_thousandths(number: u16, line: &mut Page)
    requires few { number < 1000 }
    requires room { length line.old.items + 3 ≤ page_size }
    ensures text { line.new.items ≡ line.old.items ++ three_digits number }
    ensures length { length line.new.items ≡ length line.old.items + 3 }
{
    line.push(b'0' + (number / 100) as u8);
    put_pair((number % 100) as u8, line);
}

/// Appends an hour and a minute.
fn put_minutes(hour: u8, minute: u8, line: &mut Page)
    requires { length line.old.items + 5 ≤ page_size }
    ensures text { line.new.items ≡ line.old.items ++ two_digits hour ++ 58 ∷ two_digits minute }
    ensures length { length line.new.items ≡ length line.old.items + 5 }
{
    put_pair_and(hour, b':', line);
    put_pair(minute, line);
}

/// Appends a time of day, to the millisecond.
fn put_clock(time: Time, line: &mut Page)
    requires { length line.old.items + 12 ≤ page_size }
    ensures text { line.new.items ≡ line.old.items ++ clock_text time }
    ensures length { length line.new.items ≡ length line.old.items + 12 }
{
    put_minutes(time.hour, time.minute, line);
    line.push(b':');
    put_pair_and(time.second, b'.', line);
    put_thousandths((time.subsec_nanosecond / 1_000_000) as u16, line);
}

/// Appends a date and a time of day in UTC.
#[tactic(auto, unfolding(crate::specs::UtcText::utc_text))]
fn put_utc(at: DateTime, line: &mut Page)
    requires { length line.old.items + 24 ≤ page_size }
    ensures text { line.new.items ≡ line.old.items ++ utc_text at }
    ensures length { length line.new.items ≡ length line.old.items + 24 }
{
    put_date(at.date, line);
    line.push(b'T');
    put_clock(at.time, line);
    line.push(b'Z');
}

/// Returns a byte of an address, or a question mark in place of a byte that is not printable.
fn printable(byte: u8) -> u8
    ensures { result ≡ printable_byte byte }
{
    if byte >= 32 && byte <= 126 {
        byte
    } else {
        b'?'
    }
}

/// Appends the first 64 bytes of an address.
#[tactic(auto, using(crate::proofs::CommentLemmas::address_more))]
fn put_address(address: &str, line: &mut Page)
    requires { length line.old.items + longest_address ≤ page_size }
    ensures text { line.new.items ≡ line.old.items ++ address_text address.now }
    ensures few { length line.new.items ≤ length line.old.items + longest_address }
{
    let bytes = address.as_bytes();
    let count = bytes.len().min(LONGEST_ADDRESS);
    for i in 0..count {
        line.push(printable(bytes[i]));
    }
}

/// Appends the comment after the head.
#[tactic(auto, unfolding(crate::specs::RecordItem::begun_text))]
fn put_begun(session: u32, address: &str, at: DateTime, line: &mut Page)
    requires { length line.old.items ≤ most_held }
    ensures { line.new.items ≡ line.old.items ++ begun_text session address.now at ++ 10 ∷ [] }
{
    put(b"# session ", line);
    put_number(session as u64, line);
    put(b", bot at ", line);
    put_address(address, line);
    put(b", ", line);
    put_utc(at, line);
    line.push(b'\n');
}

/// Appends the comment of a time.
#[tactic(auto, unfolding(crate::specs::RecordItem::time_text))]
fn put_time(at: DateTime, line: &mut Page)
    requires { length line.old.items ≤ most_held }
    ensures { line.new.items ≡ line.old.items ++ time_text at ++ 10 ∷ [] }
{
    put(b"# ", line);
    put_utc(at, line);
    line.push(b'\n');
}

/// Appends the line of a comment.
#[tactic(auto, unfolding(crate::specs::RecordItem::comment_line))]
pub fn put_comment(comment: Comment<'_>, line: &mut Page)
    requires { length line.old.items ≤ most_held }
    ensures { line.new.items ≡ line.old.items ++ comment_line comment.entry }
{
    match comment {
        Comment::Begun(session, address, at) => put_begun(session, address, at, line),
        Comment::Timed(at) => put_time(at, line),
    }
}
