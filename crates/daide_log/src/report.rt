//! The lines of a report. Each is appended directly to the page, which must have room for any line.

ghost use Rattle.std.specs.Prelude.{◌≡◌, ◌<◌, ◌≤◌, ◌+◌, ◌%◌, [], ◌∷◌, ◌++◌, codes, length, Some, None};
ghost use Rattle.std.specs.Fmt.{decimal};
ghost use Rattle.daide_log_lines.specs.Output.{page_size};
ghost use Rattle.daide_log.specs.Report.{line_room, name_of_side, move_text, source_text, reported_text, move_line};
ghost use Rattle.daide_log.specs.Report.{summary_line, session_text, size_text, part_line, cut_line};

use daide_frame::{Code, Head, Side};
use daide_log_lines::page::Page;
use daide_protocol::{Deed, Note, Summary};

/// More bytes than any line of a report has.
pub const LINE: usize = 128;

/// The key under which the report lists a move.
#[derive(Clone, Copy)]
pub struct ReportKey {
    /// The number of the log's line, counted from 1.
    pub line: u32,
    /// The number of the session, in the log of a match.
    pub session: Option<u16>,
}

/// Appends a text to a line, byte by byte. For a constant text the compiler combines the bytes into a few stores,
/// without the tests that a copy makes of their addresses.
#[inline(always)]
pub(crate) fn put(text: &[u8], line: &mut Page)
    requires { length line.old.items + length text.now ≤ page_size }
    ensures text { line.new.items ≡ line.old.items ++ text.now }
    ensures length { length line.new.items ≡ length line.old.items + length text.now }
{
    for i in 0..text.len() {
        line.push(text[i]);
    }
}

/// Appends the decimal digits of a number to a line.
fn put_digits(number: u64, line: &mut Page)
    requires { length line.old.items + length (decimal number) ≤ 8192 }
    ensures { line.new.items ≡ line.old.items ++ decimal number }
{
    if number >= 10 {
        put_digits(number / 10, line);
    }
    line.push(b'0' + (number % 10) as u8);
}

/// Appends the digit of a number below ten.
#[inline(always)]
fn put_one(number: u16, line: &mut Page)
    requires few { number < 10 }
    requires room { length line.old.items ≤ 8172 }
    ensures text { line.new.items ≡ line.old.items ++ decimal number }
    ensures length { length line.new.items ≡ length line.old.items + 1 }
{
    line.push(b'0' + number as u8);
}

/// Appends the last digit of a number.
#[inline(always)]
fn put_last(number: u16, line: &mut Page)
    requires { length line.old.items ≤ 8191 }
    ensures text { line.new.items ≡ line.old.items ++ (48 + number % 10) ∷ [] }
    ensures length { length line.new.items ≡ length line.old.items + 1 }
{
    line.push((number % 10) as u8 + b'0');
}

/// Appends the digits of a number that has two.
#[inline(always)]
fn put_two(number: u16, line: &mut Page)
    requires least { 10 ≤ number }
    requires few { number < 100 }
    requires room { length line.old.items ≤ 8172 }
    ensures text { line.new.items ≡ line.old.items ++ decimal number }
    ensures length { length line.new.items ≡ length line.old.items + 2 }
{
    put_one(number / 10, line);
    put_last(number, line);
}

/// Appends the digits of a number that has three.
#[inline(always)]
fn put_three(number: u16, line: &mut Page)
    requires least { 100 ≤ number }
    requires few { number < 1000 }
    requires room { length line.old.items ≤ 8172 }
    ensures text { line.new.items ≡ line.old.items ++ decimal number }
    ensures length { length line.new.items ≡ length line.old.items + 3 }
{
    put_two(number / 10, line);
    put_last(number, line);
}

/// Appends the digits of a number that has four.
#[inline(always)]
fn put_four(number: u16, line: &mut Page)
    requires least { 1000 ≤ number }
    requires few { number < 10000 }
    requires room { length line.old.items ≤ 8172 }
    ensures text { line.new.items ≡ line.old.items ++ decimal number }
    ensures length { length line.new.items ≡ length line.old.items + 4 }
{
    put_three(number / 10, line);
    put_last(number, line);
}

/// Appends a number of at most twenty digits to a line. Most numbers have four digits or fewer, and these need no
/// recursion.
#[inline(always)]
pub(crate) fn put_number(number: u64, line: &mut Page)
    requires { length line.old.items ≤ 8172 }
    ensures text { line.new.items ≡ line.old.items ++ decimal number }
    ensures few { length line.new.items ≤ length line.old.items + 20 }
{
    match number {
        0..=9 => put_one(number as u16, line),
        10..=99 => put_two(number as u16, line),
        100..=999 => put_three(number as u16, line),
        1000..=9999 => put_four(number as u16, line),
        _ => put_digits(number, line),
    }
}

/// Appends the key of a move: the number of the line, and that of the session if there is one.
#[tactic(auto, unfolding(crate::specs::Report::source_text))]
fn put_source(source: ReportKey, line: &mut Page)
    requires { length line.old.items + line_room ≤ page_size }
    ensures text { line.new.items ≡ line.old.items ++ source_text source }
    ensures few { length line.new.items ≤ length line.old.items + 42 }
{
    put_number(source.line as u64, line);
    line.push(b' ');
    if let Some(session) = source.session {
        put_number(session as u64, line);
        line.push(b' ');
    }
}

/// Appends a side's name, and a space.
#[inline(always)]
pub(crate) fn put_side(side: Side, line: &mut Page)
    requires { length line.old.items + 86 ≤ page_size }
    ensures text { line.new.items ≡ line.old.items ++ name_of_side side ++ 32 ∷ [] }
    ensures few { length line.new.items ≤ length line.old.items + 7 }
{
    match side {
        Side::Bot => put(b"bot ", line),
        Side::Server => put(b"server ", line),
    }
}

/// Appends what was done with a frame, and a line feed.
fn put_frame(head: Head, deed: Deed, line: &mut Page)
    requires { length line.old.items + 79 ≤ page_size }
    ensures { line.new.items ≡ line.old.items ++ move_text (Note.Frame head deed) ++ 10 ∷ [] }
{
    put(head.kind.name().as_bytes(), line);
    line.push(b' ');
    put_number(head.len as u64, line);
    match deed {
        Deed::Relayed => put(b" relay\n", line),
        Deed::Dropped => put(b" drop\n", line),
        Deed::Prn => put(b" prn\n", line),
        Deed::Huh(place) => {
            put(b" huh ", line);
            put_number(place as u64, line);
            line.push(b'\n');
        }
    }
}

/// Appends a move with its author, a side or the operator, and a line feed.
#[tactic(auto, unfolding(crate::specs::Report::reported_text))]
fn put_reported(side: Side, reported: Note, line: &mut Page)
    requires { length line.old.items + 86 ≤ page_size }
    ensures { line.new.items ≡ line.old.items ++ reported_text side reported }
{
    match reported {
        Note::Nothing => {
            put_side(side, line);
            put(b"end\n", line);
        }
        Note::Frame(head, deed) => {
            put_side(side, line);
            put_frame(head, deed, line);
        }
        Note::Fault(code) => {
            put_side(side, line);
            put(b"fault ", line);
            put(&code.digits(), line);
            line.push(b'\n');
        }
        Note::Stopped => put(b"operator stop\n", line),
    }
}

/// Appends the line of a side's move, with its key.
#[tactic(auto, unfolding(crate::specs::Report::move_line))]
#[inline(always)]
pub(crate) fn write_move(source: ReportKey, side: Side, reported: Note, line: &mut Page)
    requires { length line.old.items + line_room ≤ page_size }
    ensures { line.new.items ≡ line.old.items ++ move_line source side reported }
{
    put_source(source, line);
    put_reported(side, reported, line);
}

/// An incomplete frame.
#[derive(Clone, Copy)]
pub(crate) struct Part {
    /// The number of its bytes received so far.
    pub came: usize,
    /// The number of all its bytes, once its header is complete.
    pub size: Option<usize>,
}

/// Appends how many bytes of a header were received.
fn put_of_header(came: usize, line: &mut Page)
    requires { length line.old.items + 86 ≤ page_size }
    ensures text { line.new.items ≡ line.old.items ++ size_text came None }
    ensures few { length line.new.items ≤ length line.old.items + 62 }
{
    put_number(came as u64, line);
    put(b" of 4 bytes of a header", line);
}

/// Appends how many bytes of a frame were received.
fn put_of_frame(came: usize, size: usize, line: &mut Page)
    requires { length line.old.items + 86 ≤ page_size }
    ensures text { line.new.items ≡ line.old.items ++ size_text came (Some size) }
    ensures few { length line.new.items ≤ length line.old.items + 62 }
{
    put_number(came as u64, line);
    put(b" of ", line);
    put_number(size as u64, line);
    put(b" bytes of a frame", line);
}

/// Appends how many bytes of an incomplete frame were received.
fn put_size(came: usize, size: Option<usize>, line: &mut Page)
    requires { length line.old.items + 86 ≤ page_size }
    ensures text { line.new.items ≡ line.old.items ++ size_text came size }
    ensures few { length line.new.items ≤ length line.old.items + 62 }
{
    match size {
        None => put_of_header(came, line),
        Some(size) => put_of_frame(came, size, line),
    }
}

/// Appends a session's number and a space, if the report names the session.
fn put_session(session: Option<u16>, line: &mut Page)
    requires { length line.old.items + 124 ≤ page_size }
    ensures text { line.new.items ≡ line.old.items ++ session_text session }
    ensures few { length line.new.items ≤ length line.old.items + 21 }
{
    if let Some(number) = session {
        put_number(number as u64, line);
        line.push(b' ');
    }
}

/// Appends a side's name, a colon and a space.
fn put_owner(side: Side, line: &mut Page)
    requires { length line.old.items + 103 ≤ page_size }
    ensures text { line.new.items ≡ line.old.items ++ name_of_side side ++ codes ": " }
    ensures few { length line.new.items ≤ length line.old.items + 8 }
{
    match side {
        Side::Bot => put(b"bot: ", line),
        Side::Server => put(b"server: ", line),
    }
}

/// Appends the line for a side's incomplete frame, with four spaces before it.
#[tactic(auto, unfolding(crate::specs::Report::part_line))]
pub(crate) fn write_part(number: Option<u16>, side: Side, part: Part, line: &mut Page)
    requires { length line.old.items + line_room ≤ page_size }
    ensures { line.new.items ≡ line.old.items ++ part_line number side part.came part.size }
{
    put(b"    ", line);
    put_session(number, line);
    put_owner(side, line);
    put_size(part.came, part.size, line);
    line.push(b'\n');
}

/// Appends the line for a cut last line of the log, with four spaces before it.
#[tactic(auto, unfolding(crate::specs::Report::cut_line))]
pub(crate) fn write_cut(number: u32, line: &mut Page)
    requires { length line.old.items + line_room ≤ page_size }
    ensures { line.new.items ≡ line.old.items ++ cut_line number }
{
    put(b"    line ", line);
    put_number(number as u64, line);
    put(b" is cut\n", line);
}

/// Appends the last line of a report.
#[tactic(auto, unfolding(crate::specs::Report::summary_line))]
pub(crate) fn write_summary(summary: Summary, line: &mut Page)
    requires { length line.old.items + line_room ≤ page_size }
    ensures { line.new.items ≡ line.old.items ++ summary_line summary }
{
    put(b"relayed ", line);
    put_number(summary.relayed, line);
    put(b" prn ", line);
    put_number(summary.prn, line);
    put(b" huh ", line);
    put_number(summary.huh, line);
    put(b" faults ", line);
    put_number(summary.faults, line);
    line.push(b'\n');
}
