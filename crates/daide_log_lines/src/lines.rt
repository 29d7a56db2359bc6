//! The lines of a log, one at a time.

ghost use Rattle.std.specs.Prelude.{◌≡◌, ◌≢◌, ◌≤◌, [], OnOk, IfErr, IfOk, IfSome};
ghost use Rattle.std.specs.Io.KnownBytes.{Keeps};
ghost use Rattle.daide_log_lines.specs.LogLine.{most_lines, without_cr as left_of_cr};
ghost use Rattle.daide_log_lines.specs.Cause.{HasCause};
ghost use Rattle.daide_log_lines.specs.Lines.{IsFound, IsHeldLine, IsLineEnd, Scans, HasMore, ReadsOn};
ghost use Rattle.daide_log_lines.specs.Input.{IsCopied, IsSameReader, LiesIn, line_in, rest_after, rest_in};
ghost use Rattle.daide_log_lines.specs.Output.{IsSameWriter, all_of};

use crate::block::Block;
use crate::fault::LogFault;
use crate::input::Input;
use crate::output::Output;
use crate::reader::LogReader;
use crate::text::{TOO_LONG, Text};
use daide_causes::Sink;
use memchr::memchr;

/// The most lines of a log.
pub const MOST_LINES: u32 = 1_000_000;

/// The next line of a log, or its end.
#[derive(Clone, Copy)]
pub enum LineEnd {
    /// A line that is whole in the block, with this number of bytes before its line feed.
    Held(usize),
    /// A line that was copied, up to its line feed.
    Line,
    /// The last line, which was copied and ends at the end of the log without a line feed.
    Last,
    /// The end of the log.
    End,
}

/// Returns the index of the first line feed.
fn line_end(bytes: &[u8]) -> Option<usize>
    ensures { IsLineEnd bytes.now result }
{
    memchr(b'\n', bytes)
}

/// Returns the length of the next line, after `count` lines, if the whole line and its line feed are in the block. Such
/// a line is judged in place, without a copy.
fn held_line(block: &Block, count: u32) -> Option<usize>
    requires { count ≤ most_lines }
    ensures { IfSome result (IsHeldLine block.now count) }
{
    if count == MOST_LINES {
        return None;
    }
    let buffered = block.as_slice();
    line_end(&buffered[..buffered.len().min(TOO_LONG)])
}

/// Returns a line without the carriage return at its end.
pub fn without_cr(line: &[u8]) -> &[u8]
    ensures { result.now ≡ left_of_cr line.now }
{
    match line.strip_suffix(b"\r") {
        Some(front) => front,
        None => line,
    }
}

/// Moves bytes of a line from the block to the text: up to its line feed, or the whole block, or as many as make the
/// line too long. Returns whether the line feed was found.
fn scan(block: &mut Block, text: &mut Text) -> bool
    ensures { Scans block.old text.old.items result block.new text.new.items }
{
    let room = TOO_LONG - text.len();
    let buffered = block.as_slice();
    let front = &buffered[..buffered.len().min(room)];
    match line_end(front) {
        Some(n) => {
            text.put(&front[..n]);
            block.skip(n + 1);
            true
        }
        None => {
            let count = front.len();
            text.put(front);
            block.skip(count);
            false
        }
    }
}

/// Removes a carriage return from the end of a line.
fn drop_cr(text: &mut Text)
    ensures { text.new.items ≡ left_of_cr text.old.items }
{
    if text.as_slice().strip_suffix(b"\r").is_some() {
        text.pop();
    }
}

/// Writes the page of the report, then refills the empty block. Returns whether any byte was read. Fails with `Write`,
/// then with `Read`.
fn read_on<R: LogReader, W: Sink>(
    block: &mut Block,
    reader: &mut R,
    output: &mut Output<'_, W>,
) -> Result<bool, LogFault>
    requires { block.old ≡ [] }
    ensures read { ReadsOn (all_of W.contents output.old) (R.reader_view reader.old) (R.reader_view reader.new) block.new result }
    ensures kept { OnOk result (Keeps (all_of W.contents output.old) (all_of W.contents output.new)) }
    ensures kept_at_fault { IfErr result (λ fault. fault ≢ LogFault.Write →
        Keeps (all_of W.contents output.old) (all_of W.contents output.new)) }
    ensures cause { IfErr result (HasCause R.Fails W.Fails ⊥) }
    ensures same_writer { IsSameWriter output.old output.new }
{
    match output.hand_over() {
        Ok(()) => block.refill(reader, output),
        Err(_) => Err(LogFault::Write),
    }
}

/// Returns whether the log has another byte. If the block is empty, writes the page and refills the block.
fn has_more<R: LogReader, W: Sink>(
    block: &mut Block,
    reader: &mut R,
    output: &mut Output<'_, W>,
) -> Result<bool, LogFault>
    ensures more { HasMore (all_of W.contents output.old) (R.reader_view reader.old) block.old result (R.reader_view reader.new)
        block.new }
    ensures kept { OnOk result (Keeps (all_of W.contents output.old) (all_of W.contents output.new)) }
    ensures kept_at_fault { IfErr result (λ fault. fault ≢ LogFault.Write →
        Keeps (all_of W.contents output.old) (all_of W.contents output.new)) }
    ensures cause { IfErr result (HasCause R.Fails W.Fails ⊥) }
    ensures same_writer { IsSameWriter output.old output.new }
{
    if !block.as_slice().is_empty() {
        return Ok(true);
    }
    read_on(block, reader, output)
}

/// Takes the next line of a log, after `count` lines, and copies it to the text. Writes the page of the report before
/// each read.
///
/// Fails with `TooManyLines` at the first byte of a line beyond the limit, and with `LineTooLong` at the byte that
/// makes a line too long. Nothing is read after either. Fails with `Write` if the page can't be written, and with
/// `Read` if a read fails.
pub fn next_line<R: LogReader, W: Sink>(
    input: &mut Input<'_, R>,
    count: u32,
    output: &mut Output<'_, W>,
) -> Result<LineEnd, LogFault>
    requires { count ≤ most_lines }
    ensures found { IsFound (all_of W.contents output.old) (R.reader_view input.old.reader.now) input.old.block count result
        input.new.text.items (R.reader_view input.new.reader.now) input.new.block }
    ensures copied { IfOk result IsCopied }
    ensures kept { OnOk result (Keeps (all_of W.contents output.old) (all_of W.contents output.new)) }
    ensures kept_at_fault { IfErr result (λ fault. fault ≢ LogFault.Write →
        Keeps (all_of W.contents output.old) (all_of W.contents output.new)) }
    ensures cause { IfErr result (HasCause R.Fails W.Fails ⊥) }
    ensures same_reader { IsSameReader input.old input.new }
    ensures same_writer { IsSameWriter output.old output.new }
{
    input.text.clear();
    if count == MOST_LINES {
        return match has_more(&mut input.block, input.reader, output) {
            Ok(true) => Err(LogFault::TooManyLines),
            Ok(false) => Ok(LineEnd::End),
            Err(fault) => Err(fault),
        };
    }
    for _turn in 0..=TOO_LONG {
        if scan(&mut input.block, &mut input.text) {
            drop_cr(&mut input.text);
            return Ok(LineEnd::Line);
        }
        if input.text.len() == TOO_LONG {
            return Err(LogFault::LineTooLong(count + 1));
        }
        match read_on(&mut input.block, input.reader, output) {
            Ok(true) => {}
            Ok(false) if input.text.is_empty() => return Ok(LineEnd::End),
            Ok(false) => return Ok(LineEnd::Last),
            Err(fault) => return Err(fault),
        }
    }
    unreachable!()
}

/// Finds the next line of a log, after `count` lines: in place if the whole line is in the block, else by `next_line`.
#[inline(always)]
pub fn find_line<R: LogReader, W: Sink>(
    input: &mut Input<'_, R>,
    count: u32,
    output: &mut Output<'_, W>,
) -> Result<LineEnd, LogFault>
    requires { count ≤ most_lines }
    ensures found { IsFound (all_of W.contents output.old) (R.reader_view input.old.reader.now) input.old.block count result
        (line_in result input.new.block input.new.text.items) (R.reader_view input.new.reader.now)
        (rest_in result input.new.block) }
    ensures lies { IfOk result (λ found. LiesIn found input.new.block) }
    ensures kept { OnOk result (Keeps (all_of W.contents output.old) (all_of W.contents output.new)) }
    ensures kept_at_fault { IfErr result (λ fault. fault ≢ LogFault.Write →
        Keeps (all_of W.contents output.old) (all_of W.contents output.new)) }
    ensures cause { IfErr result (HasCause R.Fails W.Fails ⊥) }
    ensures same_reader { IsSameReader input.old input.new }
    ensures same_writer { IsSameWriter output.old output.new }
{
    match held_line(&input.block, count) {
        Some(end) => Ok(LineEnd::Held(end)),
        None => next_line(input, count, output),
    }
}

/// Removes a line that was found in place, and its line feed, from the block. A copied line needs no removal.
#[inline(always)]
pub fn pass_line(block: &mut Block, found: LineEnd)
    requires { LiesIn found block.old }
    ensures { block.new ≡ rest_after found block.old }
{
    if let LineEnd::Held(end) = found {
        block.skip(end + 1);
    }
}
