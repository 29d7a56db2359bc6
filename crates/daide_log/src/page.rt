//! Lines of a report, appended to its page.

ghost use Rattle.std.specs.Prelude.{◌≡◌, ◌+◌, ◌%◌, ◌≤◌, [], ◌∷◌, codes, length, OnOk, IfOk, IfErr};
ghost use Rattle.std.specs.Io.KnownBytes.{Appends, Keeps};
ghost use Rattle.daide_log_lines.specs.Output.{IsSameWriter, all_of, page_size};
ghost use Rattle.daide_token.specs.TextSteps.{end_text, place_past, some_text};
ghost use Rattle.daide_token.specs.Token.{tokens_of};
ghost use Rattle.daide_token.specs.declared.text.PrinterState.TheVariants.{Start};
ghost use Rattle.daide_words.specs.Word.{names_of};
ghost use Rattle.daide_words.specs.Words.{words_of};
ghost use Rattle.daide_log.specs.Explained.{indented, indented_byte, with_line_feed, message_text};
ghost use Rattle.daide_log.specs.Report.{line_room, move_line, part_line, cut_line, summary_line};
ghost use Rattle.daide_log.specs.Reporting.{IsFailedWrite};

use crate::report::{LINE, Part, ReportKey, put, write_cut, write_move, write_part, write_summary};
use daide_causes::Sink;
use daide_frame::Side;
use daide_log_lines::output::Output;
use daide_protocol::{Note, Summary};
use daide_token::{PrinterState, end_of};
use daide_words::Words;

/// The number of bytes of a message that are printed together. Every two of them are at most eight bytes of text.
const TOGETHER: usize = 256;

/// Why a line of a report was not written.
#[derive(Clone, Copy)]
pub enum Unreported {
    /// The writer failed.
    Write,
    /// A growth of the memory that a text takes was refused.
    Memory,
}

/// Writes the page if it has less than `room` bytes of free space.
#[inline(always)]
fn make_room_for<W: Sink>(room: usize, output: &mut Output<'_, W>) -> Result<(), Unreported>
    requires { room ≤ page_size }
    ensures kept { OnOk result (Keeps (all_of W.contents output.old) (all_of W.contents output.new)) }
    ensures room { OnOk result (length output.new.page.items + room ≤ page_size) }
    ensures refused { IfErr result (IsFailedWrite W.Fails) }
    ensures same_writer { IsSameWriter output.old output.new }
{
    if output.page.remaining_capacity() >= room {
        return Ok(());
    }
    match output.hand_over() {
        Ok(()) => Ok(()),
        Err(_) => Err(Unreported::Write),
    }
}

/// Writes the page if another line might not fit.
#[inline(always)]
fn make_room<W: Sink>(output: &mut Output<'_, W>) -> Result<(), Unreported>
    ensures kept { OnOk result (Keeps (all_of W.contents output.old) (all_of W.contents output.new)) }
    ensures room { OnOk result (length output.new.page.items + line_room ≤ page_size) }
    ensures refused { IfErr result (IsFailedWrite W.Fails) }
    ensures same_writer { IsSameWriter output.old output.new }
{
    make_room_for(LINE, output)
}

/// Appends a byte to the page.
#[inline(always)]
pub(crate) fn put_byte<W: Sink>(byte: u8, output: &mut Output<'_, W>) -> Result<(), Unreported>
    ensures text { OnOk result (Appends (all_of W.contents output.old) (all_of W.contents output.new) (byte ∷ [])) }
    ensures refused { IfErr result (IsFailedWrite W.Fails) }
    ensures same_writer { IsSameWriter output.old output.new }
{
    make_room(output)?;
    output.page.push(byte);
    Ok(())
}

/// Appends bytes to the page.
pub(crate) fn put_text<W: Sink>(text: &[u8], output: &mut Output<'_, W>) -> Result<(), Unreported>
    ensures text { OnOk result (Appends (all_of W.contents output.old) (all_of W.contents output.new) text.now) }
    ensures refused { IfErr result (IsFailedWrite W.Fails) }
    ensures same_writer { IsSameWriter output.old output.new }
{
    let mut rest = text;
    'bytes: while let [byte, more @ ..] = rest {
        put_byte(*byte, output)?;
        rest = more;
    }
    Ok(())
}

/// Appends a byte of indented lines to the page, with four spaces before it if it begins a line.
fn put_in_line<W: Sink>(
    begins: bool,
    byte: u8,
    output: &mut Output<'_, W>,
) -> Result<(), Unreported>
    ensures text { OnOk result (Appends (all_of W.contents output.old) (all_of W.contents output.new)
        (indented_byte begins byte)) }
    ensures refused { IfErr result (IsFailedWrite W.Fails) }
    ensures same_writer { IsSameWriter output.old output.new }
{
    if begins {
        put_text(b"    ", output)?;
    }
    put_byte(byte, output)
}

/// Appends lines to the page, with four spaces before each.
pub(crate) fn put_indented<W: Sink>(
    text: &[u8],
    output: &mut Output<'_, W>,
) -> Result<(), Unreported>
    ensures text { OnOk result (Appends (all_of W.contents output.old) (all_of W.contents output.new) (indented text.now)) }
    ensures refused { IfErr result (IsFailedWrite W.Fails) }
    ensures same_writer { IsSameWriter output.old output.new }
{
    let mut begins = true;
    let mut rest = text;
    'bytes: while let [byte, more @ ..] = rest {
        put_in_line(begins, *byte, output)?;
        begins = *byte == b'\n';
        rest = more;
    }
    Ok(())
}

/// Appends four spaces to the page.
#[inline(always)]
fn put_margin<W: Sink>(output: &mut Output<'_, W>) -> Result<(), Unreported>
    ensures text { OnOk result (Appends (all_of W.contents output.old) (all_of W.contents output.new) (codes "    ")) }
    ensures refused { IfErr result (IsFailedWrite W.Fails) }
    ensures same_writer { IsSameWriter output.old output.new }
{
    make_room(output)?;
    put(b"    ", &mut output.page);
    Ok(())
}

/// Appends the text of some tokens of a message to the page. `place` is the printer's state after the tokens before
/// them. Returns the state after these.
fn put_some<W: Sink>(
    words: &Words,
    tokens: &[u8],
    place: PrinterState,
    output: &mut Output<'_, W>,
) -> Result<PrinterState, Unreported>
    requires { length tokens.now ≤ 256 }
    ensures text { OnOk result (Appends (all_of W.contents output.old) (all_of W.contents output.new)
        (some_text (names_of (words_of words.now)) place (tokens_of tokens.now))) }
    ensures place { IfOk result (λ next. next ≡ place_past place (tokens_of tokens.now)) }
    ensures refused { IfErr result (IsFailedWrite W.Fails) }
    ensures same_writer { IsSameWriter output.old output.new }
{
    make_room_for(4 * TOGETHER, output)?;
    let next = output.page.put_tokens(words.names(), tokens, place);
    Ok(next)
}

/// Appends the text of a message's tokens to the page, without the end of a quoted text.
fn put_tokens<W: Sink>(
    words: &Words,
    tokens: &[u8],
    output: &mut Output<'_, W>,
) -> Result<PrinterState, Unreported>
    requires { length tokens.now % 2 ≡ 0 }
    ensures text { OnOk result (Appends (all_of W.contents output.old) (all_of W.contents output.new)
        (some_text (names_of (words_of words.now)) Start (tokens_of tokens.now))) }
    ensures place { IfOk result (λ next. next ≡ place_past Start (tokens_of tokens.now)) }
    ensures refused { IfErr result (IsFailedWrite W.Fails) }
    ensures same_writer { IsSameWriter output.old output.new }
{
    let mut place = PrinterState::Start;
    let mut rest = tokens;
    'tokens: while !rest.is_empty() {
        let (some, more) = rest.split_at(rest.len().min(TOGETHER));
        place = put_some(words, some, place, output)?;
        rest = more;
    }
    Ok(place)
}

/// Appends the end of a message's text and a line feed to the page.
#[inline(always)]
fn put_end<W: Sink>(place: PrinterState, output: &mut Output<'_, W>) -> Result<(), Unreported>
    ensures text { OnOk result (Appends (all_of W.contents output.old) (all_of W.contents output.new)
        (with_line_feed (end_text place))) }
    ensures refused { IfErr result (IsFailedWrite W.Fails) }
    ensures same_writer { IsSameWriter output.old output.new }
{
    make_room(output)?;
    put(end_of(place), &mut output.page);
    output.page.push(b'\n');
    Ok(())
}

/// Appends the text of a message to the page, on a line of its own after four spaces, with the operator's words by
/// their names. The text is not built elsewhere first.
pub(crate) fn put_message<W: Sink>(
    words: &Words,
    tokens: &[u8],
    output: &mut Output<'_, W>,
) -> Result<(), Unreported>
    requires { length tokens.now % 2 ≡ 0 }
    ensures text { OnOk result (Appends (all_of W.contents output.old) (all_of W.contents output.new)
        (indented (with_line_feed (message_text (words_of words.now) (tokens_of tokens.now))))) }
    ensures refused { IfErr result (IsFailedWrite W.Fails) }
    ensures same_writer { IsSameWriter output.old output.new }
{
    // Names consist of capital letters, so the text has no line feed. The contract of `are_accepted` states this.
    words.are_accepted();
    put_margin(output)?;
    let place = put_tokens(words, tokens, output)?;
    put_end(place, output)
}

/// Appends the line of a side's move to the page.
#[inline(always)]
pub fn put_move<W: Sink>(
    source: ReportKey,
    side: Side,
    reported: Note,
    output: &mut Output<'_, W>,
) -> Result<(), Unreported>
    ensures text { OnOk result (Appends (all_of W.contents output.old) (all_of W.contents output.new)
        (move_line source side reported)) }
    ensures refused { IfErr result (IsFailedWrite W.Fails) }
    ensures same_writer { IsSameWriter output.old output.new }
{
    make_room(output)?;
    write_move(source, side, reported, &mut output.page);
    Ok(())
}

/// Appends the line for a side's incomplete frame to the page.
pub(crate) fn put_part<W: Sink>(
    number: Option<u16>,
    side: Side,
    part: Part,
    output: &mut Output<'_, W>,
) -> Result<(), Unreported>
    ensures text { OnOk result (Appends (all_of W.contents output.old) (all_of W.contents output.new)
        (part_line number side part.came part.size)) }
    ensures refused { IfErr result (IsFailedWrite W.Fails) }
    ensures same_writer { IsSameWriter output.old output.new }
{
    make_room(output)?;
    write_part(number, side, part, &mut output.page);
    Ok(())
}

/// Appends the line for a cut last line of the log to the page.
pub(crate) fn put_cut_line<W: Sink>(
    number: u32,
    output: &mut Output<'_, W>,
) -> Result<(), Unreported>
    ensures text { OnOk result (Appends (all_of W.contents output.old) (all_of W.contents output.new)
        (cut_line number)) }
    ensures refused { IfErr result (IsFailedWrite W.Fails) }
    ensures same_writer { IsSameWriter output.old output.new }
{
    make_room(output)?;
    write_cut(number, &mut output.page);
    Ok(())
}

/// Appends the last line of a report to the page.
pub fn put_summary<W: Sink>(summary: Summary, output: &mut Output<'_, W>) -> Result<(), Unreported>
    ensures text { OnOk result (Appends (all_of W.contents output.old) (all_of W.contents output.new)
        (summary_line summary)) }
    ensures refused { IfErr result (IsFailedWrite W.Fails) }
    ensures same_writer { IsSameWriter output.old output.new }
{
    make_room(output)?;
    write_summary(summary, &mut output.page);
    Ok(())
}
