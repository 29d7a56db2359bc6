//! The report of a log.
//!
//! Each line is reported before the next one is read. The page of the report is written before each read and at the
//! end. So the writer gets blocks, and has the report of all complete lines whenever a read may block. A plain report
//! allocates memory only for the sessions, once the head was read.

ghost use Rattle.std.specs.Prelude.{◌≡◌, ◌≢◌, ◌≤◌, ◌⊎◌, true, false, [], All, length, List, ℕ, Option, None, Err, IfOk, IfErr};
ghost use Rattle.std.specs.Io.KnownBytes.{Keeps};
ghost use Rattle.daide_causes.specs.Causes.{HasFailed, WasRefused};
ghost use Rattle.daide_log_lines.specs.Cause.{HasCause};
ghost use Rattle.daide_log_lines.specs.Input.{IsSameReader};
ghost use Rattle.daide_log_lines.specs.LogLine.{most_lines};
ghost use Rattle.daide_log_lines.specs.Lines.{is_end_of_log, is_last_line};
ghost use Rattle.daide_log_lines.specs.Output.{IsSameWriter, all_of};
ghost use Rattle.daide_protocol.specs.Bounds.{most_sessions};
ghost use Rattle.daide_protocol.specs.Summary.{nothing_counted};
ghost use Rattle.daide_words.specs.declared.word.Word.{Word};
ghost use Rattle.daide_words.specs.Words.{words_of};
ghost use Rattle.daide_log.specs.Reporting.{IsReady, IsLateFault};
ghost use Rattle.daide_log.specs.Log.{plain, event_in};
ghost use Rattle.daide_log.specs.Progress.{StartsReport, IsAnswered, IsFaultAfter, IsFinished, Reported, states_of};
ghost use Rattle.daide_log_lines.specs.Reader.{Reader, silent};

use crate::heading::{Preamble, Version};
use crate::judge::{LineContext, judge_line, read_reported};
use crate::line_reason::LineReason;
use crate::opening::{open_sessions, read_preamble};
use crate::page::{Unreported, put_summary};
use crate::report_builder::ReportBuilder;
use crate::style::{PlainStyle, Style};
use daide_causes::{Sink, Source};
use daide_frame::Memory;
use daide_log_lines::block::Block;
use daide_log_lines::event_line::MOST;
use daide_log_lines::fault::LogFault;
use daide_log_lines::input::Input;
use daide_log_lines::lines::{LineEnd, find_line, pass_line};
use daide_log_lines::output::Output;
use daide_log_lines::page::Page;
use daide_log_lines::reader::LogReader;
use daide_log_lines::text::Text;
use daide_protocol::Summary;
use daide_session::Session;
use std::alloc::Allocator;

/// Writes the end of a report: what its style adds after all moves, and the line of the counts. `cut` is the number of
/// the last line if it is cut.
fn finish<A: Allocator, W: Sink, S: Style>(
    sessions: &[Session<A>],
    cut: Option<u32>,
    report: &mut ReportBuilder<'_, '_, W, S>,
) -> Result<S::Answer, LogFault>
    requires few { length sessions.now ≤ most_sessions }
    requires ready { All (IsReady report.old.head.limits.config (words_of report.old.head.words)) sessions.now }
    ensures written { IfOk result (λ answer.
        IsFinished (S.form (words_of report.old.head.words)) cut report.old.head.version (states_of sessions.now)
        report.old.summary (all_of W.contents report.old.output) (all_of W.contents report.new.output) answer) }
    ensures refused { IfErr result (IsLateFault (S.form (words_of report.old.head.words)) (HasFailed W.Fails) S.refused) }
    ensures same_writer { IsSameWriter report.old.output report.new.output }
{
    let answer = match report.style.close(
        &report.head,
        sessions,
        report.summary,
        cut,
        &mut report.output,
    ) {
        Ok(answer) => answer,
        Err(Unreported::Write) => return Err(LogFault::Write),
        Err(Unreported::Memory) => return Err(LogFault::Memory),
    };
    match put_summary(report.summary, &mut report.output) {
        Ok(()) => Ok(answer),
        Err(_) => Err(LogFault::Write),
    }
}

/// Returns whether the log ended.
fn is_end(found: LineEnd) -> bool
    ensures { result ≡ is_end_of_log found }
{
    match found {
        LineEnd::End => true,
        LineEnd::Held(_) | LineEnd::Line | LineEnd::Last => false,
    }
}

/// Returns whether this was the last line of the log.
fn is_last(found: LineEnd) -> bool
    ensures { result ≡ is_last_line found }
{
    match found {
        LineEnd::Last => true,
        LineEnd::Held(_) | LineEnd::Line | LineEnd::End => false,
    }
}

/// Returns whether this line is cut: the last of the log, without a line feed and without an allowed form, in a style
/// that reads it.
fn is_cut<A: Allocator, S: Style>(
    found: LineEnd,
    line: &[u8],
    version: Version,
    sessions: &Vec<Session<A>, A>,
    bytes: &mut [u8; MOST],
    style: &S,
) -> bool
    requires some { 1 ≤ length sessions.now.items }
    requires few { length sessions.now.items ≤ most_sessions }
    ensures cut { result ≡ true → (is_last_line found ≡ true)
        × (event_in version (length sessions.now.items) line.now ≡ None)
        × ((words : List Word) → (S.form words).cuts ≡ true) }
    ensures whole { result ≡ false → is_last_line found ≡ true →
        event_in version (length sessions.now.items) line.now ≡ None → (words : List Word) → (S.form words).cuts ≡ false }
{
    if !is_last(found) || !style.reads_cut() {
        return false;
    }
    let count = sessions.len() as u16;
    read_reported(version, line, count, bytes).is_none()
}

/// Judges the lines after the `lines` lines of the head, up to the end of the log or its first fault.
fn play<A: Allocator, R: LogReader, W: Sink, S: Style>(
    sessions: &mut Vec<Session<A>, A>,
    lines: u32,
    input: &mut Input<'_, R>,
    report: &mut ReportBuilder<'_, '_, W, S>,
) -> Result<S::Answer, LogFault>
    requires some { 1 ≤ length sessions.old.items }
    requires few { length sessions.old.items ≤ most_sessions }
    requires ready { All (IsReady report.old.head.limits.config (words_of report.old.head.words)) sessions.old.items }
    requires lines { lines ≤ most_lines }
    requires nothing { report.old.summary ≡ nothing_counted }
    requires fresh { S.knows (words_of report.old.head.words) report.old.style.now
        (S.form (words_of report.old.head.words)).fresh }
    ensures answered { (first : Reader) (before : Option (List ℕ)) →
        StartsReport (S.form (words_of report.old.head.words)) (R.reader_view input.old.reader.now) input.old.block
        lines report.old.head.version (states_of sessions.old.items) (all_of W.contents report.old.output) first before →
        IsAnswered (S.form (words_of report.old.head.words)) first (R.reader_view input.new.reader.now) before
        (all_of W.contents report.new.output) result }
    ensures cause { IfErr result (HasCause R.Fails W.Fails S.refused) }
    ensures same_reader { IsSameReader input.old input.new }
    ensures same_writer { IsSameWriter report.old.output report.new.output }
{
    let mut bytes = [0; MOST];
    let mut count = lines;
    'lines: loop {
        let found = find_line(input, count, &mut report.output)?;
        if is_end(found) {
            return finish(sessions, None, report);
        }
        count += 1;
        let origin = LineContext {
            version: report.head.version,
            line: count,
        };
        let line = input.line(found);
        if is_cut(
            found,
            line,
            origin.version,
            sessions,
            &mut bytes,
            report.style,
        ) {
            return finish(sessions, Some(count), report);
        }
        judge_line(sessions, line, origin, &mut bytes, report)?;
        if is_last(found) {
            return finish(sessions, None, report);
        }
        pass_line(&mut input.block, found);
    }
}

/// Reports a log, and leaves the end of the report in the page.
fn report_lines<A: Memory + Copy, R: LogReader, W: Sink, S: Style>(
    alloc: A,
    input: &mut Input<'_, R>,
    report: &mut ReportBuilder<'_, '_, W, S>,
) -> Result<S::Answer, LogFault>
    requires unread { input.old.block ≡ [] }
    requires nothing { report.old.summary ≡ nothing_counted }
    requires fresh { (words : List Word) → S.knows words report.old.style.now (S.form words).fresh }
    ensures reported { (words : List Word) × IsAnswered (S.form words) (R.reader_view input.old.reader.now)
        (R.reader_view input.new.reader.now) (all_of W.contents report.old.output) (all_of W.contents report.new.output)
        result }
    ensures cause { IfErr result (HasCause R.Fails W.Fails (WasRefused A.Refuses ⊎ S.refused)) }
    ensures same_reader { IsSameReader input.old input.new }
    ensures same_writer { IsSameWriter report.old.output report.new.output }
{
    let opened = match read_preamble::<S, R, W>(input, &mut report.refused, &mut report.output) {
        Ok(opened) => opened,
        Err(fault) => return Err(fault),
    };
    report.head = opened.head;
    let mut sessions = match open_sessions(alloc, &opened.head) {
        Ok(sessions) => sessions,
        Err(fault) => return Err(fault),
    };
    if !opened.is_ended {
        return finish(&sessions, None, report);
    }
    play(&mut sessions, opened.lines, input, report)
}

/// Writes the page at the end of a report, and returns the report's result, or `Write` if the page can't be written.
/// After an earlier `Write` it writes nothing.
fn hand_over_rest<T: Copy, W: Sink>(
    answer: Result<T, LogFault>,
    output: &mut Output<'_, W>,
) -> Result<T, LogFault>
    ensures cause { result ≡ answer ⊎ ((result ≡ Err LogFault.Write) × HasFailed W.Fails) }
    ensures failed { answer ≡ Err LogFault.Write → (result ≡ answer) × (output.new ≡ output.old) }
    ensures whole { result ≢ Err LogFault.Write → (result ≡ answer) × (output.new.page.items ≡ [])
        × Keeps (all_of W.contents output.old) (all_of W.contents output.new) }
    ensures same_writer { IsSameWriter output.old output.new }
{
    if let Err(LogFault::Write) = answer {
        return answer;
    }
    match output.hand_over() {
        Ok(()) => answer,
        Err(_) => Err(LogFault::Write),
    }
}

/// Reports a log, and writes the page at the end, whether the log has a fault or not.
fn report_whole<A: Memory + Copy, R: LogReader, W: Sink, S: Style>(
    alloc: A,
    input: &mut Input<'_, R>,
    report: &mut ReportBuilder<'_, '_, W, S>,
) -> Result<S::Answer, LogFault>
    requires unread { input.old.block ≡ [] }
    requires nothing { report.old.summary ≡ nothing_counted }
    requires none_held { report.old.output.page.items ≡ [] }
    requires fresh { (words : List Word) → S.knows words report.old.style.now (S.form words).fresh }
    ensures reported { (words : List Word) × IsAnswered (S.form words) (R.reader_view input.old.reader.now)
        (R.reader_view input.new.reader.now) (W.contents report.old.output.writer.now)
        (W.contents report.new.output.writer.now) result }
    ensures cause { IfErr result (HasCause R.Fails W.Fails (WasRefused A.Refuses ⊎ S.refused)) }
    ensures same_reader { IsSameReader input.old input.new }
    ensures same_writer { IsSameWriter report.old.output report.new.output }
{
    let answer = report_lines(alloc, input, report);
    hand_over_rest(answer, &mut report.output)
}

/// Reads a log, and writes its report in a style. After `BadLine`, `refused` says why the line is none.
#[tactic(auto, using(crate::proofs::LogLemmas::answered_alike))]
pub(crate) fn report_stream<A: Memory + Copy, R: LogReader, W: Sink, S: Style>(
    alloc: A,
    style: &mut S,
    reader: &mut R,
    writer: &mut W,
    refused: &mut Option<LineReason>,
) -> Result<S::Answer, LogFault>
    requires fresh { (words : List Word) → S.knows words style.old (S.form words).fresh }
    ensures answered { (words : List Word) × IsAnswered (S.form words) (R.reader_view reader.old) (R.reader_view reader.new)
        (W.contents writer.old) (W.contents writer.new) result }
    ensures cause { IfErr result (HasCause R.Fails W.Fails (WasRefused A.Refuses ⊎ S.refused)) }
{
    let mut input = Input {
        block: Block::new(),
        text: Text::new(),
        reader,
    };
    let mut report = ReportBuilder {
        summary: Summary::new(),
        output: Output {
            page: Page::new(),
            writer,
        },
        head: Preamble::new(),
        refused: None,
        style,
    };
    let answer = report_whole(alloc, &mut input, &mut report);
    *refused = report.refused;
    answer
}

/// Reads a log, and writes its report, as `check_log` does, from a reader that records its reads.
///
/// `report`: each read is made in time (`IsInTime`). All whole lines before it are reported by then, and the bytes
/// after them may begin a line (`MayBeginLine`). So each line is reported before a read that may wait: `Block::refill`
/// requires that no line is held back. `refused` says the same of a fault.
///
/// Premise: a `LogReader` that records its reads and sees the writer at each.
///
/// After `BadLine`, `refused` says why the line is none, for people.
///
/// Not said: that no read is made after one that gave nothing.
pub fn check_stream<A: Memory + Copy, R: LogReader, W: Sink>(
    alloc: A,
    reader: &mut R,
    writer: &mut W,
    refused: &mut Option<LineReason>,
) -> Result<Summary, LogFault>
    ensures report { IfOk result (λ summary. Reported plain (R.reader_view reader.old) (R.reader_view reader.new)
        (W.contents writer.old) (W.contents writer.new) summary) }
    ensures refused { IfErr result (λ fault. IsFaultAfter plain (R.reader_view reader.old) (R.reader_view reader.new)
        (W.contents writer.old) (W.contents writer.new) fault) }
    ensures cause { IfErr result (HasCause R.Fails W.Fails (WasRefused A.Refuses)) }
{
    report_stream(alloc, &mut PlainStyle, reader, writer, refused)
}

/// Reads a log, and writes its report: a line for each frame that became whole, each fault and each end, and the counts
/// last. It allocates at the sessions' growths alone.
///
/// `report`: what was written is the report of what was read (`IsReport`), and the counts are those of its last line.
/// The report is stated line by line over the session machine. Each session has the lines that name it, and each answer
/// is taken at once. This holds for logs of one session and of a match.
///
/// `refused`: a fault of the log is returned after the report of all lines before it. `Read` is returned after the
/// report of the lines before the one that was being read. `Memory` is returned with nothing written, once the head was
/// read (`IsOpened`). After a line of another form, less than a block was read. So it is after the byte that makes a
/// line too long, or that begins one line too many. A log that ends with such a line, or within its head, was read to
/// its end.
///
/// Premise: a reader and a writer that record their bytes. Such a reader does not record single reads; a test with a
/// reader of single bytes shows how they come.
///
/// `cause`: `Read`, `Write` and `Memory` are returned only after a read or a write failed, or an allocation was refused
/// (`HasCause`).
///
/// Not said: how much of the report was written after `Write`; what is held back then goes to no writer that failed.
pub fn check_log<A: Memory + Copy, R: Source, W: Sink>(
    alloc: A,
    reader: &mut R,
    writer: &mut W,
) -> Result<Summary, LogFault>
    ensures report { IfOk result (λ summary. Reported plain (silent (R.remaining reader.old)) (silent (R.remaining reader.new))
        (W.contents writer.old) (W.contents writer.new) summary) }
    ensures refused { IfErr result (λ fault. IsFaultAfter plain (silent (R.remaining reader.old))
        (silent (R.remaining reader.new)) (W.contents writer.old) (W.contents writer.new) fault) }
    ensures cause { IfErr result (HasCause R.Fails W.Fails (WasRefused A.Refuses)) }
{
    check_stream(alloc, reader, writer, &mut None)
}
