//! The record of a session: a log of its ports' calls, in the form that `check_log` reads.
//!
//! Lines are collected in a page. It is written, as a block of whole lines, when it is full, and when `Recording`
//! finds that no more bytes move.

ghost use Rattle.std.specs.Prelude.{◌≡◌, ◌≢◌, ◌<◌, ◌≤◌, true, false, [], None, Some, OnOk, OnErr, length};
ghost use Rattle.std.specs.Io.KnownBytes.{Keeps, append_known};
ghost use Rattle.daide_words.specs.Words.{words_of};
ghost use Rattle.daide_log_lines.specs.LogLine.{LogEvent, most_lines};
ghost use Rattle.daide_log.specs.RecordText.{head_text, head_count};
ghost use Rattle.daide_log.specs.RecordItem.{comment_line};
ghost use Rattle.daide_log.specs.Recording.{RecordsEvent, GetsText, KeepsText, HasFailed, FitsLine, line_event, most_held};

use crate::comment::{Comment, put_comment};
use crate::record_text::{put_event, put_head};
use daide_causes::Sink;
use daide_frame::Side;
pub use daide_log_lines::lines::MOST_LINES;
pub use daide_log_lines::page::Page;
use daide_log_lines::page::{PAGE, hand_over};
use daide_log_lines::text::LONGEST_LINE;
use daide_protocol::Config;
use daide_words::Words;
use std::io;
use std::marker::Model;

/// The most bytes of a page after which the longest line still fits.
const FRONT: usize = PAGE - LONGEST_LINE;

/// What a record has a line of.
#[derive(Clone, Copy)]
pub enum RecordedEvent<'a> {
    /// Bytes received from a side. No bytes have no line.
    Received(Side, &'a [u8]),
    /// The end of a side, or a failed wire toward it.
    EndOf(Side),
    /// The IM timer expired.
    ImTimer,
    /// The operator stopped the session.
    Stop,
}

impl RecordedEvent<'_> {
    /// Returns whether the event has no line.
    pub(crate) fn is_silent(self) -> bool
        ensures silent { result ≡ true → line_event self.entry ≡ None }
        ensures lined { result ≡ false → (event : LogEvent) × (line_event self.entry ≡ Some event) }
    {
        match self {
            RecordedEvent::Received(_, bytes) => bytes.is_empty(),
            RecordedEvent::EndOf(_) => false,
            RecordedEvent::ImTimer => false,
            RecordedEvent::Stop => false,
        }
    }
}

/// How a record ended, or would end now.
#[derive(Clone, Copy, Debug, PartialEq, Eq)]
pub enum RecordEnd {
    /// It has a line for each call that a log records.
    Whole,
    /// A write failed, and nothing was written after it.
    Failed,
    /// It has the greatest number of lines that a log may have, and another one was due.
    Full,
}

/// The record of one session: a log of version 2, over a writer. Its page is on the heap.
#[derive(Drop)]
pub struct Record<W: Sink + Drop> {
    writer: W,
    page: Box<Page>,
    lines: u32,
    ending: RecordEnd,
}

impl<W: Sink + Drop> Model for Record<W> {
    ghost use Rattle.std.specs.Io.KnownBytes.{append_known};
    ghost use Rattle.daide_log.specs.Recording.{Written};

    ghost Value = { Written };

    ghost view = { λ r. record {
      text = append_known (W.contents r.writer) r.page.value.items;
      unwritten = r.page.value.items;
      lines = r.lines;
      ending = r.ending;
    } };
}

/// Returns how a record of `lines` lines ends, or would end now, after its page was written or that failed. It is
/// `Failed` only after a failed write.
fn ending_after(handed_over: io::Result<()>, lines: u32) -> RecordEnd
    ensures whole { OnOk handed_over (lines < most_lines → result ≡ RecordEnd.Whole) }
    ensures full { OnOk handed_over (most_lines ≤ lines → result ≡ RecordEnd.Full) }
    ensures failed { OnErr handed_over (result ≡ RecordEnd.Failed) }
    ensures only_failed { OnOk handed_over (result ≢ RecordEnd.Failed) }
{
    match handed_over {
        Ok(()) if lines < MOST_LINES => RecordEnd::Whole,
        Ok(()) => RecordEnd::Full,
        Err(_) => RecordEnd::Failed,
    }
}

/// Makes room for one more line in the page, after `lines` lines in all. Writes the page if the line might not fit, or
/// if the record is full. Returns how the record ends, or would end now.
fn make_room<W: Sink>(page: &mut Page, lines: u32, writer: &mut W) -> RecordEnd
    ensures kept { result ≢ RecordEnd.Failed → Keeps (append_known (W.contents writer.old) page.old.items)
        (append_known (W.contents writer.new) page.new.items) }
    ensures whole { result ≡ RecordEnd.Whole → (lines < most_lines) × (length page.new.items ≤ most_held) }
    ensures full { result ≡ RecordEnd.Full → most_lines ≤ lines }
    ensures failed { result ≡ RecordEnd.Failed → W.Fails writer.old writer.new }
{
    if lines < MOST_LINES && page.len() <= FRONT {
        return RecordEnd::Whole;
    }
    ending_after(hand_over(page, writer), lines)
}

/// Writes the page of a record that did not fail, and returns how the record ended. After a failed write it writes
/// nothing.
fn hand_over_rest<W: Sink>(ending: RecordEnd, page: &mut Page, writer: &mut W) -> RecordEnd
    ensures failed { ending ≡ RecordEnd.Failed → (result ≡ RecordEnd.Failed) × (writer.new ≡ writer.old) }
    ensures whole { result ≢ RecordEnd.Failed → (result ≡ ending)
        × Keeps (append_known (W.contents writer.old) page.old.items) (W.contents writer.new) }
    ensures fails { ending ≢ RecordEnd.Failed → result ≡ RecordEnd.Failed → W.Fails writer.old writer.new }
{
    if ending == RecordEnd::Failed {
        return ending;
    }
    match hand_over(page, writer) {
        Ok(()) => ending,
        Err(_) => RecordEnd::Failed,
    }
}

impl<W: Sink + Drop> Record<W> {
    /// Creates a record of a session with these limits and words, over a writer. It holds the head in the page, whose
    /// earlier content is dropped, and has written nothing yet.
    pub fn new(page: Box<Page>, writer: W, config: Config, words: Words) -> Record<W>
        ensures { result ≡ record {
          text = append_known (W.contents writer) (head_text config (words_of words));
          unwritten = head_text config (words_of words);
          lines = head_count (words_of words);
          ending = RecordEnd.Whole;
        } }
    {
        let mut page = page;
        page.clear();
        put_head(&config, &words, &mut page);
        Record {
            writer,
            page,
            lines: 2 + words.names().len() as u32,
            ending: RecordEnd::Whole,
        }
    }

    /// Returns how the record ended, or would end now.
    pub fn ending(&self) -> RecordEnd
        ensures { result ≡ self.now.ending }
    {
        self.ending
    }

    /// Records an event, with at most as many bytes as a line has.
    pub fn record(&mut self, event: RecordedEvent<'_>)
        requires { FitsLine event }
        ensures { RecordsEvent (HasFailed W.Fails) self.old (line_event event.entry) self.new }
    {
        if event.is_silent() || self.ending != RecordEnd::Whole {
            return;
        }
        self.ending = make_room(&mut self.page, self.lines, &mut self.writer);
        if self.ending == RecordEnd::Whole {
            put_event(event, &mut self.page);
            self.lines += 1;
        }
    }

    /// Records a comment, as a line of its own.
    pub fn comment(&mut self, comment: Comment<'_>)
        ensures { GetsText (HasFailed W.Fails) self.old.ending self.old (comment_line comment.entry) self.new }
    {
        if self.ending != RecordEnd::Whole {
            return;
        }
        self.ending = make_room(&mut self.page, self.lines, &mut self.writer);
        if self.ending == RecordEnd::Whole {
            put_comment(comment, &mut self.page);
            self.lines += 1;
        }
    }

    /// Writes the page of a whole record. If that fails, the record has failed.
    #[tactic(auto, using(crate::proofs::PauseLemmas::unwritten_kept, crate::proofs::PauseLemmas::page_written, crate::proofs::PauseLemmas::page_lost))]
    pub fn flush(&mut self)
        ensures kept { KeepsText (HasFailed W.Fails) self.old self.new }
        ensures written { self.new.ending ≡ RecordEnd.Whole → self.new.unwritten ≡ [] }
    {
        if self.ending != RecordEnd::Whole {
            return;
        }
        if let Err(_) = hand_over(&mut self.page, &mut self.writer) {
            self.ending = RecordEnd::Failed;
        }
    }

    /// Returns the writer.
    pub fn writer(&self) -> &W {
        &self.writer
    }

    /// Hands over what is held of a record that did not fail, and returns the writer and how the record ended.
    ///
    /// `fails`: it fails only if a write of its writer returned an error.
    pub fn finish(self) -> (W, RecordEnd)
        ensures failed { self.ending ≡ RecordEnd.Failed → result.1 ≡ RecordEnd.Failed }
        ensures whole { result.1 ≢ RecordEnd.Failed → (result.1 ≡ self.ending) × Keeps self.text (W.contents result.0) }
        ensures fails { self.ending ≢ RecordEnd.Failed → result.1 ≡ RecordEnd.Failed → HasFailed W.Fails }
    {
        let Record {
            mut writer,
            mut page,
            lines: _,
            ending,
        } = self;
        let ended = hand_over_rest(ending, &mut page, &mut writer);
        (writer, ended)
    }
}
