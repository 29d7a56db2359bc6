//! The messages of logs, in order of time.

use crate::message::{Message, MessageFormat, put_message};
use crate::sessions::Sessions;
use crate::stamp::Stamp;
use daide_frame::{Head, Side};
use daide_log::{Observer, Preamble, ReportKey};
use daide_protocol::{Deed, Note};
use daide_session::Session;
use std::alloc::{AllocError, Allocator, Global};
use std::io;
use std::io::{BufWriter, Write};

/// The line of a message, within the text of all lines.
#[derive(Clone, Copy)]
struct Entry {
    /// The number of the message's time, which is 0 without one.
    time: u64,
    /// The place of the line's first byte.
    start: usize,
    /// The place after its last byte.
    end: usize,
}

/// The messages of logs. Each log is read whole, one after another. Then the messages are written.
#[derive(Drop)]
pub struct Transcript<'r> {
    format: MessageFormat,
    /// The lines of all messages so far.
    text: Vec<u8>,
    /// Where the lines are in the text, and their times.
    entries: Vec<Entry>,
    /// The name of the log that is being read.
    record: &'r str,
    /// The last time in this log.
    time: Option<Stamp>,
    /// The number of the latest time in this log.
    latest: u64,
    /// The sessions of this log.
    sessions: Sessions,
    /// Whether the allocator refused to keep a message.
    is_refused: bool,
}

impl<'r> Transcript<'r> {
    /// Returns a transcript without messages.
    pub fn new(alloc: Global, format: MessageFormat) -> Transcript<'r> {
        Transcript {
            format,
            text: Vec::new(alloc),
            entries: Vec::new(alloc),
            record: "",
            time: None,
            latest: 0,
            sessions: Sessions::new(alloc),
            is_refused: false,
        }
    }

    /// Begins a further log, which has this name.
    pub fn begin_log(&mut self, record: &'r str) {
        self.record = record;
        self.time = None;
        self.latest = 0;
        self.sessions.clear();
    }

    /// Adds the line of a message to the text.
    fn add_line(
        &mut self,
        head: &Preamble,
        source: ReportKey,
        side: Side,
        frame: (Head, Deed),
        body: &[u8],
    ) -> io::Result<()> {
        let Some(session) = self.sessions.result_at(source) else {
            return Ok(());
        };
        let message = Message {
            time: self.time,
            record: self.record,
            line: source.line,
            session,
            side,
            head: frame.0,
            body,
            deed: frame.1,
            words: &head.words,
        };
        put_message(self.format, &message, &mut self.text)
    }

    /// Adds a message.
    fn add_message(
        &mut self,
        head: &Preamble,
        source: ReportKey,
        side: Side,
        frame: (Head, Deed),
        body: &[u8],
    ) -> io::Result<()> {
        let start = self.text.len();
        self.add_line(head, source, side, frame, body)?;
        self.entries.push(Entry {
            time: self.latest,
            start,
            end: self.text.len(),
        })?;
        Ok(())
    }

    /// Sorts the lines by their times. Those of one time keep their order. Fails if the allocator refused to keep a
    /// message, or refuses memory now.
    fn sort(&mut self) -> Result<(), AllocError> {
        if self.is_refused {
            return Err(AllocError);
        }
        self.sessions.results()?;
        self.entries.sort_by_key(|entry| entry.time)
    }

    /// Writes the lines of all messages in order of time. Fails with `OutOfMemory` with nothing written, or with the
    /// writer's error.
    pub fn write<W: Write + Drop>(&mut self, alloc: Global, writer: W) -> io::Result<()> {
        self.sort()?;
        let mut writer = BufWriter::new(alloc, writer)?;
        for entry in self.entries.iter() {
            if let Some(line) = self.text.get(entry.start..entry.end) {
                writer.write_all(line)?;
            }
        }
        writer.flush()
    }
}

impl Observer for Transcript<'_> {
    fn see_line(&mut self, head: &Preamble, line: &[u8]) {
        self.sessions.see_line(head, line);
        if let Some(time) = Stamp::of_line(line) {
            self.time = Some(time);
            self.latest = self.latest.max(time.number);
        }
    }

    fn see_move<A: Allocator>(
        &mut self,
        head: &Preamble,
        source: ReportKey,
        session: &Session<A>,
        side: Side,
        reported: Note,
    ) {
        self.sessions
            .see_move(head, source, session, side, reported);
        if let Note::Frame(frame, deed) = reported
            && self
                .add_message(head, source, side, (frame, deed), session.body(side))
                .is_err()
        {
            self.is_refused = true;
        }
    }

    fn see_end(&mut self, head: &Preamble) {
        self.sessions.see_end(head);
    }
}
