//! A folder with a record of each session: a log that `check` reads.
//!
//! The operating system decides whether a file exists, whether one can be created, and which written bytes it keeps. No
//! contract is about that.

ghost use Rattle.std.specs.Prelude.{◌≡◌, ◌⊎◌, ◌+◌, Some, IfOk, IfErr, IfSome, option_map, string_bytes};
ghost use Rattle.std.specs.Net.Text.{socket_text};
ghost use Rattle.daide_log.specs.Recording.{HasFailed, no_record};
ghost use Rattle.daide_words.specs.Words.{words_of};
ghost use Rattle.daide_run.specs.Folder.{BeginsRecord, IsAddressOf, IsWritten, Starts, path_in, record_events, time_begun};
ghost use Rattle.daide_run.specs.Notices.{HasNoFile, IsNoFileOf, ReportsEnd};

use crate::notices::{NoticeLog, RecordNotice};
use daide_io::Ports;
use daide_log::record::Page;
use daide_log::{Activity, Comment, Moment, Record, RecordEnd, Recording, Sink};
use daide_protocol::Config;
use daide_settings::Settings;
use daide_words::Words;
use std::alloc::{AllocError, Global};
use std::fs::{DirEntry, OpenOptions};
use std::io::{ErrorKind, Write};
use std::net::SocketAddr;
use std::rt::Files;
use std::{fs, io};

/// The file of a session's record. Its contents are those of the file.
#[derive(Drop)]
pub struct SessionFile<F: Drop> {
    file: F,
    /// The kind of the error of the last write that failed.
    cause: ErrorKind,
}

/// Returns the result of a write, and stores the kind of its error.
fn noted(written: io::Result<usize>, cause: &mut ErrorKind) -> io::Result<usize>
    ensures { result ≡ written }
{
    if let Err(error) = &written {
        *cause = error.kind();
    }
    written
}

impl<F: Write + Drop> Write for SessionFile<F> {
    ghost contents = { λ f. F.contents f.file };

    fn write(&mut self, bytes: &[u8]) -> io::Result<usize> {
        noted(self.file.write(bytes), &mut self.cause)
    }

    fn flush(&mut self) -> io::Result<()> {
        self.file.flush()
    }
}

/// A folder, with the configuration and the words that head each record in it.
#[derive(Drop)]
pub(crate) struct Folder<'a, R: Files> {
    rt: &'a R,
    path: &'a str,
    /// The highest number of a record that was in the folder before the run.
    highest: u32,
    config: Config,
    words: Words,
}

/// Returns the path of the record with this number in a folder.
fn path_of(alloc: Global, folder: &str, number: u64) -> Result<String, AllocError>
    ensures { IfOk result (λ path. string_bytes path ≡ path_in folder.now number) }
{
    format!(in alloc; "{folder}/session-{number:06}.log")
}

/// Returns the text of an address; `None` if memory for it is refused.
fn text_of(alloc: Global, address: SocketAddr) -> Option<String>
    ensures { IfSome result (λ text. string_bytes text ≡ socket_text address) }
{
    format!(in alloc; "{address}").ok()
}

/// Returns the text of a bot's address; `None` without an address, or if memory for it is refused.
fn address_text(alloc: Global, bot: Option<SocketAddr>) -> Option<String>
    ensures { IsAddressOf bot (option_map (λ text. string_bytes text) result) }
{
    match bot {
        Some(bot) => text_of(alloc, bot),
        None => None,
    }
}

/// Adds a comment to a record: the number of its session, the address of its bot, and when the session began.
fn put_beginning<W: Sink + Drop>(log: &mut Record<W>, number: u32, address: &str, began: Moment)
    ensures { BeginsRecord (HasFailed W.Fails) number (Some address.now) (Some began) log.old log.new }
{
    log.comment(Comment::Begun(number, address, began.utc()));
}

/// Adds this comment to a record if the address and the time are known. Returns the time if it did.
fn begin_record<W: Sink + Drop>(
    log: &mut Record<W>,
    number: u32,
    address: &Option<String>,
    now: Option<Moment>,
) -> Option<Moment>
    ensures record_of { BeginsRecord (HasFailed W.Fails) number (option_map (λ text. string_bytes text) address.now) now
        log.old log.new }
    ensures last { result ≡ time_begun (option_map (λ text. string_bytes text) address.now) now }
{
    match (address, now) {
        (Some(text), Some(now)) => {
            put_beginning(log, number, text.as_str(), now);
            Some(now)
        }
        _ => None,
    }
}

/// Returns the number in the name of a record's file; `None` if no record has this name.
fn number_in(name: &str) -> Option<u32> {
    let digits = name.strip_prefix("session-")?.strip_suffix(".log")?;
    digits.parse().ok()
}

/// Returns the number of the record that an entry of a folder is; 0 if it is none.
fn number_of<R: Files + Drop>(entry: io::Result<DirEntry<R>>) -> io::Result<u32> {
    Ok(number_in(entry?.file_name()).unwrap_or(0))
}

/// Returns the highest number of the records in a folder; 0 if there is none.
fn highest_in<R: AllocGlobal + Files>(rt: &R, path: &str) -> io::Result<u32> {
    let mut highest = 0;
    for entry in fs::read_dir(&rt, path)? {
        highest = number_of(entry)?.max(highest);
    }
    Ok(highest)
}

/// Creates a folder if it does not exist. Returns the highest number of the records in it.
fn highest_made<R: AllocGlobal + Files>(rt: &R, path: &str) -> io::Result<u32> {
    fs::create_dir_all(rt, path)?;
    highest_in(rt, path)
}

impl<'a, R: AllocGlobal + Files> Folder<'a, R> {
    /// Opens a folder for the records of sessions with these settings, and creates it if it does not exist. Fails with
    /// the system's error if the folder can't be created or read, or if no file can be created in it, and with
    /// `InvalidInput` if the path is empty. To test that, a file with the number 0, which no record has, is created and
    /// removed.
    pub(crate) fn at(
        rt: &'a R,
        path: &'a str,
        settings: &Settings,
    ) -> Result<Folder<'a, R>, ErrorKind>
        ensures { IfOk result (λ folder. (folder.config ≡ settings.now.config) × (folder.words ≡ settings.now.words)) }
    {
        if path.is_empty() {
            return Err(ErrorKind::InvalidInput);
        }
        let highest = match highest_made(rt, path) {
            Ok(highest) => highest,
            Err(error) => return Err(error.kind()),
        };
        let folder = Folder {
            rt,
            path,
            highest,
            config: settings.config,
            words: settings.words,
        };
        match folder.try_file() {
            Ok(()) => Ok(folder),
            Err(error) => Err(error.kind()),
        }
    }

    /// Creates the file with the number 0, and removes it.
    fn try_file(&self) -> io::Result<()> {
        let name = path_of(self.rt.alloc(), self.path, 0)?;
        let _file = self.make(name.as_str())?;
        self.rt.remove_file(name.as_str())
    }

    /// Creates a file, which must not exist yet.
    fn make(&self, name: &str) -> io::Result<R::File> {
        OpenOptions::new()
            .write(true)
            .create_new(true)
            .open(self.rt, name)
    }

    /// Returns the number of a session's record: the records of a run follow those that were in the folder before.
    fn record_number(&self, session: u32) -> u64
        ensures { result ≡ self.now.highest + session }
    {
        self.highest as u64 + session as u64
    }

    /// Creates the file of a session's record, or returns why there is none.
    fn file_of(&self, number: u32) -> Result<R::File, RecordNotice>
        ensures { IfErr result (IsNoFileOf number) }
    {
        let Ok(name) = path_of(self.rt.alloc(), self.path, self.record_number(number)) else {
            return Err(RecordNotice::Unmade(number, ErrorKind::OutOfMemory));
        };
        self.make(name.as_str())
            .map_err(|error| match error.kind() {
                ErrorKind::AlreadyExists => RecordNotice::IsThere(number),
                kind => RecordNotice::Unmade(number, kind),
            })
    }

    /// Starts the record of a session with this number and with a bot at this address. The head for these settings is
    /// appended to its file, and then a comment with the address and the present time, if both are known. Returns the
    /// record, and the time in it.
    ///
    /// Not said: that memory for the text of the address was refused if the comment is missing.
    fn start(
        &self,
        session: (u32, Option<SocketAddr>),
        now: Option<Moment>,
    ) -> Result<(Record<SessionFile<R::File>>, Option<Moment>), RecordNotice>
        ensures started { IfOk result (λ started. Starts (HasFailed ⟦<SessionFile<R::File> as Sink>⟧.Fails) self.now.config
            (words_of self.now.words) session now started.0 started.1) }
        ensures none { IfErr result (IsNoFileOf session.0) }
    {
        let (number, bot) = session;
        let Ok(page) = Box::new(self.rt.alloc(), Page::new()) else {
            return Err(RecordNotice::Unmade(number, ErrorKind::OutOfMemory));
        };
        let file = SessionFile {
            file: self.file_of(number)?,
            cause: ErrorKind::Other,
        };
        let mut log = Record::new(page, file, self.config, self.words);
        let address = address_text(self.rt.alloc(), bot);
        let began = begin_record(&mut log, number, &address, now);
        Ok((log, began))
    }

    /// Returns ports whose calls are recorded in the record of a session with this number and with a bot at this address
    /// (`start`). If it can't be started, that is reported, and the ports have no record.
    pub(crate) fn begin<P: Ports, E: NoticeLog>(
        &self,
        session: (u32, Option<SocketAddr>),
        ports: P,
        now: Option<Moment>,
        errors: &mut E,
    ) -> Recording<P, SessionFile<R::File>>
        ensures ports { result.ports ≡ ports }
        ensures record { ((result.record_of ≡ no_record) × HasNoFile E.Reported session.0)
            ⊎ Starts (HasFailed ⟦<SessionFile<R::File> as Sink>⟧.Fails) self.now.config (words_of self.now.words) session now
            result.record_of result.last }
        ensures activity { result.activity ≡ Activity.Moving }
    {
        match self.start(session, now) {
            Ok((log, began)) => Recording::new(ports, Some(log), began),
            Err(notice) => {
                errors.log_notice(notice);
                Recording::new(ports, None, None)
            }
        }
    }
}

/// Reports why the record of the session with this number is not whole in its file, if it is not.
pub(crate) fn log_end<F: Drop, E: NoticeLog>(
    number: u32,
    file: &SessionFile<F>,
    end: RecordEnd,
    errors: &mut E,
)
    ensures { ReportsEnd E.Reported number end }
{
    match end {
        RecordEnd::Whole => {}
        RecordEnd::Failed => errors.log_notice(RecordNotice::Unwritten(number, file.cause)),
        RecordEnd::Full => errors.log_notice(RecordNotice::Full(number)),
    }
}

/// Writes the rest of a record to its file, unless that failed before. Reports why it can't be written.
pub(crate) fn finish<F: Write + Drop, E: NoticeLog>(
    number: u32,
    log: Record<SessionFile<F>>,
    errors: &mut E,
)
    ensures { IsWritten (record_events ⟦<SessionFile<F> as Write>⟧.contents ⟦<SessionFile<F> as Sink>⟧.Fails
        E.Reported) number log }
{
    if log.ending() == RecordEnd::Failed {
        return;
    }
    let (file, end) = log.finish();
    if end == RecordEnd::Failed {
        errors.log_notice(RecordNotice::Unwritten(number, file.cause));
    }
}
