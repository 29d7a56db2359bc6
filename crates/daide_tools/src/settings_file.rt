//! A file of settings: its text, which has a bounded length, and what it sets.

ghost use Rattle.std.specs.Prelude.{◌≡◌, ◌≢◌, ◌≤◌, None, length, option_map, string_bytes, IfOk, IfSome, OnErr};
ghost use Rattle.daide_settings.specs.Given.{given_of};
ghost use Rattle.daide_words.specs.Words.{words_of};
ghost use Rattle.daide_tools.specs.Endings.{AreSettingsAt, AreWordsAt};
ghost use Rattle.daide_tools.specs.Opened.{IsTextAt};

use crate::opening::FileOpener;
use daide_causes::Source;
use daide_settings::{Settings, SettingsError, judge_settings, read_settings};
use daide_words::Words;
use std::alloc::{AllocError, Allocator, Global};
use std::io::{ErrorKind, Read};
use thiserror::Error;

/// The most bytes of a text of settings.
const MOST_BYTES: usize = 65_536;

/// Why a file gives no settings.
#[derive(Debug, PartialEq, Eq, Drop, Error)]
pub enum SettingsFileFault<'a> {
    /// The file of this name cannot be read, has too many bytes (`FileTooLarge`), or is not UTF-8 (`InvalidData`), with
    /// the system's error.
    #[error("settings could not be read: {0}: {1}")]
    Unreadable(&'a str, ErrorKind),
    /// Its text has no settings: the first line of its report.
    #[error("{0}")]
    Refused(String),
    /// The allocator refused its text, or its report.
    #[error("out of memory")]
    Memory,
}

/// Reads a text of settings of at most `MOST_BYTES` bytes, from the file of this name.
///
/// Fails with `Memory` if a growth was refused, otherwise with `Unreadable`.
pub fn read_text<'a, A: Allocator, I: Read>(
    alloc: A,
    path: &'a str,
    input: &mut I,
) -> Result<String<A>, SettingsFileFault<'a>>
    ensures fits { IfOk result (λ text. length (string_bytes text) ≤ 65_536) }
    ensures whole { IfOk result (λ text. IfSome (I.remaining input.old) (λ all. string_bytes text ≡ all)) }
{
    let mut bytes = Vec::new(alloc);
    match input.take(MOST_BYTES as u64 + 1).read_to_end(&mut bytes) {
        Ok(_) => {}
        Err(error) if error.kind() == ErrorKind::OutOfMemory => return Err(
            SettingsFileFault::Memory,
        ),
        Err(error) => return Err(SettingsFileFault::Unreadable(path, error.kind())),
    }
    if bytes.len() > MOST_BYTES {
        return Err(SettingsFileFault::Unreadable(path, ErrorKind::FileTooLarge));
    }
    match String::from_utf8(bytes) {
        Ok(text) => Ok(text),
        Err(_) => Err(SettingsFileFault::Unreadable(path, ErrorKind::InvalidData)),
    }
}

/// Reads the text of the file of settings of this name.
pub fn text_at<'a, F: Source + Drop, R: AllocGlobal + FileOpener<F>>(
    rt: &R,
    path: &'a str,
) -> Result<String, SettingsFileFault<'a>>
    ensures { IfOk result (λ text. IsTextAt R.Opens F.remaining path.now (string_bytes text)) }
{
    match rt.open_input(path) {
        Ok(mut file) => read_text(rt.alloc(), path, &mut file),
        Err(cause) => Err(SettingsFileFault::Unreadable(path, cause)),
    }
}

/// Returns the report of a text of settings. Fails only if memory is refused.
pub fn report_of(alloc: Global, text: &str) -> Result<String, AllocError> {
    let mut report = Vec::new(alloc);
    match judge_settings(alloc, text, &mut report) {
        Ok(_) => String::from_utf8(report).map_err(|_| AllocError),
        Err(_) => Err(AllocError),
    }
}

/// Returns the first fault of a text without settings.
fn refusal_of(alloc: Global, text: &str) -> Result<String, AllocError> {
    let report = report_of(alloc, text)?;
    String::from_str(alloc, report.lines().next().unwrap_or(""))
}

/// Reads the settings of the file of this name.
pub(crate) fn settings_at<'a, F: Source + Drop, R: AllocGlobal + FileOpener<F>>(
    rt: &R,
    path: &'a str,
) -> Result<Settings, SettingsFileFault<'a>>
    ensures { IfOk result (λ settings. AreSettingsAt R.Opens F.remaining path.now (given_of settings)) }
{
    let text = text_at(rt, path)?;
    match read_settings(rt.alloc(), text.as_str()) {
        Ok(settings) => Ok(settings),
        Err(SettingsError::Memory) => Err(SettingsFileFault::Memory),
        Err(_) => match refusal_of(rt.alloc(), text.as_str()) {
            Ok(fault) => Err(SettingsFileFault::Refused(fault)),
            Err(_) => Err(SettingsFileFault::Memory),
        },
    }
}

/// Returns the words of the settings at a path; without a path, no words.
pub(crate) fn words_at<'a, F: Source + Drop, R: AllocGlobal + FileOpener<F>>(
    rt: &R,
    path: Option<&'a str>,
) -> Result<Words, SettingsFileFault<'a>>
    ensures words { IfOk result (λ words. AreWordsAt R.Opens F.remaining (option_map (λ name. name.now) path.entry)
        (words_of words)) }
    ensures none { OnErr result (path.entry ≢ None) }
{
    match path {
        None => Ok(Words::new()),
        Some(path) => match settings_at(rt, path) {
            Ok(settings) => Ok(settings.words),
            Err(fault) => Err(fault),
        },
    }
}
