//! Hints for arguments that a command does not take.

use clap::error::ErrorKind;
use std::convert::AsStr;
use std::io::Write;
use thiserror::Error;

/// The command that the user may have meant.
#[derive(Clone, Copy, Debug, Error)]
pub enum Hint {
    /// The arguments are the text of a message.
    #[error("'daide-gate frame' writes the frame of a message that is given as text")]
    Frame,
    /// The arguments are the digits of a frame.
    #[error("'daide-gate show' shows a frame that is given as hexadecimal digits")]
    Show,
    /// The argument is the path of a file.
    #[error("'daide-gate check' reports a log")]
    Check,
    /// The settings are missing.
    #[error("'daide-gate run examples/settings.toml' serves one bot; that file has every key of the settings")]
    Settings,
}

/// Returns true if an argument is a name of the protocol, alone or at the start of a message.
fn is_named(word: &[u8]) -> bool {
    let Some(name) = word.get(..3) else {
        return false;
    };
    name.iter().all(|byte| byte.is_ascii_uppercase())
        && matches!(word.get(3), None | Some(b' ' | b'('))
}

/// Returns the hint for an argument that is not a command, by its form.
pub fn hint_of(word: &str) -> Option<Hint> {
    let bytes = word.as_bytes();
    if bytes.is_empty() {
        return None;
    }
    if bytes.iter().all(|byte| byte.is_ascii_hexdigit()) {
        return Some(Hint::Show);
    }
    if is_named(bytes) || matches!(bytes.first(), Some(b'(' | b'\'' | b'#')) {
        return Some(Hint::Frame);
    }
    if bytes.iter().any(|byte| matches!(byte, b'.' | b'/')) {
        return Some(Hint::Check);
    }
    None
}

/// Returns the hint for arguments with a usage error, if there is one. The first argument is the program's name.
pub fn usage_hint<S: AsStr>(kind: ErrorKind, words: &[S]) -> Option<Hint> {
    let first = words.get(1)?;
    match (kind, first.as_str()) {
        (ErrorKind::InvalidSubcommand, word) => hint_of(word),
        (ErrorKind::MissingRequiredArgument, "run") => Some(Hint::Settings),
        _ => None,
    }
}

/// Writes a hint, if there is one. A failure to write it has no effect.
pub fn suggest<E: Write>(hint: Option<Hint>, errors: &mut E) {
    if let Some(hint) = hint {
        let _ = writeln!(errors, "  tip: {hint}");
    }
}
