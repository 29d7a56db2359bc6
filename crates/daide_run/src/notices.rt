//! The notices of sessions without a complete record, and their lines on standard error.

ghost use Rattle.std.specs.Prelude.{OnErr, OnOk};
ghost use Rattle.std.specs.Io.KnownBytes.{Appends};
ghost use Rattle.daide_run.specs.declared.notices.RecordNotice.{RecordNotice};
ghost use Rattle.daide_run.specs.Notices.{WasReported, notice_front};

use daide_log::Sink;
use daide_log::record::MOST_LINES;
use std::io;
use std::io::ErrorKind;
use thiserror::Error;

/// Why a session has no complete record, with its number. The session goes on. The text is the reason alone.
#[derive(Clone, Copy, Debug, Error)]
pub enum RecordNotice {
    /// A file with its name exists already, and is not overwritten.
    #[error("its file is there already")]
    IsThere(u32),
    /// Its file could not be created, with the system's error.
    #[error("its file could not be made ({1})")]
    Unmade(u32, ErrorKind),
    /// Its file accepted no more bytes, with the system's error, for example because the disk is full.
    #[error("it could not be written ({1})")]
    Unwritten(u32, ErrorKind),
    /// It has as many lines as a log may have.
    #[error("it has {lines} lines", lines = MOST_LINES)]
    Full(u32),
}

/// Writes the front of the line of a notice, before its reason: the session, and what it lacks.
fn write_front<E: Sink>(errors: &mut E, notice: RecordNotice) -> io::Result<()>
    ensures written { OnOk result (Appends (E.contents errors.old) (E.contents errors.new) (notice_front notice)) }
    ensures failed { OnErr result (E.Fails errors.old errors.new) }
{
    match notice {
        RecordNotice::IsThere(session) | RecordNotice::Unmade(session, _) => {
            errors.write_text(format_args!("daide-gate: session {session} is not recorded: "))
        }
        RecordNotice::Unwritten(session, _) | RecordNotice::Full(session) => {
            errors.write_text(format_args!("daide-gate: record of session {session} broke off: "))
        }
    }
}

/// A stream on which notices are reported. Code that is generic in it does not know `Reported`, so it can show that a notice
/// was reported only by reporting it.
pub trait NoticeLog {
    /// The front of the line of a notice was written, or that write failed.
    ghost Reported: { RecordNotice → Type 0 };

    /// Reports a notice. The run goes on if its line cannot be written.
    fn log_notice(&mut self, notice: RecordNotice)
        ensures { Reported notice };
}

impl<E: Sink> NoticeLog for &mut E {
    ghost Reported = { WasReported E.contents E.Fails };

    fn log_notice(&mut self, notice: RecordNotice) {
        if let Ok(()) = write_front(*self, notice) {
            let _ = self.write_text(format_args_nl!("{notice}"));
        }
    }
}
