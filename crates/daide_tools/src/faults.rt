//! The line that reports a fault, and the exit statuses.

ghost use Rattle.std.specs.Prelude.{◌≡◌, ◌⊎◌, ℕ, List, IfOk, OnOk, OnErr, IfSome, Some, option_map};
ghost use Rattle.std.specs.Io.KnownBytes.{Appends};
ghost use Rattle.daide_causes.specs.Causes.{HasFailed};
ghost use Rattle.daide_tools.specs.Checking.{SaysFault, SaysWhy, error_line, fault_text, named_fault};

use daide_causes::{Growth, Sink};
use daide_log::{LineReason, LogFault};
use std::fmt::Display;
use std::{fmt, io};

/// The status of success.
pub const CLEAN: u8 = 0;

/// The status after a fault.
pub const FAULT: u8 = 1;

/// The status of a command line that is not understood.
pub const USAGE: u8 = 2;

/// The status if the shown frame is at fault or its message would not be relayed, or if the reported log has a PRN, HUH
/// or fault.
pub const NOT_RELAYED: u8 = 3;

/// Reports a fault in one line on standard error. Returns the given status.
///
/// `printed`: the line is `daide-gate: ` and the text of the fault, if a contract knows that text.
///
/// `unsaid`: an error is returned only if the write failed.
pub fn print_fault<E: Sink, D: Display + Drop>(
    errors: &mut E,
    fault: D,
    status: u8,
) -> io::Result<u8>
    ensures status { IfOk result (λ printed. printed ≡ status) }
    ensures printed { OnOk result (IfSome (D.output fault) (λ text.
        Appends (E.contents errors.old) (E.contents errors.new) (error_line text))) }
    ensures unsaid { OnErr result (HasFailed E.Fails) }
{
    errors.write_text(format_args_nl!("daide-gate: {fault}"))?;
    Ok(status)
}

/// The text of a fault of a log.
#[derive(Clone, Copy)]
struct FaultText {
    fault: LogFault,
}

impl fmt::Display for FaultText {
    ghost output = { λ text. Some (fault_text text.fault) };

    fn fmt<W: fmt::Write>(&self, f: &mut fmt::Formatter<W>) -> fmt::Result {
        match self.fault {
            LogFault::BadLine(number) => write!(f, "line {number} is not a log line"),
            LogFault::LineTooLong(number) => write!(f, "line {number} is too long"),
            LogFault::TooManyLines => write!(f, "too many lines"),
            LogFault::Read => write!(f, "input could not be read"),
            LogFault::Write => write!(f, "output could not be written"),
            LogFault::Memory => write!(f, "out of memory"),
        }
    }
}

/// A fault of a log after the name of its log, if there are several.
#[derive(Clone, Copy)]
struct NamedFault<'a> {
    name: Option<&'a str>,
    fault: LogFault,
}

impl fmt::Display for NamedFault<'_> {
    ghost output = { λ named. Some (named_fault (option_map (λ name. name.now) named.name) named.fault) };

    fn fmt<W: fmt::Write>(&self, f: &mut fmt::Formatter<W>) -> fmt::Result {
        let text = FaultText { fault: self.fault };
        match self.name {
            Some(name) => write!(f, "{name}: {text}"),
            None => write!(f, "{text}"),
        }
    }
}

/// A fault of a log, and why its line is not a log line.
#[derive(Clone, Copy)]
pub(crate) struct RefusedLog {
    /// The fault.
    pub(crate) fault: LogFault,
    /// The reason, after a line that is not a log line.
    pub(crate) reason: Option<LineReason>,
}

impl RefusedLog {
    /// Returns a fault that is about no line.
    pub(crate) fn without_line(fault: LogFault) -> RefusedLog
        ensures { result.fault ≡ fault }
    {
        RefusedLog {
            fault,
            reason: None,
        }
    }
}

/// Reports why a line is not a log line, after the name of its log, if there are several. A failure has no effect.
fn print_reason<A: Growth, E: Sink>(
    alloc: A,
    name: Option<&str>,
    reason: LineReason,
    errors: &mut E,
)
    ensures { ((text : List ℕ) × Appends (E.contents errors.old) (E.contents errors.new) text) ⊎ HasFailed E.Fails }
{
    let mut line = Vec::new(alloc);
    let made = match name {
        Some(name) => A::append_text(&mut line, format_args_nl!("daide-gate: {name}: {reason}")),
        None => A::append_text(&mut line, format_args_nl!("daide-gate: {reason}")),
    };
    if made.is_err() {
        line.clear();
    }
    let _ = errors.write_whole(line.as_slice());
}

/// Reports why a line is not a log line, if that is the fault. A failure has no effect.
#[tactic(auto, using(crate::proofs::EndingLemmas::appends_nothing))]
fn print_why<A: Growth, E: Sink>(alloc: A, name: Option<&str>, refused: RefusedLog, errors: &mut E)
    ensures { SaysWhy (HasFailed E.Fails) refused.fault (E.contents errors.old) (E.contents errors.new) }
{
    let RefusedLog { fault, reason } = refused;
    match (fault, reason) {
        (LogFault::BadLine(_), Some(reason)) => print_reason(alloc, name, reason, errors),
        _ => {}
    }
}

/// Reports the fault of a log, after its name, if there are several, and what is wrong with a line that is not a log line.
/// Returns the status. A failure to write the latter has no effect.
pub(crate) fn print_log_fault<A: Growth, E: Sink>(
    alloc: A,
    name: Option<&str>,
    refused: RefusedLog,
    errors: &mut E,
) -> io::Result<u8>
    ensures status { IfOk result (λ status. status ≡ 1) }
    ensures said { OnOk result (SaysFault (HasFailed E.Fails) (option_map (λ name. name.now) name.entry) refused.fault
        (E.contents errors.old) (E.contents errors.new)) }
    ensures unsaid { OnErr result (HasFailed E.Fails) }
{
    let fault = refused.fault;
    print_fault(errors, NamedFault { name, fault }, FAULT)?;
    print_why(alloc, name, refused, errors);
    Ok(FAULT)
}
