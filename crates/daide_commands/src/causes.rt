//! The lines of a fault of a run: the fault, and, if `--verbose` requests that, the folder or the value that it is about,
//! with the system's error. A fault of the settings is the first line of their report, or all its lines. An unknown
//! name is in one line with its key and its address.

ghost use Rattle.std.specs.Prelude.{◌≡◌, IfOk};
ghost use Rattle.daide_commands.specs.FaultSubject.{subject_of_settings, subject_by};

use daide_command_line::arguments::RunOrder;
use daide_run::gateway::GatewayFault;
use daide_run::running::RunFault;
use daide_settings::{Key, Settings, SettingsError, read_settings};
use daide_tools::faults::{FAULT, print_fault};
use daide_tools::settings_file::report_of;
use std::alloc::Global;
use std::io;
use std::io::{ErrorKind, Write};
use thiserror::Error;

/// What a fault of a run is about.
#[derive(Clone, Copy)]
pub(crate) enum FaultSubject {
    /// The folder of the records, with the system's error.
    Folder(ErrorKind),
    /// The name in the value of this key.
    Name(Key),
    /// The value of this key, with the system's error.
    Value(Key, ErrorKind),
    /// The text of the settings, whose faults the judgement of `settings` has.
    Text,
    /// The memory of the process, of which there is no more to say.
    Memory,
}

/// A log line after a fault of a run.
#[derive(Clone, Copy, Debug, Error)]
enum CauseNotice<'a> {
    #[error("folder {0}: {1}")]
    Folder(&'a str, ErrorKind),
    #[error("{0} {1}: {2}")]
    Value(Key, &'a str, ErrorKind),
}

/// Returns what a fault of settings is about.
fn subject_of_settings(fault: SettingsError) -> FaultSubject
    ensures { result ≡ subject_of_settings fault }
{
    match fault {
        SettingsError::Memory => FaultSubject::Memory,
        _ => FaultSubject::Text,
    }
}

/// Returns what a fault of a run is about.
fn subject_of(fault: RunFault) -> FaultSubject
    ensures { result ≡ subject_by fault }
{
    match fault {
        RunFault::Settings(fault) => subject_of_settings(fault),
        RunFault::Record(cause) => FaultSubject::Folder(cause),
        RunFault::Gateway(GatewayFault::Name(key)) => FaultSubject::Name(key),
        RunFault::Gateway(GatewayFault::Listen(key, cause)) => FaultSubject::Value(key, cause),
        RunFault::Memory | RunFault::Gateway(GatewayFault::Memory | GatewayFault::Serve(_)) => {
            FaultSubject::Memory
        }
    }
}

/// Writes a line. The program goes on if it cannot be written.
fn notice<E: Write>(errors: &mut E, notice: CauseNotice<'_>) {
    let _ = writeln!(errors, "daide-gate: {notice}");
}

/// Returns the address or the path that is the value of a key.
fn value_at(settings: &Settings, key: Key) -> &str {
    match (key, &settings.control) {
        (Key::Control, Some(path)) => path.as_str(),
        (Key::Server, _) => settings.server.as_str(),
        _ => settings.listen.as_str(),
    }
}

/// Writes the value of a key that cannot be bound, from the text of the settings.
fn print_value<E: Write>(alloc: Global, text: &str, key: Key, cause: ErrorKind, errors: &mut E) {
    if let Ok(settings) = read_settings(alloc, text) {
        notice(
            errors,
            CauseNotice::Value(key, value_at(&settings, key), cause),
        );
    }
}

/// Reports the fault of a name, with its key and its address from the text of the settings. Returns the status.
fn print_name_fault<E: Write>(
    alloc: Global,
    text: &str,
    key: Key,
    fault: RunFault,
    errors: &mut E,
) -> io::Result<u8>
    ensures { IfOk result (λ status. status ≡ FAULT) }
{
    match read_settings(alloc, text) {
        Ok(settings) => {
            let address = value_at(&settings, key);
            print_fault(errors, format_args!("{key} {address}: {fault}"), FAULT)
        }
        Err(_) => print_fault(errors, RunFault::Memory, FAULT),
    }
}

/// Writes the first fault of a text of settings, or all of them, each in a line. Returns the status.
fn print_faults<E: Write>(
    alloc: Global,
    text: &str,
    are_all: bool,
    errors: &mut E,
) -> io::Result<u8>
    ensures { IfOk result (λ status. status ≡ FAULT) }
{
    let Ok(report) = report_of(alloc, text) else {
        return print_fault(errors, RunFault::Memory, FAULT);
    };
    for line in report.lines() {
        print_fault(errors, line, FAULT)?;
        if !are_all {
            break;
        }
    }
    Ok(FAULT)
}

/// Reports a fault of a run. If the order is verbose, a further line says what the fault is about, and why: the folder of
/// the order, or a value of the settings. Returns the status.
pub(crate) fn end_failed<E: Write>(
    alloc: Global,
    order: RunOrder<'_>,
    text: &str,
    fault: RunFault,
    errors: &mut E,
) -> io::Result<u8>
    ensures { IfOk result (λ status. status ≡ FAULT) }
{
    let subject = subject_of(fault);
    match subject {
        FaultSubject::Text => return print_faults(alloc, text, order.is_verbose, errors),
        FaultSubject::Name(key) => return print_name_fault(alloc, text, key, fault, errors),
        FaultSubject::Folder(_) | FaultSubject::Value(..) | FaultSubject::Memory => {}
    }
    let status = print_fault(errors, fault, FAULT)?;
    if order.is_verbose {
        match subject {
            FaultSubject::Folder(cause) => {
                notice(
                    errors,
                    CauseNotice::Folder(order.record.unwrap_or(""), cause),
                );
            }
            FaultSubject::Value(key, cause) => print_value(alloc, text, key, cause, errors),
            FaultSubject::Text | FaultSubject::Name(_) | FaultSubject::Memory => {}
        }
    }
    Ok(status)
}
