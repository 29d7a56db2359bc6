//! `transcript`: the messages of logs, in order of time.

ghost use Rattle.std.specs.Prelude.{◌≡◌, ◌≤◌, IfOk};

use crate::faults::{CLEAN, FAULT, RefusedLog, print_fault, print_log_fault};
use crate::opening::FileOpener;
use daide_causes::Source;
use daide_command_line::arguments::TranscriptOrder;
use daide_log::{LogFault, explain_observed};
use daide_transcript::{MessageFormat, Transcript};
use std::alloc::Allocator;
use std::io;
use std::io::{ErrorKind, Read, Write};

/// Adds the messages of a log.
fn add_read<A: Allocator + Copy, I: Read>(
    alloc: A,
    input: &mut I,
    transcript: &mut Transcript<'_>,
) -> Result<(), RefusedLog> {
    let mut reason = None;
    match explain_observed(alloc, input, &mut io::sink(), transcript, &mut reason) {
        Ok(_report) => Ok(()),
        Err(fault) => Err(RefusedLog { fault, reason }),
    }
}

/// Adds the messages of the log at a path, or of standard input for `-`.
fn add_at<'a, F: Source + Drop, R: AllocGlobal + FileOpener<F>, I: Read>(
    rt: &R,
    path: &'a str,
    input: &mut I,
    transcript: &mut Transcript<'a>,
) -> Result<(), RefusedLog> {
    transcript.begin_log(path);
    if path == "-" {
        return add_read(rt.alloc(), input, transcript);
    }
    match rt.open_input(path) {
        Ok(mut file) => add_read(rt.alloc(), &mut file, transcript),
        Err(_) => Err(RefusedLog::without_line(LogFault::Read)),
    }
}

/// Prints the messages of the logs at paths, or of standard input. A log with a fault does not keep the others from
/// being read.
pub fn run_transcript<
    F: Source + Drop,
    R: AllocGlobal + FileOpener<F>,
    I: Read,
    O: Write,
    E: Write,
>(
    rt: &R,
    order: TranscriptOrder<'_, '_>,
    input: &mut I,
    output: &mut O,
    errors: &mut E,
) -> io::Result<u8>
    ensures { IfOk result (λ status. status ≤ FAULT) }
{
    let format = if order.is_json {
        MessageFormat::Json
    } else {
        MessageFormat::Text
    };
    let mut transcript = Transcript::new(rt.alloc(), format);
    let mut has_fault = false;
    for path in order.records.unwrap_or(&["-"]) {
        if let Err(refused) = add_at(rt, path, input, &mut transcript) {
            print_log_fault(rt.alloc(), Some(path), refused, errors)?;
            has_fault = true;
        }
    }
    match transcript.write(rt.alloc(), output) {
        Ok(()) => Ok(if has_fault { FAULT } else { CLEAN }),
        Err(error) if error.kind() == ErrorKind::OutOfMemory => {
            print_fault(errors, LogFault::Memory, FAULT)
        }
        Err(_) => print_fault(errors, LogFault::Write, FAULT),
    }
}
