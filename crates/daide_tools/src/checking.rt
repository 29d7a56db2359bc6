//! `check`: the report of a log, from a file or from standard input.

ghost use Rattle.std.specs.Prelude.{◌≡◌, ◌≤◌, map, option_map, IfOk, IfErr, OnErr};
ghost use Rattle.daide_causes.specs.Causes.{HasFailed, WasRefused};
ghost use Rattle.daide_tools.specs.Checking.{CannotRead, ChecksLogs, ChecksNamed, ChecksNames, ChecksRead, IsCheckCause, ReportsLog, SaysOfNamed, check_result, counts_status, explained_result};
ghost use Rattle.daide_tools.specs.Endings.{CheckRuns};

use crate::faults::{CLEAN, FAULT, NOT_RELAYED, RefusedLog, print_log_fault};
use crate::opening::FileOpener;
use crate::several::check_several;
use daide_causes::{Growth, Sink, Source};
use daide_command_line::arguments::CheckOrder;
use daide_log::{Explained, LineReason, LogFault, check_stream, explain_stream};
use daide_protocol::Summary;
use std::io;

/// Returns the status of a log by whether nothing in it was refused.
pub(crate) fn counts_status(is_clean: bool) -> u8
    ensures status { result ≡ counts_status is_clean }
    ensures bounded { result ≤ NOT_RELAYED }
{
    if is_clean { CLEAN } else { NOT_RELAYED }
}

/// Returns the status of a report, or its fault.
pub(crate) fn check_result(answer: Result<Summary, LogFault>) -> Result<u8, LogFault>
    ensures status { result ≡ check_result answer }
    ensures bounded { IfOk result (λ status. status ≤ NOT_RELAYED) }
{
    match answer {
        Ok(counts) => Ok(counts_status(counts.is_clean())),
        Err(fault) => Err(fault),
    }
}

/// Does the same for a report with explanations, in which an incomplete frame is a fault too.
pub(crate) fn explained_result(answer: Result<Explained, LogFault>) -> Result<u8, LogFault>
    ensures status { result ≡ explained_result answer }
    ensures bounded { IfOk result (λ status. status ≤ NOT_RELAYED) }
{
    match answer {
        Ok(report) => Ok(counts_status(report.counts.is_clean() && report.unfinished == 0)),
        Err(fault) => Err(fault),
    }
}

/// Writes the report of the log in a reader. Returns its status, or its fault.
fn report_read<A: Growth + Copy, I: Source, O: Sink>(
    alloc: A,
    is_explained: bool,
    input: &mut I,
    output: &mut O,
    reason: &mut Option<LineReason>,
) -> Result<u8, LogFault>
    ensures bounded { IfOk result (λ status. status ≤ NOT_RELAYED) }
    ensures reported { ReportsLog is_explained (I.remaining input.old) (I.remaining input.new) (O.contents output.old)
        (O.contents output.new) result }
    ensures caused { IfErr result (IsCheckCause (HasFailed I.Fails) (WasRefused A.Refuses) (HasFailed O.Fails)) }
{
    if is_explained {
        return explained_result(explain_stream(alloc, input, output, reason));
    }
    check_result(check_stream(alloc, input, output, reason))
}

/// Writes the report of the log in a reader, and reports its fault, if it has one. Returns the status.
fn check_read<A: Growth + Copy, I: Source, O: Sink, E: Sink>(
    alloc: A,
    is_explained: bool,
    input: &mut I,
    output: &mut O,
    errors: &mut E,
) -> io::Result<u8>
    ensures bounded { IfOk result (λ status. status ≤ NOT_RELAYED) }
    ensures checked { IfOk result (ChecksRead (HasFailed I.Fails) (WasRefused A.Refuses) (HasFailed O.Fails)
        (HasFailed E.Fails) is_explained (I.remaining input.old) (I.remaining input.new) (O.contents output.old)
        (O.contents output.new) (E.contents errors.old) (E.contents errors.new)) }
    ensures unsaid { OnErr result (HasFailed E.Fails) }
{
    let mut reason = None;
    match report_read(alloc, is_explained, input, output, &mut reason) {
        Ok(status) => Ok(status),
        Err(fault) => print_log_fault(alloc, None, RefusedLog { fault, reason }, errors),
    }
}

/// Writes the report of the log of this name, which is a file, or standard input for `-`.
fn check_named<A: Growth + Copy, F: Source + Drop, R: FileOpener<F>, I: Source, O: Sink, E: Sink>(
    alloc: A,
    rt: &R,
    name: &str,
    is_explained: bool,
    input: &mut I,
    output: &mut O,
    errors: &mut E,
) -> io::Result<u8>
    ensures bounded { IfOk result (λ status. status ≤ NOT_RELAYED) }
    ensures checked { IfOk result (ChecksNamed R.Opens F.remaining is_explained
        (SaysOfNamed (CannotRead R.Opens (HasFailed I.Fails) (HasFailed F.Fails)) (HasFailed O.Fails)
        (HasFailed E.Fails)) (WasRefused A.Refuses) name.now
        (I.remaining input.old) (I.remaining input.new) (O.contents output.old) (O.contents output.new)
        (E.contents errors.old) (E.contents errors.new)) }
    ensures unsaid { OnErr result (HasFailed E.Fails) }
{
    if name == "-" {
        return check_read(alloc, is_explained, input, output, errors);
    }
    match rt.open_input(name) {
        Ok(mut file) => check_read(alloc, is_explained, &mut file, output, errors),
        Err(_) => {
            let refused = RefusedLog::without_line(LogFault::Read);
            print_log_fault(alloc, None, refused, errors)
        }
    }
}

/// Writes the report of the log of this name, or of several names.
fn check_names<
    A: Growth + Copy,
    F: Source + Drop,
    R: AllocGlobal + FileOpener<F>,
    I: Source,
    O: Sink,
    E: Sink,
>(
    alloc: A,
    rt: &R,
    names: &[&str],
    is_explained: bool,
    input: &mut I,
    output: &mut O,
    errors: &mut E,
) -> io::Result<u8>
    ensures bounded { IfOk result (λ status. status ≤ NOT_RELAYED) }
    ensures checked { IfOk result (ChecksNames R.Opens F.remaining is_explained
        (SaysOfNamed (CannotRead R.Opens (HasFailed I.Fails) (HasFailed F.Fails)) (HasFailed O.Fails)
        (HasFailed E.Fails)) (WasRefused A.Refuses) (map (λ name. name.now) names.now)
        (I.remaining input.old) (I.remaining input.new) (O.contents output.old) (O.contents output.new)
        (E.contents errors.old) (E.contents errors.new)) }
    ensures unsaid { OnErr result (HasFailed E.Fails) }
{
    match names {
        [name] => check_named(alloc, rt, name, is_explained, input, output, errors),
        _ => check_several(alloc, rt, names, is_explained, input, output, errors),
    }
}

/// Writes the report of the log of a name, or of standard input, or the reports of several logs and their table.
///
/// `checked`: without a name, and for `-`, it is the report of standard input. For another name it is that of the file
/// that was opened by it, and standard input is unread. If none could be opened, nothing is written. For several logs
/// each report follows the name of its log, in the order of the names, and a table comes last. The status is 1 if a log
/// has a fault. Each fault is a line on standard error, with the name of its log if there are several, and no other
/// line is there. Refused memory, a failed write and a failed read happened. The read was of standard input, or of a
/// file, unless the file of this name could not be opened (`CannotRead`). After a failed write nothing more is said.
///
/// `reported`: the same without what is said on standard error.
///
/// `unsaid`: an error is returned only if a write to standard error failed.
///
/// Not said: why no file could be opened; of which file a read failed, if there are several; the text of the table, and
/// that memory was refused for it.
pub fn run_check<
    A: Growth + Copy,
    F: Source + Drop,
    R: AllocGlobal + FileOpener<F>,
    I: Source,
    O: Sink,
    E: Sink,
>(
    alloc: A,
    rt: &R,
    order: CheckOrder<'_, '_>,
    input: &mut I,
    output: &mut O,
    errors: &mut E,
) -> io::Result<u8>
    ensures bounded { IfOk result (λ status. status ≤ NOT_RELAYED) }
    ensures checked { IfOk result (ChecksLogs R.Opens F.remaining order.entry.is_explained
        (SaysOfNamed (CannotRead R.Opens (HasFailed I.Fails) (HasFailed F.Fails)) (HasFailed O.Fails)
        (HasFailed E.Fails)) (WasRefused A.Refuses)
        (option_map (λ files. map (λ file. file.now) files.now) order.entry.files) (I.remaining input.old)
        (I.remaining input.new) (O.contents output.old) (O.contents output.new) (E.contents errors.old)
        (E.contents errors.new)) }
    ensures reported { IfOk result (CheckRuns R.Opens F.remaining (HasFailed I.Fails) (HasFailed F.Fails)
        (WasRefused A.Refuses) (HasFailed O.Fails) order.entry (I.remaining input.old) (I.remaining input.new)
        (O.contents output.old) (O.contents output.new)) }
    ensures unsaid { OnErr result (HasFailed E.Fails) }
{
    let CheckOrder {
        files,
        is_explained,
    } = order;
    match files {
        None => check_read(alloc, is_explained, input, output, errors),
        Some(names) => check_names(alloc, rt, names, is_explained, input, output, errors),
    }
}
