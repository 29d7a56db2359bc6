//! `check` of several logs: the report of each, and then a table of their sessions.

ghost use Rattle.std.specs.Prelude.{◌≡◌, ◌≤◌, map, IfOk, IfErr, IfSome, OnOk, OnErr};
ghost use Rattle.std.specs.Io.KnownBytes.{Appends};
ghost use Rattle.daide_causes.specs.Causes.{HasFailed, WasRefused};
ghost use Rattle.daide_tools.specs.Checking.{CannotRead, ChecksSeveral, EndsOne, EndsWithTable, IsCheckCause, ReportsLog, ReportsNamed, SaysOfNamed, fault_in, name_line, worse};
ghost use Rattle.daide_tools.specs.Opened.{standard_input};

use crate::checking::{check_result, explained_result};
use crate::faults::{CLEAN, FAULT, NOT_RELAYED, RefusedLog, print_log_fault};
use crate::opening::FileOpener;
use daide_causes::{Growth, Sink, Source};
use daide_log::{LineReason, LogFault, check_observed, explain_observed};
use daide_transcript::{Sessions, write_table};
use std::alloc::Global;
use std::io;

/// Writes the report of a log. Returns its status, or its fault.
fn report_read<A: Growth + Copy, I: Source, O: Sink>(
    alloc: A,
    is_explained: bool,
    input: &mut I,
    output: &mut O,
    sessions: &mut Sessions,
    reason: &mut Option<LineReason>,
) -> Result<u8, LogFault>
    ensures bounded { IfOk result (λ status. status ≤ NOT_RELAYED) }
    ensures reported { ReportsLog is_explained (I.remaining input.old) (I.remaining input.new) (O.contents output.old)
        (O.contents output.new) result }
    ensures caused { IfErr result (IsCheckCause (HasFailed I.Fails) (WasRefused A.Refuses) (HasFailed O.Fails)) }
{
    if is_explained {
        return explained_result(explain_observed(alloc, input, output, sessions, reason));
    }
    check_result(check_observed(alloc, input, output, sessions, reason))
}

/// Writes the name of a log as a comment, with `?` for each control character.
pub(crate) fn write_name<O: Sink>(path: &str, output: &mut O) -> io::Result<()>
    ensures written { OnOk result (Appends (O.contents output.old) (O.contents output.new) (name_line path.now)) }
    ensures failed { OnErr result (HasFailed O.Fails) }
{
    output.write_whole(b"# ")?;
    let mut rest = path.as_bytes();
    while let [byte, others @ ..] = rest {
        let shown = if byte.is_ascii_control() { b'?' } else { *byte };
        output.write_whole(&[shown])?;
        rest = others;
    }
    output.write_whole(b"\n")
}

/// Writes the report of the log at a path, or of standard input for `-`. Returns its status, or its fault.
fn report_at<A: Growth + Copy, F: Source + Drop, R: FileOpener<F>, I: Source, O: Sink>(
    alloc: A,
    rt: &R,
    path: &str,
    is_explained: bool,
    input: &mut I,
    output: &mut O,
    sessions: &mut Sessions,
) -> Result<u8, RefusedLog>
    ensures bounded { IfOk result (λ status. status ≤ NOT_RELAYED) }
    ensures reported { ReportsNamed R.Opens F.remaining is_explained path.now (I.remaining input.old)
        (I.remaining input.new) (O.contents output.old) (O.contents output.new) (fault_in result) }
    ensures caused { IfErr result (λ refused. IsCheckCause
        (CannotRead R.Opens (HasFailed I.Fails) (HasFailed F.Fails) path.now) (WasRefused A.Refuses)
        (HasFailed O.Fails) refused.fault) }
{
    let mut reason = None;
    let answer = if path == "-" {
        report_read(alloc, is_explained, input, output, sessions, &mut reason)
    } else {
        match rt.open_input(path) {
            Ok(mut file) => report_read(
                alloc,
                is_explained,
                &mut file,
                output,
                sessions,
                &mut reason,
            ),
            Err(_) => Err(LogFault::Read),
        }
    };
    match answer {
        Ok(status) => Ok(status),
        Err(fault) => Err(RefusedLog { fault, reason }),
    }
}

/// Writes the name and the report of a log, and reports its fault. Returns its status. Returns `None` if a write failed,
/// which is not reported.
fn check_one<A: Growth + Copy, F: Source + Drop, R: FileOpener<F>, I: Source, O: Sink, E: Sink>(
    alloc: A,
    rt: &R,
    path: &str,
    is_explained: bool,
    input: &mut I,
    output: &mut O,
    errors: &mut E,
    sessions: &mut Sessions,
) -> io::Result<Option<u8>>
    ensures bounded { IfOk result (λ one. IfSome one (λ status. status ≤ NOT_RELAYED)) }
    ensures checked { IfOk result (EndsOne R.Opens F.remaining is_explained
        (SaysOfNamed (CannotRead R.Opens (HasFailed I.Fails) (HasFailed F.Fails)) (HasFailed O.Fails)
        (HasFailed E.Fails)) (WasRefused A.Refuses) (HasFailed O.Fails) path.now
        (I.remaining input.old) (I.remaining input.new) (O.contents output.old) (O.contents output.new)
        (E.contents errors.old) (E.contents errors.new)) }
    ensures unsaid { OnErr result (HasFailed E.Fails) }
{
    if let Err(_) = write_name(path, output) {
        return Ok(None);
    }
    sessions.begin_log();
    match report_at(alloc, rt, path, is_explained, input, output, sessions) {
        Ok(status) => Ok(Some(status)),
        Err(refused) if matches!(refused.fault, LogFault::Write) => Ok(None),
        Err(refused) => match print_log_fault(alloc, Some(path), refused, errors) {
            Ok(status) => Ok(Some(status)),
            Err(error) => Err(error),
        },
    }
}

/// Returns the status of several logs: a fault is more than a refusal.
fn worse(before: u8, one: u8) -> u8
    ensures status { result ≡ worse before one }
    ensures bounded { before ≤ NOT_RELAYED → one ≤ NOT_RELAYED → result ≤ NOT_RELAYED }
{
    if before == FAULT || one == FAULT {
        return FAULT;
    }
    before.max(one)
}

/// Writes the table. Returns the status: that of the logs, or of a fault, which is reported.
fn end_with_table<O: Sink, E: Sink>(
    alloc: Global,
    status: u8,
    sessions: &Sessions,
    output: &mut O,
    errors: &mut E,
) -> io::Result<u8>
    ensures bounded { status ≤ NOT_RELAYED → IfOk result (λ given. given ≤ NOT_RELAYED) }
    ensures ended { IfOk result (EndsWithTable (SaysOfNamed (λ _. ⊥) (HasFailed O.Fails) (HasFailed E.Fails))
        (O.contents output.old) (O.contents output.new) (E.contents errors.old) (E.contents errors.new) status) }
    ensures unsaid { OnErr result (HasFailed E.Fails) }
{
    let mut table = Vec::new(alloc);
    if let Err(_) = write_table(alloc, sessions, &mut table) {
        let refused = RefusedLog::without_line(LogFault::Memory);
        return print_log_fault(alloc, None, refused, errors);
    }
    match output.write_whole(table.as_slice()) {
        Ok(()) => Ok(status),
        Err(_) => print_log_fault(
            alloc,
            None,
            RefusedLog::without_line(LogFault::Write),
            errors,
        ),
    }
}

/// Writes the reports of logs, each after its name, and a table of their sessions. A log with a fault does not keep the
/// others from their reports.
pub(crate) fn check_several<
    A: Growth + Copy,
    F: Source + Drop,
    R: AllocGlobal + FileOpener<F>,
    I: Source,
    O: Sink,
    E: Sink,
>(
    alloc: A,
    rt: &R,
    paths: &[&str],
    is_explained: bool,
    input: &mut I,
    output: &mut O,
    errors: &mut E,
) -> io::Result<u8>
    ensures bounded { IfOk result (λ status. status ≤ NOT_RELAYED) }
    ensures checked { IfOk result (ChecksSeveral R.Opens F.remaining is_explained
        (SaysOfNamed (CannotRead R.Opens (HasFailed I.Fails) (HasFailed F.Fails)) (HasFailed O.Fails)
        (HasFailed E.Fails)) (WasRefused A.Refuses) (map (λ path. path.now) paths.now)
        (I.remaining input.old) (I.remaining input.new) (O.contents output.old) (O.contents output.new)
        (E.contents errors.old) (E.contents errors.new)) }
    ensures unsaid { OnErr result (HasFailed E.Fails) }
{
    let mut sessions = Sessions::new(rt.alloc());
    let mut status = CLEAN;
    let mut rest = paths;
    while let [path, others @ ..] = rest {
        let checked = check_one(
            alloc,
            rt,
            path,
            is_explained,
            input,
            output,
            errors,
            &mut sessions,
        )?;
        let Some(one) = checked else {
            let refused = RefusedLog::without_line(LogFault::Write);
            return print_log_fault(alloc, None, refused, errors);
        };
        status = worse(status, one);
        rest = others;
    }
    end_with_table(rt.alloc(), status, &sessions, output, errors)
}
