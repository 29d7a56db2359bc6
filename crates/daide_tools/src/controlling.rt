//! `status` and `stop`: what an operator requests of a run, over its control socket.
//!
//! A request is one line. Its answer is what comes until the end of the stream; that of a stop is a line at once, and the
//! end of the stream when what was stopped is over. The contracts say of which run: that which was reached at the control
//! path of the settings of the order's file (`ReachesRun`). The operating system decides who listens there.

ghost use Rattle.std.specs.Prelude.{◌≡◌, ◌≢◌, ◌≤◌, ◌⊎◌, ◌++◌, [], length, map, option_map, option_to_list, Some, Ok, IfOk, IfErr, IfSome, OnOk, OnErr};
ghost use Rattle.std.specs.Io.KnownBytes.{Appends, Consumes};
ghost use Rattle.daide_causes.specs.Causes.{HasFailed};
ghost use Rattle.daide_tools.specs.Controlling.{AnswersOver, EndsAfter, EndsRequestOr, IsUnanswered, ReachedAt, RunAnswers, StatusEnds, StatusRuns, StopRuns, longest_answer, request_line, stopping_line, title_for, title_of};

use crate::faults::{CLEAN, FAULT, print_fault};
use crate::opening::{ANSWER_SECONDS, FileOpener, Limit, RunReacher};
use crate::settings_file::{SettingsFileFault, settings_at};
use crate::several::write_name;
use daide_causes::{Growth, Sink, Source};
use daide_command_line::arguments::{StatusOrder, StopOrder};
use daide_settings::ControlPath;
use daide_status::{ControlRequest, Format};
use std::alloc::Global;
use std::io::{ErrorKind, Read, Write};
use std::time::Duration;
use std::{fmt, io};

/// The most bytes of an answer.
const MOST_BYTES: u64 = 4_194_304;

/// The answer of a run to a line that is no request of its version.
const UNKNOWN: &[u8] = b"unknown request\n";

/// The most bytes of the line that answers a stop.
const LONGEST_LINE: usize = 64;

/// The answer of a run that carries out a stop, at whose end the stream ends.
const STOPPING: &[u8] = b"stopping\n";

/// The answer of a run to a stop at whose end the stream does not end, since others wait for one.
const MANY_WAIT: &[u8] = b"too many wait\n";

/// Why a request was not carried out.
#[derive(Clone, Copy)]
enum RequestFault {
    /// Nobody can be reached at the path.
    Unreached(ErrorKind),
    /// The run did not accept the connection in time.
    Unaccepted,
    /// The request could not be sent.
    Unsent(ErrorKind),
    /// The answer could not be read.
    Unread(ErrorKind),
    /// No answer came in time, or the stream ended without one.
    Silent,
    /// The run does not know the request.
    Unknown,
    /// The answer is too long.
    TooLong,
    /// The run, or the session, goes on after the timeout.
    StillRunning,
    /// The run has no session of this number.
    NoSession(u32),
    /// The run stops, but does not say when it is over.
    Unawaited,
    /// The run does not stop this session, since it could not say when it is over.
    NotStopped(u32),
    /// The output failed.
    Write,
}

impl fmt::Display for RequestFault {
    fn fmt<W: fmt::Write>(&self, f: &mut fmt::Formatter<W>) -> fmt::Result {
        match *self {
            RequestFault::Unreached(ErrorKind::NotFound | ErrorKind::ConnectionRefused) => {
                f.write_str("nobody listens")
            }
            RequestFault::Unreached(kind) => write!(f, "cannot connect: {kind}"),
            RequestFault::Unaccepted => f.write_str("the run accepts no connection"),
            RequestFault::Unsent(kind) => write!(f, "request could not be sent: {kind}"),
            RequestFault::Unread(kind) => write!(f, "answer could not be read: {kind}"),
            RequestFault::Silent => f.write_str("no answer"),
            RequestFault::Unknown => f.write_str("the run does not know the request"),
            RequestFault::TooLong => f.write_str("answer is too long"),
            RequestFault::StillRunning => f.write_str("still running"),
            RequestFault::NoSession(number) => write!(f, "the run has no session {number}"),
            RequestFault::Unawaited => f.write_str(
                "too many wait for the end: the run stops, but its end is not awaited",
            ),
            RequestFault::NotStopped(number) => {
                write!(
                    f,
                    "too many wait for an end: session {number} is not stopped"
                )
            }
            RequestFault::Write => f.write_str("output could not be written"),
        }
    }
}

/// Returns true if an error means that a timeout is over.
fn is_timeout(kind: ErrorKind) -> bool {
    matches!(kind, ErrorKind::WouldBlock | ErrorKind::TimedOut)
}

/// Connects to the run at a path.
fn reach<S: Read + Write + Drop, R: RunReacher<S>>(
    rt: &R,
    path: &ControlPath,
    time: Duration,
) -> Result<S, RequestFault>
    ensures fault { IfErr result (λ fault. fault ≢ RequestFault.Write) }
    ensures reached { IfOk result (λ stream. R.Reaches path.now (Ok stream)) }
{
    match rt.reach_run(path.as_str(), time) {
        Ok(stream) => Ok(stream),
        Err(kind) if is_timeout(kind) => Err(RequestFault::Unaccepted),
        Err(kind) => Err(RequestFault::Unreached(kind)),
    }
}

/// Sends a request.
fn send<S: Write>(
    alloc: Global,
    request: ControlRequest,
    stream: &mut S,
) -> Result<(), RequestFault>
    ensures fault { IfErr result (λ fault. fault ≢ RequestFault.Write) }
    ensures sent { OnOk result (Appends (S.contents stream.old) (S.contents stream.new) (request_line request)) }
{
    let mut line = Vec::new(alloc);
    if let Err(_) = Global::append_text(&mut line, format_args_nl!("{request}")) {
        return Err(RequestFault::Unsent(ErrorKind::OutOfMemory));
    }
    match stream.write_all(line.as_slice()) {
        Ok(()) => Ok(()),
        Err(error) => Err(RequestFault::Unsent(error.kind())),
    }
}

/// Reads an answer up to its end.
fn answer_of<S: Read>(alloc: Global, stream: &mut S) -> Result<Vec<u8>, RequestFault>
    ensures fault { IfErr result (λ fault. fault ≢ RequestFault.Write) }
    ensures few { IfOk result (λ answer. length answer.items ≤ longest_answer) }
    ensures whole { IfOk result (λ answer. IfSome (S.remaining stream.old) (λ all. answer.items ≡ all)) }
{
    let mut answer = Vec::new(alloc);
    match stream.take(MOST_BYTES + 1).read_to_end(&mut answer) {
        Ok(_) => {}
        Err(error) if is_timeout(error.kind()) => return Err(RequestFault::Silent),
        Err(error) => return Err(RequestFault::Unread(error.kind())),
    }
    if answer.len() as u64 > MOST_BYTES {
        return Err(RequestFault::TooLong);
    }
    Ok(answer)
}

/// Writes an answer after its title, if it has one.
fn write_answer<O: Sink>(title: Option<&str>, answer: &[u8], output: &mut O) -> io::Result<()>
    ensures printed { OnOk result (Appends (O.contents output.old) (O.contents output.new)
        (title_of (option_map (λ name. name.now) title.entry) ++ answer.now)) }
    ensures failed { OnErr result (HasFailed O.Fails) }
{
    if let Some(name) = title {
        write_name(name, output)?;
    }
    output.write_whole(answer)
}

/// Prints an answer after its title, unless there is none or the run does not know the request.
fn print_answer<O: Sink>(
    title: Option<&str>,
    answer: &[u8],
    output: &mut O,
) -> Result<(), RequestFault>
    ensures some { OnOk result (answer.now ≢ []) }
    ensures printed { OnOk result (Appends (O.contents output.old) (O.contents output.new)
        (title_of (option_map (λ name. name.now) title.entry) ++ answer.now)) }
    ensures refused { IfErr result (IsUnanswered (HasFailed O.Fails) (O.contents output.old) (O.contents output.new)) }
{
    if answer.is_empty() {
        return Err(RequestFault::Silent);
    }
    if answer == UNKNOWN {
        return Err(RequestFault::Unknown);
    }
    match write_answer(title, answer, output) {
        Ok(()) => Ok(()),
        Err(_) => Err(RequestFault::Write),
    }
}

/// Requests a status over a stream, and prints the answer after its title.
fn status_over<S: Read + Write, O: Sink>(
    alloc: Global,
    title: Option<&str>,
    request: ControlRequest,
    stream: &mut S,
    output: &mut O,
) -> Result<(), RequestFault>
    ensures answered { OnOk result (AnswersOver S.contents S.remaining request stream.old
        (title_of (option_map (λ name. name.now) title.entry)) (O.contents output.old) (O.contents output.new)) }
    ensures refused { IfErr result (IsUnanswered (HasFailed O.Fails) (O.contents output.old) (O.contents output.new)) }
{
    send(alloc, request, stream)?;
    let answer = answer_of(alloc, stream)?;
    print_answer(title, answer.as_slice(), output)
}

/// Requests the status of the run at a path, and prints it (`status_over`).
fn print_status<S: Read + Write + Drop, R: AllocGlobal + RunReacher<S>, O: Sink>(
    rt: &R,
    path: &ControlPath,
    title: Option<&str>,
    request: ControlRequest,
    output: &mut O,
) -> Result<(), RequestFault>
    ensures answered { OnOk result (ReachedAt R.Reaches (Some path.now) (λ stream.
        AnswersOver S.contents S.remaining request stream
        (title_of (option_map (λ name. name.now) title.entry)) (O.contents output.old) (O.contents output.new))) }
    ensures refused { IfErr result (IsUnanswered (HasFailed O.Fails) (O.contents output.old) (O.contents output.new)) }
{
    let mut stream = reach(rt, path, Duration::from_secs(ANSWER_SECONDS))?;
    status_over(rt.alloc(), title, request, &mut stream, output)
}

/// Returns the fault of a read.
fn unread(kind: ErrorKind) -> RequestFault {
    if is_timeout(kind) {
        RequestFault::Silent
    } else {
        RequestFault::Unread(kind)
    }
}

/// Reads the next byte; `None` at the end of the stream.
fn next_byte<S: Read>(stream: &mut S) -> Result<Option<u8>, RequestFault>
    ensures { IfOk result (λ next.
        Consumes (S.remaining stream.old) (S.remaining stream.new) (option_to_list next)) }
{
    let mut buffer = [0u8; 1];
    match stream.read(&mut buffer) {
        Ok(0) => Ok(None),
        Ok(_) => Ok(Some(buffer[0])),
        Err(error) => Err(unread(error.kind())),
    }
}

/// Reads a line, with its line feed. Without a line feed it has the bytes before the end of the stream, or the first
/// `LONGEST_LINE`.
fn read_line<S: Read>(alloc: Global, stream: &mut S) -> Result<Vec<u8>, RequestFault>
    ensures { IfOk result (λ line. Consumes (S.remaining stream.old) (S.remaining stream.new) line.items) }
{
    let mut line = Vec::new(alloc);
    for _ in 0..LONGEST_LINE {
        let Some(byte) = next_byte(stream)? else {
            return Ok(line);
        };
        if line.push(byte).is_err() {
            return Err(RequestFault::Unread(ErrorKind::OutOfMemory));
        }
        if byte == b'\n' {
            return Ok(line);
        }
    }
    Ok(line)
}

/// Returns the fault of a stop by the line that answers it, unless it is carried out and its end awaited.
fn judge_line(request: ControlRequest, line: &[u8]) -> Result<(), RequestFault>
    ensures { OnOk result (line.now ≡ stopping_line) }
{
    if line == STOPPING {
        return Ok(());
    }
    Err(match request {
        ControlRequest::StopSession(number) if line.starts_with(b"no session ") => {
            RequestFault::NoSession(number)
        }
        ControlRequest::StopSession(number) if line == MANY_WAIT => {
            RequestFault::NotStopped(number)
        }
        _ if line == MANY_WAIT => RequestFault::Unawaited,
        _ if line.is_empty() => RequestFault::Silent,
        _ => RequestFault::Unknown,
    })
}

/// Waits for the end of a stream on which nothing comes before.
fn wait_for_end<S: Read>(stream: &mut S) -> Result<(), RequestFault>
    ensures { OnOk result (IfSome (S.remaining stream.old) (λ rest. rest ≡ [])) }
{
    let mut buffer = [0u8; 64];
    match stream.read(&mut buffer) {
        Ok(0) => Ok(()),
        Ok(_) => Err(RequestFault::Unknown),
        Err(error) if is_timeout(error.kind()) => Err(RequestFault::StillRunning),
        Err(error) => Err(RequestFault::Unread(error.kind())),
    }
}

/// Requests a stop over a stream, and waits for the end of the stream, which comes when what was stopped is over.
fn stop_over<S: Read + Write, R: AllocGlobal + RunReacher<S>>(
    rt: &R,
    request: ControlRequest,
    limit: &Limit,
    stream: &mut S,
) -> Result<(), RequestFault>
    ensures { OnOk result (EndsAfter S.contents S.remaining request stream.old) }
{
    send(rt.alloc(), request, stream)?;
    let line = read_line(rt.alloc(), stream)?;
    judge_line(request, line.as_slice())?;
    match rt.set_wait(stream, limit.left(rt)) {
        Ok(()) => wait_for_end(stream),
        Err(kind) => Err(RequestFault::Unread(kind)),
    }
}

/// Requests a stop of the run at a path, or of a session, and waits until it is over (`stop_over`).
fn stop_run<S: Read + Write + Drop, R: AllocGlobal + RunReacher<S>>(
    rt: &R,
    path: &ControlPath,
    order: StopOrder<'_>,
) -> Result<(), RequestFault>
    ensures { OnOk result (ReachedAt R.Reaches (Some path.now) (EndsAfter S.contents S.remaining order.entry.request)) }
{
    let limit = Limit::begin(rt, order.timeout);
    let mut stream = reach(rt, path, limit.to_answer())?;
    stop_over(rt, order.request, &limit, &mut stream)
}

/// Why an order to a run was not carried out.
#[derive(Drop)]
enum ControlFault<'a> {
    /// There are no settings.
    Settings(SettingsFileFault<'a>),
    /// The settings have no control socket.
    NoControl,
    /// The request to this path was not carried out.
    Request(&'a ControlPath, RequestFault),
}

impl fmt::Display for ControlFault<'_> {
    fn fmt<W: fmt::Write>(&self, f: &mut fmt::Formatter<W>) -> fmt::Result {
        match self {
            ControlFault::Settings(fault) => write!(f, "{fault}"),
            ControlFault::NoControl => write!(f, "settings have no control"),
            ControlFault::Request(path, fault) => write!(f, "{}: {fault}", path.as_str()),
        }
    }
}

/// Reports an order that was not carried out, after the name of its file, if there are several.
fn end_refused<E: Sink>(
    name: Option<&str>,
    fault: ControlFault<'_>,
    errors: &mut E,
) -> io::Result<u8>
    ensures { IfOk result (λ status. status ≡ FAULT) }
{
    match name {
        Some(name) => print_fault(errors, format_args!("{name}: {fault}"), FAULT),
        None => print_fault(errors, fault, FAULT),
    }
}

/// In which form the status of runs is printed.
#[derive(Clone, Copy)]
struct StatusForm {
    format: Format,
    /// Whether there are several runs.
    is_several: bool,
}

impl StatusForm {
    /// Returns the name of a file if it comes before the status of its run: before a table of several.
    fn title<'n>(self, name: &'n str) -> Option<&'n str>
        ensures { title_of (option_map (λ name. name.now) result) ≡ title_for self.is_several self.format name.now }
    {
        match (self.is_several, self.format) {
            (true, Format::Table) => Some(name),
            _ => None,
        }
    }

    /// Returns the name of a file if it comes before a fault of its run: if there are several.
    fn label<'n>(self, name: &'n str) -> Option<&'n str> {
        if self.is_several { Some(name) } else { None }
    }
}

/// Prints the status of the run with this control socket. Returns the status of the program, or `None` after a failed write.
fn status_of<S: Read + Write + Drop, R: AllocGlobal + RunReacher<S>, O: Sink, E: Sink>(
    rt: &R,
    control: &Option<ControlPath>,
    name: &str,
    form: StatusForm,
    output: &mut O,
    errors: &mut E,
) -> io::Result<Option<u8>>
    ensures bounded { IfOk result (λ one. IfSome one (λ status. status ≤ FAULT)) }
    ensures ended { IfOk result (EndsRequestOr (HasFailed O.Fails) (ReachedAt R.Reaches control.now (λ stream.
        AnswersOver S.contents S.remaining (ControlRequest.Status form.format) stream
        (title_for form.is_several form.format name.now) (O.contents output.old) (O.contents output.new)))
        (O.contents output.old) (O.contents output.new)) }
{
    let Some(path) = control else {
        let status = end_refused(form.label(name), ControlFault::NoControl, errors)?;
        return Ok(Some(status));
    };
    let request = ControlRequest::Status(form.format);
    match print_status(rt, path, form.title(name), request, output) {
        Ok(()) => Ok(Some(CLEAN)),
        Err(fault) => {
            let status = end_refused(form.label(name), ControlFault::Request(path, fault), errors)?;
            Ok(match fault {
                RequestFault::Write => None,
                _ => Some(status),
            })
        }
    }
}

/// Does the same for the run with the settings of this name.
fn status_at<
    S: Read + Write + Drop,
    F: Source + Drop,
    R: AllocGlobal + FileOpener<F> + RunReacher<S>,
    O: Sink,
    E: Sink,
>(rt: &R, name: &str, form: StatusForm, output: &mut O, errors: &mut E) -> io::Result<Option<u8>>
    ensures bounded { IfOk result (λ one. IfSome one (λ status. status ≤ FAULT)) }
    ensures ended { IfOk result (EndsRequestOr (HasFailed O.Fails)
        (RunAnswers R.Opens F.remaining R.Reaches S.contents S.remaining form.is_several form.format
        name.now (O.contents output.old) (O.contents output.new)) (O.contents output.old) (O.contents output.new)) }
{
    match settings_at(rt, name) {
        Ok(settings) => status_of(rt, &settings.control, name, form, output, errors),
        Err(fault) => {
            let status = end_refused(form.label(name), ControlFault::Settings(fault), errors)?;
            Ok(Some(status))
        }
    }
}

/// Prints the status of the runs with the settings of these names, one after the other. Returns the status of the program.
fn status_of_each<
    S: Read + Write + Drop,
    F: Source + Drop,
    R: AllocGlobal + FileOpener<F> + RunReacher<S>,
    O: Sink,
    E: Sink,
>(rt: &R, names: &[&str], format: Format, output: &mut O, errors: &mut E) -> io::Result<u8>
    ensures bounded { IfOk result (λ status. status ≤ FAULT) }
    ensures ended { IfOk result (StatusEnds R.Opens F.remaining R.Reaches S.contents S.remaining
        (HasFailed O.Fails) format (map (λ name. name.now) names.now) (O.contents output.old) (O.contents output.new)) }
{
    if names.is_empty() {
        return end_refused(None, ControlFault::NoControl, errors);
    }
    let form = StatusForm {
        format,
        is_several: 1 < names.len(),
    };
    let mut status = CLEAN;
    let mut rest = names;
    while let [name, others @ ..] = rest {
        let Some(one) = status_at(rt, name, form, output, errors)? else {
            return Ok(FAULT);
        };
        status = status.max(one);
        rest = others;
    }
    Ok(status)
}

/// Prints the status of the runs with the settings of files, one after the other. Returns the status of the program.
///
/// `ended`: the answers are printed in the order of the files, each table of several after the name of its file. An answer
/// is that of the run that was reached at the control path of the settings of its file, to a request of the order's form.
/// For a run without an answer nothing is printed, and the status is 1. After a failed write nothing more is said.
pub fn run_status<
    S: Read + Write + Drop,
    F: Source + Drop,
    R: AllocGlobal + FileOpener<F> + RunReacher<S>,
    O: Sink,
    E: Sink,
>(rt: &R, order: StatusOrder<'_, '_>, output: &mut O, errors: &mut E) -> io::Result<u8>
    ensures bounded { IfOk result (λ status. status ≤ FAULT) }
    ensures ended { IfOk result (StatusRuns R.Opens F.remaining R.Reaches S.contents S.remaining
        (HasFailed O.Fails) order.entry (O.contents output.old) (O.contents output.new)) }
{
    match order.settings {
        Some(names) => status_of_each(rt, names, order.format, output, errors),
        None => end_refused(None, ControlFault::NoControl, errors),
    }
}

/// Stops the run with this control socket, or a session of it, and waits until it is over. Returns the status of the
/// program.
fn stop_of<S: Read + Write + Drop, R: AllocGlobal + RunReacher<S>, E: Sink>(
    rt: &R,
    control: &Option<ControlPath>,
    order: StopOrder<'_>,
    errors: &mut E,
) -> io::Result<u8>
    ensures bounded { IfOk result (λ status. status ≤ FAULT) }
    ensures stopped { IfOk result (λ status. ((status ≡ CLEAN) × ReachedAt R.Reaches control.now
        (EndsAfter S.contents S.remaining order.entry.request)) ⊎ (status ≡ FAULT)) }
{
    let Some(path) = control else {
        return end_refused(None, ControlFault::NoControl, errors);
    };
    match stop_run(rt, path, order) {
        Ok(()) => Ok(CLEAN),
        Err(fault) => end_refused(None, ControlFault::Request(path, fault), errors),
    }
}

/// Stops the run with the settings of a file, or a session of it, and waits until it is over. Returns the status of the
/// program. Nothing is written to the output.
///
/// `stopped`: the status is 0 only if the run was reached at the control path of the settings of the order's file, the
/// request of the order was sent over that stream, and then came the line `stopping` and the end (`StopRuns`). Otherwise it
/// is 1.
///
/// Not said: why a stop was not carried out.
pub fn run_stop<
    S: Read + Write + Drop,
    F: Source + Drop,
    R: AllocGlobal + FileOpener<F> + RunReacher<S>,
    E: Sink,
>(rt: &R, order: StopOrder<'_>, errors: &mut E) -> io::Result<u8>
    ensures bounded { IfOk result (λ status. status ≤ FAULT) }
    ensures stopped { IfOk result (StopRuns R.Opens F.remaining R.Reaches S.contents S.remaining
        order.entry) }
{
    match settings_at(rt, order.settings) {
        Ok(settings) => stop_of(rt, &settings.control, order, errors),
        Err(fault) => end_refused(None, ControlFault::Settings(fault), errors),
    }
}
