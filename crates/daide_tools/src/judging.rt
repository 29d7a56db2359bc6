//! `settings`: the faults of a file of settings, or its values and what its run needs.

ghost use Rattle.std.specs.Prelude.{◌≡◌, ◌≤◌, ◌++◌, IfOk, IfErr, OnErr, OnOk};
ghost use Rattle.daide_causes.specs.Causes.{HasFailed, WasRefused};
ghost use Rattle.daide_driver.specs.Hub.{session_bound};
ghost use Rattle.daide_event_loop.specs.Served.{run_limits};
ghost use Rattle.daide_settings.specs.Causes.{IsJudgeCause};
ghost use Rattle.daide_tools.specs.Endings.{AreSettingsRefused, EndsJudged, IsJudgement, JudgesText, PrintsJudgement};
ghost use Rattle.daide_tools.specs.Endings.{SettingsEnds, SettingsRuns};
ghost use Rattle.daide_tools.specs.Needs.{control_line, descriptors, descriptors_line, descriptors_text, memory_line, needs_text};

use crate::faults::{CLEAN, FAULT, print_fault};
use crate::opening::FileOpener;
use crate::settings_file::{SettingsFileFault, read_text};
use crate::trying::try_settings;
use daide_causes::{Growth, Sink, Source};
use daide_command_line::arguments::SettingsOrder;
use daide_settings::{
    JudgeFault, Settings, SettingsError, SettingsMemory, judge_settings, read_settings,
};
use daide_sockets::control_listener::FolderLock;
use daide_sockets::lingering_close::MOST_CLOSING;
use std::alloc::AllocError;
use std::io;
use std::io::{Read, Write};
use std::net::Net;
use std::rt::Clock;
use thiserror::Error;

/// The descriptors of a run without a session: its three streams, the listener, the poller, which takes two, and one that an
/// accept of a bot leaves free.
const OWN_DESCRIPTORS: usize = 7;

/// The descriptors of a control socket: its listener and its eight connections.
const CONTROL_DESCRIPTORS: usize = 9;

/// Why settings were not judged.
#[derive(Debug, Drop, Error)]
pub(crate) enum SettingsFault<'a> {
    /// The file cannot be read, is too long or is not UTF-8, or the allocator refused its text.
    #[error("{0}")]
    Text(SettingsFileFault<'a>),
    /// The output failed, or the allocator refused the settings.
    #[error("{0}")]
    Judge(JudgeFault),
}

/// Returns the most bytes that the bodies, stack entries and queued frames of a session take.
fn session_bytes(settings: &Settings) -> usize
    ensures { result ≡ session_bound (run_limits settings.now) }
{
    let body = settings.config.max_body;
    let depth = settings.config.max_depth;
    2 * body as usize + 16 * depth as usize + 96
}

/// Returns the most descriptors of a run with this many sessions at once.
fn descriptors(sessions: usize, has_control: bool) -> usize
    ensures { result ≡ descriptors sessions has_control }
{
    sessions
        .saturating_mul(2)
        .saturating_add(OWN_DESCRIPTORS + MOST_CLOSING)
        .saturating_add(if has_control { CONTROL_DESCRIPTORS } else { 0 })
}

/// Writes the line with the number of descriptors that a run needs.
fn write_descriptor_count<A: Growth>(
    descriptors: usize,
    text: &mut Vec<u8, A>,
) -> Result<(), AllocError>
    ensures written { OnOk result (text.new.items ≡ text.old.items ++ descriptors_line descriptors) }
    ensures refused { OnErr result (WasRefused A.Refuses) }
{
    A::append_text(
        text,
        format_args_nl!(
            "# descriptors: at most {descriptors}: {OWN_DESCRIPTORS}, 2 a session, and 1 for each of {MOST_CLOSING} sockets that close;"
        ),
    )
}

/// Writes the line of a control socket, if there is one.
fn write_control_need<A: Growth>(has_control: bool, text: &mut Vec<u8, A>) -> Result<(), AllocError>
    ensures written { OnOk result (text.new.items ≡ text.old.items ++ control_line has_control) }
    ensures refused { OnErr result (WasRefused A.Refuses) }
{
    if !has_control {
        return Ok(());
    }
    A::append_text(
        text,
        format_args_nl!("#   {CONTROL_DESCRIPTORS} of these are for the control socket;"),
    )
}

/// Writes the descriptors that a run needs, as comments of TOML.
fn write_descriptors<A: Growth>(
    sessions: usize,
    has_control: bool,
    text: &mut Vec<u8, A>,
) -> Result<(), AllocError>
    ensures written { OnOk result (text.new.items ≡ text.old.items ++ descriptors_text sessions has_control) }
    ensures refused { OnErr result (WasRefused A.Refuses) }
{
    let most = descriptors(sessions, has_control);
    write_descriptor_count(most, text)?;
    write_control_need(has_control, text)?;
    A::append(text, b"#   1 a session more with --record\n")
}

/// Writes the bound of the memory of sessions, of which one has this bound, as a comment of TOML.
fn write_memory<A: Growth>(
    one: usize,
    count: usize,
    text: &mut Vec<u8, A>,
) -> Result<(), AllocError>
    ensures written { OnOk result (text.new.items ≡ text.old.items ++ memory_line one count) }
    ensures refused { OnErr result (WasRefused A.Refuses) }
{
    let all = one.saturating_mul(count);
    A::append_text(
        text,
        format_args_nl!(
            "# memory: at most {all} bytes for bodies, brackets and queued frames, {one} for each of {count} sessions;"
        ),
    )
}

/// Writes the memory and the descriptors that a run needs, as comments of TOML; without settings nothing.
fn write_needs<A: Growth>(
    settings: &Option<Settings>,
    text: &mut Vec<u8, A>,
) -> Result<(), AllocError>
    ensures written { OnOk result (text.new.items ≡ text.old.items ++ needs_text settings.now) }
    ensures refused { OnErr result (WasRefused A.Refuses) }
{
    let Some(settings) = settings else {
        return Ok(());
    };
    write_memory(session_bytes(settings), settings.max_sessions, text)?;
    A::append(
        text,
        b"#   about 71000 a session for its other fields and its buffers, and 3 MB for the program\n",
    )?;
    write_descriptors(settings.max_sessions, settings.control.is_some(), text)
}

/// Returns the settings of a text, if it has no fault. Fails only if memory is refused.
fn settings_of<A: SettingsMemory>(alloc: A, text: &str) -> Result<Option<Settings>, AllocError>
    ensures judged { IfOk result (IsJudgement text.now) }
    ensures refused { OnErr result (AreSettingsRefused A.Memory.Refuses A.SettingsMemory.Refuses) }
{
    match read_settings(alloc, text) {
        Ok(settings) => Ok(Some(settings)),
        Err(SettingsError::Memory) => Err(AllocError),
        Err(_) => Ok(None),
    }
}

/// Judges a text of settings, and prints its report and what a run needs. Returns the settings if the text has no fault.
/// All memory is allocated before anything is written.
fn judge_text<A: SettingsMemory, O: Sink>(
    alloc: A,
    text: &str,
    output: &mut O,
) -> Result<Option<Settings>, JudgeFault>
    ensures judged { IfOk result (IsJudgement text.now) }
    ensures printed { IfOk result (λ settings. PrintsJudgement text.now settings (O.contents output.old)
        (O.contents output.new)) }
    ensures kept { IfErr result (λ fault. fault ≡ JudgeFault.Memory → output.new ≡ output.old) }
    ensures caused { IfErr result (IsJudgeCause (AreSettingsRefused A.Memory.Refuses A.SettingsMemory.Refuses)
        (HasFailed O.Fails)) }
{
    let Ok(settings) = settings_of(alloc, text) else {
        return Err(JudgeFault::Memory);
    };
    let mut needs = Vec::new(alloc);
    if let Err(AllocError) = write_needs(&settings, &mut needs) {
        return Err(JudgeFault::Memory);
    }
    judge_settings(alloc, text, output)?;
    match output.write_whole(needs.as_slice()) {
        Ok(()) => Ok(settings),
        Err(_) => Err(JudgeFault::Write),
    }
}

/// Judges the settings in a reader, which is the file of this name, and returns them if they have no fault.
fn judge_input<'a, A: SettingsMemory, I: Read, O: Sink>(
    alloc: A,
    path: &'a str,
    input: &mut I,
    output: &mut O,
) -> Result<Option<Settings>, SettingsFault<'a>>
    ensures { JudgesText (AreSettingsRefused A.Memory.Refuses A.SettingsMemory.Refuses) (HasFailed O.Fails)
        (I.remaining input.old) (O.contents output.old) (O.contents output.new) result }
{
    match read_text(alloc, path, input) {
        Ok(text) => match judge_text(alloc, text.as_str(), output) {
            Ok(settings) => Ok(settings),
            Err(fault) => Err(SettingsFault::Judge(fault)),
        },
        Err(fault) => Err(SettingsFault::Text(fault)),
    }
}

/// Returns the status of a judgement. Reports a fault on standard error. If that is ordered, the addresses of settings
/// without a fault are tried.
fn end_judged<R: AllocGlobal + FolderLock + Clock + Net, O: Sink, E: Write>(
    rt: &R,
    answer: Result<Option<Settings>, SettingsFault<'_>>,
    is_tried: bool,
    output: &mut O,
    errors: &mut E,
) -> io::Result<u8>
    ensures bounded { IfOk result (λ status. status ≤ FAULT) }
    ensures ended { IfOk result (EndsJudged (HasFailed O.Fails) answer.entry is_tried (O.contents output.old)
        (O.contents output.new)) }
{
    match answer {
        Ok(Some(settings)) if is_tried => try_settings(rt, &settings, output, errors),
        Ok(Some(_settings)) => Ok(CLEAN),
        Ok(None) => Ok(FAULT),
        Err(fault) => print_fault(errors, fault, FAULT),
    }
}

/// Judges the settings in a reader, which is the file of this order. Returns the status.
fn judge_read<
    A: SettingsMemory,
    R: AllocGlobal + FolderLock + Clock + Net,
    I: Read,
    O: Sink,
    E: Write,
>(
    alloc: A,
    rt: &R,
    order: SettingsOrder<'_>,
    input: &mut I,
    output: &mut O,
    errors: &mut E,
) -> io::Result<u8>
    ensures bounded { IfOk result (λ status. status ≤ FAULT) }
    ensures judged { IfOk result (SettingsEnds (AreSettingsRefused A.Memory.Refuses A.SettingsMemory.Refuses)
        (HasFailed O.Fails) order.entry.is_tried (I.remaining input.old) (O.contents output.old)
        (O.contents output.new)) }
{
    let answer = judge_input(alloc, order.path, input, output);
    end_judged(rt, answer, order.is_tried, output, errors)
}

/// Judges the settings of a name, and tries their addresses if that is ordered.
///
/// `judged`: the text is that of standard input for `-`, and for another name that of the file that was opened by it. Its
/// report is printed, and then what a run of its settings needs (`PrintsJudgement`). The status is that of the judgement.
/// Settings without a fault have another one only if memory was refused, if a write failed, or if their trial fails; a
/// comment is printed for each trial that passes. If the text can't be opened or read, the status is 1, and nothing is
/// written.
///
/// Not said: why an input cannot be read, or why a trial fails.
pub fn run_settings<
    A: SettingsMemory,
    F: Source + Drop,
    R: AllocGlobal + FileOpener<F> + FolderLock + Clock + Net,
    I: Read,
    O: Sink,
    E: Write,
>(
    alloc: A,
    rt: &R,
    order: SettingsOrder<'_>,
    input: &mut I,
    output: &mut O,
    errors: &mut E,
) -> io::Result<u8>
    ensures bounded { IfOk result (λ status. status ≤ FAULT) }
    ensures judged { IfOk result (SettingsRuns R.Opens F.remaining
        (AreSettingsRefused A.Memory.Refuses A.SettingsMemory.Refuses) (HasFailed O.Fails) order.entry
        (I.remaining input.old) (I.remaining input.new) (O.contents output.old) (O.contents output.new)) }
{
    if order.path == "-" {
        return judge_read(alloc, rt, order, input, output, errors);
    }
    match rt.open_input(order.path) {
        Ok(mut file) => judge_read(alloc, rt, order, &mut file, output, errors),
        Err(cause) => print_fault(
            errors,
            SettingsFileFault::Unreadable(order.path, cause),
            FAULT,
        ),
    }
}
