//! The status in the text format of Prometheus: each metric with its help and its type, and then all its samples.

ghost use Rattle.std.specs.Prelude.{◌≡◌, ◌+◌, ◌++◌, [], codes};
ghost use Rattle.daide_status.specs.Metrics.{count_labels, count_sample, side_samples, flag_number, frame_samples, idle_samples, idle_sample, level_sample};
ghost use Rattle.daide_status.specs.Metrics.{accepted_bots, admission_metrics, presence_metrics, server_metrics, server_up_sample};
ghost use Rattle.daide_status.specs.Metrics.{metric_head, metrics_head, phase_label, run_metric, session_sample, waiting_samples};
ghost use Rattle.daide_status.specs.Pieces.{AppendsOrRefused, quoted_name};
ghost use Rattle.daide_status.specs.Metrics.{byte_samples, session_counters, sample_front, name_label, power_label, run_sample, sample_end, session_metric, session_metrics, waiting_metrics};

use crate::pieces::{put_quoted_name, sum};
use crate::snapshot::{RunStatus, ServerState, ServerStatus, SessionRow};
use daide_causes::Growth;
use daide_protocol::{BotName, Counter, Phase, Power, SideCounts};
use std::alloc::{AllocError, Allocator};

/// The samples of all sessions, by metric, since a metric has all its samples together.
#[derive(Drop)]
pub(crate) struct Samples<A: Allocator> {
    /// The frames of each session, by what was done with them.
    pub frames: Vec<u8, A>,
    /// The bytes of each session, by side and by direction.
    pub bytes: Vec<u8, A>,
    /// The bytes that wait for each side.
    pub waiting: Vec<u8, A>,
    /// The seconds since each side's last byte.
    pub idle: Vec<u8, A>,
    /// The level of each session.
    pub levels: Vec<u8, A>,
}

impl<A: Allocator + Copy> Samples<A> {
    /// Returns no samples.
    pub(crate) fn new(alloc: A) -> Samples<A>
        ensures frames { result.frames.items ≡ [] }
        ensures bytes { result.bytes.items ≡ [] }
        ensures waiting { result.waiting.items ≡ [] }
        ensures idle { result.idle.items ≡ [] }
        ensures levels { result.levels.items ≡ [] }
    {
        Samples {
            frames: Vec::new(alloc),
            bytes: Vec::new(alloc),
            waiting: Vec::new(alloc),
            idle: Vec::new(alloc),
            levels: Vec::new(alloc),
        }
    }
}

/// Appends the help and the type of a metric.
pub(crate) fn put_metric<A: Growth>(
    name: &str,
    kind: &str,
    help: &str,
    out: &mut Vec<u8, A>,
) -> Result<(), AllocError>
    ensures { AppendsOrRefused A.Refuses out.old out.new result (metric_head name.now kind.now help.now) }
{
    A::append_text(
        out,
        format_args!("# HELP daide_gate_{name} {help}\n# TYPE daide_gate_{name} {kind}\n"),
    )
}

/// Appends the sample of a metric of the run.
fn put_value<A: Growth>(name: &str, value: u64, out: &mut Vec<u8, A>) -> Result<(), AllocError>
    ensures { AppendsOrRefused A.Refuses out.old out.new result (run_sample name.now value) }
{
    A::append_text(out, format_args_nl!("daide_gate_{name} {value}"))
}

/// Appends a metric of the run, with its one sample.
pub(crate) fn put_run_metric<A: Growth>(
    name: &str,
    kind: &str,
    help: &str,
    value: u64,
    out: &mut Vec<u8, A>,
) -> Result<(), AllocError>
    ensures { AppendsOrRefused A.Refuses out.old out.new result (run_metric name.now kind.now help.now value) }
{
    put_metric(name, kind, help, out)?;
    put_value(name, value, out)
}

/// Appends whether bots may wait, whether the run is stopping, and its seconds.
fn put_state<A: Growth>(run: &RunStatus, out: &mut Vec<u8, A>) -> Result<(), AllocError>
    ensures { AppendsOrRefused A.Refuses out.old out.new result (waiting_metrics run.now) }
{
    put_run_metric(
        "bots_may_wait",
        "gauge",
        "Whether bots may wait for a place.",
        run.has_waiting as u64,
        out,
    )?;
    put_run_metric(
        "stopping",
        "gauge",
        "Whether the run accepts no further bot.",
        run.is_stopping as u64,
        out,
    )?;
    put_run_metric(
        "up_seconds",
        "gauge",
        "Seconds since the run began.",
        run.seconds,
        out,
    )
}

/// Appends that the run answers, and which sessions it has.
fn put_presence<A: Growth>(run: &RunStatus, out: &mut Vec<u8, A>) -> Result<(), AllocError>
    ensures { AppendsOrRefused A.Refuses out.old out.new result (presence_metrics run.now) }
{
    put_run_metric("up", "gauge", "Whether the run answers.", 1, out)?;
    put_run_metric(
        "sessions",
        "gauge",
        "Sessions that are open.",
        run.open as u64,
        out,
    )?;
    put_run_metric(
        "connecting",
        "gauge",
        "Bots that wait for a connection to the server.",
        run.connecting as u64,
        out,
    )
}

/// Returns the number of bots that were accepted.
fn accepted_bots(run: &RunStatus) -> u64
    ensures { result ≡ accepted_bots run.now }
{
    run.open as u64 + run.connecting as u64 + run.served as u64 + run.unreached as u64
}

/// Appends the numbers of bots that were accepted, served, and not served since the server could not be reached.
fn put_admissions<A: Growth>(run: &RunStatus, out: &mut Vec<u8, A>) -> Result<(), AllocError>
    ensures { AppendsOrRefused A.Refuses out.old out.new result (admission_metrics run.now) }
{
    put_run_metric(
        "accepted_total",
        "counter",
        "Bots that were accepted.",
        accepted_bots(run),
        out,
    )?;
    put_run_metric(
        "served_total",
        "counter",
        "Sessions that are over.",
        run.served as u64,
        out,
    )?;
    put_run_metric(
        "unreached_total",
        "counter",
        "Bots for which the server could not be reached.",
        run.unreached as u64,
        out,
    )
}

/// Appends whether the last connect reached the server; nothing before the first.
fn put_server_up<A: Growth>(state: ServerState, out: &mut Vec<u8, A>) -> Result<(), AllocError>
    ensures { AppendsOrRefused A.Refuses out.old out.new result (server_up_sample state) }
{
    match state {
        ServerState::Untried => Ok(()),
        ServerState::Up => put_value("server_up", 1, out),
        ServerState::Away => put_value("server_up", 0, out),
    }
}

/// Appends the state of the server, and the seconds since it began.
fn put_server<A: Growth>(server: &ServerStatus, out: &mut Vec<u8, A>) -> Result<(), AllocError>
    ensures { AppendsOrRefused A.Refuses out.old out.new result (server_metrics server.now) }
{
    let up = "Whether the last connect to the server succeeded. No sample before the first.";
    put_metric("server_up", "gauge", up, out)?;
    put_server_up(server.state, out)?;
    let since =
        "Seconds since the first connect with this result; before any connect, since the run began.";
    put_run_metric("server_state_seconds", "gauge", since, server.seconds, out)
}

/// Appends the metrics of the run, but for its counters over all sessions.
pub(crate) fn put_metrics_head<A: Growth>(
    run: &RunStatus,
    out: &mut Vec<u8, A>,
) -> Result<(), AllocError>
    ensures { AppendsOrRefused A.Refuses out.old out.new result (metrics_head run.now) }
{
    put_presence(run, out)?;
    put_admissions(run, out)?;
    put_state(run, out)?;
    put_server(&run.server, out)
}

/// Appends a sample of a session up to its labels after the session's own.
fn put_sample_front<A: Growth>(
    name: &str,
    row: &SessionRow,
    out: &mut Vec<u8, A>,
) -> Result<(), AllocError>
    ensures { AppendsOrRefused A.Refuses out.old out.new result (sample_front name.now row.now) }
{
    let number = row.number;
    let bot = row.bot;
    A::append_text(
        out,
        format_args!("daide_gate_{name}{{session=\"{number}\",bot=\"{bot}\","),
    )
}

/// Appends the end of a sample.
fn put_sample_end<A: Growth>(value: u128, out: &mut Vec<u8, A>) -> Result<(), AllocError>
    ensures { AppendsOrRefused A.Refuses out.old out.new result (sample_end value) }
{
    A::append_text(out, format_args_nl!("}} {value}"))
}

/// Appends a sample of a session.
#[tactic(auto, unfolding(crate::specs::Metrics::session_sample))]
fn put_sample<A: Growth>(
    name: &str,
    row: &SessionRow,
    label: &str,
    value: u128,
    out: &mut Vec<u8, A>,
) -> Result<(), AllocError>
    ensures { AppendsOrRefused A.Refuses out.old out.new result (session_sample name.now row.now label.now value) }
{
    put_sample_front(name, row, out)?;
    A::append(out, label.as_bytes())?;
    put_sample_end(value, out)
}

/// Appends the labels of a count: its side, and the name of its counter.
#[tactic(auto, unfolding(crate::specs::Metrics::count_labels))]
fn put_count_labels<A: Growth>(
    side: &str,
    name: &str,
    out: &mut Vec<u8, A>,
) -> Result<(), AllocError>
    ensures { AppendsOrRefused A.Refuses out.old out.new result (count_labels side.now name.now) }
{
    A::append_text(out, format_args!("side=\"{side}\",result=\"{name}\""))
}

/// Appends the number of frames from a side that a counter of this name counts.
fn put_count<A: Growth>(
    row: &SessionRow,
    side: &str,
    name: &str,
    count: u64,
    out: &mut Vec<u8, A>,
) -> Result<(), AllocError>
    ensures { AppendsOrRefused A.Refuses out.old out.new result (count_sample row.now side.now name.now count) }
{
    put_sample_front("session_frames_total", row, out)?;
    put_count_labels(side, name, out)?;
    put_sample_end(count as u128, out)
}

/// Appends the frames from a side, by what was done with them.
fn put_side_frames<A: Growth>(
    row: &SessionRow,
    side: &str,
    counts: &SideCounts,
    out: &mut Vec<u8, A>,
) -> Result<(), AllocError>
    ensures { AppendsOrRefused A.Refuses out.old out.new result (side_samples row.now side.now counts.now) }
{
    for counter in Counter::ALL {
        put_count(row, side, counter.name(), counts.of(counter), out)?;
    }
    Ok(())
}

/// Appends the frames of a session, by side and by what was done with them, and its faults.
pub(crate) fn put_frames<A: Growth>(
    row: &SessionRow,
    out: &mut Vec<u8, A>,
) -> Result<(), AllocError>
    ensures { AppendsOrRefused A.Refuses out.old out.new result (frame_samples row.now) }
{
    put_side_frames(row, "bot", &row.account.bot, out)?;
    put_side_frames(row, "server", &row.account.server, out)?;
    let faults = row.account.faults as u128;
    put_sample("session_frames_total", row, "result=\"fault\"", faults, out)
}

/// Appends the number of bytes with this side and this direction.
fn put_byte_count<A: Growth>(
    row: &SessionRow,
    label: &str,
    count: u64,
    out: &mut Vec<u8, A>,
) -> Result<(), AllocError>
    ensures { AppendsOrRefused A.Refuses out.old out.new result
        (session_sample (codes "session_bytes_total") row.now label.now count) }
{
    put_sample("session_bytes_total", row, label, count as u128, out)
}

/// Appends the bytes received from each side, and those sent to each.
pub(crate) fn put_bytes<A: Growth>(row: &SessionRow, out: &mut Vec<u8, A>) -> Result<(), AllocError>
    ensures { AppendsOrRefused A.Refuses out.old out.new result (byte_samples row.now) }
{
    let (from_bot, from_server) = (row.received_from_bot, row.received_from_server);
    put_byte_count(row, "side=\"bot\",direction=\"received\"", from_bot, out)?;
    put_byte_count(
        row,
        "side=\"server\",direction=\"received\"",
        from_server,
        out,
    )?;
    let (to_bot, to_server) = (row.sent_to_bot, row.sent_to_server);
    put_byte_count(row, "side=\"bot\",direction=\"sent\"", to_bot, out)?;
    put_byte_count(row, "side=\"server\",direction=\"sent\"", to_server, out)
}

/// Appends the bytes that wait for each side, in the session and in the side's socket.
pub(crate) fn put_waiting<A: Growth>(
    row: &SessionRow,
    out: &mut Vec<u8, A>,
) -> Result<(), AllocError>
    ensures { AppendsOrRefused A.Refuses out.old out.new result (waiting_samples row.now) }
{
    let to_bot = sum(row.queued_to_bot, row.buffered_to_bot);
    let to_server = sum(row.queued_to_server, row.buffered_to_server);
    put_sample("session_waiting_bytes", row, "side=\"bot\"", to_bot, out)?;
    put_sample(
        "session_waiting_bytes",
        row,
        "side=\"server\"",
        to_server,
        out,
    )
}

/// Appends the seconds since a side's last byte, if it has sent one.
fn put_idle<A: Growth>(
    row: &SessionRow,
    label: &str,
    seconds: Option<u64>,
    out: &mut Vec<u8, A>,
) -> Result<(), AllocError>
    ensures { AppendsOrRefused A.Refuses out.old out.new result (idle_sample row.now label.now seconds) }
{
    match seconds {
        Some(seconds) => put_sample("session_idle_seconds", row, label, seconds as u128, out),
        None => Ok(()),
    }
}

/// Appends the seconds since each side's last byte.
pub(crate) fn put_silence<A: Growth>(
    row: &SessionRow,
    out: &mut Vec<u8, A>,
) -> Result<(), AllocError>
    ensures { AppendsOrRefused A.Refuses out.old out.new result (idle_samples row.now) }
{
    put_idle(row, "side=\"bot\"", row.bot_idle, out)?;
    put_idle(row, "side=\"server\"", row.server_idle, out)
}

/// Returns the label of a phase.
fn phase_label(phase: Phase) -> &'static str
    ensures { result.now ≡ phase_label phase }
{
    match phase {
        Phase::WaitIm => "phase=\"wait IM\"",
        Phase::WaitRm => "phase=\"wait RM\"",
        Phase::Open => "phase=\"open\"",
        Phase::Over => "phase=\"over\"",
    }
}

/// Appends the label of a name that is known.
fn put_known_name<A: Growth>(name: &BotName, out: &mut Vec<u8, A>) -> Result<(), AllocError>
    ensures { AppendsOrRefused A.Refuses out.old out.new result (codes ",name=" ++ quoted_name name.now) }
{
    A::append(out, b",name=")?;
    put_quoted_name(name, out)
}

/// Appends the label of a bot's name, if the bot has said one.
fn put_name_label<A: Growth>(name: &BotName, out: &mut Vec<u8, A>) -> Result<(), AllocError>
    ensures { AppendsOrRefused A.Refuses out.old out.new result (name_label name.now) }
{
    match name {
        BotName::Unknown => Ok(()),
        BotName::Nme(_) => put_known_name(name, out),
        BotName::Iam(_) => put_known_name(name, out),
    }
}

/// Appends the label of a bot's power, if the server has said one.
fn put_power_label<A: Growth>(power: Option<Power>, out: &mut Vec<u8, A>) -> Result<(), AllocError>
    ensures { AppendsOrRefused A.Refuses out.old out.new result (power_label power) }
{
    match power {
        None => Ok(()),
        Some(power) => A::append_text(out, format_args!(",power=\"{power}\"")),
    }
}

/// Appends the level of a session, with its phase, its bot's name and its power.
pub(crate) fn put_level<A: Growth>(row: &SessionRow, out: &mut Vec<u8, A>) -> Result<(), AllocError>
    ensures { AppendsOrRefused A.Refuses out.old out.new result (level_sample row.now) }
{
    put_sample_front("session_level", row, out)?;
    A::append(out, phase_label(row.phase).as_bytes())?;
    put_name_label(&row.account.name, out)?;
    put_power_label(row.account.power, out)?;
    put_sample_end(row.level.number() as u128, out)
}

/// Appends a metric of the sessions with all its samples.
fn put_session_metric<A: Growth>(
    name: &str,
    kind: &str,
    help: &str,
    samples: &Vec<u8, A>,
    out: &mut Vec<u8, A>,
) -> Result<(), AllocError>
    ensures { AppendsOrRefused A.Refuses out.old out.new result
        (session_metric name.now kind.now help.now samples.now.items) }
{
    put_metric(name, kind, help, out)?;
    A::append(out, samples.as_slice())
}

/// Appends the counters of the sessions, each with all its samples.
fn put_counters<A: Growth>(samples: &Samples<A>, out: &mut Vec<u8, A>) -> Result<(), AllocError>
    ensures { AppendsOrRefused A.Refuses out.old out.new result
        (session_counters samples.now.frames.items samples.now.bytes.items) }
{
    let done = "Frames of a session, by side and by what was done with them.";
    put_session_metric(
        "session_frames_total",
        "counter",
        done,
        &samples.frames,
        out,
    )?;
    let bytes = "Bytes of a session, by side and by direction.";
    put_session_metric("session_bytes_total", "counter", bytes, &samples.bytes, out)
}

/// Appends the metrics of the sessions, each with all its samples.
pub(crate) fn put_session_metrics<A: Growth>(
    samples: &Samples<A>,
    out: &mut Vec<u8, A>,
) -> Result<(), AllocError>
    ensures { AppendsOrRefused A.Refuses out.old out.new result
        (session_metrics samples.now.frames.items samples.now.bytes.items samples.now.waiting.items
        samples.now.idle.items samples.now.levels.items) }
{
    put_counters(samples, out)?;
    let waiting = "Bytes that wait for a side.";
    put_session_metric(
        "session_waiting_bytes",
        "gauge",
        waiting,
        &samples.waiting,
        out,
    )?;
    let silence = "Seconds since the last byte from a side.";
    put_session_metric("session_idle_seconds", "gauge", silence, &samples.idle, out)?;
    let level = "The level of press of a session.";
    put_session_metric("session_level", "gauge", level, &samples.levels, out)
}
