//! The counters of a run in the text format of Prometheus: of all sessions, also of those that ended.

ghost use Rattle.std.specs.Prelude.{◌≡◌, codes};
ghost use Rattle.daide_status.specs.Pieces.{AppendsOrRefused};
ghost use Rattle.daide_status.specs.Totals.{end_metric, end_sample, end_samples, frame_metric};
ghost use Rattle.daide_status.specs.Totals.{frame_totals, labelled_sample, lost_metrics, side_total, side_totals, total_metrics};

use crate::counts::{EndCause, EndCounts, RunCounts};
use crate::metrics::{put_metric, put_run_metric};
use daide_causes::Growth;
use daide_protocol::{Counter, SideCounts};
use std::alloc::AllocError;

/// Appends a sample of the run with labels.
fn put_labelled<A: Growth>(
    name: &str,
    labels: &str,
    value: u64,
    out: &mut Vec<u8, A>,
) -> Result<(), AllocError>
    ensures { AppendsOrRefused A.Refuses out.old out.new result (labelled_sample name.now labels.now value) }
{
    A::append_text(
        out,
        format_args_nl!("daide_gate_{name}{{{labels}}} {value}"),
    )
}

/// Appends the number of sessions that ended by a cause.
fn put_end_sample<A: Growth>(
    cause: EndCause,
    count: u64,
    out: &mut Vec<u8, A>,
) -> Result<(), AllocError>
    ensures { AppendsOrRefused A.Refuses out.old out.new result (end_sample cause count) }
{
    let name = cause.name();
    A::append_text(
        out,
        format_args_nl!("daide_gate_ended_total{{cause=\"{name}\"}} {count}"),
    )
}

/// Appends the numbers of sessions that ended, by cause.
fn put_end_samples<A: Growth>(ends: &EndCounts, out: &mut Vec<u8, A>) -> Result<(), AllocError>
    ensures { AppendsOrRefused A.Refuses out.old out.new result (end_samples ends.now) }
{
    for cause in EndCause::ALL {
        put_end_sample(cause, ends.of(cause), out)?;
    }
    Ok(())
}

/// Appends the metric of the sessions that ended.
fn put_ends<A: Growth>(ends: &EndCounts, out: &mut Vec<u8, A>) -> Result<(), AllocError>
    ensures { AppendsOrRefused A.Refuses out.old out.new result (end_metric ends.now) }
{
    let help = "Sessions that ended, by cause.";
    put_metric("ended_total", "counter", help, out)?;
    put_end_samples(ends, out)
}

/// Appends the number of frames from a side that a counter of this name counts.
fn put_side_total<A: Growth>(
    side: &str,
    name: &str,
    count: u64,
    out: &mut Vec<u8, A>,
) -> Result<(), AllocError>
    ensures { AppendsOrRefused A.Refuses out.old out.new result (side_total side.now name.now count) }
{
    A::append_text(
        out,
        format_args_nl!("daide_gate_frames_total{{side=\"{side}\",result=\"{name}\"}} {count}"),
    )
}

/// Appends the frames from a side, by what was done with them.
fn put_side_totals<A: Growth>(
    side: &str,
    counts: &SideCounts,
    out: &mut Vec<u8, A>,
) -> Result<(), AllocError>
    ensures { AppendsOrRefused A.Refuses out.old out.new result (side_totals side.now counts.now) }
{
    for counter in Counter::ALL {
        put_side_total(side, counter.name(), counts.of(counter), out)?;
    }
    Ok(())
}

/// Appends the frames of all sessions, and the faults.
fn put_frame_totals<A: Growth>(counts: &RunCounts, out: &mut Vec<u8, A>) -> Result<(), AllocError>
    ensures { AppendsOrRefused A.Refuses out.old out.new result (frame_totals counts.now) }
{
    put_side_totals("bot", &counts.bot, out)?;
    put_side_totals("server", &counts.server, out)?;
    put_labelled("frames_total", "result=\"fault\"", counts.faults, out)
}

/// Appends the metric of the frames of all sessions.
fn put_frame_metric<A: Growth>(counts: &RunCounts, out: &mut Vec<u8, A>) -> Result<(), AllocError>
    ensures { AppendsOrRefused A.Refuses out.old out.new result (frame_metric counts.now) }
{
    let help =
        "Frames of all sessions, also of those that ended, by side and by what was done with them.";
    put_metric("frames_total", "counter", help, out)?;
    put_frame_totals(counts, out)
}

/// Appends the metrics of the connections that got no session.
fn put_lost<A: Growth>(counts: &RunCounts, out: &mut Vec<u8, A>) -> Result<(), AllocError>
    ensures { AppendsOrRefused A.Refuses out.old out.new result (lost_metrics counts.now) }
{
    let declined = "Connections that were closed at once, since their bot may not come.";
    put_run_metric("declined_total", "counter", declined, counts.declined, out)?;
    let dropped = "Connections that were accepted, and that the system could not follow.";
    put_run_metric("dropped_total", "counter", dropped, counts.dropped, out)
}

/// Appends the counters of a run over all its sessions.
pub(crate) fn put_total_metrics<A: Growth>(
    counts: &RunCounts,
    out: &mut Vec<u8, A>,
) -> Result<(), AllocError>
    ensures { AppendsOrRefused A.Refuses out.old out.new result (total_metrics counts.now) }
{
    put_lost(counts, out)?;
    put_ends(&counts.ends, out)?;
    put_frame_metric(counts, out)
}
