//! The status in aligned columns. The line of a session has 60 bytes before its bot, if no number is longer than its
//! column.

ghost use Rattle.std.specs.Prelude.{◌≡◌, ◌++◌, codes};
ghost use Rattle.daide_protocol.specs.BotName.{name_text};
ghost use Rattle.daide_status.specs.Pieces.{AppendsOrRefused};
ghost use Rattle.daide_status.specs.Columns.{bot_cells, counter_width, ended_item, ended_items, ended_line, name_cell, no_sessions, open_cell, phase_cell, power_cell};
ghost use Rattle.daide_status.specs.Columns.{run_line, server_line, session_cells, side_cells, table_head, table_row, totals, waiting_cells};

use crate::counts::{EndCause, EndCounts, RunCounts};
use crate::pieces::{put_cell, put_if, put_name, put_or_dash, sum};
use crate::snapshot::{RunStatus, ServerStatus, SessionRow};
use daide_causes::Growth;
use daide_grammar::Level;
use daide_protocol::{BotName, Counter, Phase, Power, SideCounts};
use std::alloc::AllocError;

/// Returns the phase of an open session with its level, in seven bytes.
fn open_cell(level: Level) -> &'static str
    ensures { result.now ≡ open_cell level }
{
    match level {
        Level::L0 => "open 0 ",
        Level::L10 => "open 10",
        Level::L20 => "open 20",
        Level::L30 => "open 30",
        Level::L40 => "open 40",
        Level::L50 => "open 50",
        Level::L60 => "open 60",
    }
}

/// Returns the phase of a session in seven bytes, for an open session with its level.
fn phase_cell(phase: Phase, level: Level) -> &'static str
    ensures { result.now ≡ phase_cell phase level }
{
    match phase {
        Phase::WaitIm => "wait IM",
        Phase::WaitRm => "wait RM",
        Phase::Open => open_cell(level),
        Phase::Over => "over   ",
    }
}

/// Appends the numbers of the run.
fn put_totals<A: Growth>(run: &RunStatus, out: &mut Vec<u8, A>) -> Result<(), AllocError>
    ensures { AppendsOrRefused A.Refuses out.old out.new result (totals run.now) }
{
    let RunStatus {
        open,
        connecting,
        served,
        unreached,
        seconds,
        ..
    } = *run;
    A::append_text(
        out,
        format_args!(
            "{open} open, {connecting} connecting, {served} served, {unreached} unreached, up {seconds} s"
        ),
    )
}

/// Appends the line of the run.
fn put_run_line<A: Growth>(run: &RunStatus, out: &mut Vec<u8, A>) -> Result<(), AllocError>
    ensures { AppendsOrRefused A.Refuses out.old out.new result (run_line run.now) }
{
    put_totals(run, out)?;
    put_if(run.has_waiting, "; bots may wait for a place", out)?;
    put_if(run.is_stopping, "; stopping", out)?;
    A::append(out, b"\n")
}

/// Appends the line of the server.
fn put_server_line<A: Growth>(server: &ServerStatus, out: &mut Vec<u8, A>) -> Result<(), AllocError>
    ensures { AppendsOrRefused A.Refuses out.old out.new result (server_line server.now) }
{
    let state = server.state.name();
    let seconds = server.seconds;
    let unreached = server.unreached;
    A::append_text(
        out,
        format_args_nl!("server {state} for {seconds} s, {unreached} unreached since"),
    )
}

/// Appends a number of sessions that ended, if it is not 0, and their cause.
fn put_ended_item<A: Growth>(
    cause: EndCause,
    count: u64,
    out: &mut Vec<u8, A>,
) -> Result<(), AllocError>
    ensures { AppendsOrRefused A.Refuses out.old out.new result (ended_item cause count) }
{
    if count == 0 {
        return Ok(());
    }
    let name = cause.name();
    A::append_text(out, format_args!(", {count} {name}"))
}

/// Appends the numbers of sessions that ended, by cause.
fn put_ended_items<A: Growth>(ends: &EndCounts, out: &mut Vec<u8, A>) -> Result<(), AllocError>
    ensures { AppendsOrRefused A.Refuses out.old out.new result (ended_items ends.now) }
{
    for cause in EndCause::ALL {
        put_ended_item(cause, ends.of(cause), out)?;
    }
    Ok(())
}

/// Appends the numbers of connections that got no session.
fn put_no_sessions<A: Growth>(counts: &RunCounts, out: &mut Vec<u8, A>) -> Result<(), AllocError>
    ensures { AppendsOrRefused A.Refuses out.old out.new result (no_sessions counts.now) }
{
    let RunCounts {
        declined,
        dropped,
        ..
    } = *counts;
    A::append_text(
        out,
        format_args!("ended: {declined} declined, {dropped} dropped"),
    )
}

/// Appends the line of what ended.
fn put_ended_line<A: Growth>(counts: &RunCounts, out: &mut Vec<u8, A>) -> Result<(), AllocError>
    ensures { AppendsOrRefused A.Refuses out.old out.new result (ended_line counts.now) }
{
    put_no_sessions(counts, out)?;
    put_ended_items(&counts.ends, out)?;
    A::append(out, b"\n")
}

/// Appends the lines before the first session.
pub(crate) fn put_table_head<A: Growth>(
    run: &RunStatus,
    out: &mut Vec<u8, A>,
) -> Result<(), AllocError>
    ensures { AppendsOrRefused A.Refuses out.old out.new result (table_head run.now) }
{
    put_run_line(run, out)?;
    put_server_line(&run.server, out)?;
    put_ended_line(&run.counts, out)?;
    A::append(
        out,
        b"                   from bot   from server     bytes for  bot\n   no phase   relay PRN HUH relay PRN HUH    bot server idle bot, its name and its power\n",
    )
}

/// Returns the width of the column of a counter.
fn counter_width(counter: Counter) -> usize
    ensures { result ≡ counter_width counter }
{
    match counter {
        Counter::Relayed => 5,
        Counter::Prn => 3,
        Counter::Huh => 3,
    }
}

/// Appends the counts of a side, each in its column.
fn put_side<A: Growth>(counts: &SideCounts, out: &mut Vec<u8, A>) -> Result<(), AllocError>
    ensures { AppendsOrRefused A.Refuses out.old out.new result (side_cells counts.now) }
{
    for counter in Counter::ALL {
        put_cell(counter_width(counter), counts.of(counter) as u128, out)?;
    }
    Ok(())
}

/// Appends a name that is known after a space.
fn put_known_name<A: Growth>(name: &BotName, out: &mut Vec<u8, A>) -> Result<(), AllocError>
    ensures { AppendsOrRefused A.Refuses out.old out.new result (codes " " ++ name_text name.now) }
{
    A::append(out, b" ")?;
    put_name(name, out)
}

/// Appends the name of a bot after its address.
fn put_name_cell<A: Growth>(name: &BotName, out: &mut Vec<u8, A>) -> Result<(), AllocError>
    ensures { AppendsOrRefused A.Refuses out.old out.new result (name_cell name.now) }
{
    match name {
        BotName::Unknown => Ok(()),
        BotName::Nme(_) => put_known_name(name, out),
        BotName::Iam(_) => put_known_name(name, out),
    }
}

/// Appends the power of a bot after its name.
fn put_power_cell<A: Growth>(power: Option<Power>, out: &mut Vec<u8, A>) -> Result<(), AllocError>
    ensures { AppendsOrRefused A.Refuses out.old out.new result (power_cell power) }
{
    match power {
        None => Ok(()),
        Some(power) => A::append_text(out, format_args!(" {power}")),
    }
}

/// Appends the bot of a session, and the end of its line.
fn put_bot<A: Growth>(row: &SessionRow, out: &mut Vec<u8, A>) -> Result<(), AllocError>
    ensures { AppendsOrRefused A.Refuses out.old out.new result (bot_cells row.now) }
{
    let bot = row.bot;
    A::append_text(out, format_args!(" {bot}"))?;
    put_name_cell(&row.account.name, out)?;
    put_power_cell(row.account.power, out)?;
    A::append(out, b"\n")
}

/// Appends the number of a session and its phase.
fn put_session_cells<A: Growth>(row: &SessionRow, out: &mut Vec<u8, A>) -> Result<(), AllocError>
    ensures { AppendsOrRefused A.Refuses out.old out.new result (session_cells row.now) }
{
    put_cell(4, row.number as u128, out)?;
    A::append(out, b" ")?;
    A::append(out, phase_cell(row.phase, row.level).as_bytes())
}

/// Appends the bytes that wait for each side, and the seconds since the bot's last byte.
fn put_waiting_cells<A: Growth>(row: &SessionRow, out: &mut Vec<u8, A>) -> Result<(), AllocError>
    ensures { AppendsOrRefused A.Refuses out.old out.new result (waiting_cells row.now) }
{
    put_cell(6, sum(row.queued_to_bot, row.buffered_to_bot), out)?;
    put_cell(6, sum(row.queued_to_server, row.buffered_to_server), out)?;
    put_or_dash(4, row.bot_idle, out)
}

/// Appends the line of a session.
pub(crate) fn put_table_row<A: Growth>(
    row: &SessionRow,
    out: &mut Vec<u8, A>,
) -> Result<(), AllocError>
    ensures { AppendsOrRefused A.Refuses out.old out.new result (table_row row.now) }
{
    put_session_cells(row, out)?;
    put_side(&row.account.bot, out)?;
    put_side(&row.account.server, out)?;
    put_waiting_cells(row, out)?;
    put_bot(row, out)
}
