//! The status as one JSON document: the members of the run, and an array with an object for each session.

ghost use Rattle.daide_status.specs.Pieces.{AppendsOrRefused};
ghost use Rattle.daide_status.specs.Json.{json_counters, json_end, json_ended, json_ends, json_further, json_lost, json_server};
ghost use Rattle.daide_status.specs.Json.{json_counts, json_faults, json_head, json_identity, json_bytes, json_idle, json_waiting, json_name, json_port, json_power, json_row, json_run_counts, json_run_state, json_sides, json_session, name_or_null};

use crate::counts::{EndCause, EndCounts, RunCounts};
use crate::pieces::{phase_name, port_number, put_or_null, put_quoted_name};
use crate::snapshot::{RunStatus, ServerStatus, SessionRow};
use daide_causes::Growth;
use daide_frame::Side;
use daide_protocol::{Account, BotName, Counter, Power, SideCounts};
use std::alloc::AllocError;

/// All causes but the first, in their order.
const OTHER_CAUSES: [EndCause; 19] = [
    EndCause::Ended(Side::Server),
    EndCause::Lost(Side::Bot),
    EndCause::Lost(Side::Server),
    EndCause::Final(Side::Bot),
    EndCause::Final(Side::Server),
    EndCause::Error(Side::Bot),
    EndCause::Error(Side::Server),
    EndCause::Fault(Side::Bot),
    EndCause::Fault(Side::Server),
    EndCause::NoIm,
    EndCause::Stopped,
    EndCause::Silent(Side::Bot),
    EndCause::Silent(Side::Server),
    EndCause::Stalled(Side::Bot),
    EndCause::Stalled(Side::Server),
    EndCause::Refused(Side::Bot),
    EndCause::Refused(Side::Server),
    EndCause::TurnsSpent,
    EndCause::NoServer,
];

/// Appends the numbers of the run.
fn put_run_counts<A: Growth>(run: &RunStatus, out: &mut Vec<u8, A>) -> Result<(), AllocError>
    ensures { AppendsOrRefused A.Refuses out.old out.new result (json_run_counts run.now) }
{
    let RunStatus {
        open,
        connecting,
        served,
        unreached,
        ..
    } = *run;
    A::append_text(
        out,
        format_args!(
            "{{\"open\":{open},\"connecting\":{connecting},\"served\":{served},\"unreached\":{unreached}"
        ),
    )
}

/// Appends the flags of the run and its seconds.
fn put_run_state<A: Growth>(run: &RunStatus, out: &mut Vec<u8, A>) -> Result<(), AllocError>
    ensures { AppendsOrRefused A.Refuses out.old out.new result (json_run_state run.now) }
{
    let RunStatus {
        has_waiting,
        is_stopping,
        seconds,
        ..
    } = *run;
    A::append_text(
        out,
        format_args!(
            ",\"bots_may_wait\":{has_waiting},\"stopping\":{is_stopping},\"seconds\":{seconds}"
        ),
    )
}

/// Appends the state of the server, and the beginning of the array.
fn put_server_member<A: Growth>(
    server: &ServerStatus,
    out: &mut Vec<u8, A>,
) -> Result<(), AllocError>
    ensures { AppendsOrRefused A.Refuses out.old out.new result (json_server server.now) }
{
    let state = server.state.name();
    let seconds = server.seconds;
    let unreached = server.unreached;
    A::append_text(
        out,
        format_args!(
            ",\"server\":{{\"state\":\"{state}\",\"seconds\":{seconds},\"unreached\":{unreached}}},\"sessions\":["
        ),
    )
}

/// Appends the members of the run, and the beginning of the array.
pub(crate) fn put_json_head<A: Growth>(
    run: &RunStatus,
    out: &mut Vec<u8, A>,
) -> Result<(), AllocError>
    ensures { AppendsOrRefused A.Refuses out.old out.new result (json_head run.now) }
{
    put_run_counts(run, out)?;
    put_run_state(run, out)?;
    put_server_member(&run.server, out)
}

/// Appends the number of a session, its bot's address, its phase and its level.
fn put_session<A: Growth>(row: &SessionRow, out: &mut Vec<u8, A>) -> Result<(), AllocError>
    ensures { AppendsOrRefused A.Refuses out.old out.new result (json_session row.now) }
{
    let number = row.number;
    let bot = row.bot;
    let phase = phase_name(row.phase);
    let level = row.level.number();
    A::append_text(
        out,
        format_args!(
            "{{\"session\":{number},\"bot\":\"{bot}\",\"phase\":\"{phase}\",\"level\":{level}"
        ),
    )
}

/// Appends the port of a session toward the server as a member.
fn put_port<A: Growth>(row: &SessionRow, out: &mut Vec<u8, A>) -> Result<(), AllocError>
    ensures { AppendsOrRefused A.Refuses out.old out.new result (json_port row.now) }
{
    A::append(out, b",\"port_to_server\":")?;
    put_or_null(port_number(row.port_to_server), out)
}

/// Appends what the bot calls itself, or `null`.
fn put_name_or_null<A: Growth>(name: &BotName, out: &mut Vec<u8, A>) -> Result<(), AllocError>
    ensures { AppendsOrRefused A.Refuses out.old out.new result (name_or_null name.now) }
{
    match name {
        BotName::Unknown => A::append(out, b"null"),
        BotName::Nme(_) => put_quoted_name(name, out),
        BotName::Iam(_) => put_quoted_name(name, out),
    }
}

/// Appends what the bot calls itself as a member.
fn put_name_member<A: Growth>(name: &BotName, out: &mut Vec<u8, A>) -> Result<(), AllocError>
    ensures { AppendsOrRefused A.Refuses out.old out.new result (json_name name.now) }
{
    A::append(out, b",\"name\":")?;
    put_name_or_null(name, out)
}

/// Appends the power that the bot plays as a member, or `null`.
fn put_power_member<A: Growth>(power: Option<Power>, out: &mut Vec<u8, A>) -> Result<(), AllocError>
    ensures { AppendsOrRefused A.Refuses out.old out.new result (json_power power) }
{
    match power {
        None => A::append(out, b",\"power\":null"),
        Some(power) => A::append_text(out, format_args!(",\"power\":\"{power}\"")),
    }
}

/// Appends all that comes before the counts of a session.
fn put_identity<A: Growth>(row: &SessionRow, out: &mut Vec<u8, A>) -> Result<(), AllocError>
    ensures { AppendsOrRefused A.Refuses out.old out.new result (json_identity row.now) }
{
    put_session(row, out)?;
    put_port(row, out)?;
    put_name_member(&row.account.name, out)?;
    put_power_member(row.account.power, out)
}

/// Appends two numbers, of the bot and of the server, as a member.
#[tactic(auto, unfolding(crate::specs::Json::json_sides))]
fn put_sides<A: Growth>(
    name: &str,
    bot: u128,
    server: u128,
    out: &mut Vec<u8, A>,
) -> Result<(), AllocError>
    ensures { AppendsOrRefused A.Refuses out.old out.new result (json_sides name.now bot server) }
{
    A::append_text(
        out,
        format_args!(",\"{name}\":{{\"bot\":{bot},\"server\":{server}}}"),
    )
}

/// Appends the number of faults as a member.
fn put_faults<A: Growth>(faults: u64, out: &mut Vec<u8, A>) -> Result<(), AllocError>
    ensures { AppendsOrRefused A.Refuses out.old out.new result (json_faults faults) }
{
    A::append_text(out, format_args!(",\"faults\":{faults}"))
}

/// Appends what is counted for each side.
fn put_counters<A: Growth>(
    bot: &SideCounts,
    server: &SideCounts,
    out: &mut Vec<u8, A>,
) -> Result<(), AllocError>
    ensures { AppendsOrRefused A.Refuses out.old out.new result (json_counters bot.now server.now) }
{
    for counter in Counter::ALL {
        let (of_bot, of_server) = (bot.of(counter), server.of(counter));
        put_sides(counter.name(), of_bot as u128, of_server as u128, out)?;
    }
    Ok(())
}

/// Appends the counts of a session, by side.
fn put_counts<A: Growth>(account: &Account, out: &mut Vec<u8, A>) -> Result<(), AllocError>
    ensures { AppendsOrRefused A.Refuses out.old out.new result (json_counts account.now) }
{
    put_counters(&account.bot, &account.server, out)?;
    put_faults(account.faults, out)
}

/// Appends the seconds since each side's last byte.
fn put_idle_sides<A: Growth>(row: &SessionRow, out: &mut Vec<u8, A>) -> Result<(), AllocError>
    ensures { AppendsOrRefused A.Refuses out.old out.new result (json_idle row.now) }
{
    A::append(out, b",\"idle_seconds\":{\"bot\":")?;
    put_or_null(row.bot_idle, out)?;
    A::append(out, b",\"server\":")?;
    put_or_null(row.server_idle, out)?;
    A::append(out, b"}}")
}

/// Appends the bytes that wait for each side, in the session and in the side's socket, as members.
fn put_waiting_sides<A: Growth>(row: &SessionRow, out: &mut Vec<u8, A>) -> Result<(), AllocError>
    ensures { AppendsOrRefused A.Refuses out.old out.new result (json_waiting row.now) }
{
    put_sides(
        "queued",
        row.queued_to_bot as u128,
        row.queued_to_server as u128,
        out,
    )?;
    put_sides(
        "held",
        row.buffered_to_bot as u128,
        row.buffered_to_server as u128,
        out,
    )
}

/// Appends the bytes received from each side, and those sent to each, as members.
fn put_byte_sides<A: Growth>(row: &SessionRow, out: &mut Vec<u8, A>) -> Result<(), AllocError>
    ensures { AppendsOrRefused A.Refuses out.old out.new result (json_bytes row.now) }
{
    put_sides(
        "received",
        row.received_from_bot as u128,
        row.received_from_server as u128,
        out,
    )?;
    put_sides(
        "sent",
        row.sent_to_bot as u128,
        row.sent_to_server as u128,
        out,
    )
}

/// Appends the object of a session.
pub(crate) fn put_json_row<A: Growth>(
    row: &SessionRow,
    out: &mut Vec<u8, A>,
) -> Result<(), AllocError>
    ensures { AppendsOrRefused A.Refuses out.old out.new result (json_row row.now) }
{
    put_identity(row, out)?;
    put_counts(&row.account, out)?;
    put_waiting_sides(row, out)?;
    put_byte_sides(row, out)?;
    put_idle_sides(row, out)
}

/// Appends the end of the array, the connections that got no session, and the faults of all sessions.
fn put_lost_members<A: Growth>(counts: &RunCounts, out: &mut Vec<u8, A>) -> Result<(), AllocError>
    ensures { AppendsOrRefused A.Refuses out.old out.new result (json_lost counts.now) }
{
    let RunCounts {
        declined,
        dropped,
        faults,
        ..
    } = *counts;
    A::append_text(
        out,
        format_args!(
            "\n],\"counts\":{{\"declined\":{declined},\"dropped\":{dropped},\"frames\":{{\"faults\":{faults}"
        ),
    )
}

/// Appends the number of sessions that ended by a cause.
fn put_ended<A: Growth>(cause: EndCause, count: u64, out: &mut Vec<u8, A>) -> Result<(), AllocError>
    ensures { AppendsOrRefused A.Refuses out.old out.new result (json_ended cause count) }
{
    let name = cause.name();
    A::append_text(out, format_args!("\"{name}\":{count}"))
}

/// Appends the number of sessions that ended by a further cause.
fn put_further<A: Growth>(
    cause: EndCause,
    count: u64,
    out: &mut Vec<u8, A>,
) -> Result<(), AllocError>
    ensures { AppendsOrRefused A.Refuses out.old out.new result (json_further cause count) }
{
    A::append(out, b",")?;
    put_ended(cause, count, out)
}

/// Appends the numbers of sessions that ended, by cause.
fn put_ends<A: Growth>(ends: &EndCounts, out: &mut Vec<u8, A>) -> Result<(), AllocError>
    ensures { AppendsOrRefused A.Refuses out.old out.new result (json_ends ends.now) }
{
    put_ended(EndCause::Ended(Side::Bot), ends.bot_ended, out)?;
    for cause in OTHER_CAUSES {
        put_further(cause, ends.of(cause), out)?;
    }
    Ok(())
}

/// Appends what comes after the last session: what the run counted.
pub(crate) fn put_json_end<A: Growth>(
    counts: &RunCounts,
    out: &mut Vec<u8, A>,
) -> Result<(), AllocError>
    ensures { AppendsOrRefused A.Refuses out.old out.new result (json_end counts.now) }
{
    put_lost_members(counts, out)?;
    put_counters(&counts.bot, &counts.server, out)?;
    A::append(out, b"},\"ends\":{")?;
    put_ends(&counts.ends, out)?;
    A::append(out, b"}}}\n")
}
