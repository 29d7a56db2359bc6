//! A session of a log, driven by the lines after the head.

ghost use Rattle.std.specs.Prelude.{◌≡◌, ◌≤◌, ℕ, List, ◌++◌, length, OnOk, IfErr};
ghost use Rattle.std.specs.Io.KnownBytes.{Appends};
ghost use Rattle.daide_frame.specs.declared.side.Side.{Side};
ghost use Rattle.daide_causes.specs.Causes.{HasFailed};
ghost use Rattle.daide_log_lines.specs.Output.{IsSameWriter, all_of};
ghost use Rattle.daide_protocol.specs.Events.{Event, bytes_come};
ghost use Rattle.daide_protocol.specs.Machine.{coming};
ghost use Rattle.daide_protocol.specs.Wires.{SessionView, holding, room_of};
ghost use Rattle.daide_protocol.specs.Summary.{count_note};
ghost use Rattle.daide_protocol.specs.Summary.{HasRoom, IsMoreBy};
ghost use Rattle.daide_words.specs.Words.{words_of};
ghost use Rattle.daide_log_lines.specs.ParsedEvents.{event_reported};
ghost use Rattle.daide_log.specs.Report.{events_of_line, move_line, side_of};
ghost use Rattle.daide_log.specs.Reporting.{IsBare, IsIdle, IsMade, IsReady, IsUnder, IsCauseIn, Moves, ReportsEvents, ReportsMove, note_of_move};

use crate::page::{Unreported, put_move};
use crate::report::ReportKey;
use crate::report_builder::ReportBuilder;
use crate::style::Style;
use daide_causes::Sink;
use daide_frame::Side;
use daide_log_lines::event_line::ParsedEvent;
use daide_protocol::Note;
use daide_session::Session;
use std::alloc::Allocator;

/// Drops the frames queued for both sides.
#[inline(always)]
fn take_answers<A: Allocator>(session: &mut Session<A>)
    ensures state { session.new.state ≡ session.old.state }
    ensures idle { IsIdle session.new }
{
    session.drop_waiting(Side::Bot);
    session.drop_waiting(Side::Server);
}

/// Counts a side's move, and writes its line and what the style adds to it.
#[inline(always)]
fn write_move<A: Allocator, W: Sink, S: Style>(
    session: &Session<A>,
    source: ReportKey,
    side: Side,
    reported: Note,
    report: &mut ReportBuilder<'_, '_, W, S>,
) -> Result<(), Unreported>
    requires under { IsUnder report.old.head.limits.config (words_of report.old.head.words) session.now }
    requires made { (old : SessionView) × (events : List Event) × IsMade old events side reported session.now }
    requires room { HasRoom 1 report.old.summary }
    ensures few { IsMoreBy 1 report.old.summary report.new.summary }
    ensures counted { report.new.summary ≡ count_note reported report.old.summary }
    ensures text { OnOk result (ReportsMove (S.form (words_of report.old.head.words))
        (S.knows (words_of report.old.head.words) report.old.style.now)
        (S.knows (words_of report.old.head.words) report.new.style.now) source side reported session.now
        (λ added. move_line source side reported ++ added) (all_of W.contents report.old.output)
        (all_of W.contents report.new.output)) }
    ensures refused { IfErr result (IsCauseIn (S.form (words_of report.old.head.words)) (HasFailed W.Fails) S.refused) }
    ensures same_head { report.new.head ≡ report.old.head }
    ensures same_writer { IsSameWriter report.old.output report.new.output }
{
    report.summary.count(reported);
    put_move(source, side, reported, &mut report.output)?;
    report.style.explain(
        &report.head,
        session,
        source,
        side,
        reported,
        &mut report.output,
    )
}

/// Reports the last move of a session, if there was one, and drops the frames queued for both sides.
#[inline(always)]
pub fn report_move<A: Allocator, W: Sink, S: Style>(
    session: &mut Session<A>,
    source: ReportKey,
    side: Side,
    reported: Option<Note>,
    report: &mut ReportBuilder<'_, '_, W, S>,
) -> Result<(), Unreported>
    requires under { IsUnder report.old.head.limits.config (words_of report.old.head.words) session.old }
    requires moved { (old : SessionView) × (events : List Event) × Moves old events side reported session.old }
    requires room { HasRoom 1 report.old.summary }
    ensures ready { IsReady report.old.head.limits.config (words_of report.old.head.words) session.new }
    ensures few { IsMoreBy 1 report.old.summary report.new.summary }
    ensures reported { OnOk result ((old : SessionView) → (events : List Event) → Moves old events side reported session.old →
        ReportsEvents (S.form (words_of report.old.head.words)) (S.knows (words_of report.old.head.words) report.old.style.now)
        (S.knows (words_of report.old.head.words) report.new.style.now) source side old.state events session.new.state
        report.old.summary report.new.summary (all_of W.contents report.old.output)
        (all_of W.contents report.new.output)) }
    ensures refused { IfErr result (IsCauseIn (S.form (words_of report.old.head.words)) (HasFailed W.Fails) S.refused) }
    ensures same_head { report.new.head ≡ report.old.head }
    ensures same_writer { IsSameWriter report.old.output report.new.output }
{
    let Some(reported) = reported else {
        take_answers(session);
        return Ok(());
    };
    let written = write_move(session, source, side, reported, report);
    take_answers(session);
    written
}

/// Feeds a side's next bytes, which must fit its room, and reports the move that they cause, if there is one. Empties
/// the session's queues only afterwards, because an explanation needs the frame that the session still holds. Without a
/// move nothing is queued.
#[inline(always)]
fn feed_piece<A: Allocator, W: Sink, S: Style>(
    session: &mut Session<A>,
    side: Side,
    piece: &[u8],
    source: ReportKey,
    report: &mut ReportBuilder<'_, '_, W, S>,
) -> Result<(), Unreported>
    requires ready { IsReady report.old.head.limits.config (words_of report.old.head.words) session.old }
    requires few { length piece.now ≤ room_of session.old side }
    requires tied { (holding session.old side).frame_bytes ≡ (coming session.old.state side).pending }
    requires room { HasRoom 1 report.old.summary }
    ensures ready { IsReady report.old.head.limits.config (words_of report.old.head.words) session.new }
    ensures few { IsMoreBy 1 report.old.summary report.new.summary }
    ensures reported { OnOk result (ReportsEvents (S.form (words_of report.old.head.words))
        (S.knows (words_of report.old.head.words) report.old.style.now)
        (S.knows (words_of report.old.head.words) report.new.style.now) source side session.old.state
        (bytes_come side piece.now) session.new.state report.old.summary report.new.summary
        (all_of W.contents report.old.output) (all_of W.contents report.new.output)) }
    ensures refused { IfErr result (IsCauseIn (S.form (words_of report.old.head.words)) (HasFailed W.Fails) S.refused) }
    ensures same_head { report.new.head ≡ report.old.head }
    ensures same_writer { IsSameWriter report.old.output report.new.output }
{
    let reported = session.feed(side, piece);
    if let Note::Nothing = reported {
        return Ok(());
    }
    report_move(session, source, side, Some(reported), report)
}

/// Feeds a side's bytes in pieces that fit its room, and reports each frame and fault.
#[inline(always)]
fn feed_pieces<A: Allocator, W: Sink, S: Style>(
    session: &mut Session<A>,
    side: Side,
    bytes: &[u8],
    source: ReportKey,
    report: &mut ReportBuilder<'_, '_, W, S>,
) -> Result<(), Unreported>
    requires ready { IsReady report.old.head.limits.config (words_of report.old.head.words) session.old }
    requires room { HasRoom (length bytes.now) report.old.summary }
    ensures ready { IsReady report.old.head.limits.config (words_of report.old.head.words) session.new }
    ensures few { IsMoreBy (length bytes.now) report.old.summary report.new.summary }
    ensures reported { OnOk result (ReportsEvents (S.form (words_of report.old.head.words))
        (S.knows (words_of report.old.head.words) report.old.style.now)
        (S.knows (words_of report.old.head.words) report.new.style.now) source side session.old.state
        (bytes_come side bytes.now) session.new.state
        report.old.summary report.new.summary (all_of W.contents report.old.output)
        (all_of W.contents report.new.output)) }
    ensures refused { IfErr result (IsCauseIn (S.form (words_of report.old.head.words)) (HasFailed W.Fails) S.refused) }
    ensures same_head { report.new.head ≡ report.old.head }
    ensures same_writer { IsSameWriter report.old.output report.new.output }
{
    let mut rest = bytes;
    while !rest.is_empty() && !session.is_over() {
        let (piece, more) = rest.split_at(rest.len().min(session.room(side)));
        feed_piece(session, side, piece, source, report)?;
        rest = more;
    }
    Ok(())
}

/// Feeds a side's bytes, and reports each frame and fault. Each side gets code of its own here, in which the side is a
/// constant, since all that is called is inlined.
#[inline(always)]
pub fn feed_all<A: Allocator, W: Sink, S: Style>(
    session: &mut Session<A>,
    side: Side,
    bytes: &[u8],
    source: ReportKey,
    report: &mut ReportBuilder<'_, '_, W, S>,
) -> Result<(), Unreported>
    requires ready { IsReady report.old.head.limits.config (words_of report.old.head.words) session.old }
    requires room { HasRoom (length bytes.now) report.old.summary }
    ensures ready { IsReady report.old.head.limits.config (words_of report.old.head.words) session.new }
    ensures few { IsMoreBy (length bytes.now) report.old.summary report.new.summary }
    ensures reported { OnOk result (ReportsEvents (S.form (words_of report.old.head.words))
        (S.knows (words_of report.old.head.words) report.old.style.now)
        (S.knows (words_of report.old.head.words) report.new.style.now) source side session.old.state
        (bytes_come side bytes.now) session.new.state
        report.old.summary report.new.summary (all_of W.contents report.old.output)
        (all_of W.contents report.new.output)) }
    ensures refused { IfErr result (IsCauseIn (S.form (words_of report.old.head.words)) (HasFailed W.Fails) S.refused) }
    ensures same_head { report.new.head ≡ report.old.head }
    ensures same_writer { IsSameWriter report.old.output report.new.output }
{
    match side {
        Side::Bot => feed_pieces(session, Side::Bot, bytes, source, report),
        Side::Server => feed_pieces(session, Side::Server, bytes, source, report),
    }
}

/// Returns the note of a move, or `None` if there was no move.
fn note_of_move(reported: Note) -> Option<Note>
    ensures { result ≡ note_of_move reported }
{
    match reported {
        Note::Nothing => None,
        Note::Frame(..) | Note::Fault(_) | Note::Stopped => Some(reported),
    }
}

/// Applies an event without bytes to a session. Returns the side of the move that it causes, and the move's note, if
/// there is a move.
pub fn apply<A: Allocator>(session: &mut Session<A>, event: ParsedEvent) -> (Side, Option<Note>)
    requires bare { IsBare event }
    requires idle { IsIdle session.old }
    ensures side { (bytes : List ℕ) → result.0 ≡ side_of (event_reported bytes event) }
    ensures moves { (bytes : List ℕ) → Moves session.old (events_of_line (event_reported bytes event)) result.0 result.1
        session.new }
    ensures limits { session.new.state.limits ≡ session.old.state.limits }
{
    match event {
        ParsedEvent::Received(..) => unreachable!(),
        ParsedEvent::EndOf(side) => {
            let ended = session.ended(side);
            (side, if ended { Some(Note::Nothing) } else { None })
        }
        ParsedEvent::ImTimerLine => {
            // The contract of `header` states that the session holds the incomplete frame.
            let _held = session.header(Side::Bot);
            (Side::Bot, note_of_move(session.im_timeout()))
        }
        ParsedEvent::StopLine => (Side::Bot, note_of_move(session.stop())),
        ParsedEvent::Silence => (Side::Bot, None),
    }
}
