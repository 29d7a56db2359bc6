//! The levels of press that the servers of a log's sessions announced, whatever the highest level of the log is.

ghost use Rattle.std.specs.Prelude.{◌≡◌, ◌≤◌, length, slice_set};
ghost use Rattle.daide_token.specs.Token.{tokens_of};
ghost use Rattle.daide_grammar.specs.declared.level.Level.TheVariants.{L60};
ghost use Rattle.daide_reader.specs.Bounds.{longest_message};
ghost use Rattle.daide_protocol.specs.HloLevel.{level_reported as level_of_message};
ghost use Rattle.daide_log.specs.Explained.{capped_from, level_announced, place_of_session};
ghost use Rattle.daide_log.specs.Explaining.{announced_by_held};

use crate::explained::{is_message, verdict_by};
use crate::report::ReportKey;
use daide_frame::Side;
use daide_grammar::Level;
use daide_protocol::Note;
use daide_protocol::hlo::{HloScan, level_reported};
use daide_reader::Verdict;
use daide_session::Session;
use std::alloc::Allocator;

/// Returns the place of a session in a list, from 0.
fn place_of(source: ReportKey) -> usize
    ensures { result ≡ place_of_session source.session }
{
    match source.session {
        None => 0,
        Some(session) => (session as usize).saturating_sub(1),
    }
}

/// Returns the level that a session's server announced last, and level 0 before any.
pub(crate) fn level_announced(levels: &[Level], source: ReportKey) -> Level
    ensures { result ≡ level_announced levels.now source }
{
    let place = place_of(source);
    if place < levels.len() {
        levels[place]
    } else {
        Level::L0
    }
}

/// Records the level that a session's server announced last.
pub(crate) fn record_level(levels: &mut [Level], source: ReportKey, announced: Level)
    ensures { levels.new ≡ slice_set levels.old (place_of_session source.session) announced }
{
    let place = place_of(source);
    if place < levels.len() {
        levels[place] = announced;
    }
}

/// Returns the level that the server announced, if a message was judged at the highest level, and that is below it.
pub(crate) fn capped_from(top: Level, announced: Level, level: Level) -> Option<Level>
    ensures { result ≡ capped_from top announced level }
{
    if level.number() == top.number() && top.number() < announced.number() {
        Some(announced)
    } else {
        None
    }
}

/// Returns the level that the server announced last, after a relayed message of it.
fn announced_by_server(body: &[u8], level: Level) -> Level
    requires { length body.now ≤ longest_message }
    ensures { result ≡ level_of_message L60 (tokens_of body.now) level }
{
    let mut scan = HloScan::new();
    scan.read(body, 0);
    level_reported(Level::L60, scan.found(), level)
}

/// Returns the level that the server announced last, after a side's move. The session still holds the frame that caused
/// it.
pub(crate) fn announced_after<A: Allocator>(
    session: &Session<A>,
    side: Side,
    reported: Note,
    level: Level,
) -> Level
    ensures { result ≡ announced_by_held side reported session.now level }
{
    let Note::Frame(frame, deed) = reported else {
        return level;
    };
    if !is_message(frame.kind) {
        return level;
    }
    match (side, verdict_by(deed)) {
        (Side::Server, Verdict::Relay) => announced_by_server(session.body(side), level),
        _ => level,
    }
}
