//! The second line of a log: the limits of its sessions.

ghost use Rattle.std.specs.Prelude.{◌≡◌, IfSome, Ok};
ghost use Rattle.daide_grammar.specs.Words.{most_words};
ghost use Rattle.daide_protocol.specs.Bounds.{most_sessions};
ghost use Rattle.daide_protocol.specs.Config.{config_fault};
ghost use Rattle.daide_log_lines.specs.LogLine.{plain_number};
ghost use Rattle.daide_log_lines.specs.MatchLine.{within};
ghost use Rattle.daide_log.specs.ConfigLine.{config_of_numbers, config_of_line};
ghost use Rattle.daide_log.specs.ConfigLine.{match_config_of_numbers, match_config_of_line};
ghost use Rattle.daide_log.specs.Heading.{HasSessions};

use daide_log_lines::match_line::number_within;
use daide_log_lines::parts::{parted_at_space, plain_number};
use daide_protocol::MAX_SESSIONS;
use daide_session::Config;
use daide_words::words::MAX_WORDS;

/// The contents of the second line of a match's log.
#[derive(Clone, Copy, Debug, PartialEq, Eq)]
pub struct MatchConfig {
    /// The limits of each session.
    pub config: Config,
    /// The number of sessions, from 1 to `MAX_SESSIONS`.
    pub sessions: u16,
    /// The number of words that the operator added.
    pub words: u16,
}

/// Parses three plain numbers as limits. Returns `None` if `Config::check` refuses them.
fn limits_of(level: &[u8], body: &[u8], depth: &[u8]) -> Option<Config>
    ensures config { result ≡ config_of_numbers (plain_number level.now) (plain_number body.now) (plain_number depth.now) }
    ensures right { IfSome result (λ config. config_fault config ≡ Ok tt) }
{
    let config = Config {
        top_level: plain_number(level)?,
        max_body: plain_number(body)?,
        max_depth: plain_number(depth)?,
    };
    match config.check() {
        Ok(()) => Some(config),
        Err(_) => None,
    }
}

/// Parses the second line of version 1. Returns `None` if it has another form.
#[tactic(auto, unfolding(crate::specs::ConfigLine::config_of_line))]
pub fn read_config(line: &[u8]) -> Option<Config>
    ensures config { result ≡ config_of_line line.now }
    ensures right { IfSome result (λ config. config_fault config ≡ Ok tt) }
{
    let rest = line.strip_prefix(b"config ")?;
    let (level, rest) = parted_at_space(rest)?;
    let (body, depth) = parted_at_space(rest)?;
    limits_of(level, body, depth)
}

/// Parses the five plain numbers of a match's second line. Returns `None` if one is not within its limits.
fn match_config_of(
    level: &[u8],
    body: &[u8],
    depth: &[u8],
    sessions: &[u8],
    words: &[u8],
) -> Option<MatchConfig>
    ensures within { IfSome result HasSessions }
    ensures limits { result ≡ match_config_of_numbers
        (config_of_numbers (plain_number level.now) (plain_number body.now) (plain_number depth.now))
        (within 1 most_sessions (plain_number sessions.now)) (within 0 most_words (plain_number words.now)) }
{
    Some(MatchConfig {
        config: limits_of(level, body, depth)?,
        sessions: number_within(1, MAX_SESSIONS as u16, sessions)?,
        words: number_within(0, MAX_WORDS as u16, words)?,
    })
}

/// Parses the second line of a match's log. Returns `None` if it has another form.
#[tactic(auto, unfolding(crate::specs::ConfigLine::match_config_of_line))]
pub fn read_match_config(line: &[u8]) -> Option<MatchConfig>
    ensures within { IfSome result HasSessions }
    ensures limits { result ≡ match_config_of_line line.now }
{
    let rest = line.strip_prefix(b"config ")?;
    let (level, rest) = parted_at_space(rest)?;
    let (body, rest) = parted_at_space(rest)?;
    let (depth, rest) = parted_at_space(rest)?;
    let (sessions, words) = parted_at_space(rest)?;
    match_config_of(level, body, depth, sessions, words)
}
