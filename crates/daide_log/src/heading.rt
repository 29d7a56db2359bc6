//! The head of a log: the lines before its events, which describe its sessions.

ghost use Rattle.std.specs.Prelude.{◌≡◌, IfSome, option_map};
ghost use Rattle.daide_log_lines.specs.LogLine.{is_name as has_name};
ghost use Rattle.daide_log.specs.Heading.{version_of, limits_in, heading_after};
ghost use Rattle.daide_log.specs.Heading.{HasSessions};
ghost use Rattle.daide_log.specs.PreambleKnown.{heading_of, IsPreambleKnown, whole_preamble};

use crate::config_line::{MatchConfig, read_config, read_match_config};
use daide_log_lines::match_line::is_match_name;
use daide_log_lines::word_line::read_word;
use daide_session::Config;
use daide_words::Words;

/// The version of a log.
#[derive(Clone, Copy)]
pub enum Version {
    /// The log of one session.
    Single,
    /// The log of a match: its lines and its report name the session.
    Match,
}

/// The contents of a log's head.
#[derive(Clone, Copy)]
pub struct Preamble {
    /// The version of the log.
    pub version: Version,
    /// The limits, and the numbers of sessions and of words.
    pub limits: MatchConfig,
    /// The operator's words.
    pub words: Words,
}

impl Preamble {
    /// Returns a placeholder, without a session and without words, until the head is read.
    pub(crate) fn new() -> Preamble {
        Preamble {
            version: Version::Single,
            limits: MatchConfig {
                config: Config {
                    top_level: 0,
                    max_body: 0,
                    max_depth: 0,
                },
                sessions: 0,
                words: 0,
            },
            words: Words::new(),
        }
    }
}

/// The part of a log's head that was read so far.
#[derive(Clone, Copy)]
pub enum Heading {
    /// No line.
    Unnamed,
    /// The first line, which names the version.
    Named(Version),
    /// The second line, and the words after it so far.
    Headed(Preamble),
}

/// Returns whether the first line is that of one session's log.
fn is_name(line: &[u8]) -> bool
    ensures { result ≡ has_name line.now }
{
    line == b"daide-log 1".as_slice()
}

/// Returns the version that the first line names.
fn version_of(line: &[u8]) -> Option<Version>
    ensures { result ≡ version_of line.now }
{
    if is_name(line) {
        return Some(Version::Single);
    }
    if is_match_name(line) {
        return Some(Version::Match);
    }
    None
}

/// Parses the second line. In version 1 there is one session, and no words.
fn limits_in(version: Version, line: &[u8]) -> Option<MatchConfig>
    ensures limits { result ≡ limits_in version line.now }
    ensures within { IfSome result HasSessions }
{
    match version {
        Version::Single => Some(MatchConfig {
            config: read_config(line)?,
            sessions: 1,
            words: 0,
        }),
        Version::Match => read_match_config(line),
    }
}

impl Heading {
    /// Adds the next line of the head. Returns `None` if it has another form.
    pub fn with_line(self, line: &[u8]) -> Option<Heading>
        requires { IsPreambleKnown self }
        ensures within { IfSome result IsPreambleKnown }
        ensures heading { option_map heading_of result ≡ heading_after (heading_of self) line.now }
    {
        match self {
            Heading::Unnamed => Some(Heading::Named(version_of(line)?)),
            Heading::Named(version) => Some(Heading::Headed(Preamble {
                version,
                limits: limits_in(version, line)?,
                words: Words::new(),
            })),
            Heading::Headed(head) => {
                let mut words = head.words;
                words.add(read_word(line)?).ok()?;
                Some(Heading::Headed(Preamble {
                    version: head.version,
                    limits: head.limits,
                    words,
                }))
            }
        }
    }

    /// Returns the head, if it has all its words.
    pub fn whole(&self) -> Option<Preamble>
        ensures { result ≡ whole_preamble self.now }
    {
        let heading = *self;
        match heading {
            Heading::Unnamed | Heading::Named(_) => None,
            Heading::Headed(head) => {
                if head.words.names().len() == head.limits.words as usize {
                    Some(head)
                } else {
                    None
                }
            }
        }
    }
}
