//! The keys of the settings: their names, defaults and ranges.

ghost use Rattle.std.specs.Prelude.{◌≡◌, true, Some, IfSome};
ghost use Rattle.daide_settings.specs.Settings.{key_text, default_of};
ghost use Rattle.daide_settings.specs.Settings.{is_known as is_known_key, is_in_range as is_in_keys_range};

use super::ranges::MAX_RANGES;
use daide_grammar::level::Level;
use daide_protocol::{MAX_BODY, MAX_DEPTH, MAX_SESSIONS, MIN_BODY, MIN_DEPTH};
use daide_words::words::MAX_WORDS;
use std::fmt;

/// The longest timeout that an operator may set, in seconds: a day.
const LONGEST_TIMEOUT: u64 = 86_400;

/// The longest path of a control socket, in bytes.
const LONGEST_PATH: u64 = 100;

/// A key of the settings. The variants are in the order of the checks.
#[derive(Clone, Copy, Debug, PartialEq, Eq)]
pub enum Key {
    /// The address on which the gateway listens for bots: a text of 1 to 255 bytes; required.
    Listen,
    /// The address of the server: a text of 1 to 255 bytes; required.
    Server,
    /// The highest level of press that an HLO may set: 0, 10, 20, 30, 40, 50 or 60; 60 by default.
    TopLevel,
    /// The longest body that is accepted, in bytes: even, 512 to 65,526; 65,526 by default.
    MaxBody,
    /// The most brackets of a message that may be open at once: 4 to 254; 62 by default.
    MaxDepth,
    /// The timeout of a bot's IM, in seconds: 1 to 3,600; 30 by default.
    ImSeconds,
    /// The greatest number of sessions at once: 1 to 256; 16 by default.
    MaxSessions,
    /// The number of bots to serve in all: 1 to 1,000,000; 1 by default.
    Sessions,
    /// The greatest number of turns of a session: 1 to 1,000,000,000,000; 1,000,000,000 by default.
    Turns,
    /// The idle timeout, in seconds: a side that sends nothing for this long counts as ended. From 0, for never, to
    /// 86,400; 0 by default.
    IdleSeconds,
    /// The words of press that an operator adds: an array of at most 16 tables; none by default.
    Words,
    /// The stall timeout, in seconds: a side that accepts none of its queued bytes for this long counts as lost. From
    /// 0, for never, to 86,400; 60 by default.
    StallSeconds,
    /// Whether the run serves until it is stopped: a boolean; false by default.
    Endless,
    /// The addresses from which a bot may come: an array of 1 to 16 ranges; everyone by default.
    Allow,
    /// The greatest number of sessions at once with bots from one address: 0, for no limit, to 256; 0 by default.
    MaxPerAddress,
    /// The number of refused messages of one side at which its session is stopped: 0, for never, to 1,000,000; 0 by default.
    MaxRefused,
    /// The path of the Unix-domain socket on which the run takes an operator's requests: a text of 1 to 100 bytes; none by
    /// default.
    Control,
}

impl Key {
    /// All keys, in the order of the checks.
    pub const ALL: [Key; 17] = [
        Key::Listen,
        Key::Server,
        Key::TopLevel,
        Key::MaxBody,
        Key::MaxDepth,
        Key::ImSeconds,
        Key::MaxSessions,
        Key::Sessions,
        Key::Turns,
        Key::IdleSeconds,
        Key::Words,
        Key::StallSeconds,
        Key::Endless,
        Key::Allow,
        Key::MaxPerAddress,
        Key::MaxRefused,
        Key::Control,
    ];

    /// Returns the key as a document writes it.
    pub fn text(self) -> &'static str
        ensures { result.now ≡ key_text self }
    {
        match self {
            Key::Listen => "listen",
            Key::Server => "server",
            Key::TopLevel => "top_level",
            Key::MaxBody => "max_body",
            Key::MaxDepth => "max_depth",
            Key::ImSeconds => "im_seconds",
            Key::MaxSessions => "max_sessions",
            Key::Sessions => "sessions",
            Key::Turns => "turns",
            Key::IdleSeconds => "idle_seconds",
            Key::Words => "words",
            Key::StallSeconds => "stall_seconds",
            Key::Endless => "endless",
            Key::Allow => "allow",
            Key::MaxPerAddress => "max_per_address",
            Key::MaxRefused => "max_refused",
            Key::Control => "control",
        }
    }

    /// Returns the number of a key that is missing in a document; `None` for the two addresses, which are required, and
    /// for words, ranges, a flag and a path.
    pub fn default_number(self) -> Option<u64>
        ensures number { result ≡ default_of self }
        ensures within { IfSome result (λ n. is_in_keys_range self n ≡ true) }
    {
        match self {
            Key::Listen | Key::Server => None,
            Key::Words | Key::Endless | Key::Allow | Key::Control => None,
            Key::TopLevel => Some(60),
            Key::MaxBody => Some(MAX_BODY as u64),
            Key::MaxDepth => Some(62),
            Key::ImSeconds => Some(30),
            Key::MaxSessions => Some(16),
            Key::Sessions => Some(1),
            Key::Turns => Some(1_000_000_000),
            Key::IdleSeconds => Some(0),
            Key::StallSeconds => Some(60),
            Key::MaxPerAddress => Some(0),
            Key::MaxRefused => Some(0),
        }
    }

    /// Returns true if a number is in the key's range. The number is that of the bytes of an address or a path, of the
    /// words, or of the ranges. A flag has no number.
    pub fn is_in_range(self, number: u64) -> bool
        ensures { result ≡ is_in_keys_range self number }
    {
        match self {
            Key::Listen | Key::Server => 1 <= number && number <= 255,
            Key::TopLevel => match u16::try_from(number) {
                Ok(number) => Level::of(number).is_some(),
                Err(_) => false,
            },
            Key::MaxBody => number % 2 == 0
                && MIN_BODY as u64 <= number
                && number <= MAX_BODY as u64,
            Key::MaxDepth => MIN_DEPTH as u64 <= number && number <= MAX_DEPTH as u64,
            Key::ImSeconds => 1 <= number && number <= 3_600,
            Key::MaxSessions => 1 <= number && number <= MAX_SESSIONS as u64,
            Key::Sessions => 1 <= number && number <= 1_000_000,
            Key::Turns => 1 <= number && number <= 1_000_000_000_000,
            Key::IdleSeconds => number <= LONGEST_TIMEOUT,
            Key::Words => number <= MAX_WORDS as u64,
            Key::StallSeconds => number <= LONGEST_TIMEOUT,
            Key::Endless => false,
            Key::Allow => 1 <= number && number <= MAX_RANGES as u64,
            Key::MaxPerAddress => number <= MAX_SESSIONS as u64,
            Key::MaxRefused => number <= 1_000_000,
            Key::Control => 1 <= number && number <= LONGEST_PATH,
        }
    }
}

impl fmt::Display for Key {
    ghost output = { λ key. Some (key_text key) };

    fn fmt<W: fmt::Write>(&self, f: &mut fmt::Formatter<W>) -> fmt::Result {
        f.write_str(self.text())
    }
}

/// Returns true if a document may have this key.
pub(crate) fn is_known(text: &str) -> bool
    ensures { result ≡ is_known_key text.now }
{
    matches!(
        text,
        "listen"
            | "server"
            | "top_level"
            | "max_body"
            | "max_depth"
            | "im_seconds"
            | "max_sessions"
            | "sessions"
            | "turns"
            | "idle_seconds"
            | "words"
            | "stall_seconds"
            | "endless"
            | "allow"
            | "max_per_address"
            | "max_refused"
            | "control"
    )
}
