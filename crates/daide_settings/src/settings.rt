//! The settings of a run, read from a TOML document.
//!
//! The crate `toml` parses the document and its members; this module judges the members, by one table of keys. It opens
//! no file: the text is a parameter.

mod address;
mod allow;
mod bots;
mod control_path;
mod judged;
mod key;
mod memory;
mod parts;
mod ranges;
mod reading;
mod suggestion;
mod words;
mod written;

ghost use Rattle.std.specs.Prelude.{◌≡◌, Ok, Some};
ghost use Rattle.daide_protocol.specs.Bounds.{IsSessionCount};
ghost use Rattle.daide_protocol.specs.Config.{config_fault};
ghost use Rattle.daide_settings.specs.Report.{fault_words};

pub use address::Address;
use arrayvec::ArrayVec;
pub use control_path::ControlPath;
use daide_protocol::config::{Config, SessionLimits};
use daide_words::Words;
pub use judged::{JudgeFault, judge_settings};
pub use key::Key;
pub use memory::SettingsMemory;
pub use ranges::{AddressRange, Host, MAX_RANGES, may_come};
pub use reading::read_settings;
use std::fmt;

/// Why a text gives no settings, in the order of the checks: the whole text, the whole document, and then each key in
/// the order of `Key`. `Memory` is returned at the growth that was refused.
#[derive(Clone, Copy, Debug, PartialEq, Eq)]
pub enum SettingsError {
    /// The text is not a TOML document.
    NotToml,
    /// The document has an unknown key.
    Unknown,
    /// A required key is missing.
    Missing(Key),
    /// The value of a key does not have its type.
    WrongType(Key),
    /// The value of a key is not in its range.
    Range(Key),
    /// The allocator refused a growth.
    Memory,
}

impl fmt::Display for SettingsError {
    ghost output = { λ fault. Some (fault_words fault) };

    fn fmt<W: fmt::Write>(&self, f: &mut fmt::Formatter<W>) -> fmt::Result {
        match *self {
            SettingsError::NotToml => write!(f, "settings are not TOML"),
            SettingsError::Unknown => write!(f, "unknown key"),
            SettingsError::Missing(key) => write!(f, "missing {key}"),
            SettingsError::WrongType(key) => write!(f, "wrong type for {key}"),
            SettingsError::Range(key) => write!(f, "{key} out of range"),
            SettingsError::Memory => write!(f, "out of memory"),
        }
    }
}

impl std::error::Error for SettingsError {}

/// The settings of a gateway. The limits and the number of sessions at once are right in every value of this type, so
/// nothing below it has an error for a wrong one.
#[derive(Drop)]
pub struct Settings {
    /// The address on which the gateway listens for bots.
    pub listen: Address,
    /// The address of the server.
    pub server: Address,
    /// The limits of each session.
    pub config: Config,
    /// The timeout of a bot's IM, in seconds.
    pub im_seconds: u32,
    /// The greatest number of sessions at once.
    pub max_sessions: usize,
    /// The number of bots to serve in all.
    pub sessions: u32,
    /// The greatest number of turns of a session.
    pub turns: u64,
    /// The idle timeout, in seconds: a side that sends nothing for this long counts as ended; 0 for never.
    pub idle_seconds: u32,
    /// The words of press that the operator adds.
    pub words: Words,
    /// The stall timeout, in seconds: a side that accepts none of its queued bytes for this long counts as lost; 0 for
    /// never.
    pub stall_seconds: u32,
    /// Whether the run serves until it is stopped. Then `sessions` has no effect.
    pub endless: bool,
    /// The ranges of addresses from which a bot may come.
    pub allow: ArrayVec<AddressRange, MAX_RANGES>,
    /// The greatest number of sessions at once with bots from one address; 0 for no limit.
    pub max_per_address: u16,
    /// The number of refused messages of one side at which its session is stopped; 0 for never.
    pub max_refused: u32,
    /// The path of the socket on which the run takes an operator's requests; `None` if it takes none.
    pub control: Option<ControlPath>,
    pub ghost right: { config_fault config ≡ Ok tt },
    pub ghost some: { IsSessionCount max_sessions },
}

impl Settings {
    /// Returns the limits of each session.
    pub fn limits(&self) -> SessionLimits
        ensures { result.config ≡ self.now.config }
    {
        SessionLimits::of(self.config)
    }
}
