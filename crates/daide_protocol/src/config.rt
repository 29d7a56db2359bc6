//! The limits that the operator sets for a session.

ghost use Rattle.std.specs.Prelude.{◌≡◌, Ok, Err, Some, IfOk, IfErr};
ghost use Rattle.daide_grammar.specs.Level.{level_of_number};
ghost use Rattle.daide_protocol.specs.Config.{config_fault};

use crate::bounds::{MAX_BODY, MAX_DEPTH, MIN_BODY, MIN_DEPTH};
use daide_grammar::level::Level;

/// The limits of a session.
#[derive(Clone, Copy, Debug, PartialEq, Eq)]
pub struct Config {
    /// The highest level of press that an HLO may set: 0, 10, 20, 30, 40, 50 or 60.
    pub top_level: u16,
    /// The longest accepted body, in bytes: even, from 512 to 65,526.
    pub max_body: u16,
    /// The maximum number of brackets open at once in a message: from 4 to 254.
    pub max_depth: u16,
}

/// The error of a `Config`, in the order of the checks.
#[derive(Clone, Copy, Debug, PartialEq, Eq)]
pub enum ConfigError {
    /// `top_level` is not a level.
    Level,
    /// `max_body` is odd, or not from 512 to 65,526.
    Body,
    /// `max_depth` is not from 4 to 254.
    Depth,
}

/// The limits of a session that were checked: no code below this type has an error for a wrong limit.
#[derive(Clone, Copy, Debug, PartialEq, Eq)]
pub struct SessionLimits {
    config: Config,
    pub ghost right: { config_fault config ≡ Ok tt },
}

impl SessionLimits {
    /// Takes limits that are known to be right. `Config::limits` is the test.
    pub fn of(config: Config) -> SessionLimits
        requires { config_fault config ≡ Ok tt }
        ensures { result.config ≡ config }
    {
        SessionLimits { config }
    }

    /// Returns the limits.
    pub fn config(self) -> Config
        ensures { result ≡ self.config }
    {
        self.config
    }

    /// Returns the highest level that an HLO may set.
    pub fn top_level(self) -> Level
        ensures { level_of_number self.config.top_level ≡ Some result }
    {
        Level::of(self.config.top_level).unwrap()
    }
}

impl Config {
    /// Checks the limits, and returns the first wrong one: `Level` for `top_level`, `Body` for `max_body`, `Depth` for
    /// `max_depth`.
    pub fn check(&self) -> Result<(), ConfigError>
        ensures { result ≡ config_fault self.now }
    {
        if Level::of(self.top_level).is_none() {
            return Err(ConfigError::Level);
        }
        if self.max_body % 2 == 1 || self.max_body < MIN_BODY || self.max_body > MAX_BODY {
            return Err(ConfigError::Body);
        }
        if self.max_depth < MIN_DEPTH || self.max_depth > MAX_DEPTH {
            return Err(ConfigError::Depth);
        }
        Ok(())
    }

    /// Returns the limits as checked ones, or the first wrong one, as `check` does.
    pub fn limits(&self) -> Result<SessionLimits, ConfigError>
        ensures limits { IfOk result (λ limits. limits.config ≡ self.now) }
        ensures refused { IfErr result (λ fault. config_fault self.now ≡ Err fault) }
    {
        match self.check() {
            Ok(()) => Ok(SessionLimits::of(*self)),
            Err(fault) => Err(fault),
        }
    }
}
