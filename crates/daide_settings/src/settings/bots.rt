//! The number of bots of a run.

ghost use Rattle.std.specs.Prelude.{◌≡◌};
ghost use Rattle.daide_settings.specs.BotsInAll.{bots_in_all};

use super::Settings;

impl Settings {
    /// Returns the number of bots of a run in all: as many as `sessions` says, or all that have a number if the run is
    /// endless.
    pub fn bots_in_all(&self) -> u32
        ensures { result ≡ bots_in_all self.now }
    {
        if self.endless {
            u32::MAX
        } else {
            self.sessions
        }
    }
}
