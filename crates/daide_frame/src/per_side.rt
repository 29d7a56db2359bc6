//! One value for each side. Only this module selects by side, for reading and for writing.

ghost use Rattle.std.specs.Prelude.{◌≡◌};
ghost use Rattle.std.specs.Borrow.{sem};
ghost use Rattle.daide_frame.specs.PerSide.{at, both};
ghost use Rattle.daide_frame.specs.Lends.{LendsSide};

use crate::side::Side;
use std::marker::Model;

/// One value for each side, or for the wire to each side.
#[derive(Drop)]
pub struct PerSide<T> {
    bot: T,
    server: T,
}

impl<T> Model for PerSide<T> {
    ghost use Rattle.daide_frame.specs.PerSide.{PerSide, both};

    ghost Value = { PerSide T };

    ghost view = { λ b. both b.bot b.server };
}

impl<T> PerSide<T> {
    /// Creates the pair: the bot's value, then the server's.
    pub fn new(bot: T, server: T) -> PerSide<T>
        ensures { result ≡ both bot server }
    {
        PerSide { bot, server }
    }

    /// Returns a side's value.
    pub fn at(&self, side: Side) -> &T
        ensures { result.now ≡ at self.now side }
    {
        match side {
            Side::Bot => &self.bot,
            Side::Server => &self.server,
        }
    }

    /// Lends a side's value for writing; the other side's value stays.
    pub fn at_mut(&mut self, side: Side) -> &mut T
        ensures* writes_back { sem 𝓛 (LendsSide T.row self.entry side result) }
        ensures value { result.now ≡ at self.old side }
    {
        match side {
            Side::Bot => &mut self.bot,
            Side::Server => &mut self.server,
        }
    }

    /// Gives up the pair, and returns the bot's value and the server's.
    pub fn into_both(self) -> (T, T)
        ensures { result ≡ (self.bot, self.server) }
    {
        let PerSide { bot, server } = self;
        (bot, server)
    }
}
