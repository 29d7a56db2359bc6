//! Levels of press.

ghost use Rattle.std.specs.Prelude.{◌≡◌};
ghost use Rattle.daide_grammar.specs.Level.{first_not_above, greatest_level, level_number, level_of_number, levels_down};

/// A level of press: what the powers may say to each other.
#[derive(Clone, Copy, Debug, PartialEq, Eq)]
pub enum Level {
    /// No press.
    L0,
    /// Peace and alliances.
    L10,
    /// Order proposals.
    L20,
    /// Multipart arrangements.
    L30,
    /// Sharing out supply centres.
    L40,
    /// Nested multipart arrangements.
    L50,
    /// Queries and insistences.
    L60,
}

impl Level {
    /// Returns the level of a number: 0, 10, 20, 30, 40, 50 or 60. Returns `None` for every other number.
    pub fn of(number: u16) -> Option<Level>
        ensures { result ≡ level_of_number number }
    {
        match number {
            0 => Some(Level::L0),
            10 => Some(Level::L10),
            20 => Some(Level::L20),
            30 => Some(Level::L30),
            40 => Some(Level::L40),
            50 => Some(Level::L50),
            60 => Some(Level::L60),
            _ => None,
        }
    }

    /// Returns the number by which messages name the level.
    pub fn number(self) -> u16
        ensures { result ≡ level_number self }
    {
        match self {
            Level::L0 => 0,
            Level::L10 => 10,
            Level::L20 => 20,
            Level::L30 => 30,
            Level::L40 => 40,
            Level::L50 => 50,
            Level::L60 => 60,
        }
    }

    /// Returns the greatest level whose number is at most `n` and at most that of `top`, and `L0` if `n` is negative.
    /// So a server's `HLO` with `( LVL n )` never allows more than the operator does.
    pub fn of_lvl(n: i16, top: Level) -> Level
        ensures { result ≡ greatest_level n top }
    {
        let Ok(number) = u16::try_from(n) else {
            return Level::L0;
        };
        highest(number.min(top.number()))
    }
}

/// Returns the greatest level whose number is at most this one.
fn highest(number: u16) -> Level
    ensures { result ≡ first_not_above number levels_down }
{
    match number {
        60.. => Level::L60,
        50.. => Level::L50,
        40.. => Level::L40,
        30.. => Level::L30,
        20.. => Level::L20,
        10.. => Level::L10,
        _ => Level::L0,
    }
}
