//! The account of a session: its effects, counted by side, the level of press that was last in force, what the bot
//! calls itself, the power that it plays, and the text of these.

ghost use Rattle.std.specs.Prelude.{◌≡◌, ℕ, List, Some};
ghost use Rattle.daide_token.specs.Token.{tokens_of};
ghost use Rattle.daide_protocol.specs.AccountText.{account_text, counter_name, name_part, power_part};
ghost use Rattle.daide_protocol.specs.AccountText.{rest_text, side_text};
ghost use Rattle.daide_protocol.specs.BotName.{name_after};
ghost use Rattle.daide_protocol.specs.Power.{power_after};
ghost use Rattle.daide_protocol.specs.HloLevel.{lvl_scan_of};
ghost use Rattle.daide_protocol.specs.Account.{side_count, no_frames, nothing_accounted, frame_counted, frame_accounted};
ghost use Rattle.daide_protocol.specs.Account.{fault_accounted, summary_of, level_after as next_level};

use crate::bot_name::BotName;
use crate::hlo::{LvlScan, level_reported};
use crate::note::Deed;
use crate::power::Power;
use crate::summary::Summary;
use daide_frame::{Kind, Side};
use daide_grammar::Level;
use std::fmt;

/// What is counted for each side.
#[derive(Clone, Copy)]
pub enum Counter {
    /// Frames of the side that were relayed to the other side.
    Relayed,
    /// Messages of the side that got PRN.
    Prn,
    /// Messages of the side that got HUH.
    Huh,
}

/// The number of each counter of one side, modulo 2^64.
#[derive(Clone, Copy, Debug, PartialEq, Eq)]
pub struct SideCounts {
    pub relayed: u64,
    pub prn: u64,
    pub huh: u64,
}

/// The counts of each side, the faults, the level of press that was last in force, what the bot calls itself, and the
/// power that it plays.
#[derive(Clone, Copy, Debug, PartialEq, Eq)]
pub struct Account {
    /// The frames from the bot.
    pub bot: SideCounts,
    /// The frames from the server.
    pub server: SideCounts,
    /// Faults, each of which ended the session.
    pub faults: u64,
    /// The level that the last relayed RM or HLO of the server set; level 0 before.
    pub level: Level,
    /// The name of the bot, by the last NME or IAM of it that was relayed.
    pub name: BotName,
    /// The power of the bot, by the last HLO, or YES to an IAM, of the server that was relayed.
    pub power: Option<Power>,
}

impl Counter {
    /// All counters, in the order in which texts have them.
    pub const ALL: [Counter; 3] = [Counter::Relayed, Counter::Prn, Counter::Huh];

    /// Returns the name of the counter in texts.
    pub fn name(self) -> &'static str
        ensures { result.now ≡ counter_name self }
    {
        match self {
            Counter::Relayed => "relayed",
            Counter::Prn => "prn",
            Counter::Huh => "huh",
        }
    }
}

impl SideCounts {
    /// Returns counts of 0.
    pub fn new() -> SideCounts
        ensures { result ≡ no_frames }
    {
        SideCounts {
            relayed: 0,
            prn: 0,
            huh: 0,
        }
    }

    /// Counts one frame of the side by what was done with it, modulo 2^64. Dropped frames are not counted.
    fn count(&mut self, deed: Deed)
        ensures { self.new ≡ frame_counted deed self.old }
    {
        match deed {
            Deed::Relayed => self.relayed = self.relayed.wrapping_add(1),
            Deed::Dropped => {}
            Deed::Prn => self.prn = self.prn.wrapping_add(1),
            Deed::Huh(_) => self.huh = self.huh.wrapping_add(1),
        }
    }

    /// Returns the number of a counter.
    pub fn of(&self, counter: Counter) -> u64
        ensures { result ≡ side_count counter self.now }
    {
        match counter {
            Counter::Relayed => self.relayed,
            Counter::Prn => self.prn,
            Counter::Huh => self.huh,
        }
    }
}

/// Returns the level after one more frame of a side, by what its message contains. A relayed HLO of the server sets the
/// level, to at most `top`. A bot's HLO never changes it.
#[inline(always)]
fn level_after(
    top: Level,
    kind: Kind,
    side: Side,
    deed: Deed,
    found: LvlScan,
    level: Level,
) -> Level
    ensures { (tokens : List ℕ) → found ≡ lvl_scan_of tokens →
        result ≡ next_level top kind side deed tokens level }
{
    match (kind, side, deed) {
        (Kind::Rm, _, _) => Level::L0,
        (Kind::Dm, Side::Server, Deed::Relayed) => level_reported(top, found, level),
        _ => level,
    }
}

impl Account {
    /// Returns the account of a session without any effect.
    pub fn new() -> Account
        ensures { result ≡ nothing_accounted }
    {
        Account {
            bot: SideCounts::new(),
            server: SideCounts::new(),
            faults: 0,
            level: Level::L0,
            name: BotName::Unknown,
            power: None,
        }
    }

    /// Counts one frame of a side by what was done with it, and records the level after it. It leaves the name and the
    /// power to `record_message`.
    #[inline(always)]
    pub fn count_frame(&mut self, top: Level, side: Side, kind: Kind, deed: Deed, found: LvlScan)
        ensures { (tokens : List ℕ) → found ≡ lvl_scan_of tokens →
            self.new ≡ record (frame_accounted top side kind deed tokens self.old) {
              name = self.old.name;
              power = self.old.power;
            } }
    {
        self.level = level_after(top, kind, side, deed, found, self.level);
        match side {
            Side::Bot => self.bot.count(deed),
            Side::Server => self.server.count(deed),
        }
    }

    /// Records the name and the power after one frame of a side with this body, by what was done with it: an NME or IAM
    /// of the bot that was relayed has a name, and an HLO, or a YES to an IAM, of the server a power.
    #[inline(always)]
    pub fn record_message(&mut self, side: Side, kind: Kind, deed: Deed, body: &[u8])
        ensures { self.new ≡ record self.old {
          name = name_after kind side deed (tokens_of body.now) self.old.name;
          power = power_after kind side deed (tokens_of body.now) self.old.power;
        } }
    {
        match (kind, side, deed) {
            (Kind::Dm, Side::Bot, Deed::Relayed) => {
                self.name = BotName::in_message(body).unwrap_or(self.name);
            }
            (Kind::Dm, Side::Server, Deed::Relayed) => {
                self.power = Power::in_message(body).or(self.power);
            }
            _ => {}
        }
    }

    /// Counts a fault, modulo 2^64.
    pub fn count_fault(&mut self)
        ensures { self.new ≡ fault_accounted self.old }
    {
        self.faults = self.faults.wrapping_add(1);
    }

    /// Returns the counts of both sides together, each modulo 2^64.
    pub fn summary(&self) -> Summary
        ensures { result ≡ summary_of self.now }
    {
        Summary {
            relayed: self.bot.relayed.wrapping_add(self.server.relayed),
            prn: self.bot.prn.wrapping_add(self.server.prn),
            huh: self.bot.huh.wrapping_add(self.server.huh),
            faults: self.faults,
        }
    }
}

impl fmt::Display for SideCounts {
    ghost output = { λ counts. Some (side_text counts) };

    /// Writes each count before its name, after a space.
    #[tactic(auto, unfolding(crate::specs::AccountText::side_text))]
    fn fmt<W: fmt::Write>(&self, f: &mut fmt::Formatter<W>) -> fmt::Result {
        for counter in Counter::ALL {
            let (count, name) = (self.of(counter), counter.name());
            write!(f, " {count} {name}")?;
        }
        Ok(())
    }
}

/// The name of a bot as it follows the level; nothing if the bot has said none.
#[derive(Clone, Copy)]
struct NamePart {
    name: BotName,
}

impl fmt::Display for NamePart {
    ghost output = { λ part. Some (name_part part.name) };

    #[tactic(auto, unfolding(crate::specs::AccountText::name_part))]
    fn fmt<W: fmt::Write>(&self, f: &mut fmt::Formatter<W>) -> fmt::Result {
        let name = self.name;
        match name {
            BotName::Unknown => Ok(()),
            BotName::Nme(_) => write!(f, "; {name}"),
            BotName::Iam(_) => write!(f, "; {name}"),
        }
    }
}

/// The power of a bot as it follows the name; nothing if the server has said none.
#[derive(Clone, Copy)]
struct PowerPart {
    power: Option<Power>,
}

impl fmt::Display for PowerPart {
    ghost output = { λ part. Some (power_part part.power) };

    #[tactic(auto, unfolding(crate::specs::AccountText::power_part))]
    fn fmt<W: fmt::Write>(&self, f: &mut fmt::Formatter<W>) -> fmt::Result {
        match self.power {
            None => Ok(()),
            Some(power) => write!(f, "; power {power}"),
        }
    }
}

/// What follows the counts of the sides in the text of an account.
#[derive(Clone, Copy)]
struct AccountRest {
    account: Account,
}

impl fmt::Display for AccountRest {
    ghost output = { λ rest. Some (rest_text rest.account) };

    #[tactic(auto, unfolding(crate::specs::AccountText::rest_text))]
    fn fmt<W: fmt::Write>(&self, f: &mut fmt::Formatter<W>) -> fmt::Result {
        let faults = self.account.faults;
        let level = self.account.level.number();
        let name = NamePart {
            name: self.account.name,
        };
        let power = PowerPart {
            power: self.account.power,
        };
        write!(f, "; {faults} faults; level {level}{name}{power}")
    }
}

impl fmt::Display for Account {
    ghost output = { λ account. Some (account_text account) };

    /// Writes the counts of each side, the faults, the level, the name of the bot if it has said one, and its power if
    /// the server has said one.
    #[tactic(auto, unfolding(crate::specs::AccountText::account_text))]
    fn fmt<W: fmt::Write>(&self, f: &mut fmt::Formatter<W>) -> fmt::Result {
        let bot = self.bot;
        let server = self.server;
        let rest = AccountRest { account: *self };
        write!(f, "bot{bot}; server{server}{rest}")
    }
}
