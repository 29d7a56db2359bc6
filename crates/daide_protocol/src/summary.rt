//! The counts of a session's effects, and their text.

ghost use Rattle.std.specs.Prelude.{◌≡◌, Some};
ghost use Rattle.daide_protocol.specs.Summary.{count_note, counted_on, nothing_counted, HasRoom, IsMoreBy};
ghost use Rattle.daide_protocol.specs.Summary.{is_clean, summary_text};

use crate::note::{Deed, Note};
use std::fmt;

/// How many frames were relayed, how many got PRN and HUH, and how many faults there were.
#[derive(Clone, Copy, Debug, PartialEq, Eq)]
pub struct Summary {
    /// Frames that were relayed to the other side.
    pub relayed: u64,
    /// Messages that got PRN.
    pub prn: u64,
    /// Messages that got HUH.
    pub huh: u64,
    /// Faults, each of which ended the session.
    pub faults: u64,
}

impl Summary {
    /// The greatest length of the text: the names and spaces, and twenty digits for each of the four counts.
    pub const LONGEST: usize = 26 + 4 * 20;

    /// Returns counts of 0.
    pub fn new() -> Summary
        ensures { result ≡ nothing_counted }
    {
        Summary {
            relayed: 0,
            prn: 0,
            huh: 0,
            faults: 0,
        }
    }

    /// Counts an effect, modulo 2^64. Dropped frames, ends and stops are not counted.
    pub fn count(&mut self, reported: Note)
        ensures modulo { self.new ≡ counted_on reported self.old }
        ensures counted { HasRoom 1 self.old → self.new ≡ count_note reported self.old }
        ensures few { IsMoreBy 1 self.old self.new }
    {
        match reported {
            Note::Frame(_, Deed::Relayed) => self.relayed = self.relayed.wrapping_add(1),
            Note::Frame(_, Deed::Prn) => self.prn = self.prn.wrapping_add(1),
            Note::Frame(_, Deed::Huh(_)) => self.huh = self.huh.wrapping_add(1),
            Note::Fault(_) => self.faults = self.faults.wrapping_add(1),
            Note::Nothing | Note::Frame(_, Deed::Dropped) | Note::Stopped => {}
        }
    }

    /// Returns whether there was no PRN, no HUH and no fault.
    pub fn is_clean(&self) -> bool
        ensures { result ≡ is_clean self.now }
    {
        self.prn == 0 && self.huh == 0 && self.faults == 0
    }
}

impl fmt::Display for Summary {
    ghost output = { λ summary. Some (summary_text summary) };

    fn fmt<W: fmt::Write>(&self, f: &mut fmt::Formatter<W>) -> fmt::Result {
        let Summary {
            relayed,
            prn,
            huh,
            faults,
        } = *self;
        write!(f, "relayed {relayed} prn {prn} huh {huh} faults {faults}")
    }
}
