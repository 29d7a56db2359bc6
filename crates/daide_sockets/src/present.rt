//! The bots that are there, by whose hosts a further one is accepted.

ghost use Rattle.std.specs.Prelude.{◌≡◌, ◌++◌, ◌∷◌, [], true, false, IfSome, length};
ghost use Rattle.daide_settings.specs.Ranges.{count_at, may_come as is_let_in, same_host};
ghost use Rattle.daide_sockets.specs.Present.{HasRoomForOne, hosts_of, is_there, position_of, without_at, without_bot};

use daide_settings::{AddressRange, Host, may_come};
use std::alloc::Global;
use std::net::SocketAddr;
use std::time::Instant;

/// A bot that was accepted.
#[derive(Clone, Copy)]
pub struct Bot {
    /// The number of its session.
    pub number: u32,
    pub host: Host,
    pub address: SocketAddr,
    /// The reading of the clock at which it came; `None` if there was none.
    pub since: Option<Instant>,
}

/// The bots that are there, with a connect under way or in a session, in the order in which they came.
#[derive(Drop)]
pub struct Present {
    bots: Vec<Bot>,
}

/// Returns the position of the bot with a number; the length of the list if it is not there.
fn position_of(number: u32, bots: &[Bot]) -> usize
    ensures { result ≡ position_of number bots.now }
{
    let mut at = 0;
    let mut rest = bots;
    while let [first, others @ ..] = rest {
        if first.number == number {
            return at;
        }
        at += 1;
        rest = others;
    }
    at
}

/// Returns true if both are the same address.
fn is_same_host(one: Host, other: Host) -> bool
    ensures { result ≡ same_host one other }
{
    match (one, other) {
        (Host::V4(one), Host::V4(other)) => one == other,
        (Host::V6(one), Host::V6(other)) => one == other,
        _ => false,
    }
}

/// Returns how many bots are from a host.
fn count_at(host: Host, bots: &[Bot]) -> usize
    ensures { result ≡ count_at host (hosts_of bots.now) }
{
    let mut count = 0;
    let mut rest = bots;
    while let [first, others @ ..] = rest {
        if is_same_host(host, first.host) {
            count += 1;
        }
        rest = others;
    }
    count
}

impl Present {
    /// Creates the list of a run with at most this many bots at once. Returns `None` if memory is refused.
    pub fn new(alloc: Global, most: usize) -> Option<Present>
        ensures { IfSome result (λ present. present.bots.items ≡ []) }
    {
        let Ok(bots) = Vec::with_capacity(alloc, most) else {
            return None;
        };
        Some(Present { bots })
    }

    /// Returns true if a further bot may come from a host beside those that are there.
    pub(crate) fn may_come(&self, allow: &[AddressRange], most: u16, host: Host) -> bool
        ensures { result ≡ is_let_in allow.now most (hosts_of self.now.bots.items) host }
    {
        may_come(allow, 0, &[], host)
            && (most == 0 || count_at(host, self.bots.as_slice()) < most as usize)
    }

    /// Returns their number.
    pub(crate) fn len(&self) -> usize
        ensures { result ≡ length self.now.bots.items }
    {
        self.bots.len()
    }

    /// Returns whether the bot with this number is there.
    pub(crate) fn has(&self, number: u32) -> bool
        ensures { result ≡ is_there number self.now.bots.items }
    {
        position_of(number, self.bots.as_slice()) < self.bots.len()
    }

    /// Adds a bot. Returns false if there is no room for it, and changes nothing then.
    pub(crate) fn add(&mut self, bot: Bot) -> bool
        ensures added { result ≡ true → self.new.bots.items ≡ self.old.bots.items ++ bot ∷ [] }
        ensures full { result ≡ false → self.new ≡ self.old }
        ensures room { HasRoomForOne self.old → result ≡ true }
    {
        if self.bots.len() >= self.bots.capacity() {
            return false;
        }
        self.bots.push_reserved(bot);
        true
    }

    /// Removes the bot with this number, if it is there.
    pub(crate) fn remove(&mut self, number: u32)
        ensures { self.new.bots.items ≡ without_bot number self.old.bots.items }
    {
        let at = position_of(number, self.bots.as_slice());
        if at < self.bots.len() {
            self.bots.remove(at);
        }
    }
}
