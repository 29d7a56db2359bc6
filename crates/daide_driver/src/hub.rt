//! Many sessions with their ports, none of which affects another.
//!
//! A hub reserves the places of all its sessions at once. So `add` allocates only the two bodies of a new session, and
//! no other call allocates.

ghost use Rattle.std.specs.Prelude.{◌≡◌, ◌+◌, ◌*◌, ◌<◌, ◌≤◌, [], length, Ok, Some, None, false};
ghost use Rattle.std.specs.Prelude.{IfOk, IfErr, IfSome, IfNone, OnOk, OnErr, slice_get, sum_by};
ghost use Rattle.daide_protocol.specs.Bounds.{IsSessionCount};
ghost use Rattle.daide_protocol.specs.Wires.{is_closed};
ghost use Rattle.daide_protocol.specs.Config.{config_fault};
ghost use Rattle.daide_protocol.specs.Config.{limits_of, limits_with};
ghost use Rattle.daide_words.specs.Words.{words_of};
ghost use Rattle.daide_driver.specs.Hub.{HubView, IsHubCause, IsAddCause, AddsSession, Removes, Changes, IsTurned};
ghost use Rattle.std.specs.Borrow.{Lends, sem};
ghost use Rattle.daide_driver.specs.Hub.{IsReportedOf, with_ports, weight_at, session_bound};

use crate::meter::Moved;
pub use crate::slot::Removed;
use crate::turn_io::{BUFFER, turn_through};
use daide_frame::memory::Memory;
use daide_io::ports::Ports;
use daide_protocol::bounds::MAX_SESSIONS;
use daide_protocol::config::{Config, ConfigError, SessionLimits};
use daide_session::session::Session;
use daide_words::words::Words;
use std::alloc::{AllocError, Allocator, Global};
use std::marker::Model;

/// Why no hub was created, in the order of the checks.
#[derive(Clone, Copy, Debug, PartialEq, Eq)]
pub enum HubError {
    /// A limit of the sessions is wrong.
    Config(ConfigError),
    /// The number of sessions is not from 1 to 256.
    Sessions,
    /// The allocator refused the places.
    Memory,
}

/// Why no session was added, in the order of the checks.
#[derive(Clone, Copy, Debug, PartialEq, Eq)]
pub enum AddFault {
    /// The hub has its maximum number of sessions.
    Full,
    /// The allocator refused a body.
    Memory,
}

/// A session and its ports.
#[derive(Drop)]
struct HubPlace<P: Ports, A: Allocator> {
    session: Session<A>,
    ports: P,
}

impl<P: Ports, A: Allocator> HubPlace<P, A> {
    /// Makes one turn of the session with its ports, by the clauses of `turn`.
    #[inline(always)]
    fn turn(&mut self, buffer: &mut [u8; BUFFER])
        ensures { IsTurned P.transition (self.old.session, self.old.ports) (self.new.session, self.new.ports) }
    {
        let mut moved = Moved::nothing();
        turn_through(
            &mut self.session,
            &mut self.ports,
            false,
            &mut moved,
            buffer,
        );
    }
}

/// Sessions in one loop. The abstract value has the limits of the sessions, their maximum number, and at each place the
/// value of a session and its ports. All turns share one buffer, so that no turn has to clear a new one.
#[derive(Drop)]
pub struct Hub<P: Ports, A: Allocator = Global> {
    alloc: A,
    limits: SessionLimits,
    words: Words,
    max: usize,
    places: Vec<HubPlace<P, A>, A>,
    buffer: [u8; BUFFER],
}

impl<P: Ports, A: Allocator> Model for Hub<P, A> {
    ghost use Rattle.std.specs.Prelude.{map, vec_capacity};
    ghost use Rattle.daide_words.specs.Words.{words_of};
    ghost use Rattle.daide_protocol.specs.Config.{limits_with};
    ghost use Rattle.daide_driver.specs.Hub.{HubView, IsHubSession};

    ghost Value = { HubView P };

    ghost view = { λ h. record {
      limits = limits_with h.limits.config (words_of h.words);
      max = h.max;
      places = map (λ p. (p.session, p.ports)) h.places.items;
    } };

    ghost invariant = { λ h. IsHubSession (λ p. p.session) h.limits.config (words_of h.words) h.max (vec_capacity h.places)
        h.places.items };
}

impl<P: Ports, A: Memory + Copy> Hub<P, A> {
    /// Creates a hub without sessions, with room for `max` of them, and without an operator's words.
    ///
    /// `refused`: it refuses a wrong limit and a wrong number of sessions. It returns `Memory` only after the allocator
    /// refused room for `max` places (`IsHubCause`).
    pub fn new(alloc: A, config: Config, max: usize) -> Result<Hub<P, A>, HubError>
        ensures opening { IfOk result (λ hub. hub ≡ record { limits = limits_of config; max = max; places = [] }) }
        ensures accepted { IfOk result (λ hub. (config_fault config ≡ Ok tt) × IsSessionCount max) }
        ensures refused { IfErr result (λ error. IsHubCause A.Refuses config max error) }
    {
        let limits = match config.limits() {
            Ok(limits) => limits,
            Err(fault) => return Err(HubError::Config(fault)),
        };
        if max == 0 || max > MAX_SESSIONS {
            return Err(HubError::Sessions);
        }
        match Hub::with_limits(alloc, limits, max, Words::new()) {
            Ok(hub) => Ok(hub),
            Err(_) => Err(HubError::Memory),
        }
    }

    /// Creates a hub with checked limits and a right number of sessions, whose messages may have these words of the
    /// operator's.
    ///
    /// `refused`: its only error is that the allocator refused room for `max` places.
    pub fn with_limits(
        alloc: A,
        limits: SessionLimits,
        max: usize,
        words: Words,
    ) -> Result<Hub<P, A>, AllocError>
        requires { IsSessionCount max }
        ensures opening { IfOk result (λ hub. hub
            ≡ record { limits = limits_with limits.config (words_of words); max = max; places = [] }) }
        ensures refused { OnErr result (A.Refuses max) }
    {
        let places = alloc.with_capacity(max)?;
        Ok(Hub {
            alloc,
            limits,
            words,
            max,
            places,
            buffer: [0; BUFFER],
        })
    }

    /// Adds a session in its opening state with these ports, and returns its place, which is the last. If it fails,
    /// nothing changes and it returns the ports.
    ///
    /// `refused`: it returns `Full` if and only if there are as many sessions as places. It returns `Memory` only after
    /// the allocator refused room for a body (`IsAddCause`).
    pub fn add(&mut self, ports: P) -> Result<usize, (AddFault, P)>
        ensures place { IfOk result (λ i. i ≡ length self.old.places) }
        ensures room { OnOk result (length self.old.places < self.old.max) }
        ensures added { OnOk result (AddsSession self.old ports self.new) }
        ensures refused { IfErr result (λ refusal. IsAddCause A.Refuses self.old refusal.0) }
        ensures unchanged { OnErr result (self.new ≡ self.old) }
        ensures ports_back { IfErr result (λ refusal. refusal.1 ≡ ports) }
    {
        let place = self.places.len();
        if place == self.max {
            return Err((AddFault::Full, ports));
        }
        let Ok(session) = Session::with_limits(self.alloc, self.limits, self.words) else {
            return Err((AddFault::Memory, ports));
        };
        self.places.push_reserved(HubPlace { session, ports });
        Ok(place)
    }
}

impl<P: Ports, A: Allocator + Copy> Hub<P, A> {
    ghost use Rattle.daide_driver.specs.contracts.hub.Hub.{the_row};

    /// Makes one turn of the session at a place with its ports, by the clauses of `turn`. Every other session and its
    /// ports are unchanged.
    #[inline(always)]
    pub fn turn(&mut self, i: usize)
        requires { i < length self.old.places }
        ensures { Changes (IsTurned P.transition) self.old i self.new }
    {
        self.places[i].turn(&mut self.buffer);
    }

    /// Returns the session at a place.
    pub fn session(&self, i: usize) -> &Session<A>
        requires { i < length self.now.places }
        ensures { IfSome (slice_get self.now.places i) (λ place. result.now ≡ place.0) }
    {
        &self.places[i].session
    }

    /// Returns the ports of the session at a place.
    pub fn ports(&self, i: usize) -> &P
        requires { i < length self.now.places }
        ensures { IfSome (slice_get self.now.places i) (λ place. result.now ≡ place.1) }
    {
        &self.places[i].ports
    }

    /// Lends the ports of the session at a place, to begin a turn with them.
    ///
    /// `writes_back`: when the loan ends, the place has the ports as they were left. Its session, the other places and
    /// the limits are unchanged.
    pub fn ports_mut(&mut self, i: usize) -> &mut P
        requires { i < length self.old.places }
        ensures* writes_back { sem 𝓛 (Lends (the_row P.row A.row P.Ports A.Allocator) P.row self.entry result
            (with_ports self.old i)) }
        ensures value { IfSome (slice_get self.old.places i) (λ place. result.now ≡ place.1) }
    {
        let lent = &mut self.places[i];
        &mut lent.ports
    }

    /// Returns the number of sessions.
    pub fn count(&self) -> usize
        ensures { result ≡ length self.now.places }
    {
        self.places.len()
    }

    /// Returns what all sessions hold together.
    ///
    /// `sum`: it is the sum of the sessions' weights.
    ///
    /// `bound`: for each session it is at most a whole body and a full stack for each side, and 64 frames
    /// (`session_bound`).
    pub fn weight(&self) -> usize
        ensures sum { result ≡ sum_by weight_at self.now.places }
        ensures bound { result ≤ length self.now.places * session_bound self.now.limits }
    {
        let mut total = 0;
        for place in &self.places {
            total += place.session.weight();
        }
        total
    }

    /// Takes out the session at a place if it is over and nothing waits; the later ones move down one place. Else
    /// nothing changes.
    ///
    /// `reported`: it returns the session's ports, its counts by side, its last level, what ended it, and the field that its
    /// fault is about.
    pub fn remove_over(&mut self, i: usize) -> Option<Removed<P>>
        requires { i < length self.old.places }
        ensures moved_down { IfSome result (λ removed. Removes self.old i removed.ports self.new) }
        ensures reported { IfSome result (λ removed. IfSome (slice_get self.old.places i)
            (λ place. IsReportedOf place.0 removed.account removed.ending removed.fault_field)) }
        ensures unchanged { IfNone result (self.new ≡ self.old) }
        ensures open { IfNone result (IfSome (slice_get self.old.places i) (λ place. is_closed place.0 ≡ false)) }
    {
        if !self.places[i].session.is_closed() {
            return None;
        }
        let slot = self.places.remove(i);
        let HubPlace { session, ports } = slot;
        Some(Removed::from_closed(session, ports))
    }
}
