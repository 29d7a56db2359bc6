//! Sessions with their ports and their meters at places that they keep until they end.
//!
//! A place is free, or kept for a session that is to come, or has a session. A session never moves, so its place is its
//! name in a run. All places are reserved at once, so a new session allocates only its two bodies.

ghost use Rattle.std.specs.Prelude.{◌≡◌, IfOk, IfErr, IfSome, IfNone, OnOk, OnErr, true, length};
ghost use Rattle.std.specs.List.{list_all};
ghost use Rattle.daide_protocol.specs.Config.{limits_with};
ghost use Rattle.daide_protocol.specs.Wires.{is_closed};
ghost use Rattle.daide_words.specs.Words.{words_of};
ghost use Rattle.daide_driver.specs.Hub.{IsReportedOf};
ghost use Rattle.daide_driver.specs.Slab.{SlabView, all_free, is_free_place, is_kept, is_held, is_at, IfHeldAt, IsAt, IsNoneFree, IsNextFree};
ghost use Rattle.daide_driver.specs.Slab.{with_place, with_ports_at_place, OpensAt, ChangesAt, IsSlotTurned};
ghost use Rattle.std.specs.Borrow.{Lends, sem};

use crate::meter::Meter;
use crate::place::SlabPlace;
use crate::slot::{Removed, SessionSlot};
use crate::turn_io::BUFFER;
use daide_frame::memory::Memory;
use daide_io::ports::Ports;
use daide_protocol::config::SessionLimits;
use daide_session::session::Session;
use daide_words::words::Words;
use std::alloc::{AllocError, Allocator, Global};
use std::marker::Model;
use std::mem;

/// Sessions at places. The abstract value has the limits of the sessions, and at each place the value of a session, its ports
/// and its meter, if it has one. All turns share one buffer, so that no turn has to clear a new one.
#[derive(Drop)]
pub struct Slab<P: Ports, A: Allocator = Global> {
    alloc: A,
    limits: SessionLimits,
    words: Words,
    places: Vec<SlabPlace<SessionSlot<P, A>>, A>,
    /// A free place; the number of places if none is free.
    next: usize,
    buffer: [u8; BUFFER],
}

impl<P: Ports, A: Allocator> Model for Slab<P, A> {
    ghost use Rattle.std.specs.Prelude.{map};
    ghost use Rattle.daide_words.specs.Words.{words_of};
    ghost use Rattle.daide_protocol.specs.Config.{limits_with};
    ghost use Rattle.daide_driver.specs.Slab.{SlabView, held_as, IsNextFree};

    ghost Value = { SlabView P };

    ghost view = { λ s. record {
      limits = limits_with s.limits.config (words_of s.words);
      places = map (held_as (λ slot. record { session = slot.session; ports = slot.ports; meter = slot.meter })) s.places.items;
    } };

    ghost invariant = { λ s. IsNextFree s.places.items s.next };
}

impl<P: Ports, A: Memory + Copy> Slab<P, A> {
    /// Creates a slab with `max` free places. Its only error is that the allocator refused room for them.
    pub fn with_limits(
        alloc: A,
        limits: SessionLimits,
        max: usize,
        words: Words,
    ) -> Result<Slab<P, A>, AllocError>
        ensures opening { IfOk result (λ slab. slab
            ≡ record { limits = limits_with limits.config (words_of words); places = all_free max }) }
        ensures refused { OnErr result (A.Refuses max) }
    {
        let mut places = alloc.with_capacity(max)?;
        for _place in 0..max {
            places.push_reserved(SlabPlace::Free);
        }
        Ok(Slab {
            alloc,
            limits,
            words,
            places,
            next: 0,
            buffer: [0; BUFFER],
        })
    }

    /// Begins a session with these ports and this quota of turns at a place that was kept. If the allocator refuses a body,
    /// nothing changes and the ports come back.
    pub fn open(&mut self, place: usize, ports: P, turns: u64) -> Result<(), P>
        requires { IsAt self.old place SlabPlace.Kept }
        ensures opens { OnOk result (OpensAt self.old place ports turns self.new) }
        ensures refused { OnErr result (A.Refuses self.old.limits.cap) }
        ensures unchanged { OnErr result (self.new ≡ self.old) }
        ensures ports_back { IfErr result (λ back. back ≡ ports) }
    {
        let Ok(session) = Session::with_limits(self.alloc, self.limits, self.words) else {
            return Err(ports);
        };
        let meter = Meter::new(turns);
        self.places[place] = SlabPlace::Held(SessionSlot {
            session,
            ports,
            meter,
        });
        Ok(())
    }
}

/// Returns the first free place of these; their number if none is free.
fn first_free<T>(places: &[SlabPlace<T>]) -> usize
    ensures { IsNextFree places.now result }
{
    for place in 0..places.len() {
        if places[place].is_free() {
            return place;
        }
    }
    places.len()
}

impl<P: Ports, A: Allocator + Copy> Slab<P, A> {
    ghost use Rattle.daide_driver.specs.contracts.slab.Slab.{the_row};

    /// Returns the number of places.
    pub fn len(&self) -> usize
        ensures { result ≡ length self.now.places }
    {
        self.places.len()
    }

    /// Returns a free place; `None` if there is none.
    pub fn next_free(&self) -> Option<usize>
        ensures free { IfSome result (λ place. IsAt self.now place SlabPlace.Free) }
        ensures full { IfNone result (IsNoneFree self.now.places) }
    {
        if self.next < self.places.len() {
            Some(self.next)
        } else {
            None
        }
    }

    /// Returns whether every place is free.
    pub fn is_empty(&self) -> bool
        ensures { result ≡ list_all is_free_place self.now.places }
    {
        self.places.iter().all(|place| place.is_free())
    }

    /// Returns whether a place is kept for a session that is to come.
    pub fn is_kept(&self, place: usize) -> bool
        ensures { result ≡ is_at is_kept self.now.places place }
    {
        match self.places.get(place) {
            Some(found) => found.is_kept(),
            None => false,
        }
    }

    /// Returns whether there is a session at a place.
    #[inline(always)]
    pub fn has(&self, place: usize) -> bool
        ensures { result ≡ is_at is_held self.now.places place }
    {
        match self.places.get(place) {
            Some(found) => found.is_held(),
            None => false,
        }
    }

    /// Keeps a free place for a session that is to come.
    pub fn keep(&mut self, place: usize)
        requires { IsAt self.old place SlabPlace.Free }
        ensures { self.new ≡ with_place self.old place SlabPlace.Kept }
    {
        self.places[place] = SlabPlace::Kept;
        self.next = first_free(&self.places);
    }

    /// Frees a place that was kept for a session that does not come.
    pub fn give_up(&mut self, place: usize)
        requires { IsAt self.old place SlabPlace.Kept }
        ensures { self.new ≡ with_place self.old place SlabPlace.Free }
    {
        self.places[place] = SlabPlace::Free;
        self.next = place;
    }

    /// Returns the session at a place.
    #[inline(always)]
    pub fn session(&self, place: usize) -> &Session<A>
        requires { is_at is_held self.now.places place ≡ true }
        ensures { IfHeldAt self.now.places place (λ item. result.now ≡ item.session) }
    {
        &self.places[place].item().session
    }

    /// Returns the meter of the session at a place.
    #[inline(always)]
    pub fn meter(&self, place: usize) -> Meter
        requires { is_at is_held self.now.places place ≡ true }
        ensures { IfHeldAt self.now.places place (λ held. result ≡ held.meter) }
    {
        self.places[place].item().meter
    }

    /// Returns the ports of the session at a place.
    #[inline(always)]
    pub fn ports(&self, place: usize) -> &P
        requires { is_at is_held self.now.places place ≡ true }
        ensures { IfHeldAt self.now.places place (λ item. result.now ≡ item.ports) }
    {
        &self.places[place].item().ports
    }

    /// Lends the ports of the session at a place, to begin a turn with them.
    ///
    /// `writes_back`: when the loan ends, the place has the ports as they were left. Its session, its meter, the other places
    /// and the limits are unchanged.
    #[inline(always)]
    pub fn ports_mut(&mut self, place: usize) -> &mut P
        requires { is_at is_held self.old.places place ≡ true }
        ensures* writes_back { sem 𝓛 (Lends (the_row P.row A.row P.Ports A.Allocator) P.row self.entry result
            (with_ports_at_place self.old place)) }
        ensures value { IfHeldAt self.old.places place (λ item. result.now ≡ item.ports) }
    {
        let lent = self.places[place].item_mut();
        &mut lent.ports
    }

    /// Makes one turn of the session at a place with its ports, by the clauses of `turn`, and counts it. Every other place is
    /// unchanged.
    ///
    /// A turn of an open session takes one of its turns left. If none is left, its clock reports a stop, so the session ends
    /// as if the operator stopped it: with an FM to each side.
    #[inline(always)]
    pub fn turn(&mut self, place: usize)
        requires { is_at is_held self.old.places place ≡ true }
        ensures { ChangesAt (IsSlotTurned P.transition) self.old place self.new }
    {
        self.places[place].item_mut().turn(&mut self.buffer);
    }

    /// Takes out the closed session at a place, and frees the place.
    ///
    /// `reported`: it returns the session's ports, its counts by side, its last level, what ended it, and the field that its
    /// fault is about.
    #[inline(never)]
    pub fn remove(&mut self, place: usize) -> Removed<P>
        requires held { is_at is_held self.old.places place ≡ true }
        requires closed { IfHeldAt self.old.places place (λ item. is_closed item.session ≡ true) }
        ensures frees { self.new ≡ with_place self.old place SlabPlace.Free }
        ensures ports { IfHeldAt self.old.places place (λ item. result.ports ≡ item.ports) }
        ensures reported { IfHeldAt self.old.places place
            (λ item. IsReportedOf item.session result.account result.ending result.fault_field) }
    {
        let taken = mem::replace(&mut self.places[place], SlabPlace::Free);
        self.next = place;
        match taken {
            SlabPlace::Held(slot) => {
                let SessionSlot {
                    session,
                    ports,
                    meter: _,
                } = slot;
                Removed::from_closed(session, ports)
            }
            _ => unreachable!(),
        }
    }
}
