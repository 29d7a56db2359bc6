//! The places of a run whose sessions have something to do, in the order in which they are visited.
//!
//! A place is in at most one of two lists. One that was at rest and becomes ready joins the end of `fresh`. One that is
//! put back after its turns joins the end of `moving`. So each push and pop is one step, whatever the number of places.

ghost use Rattle.std.specs.Prelude.{◌≡◌, ◌&&◌, ◌==◌, [], ◌∷◌, false, length, IfOk, IfSome, IfNone, OnErr};
ghost use Rattle.daide_io.specs.ReadyQueue.{queued_places, woken, put_back, TakesFresh, TakesMoving, TakesNext};

use daide_frame::memory::Memory;
use std::alloc::{AllocError, Allocator, Global};
use std::collections::VecDeque;
use std::marker::Model;

/// The places of a run that are to be visited, each at most once. The abstract value has both lists and the number of
/// places.
#[derive(Drop)]
pub struct ReadyQueue<A: Allocator = Global> {
    /// Those that were at rest and became ready.
    fresh: VecDeque<usize, A>,
    /// Those that had turns and have more to do.
    moving: VecDeque<usize, A>,
    /// Whether each place is in one of the lists.
    marks: Vec<bool, A>,
}

impl<A: Allocator> Model for ReadyQueue<A> {
    ghost use Rattle.std.specs.Prelude.{◌≤◌, ◌++◌, length};
    ghost use Rattle.std.specs.VecDeque.{deque_capacity};
    ghost use Rattle.daide_io.specs.ReadyQueue.{ReadyView, AreMarked};

    ghost Value = { ReadyView };

    ghost view = { λ q. record {
      fresh = q.fresh.items;
      moving = q.moving.items;
      places = length q.marks.items;
    } };

    // each place that is marked is in one list, once, and each list has room for all places
    ghost invariant = { λ q. AreMarked q.marks.items (q.fresh.items ++ q.moving.items)
        × (length q.marks.items ≤ deque_capacity q.fresh) × (length q.marks.items ≤ deque_capacity q.moving) };
}

impl<A: Memory + Copy> ReadyQueue<A> {
    /// Creates an empty queue for this number of places. Allocates its room at once. Its only error is that the allocator
    /// refused it.
    pub fn new(alloc: A, places: usize) -> Result<ReadyQueue<A>, AllocError>
        ensures empty { IfOk result (λ queue. queue ≡ record { fresh = []; moving = []; places = places }) }
        ensures refused { OnErr result (A.Refuses places) }
    {
        let fresh = VecDeque::from_vec(alloc.with_capacity(places)?);
        let moving = VecDeque::from_vec(alloc.with_capacity(places)?);
        let mut marks = alloc.with_capacity(places)?;
        for _place in 0..places {
            marks.push_reserved(false);
        }
        Ok(ReadyQueue {
            fresh,
            moving,
            marks,
        })
    }
}

impl<A: Allocator> ReadyQueue<A> {
    /// Returns whether no place is to be visited.
    pub fn is_empty(&self) -> bool
        ensures { result ≡ ((length self.now.fresh == 0) && (length self.now.moving == 0)) }
    {
        self.fresh.is_empty() && self.moving.is_empty()
    }

    /// Adds a place that was at rest and has something to do, unless it is there.
    pub fn wake(&mut self, place: usize)
        ensures { self.new ≡ woken self.old place }
    {
        if place >= self.marks.len() || self.marks[place] {
            return;
        }
        self.marks[place] = true;
        self.fresh.push_back_reserved(place);
    }

    /// Adds a place that had turns and has more to do, unless it is there.
    pub fn put_back(&mut self, place: usize)
        ensures { self.new ≡ put_back self.old place }
    {
        if place >= self.marks.len() || self.marks[place] {
            return;
        }
        self.marks[place] = true;
        self.moving.push_back_reserved(place);
    }

    /// Takes out the first place that was at rest; `None` if there is none.
    fn next_fresh(&mut self) -> Option<usize>
        ensures some { IfSome result (λ place. TakesFresh self.old place self.new) }
        ensures none { IfNone result ((self.old.fresh ≡ []) × (self.new ≡ self.old)) }
    {
        let place = self.fresh.pop_front()?;
        self.marks[place] = false;
        Some(place)
    }

    /// Takes out the first place that had turns; `None` if there is none.
    fn next_moving(&mut self) -> Option<usize>
        ensures some { IfSome result (λ place. TakesMoving self.old place self.new) }
        ensures none { IfNone result ((self.old.moving ≡ []) × (self.new ≡ self.old)) }
    {
        let place = self.moving.pop_front()?;
        self.marks[place] = false;
        Some(place)
    }

    /// Takes out the next place: the first of those that were at rest, or of those that had turns if there is none; the
    /// other way round unless `fresh_first`.
    pub fn next(&mut self, fresh_first: bool) -> Option<usize>
        ensures some { IfSome result (λ place. TakesNext fresh_first self.old place self.new) }
        ensures none { IfNone result ((queued_places self.old ≡ []) × (self.new ≡ self.old)) }
    {
        if fresh_first {
            match self.next_fresh() {
                Some(place) => Some(place),
                None => self.next_moving(),
            }
        } else {
            match self.next_moving() {
                Some(place) => Some(place),
                None => self.next_fresh(),
            }
        }
    }
}
