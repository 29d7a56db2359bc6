//! A free list of I/O buffers, so that a run allocates as many as are in use at the same time.

ghost use Rattle.std.specs.Prelude.{◌≡◌, IfSome};
ghost use Rattle.daide_buffered_io.specs.Buffers.{all_room};

use crate::io_buffer::IoBuffer;
use std::alloc::Global;
use std::cell::RefCell;
use std::marker::Model;

/// The most free buffers that are kept. Further ones are deallocated.
const MOST_FREE: usize = 64;

/// The free buffers, at most 64 of 16,384 bytes each: 1 MB. The abstract value is their number.
#[derive(Drop)]
struct Free {
    rooms: Vec<IoBuffer>,
}

impl Model for Free {
    ghost use Rattle.std.specs.Prelude.{ℕ, ◌≤◌, vec_len};

    ghost Value = { ℕ };

    ghost view = { λ free. vec_len free.rooms };

    ghost invariant = { λ free. vec_len free.rooms ≤ 64 };
}

impl Free {
    /// Creates an empty list.
    fn new(alloc: Global) -> Free
        ensures { result ≡ 0 }
    {
        Free {
            rooms: Vec::new(alloc),
        }
    }

    /// Removes and returns a buffer, or returns `None` if the list is empty.
    fn take(&mut self) -> Option<IoBuffer> {
        self.rooms.pop()
    }

    /// Adds a buffer, or deallocates it if the list is full.
    fn keep(&mut self, storage: IoBuffer) {
        if self.rooms.len() < MOST_FREE {
            // If the list can't grow, the buffer is deallocated.
            let _ = self.rooms.push(storage);
        }
    }
}

/// The buffers of a run's sockets. A socket takes one with its first buffered byte, and gives it back with the last. At
/// most 64 free buffers of 16,384 bytes are kept (the invariant of `Free`).
#[derive(Drop)]
pub struct Pool {
    alloc: Global,
    free: RefCell<Free>,
}

impl Pool {
    /// Creates a pool without buffers.
    pub fn new(alloc: Global) -> Pool {
        Pool {
            alloc,
            free: RefCell::new(Free::new(alloc)),
        }
    }

    /// Returns a buffer from the free list, if there is one.
    fn take_back(&self) -> Option<IoBuffer> {
        let Ok(mut free) = self.free.try_borrow_mut() else {
            return None;
        };
        free.take()
    }

    /// Returns an empty buffer: a free one, or else a new one. Returns `None` if the allocation is refused.
    pub fn take(&self) -> Option<IoBuffer>
        ensures { IfSome result (λ storage. storage ≡ all_room) }
    {
        match self.take_back() {
            Some(storage) => {
                let mut storage = storage;
                storage.clear();
                Some(storage)
            }
            None => IoBuffer::new(self.alloc).ok(),
        }
    }

    /// Gives a buffer back.
    pub fn give_back(&self, storage: IoBuffer) {
        if let Ok(mut free) = self.free.try_borrow_mut() {
            free.keep(storage);
        }
    }
}
