//! Draining: bytes that are read from a closing stream and discarded.

ghost use Rattle.std.specs.Prelude.{◌≡◌, ◌+◌, ◌<◌, ◌≤◌, ℕ, List, [], min, length, true};
ghost use Rattle.daide_io.specs.declared.ports.Pull.{Pull};
ghost use Rattle.daide_buffered_io.specs.Buffers.{Passes, WritesNothing, IsBufferedPull, drop_size};
ghost use Rattle.daide_buffered_io.specs.Calls.{is_last_piece};

use crate::buffered::Buffered;
use crate::pool::Pool;
use crate::readiness::Readiness;
use daide_io::duplex::Duplex;
use daide_io::ports::Pull;
use std::marker::Model;

/// The most bytes that one call discards.
const PIECE: usize = 4096;

/// A budget of bytes that may still be discarded. Its abstract value is their number.
#[derive(Drop)]
pub struct Dropping {
    left: usize,
}

impl Model for Dropping {
    ghost Value = { ℕ };

    ghost view = { λ dropping. dropping.left };
}

impl Dropping {
    /// Creates a budget of `most` bytes.
    pub fn new(most: usize) -> Dropping
        ensures { result ≡ most }
    {
        Dropping { left: most }
    }

    /// Pulls once, discards up to `PIECE` bytes, and subtracts their number from the budget.
    ///
    /// `pulled`: it returns true if draining is finished: the stream ended, a read failed, or the budget is used up.
    ///
    /// `dropped`: it discards exactly as many bytes as the budget shrinks by: those that the stream gives next, after
    /// all that the session read.
    ///
    /// `unwritten`: the stream takes nothing more.
    pub fn drop_piece<S: Duplex + Drop>(
        &mut self,
        stream: &mut Buffered<S>,
        pool: &Pool,
        readiness: &mut Readiness,
    ) -> bool
        ensures pulled { (pull : Pull) × IsBufferedPull S.calls (min self.old drop_size) readiness.old stream.old pull
            readiness.new stream.new × (0 < length stream.old.read_buffer →
            pull ≡ Pull.Got (min (length stream.old.read_buffer) (min self.old drop_size)))
            × (result ≡ is_last_piece pull self.new) }
        ensures fewer { self.new ≤ self.old }
        ensures piece { self.old ≤ self.new + PIECE }
        ensures dropped { (bytes : List ℕ) × (self.old ≡ self.new + length bytes)
            × Passes S.to_give S.taken stream.old bytes [] stream.new }
        ensures unwritten { WritesNothing S.taken stream.old stream.new }
        ensures failed { stream.new.has_failed ≡ stream.old.has_failed }
    {
        let mut piece = [0; PIECE];
        let free_space = self.left.min(PIECE);
        match stream.pull(pool, readiness, &mut piece[..free_space]) {
            Pull::Got(count) => self.left -= count,
            Pull::Idle => {}
            Pull::Ended => return true,
        }
        self.left == 0
    }
}
