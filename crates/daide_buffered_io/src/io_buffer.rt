//! The I/O buffer: bytes between a stream and its caller.

ghost use Rattle.std.specs.Prelude.{◌≡◌, ◌≤◌, ◌++◌, false, min, length, take, drop, IfOk};
ghost use Rattle.std.specs.Io.KnownBytes.{Consumes};
ghost use Rattle.daide_io.specs.Ports.{pulled_len};
ghost use Rattle.daide_buffered_io.specs.Buffers.{all_room};
ghost use Rattle.daide_buffered_io.specs.Calls.{IsPull, IsPut};
ghost use Rattle.daide_buffered_io.specs.Taking.{IsTaken, taken_len};

use crate::calls::{pull_from, put_to};
use crate::readiness::Readiness;
use daide_io::duplex::Duplex;
use daide_io::ports::{Pull, Put};
use std::alloc::{AllocError, Global};
use std::marker::Model;

/// The capacity of a buffer, in bytes.
pub const MOST_HELD: usize = 16384;

/// A FIFO byte buffer with a capacity of `MOST_HELD`, allocated at once. Its abstract value is the list of its bytes,
/// and the free space after the last of them. Removing the first bytes adds nothing to it; only an emptied buffer is
/// reset.
#[derive(Drop)]
pub struct IoBuffer {
    bytes: Vec<u8>,
    from: usize,
    to: usize,
}

impl Model for IoBuffer {
    ghost use Rattle.std.specs.Prelude.{◌≡◌, ◌≤◌, ◌-◌, take, drop, vec_len};
    ghost use Rattle.daide_buffered_io.specs.Buffers.{Roomful, buffer_size};

    ghost Value = { Roomful };

    ghost view = { λ h. record { bytes = take (h.to - h.from) (drop h.from h.bytes.items); free_space = buffer_size - h.to } };

    ghost invariant = { λ h. (h.from ≤ h.to) × (h.to ≤ vec_len h.bytes) × (vec_len h.bytes ≡ buffer_size) };
}

impl IoBuffer {
    /// Allocates an empty buffer. Fails if the allocation is refused.
    pub fn new(alloc: Global) -> Result<IoBuffer, AllocError>
        ensures { IfOk result (λ storage. storage ≡ all_room) }
    {
        let mut bytes = Vec::with_capacity(alloc, MOST_HELD)?;
        bytes.resize(MOST_HELD, 0)?;
        Ok(IoBuffer {
            bytes,
            from: 0,
            to: 0,
        })
    }

    /// Returns the bytes.
    pub fn as_slice(&self) -> &[u8]
        ensures value { result.now ≡ self.now.bytes }
        ensures few { length result.now ≤ MOST_HELD }
    {
        &self.bytes[self.from..self.to]
    }

    /// Returns the free space, in bytes.
    pub fn free_space(&self) -> usize
        ensures value { result ≡ self.now.free_space }
        ensures few { result ≤ MOST_HELD }
    {
        MOST_HELD - self.to
    }

    /// Removes all bytes.
    pub fn clear(&mut self)
        ensures { self.new ≡ all_room }
    {
        self.from = 0;
        self.to = 0;
    }

    /// Removes the first `count` bytes.
    pub fn skip(&mut self, count: usize)
        requires { count ≤ length self.old.bytes }
        ensures { self.new ≡ record self.old { bytes = drop count self.old.bytes } }
    {
        self.from += count;
    }

    /// Moves the first bytes to the caller's buffer, as many as fit, and returns their number.
    pub fn give(&mut self, buffer: &mut [u8]) -> usize
        ensures count { result ≡ min (length self.old.bytes) (length buffer.old) }
        ensures len { length buffer.new ≡ length buffer.old }
        ensures bytes { self.old.bytes ≡ take result buffer.new ++ self.new.bytes }
        ensures few { length self.new.bytes ≤ MOST_HELD }
    {
        let storage = self.as_slice();
        let count = storage.len().min(buffer.len());
        buffer[..count].copy_from_slice(&storage[..count]);
        self.skip(count);
        count
    }

    /// Appends a prefix of the bytes, as long as the free space allows, and returns its length.
    pub fn coalesce(&mut self, bytes: &[u8]) -> usize
        ensures count { result ≡ min self.old.free_space (length bytes.now) }
        ensures within { result ≤ length bytes.now }
        ensures bytes { self.new.bytes ≡ self.old.bytes ++ take result bytes.now }
        ensures few { length self.new.bytes ≤ MOST_HELD }
    {
        let start = self.to;
        let count = (MOST_HELD - start).min(bytes.len());
        self.bytes[start..start + count].copy_from_slice(&bytes[..count]);
        self.to = start + count;
        count
    }

    /// Replaces the bytes by what one read of the stream returns. Returns what `pull_from` returns.
    pub fn refill<S: Duplex>(&mut self, stream: &mut S, readiness: &mut Readiness) -> Pull
        ensures given { Consumes (S.to_give stream.old) (S.to_give stream.new) self.new.bytes }
        ensures asked { IsPull S.calls MOST_HELD readiness.old stream.old result readiness.new stream.new }
        ensures count { length self.new.bytes ≡ pulled_len result }
        ensures apart { S.taken stream.new ≡ S.taken stream.old }
        ensures writes { readiness.new.may_write ≡ readiness.old.may_write }
    {
        self.from = 0;
        self.to = 0;
        let pull = pull_from(stream, readiness, self.bytes.as_mut_slice());
        if let Pull::Got(count) = pull {
            self.to = count;
        }
        pull
    }

    /// Writes the bytes once, and removes those that the stream accepted. Returns what `put_to` returns.
    pub fn drain<S: Duplex>(&mut self, stream: &mut S, readiness: &mut Readiness) -> Put
        ensures asked { IsPut S.calls self.old.bytes readiness.old stream.old result readiness.new stream.new }
        ensures taken { IsTaken (S.taken stream.old) self.old.bytes result (S.taken stream.new) }
        ensures rest { self.new.bytes ≡ drop (taken_len result) self.old.bytes }
        ensures apart { S.to_give stream.new ≡ S.to_give stream.old }
        ensures reads { readiness.new.may_read ≡ readiness.old.may_read }
        ensures full { readiness.old.may_write ≡ false → readiness.new.may_write ≡ false }
        ensures few { length self.new.bytes ≤ MOST_HELD }
    {
        match put_to(stream, readiness, self.as_slice()) {
            Put::Took(taken) => {
                self.skip(taken);
                Put::Took(taken)
            }
            Put::Failed => Put::Failed,
        }
    }
}
