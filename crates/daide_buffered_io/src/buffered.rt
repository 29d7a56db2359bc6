//! A stream with a read buffer and a write buffer.
//!
//! A system call costs more than the processing of a short frame. So one read takes what is available, up to
//! `MOST_HELD` bytes, and pulls return it piece by piece. Small puts are collected until a flush, or until the buffer
//! is full. A buffer is taken from the pool only while it has bytes. If the pool can't allocate one, the stream is read
//! and written without buffers.

ghost use Rattle.std.specs.Prelude.{◌≡◌, ◌<◌, ◌≤◌, ◌++◌, [], ◌∷◌, true, false, min, length, take, IfSome};
ghost use Rattle.daide_io.specs.Ports.{AppendsTo, IsPullWithin, IsPutWithin, pulled_len};
ghost use Rattle.daide_buffered_io.specs.Buffers.{Passes, ReadsNothing, WritesNothing, IsBufferedPull, IsFlushed, IsWriteOnly, buffered_bytes, with_stream};
ghost use Rattle.std.specs.Borrow.{Lends, sem};
ghost use Rattle.daide_buffered_io.specs.Calls.{IsStopped, OnlyPuts};
ghost use Rattle.daide_io.specs.Streams.{WritingEnded};
ghost use Rattle.daide_buffered_io.specs.Taking.{bytes_taken};

use crate::calls::{pull_from, put_to};
use crate::io_buffer::{IoBuffer, MOST_HELD};
use crate::pool::Pool;
use crate::readiness::Readiness;
use daide_io::duplex::Duplex;
use daide_io::ports::{Pull, Put};
use std::marker::Model;

/// A stream with its read buffer (`read_buffer`) and its write buffer (`write_buffer`), each `None` while it is empty.
#[derive(Drop)]
pub struct Buffered<S: Drop> {
    stream: S,
    read_buffer: Option<IoBuffer>,
    write_buffer: Option<IoBuffer>,
    /// Whether a write failed. If so, nothing more is written.
    has_failed: bool,
}

impl<S: Drop> Model for Buffered<S> {
    ghost use Rattle.std.specs.Prelude.{◌<◌, IfSome, length};
    ghost use Rattle.daide_buffered_io.specs.Buffers.{Buffer, buffered_bytes};

    ghost Value = { Buffer S };

    ghost view = { λ b. record {
      stream = b.stream;
      read_buffer = buffered_bytes b.read_buffer;
      write_buffer = buffered_bytes b.write_buffer;
      has_failed = b.has_failed;
    } };

    ghost invariant = { λ b. IfSome b.read_buffer (λ storage. 0 < length storage.bytes)
        × IfSome b.write_buffer (λ storage. 0 < length storage.bytes) };
}

/// Returns the buffer if it has bytes, or else gives it back to the pool.
fn kept(storage: IoBuffer, pool: &Pool) -> Option<IoBuffer>
    ensures bytes { buffered_bytes result ≡ storage.bytes }
    ensures some { IfSome result (λ kept. 0 < length kept.bytes) }
{
    if storage.as_slice().is_empty() {
        pool.give_back(storage);
        return None;
    }
    Some(storage)
}

impl<S: Drop> Buffered<S> {
    ghost use Rattle.daide_buffered_io.specs.contracts.buffered.Buffered.{the_row};

    /// Wraps a stream, with empty buffers.
    pub fn new(stream: S) -> Buffered<S>
        ensures { result ≡ record { stream = stream; read_buffer = []; write_buffer = []; has_failed = false } }
    {
        Buffered {
            stream,
            read_buffer: None,
            write_buffer: None,
            has_failed: false,
        }
    }

    /// Returns the stream.
    pub fn stream(&self) -> &S
        ensures { result.now ≡ self.now.stream }
    {
        &self.stream
    }

    /// Lends the stream itself, to have it followed under another key. When the loan ends, the stream is as it was left, and
    /// both buffers are unchanged.
    pub fn stream_mut(&mut self) -> &mut S
        ensures* writes_back { sem 𝓛 (Lends (the_row S.row) S.row self.entry result (with_stream self.old)) }
        ensures value { result.now ≡ self.old.stream }
    {
        &mut self.stream
    }

    /// Returns whether the read buffer has bytes.
    pub fn has_read_ahead(&self) -> bool
        ensures some { result ≡ true → 0 < length self.now.read_buffer }
        ensures none { result ≡ false → self.now.read_buffer ≡ [] }
    {
        self.read_buffer.is_some()
    }

    /// Returns whether the write buffer has bytes that may still be written: false after a failed write.
    pub fn has_queued(&self) -> bool
        ensures may { result ≡ true → self.now.has_failed ≡ false }
        ensures some { result ≡ true → 0 < length self.now.write_buffer }
        ensures none { result ≡ false → self.now.has_failed ≡ false → self.now.write_buffer ≡ [] }
    {
        self.write_buffer.is_some() && !self.has_failed
    }

    /// Marks the stream as failed, as after a failed write: the bytes of the write buffer are never written.
    pub fn give_up(&mut self)
        ensures { self.new ≡ record self.old { has_failed = true } }
    {
        self.has_failed = true;
    }

    /// Returns the number of bytes in the write buffer.
    pub fn queued_len(&self) -> usize
        ensures { result ≡ length self.now.write_buffer }
    {
        match &self.write_buffer {
            Some(storage) => storage.as_slice().len(),
            None => 0,
        }
    }

    /// Returns whether the write buffer is empty, so that every byte of every put was written.
    pub fn is_written(&self) -> bool
        ensures all { result ≡ true → self.now.write_buffer ≡ [] }
        ensures some { result ≡ false → 0 < length self.now.write_buffer }
    {
        self.write_buffer.is_none()
    }
}

impl<S: Duplex + Drop> Buffered<S> {
    /// Moves the first bytes of a buffer to the caller's, keeps the rest as the read buffer, and returns their number.
    fn hand_out(&mut self, storage: IoBuffer, pool: &Pool, buffer: &mut [u8]) -> usize
        ensures within { result ≤ length buffer.old }
        ensures len { length buffer.new ≡ length buffer.old }
        ensures count { result ≡ min (length storage.bytes) (length buffer.old) }
        ensures bytes { storage.bytes ≡ take result buffer.new ++ self.new.read_buffer }
        ensures few { length self.new.read_buffer ≤ MOST_HELD }
        ensures rest { (self.new.stream ≡ self.old.stream) × (self.new.write_buffer ≡ self.old.write_buffer) }
        ensures failed { self.new.has_failed ≡ self.old.has_failed }
    {
        let mut storage = storage;
        let count = storage.give(buffer);
        self.read_buffer = kept(storage, pool);
        count
    }

    /// Takes the read buffer out, if it has bytes.
    fn take_ahead(&mut self, pool: &Pool) -> Option<IoBuffer>
        ensures bytes { buffered_bytes result ≡ self.old.read_buffer }
        ensures some { IfSome result (λ storage. 0 < length storage.bytes) }
        ensures rest { self.new ≡ record self.old { read_buffer = [] } }
    {
        let Some(storage) = self.read_buffer.take() else {
            return None;
        };
        if storage.as_slice().is_empty() {
            pool.give_back(storage);
            return None;
        }
        Some(storage)
    }

    /// Reads into a buffer of the pool and returns its first bytes. Reads into the caller's buffer directly if that has
    /// at least `MOST_HELD` bytes or the pool returns none.
    fn read_ahead(&mut self, pool: &Pool, readiness: &mut Readiness, buffer: &mut [u8]) -> Pull
        requires { self.old.read_buffer ≡ [] }
        ensures asked { IsBufferedPull S.calls (length buffer.old) readiness.old self.old result readiness.new self.new }
        ensures within { IsPullWithin result (length buffer.old) }
        ensures len { length buffer.new ≡ length buffer.old }
        ensures passes { Passes S.to_give S.taken self.old (take (pulled_len result) buffer.new) [] self.new }
        ensures unwritten { WritesNothing S.taken self.old self.new }
        ensures few { length self.new.read_buffer ≤ MOST_HELD }
        ensures failed { self.new.has_failed ≡ self.old.has_failed }
        ensures writes { readiness.new.may_write ≡ readiness.old.may_write }
    {
        // A read into a long buffer needs no copy.
        let free_space = if buffer.len() < MOST_HELD {
            pool.take()
        } else {
            None
        };
        let Some(storage) = free_space else {
            return pull_from(&mut self.stream, readiness, buffer);
        };
        let mut storage = storage;
        match storage.refill(&mut self.stream, readiness) {
            Pull::Got(_count) => Pull::Got(self.hand_out(storage, pool, buffer)),
            Pull::Idle => {
                pool.give_back(storage);
                Pull::Idle
            }
            Pull::Ended => {
                pool.give_back(storage);
                Pull::Ended
            }
        }
    }

    /// Returns bytes from the read buffer, or reads from the stream if the read buffer is empty and the stream may be
    /// readable.
    ///
    /// Returns `Got(n)` if the next `n` bytes are at the front of `buffer`.
    ///
    /// `passes`: pulls return the bytes of the stream in order and without gaps; the rest is in the read buffer.
    ///
    /// `unwritten`: it writes nothing.
    ///
    /// `few`: each buffer has at most 16,384 bytes.
    ///
    /// `asked`: if the read buffer is empty, it reads the stream, into as much room or more, and returns what that read
    /// is.
    ///
    /// `handed`: else it returns as many of the buffered bytes as fit.
    ///
    /// `all_out`: it returns `Ended`, at the end of the stream or after a failed read, only once all bytes were
    /// returned.
    ///
    /// `writes`: what is known of writes is unchanged.
    pub fn pull(&mut self, pool: &Pool, readiness: &mut Readiness, buffer: &mut [u8]) -> Pull
        ensures asked { IsBufferedPull S.calls (length buffer.old) readiness.old self.old result readiness.new self.new }
        ensures within { IsPullWithin result (length buffer.old) }
        ensures len { length buffer.new ≡ length buffer.old }
        ensures passes { Passes S.to_give S.taken self.old (take (pulled_len result) buffer.new) [] self.new }
        ensures unwritten { WritesNothing S.taken self.old self.new }
        ensures few { length self.new.read_buffer ≤ MOST_HELD }
        ensures failed { self.new.has_failed ≡ self.old.has_failed }
        ensures handed { 0 < length self.old.read_buffer →
            result ≡ Pull.Got (min (length self.old.read_buffer) (length buffer.old)) }
        ensures known { 0 < length self.old.read_buffer → readiness.new ≡ readiness.old }
        ensures all_out { result ≡ Pull.Ended → self.old.read_buffer ≡ [] }
        ensures writes { readiness.new.may_write ≡ readiness.old.may_write }
    {
        if let Some(storage) = self.take_ahead(pool) {
            return Pull::Got(self.hand_out(storage, pool, buffer));
        }
        if buffer.is_empty() || !readiness.may_read {
            return Pull::Idle;
        }
        self.read_ahead(pool, readiness, buffer)
    }

    /// Writes the write buffer once.
    ///
    /// `written`: it hands the stream all buffered bytes, and keeps what the stream did not accept.
    ///
    /// `failed`: if the write fails, the next put returns `Failed`.
    ///
    /// `reads`, `full`: what is known of reads is unchanged, and a stream that is not writable stays so.
    ///
    /// `writes`: one that is writable stays so, but for a write that it did not take whole.
    pub fn flush(&mut self, pool: &Pool, readiness: &mut Readiness)
        ensures passes { Passes S.to_give S.taken self.old [] [] self.new }
        ensures unread { ReadsNothing S.to_give self.old self.new }
        ensures few { length self.old.write_buffer ≤ MOST_HELD → length self.new.write_buffer ≤ MOST_HELD }
        ensures written { self.old.has_failed ≡ false → 0 < length self.old.write_buffer →
            IsFlushed S.calls readiness.old self.old readiness.new self.new }
        ensures failed { self.old.has_failed ≡ true → (self.new ≡ self.old) × (readiness.new ≡ readiness.old) }
        ensures empty { self.old.write_buffer ≡ [] → (self.new ≡ self.old) × (readiness.new ≡ readiness.old) }
        ensures reads { readiness.new.may_read ≡ readiness.old.may_read }
        ensures full { readiness.old.may_write ≡ false → readiness.new.may_write ≡ false }
        ensures writes { OnlyPuts S.calls readiness.old self.old.stream readiness.new self.new.stream }
    {
        if self.has_failed {
            return;
        }
        let Some(storage) = self.write_buffer.take() else {
            return;
        };
        let mut storage = storage;
        self.has_failed = storage.drain(&mut self.stream, readiness) == Put::Failed;
        self.write_buffer = kept(storage, pool);
    }

    /// Appends a prefix of the bytes to a buffer, as long as its free space allows, and makes it the write buffer.
    fn hold(&mut self, storage: IoBuffer, pool: &Pool, bytes: &[u8]) -> Put
        ensures within { IsPutWithin result (length bytes.now) }
        ensures all { result ≡ Put.Took (min storage.free_space (length bytes.now)) }
        ensures write_buffer { self.new.write_buffer ≡ storage.bytes ++ bytes_taken result bytes.now }
        ensures rest { (self.new.stream ≡ self.old.stream) × (self.new.read_buffer ≡ self.old.read_buffer) }
        ensures failed { self.new.has_failed ≡ self.old.has_failed }
        ensures few { length self.new.write_buffer ≤ MOST_HELD }
    {
        let mut storage = storage;
        let count = storage.coalesce(bytes);
        self.write_buffer = kept(storage, pool);
        Put::Took(count)
    }

    /// Puts bytes while the write buffer is empty: into a buffer of the pool, or directly to the stream if there are at
    /// least `MOST_HELD` bytes or the pool returns no buffer.
    fn take_first(&mut self, pool: &Pool, readiness: &mut Readiness, bytes: &[u8]) -> Put
        requires { self.old.write_buffer ≡ [] }
        ensures write_only { IsWriteOnly S.to_give readiness.old self.old bytes.now result readiness.new self.new }
        ensures passes { Passes S.to_give S.taken self.old [] (bytes_taken result bytes.now) self.new }
        ensures waits { result ≡ Put.Took 0 → 0 < length bytes.now → IsStopped S.calls readiness.new self.new.stream }
        ensures writes { OnlyPuts S.calls readiness.old self.old.stream readiness.new self.new.stream }
    {
        if bytes.len() < MOST_HELD {
            if let Some(storage) = pool.take() {
                return self.hold(storage, pool, bytes);
            }
        }
        let put = put_to(&mut self.stream, readiness, bytes);
        self.has_failed = put == Put::Failed;
        put
    }

    /// Writes a buffer once, then appends a prefix of the bytes to what is left of it, as long as the free space
    /// allows. Returns `Failed` if the write failed.
    fn take_written(
        &mut self,
        storage: IoBuffer,
        pool: &Pool,
        readiness: &mut Readiness,
        bytes: &[u8],
    ) -> Put
        requires { self.old.write_buffer ≡ [] }
        ensures write_only { IsWriteOnly S.to_give readiness.old self.old bytes.now result readiness.new self.new }
        ensures passes { Passes S.to_give S.taken (record self.old { write_buffer = storage.bytes }) []
            (bytes_taken result bytes.now) self.new }
        ensures waits { result ≡ Put.Took 0 → 0 < length bytes.now → IsStopped S.calls readiness.new self.new.stream }
        ensures writes { OnlyPuts S.calls readiness.old self.old.stream readiness.new self.new.stream }
    {
        let mut storage = storage;
        if storage.drain(&mut self.stream, readiness) == Put::Failed {
            self.has_failed = true;
            self.write_buffer = kept(storage, pool);
            return Put::Failed;
        }
        match kept(storage, pool) {
            Some(left) => self.hold(left, pool, bytes),
            None => self.take_first(pool, readiness, bytes),
        }
    }

    /// Appends a prefix of the bytes to the write buffer, as long as the free space allows. Writes the buffer first if
    /// its free space is less than `count` bytes.
    fn take_behind(
        &mut self,
        pool: &Pool,
        readiness: &mut Readiness,
        bytes: &[u8],
        count: usize,
    ) -> Put
        ensures write_only { IsWriteOnly S.to_give readiness.old self.old bytes.now result readiness.new self.new }
        ensures passes { Passes S.to_give S.taken self.old [] (bytes_taken result bytes.now) self.new }
        ensures waits { result ≡ Put.Took 0 → 0 < length bytes.now → 0 < count →
            IsStopped S.calls readiness.new self.new.stream }
        ensures writes { OnlyPuts S.calls readiness.old self.old.stream readiness.new self.new.stream }
    {
        let Some(storage) = self.write_buffer.take() else {
            return self.take_first(pool, readiness, bytes);
        };
        if storage.free_space() < count {
            return self.take_written(storage, pool, readiness, bytes);
        }
        self.hold(storage, pool, bytes)
    }

    /// Puts bytes. Fewer than `MOST_HELD`, 16,384, are kept together: if the free space is too small for all of them,
    /// the write buffer is written first.
    ///
    /// Returns `Took(n)` if the first `n` bytes are accepted, in order: the stream or the write buffer has them.
    ///
    /// `passes`: what went to the stream is the buffered bytes and then the accepted ones, in order, and the rest is in
    /// the write buffer.
    ///
    /// `unread`: it reads nothing.
    ///
    /// `waits`: of some bytes it accepts none only if no more can be written now. Then the system will report when, or
    /// the last write was interrupted eight times.
    ///
    /// `fails`: after a write that failed, each put returns `Failed`, and nothing more is written.
    ///
    /// `reads`, `full`: what is known of reads is unchanged, and a stream that is not writable stays so.
    ///
    /// `writes`: one that is writable stays so, but for a write that it did not take whole.
    ///
    /// Not said: that a write that fails is reported if no further put is made.
    pub fn put(&mut self, pool: &Pool, readiness: &mut Readiness, bytes: &[u8]) -> Put
        ensures within { IsPutWithin result (length bytes.now) }
        ensures passes { Passes S.to_give S.taken self.old [] (bytes_taken result bytes.now) self.new }
        ensures unread { ReadsNothing S.to_give self.old self.new }
        ensures few { length self.old.write_buffer ≤ MOST_HELD → length self.new.write_buffer ≤ MOST_HELD }
        ensures waits { result ≡ Put.Took 0 → 0 < length bytes.now → IsStopped S.calls readiness.new self.new.stream }
        ensures fails { result ≡ Put.Failed → self.new.has_failed ≡ true }
        ensures failed { self.old.has_failed ≡ true → (result ≡ Put.Failed) × (self.new ≡ self.old) }
        ensures reads { readiness.new.may_read ≡ readiness.old.may_read }
        ensures full { readiness.old.may_write ≡ false → readiness.new.may_write ≡ false }
        ensures writes { OnlyPuts S.calls readiness.old self.old.stream readiness.new self.new.stream }
    {
        if self.has_failed {
            return Put::Failed;
        }
        if bytes.len() < MOST_HELD {
            return self.take_behind(pool, readiness, bytes, bytes.len());
        }
        // Many bytes fill the write buffer, which is written at once. If it is full, it is written first, so `Took(0)`
        // means that the stream accepts nothing now.
        let put = self.take_behind(pool, readiness, bytes, 1);
        if put == Put::Took(0) {
            return put;
        }
        self.flush(pool, readiness);
        put
    }

    /// Shuts down the writing direction. Requires an empty write buffer, so no byte that waits is lost.
    pub fn end_writing(&mut self)
        requires { self.old.write_buffer ≡ [] }
        ensures passes { Passes S.to_give S.taken self.old [] [] self.new }
        ensures unread { ReadsNothing S.to_give self.old self.new }
        ensures unwritten { WritesNothing S.taken self.old self.new }
        ensures failed { self.new.has_failed ≡ self.old.has_failed }
        ensures appended { AppendsTo (S.calls self.old.stream) (WritingEnded ∷ []) (S.calls self.new.stream) }
    {
        self.stream.end_writing();
    }
}
