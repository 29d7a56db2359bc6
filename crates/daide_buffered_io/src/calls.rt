//! Reads and writes of a non-blocking stream, with retries after interruptions.

ghost use Rattle.std.specs.Prelude.{◌≡◌, length, take, false};
ghost use Rattle.std.specs.Io.KnownBytes.{Consumes};
ghost use Rattle.daide_io.specs.Ports.{IsPullWithin, IsPutWithin, pulled_len};
ghost use Rattle.daide_buffered_io.specs.Calls.{Tries, IsPull, IsPut, pull_of, put_of};
ghost use Rattle.daide_io.specs.Streams.{Read, Written};
ghost use Rattle.daide_buffered_io.specs.Taking.{IsTaken};

use crate::readiness::Readiness;
use daide_io::duplex::Duplex;
use daide_io::outcome::IoResult;
use daide_io::ports::{Pull, Put};

/// How often an interrupted call is repeated.
const AGAIN: usize = 7;

/// The largest write, in bytes. It bounds how long one session's frame can delay the other sessions.
const MOST_AT_ONCE: usize = 16_384;

/// Reads, and repeats a read that was interrupted, up to eight reads in all. Returns the result of the last one; the
/// others returned no byte.
fn read_on<S: Duplex>(stream: &mut S, buffer: &mut [u8]) -> IoResult
    ensures tries { Tries (Read (length buffer.old)) (S.calls stream.old) result (S.calls stream.new) }
    ensures within { IsPullWithin (pull_of result) (length buffer.old) }
    ensures len { length buffer.new ≡ length buffer.old }
    ensures given { Consumes (S.to_give stream.old) (S.to_give stream.new)
        (take (pulled_len (pull_of result)) buffer.new) }
    ensures apart { S.taken stream.new ≡ S.taken stream.old }
{
    for _ in 0..AGAIN {
        match IoResult::of(&stream.read(buffer)) {
            IoResult::Interrupted => {}
            outcome => return outcome,
        }
    }
    IoResult::of(&stream.read(buffer))
}

/// Reads what is available into the buffer, if the stream may be readable, and updates the cached readiness. Makes no
/// call if the buffer is empty.
///
/// Returns `Got(n)` if the next `n` bytes of the stream are now at the front of the buffer. Returns `Ended` at the end
/// of the stream or if the read failed, and `Idle` if there is nothing to read yet.
///
/// `asked`: it repeats an interrupted call, and makes eight calls at most; the eighth interruption is `Idle`. After a
/// call that would have blocked, or that moved less than it might, no further call is made until the system reports
/// readiness. If the system reported an end, a failure or an urgent byte, which it reports only once, a short read is
/// not the last.
///
/// `given`: only `Got` takes bytes from the stream, exactly those at the front of the buffer.
///
/// `apart`: the bytes that the stream took are unchanged.
///
/// `writes`: what is known of writes is unchanged.
pub fn pull_from<S: Duplex>(stream: &mut S, readiness: &mut Readiness, buffer: &mut [u8]) -> Pull
    ensures asked { IsPull S.calls (length buffer.old) readiness.old stream.old result readiness.new stream.new }
    ensures within { IsPullWithin result (length buffer.old) }
    ensures len { length buffer.new ≡ length buffer.old }
    ensures given { Consumes (S.to_give stream.old) (S.to_give stream.new) (take (pulled_len result) buffer.new) }
    ensures apart { S.taken stream.new ≡ S.taken stream.old }
    ensures writes { readiness.new.may_write ≡ readiness.old.may_write }
{
    if buffer.is_empty() || !readiness.may_read {
        return Pull::Idle;
    }
    let outcome = read_on(stream, buffer);
    readiness.note_read(buffer.len(), outcome);
    match outcome {
        IoResult::Moved(0) | IoResult::Failed => Pull::Ended,
        IoResult::Moved(count) => Pull::Got(count),
        IoResult::Interrupted | IoResult::NotNow => Pull::Idle,
    }
}

/// Writes, and repeats a write that was interrupted, up to eight writes in all. Returns the result of the last one; the
/// others accepted no byte.
fn write_on<S: Duplex>(stream: &mut S, bytes: &[u8]) -> IoResult
    ensures tries { Tries (Written bytes.now) (S.calls stream.old) result (S.calls stream.new) }
    ensures within { IsPutWithin (put_of result) (length bytes.now) }
    ensures taken { IsTaken (S.taken stream.old) bytes.now (put_of result) (S.taken stream.new) }
    ensures apart { S.to_give stream.new ≡ S.to_give stream.old }
{
    for _ in 0..AGAIN {
        match IoResult::of(&stream.write(bytes)) {
            IoResult::Interrupted => {}
            outcome => return outcome,
        }
    }
    IoResult::of(&stream.write(bytes))
}

/// Writes at most the first `MOST_AT_ONCE` bytes, 16,384, if the stream may be writable, and updates the cached
/// readiness.
///
/// Returns `Took(n)` if the stream accepted exactly the first `n` bytes, with 0 if it is not writable now. Returns
/// `Failed` if the write failed.
///
/// `asked`: it repeats and omits calls as `pull_from` does.
///
/// `taken`: with `Took(n)` the stream accepted exactly the first n bytes, and with `Failed` none.
///
/// `apart`: the bytes that are still to be read are unchanged.
///
/// `reads`, `full`: what is known of reads is unchanged, and a stream that is not writable stays so.
#[tactic(auto, using(std::proofs::lemmas::List::take_min))]
pub fn put_to<S: Duplex>(stream: &mut S, readiness: &mut Readiness, bytes: &[u8]) -> Put
    ensures asked { IsPut S.calls (take MOST_AT_ONCE bytes.now) readiness.old stream.old result readiness.new
        stream.new }
    ensures within { IsPutWithin result (length bytes.now) }
    ensures taken { IsTaken (S.taken stream.old) bytes.now result (S.taken stream.new) }
    ensures apart { S.to_give stream.new ≡ S.to_give stream.old }
    ensures reads { readiness.new.may_read ≡ readiness.old.may_read }
    ensures full { readiness.old.may_write ≡ false → readiness.new.may_write ≡ false }
{
    if !readiness.may_write {
        return Put::Took(0);
    }
    let front = &bytes[..MOST_AT_ONCE.min(bytes.len())];
    let outcome = write_on(stream, front);
    readiness.note_write(front.len(), outcome);
    match outcome {
        IoResult::Moved(count) => Put::Took(count),
        IoResult::Interrupted | IoResult::NotNow => Put::Took(0),
        IoResult::Failed => Put::Failed,
    }
}
