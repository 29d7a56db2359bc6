//! A connection with its buffers, its readiness and its deadlines.
//!
//! A socket has a read buffer, and a write buffer for small puts. So the process holds of a peer the weight of its
//! session, and at most `MOST_HELD` bytes each way of each socket. It works over any stream, and its contracts state the
//! bytes that this returned and accepted.

ghost use Rattle.std.specs.Prelude.{◌≡◌, ◌⊎◌, ℕ, ◌+◌, ◌<◌, ◌≤◌, ◌||◌, nat_lt, Bool, IsNone, IfSome, IfNone, None, [], min, length, take, true, false};
ghost use Rattle.daide_sockets.specs.Clock.{earlier, next_deadline, StallsNext, has_stalled, is_past};
ghost use Rattle.daide_io.specs.Network.{Follows};
ghost use Rattle.daide_io.specs.Ports.{IsPullWithin, IsPutWithin, pulled_len};
ghost use Rattle.daide_io.specs.Streams.{IsSameStream};
ghost use Rattle.daide_buffered_io.specs.Buffers.{Passes, ReadsNothing, IsBufferedPull, IsFlushed, with_stream};
ghost use Rattle.daide_buffered_io.specs.Calls.{OnlyPuts};
ghost use Rattle.daide_buffered_io.specs.Taking.{bytes_taken, taken_len};
ghost use Rattle.daide_sockets.specs.Lingering.{IsWriting, IsWritingOver, TriesLast};
ghost use Rattle.daide_sockets.specs.Pairing.{IsFresh};
ghost use Rattle.daide_sockets.specs.Sockets.{after_move, has_socket_work, write_if};
ghost use Rattle.daide_sockets.specs.Table.{freed, merged, no_report, report_at, without_report};
ghost use Rattle.daide_sockets.specs.Timers.{IsStallKept, FlushesInTime, BeginsInTime, PutsInTime};
ghost use Rattle.daide_sockets.specs.Wakeups.{StaysUnread, IsFlushedUnlessGathered, IsNothing, IsPulled, IsOffered, BeginsWriting};

use crate::clock::{earlier, has_stalled, is_past, stalls_next};
use crate::poller::Poller;
use crate::table::{SocketTable, merged};
use crate::timed::Timed;
use daide_buffered_io::buffered::Buffered;
use daide_buffered_io::pool::Pool;
use daide_buffered_io::readiness::Readiness;
use daide_io::duplex::Duplex;
use daide_io::network::Network;
use daide_io::ports::{Pull, Put};
use std::time::{Duration, Instant};

/// The most turns for which writable bytes stay buffered, even if each turn adds more: 32 visits of a busy session.
const MOST_TURNS_HELD: usize = 128;

/// A non-blocking connection with its buffers, its readiness and its deadlines. It has a row of the table.
#[derive(Drop)]
pub struct Socket<'w, S: Drop> {
    /// The connection with its buffers.
    pub stream: Buffered<S>,
    /// The key of its row.
    pub key: usize,
    /// What is known of it without a system call.
    pub readiness: Readiness,
    /// The pool of its buffers.
    pub(crate) pool: &'w Pool,
    /// The stall timeout of its peer; `None` if there is none.
    pub(crate) stall_time: Option<Duration>,
    /// The moment at which the stall timeout expires, unless its peer takes a byte before. `None` if no byte is queued
    /// for it, or for never.
    pub(crate) stalls_at: Option<Instant>,
    /// The moment at which the idle timeout of its peer expires, unless it sends something before; `None` for never.
    pub(crate) silent_from: Option<Instant>,
    /// The reading of the clock at which its peer last sent something; `None` if it has sent nothing.
    pub(crate) heard_at: Option<Instant>,
    /// Its expired timeouts.
    pub(crate) timed: Timed,
    /// Whether it accepted bytes since its turn began, so that more may follow.
    pub(crate) is_gathering: bool,
    /// Whether its last pull returned bytes, so that an answer to them may be put to it in parts.
    pub(crate) has_pulled: bool,
    /// Whether a read or a write since its turn began must be tried again, since it was interrupted each time.
    pub(crate) tries_again: bool,
    /// For how many turns bytes have been buffered.
    held: TurnsHeld,
}

impl<'w, S: Duplex + Drop> Socket<'w, S> {
    /// Has a connection followed under this key. Returns `None` if the system refuses.
    pub fn new<N: Network<Connection = S>>(
        poller: &mut Poller<N>,
        pool: &'w Pool,
        stream: S,
        key: usize,
    ) -> Option<Socket<'w, S>>
        ensures fresh { IfSome result (λ socket. IsFresh socket.stream) }
        ensures followed { IfSome result (λ socket.
            N.transition poller.old.network (Follows stream key true socket.stream.stream) poller.new.network) }
        ensures refused { IfNone result ((after : S)
            × N.transition poller.old.network (Follows stream key false after) poller.new.network) }
        ensures key { IfSome result (λ socket. socket.key ≡ key) }
        ensures table { poller.new.table ≡ freed poller.old.table key }
    {
        let mut stream = stream;
        if !poller.follow(&mut stream, key) {
            return None;
        }
        Some(Socket::over(pool, stream, key))
    }

    /// Has the connection, whose session is over, followed under another key. If the system refuses, nothing more is reported
    /// of it, so it may be read and written until that finds nothing to do.
    pub(crate) fn move_to<N: Network<Connection = S>>(&mut self, poller: &mut Poller<N>, key: usize)
        ensures call { (is_followed : Bool) × N.transition poller.old.network
            (Follows self.old.stream.stream key is_followed self.new.stream.stream) poller.new.network
            × (self.new.readiness ≡ after_move is_followed self.old.readiness) }
        ensures same { IsSameStream S.to_give S.taken S.calls self.old.stream.stream self.new.stream.stream }
        ensures rest { self.new ≡ record self.old {
          stream = with_stream self.old.stream self.new.stream.stream;
          readiness = self.new.readiness;
          key = key;
        } }
        ensures table { poller.new.table ≡ poller.old.table }
    {
        self.key = key;
        if !poller.network.refollow(self.stream.stream_mut(), key) {
            self.readiness = Readiness {
                may_read: true,
                may_write: true,
                ..self.readiness
            };
        }
    }
}

impl<'w, S: Drop> Socket<'w, S> {
    /// Creates a socket from any stream, with empty buffers, and the key of its row of the table. Nothing is known of
    /// its readiness.
    pub fn over(pool: &'w Pool, stream: S, key: usize) -> Socket<'w, S>
        ensures stream { result.stream ≡ record { stream = stream; read_buffer = []; write_buffer = []; has_failed = false } }
        ensures timed { result.timed ≡ record { is_silent = false; is_stalled = false; ends_stalled = false } }
        ensures stall_time { IsNone result.stall_time }
        ensures key { result.key ≡ key }
        ensures unknown { result.readiness ≡ no_report }
    {
        Socket {
            stream: Buffered::new(stream),
            key,
            readiness: Readiness::UNKNOWN,
            pool,
            stall_time: None,
            stalls_at: None,
            silent_from: None,
            heard_at: None,
            timed: Timed::NONE,
            is_gathering: false,
            has_pulled: false,
            tries_again: false,
            held: TurnsHeld::NONE,
        }
    }

    /// Starts the stall timeout of its peer again, with this time; `None` for never.
    pub(crate) fn restart_stall(&mut self, time: Option<Duration>)
        ensures { self.new ≡ record self.old { stall_time = time; stalls_at = None } }
    {
        self.stall_time = time;
        self.stalls_at = None;
    }

    /// Returns the moment at which the stall timeout of its peer expires.
    pub(crate) fn stalls_at(&self) -> Option<Instant>
        ensures { result ≡ self.now.stalls_at }
    {
        self.stalls_at
    }

    /// Adds a report to its readiness.
    pub fn note_report(&mut self, report: Readiness)
        ensures { self.new ≡ record self.old { readiness = merged self.old.readiness report } }
    {
        self.readiness = merged(self.readiness, report);
    }

    /// Adds the report of its row to its readiness, and takes it out of the row.
    #[inline(always)]
    pub fn take_report(&mut self, table: &mut SocketTable)
        ensures readiness { self.new ≡ record self.old {
          readiness = merged self.old.readiness (report_at table.old self.old.key);
        } }
        ensures table { table.new ≡ without_report table.old self.old.key }
    {
        let report = table.take_report(self.key);
        self.note_report(report);
    }

    /// Returns the nearest deadline of its peer's timeouts after a turn at this reading of the clock. An idle timeout
    /// that already expired is no deadline, since the next pull reports it. Without room in the session there is no
    /// pull, and nothing to do.
    pub(crate) fn deadline(&self, now: Option<Instant>) -> Option<Instant>
        ensures { result ≡ next_deadline now self.now.stalls_at self.now.silent_from }
    {
        let silent_from = if is_past(now, self.silent_from) {
            None
        } else {
            self.silent_from
        };
        earlier(self.stalls_at, silent_from)
    }

    /// Returns whether something may be done at once: a byte is buffered that may be written, or a read or a write
    /// must be tried again.
    pub(crate) fn has_work(&self) -> bool
        ensures { result ≡ has_socket_work self.now.stream self.now.readiness self.now.tries_again }
    {
        self.tries_again || self.stream.has_queued() && self.readiness.may_write
    }

    /// Returns the stream itself.
    pub fn connection(&self) -> &S
        ensures { result.now ≡ self.now.stream.stream }
    {
        self.stream.stream()
    }
}

impl<S: Duplex + Drop> Socket<'_, S> {
    /// Records a write at this reading of the clock: whether it took a byte, and whether bytes are still queued.
    fn note_written(&mut self, now: Option<Instant>, took: bool, is_waiting: bool)
        ensures time { is_waiting ≡ true → StallsNext self.old.stall_time now self.old.stalls_at took self.new.stalls_at }
        ensures none { is_waiting ≡ false → self.new.stalls_at ≡ None }
        ensures kept { IsStallKept now self.old.stall_time self.old.stalls_at self.new.stalls_at }
        ensures stream { self.new.stream ≡ self.old.stream }
        ensures readiness { self.new.readiness ≡ self.old.readiness }
        ensures rest { self.new ≡ record self.old { stalls_at = self.new.stalls_at } }
    {
        self.stalls_at = if is_waiting {
            stalls_next(self.stall_time, now, self.stalls_at, took)
        } else {
            None
        };
    }

    /// Records a put of `len` bytes at this reading of the clock, of which `count` were accepted, by how many bytes were
    /// held before it.
    fn note_put(&mut self, now: Option<Instant>, queued: usize, len: usize, count: usize)
        ensures waits { (count < len) ⊎ IsWriting self.new.stream → StallsNext self.old.stall_time now self.old.stalls_at
            (nat_lt (length self.new.stream.write_buffer) (queued + count)) self.new.stalls_at }
        ensures ends { count ≡ len → IsWritingOver self.new.stream → self.new.stalls_at ≡ None }
        ensures kept { IsStallKept now self.old.stall_time self.old.stalls_at self.new.stalls_at }
        ensures gathers { 0 < count → self.new.is_gathering ≡ true }
        ensures gathering { count ≡ 0 → self.new.is_gathering ≡ self.old.is_gathering }
        ensures rest { self.new ≡ record self.old { stalls_at = self.new.stalls_at; is_gathering = self.new.is_gathering } }
    {
        if count > 0 {
            self.is_gathering = true;
        }
        let took = took_some(queued, count, self.stream.queued_len());
        let is_waiting = count < len || self.stream.has_queued();
        self.note_written(now, took, is_waiting);
    }

    /// Returns buffered bytes, or reads from the connection. The bytes of `Got` are, in order, those that the
    /// connection returned.
    #[tactic(auto, using(daide_buffered_io::proofs::BufferLemmas::same_passes))]
    pub fn pull(&mut self, buffer: &mut [u8]) -> Pull
        ensures within { IsPullWithin result (length buffer.old) }
        ensures len { length buffer.new ≡ length buffer.old }
        ensures passes { Passes S.to_give S.taken self.old.stream (take (pulled_len result) buffer.new) []
            self.new.stream }
        ensures asked { IsBufferedPull S.calls (length buffer.old) self.old.readiness self.old.stream result
            self.new.readiness self.new.stream }
        ensures handed { 0 < length self.old.stream.read_buffer →
            result ≡ Pull.Got (min (length self.old.stream.read_buffer) (length buffer.old)) }
        ensures timed { self.new.timed ≡ self.old.timed }
        ensures times { (self.new.silent_from ≡ self.old.silent_from) × (self.new.stalls_at ≡ self.old.stalls_at) }
        ensures stall_time { self.new.stall_time ≡ self.old.stall_time }
        ensures has_failed { self.new.stream.has_failed ≡ self.old.stream.has_failed }
        ensures gathering { self.new.is_gathering ≡ self.old.is_gathering }
        ensures idle { result ≡ Pull.Idle → self.new.has_pulled ≡ false }
        ensures pulled { IsPulled (length buffer.old) result self.old self.new }
    {
        self.has_pulled = false;
        // Most turns of an idle session end here.
        if !self.readiness.may_read && !self.stream.has_read_ahead() {
            return Pull::Idle;
        }
        let pull = self.stream.pull(self.pool, &mut self.readiness, buffer);
        self.has_pulled = matches!(pull, Pull::Got(_));
        if is_nothing(pull) && !buffer.is_empty() {
            let is_left = self.readiness.may_read || self.stream.has_read_ahead();
            self.tries_again = self.tries_again || is_left;
        }
        pull
    }

    /// Buffers the bytes, or writes what the connection accepts. The bytes of `Took` are, in order, in the connection
    /// or in the write buffer. Returns `Failed` also for a failure of an earlier flush.
    pub fn put(&mut self, now: Option<Instant>, bytes: &[u8]) -> Put
        ensures within { IsPutWithin result (length bytes.now) }
        ensures passes { Passes S.to_give S.taken self.old.stream [] (bytes_taken result bytes.now) self.new.stream }
        ensures fails { result ≡ Put.Failed → self.new.stream.has_failed ≡ true }
        ensures failed { self.old.stream.has_failed ≡ true →
            (result ≡ Put.Failed) × (self.new.stream ≡ self.old.stream) }
        ensures timed { self.new.timed ≡ self.old.timed }
        ensures gathers { 0 < taken_len result → self.new.is_gathering ≡ true }
        ensures gathering { taken_len result ≡ 0 → self.new.is_gathering ≡ self.old.is_gathering }
        ensures offered { IsOffered S.calls bytes.now result self.old self.new }
        ensures in_time { PutsInTime now bytes.now result self.old self.new }
    {
        let queued = self.stream.queued_len();
        let put = self.stream.put(self.pool, &mut self.readiness, bytes);
        match put {
            Put::Took(count) => {
                self.note_put(now, queued, bytes.len(), count);
                if count == 0 && !bytes.is_empty() && self.readiness.may_write {
                    self.tries_again = true;
                }
            }
            Put::Failed => self.note_written(None, false, false),
        }
        put
    }

    /// Writes all buffered bytes to the connection once, unless a write failed before, and keeps those that it doesn't
    /// take. The stall timeout starts again at this reading of the clock if the peer took a byte.
    #[tactic(auto, using(daide_buffered_io::proofs::BufferLemmas::same_passes))]
    pub fn flush_at(&mut self, now: Option<Instant>)
        ensures passes { Passes S.to_give S.taken self.old.stream [] [] self.new.stream }
        ensures unread { ReadsNothing S.to_give self.old.stream self.new.stream }
        ensures written { IsWriting self.old.stream →
            IsFlushed S.calls self.old.readiness self.old.stream self.new.readiness self.new.stream }
        ensures nothing { IsWritingOver self.old.stream →
            (self.new.stream ≡ self.old.stream) × (self.new.stalls_at ≡ self.old.stalls_at) }
        ensures unasked { IsWritingOver self.old.stream → self.new.readiness ≡ self.old.readiness }
        ensures waits { IsWriting self.old.stream → IsWriting self.new.stream →
            StallsNext self.old.stall_time now self.old.stalls_at
            (nat_lt (length self.new.stream.write_buffer) (length self.old.stream.write_buffer)) self.new.stalls_at }
        ensures stall_time { self.new.stall_time ≡ self.old.stall_time }
        ensures timed { self.new.timed ≡ self.old.timed }
        ensures gathering { self.new.is_gathering ≡ self.old.is_gathering }
        ensures stays { StaysUnread S.calls self.old self.new }
        ensures in_time { FlushesInTime now self.old self.new }
    {
        if !self.stream.has_queued() {
            return;
        }
        let queued = self.stream.queued_len();
        self.stream.flush(self.pool, &mut self.readiness);
        let took = self.stream.queued_len() < queued;
        let is_waiting = self.stream.has_queued();
        self.note_written(now, took, is_waiting);
    }

    /// Writes buffered bytes, unless the session may still put more: an answer to bytes that it pulled, some parts of
    /// which were put in this turn. A turn that puts something is followed by another without a wait.
    #[tactic(auto, using(daide_buffered_io::proofs::BufferLemmas::same_passes))]
    pub(crate) fn flush_gathered(&mut self, now: Option<Instant>)
        ensures passes { Passes S.to_give S.taken self.old.stream [] [] self.new.stream }
        ensures unread { ReadsNothing S.to_give self.old.stream self.new.stream }
        ensures timed { self.new.timed ≡ self.old.timed }
        ensures gathering { self.old.is_gathering ≡ true → self.old.has_pulled ≡ true → self.new ≡ self.old }
        ensures stays { StaysUnread S.calls self.old self.new }
        ensures written { IsFlushedUnlessGathered S.calls self.old self.new }
        ensures in_time { FlushesInTime now self.old self.new }
    {
        if self.is_gathering && self.has_pulled {
            return;
        }
        self.flush_at(now);
    }
}

/// Returns whether a peer took a byte in a put that accepted `count` of them: fewer bytes are held after it than were held
/// before it and were accepted.
fn took_some(before: usize, count: usize, after: usize) -> bool
    ensures { result ≡ nat_lt after (before + count) }
{
    after < before || after - before < count
}

/// Returns whether a pull returned neither a byte nor the end.
fn is_nothing(pull: Pull) -> bool
    ensures some { result ≡ false → IsNothing pull → ⊥ }
{
    matches!(pull, Pull::Idle | Pull::Got(0))
}

/// The number of turns since the last write to a socket with buffered bytes.
#[derive(Clone, Copy)]
struct TurnsHeld {
    turns: usize,
    /// How many bytes were buffered when the last of them began.
    len: usize,
}

impl TurnsHeld {
    /// The state with an empty write buffer.
    const NONE: TurnsHeld = TurnsHeld { turns: 0, len: 0 };

    /// Returns the state after one more turn began. If fewer bytes are buffered than in the turn before, some were written
    /// in it.
    fn with_turn<S: Drop>(self, stream: &Buffered<S>) -> TurnsHeld {
        if stream.is_written() {
            return TurnsHeld::NONE;
        }
        let len = stream.queued_len();
        let turns = if len < self.len {
            0
        } else {
            self.turns.saturating_add(1)
        };
        TurnsHeld { turns, len }
    }

    /// Returns true if the buffered bytes must be written now.
    fn is_over(self) -> bool {
        self.turns >= MOST_TURNS_HELD
    }
}

impl<S: Duplex + Drop> Socket<'_, S> {
    /// Writes the buffered bytes of a peer whose stall timeout is over, whatever is known of its readiness: the system
    /// reports a socket as writable only once a third of its buffer is free. Gives the peer up if it takes none of
    /// them, or none is buffered: from then on each put fails, and the peer counts as stalled (`stalled`).
    fn write_last(&mut self, now: Option<Instant>)
        ensures passes { Passes S.to_give S.taken self.old.stream [] [] self.new.stream }
        ensures unread { ReadsNothing S.to_give self.old.stream self.new.stream }
        ensures tries { TriesLast S.calls self.old.readiness self.old.stream self.new.readiness self.new.stream }
        ensures writes { OnlyPuts S.calls (write_if true self.old.readiness) self.old.stream.stream self.new.readiness
            self.new.stream.stream }
        ensures in_time { BeginsInTime now self.old self.new }
        ensures stalled { length self.old.stream.write_buffer ≤ length self.new.stream.write_buffer →
            self.new.timed ≡ record self.old.timed { is_stalled = true } }
        ensures timed { length self.new.stream.write_buffer < length self.old.stream.write_buffer →
            self.new.timed ≡ self.old.timed }
        ensures gathering { self.new.is_gathering ≡ self.old.is_gathering }
        ensures key { self.new.key ≡ self.old.key }
    {
        let before = self.stream.queued_len();
        self.readiness.may_write = true;
        self.flush_at(now);
        if self.stream.queued_len() < before {
            return;
        }
        self.stalls_at = None;
        self.stream.give_up();
        self.timed.is_stalled = true;
    }

    /// Writes buffered bytes once if that `is_due`, and in any case once the stall timeout of the peer is over at this
    /// reading of the clock: `stall_seconds` after the last byte that it took, or after the first byte was queued.
    ///
    /// `writes`: if the timeout is over, it gives the peer up if and only if that write takes no byte, or none is
    /// buffered (`TriesLast`).
    ///
    /// `in_time`: if the peer takes a byte, its timeout starts again, or is over once nothing is buffered.
    ///
    /// `written`, `nothing`: before that, only a write that fails gives up.
    ///
    /// Not said: that the reading is the present time. `tests/program` shows for a bot and a server that it comes in
    /// time, and that no such peer holds a run open.
    #[tactic(auto, using(daide_buffered_io::proofs::BufferLemmas::same_passes))]
    pub(crate) fn flush_in_time(&mut self, now: Option<Instant>, is_due: bool)
        ensures passes { Passes S.to_give S.taken self.old.stream [] [] self.new.stream }
        ensures unread { ReadsNothing S.to_give self.old.stream self.new.stream }
        ensures in_time { BeginsInTime now self.old self.new }
        ensures writes { BeginsWriting S.calls now self.old.readiness self.old self.new }
        ensures written { has_stalled self.old.stall_time now self.old.stalls_at ≡ false → is_due ≡ true →
            IsWriting self.old.stream →
            IsFlushed S.calls self.old.readiness self.old.stream self.new.readiness self.new.stream }
        ensures nothing { has_stalled self.old.stall_time now self.old.stalls_at ≡ false → IsWritingOver self.old.stream →
            (self.new.stream ≡ self.old.stream) × (self.new.readiness ≡ self.old.readiness) }
        ensures waits { is_due ≡ true → IsWriting self.new.stream → StallsNext self.old.stall_time now self.old.stalls_at
            (nat_lt (length self.new.stream.write_buffer) (length self.old.stream.write_buffer)) self.new.stalls_at }
        ensures silent { self.new.timed.is_silent ≡ self.old.timed.is_silent }
        ensures ends { self.new.timed.ends_stalled ≡ self.old.timed.ends_stalled }
        ensures gathering { self.new.is_gathering ≡ self.old.is_gathering }
        ensures key { self.new.key ≡ self.old.key }
    {
        if has_stalled(self.stall_time, now, self.stalls_at) {
            self.write_last(now);
        } else if is_due {
            self.flush_at(now);
        }
    }

    /// Begins a turn, in which nothing is put yet: writes buffered bytes whose turns are over, and gives up a stalled
    /// peer.
    #[inline(always)]
    pub(crate) fn begin_turn(&mut self, now: Option<Instant>)
        ensures passes { Passes S.to_give S.taken self.old.stream [] [] self.new.stream }
        ensures unread { ReadsNothing S.to_give self.old.stream self.new.stream }
        ensures silent { self.new.timed.is_silent ≡ self.old.timed.is_silent }
        ensures ends { self.new.timed.ends_stalled ≡ self.old.timed.ends_stalled }
        ensures gathering { self.new.is_gathering ≡ false }
        ensures in_time { BeginsInTime now self.old self.new }
        ensures writes { BeginsWriting S.calls now self.old.readiness self.old self.new }
        ensures key { self.new.key ≡ self.old.key }
    {
        self.is_gathering = false;
        self.tries_again = false;
        self.held = self.held.with_turn(&self.stream);
        let is_due = self.held.is_over();
        self.flush_in_time(now, is_due);
    }
}
