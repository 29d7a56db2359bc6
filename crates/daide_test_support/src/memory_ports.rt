//! Ports in memory, for tests: they follow a script, and record all calls.
//!
//! Tests read the record. If memory for it is refused, the ports still follow their script, and record nothing from
//! then on.

ghost use Rattle.std.specs.Prelude.{◌≡◌, [], ◌∷◌, ◌++◌, ◌≤◌, length, Some, Ok, IfSome, Option, Vec, map, option_map, true};
ghost use Rattle.daide_io.specs.Ports.{AppendsTo, TurnBegins, IsPullWithin, IsPutWithin, pulled_len};
ghost use Rattle.daide_test_support.specs.MemoryPorts.{answer_stored, answers_stored};
ghost use Rattle.daide_test_support.specs.declared.memory_ports.Call.{Call};

use daide_frame::side::Side;
use daide_io::ports::{ClockEvent, Ports, Pull, Put};
use std::alloc::{AllocError, Allocator, Global};

/// The result of one pull from a side.
#[derive(Clone, Copy)]
pub enum ScriptedRead<'a> {
    /// These bytes; the next pull returns those that do not fit the buffer.
    Bytes(&'a [u8]),
    /// Nothing yet.
    Idle,
    /// The end of the stream, at this and every later pull.
    End,
}

/// The result of one put to a side.
#[derive(Clone, Copy)]
pub enum Acceptance {
    /// At most this many bytes are accepted.
    Takes(usize),
    /// The put fails.
    Fails,
}

/// One side's reads and acceptances. After the last read nothing more is received. After the last acceptance each put
/// is accepted whole.
#[derive(Clone, Copy)]
pub struct Script<'a> {
    pub pulls: &'a [ScriptedRead<'a>],
    pub puts: &'a [Acceptance],
}

/// A call with its result.
#[derive(Drop)]
pub enum Call<A: Allocator = Global> {
    /// A turn began.
    TurnBegins,
    /// The clock was read, and reported this.
    Clock(ClockEvent),
    /// A side was read into a buffer of this length, and these bytes were returned.
    Pulled(Side, usize, Pull, Vec<u8, A>),
    /// These bytes were put to a side.
    Offered(Side, Vec<u8, A>, Put),
}

/// The position in one side's script.
#[derive(Clone, Copy)]
struct Player<'a> {
    script: Script<'a>,
    /// The number of reads and of acceptances that were used.
    pulls: usize,
    puts: usize,
    /// The number of bytes of the current read that were returned.
    offset: usize,
}

/// Ports in memory.
#[derive(Drop)]
pub struct MemoryPorts<'a, A: Allocator = Global> {
    alloc: A,
    calls: Option<Vec<Call<A>, A>>,
    bot: Player<'a>,
    server: Player<'a>,
    /// The number of queries before the IM timer expires.
    quiet: u64,
    /// The number of queries before the operator stops the session; `None` for never.
    stops_after: Option<u64>,
}

/// Returns the record with one more call, or `None` if memory was refused.
fn with_call<A: Allocator>(
    calls: Option<Vec<Call<A>, A>>,
    call: Result<Call<A>, AllocError>,
) -> Option<Vec<Call<A>, A>>
    ensures { IfSome result (λ after. (before : Vec (Call A) A) × (calls ≡ Some before)
        × ((one : Call A) × (call ≡ Ok one) × (after.items ≡ before.items ++ one ∷ []))) }
{
    let mut calls = calls?;
    let Ok(one) = call else {
        return None;
    };
    match calls.push(one) {
        Ok(()) => Some(calls),
        Err(_) => None,
    }
}

/// Returns what the clock reports, by whether the turns are spent, the queries before a stop and those before the IM timer
/// expires.
fn clock_event(is_spent: bool, stops_after: Option<u64>, quiet: u64) -> ClockEvent
    ensures stops { is_spent ≡ true → result ≡ ClockEvent.StopIsRequested }
{
    match (is_spent, stops_after, quiet) {
        (true, _, _) | (_, Some(0), _) => ClockEvent::StopIsRequested,
        (_, _, 0) => ClockEvent::ImTimeIsOver,
        _ => ClockEvent::NoEvent,
    }
}

/// Returns the number of bytes that a pull returned.
fn count_of(pull: Pull) -> usize
    ensures { result ≡ pulled_len pull }
{
    match pull {
        Pull::Got(count) => count,
        Pull::Idle | Pull::Ended => 0,
    }
}

impl<'a> Player<'a> {
    /// Creates a player at the beginning of a script.
    fn new(script: Script<'a>) -> Player<'a> {
        Player {
            script,
            pulls: 0,
            puts: 0,
            offset: 0,
        }
    }

    /// Copies the next of these bytes to the buffer, as many as fit, and returns their number.
    fn fill(&mut self, bytes: &[u8], buffer: &mut [u8]) -> usize
        ensures within { result ≤ length buffer.old }
        ensures len { length buffer.new ≡ length buffer.old }
    {
        let rest = &bytes[self.offset.min(bytes.len())..];
        let count = rest.len().min(buffer.len());
        buffer[..count].copy_from_slice(&rest[..count]);
        if count < rest.len() {
            self.offset = self.offset.saturating_add(count);
        } else {
            self.offset = 0;
            self.pulls = self.pulls.saturating_add(1);
        }
        count
    }

    /// Returns the result of the next pull.
    fn pull(&mut self, buffer: &mut [u8]) -> Pull
        ensures within { IsPullWithin result (length buffer.old) }
        ensures len { length buffer.new ≡ length buffer.old }
    {
        match self.script.pulls.get(self.pulls) {
            None => Pull::Idle,
            Some(ScriptedRead::Bytes(bytes)) => Pull::Got(self.fill(bytes, buffer)),
            Some(ScriptedRead::Idle) => {
                self.pulls = self.pulls.saturating_add(1);
                Pull::Idle
            }
            Some(ScriptedRead::End) => Pull::Ended,
        }
    }

    /// Returns the result of the next put of `len` bytes.
    fn put(&mut self, len: usize) -> Put
        ensures { IsPutWithin result len }
    {
        let acceptance = self.script.puts.get(self.puts);
        self.puts = self.puts.saturating_add(1);
        match acceptance {
            None => Put::Took(len),
            Some(Acceptance::Takes(count)) => Put::Took(len.min(*count)),
            Some(Acceptance::Fails) => Put::Failed,
        }
    }
}

impl<'a, A: Allocator + Copy> MemoryPorts<'a, A> {
    /// Creates ports with an empty record. The IM timer has expired at every query after the first `quiet` ones; see
    /// `NEVER` of `daide_session_tests`.
    pub fn new(alloc: A, bot: Script<'a>, server: Script<'a>, quiet: u64) -> MemoryPorts<'a, A>
        ensures { answers_stored result.calls ≡ Some [] }
    {
        MemoryPorts {
            alloc,
            calls: Some(Vec::new(alloc)),
            bot: Player::new(bot),
            server: Player::new(server),
            quiet,
            stops_after: None,
        }
    }

    /// Has the clock report a stop at the query after this many more, and at no other.
    pub fn stop_after(&mut self, queries: u64)
        ensures { self.new.calls ≡ self.old.calls }
    {
        self.stops_after = Some(queries);
    }

    /// Records that a turn begins.
    pub fn begin_turn(&mut self)
        ensures { AppendsTo (answers_stored self.old.calls) (TurnBegins ∷ []) (answers_stored self.new.calls) }
    {
        let calls = self.calls.take();
        self.calls = with_call(calls, Ok(Call::TurnBegins));
    }

    /// Returns the calls so far, or `None` if memory for them was refused.
    pub fn calls(&self) -> Option<&[Call<A>]>
        ensures { option_map (λ calls. map answer_stored calls.now) result ≡ answers_stored self.now.calls }
    {
        match &self.calls {
            None => None,
            Some(calls) => Some(calls.as_slice()),
        }
    }
}

impl<'a, A: Allocator + Copy> Ports for MemoryPorts<'a, A> {
    ghost use Rattle.std.specs.Prelude.{[], ◌∷◌};
    ghost use Rattle.daide_io.specs.Ports.{AppendsTo};
    ghost use Rattle.daide_test_support.specs.MemoryPorts.{answers_stored};

    ghost transition = { λ old answer new. AppendsTo (answers_stored old.calls) (answer ∷ []) (answers_stored new.calls) };

    fn pull(&mut self, side: Side, buffer: &mut [u8]) -> Pull {
        let pull = match side {
            Side::Bot => self.bot.pull(buffer),
            Side::Server => self.server.pull(buffer),
        };
        let came = Vec::from_slice(self.alloc, &buffer[..count_of(pull)]);
        let call = came.map(|bytes| Call::Pulled(side, buffer.len(), pull, bytes));
        let calls = self.calls.take();
        self.calls = with_call(calls, call);
        pull
    }

    fn put(&mut self, side: Side, bytes: &[u8]) -> Put {
        let put = match side {
            Side::Bot => self.bot.put(bytes.len()),
            Side::Server => self.server.put(bytes.len()),
        };
        let call = Vec::from_slice(self.alloc, bytes).map(|copy| Call::Offered(side, copy, put));
        let calls = self.calls.take();
        self.calls = with_call(calls, call);
        put
    }

    fn clock(&mut self, is_spent: bool) -> ClockEvent {
        let event = clock_event(is_spent, self.stops_after, self.quiet);
        self.stops_after = self.stops_after.and_then(|queries| queries.checked_sub(1));
        self.quiet = self.quiet.saturating_sub(1);
        let calls = self.calls.take();
        self.calls = with_call(calls, Ok(Call::Clock(event)));
        event
    }
}
