//! The event loop of a run: it accepts bots, gives the ready sessions their turns, and ends when all bots were served. An
//! endless run serves until it is stopped.
//!
//! A round begins with a poll, which names the places that have something to do, and then visits places of the ready queue.
//! A session that is not in the queue is at rest. It uses no socket. The system is a parameter, so that tests can drive
//! whole runs in memory.

ghost use Rattle.std.specs.Prelude.{◌≡◌, true, false, List, OnOk, OnErr, IfOk, IfErr, Some};
ghost use Rattle.daide_io.specs.System.{SystemCall, TransitsBy};
ghost use Rattle.daide_driver.specs.Slab.{is_at, is_held, IfHeldAt};
ghost use Rattle.daide_event_loop.specs.Serving.{shows_where, end_by, retirement, TakesTurn, TakesTurns, RestsBy};
ghost use Rattle.daide_event_loop.specs.Serving.{TurnsAndLeaves, VisitsPlace, VisitsReady, Admits, Round, is_done, initial_service};
ghost use Rattle.daide_event_loop.specs.Serving.{IsRefusedAt, VisitsUntilRefused, BreaksOff, GivesUp, IsServeCause};
ghost use Rattle.daide_event_loop.specs.Served.{IsWholeRun};

use crate::admission_counters::AdmissionCounters;
use daide_driver::meter::Meter;
use daide_driver::slab::Slab;
use daide_driver::slot::Removed;
use daide_driver::status::session_status;
use daide_frame::memory::Memory;
use daide_io::ports::Ports;
use daide_io::ready_queue::ReadyQueue;
use daide_io::system::{Cause, Connect, Notice, Orders, SessionEnd, System};
use daide_settings::settings::Settings;
use std::alloc::{AllocError, Allocator, Global};
use std::marker::Model;
use thiserror::Error;

/// The quantum: the most turns of a session in one visit. A short frame takes four: its header and its body are read, and
/// both are written. The fifth finds nothing more to do.
const QUANTUM: usize = 8;

/// The most turns of a round. Then the network is polled again.
const ROUND: usize = 32;

/// As many turns of a round are left to those that used their quantum before, if there are any.
const LEFT_TO_MOVING: usize = QUANTUM;

/// Why a run ended before all its bots were served.
#[derive(Clone, Copy, Debug, PartialEq, Eq, Error)]
pub enum ServeFault {
    /// The allocator refused the places, or a session.
    #[error("out of memory")]
    Memory,
    /// All rounds were made, 2^64 - 1 of them. This is the bound of a loop that otherwise need not end.
    #[error("rounds spent")]
    RoundsSpent,
}

/// The state of a run: its sessions, its counters, and the places that are to be visited.
///
/// Each place that is used and not in the queue is at rest: its last turn made no progress, the system was told so
/// (`System::rest`), and no poll has named it since; or its connect is pending.
#[derive(Drop)]
pub struct Service<P: Ports, A: Allocator = Global> {
    slab: Slab<P, A>,
    counters: AdmissionCounters,
    ready: ReadyQueue<A>,
}

impl<P: Ports, A: Allocator> Model for Service<P, A> {
    ghost use Rattle.std.specs.Prelude.{◌≤◌};
    ghost use Rattle.daide_event_loop.specs.Serving.{ServiceView};

    ghost Value = { ServiceView P };

    ghost view = { λ s. record { slab = s.slab; counters = s.counters; ready = s.ready } };

    // no more bots were accepted than the run serves in all
    ghost invariant = { λ s. s.counters.accepted ≤ s.counters.sessions };
}

/// Shows the operator the status of each session, in order of place, if the orders require it.
fn show_sessions<P: Ports, A: Allocator + Copy, S: System<P>>(
    orders: Orders,
    slab: &Slab<P, A>,
    system: &mut S,
)
    ensures { TransitsBy S.transition system.old (shows_where orders.shows_sessions slab.now.places) system.new }
{
    if !orders.shows_sessions {
        return;
    }
    for place in 0..slab.len() {
        if slab.has(place) {
            let bytes = slab.meter(place).moved.bytes;
            let status = session_status(slab.session(place), bytes);
            system.show(slab.ports(place), status);
        }
    }
}

/// Retires the ports of the session that was at a place, with its end. Its cause is the event that ended it, unless that was
/// the stop of a session whose turns were spent: this is reported before.
fn retire_session<P: Ports, S: System<P>>(
    place: usize,
    meter: Meter,
    removed: Removed<P>,
    system: &mut S,
)
    ensures { TransitsBy S.transition system.old (retirement place removed.ports meter
        (end_by meter (Some removed.ending) removed.account removed.fault_field)) system.new }
{
    let Removed {
        ports,
        account,
        ending,
        fault_field,
    } = removed;
    let cause = if meter.is_spent() {
        system.log(Notice::TurnsSpent);
        Cause::TurnsSpent
    } else {
        Cause::Session(ending)
    };
    let end = SessionEnd {
        cause,
        account,
        fault_field,
    };
    system.retire(place, ports, end);
}

/// Makes one turn of the session at a place: the system begins it with the account and the ports of that session, and
/// then it runs.
#[inline(always)]
fn take_turn<P: Ports, A: Allocator + Copy, S: System<P>>(
    slab: &mut Slab<P, A>,
    place: usize,
    system: &mut S,
)
    requires { is_at is_held slab.old.places place ≡ true }
    ensures { (trace : List (SystemCall P)) × TransitsBy S.transition system.old trace system.new
        × TakesTurn P.transition slab.old place trace slab.new }
{
    let account = slab.session(place).account();
    system.begin_turn(place, &account, slab.ports_mut(place));
    slab.turn(place);
}

/// Makes a turn of the session at a place, and then one more after each that made progress, at most `QUANTUM`. Returns
/// how many.
#[inline(always)]
fn take_turns<P: Ports, A: Allocator + Copy, S: System<P>>(
    slab: &mut Slab<P, A>,
    place: usize,
    system: &mut S,
) -> usize
    requires { is_at is_held slab.old.places place ≡ true }
    ensures { (trace : List (SystemCall P)) × TransitsBy S.transition system.old trace system.new
        × TakesTurns P.transition slab.old place result trace slab.new }
{
    for turns in 0..QUANTUM {
        take_turn(slab, place, system);
        if !slab.meter(place).moved.made_progress {
            return turns + 1;
        }
    }
    QUANTUM
}

/// Has the session at a place rest, unless its last turn made progress. Returns whether it rests.
#[inline(always)]
fn rests<P: Ports, A: Allocator + Copy, S: System<P>>(
    slab: &Slab<P, A>,
    place: usize,
    system: &mut S,
) -> bool
    requires { is_at is_held slab.now.places place ≡ true }
    ensures { IfHeldAt slab.now.places place (λ item. (trace : List (SystemCall P))
        × TransitsBy S.transition system.old trace system.new
        × RestsBy item.meter.moved.made_progress place item.ports trace result) }
{
    if slab.meter(place).moved.made_progress {
        return false;
    }
    system.rest(place, slab.ports(place))
}

impl<P: Ports, A: Memory + Copy> Service<P, A> {
    /// Creates a run with no bot yet. Its only error is that the allocator refused the places.
    pub fn new(alloc: A, settings: &Settings) -> Result<Service<P, A>, AllocError>
        ensures opening { IfOk result (λ service. service ≡ initial_service settings.now) }
        ensures refused { OnErr result (A.Refuses settings.now.max_sessions) }
    {
        let limits = settings.limits();
        let most = settings.max_sessions;
        Ok(Service {
            slab: Slab::with_limits(alloc, limits, most, settings.words)?,
            counters: AdmissionCounters {
                sessions: settings.bots_in_all(),
                turns: settings.turns,
                accepted: 0,
            },
            ready: ReadyQueue::new(alloc, most)?,
        })
    }

    /// Returns true if all bots were served and no session is left.
    pub fn is_done(&self) -> bool
        ensures { result ≡ is_done self.now }
    {
        self.counters.have_all_come() && self.slab.is_empty()
    }

    /// Accepts a bot if there is a place for it and the limit is not reached. Its place is visited, since its connect may
    /// have failed already.
    fn admit<S: System<P>>(&mut self, system: &mut S)
        ensures { (trace : List (SystemCall P)) × TransitsBy S.transition system.old trace system.new
            × Admits self.old trace self.new }
    {
        if self.counters.have_all_come() {
            return;
        }
        let Some(place) = self.slab.next_free() else {
            return;
        };
        if system.accept(place) {
            self.slab.keep(place);
            self.counters.accepted += 1;
            self.ready.wake(place);
        }
    }

    /// Gives the session at a place its turns. Then it is retired if it is closed, or rests, or its place goes to the end of
    /// the queue. Returns how many turns it had.
    #[inline(always)]
    fn give_turns<S: System<P>>(&mut self, place: usize, system: &mut S) -> usize
        requires { is_at is_held self.old.slab.places place ≡ true }
        ensures { (trace : List (SystemCall P)) × TransitsBy S.transition system.old trace system.new
            × TurnsAndLeaves P.transition self.old place result trace self.new }
    {
        let turns = take_turns(&mut self.slab, place, system);
        if self.slab.session(place).is_closed() {
            let meter = self.slab.meter(place);
            let removed = self.slab.remove(place);
            retire_session(place, meter, removed, system);
        } else if !rests(&self.slab, place, system) {
            self.ready.put_back(place);
        }
        turns
    }

    /// Visits a place without a session. If the connect of its bot completed, the session begins and has its turns; if it
    /// failed, the place is free. Returns the number of turns. It is not inlined: the ports are large, and most visits are
    /// of a session.
    ///
    /// Fails with `Memory` if the allocator refused a body.
    #[inline(never)]
    fn join<S: System<P>>(&mut self, place: usize, system: &mut S) -> Result<usize, ServeFault>
        requires { is_at is_held self.old.slab.places place ≡ false }
        ensures visits { IfOk result (λ turns. (trace : List (SystemCall P))
            × TransitsBy S.transition system.old trace system.new
            × VisitsPlace P.transition self.old place turns trace self.new) }
        ensures fault { IfErr result (λ fault. fault ≡ ServeFault.Memory) }
        ensures broken_off { OnErr result ((trace : List (SystemCall P))
            × TransitsBy S.transition system.old trace system.new
            × IsRefusedAt A.Refuses self.old place trace self.new) }
    {
        // Something may be reported of a place after its session ended.
        if !self.slab.is_kept(place) {
            return Ok(1);
        }
        match system.connected(place) {
            Connect::Pending => Ok(1),
            Connect::Failed => {
                self.slab.give_up(place);
                Ok(1)
            }
            Connect::Ready(ports) => {
                match self.slab.open(place, ports, self.counters.turns) {
                    Ok(()) => Ok(self.give_turns(place, system)),
                    Err(_ports) => Err(ServeFault::Memory),
                }
            }
        }
    }

    /// Visits a place. Returns the number of turns of its session; one at least, so that a round ends.
    #[inline(always)]
    fn visit<S: System<P>>(&mut self, place: usize, system: &mut S) -> Result<usize, ServeFault>
        ensures visits { IfOk result (λ turns. (trace : List (SystemCall P))
            × TransitsBy S.transition system.old trace system.new
            × VisitsPlace P.transition self.old place turns trace self.new) }
        ensures fault { IfErr result (λ fault. fault ≡ ServeFault.Memory) }
        ensures broken_off { OnErr result ((trace : List (SystemCall P))
            × TransitsBy S.transition system.old trace system.new
            × IsRefusedAt A.Refuses self.old place trace self.new) }
    {
        if self.slab.has(place) {
            Ok(self.give_turns(place, system))
        } else {
            self.join(place, system)
        }
    }

    /// Visits places of the queue until it is empty, or until another visit might exceed `ROUND` turns. Those that were at
    /// rest come first, but the last `LEFT_TO_MOVING` turns are for one of the others, if there is one.
    fn visit_ready<S: System<P>>(&mut self, system: &mut S) -> Result<(), ServeFault>
        ensures visits { OnOk result ((trace : List (SystemCall P))
            × TransitsBy S.transition system.old trace system.new
            × VisitsReady P.transition self.old trace self.new) }
        ensures fault { IfErr result (λ fault. fault ≡ ServeFault.Memory) }
        ensures broken_off { OnErr result ((trace : List (SystemCall P))
            × TransitsBy S.transition system.old trace system.new
            × VisitsUntilRefused A.Refuses P.transition self.old trace self.new) }
    {
        let mut turns = 0;
        while turns + QUANTUM <= ROUND {
            let fresh_first = turns + QUANTUM + LEFT_TO_MOVING <= ROUND;
            let Some(place) = self.ready.next(fresh_first) else {
                return Ok(());
            };
            turns += self.visit(place, system)?;
        }
        Ok(())
    }

    /// Makes one round: a poll, which blocks only if no place is to be visited; the operator's orders; visits of at most
    /// `ROUND` turns; and at most one accept.
    ///
    /// `round`: the poll wakes places, which join the queue. If its orders require it, the status of each session is shown
    /// once before any other call, in order of place (`shows`). If they stop accepting, the bots accepted so far are all bots
    /// of the run, in this round and from then on (`closed`). Sessions and pending connects go on. Then places of the queue
    /// are visited: those that were at rest first, in their order, but the last of four visits goes to one that had turns
    /// before, if there is one (`Chooses`). A session has up to 8 turns, one after another while they make progress
    /// (`TakesTurns`); the system begins each with the session's account and ports. Then it is retired if it is over and nothing waits.
    /// It rests if its last turn made no progress and the system has it rest, and otherwise joins the end of the queue
    /// (`LeavesVisit`). The visit of a bot without a session asks for its connect (`JoinsBy`). A bot is accepted only if a place
    /// is free and not all bots came (`Admits`).
    ///
    /// `refused`: its only fault is no memory for a session.
    ///
    /// `broken_off`: with this fault the round ends after the connect that succeeded. Its ports are dropped, and all
    /// else is as the visits before it left it (`BreaksOff`).
    pub fn round<S: System<P>>(&mut self, system: &mut S) -> Result<(), ServeFault>
        ensures round { OnOk result ((trace : List (SystemCall P))
            × TransitsBy S.transition system.old trace system.new × Round P.transition self.old trace self.new) }
        ensures refused { IfErr result (λ fault. fault ≡ ServeFault.Memory) }
        ensures broken_off { OnErr result ((trace : List (SystemCall P))
            × TransitsBy S.transition system.old trace system.new
            × BreaksOff A.Refuses P.transition self.old trace self.new) }
    {
        let orders = system.poll(self.ready.is_empty(), &mut self.ready);
        self.counters.heed(orders);
        show_sessions(orders, &self.slab, system);
        self.visit_ready(system)?;
        self.admit(system);
        Ok(())
    }
}

/// Serves as many bots as the settings say, in rounds (`Round`), and returns when all were served and no session is
/// held. An endless run (`endless`) would return after 2^32 - 1 bots, the greatest number of a session. After an order
/// to stop accepting, the bots accepted so far are all, and it returns when they were served. A run waits for its peers,
/// so no bound on its time is known. Each clause is about the calls that took the system from its old to its new value
/// (`TransitsBy`). So a body that makes no call meets none.
///
/// `served` (`each`): if it returns `Ok`, the calls are those of a whole run (`IsWholeRun`). Each session that it
/// served is bounded and exact by all that its ports returned, as `sessions_are_served` says. With a session's ports
/// the run hands the system the session's counts and why it ended (`IsEndOf`). The cause is the event that ended it, by
/// what its ports returned while turns were left. It is `TurnsSpent` if and only if there is no such event: the session was
/// open until then, and its clock stopped it in the next turn, as an operator does.
///
/// `served` (`none_lost`): no ports are lost. As many bots came as the settings say, or 2^32 - 1 if the run is endless
/// (`all_came`). If there was an order to stop accepting, at most as many came, and accept was not called after it
/// (`HeedsStops`). For each one the ports were handed back or the server could not be reached (`all_served`).
///
/// `given_up`: else the calls are those of a run that was given up for its fault (`GivesUp`). No memory for the places
/// is returned before any call. After no memory for a session, the round is broken off. The other fault is that
/// 2^64 - 1 rounds were made, since a loop here needs a bound.
///
/// `refused`: it returns `Memory` only after the allocator refused room for `max_sessions` places or for a body of
/// `max_body` bytes.
///
/// Not said: what the system does with causes and counts; that a read gave what the peer sent, and that a peer gets
/// what a write took. Two sessions may name the same connect; only the counts say that there are as many of both.
pub fn serve<P: Ports, A: Memory + Copy, S: System<P>>(
    alloc: A,
    settings: &Settings,
    system: &mut S,
) -> Result<(), ServeFault>
    ensures served { OnOk result ((trace : List (SystemCall P))
        × TransitsBy S.transition system.old trace system.new × IsWholeRun P.transition settings.now trace) }
    ensures given_up { IfErr result (λ fault. (trace : List (SystemCall P))
        × TransitsBy S.transition system.old trace system.new
        × GivesUp A.Refuses P.transition settings.now fault trace) }
    ensures refused { IfErr result (IsServeCause A.Refuses settings.now) }
{
    let Ok(mut service) = Service::<P, A>::new(alloc, settings) else {
        return Err(ServeFault::Memory);
    };
    for _round in 0..u64::MAX {
        if service.is_done() {
            return Ok(());
        }
        service.round(system)?;
    }
    Err(ServeFault::RoundsSpent)
}
