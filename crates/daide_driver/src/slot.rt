//! A session with its ports and its meter, at a place of a slab; and what is left of a session that was removed.

ghost use Rattle.std.specs.Prelude.{◌≡◌, true};
ghost use Rattle.daide_protocol.specs.Wires.{is_closed};
ghost use Rattle.daide_driver.specs.Hub.{IsReportedOf};
ghost use Rattle.daide_driver.specs.Slab.{IsSlotTurned};

use crate::meter::Meter;
use crate::status::fault_field;
use crate::turn_io::{BUFFER, turn_through};
use daide_io::fault_field::FaultField;
use daide_io::ports::Ports;
use daide_protocol::account::Account;
use daide_protocol::ending::Ending;
use daide_session::session::Session;
use std::alloc::Allocator;

/// A removed session: its ports, its account, its ending and its fault.
#[derive(Drop)]
pub struct Removed<P: Ports> {
    pub ports: P,
    /// The counts by side, each modulo 2^64, and the level that was last in force.
    pub account: Account,
    /// The event that ended the session.
    pub ending: Ending,
    /// The field that its fault is about, if a fault ended it.
    pub fault_field: Option<FaultField>,
}

impl<P: Ports> Removed<P> {
    /// Takes a closed session apart: returns its ports, its counts by side, its last level, what ended it, and the field that
    /// its fault is about.
    pub(crate) fn from_closed<A: Allocator + Copy>(session: Session<A>, ports: P) -> Removed<P>
        requires { is_closed session ≡ true }
        ensures ports { result.ports ≡ ports }
        ensures reported { IsReportedOf session result.account result.ending result.fault_field }
    {
        Removed {
            ports,
            account: session.account(),
            ending: session.ending().unwrap(),
            fault_field: fault_field(&session),
        }
    }
}

/// A session, its ports, and its meter.
#[derive(Drop)]
pub(crate) struct SessionSlot<P: Ports, A: Allocator> {
    pub(crate) session: Session<A>,
    pub(crate) ports: P,
    pub(crate) meter: Meter,
}

impl<P: Ports, A: Allocator + Copy> SessionSlot<P, A> {
    /// Makes one turn of the session with its ports, and counts it. If its turns are spent while it is open, its clock stops
    /// it.
    #[inline(always)]
    pub(crate) fn turn(&mut self, buffer: &mut [u8; BUFFER])
        ensures { IsSlotTurned P.transition
            (record { session = self.old.session; ports = self.old.ports; meter = self.old.meter })
            (record { session = self.new.session; ports = self.new.ports; meter = self.new.meter }) }
    {
        let is_spent = self.meter.begin_turn(self.session.is_over());
        turn_through(
            &mut self.session,
            &mut self.ports,
            is_spent,
            &mut self.meter.moved,
            buffer,
        );
    }
}
