//! The driver of a session: one turn, many turns in a row, and many sessions in one loop.
//!
//! A session does no I/O. Its two wires and its clock are `Ports`, of `daide_protocol`. `turn_io` is one turn,
//! `relaying` makes turns until the session is closed. `hub` holds sessions with their ports, in order. `slab` holds
//! them at places that they keep, each in a `slot` with its `meter`: what its turns moved, and its turns left. `status` is what an operator sees of a session and of its
//! fault. The contracts have the trace of the port calls as a parameter, whether the ports record it or not.
#![tactic(auto)]

pub mod hub;
pub mod laws;
pub mod meter;
pub mod place;
pub mod relaying;
pub mod slab;
pub mod slot;
pub mod status;
pub mod turn_io;

pub use hub::{AddFault, Hub, HubError};
pub use meter::{Meter, Moved};
pub use relaying::{RelayEnd, relay};
pub use slab::Slab;
pub use slot::Removed;
pub use status::{fault_field, session_status};
pub use turn_io::turn;
