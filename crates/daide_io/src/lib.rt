//! What a session and a run call in the outside world.
//!
//! `ports` is the trait of a session's two connections and its clock, `system` the trait of the operating system as the
//! loop of a run calls it. Below these, `network` is the trait of the operating system's sockets, and `duplex` that of a
//! connection. Each of the first three has a ghost `transition`, the labelled transition relation of its implementation:
//! the old value, one call with its result, and the new value. `specs/Ports` has the calls of ports, what a list of
//! them does (`EvolvesBy`), and which events and which bytes of a wire it contains; `specs/System` the calls of a
//! system, `specs/Network` those of a network, and `specs/Streams` those of a stream.
#![tactic(auto)]

pub mod byte_counts;
pub mod duplex;
pub mod fault_field;
pub mod network;
pub mod outcome;
pub mod ports;
pub mod ready_queue;
pub mod system;

pub use byte_counts::ByteCounts;
pub use duplex::Duplex;
pub use fault_field::{FaultCause, FaultField};
pub use network::{ConnectReport, ConnectStatus, Network, SocketEvent};
pub use outcome::IoResult;
pub use ports::{Ports, Pull, Put};
pub use ready_queue::ReadyQueue;
pub use system::{Cause, Connect, Notice, Orders, SessionEnd, SessionStatus, System};
