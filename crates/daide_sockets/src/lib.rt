//! The environment of the event loop, over sockets.
//!
//! Only the loop's own wait blocks. The sockets are over any `Network`; `os_network` is that of the operating system,
//! with `connection` as a full-duplex stream. `socket` is a connection with its readiness and its deadlines, and `ports`
//! are the two of a session. `table` has what polls reported of each socket and what the next wait watches, and `poller`
//! polls the network into it. `listener` says when an accept is made, `admission` accepts bots and connects them, and
//! `present` has the hosts and the addresses of those that are there. `control` is the control socket, with
//! `control_connection`, `control_request` and `control_answer`. `lingering_close` closes in stages. `session_notice` has the
//! log lines of a session, `timed` the timeouts that it reports, `capacity` the lines of a run that is full, and
//! `server_state` what connects showed of the server. `system` combines them for the loop, and `bound_sockets` creates the
//! resources of a run.
//!
//! All but the results of the system are values, which the contracts name. A call whose result depends on the operating
//! system is described by that call of the network, by the network's own `transition`.
#![tactic(auto)]

pub mod addresses;
pub mod admission;
pub mod bound_sockets;
pub mod capacity;
mod clock;
pub mod connection;
pub mod control;
mod control_answer;
mod control_connection;
pub mod control_listener;
mod control_request;
pub mod laws;
pub mod lingering_close;
pub mod listener;
pub mod os_network;
pub mod poller;
pub mod ports;
pub mod present;
pub mod server_state;
pub mod session_notice;
pub mod socket;
pub mod system;
pub mod table;
pub mod timed;

// Only this crate depends on `mio`, so it exports the names that its callers need.
pub use mio::Interest;
pub use mio::net::{TcpListener, TcpStream, UnixListener, UnixStream};
