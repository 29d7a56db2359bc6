//! A session between a bot and a server: the bytes received and the bytes to send, without any I/O.
//!
//! `Channels` of `daide_channels` has the receive state of both sides and the send queues. `session` adds the phase and
//! the levels (`protocol_state`) and handles the frame events of each piece (`frame_events`). `daide_driver`, one layer
//! above, moves the bytes.
#![tactic(auto)]

mod frame_events;
mod law_facts;
pub mod laws;
mod protocol_state;
pub mod session;

pub use daide_protocol::config::{Config, ConfigError, SessionLimits};
pub use session::{Deed, Ending, Note, Phase, Session, SessionError};
