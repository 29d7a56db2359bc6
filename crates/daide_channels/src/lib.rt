//! The bytes received from a bot and a server, and the frames queued for their wires: a session without its phase and
//! its levels.
//!
//! Each message is framed and parsed as its bytes arrive, and its answer is sent from the same buffer. `receiver` is
//! one side: its frame, the reader of its messages, and its answer in place. `channels` has both sides (`per_side`) and
//! the send queues of both wires (`send_queue`). The caller decides which frames are queued, and at which level a
//! message is read.
#![tactic(auto)]

pub mod channels;
mod receiver;
mod send_queue;

pub use channels::Channels;
