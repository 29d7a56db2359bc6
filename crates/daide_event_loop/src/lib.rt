//! The event loop of a run: it accepts bots, gives their sessions turns, and ends when all bots were served.
//!
//! It uses no socket: its environment is `System`, of `daide_io`. `serving` is the loop.
#![tactic(auto)]

mod admission_counters;
pub mod laws;
pub mod serving;

pub use serving::{ServeFault, Service, serve};
