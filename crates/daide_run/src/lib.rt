//! The gateway at the addresses of its settings: a run, from a text of settings to its end.
//!
//! `gateway` binds the addresses and serves on a system, and `running` does so for a text of settings, with the laws of a
//! whole run. `folder` has the records of sessions, `broken_records` reports each that breaks off once, and `recorded` is
//! the system of a run. `laws` says what the sessions of a run exchange with their streams.
#![tactic(auto)]

mod broken_records;
pub mod folder;
pub mod gateway;
pub mod laws;
mod notices;
mod recorded;
pub mod running;

pub use gateway::GatewayFault;
pub use notices::RecordNotice;
pub use running::{RunFault, run_text};
