//! The laws about the reports of `daide_log`. They are in a crate of their own so that a change of a law does not
//! require proving the reports again.
#![tactic(auto)]

pub mod laws;
