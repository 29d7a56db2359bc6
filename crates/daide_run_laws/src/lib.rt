//! The laws of a run over sockets. They join what the loop says of its calls with what the sockets say of theirs. They are
//! in a crate of their own so that a change of a law proves neither again.
#![tactic(auto)]

pub mod laws;
