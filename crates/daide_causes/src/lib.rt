//! What a fault may be about outside of the program, in forms that a contract can name: refused memory, a failed read
//! and a failed write.
//!
//! Each trait has one implementation, for everything that it can be for. Code that is generic in it can show that
//! something failed only of a call that returned an error.
#![tactic(auto)]

pub mod growth;
pub mod sink;
pub mod source;

pub use growth::Growth;
pub use sink::Sink;
pub use source::Source;
