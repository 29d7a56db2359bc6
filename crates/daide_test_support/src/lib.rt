//! Support for all tests: comparisons, streams that fail, and ports in memory.
//!
//! This crate has no tests of its own, and only tests call it: those of the libraries (tests/codec, tests/session) and
//! those of the program (tests/run). They are played without proof. This crate is proved, so its comparisons cannot
//! pass by mistake.
#![tactic(auto)]

pub mod fakes;
pub mod memory_ports;
pub mod rows;
pub mod words;
