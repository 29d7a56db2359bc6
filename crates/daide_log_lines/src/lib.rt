//! A log as a sequence of lines, and the parsing of each line by its bytes alone.
//!
//! `specs/` defines the forms of lines (`LogLine`, `MatchLine`, `WordLine`). This crate splits blocks into lines and
//! parses them. The crate above replays the events and writes the report.
#![tactic(auto)]

pub mod block;
mod digits;
pub mod event_line;
pub mod fault;
pub mod input;
pub mod laws;
pub mod lines;
pub mod match_line;
pub mod output;
pub mod page;
pub mod parts;
pub mod reader;
pub mod text;
pub mod word_line;

pub use fault::LogFault;
