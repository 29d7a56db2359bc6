//! The inverse of printing: each line of text is parsed as a message, and its frame is written in hexadecimal digits.
#![tactic(auto)]

mod frames;
mod input;
mod law_facts;
pub mod laws;
mod line;
mod pieces;
mod reason;
mod word;

pub use frames::{TextFault, write_frames};
pub use line::{LineFault, read_tokens};
pub use reason::{Problem, Reason};
