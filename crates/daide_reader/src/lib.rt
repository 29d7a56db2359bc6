//! A reader of messages, over any table of predictions.
//!
//! It reads a message token by token, with at most four look-ups for each, and keeps no token: only a stack of expected
//! symbols and a few counts. At the end it returns the verdict. The proof of the verdict uses only the table's laws, so
//! a reader over another table reads another grammar with the same proof.
#![tactic(auto)]

mod body;
mod brackets;
mod cells;
mod law_facts;
pub mod laws;
mod loaded;
mod outline;
mod parse_stack;
pub mod reader;
mod slice;
mod stack;
pub mod verdict;

pub use reader::Reader;
pub use verdict::Verdict;
