//! What `daide-gate` does with the words of its command line, over any streams.
//!
//! `program` parses the words into an order (`daide_command_line`) and carries it out: `run_order` runs the gateway
//! (`daide_run`), and `daide_tools` has the other commands. `causes` has the lines of a fault of a run. `terminal` is a
//! standard input with a prompt.
#![tactic(auto)]

mod causes;
mod program;
mod run_order;
pub mod terminal;

pub use program::answer;
