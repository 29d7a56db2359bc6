//! The command line of `daide-gate`: which order its words give.
//!
//! `command_line` has a table of the commands, with their arguments and help. `arguments` parses by it into an order, and
//! `hints` suggests another command for arguments that do not parse.
#![tactic(auto)]

pub mod arguments;
mod command_line;
pub mod hints;
