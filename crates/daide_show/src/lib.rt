//! One frame, shown in plain words: its contents, its verdict, and the reason.
//!
//! Nothing here opens a file. Reader, writer and allocator are parameters, so contracts can state the output as a
//! function of the input, and tests can make each call fail.
#![tactic(auto)]

pub mod frame_view;
pub mod groups;
mod law_facts;
pub mod laws;
pub mod notes;

pub use frame_view::{Request, ShowFault, read_input, show, show_input, show_with};
pub use groups::{OddGroup, odd_group};
pub use notes::{InputNote, input_note};
