//! The frames of the client-server protocol: their headers, the error codes, and the check of an initial message. A
//! cutter finds the frames in the bytes from one side, in whatever pieces they arrive.
#![tactic(auto)]

pub mod code;
pub mod cutter;
pub mod head;
pub mod initial_message;
mod kind;
mod law_facts;
pub mod laws;
pub mod memory;
pub mod per_side;
pub mod side;

pub use code::Code;
pub use cutter::{Cutter, Step};
pub use head::{Head, Kind, read_head, write_head};
pub use initial_message::check_im;
pub use memory::Memory;
pub use per_side::PerSide;
pub use side::{Side, other};
