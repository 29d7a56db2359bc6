//! Tokens of the DAIDE protocol: their numbers, classes, names and printed text.
#![tactic(auto)]

mod body;
pub mod class;
mod class_number;
mod codes;
mod hex_digits;
mod law_facts;
pub mod laws;
mod names;
pub mod text;
pub mod token;

pub use body::token_at;
pub use class::Class;
pub use codes::{BRA, ERR, HLO, HUH, KET, LVL, PRN};
pub use hex_digits::digits_of_byte;
pub use text::{Printed, PrinterState, end_of, put_tokens, write_text, write_text_with};
pub use token::Token;
