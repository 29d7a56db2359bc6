//! The exact reason why a message was refused: what was expected at its error place, from which level it is relayed,
//! and which bracket is unpaired.
//!
//! No session calls this crate. It reads the tokens before the error place once for each class of tokens.
#![tactic(auto)]

mod answer;
mod brackets;
mod expected;
mod law_facts;
pub mod laws;
mod levels;
mod listed;
mod rules;
mod text;
mod token_text;

pub use answer::answer_of;
pub use brackets::{Unpaired, find_unpaired};
pub use expected::{is_end_expected, is_expected, is_relayed, verdict_of};
pub use levels::lowest_level;
pub use listed::list_expected;
pub use rules::Rules;
pub use text::write_explained;
pub use token_text::append_tokens;
