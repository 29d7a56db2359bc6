//! The press words that an operator adds to the grammar, and the table that predicts with them.
//!
//! The code of an accepted word has no meaning in the protocol. So each class of the protocol keeps its tokens, and a word
//! has a class of its own. Its answer is one symbol, its operand in brackets. That is one stack entry, which may follow
//! any other, so stacks stay as small as without words. The laws of `Predict` are about every list of words, also those
//! that nobody can add: over a list with a code that is not free a table uses no word (`spoken`).
#![tactic(auto)]

pub mod extended;
mod law_facts;
pub mod laws;
pub mod operand;
mod place;
pub mod slot;
pub mod word;
pub mod words;

pub use extended::Extended;
pub use operand::Operand;
pub use slot::Slot;
pub use word::{Word, WordError};
pub use words::Words;
