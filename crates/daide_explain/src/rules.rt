//! The rules by which a message is judged.

use daide_grammar::{Level, Side2};
use daide_words::Words;

/// The rules by which a message is judged.
#[derive(Clone, Copy)]
pub struct Rules<'a> {
    /// The words that an operator added.
    pub words: &'a Words,
    /// The side whose messages these are.
    pub end: Side2,
    /// The press level.
    pub level: Level,
    /// The most brackets that may be open at once, 4 to 254.
    pub max_depth: u16,
}
