//! The grammar of messages at each level of press, and a table that predicts it with one token of look-ahead.
//!
//! `specs/` defines the messages, independent of any reading order. `plain` has the table as code, `predict` the
//! interface of a table, and `laws` the properties of the grammar as a whole.
#![tactic(auto)]

pub mod column;
pub mod dense;
mod law_facts;
pub mod laws;
pub mod level;
pub mod meaning;
pub mod numbers;
pub mod plain;
pub mod predict;
pub mod side;
pub mod symbol;
mod table;
pub mod top_symbol;

pub use column::Column;
pub use dense::Dense;
pub use level::Level;
pub use plain::Plain;
pub use predict::{Move, Predict};
pub use side::Side2;
pub use symbol::{Sym, Symbol};
pub use top_symbol::TopSymbol;
