//! A match by its logs, for people: a table of its sessions, and its messages in order of time.
//!
//! `sessions` observes a log while `daide_log` reports it, and keeps a result for each session, which `table` prints.
//! `transcript` observes a log too, and keeps the line of each message (`message`). `stamp` is a time in a record, and
//! `cells` writes what both print.
#![tactic(auto)]

mod cells;
mod message;
mod sessions;
mod stamp;
mod table;
mod transcript;

pub use message::MessageFormat;
pub use sessions::Sessions;
pub use table::write_table;
pub use transcript::Transcript;
