//! The behaviour of a session as definitions (a state machine over events, and the send queues), and its tables in
//! code.
//!
//! `specs/` has the definitions, in the order Bounds, Events, Answers, HloLevel, Machine, Config, Summary, BotName,
//! Power, Account, AccountText, Wires, Counts, Weight, Calls, Heard, Fates, Ended, Passing, Harm, Laws.
//!
//! The code makes decisions; its only state is the scan of an HLO and the counts of effects. `transitions` and `hlo`
//! implement the machine's tables, and `answers` has the fixed tokens of an answer. So the proofs of a session and of
//! its callers use the same definitions. The interfaces to the environment are in `daide_io`.
#![tactic(auto)]

pub mod account;
pub mod answers;
pub mod bot_name;
pub mod bounds;
pub mod config;
pub mod ending;
pub mod hlo;
mod law_facts;
pub mod laws;
pub mod note;
pub mod phase;
pub mod power;
pub mod summary;
pub mod transitions;

pub use account::{Account, Counter, SideCounts};
pub use bot_name::{BotName, NameText};
pub use bounds::{MAX_BODY, MAX_DEPTH, MAX_SESSIONS, MIN_BODY, MIN_DEPTH, STACK_ENTRIES};
pub use config::{Config, ConfigError, SessionLimits};
pub use ending::Ending;
pub use note::{Deed, Note};
pub use phase::{Phase, SessionPhase};
pub use power::Power;
pub use summary::Summary;
