//! The commands of `daide-gate` that need no run of their own, over any streams.
//!
//! `showing`, `checking` and `framing` take their input from the arguments (`typed`), a file or a reader. `several` has
//! `check` of several logs, and `transcribing` prints their messages. `judging` judges a file of settings, whose addresses
//! `trying` tries, and `controlling` sends a request to a run and prints its answer. `settings_file` reads a file of
//! settings. `opening` opens what they read. `faults` has the line that reports a fault and the exit statuses.
#![tactic(auto)]

pub mod checking;
pub mod controlling;
pub mod faults;
pub mod framing;
pub mod judging;
pub mod opening;
pub mod settings_file;
mod several;
pub mod showing;
pub mod transcribing;
mod trying;
mod typed;
