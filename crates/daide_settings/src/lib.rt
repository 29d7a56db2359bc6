//! The settings of a run: their document, and the values that each key may have.
//!
//! This crate opens no file: the text and the allocator are parameters.
#![tactic(auto)]

pub mod settings;

pub use settings::{
    Address, AddressRange, ControlPath, Host, JudgeFault, Key, Settings, SettingsError,
    SettingsMemory, judge_settings, may_come, read_settings,
};
