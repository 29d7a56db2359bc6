//! The gateway as one library: each public name that a caller needs, of all crates.
//!
//! This crate has names only: tokens, frames, the grammar and the reader; a session, its driver, and the event loop;
//! and the commands on their inputs. It opens no file and no socket: readers, writers, ports and the allocator are
//! parameters. So the output can be stated as a function of the input, and tests can try each refusal. `daide_run` has the
//! gateway over sockets.
#![tactic(auto)]

// Tokens, and their text.
pub use daide_token::{Class, Token, write_text, write_text_with};

// Frames.
pub use daide_frame::{
    Code, Cutter, Head, Kind, Memory, Side, Step, check_im, read_head, write_head,
};

// The grammar, the tables that predict with it, and an operator's words.
pub use daide_grammar::{Dense, Level, Move, Plain, Predict, Side2, Sym};
pub use daide_words::{Extended, Operand, Slot, Word, WordError, Words};

// The verdict on a message.
pub use daide_reader::{Reader, Verdict};

// A session, and its driver.
pub use daide_driver::{
    AddFault, Hub, HubError, Moved, RelayEnd, Removed, hub, relay, relaying, turn, turn_io,
};
pub use daide_io::ports::ClockEvent;
pub use daide_io::{
    ByteCounts, Cause, Connect, FaultField, Notice, Orders, Ports, Pull, Put, ReadyQueue,
    SessionEnd, SessionStatus, System, ports, system,
};
pub use daide_protocol::{
    Account, BotName, Config, ConfigError, Counter, Deed, Ending, Note, Phase, Power,
    SessionLimits, SideCounts, Summary,
};
pub use daide_session::{Session, SessionError};

// The event loop, and the commands on their inputs.
pub use daide_event_loop::{ServeFault, Service, serve, serving};
pub use daide_log::{
    Comment, LineProblem, LineReason, LogFault, LogReader, Moment, Record, RecordEnd, Recording,
    Sink, check_log, check_stream, record,
};
pub use daide_settings::{Address, Key, Settings, SettingsError, read_settings, settings};
pub use daide_show::{
    InputNote, OddGroup, Request, ShowFault, frame_view, groups, input_note, notes, odd_group,
    read_input, show, show_input, show_with,
};
