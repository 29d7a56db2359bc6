//! The report of a recorded log: what the gateway does at each of its lines.
//!
//! `daide_log_lines` defines the forms of lines. `specs/` defines the head of a log (`Heading`), the line for a
//! session's move (`Report`), and the report of a log (`Log`). Each line is judged before the next one is read, and a
//! session's queues are emptied at once.
#![tactic(auto)]

mod announced;
pub mod check;
pub mod comment;
pub mod config_line;
mod explained;
mod heading;
mod judge;
mod law_facts;
pub mod laws;
mod line_reason;
pub mod moment;
mod observer;
mod opening;
mod page;
mod play;
pub mod record;
mod record_text;
mod recording;
mod report;
mod report_builder;
mod style;
mod utc;

pub use check::{check_log, check_stream};
pub use comment::Comment;
pub use daide_causes::Sink;
pub use daide_log_lines::LogFault;
pub use daide_log_lines::reader::LogReader;
pub use explained::{Explained, explain_log, explain_stream};
pub use heading::{Preamble, Version};
pub use line_reason::{LineProblem, LineReason};
pub use moment::Moment;
pub use observer::{Observer, check_observed, explain_observed};
pub use record::{Record, RecordEnd, RecordedEvent};
pub use recording::{Activity, Recording};
pub use report::ReportKey;
