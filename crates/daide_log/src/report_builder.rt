//! The report of a log so far, and its style.

use crate::heading::Preamble;
use crate::line_reason::LineReason;
use daide_log_lines::output::Output;
use daide_protocol::Summary;

/// The counts so far, the lines of the report with their writer, and the style of the report.
#[derive(Drop)]
pub struct ReportBuilder<'w, 's, W, S> {
    /// The counts so far.
    pub summary: Summary,
    /// The lines of the report.
    pub output: Output<'w, W>,
    /// The contents of the log's head.
    pub head: Preamble,
    /// Why the line of a fault is not a log line.
    pub refused: Option<LineReason>,
    /// The style of the report.
    pub style: &'s mut S,
}
