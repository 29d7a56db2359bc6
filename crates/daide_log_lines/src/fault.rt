//! Why the report of a log is incomplete.

use thiserror::Error;

/// The reason why a report stops, at the first line with a fault.
#[derive(Clone, Copy, Debug, PartialEq, Eq, Error)]
pub enum LogFault {
    /// The line of this number, counted from 1, is missing or has none of the forms allowed there.
    #[error("line {0} is not a log line")]
    BadLine(u32),
    /// The line of this number has more than 2,100 bytes.
    #[error("line {0} is too long")]
    LineTooLong(u32),
    /// There are more than 1,000,000 lines.
    #[error("too many lines")]
    TooManyLines,
    /// A read of the log failed.
    #[error("input could not be read")]
    Read,
    /// A write of the report failed.
    #[error("output could not be written")]
    Write,
    /// An allocation was refused: for the sessions once the head was read, or for an explanation.
    #[error("out of memory")]
    Memory,
}
