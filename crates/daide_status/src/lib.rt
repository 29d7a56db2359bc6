//! What an operator requests of a run over its control socket, what a run counts, and the texts that show its status.
//!
//! Nothing here opens a socket or a file. A text is appended piece by piece to vectors of the caller's allocator.
#![tactic(auto)]

pub mod counts;
mod json;
pub mod laws;
mod metrics;
mod pieces;
pub mod request;
pub mod snapshot;
mod table;
pub mod text;
mod totals;
pub mod version;

pub use counts::{EndCause, EndCounts, RunCounts};
pub use request::{ControlRequest, Format};
pub use snapshot::{RunStatus, ServerState, ServerStatus, SessionRow};
pub use text::StatusText;
pub use version::VERSION;
