//! The timeouts of a socket that expired, which `--verbose` reports.

/// The timeouts of a socket that expired.
#[derive(Clone, Copy)]
pub struct Timed {
    /// Whether the idle timeout expired: the peer sent no byte for too long, and counts as ended.
    pub is_silent: bool,
    /// Whether the stall timeout expired: the peer accepted no byte for too long while some were queued, so its writes
    /// fail.
    pub is_stalled: bool,
    /// Whether the peer counts as ended because it is stalled.
    pub ends_stalled: bool,
}

impl Timed {
    /// No timeout expired.
    pub const NONE: Timed = Timed {
        is_silent: false,
        is_stalled: false,
        ends_stalled: false,
    };
}
