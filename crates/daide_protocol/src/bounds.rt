//! The limits on a peer (the longest body, the deepest message), and on the number of sessions.

use crate::answers::HUH_BYTES;

/// The longest body of a frame, in bytes: 65,534, the greatest even length, less the eight bytes that a HUH adds to its
/// message, so that every answer fits in a frame.
pub const MAX_BODY: u16 = u16::MAX - 1 - HUH_BYTES as u16;

/// The minimum of `Config::max_body`.
pub const MIN_BODY: u16 = 512;

/// The maximum of `Config::max_depth`: the number of brackets that may be open at once.
pub const MAX_DEPTH: u16 = 254;

/// The minimum of `Config::max_depth`.
pub const MIN_DEPTH: u16 = 4;

/// The capacity of a reader's stack: five cells for each open bracket, plus ten.
pub const STACK_ENTRIES: usize = 5 * MAX_DEPTH as usize + 10;

/// The maximum number of sessions at a time.
pub const MAX_SESSIONS: usize = 256;
