//! Buffered, non-blocking I/O over any full-duplex stream: reads and writes that never wait, a read buffer and a write
//! buffer, and draining of a stream that is being closed.
#![tactic(auto)]

pub mod buffered;
pub mod calls;
pub mod dropping;
mod io_buffer;
pub mod pool;
pub mod readiness;
