//! The result of a system call on a stream, reduced to the four cases that callers distinguish.

ghost use Rattle.std.specs.Prelude.{◌≡◌};
ghost use Rattle.daide_io.specs.Streams.{outcome_by};

use std::io;
use std::io::ErrorKind;

/// The result of one read or write.
#[derive(Clone, Copy)]
pub enum IoResult {
    /// The call moved this number of bytes. 0 from a read is the end of the stream.
    Moved(usize),
    /// A signal interrupted the call (`EINTR`) before it moved a byte.
    Interrupted,
    /// The call would have blocked (`EWOULDBLOCK`), and moved no byte.
    NotNow,
    /// The call failed with any other error, and moved no byte.
    Failed,
}

impl IoResult {
    /// Classifies what a read or a write returned.
    pub fn of(answer: &io::Result<usize>) -> IoResult
        ensures { result ≡ outcome_by answer.now }
    {
        match answer {
            Ok(count) => IoResult::Moved(*count),
            Err(error) => match error.kind() {
                ErrorKind::Interrupted => IoResult::Interrupted,
                ErrorKind::WouldBlock => IoResult::NotNow,
                _ => IoResult::Failed,
            },
        }
    }
}
