//! How many bytes the ports of a session delivered and took.

ghost use Rattle.std.specs.Prelude.{◌≡◌};
ghost use Rattle.daide_io.specs.ByteCounts.{more_bytes, no_bytes, pull_counted, put_counted, put_len};
ghost use Rattle.daide_io.specs.Ports.{pulled_len};

use crate::ports::{Pull, Put};
use daide_frame::side::Side;

/// The bytes of a session so far, each number modulo 2^64.
#[derive(Clone, Copy, Debug, PartialEq, Eq)]
pub struct ByteCounts {
    /// The bytes that its ports delivered from the bot.
    pub from_bot: u64,
    /// The bytes that its ports delivered from the server.
    pub from_server: u64,
    /// The bytes that its ports took for the bot.
    pub to_bot: u64,
    /// The bytes that its ports took for the server.
    pub to_server: u64,
}

/// Returns the number of bytes of a pull.
fn pulled_len(pull: Pull) -> usize
    ensures { result ≡ pulled_len pull }
{
    match pull {
        Pull::Got(count) => count,
        Pull::Idle | Pull::Ended => 0,
    }
}

/// Returns the number of bytes that a put took.
fn put_len(put: Put) -> usize
    ensures { result ≡ put_len put }
{
    match put {
        Put::Took(count) => count,
        Put::Failed => 0,
    }
}

/// Returns a count after some more bytes, modulo 2^64.
fn more_bytes(count: u64, bytes: usize) -> u64
    ensures { result ≡ more_bytes count bytes }
{
    count.wrapping_add(bytes as u64)
}

impl ByteCounts {
    /// Creates the counts of a session without any call.
    pub fn new() -> ByteCounts
        ensures { result ≡ no_bytes }
    {
        ByteCounts {
            from_bot: 0,
            from_server: 0,
            to_bot: 0,
            to_server: 0,
        }
    }

    /// Returns the counts after a pull from a side.
    pub fn after_pull(self, side: Side, pull: Pull) -> ByteCounts
        ensures { result ≡ pull_counted side pull self }
    {
        let bytes = pulled_len(pull);
        match side {
            Side::Bot => ByteCounts {
                from_bot: more_bytes(self.from_bot, bytes),
                ..self
            },
            Side::Server => ByteCounts {
                from_server: more_bytes(self.from_server, bytes),
                ..self
            },
        }
    }

    /// Returns the counts after a put to a side.
    pub fn after_put(self, side: Side, put: Put) -> ByteCounts
        ensures { result ≡ put_counted side put self }
    {
        let bytes = put_len(put);
        match side {
            Side::Bot => ByteCounts {
                to_bot: more_bytes(self.to_bot, bytes),
                ..self
            },
            Side::Server => ByteCounts {
                to_server: more_bytes(self.to_server, bytes),
                ..self
            },
        }
    }
}
