//! The two roles in the grammar.

/// The role of a message's sender.
#[derive(Clone, Copy, Debug, PartialEq, Eq)]
pub enum Side2 {
    /// The bot, which is the client.
    Client,
    /// The server.
    ServerEnd,
}
