//! The two peers of the gateway.

ghost use Rattle.std.specs.Prelude.{◌≡◌};
ghost use Rattle.daide_frame.specs.Side.{other as opposite};

/// A side of the gateway: the sender of a frame, or its receiver.
#[derive(Clone, Copy, Debug, PartialEq, Eq)]
pub enum Side {
    /// The player's program, which connected to the gateway.
    Bot,
    /// The game's server, to which the gateway connected.
    Server,
}

/// Returns the opposite side.
pub fn other(side: Side) -> Side
    ensures { result ≡ opposite side }
{
    match side {
        Side::Bot => Side::Server,
        Side::Server => Side::Bot,
    }
}
