//! The names of the kinds of frames.

ghost use Rattle.std.specs.Prelude.{◌≡◌};
ghost use Rattle.daide_frame.specs.Kind.{name_of_kind};

use crate::head::Kind;

impl Kind {
    /// Returns the two letters of the kind, as in the protocol.
    pub fn name(self) -> &'static str
        ensures { result.now ≡ name_of_kind self }
    {
        match self {
            Kind::Im => "IM",
            Kind::Rm => "RM",
            Kind::Dm => "DM",
            Kind::Fm => "FM",
            Kind::Em => "EM",
        }
    }
}
