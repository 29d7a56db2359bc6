//! The four bytes before every frame: its type, a pad byte, and the length of its body.
//!
//! A header is judged when its fourth byte arrives, so that a frame of a wrong length is refused before any of its body
//! is kept.

ghost use Rattle.std.specs.Prelude.{◌≡◌, ◌==◌, ◌%◌};
ghost use Rattle.daide_frame.specs.Head.{has_right_length, parse_head, head_bytes};

use crate::code::Code;

/// The kind of a frame, by the first byte of its header.
#[derive(Clone, Copy, Debug, PartialEq, Eq)]
pub enum Kind {
    /// Type 0: the initial message, which the client sends first.
    Im,
    /// Type 1: the representation message, which names the map's provinces.
    Rm,
    /// Type 2: a diplomacy message, a list of tokens of two bytes each.
    Dm,
    /// Type 3: the final message, after which the connection is closed.
    Fm,
    /// Type 4: an error message, after which the connection is closed.
    Em,
}

impl Kind {
    /// Returns whether a frame of this kind may have a body of `len` bytes.
    fn may_have_length(self, len: u16) -> bool
        ensures { result ≡ has_right_length self len }
    {
        match self {
            Kind::Im => len == 4,
            Kind::Rm => len % 6 == 0,
            Kind::Dm => len % 2 == 0,
            Kind::Fm => len == 0,
            Kind::Em => len == 2,
        }
    }
}

/// The header of a frame.
#[derive(Clone, Copy, Debug, PartialEq, Eq)]
pub struct Head {
    /// The kind of the frame.
    pub kind: Kind,
    /// The length of the body, in bytes.
    pub len: u16,
}

/// Reads a header, for bodies of at most `cap` bytes, and ignores the pad byte.
///
/// Returns the first of these faults. A type that no frame has is `UnknownMessage`. An initial message whose length is
/// in the other byte order is `WrongEndian`. A length that is wrong for the type is `WrongLength`, and a length above
/// the cap `UnknownMessage`.
#[tactic(auto, unfolding(crate::specs::Head::parse_head))]
pub fn read_head(bytes: [u8; 4], cap: u16) -> Result<Head, Code>
    ensures { result ≡ parse_head bytes cap }
{
    let kind = match bytes[0] {
        0 => Kind::Im,
        1 => Kind::Rm,
        2 => Kind::Dm,
        3 => Kind::Fm,
        4 => Kind::Em,
        _ => return Err(Code::UnknownMessage),
    };
    let len = u16::from_be_bytes([bytes[2], bytes[3]]);
    if kind == Kind::Im && len == 0x0400 {
        return Err(Code::WrongEndian);
    }
    if !kind.may_have_length(len) {
        return Err(Code::WrongLength);
    }
    if len > cap {
        return Err(Code::UnknownMessage);
    }
    Ok(Head { kind, len })
}

/// Returns the four bytes of a header, with pad 0 and the length's high byte first.
#[tactic(auto, unfolding(crate::specs::Head::head_bytes))]
pub fn write_head(head: Head) -> [u8; 4]
    ensures { result ≡ head_bytes head }
{
    let kind = match head.kind {
        Kind::Im => 0,
        Kind::Rm => 1,
        Kind::Dm => 2,
        Kind::Fm => 3,
        Kind::Em => 4,
    };
    let [high, low] = head.len.to_be_bytes();
    [kind, 0, high, low]
}
