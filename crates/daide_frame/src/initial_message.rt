//! The check of an initial message, the first frame that a client sends.

ghost use Rattle.std.specs.Prelude.{◌≡◌};
ghost use Rattle.daide_frame.specs.InitialMessage.{im_of};

use crate::code::Code;

/// The version of the protocol that the gateway speaks.
const VERSION: u16 = 1;

/// The protocol's magic number.
const MAGIC: u16 = 0xDA10;

/// The magic number of a client that writes the low byte first.
const SWAPPED_MAGIC: u16 = 0x10DA;

/// Checks the body of an initial message: two bytes of version, then two of magic number, each high byte first.
///
/// Returns the first of these faults. A magic number in the other byte order is `WrongEndian`, and any other wrong one
/// `WrongMagic`. A version other than 1 is `WrongVersion`.
#[tactic(auto, unfolding(crate::specs::InitialMessage::im_of))]
pub fn check_im(body: [u8; 4]) -> Result<(), Code>
    ensures { result ≡ im_of body }
{
    let version = u16::from_be_bytes([body[0], body[1]]);
    let magic = u16::from_be_bytes([body[2], body[3]]);
    if magic == SWAPPED_MAGIC {
        return Err(Code::WrongEndian);
    }
    if magic != MAGIC {
        return Err(Code::WrongMagic);
    }
    if version != VERSION {
        return Err(Code::WrongVersion);
    }
    Ok(())
}
