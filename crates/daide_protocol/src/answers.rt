//! The fixed tokens around a frame's answer, and the frames that end a session.
//!
//! An answer is the received body with fixed tokens around it. They are defined here once, for the code that sends an
//! answer and for the code that prints one.

ghost use Rattle.std.specs.Prelude.{◌≡◌, ◌≤◌};
ghost use Rattle.daide_protocol.specs.Answers.{answer_head as head_of_answer};
ghost use Rattle.daide_protocol.specs.Bounds.{longest_body};
ghost use Rattle.daide_protocol.specs.Machine.{em_bytes};

use daide_frame::{Code, Head, Kind};
use daide_reader::Verdict;
use daide_token::{BRA, ERR, HUH, KET, PRN};

/// `PRN (`, before a message with unpaired brackets.
pub const PRN_OPEN: [u8; 4] = [
    (PRN / 256) as u8,
    (PRN % 256) as u8,
    (BRA / 256) as u8,
    (BRA % 256) as u8,
];

/// `HUH (`, before a message that is not in the grammar.
pub const HUH_OPEN: [u8; 4] = [
    (HUH / 256) as u8,
    (HUH % 256) as u8,
    (BRA / 256) as u8,
    (BRA % 256) as u8,
];

/// `ERR`, before the first token that no message continues.
pub const ERR_WORD: [u8; 2] = [(ERR / 256) as u8, (ERR % 256) as u8];

/// `)`, after the message.
pub const CLOSE_WORD: [u8; 2] = [(KET / 256) as u8, (KET % 256) as u8];

/// How many bytes `PRN ( .. )` adds to a message.
pub const PRN_BYTES: usize = PRN_OPEN.len() + CLOSE_WORD.len();

/// How many bytes `HUH ( .. ERR .. )` adds to a message.
pub const HUH_BYTES: usize = HUH_OPEN.len() + ERR_WORD.len() + CLOSE_WORD.len();

/// A final message.
pub const FM: [u8; 4] = [3, 0, 0, 0];

/// Returns the bytes of the error message with a code.
pub fn em_frame(code: Code) -> &'static [u8]
    ensures { result.now ≡ em_bytes code }
{
    match code {
        Code::ImTimeout => &[4, 0, 0, 2, 0, 0x01],
        Code::ImNotFirst => &[4, 0, 0, 2, 0, 0x02],
        Code::WrongEndian => &[4, 0, 0, 2, 0, 0x03],
        Code::WrongMagic => &[4, 0, 0, 2, 0, 0x04],
        Code::WrongVersion => &[4, 0, 0, 2, 0, 0x05],
        Code::SecondIm => &[4, 0, 0, 2, 0, 0x06],
        Code::ImFromServer => &[4, 0, 0, 2, 0, 0x07],
        Code::UnknownMessage => &[4, 0, 0, 2, 0, 0x08],
        Code::WrongLength => &[4, 0, 0, 2, 0, 0x09],
        Code::DmBeforeRm => &[4, 0, 0, 2, 0, 0x0A],
        Code::RmNotFirst => &[4, 0, 0, 2, 0, 0x0B],
        Code::SecondRm => &[4, 0, 0, 2, 0, 0x0C],
        Code::RmFromClient => &[4, 0, 0, 2, 0, 0x0D],
        Code::InvalidToken => &[4, 0, 0, 2, 0, 0x0E],
    }
}

/// Returns the header of the answer to a frame with this header; the words around a message count in its length.
pub fn answer_head(head: Head, verdict: Verdict) -> Head
    requires { head.len ≤ longest_body }
    ensures { result ≡ head_of_answer head verdict }
{
    match verdict {
        Verdict::Relay => head,
        Verdict::Prn => Head {
            kind: Kind::Dm,
            len: head.len + PRN_BYTES as u16,
        },
        Verdict::Huh(_) => Head {
            kind: Kind::Dm,
            len: head.len + HUH_BYTES as u16,
        },
    }
}
