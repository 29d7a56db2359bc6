//! The error codes of the protocol.
//!
//! A code says what the peer did wrong, and an error message (EM) carries it to the peer. The variants are in the order
//! of their numbers.

ghost use Rattle.std.specs.Prelude.{◌≡◌};
ghost use Rattle.daide_frame.specs.Code.{code_digits, code_name, code_number};

use daide_token::digits_of_byte;

/// What was wrong with a frame, or that a frame is missing.
#[derive(Clone, Copy, Debug, PartialEq, Eq)]
pub enum Code {
    /// The initial message did not arrive in time.
    ImTimeout = 0x01,
    /// The client's first frame is not an initial message.
    ImNotFirst = 0x02,
    /// An initial message is in the other byte order.
    WrongEndian = 0x03,
    /// An initial message has another magic number.
    WrongMagic = 0x04,
    /// An initial message has another version of the protocol.
    WrongVersion = 0x05,
    /// The client sent more than one initial message.
    SecondIm = 0x06,
    /// The server sent an initial message.
    ImFromServer = 0x07,
    /// A frame has an unknown type, or is longer than the cap.
    UnknownMessage = 0x08,
    /// The length of a frame is wrong for its type.
    WrongLength = 0x09,
    /// A diplomacy message arrived before the representation message.
    DmBeforeRm = 0x0A,
    /// The server's first frame is not a representation message.
    RmNotFirst = 0x0B,
    /// The server sent more than one representation message.
    SecondRm = 0x0C,
    /// The client sent a representation message.
    RmFromClient = 0x0D,
    /// A diplomacy message has a token of an unknown category.
    InvalidToken = 0x0E,
}

impl Code {
    /// Returns the number of the code in an error message, from 0x01 to 0x0E.
    pub fn number(self) -> u8
        ensures { result ≡ code_number self }
    {
        self as u8
    }

    /// Returns the number as text: two hexadecimal digits, with upper-case letters.
    pub fn digits(self) -> [u8; 2]
        ensures { result ≡ code_digits self }
    {
        digits_of_byte(self.number())
    }

    /// Returns the meaning of the code, in a few words.
    pub fn name(self) -> &'static str
        ensures { result.now ≡ code_name self }
    {
        match self {
            Code::ImTimeout => "no IM in time",
            Code::ImNotFirst => "first frame is no IM",
            Code::WrongEndian => "wrong byte order",
            Code::WrongMagic => "wrong magic number",
            Code::WrongVersion => "wrong version",
            Code::SecondIm => "second IM",
            Code::ImFromServer => "IM from server",
            Code::UnknownMessage => "unknown message",
            Code::WrongLength => "wrong length",
            Code::DmBeforeRm => "DM before RM",
            Code::RmNotFirst => "first frame is no RM",
            Code::SecondRm => "second RM",
            Code::RmFromClient => "RM from client",
            Code::InvalidToken => "invalid token",
        }
    }
}
