//! The field of a frame that a fault is about.
//!
//! ```text
//! byte 0: type   bytes 2, 3: length   an IM: bytes 4, 5: version, 6, 7: magic number   a DM: from byte 4: tokens
//! ```

ghost use Rattle.std.specs.Prelude.{◌≡◌, ◌≤◌, length, is_some, Some};
ghost use Rattle.daide_frame.specs.Head.{kind_of};
ghost use Rattle.daide_protocol.specs.Bounds.{longest_body};
ghost use Rattle.daide_io.specs.FaultField.{fault_field, type_field, length_field, version_field, magic_field, token_field};
ghost use Rattle.daide_io.specs.FaultField.{byte_order_field, unknown_field, two_bytes_at, has_known_type, place_of};
ghost use Rattle.daide_io.specs.FaultField.{cause_name, cause_text, field_text, label_after};

use daide_frame::code::Code;
use std::fmt;

/// The field of a frame that a fault is about, with its value.
#[derive(Clone, Copy, Debug, PartialEq, Eq)]
pub enum FaultField {
    /// The type of the frame, which is its kind in a valid header.
    Kind(u8),
    /// The length of its body.
    Length(u16),
    /// The version of an IM.
    Version(u16),
    /// The magic number of an IM.
    MagicNumber(u16),
    /// A token of a DM, which is at this byte of the frame, counted from 0.
    Token(u16, usize),
}

/// Returns the two bytes at a place, the high byte first; `None` if they are not there.
fn two_bytes_at(bytes: &[u8], place: usize) -> Option<u16>
    requires { place ≤ longest_body }
    ensures { result ≡ two_bytes_at bytes.now place }
{
    if place + 2 <= bytes.len() {
        return Some(u16::from_be_bytes([bytes[place], bytes[place + 1]]));
    }
    None
}

/// Returns the type of a header.
fn type_field(header: &[u8]) -> Option<FaultField>
    ensures { result ≡ type_field header.now }
{
    match header {
        [kind, ..] => Some(FaultField::Kind(*kind)),
        [] => None,
    }
}

/// Returns the length of a header.
fn length_field(header: &[u8]) -> Option<FaultField>
    ensures { result ≡ length_field header.now }
{
    match two_bytes_at(header, 2) {
        Some(value) => Some(FaultField::Length(value)),
        None => None,
    }
}

/// Returns the version of an IM.
fn version_field(body: &[u8]) -> Option<FaultField>
    ensures { result ≡ version_field body.now }
{
    match two_bytes_at(body, 0) {
        Some(value) => Some(FaultField::Version(value)),
        None => None,
    }
}

/// Returns the magic number of an IM.
fn magic_field(body: &[u8]) -> Option<FaultField>
    ensures { result ≡ magic_field body.now }
{
    match two_bytes_at(body, 2) {
        Some(value) => Some(FaultField::MagicNumber(value)),
        None => None,
    }
}

/// Returns the last token of a body.
fn token_field(body: &[u8]) -> Option<FaultField>
    requires { length body.now ≤ longest_body }
    ensures { result ≡ token_field body.now }
{
    let place = body.len().saturating_sub(2);
    match two_bytes_at(body, place) {
        Some(value) => Some(FaultField::Token(value, 4 + place)),
        None => None,
    }
}

/// Returns what is in the other byte order: the length of a header without a body, or the magic number.
fn byte_order_field(header: &[u8], body: &[u8]) -> Option<FaultField>
    ensures { result ≡ byte_order_field header.now body.now }
{
    if body.is_empty() {
        length_field(header)
    } else {
        magic_field(body)
    }
}

/// Returns whether a frame may have this type.
fn is_known(kind: u8) -> bool
    ensures { result ≡ is_some (kind_of kind) }
{
    matches!(kind, 0 | 1 | 2 | 3 | 4)
}

/// Returns whether a header has the type of a frame.
fn has_known_type(header: &[u8]) -> bool
    ensures { result ≡ has_known_type header.now }
{
    match header {
        [kind, ..] => is_known(*kind),
        [] => false,
    }
}

/// Returns what is unknown: the length of a header that was refused though its type is known, or the type.
fn unknown_field(is_good: bool, header: &[u8]) -> Option<FaultField>
    ensures { result ≡ unknown_field is_good header.now }
{
    if !is_good && has_known_type(header) {
        length_field(header)
    } else {
        type_field(header)
    }
}

impl FaultField {
    /// Returns the field that a fault with this code is about, from the header and the body as far as they were received,
    /// and whether the header was accepted by itself.
    ///
    /// It is the type for a frame of a wrong kind; the length, the version, the magic number or the last token, if that is
    /// wrong; `None` for an IM that did not arrive in time (`fault_field`).
    pub fn of(code: Code, is_good: bool, header: &[u8], body: &[u8]) -> Option<FaultField>
        requires { length body.now ≤ longest_body }
        ensures { result ≡ fault_field code is_good header.now body.now }
    {
        match code {
            Code::ImTimeout => None,
            Code::WrongEndian => byte_order_field(header, body),
            Code::WrongMagic => magic_field(body),
            Code::WrongVersion => version_field(body),
            Code::UnknownMessage => unknown_field(is_good, header),
            Code::WrongLength => length_field(header),
            Code::InvalidToken => token_field(body),
            Code::ImNotFirst
            | Code::SecondIm
            | Code::ImFromServer
            | Code::DmBeforeRm
            | Code::RmNotFirst
            | Code::SecondRm
            | Code::RmFromClient => type_field(header),
        }
    }

    /// Returns the place of the field: its first byte's number in the frame, from 0.
    pub fn place(self) -> usize
        ensures { result ≡ place_of self }
    {
        match self {
            FaultField::Kind(_) => 0,
            FaultField::Length(_) => 2,
            FaultField::Version(_) => 4,
            FaultField::MagicNumber(_) => 6,
            FaultField::Token(_, place) => place,
        }
    }
}

impl fmt::Display for FaultField {
    ghost output = { λ field. Some (field_text field) };

    /// Writes the value in hexadecimal digits, and the place, as `6000 at byte 6`.
    fn fmt<W: fmt::Write>(&self, f: &mut fmt::Formatter<W>) -> fmt::Result {
        let place = self.place();
        match *self {
            FaultField::Kind(value) => write!(f, "{value:02X} at byte {place}"),
            FaultField::Length(value)
            | FaultField::Version(value)
            | FaultField::MagicNumber(value)
            | FaultField::Token(value, _) => write!(f, "{value:04X} at byte {place}"),
        }
    }
}

/// A fault with the field that it is about.
#[derive(Clone, Copy)]
pub struct FaultCause {
    /// The code of the fault.
    pub code: Code,
    /// The field, if there is one.
    pub field: Option<FaultField>,
}

/// Returns what comes between the name of a fault and the value of the field that it is about: the field, unless the
/// name ends with it.
fn label_after(code: Code, field: FaultField) -> &'static str
    ensures { result.now ≡ label_after code field }
{
    match (code, field) {
        (Code::InvalidToken | Code::WrongLength | Code::WrongMagic | Code::WrongVersion, _) => " ",
        (_, FaultField::Kind(_)) => ", type ",
        (_, FaultField::Length(_)) => ", length ",
        (_, FaultField::Version(_)) => ", version ",
        (_, FaultField::MagicNumber(_)) => ", magic number ",
        (_, FaultField::Token(_, _)) => ", token ",
    }
}

impl FaultCause {
    /// Returns the name of the fault: that of its code, except for a body above the cap.
    pub fn name(self) -> &'static str
        ensures { result.now ≡ cause_name self.code self.field }
    {
        match (self.code, self.field) {
            (Code::UnknownMessage, Some(FaultField::Length(_))) => "body above max_body",
            _ => self.code.name(),
        }
    }
}

impl fmt::Display for FaultCause {
    ghost output = { λ cause. Some (cause_text cause.code cause.field) };

    /// Writes the name of the fault, and the field, as `invalid token 6000 at byte 6`.
    fn fmt<W: fmt::Write>(&self, f: &mut fmt::Formatter<W>) -> fmt::Result {
        let Some(field) = self.field else {
            return f.write_str(self.code.name());
        };
        let name = self.name();
        let label = label_after(self.code, field);
        write!(f, "{name}{label}{field}")
    }
}
