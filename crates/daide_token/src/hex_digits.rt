//! Bytes in hexadecimal digits.

ghost use Rattle.std.specs.Prelude.{◌≡◌};
ghost use Rattle.daide_token.specs.HexDigits.{digits_of_byte as digits_in};

/// The digits, in upper case.
const DIGITS: &[u8; 16] = b"0123456789ABCDEF";

/// Returns the two digits of a byte, in upper case and the high one first.
pub fn digits_of_byte(byte: u8) -> [u8; 2]
    ensures { result ≡ digits_in byte }
{
    let value = usize::from(byte);
    [DIGITS[value / 16], DIGITS[value % 16]]
}
