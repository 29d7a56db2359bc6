//! Decoding of hexadecimal digits.
//!
//! Sixteen bytes are decoded together, without a branch on any digit, in two loops whose length the compiler knows. So
//! it decodes the thirty-two digits in a few vector instructions. Fewer bytes are decoded by eight, or by four.

ghost use Rattle.std.specs.Prelude.{◌≡◌, ◌==◌, ◌+◌, ◌*◌, ◌<◌, ◌≤◌, length, min, max, true};
ghost use Rattle.std.specs.List.{list_all};
ghost use Rattle.hex.specs.Hex.{decode_of, is_hex_digit};
ghost use Rattle.daide_log_lines.specs.Digits.{IsRead, bytes_of_hex, value_of};

/// The number of bytes that are decoded together.
const TOGETHER: usize = 16;

/// Returns the lesser of two bytes. It is a function of its own because the compiler turns such a function into one
/// `min` instruction.
fn lesser(one: u8, other: u8) -> u8
    ensures { result ≡ min one other }
{
    if one < other { one } else { other }
}

/// Returns the greater of two bytes.
fn greater(one: u8, other: u8) -> u8
    ensures { result ≡ max one other }
{
    if one < other { other } else { one }
}

/// Decodes one byte. Returns 0 and its value if it is a hexadecimal digit of either case, otherwise a number above 0
/// and an unspecified value.
fn read_digit(byte: u8) -> (u8, u8)
    ensures digit { (result.0 == 0) ≡ is_hex_digit byte }
    ensures value { is_hex_digit byte ≡ true → result.1 ≡ value_of byte }
{
    // Maps `0` to `9` to 0 to 9, and every other byte to 16 or more.
    let decimal = greater(byte.wrapping_add(0xC6), 6).wrapping_add(10);
    // Maps `A` to `F` and `a` to `f` to 10 to 15, and every other byte to 16 or more.
    let letter = lesser((byte & 0xDF).wrapping_add(0xBF), 0xF5) + 10;
    let value = lesser(letter, decimal);
    (value & 0xF0, value)
}

/// Returns the byte of two digits' values, the high digit first. Both values are put side by side in a number of 16
/// bits; its product with 0x1001 has the byte above its low 8 bits.
fn byte_of(high: u8, low: u8) -> u8
    ensures { (high < 16) → (low < 16) → result ≡ high * 16 + low }
{
    let pair = high as u16 + low as u16 * 256;
    (pair.wrapping_mul(0x1001) / 256) as u8
}

/// Decodes two digits for each byte, for at most sixteen bytes, and returns whether all are digits.
#[inline(always)]
fn read_together(digits: &[u8], bytes: &mut [u8]) -> bool
    requires twice { length digits.now ≡ 2 * length bytes.old }
    requires few { length bytes.old ≤ 16 }
    ensures same { length bytes.new ≡ length bytes.old }
    ensures all { result ≡ list_all is_hex_digit digits.now }
    ensures bytes { list_all is_hex_digit digits.now ≡ true → bytes.new ≡ bytes_of_hex digits.now }
{
    let mut excess = 0;
    let mut values = [0; 2 * TOGETHER];
    for j in 0..digits.len() {
        let (more, value) = read_digit(digits[j]);
        excess |= more;
        values[j] = value;
    }
    for i in 0..bytes.len() {
        bytes[i] = byte_of(values[2 * i], values[2 * i + 1]);
    }
    excess == 0
}

/// Decodes two digits for each byte, `size` bytes at a time: the first ones, and then the last ones, which covers a rest.
/// Returns whether all are digits.
#[inline(always)]
fn read_ends(size: usize, digits: &[u8], bytes: &mut [u8]) -> bool
    requires twice { length digits.now ≡ 2 * length bytes.old }
    requires few { size ≤ 16 }
    requires least { size ≤ length bytes.old }
    requires most { length bytes.old ≤ 2 * size }
    ensures same { length bytes.new ≡ length bytes.old }
    ensures all { result ≡ list_all is_hex_digit digits.now }
    ensures bytes { list_all is_hex_digit digits.now ≡ true → bytes.new ≡ bytes_of_hex digits.now }
{
    let from = bytes.len() - size;
    let first = read_together(&digits[..2 * size], &mut bytes[..size]);
    let last = read_together(
        &digits[2 * from..2 * from + 2 * size],
        &mut bytes[from..from + size],
    );
    first & last
}

/// Decodes two digits for each byte, for fewer than sixteen bytes, and returns whether all are digits. Each case has
/// loops whose length the compiler knows, as long as there are four bytes.
fn read_short(digits: &[u8], bytes: &mut [u8]) -> bool
    requires twice { length digits.now ≡ 2 * length bytes.old }
    requires few { length bytes.old < 16 }
    ensures same { length bytes.new ≡ length bytes.old }
    ensures all { result ≡ list_all is_hex_digit digits.now }
    ensures bytes { list_all is_hex_digit digits.now ≡ true → bytes.new ≡ bytes_of_hex digits.now }
{
    match bytes.len() {
        0..=3 => read_together(digits, bytes),
        4..=7 => read_ends(4, digits, bytes),
        _ => read_ends(8, digits, bytes),
    }
}

/// Decodes two digits for each byte, and returns whether all are digits. If not, the bytes are unspecified.
///
/// Decodes whole blocks of sixteen bytes, and then the last sixteen bytes once more, which covers a rest shorter than a
/// block.
pub fn read_digits(digits: &[u8], bytes: &mut [u8]) -> bool
    requires { length digits.now ≡ 2 * length bytes.old }
    ensures { IsRead result (decode_of digits.now) bytes.new }
{
    let count = bytes.len();
    if count < TOGETHER {
        return read_short(digits, bytes);
    }
    let mut all = true;
    for turn in 0..count / TOGETHER {
        let from = turn * TOGETHER;
        all &= read_together(
            &digits[2 * from..2 * from + 2 * TOGETHER],
            &mut bytes[from..from + TOGETHER],
        );
    }
    let from = count - TOGETHER;
    all &= read_together(
        &digits[2 * from..2 * from + 2 * TOGETHER],
        &mut bytes[from..from + TOGETHER],
    );
    all
}
