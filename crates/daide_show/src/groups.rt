//! The first group of an input that can't be whole bytes, such as the offsets of a hex dump.

ghost use Rattle.std.specs.Prelude.{◌≡◌, Some};
ghost use Rattle.std.specs.List.{list_all};
ghost use Rattle.hex.specs.Hex.{is_hex_digit};
ghost use Rattle.daide_show.specs.Groups.{is_odd_group, odd_group_of, odd_group_text};

use crate::frame_view::places::{is_blank, is_hex_digit};
use std::fmt;

/// A group of digits between blanks, with an odd number of digits.
#[derive(Clone, Copy)]
pub struct OddGroup {
    /// The number of the group, counted from 1.
    pub place: usize,
    /// The number of its digits.
    pub digits: usize,
}

impl fmt::Display for OddGroup {
    ghost output = { λ odd. Some (odd_group_text odd) };

    fn fmt<W: fmt::Write>(&self, f: &mut fmt::Formatter<W>) -> fmt::Result {
        let OddGroup { place, digits } = *self;
        write!(f, "group {place} has an odd number of digits, {digits}")?;
        f.write_str(": if the input is a dump with offsets, leave the offsets out")
    }
}

/// Returns whether a group consists of digits.
fn has_digits_alone(group: &[u8]) -> bool
    ensures { result ≡ list_all is_hex_digit group.now }
{
    group.iter().all(|byte| is_hex_digit(*byte))
}

/// Returns whether a group consists of an odd number of digits.
fn is_odd_group(group: &[u8]) -> bool
    ensures { result ≡ is_odd_group group.now }
{
    has_digits_alone(group) && group.len() % 2 == 1
}

/// Returns the first group with an odd number of digits, such as the offset of a hex dump. The fault of the input does
/// not depend on its groups.
pub fn odd_group(input: &[u8]) -> Option<OddGroup>
    ensures { result ≡ odd_group_of input.now }
{
    let mut place = 0;
    for group in input.split(|byte| is_blank(*byte)) {
        if group.is_empty() {
            continue;
        }
        place += 1;
        if is_odd_group(group) {
            return Some(OddGroup {
                place,
                digits: group.len(),
            });
        }
    }
    None
}
