//! The parts of lines: numbers, and words followed by a space.

ghost use Rattle.std.specs.Prelude.{◌≡◌, option_map};
ghost use Rattle.daide_log_lines.specs.LogLine.{number_on, plain_number, parted_at_space};

/// Parses decimal digits as a number of 16 bits.
fn number_of(digits: &[u8]) -> Option<u16>
    ensures { result ≡ number_on 0 digits.now }
{
    let mut number: u16 = 0;
    let mut rest = digits;
    while let [digit, others @ ..] = rest {
        if *digit < b'0' || *digit > b'9' {
            return None;
        }
        let more = 10 * number as u32 + (*digit - b'0') as u32;
        if more > 65_535 {
            return None;
        }
        number = more as u16;
        rest = others;
    }
    Some(number)
}

/// Parses a number of 16 bits without a sign and without leading zeros.
#[tactic(auto, unfolding(crate::specs::LogLine::plain_number))]
pub fn plain_number(digits: &[u8]) -> Option<u16>
    ensures { result ≡ plain_number digits.now }
{
    match digits {
        [] => None,
        [_] => number_of(digits),
        [first, _, ..] if *first == b'0' => None,
        [_, _, ..] => number_of(digits),
    }
}

/// Splits a text at its first space.
pub fn parted_at_space(text: &[u8]) -> Option<(&[u8], &[u8])>
    ensures { option_map (λ parts. record { word = parts.0.now; rest = parts.1.now }) result
        ≡ parted_at_space text.now }
{
    for (i, c) in text.iter().enumerate() {
        if *c == b' ' {
            return Some((&text[..i], &text[i + 1..]));
        }
    }
    None
}
