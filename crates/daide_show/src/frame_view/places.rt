//! The bytes of an input one by one: which of them are dropped, and what the others give.

ghost use Rattle.std.specs.Prelude.{◌≡◌, position};
ghost use Rattle.daide_show.specs.Input.{are_pairs, digits_after_x, is_blank, is_separator, leading_digits, opens_escape};
ghost use Rattle.daide_show.specs.Input.{escaped, may_end_at, is_no_digit, is_quote, next_place, opens_bare, opens_prefix};
ghost use Rattle.daide_show.specs.Input.{opens_quoted, input_byte, following_place};
ghost use Rattle.hex.specs.Hex.{is_hex_digit};

/// The place of a byte in an input.
#[derive(Clone, Copy)]
pub(crate) enum Place {
    /// Outside of a literal, and not right after a digit.
    Outside,
    /// Right after a digit.
    After,
    /// The `x` of a prefix.
    Marked,
    /// The quote after the `b` that begins a literal.
    Opened,
    /// In a literal up to this quote; with a backslash, up to the end of the input.
    Quoted(u8),
    /// After a backslash in such a literal.
    Escaped(u8),
    /// The first digit after `\x`.
    High(u8),
    /// The second digit after `\x`.
    Low(u8),
}

/// What a byte of an input gives.
#[derive(Clone, Copy)]
pub(crate) enum InputByte {
    /// Nothing: it is dropped.
    Nothing,
    /// This byte, which must be a digit.
    Kept(u8),
    /// The two digits of this byte.
    Byte(u8),
}

/// Returns whether a byte is a hexadecimal digit of either case.
pub(crate) fn is_hex_digit(byte: u8) -> bool
    ensures { result ≡ is_hex_digit byte }
{
    matches!(byte, b'0'..=b'9' | b'a'..=b'f' | b'A'..=b'F')
}

/// Returns whether a byte is a blank.
pub(crate) fn is_blank(byte: u8) -> bool
    ensures { result ≡ is_blank byte }
{
    matches!(byte, b' ' | b'\t' | b'\r' | b'\n')
}

/// Returns whether a byte is a blank, a comma or a colon.
fn is_separator(byte: u8) -> bool
    ensures { result ≡ is_separator byte }
{
    is_blank(byte) || matches!(byte, b',' | b':')
}

/// Returns whether a byte is a quote.
fn is_quote(byte: u8) -> bool
    ensures { result ≡ is_quote byte }
{
    matches!(byte, b'\'' | b'"')
}

/// Returns whether a byte is no digit.
fn is_no_digit(byte: u8) -> bool
    ensures { result ≡ is_no_digit byte }
{
    !is_hex_digit(byte)
}

/// Returns the index of the first byte that is no digit.
fn first_other(bytes: &[u8]) -> Option<usize>
    ensures { result ≡ position is_no_digit bytes.now }
{
    bytes.iter().position(|byte| is_no_digit(*byte))
}

/// Returns the number of digits at the start of some bytes.
fn leading_digits(bytes: &[u8]) -> usize
    ensures { result ≡ leading_digits bytes.now }
{
    first_other(bytes).unwrap_or(bytes.len())
}

/// Returns the number of digits after an `x` at the start of some bytes.
fn digits_after_x(bytes: &[u8]) -> usize
    ensures { result ≡ digits_after_x bytes.now }
{
    match bytes {
        [b'x' | b'X', digits @ ..] => leading_digits(digits),
        _ => 0,
    }
}

/// Returns whether this number of digits is that of one byte or more.
fn are_pairs(count: usize) -> bool
    ensures { result ≡ are_pairs count }
{
    count > 0 && count % 2 == 0
}

/// Returns whether a byte is the `0` before an `x` and whole bytes.
fn opens_prefix(byte: u8, rest: &[u8]) -> bool
    ensures { result ≡ opens_prefix byte rest.now }
{
    byte == b'0' && are_pairs(digits_after_x(rest))
}

/// Returns whether a byte is the backslash before an `x` and one byte.
fn opens_escape(byte: u8, rest: &[u8]) -> bool
    ensures { result ≡ opens_escape byte rest.now }
{
    byte == b'\\' && digits_after_x(rest) == 2
}

/// Returns whether a byte is the `b` before a quote.
fn opens_quoted(byte: u8, rest: &[u8]) -> bool
    ensures { result ≡ opens_quoted byte rest.now }
{
    byte == b'b' && matches!(rest, [b'\'' | b'"', ..])
}

/// Returns whether a byte is the `b` before a backslash.
fn opens_bare(byte: u8, rest: &[u8]) -> bool
    ensures { result ≡ opens_bare byte rest.now }
{
    byte == b'b' && matches!(rest, [b'\\', ..])
}

/// Returns what a byte after a backslash means.
fn escaped(byte: u8) -> InputByte
    ensures { result ≡ escaped byte }
{
    match byte {
        b'n' => InputByte::Byte(b'\n'),
        b'r' => InputByte::Byte(b'\r'),
        b't' => InputByte::Byte(b'\t'),
        b'\\' | b'\'' | b'"' => InputByte::Byte(byte),
        _ => InputByte::Kept(b'\\'),
    }
}

/// Returns what a byte gives outside of a literal, not right after a digit.
fn outer_byte(byte: u8, rest: &[u8]) -> InputByte
    ensures { result ≡ input_byte Place.Outside byte rest.now }
{
    if is_separator(byte) || opens_escape(byte, rest) {
        return InputByte::Nothing;
    }
    if opens_prefix(byte, rest) || opens_quoted(byte, rest) || opens_bare(byte, rest) {
        return InputByte::Nothing;
    }
    InputByte::Kept(byte)
}

/// Returns what a byte gives, by its place and the bytes after it.
pub(crate) fn input_byte(place: Place, byte: u8, rest: &[u8]) -> InputByte
    ensures { result ≡ input_byte place byte rest.now }
{
    match place {
        Place::Outside => outer_byte(byte, rest),
        Place::After if is_separator(byte) || opens_escape(byte, rest) => InputByte::Nothing,
        Place::Marked | Place::Opened => InputByte::Nothing,
        Place::Quoted(quote) if byte == b'\\' || byte == quote => InputByte::Nothing,
        Place::Quoted(_) if matches!(byte, b' '..=b'~') => InputByte::Byte(byte),
        Place::Escaped(_) if byte == b'x' => InputByte::Nothing,
        Place::Escaped(_) => escaped(byte),
        Place::After | Place::Quoted(_) | Place::High(_) | Place::Low(_) => InputByte::Kept(byte),
    }
}

/// Returns the place after a byte outside of a literal.
fn following_place(byte: u8) -> Place
    ensures { result ≡ following_place byte }
{
    if is_hex_digit(byte) {
        Place::After
    } else {
        Place::Outside
    }
}

/// Returns the place after a byte outside of a literal that is not right after a digit.
fn outer_place(byte: u8, rest: &[u8]) -> Place
    ensures { result ≡ next_place Place.Outside byte rest.now }
{
    if opens_escape(byte, rest) || opens_prefix(byte, rest) {
        return Place::Marked;
    }
    if opens_quoted(byte, rest) {
        return Place::Opened;
    }
    if opens_bare(byte, rest) {
        return Place::Quoted(b'\\');
    }
    following_place(byte)
}

/// Returns the place of the byte after a byte.
pub(crate) fn next_place(place: Place, byte: u8, rest: &[u8]) -> Place
    ensures { result ≡ next_place place byte rest.now }
{
    match place {
        Place::Outside => outer_place(byte, rest),
        Place::After if opens_escape(byte, rest) => Place::Marked,
        Place::After => following_place(byte),
        Place::Marked => Place::Outside,
        Place::Opened => Place::Quoted(byte),
        Place::Quoted(quote) if byte == b'\\' => Place::Escaped(quote),
        Place::Quoted(quote) if byte == quote => Place::Outside,
        Place::Escaped(quote) if byte == b'x' => Place::High(quote),
        Place::High(quote) => Place::Low(quote),
        Place::Quoted(quote) | Place::Escaped(quote) | Place::Low(quote) => Place::Quoted(quote),
    }
}

/// Returns whether an input may end at this place.
pub(crate) fn may_end_at(place: Place) -> bool
    ensures { result ≡ may_end_at place }
{
    match place {
        Place::Outside | Place::After => true,
        Place::Quoted(quote) => quote == b'\\',
        Place::Marked | Place::Opened | Place::Escaped(_) | Place::High(_) | Place::Low(_) => false,
    }
}
