//! Which addresses may come: the keys `allow` and `max_per_address`.
//!
//! Std parses addresses. From then on an address is a number, so a range is a test of the first bits of two numbers.

ghost use Rattle.std.specs.Prelude.{◌≡◌, ◌≤◌, ◌+◌, ◌*◌, ℕ, IfSome, option_and_then};
ghost use Rattle.std.specs.List.{list_any};
ghost use Rattle.daide_settings.specs.Ranges.{begin_alike, canonical as canonical_host, contains as contains_host, count_at};
ghost use Rattle.daide_settings.specs.Ranges.{digit_from, host_named, host_of, is_mapped as is_mapped_address, may_come};
ghost use Rattle.daide_settings.specs.Ranges.{number_named, prefixed, range_named, range_of_one, range_with, same_host};
ghost use Rattle.daide_settings.specs.Ranges.{then_digit, v4_named, v6_named, v6_of_bits, width_of};

use std::net::{IpAddr, Ipv4Addr, Ipv6Addr};

/// The address of a host, as a number. An IPv4-mapped IPv6 address is the IPv4 address in it.
#[derive(Clone, Copy, Debug, PartialEq, Eq)]
pub enum Host {
    /// The 32 bits of an IPv4 address.
    V4(u32),
    /// The 128 bits of an IPv6 address.
    V6(u128),
}

/// A range of addresses: those whose first `prefix` bits are those of `host`.
#[derive(Clone, Copy, Debug, PartialEq, Eq)]
pub struct AddressRange {
    /// An address of the range.
    pub host: Host,
    /// The number of bits that all addresses of the range have in common.
    pub prefix: u8,
}

/// The most ranges of a document.
pub const MAX_RANGES: usize = 16;

// The array of ranges is initialised with this value.
impl Default for AddressRange {
    fn default() -> AddressRange {
        AddressRange {
            host: Host::V4(0),
            prefix: 32,
        }
    }
}

/// Returns true if an IPv6 address is IPv4-mapped.
fn is_mapped(bits: u128) -> bool
    ensures { result ≡ is_mapped_address bits }
{
    bits >> 32 == 0xFFFF
}

/// Returns the host of an IPv6 address.
fn canonical(bits: u128) -> Host
    ensures { result ≡ canonical_host bits }
{
    if is_mapped(bits) {
        Host::V4((bits % 0x1_0000_0000) as u32)
    } else {
        Host::V6(bits)
    }
}

impl Host {
    /// Returns the host with an address.
    pub fn of(address: IpAddr) -> Host
        ensures { result ≡ host_of address }
    {
        match address {
            IpAddr::V4(address) => Host::V4(address.to_bits()),
            IpAddr::V6(address) => canonical(address.to_bits()),
        }
    }

    /// Returns the number of bits of the address.
    fn width(self) -> u8
        ensures { result ≡ width_of self }
    {
        match self {
            Host::V4(_) => 32,
            Host::V6(_) => 128,
        }
    }

    /// Returns true if both are the same address.
    fn is_same(self, other: Host) -> bool
        ensures { result ≡ same_host self other }
    {
        match (self, other) {
            (Host::V4(own), Host::V4(bits)) => own == bits,
            (Host::V6(own), Host::V6(bits)) => own == bits,
            _ => false,
        }
    }
}

/// Returns true if two IPv4 addresses have the same first bits.
fn begin_alike_v4(prefix: u8, own: u32, bits: u32) -> bool
    ensures { result ≡ begin_alike 32 prefix own bits }
{
    if prefix == 0 {
        return true;
    }
    let rest = 32u32.saturating_sub(u32::from(prefix));
    own >> rest == bits >> rest
}

/// Returns true if two IPv6 addresses have the same first bits.
fn begin_alike_v6(prefix: u8, own: u128, bits: u128) -> bool
    ensures { result ≡ begin_alike 128 prefix own bits }
{
    if prefix == 0 {
        return true;
    }
    let rest = 128u32.saturating_sub(u32::from(prefix));
    own >> rest == bits >> rest
}

impl AddressRange {
    /// Returns true if the range has a host: one of its own family whose first `prefix` bits are the range's. So a range
    /// of IPv4 addresses has IPv4-mapped ones, and no other IPv6 address.
    pub fn contains(&self, host: Host) -> bool
        ensures { result ≡ contains_host self.now host }
    {
        match (self.host, host) {
            (Host::V4(own), Host::V4(bits)) => begin_alike_v4(self.prefix, own, bits),
            (Host::V6(own), Host::V6(bits)) => begin_alike_v6(self.prefix, own, bits),
            _ => false,
        }
    }
}

/// Returns the number of connections from a host, among those of these hosts.
fn count_at(host: Host, present: &[Host]) -> usize
    ensures { result ≡ count_at host present.now }
{
    let mut count = 0;
    let mut rest = present;
    while let [first, others @ ..] = rest {
        if host.is_same(*first) {
            count += 1;
        }
        rest = others;
    }
    count
}

/// Returns true if one of the ranges has a host.
fn is_allowed(allow: &[AddressRange], host: Host) -> bool
    ensures { result ≡ list_any (λ range. contains_host range host) allow.now }
{
    allow.iter().any(|range| range.contains(host))
}

/// Returns true if a further connection from a host may come beside those of the hosts `present`: one of the ranges has
/// it, and fewer than `most` of them are from it. With `most` at 0 there is no limit.
pub fn may_come(allow: &[AddressRange], most: u16, present: &[Host], host: Host) -> bool
    ensures { result ≡ may_come allow.now most present.now host }
{
    is_allowed(allow, host) && (most == 0 || count_at(host, present) < most as usize)
}

/// Returns the host of an IPv6 address that is not IPv4-mapped.
fn v6_of_bits(bits: u128) -> Option<Host>
    ensures { result ≡ v6_of_bits bits }
{
    if is_mapped(bits) {
        None
    } else {
        Some(Host::V6(bits))
    }
}

/// Returns the bits of a text that is an IPv4 address.
fn v4_named(text: &[u8]) -> Option<u32>
    ensures { result ≡ v4_named text.now }
{
    match Ipv4Addr::parse_ascii(text) {
        Ok(address) => Some(address.to_bits()),
        Err(_) => None,
    }
}

/// Returns the bits of a text that is an IPv6 address.
fn v6_named(text: &[u8]) -> Option<u128>
    ensures { result ≡ v6_named text.now }
{
    match Ipv6Addr::parse_ascii(text) {
        Ok(address) => Some(address.to_bits()),
        Err(_) => None,
    }
}

/// Returns the host of a text; none for an IPv4-mapped address, since a range in that form would contain no host.
fn host_named(text: &str) -> Option<Host>
    ensures { result ≡ host_named text.now }
{
    match v4_named(text.as_bytes()) {
        Some(bits) => Some(Host::V4(bits)),
        None => v6_of_bits(v6_named(text.as_bytes())?),
    }
}

/// Returns the value of a decimal digit from `least` on.
fn digit_from(least: u8, byte: u8) -> Option<u8>
    requires { least ≤ 1 }
    ensures value { result ≡ digit_from least byte }
    ensures bound { IfSome result (λ digit. digit ≤ 9) }
{
    if 48 + least <= byte && byte <= 57 {
        Some(byte - 48)
    } else {
        None
    }
}

/// Returns a number of at most two digits with one digit more.
fn then_digit(before: Option<u16>, byte: u8) -> Option<u16>
    requires { IfSome before (λ number. number ≤ 99) }
    ensures value { result ≡ then_digit before byte }
    ensures bound { (most : ℕ) → IfSome before (λ number. number ≤ most) → IfSome result (λ number. number ≤ 10 * most + 9) }
{
    let number = before?;
    let digit = digit_from(0, byte)?;
    Some(10 * number + u16::from(digit))
}

/// Returns the number of one to three decimal digits without a leading zero.
fn number_named(text: &[u8]) -> Option<u16>
    ensures { result ≡ number_named text.now }
{
    match text {
        [a] => Some(u16::from(digit_from(0, *a)?)),
        [a, b] => {
            let first = Some(u16::from(digit_from(1, *a)?));
            then_digit(first, *b)
        }
        [a, b, c] => {
            let first = Some(u16::from(digit_from(1, *a)?));
            let second = then_digit(first, *b);
            then_digit(second, *c)
        }
        _ => None,
    }
}

/// Returns the range of a host and the length of a prefix, which must not be longer than the address.
fn range_with(host: Host, prefix: u16) -> Option<AddressRange>
    ensures { result ≡ range_with host prefix }
{
    if prefix <= u16::from(host.width()) {
        Some(AddressRange {
            host,
            prefix: prefix as u8,
        })
    } else {
        None
    }
}

/// Returns the range of one host.
fn range_of_one(host: Host) -> AddressRange
    ensures { result ≡ range_of_one host }
{
    AddressRange {
        host,
        prefix: host.width(),
    }
}

/// Returns the range of an address and the digits of a prefix.
fn prefixed(address: &str, digits: &str) -> Option<AddressRange>
    ensures { result ≡ option_and_then (prefixed (number_named digits.now)) (host_named address.now) }
{
    let host = host_named(address)?;
    range_with(host, number_named(digits.as_bytes())?)
}

/// Returns the range of a text: an address, or an address, a slash and the length of a prefix.
pub(super) fn range_named(text: &str) -> Option<AddressRange>
    ensures { result ≡ range_named text.now }
{
    match text.split_once('/') {
        Some((address, digits)) => prefixed(address, digits),
        None => Some(range_of_one(host_named(text)?)),
    }
}
