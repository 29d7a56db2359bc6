//! An address, stored as its text.

ghost use Rattle.std.specs.Prelude.{◌≡◌, ◌≤◌, ℕ, List, string_bytes, IfOk, OnErr};
ghost use Rattle.std.specs.List.{list_all};
ghost use Rattle.daide_settings.specs.Addresses.{are_port_digits, ends_in_port, is_address, is_no_slash, is_port_number, is_port};
ghost use Rattle.daide_settings.specs.Addresses.{most_port};

use super::memory::SettingsMemory;
use std::alloc::AllocError;
use std::marker::Model;

/// The highest port.
const MOST_PORT: u32 = 65_535;

/// A host and a port as the settings have them, for example `127.0.0.1:16713`. The abstract value is its bytes.
#[derive(Drop)]
pub struct Address {
    text: String,
}

impl Model for Address {
    ghost Value = { List ℕ };

    ghost view = { λ address. string_bytes address.text };
}

impl Address {
    /// Creates an address by copying the text.
    pub(super) fn new<A: SettingsMemory>(alloc: A, text: &str) -> Result<Address, AllocError>
        ensures copied { IfOk result (λ address. address ≡ text.now) }
        ensures refused { OnErr result (A.SettingsMemory.Refuses text.now) }
    {
        Ok(Address {
            text: alloc.copy(text)?,
        })
    }

    /// Returns the text of the address.
    pub fn as_str(&self) -> &str
        ensures { result.now ≡ self.now }
    {
        self.text.as_str()
    }
}

/// Returns true if these bytes are the further digits of a port, after those of `number`.
fn are_port_digits(number: u32, digits: &[u8]) -> bool
    requires { number ≤ most_port }
    ensures { result ≡ are_port_digits number digits.now }
{
    let mut number = number;
    let mut rest = digits;
    while let [byte, others @ ..] = rest {
        if *byte < b'0' || *byte > b'9' {
            return false;
        }
        number = 10 * number + u32::from(*byte - b'0');
        if number > MOST_PORT {
            return false;
        }
        rest = others;
    }
    true
}

/// Returns true if a text is the number of a port.
fn is_port_number(digits: &[u8]) -> bool
    ensures { result ≡ is_port_number digits.now }
{
    match digits {
        [] => false,
        [_, ..] => are_port_digits(0, digits),
    }
}

/// Returns true if a text is a port.
fn is_port(text: &[u8]) -> bool
    ensures { result ≡ is_port text.now }
{
    match text {
        [] => false,
        [b'+', digits @ ..] => is_port_number(digits),
        [_, ..] => is_port_number(text),
    }
}

/// Returns true if a text ends in a colon and a port.
fn ends_in_port(text: &[u8]) -> bool
    ensures { result ≡ ends_in_port text.now }
{
    let mut rest = text;
    while let [byte, others @ ..] = rest {
        if *byte == b':' && is_port(others) {
            return true;
        }
        rest = others;
    }
    false
}

/// Returns true if a text has no slash.
fn has_no_slash(text: &[u8]) -> bool
    ensures { result ≡ list_all is_no_slash text.now }
{
    text.iter().all(|byte| *byte != b'/')
}

/// Returns true if a text is an address: a host of at least one byte, a colon and a port, without a slash.
pub(super) fn is_address(text: &[u8]) -> bool
    ensures { result ≡ is_address text.now }
{
    match text {
        [] => false,
        [_, others @ ..] => ends_in_port(others) && has_no_slash(text),
    }
}
