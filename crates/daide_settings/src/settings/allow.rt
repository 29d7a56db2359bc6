//! The key `allow`: an array of texts, each a range of addresses.
//!
//! The types of all values are checked before their number, and their number before any text.

ghost use Rattle.std.specs.Prelude.{◌≡◌, ◌≤◌, true, Some, Ok, Err, MatchResult, is_some, length, option_map};
ghost use Rattle.std.specs.Result.{result_err};
ghost use Rattle.std.specs.List.{list_all};
ghost use Rattle.toml.specs.Data.{as_str};
ghost use Rattle.toml.specs.View.{items_view, view};
ghost use Rattle.daide_settings.specs.Ranges.{allow_judged, are_texts, everyone, is_range_count, item_count, items_judged};
ghost use Rattle.daide_settings.specs.Ranges.{most_ranges, named_or_range, range_of, ranges_of};

use super::SettingsError;
use super::key::Key;
use super::ranges::{AddressRange, Host, MAX_RANGES, range_named};
use arrayvec::ArrayVec;
use toml::Value;

/// Returns the ranges that every address is in.
fn everyone() -> ArrayVec<AddressRange, MAX_RANGES>
    ensures { result.items ≡ everyone }
{
    let mut ranges = ArrayVec::new();
    ranges.push(AddressRange {
        host: Host::V4(0),
        prefix: 0,
    });
    ranges.push(AddressRange {
        host: Host::V6(0),
        prefix: 0,
    });
    ranges
}

/// Returns true if each value is a text.
fn each_is_text(values: &[Value]) -> bool
    ensures { result ≡ list_all (λ value. is_some (as_str (view value))) values.now }
{
    values.iter().all(|value| value.as_str().is_some())
}

/// Returns true if all items of an array are texts.
fn are_texts(values: &[Value]) -> bool
    ensures { result ≡ are_texts (items_view values.now) }
{
    each_is_text(values)
}

/// Returns true if a document may have this number of ranges.
fn is_range_count(count: usize) -> bool
    ensures value { result ≡ is_range_count count }
    ensures few { result ≡ true → count ≤ most_ranges }
{
    1 <= count && count <= MAX_RANGES
}

/// Returns true if an array has at least one item, and not too many.
fn has_range_count(values: &[Value]) -> bool
    ensures value { result ≡ is_range_count (item_count (items_view values.now)) }
    ensures few { result ≡ true → length values.now ≤ most_ranges }
{
    is_range_count(values.len())
}

/// Returns the range of a value.
pub(super) fn range_of(value: &Value) -> Option<AddressRange>
    ensures { result ≡ range_of (view value.now) }
{
    range_named(value.as_str()?)
}

/// Returns the ranges of all values. Fails with `Range` if one is not the text of a range.
fn ranges_of(values: &[Value]) -> Result<ArrayVec<AddressRange, MAX_RANGES>, SettingsError>
    requires { length values.now ≤ most_ranges }
    ensures { let judged = named_or_range (ranges_of (items_view values.now)) in
        MatchResult result (λ ranges. judged ≡ Ok ranges.items) (λ fault. judged ≡ Err fault) }
{
    let mut ranges = ArrayVec::new();
    for value in values {
        let Some(range) = range_of(value) else {
            return Err(SettingsError::Range(Key::Allow));
        };
        ranges.push(range);
    }
    Ok(ranges)
}

/// Returns the ranges of the items. Fails with `WrongType` if one is no text, and then with `Range`.
fn ranges_of_items(values: &[Value]) -> Result<ArrayVec<AddressRange, MAX_RANGES>, SettingsError>
    ensures { let judged = items_judged (Some (items_view values.now)) in
        MatchResult result (λ ranges. judged ≡ Ok ranges.items) (λ fault. judged ≡ Err fault) }
{
    if !are_texts(values) {
        return Err(SettingsError::WrongType(Key::Allow));
    }
    if !has_range_count(values) {
        return Err(SettingsError::Range(Key::Allow));
    }
    ranges_of(values)
}

/// Returns the ranges of the key; everyone's if the document does not have it.
pub(super) fn ranges_at(
    value: Option<&Value>,
) -> Result<ArrayVec<AddressRange, MAX_RANGES>, SettingsError>
    ensures { let judged = allow_judged (option_map (λ value. view value.now) value.entry) in
        MatchResult result (λ ranges. judged ≡ Ok ranges.items) (λ fault. judged ≡ Err fault) }
{
    let Some(value) = value else {
        return Ok(everyone());
    };
    match value.as_array() {
        Some(values) => ranges_of_items(values.as_slice()),
        None => Err(SettingsError::WrongType(Key::Allow)),
    }
}

/// Returns the fault of the key.
pub(super) fn ranges_fault(value: Option<&Value>) -> Option<SettingsError>
    ensures { result ≡ result_err (allow_judged (option_map (λ value. view value.now) value.entry)) }
{
    match ranges_at(value) {
        Ok(_) => None,
        Err(fault) => Some(fault),
    }
}
