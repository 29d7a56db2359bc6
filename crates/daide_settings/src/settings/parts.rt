//! The part of a key's value that has its fault: the whole value, an entry of its array, or a field of the entry.

ghost use Rattle.std.specs.Prelude.{◌≡◌, [], Some, Ok, Err, MatchResult, option_map};
ghost use Rattle.toml.specs.View.{items_view, view};
ghost use Rattle.daide_words.specs.Words.{words_of};
ghost use Rattle.daide_settings.specs.Parts.{added, failing_part, field_key, is_wrong_type, mistyped, mistyped_part, part_in};
ghost use Rattle.daide_settings.specs.Parts.{faulty_part, passes, refused_by, unfit_in, unfit_part, unread, value_in, part_value, words_part};

use super::SettingsError;
use super::allow::range_of;
use super::key::Key;
use super::words::{
    code_in, is_entry, level_in, name_in, number_in, operand_in, slot_in, text_in, word_of,
};
use daide_words::Words;
use daide_words::word::WordError;
use std::fmt;
use toml::Value;

/// A field of a word, in the order of the checks.
#[derive(Clone, Copy, Debug, PartialEq, Eq)]
pub(super) enum Field {
    /// The word's name.
    Name,
    /// Its token.
    Code,
    /// What it forms with its operand.
    Slot,
    /// The level from which it is a word.
    Level,
    /// What follows it in brackets.
    Operand,
}

impl Field {
    /// Returns the field as an entry writes it.
    pub(super) fn text(self) -> &'static str
        ensures { result.now ≡ field_key self }
    {
        match self {
            Field::Name => "name",
            Field::Code => "code",
            Field::Slot => "slot",
            Field::Level => "level",
            Field::Operand => "operand",
        }
    }
}

impl fmt::Display for Field {
    ghost output = { λ field. Some (field_key field) };

    fn fmt<W: fmt::Write>(&self, f: &mut fmt::Formatter<W>) -> fmt::Result {
        f.write_str(self.text())
    }
}

/// A part of a key's value.
#[derive(Clone, Copy, Debug, PartialEq, Eq)]
pub(super) enum ValuePart {
    /// The whole value.
    Whole,
    /// The entry of its array at this index.
    Entry(usize),
    /// A field of the entry at this index.
    Member(usize, Field),
}

/// Returns a field of an entry, or the entry itself.
fn part_in(place: usize, field: Option<Field>) -> ValuePart
    ensures { result ≡ part_in place field }
{
    match field {
        Some(field) => ValuePart::Member(place, field),
        None => ValuePart::Entry(place),
    }
}

/// Returns the first field of an entry that is missing or of another type; `None` if a further key is at fault, or if
/// the entry is no table.
fn mistyped(entry: &Value) -> Option<Field>
    ensures { result ≡ mistyped (view entry.now) }
{
    let table = entry.as_table()?;
    if text_in(table, "name").is_none() {
        Some(Field::Name)
    } else if number_in(table, "code").is_none() {
        Some(Field::Code)
    } else if text_in(table, "slot").is_none() {
        Some(Field::Slot)
    } else if number_in(table, "level").is_none() {
        Some(Field::Level)
    } else if text_in(table, "operand").is_none() {
        Some(Field::Operand)
    } else {
        None
    }
}

/// Returns the first entry of another shape, with the first field that makes it so.
fn mistyped_part(entries: &[Value]) -> ValuePart
    ensures { result ≡ mistyped_part 0 (items_view entries.now) }
{
    let mut place = 0;
    let mut rest = entries;
    while let [entry, others @ ..] = rest {
        if !is_entry(entry) {
            return part_in(place, mistyped(entry));
        }
        place += 1;
        rest = others;
    }
    ValuePart::Whole
}

/// Returns the first field of an entry whose value is no name of three bytes, code, slot, level or operand.
fn unread(entry: &Value) -> Option<Field>
    ensures { result ≡ unread (view entry.now) }
{
    let table = entry.as_table()?;
    if name_in(table).is_none() {
        Some(Field::Name)
    } else if code_in(table).is_none() {
        Some(Field::Code)
    } else if slot_in(table).is_none() {
        Some(Field::Slot)
    } else if level_in(table).is_none() {
        Some(Field::Level)
    } else if operand_in(table).is_none() {
        Some(Field::Operand)
    } else {
        None
    }
}

/// Returns the field with which a word is refused; `None` if there are too many words.
fn refused_by(fault: WordError) -> Option<Field>
    ensures { result ≡ refused_by fault }
{
    match fault {
        WordError::Full => None,
        WordError::Name => Some(Field::Name),
        WordError::Code => Some(Field::Code),
        WordError::Level => Some(Field::Level),
        WordError::Operand => Some(Field::Operand),
    }
}

/// Returns words with that of an entry. Fails with the field that is out of range; with `None` if there are too many
/// words.
fn added(words: &Words, entry: &Value) -> Result<Words, Option<Field>>
    ensures { let judged = added (words_of words.now) (view entry.now) in
        MatchResult result (λ words. judged ≡ Ok (words_of words)) (λ field. judged ≡ Err field) }
{
    if let Some(field) = unread(entry) {
        return Err(Some(field));
    }
    let Some(word) = word_of(entry) else {
        return Err(None);
    };
    let mut words = *words;
    match words.add(word) {
        Ok(()) => Ok(words),
        Err(fault) => Err(refused_by(fault)),
    }
}

/// Returns the field of an entry that is out of range; the whole without a field.
fn unfit_in(place: usize, field: Option<Field>) -> ValuePart
    ensures { result ≡ unfit_in place field }
{
    match field {
        Some(field) => ValuePart::Member(place, field),
        None => ValuePart::Whole,
    }
}

/// Returns the first entry that has no word, or whose word is refused after those before it, with its field.
fn unfit_part(entries: &[Value]) -> ValuePart
    ensures { result ≡ unfit_part 0 [] (items_view entries.now) }
{
    let mut words = Words::new();
    let mut place = 0;
    let mut rest = entries;
    while let [entry, others @ ..] = rest {
        words = match added(&words, entry) {
            Ok(words) => words,
            Err(field) => return unfit_in(place, field),
        };
        place += 1;
        rest = others;
    }
    ValuePart::Whole
}

/// Returns true if a value is a text, or if it is a range of addresses.
fn passes(by_type: bool, value: &Value) -> bool
    ensures { result ≡ passes by_type (view value.now) }
{
    if by_type {
        value.as_str().is_some()
    } else {
        range_of(value).is_some()
    }
}

/// Returns the first value of `allow` that does not pass; the whole if all pass, so that their number is at fault.
fn failing_part(by_type: bool, values: &[Value]) -> ValuePart
    ensures { result ≡ failing_part by_type 0 (items_view values.now) }
{
    let mut place = 0;
    let mut rest = values;
    while let [value, others @ ..] = rest {
        if !passes(by_type, value) {
            return ValuePart::Entry(place);
        }
        place += 1;
        rest = others;
    }
    ValuePart::Whole
}

/// Returns the part of words that has their fault.
fn words_part(by_type: bool, entries: &[Value]) -> ValuePart
    ensures { result ≡ words_part by_type (items_view entries.now) }
{
    if by_type {
        mistyped_part(entries)
    } else {
        unfit_part(entries)
    }
}

/// Returns true if a fault is a wrong type.
fn is_wrong_type(fault: SettingsError) -> bool
    ensures { result ≡ is_wrong_type fault }
{
    matches!(fault, SettingsError::WrongType(_))
}

/// Returns the part of a key's value that has its fault.
pub(super) fn faulty_part(key: Key, fault: SettingsError, value: Option<&Value>) -> ValuePart
    ensures { result ≡ faulty_part key fault (option_map (λ value. view value.now) value.entry) }
{
    let Some(value) = value else {
        return ValuePart::Whole;
    };
    let Some(items) = value.as_array() else {
        return ValuePart::Whole;
    };
    match key {
        Key::Words => words_part(is_wrong_type(fault), items.as_slice()),
        Key::Allow => failing_part(is_wrong_type(fault), items.as_slice()),
        Key::Listen
        | Key::Server
        | Key::TopLevel
        | Key::MaxBody
        | Key::MaxDepth
        | Key::ImSeconds
        | Key::MaxSessions
        | Key::Sessions
        | Key::Turns
        | Key::IdleSeconds
        | Key::StallSeconds
        | Key::Endless
        | Key::MaxPerAddress
        | Key::MaxRefused
        | Key::Control => ValuePart::Whole,
    }
}

/// Returns the value of a part, if there is one.
fn value_in(part: ValuePart, value: &Value) -> Option<&Value>
    ensures { option_map (λ value. view value.now) result ≡ value_in part (view value.now) }
{
    match part {
        ValuePart::Whole => Some(value),
        ValuePart::Entry(place) => value.get(place),
        ValuePart::Member(place, field) => value.get(place)?.get(field.text()),
    }
}

/// Returns the value of a part of a key's value, if there is one.
pub(super) fn part_value(part: ValuePart, value: Option<&Value>) -> Option<&Value>
    ensures { option_map (λ value. view value.now) result
        ≡ part_value part (option_map (λ value. view value.now) value.entry) }
{
    value_in(part, value?)
}
