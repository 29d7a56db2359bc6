//! The key `words`: an array of tables, one for each word that an operator adds.
//!
//! The shape of all entries is checked before the range of any, so that a wrong type is reported first, in whatever
//! entry.

ghost use Rattle.std.specs.Prelude.{◌≡◌, Some, Ok, Err, MatchResult, codes, option_and_then, option_copied, option_map};
ghost use Rattle.std.specs.Result.{result_err};
ghost use Rattle.std.specs.List.{list_all};
ghost use Rattle.std.specs.BTreeMap.{keys};
ghost use Rattle.std.specs.Prelude.{string_bytes};
ghost use Rattle.toml.specs.Data.{get_member};
ghost use Rattle.toml.specs.View.{items_view, table_view, view};
ghost use Rattle.daide_words.specs.Words.{words_of};
ghost use Rattle.daide_words.specs.WordNames.{operand_named, slot_named};
ghost use Rattle.daide_settings.specs.WordSettings.{accepted_words, are_entries, code_of_integer, entries_judged, has_fields};
ghost use Rattle.daide_settings.specs.WordSettings.{has_only, is_entry, is_field, level_of_integer, number_in, text_in};
ghost use Rattle.daide_settings.specs.WordSettings.{three_of, word_of};
ghost use Rattle.daide_settings.specs.WordSettings.{word_of_members, words_judged, words_of_entries};

use super::SettingsError;
use super::key::Key;
use daide_grammar::level::Level;
use daide_token::token::Token;
use daide_words::{Operand, Slot, Word, Words};
use toml::{Table, Value};

/// Returns true if an entry may have this key.
fn is_field(text: &str) -> bool
    ensures { result ≡ is_field text.now }
{
    matches!(text, "name" | "code" | "slot" | "level" | "operand")
}

/// Returns true if all keys of a table are those of an entry.
fn keys_are_fields(table: &Table) -> bool
    ensures { result ≡ list_all (λ key. is_field (string_bytes key)) (keys table.now) }
{
    table.keys().all(|key| is_field(key.as_str()))
}

/// Returns true if an entry has only keys of a word.
fn has_only_fields(table: &Table) -> bool
    ensures { result ≡ has_only is_field (table_view table.now) }
{
    keys_are_fields(table)
}

/// Returns the value of a key in an entry.
fn field<'a>(table: &'a Table, name: &str) -> Option<&'a Value>
    ensures { option_map (λ value. view value.now) result ≡ get_member name.now (table_view table.now) }
{
    table.get(name)
}

/// Returns the text of a key in an entry.
pub(super) fn text_in<'a>(table: &'a Table, name: &str) -> Option<&'a str>
    ensures { option_copied result ≡ text_in name.now (table_view table.now) }
{
    match field(table, name) {
        Some(value) => value.as_str(),
        None => None,
    }
}

/// Returns the number of a key in an entry.
pub(super) fn number_in(table: &Table, name: &str) -> Option<i64>
    ensures { result ≡ number_in name.now (table_view table.now) }
{
    match field(table, name) {
        Some(value) => value.as_integer(),
        None => None,
    }
}

/// Returns true if a table has exactly the fields of a word, each of its type.
fn has_fields(table: &Table) -> bool
    ensures { result ≡ has_fields (table_view table.now) }
{
    has_only_fields(table)
        && text_in(table, "name").is_some()
        && number_in(table, "code").is_some()
        && text_in(table, "slot").is_some()
        && number_in(table, "level").is_some()
        && text_in(table, "operand").is_some()
}

/// Returns true if a value is a table with exactly the fields of a word, each of its type.
pub(super) fn is_entry(value: &Value) -> bool
    ensures { result ≡ is_entry (view value.now) }
{
    match value.as_table() {
        Some(table) => has_fields(table),
        None => false,
    }
}

/// Returns the name of an entry, which has three bytes.
pub(super) fn name_in(table: &Table) -> Option<[u8; 3]>
    ensures { result ≡ option_and_then three_of (text_in (codes "name") (table_view table.now)) }
{
    match text_in(table, "name")?.as_bytes() {
        [first, second, third] => Some([*first, *second, *third]),
        _ => None,
    }
}

/// Returns the token with the number of an entry.
pub(super) fn code_in(table: &Table) -> Option<Token>
    ensures { result ≡ option_and_then code_of_integer (number_in (codes "code") (table_view table.now)) }
{
    match u16::try_from(number_in(table, "code")?) {
        Ok(code) => Some(Token::from_code(code)),
        Err(_) => None,
    }
}

/// Returns the slot of an entry.
pub(super) fn slot_in(table: &Table) -> Option<Slot>
    ensures { result ≡ option_and_then slot_named (text_in (codes "slot") (table_view table.now)) }
{
    Slot::by_name(text_in(table, "slot")?.as_bytes())
}

/// Returns the level with the number of an entry.
pub(super) fn level_in(table: &Table) -> Option<Level>
    ensures { result ≡ option_and_then level_of_integer (number_in (codes "level") (table_view table.now)) }
{
    match u16::try_from(number_in(table, "level")?) {
        Ok(number) => Level::of(number),
        Err(_) => None,
    }
}

/// Returns the operand of an entry.
pub(super) fn operand_in(table: &Table) -> Option<Operand>
    ensures { result ≡ option_and_then operand_named (text_in (codes "operand") (table_view table.now)) }
{
    Operand::by_name(text_in(table, "operand")?.as_bytes())
}

/// Returns the word of an entry's members, if each is in its range.
fn word_of_members(table: &Table) -> Option<Word>
    ensures { result ≡ word_of_members (table_view table.now) }
{
    Some(Word {
        name: name_in(table)?,
        code: code_in(table)?,
        slot: slot_in(table)?,
        level: level_in(table)?,
        operand: operand_in(table)?,
    })
}

/// Returns the word of an entry.
pub(super) fn word_of(entry: &Value) -> Option<Word>
    ensures { result ≡ word_of (view entry.now) }
{
    match entry.as_table() {
        Some(table) => word_of_members(table),
        None => None,
    }
}

/// Returns true if each value is an entry.
fn each_is_entry(entries: &[Value]) -> bool
    ensures { result ≡ list_all (λ entry. is_entry (view entry)) entries.now }
{
    entries.iter().all(|entry| is_entry(entry))
}

/// Returns true if all items of an array are entries.
fn are_entries(entries: &[Value]) -> bool
    ensures { result ≡ are_entries (items_view entries.now) }
{
    each_is_entry(entries)
}

/// Returns the words of all entries. Fails with `Range` if one has no word, or is refused after the ones before it.
fn accepted_words(entries: &[Value]) -> Result<Words, SettingsError>
    ensures { let judged = accepted_words (words_of_entries (items_view entries.now)) in
        MatchResult result (λ words. judged ≡ Ok (words_of words)) (λ fault. judged ≡ Err fault) }
{
    let mut words = Words::new();
    for entry in entries {
        let Some(word) = word_of(entry) else {
            return Err(SettingsError::Range(Key::Words));
        };
        if words.add(word).is_err() {
            return Err(SettingsError::Range(Key::Words));
        }
    }
    Ok(words)
}

/// Returns the words of the entries. Fails with `WrongType` if the shape of one is wrong, and then with `Range`.
fn words_of_entries(entries: &[Value]) -> Result<Words, SettingsError>
    ensures { let judged = entries_judged (Some (items_view entries.now)) in
        MatchResult result (λ words. judged ≡ Ok (words_of words)) (λ fault. judged ≡ Err fault) }
{
    if !are_entries(entries) {
        return Err(SettingsError::WrongType(Key::Words));
    }
    accepted_words(entries)
}

/// Returns the words of the key; none if the document does not have it.
pub(super) fn words_at(value: Option<&Value>) -> Result<Words, SettingsError>
    ensures { let judged = words_judged (option_map (λ value. view value.now) value.entry) in
        MatchResult result (λ words. judged ≡ Ok (words_of words)) (λ fault. judged ≡ Err fault) }
{
    let Some(value) = value else {
        return Ok(Words::new());
    };
    match value.as_array() {
        Some(entries) => words_of_entries(entries.as_slice()),
        None => Err(SettingsError::WrongType(Key::Words)),
    }
}

/// Returns the fault of the key.
pub(super) fn words_fault(value: Option<&Value>) -> Option<SettingsError>
    ensures { result ≡ result_err (words_judged (option_map (λ value. view value.now) value.entry)) }
{
    match words_at(value) {
        Ok(_) => None,
        Err(fault) => Some(fault),
    }
}
