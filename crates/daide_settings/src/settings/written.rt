//! Where a text of settings writes a key, an entry of its array, or a field of the entry, and the value as it is written.
//!
//! `toml` reports no place of a key, so this module scans a text that `toml` has read. It finds the keys of the text that
//! are written without escapes.

use super::parts::{Field, ValuePart};

/// A key's value in a text, or an entry or a field of it.
#[derive(Clone, Copy)]
pub(super) struct Spot<'a> {
    /// The text from the key, the head of the table or the entry on.
    from: &'a str,
    /// The text from the value on; `None` if a head of a table stands in its place.
    value: Option<&'a str>,
    /// What follows the head of a table.
    section: &'a str,
}

impl<'a> Spot<'a> {
    /// Returns what a text has before the spot.
    pub(super) fn front_in<'t>(&self, text: &'t str) -> Option<&'t str> {
        text.get(..text.len().checked_sub(self.from.len())?)
    }

    /// Returns the value, if it is written in one line.
    pub(super) fn value_in_line(&self) -> Option<&'a str> {
        let from = self.value?;
        let value = from.get(..from.len().checked_sub(after_value(from)?.len())?)?;
        if value.contains('\n') {
            return None;
        }
        Some(value)
    }
}

/// Returns a text without its first character.
fn after_first(text: &str) -> Option<&str> {
    let mut letters = text.chars();
    letters.next()?;
    Some(letters.as_str())
}

/// Returns what follows blanks, line ends and comments.
fn after_blanks(text: &str) -> &str {
    let mut rest = text;
    for _comment in 0..text.len() {
        rest = rest.trim_start_matches(|letter: char| matches!(letter, ' ' | '\t' | '\r' | '\n'));
        if !rest.starts_with('#') {
            break;
        }
        rest = after_line(rest);
    }
    rest
}

/// Returns what follows the first line of a text.
fn after_line(text: &str) -> &str {
    match text.split_once('\n') {
        Some((_, rest)) => rest,
        None => "",
    }
}

/// Returns the quotes with which a string begins and ends.
fn quotes_of(text: &str) -> Option<&'static str> {
    if text.starts_with("\"\"\"") {
        Some("\"\"\"")
    } else if text.starts_with("'''") {
        Some("'''")
    } else if text.starts_with('"') {
        Some("\"")
    } else if text.starts_with('\'') {
        Some("'")
    } else {
        None
    }
}

/// Returns what follows a string.
fn after_string(text: &str) -> Option<&str> {
    let quotes = quotes_of(text)?;
    let mut rest = text.strip_prefix(quotes)?;
    for _letter in 0..text.len() {
        if let Some(after) = rest.strip_prefix(quotes) {
            // The text of a string of many lines may itself end in quotes.
            return match quotes {
                "\"\"\"" => Some(after.trim_start_matches('"')),
                "'''" => Some(after.trim_start_matches('\'')),
                _ => Some(after),
            };
        }
        if quotes.starts_with('"') && rest.starts_with('\\') {
            rest = after_first(rest)?;
        }
        rest = after_first(rest)?;
    }
    None
}

/// Returns what follows an array or a table in brackets.
fn after_brackets(text: &str) -> Option<&str> {
    let mut depth = 0usize;
    let mut rest = text;
    for _item in 0..text.len() {
        rest = after_blanks(rest);
        if quotes_of(rest).is_some() {
            rest = after_string(rest)?;
            continue;
        }
        match rest.as_bytes().first() {
            Some(b'[' | b'{') => depth = depth.saturating_add(1),
            Some(b']' | b'}') => depth = depth.saturating_sub(1),
            _ => {}
        }
        rest = after_first(rest)?;
        if depth == 0 {
            return Some(rest);
        }
    }
    None
}

/// Returns what follows a value.
fn after_value(text: &str) -> Option<&str> {
    match text.as_bytes().first() {
        Some(b'"' | b'\'') => after_string(text),
        Some(b'[' | b'{') => after_brackets(text),
        _ => Some(text.trim_start_matches(|letter: char| !matches!(
            letter,
            ' ' | '\t' | '\r' | '\n' | '#' | ',' | ']' | '}'
        ))),
    }
}

/// Returns the key at the front of a text, without its quotes, and what follows it.
fn split_key(text: &str) -> Option<(&str, &str)> {
    if quotes_of(text).is_some() {
        let rest = after_string(text)?;
        let end = text.len().checked_sub(rest.len())?.checked_sub(1)?;
        return Some((text.get(1..end)?, rest));
    }
    let rest = text.trim_start_matches(|letter: char| letter.is_ascii_alphanumeric()
        || matches!(letter, '_' | '-'));
    let key = text.get(..text.len().checked_sub(rest.len())?)?;
    Some((key, rest))
}

/// A statement of a document: the head of a table, or a key with its value.
#[derive(Clone, Copy)]
struct Statement<'a> {
    /// The key, or its first part.
    key: &'a str,
    /// The text from the value on; `None` after a head, and after a key of several parts.
    value: Option<&'a str>,
    /// Whether it is the head of a table.
    is_head: bool,
    /// What follows it.
    rest: &'a str,
}

/// Returns the statement at the front of a text.
fn statement_of(text: &str) -> Option<Statement<'_>> {
    if text.starts_with('[') {
        let head = text.trim_start_matches(|letter: char| matches!(letter, '[' | ' ' | '\t'));
        let (key, rest) = split_key(head)?;
        return Some(Statement {
            key,
            value: None,
            is_head: true,
            rest: after_line(rest),
        });
    }
    let (key, rest) = split_key(text)?;
    let (between, rest) = rest.split_once('=')?;
    let value = rest.trim_start_matches(|letter: char| matches!(letter, ' ' | '\t'));
    Some(Statement {
        key,
        value: if between.contains('.') {
            None
        } else {
            Some(value)
        },
        is_head: false,
        rest: after_value(value)?,
    })
}

/// Returns the statement of a key with this index among those of the key, in the spot at which it is. `in_section` means
/// that the text ends at the first head of a table; else the keys after such a head are not the document's.
fn find<'a>(text: &'a str, key: &str, index: usize, in_section: bool) -> Option<Spot<'a>> {
    let mut rest = text;
    let mut left = index;
    let mut has_head = false;
    for _statement in 0..text.len() {
        let from = after_blanks(rest);
        let statement = statement_of(from)?;
        if statement.is_head && in_section {
            return None;
        }
        has_head = has_head || statement.is_head;
        if statement.key == key && statement.is_head == has_head {
            if left == 0 {
                return Some(Spot {
                    from,
                    value: statement.value,
                    section: statement.rest,
                });
            }
            left = left.saturating_sub(1);
        }
        rest = statement.rest;
    }
    None
}

/// Returns the item of an array with this index.
fn item_of(array: &str, index: usize) -> Option<Spot<'_>> {
    let mut rest = after_blanks(array.strip_prefix('[')?);
    for _item in 0..index {
        rest = after_blanks(after_value(rest)?);
        rest = after_blanks(rest.strip_prefix(',')?);
    }
    Some(Spot {
        from: rest,
        value: Some(rest),
        section: "",
    })
}

/// Returns the field of a table in braces.
fn member_of<'a>(table: &'a str, name: &str) -> Option<Spot<'a>> {
    let mut rest = after_blanks(table.strip_prefix('{')?);
    for _member in 0..table.len() {
        let statement = statement_of(rest)?;
        if statement.key == name {
            return Some(Spot {
                from: rest,
                value: statement.value,
                section: "",
            });
        }
        rest = after_blanks(statement.rest);
        rest = after_blanks(rest.strip_prefix(',')?);
    }
    None
}

/// Returns the spot of an entry of a key's array: an item, or the table after a head.
fn entry_of<'a>(text: &'a str, key: &str, index: usize) -> Option<Spot<'a>> {
    match find(text, key, 0, false)?.value {
        Some(array) => item_of(array, index),
        None => find(text, key, index, false),
    }
}

/// Returns the spot of a field of an entry.
fn field_of<'a>(entry: &Spot<'a>, field: Field) -> Option<Spot<'a>> {
    match entry.value {
        Some(table) => member_of(table, field.text()),
        None => find(entry.section, field.text(), 0, true),
    }
}

/// Returns the spot of a key, of an entry of its array or of a field of the entry.
pub(super) fn spot_of<'a>(text: &'a str, key: &str, part: ValuePart) -> Option<Spot<'a>> {
    match part {
        ValuePart::Whole => find(text, key, 0, false),
        ValuePart::Entry(index) => entry_of(text, key, index),
        ValuePart::Member(index, field) => field_of(&entry_of(text, key, index)?, field),
    }
}
