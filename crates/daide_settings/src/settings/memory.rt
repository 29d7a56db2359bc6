//! Memory for settings, which may be refused, in a form that a contract can name.

ghost use Rattle.std.specs.Prelude.{◌≡◌, ℕ, List, Some, None, false, IfOk, IfErr, OnErr, string_bytes};
ghost use Rattle.toml.specs.Errors.{IsMemory};
ghost use Rattle.toml.specs.Parse.{parse_document, parse_value};
ghost use Rattle.toml.specs.Text.{IsValueText};
ghost use Rattle.toml.specs.View.{table_view, view};
ghost use Rattle.daide_causes.specs.Causes.{WasRefused};

use daide_causes::Growth;
use std::alloc::{AllocError, Global};
use std::fmt::{Display, Formatter};
use strsim::levenshtein;
use toml::de::Error;
use toml::{Table, Value};

/// Memory for settings, which may be refused. `Refuses` says for which text: for a document, a value, or a text that is
/// copied. Code that is generic in it does not know `Refuses`. It can show `Refuses` only of a text for which it
/// requested memory and was refused. So a contract that ends in `Refuses` allows no other cause for an error.
///
/// Not said: that an allocation was refused if `toml` reports that; its contracts say only that it does not for blanks and
/// comments alone. `tests/program` refuses each growth of such runs in turn, and `settings_of_any_length` reads texts of
/// each power of two of bytes.
pub trait SettingsMemory: Growth + Copy {
    /// Memory was refused for the document or the value of this text, or for a copy of the text.
    ghost Refuses: { List ℕ → Type 0 };

    /// Reads a document.
    fn document(self, text: &str) -> Result<Table, Error>
        ensures table { IfOk result (λ table. parse_document text.now ≡ Some (table_view table)) }
        ensures not_toml { IfErr result (λ fault. ¬ IsMemory fault → parse_document text.now ≡ None) }
        ensures refused { IfErr result (λ fault. IsMemory fault → Refuses text.now) };

    /// Reads a value.
    fn value(self, text: &str) -> Result<Value, Error>
        ensures value { IfOk result (λ value. parse_value text.now ≡ Some (view value)) }
        ensures refused { IfErr result (λ fault. IsMemory fault → Refuses text.now) };

    /// Copies a text.
    fn copy(self, text: &str) -> Result<String, AllocError>
        ensures copied { IfOk result (λ copy. string_bytes copy ≡ text.now) }
        ensures refused { OnErr result (Refuses text.now) };

    /// Returns a value as TOML.
    fn value_text(self, value: &Value) -> Result<String, AllocError>
        ensures text { IfOk result (λ text. IsValueText false (view value.now) (string_bytes text)) }
        ensures refused { OnErr result (WasRefused Self.Memory.Refuses) };

    /// Returns the fewest characters that are inserted, deleted or changed to make one text the other.
    fn distance(self, one: &str, other: &str) -> Result<usize, AllocError>
        ensures refused { OnErr result (WasRefused Self.Memory.Refuses) };
}

impl SettingsMemory for Global {
    ghost Refuses = { λ _. Unit {0} };

    fn document(self, text: &str) -> Result<Table, Error> {
        toml::table_from_str(self, text)
    }

    fn value(self, text: &str) -> Result<Value, Error> {
        Value::from_str(self, text)
    }

    fn copy(self, text: &str) -> Result<String, AllocError> {
        String::from_str(self, text)
    }

    fn value_text(self, value: &Value) -> Result<String, AllocError> {
        let mut f = Formatter::new(String::with_capacity(self, 32)?);
        match value.fmt(&mut f) {
            Ok(()) => Ok(f.into_inner()),
            Err(_) => Err(AllocError),
        }
    }

    fn distance(self, one: &str, other: &str) -> Result<usize, AllocError> {
        levenshtein(self, one, other)
    }
}
