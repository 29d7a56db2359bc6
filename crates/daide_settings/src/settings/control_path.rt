//! The path of a control socket, stored as its text.

ghost use Rattle.std.specs.Prelude.{◌≡◌, ℕ, List, option_map, string_bytes, IfOk, OnErr, IsSomeAnd};

use super::memory::SettingsMemory;
use std::alloc::AllocError;
use std::marker::Model;

/// The path of the Unix-domain socket on which a run takes an operator's requests. The abstract value is its bytes.
#[derive(Drop)]
pub struct ControlPath {
    text: String,
}

impl Model for ControlPath {
    ghost Value = { List ℕ };

    ghost view = { λ path. string_bytes path.text };
}

impl ControlPath {
    /// Creates a path by copying the text.
    fn new<A: SettingsMemory>(alloc: A, text: &str) -> Result<ControlPath, AllocError>
        ensures copied { IfOk result (λ path. path ≡ text.now) }
        ensures refused { OnErr result (A.SettingsMemory.Refuses text.now) }
    {
        Ok(ControlPath {
            text: alloc.copy(text)?,
        })
    }

    /// Creates the path of a text, if there is one, by copying the text.
    pub(super) fn of<A: SettingsMemory>(
        alloc: A,
        text: Option<&str>,
    ) -> Result<Option<ControlPath>, AllocError>
        ensures copied { IfOk result (λ path. path ≡ option_map (λ text. text.now) text.entry) }
        ensures refused { OnErr result (IsSomeAnd (option_map (λ text. text.now) text.entry) A.SettingsMemory.Refuses) }
    {
        match text {
            Some(text) => Ok(Some(ControlPath::new(alloc, text)?)),
            None => Ok(None),
        }
    }

    /// Returns the text of the path.
    pub fn as_str(&self) -> &str
        ensures { result.now ≡ self.now }
    {
        self.text.as_str()
    }
}
