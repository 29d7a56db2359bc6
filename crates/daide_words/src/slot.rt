//! What a word forms with its operand.

ghost use Rattle.std.specs.Prelude.{◌≡◌, ◌≤◌, length};
ghost use Rattle.daide_words.specs.WordNames.{slot_name, slot_named};

/// What a word forms with its operand.
#[derive(Clone, Copy, Debug, PartialEq, Eq)]
pub enum Slot {
    /// A press.
    Press,
    /// An arrangement.
    Arrangement,
}

impl Slot {
    /// Returns the slot with a lower-case name: `press` or `arrangement`.
    pub fn by_name(name: &[u8]) -> Option<Slot>
        ensures { result ≡ slot_named name.now }
    {
        if name == Slot::Press.name().as_bytes() {
            return Some(Slot::Press);
        }
        if name == Slot::Arrangement.name().as_bytes() {
            return Some(Slot::Arrangement);
        }
        None
    }

    /// Returns the slot's name, of at most eleven letters.
    pub fn name(self) -> &'static str
        ensures name { result.now ≡ slot_name self }
        ensures few { length result.now ≤ 11 }
    {
        match self {
            Slot::Press => "press",
            Slot::Arrangement => "arrangement",
        }
    }
}
