//! The buffer for one line.
//!
//! It is reused for each line of a log. `ArrayVec` overwrites the elements that it drops, which costs as much as a copy
//! of the line. Here only the count is reset.

ghost use Rattle.std.specs.Prelude.{◌≡◌, ◌+◌, ◌-◌, ◌≤◌, ◌==◌, [], ◌++◌, length, take};
ghost use Rattle.daide_log_lines.specs.LogLine.{longest_line};

use std::marker::Model;

/// The most bytes of a line.
pub const LONGEST_LINE: usize = 2100;

/// The shortest length that is too long for a line.
pub const TOO_LONG: usize = LONGEST_LINE + 1;

/// Up to `TOO_LONG` bytes of a line. The abstract value is their list.
#[derive(Drop)]
pub struct Text {
    bytes: [u8; TOO_LONG],
    count: usize,
}

impl Model for Text {
    ghost use Rattle.std.specs.Prelude.{ℕ, ◌+◌, ◌≤◌, take};
    ghost use Rattle.arrayvec.specs.ArrayVec.{ArrayVec as Items};
    ghost use Rattle.daide_log_lines.specs.LogLine.{longest_line};

    ghost Value = { Items ℕ };

    ghost view = { λ t. record { items = take t.count t.bytes } };

    ghost invariant = { λ t. t.count ≤ longest_line + 1 };
}

/// Copies bytes to the index `count`.
#[inline(always)]
fn put_behind(bytes: &mut [u8; TOO_LONG], count: usize, more: &[u8])
    requires { count + length more.now ≤ longest_line + 1 }
    ensures { take (count + length more.now) bytes.new ≡ take count bytes.old ++ more.now }
{
    let all = &mut bytes[..];
    all[count..count + more.len()].copy_from_slice(more);
}

impl Text {
    /// Creates an empty text.
    pub fn new() -> Text
        ensures { result.items ≡ [] }
    {
        Text {
            bytes: [0; TOO_LONG],
            count: 0,
        }
    }

    /// Returns the number of bytes.
    pub fn len(&self) -> usize
        ensures value { result ≡ length self.now.items }
        ensures fits { result ≤ longest_line + 1 }
    {
        self.count
    }

    /// Returns whether the text is empty.
    pub fn is_empty(&self) -> bool
        ensures { result ≡ (length self.now.items == 0) }
    {
        self.count == 0
    }

    /// Returns the bytes.
    pub fn as_slice(&self) -> &[u8]
        ensures value { result.now ≡ self.now.items }
        ensures fits { length result.now ≤ longest_line + 1 }
    {
        &self.bytes[..self.count]
    }

    /// Removes all bytes.
    pub fn clear(&mut self)
        ensures { self.new.items ≡ [] }
    {
        self.count = 0;
    }

    /// Appends bytes.
    pub fn put(&mut self, more: &[u8])
        requires { length self.old.items + length more.now ≤ longest_line + 1 }
        ensures { self.new.items ≡ self.old.items ++ more.now }
    {
        put_behind(&mut self.bytes, self.count, more);
        self.count += more.len();
    }

    /// Removes the last byte, if there is one.
    pub fn pop(&mut self)
        ensures rest { self.new.items ≡ take (length self.old.items - 1) self.old.items }
    {
        if self.count > 0 {
            self.count -= 1;
        }
    }
}
