//! The output buffer of a report, which is written in blocks.

ghost use Rattle.std.specs.Prelude.{◌≡◌, ◌+◌, ◌*◌, ◌<◌, ◌≤◌, [], ◌∷◌, ◌++◌, length, OnOk, OnErr};
ghost use Rattle.std.specs.Io.KnownBytes.{Keeps, append_known};
ghost use Rattle.daide_token.specs.TextSteps.{place_past, some_text};
ghost use Rattle.daide_token.specs.Token.{tokens_of};
ghost use Rattle.daide_log_lines.specs.Output.{page_size};

use daide_causes::Sink;
use daide_token::{Printed, PrinterState, Token, put_tokens};
use std::io;
use std::marker::Model;

/// The capacity of a page, in bytes.
pub const PAGE: usize = 8192;

/// The lines of a report that are not yet written. The abstract value is the list of their bytes.
#[derive(Drop)]
pub struct Page {
    bytes: [u8; PAGE],
    len: usize,
}

impl Model for Page {
    ghost use Rattle.std.specs.Prelude.{◌≤◌, take};
    ghost use Rattle.daide_log_lines.specs.Page.{Held};

    ghost Value = { Held };

    ghost view = { λ p. record { items = take p.len p.bytes } };

    ghost invariant = { λ p. p.len ≤ 8192 };
}

impl Page {
    /// Creates an empty page.
    pub fn new() -> Page
        ensures { result.items ≡ [] }
    {
        Page {
            bytes: [0; PAGE],
            len: 0,
        }
    }

    /// Returns the number of bytes.
    #[inline(always)]
    pub fn len(&self) -> usize
        ensures value { result ≡ length self.now.items }
        ensures fits { result ≤ page_size }
    {
        self.len
    }

    /// Returns the free space, in bytes.
    #[inline(always)]
    pub fn remaining_capacity(&self) -> usize
        ensures { result + length self.now.items ≡ page_size }
    {
        PAGE - self.len
    }

    /// Returns the bytes.
    pub fn as_slice(&self) -> &[u8]
        ensures value { result.now ≡ self.now.items }
        ensures fits { length result.now ≤ page_size }
    {
        &self.bytes[..self.len]
    }

    /// Appends a byte.
    #[inline(always)]
    pub fn push(&mut self, byte: u8)
        requires { length self.old.items < page_size }
        ensures items { self.new.items ≡ self.old.items ++ byte ∷ [] }
        ensures len { length self.new.items ≡ length self.old.items + 1 }
    {
        // The compiler can't tell that the byte isn't stored over the length, and would read that again.
        let len = self.len;
        self.bytes[len] = byte;
        self.len = len + 1;
    }

    /// Appends the text of some tokens of a message. `place` is the printer's state after the tokens before them.
    /// Returns the state after these.
    pub fn put_tokens(
        &mut self,
        added: &[(Token, [u8; 3])],
        tokens: &[u8],
        place: PrinterState,
    ) -> PrinterState
        requires { length self.old.items + 4 * length tokens.now ≤ page_size }
        ensures items { self.new.items ≡ self.old.items ++ some_text added.now place (tokens_of tokens.now) }
        ensures place { result ≡ place_past place (tokens_of tokens.now) }
    {
        let from = Printed {
            place,
            len: self.len,
        };
        let printed = put_tokens(added, tokens, &mut self.bytes, from);
        self.len = printed.len;
        printed.place
    }

    /// Removes all bytes.
    pub fn clear(&mut self)
        ensures { self.new.items ≡ [] }
    {
        self.len = 0;
    }
}

/// Writes a page to the writer, and empties it.
#[cold]
#[inline(never)]
pub fn hand_over<W: Sink>(page: &mut Page, writer: &mut W) -> io::Result<()>
    ensures emptied { OnOk result (page.new.items ≡ []) }
    ensures written { OnOk result (Keeps (append_known (W.contents writer.old) page.old.items)
        (append_known (W.contents writer.new) page.new.items)) }
    ensures failed { OnErr result (W.Fails writer.old writer.new) }
{
    writer.write_whole(page.as_slice())?;
    page.clear();
    Ok(())
}
