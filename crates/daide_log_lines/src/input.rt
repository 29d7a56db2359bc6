//! The buffered reader of a log.

ghost use Rattle.std.specs.Prelude.{◌≡◌};
ghost use Rattle.daide_log_lines.specs.Input.{LiesIn, line_at};

use crate::block::Block;
use crate::lines::{LineEnd, without_cr};
use crate::reader::LogReader;
use crate::text::Text;

/// A reader with its read buffer, and the last line that was copied.
#[derive(Drop)]
pub struct Input<'a, R> {
    /// The bytes that were read but not yet consumed.
    pub block: Block,
    /// The last line that was not whole in the block, and was copied.
    pub text: Text,
    /// The reader that refills the block.
    pub reader: &'a mut R,
}

impl<'a, R: LogReader> Input<'a, R> {
    /// Returns the line that was found, without its line end.
    pub fn line(&self, found: LineEnd) -> &[u8]
        requires { LiesIn found self.now.block }
        ensures { result.now ≡ line_at found self.now.block self.now.text.items }
    {
        match found {
            LineEnd::Held(end) => without_cr(&self.block.as_slice()[..end]),
            LineEnd::Line | LineEnd::Last | LineEnd::End => self.text.as_slice(),
        }
    }
}
