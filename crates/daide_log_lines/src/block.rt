//! The read buffer of a log.

ghost use Rattle.std.specs.Prelude.{◌≡◌, ◌≤◌, [], length, drop, IfErr};
ghost use Rattle.daide_causes.specs.Causes.{HasFailed};
ghost use Rattle.daide_log_lines.specs.Lines.{ReadsBlock, block_size};

use crate::fault::LogFault;
use crate::output::Output;
use crate::reader::LogReader;
use std::io::Write;
use std::marker::Model;

/// The most bytes of one read.
const BLOCK: usize = 8192;

/// The bytes of a log that were read but not yet consumed. The abstract value is their list.
#[derive(Drop)]
pub struct Block {
    bytes: [u8; BLOCK],
    from: usize,
    to: usize,
}

impl Model for Block {
    ghost use Rattle.std.specs.Prelude.{ℕ, List, ◌≤◌, ◌-◌, take, drop, length};
    ghost use Rattle.daide_log_lines.specs.Lines.{block_size};

    ghost Value = { List ℕ };

    ghost view = { λ b. take (b.to - b.from) (drop b.from b.bytes) };

    ghost invariant = { λ b. (b.from ≤ b.to) × (b.to ≤ block_size) };
}

impl Block {
    /// Creates an empty block.
    pub fn new() -> Block
        ensures { result ≡ [] }
    {
        Block {
            bytes: [0; BLOCK],
            from: 0,
            to: 0,
        }
    }

    /// Returns the bytes.
    pub fn as_slice(&self) -> &[u8]
        ensures value { result.now ≡ self.now }
        ensures fits { length result.now ≤ block_size }
    {
        &self.bytes[self.from..self.to]
    }

    /// Removes the first `count` bytes.
    pub fn skip(&mut self, count: usize)
        requires { count ≤ length self.old }
        ensures { self.new ≡ drop count self.old }
    {
        self.from += count;
    }

    /// Refills the empty block by one read, and returns whether any byte was read. A read may block, so the caller must
    /// have written the page of the report first. Fails with `Read`.
    pub fn refill<R: LogReader, W: Write>(
        &mut self,
        reader: &mut R,
        output: &Output<'_, W>,
    ) -> Result<bool, LogFault>
        requires looked_at { self.old ≡ [] }
        requires handed_over { output.now.page.items ≡ [] }
        ensures read { ReadsBlock (W.contents output.now.writer.now) (R.reader_view reader.old) (R.reader_view reader.new) self.new result }
        ensures failed { IfErr result (λ fault. (fault ≡ LogFault.Read) × HasFailed R.Fails) }
    {
        self.from = 0;
        self.to = 0;
        match reader.read_log(&mut self.bytes, &*output.writer) {
            Ok(count) => {
                self.to = count;
                Ok(count > 0)
            }
            Err(_) => Err(LogFault::Read),
        }
    }
}
