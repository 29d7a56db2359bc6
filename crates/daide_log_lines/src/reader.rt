//! The source of a log.

ghost use Rattle.std.specs.Io.{ReadsAtMost};
ghost use Rattle.std.specs.Io.KnownBytes.{ReadConsumes};
ghost use Rattle.daide_log_lines.specs.Reader.{Reader, AddsReads, read_bytes};
ghost use Rattle.std.specs.Prelude.{[], ◌∷◌, OnErr};

use daide_causes::Source;
use std::io;
use std::io::Write;

/// A reader of a log. Each read also gets the writer of the report.
///
/// An implementation may record its reads, each with what the writer had at that time. Contracts of functions that read
/// a log are about this record. A reader of bytes records no reads, so it has nothing to prove about them.
pub trait LogReader {
    /// The bytes that are left, and the trace of its reads.
    ghost reader_view: { Self → Reader };

    /// A read changed the reader from its old value to its new one, and returned an error.
    ghost Fails: { Self → Self → Type 0 };

    /// Reads into the front of the buffer, as `Source` does.
    fn read_log<W: Write>(&mut self, buffer: &mut [u8], writer: &W) -> io::Result<usize>
        ensures bound { ReadsAtMost result buffer.new }
        ensures failed { OnErr result (Fails self.old self.new) }
        ensures bytes { ReadConsumes (reader_view self.old).remaining (reader_view self.new).remaining result buffer.new }
        ensures reads { AddsReads (reader_view self.old).reads
            (record { came = read_bytes result buffer.new; written = W.contents writer.now } ∷ [])
            (reader_view self.new).reads };
}

impl<R: Source> LogReader for R {
    ghost use Rattle.daide_log_lines.specs.Reader.{silent};

    ghost reader_view = { λ r. silent (R.remaining r) };

    ghost Fails = { ⟦<R as Source>⟧.Fails };

    fn read_log<W: Write>(&mut self, buffer: &mut [u8], _writer: &W) -> io::Result<usize> {
        self.read_some(buffer)
    }
}
