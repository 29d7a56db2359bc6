//! A full-duplex byte stream whose two directions are independent.

ghost use Rattle.std.specs.Prelude.{◌≡◌, ℕ, List, [], ◌∷◌, length, Option};
ghost use Rattle.std.specs.Io.{ReadsAtMost, WritesAtMost};
ghost use Rattle.std.specs.Io.KnownBytes.{ReadConsumes, WriteAppends};
ghost use Rattle.daide_io.specs.Ports.{AppendsTo};
ghost use Rattle.daide_io.specs.Streams.{StreamCall, Read, Written, WritingEnded, outcome_by};

use std::io;

/// A full-duplex byte stream. A read does not change the bytes that were written, and a write does not change the bytes
/// that are still to be read.
///
/// An implementation may record the bytes of each direction, and its calls. The contracts of its callers are about
/// these records. A connection of the operating system records nothing, so nothing is proved of its bytes.
pub trait Duplex {
    /// The bytes that reads will still return; `None` if the stream does not record them.
    ghost to_give: { Self → Option (List ℕ) };

    /// The bytes that writes accepted, in order; `None` if the stream does not record them.
    ghost taken: { Self → Option (List ℕ) };

    /// The trace of its calls, each with its result; `None` if the stream does not record them.
    ghost calls: { Self → Option (List StreamCall) };

    /// Reads the next bytes into the front of the buffer, and returns their number, 0 at the end of the stream.
    ///
    /// Fails, without reading a byte, with `Interrupted`, with `WouldBlock`, or with the stream's own error.
    fn read(&mut self, buffer: &mut [u8]) -> io::Result<usize>
        ensures within { ReadsAtMost result buffer.new }
        ensures given { ReadConsumes (to_give self.old) (to_give self.new) result buffer.new }
        ensures apart { taken self.new ≡ taken self.old }
        ensures appended { AppendsTo (calls self.old) (Read (length buffer.old) (outcome_by result) ∷ []) (calls self.new) };

    /// Writes a prefix of the bytes, and returns its length.
    ///
    /// Fails, without writing a byte, with `Interrupted`, with `WouldBlock`, or with the stream's own error.
    fn write(&mut self, bytes: &[u8]) -> io::Result<usize>
        ensures within { WritesAtMost result bytes.now }
        ensures taken { WriteAppends (taken self.old) (taken self.new) result bytes.now }
        ensures apart { to_give self.new ≡ to_give self.old }
        ensures appended { AppendsTo (calls self.old) (Written bytes.now (outcome_by result) ∷ []) (calls self.new) };

    /// Shuts down the writing direction, so that the peer reads the end of the stream. Has no effect if the peer is
    /// gone.
    fn end_writing(&mut self)
        ensures taken { taken self.new ≡ taken self.old }
        ensures apart { to_give self.new ≡ to_give self.old }
        ensures appended { AppendsTo (calls self.old) (WritingEnded ∷ []) (calls self.new) };
}
