//! A reader whose contracts can state that a read failed.

ghost use Rattle.std.specs.Prelude.{OnErr};
ghost use Rattle.std.specs.Io.{ReadsAtMost};
ghost use Rattle.std.specs.Io.KnownBytes.{ReadConsumes};

use std::io;
use std::io::Read;

/// A reader whose read may fail; every reader is one. Code that is generic in it does not know `Fails`, so it can show
/// `Fails` only of a read that returned an error. A contract that needs `Fails` allows no other reason to stop reading.
///
/// Not said: why a read failed.
pub trait Source: Read {
    /// A read changed the reader from its old value to its new one, and returned an error.
    ghost Fails: { Self → Self → Type 0 };

    /// Reads the next bytes into the front of the buffer, and returns their number, 0 at the end.
    fn read_some(&mut self, buffer: &mut [u8]) -> io::Result<usize>
        ensures bound { ReadsAtMost result buffer.new }
        ensures bytes { ReadConsumes (Self.remaining self.old) (Self.remaining self.new) result buffer.new }
        ensures failed { OnErr result (Fails self.old self.new) };
}

impl<R: Read> Source for R {
    ghost Fails = { λ _ _. Unit {0} };

    fn read_some(&mut self, buffer: &mut [u8]) -> io::Result<usize> {
        self.read(buffer)
    }
}
