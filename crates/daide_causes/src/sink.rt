//! A writer whose contracts can state that a write failed.

ghost use Rattle.std.specs.Prelude.{IfSome, OnOk, OnErr};
ghost use Rattle.std.specs.Io.KnownBytes.{Appends};

use std::fmt::Display;
use std::io;
use std::io::Write;

/// A writer whose write may fail; every writer is one. Code that is generic in it does not know `Fails`, so it can show
/// `Fails` only of a write that returned an error. A contract that needs `Fails` allows no other reason to stop
/// writing.
///
/// Not said: why a write failed.
pub trait Sink: Write {
    /// A write changed the writer from its old value to its new one, and returned an error.
    ghost Fails: { Self → Self → Type 0 };

    /// Writes all of the bytes.
    fn write_whole(&mut self, bytes: &[u8]) -> io::Result<()>
        ensures written { OnOk result (Appends (Self.contents self.old) (Self.contents self.new) bytes.now) }
        ensures failed { OnErr result (Fails self.old self.new) };

    /// Writes what is displayed.
    fn write_text<D: Display + Drop>(&mut self, shown: D) -> io::Result<()>
        ensures written { OnOk result (IfSome (D.output shown) (λ bytes.
            Appends (Self.contents self.old) (Self.contents self.new) bytes)) }
        ensures failed { OnErr result (Fails self.old self.new) };
}

impl<W: Write> Sink for W {
    ghost Fails = { λ _ _. Unit {0} };

    fn write_whole(&mut self, bytes: &[u8]) -> io::Result<()> {
        self.write_all(bytes)
    }

    fn write_text<D: Display + Drop>(&mut self, shown: D) -> io::Result<()> {
        self.write_fmt(shown)
    }
}
