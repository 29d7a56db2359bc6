//! Readers and writers that fail at a call.

use std::io;
use std::io::{ErrorKind, Read, Write};

/// A reader that returns at most three bytes a read, and fails with an error of this kind after `reads` reads.
#[derive(Drop)]
pub struct FailsAtRead<'a> {
    pub bytes: &'a [u8],
    pub reads: usize,
    pub kind: ErrorKind,
}

impl Read for FailsAtRead<'_> {
    fn read(&mut self, buffer: &mut [u8]) -> io::Result<usize> {
        if self.reads == 0 {
            return Err(io::Error::from(self.kind));
        }
        self.reads -= 1;
        let room = buffer.len().min(3);
        self.bytes.read(&mut buffer[..room])
    }
}

/// A writer that accepts at most four bytes a write, and fails after `writes` writes.
#[derive(Drop)]
pub struct FailsAtWrite {
    pub taken: Vec<u8>,
    pub writes: usize,
}

impl Write for FailsAtWrite {
    fn write(&mut self, bytes: &[u8]) -> io::Result<usize> {
        if self.writes == 0 {
            return Err(io::Error::from(ErrorKind::Other));
        }
        self.writes -= 1;
        let count = bytes.len().min(4);
        self.taken.extend_from_slice(&bytes[..count])?;
        Ok(count)
    }

    fn flush(&mut self) -> io::Result<()> {
        Ok(())
    }
}
