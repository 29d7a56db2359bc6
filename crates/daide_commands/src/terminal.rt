//! Standard input with a prompt for a terminal.

use std::io;
use std::io::{IsTerminal, Read};

/// An input that writes a prompt before its first read if it is a terminal.
#[derive(Drop)]
pub struct Asking<'a, R: Eprint, I: Read + IsTerminal> {
    rt: &'a R,
    input: I,
    has_read: bool,
}

impl<'a, R: Eprint, I: Read + IsTerminal> Asking<'a, R, I> {
    /// Wraps an input that was not read yet. No contract is about the bytes of a terminal.
    pub fn new(rt: &'a R, input: I) -> Asking<'a, R, I> {
        Asking {
            rt,
            input,
            has_read: false,
        }
    }
}

impl<R: Eprint, I: Read + IsTerminal> Read for Asking<'_, R, I> {
    fn read(&mut self, buffer: &mut [u8]) -> io::Result<usize> {
        if !self.has_read && self.input.is_terminal() {
            let text = "daide-gate: type the input, and end it with Enter and Ctrl-D";
            let _ = self.rt.eprintln(text);
        }
        self.has_read = true;
        self.input.read(buffer)
    }
}
