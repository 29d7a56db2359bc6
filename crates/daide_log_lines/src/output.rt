//! The buffered writer of a report.

ghost use Rattle.std.specs.Prelude.{◌≡◌, [], OnOk, OnErr};
ghost use Rattle.std.specs.Io.KnownBytes.{Keeps};
ghost use Rattle.daide_causes.specs.Causes.{HasFailed};
ghost use Rattle.daide_log_lines.specs.Output.{all_of, IsSameWriter};

use crate::page::{Page, hand_over};
use daide_causes::Sink;
use std::io;

/// A writer, and the page of lines that it does not have yet. Contracts see both as one text (`all_of`): what the
/// writer has, followed by the page.
#[derive(Drop)]
pub struct Output<'a, W> {
    /// The lines that are not yet written.
    pub page: Page,
    /// The writer of the report.
    pub writer: &'a mut W,
}

impl<'a, W: Sink> Output<'a, W> {
    /// Writes the page, and empties it.
    pub fn hand_over(&mut self) -> io::Result<()>
        ensures emptied { OnOk result (self.new.page.items ≡ []) }
        ensures written { OnOk result (Keeps (all_of W.contents self.old) (all_of W.contents self.new)) }
        ensures failed { OnErr result (HasFailed W.Fails) }
        ensures same_writer { IsSameWriter self.old self.new }
    {
        hand_over(&mut self.page, self.writer)
    }
}
