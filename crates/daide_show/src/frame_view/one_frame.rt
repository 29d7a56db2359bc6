//! The parsing of an input as one frame.

ghost use Rattle.std.specs.Prelude.{◌≡◌, [], drop};
ghost use Rattle.daide_show.specs.Shown.{parse_frame};
ghost use Rattle.daide_show.specs.Found.{parsed_input_by, parsed_input_of};

use daide_frame::{Code, Cutter, Head, Step};
use std::alloc::Allocator;

/// The input as one frame.
#[derive(Clone, Copy)]
pub(crate) enum ParsedInput {
    /// The frame has a fault. The bytes after it were not examined.
    Fault(Code),
    /// A complete frame with this header, and nothing after it. The cutter has its body.
    Whole(Head),
    /// The frame is incomplete, or more bytes follow it.
    NotOneFrame,
}

/// Returns the result after the cutter's last step. `is_all` states whether the cutter got all bytes.
fn found_of(step: Step, is_all: bool) -> ParsedInput
    ensures { result ≡ parsed_input_of step is_all }
{
    match step {
        Step::Fault(code) => ParsedInput::Fault(code),
        Step::Bodied(head) if is_all => ParsedInput::Whole(head),
        _ => ParsedInput::NotOneFrame,
    }
}

/// Feeds the header to the cutter, and then the body.
pub(crate) fn find_frame<A: Allocator>(cutter: &mut Cutter<A>, bytes: &[u8]) -> ParsedInput
    requires { cutter.old.bytes ≡ [] }
    ensures { parsed_input_by result (drop 4 cutter.new.bytes) ≡ parse_frame cutter.old.cap bytes.now }
{
    if bytes.len() < 4 {
        return ParsedInput::NotOneFrame;
    }
    let (header, rest) = bytes.split_at(4);
    match cutter.feed(header) {
        Step::Headed(_) => {}
        step => return found_of(step, rest.is_empty()),
    }
    let (body, after) = rest.split_at(rest.len().min(cutter.room()));
    let step = cutter.feed(body);
    found_of(step, after.is_empty())
}
