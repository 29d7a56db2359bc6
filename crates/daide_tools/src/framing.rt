//! `frame`: the frames of messages, from arguments or from standard input.

ghost use Rattle.std.specs.Prelude.{◌≡◌, ◌≤◌, ◌++◌, ◌∷◌, ⊤, [], Some, map, IfOk, OnErr};
ghost use Rattle.std.specs.List.{join_with_byte};
ghost use Rattle.daide_causes.specs.Causes.{HasFailed, WasRefused};
ghost use Rattle.daide_words.specs.Word.{names_of};
ghost use Rattle.daide_words.specs.Words.{words_of};
ghost use Rattle.daide_text.specs.Frames.{IsTextCause};
ghost use Rattle.daide_tools.specs.Endings.{frame_status, FrameEnds, FrameRuns};

use crate::faults::{CLEAN, FAULT, print_fault};
use crate::opening::FileOpener;
use crate::settings_file::words_at;
use crate::typed::joined;
use daide_causes::{Growth, Sink, Source};
use daide_command_line::arguments::FrameOrder;
use daide_text::{TextFault, write_frames};
use daide_words::Words;
use std::alloc::AllocError;
use std::io;
use std::io::Write;

/// Reports a fault of a message on standard error, and what is wrong with a text that is not an item. Returns the
/// status. A failure to write the latter has no effect.
fn end_frame<E: Write>(answer: Result<(), TextFault>, errors: &mut E) -> io::Result<u8>
    ensures { IfOk result (λ status. status ≡ frame_status answer) }
{
    let Err(fault) = answer else {
        return Ok(CLEAN);
    };
    let status = print_fault(errors, fault, FAULT)?;
    if let TextFault::NotMessage(_, _, reason) = fault {
        let _ = writeln!(errors, "daide-gate: {reason}");
    }
    Ok(status)
}

/// Writes the frames of the messages in a reader, one a line.
fn frame_read<A: Growth + Copy, I: Source, O: Sink, E: Write>(
    alloc: A,
    words: &Words,
    input: &mut I,
    output: &mut O,
    errors: &mut E,
) -> io::Result<u8>
    ensures { IfOk result (FrameEnds (IsTextCause (HasFailed I.Fails) (WasRefused A.Refuses) (HasFailed O.Fails))
        (names_of (words_of words.now)) (I.remaining input.old) (O.contents output.old) (O.contents output.new)) }
{
    let answer = write_frames(alloc, words, input, output);
    end_frame(answer, errors)
}

/// Writes the frame of the message in the arguments. A line feed within an argument ends a message.
fn frame_words<A: Growth + Copy, O: Sink, E: Write>(
    alloc: A,
    words: &Words,
    typed: &[&str],
    output: &mut O,
    errors: &mut E,
) -> io::Result<u8>
    ensures { IfOk result (FrameEnds (IsTextCause ⊤ (WasRefused A.Refuses) (HasFailed O.Fails))
        (names_of (words_of words.now)) (Some (join_with_byte 32 (map (λ word. word.now) typed.now) ++ 10 ∷ []))
        (O.contents output.old) (O.contents output.new)) }
{
    let Ok(text) = line_of(alloc, typed) else {
        return print_fault(errors, TextFault::Memory, FAULT);
    };
    let mut input = text.as_slice();
    frame_read(alloc, words, &mut input, output, errors)
}

/// Returns the arguments as a line.
fn line_of<A: Growth>(alloc: A, words: &[&str]) -> Result<Vec<u8, A>, AllocError>
    ensures line { IfOk result (λ line. line.items ≡ join_with_byte 32 (map (λ word. word.now) words.now) ++ 10 ∷ []) }
    ensures refused { OnErr result (WasRefused A.Refuses) }
{
    let mut line = joined(alloc, words)?;
    A::append(&mut line, b"\n")?;
    Ok(line)
}

/// Writes the frames of messages, with the words of the settings at a path. The settings are read before the input.
///
/// `framed`: if the settings are read, the status is that of the result of `write_frames`, or 1 if memory was refused
/// before it, and each fault has its cause.
///
/// Not said: that no read of the arguments fails.
pub fn run_frame<
    A: Growth + Copy,
    F: Source + Drop,
    R: AllocGlobal + FileOpener<F>,
    I: Source,
    O: Sink,
    E: Write,
>(
    alloc: A,
    rt: &R,
    order: FrameOrder<'_, '_>,
    input: &mut I,
    output: &mut O,
    errors: &mut E,
) -> io::Result<u8>
    ensures bounded { IfOk result (λ status. status ≤ FAULT) }
    ensures framed { IfOk result (FrameRuns R.Opens F.remaining (HasFailed I.Fails) (WasRefused A.Refuses)
        (HasFailed O.Fails) order.entry (I.remaining input.old) (O.contents output.old) (O.contents output.new)) }
{
    let words = match words_at(rt, order.words) {
        Ok(words) => words,
        Err(fault) => return print_fault(errors, fault, FAULT),
    };
    match order.typed {
        Some(typed) => frame_words(alloc, &words, typed, output, errors),
        None => frame_read(alloc, &words, input, output, errors),
    }
}
