//! `show`: one frame, from arguments or from standard input.

ghost use Rattle.std.specs.Prelude.{◌≡◌, ◌≤◌, Some, map, IfOk};
ghost use Rattle.std.specs.List.{join_with_byte};
ghost use Rattle.daide_causes.specs.Causes.{HasFailed, WasRefused};
ghost use Rattle.daide_show.specs.Shown.{IsShowCause, request_of};
ghost use Rattle.daide_tools.specs.Endings.{show_status, ShowEnds, ShowRuns};

use crate::faults::{CLEAN, FAULT, NOT_RELAYED, print_fault};
use crate::opening::FileOpener;
use crate::settings_file::words_at;
use crate::typed::joined;
use daide_causes::{Growth, Sink, Source};
use daide_command_line::arguments::ShowOrder;
use daide_command_line::hints::{Hint, hint_of, suggest};
use daide_show::{Request, ShowFault, input_note, odd_group, read_input, show_input};
use std::alloc::Allocator;
use std::io;
use std::io::Write;

/// Writes why an input is not one frame in digits. A failure to write it has no effect.
fn write_note<A: Allocator + Copy, E: Write>(alloc: A, input: &[u8], errors: &mut E) {
    if let Ok(Some(note)) = input_note(alloc, input) {
        let _ = writeln!(errors, "daide-gate: {note}");
    }
}

/// Writes which group of an input cannot be whole bytes. A failure to write it has no effect.
fn write_odd_group<E: Write>(input: &[u8], errors: &mut E) {
    if let Some(odd) = odd_group(input) {
        let _ = writeln!(errors, "daide-gate: {odd}");
    }
}

/// Returns true if the result is due to the input, and not to memory or the output.
fn is_of_input(answer: Result<bool, ShowFault>) -> bool {
    matches!(
        answer,
        Ok(_) | Err(ShowFault::NotHex | ShowFault::NotOneFrame)
    )
}

/// Points from a refused input to its explanation. A failure to write it has no effect.
fn point_to_explanation<E: Write>(answer: Result<bool, ShowFault>, errors: &mut E) {
    if answer.is_err() {
        let _ = writeln!(errors, "  tip: 'show --explain' says why");
    }
}

/// Reports the result for an input on standard error, unless its frame was shown and would be relayed. Returns the
/// status.
fn end_show<A: Allocator + Copy, E: Write>(
    alloc: A,
    answer: Result<bool, ShowFault>,
    is_explained: bool,
    input: &[u8],
    errors: &mut E,
) -> io::Result<u8>
    ensures { IfOk result (λ status. status ≡ show_status answer) }
{
    let status = match answer {
        Ok(true) => return Ok(CLEAN),
        Ok(false) => NOT_RELAYED,
        Err(fault) => print_fault(errors, fault, FAULT)?,
    };
    if is_of_input(answer) {
        if is_explained {
            write_note(alloc, input, errors);
        }
        write_odd_group(input, errors);
        if !is_explained {
            point_to_explanation(answer, errors);
        }
    }
    Ok(status)
}

/// Shows the frame in a reader.
fn show_read<A: Growth + Copy, I: Source, O: Sink, E: Write>(
    alloc: A,
    request: &Request<'_>,
    input: &mut I,
    output: &mut O,
    errors: &mut E,
) -> io::Result<u8>
    ensures { IfOk result (ShowEnds (IsShowCause (HasFailed I.Fails) (WasRefused A.Refuses) (HasFailed O.Fails))
        (request_of request.now) (I.remaining input.old) (O.contents output.old) (O.contents output.new)) }
{
    let text = match read_input(alloc, input) {
        Ok(text) => text,
        Err(fault) => return print_fault(errors, fault, FAULT),
    };
    let answer = show_input(alloc, request, text.as_slice(), output);
    end_show(alloc, answer, request.is_explained, text.as_slice(), errors)
}

/// Shows the frame in the arguments, and suggests another command for arguments of another form.
fn show_words<A: Growth + Copy, O: Sink, E: Write>(
    alloc: A,
    request: &Request<'_>,
    words: &[&str],
    output: &mut O,
    errors: &mut E,
) -> io::Result<u8>
    ensures { IfOk result (ShowEnds (IsShowCause ⊥ (WasRefused A.Refuses) (HasFailed O.Fails)) (request_of request.now)
        (Some (join_with_byte 32 (map (λ word. word.now) words.now))) (O.contents output.old) (O.contents output.new)) }
{
    let Ok(text) = joined(alloc, words) else {
        return print_fault(errors, ShowFault::Memory, FAULT);
    };
    let answer = show_input(alloc, request, text.as_slice(), output);
    let status = end_show(alloc, answer, request.is_explained, text.as_slice(), errors)?;
    if status == FAULT {
        let hint = words.first().and_then(|word| hint_of(word));
        suggest(hint.filter(|hint| !matches!(hint, Hint::Show)), errors);
    }
    Ok(status)
}

/// Shows a frame, with the words of the settings at a path. The settings are read before the input.
///
/// `shown`: if the settings are read, the status is that of the result of `show_input` or of a fault before it, and each
/// fault has its cause.
pub fn run_show<
    A: Growth + Copy,
    F: Source + Drop,
    R: AllocGlobal + FileOpener<F>,
    I: Source,
    O: Sink,
    E: Write,
>(
    alloc: A,
    rt: &R,
    order: ShowOrder<'_, '_>,
    input: &mut I,
    output: &mut O,
    errors: &mut E,
) -> io::Result<u8>
    ensures bounded { IfOk result (λ status. status ≤ NOT_RELAYED) }
    ensures shown { IfOk result (ShowRuns R.Opens F.remaining (HasFailed I.Fails) (WasRefused A.Refuses)
        (HasFailed O.Fails) order.entry (I.remaining input.old) (O.contents output.old) (O.contents output.new)) }
{
    let words = match words_at(rt, order.words) {
        Ok(words) => words,
        Err(fault) => return print_fault(errors, fault, FAULT),
    };
    let request = Request {
        side: order.side,
        level: order.level,
        words: &words,
        is_explained: order.is_explained,
    };
    match order.typed {
        Some(typed) => show_words(alloc, &request, typed, output, errors),
        None => show_read(alloc, &request, input, output, errors),
    }
}
