//! The text of a frame.

ghost use Rattle.std.specs.Prelude.{◌≡◌, ◌≤◌, ◌%◌, ◌++◌, ℕ, List, length, take, true, IfOk, OnOk, OnErr};
ghost use Rattle.daide_causes.specs.Causes.{WasRefused};
ghost use Rattle.daide_token.specs.Token.{tokens_of};
ghost use Rattle.daide_frame.specs.Head.{has_right_length};
ghost use Rattle.daide_frame.specs.InitialMessage.{im_of};
ghost use Rattle.daide_grammar.specs.SideMessages.{IsMessageOver};
ghost use Rattle.daide_words.specs.Word.{grammar_words};
ghost use Rattle.daide_words.specs.Words.{words_of};
ghost use Rattle.daide_reader.specs.Verdict.{HasVerdict, IsPlaceIn};
ghost use Rattle.daide_protocol.specs.Bounds.{longest_body, greatest_depth};
ghost use Rattle.daide_protocol.specs.Machine.{side2_of};
ghost use Rattle.daide_show.specs.Shown.{Shown, WritesShown, AreLines, IsFrameShownAs, IsMessageShownAs, request_of};
ghost use Rattle.daide_show.specs.Shown.{line, printed, kind_line, fault_shown, relayed_shown, im_shown};
ghost use Rattle.daide_show.specs.Shown.{cause_lines, frame_fault_lines, lines_if, verdict_lines, is_relay};

use super::Request;
use super::cause::{faulty_body, write_cause};
use daide_causes::Growth;
use daide_explain::{Rules, answer_of, append_tokens, verdict_of, write_explained};
use daide_frame::{Code, Head, Kind, check_im};
use daide_protocol::transitions::side2_of;
use daide_protocol::{MAX_BODY, MAX_DEPTH};
use daide_reader::Verdict;
use daide_words::Words;
use std::alloc::AllocError;

/// Returns the rules for judging a message of the request: those of its side and level, at the greatest depth limit.
fn rules_of<'a>(request: &Request<'a>) -> Rules<'a>
    ensures words { result.words.now ≡ request.now.words.now }
    ensures end { result.end ≡ side2_of request.now.side }
    ensures level { result.level ≡ request.now.level }
    ensures depth { result.max_depth ≡ greatest_depth }
{
    Rules {
        words: request.words,
        end: side2_of(request.side),
        level: request.level,
        max_depth: MAX_DEPTH,
    }
}

/// Writes a frame's kind and the length of its body.
fn write_kind<A: Growth>(head: Head, text: &mut Vec<u8, A>) -> Result<(), AllocError>
    ensures text { OnOk result (text.new.items ≡ text.old.items ++ kind_line head.kind head.len) }
    ensures refused { OnErr result (WasRefused A.Refuses) }
{
    let kind = head.kind.name();
    let len = head.len;
    A::append_text(text, format_args_nl!("{kind} {len}"))
}

/// Writes the text of tokens on a line, with the operator's words by their names.
fn write_tokens<A: Growth>(
    words: &Words,
    tokens: &[u8],
    text: &mut Vec<u8, A>,
) -> Result<(), AllocError>
    requires { length tokens.now % 2 ≡ 0 }
    ensures text { OnOk result (text.new.items ≡ text.old.items
        ++ line (printed (words_of words.now) (tokens_of tokens.now))) }
    ensures refused { OnErr result (WasRefused A.Refuses) }
{
    append_tokens(words, tokens, text)?;
    A::append(text, b"\n")
}

/// Writes a verdict, and the answer to the sender if there is one. Returns whether the message is relayed.
fn write_verdict<A: Growth + Copy>(
    alloc: A,
    words: &Words,
    verdict: Verdict,
    body: &[u8],
    text: &mut Vec<u8, A>,
) -> Result<bool, AllocError>
    requires even { length body.now % 2 ≡ 0 }
    requires within { IsPlaceIn body.now verdict }
    ensures text { IfOk result (λ relayed.
        (text.new.items ≡ text.old.items ++ verdict_lines (words_of words.now) verdict body.now)
        × (relayed ≡ is_relay verdict)) }
    ensures refused { OnErr result (WasRefused A.Refuses) }
{
    match verdict {
        Verdict::Relay => {
            A::append(text, b"relay\n")?;
            return Ok(true);
        }
        Verdict::Prn => A::append(text, b"PRN\n")?,
        Verdict::Huh(place) => A::append_text(text, format_args_nl!("HUH at {place}"))?,
    }
    let answer = answer_of(alloc, verdict, body)?;
    write_tokens(words, answer.as_slice(), text)?;
    Ok(false)
}

/// Writes the fault of a frame, and explains it if that is requested. Returns false.
fn write_fault<A: Growth>(
    is_explained: bool,
    code: Code,
    header: &[u8],
    body: &[u8],
    text: &mut Vec<u8, A>,
) -> Result<bool, AllocError>
    requires { length body.now ≤ longest_body }
    ensures text { IfOk result (λ relayed. WritesShown text.old.items text.new.items relayed
        (fault_shown code (lines_if is_explained (cause_lines code header.now body.now)))) }
    ensures refused { OnErr result (WasRefused A.Refuses) }
{
    A::append(text, b"fault ")?;
    A::append(text, &code.digits())?;
    A::append(text, b"\n")?;
    if is_explained {
        write_cause(code, header, body, text)?;
    }
    Ok(false)
}

/// Returns the first bytes, this many at most.
fn front(bytes: &[u8], count: usize) -> &[u8]
    ensures value { result.now ≡ take count bytes.now }
    ensures within { length result.now ≤ count }
{
    if bytes.len() > count {
        return &bytes[..count];
    }
    bytes
}

/// Writes the fault of the header or of the body in some bytes, and explains it if that is requested. Returns false.
pub(super) fn write_bytes_fault<A: Growth>(
    is_explained: bool,
    code: Code,
    bytes: &[u8],
    text: &mut Vec<u8, A>,
) -> Result<bool, AllocError>
    requires { 4 ≤ length bytes.now }
    ensures text { IfOk result (λ relayed. WritesShown text.old.items text.new.items relayed
        (fault_shown code (lines_if is_explained (frame_fault_lines longest_body code bytes.now)))) }
    ensures refused { OnErr result (WasRefused A.Refuses) }
{
    let (header, rest) = bytes.split_at(4);
    let body = faulty_body(code, front(rest, usize::from(MAX_BODY)));
    write_fault(is_explained, code, header, body, text)
}

/// Writes a valid frame that is not a message. Returns true.
fn write_relayed<A: Growth>(head: Head, text: &mut Vec<u8, A>) -> Result<bool, AllocError>
    ensures text { IfOk result (λ relayed. WritesShown text.old.items text.new.items relayed (relayed_shown head.kind head.len)) }
    ensures refused { OnErr result (WasRefused A.Refuses) }
{
    write_kind(head, text)?;
    A::append(text, b"relay\n")?;
    Ok(true)
}

/// Writes an IM, or the fault of its body, which is explained if that is requested. Returns whether it is relayed.
fn write_im<A: Growth>(
    is_explained: bool,
    head: Head,
    body: &[u8],
    text: &mut Vec<u8, A>,
) -> Result<bool, AllocError>
    requires im { head.kind ≡ Kind.Im }
    requires four { length body.now ≡ 4 }
    ensures text { IfOk result (λ relayed. WritesShown text.old.items text.new.items relayed
        (im_shown is_explained head.len body.now (im_of body.now))) }
    ensures refused { OnErr result (WasRefused A.Refuses) }
{
    match check_im([body[0], body[1], body[2], body[3]]) {
        Ok(()) => write_relayed(head, text),
        Err(code) => write_fault(is_explained, code, &[], body, text),
    }
}

/// Writes the lines that explain a verdict, if the request includes an explanation.
fn write_lines<A: Growth + Copy>(
    alloc: A,
    request: &Request<'_>,
    verdict: Verdict,
    body: &[u8],
    text: &mut Vec<u8, A>,
) -> Result<(), AllocError>
    requires capped { length body.now ≤ longest_body }
    requires verdict { HasVerdict (IsMessageOver (grammar_words (words_of request.now.words.now))
        (side2_of request.now.side) request.now.level) greatest_depth (tokens_of body.now) verdict }
    ensures text { OnOk result ((lines : List ℕ) × AreLines (request_of request.now) (tokens_of body.now) verdict lines
        × (text.new.items ≡ text.old.items ++ lines)) }
    ensures refused { OnErr result (WasRefused A.Refuses) }
{
    if !request.is_explained {
        return Ok(());
    }
    write_explained(alloc, &rules_of(request), verdict, body, text)
}

/// Writes a message and its verdict, and the explanation if the request includes one. Returns whether it is relayed.
fn write_message<A: Growth + Copy>(
    alloc: A,
    request: &Request<'_>,
    head: Head,
    body: &[u8],
    text: &mut Vec<u8, A>,
) -> Result<bool, AllocError>
    requires dm { head.kind ≡ Kind.Dm }
    requires even { length body.now % 2 ≡ 0 }
    requires capped { length body.now ≤ longest_body }
    ensures text { IfOk result (λ relayed. (shown : Shown)
        × IsMessageShownAs (request_of request.now) head.len body.now shown
        × WritesShown text.old.items text.new.items relayed shown) }
    ensures refused { OnErr result (WasRefused A.Refuses) }
{
    let verdict = verdict_of(&rules_of(request), body);
    write_kind(head, text)?;
    write_tokens(request.words, body, text)?;
    let relayed = write_verdict(alloc, request.words, verdict, body, text)?;
    write_lines(alloc, request, verdict, body, text)?;
    Ok(relayed)
}

/// Writes a complete frame and its verdict. Returns whether it would be relayed.
pub(super) fn write_frame<A: Growth + Copy>(
    alloc: A,
    request: &Request<'_>,
    head: Head,
    body: &[u8],
    text: &mut Vec<u8, A>,
) -> Result<bool, AllocError>
    requires right { has_right_length head.kind (length body.now) ≡ true }
    requires capped { length body.now ≤ longest_body }
    ensures text { IfOk result (λ relayed. (shown : Shown)
        × IsFrameShownAs (request_of request.now) head.kind head.len body.now shown
        × WritesShown text.old.items text.new.items relayed shown) }
    ensures refused { OnErr result (WasRefused A.Refuses) }
{
    match head.kind {
        Kind::Im => write_im(request.is_explained, head, body, text),
        Kind::Dm => write_message(alloc, request, head, body, text),
        Kind::Rm | Kind::Fm | Kind::Em => write_relayed(head, text),
    }
}
