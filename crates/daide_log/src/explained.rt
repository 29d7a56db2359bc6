//! The report of a log with explanations.

ghost use Rattle.std.specs.Prelude.{◌≡◌, ◌+◌, ◌*◌, ◌≤◌, ℕ, ◌++◌, ◌%◌, false, All, replicate, List, Option, drop, length, IfOk, IfErr, IfSome, OnErr, OnOk};
ghost use Rattle.std.specs.Io.KnownBytes.{Appends};
ghost use Rattle.daide_token.specs.Token.{tokens_of};
ghost use Rattle.daide_token.specs.HexDigits.{digits_of_byte as digits_in};
ghost use Rattle.daide_grammar.specs.SideMessages.{IsMessageOver};
ghost use Rattle.daide_words.specs.Word.{grammar_words};
ghost use Rattle.daide_words.specs.declared.word.Word.{Word};
ghost use Rattle.daide_words.specs.Words.{words_of};
ghost use Rattle.daide_reader.specs.Verdict.{HasVerdict, IsPlaceIn};
ghost use Rattle.daide_causes.specs.Causes.{WasRefused};
ghost use Rattle.daide_log_lines.specs.Cause.{HasCause};
ghost use Rattle.daide_log_lines.specs.Output.{IsSameWriter, all_of};
ghost use Rattle.daide_log_lines.specs.Reader.{silent};
ghost use Rattle.daide_log.specs.Explained.{explained, is_remark, with_line_feed, message_text, pairs, token_line, bytes_line};
ghost use Rattle.daide_log.specs.Explained.{fault_name, faulty_bytes, fault_lines, capped_text, level_text, capped_from as spec_capped_from};
ghost use Rattle.daide_grammar.specs.declared.level.Level.{Level};
ghost use Rattle.daide_grammar.specs.declared.level.Level.TheVariants.{L0};
ghost use Rattle.daide_log.specs.Explained.{cut_count, cut_text, part_text};
ghost use Rattle.daide_log.specs.Report.{texts_of};
ghost use Rattle.daide_log.specs.Explained.{AreRefusedLines, AreMessageLines, is_at_fault, verdict_by as verdict_of_deed};
ghost use Rattle.daide_log.specs.Explained.{part_of as spec_part_of, unfinished_parts, parts_from, session_number as number_of};
ghost use Rattle.daide_log.specs.Explaining.{part_by, part_with, HasPut};
ghost use Rattle.daide_frame.specs.Frames.{announced_by};
ghost use Rattle.daide_protocol.specs.Bounds.{longest_body, most_sessions};
ghost use Rattle.daide_protocol.specs.Config.{limits_with};
ghost use Rattle.daide_protocol.specs.Machine.{Limits, coming, is_dm, side2_of, ending_in};
ghost use Rattle.daide_protocol.specs.declared.config.Config.{Config};
ghost use Rattle.daide_protocol.specs.Wires.{holding, is_awaited, queued};
ghost use Rattle.daide_log.specs.Explaining.{IsRuled, IsRightFate, IsRightlyReported, AreLinesBy};
ghost use Rattle.daide_log.specs.Progress.{IsAnswered, states_of};
ghost use Rattle.daide_log.specs.Reporting.{IsFailedWrite, IsIdle};
ghost use Rattle.daide_log.specs.Proofs.Lawful.{explained_lawful};

use crate::announced::{announced_after, capped_from, level_announced, record_level};
use crate::check::report_stream;
use crate::heading::{Preamble, Version};
use crate::line_reason::LineReason;
use crate::page::{
    Unreported, put_byte, put_cut_line, put_indented, put_message, put_part, put_text,
};
use crate::report::{Part, ReportKey};
use crate::style::Style;
use daide_causes::{Growth, Sink, Source};
use daide_explain::{Rules, answer_of, append_tokens, write_explained};
use daide_frame::{Code, Head, Kind, Memory, Side};
use daide_grammar::Level;
use daide_io::{FaultCause, FaultField};
use daide_log_lines::LogFault;
use daide_log_lines::output::Output;
use daide_log_lines::reader::LogReader;
use daide_protocol::transitions::side2_of;
use daide_protocol::{Deed, MAX_SESSIONS, Note, Summary};
use daide_reader::Verdict;
use daide_session::{Ending, Session, SessionLimits};
use daide_token::digits_of_byte;
use daide_words::Words;
use std::alloc::{AllocError, Allocator};

/// The result for a log without a fault.
#[derive(Clone, Copy)]
pub struct Explained {
    /// The counts of the moves, as in the last line of the report.
    pub counts: Summary,
    /// The number of incomplete frames that the report lists, and one more if the last line is cut.
    pub unfinished: u32,
    /// The number of the last line, if it is cut: it has no line feed, and is no line of a log.
    pub cut: Option<u32>,
}

/// The style of a report with explanations. One text is allocated for all of them, and cleared before each.
#[derive(Drop)]
pub(crate) struct Explaining<B: Allocator> {
    text: Vec<u8, B>,
    /// The level that the server of each session announced last.
    announced: [Level; MAX_SESSIONS],
}

impl<B: Allocator> Explaining<B> {
    /// Returns the style with an empty text, before any server announced a level.
    pub(crate) fn new(alloc: B) -> Explaining<B>
        ensures { result.announced ≡ replicate most_sessions L0 }
    {
        Explaining {
            text: Vec::new(alloc),
            announced: [Level::L0; MAX_SESSIONS],
        }
    }
}

/// Writes tokens on a line of their own, with the operator's words by their names.
fn write_tokens<B: Growth>(
    words: &Words,
    tokens: &[u8],
    text: &mut Vec<u8, B>,
) -> Result<(), AllocError>
    requires { length tokens.now % 2 ≡ 0 }
    ensures text { OnOk result (text.new.items ≡ text.old.items
        ++ with_line_feed (message_text (words_of words.now) (tokens_of tokens.now))) }
    ensures refused { OnErr result (WasRefused B.Refuses) }
{
    append_tokens(words, tokens, text)?;
    B::append(text, b"\n")
}

/// Writes the level that the server announced, if the highest level capped it.
fn write_capped<B: Growth>(capped: Option<Level>, text: &mut Vec<u8, B>) -> Result<(), AllocError>
    ensures text { OnOk result (text.new.items ≡ text.old.items ++ capped_text capped) }
    ensures refused { OnErr result (WasRefused B.Refuses) }
{
    let Some(announced) = capped else {
        return Ok(());
    };
    let number = announced.number();
    B::append_text(text, format_args!(", capped from {number}"))
}

/// Writes the level at which a message was judged, and the one that the server announced if the highest level capped it.
fn write_level<B: Growth>(
    level: Level,
    capped: Option<Level>,
    text: &mut Vec<u8, B>,
) -> Result<(), AllocError>
    ensures text { OnOk result (text.new.items ≡ text.old.items ++ with_line_feed (level_text level capped)) }
    ensures refused { OnErr result (WasRefused B.Refuses) }
{
    let number = level.number();
    B::append_text(text, format_args!("judged at level {number}"))?;
    write_capped(capped, text)?;
    B::append(text, b"\n")
}

/// Writes the text of a refused message, its level, its answer and the reason.
fn write_refused<B: Growth + Copy>(
    alloc: B,
    rules: &Rules<'_>,
    capped: Option<Level>,
    verdict: Verdict,
    body: &[u8],
    text: &mut Vec<u8, B>,
) -> Result<(), AllocError>
    requires ruled { IsRuled rules.now.max_depth body.now }
    requires within { IsPlaceIn body.now verdict }
    requires verdict { HasVerdict (IsMessageOver (grammar_words (words_of rules.now.words.now)) rules.now.end
        rules.now.level) rules.now.max_depth (tokens_of body.now) verdict }
    ensures text { OnOk result ((lines : List ℕ) × AreRefusedLines (words_of rules.now.words.now) rules.now.end
        rules.now.level capped rules.now.max_depth body.now verdict lines
        × (text.new.items ≡ text.old.items ++ lines)) }
    ensures refused { OnErr result (WasRefused B.Refuses) }
{
    let answer = answer_of(alloc, verdict, body)?;
    write_tokens(rules.words, body, text)?;
    write_level(rules.level, capped, text)?;
    write_tokens(rules.words, answer.as_slice(), text)?;
    write_explained(alloc, rules, verdict, body, text)
}

/// Writes the lines that explain a message.
fn write_message<B: Growth + Copy>(
    alloc: B,
    rules: &Rules<'_>,
    capped: Option<Level>,
    verdict: Verdict,
    body: &[u8],
    text: &mut Vec<u8, B>,
) -> Result<(), AllocError>
    requires ruled { IsRuled rules.now.max_depth body.now }
    requires within { IsPlaceIn body.now verdict }
    requires verdict { HasVerdict (IsMessageOver (grammar_words (words_of rules.now.words.now)) rules.now.end
        rules.now.level) rules.now.max_depth (tokens_of body.now) verdict }
    ensures text { OnOk result ((lines : List ℕ) × AreMessageLines (words_of rules.now.words.now) rules.now.end
        rules.now.level capped rules.now.max_depth body.now verdict lines
        × (text.new.items ≡ text.old.items ++ lines)) }
    ensures refused { OnErr result (WasRefused B.Refuses) }
{
    match verdict {
        Verdict::Relay => write_tokens(rules.words, body, text),
        Verdict::Prn => write_refused(alloc, rules, capped, verdict, body, text),
        Verdict::Huh(_) => write_refused(alloc, rules, capped, verdict, body, text),
    }
}

/// Returns the verdict that corresponds to a deed.
pub(crate) fn verdict_by(deed: Deed) -> Verdict
    ensures { result ≡ verdict_of_deed deed }
{
    match deed {
        Deed::Relayed | Deed::Dropped => Verdict::Relay,
        Deed::Prn => Verdict::Prn,
        Deed::Huh(place) => Verdict::Huh(place),
    }
}

/// Writes a byte as two upper-case hexadecimal digits.
fn write_pair<B: Growth>(byte: u8, text: &mut Vec<u8, B>) -> Result<(), AllocError>
    ensures text { OnOk result (text.new.items ≡ text.old.items ++ digits_in byte) }
    ensures refused { OnErr result (WasRefused B.Refuses) }
{
    B::append(text, &digits_of_byte(byte))
}

/// Writes bytes as pairs of upper-case digits, separated by spaces.
fn write_pairs<B: Growth>(bytes: &[u8], text: &mut Vec<u8, B>) -> Result<(), AllocError>
    ensures text { OnOk result (text.new.items ≡ text.old.items ++ pairs bytes.now) }
    ensures refused { OnErr result (WasRefused B.Refuses) }
{
    let mut rest = bytes;
    'bytes: while let [byte, more @ ..] = rest {
        write_pair(*byte, text)?;
        if !more.is_empty() {
            B::append(text, b" ")?;
        }
        rest = more;
    }
    Ok(())
}

/// Writes the last two bytes, which are an invalid token, and its index in the message.
fn write_token<B: Growth>(bytes: &[u8], text: &mut Vec<u8, B>) -> Result<(), AllocError>
    ensures text { OnOk result (text.new.items ≡ text.old.items ++ token_line bytes.now) }
    ensures refused { OnErr result (WasRefused B.Refuses) }
{
    B::append(text, b"bytes: ")?;
    write_pairs(&bytes[bytes.len().saturating_sub(2)..], text)?;
    let place = bytes.len().saturating_sub(6) / 2;
    B::append_text(text, format_args_nl!(" at token {place}"))
}

/// Writes the bytes of a fault on a line, if there are any.
fn write_bytes<B: Growth>(bytes: &[u8], text: &mut Vec<u8, B>) -> Result<(), AllocError>
    ensures text { OnOk result (text.new.items ≡ text.old.items ++ bytes_line bytes.now) }
    ensures refused { OnErr result (WasRefused B.Refuses) }
{
    if bytes.is_empty() {
        return Ok(());
    }
    B::append(text, b"bytes: ")?;
    write_pairs(bytes, text)?;
    B::append(text, b"\n")
}

/// Writes the bytes since the last complete frame for a fault with this code.
fn write_faulty_bytes<B: Growth>(
    code: Code,
    bytes: &[u8],
    text: &mut Vec<u8, B>,
) -> Result<(), AllocError>
    ensures text { OnOk result (text.new.items ≡ text.old.items ++ faulty_bytes code bytes.now) }
    ensures refused { OnErr result (WasRefused B.Refuses) }
{
    match code {
        Code::InvalidToken => write_token(bytes, text),
        _ => write_bytes(bytes, text),
    }
}

/// Returns the name of a side's fault, whose frame the session still holds.
fn fault_name<A: Allocator>(session: &Session<A>, side: Side, code: Code) -> &'static str
    ensures { result.now ≡ fault_name session.now.state.limits.cap code (holding session.now side).frame_bytes }
{
    let is_good = session.head(side).is_some();
    let field = FaultField::of(code, is_good, session.header(side), session.body(side));
    FaultCause { code, field }.name()
}

/// Returns whether a frame is a message.
pub(crate) fn is_message(kind: Kind) -> bool
    ensures { result ≡ is_dm kind }
{
    match kind {
        Kind::Dm => true,
        Kind::Im | Kind::Rm | Kind::Fm | Kind::Em => false,
    }
}

/// Writes the lines for a side's message, which the session still holds.
fn write_held<A: Allocator, B: Growth + Copy>(
    head: &Preamble,
    session: &Session<A>,
    announced: Level,
    side: Side,
    deed: Deed,
    text: &mut Vec<u8, B>,
) -> Result<(), AllocError>
    requires right { IsRightFate (words_of head.now.words) head.now.limits.config side deed session.now }
    ensures text { OnOk result ((lines : List ℕ)
        × AreMessageLines (words_of head.now.words) (side2_of side) (coming session.now.state side).noted
        (spec_capped_from (limits_with head.now.limits.config (words_of head.now.words)).top_level announced
        (coming session.now.state side).noted) head.now.limits.config.max_depth (drop 4 (holding session.now side).frame_bytes) (verdict_of_deed deed) lines
        × (text.new.items ≡ text.old.items ++ lines)) }
    ensures refused { OnErr result (WasRefused B.Refuses) }
{
    let rules = Rules {
        words: &head.words,
        end: side2_of(side),
        level: session.noted(side),
        max_depth: head.limits.config.max_depth,
    };
    let limits = SessionLimits::of(head.limits.config);
    write_message(
        *text.allocator(),
        &rules,
        capped_from(limits.top_level(), announced, rules.level),
        verdict_by(deed),
        session.body(side),
        text,
    )
}

/// Writes the lines for a side's faulty frame, which the session still holds.
fn write_faulty<A: Allocator, B: Growth + Copy>(
    session: &Session<A>,
    side: Side,
    code: Code,
    text: &mut Vec<u8, B>,
) -> Result<(), AllocError>
    ensures text { OnOk result (text.new.items ≡ text.old.items
        ++ fault_lines session.now.state.limits.cap code (holding session.now side).frame_bytes) }
    ensures refused { OnErr result (WasRefused B.Refuses) }
{
    let name = fault_name(session, side, code);
    B::append_text(text, format_args_nl!("{name}"))?;
    let mut bytes = Vec::new(*text.allocator());
    B::append(&mut bytes, session.header(side))?;
    B::append(&mut bytes, session.body(side))?;
    write_faulty_bytes(code, bytes.as_slice(), text)
}

/// Writes the lines that explain a side's move, from the frame that the session still holds.
fn write_lines<A: Allocator, B: Growth + Copy>(
    head: &Preamble,
    session: &Session<A>,
    announced: Level,
    side: Side,
    reported: Note,
    text: &mut Vec<u8, B>,
) -> Result<(), AllocError>
    requires right { IsRightlyReported (words_of head.now.words) head.now.limits.config side reported session.now }
    ensures text { OnOk result ((lines : List ℕ)
        × AreLinesBy (words_of head.now.words) (limits_with head.now.limits.config (words_of head.now.words)) announced side
        reported session.now lines
        × (text.new.items ≡ text.old.items ++ lines)) }
    ensures refused { OnErr result (WasRefused B.Refuses) }
{
    match reported {
        Note::Nothing | Note::Stopped => Ok(()),
        Note::Frame(frame, deed) => {
            if is_message(frame.kind) {
                return write_held(head, session, announced, side, deed, text);
            }
            Ok(())
        }
        Note::Fault(code) => write_faulty(session, side, code, text),
    }
}

/// Returns the message of a side's move, if its text is all that is written about the move.
fn message_alone<A: Allocator>(session: &Session<A>, side: Side, reported: Note) -> Option<&[u8]>
    ensures alone { IfSome result (λ body. (words : List Word) → (limits : Limits) → (announced : Level) →
        AreLinesBy words limits announced side reported session.now (with_line_feed (message_text words (tokens_of body.now)))) }
    ensures even { IfSome result (λ body. (words : List Word) → (config : Config) →
        IsRightlyReported words config side reported session.now → length body.now % 2 ≡ 0) }
{
    let Note::Frame(frame, deed) = reported else {
        return None;
    };
    if !is_message(frame.kind) {
        return None;
    }
    match verdict_by(deed) {
        Verdict::Relay => Some(session.body(side)),
        Verdict::Prn | Verdict::Huh(_) => None,
    }
}

/// Returns whether a session ended by a fault of the side.
fn is_at_fault(ending: Option<Ending>, side: Side) -> bool
    ensures { result ≡ is_at_fault side ending }
{
    match ending {
        Some(Ending::Fault(at, _)) => at == side,
        _ => false,
    }
}

/// Returns the length field of a header, or 0 until the header is complete.
fn announced_by(head: Option<Head>) -> usize
    ensures value { result ≡ announced_by head }
    ensures few { result ≤ 65535 }
{
    match head {
        None => 0,
        Some(head) => head.len as usize,
    }
}

/// Returns the incomplete frame with these numbers of header bytes and body bytes. Returns `None` if it has no byte, or
/// is at fault.
fn part_in(header: usize, body: usize, at_fault: bool, announced: usize) -> Option<Part>
    requires few { header ≤ 4 }
    requires small { body ≤ longest_body }
    requires capped { announced ≤ 65535 }
    ensures { result ≡ part_by header body at_fault announced }
{
    if header == 0 || at_fault {
        return None;
    }
    let came = header + body;
    let size = if header < 4 {
        None
    } else {
        Some(4 + announced)
    };
    Some(Part { came, size })
}

/// Returns a side's incomplete frame, which a session holds. Returns `None` if it has no byte, or is at fault.
fn part_of<A: Allocator>(session: &Session<A>, side: Side) -> Option<Part>
    requires { is_awaited (queued session.now) side ≡ false }
    ensures { (number : Option ℕ) → part_with number side result ≡ spec_part_of number side session.now.state.limits.cap
        (is_at_fault side (ending_in session.now.state.phase)) (coming session.now.state side).pending }
{
    let header = session.header(side);
    let body = session.body(side);
    let at_fault = is_at_fault(session.ending(), side);
    let announced = announced_by(session.head(side));
    part_in(header.len(), body.len(), at_fault, announced)
}

/// Writes the line for a side's incomplete frame, if there is one, and returns the number of lines.
fn put_unfinished<A: Allocator, W: Sink>(
    session: &Session<A>,
    number: Option<u16>,
    side: Side,
    output: &mut Output<'_, W>,
) -> Result<u32, Unreported>
    requires { is_awaited (queued session.now) side ≡ false }
    ensures text { IfOk result (λ count. HasPut (spec_part_of number side session.now.state.limits.cap
        (is_at_fault side (ending_in session.now.state.phase)) (coming session.now.state side).pending) count
        (all_of W.contents output.old) (all_of W.contents output.new)) }
    ensures few { IfOk result (λ count. count ≤ 1) }
    ensures refused { IfErr result (IsFailedWrite W.Fails) }
    ensures same_writer { IsSameWriter output.old output.new }
{
    match part_of(session, side) {
        None => Ok(0),
        Some(part) => {
            put_part(number, side, part, output)?;
            Ok(1)
        }
    }
}

/// Returns a session's number, if the report shows it.
fn number_in(version: Version, number: u16) -> Option<u16>
    ensures { result ≡ number_of version number }
{
    match version {
        Version::Single => None,
        Version::Match => Some(number),
    }
}

/// Writes the lines for a session's incomplete frames, and returns their number.
fn put_session<A: Allocator, W: Sink>(
    session: &Session<A>,
    number: Option<u16>,
    output: &mut Output<'_, W>,
) -> Result<u32, Unreported>
    requires { IsIdle session.now }
    ensures text { IfOk result (λ count. HasPut (unfinished_parts number session.now.state) count
        (all_of W.contents output.old) (all_of W.contents output.new)) }
    ensures few { IfOk result (λ count. count ≤ 2) }
    ensures refused { IfErr result (IsFailedWrite W.Fails) }
    ensures same_writer { IsSameWriter output.old output.new }
{
    let bot = put_unfinished(session, number, Side::Bot, output)?;
    let server = put_unfinished(session, number, Side::Server, output)?;
    Ok(bot + server)
}

/// Writes the lines for all incomplete frames, and returns their number.
fn put_parts<A: Allocator, W: Sink>(
    version: Version,
    sessions: &[Session<A>],
    output: &mut Output<'_, W>,
) -> Result<u32, Unreported>
    requires few { length sessions.now ≤ most_sessions }
    requires idle { All IsIdle sessions.now }
    ensures text { IfOk result (λ count. HasPut (parts_from version 1 (states_of sessions.now)) count
        (all_of W.contents output.old) (all_of W.contents output.new)) }
    ensures few { IfOk result (λ count. count ≤ 2 * most_sessions + 2) }
    ensures refused { IfErr result (IsFailedWrite W.Fails) }
    ensures same_writer { IsSameWriter output.old output.new }
{
    let mut count = 0;
    let mut number = 1;
    let mut rest = sessions;
    'sessions: while let [session, more @ ..] = rest {
        count += put_session(session, number_in(version, number), output)?;
        number += 1;
        rest = more;
    }
    Ok(count)
}

/// Writes the line for a cut last line of the log, if it is cut. Returns how many lines were written.
fn put_cut<W: Sink>(cut: Option<u32>, output: &mut Output<'_, W>) -> Result<u32, Unreported>
    ensures text { IfOk result (λ count. (count ≡ cut_count cut)
        × Appends (all_of W.contents output.old) (all_of W.contents output.new) (cut_text cut)) }
    ensures few { IfOk result (λ count. count ≤ 1) }
    ensures refused { IfErr result (IsFailedWrite W.Fails) }
    ensures same_writer { IsSameWriter output.old output.new }
{
    let Some(number) = cut else {
        return Ok(0);
    };
    put_cut_line(number, output)?;
    Ok(1)
}

/// Writes the line for a cut last line of the log, and the lines for all incomplete frames. Returns their number.
fn put_rest<A: Allocator, W: Sink>(
    cut: Option<u32>,
    version: Version,
    sessions: &[Session<A>],
    output: &mut Output<'_, W>,
) -> Result<u32, Unreported>
    requires few { length sessions.now ≤ most_sessions }
    requires idle { All IsIdle sessions.now }
    ensures text { IfOk result (λ count.
        (count ≡ cut_count cut + length (parts_from version 1 (states_of sessions.now)))
        × Appends (all_of W.contents output.old) (all_of W.contents output.new)
        (cut_text cut ++ texts_of part_text (parts_from version 1 (states_of sessions.now)))) }
    ensures refused { IfErr result (IsFailedWrite W.Fails) }
    ensures same_writer { IsSameWriter output.old output.new }
{
    let cut_lines = put_cut(cut, output)?;
    let parts = put_parts(version, sessions, output)?;
    Ok(cut_lines + parts)
}

/// Returns whether a line of the log is a comment.
fn is_remark(line: &[u8]) -> bool
    ensures { result ≡ is_remark line.now }
{
    !line.is_empty() && line[0] == b'#'
}

/// Copies a comment from the log to the report.
fn put_remark<W: Sink>(comment: &[u8], output: &mut Output<'_, W>) -> Result<(), Unreported>
    ensures text { OnOk result (Appends (all_of W.contents output.old) (all_of W.contents output.new)
        (with_line_feed comment.now)) }
    ensures refused { IfErr result (IsFailedWrite W.Fails) }
    ensures same_writer { IsSameWriter output.old output.new }
{
    put_text(comment, output)?;
    put_byte(b'\n', output)
}

impl<B: Memory + Growth + Copy> Style for Explaining<B> {
    type Answer = Explained;

    ghost form = { λ words. explained words };

    ghost knows = { λ words style levels. levels ≡ style.announced };

    ghost refused = { WasRefused B.Refuses };

    fn explain<A: Allocator, W: Sink>(
        &mut self,
        head: &Preamble,
        session: &Session<A>,
        source: ReportKey,
        side: Side,
        reported: Note,
        output: &mut Output<'_, W>,
    ) -> Result<(), Unreported> {
        let announced = level_announced(&self.announced, source);
        let after = announced_after(session, side, reported, announced);
        record_level(&mut self.announced, source, after);
        if let Some(body) = message_alone(session, side, reported) {
            return put_message(&head.words, body, output);
        }
        self.text.clear();
        let Ok(()) = write_lines(head, session, announced, side, reported, &mut self.text) else {
            return Err(Unreported::Memory);
        };
        put_indented(self.text.as_slice(), output)
    }

    fn quote<W: Sink>(
        &mut self,
        _head: &Preamble,
        line: &[u8],
        output: &mut Output<'_, W>,
    ) -> Result<(), Unreported> {
        if is_remark(line) {
            return put_remark(line, output);
        }
        Ok(())
    }

    fn reads_cut(&self) -> bool {
        true
    }

    fn close<A: Allocator, W: Sink>(
        &mut self,
        head: &Preamble,
        sessions: &[Session<A>],
        summary: Summary,
        cut: Option<u32>,
        output: &mut Output<'_, W>,
    ) -> Result<Explained, Unreported> {
        let unfinished = put_rest(cut, head.version, sessions, output)?;
        Ok(Explained {
            counts: summary,
            unfinished,
            cut,
        })
    }

    ghost lawful = { explained_lawful };
}

/// Reads a log, and writes its report with explanations, as `explain_log` does. Each read is made in time, as for
/// `check_stream`, which also says what `refused` is.
pub fn explain_stream<A: Growth + Copy, R: LogReader, W: Sink>(
    alloc: A,
    reader: &mut R,
    writer: &mut W,
    refused: &mut Option<LineReason>,
) -> Result<Explained, LogFault>
    ensures answered { (words : List Word) × IsAnswered (explained words) (R.reader_view reader.old) (R.reader_view reader.new)
        (W.contents writer.old) (W.contents writer.new) result }
    ensures cause { IfErr result (HasCause R.Fails W.Fails (WasRefused A.Refuses)) }
{
    report_stream(alloc, &mut Explaining::new(alloc), reader, writer, refused)
}

/// Reads a log and writes its report with explanations.
///
/// The faults are those of `check_log`, in their order, but for two. `Memory` may also come while the lines are judged,
/// when a growth of a text is refused. And a last line after the head, without a line feed and without an allowed form,
/// is no fault: it is cut, as the record of a process that was killed may be. The report is that of the lines before
/// it, with a line for it (`IsReportBy`: `cut`). It judges at the log's own depth limit.
///
/// Not said: how much of the report was written after `Memory` and `Write`.
pub fn explain_log<A: Growth + Copy, R: Source, W: Sink>(
    alloc: A,
    reader: &mut R,
    writer: &mut W,
) -> Result<Explained, LogFault>
    ensures answered { (words : List Word) × IsAnswered (explained words) (silent (R.remaining reader.old))
        (silent (R.remaining reader.new)) (W.contents writer.old) (W.contents writer.new) result }
    ensures cause { IfErr result (HasCause R.Fails W.Fails (WasRefused A.Refuses)) }
{
    explain_stream(alloc, reader, writer, &mut None)
}
