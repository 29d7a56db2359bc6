//! The explanation as text.

ghost use Rattle.std.specs.Prelude.{◌≡◌, ◌≤◌, ◌*◌, ◌++◌, List, ℕ, option_map};
ghost use Rattle.std.specs.Prelude.{IsTrue, ◌↔◌, false, take, length, OnOk, OnErr};
ghost use Rattle.daide_causes.specs.Causes.{WasRefused};
ghost use Rattle.daide_token.specs.Token.{tokens_of};
ghost use Rattle.daide_grammar.specs.Depth.{open_brackets};
ghost use Rattle.daide_grammar.specs.Paired.{begins_with_prn};
ghost use Rattle.daide_grammar.specs.SideMessages.{IsMessageOver};
ghost use Rattle.daide_words.specs.Word.{grammar_words};
ghost use Rattle.daide_words.specs.Words.{words_of};
ghost use Rattle.daide_reader.specs.Verdict.{HasVerdict};
ghost use Rattle.daide_protocol.specs.Bounds.{longest_body, greatest_depth};
ghost use Rattle.daide_explain.specs.Explained.{IsExplained, IsUnpairedExplained, unpaired_line};
ghost use Rattle.daide_explain.specs.Explained.{AreElsewhere, IsPlaceCause, IsExpectedLine, IsPlaceExplained, IsTooDeepAt};
ghost use Rattle.daide_explain.specs.Explained.{brackets_in, class_items, end_item, expected_line, has_unknown, item};
ghost use Rattle.daide_explain.specs.Explained.{items, kind_name, level_line, other_side, side_line};

use crate::brackets::{Unpaired, find_unpaired};
use crate::expected::{is_end_expected, is_relayed};
use crate::levels::lowest_level;
use crate::listed::{OTHER, UNKNOWN, list_expected};
use crate::rules::Rules;
use crate::token_text::append_tokens;
use daide_causes::Growth;
use daide_grammar::{Level, Side2};
use daide_protocol::{MAX_DEPTH, STACK_ENTRIES};
use daide_reader::{Reader, Verdict};
use daide_token::{Class, Token, token_at};
use daide_words::{Extended, Words};
use std::alloc::AllocError;

/// Returns the name of a kind, a class of many tokens.
fn kind_name(class: Class) -> Option<&'static str>
    ensures { option_map (λ name. name.now) result ≡ kind_name class }
{
    match class {
        Class::Num => Some("<number>"),
        Class::Power => Some("<power>"),
        Class::Note => Some("<note>"),
        Class::Outcome => Some("<result>"),
        Class::Coast => Some("<coast>"),
        Class::Season => Some("<season>"),
        Class::Text => Some("<text>"),
        Class::Province => Some("<province>"),
        Class::Param => Some("<parameter>"),
        _ => None,
    }
}

/// Writes the item of a token's class: its kind, or the name of its only token.
fn write_item<A: Growth>(
    words: &Words,
    token: Token,
    text: &mut Vec<u8, A>,
) -> Result<(), AllocError>
    ensures text { OnOk result (text.new.items ≡ text.old.items ++ item (words_of words.now) token) }
    ensures refused { OnErr result (WasRefused A.Refuses) }
{
    if token.code() == OTHER {
        return A::append(text, b"<other>");
    }
    match kind_name(token.class()) {
        Some(name) => A::append(text, name.as_bytes()),
        None => append_tokens(words, &token.to_be(), text),
    }
}

/// Writes the items of some tokens' classes, with a space before each.
fn write_items<A: Growth>(
    words: &Words,
    tokens: &[Token],
    text: &mut Vec<u8, A>,
) -> Result<(), AllocError>
    ensures text { OnOk result (text.new.items ≡ text.old.items ++ items (words_of words.now) tokens.now) }
    ensures refused { OnErr result (WasRefused A.Refuses) }
{
    for token in tokens {
        A::append(text, b" ")?;
        write_item(words, *token, text)?;
    }
    Ok(())
}

/// Writes the items of the brackets among some tokens, with a space before each.
fn write_brackets<A: Growth>(
    words: &Words,
    tokens: &[Token],
    text: &mut Vec<u8, A>,
) -> Result<(), AllocError>
    ensures text { OnOk result (text.new.items ≡ text.old.items ++ items (words_of words.now) (brackets_in tokens.now)) }
    ensures refused { OnErr result (WasRefused A.Refuses) }
{
    for token in tokens {
        if token.is_bra() || token.is_ket() {
            A::append(text, b" ")?;
            write_item(words, *token, text)?;
        }
    }
    Ok(())
}

/// Returns whether a token of an unknown category is among some tokens.
fn has_unknown(tokens: &[Token]) -> bool
    ensures { result ≡ has_unknown tokens.now }
{
    tokens.iter().any(|token| token.code() == UNKNOWN)
}

/// Writes the items of the expected classes. If a token of an unknown category is expected, writes the brackets and
/// `<any>`.
fn write_classes<A: Growth>(
    words: &Words,
    tokens: &[Token],
    text: &mut Vec<u8, A>,
) -> Result<(), AllocError>
    ensures text { OnOk result (text.new.items ≡ text.old.items ++ class_items (words_of words.now) tokens.now) }
    ensures refused { OnErr result (WasRefused A.Refuses) }
{
    if has_unknown(tokens) {
        write_brackets(words, tokens, text)?;
        return A::append(text, b" <any>");
    }
    write_items(words, tokens, text)
}

/// Writes the item of the end, if it is expected, and the line feed.
fn write_end<A: Growth>(ends: bool, text: &mut Vec<u8, A>) -> Result<(), AllocError>
    ensures text { OnOk result (text.new.items ≡ text.old.items ++ end_item ends) }
    ensures refused { OnErr result (WasRefused A.Refuses) }
{
    if ends {
        return A::append(text, b" <end>\n");
    }
    A::append(text, b"\n")
}

/// Returns how many brackets the tokens of a body leave open.
fn open_before(rules: &Rules<'_>, before: &[u8]) -> usize
    requires { length before.now ≤ longest_body }
    ensures { result ≡ open_brackets (tokens_of before.now) }
{
    let _names = rules.words.names();
    let mut reader: Reader<Extended, STACK_ENTRIES> = Reader::new(
        Extended::new(*rules.words),
        MAX_DEPTH,
    );
    reader.start(rules.end, rules.level);
    reader.read(before);
    reader.open()
}

/// Writes the line of the expected items, or, if nothing is expected, the number of open brackets.
fn write_line<A: Growth>(
    rules: &Rules<'_>,
    before: &[u8],
    tokens: &[Token],
    ends: bool,
    text: &mut Vec<u8, A>,
) -> Result<(), AllocError>
    requires { length before.now ≤ longest_body }
    ensures text { OnOk result (text.new.items
        ≡ text.old.items ++ expected_line (words_of rules.now.words.now) (tokens_of before.now) tokens.now ends) }
    ensures refused { OnErr result (WasRefused A.Refuses) }
{
    if tokens.is_empty() && !ends {
        let open = open_before(rules, before);
        return A::append_text(text, format_args_nl!("too deep: {open} brackets are open"));
    }
    A::append(text, b"expected:")?;
    write_classes(rules.words, tokens, text)?;
    write_end(ends, text)
}

/// Writes the line of what is expected after the tokens of a body.
fn write_expected<A: Growth + Copy>(
    alloc: A,
    rules: &Rules<'_>,
    before: &[u8],
    text: &mut Vec<u8, A>,
) -> Result<(), AllocError>
    requires high { rules.now.max_depth ≤ greatest_depth }
    requires capped { length before.now ≤ longest_body }
    requires plain { begins_with_prn (tokens_of before.now) ≡ false }
    ensures text { OnOk result ((line : List ℕ) × IsExpectedLine (words_of rules.now.words.now)
        (IsMessageOver (grammar_words (words_of rules.now.words.now)) rules.now.end rules.now.level)
        rules.now.max_depth (tokens_of before.now) line
        × (text.new.items ≡ text.old.items ++ line)) }
    ensures refused { OnErr result (WasRefused A.Refuses) }
{
    let tokens = list_expected(alloc, rules, before)?;
    let ends = is_end_expected(rules, before);
    write_line(rules, before, tokens.as_slice(), ends, text)
}

/// Returns whether the token at a place of a body is BRA while `max_depth` brackets are open before it.
fn is_too_deep(rules: &Rules<'_>, body: &[u8], place: usize) -> bool
    requires capped { length body.now ≤ longest_body }
    requires within { 2 * place ≤ length body.now }
    ensures { IsTrue result ↔ IsTooDeepAt rules.now.max_depth (tokens_of body.now) place }
{
    if 2 * place + 1 >= body.len() {
        return false;
    }
    if !token_at(body, place).is_bra() {
        return false;
    }
    open_before(rules, &body[..2 * place]) == rules.max_depth as usize
}

/// Returns whether the message of a body begins with PRN.
fn begins_with_prn(body: &[u8]) -> bool
    ensures { result ≡ begins_with_prn (tokens_of body.now) }
{
    body.len() >= 2 && token_at(body, 0).is_prn()
}

/// Writes the line of an unpaired bracket; nothing if all are paired.
fn write_bracket<A: Growth>(unpaired: Unpaired, text: &mut Vec<u8, A>) -> Result<(), AllocError>
    ensures text { OnOk result (text.new.items ≡ text.old.items ++ unpaired_line unpaired) }
    ensures refused { OnErr result (WasRefused A.Refuses) }
{
    match unpaired {
        Unpaired::Ket(place) => A::append_text(text, format_args_nl!("unpaired: ) at {place}")),
        Unpaired::Bra(place) => A::append_text(text, format_args_nl!("unpaired: ( at {place}")),
        Unpaired::Nothing => Ok(()),
    }
}

/// Writes which bracket of a message is unpaired.
fn write_unpaired<A: Growth>(body: &[u8], text: &mut Vec<u8, A>) -> Result<(), AllocError>
    requires { length body.now ≤ longest_body }
    ensures text { OnOk result ((line : List ℕ) × IsUnpairedExplained (tokens_of body.now) line
        × (text.new.items ≡ text.old.items ++ line)) }
    ensures refused { OnErr result (WasRefused A.Refuses) }
{
    if begins_with_prn(body) {
        return A::append(text, b"unpaired: PRN\n");
    }
    write_bracket(find_unpaired(body), text)
}

/// Writes the level from which a message is relayed, if there is one.
fn write_level<A: Growth>(least: Option<Level>, text: &mut Vec<u8, A>) -> Result<(), AllocError>
    ensures text { OnOk result (text.new.items ≡ text.old.items ++ level_line least) }
    ensures refused { OnErr result (WasRefused A.Refuses) }
{
    let Some(higher) = least else {
        return Ok(());
    };
    let number = higher.number();
    A::append_text(text, format_args_nl!("relayed from level {number}"))
}

/// Returns the other side.
fn other_side(end: Side2) -> Side2
    ensures { result ≡ other_side end }
{
    match end {
        Side2::Client => Side2::ServerEnd,
        Side2::ServerEnd => Side2::Client,
    }
}

/// Writes that a message is relayed as the other side's, if it is.
#[tactic(auto, unfolding(crate::specs::Explained::side_line))]
fn write_side<A: Growth>(end: Side2, other: bool, text: &mut Vec<u8, A>) -> Result<(), AllocError>
    ensures text { OnOk result (text.new.items ≡ text.old.items ++ side_line end other) }
    ensures refused { OnErr result (WasRefused A.Refuses) }
{
    if !other {
        return Ok(());
    }
    match end {
        Side2::Client => A::append(text, b"relayed with --side server\n"),
        Side2::ServerEnd => A::append(text, b"relayed with --side bot\n"),
    }
}

/// Writes the level from which a message is relayed, and whether it is relayed as the other side's.
fn write_elsewhere<A: Growth>(
    rules: &Rules<'_>,
    body: &[u8],
    text: &mut Vec<u8, A>,
) -> Result<(), AllocError>
    requires high { rules.now.max_depth ≤ greatest_depth }
    requires capped { length body.now ≤ longest_body }
    ensures text { OnOk result ((lines : List ℕ) × AreElsewhere (words_of rules.now.words.now) rules.now.end
        rules.now.level rules.now.max_depth (tokens_of body.now) lines
        × (text.new.items ≡ text.old.items ++ lines)) }
    ensures refused { OnErr result (WasRefused A.Refuses) }
{
    let other = Rules {
        words: rules.words,
        end: other_side(rules.end),
        level: rules.level,
        max_depth: rules.max_depth,
    };
    let least = lowest_level(rules, body);
    let is_other = is_relayed(&other, body);
    write_level(least, text)?;
    write_side(rules.end, is_other, text)
}

/// Writes the line for the error place of a message.
fn write_cause<A: Growth + Copy>(
    alloc: A,
    rules: &Rules<'_>,
    place: usize,
    body: &[u8],
    text: &mut Vec<u8, A>,
) -> Result<(), AllocError>
    requires high { rules.now.max_depth ≤ greatest_depth }
    requires capped { length body.now ≤ longest_body }
    requires within { 2 * place ≤ length body.now }
    requires plain { begins_with_prn (tokens_of (take (2 * place) body.now)) ≡ false }
    ensures text { OnOk result ((line : List ℕ) × IsPlaceCause (words_of rules.now.words.now) rules.now.end rules.now.level
        rules.now.max_depth (tokens_of body.now) place line
        × (text.new.items ≡ text.old.items ++ line)) }
    ensures refused { OnErr result (WasRefused A.Refuses) }
{
    if is_too_deep(rules, body, place) {
        return A::append_text(text, format_args_nl!("too deep: ( at {place}"));
    }
    write_expected(alloc, rules, &body[..2 * place], text)
}

/// Writes what is wrong at the error place of a message, and the other level or side with which it is relayed.
fn write_place<A: Growth + Copy>(
    alloc: A,
    rules: &Rules<'_>,
    place: usize,
    body: &[u8],
    text: &mut Vec<u8, A>,
) -> Result<(), AllocError>
    requires high { rules.now.max_depth ≤ greatest_depth }
    requires capped { length body.now ≤ longest_body }
    requires within { 2 * place ≤ length body.now }
    requires plain { begins_with_prn (tokens_of (take (2 * place) body.now)) ≡ false }
    ensures text { OnOk result ((lines : List ℕ) × IsPlaceExplained (words_of rules.now.words.now) rules.now.end
        rules.now.level rules.now.max_depth (tokens_of body.now) place lines
        × (text.new.items ≡ text.old.items ++ lines)) }
    ensures refused { OnErr result (WasRefused A.Refuses) }
{
    write_cause(alloc, rules, place, body, text)?;
    write_elsewhere(rules, body, text)
}

/// Appends the lines that explain the verdict on the message of a body; none if it is relayed. The only error is that
/// the allocator refused memory (`refused`).
///
/// `expected` lists what may come at an error place. `relayed from level N` names the least higher level whose grammar
/// relays the message, and is missing if there is none. `relayed with --side SIDE` is written if and only if the other
/// side's grammar relays the message at this level. `unpaired: ) at I` names the first KET that closes no bracket, and
/// `unpaired: ( at I` the first BRA that no KET closes.
///
/// Not said: how long it takes. It reads a message up to its error place once for each class of tokens, and the whole
/// message once for each level. No session does that: no crate of a session or of the loop of a run uses
/// `daide_explain`.
pub fn write_explained<A: Growth + Copy>(
    alloc: A,
    rules: &Rules<'_>,
    verdict: Verdict,
    body: &[u8],
    text: &mut Vec<u8, A>,
) -> Result<(), AllocError>
    requires high { rules.now.max_depth ≤ greatest_depth }
    requires capped { length body.now ≤ longest_body }
    requires verdict { HasVerdict (IsMessageOver (grammar_words (words_of rules.now.words.now)) rules.now.end
        rules.now.level) rules.now.max_depth (tokens_of body.now) verdict }
    ensures text { OnOk result ((lines : List ℕ) × IsExplained (words_of rules.now.words.now) rules.now.end
        rules.now.level rules.now.max_depth (tokens_of body.now) verdict lines
        × (text.new.items ≡ text.old.items ++ lines)) }
    ensures refused { OnErr result (WasRefused A.Refuses) }
{
    match verdict {
        Verdict::Relay => Ok(()),
        Verdict::Prn => write_unpaired(body, text),
        Verdict::Huh(place) => write_place(alloc, rules, place as usize, body, text),
    }
}
