//! The tokens expected after a prefix, one of each class, in printing order.

ghost use Rattle.std.specs.Prelude.{◌≡◌, ◌≤◌, ◌++◌, false, List, ℕ, length, IfOk, OnOk, OnErr};
ghost use Rattle.daide_causes.specs.Causes.{WasRefused};
ghost use Rattle.daide_token.specs.Token.{tokens_of};
ghost use Rattle.daide_grammar.specs.Paired.{begins_with_prn};
ghost use Rattle.daide_grammar.specs.SideMessages.{IsMessageOver};
ghost use Rattle.daide_words.specs.Word.{grammar_words, names_of};
ghost use Rattle.daide_words.specs.Words.{words_of};
ghost use Rattle.daide_protocol.specs.Bounds.{longest_body, greatest_depth};
ghost use Rattle.daide_explain.specs.Expected.{IsExpected};
ghost use Rattle.daide_explain.specs.Listed.{IsFilteredBy, IsAppendedIf, codes_of, representatives};

use crate::expected::is_expected;
use crate::rules::Rules;
use daide_causes::Growth;
use daide_token::Token;
use std::alloc::AllocError;

/// A token of each listed class, in printing order: first the kinds, then the tokens that are alone in their class, by
/// code.
#[rattlefmt::skip]
const LISTED: [u16; 77] = [
    0x0000, 0x4000, 0x4001, 0x4100, 0x4400, 0x4500, 0x4600, 0x4700, 0x4B61, 0x5000, 0x4900,
    0x4200, 0x4201,
    0x4320, 0x4321, 0x4322, 0x4323, 0x4324, 0x4325, 0x4340, 0x4341, 0x4380, 0x4381, 0x4382,
    0x4800, 0x4801, 0x4802, 0x4803, 0x4804, 0x4805, 0x4806, 0x4807, 0x4808, 0x4809, 0x480A, 0x480B,
    0x480C, 0x480D, 0x480E, 0x480F, 0x4810, 0x4811, 0x4812, 0x4813, 0x4814, 0x4815, 0x4816, 0x4817,
    0x4818, 0x4819, 0x481A, 0x481B, 0x481C, 0x481D, 0x481E,
    0x4903, 0x4904, 0x490B,
    0x4A00, 0x4A01, 0x4A02, 0x4A03, 0x4A06, 0x4A0A, 0x4A0C, 0x4A0E, 0x4A0F, 0x4A10, 0x4A13, 0x4A14,
    0x4A15, 0x4A16, 0x4A17, 0x4A18, 0x4A1A, 0x4A1C, 0x4A1F,
];

/// An unlisted token of a known category.
pub(crate) const OTHER: u16 = 0x4002;

/// A token of an unknown category.
pub(crate) const UNKNOWN: u16 = 0x5800;

/// The tokens of classes that are not listed.
const UNLISTED: [u16; 2] = [OTHER, UNKNOWN];

/// Appends a token if it is expected after the tokens of a body.
fn append_if_expected<A: Growth>(
    rules: &Rules<'_>,
    before: &[u8],
    token: Token,
    tokens: &mut Vec<Token, A>,
) -> Result<(), AllocError>
    requires high { rules.now.max_depth ≤ greatest_depth }
    requires capped { length before.now ≤ longest_body }
    requires plain { begins_with_prn (tokens_of before.now) ≡ false }
    ensures appended { OnOk result (IsAppendedIf (IsExpected
        (IsMessageOver (grammar_words (words_of rules.now.words.now)) rules.now.end rules.now.level)
        rules.now.max_depth (tokens_of before.now)) token tokens.old.items tokens.new.items) }
    ensures refused { OnErr result (WasRefused A.Refuses) }
{
    if is_expected(rules, before, token) {
        A::append(tokens, &[token])?;
    }
    Ok(())
}

/// Appends those of the codes' tokens that are expected.
fn append_codes<A: Growth>(
    rules: &Rules<'_>,
    before: &[u8],
    codes: &[u16],
    tokens: &mut Vec<Token, A>,
) -> Result<(), AllocError>
    requires high { rules.now.max_depth ≤ greatest_depth }
    requires capped { length before.now ≤ longest_body }
    requires plain { begins_with_prn (tokens_of before.now) ≡ false }
    ensures filtered { OnOk result ((done : List ℕ) →
        let expected = IsExpected
        (IsMessageOver (grammar_words (words_of rules.now.words.now)) rules.now.end rules.now.level)
        rules.now.max_depth (tokens_of before.now) in
        IsFilteredBy expected done tokens.old.items → IsFilteredBy expected (done ++ codes.now) tokens.new.items) }
    ensures refused { OnErr result (WasRefused A.Refuses) }
{
    for code in codes {
        append_if_expected(rules, before, Token::from_code(*code), tokens)?;
    }
    Ok(())
}

/// Appends the operator's words that are expected.
fn append_words<A: Growth>(
    rules: &Rules<'_>,
    before: &[u8],
    tokens: &mut Vec<Token, A>,
) -> Result<(), AllocError>
    requires high { rules.now.max_depth ≤ greatest_depth }
    requires capped { length before.now ≤ longest_body }
    requires plain { begins_with_prn (tokens_of before.now) ≡ false }
    ensures filtered { OnOk result ((done : List ℕ) →
        let expected = IsExpected
        (IsMessageOver (grammar_words (words_of rules.now.words.now)) rules.now.end rules.now.level)
        rules.now.max_depth (tokens_of before.now) in
        IsFilteredBy expected done tokens.old.items →
        IsFilteredBy expected (done ++ codes_of (names_of (words_of rules.now.words.now))) tokens.new.items) }
    ensures refused { OnErr result (WasRefused A.Refuses) }
{
    for named in rules.words.names() {
        append_if_expected(rules, before, named.0, tokens)?;
    }
    Ok(())
}

/// Returns a token of each class that is expected after the tokens of a body, in order. A token is expected if a
/// message begins with these tokens and then it, and they open no bracket too many (`IsExpected`).
pub fn list_expected<A: Growth>(
    alloc: A,
    rules: &Rules<'_>,
    before: &[u8],
) -> Result<Vec<Token, A>, AllocError>
    requires high { rules.now.max_depth ≤ greatest_depth }
    requires capped { length before.now ≤ longest_body }
    requires plain { begins_with_prn (tokens_of before.now) ≡ false }
    ensures listed { IfOk result (λ tokens. IsFilteredBy (IsExpected
        (IsMessageOver (grammar_words (words_of rules.now.words.now)) rules.now.end rules.now.level)
        rules.now.max_depth (tokens_of before.now)) (representatives (words_of rules.now.words.now)) tokens.items) }
    ensures refused { OnErr result (WasRefused A.Refuses) }
{
    let mut tokens = Vec::new(alloc);
    append_codes(rules, before, &LISTED, &mut tokens)?;
    append_words(rules, before, &mut tokens)?;
    append_codes(rules, before, &UNLISTED, &mut tokens)?;
    Ok(tokens)
}
