//! The level of press that a server's HLO sets, found as its tokens arrive.
//!
//! The options are at the end of an HLO, and a reader keeps no token. So this module keeps what matters of the tokens
//! so far, in a value of fixed size. It examines each token once, on arrival. It examines none after the number is
//! found or after the first token of a message other than an HLO.

ghost use Rattle.std.specs.Prelude.{◌≡◌, ℕ, ◌+◌, ◌-◌, ◌*◌, ◌/◌, ◌%◌, ◌^◌, ◌≤◌, true, List, [], ◌∷◌, ◌++◌, length, take};
ghost use Rattle.daide_token.specs.Token.{tokens_of};
ghost use Rattle.daide_reader.specs.Bounds.{longest_message};
ghost use Rattle.daide_reader.specs.Reading.{IsRaised};
ghost use Rattle.daide_protocol.specs.HloLevel.{option_number as number_of_option, lvl_scan_of};
ghost use Rattle.daide_protocol.specs.HloLevel.{level_reported as level_of_message};

use daide_grammar::Level;
use daide_token::{BRA, HLO, KET, LVL, Token, token_at};

/// What was found in the tokens of a message so far.
#[derive(Clone, Copy)]
pub enum LvlScan {
    /// There was no token yet.
    NoToken,
    /// The message is not an HLO.
    NoHlo,
    /// An HLO without an option `( LVL n )` so far: its last three tokens, with 0 for a missing one.
    NoNumber(Token, Token, Token),
    /// The number of the first option `( LVL n )` of an HLO.
    Number(i16),
}

/// Returns the number of an option `( LVL n )` if the four tokens are one.
fn option_number(first: Token, word: Token, number: Token, last: Token) -> Option<i16>
    ensures { result ≡ number_of_option (first ∷ word ∷ number ∷ last ∷ []) }
{
    if first.code() == BRA && word.code() == LVL && last.code() == KET {
        return number.number();
    }
    None
}

impl LvlScan {
    /// Returns true only if no further token of the message can change what was found.
    fn is_settled(self) -> bool
        ensures { result ≡ true → (tokens more : List ℕ) → self ≡ lvl_scan_of tokens → self ≡ lvl_scan_of (tokens ++ more) }
    {
        match self {
            LvlScan::NoToken | LvlScan::NoNumber(..) => false,
            LvlScan::NoHlo | LvlScan::Number(_) => true,
        }
    }

    /// Returns what is found after one more token.
    #[inline(always)]
    fn with(self, token: Token) -> LvlScan
        ensures { (tokens : List ℕ) → self ≡ lvl_scan_of tokens → result ≡ lvl_scan_of (tokens ++ token ∷ []) }
    {
        match self {
            LvlScan::NoToken => {
                if token.code() == HLO {
                    return LvlScan::NoNumber(Token::from_code(0), Token::from_code(0), token);
                }
                LvlScan::NoHlo
            }
            LvlScan::NoNumber(third, second, last) => {
                match option_number(third, second, last, token) {
                    Some(number) => LvlScan::Number(number),
                    None => LvlScan::NoNumber(second, last, token),
                }
            }
            LvlScan::NoHlo | LvlScan::Number(_) => self,
        }
    }
}

/// Scans an HLO as its tokens arrive, and counts the tokens examined in all messages, modulo 2^64.
#[derive(Drop)]
pub struct HloScan {
    found: LvlScan,
    looked_at: u64,
}

impl HloScan {
    /// Creates a scan with no token examined.
    pub fn new() -> HloScan
        ensures found { result.found ≡ lvl_scan_of [] }
        ensures looked_at { result.looked_at ≡ 0 }
    {
        HloScan {
            found: LvlScan::NoToken,
            looked_at: 0,
        }
    }

    /// Begins a message.
    pub fn start(&mut self)
        ensures found { self.new.found ≡ lvl_scan_of [] }
        ensures looked_at { self.new.looked_at ≡ self.old.looked_at }
    {
        self.found = LvlScan::NoToken;
    }

    /// Returns what was found in the tokens of the message so far.
    pub fn found(&self) -> LvlScan
        ensures { result ≡ self.now.found }
    {
        self.found
    }

    /// Returns how many tokens were examined in all messages, modulo 2^64.
    pub fn looked_at(&self) -> u64
        ensures { result ≡ self.now.looked_at }
    {
        self.looked_at
    }

    /// Examines the next token, and counts it.
    #[inline(always)]
    fn look(&mut self, token: Token)
        ensures found { (tokens : List ℕ) → self.old.found ≡ lvl_scan_of tokens →
            self.new.found ≡ lvl_scan_of (tokens ++ token ∷ []) }
        ensures looked_at { self.new.looked_at ≡ (self.old.looked_at + 1) % 2 ^ 64 }
    {
        self.found = self.found.with(token);
        self.looked_at = self.looked_at.wrapping_add(1);
    }

    /// Examines the tokens of a body from index `from` on, each once. The tokens before `from` were passed in earlier
    /// calls.
    fn read_on(&mut self, body: &[u8], from: usize)
        requires came_before { 2 * from ≤ length body.now }
        requires short { length body.now ≤ longest_message }
        ensures found { self.old.found ≡ lvl_scan_of (tokens_of (take (2 * from) body.now)) →
            self.new.found ≡ lvl_scan_of (tokens_of body.now) }
        ensures looked_at { IsRaised (length body.now / 2 - from) self.old.looked_at self.new.looked_at }
    {
        for i in from..body.len() / 2 {
            if self.found.is_settled() {
                return;
            }
            self.look(token_at(body, i));
        }
    }

    /// Looks at the tokens of a body from the token `from` on, each once; those before it were looked at before. An odd
    /// byte at the end waits for its other half. The first token decides whether the message is an HLO.
    ///
    /// `found`: what is found is that of all tokens so far (`lvl_scan_of`); from it `level_reported` computes the
    /// level.
    ///
    /// `looked_at`: each token that is looked at is counted, modulo 2^64.
    #[inline(always)]
    pub fn read(&mut self, body: &[u8], from: usize)
        requires came_before { 2 * from ≤ length body.now }
        requires short { length body.now ≤ longest_message }
        ensures found { self.old.found ≡ lvl_scan_of (tokens_of (take (2 * from) body.now)) →
            self.new.found ≡ lvl_scan_of (tokens_of body.now) }
        ensures looked_at { IsRaised (length body.now / 2 - from) self.old.looked_at self.new.looked_at }
    {
        if let LvlScan::NoToken = self.found
            && from < body.len() / 2
        {
            let first = token_at(body, from);
            if first.code() != HLO {
                self.look(first);
                return;
            }
        }
        self.read_on(body, from);
    }
}

/// Returns the level after a relayed message of the server, by what its tokens contain: an HLO sets it, to at most
/// `top`.
#[inline(always)]
pub fn level_reported(top: Level, found: LvlScan, level: Level) -> Level
    ensures { (tokens : List ℕ) → found ≡ lvl_scan_of tokens → result ≡ level_of_message top tokens level }
{
    match found {
        LvlScan::NoToken | LvlScan::NoHlo => level,
        LvlScan::NoNumber(..) => Level::L0,
        LvlScan::Number(number) => Level::of_lvl(number, top),
    }
}
