//! The reader of the messages from one peer, token by token.
//!
//! At a token that no message continues, it records the index and drops the stack. It counts brackets to the end, since
//! the verdict on an unpaired message is PRN, whatever its error place.

ghost use Rattle.std.specs.Prelude.{◌≡◌, ◌≤◌, ◌<◌, ◌+◌, ◌-◌, ◌*◌, ◌/◌, ◌++◌, [], ◌∷◌, List, ℕ, Option, None, Some, MatchOption, IsSome, ◌⊎◌, false, true, length, take};
ghost use Rattle.daide_token.specs.Token.{tokens_of};
ghost use Rattle.daide_grammar.specs.declared.symbol.Sym.{Sym};
ghost use Rattle.daide_grammar.specs.Depth.{open_brackets};
ghost use Rattle.daide_grammar.specs.Bounds.{cells_bound, entries_bound, most_steps, message_steps};
ghost use Rattle.daide_grammar.specs.Paired.{begins_with_prn};
ghost use Rattle.daide_grammar.specs.Words.{Words};
ghost use Rattle.daide_reader.specs.Bounds.{longest_message, most_symbols, most_tokens};
ghost use Rattle.daide_reader.specs.ViablePrefix.{IsMessageOf};
ghost use Rattle.daide_reader.specs.ErrorPlace.{AreAllowed};
ghost use Rattle.daide_reader.specs.Verdict.{HasVerdict};
ghost use Rattle.daide_reader.specs.Outline.{IsOutlineOf};
ghost use Rattle.daide_reader.specs.LookUps.{look_ups_for};
ghost use Rattle.daide_reader.specs.Reading.{HasErrorIndex, HasReadPrefix, IsSettled, IsRaised, tokens_read, brackets_open, steps_since};
ghost use Rattle.daide_reader.specs.declared.verdict.Verdict.TheVariants.{Prn};

use crate::brackets::are_open;
use crate::outline::Outline;
use crate::parse_stack::ParseStack;
use crate::slice::{count_from, place_behind};
use crate::stack::may_all_end;
use crate::verdict::Verdict;
use daide_grammar::level::Level;
use daide_grammar::predict::Predict;
use daide_grammar::side::Side2;
use daide_grammar::symbol::Symbol;
use daide_token::token::Token;
use std::marker::Model;

/// Reads messages as their tokens arrive, over a table `T` and with room for `N` symbols.
///
/// A message begins with `start`, continues with `push` for each token, or `read` for each piece of its body, and ends
/// with `finish`. A contract sees a reader as a `Reading`, and `HasReadPrefix` says which tokens it has read since
/// `start`. The laws of `Predict` are the only premise, so a reader is right over any table. No call allocates.
#[derive(Drop)]
pub struct Reader<T: Predict, const N: usize> {
    max_depth: u16,
    stack: ParseStack<Symbol, N>,
    outline: Outline,
    unclosed: Option<u16>,
    place: Option<u16>,
    asked_before: u64,
    finished: bool,
    table: T,
}

impl<T: Predict, const N: usize> Model for Reader<T, N> {
    ghost use Rattle.std.specs.Prelude.{reverse};
    ghost use Rattle.daide_reader.specs.Reading.{Reading, IsSteady};

    ghost Value = { Reading T };

    ghost view = { λ r. record {
      table = r.table;
      max_depth = r.max_depth;
      stack = reverse r.stack;
      outline = r.outline;
      unclosed = r.unclosed;
      place = r.place;
      asked_before = r.asked_before;
      finished = r.finished;
    } };

    ghost invariant = { λ r.
        IsSteady (T.lawful (T.words r.table)) N r.max_depth (reverse r.stack) r.outline r.unclosed r.place };
}

impl<T: Predict, const N: usize> Reader<T, N> {
    /// Creates a reader that has read nothing, as after `start(Side2::Client, Level::L0)`. It refuses messages deeper
    /// than `max_depth` brackets.
    pub fn new(table: T, max_depth: u16) -> Reader<T, N>
        requires high { cells_bound max_depth ≤ N }
        requires size { N ≤ most_symbols }
        ensures stands_after { HasReadPrefix T.Predict (T.words table) (T.start_symbol Side2.Client Level.L0)
            max_depth result [] }
        ensures table { result.table ≡ table }
        ensures base { result.asked_before ≡ T.asked table }
        ensures unfinished { result.finished ≡ false }
    {
        let first = table.start(Side2::Client, Level::L0);
        let asked_before = table.asked();
        let mut stack = ParseStack::new(Symbol::closing());
        stack.push(first);
        Reader {
            table,
            max_depth,
            stack,
            outline: Outline::empty(),
            unclosed: Some(0),
            place: None,
            asked_before,
            finished: false,
        }
    }

    /// Begins a message of the side at the level, and forgets the tokens read before. The table, its words and its
    /// count stay.
    pub fn start(&mut self, side: Side2, level: Level)
        ensures stands_after { HasReadPrefix T.Predict (T.words self.old.table) (T.start_symbol side level)
            self.old.max_depth self.new [] }
        ensures table { self.new.table ≡ self.old.table }
        ensures base { self.new.asked_before ≡ T.asked self.old.table }
        ensures unfinished { self.new.finished ≡ false }
    {
        let first = self.table.start(side, level);
        self.asked_before = self.total();
        self.stack.clear();
        self.stack.push(first);
        self.outline = Outline::empty();
        self.unclosed = Some(0);
        self.place = None;
        self.finished = false;
    }

    /// Reads a token, by the same code that reads a body. A message has at most 32,767 tokens, which `tokens` counts.
    ///
    /// `unasked`: it makes no look-up once a place was found or the message began with PRN. Neither do `read` and
    /// `finish` then, nor does `finish` if the message is not paired.
    pub fn push(&mut self, token: Token)
        requires room { tokens_read self.old < most_tokens }
        requires unfinished { self.old.finished ≡ false }
        ensures stands_after { (words : Words) (first : Sym) (max_depth : ℕ) (p : List ℕ) →
            HasReadPrefix T.Predict words first max_depth self.old p →
            HasReadPrefix T.Predict words first max_depth self.new (p ++ token ∷ []) }
        ensures tokens { tokens_read self.new ≡ tokens_read self.old + 1 }
        ensures words { T.words self.new.table ≡ T.words self.old.table }
        ensures depth { self.new.max_depth ≡ self.old.max_depth }
        ensures base { self.new.asked_before ≡ self.old.asked_before }
        ensures raised { IsRaised most_steps (T.asked self.old.table) (T.asked self.new.table) }
        ensures unasked { IsSettled self.old → self.new.table ≡ self.old.table }
        ensures unfinished { self.new.finished ≡ false }
    {
        let mut outline = self.outline;
        outline.add(token);
        let body = token.to_be();
        self.go_on(outline, &body);
    }

    /// Reads the tokens of a body that were not read yet, each once and in order. The body begins with the bytes read
    /// before. A token is two bytes, high byte first, and an odd byte at the end waits for its other half. Without a
    /// whole token more nothing changes. A body has at most 65,534 bytes.
    pub fn read(&mut self, body: &[u8])
        requires unfinished { self.old.finished ≡ false }
        requires read_before { 2 * tokens_read self.old ≤ length body.now }
        requires room { length body.now ≤ longest_message }
        ensures stands_after { (words : Words) (first : Sym) (max_depth : ℕ) →
            HasReadPrefix T.Predict words first max_depth self.old
            (tokens_of (take (2 * tokens_read self.old) body.now)) →
            HasReadPrefix T.Predict words first max_depth self.new (tokens_of body.now) }
        ensures unchanged { tokens_read self.old ≡ length body.now / 2 → self.new ≡ self.old }
        ensures tokens { tokens_read self.new ≡ length body.now / 2 }
        ensures words { T.words self.new.table ≡ T.words self.old.table }
        ensures depth { self.new.max_depth ≡ self.old.max_depth }
        ensures base { self.new.asked_before ≡ self.old.asked_before }
        ensures raised { IsRaised (most_steps * (length body.now / 2 - tokens_read self.old)) (T.asked self.old.table)
            (T.asked self.new.table) }
        ensures unasked { IsSettled self.old → self.new.table ≡ self.old.table }
        ensures unfinished { self.new.finished ≡ false }
    {
        let read = self.outline.tokens as usize;
        if read == body.len() / 2 {
            return;
        }
        let outline = self.outline.on(body);
        self.go_on(outline, &body[2 * read..]);
    }

    /// Reads the next tokens, as a body of their own. `outline` is the outline of all tokens including them.
    #[inline(always)]
    fn go_on(&mut self, outline: Outline, body: &[u8])
        requires unfinished { self.old.finished ≡ false }
        requires bytes { length body.now ≤ longest_message }
        requires some { 2 ≤ length body.now }
        requires tokens { outline.tokens ≡ tokens_read self.old + length body.now / 2 }
        requires room { outline.tokens ≤ most_tokens }
        requires plain { outline.is_prn ≡ false → self.old.outline.is_prn ≡ false }
        ensures stands_after { (words : Words) (first : Sym) (max_depth : ℕ) (p : List ℕ) →
            IsOutlineOf outline (p ++ tokens_of body.now) →
            HasReadPrefix T.Predict words first max_depth self.old p →
            HasReadPrefix T.Predict words first max_depth self.new (p ++ tokens_of body.now) }
        ensures tokens { tokens_read self.new ≡ outline.tokens }
        ensures words { T.words self.new.table ≡ T.words self.old.table }
        ensures depth { self.new.max_depth ≡ self.old.max_depth }
        ensures base { self.new.asked_before ≡ self.old.asked_before }
        ensures raised { IsRaised (most_steps * (length body.now / 2)) (T.asked self.old.table) (T.asked self.new.table) }
        ensures unasked { IsSettled self.old → self.new.table ≡ self.old.table }
        ensures unfinished { self.new.finished ≡ false }
    {
        let before = self.outline.tokens;
        self.outline = outline;
        if outline.is_prn {
            self.stack.clear();
            return;
        }
        if self.place.is_some() {
            self.unclosed = count_from(self.unclosed, body, 0);
            return;
        }
        let open = self.unclosed.unwrap_or(0);
        let reached = self
            .stack
            .read_tokens(&mut self.table, body, open, self.max_depth);
        self.place = place_behind(before, reached.place);
        self.unclosed = count_from(reached.unclosed, body, reached.tokens);
    }

    /// Ends the message, and returns its verdict.
    ///
    /// `verdict`: after the tokens m it is `Prn` if and only if m is not paired. It is `Relay` if and only if m is
    /// paired, a message, and no deeper than `max_depth`. Else it is `Huh(i)` with the least i such that the first i +
    /// 1 tokens are continued by no message or are too deep. If the message merely stops early, i is its length.
    #[inline(always)]
    pub fn finish(&mut self) -> Verdict
        requires { self.old.finished ≡ false }
        ensures verdict { (words : Words) (first : Sym) (max_depth : ℕ) (m : List ℕ) →
            HasReadPrefix T.Predict words first max_depth self.old m →
            HasVerdict (IsMessageOf (T.language words first)) max_depth m result }
        ensures stands_after { (words : Words) (first : Sym) (max_depth : ℕ) (m : List ℕ) →
            HasReadPrefix T.Predict words first max_depth self.old m →
            HasReadPrefix T.Predict words first max_depth self.new m }
        ensures words { T.words self.new.table ≡ T.words self.old.table }
        ensures depth { self.new.max_depth ≡ self.old.max_depth }
        ensures base { self.new.asked_before ≡ self.old.asked_before }
        ensures raised { IsRaised most_steps (T.asked self.old.table) (T.asked self.new.table) }
        ensures unasked { IsSettled self.old ⊎ (result ≡ Prn) → self.new.table ≡ self.old.table }
        ensures finished { self.new.finished ≡ true }
    {
        self.finished = true;
        if self.outline.is_prn {
            if self.outline.has_outer_brackets() {
                return Verdict::Relay;
            }
            return Verdict::Prn;
        }
        if !are_open(self.unclosed, 0) {
            return Verdict::Prn;
        }
        if let Some(place) = self.place {
            return Verdict::Huh(place);
        }
        if !may_all_end(&mut self.table, &self.stack) {
            return Verdict::Huh(self.outline.tokens);
        }
        Verdict::Relay
    }

    /// Returns the number of tokens that were read since the last `start`.
    pub fn tokens(&self) -> usize
        ensures { result ≡ tokens_read self.now }
    {
        self.outline.tokens as usize
    }

    /// Returns how many brackets are open: 0 in a message that begins with PRN, and 0 once a KET closed no bracket.
    pub fn open(&self) -> usize
        ensures exact { result ≡ brackets_open self.now }
        ensures open { (words : Words) (first : Sym) (max_depth : ℕ) (p : List ℕ) →
            HasReadPrefix T.Predict words first max_depth self.now p → result ≡ open_brackets p }
    {
        self.unclosed.unwrap_or(0) as usize
    }

    /// Returns the place of the first token that no message continues or that opens one bracket too many, if one was
    /// read. Without one, every prefix of the tokens is allowed.
    ///
    /// Not said: anything of a message that begins with PRN.
    pub fn place(&self) -> Option<u16>
        ensures exact { result ≡ self.now.place }
        ensures place { (words : Words) (first : Sym) (max_depth : ℕ) (p : List ℕ) → begins_with_prn p ≡ false →
            HasReadPrefix T.Predict words first max_depth self.now p →
            MatchOption result (AreAllowed (IsMessageOf (T.language words first)) max_depth p)
            (HasErrorIndex (T.language words first) max_depth p) }
    {
        self.place
    }

    /// Returns how many symbols the stack has.
    ///
    /// `entries`: at most eight for each open bracket, plus sixteen. So it is at most `entries_bound max_depth`.
    ///
    /// `empty_once_placed`: it is 0 once a place was found.
    pub fn entries(&self) -> usize
        ensures exact { result ≡ length self.now.stack }
        ensures few { result ≤ entries_bound (brackets_open self.now) }
        ensures at_most { result ≤ entries_bound self.now.max_depth }
        ensures entries { (words : Words) (first : Sym) (max_depth : ℕ) (p : List ℕ) →
            HasReadPrefix T.Predict words first max_depth self.now p → result ≤ entries_bound (open_brackets p) }
        ensures empty_once_placed { IsSome self.now.place → result ≡ 0 }
    {
        self.stack.len()
    }

    /// Returns the table that `new` received, the only one that the reader has.
    pub fn table(&self) -> &T
        ensures { result.now ≡ self.now.table }
    {
        &self.table
    }

    /// Returns the table's count of look-ups, modulo 2^64. Only `push`, `read`, `finish` and `read_body` raise it,
    /// by at most four for each token and four at the end, whatever was read before.
    pub fn total(&self) -> u64
        ensures { result ≡ T.asked self.now.table }
    {
        self.table.asked()
    }

    /// Returns the number of the table's look-ups since the last `start`.
    ///
    /// `steps`: at most four for each token, and four more after `finish`.
    ///
    /// `once`: each token is read once and in order, and none after the one at which the reader stops (`look_ups_for`). A
    /// token takes one look-up for each symbol that it skips, at most two, and one for the symbol that takes or stops it.
    /// Only an operator's word, and the token at which the reader stops, take one more, of `predict_word`. The end takes
    /// one for each symbol, up to the first that is not nullable. A message that begins with PRN takes none.
    ///
    /// Not said: how long an answer takes.
    pub fn steps(&self) -> u64
        ensures exact { result ≡ steps_since T.asked self.now }
        ensures steps { (words : Words) (first : Sym) (max_depth : ℕ) (p : List ℕ) →
            HasReadPrefix T.Predict words first max_depth self.now p →
            result ≤ message_steps (length p) self.now.finished }
        ensures once { (words : Words) (first : Sym) (max_depth : ℕ) (p : List ℕ) →
            HasReadPrefix T.Predict words first max_depth self.now p →
            result ≤ look_ups_for (T.moves words) (T.class_of words) (T.ends words) first max_depth p self.now.finished }
    {
        self.total().wrapping_sub(self.asked_before)
    }
}
