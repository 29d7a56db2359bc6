//! One side of a session: the frame being received, the reader of its message, and the answer to the last frame, in
//! place.
//!
//! A message is parsed as its bytes arrive. The cutter takes each piece; then the reader, and the scan for an HLO's
//! level, read the tokens that the piece completes. An answer is sent from its frame's buffer. Only its header is new.
//! `PRN (`, `HUH (`, `ERR` and `)` are fixed words, and the body stays in its buffer. So a side holds one body, and an
//! answer needs no more memory.

ghost use Rattle.std.specs.Prelude.{◌≡◌, ◌+◌, ◌-◌, ◌*◌, ◌/◌, ◌<◌, ◌≤◌, [], ◌∷◌, ◌++◌, length, take, drop, ◌⊎◌};
ghost use Rattle.std.specs.Prelude.{false, is_some, Some, None, IfOk, OnErr};
ghost use Rattle.daide_frame.specs.Frames.{fed, fed_items, items_of_step, IsFault, HoldsFrame, head_in, missing};
ghost use Rattle.daide_frame.specs.Frames.{announced};
ghost use Rattle.daide_grammar.specs.Depth.{open_brackets};
ghost use Rattle.daide_grammar.specs.Bounds.{entries_bound, most_steps, message_steps};
ghost use Rattle.daide_grammar.specs.declared.level.Level.{Level};
ghost use Rattle.daide_protocol.specs.HloLevel.{lvl_scan_of};
ghost use Rattle.daide_protocol.specs.Machine.{IsCorrectVerdict, question_of, is_dm};
ghost use Rattle.daide_protocol.specs.Weight.{frame_tokens};
ghost use Rattle.daide_protocol.specs.Wires.{is_dm_head};
ghost use Rattle.daide_protocol.specs.Bounds.{greatest_depth, longest_body};
ghost use Rattle.daide_reader.specs.Bounds.{longest_message};
ghost use Rattle.daide_reader.specs.Reading.{IsRaised};
ghost use Rattle.daide_words.specs.Word.{grammar_words};
ghost use Rattle.daide_words.specs.Words.{words_of};
ghost use Rattle.daide_channels.specs.Receiver.{StartsFrame, ReadsMessageBytes, Answers, whole_answer, front_after, front_in, steps_in};
ghost use Rattle.daide_channels.specs.Receiver.{message_look_ups, tokens_ended};

use daide_frame::cutter::{Cutter, Step};
use daide_frame::head::{Head, Kind, write_head};
use daide_frame::memory::Memory;
use daide_frame::side::Side;
use daide_grammar::level::Level;
use daide_grammar::predict::Predict;
use daide_protocol::answers::{
    CLOSE_WORD, ERR_WORD, HUH_BYTES, HUH_OPEN, PRN_BYTES, PRN_OPEN, answer_head,
};
use daide_protocol::bounds::STACK_ENTRIES;
use daide_protocol::hlo::{HloScan, LvlScan};
use daide_protocol::transitions::side2_of;
use daide_reader::reader::Reader;
use daide_reader::verdict::Verdict;
use daide_words::extended::Extended;
use daide_words::words::Words;
use std::alloc::{AllocError, Allocator, Global};
use std::marker::Model;

/// One side's frame, the progress of its parse, and its answer in place.
#[derive(Drop)]
pub struct Receiver<A: Allocator = Global> {
    cutter: Cutter<A>,
    reader: Reader<Extended, STACK_ENTRIES>,
    hlo: HloScan,
    side: Side,
    level: Level,
    header: [u8; 4],
    verdict: Option<Verdict>,
}

impl<A: Allocator> Model for Receiver<A> {
    ghost use Rattle.daide_channels.specs.Receiver.{Receiver, receiver_of, words_in, IsReadOn};

    ghost Value = { Receiver };

    ghost view = { λ i. receiver_of words_in ⟦<Extended as Predict>⟧.asked i.side i.level i.cutter i.reader i.hlo
        i.header i.verdict };

    ghost invariant = { λ i. IsReadOn ⟦<Extended as Predict>⟧ ⟦<Extended as Predict>⟧.asked i.side i.level i.cutter
        i.reader i.hlo i.header i.verdict };
}

/// Returns true if the header is whole, valid, and of a DM.
fn is_message(head: Option<Head>) -> bool
    ensures { result ≡ is_dm_head head }
{
    match head {
        Some(head) => head.kind == Kind::Dm,
        None => false,
    }
}

/// The parts of an answer in order: its header, and the frame's body within fixed words. A part that an answer lacks is
/// empty.
#[derive(Clone, Copy)]
struct AnswerParts<'a> {
    header: &'a [u8],
    opening: &'a [u8],
    before: &'a [u8],
    mark: &'a [u8],
    after: &'a [u8],
    closing: &'a [u8],
}

/// Returns the rest, from offset `place` on, of the part that contains this offset.
fn front_of_parts<'a>(parts: AnswerParts<'a>, place: usize) -> &'a [u8]
    ensures { result.now ≡ front_in (parts.entry.header.now ∷ parts.entry.opening.now ∷ parts.entry.before.now
        ∷ parts.entry.mark.now ∷ parts.entry.after.now ∷ parts.entry.closing.now ∷ []) place }
{
    let AnswerParts {
        header,
        opening,
        before,
        mark,
        after,
        closing,
    } = parts;
    if place < header.len() {
        return &header[place..];
    }
    let place = place - header.len();
    if place < opening.len() {
        return &opening[place..];
    }
    let place = place - opening.len();
    if place < before.len() {
        return &before[place..];
    }
    let place = place - before.len();
    if place < mark.len() {
        return &mark[place..];
    }
    let place = place - mark.len();
    if place < after.len() {
        return &after[place..];
    }
    let place = place - after.len();
    if place < closing.len() {
        return &closing[place..];
    }
    &[]
}

impl<A: Memory> Receiver<A> {
    /// Creates a side's receiver, with nothing received, at level 0. Reserves the longest body once.
    ///
    /// Fails only if the allocator refuses it.
    pub fn new(
        alloc: A,
        side: Side,
        cap: u16,
        max_depth: u16,
        words: Words,
    ) -> Result<Receiver<A>, AllocError>
        requires cap { cap ≤ longest_body }
        requires high { max_depth ≤ greatest_depth }
        ensures side { IfOk result (λ i. i.side ≡ side) }
        ensures limits { IfOk result (λ i. (i.cap ≡ cap) × (i.level ≡ Level.L0)) }
        ensures rules { IfOk result (λ i. i.rules
            ≡ record { max_depth = max_depth; words = grammar_words (words_of words) }) }
        ensures empty { IfOk result (λ i. (i.frame_bytes ≡ []) × (i.verdict ≡ None)) }
        ensures unasked { IfOk result (λ i. i.total ≡ 0) }
        ensures unlooked { IfOk result (λ i. i.looked_at ≡ 0) }
        ensures refused { OnErr result (A.Refuses cap) }
    {
        // A reader is built over words: the prover needs the type of their codes among the types of this function.
        let _names = words.names();
        let cutter = Cutter::new(alloc, cap)?;
        let mut reader = Reader::new(Extended::new(words), max_depth);
        reader.start(side2_of(side), Level::L0);
        Ok(Receiver {
            cutter,
            reader,
            hlo: HloScan::new(),
            side,
            level: Level::L0,
            header: [0; 4],
            verdict: None,
        })
    }
}

impl<A: Allocator> Receiver<A> {
    /// Returns true if an answer to the last frame is queued.
    pub fn is_awaited(&self) -> bool
        ensures { result ≡ is_some self.now.verdict }
    {
        self.verdict.is_some()
    }

    /// Returns how many bytes the header still lacks or, once it is whole, the body.
    pub fn room(&self) -> usize
        ensures { result ≡ missing self.now.cap self.now.frame_bytes }
    {
        self.cutter.room()
    }

    /// Returns the header, once it is whole and valid.
    pub fn head(&self) -> Option<Head>
        ensures { result ≡ head_in self.now.cap self.now.frame_bytes }
    {
        self.cutter.head()
    }

    /// Returns the bytes held of the body, also while its answer is queued.
    pub fn body(&self) -> &[u8]
        ensures value { result.now ≡ drop 4 self.now.frame_bytes }
        ensures within { length result.now ≤ announced self.now.cap self.now.frame_bytes }
        ensures capped { announced self.now.cap self.now.frame_bytes ≤ self.now.cap }
        ensures short { length result.now ≤ longest_body }
    {
        self.cutter.body()
    }

    /// Returns the bytes held of the header, valid or not, also while its answer is queued.
    pub fn header(&self) -> &[u8]
        ensures { result.now ≡ take 4 self.now.frame_bytes }
    {
        self.cutter.header()
    }

    /// Returns the level at which the message is read.
    pub fn level(&self) -> Level
        ensures { result ≡ self.now.level }
    {
        self.level
    }

    /// Starts the message at this level. The header is whole and the body is still empty.
    pub fn begin(&mut self, level: Level)
        requires free { self.old.verdict ≡ None }
        requires bodiless { drop 4 self.old.frame_bytes ≡ [] }
        ensures { StartsFrame self.old level self.old.frame_bytes self.new }
    {
        // `new` and `clear` have started reader and scan at the level that is kept.
        if self.level == level {
            return;
        }
        self.level = level;
        self.reader.start(side2_of(self.side), level);
        self.hlo.start();
    }

    /// Receives the next bytes, at most `room` of them, and reads the tokens that they complete. The HLO scan reads
    /// each of these tokens at most once.
    #[inline(always)]
    pub fn feed(&mut self, piece: &[u8]) -> Step
        requires free { self.old.verdict ≡ None }
        requires room { length piece.now ≤ missing self.old.cap self.old.frame_bytes }
        ensures reads { ReadsMessageBytes self.old (fed self.old.cap self.old.frame_bytes piece.now) self.new }
        ensures raised { IsRaised (most_steps * tokens_ended self.old.cap self.old.frame_bytes piece.now) self.old.total
            self.new.total }
        ensures looked_at { IsRaised (length piece.now / 2 + 1) self.old.looked_at self.new.looked_at }
        ensures items { fed_items self.old.cap self.old.frame_bytes piece.now ≡ items_of_step result (drop 4 self.new.frame_bytes) }
        ensures whole { IsFault result ⊎ (self.new.frame_bytes ≡ self.old.frame_bytes ++ piece.now) }
        ensures frame_bytes { HoldsFrame result (head_in self.new.cap self.new.frame_bytes) (drop 4 self.new.frame_bytes) }
    {
        let step = self.cutter.feed(piece);
        if self.cutter.body().is_empty() {
            return step;
        }
        if is_message(self.cutter.head()) {
            let read = self.reader.tokens();
            self.reader.read(self.cutter.body());
            self.hlo.read(self.cutter.body(), read);
        }
        step
    }

    /// Judges the held frame: a message by the grammar, any other frame as relayed. Turns the frame into its answer:
    /// itself, `PRN ( message )`, or `HUH ( message )` with ERR before the token at the error place. `head` is the
    /// frame's header.
    #[inline(always)]
    pub fn answer(&mut self, head: Head) -> Verdict
        requires free { self.old.verdict ≡ None }
        requires head { head_in self.old.cap self.old.frame_bytes ≡ Some head }
        ensures right { IsCorrectVerdict self.old.rules.words self.old.rules.max_depth
            (question_of self.old.side self.old.level head (drop 4 self.old.frame_bytes)) result }
        ensures answers { Answers self.old head result self.new }
        ensures raised { IsRaised most_steps self.old.total self.new.total }
        ensures no_message { is_dm head.kind ≡ false → self.new.total ≡ self.old.total }
    {
        let verdict = if is_message(Some(head)) {
            self.reader.finish()
        } else {
            Verdict::Relay
        };
        self.header = write_head(answer_head(head, verdict));
        self.verdict = Some(verdict);
        verdict
    }

    /// Returns the length of the answer in bytes, with its header; 0 if there is no answer.
    pub fn answer_len(&self) -> usize
        ensures value { result ≡ length (whole_answer self.now) }
        ensures short { result ≤ 4 + longest_message }
    {
        let body = self.body();
        match self.verdict {
            None => 0,
            Some(Verdict::Relay) => self.header.len() + body.len(),
            Some(Verdict::Prn) => self.header.len() + PRN_BYTES + body.len(),
            Some(Verdict::Huh(_)) => self.header.len() + HUH_BYTES + body.len(),
        }
    }

    /// Returns the next chunk of the answer after its first `gone` bytes: the rest of its header, of the received body,
    /// or of a fixed word.
    pub fn part(&self, gone: usize) -> &[u8]
        ensures { result.now ≡ front_after self.now gone }
    {
        let body = self.cutter.body();
        match self.verdict {
            None => &[],
            Some(Verdict::Relay) => front_of_parts(
                AnswerParts {
                    header: &self.header,
                    opening: &[],
                    before: body,
                    mark: &[],
                    after: &[],
                    closing: &[],
                },
                gone,
            ),
            Some(Verdict::Prn) => front_of_parts(
                AnswerParts {
                    header: &self.header,
                    opening: &PRN_OPEN,
                    before: body,
                    mark: &[],
                    after: &[],
                    closing: &CLOSE_WORD,
                },
                gone,
            ),
            Some(Verdict::Huh(place)) => {
                let (before, after) = body.split_at(2 * place as usize);
                front_of_parts(
                    AnswerParts {
                        header: &self.header,
                        opening: &HUH_OPEN,
                        before,
                        mark: &ERR_WORD,
                        after,
                        closing: &CLOSE_WORD,
                    },
                    gone,
                )
            }
        }
    }

    /// Discards the frame, its answer and the parse state, so that the next frame can be received.
    pub fn clear(&mut self)
        ensures { StartsFrame self.old self.old.level [] self.new }
    {
        self.cutter.reset();
        self.verdict = None;
        self.reader.start(side2_of(self.side), self.level);
        self.hlo.start();
    }

    /// Returns the state of the HLO scan of the held message, also while its answer is queued.
    pub fn found(&self) -> LvlScan
        ensures { result ≡ lvl_scan_of (frame_tokens self.now.cap self.now.frame_bytes) }
    {
        self.hlo.found()
    }

    /// Returns how many tokens the HLO scan has read, modulo 2^64.
    pub fn looked_at(&self) -> u64
        ensures { result ≡ self.now.looked_at }
    {
        self.hlo.looked_at()
    }

    /// Returns the height of the reader's stack.
    pub fn entries(&self) -> usize
        ensures value { result ≡ self.now.entries }
        ensures few { result ≤ entries_bound (open_brackets (frame_tokens self.now.cap self.now.frame_bytes)) }
        ensures at_most { result ≤ entries_bound self.now.rules.max_depth }
    {
        self.reader.entries()
    }

    /// Returns the number of table look-ups so far, modulo 2^64.
    pub fn total(&self) -> u64
        ensures { result ≡ self.now.total }
    {
        self.reader.total()
    }

    /// Returns the number of table look-ups for the present message, modulo 2^64: at most four a token, and four at its
    /// end.
    pub fn steps(&self) -> u64
        ensures value { result ≡ steps_in self.now }
        ensures few { result ≤ message_steps (length (frame_tokens self.now.cap self.now.frame_bytes)) (is_some self.now.verdict) }
        ensures once { result ≤ message_look_ups self.now.rules self.now.side self.now.level
            (frame_tokens self.now.cap self.now.frame_bytes) (is_some self.now.verdict) }
    {
        self.reader.steps()
    }
}
