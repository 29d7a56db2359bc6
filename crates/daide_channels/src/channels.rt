//! The receive state of both sides, and the send queues of both wires.
//!
//! A queued answer refers to a side's held frame, and its bytes are read from that frame. So the frame is held until
//! the last byte of its answer is sent, and the side is not read until then. A wire therefore queues at most three
//! frames: one answer to each side and one final frame.

ghost use Rattle.std.specs.Prelude.{◌≡◌, ◌*◌, ◌/◌, ◌+◌, ◌<◌, ◌≤◌, ◌⊎◌, [], ◌++◌, length, take, drop, Some, None};
ghost use Rattle.std.specs.Prelude.{false, IfOk, OnErr, sum_by};
ghost use Rattle.daide_frame.specs.Frames.{fed, fed_items, items_of_step, IsFault, HoldsFrame, head_in, missing};
ghost use Rattle.daide_frame.specs.Frames.{announced};
ghost use Rattle.daide_frame.specs.declared.side.Side.{Side};
ghost use Rattle.daide_grammar.specs.Depth.{open_brackets};
ghost use Rattle.daide_grammar.specs.Bounds.{entries_bound, most_steps, message_steps};
ghost use Rattle.daide_frame.specs.Side.{other};
ghost use Rattle.daide_protocol.specs.HloLevel.{lvl_scan_of};
ghost use Rattle.daide_protocol.specs.Machine.{IsCorrectVerdict, question_of, is_dm, reply_to};
ghost use Rattle.daide_protocol.specs.Weight.{frame_tokens};
ghost use Rattle.daide_protocol.specs.Wires.{IsFrontOf, first_len, without, sent_bytes, is_awaited, steps_of};
ghost use Rattle.daide_protocol.specs.Wires.{next_part, parts_after};
ghost use Rattle.daide_protocol.specs.Bounds.{greatest_depth, longest_body};
ghost use Rattle.daide_reader.specs.Bounds.{longest_message};
ghost use Rattle.daide_reader.specs.Reading.{IsRaised};
ghost use Rattle.daide_words.specs.Word.{grammar_words};
ghost use Rattle.daide_words.specs.Words.{words_of};
ghost use Rattle.daide_frame.specs.PerSide.{at, put};
ghost use Rattle.daide_channels.specs.Receiver.{message_look_ups, tokens_ended};
ghost use Rattle.daide_channels.specs.SendQueue.{most_queued};
ghost use Rattle.daide_channels.specs.Channels.{pending, noted, side_holding, IsQuiet, Keeps, IsGrown, IsStarted};
ghost use Rattle.daide_channels.specs.Channels.{IsAnswered, IsCleared, ReleasesFrames, posted, has_final_frame, final_frame_to};
ghost use Rattle.daide_channels.specs.Channels.{answer_at, answered_by, drop_sent, ending_of, others, queued_bytes, size_of_first};
ghost use Rattle.daide_channels.specs.Channels.{IsReleased};
ghost use Rattle.daide_channels.specs.Fronts.{KeepsFronts, AreFresh};

use crate::receiver::Receiver;
use crate::send_queue::{QueuedFrame, SendQueue};
use daide_frame::code::Code;
use daide_frame::cutter::Step;
use daide_frame::head::Head;
use daide_frame::memory::Memory;
use daide_frame::per_side::PerSide;
use daide_frame::side::Side;
use daide_grammar::level::Level;
use daide_protocol::answers::{FM, em_frame};
use daide_protocol::hlo::LvlScan;
use daide_protocol::transitions::destination;
use daide_reader::verdict::Verdict;
use daide_words::words::Words;
use std::alloc::{AllocError, Allocator, Global};
use std::marker::Model;

/// The receive state of both sides, and the send queues of both wires.
#[derive(Drop)]
pub struct Channels<A: Allocator = Global> {
    receivers: PerSide<Receiver<A>>,
    wires: PerSide<SendQueue>,
}

impl<A: Allocator> Model for Channels<A> {
    ghost use Rattle.daide_channels.specs.Channels.{Channels, fields, channels_of, IsSound};

    ghost Value = { Channels };

    ghost view = { λ t. channels_of (fields t.receivers t.wires) };

    ghost invariant = { λ t. IsSound (fields t.receivers t.wires) };
}

/// Returns a final message, or the error message with the code.
fn ending(code: Option<Code>) -> QueuedFrame
    ensures { result ≡ ending_of code }
{
    match code {
        None => QueuedFrame::Fm,
        Some(code) => QueuedFrame::Em(code),
    }
}

/// Returns the bytes after the first `gone`.
fn rest_of(bytes: &[u8], gone: usize) -> &[u8]
    ensures { result.now ≡ drop gone bytes.now }
{
    if gone < bytes.len() {
        return &bytes[gone..];
    }
    &[]
}

/// Returns the length in bytes of a queued frame, with the bytes already sent.
fn frame_len<A: Allocator>(frame: QueuedFrame, receivers: &PerSide<Receiver<A>>) -> usize
    ensures value { result ≡ length (queued_bytes (answer_at receivers.now) frame) }
    ensures short { result ≤ 4 + longest_message }
{
    match frame {
        QueuedFrame::Answer(side) => receivers.at(side).answer_len(),
        QueuedFrame::Fm => FM.len(),
        QueuedFrame::Em(code) => em_frame(code).len(),
    }
}

/// Returns the length in bytes of queued frames together, with the bytes already sent.
fn frames_len<A: Allocator>(frames: &[QueuedFrame], receivers: &PerSide<Receiver<A>>) -> usize
    requires { length frames.now ≤ most_queued }
    ensures { result ≡ sum_by (λ frame. length (queued_bytes (answer_at receivers.now) frame)) frames.now }
{
    let mut total = 0;
    for frame in frames {
        total += frame_len(*frame, receivers);
    }
    total
}

/// Returns the length in bytes of the first frame queued for a wire, with the bytes already sent; 0 if none is queued.
fn first_frame_len<A: Allocator>(wire: &SendQueue, receivers: &PerSide<Receiver<A>>) -> usize
    ensures { result ≡ size_of_first (answer_at receivers.now) wire.now.items }
{
    match wire.first() {
        None => 0,
        Some(frame) => frame_len(frame, receivers),
    }
}

/// Clears the frame of the answer `gone`; without effect if `gone` is not an answer.
#[inline(always)]
fn release<A: Allocator>(gone: Option<QueuedFrame>, receivers: &mut PerSide<Receiver<A>>)
    ensures { (side : Side) → IsReleased (answered_by gone) side (at receivers.old side) (at receivers.new side) }
{
    if let Some(QueuedFrame::Answer(side)) = gone {
        receivers.at_mut(side).clear();
    }
}

impl<A: Memory + Copy> Channels<A> {
    /// Creates idle channels: nothing received, nothing queued. Reserves a body of `cap` bytes for each side; these are
    /// the only two growths.
    ///
    /// Fails only if the allocator refuses one of them.
    pub fn new(alloc: A, cap: u16, max_depth: u16, words: Words) -> Result<Channels<A>, AllocError>
        requires cap { cap ≤ longest_body }
        requires high { max_depth ≤ greatest_depth }
        ensures quiet { IfOk result (λ channels.
            IsQuiet cap (record { max_depth = max_depth; words = grammar_words (words_of words) }) channels) }
        ensures refused { OnErr result (A.Refuses cap) }
    {
        Ok(Channels {
            receivers: PerSide::new(
                Receiver::new(alloc, Side::Bot, cap, max_depth, words)?,
                Receiver::new(alloc, Side::Server, cap, max_depth, words)?,
            ),
            wires: PerSide::new(SendQueue::new(), SendQueue::new()),
        })
    }
}

impl<A: Allocator> Channels<A> {
    /// Returns true if an answer to a side's last frame is queued. If none is, the held bytes are those since the last
    /// whole frame.
    pub fn is_awaited(&self, side: Side) -> bool
        ensures value { result ≡ is_awaited (at self.now.queued) side }
        ensures tied { is_awaited (at self.now.queued) side ≡ false
            → (side_holding self.now side).frame_bytes ≡ pending self.now side }
    {
        self.receivers.at(side).is_awaited()
    }

    /// Returns how many bytes a side's header still lacks or, once it is whole, its body.
    pub fn room(&self, side: Side) -> usize
        ensures { result ≡ missing self.now.cap (side_holding self.now side).frame_bytes }
    {
        self.receivers.at(side).room()
    }

    /// Returns a side's header, once it is whole and valid.
    pub fn head(&self, side: Side) -> Option<Head>
        ensures { result ≡ head_in self.now.cap (side_holding self.now side).frame_bytes }
    {
        self.receivers.at(side).head()
    }

    /// Returns a side's body as far as it is received, also while its answer is queued. If no answer is queued, the
    /// held bytes are those since the last whole frame.
    pub fn body(&self, side: Side) -> &[u8]
        ensures value { result.now ≡ drop 4 (side_holding self.now side).frame_bytes }
        ensures within { length result.now ≤ announced self.now.cap (side_holding self.now side).frame_bytes }
        ensures capped { announced self.now.cap (side_holding self.now side).frame_bytes ≤ self.now.cap }
        ensures short { length result.now ≤ longest_body }
        ensures tied { is_awaited (at self.now.queued) side ≡ false
            → (side_holding self.now side).frame_bytes ≡ pending self.now side }
    {
        self.receivers.at(side).body()
    }

    /// Returns a side's header as far as it is received, valid or not, also while its answer is queued.
    pub fn header(&self, side: Side) -> &[u8]
        ensures { result.now ≡ take 4 (side_holding self.now side).frame_bytes }
    {
        self.receivers.at(side).header()
    }

    /// Returns the level at which a side's message is read.
    pub fn noted(&self, side: Side) -> Level
        ensures { result ≡ noted self.now side }
    {
        self.receivers.at(side).level()
    }

    /// Returns the state of the HLO scan in a side's message, also while its answer is queued.
    pub fn found(&self, side: Side) -> LvlScan
        ensures { result ≡ lvl_scan_of (frame_tokens self.now.cap (side_holding self.now side).frame_bytes) }
    {
        self.receivers.at(side).found()
    }

    /// Returns how many tokens the HLO scan of this side has read, modulo 2^64.
    pub fn looked_at(&self, side: Side) -> u64
        ensures { result ≡ (side_holding self.now side).looked_at }
    {
        self.receivers.at(side).looked_at()
    }

    /// Returns how many frames are queued for a wire.
    pub fn count(&self, to: Side) -> usize
        ensures value { result ≡ length (at self.now.queued to) }
        ensures at_most_three { result ≤ most_queued }
    {
        self.wires.at(to).len()
    }

    /// Returns the height of the reader's stack for a side.
    pub fn entries(&self, side: Side) -> usize
        ensures value { result ≡ (side_holding self.now side).entries }
        ensures few { result ≤ entries_bound (open_brackets (frame_tokens self.now.cap (side_holding self.now side).frame_bytes)) }
        ensures at_most { result ≤ entries_bound self.now.rules.max_depth }
    {
        self.receivers.at(side).entries()
    }

    /// Returns the number of look-ups in a side's table so far, modulo 2^64.
    pub fn total(&self, side: Side) -> u64
        ensures { result ≡ (side_holding self.now side).total }
    {
        self.receivers.at(side).total()
    }

    /// Returns the number of look-ups in a side's table for the present message, modulo 2^64.
    pub fn steps(&self, side: Side) -> u64
        ensures value { result ≡ steps_of (side_holding self.now side) }
        ensures few { result ≤ message_steps (length (frame_tokens self.now.cap (side_holding self.now side).frame_bytes))
            (is_awaited (at self.now.queued) side) }
        ensures once { result ≤ message_look_ups self.now.rules side (noted self.now side)
            (frame_tokens self.now.cap (side_holding self.now side).frame_bytes) (is_awaited (at self.now.queued) side) }
    {
        self.receivers.at(side).steps()
    }

    /// Receives a side's next bytes, at most `room` of them, and reads the tokens that they complete.
    #[inline(always)]
    pub fn feed(&mut self, side: Side, piece: &[u8]) -> Step
        requires free { is_awaited (at self.old.queued) side ≡ false }
        requires room { length piece.now ≤ missing self.old.cap (pending self.old side) }
        ensures keeps { Keeps side self.old self.new }
        ensures queued { self.new.queued ≡ self.old.queued }
        ensures fronts { self.new.parts ≡ self.old.parts }
        ensures grown { IsGrown self.old.cap (at self.old.sides side)
            (fed self.old.cap (pending self.old side) piece.now) (at self.new.sides side) }
        ensures raised { IsRaised (most_steps * tokens_ended self.old.cap (pending self.old side) piece.now)
            (side_holding self.old side).total (side_holding self.new side).total }
        ensures looked_at { IsRaised (length piece.now / 2 + 1) (side_holding self.old side).looked_at
            (side_holding self.new side).looked_at }
        ensures items { fed_items self.old.cap (pending self.old side) piece.now
            ≡ items_of_step result (drop 4 (pending self.new side)) }

        // Without a fault the whole piece is consumed.
        ensures whole { IsFault result ⊎ (pending self.new side ≡ pending self.old side ++ piece.now) }

        // The step carries the header that is held. At `Bodied` the body has exactly the length that it announces.
        ensures frame_bytes { HoldsFrame result (head_in self.new.cap (pending self.new side)) (drop 4 (pending self.new side)) }
    {
        self.receivers.at_mut(side).feed(piece)
    }

    /// Starts a side's message at this level. The side's header is whole and its body is still empty.
    pub fn begin(&mut self, side: Side, level: Level)
        requires free { is_awaited (at self.old.queued) side ≡ false }
        requires bodiless { drop 4 (pending self.old side) ≡ [] }
        ensures keeps { Keeps side self.old self.new }
        ensures queued { self.new.queued ≡ self.old.queued }
        ensures fronts { self.new.parts ≡ self.old.parts }
        ensures started { IsStarted (at self.old.sides side) level (at self.new.sides side) }
    {
        self.receivers.at_mut(side).begin(level);
    }

    /// Judges a side's whole frame, and queues its answer for the wire that the verdict selects. `head` is the frame's
    /// header.
    #[inline(always)]
    pub fn reply(&mut self, side: Side, head: Head) -> Verdict
        requires free { is_awaited (at self.old.queued) side ≡ false }
        requires head { head_in self.old.cap (pending self.old side) ≡ Some head }
        ensures right { IsCorrectVerdict self.old.rules.words self.old.rules.max_depth
            (question_of side (noted self.old side) head (drop 4 (pending self.old side))) result }
        ensures keeps { Keeps side self.old self.new }
        ensures queued { self.new.queued
            ≡ posted self.old.queued (reply_to side head (drop 4 (pending self.old side)) result) }
        ensures fronts { KeepsFronts self.old self.new }
        ensures answered { IsAnswered (at self.old.sides side) (at self.new.sides side) }
        ensures raised { IsRaised most_steps (side_holding self.old side).total (side_holding self.new side).total }
        ensures no_message { is_dm head.kind ≡ false → (side_holding self.new side).total ≡ (side_holding self.old side).total }
    {
        let verdict = self.receivers.at_mut(side).answer(head);
        let to = destination(side, verdict);
        self.wires.at_mut(to).push(QueuedFrame::Answer(side));
        verdict
    }

    /// Drops a side's frame, whole or not.
    pub fn clear(&mut self, side: Side)
        requires free { is_awaited (at self.old.queued) side ≡ false }
        ensures keeps { Keeps side self.old self.new }
        ensures queued { self.new.queued ≡ self.old.queued }
        ensures fronts { self.new.parts ≡ self.old.parts }
        ensures cleared { IsCleared (at self.old.sides side) (at self.new.sides side) }
    {
        self.receivers.at_mut(side).clear();
    }

    /// Queues a final message for a wire, or the error message with the code.
    pub fn queue_final(&mut self, to: Side, code: Option<Code>)
        requires { has_final_frame (at self.old.queued to) ≡ false }
        ensures limits { (self.new.cap ≡ self.old.cap) × (self.new.rules ≡ self.old.rules) }
        ensures sides { self.new.sides ≡ self.old.sides }
        ensures queued { self.new.queued ≡ posted self.old.queued (final_frame_to to code) }
        ensures fronts { KeepsFronts self.old self.new }
    {
        self.wires.at_mut(to).push(ending(code));
    }

    /// Returns the next chunk of the first frame queued for a wire; empty exactly if none is queued. The chunk is a
    /// slice of the header, of the received body, or of a fixed word: nothing is copied.
    pub fn front(&self, to: Side) -> &[u8]
        ensures value { result.now ≡ next_part (at self.now.parts to) }
        ensures front { IsFrontOf result.now (at self.now.queued to) }
    {
        let wire = self.wires.at(to);
        match wire.first() {
            None => &[],
            Some(QueuedFrame::Answer(side)) => self.receivers.at(side).part(wire.written()),
            Some(QueuedFrame::Fm) => rest_of(&FM, wire.written()),
            Some(QueuedFrame::Em(code)) => rest_of(em_frame(code), wire.written()),
        }
    }

    /// Returns how many bytes of the first queued frame are unsent; 0 exactly if no frame is queued.
    pub fn first_len(&self, to: Side) -> usize
        ensures value { result ≡ first_len (at self.now.queued to) }
        ensures none { result ≡ 0 → at self.now.queued to ≡ [] }
    {
        let wire = self.wires.at(to);
        first_frame_len(wire, &self.receivers) - wire.written()
    }

    /// Returns how many bytes are queued for a wire: the unsent bytes of all its frames.
    pub fn queued_len(&self, to: Side) -> usize
        ensures { result ≡ length (sent_bytes (at self.now.queued to)) }
    {
        let wire = self.wires.at(to);
        frames_len(wire.frames(), &self.receivers) - wire.written()
    }

    /// Advances the first frame of a wire by `n` bytes, which are fewer than it has left.
    fn advance(&mut self, to: Side, n: usize)
        requires { n < first_len (at self.old.queued to) }
        ensures limits { (self.new.cap ≡ self.old.cap) × (self.new.rules ≡ self.old.rules) }
        ensures sides { self.new.sides ≡ self.old.sides }
        ensures queued { self.new.queued ≡ put self.old.queued to (drop_sent n (at self.old.queued to)) }
        ensures own_front { at self.new.parts to ≡ parts_after n (at self.old.parts to) }
        ensures other_front { at self.new.parts (other to) ≡ at self.old.parts (other to) }
    {
        let len = first_frame_len(self.wires.at(to), &self.receivers);
        self.wires.at_mut(to).advance(n, len);
    }

    /// Removes the first frame queued for a wire, if there is one. If it was an answer, clears the frame of that
    /// answer.
    #[inline(always)]
    fn drop_first(&mut self, to: Side)
        ensures lets_go { ReleasesFrames self.old self.new }
        ensures queued { self.new.queued ≡ put self.old.queued to (others (at self.old.queued to)) }
        ensures own_front { AreFresh (at self.new.parts to) (at self.new.queued to) }
        ensures other_front { at self.new.parts (other to) ≡ at self.old.parts (other to) }
    {
        let gone = self.wires.at_mut(to).drop_first();
        release(gone, &mut self.receivers);
    }

    /// Removes the `n` bytes of `front` that a wire accepted from its queue. With the last byte of an answer, clears
    /// the frame of that answer.
    pub fn wrote(&mut self, to: Side, n: usize)
        requires { n ≤ first_len (at self.old.queued to) }
        ensures lets_go { ReleasesFrames self.old self.new }
        ensures queued { self.new.queued ≡ put self.old.queued to (without n (at self.old.queued to)) }
        ensures bytes { sent_bytes (at self.new.queued to) ≡ drop n (sent_bytes (at self.old.queued to)) }
        ensures own_front { n < first_len (at self.old.queued to)
            → at self.new.parts to ≡ parts_after n (at self.old.parts to) }
        ensures next { first_len (at self.old.queued to) ≤ n
            → AreFresh (at self.new.parts to) (at self.new.queued to) }
        ensures other_front { at self.new.parts (other to) ≡ at self.old.parts (other to) }
    {
        if n < self.first_len(to) {
            self.advance(to, n);
        } else {
            self.drop_first(to);
        }
    }

    /// Empties the queue of a wire, and clears the frame of each answer in it.
    #[inline(always)]
    pub fn lose(&mut self, to: Side)
        ensures lets_go { ReleasesFrames self.old self.new }
        ensures queued { self.new.queued ≡ put self.old.queued to [] }
        ensures other_front { at self.new.parts (other to) ≡ at self.old.parts (other to) }
    {
        for _ in 0..self.count(to) {
            self.drop_first(to);
        }
    }
}
