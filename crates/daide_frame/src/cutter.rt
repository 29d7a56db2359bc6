//! Finds one frame in the bytes from one side, in whatever pieces they arrive.
//!
//! A cutter holds one frame at a time, and never more of it than its cap allows: `room` returns how many bytes it takes
//! now. It allocates its memory in `new`; no later call allocates.

ghost use Rattle.std.specs.Prelude.{◌≡◌, ◌+◌, ◌*◌, ◌<◌, ◌≤◌, [], ◌++◌, length, take, drop, ◌⊎◌, IfOk, OnErr, None, true};
ghost use Rattle.daide_frame.specs.Frames.{alien_in, first_alien, shifted_place, fed, fed_items, step_of_events, items_of_step, IsFault, IsEnd, HoldsFrame, head_in, missing, announced};
ghost use Rattle.daide_frame.specs.Cutter.{AreKnown, IsFed};
ghost use Rattle.daide_frame.specs.declared.cutter.Step.TheVariants.{More};

use crate::code::Code;
use crate::head::{Head, Kind, read_head};
use crate::memory::Memory;
use daide_token::token_at;
use std::alloc::{AllocError, Allocator, Global};
use std::marker::Model;

/// The length of a header, in bytes.
const HEADER: usize = 4;

/// How many tokens of a body are checked together.
const TOGETHER: usize = 8;

/// What the last byte of a piece completed.
#[derive(Clone, Copy, Debug, PartialEq, Eq)]
pub enum Step {
    /// Neither the header nor the frame.
    More,
    /// A good header, this one; its body is not empty.
    Headed(Head),
    /// The whole frame with this header. For an empty body this is returned in place of `Headed`.
    Bodied(Head),
    /// A fault: the header is refused, or a token of a diplomacy message has an unknown category.
    Fault(Code),
}

/// Finds one frame in the bytes from one side. Its abstract value is the cap and the frame's bytes so far.
///
/// Feed it at most `room` bytes at a time. After `Bodied` or `Fault` its room is 0 until `reset`.
#[derive(Drop)]
pub struct Cutter<A: Allocator = Global> {
    cap: u16,
    header: [u8; 4],
    have: usize,
    head: Option<Head>,
    is_faulty: bool,
    body: Vec<u8, A>,
}

impl<A: Allocator> Model for Cutter<A> {
    ghost use Rattle.std.specs.Prelude.{◌++◌, take, vec_capacity};
    ghost use Rattle.daide_frame.specs.Frames.{Cut};
    ghost use Rattle.daide_frame.specs.Cutter.{IsConsistent};

    ghost Value = { Cut };

    ghost view = { λ c. record { cap = c.cap; bytes = take c.have c.header ++ c.body.items } };

    ghost invariant = { λ c. IsConsistent c.cap c.have c.header c.head c.is_faulty c.body.items (vec_capacity c.body) };
}

/// Writes bytes of a header after the `have` bytes that are held.
fn put(header: &mut [u8; 4], have: usize, piece: &[u8])
    requires room { have + length piece.now ≤ 4 }
    ensures four { length header.new ≡ 4 }
    ensures bytes { take (have + length piece.now) header.new ≡ take have header.old ++ piece.now }
{
    // Most headers arrive whole.
    if let [kind, pad, high, low] = piece {
        *header = [*kind, *pad, *high, *low];
        return;
    }
    for k in 0..piece.len() {
        header[have + k] = piece[k];
    }
}

/// Returns whether eight consecutive tokens of a body all have a known category. The loop has no early exit, so that
/// the processor can check several tokens at a time.
#[inline(always)]
fn are_known(body: &[u8], first: usize) -> bool
    requires { 2 * (first + 8) ≤ length body.now }
    ensures { result ≡ true → AreKnown body.now first 8 }
{
    let mut known = true;
    for k in 0..TOGETHER {
        known &= token_at(body, first + k).has_known_category();
    }
    known
}

/// Returns a number `n` such that the first `n` tokens of a body have known categories. It checks eight tokens at a
/// time from `known` on, as long as all eight have one. If fewer than eight are left, it checks the last eight of the
/// body, some of them again.
fn known_front(body: &[u8], known: usize) -> usize
    requires counted { 2 * known ≤ length body.now }
    requires none { first_alien body.now ≡ shifted_place (2 * known) (first_alien (drop (2 * known) body.now)) }
    ensures counted { 2 * result ≤ length body.now }
    ensures none { first_alien body.now ≡ shifted_place (2 * result) (first_alien (drop (2 * result) body.now)) }
{
    let tokens = body.len() / 2;
    let mut i = known;
    while tokens - i >= TOGETHER {
        if !are_known(body, i) {
            return i;
        }
        i += TOGETHER;
    }
    if i < tokens && tokens >= TOGETHER && are_known(body, tokens - TOGETHER) {
        return tokens;
    }
    i
}

/// Returns the offset of the end of the first token with an unknown category in a body, of which more bytes may follow.
/// Only a diplomacy message consists of tokens. The first `known` tokens were checked before.
#[inline(always)]
fn alien_end(head: Head, body: &[u8], known: usize) -> Option<usize>
    requires within { length body.now ≤ head.len }
    requires counted { 2 * known ≤ length body.now }
    requires looked_at { alien_in head (take (2 * known) body.now) ≡ None }
    ensures { result ≡ alien_in head body.now }
{
    let Kind::Dm = head.kind else {
        return None;
    };
    for i in known_front(body, known)..body.len() / 2 {
        if !token_at(body, i).has_known_category() {
            return Some(2 * i + 2);
        }
    }
    None
}

impl<A: Memory> Cutter<A> {
    /// Creates a cutter for frames whose bodies have at most `cap` bytes, and allocates room for the longest.
    ///
    /// `refused`: it fails only after the allocator refused room for `cap` bytes.
    ///
    /// Not said: that it allocates no more than `cap` bytes, and that no other call allocates. Tests show both.
    pub fn new(alloc: A, cap: u16) -> Result<Cutter<A>, AllocError>
        ensures cap { IfOk result (λ cutter. cutter.cap ≡ cap) }
        ensures empty { IfOk result (λ cutter. cutter.bytes ≡ []) }
        ensures refused { OnErr result (A.Refuses cap) }
    {
        Ok(Cutter {
            cap,
            header: [0; HEADER],
            have: 0,
            head: None,
            is_faulty: false,
            body: alloc.with_capacity(usize::from(cap))?,
        })
    }
}

impl<A: Allocator> Cutter<A> {
    /// Returns how many bytes are missing of the header or, once that is whole, of the body. Returns 0 after `Bodied`
    /// or a fault.
    pub fn room(&self) -> usize
        ensures { result ≡ missing self.now.cap self.now.bytes }
    {
        if self.have < HEADER {
            return HEADER - self.have;
        }
        match self.head {
            Some(head) if !self.is_faulty => usize::from(head.len) - self.body.len(),
            _ => 0,
        }
    }

    /// Returns the header, from the last byte of a good one on.
    pub fn head(&self) -> Option<Head>
        ensures { result ≡ head_in self.now.cap self.now.bytes }
    {
        self.head
    }

    /// Returns the body's bytes so far; after a fault in the body, those up to the end of the wrong token.
    pub fn body(&self) -> &[u8]
        ensures value { result.now ≡ drop 4 self.now.bytes }
        ensures within { length result.now ≤ announced self.now.cap self.now.bytes }
        ensures capped { announced self.now.cap self.now.bytes ≤ self.now.cap }
    {
        self.body.as_slice()
    }

    /// Returns the header's bytes so far, at most four, whether the header is good or not.
    pub fn header(&self) -> &[u8]
        ensures { result.now ≡ take 4 self.now.bytes }
    {
        let (front, _rest) = self.header.split_at(self.have);
        front
    }

    /// Begins a frame, and forgets the bytes fed before.
    pub fn reset(&mut self)
        ensures cap { self.new.cap ≡ self.old.cap }
        ensures empty { self.new.bytes ≡ [] }
    {
        self.have = 0;
        self.head = None;
        self.is_faulty = false;
        self.body.clear();
    }

    /// Feeds bytes of the header, and judges it once it is whole.
    #[inline(always)]
    fn feed_header(&mut self, piece: &[u8]) -> Step
        requires header { length self.old.bytes < 4 }
        requires room { length piece.now ≤ missing self.old.cap self.old.bytes }
        ensures cap { self.new.cap ≡ self.old.cap }
        ensures fed { IsFed self.old.cap self.old.bytes piece.now result self.new.bytes }
    {
        put(&mut self.header, self.have, piece);
        self.have += piece.len();
        if self.have < HEADER {
            return Step::More;
        }
        match read_head(self.header, self.cap) {
            Err(code) => Step::Fault(code),
            Ok(head) => {
                self.head = Some(head);
                if head.len == 0 {
                    Step::Bodied(head)
                } else {
                    Step::Headed(head)
                }
            }
        }
    }

    /// Feeds bytes of the body all at once, and then checks the tokens that they complete. After a fault it drops the
    /// bytes after the wrong token.
    #[inline(always)]
    fn feed_body(&mut self, piece: &[u8]) -> Step
        requires header { 4 ≤ length self.old.bytes }
        requires room { length piece.now ≤ missing self.old.cap self.old.bytes }
        ensures cap { self.new.cap ≡ self.old.cap }
        ensures fed { IsFed self.old.cap self.old.bytes piece.now result self.new.bytes }
    {
        if piece.is_empty() {
            return Step::More;
        }
        let Some(head) = self.head else {
            unreachable!()
        };
        let known = self.body.len() / 2;
        self.body.extend_from_slice(piece).unwrap();
        if let Some(end) = alien_end(head, &self.body, known) {
            self.body.truncate(end);
            self.is_faulty = true;
            return Step::Fault(Code::InvalidToken);
        }
        if self.body.len() == usize::from(head.len) {
            Step::Bodied(head)
        } else {
            Step::More
        }
    }

    /// Takes the next bytes, at most `room` of them, and returns what the last of them completed. An empty piece
    /// changes nothing. After a fault it ignores the rest of the piece, and no byte of it enters the body.
    ///
    /// `items`: let the bytes fed since `new` or `reset` be one list. The events other than `More` are the items of its
    /// first frame, whatever the pieces.
    #[inline(always)]
    pub fn feed(&mut self, piece: &[u8]) -> Step
        requires { length piece.now ≤ missing self.old.cap self.old.bytes }
        ensures cap { self.new.cap ≡ self.old.cap }
        ensures bytes { self.new.bytes ≡ fed self.old.cap self.old.bytes piece.now }
        ensures step { result ≡ step_of_events (fed_items self.old.cap self.old.bytes piece.now) }
        ensures items { fed_items self.old.cap self.old.bytes piece.now ≡ items_of_step result (drop 4 self.new.bytes) }

        // Without a fault the whole piece is taken.
        ensures whole { IsFault result ⊎ (self.new.bytes ≡ self.old.bytes ++ piece.now) }

        // The step carries the header that is held. At `Bodied` the body has exactly the length that it announces.
        ensures frame_bytes { HoldsFrame result (head_in self.new.cap self.new.bytes) (drop 4 self.new.bytes) }
        ensures closed { IsEnd result → missing self.new.cap self.new.bytes ≡ 0 }
    {
        if self.have < HEADER {
            self.feed_header(piece)
        } else {
            self.feed_body(piece)
        }
    }
}
