//! The send queue of one wire.

ghost use Rattle.std.specs.Prelude.{◌≡◌, ◌+◌, ◌<◌, ◌≤◌, [], length};
ghost use Rattle.daide_channels.specs.SendQueue.{most_queued, pushed, first_of, tail_of};
ghost use Rattle.daide_channels.specs.declared.send_queue.QueuedFrame.TheVariants.{Fm};

use arrayvec::ArrayVec;
use daide_frame::code::Code;
use daide_frame::side::Side;
use std::marker::Model;

/// The maximum number of frames queued for a wire: an answer to each side, and one final frame.
const MOST_QUEUED: usize = 3;

/// A frame queued for a wire.
#[derive(Clone, Copy)]
pub enum QueuedFrame {
    /// The answer to a side's last frame. The frame is held until its answer is sent.
    Answer(Side),
    Fm,
    Em(Code),
}

// The array of queued frames is initialised with this value.
impl Default for QueuedFrame {
    fn default() -> QueuedFrame
        ensures { result ≡ Fm }
    {
        QueuedFrame::Fm
    }
}

/// The frames queued for one wire, in order, and how many bytes of the first one were sent.
#[derive(Drop)]
pub struct SendQueue {
    queued: ArrayVec<QueuedFrame, MOST_QUEUED>,
    written: usize,
}

impl Model for SendQueue {
    ghost use Rattle.daide_channels.specs.SendQueue.{Queue};

    ghost Value = { Queue };

    ghost view = { λ w. record { written = w.written; items = w.queued.items } };
}

impl SendQueue {
    /// Creates an empty queue.
    pub fn new() -> SendQueue
        ensures { result ≡ record { written = 0; items = [] } }
    {
        SendQueue {
            queued: ArrayVec::new(),
            written: 0,
        }
    }

    /// Returns the number of queued frames.
    pub fn len(&self) -> usize
        ensures value { result ≡ length self.now.items }
        ensures at_most_three { result ≤ most_queued }
    {
        self.queued.len()
    }

    /// Returns the queued frames, in order.
    pub fn frames(&self) -> &[QueuedFrame]
        ensures value { result.now ≡ self.now.items }
        ensures at_most_three { length result.now ≤ most_queued }
    {
        self.queued.as_slice()
    }

    /// Returns the first queued frame.
    pub fn first(&self) -> Option<QueuedFrame>
        ensures { result ≡ first_of self.now.items }
    {
        match self.queued.as_slice() {
            [] => None,
            [first, ..] => Some(*first),
        }
    }

    /// Returns how many bytes of the first frame were sent.
    pub fn written(&self) -> usize
        ensures { result ≡ self.now.written }
    {
        self.written
    }

    /// Appends a frame to the queue.
    pub fn push(&mut self, frame: QueuedFrame)
        requires { length self.old.items < most_queued }
        ensures { self.new ≡ pushed self.old frame }
    {
        self.queued.push(frame);
    }

    /// Adds `n` to the bytes sent of the first frame, whose length is `len`; some of it stays unsent.
    pub fn advance(&mut self, n: usize, len: usize)
        requires { self.old.written + n < len }
        ensures { self.new ≡ record { written = self.old.written + n; items = self.old.items } }
    {
        prove!(n < len - self.written);
        self.written += n;
    }

    /// Removes and returns the first frame.
    #[inline(always)]
    pub fn drop_first(&mut self) -> Option<QueuedFrame>
        ensures gone { result ≡ first_of self.old.items }
        ensures left { self.new ≡ record { written = 0; items = tail_of self.old.items } }
    {
        self.written = 0;
        if self.queued.is_empty() {
            return None;
        }
        Some(self.queued.remove(0))
    }
}
