//! Cached readiness of a stream: what is known without a system call.

ghost use Rattle.std.specs.Prelude.{◌≡◌, false};
ghost use Rattle.daide_buffered_io.specs.Calls.{after_read, after_write};

use daide_io::outcome::IoResult;

/// Whether a read or a write may make progress. Events of the poller set the flags; results of calls clear them.
#[derive(Clone, Copy, Debug, PartialEq, Eq)]
pub struct Readiness {
    /// Whether a read may return bytes, the end or a failure.
    pub may_read: bool,
    /// Whether a write may accept bytes.
    pub may_write: bool,
    /// Whether a short read may leave something unread. The poller reports an end or a failure only once, and a read
    /// stops before an urgent byte, so after any of these events a short read proves nothing.
    pub reads_on: bool,
}

impl Readiness {
    /// Neither direction is known to be ready.
    pub const UNKNOWN: Readiness = Readiness {
        may_read: false,
        may_write: false,
        reads_on: false,
    };

    /// Records the result of a read into a buffer of `free_space` bytes. Clears `may_read` if the read would have
    /// blocked, or if it returned some bytes but fewer than `free_space`, unless `reads_on` is set.
    pub fn note_read(&mut self, free_space: usize, outcome: IoResult)
        ensures value { self.new ≡ after_read self.old free_space outcome }
        ensures writes { self.new.may_write ≡ self.old.may_write }
    {
        match outcome {
            IoResult::NotNow => self.may_read = false,
            IoResult::Moved(count) => {
                if count != 0 && count < free_space && !self.reads_on {
                    self.may_read = false;
                }
            }
            IoResult::Interrupted | IoResult::Failed => {}
        }
    }

    /// Records the result of a write of `handed` bytes. Clears `may_write` if the write would have blocked or accepted
    /// fewer than `handed`.
    pub fn note_write(&mut self, handed: usize, outcome: IoResult)
        ensures value { self.new ≡ after_write self.old handed outcome }
        ensures reads { self.new.may_read ≡ self.old.may_read }
        ensures full { self.old.may_write ≡ false → self.new.may_write ≡ false }
    {
        match outcome {
            IoResult::NotNow => self.may_write = false,
            IoResult::Moved(count) => {
                if count < handed {
                    self.may_write = false;
                }
            }
            IoResult::Interrupted | IoResult::Failed => {}
        }
    }
}
