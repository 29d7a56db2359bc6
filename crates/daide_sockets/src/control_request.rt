//! The request of a control connection, by the bytes received so far.

ghost use Rattle.std.specs.Prelude.{◌≡◌};
ghost use Rattle.daide_sockets.specs.ControlRequest.{line_end, judgement_of, at_end};

use daide_io::ports::Pull;
use daide_status::ControlRequest;

/// The most bytes of a request, with its line feed.
pub const LONGEST_REQUEST: usize = 64;

/// What the bytes received so far are.
#[derive(Clone, Copy)]
pub(crate) enum Judgement {
    /// Their first line is this request.
    Requests(ControlRequest),
    /// They are no request, and neither is anything that begins with them.
    Unknown,
    /// The line is not complete.
    Unfinished,
}

/// A stop that an operator requested.
#[derive(Clone, Copy)]
pub(crate) enum RequestedStop {
    /// The run accepts no further bot, and ends when its last session is over.
    Finish,
    /// The run accepts no further bot, and ends its sessions.
    Now,
    /// The session with this number ends.
    Session(u32),
}

/// Returns the position of the first line feed; `None` if there is none.
fn line_end(bytes: &[u8]) -> Option<usize>
    ensures { result ≡ line_end bytes.now }
{
    bytes.iter().position(|byte| *byte == b'\n')
}

/// Judges the bytes received so far. The line ends at the first line feed, and what follows it is ignored.
pub(crate) fn judgement_of(bytes: &[u8]) -> Judgement
    ensures { result ≡ judgement_of bytes.now }
{
    match line_end(bytes) {
        Some(at) => match ControlRequest::of_line(&bytes[..at]) {
            Some(request) => Judgement::Requests(request),
            None => Judgement::Unknown,
        },
        None => {
            if bytes.len() < LONGEST_REQUEST {
                Judgement::Unfinished
            } else {
                Judgement::Unknown
            }
        }
    }
}

/// Judges what is unfinished after this pull: at the end of the stream it is no request.
pub(crate) fn at_end(judgement: Judgement, pull: Pull) -> Judgement
    ensures { result ≡ at_end judgement pull }
{
    match (judgement, pull) {
        (Judgement::Unfinished, Pull::Ended) => Judgement::Unknown,
        _ => judgement,
    }
}
