//! What a command opens by a name: a file, or the control socket of a run. The other modules take what is opened as any
//! stream.

ghost use Rattle.std.specs.Prelude.{◌≤◌, ℕ, List, Result, IfOk};
ghost use Rattle.std.specs.declared.io.ErrorKind.{ErrorKind};

use std::fs;
use std::io::ErrorKind;
use std::net::Net;
use std::os::unix::net::UnixStream;
use std::rt::{Clock, Files};
use std::thread::sleep;
use std::time::{Duration, Instant};

/// Opens files `F` to be read; every file system does. Code that is generic in both does not know `Opens`, so it can
/// show `Opens` only of the result of a call. So a contract that ends in `Opens` speaks of what was opened by this very
/// name. Nor does it know `Fails` of an `F`: it can show that a read failed only of a file that it opened.
///
/// Not said: that the system opens the file of that name. Tests show it.
pub trait FileOpener<F>: Files {
    /// Opening a file by this name had this result.
    ghost Opens: { List ℕ → Result F ErrorKind → Type 0 };

    /// Opens the file of this name, or returns the system's error.
    fn open_input(&self, name: &str) -> Result<F, ErrorKind>
        ensures { Opens name.now result };
}

impl<R: Files> FileOpener<R::File> for R {
    ghost Opens = { λ _ _. Unit {0} };

    fn open_input(&self, name: &str) -> Result<R::File, ErrorKind> {
        fs::open(self, name).map_err(|error| error.kind())
    }
}

/// How often a connect waits for a place in the queue of a control socket, each time for `WAIT_MILLIS`: five seconds.
const MOST_WAITS: u64 = 50;

/// The milliseconds of such a wait.
const WAIT_MILLIS: u64 = 100;

/// Returns the number of waits within a time, at most `MOST_WAITS`.
fn waits_within(time: Duration) -> u64
    ensures { result ≤ MOST_WAITS }
{
    (time.as_secs().saturating_mul(1_000) / WAIT_MILLIS).min(MOST_WAITS)
}

/// Connects to the socket at a path, or returns the system's error, with the number of waits so far. It waits while the
/// queue of the socket is full, this often, and then fails with `WouldBlock`.
fn connect_within<R: Clock + Net>(
    rt: &R,
    path: &str,
    waits: u64,
) -> Result<(UnixStream, u64), ErrorKind>
    ensures { IfOk result (λ connected. connected.1 ≤ waits) }
{
    for waited in 0..waits {
        match mio::net::UnixStream::connect(rt, path) {
            Ok(stream) => return Ok((UnixStream::from(stream), waited)),
            Err(error) if error.kind() == ErrorKind::WouldBlock => {
                sleep(rt, Duration::from_millis(WAIT_MILLIS));
            }
            Err(error) => return Err(error.kind()),
        }
    }
    Err(ErrorKind::WouldBlock)
}

/// Connects to the control socket at a path (`RunReacher::reach_run`).
fn connect<R: Clock + Net>(rt: &R, path: &str, time: Duration) -> Result<UnixStream, ErrorKind> {
    let (stream, waited) = connect_within(rt, path, waits_within(time))?;
    let spent = Duration::from_millis(waited * WAIT_MILLIS);
    let left = time
        .saturating_sub(spent)
        .max(Duration::from_millis(WAIT_MILLIS));
    let made = stream.set_nonblocking(false);
    match made.and_then(|()| stream.set_read_timeout(Some(left))) {
        Ok(()) => Ok(stream),
        Err(error) => Err(error.kind()),
    }
}

/// Reaches runs by their control sockets, over streams `S`; every system with a clock and a network does, over Unix streams.
/// Code that is generic in both knows neither `Reaches` nor what is written to an `S` and left of it, so it can show these
/// only of the results of calls. So a contract that has `Reaches` speaks of what was sent and received over the stream that
/// was reached at this very path.
///
/// Not said: that the system connects to the socket at that path, or that a run listens there. Tests show it.
pub trait RunReacher<S>: Clock + Net {
    /// Reaching a run at this path had this result.
    ghost Reaches: { List ℕ → Result S ErrorKind → Type 0 };

    /// Connects to the control socket at a path, or returns the system's error: `WouldBlock` if its queue was full for this
    /// time, or for five seconds, if that is shorter. Each read waits for what is left of the time.
    fn reach_run(&self, path: &str, time: Duration) -> Result<S, ErrorKind>
        ensures { Reaches path.now result };

    /// Lets each further read of a stream wait for this time; without a time it waits until something comes.
    fn set_wait(&self, stream: &S, time: Option<Duration>) -> Result<(), ErrorKind>;
}

impl<R: Clock + Net> RunReacher<UnixStream> for R {
    ghost Reaches = { λ _ _. Unit {0} };

    fn reach_run(&self, path: &str, time: Duration) -> Result<UnixStream, ErrorKind> {
        connect(self, path, time)
    }

    fn set_wait(&self, stream: &UnixStream, time: Option<Duration>) -> Result<(), ErrorKind> {
        stream.set_read_timeout(time).map_err(|error| error.kind())
    }
}

/// The longest silence of a run that is to answer, in seconds.
pub(crate) const ANSWER_SECONDS: u64 = 5;

/// The time that an order may take, from when it begins.
#[derive(Clone, Copy)]
pub(crate) struct Limit {
    /// When the order began, if the clock says it.
    begun: Option<Instant>,
    /// The time until it is given up; `None` if it is not.
    time: Option<Duration>,
}

impl Limit {
    /// Begins the time of an order.
    pub(crate) fn begin<R: Clock>(rt: &R, timeout: Option<u32>) -> Limit {
        Limit {
            begun: Instant::now(rt).ok(),
            time: timeout.map(|seconds| Duration::from_secs(seconds as u64)),
        }
    }

    /// Returns the time in which the run is to answer.
    pub(crate) fn to_answer(&self) -> Duration {
        let most = Duration::from_secs(ANSWER_SECONDS);
        match self.time {
            Some(time) => time.min(most),
            None => most,
        }
    }

    /// Returns the time that is left, and a millisecond if none is.
    pub(crate) fn left<R: Clock>(&self, rt: &R) -> Option<Duration> {
        let spent = match (self.begun, Instant::now(rt)) {
            (Some(begun), Ok(now)) => now.saturating_duration_since(begun),
            _ => Duration::from_secs(0),
        };
        let time = self.time?;
        Some(time.saturating_sub(spent).max(Duration::from_millis(1)))
    }
}
