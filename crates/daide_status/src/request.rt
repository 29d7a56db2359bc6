//! The request of an operator: one line of text.

ghost use Rattle.std.specs.Prelude.{◌≡◌, Some};
ghost use Rattle.daide_status.specs.Requests.{continued_number, requested_by, request_text, session_of_digits, session_stop};

use std::fmt;

/// The form of a status.
#[derive(Clone, Copy)]
pub enum Format {
    /// Aligned columns.
    Table,
    /// One JSON document.
    Json,
    /// The text format of Prometheus.
    Prometheus,
}

/// What an operator requests of a run over its control socket.
#[derive(Clone, Copy)]
pub enum ControlRequest {
    /// The status of the run and of each session, in this form.
    Status(Format),
    /// That the run accepts no further bot, and ends when its last session is over.
    Stop,
    /// That the run accepts no further bot, and ends its sessions by the protocol.
    StopNow,
    /// That the run ends the session with this number, 1 or more, by the protocol.
    StopSession(u32),
}

/// Writes the line of a request, without its line end.
impl fmt::Display for ControlRequest {
    ghost output = { λ request. Some (request_text request) };

    fn fmt<W: fmt::Write>(&self, f: &mut fmt::Formatter<W>) -> fmt::Result {
        match self {
            ControlRequest::Status(Format::Table) => f.write_str("status table"),
            ControlRequest::Status(Format::Json) => f.write_str("status json"),
            ControlRequest::Status(Format::Prometheus) => f.write_str("status prometheus"),
            ControlRequest::Stop => f.write_str("stop"),
            ControlRequest::StopNow => f.write_str("stop now"),
            ControlRequest::StopSession(number) => write!(f, "stop session {number}"),
        }
    }
}

/// Parses the decimal digits of a number of 32 bits.
fn number_of(digits: &[u8]) -> Option<u32>
    ensures { result ≡ continued_number 0 digits.now }
{
    let mut number: u32 = 0;
    let mut rest = digits;
    while let [digit, others @ ..] = rest {
        if *digit < b'0' || *digit > b'9' {
            return None;
        }
        let more = 10 * number as u64 + (*digit - b'0') as u64;
        if more > 4_294_967_295 {
            return None;
        }
        number = more as u32;
        rest = others;
    }
    Some(number)
}

/// Parses the number of a session: decimal digits without a leading zero.
fn session_of_digits(digits: &[u8]) -> Option<u32>
    ensures { result ≡ session_of_digits digits.now }
{
    match digits {
        [first, ..] if *first != b'0' => number_of(digits),
        _ => None,
    }
}

/// Returns the request to stop a session if the line is that of one.
fn session_stop(line: &[u8]) -> Option<ControlRequest>
    ensures { result ≡ session_stop line.now }
{
    let number = session_of_digits(line.strip_prefix(b"stop session ")?)?;
    Some(ControlRequest::StopSession(number))
}

impl ControlRequest {
    /// Returns the request of a line without its line end, if it is the line of one, byte for byte.
    pub fn of_line(line: &[u8]) -> Option<ControlRequest>
        ensures { result ≡ requested_by line.now }
    {
        if line == b"status table".as_slice() {
            return Some(ControlRequest::Status(Format::Table));
        }
        if line == b"status json".as_slice() {
            return Some(ControlRequest::Status(Format::Json));
        }
        if line == b"status prometheus".as_slice() {
            return Some(ControlRequest::Status(Format::Prometheus));
        }
        if line == b"stop".as_slice() {
            return Some(ControlRequest::Stop);
        }
        if line == b"stop now".as_slice() {
            return Some(ControlRequest::StopNow);
        }
        session_stop(line)
    }
}
