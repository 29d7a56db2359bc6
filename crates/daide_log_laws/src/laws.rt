//! Laws of reports: functions with no parameters and an empty body, whose contracts are the laws.

ghost use Rattle.daide_log_laws.specs.Added.{ExplanationOnlyAdds, PlainAddsNothing};

/// The explained report of a log, without its lines that begin with four spaces or `#`, is the plain report (`adds`).
/// The plain report has no such line (`none`). The counts or the fault are the same. If the log's last line is cut, this
/// holds of the log up to its last line feed: the explained report covers no more, and the plain report of the whole
/// log has a fault.
///
/// Not said: that the exit status is the same. It differs if a side's last frame is not whole, or the last line is cut:
/// then it is 3 with `--explain`.
pub fn explanation_only_adds()
    ensures adds { ExplanationOnlyAdds }
    ensures none { PlainAddsNothing }
{}
