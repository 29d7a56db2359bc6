//! Laws of reports: functions with no parameters and an empty body, whose contracts are the laws.

ghost use Rattle.std.specs.Prelude.{◌≡◌, ◌++◌, ℕ, List, Option, Some, Result, codes};
ghost use Rattle.std.specs.Fmt.{decimal};
ghost use Rattle.daide_log_lines.specs.declared.fault.LogFault.{LogFault};
ghost use Rattle.daide_protocol.specs.declared.config.Config.{Config};
ghost use Rattle.daide_protocol.specs.declared.summary.Summary.{Summary};
ghost use Rattle.daide_log.specs.ConfigLine.{config_of_line, match_config_of_line};
ghost use Rattle.daide_log.specs.declared.config_line.MatchConfig.{MatchConfig};
ghost use Rattle.daide_log.specs.Explained.{IncompleteFramesAreListed, InvalidTokensAreShown};
ghost use Rattle.daide_log.specs.Laws.{SessionsAreAlone};
ghost use Rattle.daide_log.specs.Log.{IsReport, plain};
ghost use Rattle.daide_log.specs.Progress.{HasFault, IsInTime};
ghost use Rattle.daide_log.specs.RecordLaw.{RecordsAreReported, PortsAreRecorded};
ghost use Rattle.daide_log.specs.Recording.{HasFailed};

use daide_causes::Sink;
use daide_io::ports::Ports;

/// The report of a match says of each session what the session's own log reports, without the session's number. The own
/// log is the log of version 1 with the same limits, in which `#` replaces every other session's line. Its last line
/// has the session's own counts.
///
/// Premise: the match's log has no words and no fault, and no line is too long. Line ends may differ.
///
/// Not said: anything of a log with words, since version 1 has none.
pub fn sessions_are_alone()
    ensures { SessionsAreAlone }
{}

/// Each log has exactly one report and one result, whatever its bytes. So the clauses of `check_log` leave no choice of
/// counts or of a fault of the log. `Read`, `Write` and `Memory` are no faults of a log, and have clauses of their own.
pub fn log_has_one_report()
    ensures some { (log : List ℕ) → (text : List ℕ) × (answer : Result Summary LogFault) × IsReport log text answer }
    ensures one { (log text other : List ℕ) (answer another : Result Summary LogFault) →
        IsReport log text answer → IsReport log other another → (text ≡ other) × (answer ≡ another) }
{}

/// No read is in time once what came has a fault, whatever would follow. The last byte read is the line feed of a line
/// of another form, or the byte that makes a line too long. Or it is the first byte of one line too many.
pub fn no_read_behind_a_fault()
    ensures { (before written : Option (List ℕ)) (came : List ℕ) (fault : LogFault) → HasFault came fault →
        IsInTime plain before came written → ⊥ }
{}

/// The report of the log that a record with times wrote is the report of its session, as without times: the session's
/// moves, each once and in order. A comment is a line of the log that moves nothing, so the moves have the numbers of
/// their lines (`TellsBy`), and the counts are those of `Session::summary`, modulo 2^64 (`counts`). It holds for
/// every list of calls and comments of at most 1,000,000 lines with the head, and so for each prefix.
///
/// A wire that failed is an end in the log. Both make the same move and leave the session over; only what ended it
/// differs.
///
/// Premise: limits that a session accepts, and accepted words with names of three letters.
///
/// Not said: that a time in a comment is right. It is the one that the caller gave.
pub fn records_are_reported()
    ensures { RecordsAreReported }
{}

/// Ports with a new record and times, however they were called: its text is the head and the lines of calls and
/// comments, and the calls are a prefix of what the ports returned. They are all of it while the record is whole; or a
/// write of its writer failed.
///
/// Not said: what a writer that failed has, nor that a block that was handed over reached a disk.
pub fn ports_are_recorded<P: Ports, W: Sink>()
    ensures { PortsAreRecorded P.transition (HasFailed W.Fails) }
{}

/// A second line that is accepted is `config` and its numbers, in decimal without leading zeros and with single spaces
/// between them: three in the log of a session, five in the log of a match.
pub fn config_lines_have_these_forms()
    ensures single { (line : List ℕ) (config : Config) → config_of_line line ≡ Some config →
        line ≡ codes "config " ++ decimal config.top_level ++ codes " " ++ decimal config.max_body ++ codes " "
        ++ decimal config.max_depth }
    ensures match_log { (line : List ℕ) (limits : MatchConfig) → match_config_of_line line ≡ Some limits →
        line ≡ codes "config " ++ decimal limits.config.top_level ++ codes " " ++ decimal limits.config.max_body
        ++ codes " " ++ decimal limits.config.max_depth ++ codes " " ++ decimal limits.sessions ++ codes " "
        ++ decimal limits.words }
{}

/// A side whose last frame is incomplete has a line for it, with the number of its bytes, however its session ended: also
/// after an EM or an FM, a lost wire, a stop, and a fault of the other side. Only a fault of that side leaves it out.
pub fn incomplete_frames_are_listed()
    ensures { IncompleteFramesAreListed }
{}

/// An invalid token is shown by its own two bytes, and by the number of tokens before it in its message: the first one
/// is `at token 0`.
pub fn invalid_tokens_are_shown()
    ensures { InvalidTokensAreShown }
{}
