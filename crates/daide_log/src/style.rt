//! How a report presents the moves of a log's sessions: plainly, or with explanations (`explained`).

ghost use Rattle.std.specs.Prelude.{◌≡◌, ◌≤◌, ⊤, ℕ, All, List, length, IfOk, IfErr, OnOk};
ghost use Rattle.std.specs.Io.KnownBytes.{Appends};
ghost use Rattle.daide_words.specs.declared.word.Word.{Word};
ghost use Rattle.daide_words.specs.Words.{words_of};
ghost use Rattle.daide_causes.specs.Causes.{HasFailed};
ghost use Rattle.daide_log_lines.specs.Output.{IsSameWriter, all_of};
ghost use Rattle.daide_protocol.specs.Bounds.{most_sessions};
ghost use Rattle.daide_protocol.specs.Events.{Event};
ghost use Rattle.daide_protocol.specs.Wires.{SessionView};
ghost use Rattle.daide_protocol.specs.declared.summary.Summary.{Summary};
ghost use Rattle.daide_log.specs.ReportForm.{ReportForm, IsWritableForm};
ghost use Rattle.daide_log.specs.Log.{plain};
ghost use Rattle.daide_log.specs.Progress.{states_of};
ghost use Rattle.daide_log.specs.Reporting.{IsMade, IsReady, IsUnder, IsQuietWith, IsCauseIn, ReportsMove};
ghost use Rattle.daide_log.specs.Proofs.Lawful.{plain_lawful};

use crate::heading::Preamble;
use crate::page::Unreported;
use crate::report::ReportKey;
use daide_causes::Sink;
use daide_frame::Side;
use daide_log_lines::output::Output;
use daide_protocol::{Note, Summary};
use daide_session::Session;
use std::alloc::Allocator;

/// The parts of a report beside the lines of moves and of the counts, and the result of a check.
pub trait Style {
    /// The result for a log without a fault.
    type Answer: Copy;

    ghost form: { List Word → ReportForm Self.Answer };

    /// What the style knows of earlier entries.
    ghost knows: { (words : List Word) → Self → (form words).Context → Type 0 };

    /// Memory was refused for a text of the style.
    ghost refused: { Type 0 };

    /// Writes the lines that follow the line of a side's move. The session still holds the frame that caused it.
    fn explain<A: Allocator, W: Sink>(
        &mut self,
        head: &Preamble,
        session: &Session<A>,
        source: ReportKey,
        side: Side,
        reported: Note,
        output: &mut Output<'_, W>,
    ) -> Result<(), Unreported>
        requires under { IsUnder head.now.limits.config (words_of head.now.words) session.now }
        requires made { (old : SessionView) × (events : List Event) × IsMade old events side reported session.now }
        ensures text { OnOk result (ReportsMove (form (words_of head.now.words)) (knows (words_of head.now.words) self.old)
            (knows (words_of head.now.words) self.new) source side reported session.now (λ added. added)
            (all_of W.contents output.old) (all_of W.contents output.new)) }
        ensures refused { IfErr result (IsCauseIn (form (words_of head.now.words)) (HasFailed W.Fails) refused) }
        ensures same_writer { IsSameWriter output.old output.new };

    /// Writes what the report has for a line itself, apart from the moves of a session.
    fn quote<W: Sink>(
        &mut self,
        head: &Preamble,
        line: &[u8],
        output: &mut Output<'_, W>,
    ) -> Result<(), Unreported>
        ensures text { OnOk result ((text : List ℕ)
            × IsQuietWith (form (words_of head.now.words)) line.now text
            × Appends (all_of W.contents output.old) (all_of W.contents output.new) text) }
        ensures refused { IfErr result (IsCauseIn (form (words_of head.now.words)) (HasFailed W.Fails) refused) }
        ensures known { (context : (form (words_of head.now.words)).Context) →
            knows (words_of head.now.words) self.old context → knows (words_of head.now.words) self.new context }
        ensures same_writer { IsSameWriter output.old output.new };

    /// Returns whether a last line that is cut is no fault.
    fn reads_cut(&self) -> bool
        ensures { (words : List Word) → (form words).cuts ≡ result };

    /// Writes what precedes the counts, and returns the result. `cut` is the number of the last line if it is cut.
    fn close<A: Allocator, W: Sink>(
        &mut self,
        head: &Preamble,
        sessions: &[Session<A>],
        summary: Summary,
        cut: Option<u32>,
        output: &mut Output<'_, W>,
    ) -> Result<Self::Answer, Unreported>
        requires few { length sessions.now ≤ most_sessions }
        requires ready { All (IsReady head.now.limits.config (words_of head.now.words)) sessions.now }
        ensures text { IfOk result (λ answer.
            (answer ≡ (form (words_of head.now.words)).answer summary cut head.now.version (states_of sessions.now))
            × Appends (all_of W.contents output.old) (all_of W.contents output.new)
            ((form (words_of head.now.words)).closing cut head.now.version (states_of sessions.now))) }
        ensures refused { IfErr result (IsCauseIn (form (words_of head.now.words)) (HasFailed W.Fails) refused) }
        ensures same_writer { IsSameWriter output.old output.new };

    ghost lawful: { (words : List Word) → IsWritableForm words (form words) };
}

/// The plain report: only the lines of moves and of the counts.
#[derive(Drop)]
pub struct PlainStyle;

impl Style for PlainStyle {
    type Answer = Summary;

    ghost form = { λ words. plain };

    ghost knows = { λ words style context. ⊤ };

    ghost refused = { ⊥ };

    #[inline(always)]
    fn explain<A: Allocator, W: Sink>(
        &mut self,
        _head: &Preamble,
        _session: &Session<A>,
        _source: ReportKey,
        _side: Side,
        _reported: Note,
        _output: &mut Output<'_, W>,
    ) -> Result<(), Unreported> {
        Ok(())
    }

    #[inline(always)]
    fn quote<W: Sink>(
        &mut self,
        _head: &Preamble,
        _line: &[u8],
        _output: &mut Output<'_, W>,
    ) -> Result<(), Unreported> {
        Ok(())
    }

    #[inline(always)]
    fn reads_cut(&self) -> bool {
        false
    }

    #[inline(always)]
    fn close<A: Allocator, W: Sink>(
        &mut self,
        _head: &Preamble,
        _sessions: &[Session<A>],
        summary: Summary,
        _cut: Option<u32>,
        _output: &mut Output<'_, W>,
    ) -> Result<Summary, Unreported> {
        Ok(summary)
    }

    ghost lawful = { plain_lawful };
}
