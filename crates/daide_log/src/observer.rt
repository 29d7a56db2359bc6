//! What a caller sees of a log's sessions while the report is written.

ghost use Rattle.std.specs.Prelude.{ℕ, List, Option, IfErr};
ghost use Rattle.daide_words.specs.declared.word.Word.{Word};
ghost use Rattle.daide_causes.specs.Causes.{WasRefused};
ghost use Rattle.daide_log_lines.specs.Cause.{HasCause};
ghost use Rattle.daide_log_lines.specs.Reader.{silent};
ghost use Rattle.daide_log.specs.Explained.{explained};
ghost use Rattle.daide_log.specs.Log.{plain};
ghost use Rattle.daide_log.specs.Progress.{IsAnswered};

use crate::check::report_stream;
use crate::explained::{Explained, Explaining};
use crate::heading::Preamble;
use crate::line_reason::LineReason;
use crate::page::Unreported;
use crate::report::ReportKey;
use crate::style::{PlainStyle, Style};
use daide_causes::{Growth, Sink, Source};
use daide_frame::{Memory, Side};
use daide_log_lines::LogFault;
use daide_log_lines::output::Output;
use daide_protocol::{Note, Summary};
use daide_session::Session;
use std::alloc::Allocator;

/// Sees the lines of a log and the moves of its sessions, in the order of the report. It has no effect on the report.
pub trait Observer {
    /// Sees a line after the head, before the moves that it causes.
    fn see_line(&mut self, head: &Preamble, line: &[u8]);

    /// Sees the move of a side that the report lists under this key. The session still holds the frame that caused it.
    fn see_move<A: Allocator>(
        &mut self,
        head: &Preamble,
        source: ReportKey,
        session: &Session<A>,
        side: Side,
        reported: Note,
    );

    /// Sees that the log ended without a fault.
    fn see_end(&mut self, head: &Preamble);
}

/// A style whose moves an observer sees too.
#[derive(Drop)]
struct Observed<'o, S, O> {
    style: S,
    observer: &'o mut O,
}

impl<S: Style, O: Observer> Style for Observed<'_, S, O> {
    type Answer = S::Answer;

    ghost form = { S.form };

    ghost knows = { λ words observed. S.knows words observed.style };

    ghost refused = { S.refused };

    fn explain<A: Allocator, W: Sink>(
        &mut self,
        head: &Preamble,
        session: &Session<A>,
        source: ReportKey,
        side: Side,
        reported: Note,
        output: &mut Output<'_, W>,
    ) -> Result<(), Unreported> {
        self.observer
            .see_move(head, source, session, side, reported);
        self.style
            .explain(head, session, source, side, reported, output)
    }

    fn quote<W: Sink>(
        &mut self,
        head: &Preamble,
        line: &[u8],
        output: &mut Output<'_, W>,
    ) -> Result<(), Unreported> {
        self.observer.see_line(head, line);
        self.style.quote(head, line, output)
    }

    fn reads_cut(&self) -> bool {
        self.style.reads_cut()
    }

    fn close<A: Allocator, W: Sink>(
        &mut self,
        head: &Preamble,
        sessions: &[Session<A>],
        summary: Summary,
        cut: Option<u32>,
        output: &mut Output<'_, W>,
    ) -> Result<S::Answer, Unreported> {
        self.observer.see_end(head);
        self.style.close(head, sessions, summary, cut, output)
    }

    ghost lawful = { S.lawful };
}

/// Reads a log, and writes its report, as `check_log` does. An observer sees the lines and the moves. After `BadLine`,
/// `refused` says why the line is none.
pub fn check_observed<A: Memory + Copy, R: Source, W: Sink, O: Observer>(
    alloc: A,
    reader: &mut R,
    writer: &mut W,
    observer: &mut O,
    refused: &mut Option<LineReason>,
) -> Result<Summary, LogFault>
    ensures answered { IsAnswered plain (silent (R.remaining reader.old)) (silent (R.remaining reader.new))
        (W.contents writer.old) (W.contents writer.new) result }
    ensures cause { IfErr result (HasCause R.Fails W.Fails (WasRefused A.Refuses)) }
{
    let mut style = Observed {
        style: PlainStyle,
        observer,
    };
    report_stream(alloc, &mut style, reader, writer, refused)
}

/// Reads a log and writes its report with explanations, as `explain_log` does, with an observer and `refused` as for
/// `check_observed`.
pub fn explain_observed<A: Growth + Copy, R: Source, W: Sink, O: Observer>(
    alloc: A,
    reader: &mut R,
    writer: &mut W,
    observer: &mut O,
    refused: &mut Option<LineReason>,
) -> Result<Explained, LogFault>
    ensures answered { (words : List Word) × IsAnswered (explained words) (silent (R.remaining reader.old))
        (silent (R.remaining reader.new)) (W.contents writer.old) (W.contents writer.new) result }
    ensures cause { IfErr result (HasCause R.Fails W.Fails (WasRefused A.Refuses)) }
{
    let mut style = Observed {
        style: Explaining::new(alloc),
        observer,
    };
    report_stream(alloc, &mut style, reader, writer, refused)
}
