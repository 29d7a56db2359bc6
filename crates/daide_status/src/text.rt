//! The text of a status, made row by row.

ghost use Rattle.std.specs.Prelude.{◌≡◌, ◌++◌, IfOk, OnOk, OnErr};
ghost use Rattle.daide_causes.specs.Causes.{WasRefused};
ghost use Rattle.daide_status.specs.Pieces.{AppendsOrRefused};
ghost use Rattle.daide_status.specs.Metrics.{session_metrics};
ghost use Rattle.daide_status.specs.StatusTexts.{begun, ended, status_head, status_view, with_object, with_row, with_samples};
ghost use Rattle.daide_status.specs.Totals.{total_metrics};

use crate::counts::RunCounts;
use crate::metrics::Samples;
use crate::request::Format;
use crate::snapshot::{RunStatus, SessionRow};
use crate::{json, metrics, table, totals};
use daide_causes::Growth;
use std::alloc::{AllocError, Allocator, Global};

/// The text of a status. It begins with the status of the run, gets a row for each session, and is finished then.
#[derive(Drop)]
pub struct StatusText<A: Allocator = Global> {
    format: Format,
    /// Whether a row was added.
    has_rows: bool,
    /// What the run counted, with the sessions that were added.
    counts: RunCounts,
    text: Vec<u8, A>,
    /// For Prometheus, the samples of the sessions.
    samples: Samples<A>,
}

/// Appends what comes before the first session.
fn put_head<A: Growth>(
    format: Format,
    run: &RunStatus,
    out: &mut Vec<u8, A>,
) -> Result<(), AllocError>
    ensures { AppendsOrRefused A.Refuses out.old out.new result (status_head format run.now) }
{
    match format {
        Format::Table => table::put_table_head(run, out),
        Format::Json => json::put_json_head(run, out),
        Format::Prometheus => metrics::put_metrics_head(run, out),
    }
}

/// Appends the counters of the run, and the metrics of the sessions.
fn put_all_samples<A: Growth>(
    counts: &RunCounts,
    samples: &Samples<A>,
    out: &mut Vec<u8, A>,
) -> Result<(), AllocError>
    ensures { AppendsOrRefused A.Refuses out.old out.new result (total_metrics counts.now
        ++ session_metrics samples.now.frames.items samples.now.bytes.items samples.now.waiting.items
        samples.now.idle.items samples.now.levels.items) }
{
    totals::put_total_metrics(counts, out)?;
    metrics::put_session_metrics(samples, out)
}

impl<A: Growth + Copy> StatusText<A> {
    /// Begins a text in a format, with the status of the run. Its only error is that memory was refused.
    pub fn begin(alloc: A, format: Format, run: &RunStatus) -> Result<StatusText<A>, AllocError>
        ensures begun { IfOk result (λ text. status_view text ≡ begun format run.now) }
        ensures refused { OnErr result (WasRefused A.Refuses) }
    {
        let mut text = Vec::new(alloc);
        put_head(format, run, &mut text)?;
        Ok(StatusText {
            format,
            has_rows: false,
            counts: run.counts,
            text,
            samples: Samples::new(alloc),
        })
    }

    /// Appends the object of a session, on a line of its own.
    fn add_object(&mut self, row: &SessionRow) -> Result<(), AllocError>
        ensures added { OnOk result (status_view self.new ≡ with_object row.now (status_view self.old)) }
        ensures refused { OnErr result (WasRefused A.Refuses) }
    {
        if self.has_rows {
            A::append(&mut self.text, b",")?;
        }
        A::append(&mut self.text, b"\n")?;
        self.has_rows = true;
        json::put_json_row(row, &mut self.text)
    }

    /// Appends the samples of a session, each to those of its metric.
    fn add_samples(&mut self, row: &SessionRow) -> Result<(), AllocError>
        ensures added { OnOk result (status_view self.new ≡ with_samples row.now (status_view self.old)) }
        ensures refused { OnErr result (WasRefused A.Refuses) }
    {
        metrics::put_frames(row, &mut self.samples.frames)?;
        metrics::put_bytes(row, &mut self.samples.bytes)?;
        metrics::put_waiting(row, &mut self.samples.waiting)?;
        metrics::put_silence(row, &mut self.samples.idle)?;
        metrics::put_level(row, &mut self.samples.levels)
    }

    /// Adds the status of a session. Its only error is that memory was refused; the text is of no more use then.
    pub fn add(&mut self, row: &SessionRow) -> Result<(), AllocError>
        ensures added { OnOk result (status_view self.new ≡ with_row row.now (status_view self.old)) }
        ensures refused { OnErr result (WasRefused A.Refuses) }
    {
        self.counts.add_session(&row.account);
        match self.format {
            Format::Table => table::put_table_row(row, &mut self.text),
            Format::Json => self.add_object(row),
            Format::Prometheus => self.add_samples(row),
        }
    }

    /// Finishes the text, and returns it. Its only error is that memory was refused.
    pub fn finish(mut self) -> Result<Vec<u8, A>, AllocError>
        ensures text { IfOk result (λ text. text.items ≡ ended (status_view self)) }
        ensures refused { OnErr result (WasRefused A.Refuses) }
    {
        match self.format {
            Format::Table => {}
            Format::Json => json::put_json_end(&self.counts, &mut self.text)?,
            Format::Prometheus => put_all_samples(&self.counts, &self.samples, &mut self.text)?,
        }
        Ok(self.text)
    }
}
