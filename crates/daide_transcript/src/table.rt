//! The table of sessions, with aligned columns.

use crate::cells::{put_deed, put_name, put_number, put_power, side_name};
use crate::sessions::{Refusal, SessionResult, Sessions};
use daide_sockets::session_notice::Why;
use std::alloc::Global;
use std::io;
use std::io::Write;

/// The names of the columns, with a tab between each two.
const NAMES: &[u8] = b"session\tname\tpower\trelayed\tPRN\tHUH\tfaults\tfirst refusal\tend\n";

/// The number of columns.
const COLUMNS: usize = 9;

/// Appends a refusal, or a dash.
fn put_refusal(refusal: Option<Refusal>, out: &mut Vec<u8>) -> io::Result<()> {
    let Some(refusal) = refusal else {
        return out.write_all(b"-");
    };
    let line = refusal.line;
    let side = side_name(refusal.side);
    write!(out, "line {line}: {side} ")?;
    put_deed(refusal.deed, out)
}

/// Appends why a session is over, or a dash.
fn put_end(end: Option<Why>, out: &mut Vec<u8>) -> io::Result<()> {
    match end {
        Some(why) => write!(out, "{why}"),
        None => out.write_all(b"-"),
    }
}

/// Appends the cells of a session, with a tab between each two.
fn put_cells(session: &SessionResult, out: &mut Vec<u8>) -> io::Result<()> {
    put_number(session.number, out)?;
    out.write_all(b"\t")?;
    put_name(session.name, out)?;
    out.write_all(b"\t")?;
    put_power(session.power, out)?;
    let counts = session.counts;
    let (relayed, prn, huh) = (counts.relayed, counts.prn, counts.huh);
    write!(out, "\t{relayed}\t{prn}\t{huh}\t{}\t", counts.faults)?;
    put_refusal(session.refusal, out)?;
    out.write_all(b"\t")?;
    put_end(session.end, out)?;
    out.write_all(b"\n")
}

/// Returns the greatest length of the cells of each column.
fn widths_of(cells: &[u8]) -> [usize; COLUMNS] {
    let mut widths = [0; COLUMNS];
    for line in cells.split(|byte| *byte == b'\n') {
        for (width, cell) in widths.iter_mut().zip(line.split(|byte| *byte == b'\t')) {
            *width = cell.len().max(*width);
        }
    }
    widths
}

/// Appends a line of cells, each but the last as wide as its column, and two spaces after it.
fn put_aligned(line: &[u8], widths: &[usize; COLUMNS], out: &mut Vec<u8>) -> io::Result<()> {
    let mut cells = line.split(|byte| *byte == b'\t').zip(widths).peekable();
    while let Some((cell, width)) = cells.next() {
        out.write_all(cell)?;
        if cells.peek().is_some() {
            for _space in cell.len()..width.saturating_add(2) {
                out.write_all(b" ")?;
            }
        }
    }
    out.write_all(b"\n")
}

/// Returns the text of a table.
fn table_of(alloc: Global, sessions: &Sessions) -> io::Result<Vec<u8>> {
    let mut cells = Vec::new(alloc);
    cells.write_all(NAMES)?;
    for session in sessions.results()? {
        put_cells(session, &mut cells)?;
    }
    let widths = widths_of(&cells);
    let mut text = Vec::new(alloc);
    for line in cells.split_inclusive(|byte| *byte == b'\n') {
        put_aligned(line.strip_suffix(b"\n").unwrap_or(line), &widths, &mut text)?;
    }
    Ok(text)
}

/// Writes the table of the sessions, with the names of the columns. Fails with `OutOfMemory` with nothing written, or
/// with the writer's error.
pub fn write_table<W: Write>(alloc: Global, sessions: &Sessions, writer: &mut W) -> io::Result<()> {
    let text = table_of(alloc, sessions)?;
    writer.write_all(text.as_slice())
}
