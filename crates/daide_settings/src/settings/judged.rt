//! All faults of a document, each with its line, and the values of a document without a fault.
//!
//! `toml` reports the place of its own errors, and no place of a key. So the line of a key, and its value as it is
//! written, are found by a scan of the text (`written`). The report is made in memory, and written whole.

ghost use Rattle.std.specs.Prelude.{◌≡◌, ◌++◌, ℕ, List, None, [], Some, Ok, false, true, is_ok, map, option_map};
ghost use Rattle.std.specs.Prelude.{IfOk, IfErr, OnOk, OnErr, string_bytes};
ghost use Rattle.std.specs.Io.KnownBytes.{Appends};
ghost use Rattle.toml.specs.Data.{get_member};
ghost use Rattle.toml.specs.Parse.{parse_document};
ghost use Rattle.toml.specs.View.{table_view, view};
ghost use Rattle.daide_causes.specs.Causes.{HasFailed, WasRefused};
ghost use Rattle.daide_settings.specs.Causes.{IsJudgeCause, IsMemoryRefused};
ghost use Rattle.daide_settings.specs.Settings.{judged_settings, key_text};
ghost use Rattle.daide_settings.specs.Judged.{fault_at, is_right, is_right_document, keys_are_right};
ghost use Rattle.daide_settings.specs.Report.{AreFaultLines, AreParts, AreUnknownLines, AreValueLines, IsDocumentReport};
ghost use Rattle.daide_settings.specs.Report.{IsFaultLine, IsFaultPart, IsSettingsReport, IsShownValue, IsUnknownLine};
ghost use Rattle.daide_settings.specs.Report.{IsValueLine, ReadsAs, default_line, entry_words, failing_words, field_words};
ghost use Rattle.daide_settings.specs.Report.{likeness_text, part_words, path_text, place_text, range_words, unknown_keys};
ghost use Rattle.daide_settings.specs.Report.{unset_line};

use super::SettingsError;
use super::allow::ranges_fault;
use super::key::{Key, is_known};
use super::memory::SettingsMemory;
use super::parts::{Field, ValuePart, faulty_part, part_value};
use super::reading::{address_fault, flag_fault, found, has_only_known, number_fault, text_fault};
use super::suggestion::nearest_key;
use super::words::words_fault;
use super::written::{Spot, spot_of};
use daide_causes::{Growth, Sink};
use std::alloc::AllocError;
use std::fmt;
use std::fmt::Formatter;
use thiserror::Error;
use toml::de::Error as TomlError;
use toml::{Table, Value};

/// Why a text could not be judged.
#[derive(Clone, Copy, Debug, PartialEq, Eq, Error)]
pub enum JudgeFault {
    /// The output failed.
    #[error("output could not be written")]
    Write,
    /// The allocator refused a growth.
    #[error("out of memory")]
    Memory,
}

/// Returns the fault of a key in a document.
fn fault_at(table: &Table, key: Key) -> Option<SettingsError>
    ensures { result ≡ fault_at key (table_view table.now) }
{
    match key {
        Key::Listen | Key::Server => address_fault(table, key),
        Key::Words => words_fault(found(table, key)),
        Key::Endless => flag_fault(table, key),
        Key::Allow => ranges_fault(found(table, key)),
        Key::Control => text_fault(table, key),
        Key::TopLevel
        | Key::MaxBody
        | Key::MaxDepth
        | Key::ImSeconds
        | Key::MaxSessions
        | Key::Sessions
        | Key::Turns
        | Key::IdleSeconds
        | Key::StallSeconds
        | Key::MaxPerAddress
        | Key::MaxRefused => number_fault(table, key),
    }
}

/// Returns true if no key has a fault.
fn keys_are_right(table: &Table) -> bool
    ensures { result ≡ keys_are_right (table_view table.now) }
{
    Key::ALL.iter().all(|key| fault_at(table, *key).is_none())
}

/// Returns true if a document has no fault.
fn is_right(table: &Table) -> bool
    ensures { result ≡ is_right (table_view table.now) }
{
    has_only_known(table) && keys_are_right(table)
}

/// Returns the type and the range of a key's value.
fn value_text_of(key: Key) -> &'static str
    ensures { result.now ≡ range_words key }
{
    match key {
        Key::Listen | Key::Server => {
            "a string HOST:PORT of at most 255 bytes, with a port from 0 to 65535 and without a scheme"
        }
        Key::TopLevel => "an integer: 0, 10, 20, 30, 40, 50 or 60",
        Key::MaxBody => "an even integer from 512 to 65526",
        Key::MaxDepth => "an integer from 4 to 254",
        Key::ImSeconds => "a number of seconds, an integer from 1 to 3600",
        Key::MaxSessions => "an integer from 1 to 256",
        Key::Sessions => "an integer from 1 to 1000000",
        Key::Turns => "an integer from 1 to 1000000000000",
        Key::IdleSeconds | Key::StallSeconds => "a number of seconds, an integer from 0 to 86400",
        Key::Words =>
            "an array of at most 16 tables, each with name, code, slot, level and operand, and no word twice",
        Key::Endless => "true or false",
        Key::Allow => "an array of 1 to 16 strings, each an address with or without /PREFIX",
        Key::MaxPerAddress => "an integer from 0 to 256",
        Key::MaxRefused => "an integer from 0 to 1000000",
        Key::Control => "a string of 1 to 100 bytes",
    }
}

/// Returns the type and the range of an entry of a key's array.
fn entry_text_of(key: Key) -> &'static str
    ensures { result.now ≡ entry_words key }
{
    match key {
        Key::Allow =>
            "a string, an IPv4 or IPv6 address with or without /PREFIX, and not IPv4-mapped",
        Key::Words
        | Key::Listen
        | Key::Server
        | Key::TopLevel
        | Key::MaxBody
        | Key::MaxDepth
        | Key::ImSeconds
        | Key::MaxSessions
        | Key::Sessions
        | Key::Turns
        | Key::IdleSeconds
        | Key::StallSeconds
        | Key::Endless
        | Key::MaxPerAddress
        | Key::MaxRefused
        | Key::Control => "a table with name, code, slot, level and operand, and no other key",
    }
}

/// Returns the type and the range of a field of a word.
fn field_text_of(field: Field) -> &'static str
    ensures { result.now ≡ field_words field }
{
    match field {
        Field::Name => "three letters from A to Z, no name of the protocol's or of an earlier word",
        Field::Code =>
            "an integer from 0x4A00 to 0x4AFF, no token of the protocol's or of an earlier word, and none of 0x4A0D, 0x4A12 and 0x4A1B",
        Field::Slot => "\"press\" or \"arrangement\"",
        Field::Level => "an integer: 10, 20, 30, 40, 50 or 60",
        Field::Operand =>
            "\"power\", \"powers\", \"provinces\", \"order\", \"arrangement\" or, if the word forms a press, \"press\"",
    }
}

/// A fault of a key, and the part of its value that has it. It is written as the path of the part.
#[derive(Clone, Copy)]
struct Finding {
    key: Key,
    part: ValuePart,
    fault: SettingsError,
}

impl Finding {
    /// Returns the type and the range of the part.
    fn must_be(self) -> &'static str
        ensures { result.now ≡ part_words self.key self.part }
    {
        match self.part {
            ValuePart::Whole => value_text_of(self.key),
            ValuePart::Entry(_) => entry_text_of(self.key),
            ValuePart::Member(_, field) => field_text_of(field),
        }
    }
}

impl fmt::Display for Finding {
    ghost output = { λ finding. Some (path_text finding.key finding.part) };

    fn fmt<W: fmt::Write>(&self, f: &mut Formatter<W>) -> fmt::Result {
        let key = self.key;
        match self.part {
            ValuePart::Whole => write!(f, "{key}"),
            ValuePart::Entry(index) => write!(f, "{key}[{index}]"),
            ValuePart::Member(index, field) => write!(f, "{key}[{index}].{field}"),
        }
    }
}

/// The line of a text at which a fault is, if a scan finds it.
#[derive(Clone, Copy)]
struct LineNumber {
    line: Option<usize>,
}

impl fmt::Display for LineNumber {
    ghost output = { λ place. Some (place_text place.line) };

    fn fmt<W: fmt::Write>(&self, f: &mut Formatter<W>) -> fmt::Result {
        match self.line {
            Some(line) => write!(f, "line {line}: "),
            None => f.write_str(""),
        }
    }
}

/// The known key that an unknown one resembles, if there is one.
#[derive(Clone, Copy)]
struct Likeness {
    known: Option<Key>,
}

impl fmt::Display for Likeness {
    ghost output = { λ likeness. Some (likeness_text likeness.known) };

    fn fmt<W: fmt::Write>(&self, f: &mut Formatter<W>) -> fmt::Result {
        match self.known {
            Some(known) => write!(f, "; did you mean \"{known}\"?"),
            None => f.write_str(""),
        }
    }
}

/// Returns the line of a spot in a text.
fn place_of(text: &str, spot: Option<Spot<'_>>) -> LineNumber {
    LineNumber {
        line: spot
            .and_then(|spot| spot.front_in(text))
            .map(|front| last_line(front)),
    }
}

/// Writes the line of an unknown key, with the known key that it resembles.
fn write_unknown<A: SettingsMemory>(
    alloc: A,
    text: &str,
    key: &str,
    report: &mut Vec<u8, A>,
) -> Result<(), AllocError>
    ensures written { OnOk result ((line : List ℕ) × IsUnknownLine key.now line
        × (report.new.items ≡ report.old.items ++ line)) }
    ensures refused { OnErr result (WasRefused A.Memory.Refuses) }
{
    let place = place_of(text, spot_of(text, key, ValuePart::Whole));
    let known = nearest_key(alloc, key)?;
    let likeness = Likeness { known };
    A::append_text(
        report,
        format_args_nl!("{place}unknown key \"{key}\"{likeness}"),
    )
}

/// Returns the number of bytes of a text before a key; those of the whole text if the key is not found.
fn offset_of(text: &str, key: &str) -> usize {
    match spot_of(text, key, ValuePart::Whole).and_then(|spot| spot.front_in(text)) {
        Some(front) => front.len(),
        None => text.len(),
    }
}

/// Returns the unknown keys of a document.
fn unknown_keys<'a, A: Growth>(alloc: A, table: &'a Table) -> Result<Vec<&'a str, A>, AllocError>
    ensures keys { IfOk result (λ unknown. map (λ key. key.now) unknown.items ≡ unknown_keys (table_view table.now)) }
    ensures refused { OnErr result (WasRefused A.Refuses) }
{
    let mut unknown = Vec::new(alloc);
    for key in table.keys() {
        if !is_known(key.as_str()) {
            A::append(&mut unknown, &[key.as_str()])?;
        }
    }
    Ok(unknown)
}

/// Writes the lines of unknown keys, in their order.
fn write_unknown_lines<A: SettingsMemory>(
    alloc: A,
    text: &str,
    keys: &[&str],
    report: &mut Vec<u8, A>,
) -> Result<(), AllocError>
    ensures written { OnOk result ((lines : List ℕ) × AreParts IsUnknownLine (map (λ key. key.now) keys.now) lines
        × (report.new.items ≡ report.old.items ++ lines)) }
    ensures refused { OnErr result (WasRefused A.Memory.Refuses) }
{
    let mut rest = keys;
    while let [key, others @ ..] = rest {
        write_unknown(alloc, text, key, report)?;
        rest = others;
    }
    Ok(())
}

/// Writes the lines of the unknown keys of a document, in the order of the text.
fn write_all_unknown<A: SettingsMemory>(
    alloc: A,
    table: &Table,
    text: &str,
    report: &mut Vec<u8, A>,
) -> Result<(), AllocError>
    ensures written { OnOk result ((lines : List ℕ) × AreUnknownLines (table_view table.now) lines
        × (report.new.items ≡ report.old.items ++ lines)) }
    ensures refused { OnErr result (WasRefused A.Memory.Refuses) }
{
    let mut unknown = unknown_keys(alloc, table)?;
    unknown.sort_unstable_by_key(|key| offset_of(text, key));
    write_unknown_lines(alloc, text, unknown.as_slice(), report)
}

/// Returns true if a text reads as a value that TOML prints as this other text.
fn reads_as<A: SettingsMemory>(alloc: A, written: &str, printed: &str) -> Result<bool, AllocError>
    ensures same { result ≡ Ok true → ReadsAs written.now printed.now }
    ensures refused { OnErr result (IsMemoryRefused A.Memory.Refuses A.SettingsMemory.Refuses) }
{
    match alloc.value(written) {
        Ok(value) => Ok(alloc.value_text(&value)?.as_str() == printed),
        Err(error) if error.is_memory() => Err(AllocError),
        Err(_) => Ok(false),
    }
}

/// Returns a value as it is written, if it is found and is in one line; else as TOML.
fn shown_value<A: SettingsMemory>(
    alloc: A,
    spot: Option<Spot<'_>>,
    value: &Value,
) -> Result<String, AllocError>
    ensures text { IfOk result (λ text. IsShownValue (view value.now) (string_bytes text)) }
    ensures refused { OnErr result (IsMemoryRefused A.Memory.Refuses A.SettingsMemory.Refuses) }
{
    let printed = alloc.value_text(value)?;
    let Some(written) = spot.and_then(|spot| spot.value_in_line()) else {
        return Ok(printed);
    };
    if reads_as(alloc, written, printed.as_str())? {
        alloc.copy(written)
    } else {
        Ok(printed)
    }
}

/// Returns in words how a value fails.
fn failing_text(fault: SettingsError) -> &'static str
    ensures { result.now ≡ failing_words fault }
{
    match fault {
        SettingsError::WrongType(_) => " is of the wrong type",
        SettingsError::NotToml
        | SettingsError::Unknown
        | SettingsError::Missing(_)
        | SettingsError::Range(_)
        | SettingsError::Memory => " is out of range",
    }
}

/// Writes a fault: its line, the key with the entry and the field, the value of that, and what it must be.
fn write_fault<A: SettingsMemory>(
    alloc: A,
    text: &str,
    finding: Finding,
    value: Option<&Value>,
    report: &mut Vec<u8, A>,
) -> Result<(), AllocError>
    ensures written { OnOk result ((line : List ℕ)
        × IsFaultLine finding.key finding.part finding.fault (option_map (λ value. view value.now) value.entry) line
        × (report.new.items ≡ report.old.items ++ line)) }
    ensures refused { OnErr result (IsMemoryRefused A.Memory.Refuses A.SettingsMemory.Refuses) }
{
    let range = finding.must_be();
    let Some(value) = value else {
        return A::append_text(
            report,
            format_args_nl!("missing {finding}; it must be {range}"),
        );
    };
    let spot = spot_of(text, finding.key.text(), finding.part);
    let place = place_of(text, spot);
    let shown = shown_value(alloc, spot, value)?;
    let failing = failing_text(finding.fault);
    A::append_text(
        report,
        format_args_nl!("{place}{finding} = {shown}{failing}; it must be {range}"),
    )
}

/// Writes the fault of a key, if it has one.
fn write_fault_of<A: SettingsMemory>(
    alloc: A,
    table: &Table,
    text: &str,
    key: Key,
    report: &mut Vec<u8, A>,
) -> Result<(), AllocError>
    ensures written { OnOk result ((part : List ℕ) × IsFaultPart key (fault_at key (table_view table.now))
        (get_member (key_text key) (table_view table.now)) part × (report.new.items ≡ report.old.items ++ part)) }
    ensures refused { OnErr result (IsMemoryRefused A.Memory.Refuses A.SettingsMemory.Refuses) }
{
    let Some(fault) = fault_at(table, key) else {
        return Ok(());
    };
    let value = found(table, key);
    let part = faulty_part(key, fault, value);
    let finding = Finding { key, part, fault };
    write_fault(alloc, text, finding, part_value(part, value), report)
}

/// Writes the faults of some keys, in their order.
fn write_key_faults<A: SettingsMemory>(
    alloc: A,
    table: &Table,
    text: &str,
    keys: &[Key],
    report: &mut Vec<u8, A>,
) -> Result<(), AllocError>
    ensures written { OnOk result ((faults : List ℕ) × AreFaultLines (table_view table.now) keys.now faults
        × (report.new.items ≡ report.old.items ++ faults)) }
    ensures refused { OnErr result (IsMemoryRefused A.Memory.Refuses A.SettingsMemory.Refuses) }
{
    let mut rest = keys;
    while let [key, others @ ..] = rest {
        write_fault_of(alloc, table, text, *key, report)?;
        rest = others;
    }
    Ok(())
}

/// Writes all faults of a document: the unknown keys, and then each key's in the order of `Key`.
fn write_faults<A: SettingsMemory>(
    alloc: A,
    table: &Table,
    text: &str,
    report: &mut Vec<u8, A>,
) -> Result<(), AllocError>
    ensures written { OnOk result ((lines : List ℕ) × IsDocumentReport false (table_view table.now) lines
        × (report.new.items ≡ report.old.items ++ lines)) }
    ensures refused { OnErr result (IsMemoryRefused A.Memory.Refuses A.SettingsMemory.Refuses) }
{
    write_all_unknown(alloc, table, text, report)?;
    write_key_faults(alloc, table, text, &Key::ALL, report)
}

/// Returns the line of a key that is not set and that is no number: its default as TOML, which is marked. A path has none,
/// so a comment says it. The two addresses are always set.
fn unset_line(key: Key) -> &'static str
    ensures { result.now ≡ unset_line key }
{
    match key {
        Key::Words => "words = [] # default\n",
        Key::Endless => "endless = false # default\n",
        Key::Allow => "allow = [\"0.0.0.0/0\", \"::/0\"] # default\n",
        Key::Control => "# control is not set\n",
        Key::Listen
        | Key::Server
        | Key::TopLevel
        | Key::MaxBody
        | Key::MaxDepth
        | Key::ImSeconds
        | Key::MaxSessions
        | Key::Sessions
        | Key::Turns
        | Key::IdleSeconds
        | Key::StallSeconds
        | Key::MaxPerAddress
        | Key::MaxRefused => "",
    }
}

/// Writes the line of a key that is not set.
fn write_default<A: Growth>(key: Key, report: &mut Vec<u8, A>) -> Result<(), AllocError>
    ensures written { OnOk result (report.new.items ≡ report.old.items ++ default_line key) }
    ensures refused { OnErr result (WasRefused A.Refuses) }
{
    match key.default_number() {
        Some(number) => A::append_text(report, format_args_nl!("{key} = {number} # default")),
        None => A::append(report, unset_line(key).as_bytes()),
    }
}

/// Writes the value of a key as TOML, or the line of one that is not set.
fn write_value_of<A: SettingsMemory>(
    alloc: A,
    table: &Table,
    key: Key,
    report: &mut Vec<u8, A>,
) -> Result<(), AllocError>
    ensures written { OnOk result ((line : List ℕ) × IsValueLine key (get_member (key_text key) (table_view table.now)) line
        × (report.new.items ≡ report.old.items ++ line)) }
    ensures refused { OnErr result (WasRefused A.Memory.Refuses) }
{
    let Some(value) = found(table, key) else {
        return write_default(key, report);
    };
    let shown = alloc.value_text(value)?;
    A::append_text(report, format_args_nl!("{key} = {shown}"))
}

/// Writes the values of some keys, in their order.
fn write_values<A: SettingsMemory>(
    alloc: A,
    table: &Table,
    keys: &[Key],
    report: &mut Vec<u8, A>,
) -> Result<(), AllocError>
    ensures written { OnOk result ((lines : List ℕ) × AreValueLines (table_view table.now) keys.now lines
        × (report.new.items ≡ report.old.items ++ lines)) }
    ensures refused { OnErr result (WasRefused A.Memory.Refuses) }
{
    let mut rest = keys;
    while let [key, others @ ..] = rest {
        write_value_of(alloc, table, *key, report)?;
        rest = others;
    }
    Ok(())
}

/// Writes the faults of a document, or its values if it has none. Returns true if it has none.
fn judge_table<A: SettingsMemory>(
    alloc: A,
    table: &Table,
    text: &str,
    report: &mut Vec<u8, A>,
) -> Result<bool, AllocError>
    ensures judged { IfOk result (λ good. good ≡ is_right (table_view table.now)) }
    ensures written { IfOk result (λ good. (lines : List ℕ)
        × IsDocumentReport (is_right (table_view table.now)) (table_view table.now) lines
        × (report.new.items ≡ report.old.items ++ lines)) }
    ensures refused { OnErr result (IsMemoryRefused A.Memory.Refuses A.SettingsMemory.Refuses) }
{
    if is_right(table) {
        write_values(alloc, table, &Key::ALL, report)?;
        return Ok(true);
    }
    write_faults(alloc, table, text, report)?;
    Ok(false)
}

/// Returns the line of a text's last byte, counted from 1.
fn last_line(front: &str) -> usize {
    let lines = front.lines().count();
    match front.as_bytes().last() {
        None | Some(b'\n') => lines.saturating_add(1),
        Some(_) => lines,
    }
}

/// Writes that a text is no TOML document, with the line and the reason.
fn write_no_document<A: Growth>(
    text: &str,
    error: &TomlError,
    report: &mut Vec<u8, A>,
) -> Result<(), AllocError>
    ensures written { OnOk result ((lines : List ℕ) × IsSettingsReport None lines
        × (report.new.items ≡ report.old.items ++ lines)) }
    ensures refused { OnErr result (WasRefused A.Refuses) }
{
    let front = match error.span() {
        Some(span) => text.get(..span.start).unwrap_or(""),
        None => "",
    };
    let line = last_line(front);
    let why = error.message();
    A::append_text(
        report,
        format_args_nl!("line {line}: settings are not TOML: {why}"),
    )
}

/// Judges a text as a document, and writes its report.
fn write_report<A: SettingsMemory>(
    alloc: A,
    text: &str,
    report: &mut Vec<u8, A>,
) -> Result<bool, AllocError>
    ensures judged { IfOk result (λ good. good ≡ is_right_document (parse_document text.now)) }
    ensures written { IfOk result (λ good. (lines : List ℕ) × IsSettingsReport (parse_document text.now) lines
        × (report.new.items ≡ report.old.items ++ lines)) }
    ensures refused { OnErr result (IsMemoryRefused A.Memory.Refuses A.SettingsMemory.Refuses) }
{
    match alloc.document(text) {
        Ok(table) => judge_table(alloc, &table, text, report),
        Err(error) if error.is_memory() => Err(AllocError),
        Err(error) => {
            write_no_document(text, &error, report)?;
            Ok(false)
        }
    }
}

/// Judges a text of settings, and writes its report (`IsSettingsReport`). For a text without a fault this is the value
/// of each key, as TOML. For another it is the fault of each key: the line, the key with the entry and the field at fault,
/// its value, and what that must be.
///
/// `judged`: it returns true exactly if `read_settings` accepts the text (`judged_settings`).
///
/// `written`: the report has a line for each key: its value or default. If there is a fault, it has one for each unknown
/// key, and then one for each key with a fault. The value is in it as TOML prints it, or by a text that reads as a value
/// printed so.
///
/// `kept`: after `Memory` the output is unchanged.
///
/// `caused`: `Memory` and `Write` are returned only if memory was refused or a write failed.
///
/// Not said: the number of a line, the order of the unknown keys, the known key that an unknown one resembles, the reason
/// why a text is no document.
pub fn judge_settings<A: SettingsMemory, O: Sink>(
    alloc: A,
    text: &str,
    output: &mut O,
) -> Result<bool, JudgeFault>
    ensures judged { IfOk result (λ good. good ≡ is_ok (judged_settings (parse_document text.now))) }
    ensures written { IfOk result (λ good. (report : List ℕ) × IsSettingsReport (parse_document text.now) report
        × Appends (O.contents output.old) (O.contents output.new) report) }
    ensures kept { IfErr result (λ fault. fault ≡ JudgeFault.Memory → output.new ≡ output.old) }
    ensures caused { IfErr result (IsJudgeCause (IsMemoryRefused A.Memory.Refuses A.SettingsMemory.Refuses) (HasFailed O.Fails)) }
{
    let mut report = Vec::new(alloc);
    let Ok(good) = write_report(alloc, text, &mut report) else {
        return Err(JudgeFault::Memory);
    };
    match output.write_whole(report.as_slice()) {
        Ok(()) => Ok(good),
        Err(_) => Err(JudgeFault::Write),
    }
}
