//! Reads the settings of a document.

ghost use Rattle.std.specs.Prelude.{◌≡◌, ◌≢◌, ◌⊎◌, ◌<◌, ◌^◌, ℕ, true, IfOk, IfErr, IsSomeAnd, OnErr, MatchResult, Ok, Err, option_map, string_bytes};
ghost use Rattle.std.specs.Result.{result_err};
ghost use Rattle.std.specs.List.{list_all};
ghost use Rattle.std.specs.BTreeMap.{keys};
ghost use Rattle.toml.specs.Data.{get_member};
ghost use Rattle.toml.specs.View.{view, table_view};
ghost use Rattle.toml.specs.Parse.{parse_document};
ghost use Rattle.daide_protocol.specs.Bounds.{IsSessionCount};
ghost use Rattle.daide_protocol.specs.Config.{config_fault};
ghost use Rattle.daide_settings.specs.Causes.{IsSettingsCause, IsFaultBy};
ghost use Rattle.daide_settings.specs.Given.{given_of};
ghost use Rattle.daide_settings.specs.LimitSettings.{config_judged, run_limits_judged};
ghost use Rattle.daide_settings.specs.Settings.{key_text, is_known as is_known_key, is_in_range};
ghost use Rattle.daide_settings.specs.Settings.{address_of, read_flag, read_number as judged_number, read_text, has_only_known as knows_all};
ghost use Rattle.daide_settings.specs.Settings.{judged_members, judged_settings};

use crate::settings::address::{Address, is_address};
use crate::settings::allow::ranges_at;
use crate::settings::control_path::ControlPath;
use crate::settings::key::{Key, is_known};
use crate::settings::memory::SettingsMemory;
use crate::settings::words::words_at;
use crate::settings::{Settings, SettingsError};
use daide_protocol::config::Config;
use std::alloc::AllocError;
use toml::{Table, Value};

/// The limits of a whole run.
#[derive(Clone, Copy)]
struct RunLimits {
    im_seconds: u32,
    max_sessions: usize,
    sessions: u32,
    turns: u64,
    idle_seconds: u32,
}

/// Returns true if all keys of a table are known.
fn keys_are_known(table: &Table) -> bool
    ensures { result ≡ list_all (λ key. is_known_key (string_bytes key)) (keys table.now) }
{
    table.keys().all(|key| is_known(key.as_str()))
}

/// Returns true if a document has only known keys.
pub(super) fn has_only_known(table: &Table) -> bool
    ensures { result ≡ knows_all (table_view table.now) }
{
    keys_are_known(table)
}

/// Returns the value of a key.
pub(super) fn found<'a>(table: &'a Table, key: Key) -> Option<&'a Value>
    ensures { option_map (λ value. view value.now) result ≡ get_member (key_text key) (table_view table.now) }
{
    table.get(key.text())
}

/// Returns the address of a key. Fails with `Missing`, then with `WrongType`, then with `Range`.
fn address_at<'a>(table: &'a Table, key: Key) -> Result<&'a str, SettingsError>
    ensures { let judged = address_of key (get_member (key_text key) (table_view table.now)) in
        MatchResult result (λ text. judged ≡ Ok text.now) (λ fault. judged ≡ Err fault) }
{
    let Some(value) = found(table, key) else {
        return Err(SettingsError::Missing(key));
    };
    let Some(text) = value.as_str() else {
        return Err(SettingsError::WrongType(key));
    };
    if !key.is_in_range(text.len() as u64) || !is_address(text.as_bytes()) {
        return Err(SettingsError::Range(key));
    }
    Ok(text)
}

/// Returns the number of a key, or its default. Fails with `Missing`, then with `WrongType`, then with `Range`.
fn number_at(table: &Table, key: Key) -> Result<u64, SettingsError>
    ensures judged { result ≡ judged_number key (get_member (key_text key) (table_view table.now)) }
    ensures within { IfOk result (λ n. is_in_range key n ≡ true) }
{
    let Some(value) = found(table, key) else {
        return key.default_number().ok_or(SettingsError::Missing(key));
    };
    let Some(number) = value.as_integer() else {
        return Err(SettingsError::WrongType(key));
    };
    match u64::try_from(number) {
        Ok(number) if key.is_in_range(number) => Ok(number),
        _ => Err(SettingsError::Range(key)),
    }
}

/// Returns the number of a key whose range is within 16 bits, as `number_at` does.
fn u16_at(table: &Table, key: Key) -> Result<u16, SettingsError>
    requires { (n : ℕ) → is_in_range key n ≡ true → n < 2 ^ 16 }
    ensures judged { result ≡ judged_number key (get_member (key_text key) (table_view table.now)) }
    ensures within { IfOk result (λ n. is_in_range key n ≡ true) }
{
    match u16::try_from(number_at(table, key)?) {
        Ok(number) => Ok(number),
        Err(_) => Err(SettingsError::Range(key)),
    }
}

/// Returns the number of a key whose range is within 32 bits, as `number_at` does.
fn u32_at(table: &Table, key: Key) -> Result<u32, SettingsError>
    requires { (n : ℕ) → is_in_range key n ≡ true → n < 2 ^ 32 }
    ensures { result ≡ judged_number key (get_member (key_text key) (table_view table.now)) }
{
    match u32::try_from(number_at(table, key)?) {
        Ok(number) => Ok(number),
        Err(_) => Err(SettingsError::Range(key)),
    }
}

/// Returns the flag of a key; false if the document does not have it. Fails with `WrongType`.
fn flag_at(table: &Table, key: Key) -> Result<bool, SettingsError>
    ensures { result ≡ read_flag key (get_member (key_text key) (table_view table.now)) }
{
    match found(table, key) {
        Some(value) => value.as_bool().ok_or(SettingsError::WrongType(key)),
        None => Ok(false),
    }
}

/// Returns the text of a key, if the document has it. Fails with `WrongType`, then with `Range`.
fn text_at<'a>(table: &'a Table, key: Key) -> Result<Option<&'a str>, SettingsError>
    ensures { let judged = read_text key (get_member (key_text key) (table_view table.now)) in
        MatchResult result (λ text. judged ≡ Ok (option_map (λ text. text.now) text)) (λ fault. judged ≡ Err fault) }
{
    let Some(value) = found(table, key) else {
        return Ok(None);
    };
    match value.as_str() {
        Some(text) if key.is_in_range(text.len() as u64) => Ok(Some(text)),
        Some(_) => Err(SettingsError::Range(key)),
        None => Err(SettingsError::WrongType(key)),
    }
}

/// Returns the fault of an address.
pub(super) fn address_fault(table: &Table, key: Key) -> Option<SettingsError>
    ensures { result ≡ result_err (address_of key (get_member (key_text key) (table_view table.now))) }
{
    match address_at(table, key) {
        Ok(_) => None,
        Err(fault) => Some(fault),
    }
}

/// Returns the fault of a number.
pub(super) fn number_fault(table: &Table, key: Key) -> Option<SettingsError>
    ensures { result ≡ result_err (judged_number key (get_member (key_text key) (table_view table.now))) }
{
    match number_at(table, key) {
        Ok(_) => None,
        Err(fault) => Some(fault),
    }
}

/// Returns the fault of a flag.
pub(super) fn flag_fault(table: &Table, key: Key) -> Option<SettingsError>
    ensures { result ≡ result_err (read_flag key (get_member (key_text key) (table_view table.now))) }
{
    match flag_at(table, key) {
        Ok(_) => None,
        Err(fault) => Some(fault),
    }
}

/// Returns the fault of a text.
pub(super) fn text_fault(table: &Table, key: Key) -> Option<SettingsError>
    ensures { result ≡ result_err (read_text key (get_member (key_text key) (table_view table.now))) }
{
    match text_at(table, key) {
        Ok(_) => None,
        Err(fault) => Some(fault),
    }
}

/// Returns the limits of each session. Fails with the first fault of their keys.
fn config_at(table: &Table) -> Result<Config, SettingsError>
    ensures judged { result ≡ config_judged (table_view table.now) }
    ensures right { IfOk result (λ config. config_fault config ≡ Ok tt) }
{
    Ok(Config {
        top_level: u16_at(table, Key::TopLevel)?,
        max_body: u16_at(table, Key::MaxBody)?,
        max_depth: u16_at(table, Key::MaxDepth)?,
    })
}

/// Returns the limits of the whole run. Fails with the first fault of their keys.
fn run_limits_at(table: &Table) -> Result<RunLimits, SettingsError>
    ensures judged { result ≡ run_limits_judged (table_view table.now) }
    ensures some { IfOk result (λ limits. IsSessionCount limits.max_sessions) }
{
    Ok(RunLimits {
        im_seconds: u32_at(table, Key::ImSeconds)?,
        max_sessions: usize::from(u16_at(table, Key::MaxSessions)?),
        sessions: u32_at(table, Key::Sessions)?,
        turns: number_at(table, Key::Turns)?,
        idle_seconds: u32_at(table, Key::IdleSeconds)?,
    })
}

/// The texts of settings, copied.
type Copies = (Address, Address, Option<ControlPath>);

/// Copies both addresses, and the path if there is one.
fn copies_of<A: SettingsMemory>(
    alloc: A,
    listen: &str,
    server: &str,
    control: Option<&str>,
) -> Result<Copies, AllocError>
    ensures copied { IfOk result (λ copies. (copies.0 ≡ listen.now) × (copies.1 ≡ server.now)
        × (copies.2 ≡ option_map (λ text. text.now) control.entry)) }
    ensures refused { OnErr result (A.SettingsMemory.Refuses listen.now
        ⊎ (A.SettingsMemory.Refuses server.now ⊎ IsSomeAnd (option_map (λ text. text.now) control.entry) A.SettingsMemory.Refuses)) }
{
    let listen = Address::new(alloc, listen)?;
    let server = Address::new(alloc, server)?;
    let control = ControlPath::of(alloc, control)?;
    Ok((listen, server, control))
}

/// Reads the settings of a document.
fn settings_of<A: SettingsMemory>(alloc: A, table: &Table) -> Result<Settings, SettingsError>
    ensures judged { IfOk result (λ settings. judged_members (table_view table.now) ≡ Ok (given_of settings)) }
    ensures refused { IfErr result (IsFaultBy A.SettingsMemory.Refuses (judged_members (table_view table.now))) }
{
    if !has_only_known(table) {
        return Err(SettingsError::Unknown);
    }
    let listen = address_at(table, Key::Listen)?;
    let server = address_at(table, Key::Server)?;
    let config = config_at(table)?;
    let limits = run_limits_at(table)?;
    let words = words_at(found(table, Key::Words))?;
    let stall_seconds = u32_at(table, Key::StallSeconds)?;
    let endless = flag_at(table, Key::Endless)?;
    let allow = ranges_at(found(table, Key::Allow))?;
    let max_per_address = u16_at(table, Key::MaxPerAddress)?;
    let max_refused = u32_at(table, Key::MaxRefused)?;
    let control = text_at(table, Key::Control)?;
    let Ok((listen, server, control)) = copies_of(alloc, listen, server, control) else {
        return Err(SettingsError::Memory);
    };
    Ok(Settings {
        listen,
        server,
        config,
        im_seconds: limits.im_seconds,
        max_sessions: limits.max_sessions,
        sessions: limits.sessions,
        turns: limits.turns,
        idle_seconds: limits.idle_seconds,
        words,
        stall_seconds,
        endless,
        allow,
        max_per_address,
        max_refused,
        control,
    })
}

/// Reads the settings of a text.
///
/// `judged`: it returns `Ok` with exactly the settings that one judgement makes of the document that the crate `toml`
/// reads (`judged_settings`).
///
/// `refused`: every fault except refused memory is returned if and only if that judgement has it. The order is: no
/// TOML; an unknown key; then key by key, in the order of `Key`, missing, of the wrong type, out of range.
///
/// `cause`: `Memory` is returned only after memory was refused: for the document, or, if the document has no fault, for a
/// copy of an address or of the path (`IsSettingsCause`).
///
/// Not said: what a TOML document is, which `toml` defines.
pub fn read_settings<A: SettingsMemory>(alloc: A, text: &str) -> Result<Settings, SettingsError>
    ensures judged { IfOk result (λ settings. judged_settings (parse_document text.now) ≡ Ok (given_of settings)) }
    ensures refused { IfErr result (λ fault. fault ≢ SettingsError.Memory →
        judged_settings (parse_document text.now) ≡ Err fault) }
    ensures cause { IfErr result (IsSettingsCause A.SettingsMemory.Refuses text.now) }
{
    match alloc.document(text) {
        Ok(table) => settings_of(alloc, &table),
        Err(fault) if fault.is_memory() => Err(SettingsError::Memory),
        Err(_) => Err(SettingsError::NotToml),
    }
}
