//! `settings --try`: what a run begins with, tried once.
//!
//! The operating system decides what passes, so the contracts are about any results.

ghost use Rattle.std.specs.Prelude.{◌≡◌, ◌≤◌, IfOk, OnErr, OnOk};
ghost use Rattle.std.specs.Io.KnownBytes.{Appends};
ghost use Rattle.std.specs.Option.{is_some};
ghost use Rattle.daide_causes.specs.Causes.{HasFailed};
ghost use Rattle.daide_tools.specs.Endings.{TriesAddresses};
ghost use Rattle.daide_tools.specs.Trials.{control_text, listen_text, passed_text, server_text, trials_status};

use crate::faults::{CLEAN, FAULT, print_fault};
use daide_causes::Sink;
use daide_settings::{JudgeFault, Key, Settings};
use daide_sockets::addresses::{AddressFault, try_connect, try_listen};
use daide_sockets::control_listener::{FolderLock, try_control};
use std::io;
use std::io::Write;
use std::net::{Net, SocketAddr};
use std::rt::Clock;

/// The results of the trials of some settings.
#[derive(Clone, Copy)]
struct Trials {
    /// Of `listen`: the address at which a listener was.
    listen: Result<SocketAddr, AddressFault>,
    /// Of `server`: the address that was reached.
    server: Result<SocketAddr, AddressFault>,
    /// Of the path of `control`; it passes if the settings have none.
    control: Result<(), AddressFault>,
}

/// Tries what a run with these settings begins with. No listener is left when the server is tried, so that the trial does
/// not reach itself.
fn trials_of<R: AllocGlobal + FolderLock + Clock + Net>(rt: &R, settings: &Settings) -> Trials {
    let listen = try_listen(rt, settings.listen.as_str());
    let server = try_connect(rt, settings.server.as_str());
    let control = match &settings.control {
        Some(path) => try_control(rt, path.as_str()),
        None => Ok(()),
    };
    Trials {
        listen,
        server,
        control,
    }
}

/// Writes a comment of TOML if the trial of `listen` passed.
fn write_listen<O: Sink>(listen: Result<SocketAddr, AddressFault>, output: &mut O) -> io::Result<()>
    ensures written { OnOk result (Appends (O.contents output.old) (O.contents output.new) (listen_text listen)) }
    ensures failed { OnErr result (HasFailed O.Fails) }
{
    match listen {
        Ok(address) => output.write_text(format_args_nl!("# listen: {address} is free")),
        Err(_) => Ok(()),
    }
}

/// Writes a comment of TOML if the trial of `server` passed.
fn write_server<O: Sink>(server: Result<SocketAddr, AddressFault>, output: &mut O) -> io::Result<()>
    ensures written { OnOk result (Appends (O.contents output.old) (O.contents output.new) (server_text server)) }
    ensures failed { OnErr result (HasFailed O.Fails) }
{
    match server {
        Ok(address) => output.write_text(format_args_nl!("# server: reached at {address}")),
        Err(_) => Ok(()),
    }
}

/// Writes a comment of TOML if the settings have a control socket and its trial passed.
fn write_control<O: Sink>(
    has_control: bool,
    control: Result<(), AddressFault>,
    output: &mut O,
) -> io::Result<()>
    ensures written { OnOk result (Appends (O.contents output.old) (O.contents output.new)
        (control_text has_control control)) }
    ensures failed { OnErr result (HasFailed O.Fails) }
{
    match (has_control, control) {
        (true, Ok(())) => output.write_whole(b"# control: its path is free\n"),
        _ => Ok(()),
    }
}

/// Writes a comment of TOML for each trial that passed.
fn write_passed<O: Sink>(settings: &Settings, trials: Trials, output: &mut O) -> io::Result<()>
    ensures written { OnOk result (Appends (O.contents output.old) (O.contents output.new)
        (passed_text (is_some settings.now.control) trials)) }
    ensures failed { OnErr result (HasFailed O.Fails) }
{
    write_listen(trials.listen, output)?;
    write_server(trials.server, output)?;
    write_control(settings.control.is_some(), trials.control, output)
}

/// Reports the fault of the value of a key, if it has one. Returns true if it has.
fn print_address_fault<E: Write>(
    key: Key,
    value: &str,
    fault: Option<AddressFault>,
    errors: &mut E,
) -> io::Result<bool>
    ensures { IfOk result (λ failed. failed ≡ is_some fault) }
{
    let Some(fault) = fault else {
        return Ok(false);
    };
    print_fault(errors, format_args!("{key} {value}: {fault}"), FAULT)?;
    Ok(true)
}

/// Reports each trial that failed. Returns the status.
fn print_failed<E: Write>(settings: &Settings, trials: Trials, errors: &mut E) -> io::Result<u8>
    ensures { IfOk result (λ status. status ≡ trials_status trials) }
{
    let listen = settings.listen.as_str();
    let mut has_failed = print_address_fault(Key::Listen, listen, trials.listen.err(), errors)?;
    let server = settings.server.as_str();
    has_failed |= print_address_fault(Key::Server, server, trials.server.err(), errors)?;
    let control = match &settings.control {
        Some(path) => path.as_str(),
        None => "",
    };
    has_failed |= print_address_fault(Key::Control, control, trials.control.err(), errors)?;
    Ok(if has_failed { FAULT } else { CLEAN })
}

/// Tries the addresses of settings without a fault, and reports what passed and what failed. Returns the status.
pub(crate) fn try_settings<R: AllocGlobal + FolderLock + Clock + Net, O: Sink, E: Write>(
    rt: &R,
    settings: &Settings,
    output: &mut O,
    errors: &mut E,
) -> io::Result<u8>
    ensures bounded { IfOk result (λ status. status ≤ FAULT) }
    ensures tried { IfOk result (TriesAddresses (HasFailed O.Fails) settings.now (O.contents output.old) (O.contents output.new)) }
{
    let trials = trials_of(rt, settings);
    match write_passed(settings, trials, output) {
        Ok(()) => print_failed(settings, trials, errors),
        Err(_) => print_fault(errors, JudgeFault::Write, FAULT),
    }
}
