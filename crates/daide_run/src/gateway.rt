//! The gateway at the addresses of its settings.

ghost use Rattle.std.specs.Prelude.{◌≡◌, List, [], IfOk, IfErr, OnOk};
ghost use Rattle.daide_io.specs.System.{SystemCall, TransitsBy};
ghost use Rattle.daide_event_loop.specs.Served.{IsWholeRun};
ghost use Rattle.daide_event_loop.specs.Serving.{IsServeCause, GivesUp};
ghost use Rattle.daide_run.specs.Gateway.{IsBeforeServing, fault_by, Announces};
ghost use Rattle.daide_sockets.specs.Rows.{AreRowsOf};
ghost use Rattle.daide_log.specs.Recording.{HasFailed};

use daide_event_loop::{ServeFault, serve};
use daide_frame::Memory;
use daide_io::{Ports, System};
use daide_log::Sink;
use daide_settings::{Key, Settings};
use daide_sockets::bound_sockets::{BindError, BoundSockets, bind_sockets};
use daide_sockets::control_listener::{FolderLock, bind_control};
use daide_sockets::os_network::OsNetwork;
use daide_status::VERSION;
use std::fmt::Display;
use std::io::{ErrorKind, Write};
use std::net::{Net, SocketAddr};
use std::rt::Clock;
use thiserror::Error;

/// Logs where a run listens, its server, and how many sessions it serves at once.
fn log_run<E: Write>(listen: impl Display + Drop, settings: &Settings, errors: &mut E) {
    let _ = writeln!(
        errors,
        "daide-gate: listening on {listen}, server {}, {} sessions, version {VERSION}",
        settings.server.as_str(),
        settings.max_sessions,
    );
}

/// Logs the beginning of a run if its sessions are logged, with its addresses as in the settings. If the system chose
/// the port, the address with that port is logged in any case. The run goes on if the line cannot be written.
pub(crate) fn log_beginning<E: Write>(
    is_verbose: bool,
    chosen: Option<SocketAddr>,
    settings: &Settings,
    errors: &mut E,
) {
    match (is_verbose, chosen) {
        (true, None) => log_run(settings.listen.as_str(), settings, errors),
        (true, Some(address)) => log_run(address, settings, errors),
        (false, Some(address)) => {
            let _ = writeln!(errors, "daide-gate: listening on {address}");
        }
        (false, None) => {}
    }
}

/// Why a gateway does not begin, or ends early.
#[derive(Clone, Copy, Debug, Error)]
pub enum GatewayFault {
    /// The system knows no address of the host of this key.
    #[error("unknown name")]
    Name(Key),
    /// The value of this key, an address or the path of the control socket, cannot be bound, or the system has no
    /// descriptor for the network. With the system's error.
    #[error("cannot listen")]
    Listen(Key, ErrorKind),
    /// The allocator refused the addresses or the table of sockets.
    #[error("out of memory")]
    Memory,
    /// The run ended before all its bots were served.
    #[error("{0}")]
    Serve(ServeFault),
}

/// Converts an error of the sockets to a fault of the gateway.
fn fault_of(fault: BindError) -> GatewayFault
    ensures { result ≡ fault_by fault }
{
    match fault {
        BindError::Name(key) => GatewayFault::Name(key),
        BindError::Listen(cause) => GatewayFault::Listen(Key::Listen, cause),
        BindError::Memory => GatewayFault::Memory,
    }
}

/// Binds the control socket, if the settings have one, and adds its listener to the network.
fn add_control<R: FolderLock + Clock + Net>(
    rt: &R,
    settings: &Settings,
    network: &mut OsNetwork<'_, R>,
) -> Result<(), GatewayFault>
    ensures { IfErr result (IsBeforeServing settings.now) }
{
    let Some(path) = &settings.control else {
        return Ok(());
    };
    match bind_control(rt, path.as_str()) {
        Ok(listener) => {
            network.set_control(listener);
            Ok(())
        }
        Err(error) => Err(GatewayFault::Listen(Key::Control, error.kind())),
    }
}

/// Looks up the addresses of the settings, listens at one, and creates the table of sockets. Then binds the control
/// socket, if the settings have one. Serves no bot yet.
#[tactic(auto, using(crate::proofs::RunLemmas::none_taken))]
pub fn bind<'r, R: AllocGlobal + FolderLock + Clock + Net>(
    rt: &'r R,
    settings: &Settings,
) -> Result<BoundSockets<'r, R>, GatewayFault>
    ensures rows { IfOk result (λ bound. AreRowsOf bound.table []) }
    ensures refused { IfErr result (IsBeforeServing settings.now) }
{
    let mut bound = match bind_sockets(rt, settings) {
        Ok(bound) => bound,
        Err(fault) => return Err(fault_of(fault)),
    };
    add_control(rt, settings, &mut bound.network)?;
    Ok(bound)
}

/// Prints `listening`. The run goes on if it cannot be written.
fn announce<O: Sink>(output: &mut O)
    ensures { Announces (HasFailed O.Fails) (O.contents output.old) (O.contents output.new) }
{
    match output.write_whole(b"listening\n") {
        Ok(()) => {
            let _ = output.flush();
        }
        Err(_) => {}
    }
}

/// Writes that it listens, and serves until all bots were served. The caller keeps the system, so the clauses name its
/// old and new value.
///
/// `announced`: it writes `listening` and a line feed to the output, and nothing else, unless a write failed.
///
/// `served`: if it returns `Ok`, the calls that took the system from its old to its new value are those of a whole run.
///
/// `given_up`: else they are those of a run that was given up for its fault.
///
/// `refused`: it returns `Memory` as `serve` does, only after the allocator refused room.
pub fn serve_on<A: Memory + Copy, P: Ports, S: System<P>, O: Sink>(
    alloc: A,
    settings: &Settings,
    system: &mut S,
    output: &mut O,
) -> Result<(), ServeFault>
    ensures announced { Announces (HasFailed O.Fails) (O.contents output.old) (O.contents output.new) }
    ensures refused { IfErr result (IsServeCause A.Refuses settings.now) }
    ensures served { OnOk result ((trace : List (SystemCall P))
        × TransitsBy S.transition system.old trace system.new × IsWholeRun P.transition settings.now trace) }
    ensures given_up { IfErr result (λ fault. (trace : List (SystemCall P))
        × TransitsBy S.transition system.old trace system.new
        × GivesUp A.Refuses P.transition settings.now fault trace) }
{
    announce(output);
    serve(alloc, settings, system)
}
