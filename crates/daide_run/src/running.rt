//! A run of a text of settings: binds, serves until all bots were served, and finishes closing.

ghost use Rattle.std.specs.Prelude.{◌≡◌, [], None, IfErr};
ghost use Rattle.daide_log.specs.Recording.{HasFailed};
ghost use Rattle.daide_run.specs.Folder.{head_for, folder_head, record_events};
ghost use Rattle.daide_run.specs.Notices.{WasReported};
ghost use Rattle.daide_run.specs.Running.{RunEnds, Serves, SettingsRun, TextRuns, IsOfText, ending_by};
ghost use Rattle.daide_sockets.specs.Rows.{AreRowsOf};
ghost use Rattle.daide_sockets.specs.Scheduling.{run_state};

use crate::folder::{Folder, SessionFile};
use crate::gateway::{GatewayFault, bind, log_beginning, serve_on};
use crate::notices::NoticeLog;
use crate::recorded::RecordedSockets;
use daide_buffered_io::pool::Pool;
use daide_event_loop::ServeFault;
use daide_io::duplex::Duplex;
use daide_io::{Network, Ports};
use daide_log::{Recording, Sink};
use daide_settings::{Settings, SettingsError, read_settings};
use daide_sockets::bound_sockets::{BoundSockets, sockets_on};
use daide_sockets::connection::Connection;
use daide_sockets::control_listener::{ControlFile, FolderLock};
use daide_sockets::os_network::OsNetwork;
use daide_sockets::ports::SocketPorts;
use daide_sockets::system::Sockets;
use daide_sockets::table::SocketTable;
use std::alloc::Global;
use std::io::{ErrorKind, Write};
use std::net::{Net, SocketAddr};
use std::rt::{Clock, Files};
use thiserror::Error;

/// Why a run does not begin, or ends early.
#[derive(Clone, Copy, Debug, Error)]
pub enum RunFault {
    /// The text of the file has no settings.
    #[error("{0}")]
    Settings(SettingsError),
    /// The allocator refused the file's text or the sockets, or the listener cannot be registered.
    #[error("out of memory")]
    Memory,
    /// No file can be created in the folder of the records, with the system's error.
    #[error("record could not be written")]
    Record(ErrorKind),
    /// The gateway does not begin, or ends early.
    #[error("{0}")]
    Gateway(GatewayFault),
}

/// Returns the result of a run from the result of its loop.
fn ending_of(served: Result<(), ServeFault>) -> Result<(), RunFault>
    ensures { result ≡ ending_by served }
{
    match served {
        Ok(()) => Ok(()),
        Err(fault) => Err(RunFault::Gateway(GatewayFault::Serve(fault))),
    }
}

/// What a run reports of its sessions beside their counts.
#[derive(Clone, Copy)]
pub(crate) struct SessionReports<'f, F: Files> {
    /// Whether the beginning and the end of each session are logged.
    is_verbose: bool,
    /// The folder of the records, if sessions are recorded.
    folder: Option<&'f Folder<'f, F>>,
}

/// Returns the file of the control socket that was bound, if the settings have one.
fn control_file<'a, R: FolderLock>(
    rt: &'a R,
    settings: &'a Settings,
) -> Option<ControlFile<'a, R>> {
    match &settings.control {
        Some(path) => Some(ControlFile::at(rt, path.as_str())),
        None => None,
    }
}

/// Serves on the sockets of a run, and waits until the last sockets are closed. If there is a folder, it has a record of
/// each session.
fn serve_opened<
    N: Network,
    R: AllocGlobal + Clock,
    F: AllocGlobal + Files,
    O: Sink,
    E: NoticeLog + Sink + Drop,
>(
    rt: &R,
    settings: &Settings,
    folder: Option<&Folder<'_, F>>,
    sockets: &mut Sockets<'_, N, E>,
    output: &mut O,
) -> Result<(), ServeFault>
    ensures { Serves N.transition N.Connection.to_give N.Connection.taken N.Connection.calls
        ⟦<Recording<SocketPorts<'static, N::Connection>, SessionFile<F::File>> as Ports>⟧.transition
        (record_events ⟦<SessionFile<F::File> as Write>⟧.contents ⟦<SessionFile<F::File> as Sink>⟧.Fails E.Reported)
        (folder_head folder.entry) settings.now
        (HasFailed O.Fails) (O.contents output.old) (O.contents output.new)
        (run_state (sockets.old.poller.network, sockets.old.poller.table) (sockets.old.idle_time, sockets.old.stall_time)
        sockets.old.acceptor sockets.old.arrivals.items sockets.old.closings sockets.old.control) result }
{
    let mut system = RecordedSockets::new(sockets, folder, rt);
    let served = serve_on(rt.alloc(), settings, &mut system, output);
    system.finish();
    served
}

/// Serves on a network whose listeners are bound, with these settings, the addresses of the server, a table and a pool:
/// opens the sockets of the run, serves on them until all bots were served (`serve_on`), and waits for those that close.
/// If there is a folder, it has a record of each session.
///
/// `runs`: it returns `Memory`, and wrote nothing. Or the listeners were followed from this value of the network on, and it
/// wrote that it listens. Then the sockets evolved by the calls of a whole run of these settings, or, for a fault of
/// serving, by those of a run that was given up for it. At last it waited for the sockets that close. So
/// `sessions_come_once` and `bots_are_counted` hold of these calls. With a folder the ports with which a session begins
/// have the record of the session's number and its bot's address, or none, and a notice of that number was written, unless
/// that write failed (`HasOwnRecord`); without a folder they have none. If the record of a session broke off, a notice of
/// its number says so by the time that the next turn of the session begins, or that it is to rest or is retired
/// (`EndIsReported`). When a session is retired whose record has not failed, its file has the whole text, or a notice says
/// that it could not be written (`ClosesRecord`).
///
/// Not said: the value of the network at the end, since it is dropped; that a record that broke off is reported only once,
/// which tests of records show; that a file has the whole text before the line with the end of its session is written,
/// since no clause orders the writes to two streams.
pub(crate) fn run_on<
    'w,
    N: Network,
    R: AllocGlobal + Clock,
    F: AllocGlobal + Files,
    O: Sink,
    E: NoticeLog + Sink + Drop,
>(
    rt: &R,
    settings: &'w Settings,
    reports: SessionReports<'_, F>,
    resources: (N, &'w [SocketAddr], SocketTable, &'w Pool),
    output: &mut O,
    errors: E,
) -> Result<(), RunFault>
    requires { AreRowsOf resources.2 [] }
    ensures runs { RunEnds N.transition N.Connection.to_give N.Connection.taken N.Connection.calls
        ⟦<Recording<SocketPorts<'static, N::Connection>, SessionFile<F::File>> as Ports>⟧.transition
        (record_events ⟦<SessionFile<F::File> as Write>⟧.contents ⟦<SessionFile<F::File> as Sink>⟧.Fails E.Reported)
        (folder_head reports.entry.folder) settings.now (HasFailed O.Fails) resources.entry.0 (O.contents output.old)
        (O.contents output.new) result }
{
    let Some(mut sockets) = sockets_on(rt.alloc(), settings, resources, errors) else {
        return Err(RunFault::Memory);
    };
    sockets.set_verbose(reports.is_verbose);
    sockets.set_recorded(reports.folder.is_some());
    ending_of(serve_opened(rt, settings, reports.folder, &mut sockets, output))
}

/// Serves over sockets at the addresses of the settings: binds, and serves on what is bound (`run_on`). The file of
/// the control socket is removed at the end, if there is one.
fn serve_sockets<
    'r,
    R: AllocGlobal + FolderLock + Clock + Net,
    F: AllocGlobal + Files,
    O: Sink,
    E: Sink,
>(
    rt: &'r R,
    settings: &Settings,
    reports: SessionReports<'r, F>,
    output: &mut O,
    errors: &mut E,
) -> Result<(), RunFault>
    ensures { SettingsRun {F = Unit {0}} None ⟦<OsNetwork<'r, R> as Network>⟧.transition ⟦<Connection as Duplex>⟧.to_give
        ⟦<Connection as Duplex>⟧.taken ⟦<Connection as Duplex>⟧.calls
        ⟦<Recording<SocketPorts<'static, Connection>, SessionFile<F::File>> as Ports>⟧.transition
        (record_events ⟦<SessionFile<F::File> as Write>⟧.contents ⟦<SessionFile<F::File> as Sink>⟧.Fails
        (WasReported E.contents E.Fails)) (folder_head reports.entry.folder) settings.now
        (HasFailed O.Fails) (O.contents output.old) (O.contents output.new) result }
{
    let bound = match bind(rt, settings) {
        Ok(bound) => bound,
        Err(fault) => return Err(RunFault::Gateway(fault)),
    };
    let _file = control_file(rt, settings);
    let BoundSockets {
        network,
        chosen,
        servers,
        table,
        pool,
    } = bound;
    log_beginning(reports.is_verbose, chosen, settings, errors);
    let resources = (network, servers.as_slice(), table, &pool);
    run_on(rt, settings, reports, resources, output, errors)
}

/// Serves with settings. If there is the path of a folder, a record of each session is kept there. `is_verbose`: whether
/// the beginning and the end of each session are logged.
fn serve_reported<'r, R: AllocGlobal + FolderLock + Clock + Net, O: Sink, E: Sink>(
    rt: &'r R,
    settings: &Settings,
    records: Option<&'r str>,
    is_verbose: bool,
    output: &mut O,
    errors: &mut E,
) -> Result<(), RunFault>
    ensures { SettingsRun records.entry ⟦<OsNetwork<'r, R> as Network>⟧.transition ⟦<Connection as Duplex>⟧.to_give
        ⟦<Connection as Duplex>⟧.taken ⟦<Connection as Duplex>⟧.calls
        ⟦<Recording<SocketPorts<'static, Connection>, SessionFile<R::File>> as Ports>⟧.transition
        (record_events ⟦<SessionFile<R::File> as Write>⟧.contents ⟦<SessionFile<R::File> as Sink>⟧.Fails
        (WasReported E.contents E.Fails)) (head_for settings.now records.entry) settings.now (HasFailed O.Fails)
        (O.contents output.old) (O.contents output.new) result }
{
    let Some(path) = records else {
        let reports = SessionReports::<R> {
            is_verbose,
            folder: None,
        };
        return serve_sockets(rt, settings, reports, output, errors);
    };
    match Folder::at(rt, path, settings) {
        Ok(folder) => {
            let reports = SessionReports {
                is_verbose,
                folder: Some(&folder),
            };
            serve_sockets(rt, settings, reports, output, errors)
        }
        Err(cause) => Err(RunFault::Record(cause)),
    }
}

/// Serves with the settings of a text: binds, and runs on the network that was bound (`run_on`). If there is the path of a
/// folder, a record of each session is kept there. `is_verbose`: whether the beginning and the end of each session are
/// logged.
///
/// `runs`: the text has a fault, or the run does not begin, for a cause before it serves: then nothing is written. It
/// returns `Record` only with a folder, if no file can be made in it. Otherwise it ended as `run_on` says, on some value of
/// the network. With a folder each session has its own record, or a notice of its number was written to standard error,
/// unless that write failed.
///
/// `untouched`: if the text gives no settings, it returns their fault, and output and standard error are unchanged.
///
/// Not said: that the network is the one that `bind` returned, and that this one listens at the address of the settings,
/// since a call of the operating system has no relation. Three causes depend on the operating system: that a name is
/// unknown if `Name` is returned, which it never is for addresses in digits, that the address can't be listened on if
/// `Listen` is, and that memory was refused if `Memory` is.
pub fn run_text<'r, R: AllocGlobal + FolderLock + Clock + Net, O: Sink, E: Sink>(
    rt: &'r R,
    text: &str,
    records: Option<&'r str>,
    is_verbose: bool,
    output: &mut O,
    errors: &mut E,
) -> Result<(), RunFault>
    ensures runs { TextRuns records.entry ⟦<OsNetwork<'r, R> as Network>⟧.transition ⟦<Connection as Duplex>⟧.to_give
        ⟦<Connection as Duplex>⟧.taken ⟦<Connection as Duplex>⟧.calls
        ⟦<Recording<SocketPorts<'static, Connection>, SessionFile<R::File>> as Ports>⟧.transition
        (record_events ⟦<SessionFile<R::File> as Write>⟧.contents ⟦<SessionFile<R::File> as Sink>⟧.Fails
        (WasReported E.contents E.Fails)) text.now (HasFailed O.Fails) (O.contents output.old) (O.contents output.new)
        result }
    ensures untouched { IfErr result (λ fault. IsOfText fault →
        (output.new ≡ output.old) × (errors.new ≡ errors.old)) }
{
    match read_settings(rt.alloc(), text) {
        Ok(settings) => serve_reported(rt, &settings, records, is_verbose, output, errors),
        Err(fault) => Err(RunFault::Settings(fault)),
    }
}
