//! `run`: reads the settings of a file, and runs the gateway until all its bots were served.

ghost use Rattle.std.specs.Prelude.{◌≡◌, ◌≤◌, IfOk};
ghost use Rattle.daide_causes.specs.Causes.{HasFailed};
ghost use Rattle.daide_run.specs.Folder.{record_events};
ghost use Rattle.daide_run.specs.Notices.{WasReported};
ghost use Rattle.daide_run.specs.Running.{TextRuns};
ghost use Rattle.daide_commands.specs.Answers.{RunOrderEnds};

use crate::causes::end_failed;
use daide_causes::{Sink, Source};
use daide_command_line::arguments::RunOrder;
use daide_io::duplex::Duplex;
use daide_io::{Network, Ports};
use daide_log::Recording;
use daide_run::folder::SessionFile;
use daide_run::run_text;
use daide_sockets::connection::Connection;
use daide_sockets::control_listener::FolderLock;
use daide_sockets::os_network::OsNetwork;
use daide_sockets::ports::SocketPorts;
use daide_tools::faults::{CLEAN, FAULT, print_fault};
use daide_tools::opening::FileOpener;
use daide_tools::settings_file::text_at;
use std::io;
use std::io::Write;
use std::net::Net;
use std::rt::Clock;

/// Reads the settings of a file, binds the address, prints `listening`, and serves until all bots were served, with the
/// folder of the order (`run_text`). Returns the status. Fails only if a fault could not be reported.
pub(crate) fn run<
    F: Source + Drop,
    R: AllocGlobal + FileOpener<F> + FolderLock + Clock + Net,
    O: Sink,
    E: Sink,
>(rt: &R, order: RunOrder<'_>, output: &mut O, errors: &mut E) -> io::Result<u8>
    ensures bounded { IfOk result (λ status. status ≤ FAULT) }
    ensures ran { IfOk result (RunOrderEnds R.Opens F.remaining
        (λ records text. TextRuns records ⟦<OsNetwork<'static, R> as Network>⟧.transition
        ⟦<Connection as Duplex>⟧.to_give ⟦<Connection as Duplex>⟧.taken ⟦<Connection as Duplex>⟧.calls
        ⟦<Recording<SocketPorts<'static, Connection>, SessionFile<R::File>> as Ports>⟧.transition
        (record_events ⟦<SessionFile<R::File> as Write>⟧.contents ⟦<SessionFile<R::File> as Sink>⟧.Fails
        (WasReported E.contents E.Fails)) text (HasFailed O.Fails))
        order.entry (O.contents output.old) (O.contents output.new)) }
{
    let text = match text_at(rt, order.settings) {
        Ok(text) => text,
        Err(fault) => return print_fault(errors, fault, FAULT),
    };
    match run_text(
        rt,
        text.as_str(),
        order.record,
        order.is_verbose,
        output,
        errors,
    ) {
        Ok(()) => Ok(CLEAN),
        Err(fault) => end_failed(rt.alloc(), order, text.as_str(), fault, errors),
    }
}
