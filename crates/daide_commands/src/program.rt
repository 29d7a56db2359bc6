//! The program, over any streams.

ghost use Rattle.std.specs.Prelude.{◌≡◌, ◌≤◌, IfOk, map};
ghost use Rattle.clap.specs.Values.{kind_of};
ghost use Rattle.daide_causes.specs.Causes.{HasFailed, WasRefused};
ghost use Rattle.daide_run.specs.Folder.{record_events};
ghost use Rattle.daide_run.specs.Notices.{WasReported};
ghost use Rattle.daide_run.specs.Running.{TextRuns};
ghost use Rattle.daide_tools.specs.Endings.{AreSettingsRefused};
ghost use Rattle.daide_commands.specs.Answers.{CommandEnds, OrderEnds, UsageEnds};

use crate::run_order::run;
use clap::error::{Error, ErrorKind};
use daide_causes::{Sink, Source};
use daide_command_line::arguments::{Order, order_of, parse};
use daide_command_line::hints::{suggest, usage_hint};
use daide_frame::Memory;
use daide_io::duplex::Duplex;
use daide_io::{Network, Ports};
use daide_log::Recording;
use daide_run::folder::SessionFile;
use daide_settings::SettingsMemory;
use daide_sockets::connection::Connection;
use daide_sockets::control_listener::FolderLock;
use daide_sockets::os_network::OsNetwork;
use daide_sockets::ports::SocketPorts;
use daide_tools::checking::run_check;
use daide_tools::controlling::{run_status, run_stop};
use daide_tools::faults::{CLEAN, FAULT, NOT_RELAYED, USAGE, print_fault};
use daide_tools::framing::run_frame;
use daide_tools::judging::run_settings;
use daide_tools::opening::{FileOpener, RunReacher};
use daide_tools::showing::run_show;
use daide_tools::transcribing::run_transcript;
use std::alloc::Global;
use std::convert::AsStr;
use std::io;
use std::io::{Read, Write};

/// Writes the requested help, or the usage error. Returns the status.
fn report_usage<S: AsStr, O: Write, E: Write>(
    why: Error,
    words: &[S],
    output: &mut O,
    errors: &mut E,
) -> io::Result<u8>
    ensures bounded { IfOk result (λ status. status ≤ USAGE) }
    ensures usage { IfOk result (UsageEnds (kind_of why) (O.contents output.old) (O.contents output.new)) }
{
    if why.kind() == ErrorKind::OutOfMemory {
        return print_fault(errors, "out of memory", FAULT);
    }
    if why.use_stderr() {
        write!(errors, "{why}")?;
        suggest(usage_hint(why.kind(), words), errors);
        return Ok(USAGE);
    }
    match write!(output, "{why}") {
        Ok(()) => Ok(CLEAN),
        Err(_) => print_fault(errors, "output could not be written", FAULT),
    }
}

/// Carries out an order. Returns the status.
fn carry_out<
    T: Read + Write + Drop,
    F: Source + Drop,
    R: AllocGlobal + FileOpener<F> + FolderLock + RunReacher<T>,
    I: Source,
    O: Sink,
    E: Sink,
>(rt: &R, order: Order<'_, '_>, input: &mut I, output: &mut O, errors: &mut E) -> io::Result<u8>
    ensures bounded { IfOk result (λ status. status ≤ NOT_RELAYED) }
    ensures ended { IfOk result (OrderEnds R.Opens F.remaining R.Reaches T.contents T.remaining
        (λ records text. TextRuns records ⟦<OsNetwork<'static, R> as Network>⟧.transition
        ⟦<Connection as Duplex>⟧.to_give ⟦<Connection as Duplex>⟧.taken ⟦<Connection as Duplex>⟧.calls
        ⟦<Recording<SocketPorts<'static, Connection>, SessionFile<R::File>> as Ports>⟧.transition
        (record_events ⟦<SessionFile<R::File> as Write>⟧.contents ⟦<SessionFile<R::File> as Sink>⟧.Fails
        (WasReported E.contents E.Fails)) text (HasFailed O.Fails))
        (HasFailed I.Fails) (HasFailed F.Fails) (WasRefused ⟦<Global as Memory>⟧.Refuses)
        (AreSettingsRefused ⟦<Global as Memory>⟧.Refuses ⟦<Global as SettingsMemory>⟧.Refuses) (HasFailed O.Fails)
        order.entry (I.remaining input.old) (I.remaining input.new) (O.contents output.old) (O.contents output.new)) }
{
    match order {
        Order::Show(order) => run_show(rt.alloc(), rt, order, input, output, errors),
        Order::Check(order) => run_check(rt.alloc(), rt, order, input, output, errors),
        Order::Transcript(order) => run_transcript(rt, order, input, output, errors),
        Order::Frame(order) => run_frame(rt.alloc(), rt, order, input, output, errors),
        Order::Settings(order) => run_settings(rt.alloc(), rt, order, input, output, errors),
        Order::Run(order) => run(rt, order, output, errors),
        Order::BadSide => print_fault(errors, "bad side; it must be bot or server", USAGE),
        Order::BadLevel => {
            print_fault(
                errors,
                "bad level; it must be 0, 10, 20, 30, 40, 50 or 60",
                USAGE,
            )
        }
        Order::Status(order) => run_status(rt, order, output, errors),
        Order::Stop(order) => run_stop(rt, order, errors),
        Order::BadFormat => {
            print_fault(
                errors,
                "bad format; it must be table, json or prometheus",
                USAGE,
            )
        }
        Order::BadMessageFormat => print_fault(
            errors,
            "bad format; it must be text or json",
            USAGE,
        ),
        Order::BadTimeout => print_fault(
            errors,
            "bad timeout; it must be 1 to 86400 seconds",
            USAGE,
        ),
        Order::BadSession => print_fault(
            errors,
            "bad session; it must be 1 to 4294967295, without --now",
            USAGE,
        ),
    }
}

/// Does what the words ask for, and returns the exit status. The first word is the program's name. Only a fault that
/// could not be reported is an error.
///
/// `bounded`: the status is one of the four of `faults`.
///
/// `answered`: what the program does, its status and its output are those of the order that the words give (`OrderEnds`).
/// For `show`, `check` and `frame` the order says what they write of standard input, for `check FILE..` and `settings FILE`
/// what they write of the files that were opened by these names. `run` runs the text of the file that was opened by its
/// name, with the folder of `--record`, where each session has its record, or standard error a notice (`run_text`).
/// `status` prints the answers of the runs in the order of their files, each from the run that was reached at the control
/// path of the settings of its file. `stop` returns 0 only if the run of its settings was reached so, was sent the request
/// of the order, and then ended the stream (`ReachesRun`). A failed write ends `show`, `check`, `frame`, `settings` and
/// `status` only if a write failed, and a failed read of standard input `show`, `check` and `frame` only if a read failed.
/// `check FILE..` says that a file could not be read only if it could not be opened, or if a read of a file failed.
/// Words that are not understood return 2 and write nothing to the output. Help and version return 0 or 1, and refused
/// memory returns 1 (`UsageEnds`).
///
/// Premise: no word begins with a hyphen and a digit. With such a word `frame` takes negative numbers, and `clap`'s
/// contracts say nothing of that; then the program ends as some order does.
///
/// Not said: the texts of help, usage and faults; that memory was refused, which `run_show`, `run_check`, `run_frame` and
/// `run_settings` say of any memory.
pub fn answer<
    T: Read + Write + Drop,
    F: Source + Drop,
    R: AllocGlobal + FileOpener<F> + FolderLock + RunReacher<T>,
    S: AsStr,
    I: Source,
    O: Sink,
    E: Sink,
>(rt: &R, words: &[S], input: &mut I, output: &mut O, errors: &mut E) -> io::Result<u8>
    ensures bounded { IfOk result (λ status. status ≤ NOT_RELAYED) }
    ensures answered { IfOk result (CommandEnds R.Opens F.remaining R.Reaches T.contents T.remaining
        (λ records text. TextRuns records ⟦<OsNetwork<'static, R> as Network>⟧.transition
        ⟦<Connection as Duplex>⟧.to_give ⟦<Connection as Duplex>⟧.taken ⟦<Connection as Duplex>⟧.calls
        ⟦<Recording<SocketPorts<'static, Connection>, SessionFile<R::File>> as Ports>⟧.transition
        (record_events ⟦<SessionFile<R::File> as Write>⟧.contents ⟦<SessionFile<R::File> as Sink>⟧.Fails
        (WasReported E.contents E.Fails)) text (HasFailed O.Fails))
        (HasFailed I.Fails) (HasFailed F.Fails) (WasRefused ⟦<Global as Memory>⟧.Refuses)
        (AreSettingsRefused ⟦<Global as Memory>⟧.Refuses ⟦<Global as SettingsMemory>⟧.Refuses) (HasFailed O.Fails)
        (map S.text words.now) (I.remaining input.old) (I.remaining input.new) (O.contents output.old)
        (O.contents output.new)) }
{
    match parse(rt.alloc(), words) {
        Ok(matches) => carry_out(rt, order_of(&matches), input, output, errors),
        Err(why) => report_usage(why, words, output, errors),
    }
}
