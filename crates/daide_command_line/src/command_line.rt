//! The command line that the program understands: a table of its commands, and `clap`'s command of that table.

ghost use Rattle.std.specs.Prelude.{◌≡◌, IfOk, map, false};
ghost use Rattle.clap.specs.Words.{app_of, rule_of, shape_of};
ghost use Rattle.clap.specs.declared.builder.command.Command.TheViews.{out-Command};
ghost use Rattle.daide_command_line.specs.CommandLine.{gate_app};
ghost use Rattle.daide_command_line.specs.CommandTable.{AreLocal, HaveNoGlobals, rule_for, shape_for};

use clap::{Arg, ArgAction, Command};
use daide_status::VERSION;
use std::alloc::{AllocError, Global};

/// What an argument takes.
#[derive(Clone, Copy)]
enum Takes {
    /// A value, which the help calls by this name: the argument is an option.
    Value(&'static str),
    /// Nothing: the argument is a flag.
    Nothing,
    /// Nothing: the argument is a flag, which this letter gives too.
    NothingOr(char),
    /// One word that is not an option, and that must be given.
    RequiredWord,
    /// All words that are not options.
    Words,
    /// All words that are not options, at least one.
    RequiredWords,
}

/// An argument of a command.
struct Argument {
    /// Its name, which is also that of its option.
    name: &'static str,
    /// What it takes.
    takes: Takes,
    /// Its line in the help.
    help: &'static str,
}

/// A command.
struct CommandRow {
    /// Its name.
    name: &'static str,
    /// Its line in the help.
    about: &'static str,
    /// What its own help says behind its arguments.
    notes: &'static str,
    /// Its arguments, in the order of its help.
    arguments: &'static [Argument],
    /// Whether negative numbers may be words of it, and not options.
    takes_numbers: bool,
}

/// The help on the default command, and the exit statuses.
const NOTES: &str = "\
Without a command it does what 'show' does with its defaults. The options of 'show':
      --side <SIDE>       bot or server [default: bot]
      --level <N>         0, 10, 20, 30, 40, 50 or 60 [default: 0]
      --words <SETTINGS>  a file of settings, whose words count as words of press
      --explain           say why the frame would not be relayed

Exit status:
  0  the frame would be relayed; the log has no PRN, HUH or fault; all messages have frames; the settings have no
     fault; all bots were served; the status or the messages were printed; the run is over; help and version
  1  a fault of the input, the output, the settings, the folder of records, the address to listen on, the control
     socket, or memory, told in one line on standard error; a run that goes on after the timeout of 'stop'
  2  words that are not understood
  3  the frame is shown, and would not be relayed; the log is reported, and has a PRN, HUH or fault";

/// The help on the input of `show`, with examples and exit statuses.
const SHOW_NOTES: &str = "\
The input has at most 200,000 bytes. Spaces, tabs and line ends are dropped wherever they stand.
The exit status is 0 if the frame would be relayed, and 3 if not; 'daide-gate --help' has all.

Examples:
  daide-gate show --explain 02 00 00 04 48 03 40 00
  daide-gate show --level 10 < examples/peace-proposal.hex";

/// The help on the logs of `check`, with examples and exit statuses.
const CHECK_NOTES: &str = "\
A log's first line is 'daide-log 1', its second 'config LEVEL BODY DEPTH'; each further one is 'bot HEX',
'server HEX', 'end bot', 'end server', 'timer' or 'stop', or is empty, or begins with '#'. The log of a match begins
with 'daide-log 2', and names each line's session. docs/FORMATS.md has both, and the report.
The exit status is 0 if no message got PRN or HUH and there was no fault, and else 3. With '--explain' it is 3 also
if a side's bytes end within a frame, or if the last line is cut. For several logs each report follows its name, and
a table of the sessions comes last.

Examples:
  daide-gate check examples/match.log
  daide-gate check --explain examples/whole-match.log";

/// The help on the output of `transcript`, with examples and exit statuses.
const TRANSCRIPT_NOTES: &str = "\
It reads the logs that 'check' reads, and prints each message that a side sent: its time, its session, the bot's name
and power, the sender, the text, and what it got if it was not relayed. Messages of all logs are in order of time.
The exit status is 0 if all logs could be read, and else 1.

Examples:
  daide-gate transcript examples/whole-match.log
  daide-gate transcript --format json examples/match.log examples/whole-match.log";

/// The help on the messages of `frame`, with examples and exit statuses.
const FRAME_NOTES: &str = "\
A message is written as 'show' prints it: names, numbers, quoted text, #hhhh and brackets, with blanks between.
Each frame is one line of hexadecimal digits, which 'daide-gate show' reads.
The exit status is 0 if each message has a frame, and 1 at the first that has none.

Examples:
  daide-gate frame \"NME ('a') ('1')\"
  echo 'GOF' | daide-gate frame | daide-gate show";

/// The help on the output of `settings`, with examples and exit statuses.
const SETTINGS_NOTES: &str = "\
It prints each fault: its line, the key, the value and what the value must be, and for an unknown key the known one
that is nearest. For a file without a fault it prints the value of each key, which is a file of settings again, and
then the memory and the descriptors that its run needs. For '-' it reads standard input.
With '--try' it also looks up both names, listens once on 'listen', connects once to 'server', and listens once at the
path of 'control', for settings without a fault. Nothing is accepted or sent. It prints what passed, and what failed.
The exit status is 0 if 'run' accepts the settings and nothing that was tried failed, and else 1.

Examples:
  daide-gate settings --try examples/settings.toml
  daide-gate settings examples/tournament.toml";

/// The help on the output of `run`, with examples and exit statuses.
const RUN_NOTES: &str = "\
It prints 'listening' once bots may come. What ends no run, as a server that can't be reached, is told in a
line on standard error. With '--record' the folder gets a log of each session, session-000001.log and so on,
which 'daide-gate check' reads; it is made if it is not there, and no file in it is written over.
The exit status is 0 once all bots were served, and 1 if no bot can be.

Examples:
  daide-gate run examples/settings.toml
  daide-gate run --verbose --record . examples/tournament.toml";

/// The help on the output of `status`, with examples and exit statuses.
const STATUS_NOTES: &str = "\
It asks the run of each file over the socket at the path of its key 'control', and prints the answers, one after the
other: first the run, then each open session with its number, its bot, its phase and level, its frames by what was done
with them, the bytes that wait for each side, and the seconds since each side's last byte. For several files a table
follows its file's name. docs/FORMATS.md has the three forms.
A run that accepts or answers nothing is given up after five seconds. The exit status is 0 if each status was printed,
and else 1.

Examples:
  daide-gate status tournament.toml final.toml
  daide-gate status --format json tournament.toml";

/// The help on `stop`, with examples and exit statuses.
const STOP_NOTES: &str = "\
The run accepts no further bot. Without '--now' its open sessions go on, and it ends when the last one is over; with
'--now' each session ends: its bot and the server get an FM, and both connections end. With '--session' the run goes
on, and only the session with this number ends, as with '--now'; 'status' has the numbers. The command returns when
the run, or that session, is over.
The exit status is 0 if it is over, and 1 if it goes on after the timeout, if the run has no such session, or if nobody
listens at the path of the settings' key 'control' or answers in five seconds.

Examples:
  daide-gate stop tournament.toml
  daide-gate stop --now --timeout 30 tournament.toml
  daide-gate stop --session 12 tournament.toml";

/// The help on the file of a run's settings.
const SETTINGS_OF_RUN: &str = "The file of settings of the run, with the key 'control'";

/// The commands, in the order of the help.
const COMMANDS: &[CommandRow] = &[
    CommandRow {
        name: "show",
        about: "Shows one frame, given as hexadecimal digits",
        notes: SHOW_NOTES,
        arguments: &[
            Argument {
                name: "side",
                takes: Takes::Value("SIDE"),
                help: "Whose frame it is, bot or server [default: bot]",
            },
            Argument {
                name: "level",
                takes: Takes::Value("N"),
                help: "The level of press, 0, 10, 20, 30, 40, 50 or 60 [default: 0]",
            },
            Argument {
                name: "words",
                takes: Takes::Value("SETTINGS"),
                help: "The file of settings whose words count as words of press",
            },
            Argument {
                name: "explain",
                takes: Takes::Nothing,
                help: "Say why the frame would not be relayed",
            },
            Argument {
                name: "HEX",
                takes: Takes::Words,
                help: "The frame, as one word or more; without any, standard input is read",
            },
        ],
        takes_numbers: false,
    },
    CommandRow {
        name: "check",
        about: "Reports what a gateway makes of each line of a log",
        notes: CHECK_NOTES,
        arguments: &[
            Argument {
                name: "explain",
                takes: Takes::Nothing,
                help: "Print each message and its answer, and say why it was not relayed",
            },
            Argument {
                name: "FILE",
                takes: Takes::Words,
                help: "The logs; without one, and for '-', standard input is read",
            },
        ],
        takes_numbers: false,
    },
    CommandRow {
        name: "transcript",
        about: "Prints the messages of logs in order of time",
        notes: TRANSCRIPT_NOTES,
        arguments: &[
            Argument {
                name: "format",
                takes: Takes::Value("FORM"),
                help: "The form: text or json [default: text]",
            },
            Argument {
                name: "RECORD",
                takes: Takes::Words,
                help: "The logs; without one, and for '-', standard input is read",
            },
        ],
        takes_numbers: false,
    },
    CommandRow {
        name: "frame",
        about: "Writes the frames of messages, as hexadecimal digits",
        notes: FRAME_NOTES,
        arguments: &[
            Argument {
                name: "words",
                takes: Takes::Value("SETTINGS"),
                help: "The file of settings whose words may be named",
            },
            Argument {
                name: "TEXT",
                takes: Takes::Words,
                help: "One message, as one word or more; without any, standard input has one a line",
            },
        ],
        takes_numbers: true,
    },
    CommandRow {
        name: "settings",
        about: "Judges a file of settings, without a run",
        notes: SETTINGS_NOTES,
        arguments: &[
            Argument {
                name: "try",
                takes: Takes::Nothing,
                help: "Listen once on 'listen', and connect once to 'server'",
            },
            Argument {
                name: "FILE",
                takes: Takes::RequiredWord,
                help: "The file of settings; for '-', standard input is read",
            },
        ],
        takes_numbers: false,
    },
    CommandRow {
        name: "run",
        about: "Serves bots, each with a connection of its own to the server, until all were served",
        notes: RUN_NOTES,
        arguments: &[
            Argument {
                name: "verbose",
                takes: Takes::NothingOr('v'),
                help: "Tell where each session begins, and how it ended, on standard error",
            },
            Argument {
                name: "record",
                takes: Takes::Value("FOLDER"),
                help: "The folder in which a log of each session is kept",
            },
            Argument {
                name: "SETTINGS",
                takes: Takes::RequiredWord,
                help: "The file of settings; docs/FORMATS.md and examples/settings.toml have its keys",
            },
        ],
        takes_numbers: false,
    },
    CommandRow {
        name: "status",
        about: "Prints the status of runs and of their open sessions",
        notes: STATUS_NOTES,
        arguments: &[
            Argument {
                name: "format",
                takes: Takes::Value("FORM"),
                help: "The form: table, json or prometheus [default: table]",
            },
            Argument {
                name: "SETTINGS",
                takes: Takes::RequiredWords,
                help: "The files of settings of the runs, each with the key 'control'",
            },
        ],
        takes_numbers: false,
    },
    CommandRow {
        name: "stop",
        about: "Stops a run or one of its sessions, and returns when it is over",
        notes: STOP_NOTES,
        arguments: &[
            Argument {
                name: "now",
                takes: Takes::Nothing,
                help: "End the open sessions by the protocol",
            },
            Argument {
                name: "session",
                takes: Takes::Value("N"),
                help: "End only the session with this number, 1 to 4294967295",
            },
            Argument {
                name: "timeout",
                takes: Takes::Value("SECONDS"),
                help: "Give up after this time, 1 to 86400 [default: never]",
            },
            Argument {
                name: "SETTINGS",
                takes: Takes::RequiredWord,
                help: SETTINGS_OF_RUN,
            },
        ],
        takes_numbers: false,
    },
];

/// Returns the argument of a row. Words may be negative numbers if it `takes_negative`.
fn arg_of<'a>(alloc: Global, row: &'a Argument, takes_negative: bool) -> Arg<'a>
    ensures rule { takes_negative ≡ false → rule_of result ≡ rule_for row.now }
    ensures local { result.global ≡ false }
{
    let arg = Arg::new(alloc, row.name).help(row.help);
    match row.takes {
        Takes::Value(value) => arg.long(row.name).action(ArgAction::Set).value_name(value),
        Takes::Nothing => arg.long(row.name).action(ArgAction::SetTrue),
        Takes::NothingOr(letter) => { arg.long(row.name).short(letter).action(ArgAction::SetTrue) }
        Takes::RequiredWord => arg.required(true).action(ArgAction::Set),
        Takes::Words => arg
            .action(ArgAction::Append)
            .num_args(1..)
            .allow_negative_numbers(takes_negative),
        Takes::RequiredWords => arg.required(true).action(ArgAction::Append).num_args(1..),
    }
}

/// Returns the arguments of rows.
fn args_of<'a>(
    alloc: Global,
    rows: &'a [Argument],
    takes_negative: bool,
) -> Result<Vec<Arg<'a>>, AllocError>
    ensures rules { IfOk result (λ args. takes_negative ≡ false → map rule_of args.items ≡ map rule_for rows.now) }
    ensures local { IfOk result (λ args. AreLocal args.items) }
{
    let mut args = Vec::new(alloc);
    for row in rows {
        args.push(arg_of(alloc, row, takes_negative))?;
    }
    Ok(args)
}

/// Returns the command of a row. Negative numbers are words of it if it `takes_negative`.
fn command_of<'a>(
    alloc: Global,
    row: &'a CommandRow,
    takes_negative: bool,
) -> Result<Command<'a>, AllocError>
    ensures shape { IfOk result (λ command. takes_negative ≡ false → shape_of command ≡ shape_for row.now) }
    ensures local { IfOk result (λ command. (out-Command command).has_globals ≡ false) }
{
    let args = args_of(alloc, row.arguments, row.takes_numbers & takes_negative)?;
    Command::new(alloc, row.name)
        .about(row.about)
        .after_help(row.notes)
        .args(args)
}

/// Returns the commands of rows. Negative numbers are words of those that take numbers if it `takes_negative`.
fn commands_of<'a>(
    alloc: Global,
    rows: &'a [CommandRow],
    takes_negative: bool,
) -> Result<Vec<Command<'a>>, AllocError>
    ensures shapes { IfOk result (λ commands.
        takes_negative ≡ false → map shape_of commands.items ≡ map shape_for rows.now) }
    ensures local { IfOk result (λ commands. HaveNoGlobals commands.items) }
{
    let mut commands = Vec::new(alloc);
    for row in rows {
        commands.push(command_of(alloc, row, takes_negative)?)?;
    }
    Ok(commands)
}

/// Returns the command line that the program understands: each command, its options and their names. Negative numbers
/// are words of `frame` if `takes_negative`.
pub(crate) fn command<'a>(alloc: Global, takes_negative: bool) -> Result<Command<'a>, AllocError>
    ensures { takes_negative ≡ false → IfOk result (λ command. app_of command ≡ gate_app) }
{
    let commands = commands_of(alloc, COMMANDS, takes_negative)?;
    Command::new(alloc, "daide-gate")
        .bin_name("daide-gate")?
        .version(VERSION)
        .about("A gateway between one bot and a DAIDE server")
        .after_help(NOTES)
        .subcommands(commands)
}
