//! The arguments of the command line, and the order that they give.

ghost use Rattle.std.specs.Prelude.{◌≡◌, map, option_map, unwrap_or, codes};
ghost use Rattle.std.specs.List.{list_any};
ghost use Rattle.clap.specs.Words.{rows_of, found_of, subcommand_rows_of, first_of, all_of};
ghost use Rattle.daide_command_line.specs.CommandLine.{format_named, json_named, IsNumberTo, IsStatusOrder, IsStopRequest, IsStopTimeout, IsStopOrder};
ghost use Rattle.daide_command_line.specs.CommandLine.{begins_negative, side_named, level_named, is_set};
ghost use Rattle.daide_command_line.specs.CommandLine.{IsRunOrder, IsCheckOrder, IsTranscriptOrder, IsFrameOrder, IsSettingsOrder, IsShowOrder, IsOrderFor, IsOrderOf, subcommand_named, ParsesTo, parsed_by};

use crate::command_line::command;
use clap::ArgMatches;
use clap::error::Error;
use daide_frame::side::Side;
use daide_grammar::level::Level;
use daide_status::{ControlRequest, Format};
use std::alloc::Global;
use std::convert::AsStr;

/// The order that the arguments give. The slices of arguments are borrowed for `'m`, their texts for `'a`.
#[derive(Clone, Copy)]
pub enum Order<'m, 'a> {
    /// Show one frame.
    Show(ShowOrder<'m, 'a>),
    /// Report logs.
    Check(CheckOrder<'m, 'a>),
    /// Print the messages of logs.
    Transcript(TranscriptOrder<'m, 'a>),
    /// Write the frames of messages.
    Frame(FrameOrder<'m, 'a>),
    /// Judge a file of settings.
    Settings(SettingsOrder<'a>),
    /// Serve.
    Run(RunOrder<'a>),
    /// Print the status of runs.
    Status(StatusOrder<'m, 'a>),
    /// Stop a run.
    Stop(StopOrder<'a>),
    /// The value of `--side` is not a side.
    BadSide,
    /// The value of `--level` is not a level.
    BadLevel,
    /// The value of `--format` is not a form of a status.
    BadFormat,
    /// The value of `--format` is not a form of a transcript.
    BadMessageFormat,
    /// The value of `--timeout` is not a number of seconds.
    BadTimeout,
    /// The value of `--session` is not the number of a session, or `--now` is beside it.
    BadSession,
}

/// The order to show a frame.
#[derive(Clone, Copy)]
pub struct ShowOrder<'m, 'a> {
    /// The side that sends the frame.
    pub side: Side,
    /// The level at which it is judged.
    pub level: Level,
    /// The path of the settings with the words of press, if it was given.
    pub words: Option<&'a str>,
    /// Whether the verdict is explained.
    pub is_explained: bool,
    /// The frame, as arguments; `None` if it is read from standard input.
    pub typed: Option<&'m [&'a str]>,
}

/// The order to report logs.
#[derive(Clone, Copy)]
pub struct CheckOrder<'m, 'a> {
    /// The paths of the logs, `-` for standard input; `None` for standard input alone.
    pub files: Option<&'m [&'a str]>,
    /// Whether each message is printed and each verdict explained.
    pub is_explained: bool,
}

/// The order to print the messages of logs.
#[derive(Clone, Copy)]
pub struct TranscriptOrder<'m, 'a> {
    /// The paths of the logs, `-` for standard input; `None` for standard input alone.
    pub records: Option<&'m [&'a str]>,
    /// Whether each message is an object of JSON.
    pub is_json: bool,
}

/// The order to write the frames of messages.
#[derive(Clone, Copy)]
pub struct FrameOrder<'m, 'a> {
    /// The path of the settings with the words of press, if it was given.
    pub words: Option<&'a str>,
    /// One message, as arguments; `None` if standard input has a message on each line.
    pub typed: Option<&'m [&'a str]>,
}

/// The order to judge a file of settings.
#[derive(Clone, Copy)]
pub struct SettingsOrder<'a> {
    /// The path of the settings, or `-` for standard input.
    pub path: &'a str,
    /// Whether their addresses are tried.
    pub is_tried: bool,
}

/// The order to serve.
#[derive(Clone, Copy)]
pub struct RunOrder<'a> {
    /// The path of the file of settings.
    pub settings: &'a str,
    /// Whether the beginning and the end of each session are logged.
    pub is_verbose: bool,
    /// The folder for the records of sessions, if they are kept.
    pub record: Option<&'a str>,
}

/// The order to print the status of runs.
#[derive(Clone, Copy)]
pub struct StatusOrder<'m, 'a> {
    /// The paths of the settings of the runs. The words of a command line have one at least.
    pub settings: Option<&'m [&'a str]>,
    /// The form of the status.
    pub format: Format,
}

/// The order to stop a run.
#[derive(Clone, Copy)]
pub struct StopOrder<'a> {
    /// The path of the settings of the run.
    pub settings: &'a str,
    /// What is requested: a stop of the run, of the run with its sessions, or of one session.
    pub request: ControlRequest,
    /// The seconds after which the command gives up waiting; `None` if it waits until the run, or the session, is over.
    pub timeout: Option<u32>,
}

/// Returns the side with this name.
fn side_of(word: &str) -> Option<Side>
    ensures { result ≡ side_named word.now }
{
    match word {
        "bot" => Some(Side::Bot),
        "server" => Some(Side::Server),
        _ => None,
    }
}

/// Returns the level with this name, in decimal digits.
fn level_named(word: &str) -> Option<Level>
    ensures { result ≡ level_named word.now }
{
    match word {
        "0" => Some(Level::L0),
        "10" => Some(Level::L10),
        "20" => Some(Level::L20),
        "30" => Some(Level::L30),
        "40" => Some(Level::L40),
        "50" => Some(Level::L50),
        "60" => Some(Level::L60),
        _ => None,
    }
}

/// Returns the form of a status with this name.
fn format_named(word: &str) -> Option<Format>
    ensures { result ≡ format_named word.now }
{
    match word {
        "table" => Some(Format::Table),
        "json" => Some(Format::Json),
        "prometheus" => Some(Format::Prometheus),
        _ => None,
    }
}

/// Returns a number from 1 to a greatest one, in decimal digits.
fn number_named(word: &str, most: u32) -> Option<u32>
    ensures { IsNumberTo most word.now result }
{
    match word.parse::<u32>() {
        Ok(number) if 1 <= number && number <= most => Some(number),
        _ => None,
    }
}

/// Returns what the words give, by the command line that the program understands (`gate_app`). The first word is the
/// program's name. They give what `clap`'s contracts compute: a subcommand with its values (`subcommand_of`), a reason
/// for an error (`fault_of`), or no memory. So without negative numbers the order is a function of the words.
pub fn parse<'a, S: AsStr>(alloc: Global, words: &'a [S]) -> Result<ArgMatches<'a>, Error>
    ensures { ParsesTo (map S.text words.now) (parsed_by result) }
{
    let command = command(alloc, has_negative(words))?;
    command.try_get_matches_from(words)
}

/// Returns true if a flag was given.
fn is_given(matches: &ArgMatches<'_>, name: &str) -> bool
    ensures { result ≡ is_set name.now (rows_of (found_of matches.now)) }
{
    match value_of(matches, name) {
        Some(value) => value == "true",
        None => false,
    }
}

/// Returns a value as text, if there is one.
fn value_of<'a>(matches: &ArgMatches<'a>, name: &str) -> Option<&'a str>
    ensures { option_map (λ text. text.now) result ≡ first_of name.now (rows_of (found_of matches.now)) }
{
    matches.get_str(name)
}

/// Returns the values of an argument, if there are any.
fn values_of<'m, 'a>(matches: &'m ArgMatches<'a>, name: &str) -> Option<&'m [&'a str]>
    ensures { option_map (λ typed. map (λ word. word.now) typed.now) result
        ≡ all_of name.now (rows_of (found_of matches.now)) }
{
    matches.get_strs(name)
}

/// Returns true if an argument begins as a negative number.
fn begins_negative(word: &str) -> bool
    ensures { result ≡ begins_negative word.now }
{
    matches!(word.as_bytes(), [b'-', b'0'..=b'9', ..])
}

/// Returns true if any of the arguments begins as a negative number.
fn has_negative<S: AsStr>(words: &[S]) -> bool
    ensures { result ≡ list_any begins_negative (map S.text words.now) }
{
    let mut rest = words;
    while let [word, others @ ..] = rest {
        if begins_negative(word.as_str()) {
            return true;
        }
        rest = others;
    }
    false
}

/// Returns the order of `run`.
fn run_order<'a>(run: &ArgMatches<'a>) -> RunOrder<'a>
    ensures { IsRunOrder (rows_of (found_of run.now)) result }
{
    RunOrder {
        settings: value_of(run, "SETTINGS").unwrap_or(""),
        is_verbose: is_given(run, "verbose"),
        record: value_of(run, "record"),
    }
}

/// Returns the order of `check`.
fn check_order<'m, 'a>(check: &'m ArgMatches<'a>) -> CheckOrder<'m, 'a>
    ensures { IsCheckOrder (rows_of (found_of check.now)) result }
{
    CheckOrder {
        files: values_of(check, "FILE"),
        is_explained: is_given(check, "explain"),
    }
}

/// Returns whether the form of a transcript with this name is JSON.
fn json_named(word: &str) -> Option<bool>
    ensures { result ≡ json_named word.now }
{
    match word {
        "text" => Some(false),
        "json" => Some(true),
        _ => None,
    }
}

/// Returns the order of `transcript`.
fn transcript_order<'m, 'a>(transcript: &'m ArgMatches<'a>) -> Order<'m, 'a>
    ensures { IsTranscriptOrder (json_named (unwrap_or (first_of (codes "format") (rows_of (found_of transcript.now))) (codes "text")))
        (rows_of (found_of transcript.now)) result }
{
    let Some(is_json) = json_named(value_of(transcript, "format").unwrap_or("text")) else {
        return Order::BadMessageFormat;
    };
    Order::Transcript(TranscriptOrder {
        records: values_of(transcript, "RECORD"),
        is_json,
    })
}

/// Returns the order of `frame`.
fn frame_order<'m, 'a>(frame: &'m ArgMatches<'a>) -> FrameOrder<'m, 'a>
    ensures { IsFrameOrder (rows_of (found_of frame.now)) result }
{
    FrameOrder {
        words: value_of(frame, "words"),
        typed: values_of(frame, "TEXT"),
    }
}

/// Returns the order of `settings`.
fn settings_order<'a>(settings: &ArgMatches<'a>) -> SettingsOrder<'a>
    ensures { IsSettingsOrder (rows_of (found_of settings.now)) result }
{
    SettingsOrder {
        path: value_of(settings, "FILE").unwrap_or("-"),
        is_tried: is_given(settings, "try"),
    }
}

/// Returns the order of `status`.
fn status_order<'m, 'a>(status: &'m ArgMatches<'a>) -> Order<'m, 'a>
    ensures { IsStatusOrder (format_named (unwrap_or (first_of (codes "format") (rows_of (found_of status.now))) (codes "table")))
        (rows_of (found_of status.now)) result }
{
    let Some(format) = format_named(value_of(status, "format").unwrap_or("table")) else {
        return Order::BadFormat;
    };
    Order::Status(StatusOrder {
        settings: values_of(status, "SETTINGS"),
        format,
    })
}

/// Returns the request of `stop`; `None` if the number of the session is bad, or `--now` is beside it.
fn stop_request(session: Option<&str>, is_now: bool) -> Option<ControlRequest>
    ensures { IsStopRequest (option_map (λ word. word.now) session.entry) is_now result }
{
    match (session, is_now) {
        (None, false) => Some(ControlRequest::Stop),
        (None, true) => Some(ControlRequest::StopNow),
        (Some(word), false) => Some(ControlRequest::StopSession(number_named(word, u32::MAX)?)),
        (Some(_), true) => None,
    }
}

/// Returns the timeout of `stop`, if it has one; `None` if it is bad.
fn stop_timeout(word: Option<&str>) -> Option<Option<u32>>
    ensures { IsStopTimeout (option_map (λ word. word.now) word.entry) result }
{
    match word {
        None => Some(None),
        Some(word) => Some(Some(number_named(word, 86_400)?)),
    }
}

/// Returns the order of `stop`. A bad session is refused before a bad timeout.
fn stop_order<'m, 'a>(stop: &ArgMatches<'a>) -> Order<'m, 'a>
    ensures { IsStopOrder (rows_of (found_of stop.now)) result }
{
    let Some(request) = stop_request(value_of(stop, "session"), is_given(stop, "now")) else {
        return Order::BadSession;
    };
    let Some(timeout) = stop_timeout(value_of(stop, "timeout")) else {
        return Order::BadTimeout;
    };
    Order::Stop(StopOrder {
        settings: value_of(stop, "SETTINGS").unwrap_or(""),
        request,
        timeout,
    })
}

/// Returns the order of `show`. A bad side is refused before a bad level.
fn show_order<'m, 'a>(show: &'m ArgMatches<'a>) -> Order<'m, 'a>
    ensures { IsShowOrder (side_named (unwrap_or (first_of (codes "side") (rows_of (found_of show.now))) (codes "bot")))
        (level_named (unwrap_or (first_of (codes "level") (rows_of (found_of show.now))) (codes "0")))
        (rows_of (found_of show.now)) result }
{
    let Some(side) = side_of(value_of(show, "side").unwrap_or("bot")) else {
        return Order::BadSide;
    };
    let Some(level) = level_named(value_of(show, "level").unwrap_or("0")) else {
        return Order::BadLevel;
    };
    Order::Show(ShowOrder {
        side,
        level,
        words: value_of(show, "words"),
        is_explained: is_given(show, "explain"),
        typed: values_of(show, "HEX"),
    })
}

/// Returns the order of the command with this name.
fn order_for<'m, 'a>(name: &str, given: &'m ArgMatches<'a>) -> Order<'m, 'a>
    ensures { IsOrderFor (subcommand_named name.now) (rows_of (found_of given.now)) result }
{
    match name {
        "run" => Order::Run(run_order(given)),
        "check" => Order::Check(check_order(given)),
        "transcript" => transcript_order(given),
        "frame" => Order::Frame(frame_order(given)),
        "settings" => Order::Settings(settings_order(given)),
        "status" => status_order(given),
        "stop" => stop_order(given),
        _ => show_order(given),
    }
}

/// Returns the order of a subcommand with its values: side, level, words, explanation, path and typed words
/// (`IsOrderOf`). Without a subcommand it is `show` with its defaults.
pub fn order_of<'m, 'a>(matches: &'m ArgMatches<'a>) -> Order<'m, 'a>
    ensures { IsOrderOf (subcommand_rows_of matches.now) result }
{
    match matches.subcommand() {
        Some((name, given)) => order_for(name, given),
        None => Order::Show(ShowOrder {
            side: Side::Bot,
            level: Level::L0,
            words: None,
            is_explained: false,
            typed: None,
        }),
    }
}
