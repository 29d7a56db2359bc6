//! The program `daide-gate`.
//!
//! `main` only collects the arguments and the streams. `daide_commands` does the rest, over any streams, so that each
//! run can be a row of a test.
#![tactic(auto)]

use daide_commands::answer;
use daide_commands::terminal::Asking;
use daide_tools::faults::{FAULT, USAGE};
use std::io::ErrorKind;
use std::process::ExitCode;
use std::{env, io};

/// Returns the arguments of the command line. Fails with the exit status, after a line on standard error.
fn words(rt: &HostRuntime) -> Result<Vec<String>, u8> {
    let failed = match env::args(rt) {
        Ok(args) => match args.collect(rt.alloc()) {
            Ok(words) => return Ok(words),
            Err(_) => ErrorKind::OutOfMemory,
        },
        Err(error) => error.kind(),
    };
    let (text, status) = match failed {
        ErrorKind::OutOfMemory => ("daide-gate: out of memory", FAULT),
        _ => ("daide-gate: a word of the command line is not UTF-8", USAGE),
    };
    let _ = rt.eprintln(text);
    Err(status)
}

/// Carries out the command of the arguments, and returns the exit status.
fn run(rt: &HostRuntime) -> u8 {
    let words = match words(rt) {
        Ok(words) => words,
        Err(status) => return status,
    };
    let mut input = Asking::new(rt, rt.reader());
    let mut output = io::writer(rt);
    let mut errors = rt.stderr();
    answer(rt, words.as_slice(), &mut input, &mut output, &mut errors).unwrap_or(FAULT)
}

fn main(rt: HostRuntime) -> ExitCode {
    ExitCode::from(run(&rt))
}
