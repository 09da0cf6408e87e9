//! Checks that lines and files hold, in one program, whose first word says which: `cases` are lines with what comes of each, `trials` are
//! calls that may be refused memory, and `measures` tell how often something was done, and how long it took.
//!
//! The words stand on the command line; or on a line of standard input that begins with `= `, which is printed: the lines behind it are
//! of that check. So one input has all of them.
//!
//! A line that isn't understood ends the program with a failure, and standard error says why.
#![tactic(auto)]

mod cases;
mod fault;
mod host;
mod makers;
mod measures;
mod trials;

use crate::cases::Cases;
use crate::fault::Fault;
use crate::host::Host;
use crate::measures::Bench;
use pcrf_world::words::words_of;
use std::env;
use std::io::{BufRead, BufReader, Read};
use std::process::ExitCode;

/// What lines are given to.
#[derive(Drop)]
enum Check {
    /// None that takes lines: the trials take none.
    Lineless,
    Cases(Cases),
    Measures(Bench),
}

impl Check {
    /// Begins the check that words say. The trials are done then.
    fn begin(rt: &impl Host, words: &str) -> Result<Check, Fault> {
        let (first, further) = words_of(words);
        match first {
            "" => Ok(Check::Lineless),
            "cases" => Ok(Check::Cases(Cases::start(rt)?)),
            "measures" => Ok(Check::Measures(measures::begin(rt, further)?)),
            "trials" => {
                trials::try_all(rt)?;
                Ok(Check::Lineless)
            }
            _ => Err(Fault::NoCheck),
        }
    }

    /// Does what a line says.
    fn take(&mut self, rt: &impl Host, line: &str) -> Result<(), Fault> {
        match self {
            Check::Lineless => Err(Fault::NoCheck),
            Check::Cases(cases) => cases.take(rt, line),
            Check::Measures(bench) => bench.obey(rt, line),
        }
    }
}

/// The words of the command line, parted by a space each.
fn command_words(rt: &HostRuntime) -> Result<String, Fault> {
    let arguments: Vec<String> = env::args(rt)?.collect(rt.alloc())?;
    let mut words = String::new(rt.alloc());
    for argument in arguments.iter().skip(1) {
        if !words.is_empty() {
            words.push_str(" ")?;
        }
        words.push_str(argument.as_str())?;
    }
    Ok(words)
}

/// Begins another check by a line, or has the check take it.
fn obey(rt: &impl Host, check: &mut Check, line: &str) -> Result<(), Fault> {
    match line.strip_prefix("= ") {
        Some(words) => {
            println!(rt; "{line}")?;
            *check = Check::begin(rt, words)?;
            Ok(())
        }
        None => check.take(rt, line),
    }
}

/// Obeys a line, and tells which one it was where that isn't done.
fn obey_told(rt: &impl Host, check: &mut Check, line: &str) -> Result<(), Fault> {
    let obeyed = obey(rt, check, line);
    if obeyed.is_err() {
        let _ = eprintln!(rt; "{line}:");
    }
    obeyed
}

/// Obeys the lines.
fn obey_all<R: Read + Drop>(rt: &impl Host, check: &mut Check, reader: R) -> Result<(), Fault> {
    for line in BufReader::new(rt.alloc(), reader)?.lines(rt.alloc()) {
        let line = line?;
        obey_told(rt, check, line.as_str())?;
    }
    Ok(())
}

/// Does all that the words and the lines say.
fn run<R: Read + Drop>(rt: &impl Host, words: &str, reader: R) -> Result<(), Fault> {
    let mut check = Check::begin(rt, words)?;
    let obeyed = obey_all(rt, &mut check, reader);
    drop(check);
    obeyed
}

fn main(rt: HostRuntime) -> ExitCode {
    let ran = match command_words(&rt) {
        Ok(words) => run(&rt, words.as_str(), rt.stdin()),
        Err(fault) => Err(fault),
    };
    match ran {
        Ok(()) => ExitCode::SUCCESS,
        Err(fault) => {
            let _ = eprintln!(rt; "{fault}");
            ExitCode::FAILURE
        }
    }
}
