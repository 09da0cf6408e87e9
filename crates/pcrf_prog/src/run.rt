//! A run of the program over words, a reader and writers that are handed in.
use crate::kept_files::{EpochFiles, FileFault, next_epoch, secret_of_file};
use crate::operator_tables::{self, TablesFault};
use crate::resident::Resident;
use crate::server::{Start, serve, start_of, stay};
use crate::socket_server::ServerFault;
use crate::stamped::Stamped;
use crate::staying::{Console, Input, Output};
use crate::told::{tell_line, tell_tables};
use crate::words::{Asked, ServeWords, StayWords, read_words};
use clap::Error;
use clap::error::ErrorKind;
use dia_base::MessageForm;
use dia_codec::Counted;
use log::{LevelFilter, Log, Logged};
use op_tables::Tables;
use pcrf_world::{ScriptEnd, ScriptRun, run_told};
use peer_lines::Key;
use std::alloc::Global;
use std::env;
use std::io::{self, Eprint, Read, Write};
use std::net::{Net, TcpListener, TcpStream};
use std::random::RandomSource;
use std::rt::{Env, Files};
use std::sync::Wait;
use std::thread::Threads;
use std::time::Clock;

/// The status where the operator tables were at fault.
const TABLES: u8 = 1;

/// The status where the command line was at fault.
const COMMAND_LINE: u8 = 2;

/// The status where the script, its input or its output was at fault.
const SCRIPT: u8 = 3;

/// The status where a server's sockets were at fault.
const NETWORK: u8 = 4;

/// The status where a server's history did not settle.
const UNSETTLED: u8 = 5;

/// The status where memory ran out.
const NO_MEMORY: u8 = 6;

/// The status where the secret or the epoch of a server can't be had of its file.
const KEPT_FILES: u8 = 7;

/// What a run needs of its machine.
pub trait Host: Files
    + AllocGlobal
    + Net<Listener = TcpListener, Stream = TcpStream>
    + Threads
    + Wait
    + Clock
    + RandomSource
    + EpochFiles
    + Resident
    + Sync {}

impl<
    H: Files
        + AllocGlobal
        + Net<Listener = TcpListener, Stream = TcpStream>
        + Threads
        + Wait
        + Clock
        + RandomSource
        + EpochFiles
        + Resident
        + Sync,
> Host for H {}

/// The words of the command line, the program's name first.
pub fn words<R: Env + AllocGlobal>(rt: &R) -> io::Result<Vec<String>> {
    Ok(env::args(rt)?.collect(rt.alloc())?)
}

/// How much an operator is told on standard error beside faults: what the environment asks for, or else as much as that. A text that
/// names no level asks for all.
fn level_or<R: Env + AllocGlobal>(rt: &R, otherwise: LevelFilter) -> LevelFilter {
    match env::var(rt, "PCRF_LOG") {
        Ok(text) => text
            .as_str()
            .parse::<LevelFilter>()
            .unwrap_or(LevelFilter::Info),
        Err(_) => otherwise,
    }
}

/// Writes one line of faults, and answers the status.
fn fault<F: Write>(faults: &mut F, line: &str, status: u8) -> u8 {
    let _ = faults.write_all(line.as_bytes());
    status
}

/// Tells that the words can't be had, which are no text or found no memory, and answers the status.
pub fn no_words<F: Write + Drop>(mut faults: F, error: &io::Error) -> u8 {
    if error.kind() == io::ErrorKind::OutOfMemory {
        return fault(&mut faults, "pcrf: no memory\n", NO_MEMORY);
    }
    fault(&mut faults, "pcrf: command line\n", COMMAND_LINE)
}

/// Writes what the command line lacks, or the help that it asks for, and answers the status.
fn refused_words<F: Write>(faults: &mut F, error: &Error) -> u8 {
    if error.kind() == ErrorKind::OutOfMemory {
        return fault(faults, "pcrf: no memory\n", NO_MEMORY);
    }
    let _ = write!(faults, "{error}");
    COMMAND_LINE
}

/// Tells why there are no tables, and answers the status.
fn refused_tables<G: Log, F: Write>(log: &G, faults: &mut F, why: TablesFault) -> u8 {
    match why {
        TablesFault::Unreadable => {}
        TablesFault::Refused(refused) => tell_tables(log, refused),
        TablesFault::NoMemory => return fault(faults, "pcrf: no memory\n", NO_MEMORY),
    }
    let _ = writeln!(faults, "pcrf: tables: {why}");
    TABLES
}

/// Tells which line of a script was refused, and answers the status.
fn refused_line<F: Write>(faults: &mut F, number: u64) -> u8 {
    let _ = writeln!(faults, "pcrf: script: line {number}");
    SCRIPT
}

/// Tells how a script ended, and answers the status.
fn ended<G: Log, F: Write>(log: &G, faults: &mut F, run: ScriptRun) -> u8 {
    if let (ScriptEnd::BadLine(number), Some(why)) = (run.end, run.refused) {
        tell_line(log, number, why);
    }
    match run.end {
        ScriptEnd::Done => 0,
        ScriptEnd::BadLine(number) => refused_line(faults, number),
        ScriptEnd::ReadFailed => fault(faults, "pcrf: input failed\n", SCRIPT),
        ScriptEnd::WriteFailed => fault(faults, "pcrf: output failed\n", SCRIPT),
        ScriptEnd::NoMemory => fault(faults, "pcrf: no memory\n", NO_MEMORY),
    }
}

/// Runs the script, and answers the status.
fn run_world<G: Log, R: Read + Drop, W: Write + Drop, F: Write>(
    alloc: Global,
    log: &G,
    tables: Tables,
    form: MessageForm,
    reader: R,
    writer: W,
    faults: &mut F,
) -> u8 {
    let mut reader = Counted::start(reader);
    let mut writer = Counted::start(writer);
    let run = run_told(alloc, tables, form, &mut reader, &mut writer);
    ended(log, faults, run)
}

/// Tells why a server ended without having settled, and answers the status.
fn refused_server<F: Write>(faults: &mut F, why: ServerFault) -> u8 {
    let _ = writeln!(faults, "pcrf: {why}");
    match why {
        ServerFault::Network => NETWORK,
        ServerFault::Unsettled => UNSETTLED,
        ServerFault::NoMemory => NO_MEMORY,
    }
}

/// Tells how many entries a server's history settled with, and answers the status.
fn settled<W: Write + Drop, F: Write>(mut writer: W, faults: &mut F, entries: usize) -> u8 {
    if writeln!(writer, "settled {entries}").is_err() || writer.flush().is_err() {
        return fault(faults, "pcrf: output failed\n", SCRIPT);
    }
    0
}

/// Tells why a file of a site can't be used, and answers the status.
fn refused_file<F: Write>(faults: &mut F, why: FileFault) -> u8 {
    let _ = writeln!(faults, "pcrf: {why}");
    match why {
        FileFault::NoMemory => NO_MEMORY,
        _ => KEPT_FILES,
    }
}

/// The secret that the words name, if they name one.
fn secret_of<H: Host>(rt: &H, words: StayWords<'_>) -> Result<Option<Key>, FileFault> {
    match words.secret {
        Some(path) => Ok(Some(secret_of_file(rt, path)?)),
        None => Ok(None),
    }
}

/// The epoch that the words say, or the next one of the file that they name.
fn epoch_of<H: Host>(rt: &H, words: &ServeWords<'_>) -> Result<u16, FileFault> {
    match words.stay.and_then(|stay| stay.epoch_file) {
        Some(path) => next_epoch(rt, path),
        None => Ok(words.epoch),
    }
}

/// Serves as one that stays, and answers the status.
fn run_staying<H: Host, G: Log + Sync, R: Input, W: Output, F: Write>(
    rt: &H,
    log: &G,
    words: &ServeWords<'_>,
    staying: StayWords<'_>,
    start: Start,
    tables: Tables,
    console: Console<R, W>,
    faults: &mut F,
) -> u8 {
    let secret = match secret_of(rt, staying) {
        Ok(secret) => secret,
        Err(why) => return refused_file(faults, why),
    };
    match stay(
        rt,
        rt.alloc(),
        words,
        staying,
        secret,
        start,
        tables,
        console,
        log,
    ) {
        Ok(()) => 0,
        Err(why) => refused_server(faults, why),
    }
}

/// Serves with the tables of the words, and answers the status.
fn run_started<H: Host, G: Log + Sync, R: Input, W: Output, F: Write>(
    rt: &H,
    log: &G,
    words: &ServeWords<'_>,
    start: Start,
    console: Console<R, W>,
    faults: &mut F,
) -> u8 {
    let tables = match operator_tables::of_file(rt, words.tables) {
        Ok(tables) => tables,
        Err(why) => return refused_tables(log, faults, why),
    };
    if let Some(staying) = words.stay {
        return run_staying(rt, log, words, staying, start, tables, console, faults);
    }
    match serve(rt, rt.alloc(), words, start, tables, log) {
        Ok(entries) => settled(console.writer, faults, entries),
        Err(why) => refused_server(faults, why),
    }
}

/// Runs a server, and answers the status.
fn run_server<H: Host, G: Log + Sync, R: Input, W: Output, F: Write>(
    rt: &H,
    log: &G,
    words: &ServeWords<'_>,
    console: Console<R, W>,
    faults: &mut F,
) -> u8 {
    let epoch = match epoch_of(rt, words) {
        Ok(epoch) => epoch,
        Err(why) => return refused_file(faults, why),
    };
    match start_of(rt, rt.alloc(), words, epoch) {
        Ok(Some(start)) => run_started(rt, log, words, start, console, faults),
        Ok(None) => fault(faults, "pcrf: command line\n", COMMAND_LINE),
        Err(_) => fault(faults, "pcrf: no memory\n", NO_MEMORY),
    }
}

/// Runs the script with tables that were read, and answers the status.
fn run_script_with<G: Log, R: Read + Drop, W: Write + Drop, F: Write>(
    alloc: Global,
    log: &G,
    tables: Result<Tables, TablesFault>,
    form: MessageForm,
    reader: R,
    writer: W,
    faults: &mut F,
) -> u8 {
    match tables {
        Ok(tables) => run_world(alloc, log, tables, form, reader, writer, faults),
        Err(why) => refused_tables(log, faults, why),
    }
}

/// Does what the words ask for, and answers the status.
fn run_asked<H: Host, G: Log + Sync, R: Input, W: Output, F: Write>(
    rt: &H,
    log: &G,
    asked: Asked<'_>,
    reader: R,
    writer: W,
    faults: &mut F,
) -> u8 {
    match asked {
        Asked::Held => {
            let tables = operator_tables::held(rt.alloc());
            run_script_with(
                rt.alloc(),
                log,
                tables,
                MessageForm::Own,
                reader,
                writer,
                faults,
            )
        }
        Asked::World(words) => {
            let tables = operator_tables::of_file(rt, words.tables);
            run_script_with(rt.alloc(), log, tables, words.form, reader, writer, faults)
        }
        Asked::Serve(serve) => { run_server(rt, log, &serve, Console { reader, writer }, faults) }
    }
}

/// Whether a server is asked for that stays.
fn is_staying(asked: &Asked<'_>) -> bool {
    match asked {
        Asked::Serve(words) => words.stay.is_some(),
        Asked::Held | Asked::World(_) => false,
    }
}

/// How much an operator is told where nobody says: of a server that stays all, of any other run nothing but faults.
fn level_of(is_staying: bool) -> LevelFilter {
    match is_staying {
        true => LevelFilter::Info,
        false => LevelFilter::Off,
    }
}

/// Runs the program with a log on standard error, as the environment asks for it, and answers its exit status. Faults are found in
/// the order words, tables, sockets, run. The log is told what happens at a server, where tables are at fault, and why a line of a
/// script is refused; its lines have the time where a server stays.
pub fn run_logged<H: Host + Env + Eprint, R: Input, W: Output, F: Write + Drop>(
    rt: &H,
    words: &[String],
    reader: R,
    writer: W,
    mut faults: F,
) -> u8 {
    let asked = match read_words(rt.alloc(), words) {
        Ok(asked) => asked,
        Err(error) => return refused_words(&mut faults, &error),
    };
    let is_timed = is_staying(&asked);
    let level = level_or(rt, level_of(is_timed));
    let log = Logged::new(rt, level, Stamped { rt, is_timed });
    run_asked(rt, &log, asked, reader, writer, &mut faults)
}
