//! What a running site shows of what it holds, where it is asked to on its standard input.
use crate::staying::journal::tell_unshown;
use crate::staying::machine::Machine;
use crate::staying::working::Shared;
use indexed_state::{put_value, value};
use log::Log;
use op_tables::Tables;
use pcrf_serve::{Event, Reply, SharedSite};
use std::alloc::{AllocError, Global};
use std::io::{Read, Write};

/// The line that asks for it.
const SHOW: &[u8] = b"show";

/// How many bytes of a line are kept, which are more than that line has.
const LINE_BYTES: usize = 16;

/// How many bytes are read at once.
const PIECE_BYTES: usize = 256;

/// What a site can be asked by, in a thread of its own.
pub trait Input: Read + Send + Drop {}

impl<R: Read + Send + Drop> Input for R {}

/// What it can answer on.
pub trait Output: Write + Send + Drop {}

impl<W: Write + Send + Drop> Output for W {}

/// What a site is asked by, and answers on.
#[derive(Drop)]
pub struct Console<R, W> {
    pub reader: R,
    pub writer: W,
}

/// What a site holds, as `show` of a script has it; none where it can't be had.
fn shown<S: SharedSite, M: Machine>(
    rt: &M,
    alloc: Global,
    site: &S,
    seat: &mut S::Seat,
    tables: &Tables,
) -> Result<Option<String>, AllocError> {
    let event = Event::AskWhole;
    let called = site.call_alone(rt, seat, &event);
    drop(event);
    let Ok(Reply::Copy(state, _)) = called else {
        return Ok(None);
    };
    let value = value(alloc, tables, &state)?;
    drop(state);
    let mut text = String::new(alloc);
    let put = put_value(&mut text, &value);
    drop(value);
    put?;
    Ok(Some(text))
}

/// Writes what the site holds.
fn show<'s, 'r, S: SharedSite, M: Machine, G: Log, W: Write>(
    rt: &'s M,
    all: &'s Shared<'s, 'r, S, M, G>,
    seat: &mut S::Seat,
    tables: &Tables,
    writer: &mut W,
) {
    let shown = shown(rt, all.server.alloc, all.server.site, seat, tables);
    let Ok(Some(text)) = shown else {
        tell_unshown(all.log);
        return;
    };
    if writer.write_all(text.as_bytes()).is_err() || writer.flush().is_err() {
        tell_unshown(all.log);
    }
}

/// Whether a line asks for it.
fn is_show(line: &[u8]) -> bool {
    line.trim_ascii() == SHOW
}

/// Shows what the site holds, each time that a line asks for it, until the input ends.
pub fn show_on<'s, 'r, S: SharedSite, M: Machine, G: Log, R: Read + Drop, W: Write + Drop>(
    rt: &'s M,
    all: &'s Shared<'s, 'r, S, M, G>,
    seat: S::Seat,
    tables: &'s Tables,
    console: Console<R, W>,
) {
    let Console {
        mut reader,
        mut writer,
    } = console;
    let mut seat = seat;
    let mut line: Vec<u8> = Vec::new(all.server.alloc);
    let mut piece = [0u8; PIECE_BYTES];
    for _ in rt.forever() {
        let count = match reader.read(&mut piece) {
            Ok(0) | Err(_) => return,
            Ok(count) => count,
        };
        for byte in piece.get(..count).unwrap_or(&[]) {
            if *byte == b'\n' {
                if is_show(line.as_slice()) {
                    show(rt, all, &mut seat, tables, &mut writer);
                }
                line.clear();
            } else if line.len() < LINE_BYTES {
                let _ = line.push(*byte);
            }
        }
    }
}
