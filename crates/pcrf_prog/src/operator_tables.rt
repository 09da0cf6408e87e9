//! The operator tables of a run: those of a file, or those that the program holds.
use crate::files::read_file;
use op_tables::{PlacedFault, TableFault, Tables, read_placed};
use std::alloc::Global;
use std::io::{self, ErrorKind};
use std::rt::Files;
use std::str;
use thiserror::Error;

/// The most bytes that a file of tables may have: 64 MiB.
const FILE_LIMIT: u64 = 67_108_864;

/// The tables of a run without words: one access point with a name alone.
const HELD: &str = "edition = 7
rtcp_bps = 5000
[signalling]
qci = 5
priority = 9
capability = 1
vulnerability = 0
max_ul = 32000
max_dl = 32000
precedence = 50
[[apn]]
name = \"ims\"
";

/// Why a run has no tables.
#[derive(Clone, Copy, Debug, PartialEq, Eq, Error)]
pub enum TablesFault {
    /// There is no such file, it is a folder, it has too many bytes, or they are no text.
    #[error("unreadable")]
    Unreadable,
    /// The file's text is no operator tables.
    #[error("{}", .0.fault)]
    Refused(PlacedFault),
    /// Memory ran out.
    #[error("no memory")]
    NoMemory,
}

/// What a refused call of the system says of the tables.
fn fault_of(error: &io::Error) -> TablesFault {
    if error.kind() == ErrorKind::OutOfMemory {
        return TablesFault::NoMemory;
    }
    TablesFault::Unreadable
}

/// The tables of a text.
fn of_text(alloc: Global, text: &str) -> Result<Tables, TablesFault> {
    read_placed(alloc, text).map_err(|refused| match refused.fault {
        TableFault::NoMemory => TablesFault::NoMemory,
        _ => TablesFault::Refused(refused),
    })
}

/// The tables of a file.
pub fn of_file<H: Files + AllocGlobal>(rt: &H, path: &str) -> Result<Tables, TablesFault> {
    let bytes = match read_file(rt, path, FILE_LIMIT) {
        Ok(bytes) => bytes,
        Err(error) => return Err(fault_of(&error)),
    };
    match str::from_utf8(bytes.as_slice()) {
        Ok(text) => of_text(rt.alloc(), text),
        Err(_) => Err(TablesFault::Unreadable),
    }
}

/// The tables that the program holds.
pub fn held(alloc: Global) -> Result<Tables, TablesFault> {
    of_text(alloc, HELD)
}
