//! Whole streams that a site answers: each line is one, as hexadecimal digits. A new site answers each, and a line tells how
//! the stream ended, and what was written, where anything was. Every second stream comes in small pieces.
ghost use Rattle.std.specs.Prelude.{◌≤◌, length, IfOk};

use crate::fault::Fault;
use crate::makers::new_site;
use dia_codec::{Counted, FrameFault};
use op_tables::Tables;
use pcrf_world::words::bytes;
use site_core::{Ended, converse};
use std::alloc::{AllocError, Global};
use std::io;
use std::io::Read;

/// A reader of a few bytes at a time.
#[derive(Drop)]
struct Pieces<'a> {
    /// What it has still to give.
    left: &'a [u8],
    /// How many it gives at once.
    most: usize,
}

impl Read for Pieces<'_> {
    fn read(&mut self, buf: &mut [u8]) -> io::Result<usize> {
        let count = self.most.min(buf.len()).min(self.left.len());
        buf[..count].copy_from_slice(&self.left[..count]);
        self.left = &self.left[count..];
        Ok(count)
    }
}

/// How many bytes of a stream are read at once.
fn piece_bytes(line: usize) -> usize {
    match line % 4 {
        1 => 1,
        3 => 7,
        _ => 4096,
    }
}

/// How a stream ended, as it is printed.
fn name_of(ended: Ended) -> &'static str {
    match ended {
        Ended::Closed => "closed",
        Ended::Cut => "cut",
        Ended::Disconnected => "disconnected",
        Ended::Frame(FrameFault::ShortLength) => "frame ShortLength",
        Ended::Frame(FrameFault::OddLength) => "frame OddLength",
        Ended::Frame(FrameFault::TooLong) => "frame TooLong",
        Ended::Frame(FrameFault::NoMemory) | Ended::NoMemory => "no memory",
        Ended::ReadFailed => "read failed",
        Ended::WriteFailed => "write failed",
    }
}

/// Has a new site answer a stream, so many bytes of which come at once: how the stream ends, and what is written.
fn answered(
    alloc: Global,
    tables: &Tables,
    stream: &[u8],
    most: usize,
) -> Result<(Ended, Vec<u8>), AllocError> {
    let mut site = new_site(alloc, tables)?;
    let mut written = Vec::new(alloc);
    let ended = {
        let mut reader = Counted::start(Pieces { left: stream, most });
        let mut writer = Counted::start(&mut written);
        converse(alloc, &mut site, &mut reader, &mut writer)
    };
    Ok((ended, written))
}

/// Adds how each stream of these lines ends with these operator tables, and what is written.
pub fn put_streams(
    alloc: Global,
    tables: &Tables,
    lines: &str,
    out: &mut String,
) -> Result<(), Fault> {
    for (at, line) in lines.lines().enumerate() {
        let stream = if line.is_empty() {
            Vec::new(alloc)
        } else {
            bytes(alloc, line)?
        };
        let (ended, written) = answered(alloc, tables, stream.as_slice(), piece_bytes(at))?;
        out.push_str(name_of(ended))?;
        if !written.is_empty() {
            out.push_str(" ")?;
            out.push_str(hex::encode(alloc, written.as_slice())?.as_str())?;
        }
        out.push_str("\n")?;
    }
    Ok(())
}
