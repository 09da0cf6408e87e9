//! Readers and writers in memory.
use crate::serving::gates::Writes;
use std::io::{self, ErrorKind, Read, Write};
use std::sync::{Mutex, Wait};

/// What comes by a connection, a piece at each read, and which of its reads and writes fail, counted from 0: that read, and
/// that write and all after it.
#[derive(Drop)]
pub struct Input {
    pub pieces: Vec<Vec<u8>>,
    pub failing_read: Option<usize>,
    pub failing_write: Option<usize>,
}

/// Gives the pieces of an input, and then the end.
#[derive(Drop)]
pub struct Pieces {
    pieces: Vec<Vec<u8>>,
    reads: usize,
    failing: Option<usize>,
}

impl Pieces {
    /// A reader that gives these pieces. One of its reads may fail.
    pub fn of(pieces: Vec<Vec<u8>>, failing: Option<usize>) -> Pieces {
        Pieces {
            pieces,
            reads: 0,
            failing,
        }
    }
}

impl Read for Pieces {
    fn read(&mut self, buf: &mut [u8]) -> io::Result<usize> {
        let read = self.reads;
        self.reads = read.saturating_add(1);
        if self.failing == Some(read) {
            return Err(io::Error::from(ErrorKind::ConnectionReset));
        }
        let Some(piece) = self.pieces.get(read) else {
            return Ok(0);
        };
        let count = piece.len().min(buf.len());
        buf[..count].copy_from_slice(&piece.as_slice()[..count]);
        Ok(count)
    }
}

/// What was written by a connection, and by how many writes.
#[derive(Drop)]
pub struct Written {
    pub bytes: Vec<u8>,
    pub writes: usize,
}

/// Where what is written is kept.
pub type Place = Mutex<Written>;

/// Keeps what is written to a connection, of which others are told first.
#[derive(Drop)]
pub struct Keeping<'a, R, G> {
    pub rt: &'a R,
    pub connection: usize,
    pub place: &'a Place,
    pub failing: Option<usize>,
    pub told: &'a G,
}

impl<R: Wait, G: Writes> Write for Keeping<'_, R, G> {
    fn write(&mut self, buf: &[u8]) -> io::Result<usize> {
        self.told.writing(self.connection);
        let mut held = self.place.lock(self.rt);
        let written = &mut *held;
        if self
            .failing
            .is_some_and(|first: usize| first <= written.writes)
        {
            return Err(io::Error::from(ErrorKind::BrokenPipe));
        }
        written.bytes.extend_from_slice(buf)?;
        written.writes = written.writes.saturating_add(1);
        Ok(buf.len())
    }

    fn flush(&mut self) -> io::Result<()> {
        Ok(())
    }
}
