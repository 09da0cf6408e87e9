//! Readers and writers over memory, which give and take so many bytes at once, and may fail.
use std::alloc::Global;
use std::io::{self, ErrorKind, Read, Write};

/// A reader of bytes, so many at once at most, which fails once it was called so many times.
#[derive(Drop)]
pub struct Source<'a> {
    bytes: &'a [u8],
    most: usize,
    pub fails_at: usize,
}

impl<'a> Source<'a> {
    /// One that doesn't fail.
    pub fn of(bytes: &'a [u8], most: usize) -> Source<'a> {
        Source {
            bytes,
            most,
            fails_at: usize::MAX,
        }
    }
}

impl Read for Source<'_> {
    fn read(&mut self, buf: &mut [u8]) -> io::Result<usize> {
        if self.fails_at == 0 {
            return Err(io::Error::from(ErrorKind::Other));
        }
        self.fails_at -= 1;
        let count = self.most.min(buf.len()).min(self.bytes.len());
        let (front, rest) = self.bytes.split_at(count);
        buf[..count].copy_from_slice(front);
        self.bytes = rest;
        Ok(count)
    }
}

/// A writer that keeps what is written, so many bytes at once at most, and fails once it was called so many times.
#[derive(Drop)]
pub struct Sink {
    pub bytes: Vec<u8>,
    pub most: usize,
    pub fails_at: usize,
}

impl Sink {
    /// One that doesn't fail.
    pub fn of(alloc: Global) -> Sink {
        Sink {
            bytes: Vec::new(alloc),
            most: usize::MAX,
            fails_at: usize::MAX,
        }
    }
}

impl Write for Sink {
    fn write(&mut self, buf: &[u8]) -> io::Result<usize> {
        if self.fails_at == 0 {
            return Err(io::Error::from(ErrorKind::Other));
        }
        self.fails_at -= 1;
        let count = self.most.min(buf.len());
        self.bytes.extend_from_slice(&buf[..count])?;
        Ok(count)
    }

    /// Fails as a write does, and counts as none.
    fn flush(&mut self) -> io::Result<()> {
        if self.fails_at == 0 {
            return Err(io::Error::from(ErrorKind::Other));
        }
        Ok(())
    }
}
