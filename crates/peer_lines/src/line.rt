//! A connection to a peer site, which others than its worker can end.
use std::io::{self, ErrorKind, Read, Write};
use std::net::{Shutdown, TcpStream};
use std::sync::Arc;
use std::sync::atomic::{AtomicBool, AtomicU64, Ordering};
use std::time::{Clock, Duration, Instant};

/// How many seconds a link has for its proofs and the head of its first letter.
const OPENING_SECONDS: u64 = 10;

/// How often a read is begun again that a signal broke off.
const AGAIN: u32 = 64;

/// A connection to a peer site.
#[derive(Drop)]
pub struct Line {
    stream: TcpStream,
    /// Since when it is there.
    since: Instant,
    /// A letter came, or was sent.
    is_open: AtomicBool,
    /// How many of the site's operations the letters tell that were sent on it.
    told: AtomicU64,
}

impl Line {
    /// One that is there since then, before its first letter.
    pub fn of(stream: TcpStream, since: Instant) -> Line {
        Line {
            stream,
            since,
            is_open: AtomicBool::new(false),
            told: AtomicU64::new(0),
        }
    }

    /// Reads wait so long from now on.
    pub fn open(&self, limit: Option<Duration>) -> io::Result<()> {
        self.is_open.store(true, Ordering::SeqCst);
        self.stream.set_read_timeout(limit)
    }

    /// Ends it at once.
    pub fn end(&self) {
        let _ = self.stream.shutdown(Shutdown::Both);
    }

    /// How many of the site's operations the letters tell that were sent on it.
    pub fn told(&self) -> u64 {
        self.told.load(Ordering::SeqCst)
    }

    /// They tell so many.
    pub fn tell(&self, told: u64) {
        self.told.store(told, Ordering::SeqCst);
    }

    /// Has a read wait no longer than the link has for its first letter.
    fn limit<C: Clock>(&self, clock: &C) -> io::Result<()> {
        if self.is_open.load(Ordering::SeqCst) {
            return Ok(());
        }
        let elapsed = self.since.elapsed(clock)?;
        match Duration::from_secs(OPENING_SECONDS).checked_sub(elapsed) {
            Some(left) if !left.is_zero() => self.stream.set_read_timeout(Some(left)),
            _ => Err(io::Error::from(ErrorKind::TimedOut)),
        }
    }

    /// Reads what there is.
    fn peek(&self) -> io::Result<usize> {
        self.stream.set_nonblocking(true)?;
        let mut byte = [0u8; 1];
        let peeked = self.stream.peek(&mut byte);
        self.stream.set_nonblocking(false)?;
        peeked
    }

    /// Whether the other end is gone: it closed the link, or that broke.
    pub fn is_gone(&self) -> bool {
        match self.peek() {
            Ok(count) => count == 0,
            Err(error) => error.kind() != ErrorKind::WouldBlock,
        }
    }
}

/// A line that is read, within its time.
#[derive(Drop)]
pub struct Timely<'r, C> {
    pub(crate) clock: &'r C,
    pub(crate) line: Arc<Line>,
}

impl<C: Clock> Read for Timely<'_, C> {
    fn read(&mut self, buf: &mut [u8]) -> io::Result<usize> {
        for _ in 0..AGAIN {
            self.line.limit(self.clock)?;
            let mut stream = &self.line.stream;
            match stream.read(buf) {
                Err(error) if error.kind() == ErrorKind::Interrupted => {}
                outcome => return outcome,
            }
        }
        Err(io::Error::from(ErrorKind::Interrupted))
    }
}

/// A line that is written.
#[derive(Drop)]
pub struct Outward {
    pub(crate) line: Arc<Line>,
}

impl Write for Outward {
    fn write(&mut self, buf: &[u8]) -> io::Result<usize> {
        let mut stream = &self.line.stream;
        stream.write(buf)
    }

    fn flush(&mut self) -> io::Result<()> {
        Ok(())
    }
}
