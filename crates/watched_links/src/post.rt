//! Bytes that wait to be written to one connection, and who writes them: its worker before it reads on, or a writer beside it while the
//! worker waits for bytes. So nobody else waits for a peer that doesn't read.
use crate::cause::Cause;
use crate::counted::MessageCounts;
use crate::outbox::{Outbox, PutFault};
use crate::pushes::SentPushes;
use dia_codec::read_header;
use std::alloc::Global;
use std::io::{self, ErrorKind, Write};
use std::net::{Shutdown, TcpStream};
use std::sync::{Arc, Condvar, Mutex, Wait};

/// How many bytes may wait: 1 MiB. No further ones are left behind more than these.
const MOST: u32 = 1 << 20;

/// How many bytes of requests may wait for the connection to be settled: 256 KiB. It counts as settled where more are left.
const MOST_EARLY: u32 = 1 << 18;

/// How many bytes wait for the worker at most, while it is awake: 64 KiB. The writer beside it writes them where there are more, so that what
/// a peer is asked that comes back after long doesn't wait until it is too much.
const MOST_AWAKE: usize = 1 << 16;

/// What waits, and where the connection stands.
#[derive(Drop)]
struct Waiting {
    outbox: Outbox,
    /// Requests that were left before the connection was settled, which they come behind.
    early: Outbox,
    /// The peer had time to take the answer to its capabilities exchange.
    is_settled: bool,
    /// The worker will write what waits before it reads on.
    is_awake: bool,
    /// What was taken is being written.
    is_busy: bool,
    /// Nothing more will be left.
    is_closing: bool,
    /// Nothing more is written.
    is_broken: bool,
    /// Why the site ended the connection, if it did.
    cause: Option<Cause>,
}

/// Whether bytes begin with a request.
fn is_request(bytes: &[u8]) -> bool {
    match bytes.first_chunk() {
        Some(head) => read_header(head).flags.request,
        None => false,
    }
}

impl Waiting {
    /// Puts bytes behind those that wait. Whoever has a host asked for something may be quicker than the answer by which the host is reached,
    /// and a peer may pass over what comes right behind that: a request waits until the connection is settled, which it is where no more can
    /// wait for that.
    fn put(&mut self, alloc: Global, bytes: &[u8]) -> Result<(), PutFault> {
        if !self.is_settled && is_request(bytes) {
            match self.early.put(bytes) {
                Err(PutFault::Full) => self.settle(alloc)?,
                put => return put,
            }
        }
        self.outbox.put(bytes)
    }

    /// The connection is settled: the requests that waited for that come behind what waits to be written.
    fn settle(&mut self, alloc: Global) -> Result<(), PutFault> {
        if self.is_settled {
            return Ok(());
        }
        self.is_settled = true;
        let early = self.early.take(alloc);
        self.outbox.put(early.as_slice())
    }

    /// Whether there is something to do for the writer beside the worker.
    fn is_due(&self) -> bool {
        if self.is_busy {
            return false;
        }
        if self.is_broken || self.is_closing {
            return true;
        }
        let most = if self.is_awake { MOST_AWAKE } else { 0 };
        self.outbox.len() > most
    }

    /// Takes what waits, to write it.
    fn take(&mut self, alloc: Global) -> Option<Vec<u8>> {
        if self.is_broken || self.outbox.is_empty() {
            return None;
        }
        self.is_busy = true;
        Some(self.outbox.take(alloc))
    }

    /// What was taken is written, or can't be.
    fn finish(&mut self, is_written: bool) {
        self.outbox.clear_taken();
        self.is_busy = false;
        if !is_written {
            self.break_off(Cause::Unwritten);
        }
    }

    /// Nothing more is written.
    fn break_off(&mut self, cause: Cause) {
        if !self.is_broken && !self.is_closing {
            self.cause = Some(cause);
        }
        self.is_broken = true;
    }
}

/// A connection with what waits to be written to it.
#[derive(Drop)]
pub struct Post {
    alloc: Global,
    stream: TcpStream,
    waiting: Mutex<Waiting>,
    changed: Condvar,
}

impl Post {
    /// A connection to which nothing was written yet.
    pub fn of(alloc: Global, stream: TcpStream) -> Post {
        Post {
            alloc,
            stream,
            waiting: Mutex::new(Waiting {
                outbox: Outbox::with_room(alloc, MOST),
                early: Outbox::with_room(alloc, MOST_EARLY),
                is_settled: false,
                is_awake: true,
                is_busy: false,
                is_closing: false,
                is_broken: false,
                cause: None,
            }),
            changed: Condvar::new(),
        }
    }

    /// The connection.
    pub fn stream(&self) -> &TcpStream {
        &self.stream
    }

    /// Why the site ended the connection, if it did.
    pub fn cause(&self, rt: &impl Wait) -> Option<Cause> {
        self.waiting.lock(rt).cause
    }

    /// Ends the connection at once: what waits isn't written.
    pub fn break_off(&self, rt: &impl Wait, cause: Cause) {
        self.waiting.lock(rt).break_off(cause);
        let _ = self.stream.shutdown(Shutdown::Both);
        self.changed.notify_all();
    }

    /// Leaves the bytes of whole messages, which are written behind those that wait. It waits for nobody who writes. Where they can't be
    /// left the connection ends at once.
    pub fn leave(&self, rt: &impl Wait, bytes: &[u8]) -> io::Result<()> {
        let put = self.put(rt, bytes);
        self.conclude(rt, put)
    }

    /// The peer had time to take the answer to its capabilities exchange, which was left before: what it is asked is written from now on. Where
    /// that can't be left the connection ends at once.
    pub fn settle(&self, rt: &impl Wait) -> io::Result<()> {
        let settled = self.waiting.lock(rt).settle(self.alloc);
        self.conclude(rt, settled)
    }

    /// Tells who writes that something was left; where it couldn't be the connection ends.
    fn conclude(&self, rt: &impl Wait, put: Result<(), PutFault>) -> io::Result<()> {
        match put {
            Ok(()) => {
                self.changed.notify_all();
                Ok(())
            }
            Err(fault) => {
                self.break_off(rt, Cause::Overfull);
                Err(io::Error::from(match fault {
                    PutFault::Full => ErrorKind::BrokenPipe,
                    PutFault::NoMemory => ErrorKind::OutOfMemory,
                }))
            }
        }
    }

    /// Puts bytes behind those that wait; none where nothing more is written.
    fn put(&self, rt: &impl Wait, bytes: &[u8]) -> Result<(), PutFault> {
        let mut waiting = self.waiting.lock(rt);
        if waiting.is_broken || waiting.is_closing {
            return Err(PutFault::Full);
        }
        waiting.put(self.alloc, bytes)
    }

    /// Writes what waits, as its worker, who waits for bytes then. False where nothing more can be written.
    pub fn deliver(&self, rt: &impl Wait) -> bool {
        for _ in rt.forever() {
            let Some(bytes) = self.take_awake(rt) else {
                break;
            };
            self.write(rt, bytes.as_slice());
        }
        !self.waiting.lock(rt).is_broken
    }

    /// What waits, once nobody else writes. Where there is nothing the worker isn't awake any more.
    fn take_awake(&self, rt: &impl Wait) -> Option<Vec<u8>> {
        let mut waiting = self
            .changed
            .wait_while(rt, self.waiting.lock(rt), |waiting| waiting.is_busy);
        let taken = waiting.take(self.alloc);
        waiting.is_awake = taken.is_some();
        taken
    }

    /// The worker got bytes, and will write what waits before it waits for more.
    pub fn wake(&self, rt: &impl Wait) {
        let mut waiting = self.waiting.lock(rt);
        waiting.is_awake = true;
    }

    /// Writes what was taken.
    fn write(&self, rt: &impl Wait, bytes: &[u8]) {
        let mut stream = &self.stream;
        let is_written = stream.write_all(bytes).is_ok();
        self.waiting.lock(rt).finish(is_written);
        if !is_written {
            let _ = self.stream.shutdown(Shutdown::Both);
        }
        self.changed.notify_all();
    }

    /// Nothing more will be left: the connection ends once all is written, requests too that waited for it to be settled.
    fn close(&self, rt: &impl Wait) {
        let mut waiting = self.waiting.lock(rt);
        let _ = waiting.settle(self.alloc);
        waiting.is_closing = true;
        self.changed.notify_all();
    }

    /// Writes what waits while its worker waits for bytes, until nothing more will be left; then it closes the connection.
    pub fn write_beside(&self, rt: &impl Wait) {
        for _ in rt.forever() {
            let Some(bytes) = self.take_due(rt) else {
                break;
            };
            self.write(rt, bytes.as_slice());
        }
        let _ = self.stream.shutdown(Shutdown::Both);
    }

    /// What waits, once that is due; none at the end.
    fn take_due(&self, rt: &impl Wait) -> Option<Vec<u8>> {
        let mut waiting = self
            .changed
            .wait_while(rt, self.waiting.lock(rt), |waiting| !waiting.is_due());
        waiting.take(self.alloc)
    }
}

/// The writing half of a connection: what is written is left at its post. Once it is dropped the connection ends.
pub struct Posting<'r, R: Wait> {
    pub rt: &'r R,
    pub sent: &'r SentPushes,
    pub counts: &'r MessageCounts,
    pub post: Arc<Post>,
}

impl<R: Wait> Drop for Posting<'_, R> {
    fn drop(self) {
        self.post.close(self.rt);
        let Posting {
            rt: _,
            sent: _,
            counts: _,
            post: _,
        } = self;
    }
}

impl<R: Wait> Write for Posting<'_, R> {
    fn write(&mut self, buf: &[u8]) -> io::Result<usize> {
        self.counts.count_sent(buf);
        self.sent.keep(self.rt, buf);
        self.post.leave(self.rt, buf)?;
        Ok(buf.len())
    }

    fn flush(&mut self) -> io::Result<()> {
        Ok(())
    }
}
