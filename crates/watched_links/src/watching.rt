//! The reading half of a connection, which has its peer keep the order of a connection's life: a capabilities exchange first, no other
//! host than that of the first, and some byte now and then.
ghost use Rattle.std.specs.Io.{ReadsAtMost};

use crate::cause::Cause;
use crate::counted::MessageCounts;
use crate::frames::{Found, Frames, is_exchange};
use crate::own::Own;
use crate::post::Post;
use dia_base::read_base;
use dia_codec::{Header, read_message};
use pcrf_values::{DiameterIdentity, Ranked};
use std::alloc::Global;
use std::io::{self, ErrorKind, Read};
use std::sync::{Arc, Wait};
use std::time::{Clock, Duration, Instant};

/// How long a peer has for its capabilities exchange.
const EXCHANGE_SECONDS: u64 = 10;

/// How many milliseconds a peer has to take the answer to it before it is asked for something, unless it sends something itself: OTP's
/// diameter passes over a request that comes right behind the answer.
const SETTLE_MILLIS: u64 = 100;

/// The reading half of a connection.
#[derive(Drop)]
pub struct Watched<'b, 'r, R> {
    alloc: Global,
    rt: &'r R,
    own: &'b Own,
    counts: &'b MessageCounts,
    post: Arc<Post>,
    frames: Frames,
    /// Since when the connection is there.
    since: Instant,
    /// The host of its first capabilities exchange.
    host: Option<DiameterIdentity>,
    /// It may be asked for something.
    is_settled: bool,
    /// It was asked whether it is there, and nothing came since.
    is_asked: bool,
    /// Nothing more is read.
    is_over: bool,
}

/// The host that a capabilities exchange names; none where it can't be read, which its answer tells.
fn exchanging_host(alloc: Global, frame: &[u8]) -> Option<DiameterIdentity> {
    let message = read_message(alloc, frame).ok()?;
    let request = read_base(alloc, &message).ok()?;
    let origin = request.origin;
    Some(origin.host)
}

/// What ends a connection.
fn ended() -> io::Error {
    io::Error::from(ErrorKind::ConnectionAborted)
}

impl<'b, 'r, R: Wait + Clock> Watched<'b, 'r, R> {
    /// Of a connection that is there since then.
    pub fn start(
        alloc: Global,
        rt: &'r R,
        own: &'b Own,
        counts: &'b MessageCounts,
        post: Arc<Post>,
        since: Instant,
    ) -> Watched<'b, 'r, R> {
        Watched {
            alloc,
            rt,
            own,
            counts,
            post,
            frames: Frames::start(alloc),
            since,
            host: None,
            is_settled: false,
            is_asked: false,
            is_over: false,
        }
    }

    /// Ends the connection.
    fn end<T>(&mut self, cause: Cause) -> io::Result<T> {
        self.is_over = true;
        self.post.break_off(self.rt, cause);
        Err(ended())
    }

    /// Has the next read wait no longer than the peer has for its capabilities exchange.
    fn limit(&mut self) -> io::Result<()> {
        if self.host.is_some() {
            return Ok(());
        }
        let elapsed = self.since.elapsed(self.rt)?;
        match Duration::from_secs(EXCHANGE_SECONDS).checked_sub(elapsed) {
            Some(left) if !left.is_zero() => self.post.stream().set_read_timeout(Some(left)),
            _ => self.end(Cause::NoExchange),
        }
    }

    /// Its capabilities exchange was answered a while ago, or it sent something behind that.
    fn settle(&mut self) -> io::Result<()> {
        self.is_settled = true;
        self.post
            .stream()
            .set_read_timeout(Some(self.own.watchdog))?;
        self.post.settle(self.rt)
    }

    /// Nothing came for as long as a read waits: the peer may be asked for something, and then whether it is there (RFC 3539, 3.4.1).
    fn ask(&mut self) -> io::Result<()> {
        if self.host.is_none() {
            return Ok(());
        }
        if !self.is_settled {
            return self.settle();
        }
        if self.is_asked {
            return self.end(Cause::Silent);
        }
        self.is_asked = true;
        let Ok(request) = self.own.next_watchdog(self.alloc) else {
            return Err(io::Error::from(ErrorKind::OutOfMemory));
        };
        self.counts.count_sent(request.as_slice());
        self.post.leave(self.rt, request.as_slice())
    }

    /// Waits for bytes.
    fn await_bytes(&mut self, buf: &mut [u8]) -> io::Result<usize>
        ensures { ReadsAtMost result buf.new }
    {
        let rt = self.rt;
        for _ in rt.forever() {
            self.limit()?;
            let mut stream = self.post.stream();
            match stream.read(buf) {
                Ok(count) => return Ok(count),
                Err(error) if error.kind() == ErrorKind::WouldBlock => self.ask()?,
                Err(error) if error.kind() == ErrorKind::Interrupted => {}
                Err(error) => return Err(error),
            }
        }
        unreachable!()
    }

    /// A message begins: nothing but a capabilities exchange may come first (RFC 6733, 5.6).
    fn begin(&mut self, header: &Header) -> io::Result<()> {
        self.counts.count_taken(header);
        if self.host.is_none() && !is_exchange(header) {
            return self.end(Cause::OtherFirst);
        }
        Ok(())
    }

    /// A capabilities exchange is whole.
    fn exchange(&mut self) -> io::Result<()> {
        let frame = self.frames.take_exchange();
        let Some(host) = exchanging_host(self.alloc, frame.as_slice()) else {
            return Ok(());
        };
        if host == self.own.identity.host {
            return self.end(Cause::OwnHost);
        }
        match &self.host {
            Some(first) if *first == host => Ok(()),
            Some(_) => self.end(Cause::OtherHost),
            None => {
                self.host = Some(host);
                self.post
                    .stream()
                    .set_read_timeout(Some(Duration::from_millis(SETTLE_MILLIS)))
            }
        }
    }

    /// Judges bytes that came.
    fn judge(&mut self, bytes: &[u8]) -> io::Result<()> {
        let mut rest = bytes;
        for _ in 0..bytes.len() {
            if rest.is_empty() {
                return Ok(());
            }
            let Ok((count, found)) = self.frames.take(rest) else {
                return Err(io::Error::from(ErrorKind::OutOfMemory));
            };
            match found {
                Found::Nothing => {}
                Found::Head(header) => self.begin(&header)?,
                Found::Exchange => self.exchange()?,
            }
            rest = rest.get(count..).unwrap_or(&[]);
        }
        Ok(())
    }
}

impl<R: Wait + Clock> Read for Watched<'_, '_, R> {
    fn read(&mut self, buf: &mut [u8]) -> io::Result<usize> {
        if self.is_over || !self.post.deliver(self.rt) {
            return Err(ended());
        }
        let count = self.await_bytes(buf)?;
        self.is_asked = false;
        self.post.wake(self.rt);
        if self.host.is_some() && !self.is_settled {
            self.settle()?;
        }
        self.judge(buf.get(..count).unwrap_or(&[]))?;
        Ok(count)
    }
}
