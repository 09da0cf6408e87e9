//! One request behind the other is answered.
use crate::staying::machine::Machine;
use crate::staying::status::answered::Answered;
use crate::staying::status::looked::Looked;
use crate::staying::status::looking::{address, gateway, session, subscriber};
use crate::staying::status::telling::figures_of;
use crate::staying::working::Shared;
use log::{Log, debug};
use site_status::{
    CSS, HTML, Head, Media, Page, SCRIPT, Status, page_of, put_response, query_of, read_head,
};
use std::alloc::AllocError;
use std::io::{self, ErrorKind, Read, Write};
use std::net::{Shutdown, TcpStream};
use std::sync::Wait;
use std::time::{Duration, Instant};
use watched_links::Arrived;

/// How many connections are answered at once.
pub const ASKS: usize = 16;

/// How many seconds a connection has, from its beginning to its end.
const SECONDS: u64 = 10;

/// How many milliseconds it is waited for more of what comes behind its request.
const REST_MILLIS: u64 = 500;

/// How many bytes are read at once.
const PIECE_BYTES: usize = 1024;

/// How often at most what comes behind a request is read.
const RESTS: u64 = 64;

/// What stands before each line as its target.
const TARGET: &str = "pcrf";

/// How long a connection has still.
fn left<M: Machine>(rt: &M, since: Instant) -> io::Result<Duration> {
    match Duration::from_secs(SECONDS).checked_sub(since.elapsed(rt)?) {
        Some(left) if !left.is_zero() => Ok(left),
        _ => Err(io::Error::from(ErrorKind::TimedOut)),
    }
}

/// Whether the site serves.
fn health<'s, 'r, S: Looked, M: Machine, G: Log>(
    all: &Shared<'s, 'r, S, M, G>,
) -> Result<Answered, AllocError> {
    let alloc = all.furniture.alloc;
    if all.furniture.figures.site.serving.get() == 0 {
        return Answered::plain(
            alloc,
            Status::Unavailable,
            b"it waits for a peer site to tell it all\n",
        );
    }
    Answered::plain(alloc, Status::Ok, b"ok\n")
}

/// What a page has.
fn page<'s, 'r, S: Looked, M: Machine, G: Log>(
    rt: &M,
    all: &Shared<'s, 'r, S, M, G>,
    page: Page<'_>,
    query: &[u8],
) -> Result<Answered, AllocError> {
    let alloc = all.furniture.alloc;
    match page {
        Page::Health => health(all),
        Page::Metrics => {
            let figures = figures_of(rt, all)?;
            Answered::plain(alloc, Status::Ok, figures.text())
        }
        Page::Overview => Answered::part(alloc, Media::Html, HTML),
        Page::Style => Answered::part(alloc, Media::Css, CSS),
        Page::Script => Answered::part(alloc, Media::Script, SCRIPT),
        Page::History => Answered::json(all.furniture.figures.history.shown(rt, alloc)?),
        Page::Session(name) => session(rt, all, name),
        Page::Subscriber(name) => subscriber(rt, all, name, query),
        Page::Address(name) => address(rt, all, name, query),
        Page::Gateway(name) => gateway(rt, all, name),
    }
}

/// The answer to a request.
fn answer_to<'s, 'r, S: Looked, M: Machine, G: Log>(
    rt: &M,
    all: &Shared<'s, 'r, S, M, G>,
    method: &[u8],
    target: &[u8],
) -> Result<Answered, AllocError> {
    let alloc = all.furniture.alloc;
    if method != b"GET".as_slice() {
        return Answered::plain(
            alloc,
            Status::MethodNotAllowed,
            b"nothing but GET is answered\n",
        );
    }
    match page_of(target) {
        Some(named) => page(rt, all, named, query_of(target)),
        None => Answered::plain(alloc, Status::NotFound, b"there is no such page\n"),
    }
}

/// The answer to what stands at the front of the bytes of a connection; none where that isn't whole yet.
fn answer_at<'s, 'r, S: Looked, M: Machine, G: Log>(
    rt: &M,
    all: &Shared<'s, 'r, S, M, G>,
    bytes: &[u8],
) -> Result<Option<Answered>, AllocError> {
    let alloc = all.furniture.alloc;
    let answered = match read_head(bytes) {
        Head::Begun => return Ok(None),
        Head::Whole { method, target } => answer_to(rt, all, method, target),
        Head::TooLong => Answered::plain(alloc, Status::HeadTooLong, b"the head is too long\n"),
        Head::Malformed => Answered::plain(alloc, Status::BadRequest, b"this is no request\n"),
    };
    Ok(Some(answered?))
}

/// Writes bytes within the time that a connection has.
fn send<M: Machine>(
    rt: &M,
    mut stream: &TcpStream,
    since: Instant,
    bytes: &[u8],
) -> io::Result<()> {
    let mut rest = bytes;
    for _ in 0..bytes.len() {
        if rest.is_empty() {
            break;
        }
        stream.set_write_timeout(Some(left(rt, since)?))?;
        let count = stream.write(rest)?;
        rest = rest.get(count..).unwrap_or(&[]);
    }
    Ok(())
}

/// Passes over what comes behind a request for a moment, within the time that its connection has, since the answer might be lost where a
/// connection is closed with bytes that weren't read.
fn pass_over<M: Machine>(
    rt: &M,
    mut stream: &TcpStream,
    since: Instant,
    piece: &mut [u8],
) -> io::Result<()> {
    stream.shutdown(Shutdown::Write)?;
    for _ in 0..RESTS {
        let limit = left(rt, since)?.min(Duration::from_millis(REST_MILLIS));
        stream.set_read_timeout(Some(limit))?;
        if stream.read(piece)? == 0 {
            break;
        }
    }
    Ok(())
}

/// Reads a request and answers it, if a whole one comes. It is counted before it is answered, so that whoever got an answer finds it counted.
fn answer<'s, 'r, S: Looked, M: Machine, G: Log>(
    rt: &M,
    all: &Shared<'s, 'r, S, M, G>,
    mut stream: &TcpStream,
    since: Instant,
) -> io::Result<()> {
    let mut bytes = Vec::new(all.furniture.alloc);
    let mut piece = [0u8; PIECE_BYTES];
    for _ in rt.forever() {
        stream.set_read_timeout(Some(left(rt, since)?))?;
        let count = stream.read(&mut piece)?;
        if count == 0 {
            return Ok(());
        }
        bytes.extend_from_slice(piece.get(..count).unwrap_or(&[]))?;
        if let Some(
            Answered {
                status,
                media,
                body,
            },
        ) = answer_at(rt, all, bytes.as_slice())?
        {
            let mut response = Vec::new(all.furniture.alloc);
            put_response(&mut response, status, media, body.as_slice())?;
            all.furniture.figures.asks.add(status.code());
            send(rt, stream, since, response.as_slice())?;
            let _ = pass_over(rt, stream, since, &mut piece);
            return Ok(());
        }
    }
    unreachable!()
}

/// Answers one connection behind the other, as long as the server runs. Nothing of what they send is told above DEBUG.
pub fn answer_asks<'s, 'r, S: Looked, M: Machine, G: Log>(
    rt: &'s M,
    all: &'s Shared<'s, 'r, S, M, G>,
) {
    let hall = &all.furniture.asking;
    for _ in rt.forever() {
        let Arrived {
            stream,
            address,
            since,
        } = hall.next(rt);
        if let Err(error) = answer(rt, all, &stream, since) {
            debug!(all.log; target: TARGET, "the status of the site wasn't told to {address}: {error}");
        }
        drop(stream);
        hall.free(rt);
    }
}
