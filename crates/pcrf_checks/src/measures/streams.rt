//! Messages that a site answers, as one stream (`site_core`: `converse`) or each with its parts timed apart; and messages that
//! are only read.
ghost use Rattle.std.specs.Prelude.{◌<◌, IfOk};
ghost use Rattle.dia_codec.specs.Limits.{command_bound};
ghost use Rattle.site_core.specs.Asking.{HeaderFits};

use crate::fault::{Fault, Unmeasured};
use crate::makers::request_of;
use crate::measures::figures::Figures;
use dia_codec::{Counted, HEADER_BYTES, Header};
use gx_profile::GxReply;
use site_core::{Asked, Ended, Event, Reply, Request, Site, converse, read_request, write_reply};
use std::alloc::{AllocError, AllocGlobal, Global};
use std::io::{self, Write};
use std::time::{Clock, Duration, Instant};

/// A writer that keeps nothing.
#[derive(Drop)]
struct Discard;

impl Write for Discard {
    fn write(&mut self, buf: &[u8]) -> io::Result<usize> {
        Ok(buf.len())
    }

    fn flush(&mut self) -> io::Result<()> {
        Ok(())
    }
}

/// Messages one behind the other.
fn stream_of(alloc: Global, messages: &[Vec<u8>]) -> Result<Vec<u8>, AllocError> {
    let mut stream = Vec::new(alloc);
    for message in messages {
        stream.extend_from_slice(message.as_slice())?;
    }
    Ok(stream)
}

/// A site answers a whole stream.
fn answer_stream(alloc: Global, site: &mut Site, stream: &[u8]) -> Result<(), Fault> {
    let mut reader = Counted::start(stream);
    let mut writer = Counted::start(Discard);
    match converse(alloc, site, &mut reader, &mut writer) {
        Ended::Closed => Ok(()),
        _ => Err(Fault::Unmeasured(Unmeasured::StreamLeft)),
    }
}

/// How long a site takes to answer messages as one stream.
pub fn time_stream(
    rt: &(impl AllocGlobal + Clock),
    site: &mut Site,
    messages: &[Vec<u8>],
) -> Result<Duration, Fault> {
    let stream = stream_of(rt.alloc(), messages)?;
    let start = Instant::now(rt)?;
    answer_stream(rt.alloc(), site, stream.as_slice())?;
    Ok(start.elapsed(rt)?)
}

/// What a message asks for.
fn asked_of(alloc: Global, message: &[u8]) -> Result<Asked, Fault>
    ensures { IfOk result HeaderFits }
{
    if message.len() < HEADER_BYTES {
        return Err(Fault::Unmeasured(Unmeasured::NoHeader));
    }
    Ok(read_request(alloc, message)?)
}

/// How long reading, serving and answering took.
#[derive(Clone, Copy)]
struct Times {
    reading: Duration,
    serving: Duration,
    writing: Duration,
}

/// Serves a request, and adds how long that takes.
fn serve(
    rt: &(impl AllocGlobal + Clock),
    site: &mut Site,
    request: &Request,
    times: &mut Times,
) -> Result<Reply, Fault> {
    let start = Instant::now(rt)?;
    let reply = site.serve(request)?;
    match start.elapsed(rt) {
        Ok(time) => {
            times.serving = times.serving.saturating_add(time);
            Ok(reply)
        }
        Err(error) => {
            drop(reply);
            Err(Fault::from(error))
        }
    }
}

/// Whether a request is refused.
fn is_refused(reply: &Reply) -> bool {
    matches!(reply, Reply::Refused(_) | Reply::Gx(GxReply::Refused(_)))
}

/// Writes an answer, and adds how long that takes.
fn write(
    rt: &(impl AllocGlobal + Clock),
    site: &Site,
    header: &Header,
    request: &Request,
    reply: &Reply,
    times: &mut Times,
) -> Result<(), Fault>
    requires { header.now.command < command_bound }
{
    let start = Instant::now(rt)?;
    let bytes = write_reply(rt.alloc(), site.identity(), header, request, reply)?;
    times.writing = times.writing.saturating_add(start.elapsed(rt)?);
    if bytes.is_empty() || is_refused(reply) {
        return Err(Fault::Unmeasured(Unmeasured::RequestRefused));
    }
    Ok(())
}

/// Serves and answers what a message asks for.
fn answer_asked(
    rt: &(impl AllocGlobal + Clock),
    site: &mut Site,
    asked: &Asked,
    times: &mut Times,
) -> Result<(), Fault>
    requires { HeaderFits asked.now }
{
    let Asked::Request(header, request) = asked else {
        return Err(Fault::Unmeasured(Unmeasured::NoRequest));
    };
    let reply = serve(rt, site, request, times)?;
    let written = write(rt, site, header, request, &reply, times);
    drop(reply);
    written
}

/// Reads, serves and answers a message.
fn answer_message(
    rt: &(impl AllocGlobal + Clock),
    site: &mut Site,
    message: &[u8],
    times: &mut Times,
) -> Result<(), Fault> {
    let start = Instant::now(rt)?;
    let asked = asked_of(rt.alloc(), message)?;
    let answered = match start.elapsed(rt) {
        Ok(time) => {
            times.reading = times.reading.saturating_add(time);
            answer_asked(rt, site, &asked, times)
        }
        Err(error) => Err(Fault::from(error)),
    };
    drop(asked);
    answered
}

/// Reads, serves and answers messages, each with its parts timed apart.
pub fn measure_parts(
    rt: &(impl AllocGlobal + Clock),
    site: &mut Site,
    messages: &[Vec<u8>],
    name: &str,
    figures: &mut Figures,
) -> Result<(), Fault> {
    let mut times = Times {
        reading: Duration::ZERO,
        serving: Duration::ZERO,
        writing: Duration::ZERO,
    };
    for message in messages {
        answer_message(rt, site, message.as_slice(), &mut times)?;
    }
    figures.add_part(name, "reading", messages.len(), times.reading)?;
    figures.add_part(name, "serving", messages.len(), times.serving)?;
    figures.add_part(name, "writing", messages.len(), times.writing)
}

/// What a message asks a site for, as an event; an empty one is a push to any gateway.
fn event_of(alloc: Global, message: &[u8]) -> Result<Event, Fault> {
    if message.is_empty() {
        return Ok(Event::Push(None));
    }
    match request_of(alloc, message)? {
        Some(request) => Ok(Event::Serve(request)),
        None => Err(Fault::Unmeasured(Unmeasured::NoRequest)),
    }
}

/// Messages as events.
pub fn events_of(alloc: Global, messages: &[Vec<u8>]) -> Result<Vec<Event>, Fault> {
    let mut events = Vec::new(alloc);
    for message in messages {
        let event = event_of(alloc, message.as_slice())?;
        events.push(event)?;
    }
    Ok(events)
}

/// How long it takes to read messages so often, each time all of them before what they say is dropped.
pub fn time_reading(
    rt: &(impl AllocGlobal + Clock),
    messages: &[Vec<u8>],
    rounds: u32,
) -> Result<Duration, Fault> {
    let start = Instant::now(rt)?;
    for _ in 0..rounds {
        drop(events_of(rt.alloc(), messages)?);
    }
    Ok(start.elapsed(rt)?)
}
