//! The events that the lines of a script make, and what the lines print by the answers that one run of them all gave.
ghost use Rattle.std.specs.Prelude.{◌≡◌};
ghost use Rattle.site_core.specs.Frames.{NeverFull};

use crate::fault::Fault;
use crate::makers::{Answer, request_of};
use dia_base::Identity;
use dia_codec::frames_of;
use indexed_state::{put_value, value};
use pcrf_values::DiameterIdentity;
use pcrf_world::{
    Line, SiteCount, World, WorldEvent, WorldFault, WorldOutcome, identity_of, put_messages,
    put_outcome, read_line,
};
use site_core::{Reply, Request, Serve, ServeFault, Site};
use std::alloc::{AllocError, Global};
use std::fmt::Write as _;

/// The host of all gateways.
const GATEWAY: &[u8] = b"gw";

/// The host of all application functions.
const FUNCTION: &[u8] = b"af";

/// A world in which events happened at once.
#[derive(Drop)]
pub struct Run<'a> {
    pub alloc: Global,
    pub count: SiteCount,
    pub events: &'a [WorldEvent],
    pub world: &'a World,
}

/// The number of a site of a world, if there is such a site.
fn number_of(world: &World, site: usize) -> Option<u8> {
    world.site(site).map(Site::number)
}

/// The first of these events, so many of them as there are at most.
fn first_of(events: &[WorldEvent], count: usize) -> &[WorldEvent] {
    events.get(..count).unwrap_or(events)
}

/// What the lines of a script ask for.
pub fn lines_of(alloc: Global, script: &str) -> Result<Vec<Line>, Fault> {
    let mut lines = Vec::new(alloc);
    for line in script.lines() {
        lines.push(read_line(alloc, line.as_bytes())?)?;
    }
    Ok(lines)
}

/// Whom a site tells: one of an even number any host, and another the one that all have whom that concerns.
fn host(alloc: Global, site: usize, all: &[u8]) -> Result<Option<DiameterIdentity>, AllocError> {
    match site % 2 {
        0 => Ok(None),
        _ => DiameterIdentity::read(alloc, all),
    }
}

/// Adds the events of the frames of a stream: of those that are requests that can be read.
fn put_requests(
    alloc: Global,
    site: usize,
    bytes: &[u8],
    events: &mut Vec<WorldEvent>,
) -> Result<(), Fault> {
    let stream = frames_of(alloc, &[bytes])?;
    for frame in &stream.frames {
        if let Some(request) = request_of(alloc, frame.as_slice())? {
            events.push(WorldEvent::Serve(site, request))?;
        }
    }
    Ok(())
}

/// The event of a line, if it makes one.
fn event_of(alloc: Global, line: &Line) -> Result<Option<WorldEvent>, AllocError> {
    Ok(match line.event()? {
        Some(WorldEvent::Push(i, _)) => Some(WorldEvent::Push(i, host(alloc, i, GATEWAY)?)),
        Some(WorldEvent::Abort(i, _)) => Some(WorldEvent::Abort(i, host(alloc, i, FUNCTION)?)),
        event => event,
    })
}

/// The events of lines.
pub fn events_of(alloc: Global, lines: &[Line]) -> Result<Vec<WorldEvent>, Fault> {
    let mut events = Vec::new(alloc);
    for line in lines {
        if let Line::Message(i, bytes) = line {
            put_requests(alloc, *i, bytes.as_slice(), &mut events)?;
        } else if let Some(event) = event_of(alloc, line)? {
            events.push(event)?;
        }
    }
    Ok(events)
}

/// A site that gives the replies that a run gave.
#[derive(Drop)]
struct Replayed {
    identity: Identity,
    /// What the events gave whose lines weren't replayed yet, the next one last.
    left: Vec<Answer>,
}

impl Serve for Replayed {
    ghost names = { λ s. s.identity };

    ghost may_reply = { λ old request reply new. new.identity ≡ old.identity };

    ghost is_full = { NeverFull };

    fn identity(&self) -> &Identity {
        &self.identity
    }

    fn serve(&mut self, request: Request) -> (Request, Result<Reply, ServeFault>) {
        match self.left.pop() {
            Some(Ok(WorldOutcome::Replied(reply))) => (request, Ok(reply)),
            // The script prints something else.
            _ => (request, Ok(Reply::Base(0))),
        }
    }
}

impl Replayed {
    /// Passes over what requests gave that no site was given.
    fn pass_ungiven(&mut self) {
        for _ in 0..self.left.len() {
            if !matches!(self.left.last(), Some(Err(WorldFault::NoSuchSite))) {
                return;
            }
            drop(self.left.pop());
        }
    }

    /// Adds what the messages of a line print.
    fn put_stream(
        &mut self,
        run: &Run<'_>,
        site: usize,
        bytes: &[u8],
        out: &mut String,
    ) -> Result<(), Fault> {
        let alloc = run.alloc;
        let Some(number) = number_of(run.world, site) else {
            self.pass_ungiven();
            return Ok(out.push_str("refused NoSuchSite\n")?);
        };
        self.identity = identity_of(alloc, number)?;
        Ok(put_messages(alloc, self, bytes, out)?)
    }

    /// How many events happened before the next one.
    fn happened(&self, run: &Run<'_>) -> usize {
        run.events.len().saturating_sub(self.left.len())
    }

    /// Adds what a site shows after the events whose lines were replayed.
    fn put_show(&self, run: &Run<'_>, site: usize, out: &mut String) -> Result<(), Fault> {
        let alloc = run.alloc;
        let count = run.count.get() as u8;
        let happened = self.happened(run);
        let tables = run.world.tables().try_copy(alloc)?;
        let (world, _) = World::run(alloc, tables, count, first_of(run.events, happened))?;
        match world.site(site) {
            Some(site) => Ok(put_anew(alloc, site, out)?),
            None => Ok(out.push_str("refused NoSuchSite\n")?),
        }
    }

    /// Adds what the next event gave.
    fn put_next(&mut self, run: &Run<'_>, out: &mut String) -> Result<(), AllocError> {
        let next = self.happened(run);
        let Some(answer) = self.left.pop() else {
            return out.push_str("nothing\n");
        };
        match run.events.get(next) {
            Some(event) => put_outcome(out, event, &answer),
            None => out.push_str("nothing\n"),
        }
    }

    /// Adds what a line prints.
    fn put_line(&mut self, run: &Run<'_>, line: &Line, out: &mut String) -> Result<(), Fault> {
        match line {
            Line::Nothing => Ok(()),
            Line::Sites(count) => Ok(writeln!(out, "sites {}", count.get())?),
            Line::Message(i, bytes) => self.put_stream(run, *i, bytes.as_slice(), out),
            Line::Show(i) => self.put_show(run, *i, out),
            _ => Ok(self.put_next(run, out)?),
        }
    }
}

/// Adds what a site shows, found anew by passes over all its sessions.
pub fn put_anew(alloc: Global, site: &Site, out: &mut String) -> Result<(), AllocError> {
    let seen = value(alloc, site.tables(), site.sessions())?;
    put_value(out, &seen)
}

/// Adds what lines print by the answers that their events gave.
pub fn put_replayed(
    run: &Run<'_>,
    lines: &[Line],
    answers: Vec<Answer>,
    out: &mut String,
) -> Result<(), Fault> {
    let mut left = answers;
    left.reverse();
    let identity = identity_of(run.alloc, 0)?;
    let mut replayed = Replayed { identity, left };
    for line in lines {
        replayed.put_line(run, line, out)?;
    }
    Ok(())
}
