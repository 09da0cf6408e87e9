//! The lines of a script.
use crate::fault::{BadLine, Unobeyed};
use crate::words::{Further, Named, bytes, number, one, session, two, words_of};
use crate::world::WorldEvent;
use pcrf_values::limits::SITE_LIMIT;
use pcrf_values::{BoundedNumber, GxSid, Ranked};
use std::alloc::{AllocError, Global};

/// How many sites a world may have.
const SITES: u32 = SITE_LIMIT as u32;

/// How many sites a world has.
pub type SiteCount = BoundedNumber<1, SITES>;

/// What a line asks for.
#[derive(Drop)]
pub enum Line {
    /// Nothing: an empty line or a comment.
    Nothing,
    /// A world of so many sites.
    Sites(SiteCount),
    /// A site is given the bytes of a message.
    Message(Named, Vec<u8>),
    /// A site pushes what is due.
    Push(Named),
    /// A site aborts a session.
    Abort(Named),
    /// A site counts what the gateway of a session was told as not there.
    Retell(Named, GxSid),
    /// A site makes a letter for a peer.
    Letter(Named, Named),
    /// A site takes a letter.
    Merge(Named, Named),
    /// A site tells a peer what it took of it.
    Ack(Named, Named),
    /// A site starts again, empty.
    Restart(Named),
    /// A site shows what it holds.
    Show(Named),
}

impl Line {
    /// The event that the line makes; none where it gives a site bytes, starts a world, shows a site or asks for nothing.
    pub fn event(&self) -> Result<Option<WorldEvent>, AllocError> {
        Ok(match self {
            Line::Nothing | Line::Sites(_) | Line::Message(_, _) | Line::Show(_) => None,
            Line::Push(i) => Some(WorldEvent::Push(*i, None)),
            Line::Abort(i) => Some(WorldEvent::Abort(*i, None)),
            Line::Retell(i, session) => Some(WorldEvent::Retell(*i, session.try_copy()?)),
            Line::Letter(i, j) => Some(WorldEvent::Letter(*i, *j)),
            Line::Merge(j, k) => Some(WorldEvent::Merge(*j, *k)),
            Line::Ack(j, i) => Some(WorldEvent::Ack(*j, *i)),
            Line::Restart(i) => Some(WorldEvent::Restart(*i)),
        })
    }
}

/// How many sites a world may have.
fn sites(word: &str) -> Result<SiteCount, Unobeyed> {
    let Ok(n) = u32::try_from(number(word)?) else {
        return Err(Unobeyed::Bad(BadLine::SiteCount));
    };
    match SiteCount::of(n) {
        Some(count) => Ok(count),
        None => Err(Unobeyed::Bad(BadLine::SiteCount)),
    }
}

/// The one number behind a first word.
fn one_number(further: Further<'_>) -> Result<Named, Unobeyed> {
    number(one(further)?)
}

/// The two numbers behind a first word.
fn two_numbers(further: Further<'_>) -> Result<(Named, Named), Unobeyed> {
    let (word, last) = two(further)?;
    Ok((number(word)?, number(last)?))
}

/// Reads what is to be done by a line's first word, and by what stands behind it.
fn read_words(alloc: Global, first: &str, further: Further<'_>) -> Result<Line, Unobeyed> {
    match first {
        "sites" => Ok(Line::Sites(sites(one(further)?)?)),
        "msg" => {
            let (site, hex) = two(further)?;
            Ok(Line::Message(number(site)?, bytes(alloc, hex)?))
        }
        "push" => Ok(Line::Push(one_number(further)?)),
        "abort" => Ok(Line::Abort(one_number(further)?)),
        "retell" => {
            let (site, id) = two(further)?;
            Ok(Line::Retell(number(site)?, session(alloc, id)?))
        }
        "letter" => {
            let (site, peer) = two_numbers(further)?;
            Ok(Line::Letter(site, peer))
        }
        "merge" => {
            let (site, letter) = two_numbers(further)?;
            Ok(Line::Merge(site, letter))
        }
        "ack" => {
            let (site, peer) = two_numbers(further)?;
            Ok(Line::Ack(site, peer))
        }
        "restart" => Ok(Line::Restart(one_number(further)?)),
        "show" => Ok(Line::Show(one_number(further)?)),
        _ => Err(Unobeyed::Bad(BadLine::UnknownWord)),
    }
}

/// Reads a line without its end.
pub fn read_line(alloc: Global, line: &[u8]) -> Result<Line, Unobeyed> {
    if line.is_empty() || line.starts_with(b"#") {
        return Ok(Line::Nothing);
    }
    let Ok(text) = std::str::from_utf8(line) else {
        return Err(Unobeyed::Bad(BadLine::NoText));
    };
    let (first, further) = words_of(text);
    read_words(alloc, first, further)
}
