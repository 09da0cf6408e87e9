//! Equality of all that sites and worlds have: what a site holds and made, what it and its peers took of each other, and the letters.
//! Left out are indexes and rules that are kept: what is listed may stay after a refusal, and what isn't is found anew. Each answer is
//! none where there is no memory to tell.
use pcrf_values::limits::SITE_LIMIT;
use pcrf_world::{World, WorldEvent};
use peer_exchange::{Body, Cursor, Cursors, Letter, write_letter};
use site_join::Operation;
use site_machine::{Event, Site};
use std::alloc::Global;

/// A site holds what another does that takes these operations too.
fn same_sessions(ours: &Site, theirs: &Site, more: &[Operation]) -> Option<bool> {
    let mut wanted = theirs.sessions().try_copy().ok()?;
    for operation in more {
        wanted.take(operation).ok()?;
    }
    Some(ours.sessions().equal(&wanted))
}

/// Two sites made the same operations.
fn same_logs(ours: &Site, theirs: &Site) -> Option<bool> {
    let ours = Event::Ops(ours.log_copy().ok()?);
    let theirs = Event::Ops(theirs.log_copy().ok()?);
    Some(ours.equal(&theirs))
}

/// A site made what another did, and holds what the other does that takes these operations too.
pub fn same_sites(ours: &Site, theirs: &Site, more: &[Operation]) -> Option<bool> {
    if !same_sessions(ours, theirs, more)? {
        return Some(false);
    }
    same_logs(ours, theirs)
}

/// Both are of one epoch, and as many operations of it were taken.
fn same_cursor(ours: Cursor, theirs: Cursor) -> bool {
    ours.epoch() == theirs.epoch() && ours.taken() == theirs.taken()
}

/// Both are the same, or neither is there.
fn same_entry(ours: Option<Cursor>, theirs: Option<Cursor>) -> bool {
    match (ours, theirs) {
        (Some(ours), Some(theirs)) => same_cursor(ours, theirs),
        (None, None) => true,
        _ => false,
    }
}

/// Two sites are in one epoch, and took and were told the same of each other site.
fn same_cursors(ours: &Cursors, theirs: &Cursors) -> bool {
    for other in 0..SITE_LIMIT {
        if !same_cursor(ours.maker(other), theirs.maker(other))
            || !same_entry(ours.peer(other), theirs.peer(other))
        {
            return false;
        }
    }
    ours.site() == theirs.site() && ours.epoch() == theirs.epoch()
}

/// The bytes of two letters, which say all that the letters do, are the same.
fn same_letter(alloc: Global, ours: &Letter, theirs: &Letter) -> Option<bool> {
    let ours = write_letter(alloc, ours).ok()?;
    let theirs = write_letter(alloc, theirs).ok()?;
    Some(ours.as_slice() == theirs.as_slice())
}

/// The letters of two worlds are the same.
fn same_letters(alloc: Global, ours: &World, theirs: &World) -> Option<bool> {
    for k in 0..usize::MAX {
        let (Some(letter), Some(other)) = (ours.letter(k), theirs.letter(k)) else {
            return Some(ours.letter(k).is_none() && theirs.letter(k).is_none());
        };
        if !same_letter(alloc, letter, other)? {
            return Some(false);
        }
    }
    None
}

/// The site of a number is the same in both worlds, but for operations that stand in the first.
fn same_member(ours: &World, theirs: &World, i: usize, more: &[Operation]) -> Option<bool> {
    if !same_cursors(ours.cursors(i)?, theirs.cursors(i)?) {
        return Some(false);
    }
    same_sites(ours.site(i)?, theirs.site(i)?, more)
}

/// Two worlds of so many sites are the same, but for operations that stand in the first at a site.
fn same_with(
    alloc: Global,
    ours: &World,
    theirs: &World,
    sites: u8,
    at: usize,
    more: &[Operation],
) -> Option<bool> {
    for i in 0..usize::from(sites) {
        let more: &[Operation] = if i == at { more } else { &[] };
        if !same_member(ours, theirs, i, more)? {
            return Some(false);
        }
    }
    same_letters(alloc, ours, theirs)
}

/// Two worlds of so many sites are the same.
pub fn same_worlds(alloc: Global, ours: &World, theirs: &World, sites: u8) -> Option<bool> {
    same_with(alloc, ours, theirs, sites, 0, &[])
}

/// The first operations of a letter, so many; none where the letter has none.
fn first_of(letter: &Letter, count: usize) -> &[Operation] {
    match letter.body() {
        Body::Range(range) => range.operations.as_slice().get(..count).unwrap_or(&[]),
        Body::Snapshot(_) | Body::Acknowledgement(_) => &[],
    }
}

/// Two worlds of so many sites are the same, but that in the first so many operations of the letter stand that an event has a site
/// take.
pub fn same_but(
    alloc: Global,
    ours: &World,
    theirs: &World,
    sites: u8,
    event: &WorldEvent,
    taken: usize,
) -> Option<bool> {
    let WorldEvent::Merge(site, k) = event else {
        return same_worlds(alloc, ours, theirs, sites);
    };
    let more = first_of(theirs.letter(*k)?, taken);
    same_with(alloc, ours, theirs, sites, *site, more)
}
