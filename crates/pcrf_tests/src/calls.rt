//! Calls at a site of either kind, by the one trait that workers know both by.
use crate::checks::{check, check_same};
use crate::told::{Told, tell};
use site_lock::{Grown, SharedSite};
use site_machine::Event;
use std::process::Abort;
use std::sync::Wait;
use std::thread::Threads;

/// What a seat is told of an event.
pub fn ask<S: SharedSite, R: Threads + Wait + Sync>(
    rt: &R,
    site: &S,
    seat: &mut S::Seat,
    event: &Event,
) -> Told {
    tell(site.call(rt, seat, event))
}

/// What it is told in its own thread alone.
pub fn ask_alone<S: SharedSite, R: Wait>(
    rt: &R,
    site: &S,
    seat: &mut S::Seat,
    event: &Event,
) -> Told {
    tell(site.call_alone(rt, seat, event))
}

/// What it is told once the site has made more operations than so many.
pub fn ask_past<S: SharedSite, R: Threads + Wait + Sync>(
    rt: &R,
    site: &S,
    seat: &mut S::Seat,
    event: &Event,
    past: u64,
) -> Told {
    tell(site.call_grown(rt, seat, event, past))
}

/// What it is told, and how often the site had begun anew by then.
pub fn ask_dated<S: SharedSite, R: Threads + Wait + Sync>(
    rt: &R,
    site: &S,
    seat: &mut S::Seat,
    event: &Event,
) -> (Told, u16) {
    match site.call_dated(rt, seat, event) {
        Ok(dated) => (tell(Ok(dated.reply)), dated.begun),
        Err(fault) => (Told::Fault(fault), 0),
    }
}

/// What it is told once the site has made more operations than so many since it began anew for so many times.
pub fn ask_since<S: SharedSite, R: Threads + Wait + Sync>(
    rt: &R,
    site: &S,
    seat: &mut S::Seat,
    event: &Event,
    past: u64,
    begun: u16,
) -> Told {
    match site.call_grown_since(rt, seat, event, past, begun) {
        Ok(Grown::BegunAnew(now)) => Told::BegunAnew(now),
        Ok(Grown::Told(reply)) => tell(Ok(reply)),
        Err(fault) => Told::Fault(fault),
    }
}

/// A seat has an event happen, and is told this of it.
pub fn happens<S: SharedSite, R: Threads + Wait + Abort + Sync>(
    rt: &R,
    site: &S,
    seat: &mut S::Seat,
    event: Event,
    wanted: Told,
) {
    let found = ask(rt, site, seat, &event);
    drop(event);
    check_same(rt, found, wanted);
}

/// A seat has an event happen, and gets a reply.
pub fn is_replied<S: SharedSite, R: Threads + Wait + Abort + Sync>(
    rt: &R,
    site: &S,
    seat: &mut S::Seat,
    event: Event,
) {
    let reply = site.call(rt, seat, &event);
    drop(event);
    let is_replied = reply.is_ok();
    drop(reply);
    check(rt, is_replied);
}

/// The numbers of a seat: its own, how many calls it made, and how many of the site's came before the last of them.
pub fn numbers_of<S: SharedSite>(site: &S, seat: &S::Seat) -> (usize, u64, Option<u64>) {
    (
        site.number_of(seat),
        site.calls_of(seat),
        site.last_of(seat),
    )
}
