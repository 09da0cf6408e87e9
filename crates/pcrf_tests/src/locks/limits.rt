//! A site without a lock at its limits: the end of its clock, and more operations than it tells at once.
use crate::checks::{check, check_same};
use crate::events::{Kind, abort_to, push_to, retell, serve, take_last};
use crate::sites::ruled_site;
use crate::told::{Told, steps};
use site_join::{Operation, State};
use site_machine::{Event, Site, StepFault};
use std::alloc::AllocGlobal;
use std::process::Abort;

/// A site answers a request of a place so.
fn answers(rt: &(impl AllocGlobal + Abort), site: &mut Site, kind: Kind, place: u32, wanted: Told) {
    steps(rt, site, serve(rt, rt.alloc(), kind, place, 1), wanted);
}

/// A site with a session of 41 rules, of which its reply told 40, and its call, and with a call whose gateway's session ended, that took
/// the last operation that there may be.
fn at_the_end(rt: &(impl AllocGlobal + Abort)) -> Site {
    let mut site = ruled_site(rt, rt.alloc(), 0, 41);
    for place in [1, 3] {
        answers(rt, &mut site, Kind::Initial, place, Told::Granted(40));
        answers(rt, &mut site, Kind::Call, place, Told::Done);
    }
    answers(rt, &mut site, Kind::Termination, 3, Told::Granted(0));
    steps(rt, &mut site, take_last(rt, rt.alloc()), Told::Taken(1));
    site
}

/// No request is granted that would add an operation. What refuses it before comes first: that it would be bound to none, and that its
/// session isn't known.
fn grants_nothing(rt: &(impl AllocGlobal + Abort), site: &mut Site) {
    answers(rt, site, Kind::Update, 1, Told::Refused(5012));
    answers(rt, site, Kind::Termination, 1, Told::Refused(5012));
    answers(rt, site, Kind::Call, 1, Told::Refused(5012));
    answers(rt, site, Kind::CallEnd, 1, Told::Refused(5012));
    answers(rt, site, Kind::Call, 2, Told::Refused(5065));
    answers(rt, site, Kind::CallEnd, 2, Told::Refused(5002));
}

/// What is due is refused; where nothing is due, nothing happens.
fn refuses_what_is_due(rt: &(impl AllocGlobal + Abort), site: &mut Site) {
    let (alloc, full) = (rt.alloc(), Told::Fault(StepFault::ClockFull));
    steps(rt, site, push_to(rt, alloc, b"other"), Told::NothingPushed);
    steps(rt, site, push_to(rt, alloc, b"gw"), full);
    steps(rt, site, abort_to(rt, alloc, b"gw"), Told::NothingAborted);
    steps(rt, site, abort_to(rt, alloc, b"af"), full);
    steps(rt, site, retell(rt, alloc, 2), Told::Retold(false));
    steps(rt, site, retell(rt, alloc, 1), full);
}

/// A copy of what a site holds.
fn held(rt: &impl Abort, site: &Site) -> State {
    site.sessions().try_copy().expect(rt, "memory")
}

/// A site holds this still.
fn holds_still(rt: &impl Abort, site: &Site, before: State) {
    let is_same = site.sessions().equal(&before);
    drop(before);
    check(rt, is_same);
}

#[test]
fn at_the_end_of_the_clock_only_what_would_change_it_is_refused(rt: HostRuntime) {
    let mut site = at_the_end(&rt);
    let before = held(&rt, &site);
    grants_nothing(&rt, &mut site);
    refuses_what_is_due(&rt, &mut site);
    holds_still(&rt, &site, before);
    drop(site);
}

/// A site that served an initial request and 100 updates of its session.
fn busy(rt: &(impl AllocGlobal + Abort)) -> Site {
    let mut site = ruled_site(rt, rt.alloc(), 0, 0);
    steps(
        rt,
        &mut site,
        serve(rt, rt.alloc(), Kind::Initial, 1, 0),
        Told::Granted(0),
    );
    for number in 1..101 {
        steps(
            rt,
            &mut site,
            serve(rt, rt.alloc(), Kind::Update, 1, number),
            Told::Granted(0),
        );
    }
    site
}

/// The counter of the first operation.
fn first_counter(operations: &[Operation]) -> Option<u64> {
    match operations.first() {
        Some(first) => Some(first.counter()),
        None => None,
    }
}

/// From this position on the site tells so many operations of its 101, of which the first has this counter.
fn tells(
    rt: &(impl AllocGlobal + Abort),
    site: &Site,
    from: u64,
    wanted: usize,
    first: Option<u64>,
) {
    let (own, made) = site.own_since(from).expect(rt, "memory");
    let found = (own.len(), made, first_counter(own.as_slice()));
    drop(own);
    check_same(rt, found, (wanted, 101, first));
}

/// Adds what a site made, from a position on, to a log.
fn add_made(rt: &(impl AllocGlobal + Abort), site: &Site, from: u64, log: &mut Vec<Operation>) {
    let (mut more, _) = site.own_since(from).expect(rt, "memory");
    log.append(&mut more).expect(rt, "memory");
    drop(more);
}

/// All that a site of 101 operations made, asked for in two parts.
fn made_by(rt: &(impl AllocGlobal + Abort), site: &Site) -> Event {
    let mut log = Vec::new(rt.alloc());
    add_made(rt, site, 0, &mut log);
    add_made(rt, site, 100, &mut log);
    Event::Ops(log)
}

/// A new site that takes 101 operations at once, which another made, holds what that one holds, and made nothing itself.
fn takes_all_at_once(rt: &(impl AllocGlobal + Abort), site: &Site) {
    let mut other = ruled_site(rt, rt.alloc(), 1, 41);
    steps(rt, &mut other, made_by(rt, site), Told::Taken(101));
    check(rt, other.sessions().equal(site.sessions()));
    steps(rt, &mut other, Event::AskOwn(0), Told::Own(0, 0));
    drop(other);
}

#[test]
fn a_site_tells_100_operations_at_once_and_takes_more(rt: HostRuntime) {
    let site = busy(&rt);
    tells(&rt, &site, 0, 100, Some(1));
    tells(&rt, &site, 1, 100, Some(2));
    tells(&rt, &site, 5, 96, Some(6));
    tells(&rt, &site, 101, 0, None);
    tells(&rt, &site, u64::MAX, 0, None);
    takes_all_at_once(&rt, &site);
    drop(site);
}
