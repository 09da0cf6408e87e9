//! Eight threads that ask one site for the same sessions at the same time: each of their calls has its entry, and what stays
//! is what one thread's calls leave of a site whose history is kept.
ghost use Rattle.std.specs.Prelude.{◌≡◌};
ghost use Rattle.site_lock.specs.Sound.{AreNames};

use crate::books::opened;
use crate::calls::{ask, is_replied, numbers_of};
use crate::checks::{check, check_same};
use crate::events::{Kind, attach, describe, push_to, serve};
use crate::living::sites::{Left, left_of_living, left_of_locked, living, new_roster};
use crate::sites::new_site;
use crate::told::Told;
use site_lock::living::Seat;
use site_lock::{LivingSite, Roll, Roster, SharedSite};
use site_machine::{Event, Site};
use std::alloc::Global;
use std::marker::Brand;
use std::process::Abort;
use std::sync::Wait;
use std::sync::ledger::{Blank, Ledger};
use std::test::*;
use std::thread::{Threads, for_each_mut};

/// How many sessions there are, which all threads ask for.
const SESSIONS: u32 = 8;

/// How often the gateway says of each session, by each thread, that it goes on.
const UPDATES: u32 = 20;

/// How many calls each thread makes.
const CALLS: u64 = 200;

/// A seat has a session set up, and updated with questions in between: 25 calls, of which 21 make an operation.
fn ask_for_session<S: SharedSite, R: Threads + Wait + Abort + Sync>(
    rt: &R,
    alloc: Global,
    site: &S,
    seat: &mut S::Seat,
    place: u32,
) {
    is_replied(rt, site, seat, attach(rt, alloc, place));
    for turn in 0..UPDATES {
        let update = serve(rt, alloc, Kind::Update, place, turn);
        is_replied(rt, site, seat, update);
        if turn % 5 == 4 {
            is_replied(rt, site, seat, Event::AskOwn(0));
        }
    }
}

/// A seat asks for all sessions, beginning with that of a place of its own.
fn ask_for_all<S: SharedSite, R: Threads + Wait + Abort + Sync>(
    rt: &R,
    alloc: Global,
    site: &S,
    seat: &mut S::Seat,
    first: u32,
) {
    for further in 0..SESSIONS {
        let place = (first % SESSIONS + further) % SESSIONS;
        ask_for_session(rt, alloc, site, seat, place);
    }
}

/// How many of a hundred pushes tell the gateway a rule.
fn push_all<S: SharedSite, R: Threads + Wait + Abort + Sync>(
    rt: &R,
    alloc: Global,
    site: &S,
    seat: &mut S::Seat,
) -> u32 {
    let event = push_to(rt, alloc, b"gw");
    let mut count = 0u32;
    for _ in 0..100u32 {
        if ask(rt, site, seat, &event) == Told::Pushed(1) {
            count = count.saturating_add(1);
        }
    }
    drop(event);
    count
}

/// A seat has a call for each session taken, of which then each gateway is told by a push: 108 calls, of which eight make an
/// operation.
fn call_all<S: SharedSite, R: Threads + Wait + Abort + Sync>(
    rt: &R,
    alloc: Global,
    site: &S,
    seat: &mut S::Seat,
) {
    for place in 0..SESSIONS {
        is_replied(rt, site, seat, describe(rt, alloc, place));
    }
    let pushed = push_all(rt, alloc, site, seat);
    check_same(rt, pushed, 8);
}

/// Each seat asks for all sessions, in a thread of its own.
fn ask_at_once<L: Roll + Send + Sync, R: Threads + Wait + Abort + Sync>(
    rt: &R,
    alloc: Global,
    site: &LivingSite<L>,
    seats: &mut [Seat<L>],
) {
    for_each_mut(
        rt,
        seats,
        8,
        &|i: usize, seat: &mut Seat<L>| {
            let first = (i % 8) as u32;
            ask_for_all(rt, alloc, site, seat, first);
        },
    );
}

/// The number of each seat is its place, and each made its calls.
fn check_seats<L: Roll>(rt: &impl Abort, site: &LivingSite<L>, seats: &[Seat<L>]) {
    for (place, seat) in seats.iter().enumerate() {
        let (number, calls, last) = numbers_of(site, seat);
        check_same(rt, number, place);
        check_same(rt, calls, CALLS);
        check(rt, last.is_some());
    }
}

/// What a thread for each seat, and then the first seat, leave of a site.
fn left_by_threads<L: Roll + Send + Sync, R: Threads + Wait + Abort + Sync>(
    rt: &R,
    alloc: Global,
    roster: Roster,
    site: Site,
) -> Left
    requires names { AreNames L.name_of L.seats roster.seats }
    requires keeper { roster.keeper ≡ L.keeper }
    requires opening { site.state ≡ L.opening }
{
    let (site, mut seats, keeper) = living::<L>(rt, alloc, roster, site);
    ask_at_once(rt, alloc, &site, seats.as_mut_slice());
    check_seats(rt, &site, seats.as_slice());
    call_all(rt, alloc, &site, seats.get_mut(0).expect(rt, "a seat"));
    left_of_living(rt, alloc, site, seats, keeper)
}

/// What one seat leaves of a site whose history is kept, by the calls of so many threads and those of the first seat.
fn left_by_one<L: Ledger, R: Threads + Wait + Abort + Sync>(
    rt: &R,
    alloc: Global,
    blank: Blank,
    site: Site,
    threads: u32,
) -> Left
    requires name { blank.name ≡ L.name }
    requires parts { blank.parts ≡ L.parts }
    requires one { blank.parts ≡ 1 }
{
    let (site, mut seats) = opened::<L>(rt, alloc, blank, 1, 2_000, site);
    let seat = seats.get_mut(0).expect(rt, "a seat");
    for first in 0..threads {
        ask_for_all(rt, alloc, &site, seat, first);
    }
    call_all(rt, alloc, &site, seat);
    left_of_locked(rt, alloc, site, seats)
}

/// Of both sites the same stays, as it is counted and as an operator sees it: so many entries, of which so many made an operation.
fn check_left(rt: &impl Abort, ours: &Left, theirs: &Left) {
    check_same(rt, (ours.entries, ours.logged), (1_708, 1_352));
    check_same(rt, (theirs.entries, theirs.logged), (1_708, 1_352));
    check(rt, ours.text.as_str() == theirs.text.as_str());
}

#[test]
fn eight_threads_leave_what_one_leaves(rt: HostRuntime) {
    let alloc = rt.alloc();
    let roster = new_roster(&rt, alloc, 8);
    let ours = left_by_threads::<Brand, _>(&rt, alloc, roster, new_site(&rt, alloc));
    let theirs = left_by_one::<Brand, _>(&rt, alloc, Blank::new(1), new_site(&rt, alloc), 8);
    check_left(&rt, &ours, &theirs);
    drop(ours);
    drop(theirs);
}
