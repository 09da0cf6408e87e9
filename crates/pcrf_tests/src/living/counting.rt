//! What numbers stand beside the lock and at the seats, how many calls a site takes, and that it is refused a push at its clock's
//! end: at sites of both kinds.
ghost use Rattle.std.specs.Prelude.{◌≡◌};
ghost use Rattle.site_lock.specs.Sound.{AreNames};

use crate::books::opened;
use crate::calls::{ask, ask_alone, happens, numbers_of};
use crate::checks::{check, check_same};
use crate::events::{attach, describe, take_last};
use crate::living::sites::{left_of_living, left_of_locked, living, new_roster};
use crate::sites::new_site;
use crate::told::Told;
use site_lock::{Roll, Roster, SharedSite};
use site_machine::{Event, Site, StepFault};
use std::alloc::Global;
use std::marker::Brand;
use std::process::Abort;
use std::sync::Wait;
use std::sync::ledger::{Blank, Ledger};
use std::test::*;
use std::thread::Threads;

/// How many of nine calls are answered, up to the first that a full history refuses.
fn answered<S: SharedSite, R: Threads + Wait + Sync>(rt: &R, site: &S, seat: &mut S::Seat) -> u64 {
    let full = Told::Fault(StepFault::HistoryFull);
    for count in 0..9 {
        if ask(rt, site, seat, &Event::AskOwn(0)) == full {
            return count;
        }
    }
    9
}

/// A host is this one.
fn is_host(host: &[u8], wanted: &[u8]) -> bool {
    host == wanted
}

/// What never changes of a site stands beside its lock.
fn check_names<S: SharedSite>(rt: &impl Abort, site: &S) {
    check(rt, is_host(site.identity().host.as_slice(), b"s0"));
    check_same(rt, site.edition(), 7);
    check_same(rt, site.number(), 0);
}

/// A call is due to a gateway, and the clock is at its end: the push is refused, and the seat has no receipt of it.
fn push_at_the_end<S: SharedSite, R: Threads + Wait + Abort + Sync>(
    rt: &R,
    alloc: Global,
    site: &S,
    seat: &mut S::Seat,
) {
    check_names(rt, site);
    check_same(rt, numbers_of(site, seat), (0, 0, None));
    let event = attach(rt, alloc, 1);
    let told = ask_alone(rt, site, seat, &event);
    drop(event);
    check_same(rt, told, Told::Granted(1));
    happens(rt, site, seat, describe(rt, alloc, 1), Told::Taken(1));
    happens(rt, site, seat, take_last(rt, alloc), Told::Taken(1));
    let full = Told::Fault(StepFault::ClockFull);
    happens(rt, site, seat, Event::Push(None), full);
    check_same(rt, numbers_of(site, seat), (0, 3, Some(2)));
}

#[test]
fn a_history_that_is_kept_becomes_full(rt: HostRuntime) {
    let alloc = rt.alloc();
    kept_history::<Brand, _>(&rt, alloc, Blank::new(1), new_site(&rt, alloc));
}

/// A history with room for seven entries takes four of nine calls behind three others, of which a push that is refused is none.
fn kept_history<L: Ledger, R: Threads + Wait + Abort + Sync>(
    rt: &R,
    alloc: Global,
    blank: Blank,
    site: Site,
)
    requires name { blank.name ≡ L.name }
    requires parts { blank.parts ≡ L.parts }
    requires one { blank.parts ≡ 1 }
{
    let (site, mut seats) = opened::<L>(rt, alloc, blank, 1, 7, site);
    let seat = seats.get_mut(0).expect(rt, "a seat");
    push_at_the_end(rt, alloc, &site, seat);
    check_same(rt, answered(rt, &site, seat), 4);
    check_same(rt, numbers_of(&site, seat), (0, 7, Some(6)));
    let left = left_of_locked(rt, alloc, site, seats);
    let entries = left.entries;
    drop(left);
    check_same(rt, entries, 7);
}

#[test]
fn no_call_is_refused_for_a_full_history(rt: HostRuntime) {
    let alloc = rt.alloc();
    living_history::<Brand, _>(&rt, alloc, new_roster(&rt, alloc, 1), new_site(&rt, alloc));
}

/// One that stands in the proofs alone has room for all nine.
fn living_history<L: Roll, R: Threads + Wait + Abort + Sync>(
    rt: &R,
    alloc: Global,
    roster: Roster,
    site: Site,
)
    requires names { AreNames L.name_of L.seats roster.seats }
    requires keeper { roster.keeper ≡ L.keeper }
    requires opening { site.state ≡ L.opening }
{
    let (site, mut seats, keeper) = living::<L>(rt, alloc, roster, site);
    let seat = seats.get_mut(0).expect(rt, "a seat");
    push_at_the_end(rt, alloc, &site, seat);
    check_same(rt, answered(rt, &site, seat), 9);
    check_same(rt, numbers_of(&site, seat), (0, 12, Some(11)));
    let left = left_of_living(rt, alloc, site, seats, keeper);
    let entries = left.entries;
    drop(left);
    check_same(rt, entries, 12);
}
