//! A site that threads share takes a whole state by a call: before the call answers the rules of its sessions are made, at a site of
//! either kind, but by a call in the caller's thread alone.
ghost use Rattle.std.specs.Prelude.{◌≡◌};
ghost use Rattle.site_lock.specs.Sound.{AreNames};

use crate::books::opened;
use crate::calls::{ask, ask_alone};
use crate::checks::{check, check_same};
use crate::events::attach;
use crate::facts::gateway_id;
use crate::living::sites::{living, new_roster};
use crate::sites::{new_site, numbered_site};
use crate::told::{Told, tell};
use site_book::Settled;
use site_lock::{Chronicle, Roll, Roster, Rules, SharedSite};
use site_machine::{Event, Site};
use std::alloc::Global;
use std::marker::Brand;
use std::process::Abort;
use std::sync::Wait;
use std::sync::ledger::{Blank, Ledger};
use std::test::*;
use std::thread::Threads;

/// How many sessions there are.
const SESSIONS: u32 = 3;

/// The whole state of site 1, at which the sessions were set up, is to be taken.
fn whole(rt: &impl Abort, alloc: Global) -> Event {
    let mut site = numbered_site(rt, alloc, 1);
    for place in 0..SESSIONS {
        let event = attach(rt, alloc, place);
        let told = tell(site.step(&event));
        drop(event);
        check_same(rt, told, Told::Granted(1));
    }
    let (state, _) = site.whole().expect(rt, "memory");
    drop(site);
    Event::Whole(state)
}

/// Of how many of the sessions a list of rules is kept.
fn count_cached(rt: &impl Abort, alloc: Global, lists: &Rules) -> u32 {
    let mut count = 0u32;
    for place in 0..SESSIONS {
        let id = gateway_id(rt, alloc, place);
        let is_kept = lists.get(&id).is_some();
        drop(id);
        count = count.saturating_add(u32::from(is_kept));
    }
    count
}

/// A seat has the site take the whole state, in its thread alone or not.
fn take_whole<S: SharedSite, R: Threads + Wait + Abort + Sync>(
    rt: &R,
    alloc: Global,
    site: &S,
    seat: &mut S::Seat,
    alone: bool,
) {
    let event = whole(rt, alloc);
    let found = if alone {
        ask_alone(rt, site, seat, &event)
    } else {
        ask(rt, site, seat, &event)
    };
    drop(event);
    check_same(rt, found, Told::Done);
}

/// Of how many sessions the site keeps rules before and after they are renewed.
fn count_renewed<L: Roll, R: Threads + Abort + Sync>(
    rt: &R,
    alloc: Global,
    chronicle: &mut Chronicle<L>,
) -> (u32, u32) {
    let before = count_cached(rt, alloc, chronicle.site().cached_rules());
    let lists = chronicle.renew(rt).expect(rt, "memory");
    (before, count_cached(rt, alloc, lists))
}

/// A site takes the whole state: of how many sessions it keeps rules then, and of how many there are lists once they are renewed.
fn kept_after<L: Roll, R: Threads + Wait + Abort + Sync>(
    rt: &R,
    alloc: Global,
    roster: Roster,
    site: Site,
    alone: bool,
) -> (u32, u32)
    requires names { AreNames L.name_of L.seats roster.seats }
    requires keeper { roster.keeper ≡ L.keeper }
    requires opening { site.state ≡ L.opening }
{
    let (site, mut seats, keeper) = living::<L>(rt, alloc, roster, site);
    let seat = seats.get_mut(0).expect(rt, "a seat");
    take_whole(rt, alloc, &site, seat, alone);
    let mut chronicle = site.settle(seats, keeper);
    let counts = count_renewed(rt, alloc, &mut chronicle);
    drop(chronicle);
    counts
}

#[test]
fn a_whole_state_is_renewed(rt: HostRuntime) {
    let alloc = rt.alloc();
    let roster = new_roster(&rt, alloc, 1);
    let counts = kept_after::<Brand, _>(&rt, alloc, roster, new_site(&rt, alloc), false);
    check_same(&rt, counts, (3, 3));
}

#[test]
fn a_whole_state_that_is_taken_alone_is_not(rt: HostRuntime) {
    let alloc = rt.alloc();
    let roster = new_roster(&rt, alloc, 1);
    let counts = kept_after::<Brand, _>(&rt, alloc, roster, new_site(&rt, alloc), true);
    check_same(&rt, counts, (0, 3));
}

/// Of how many sessions a site that settled keeps rules.
fn count_settled<L: Ledger>(rt: &impl Abort, alloc: Global, settled: &Settled<L>) -> u32 {
    count_cached(rt, alloc, settled.pages().site().cached_rules())
}

/// A site whose history is kept takes it: of how many sessions it keeps rules then.
fn kept_by_locked<L: Ledger, R: Threads + Wait + Abort + Sync>(
    rt: &R,
    alloc: Global,
    blank: Blank,
    site: Site,
) -> u32
    requires name { blank.name ≡ L.name }
    requires parts { blank.parts ≡ L.parts }
    requires one { blank.parts ≡ 1 }
{
    let (site, mut seats) = opened::<L>(rt, alloc, blank, 1, 4, site);
    let seat = seats.get_mut(0).expect(rt, "a seat");
    take_whole(rt, alloc, &site, seat, false);
    let Ok(settled) = site.settle(seats) else {
        rt.abort()
    };
    let count = count_settled(rt, alloc, &settled);
    drop(settled);
    count
}

#[test]
fn a_whole_state_is_renewed_at_a_site_whose_history_is_kept(rt: HostRuntime) {
    let alloc = rt.alloc();
    let count = kept_by_locked::<Brand, _>(&rt, alloc, Blank::new(1), new_site(&rt, alloc));
    check(&rt, count == SESSIONS);
}
