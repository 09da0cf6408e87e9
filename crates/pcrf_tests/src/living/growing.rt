//! Calls that wait for a site to grow, at a site whose history stands in the proofs alone.
ghost use Rattle.std.specs.Prelude.{◌≡◌};
ghost use Rattle.site_lock.specs.Sound.{AreNames};

use crate::calls::{ask_past, is_replied};
use crate::checks::check_same;
use crate::events::attach;
use crate::living::sites::{left_of_living, living, new_roster};
use crate::sites::new_site;
use crate::told::Told;
use site_lock::living::Seat;
use site_lock::{LivingSite, Roll, Roster};
use site_machine::{Event, Site};
use std::alloc::Global;
use std::marker::Brand;
use std::process::Abort;
use std::sync::Wait;
use std::test::*;
use std::thread::{Threads, for_each_mut};

#[test]
fn a_growing_site_wakes_who_waits(rt: HostRuntime) {
    let alloc = rt.alloc();
    woken::<Brand, _>(&rt, alloc, new_roster(&rt, alloc, 2), new_site(&rt, alloc));
}

/// A seat sets up two sessions, and another one waits for both.
fn woken<L: Roll + Send + Sync, R: Threads + Wait + Abort + Sync>(
    rt: &R,
    alloc: Global,
    roster: Roster,
    site: Site,
)
    requires names { AreNames L.name_of L.seats roster.seats }
    requires keeper { roster.keeper ≡ L.keeper }
    requires opening { site.state ≡ L.opening }
{
    let (site, mut seats, keeper) = living::<L>(rt, alloc, roster, site);
    wait_by_threads(rt, alloc, &site, seats.as_mut_slice());
    let left = left_of_living(rt, alloc, site, seats, keeper);
    let entries = left.entries;
    drop(left);
    check_same(rt, entries, 3);
}

/// The first seat sets up, the second waits, each in a thread of its own.
fn wait_by_threads<L: Roll + Send + Sync, R: Threads + Wait + Abort + Sync>(
    rt: &R,
    alloc: Global,
    site: &LivingSite<L>,
    seats: &mut [Seat<L>],
) {
    for_each_mut(
        rt,
        seats,
        2,
        &|i: usize, seat: &mut Seat<L>| {
            if i == 0 {
                is_replied(rt, site, seat, attach(rt, alloc, 1));
                is_replied(rt, site, seat, attach(rt, alloc, 2));
            } else {
                let told = ask_past(rt, site, seat, &Event::AskOwn(0), 1);
                check_same(rt, told, Told::Own(2, 2));
            }
        },
    );
}
