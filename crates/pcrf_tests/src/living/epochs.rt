//! New beginnings as they are counted: who waits across one, and the last epoch that there is.
ghost use Rattle.std.specs.Prelude.{◌≡◌};
ghost use Rattle.site_lock.specs.Sound.{AreNames};

use crate::calls::{ask_dated, ask_since, is_replied, numbers_of};
use crate::checks::{check, check_same};
use crate::events::attach;
use crate::living::sites::{left_of_living, living, new_roster};
use crate::sites::new_site;
use crate::told::Told;
use site_lock::living::Seat;
use site_lock::{BeginFault, Keeper, LivingSite, Roll, Roster};
use site_machine::{Event, Site};
use std::alloc::Global;
use std::marker::Brand;
use std::process::Abort;
use std::sync::Wait;
use std::test::*;
use std::thread::{Threads, join};

/// The last epoch that there is, and the one in which the site starts.
const LAST: u16 = 65_535;

const FIRST: u16 = 65_532;

#[test]
fn who_waits_is_told_of_a_new_beginning(rt: HostRuntime) {
    let alloc = rt.alloc();
    waits_across::<Brand, _>(&rt, alloc, new_roster(&rt, alloc, 2), new_site(&rt, alloc));
}

/// One seat waits for a sixth operation, which never comes; the other one makes two, and the site begins anew.
fn waits_across<L: Roll + Send + Sync, R: Threads + Wait + Abort + Sync>(
    rt: &R,
    alloc: Global,
    roster: Roster,
    site: Site,
)
    requires names { AreNames L.name_of L.seats roster.seats }
    requires keeper { roster.keeper ≡ L.keeper }
    requires opening { site.state ≡ L.opening }
{
    let (site, seats, keeper) = living::<L>(rt, alloc, roster, site);
    let mut keeper = keeper;
    let mut seats = seats;
    let mut second = seats.pop().expect(rt, "a seat");
    let mut first = seats.pop().expect(rt, "a seat");
    let (_, told) = join(
        rt,
        || grows_and_begins_anew(rt, alloc, &site, &mut first, &mut keeper),
        || waits(rt, &site, &mut second),
    );
    check_same(rt, told, Told::BegunAnew(1));
    check_same(rt, numbers_of(&site, &second), (1, 0, None));
    check_same(
        rt,
        ask_dated(rt, &site, &mut second, &Event::AskOwn(0)),
        (Told::Own(0, 0), 1),
    );
}

/// The site makes two operations, and begins anew.
fn grows_and_begins_anew<L: Roll, R: Threads + Wait + Abort + Sync>(
    rt: &R,
    alloc: Global,
    site: &LivingSite<L>,
    seat: &mut Seat<L>,
    keeper: &mut Keeper<L>,
) {
    is_replied(rt, site, seat, attach(rt, alloc, 1));
    is_replied(rt, site, seat, attach(rt, alloc, 2));
    site.begin_anew(rt, keeper).expect(rt, "an epoch");
}

/// Waits for more than five operations of the site's first epoch.
fn waits<L: Roll, R: Threads + Wait + Sync>(
    rt: &R,
    site: &LivingSite<L>,
    seat: &mut Seat<L>,
) -> Told {
    ask_since(rt, site, seat, &Event::AskOwn(5), 5, 0)
}

#[test]
fn the_last_epoch_has_none_behind_it(rt: HostRuntime) {
    let alloc = rt.alloc();
    until_the_last::<Brand, _>(&rt, alloc, new_roster(&rt, alloc, 1), new_site(&rt, alloc));
}

/// A site begins anew until the last epoch, in which it is refused, and has what it made there.
fn until_the_last<L: Roll, R: Threads + Wait + Abort + Sync>(
    rt: &R,
    alloc: Global,
    roster: Roster,
    site: Site,
)
    requires names { AreNames L.name_of L.seats roster.seats }
    requires keeper { roster.keeper ≡ L.keeper }
    requires opening { site.state ≡ L.opening }
{
    let (site, mut seats, keeper) = living::<L>(rt, alloc, roster, site);
    check_same(rt, keeper.epoch(), 1);
    let mut keeper = keeper.starting_in(FIRST);
    let seat = seats.get_mut(0).expect(rt, "a seat");
    is_replied(rt, &site, seat, attach(rt, alloc, 1));
    for epoch in FIRST..LAST {
        check_same(rt, keeper.epoch(), epoch);
        check(rt, site.begin_anew(rt, &mut keeper) == Ok(()));
    }
    is_replied(rt, &site, seat, attach(rt, alloc, 2));
    for _ in 0..2 {
        check(
            rt,
            site.begin_anew(rt, &mut keeper) == Err(BeginFault::EpochFull),
        );
    }
    check_same(rt, keeper.epoch(), LAST);
    check_same(
        rt,
        ask_dated(rt, &site, seat, &Event::AskOwn(0)),
        (Told::Own(1, 1), LAST - FIRST),
    );
    waits_in_the_last(rt, &site, seat);
    let left = left_of_living(rt, alloc, site, seats, keeper);
    let found = (left.entries, left.logged);
    drop(left);
    check_same(rt, found, (4, 1));
}

/// Who waits for an operation of the last epoch is told at once, and who waits for one of the first that it is over.
fn waits_in_the_last<L: Roll, R: Threads + Wait + Abort + Sync>(
    rt: &R,
    site: &LivingSite<L>,
    seat: &mut Seat<L>,
) {
    let begun = LAST - FIRST;
    let told = ask_since(rt, site, seat, &Event::AskOwn(0), 0, begun);
    check_same(rt, told, Told::Own(1, 1));
    let told = ask_since(rt, site, seat, &Event::AskOwn(0), 0, 0);
    check_same(rt, told, Told::BegunAnew(begun));
}
