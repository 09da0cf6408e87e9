//! Whether something may be due to a host, or to anybody, which is looked up without a call.
ghost use Rattle.std.specs.Prelude.{◌≡◌};
ghost use Rattle.site_lock.specs.Sound.{AreNames};

use crate::books::opened;
use crate::calls::{happens, is_replied, numbers_of};
use crate::checks::check_same;
use crate::events::{Kind, abort_to, attach, describe, host, push_to, serve};
use crate::living::sites::{living, new_roster};
use crate::sites::new_site;
use crate::told::Told;
use pcrf_values::DiameterIdentity;
use site_lock::living::Seat;
use site_lock::{LivingSite, Roll, Roster, SharedSite};
use site_machine::Site;
use std::alloc::Global;
use std::marker::Brand;
use std::process::Abort;
use std::sync::Wait;
use std::sync::ledger::{Blank, Ledger};
use std::test::*;
use std::thread::Threads;

/// The host of the gateway of all sessions, and one that has none.
#[derive(Drop)]
struct Hosts {
    gateway: DiameterIdentity,
    stranger: DiameterIdentity,
}

/// Both.
fn both_hosts(rt: &impl Abort, alloc: Global) -> Hosts {
    Hosts {
        gateway: host(rt, alloc, b"gw"),
        stranger: host(rt, alloc, b"stranger"),
    }
}

/// A seat finds whether something may be due to each of both hosts, and whether nothing may be to anybody, and makes no call of it.
fn may_be_due<S: SharedSite, R: Threads + Wait + Abort + Sync>(
    rt: &R,
    site: &S,
    seat: &mut S::Seat,
    hosts: &Hosts,
    wanted: (bool, bool, bool),
) {
    let before = numbers_of(site, seat);
    let found = (
        site.wants_push(rt, seat, &hosts.gateway),
        site.wants_push(rt, seat, &hosts.stranger),
        site.is_quiet(rt, seat),
    );
    check_same(rt, found, wanted);
    check_same(rt, numbers_of(site, seat), before);
}

#[test]
fn what_waits_is_found_without_a_call(rt: HostRuntime) {
    let alloc = rt.alloc();
    found_waiting::<Brand, _>(&rt, alloc, new_roster(&rt, alloc, 1), new_site(&rt, alloc));
}

/// At a site that lives.
fn found_waiting<L: Roll, R: Threads + Wait + Abort + Sync>(
    rt: &R,
    alloc: Global,
    roster: Roster,
    site: Site,
)
    requires names { AreNames L.name_of L.seats roster.seats }
    requires keeper { roster.keeper ≡ L.keeper }
    requires opening { site.state ≡ L.opening }
{
    let (site, mut seats, mut keeper) = living::<L>(rt, alloc, roster, site);
    let seat = seats.get_mut(0).expect(rt, "a seat");
    let hosts = both_hosts(rt, alloc);
    is_found(rt, alloc, &site, seat, &hosts);
    site.begin_anew(rt, &mut keeper).expect(rt, "an epoch");
    may_be_due(rt, &site, seat, &hosts, (false, false, true));
    site.wait_anew(rt);
    may_be_due(rt, &site, seat, &hosts, (true, true, false));
    drop(hosts);
}

/// A push tells the gateway so.
fn pushes<L: Roll, R: Threads + Wait + Abort + Sync>(
    rt: &R,
    alloc: Global,
    site: &LivingSite<L>,
    seat: &mut Seat<L>,
    wanted: Told,
) {
    happens(rt, site, seat, push_to(rt, alloc, b"gw"), wanted);
}

/// No call of a host is to be aborted.
fn aborts_none<L: Roll, R: Threads + Wait + Abort + Sync>(
    rt: &R,
    alloc: Global,
    site: &LivingSite<L>,
    seat: &mut Seat<L>,
    name: &[u8],
) {
    let event = abort_to(rt, alloc, name);
    happens(rt, site, seat, event, Told::NothingAborted);
}

/// All wait until the first push and the first abort, which look at those of their host; afterwards a gateway's session waits that was
/// set up, and one whose rules a call changed, as the call does for its own host, until each of them was looked at and nothing told.
/// None waits after an update that brings nothing new.
fn is_found<L: Roll, R: Threads + Wait + Abort + Sync>(
    rt: &R,
    alloc: Global,
    site: &LivingSite<L>,
    seat: &mut Seat<L>,
    hosts: &Hosts,
) {
    may_be_due(rt, site, seat, hosts, (true, true, false));
    pushes(rt, alloc, site, seat, Told::NothingPushed);
    may_be_due(rt, site, seat, hosts, (false, false, false));
    aborts_none(rt, alloc, site, seat, b"gw");
    may_be_due(rt, site, seat, hosts, (false, false, true));
    is_replied(rt, site, seat, attach(rt, alloc, 1));
    is_replied(rt, site, seat, attach(rt, alloc, 2));
    may_be_due(rt, site, seat, hosts, (true, false, false));
    pushes(rt, alloc, site, seat, Told::NothingPushed);
    may_be_due(rt, site, seat, hosts, (false, false, true));
    happens(rt, site, seat, describe(rt, alloc, 1), Told::Taken(1));
    happens(rt, site, seat, describe(rt, alloc, 2), Told::Taken(1));
    may_be_due(rt, site, seat, hosts, (true, false, false));
    pushes(rt, alloc, site, seat, Told::Pushed(1));
    may_be_due(rt, site, seat, hosts, (true, false, false));
    pushes(rt, alloc, site, seat, Told::Pushed(1));
    pushes(rt, alloc, site, seat, Told::NothingPushed);
    may_be_due(rt, site, seat, hosts, (false, false, false));
    aborts_none(rt, alloc, site, seat, b"af");
    may_be_due(rt, site, seat, hosts, (false, false, true));
    is_replied(rt, site, seat, serve(rt, alloc, Kind::Update, 1, 1));
    may_be_due(rt, site, seat, hosts, (false, false, true));
}

#[test]
fn a_history_that_is_kept_has_each_push(rt: HostRuntime) {
    let alloc = rt.alloc();
    found_locked::<Brand, _>(&rt, alloc, Blank::new(1), new_site(&rt, alloc));
}

/// A site whose history is kept wants a push to each host, whatever is due.
fn found_locked<L: Ledger, R: Threads + Wait + Abort + Sync>(
    rt: &R,
    alloc: Global,
    blank: Blank,
    site: Site,
)
    requires name { blank.name ≡ L.name }
    requires parts { blank.parts ≡ L.parts }
    requires one { blank.parts ≡ 1 }
{
    let (site, mut seats) = opened::<L>(rt, alloc, blank, 1, 20, site);
    let seat = seats.get_mut(0).expect(rt, "a seat");
    let hosts = both_hosts(rt, alloc);
    may_be_due(rt, &site, seat, &hosts, (true, true, false));
    let event = push_to(rt, alloc, b"gw");
    happens(rt, &site, seat, event, Told::NothingPushed);
    may_be_due(rt, &site, seat, &hosts, (true, true, false));
    drop(hosts);
}
