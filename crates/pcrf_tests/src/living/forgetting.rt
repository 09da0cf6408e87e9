//! A site that forgets sessions: those that have ended go, once, and no others.
ghost use Rattle.std.specs.Prelude.{◌≡◌};
ghost use Rattle.site_lock.specs.Sound.{AreNames};

use crate::calls::{happens, is_replied};
use crate::checks::check_same;
use crate::events::{Kind, attach, describe, push_to, serve};
use crate::facts::gateway_id;
use crate::living::sites::{left_of_living, living, new_roster};
use crate::sites::new_site;
use crate::told::Told;
use site_lock::living::Seat;
use site_lock::{AnySid, Keeper, LivingSite, Roll, Roster};
use site_machine::Site;
use std::alloc::Global;
use std::marker::Brand;
use std::process::Abort;
use std::sync::Wait;
use std::test::*;
use std::thread::Threads;

#[test]
fn the_ended_are_forgotten_once(rt: HostRuntime) {
    let alloc = rt.alloc();
    forgets_the_ended::<Brand, _>(&rt, alloc, new_roster(&rt, alloc, 1), new_site(&rt, alloc));
}

/// Of the gateways' sessions 1, 2 and 9 so many are forgotten.
fn forgets<L: Roll, R: Threads + Wait + Abort + Sync>(
    rt: &R,
    alloc: Global,
    site: &LivingSite<L>,
    keeper: &mut Keeper<L>,
    wanted: usize,
) {
    let sessions = [
        AnySid::Gx(gateway_id(rt, alloc, 1)),
        AnySid::Gx(gateway_id(rt, alloc, 2)),
        AnySid::Gx(gateway_id(rt, alloc, 9)),
    ];
    check_same(rt, site.forget(rt, keeper, &sessions), wanted);
}

/// The gateway's session 1 ends. A request to set it up again is refused with UNKNOWN_SESSION_ID, as it has ended.
fn ends<L: Roll, R: Threads + Wait + Abort + Sync>(
    rt: &R,
    alloc: Global,
    site: &LivingSite<L>,
    seat: &mut Seat<L>,
) {
    let end = serve(rt, alloc, Kind::Termination, 1, 1);
    happens(rt, site, seat, end, Told::Granted(0));
    happens(rt, site, seat, attach(rt, alloc, 1), Told::Refused(5002));
}

/// Of two sessions one ends and is forgotten. The other is pushed its rule, also across a new epoch, and one of the Session-Id that was
/// forgotten may be set up.
fn forgets_the_ended<L: Roll, R: Threads + Wait + Abort + Sync>(
    rt: &R,
    alloc: Global,
    roster: Roster,
    site: Site,
)
    requires names { AreNames L.name_of L.seats roster.seats }
    requires keeper { roster.keeper ≡ L.keeper }
    requires opening { site.state ≡ L.opening }
{
    let (site, mut seats, mut keeper) = living::<L>(rt, alloc, roster, site);
    let seat = seats.get_mut(0).expect(rt, "a seat");
    is_replied(rt, &site, seat, attach(rt, alloc, 1));
    is_replied(rt, &site, seat, attach(rt, alloc, 2));
    happens(rt, &site, seat, describe(rt, alloc, 2), Told::Taken(1));
    forgets(rt, alloc, &site, &mut keeper, 0);
    ends(rt, alloc, &site, seat);
    forgets(rt, alloc, &site, &mut keeper, 1);
    forgets(rt, alloc, &site, &mut keeper, 0);
    site.begin_anew(rt, &mut keeper).expect(rt, "an epoch");
    happens(rt, &site, seat, push_to(rt, alloc, b"gw"), Told::Pushed(1));
    happens(
        rt,
        &site,
        seat,
        push_to(rt, alloc, b"gw"),
        Told::NothingPushed,
    );
    happens(rt, &site, seat, attach(rt, alloc, 1), Told::Granted(1));
    let left = left_of_living(rt, alloc, site, seats, keeper);
    let found = (left.entries, left.logged);
    drop(left);
    check_same(rt, found, (8, 2));
}
