//! A seat that is left out is missed, and with it the book settles.
ghost use Rattle.std.specs.Prelude.{◌≡◌};

use crate::books::{Settlement, opened, seat_at, settled};
use crate::calls::is_replied;
use crate::checks::check_same;
use crate::events::attach;
use crate::sites::new_site;
use site_book::{Seat, SettleFault, Unsettled};
use site_lock::LockedSite;
use std::alloc::Global;
use std::marker::Brand;
use std::process::Abort;
use std::sync::Wait;
use std::sync::ledger::{Blank, Ledger};
use std::test::*;
use std::thread::Threads;

#[test]
fn seat_left_out_does_not_settle(rt: HostRuntime) {
    seat_left_out::<Brand, _>(&rt, rt.alloc(), Blank::new(2));
}

/// A book whose second seat is left out does not settle; with it, it does.
fn seat_left_out<L: Ledger, R: Threads + Wait + Abort + Sync>(rt: &R, alloc: Global, blank: Blank)
    requires name { blank.name ≡ L.name }
    requires parts { blank.parts ≡ L.parts }
    requires two { blank.parts ≡ 2 }
{
    let (site, mut seats) = opened::<L>(rt, alloc, blank, 2, 5, new_site(rt, alloc));
    let seat = seat_at(rt, seats.as_mut_slice(), 1);
    is_replied(rt, &site, seat, attach(rt, alloc, 1));
    is_replied(rt, &site, seat, attach(rt, alloc, 2));
    let left_out = seats.pop().expect(rt, "a seat");
    let (site, seats) = unsettled(rt, site, seats);
    let wanted = Settlement {
        entries: 2,
        clock: 2,
        live: 2,
    };
    check_same(rt, settled_with(rt, site, seats, left_out), Some(wanted));
}

/// A site and its seats, which come back as they were since one is missing.
fn unsettled<L: Ledger>(
    rt: &impl Abort,
    site: LockedSite<L>,
    seats: Vec<Seat<L>>,
) -> (LockedSite<L>, Vec<Seat<L>>) {
    let Err(unsettled) = site.settle(seats) else {
        rt.abort()
    };
    let Unsettled { fault, book, seats } = unsettled;
    check_same(rt, fault, SettleFault::MissingSeat);
    let Ok(site) = LockedSite::over(book) else {
        rt.abort()
    };
    (site, seats)
}

/// What settles with a further seat.
fn settled_with<L: Ledger>(
    rt: &impl Abort,
    site: LockedSite<L>,
    mut seats: Vec<Seat<L>>,
    seat: Seat<L>,
) -> Option<Settlement> {
    seats.push(seat).expect(rt, "memory");
    settled(site, seats)
}
