//! Eight threads that make many calls on one locked site: the receipts of the history that settles, played again by a new site, give the
//! same replies and leave the same state.
ghost use Rattle.std.specs.Prelude.{◌≡◌};

use crate::books::opened;
use crate::checks::{check, check_same};
use crate::locks::drawing::event_at;
use crate::sites::ruled_site;
use rand_core::SeedableRng;
use rand_xoshiro::SplitMix64;
use site_book::{Receipt, Seat};
use site_lock::LockedSite;
use site_machine::Site;
use std::alloc::Global;
use std::marker::Brand;
use std::process::Abort;
use std::sync::Wait;
use std::sync::ledger::{Blank, Ledger};
use std::test::*;
use std::thread::{Threads, for_each_mut};

/// How many calls each of the eight threads makes.
const CALLS: u32 = 100;

/// How many there are in all.
const ALL_CALLS: usize = 800;

/// How many operations the site makes of them at least: each request that is accepted is one.
const LEAST_MADE: u64 = 200;

/// How many rules each session has.
const RULES: u32 = 2;

/// A thread makes a call.
fn make_call<L: Ledger, R: Threads + Wait + Abort + Sync>(
    rt: &R,
    alloc: Global,
    site: &LockedSite<L>,
    seat: &mut Seat<L>,
    draws: &mut SplitMix64,
    turn: u32,
) {
    let event = event_at(rt, alloc, draws, turn);
    let reply = site.call(rt, seat, &event);
    let is_replied = reply.is_ok();
    drop(reply);
    drop(event);
    check(rt, is_replied);
}

/// A thread makes all its calls.
fn make_calls<L: Ledger, R: Threads + Wait + Abort + Sync>(
    rt: &R,
    alloc: Global,
    site: &LockedSite<L>,
    seat: &mut Seat<L>,
) {
    let mut draws = SplitMix64::seed_from_u64(seat.number() as u64);
    for turn in 0..CALLS {
        make_call(rt, alloc, site, seat, &mut draws, turn);
    }
}

/// Each of the seats makes all its calls in a thread of its own.
fn make_calls_at_once<L: Ledger + Send + Sync, R: Threads + Wait + Abort + Sync>(
    rt: &R,
    alloc: Global,
    site: &LockedSite<L>,
    seats: &mut [Seat<L>],
) {
    for_each_mut(
        rt,
        seats,
        8,
        &|_, seat: &mut Seat<L>| make_calls(rt, alloc, site, seat),
    );
}

/// The receipts of all seats, by their places.
fn history_of<'a, L: Ledger>(
    rt: &impl Abort,
    alloc: Global,
    seats: &'a [Seat<L>],
) -> Vec<Option<&'a Receipt>> {
    let mut history: Vec<Option<&'a Receipt>> = Vec::new(alloc);
    for _ in 0..ALL_CALLS {
        history.push(None).expect(rt, "memory");
    }
    for seat in seats {
        for receipt in seat.receipts() {
            let place = history.get_mut(receipt.place()).expect(rt, "a place");
            *place = Some(receipt);
        }
    }
    history
}

/// What a receipt says happens at a site, which replies what it says.
fn happens(rt: &impl Abort, site: &mut Site, receipt: Option<&Receipt>) {
    let receipt = receipt.expect(rt, "a receipt");
    let reply = site.step(receipt.event()).ok().expect(rt, "a reply");
    let is_same = reply.equal(receipt.reply());
    drop(reply);
    check(rt, is_same);
}

/// A new site to which happens what the seats' receipts say, in order.
fn replayed<L: Ledger>(rt: &impl Abort, alloc: Global, seats: &[Seat<L>]) -> Site {
    let history = history_of(rt, alloc, seats);
    let mut site = ruled_site(rt, alloc, 0, RULES);
    for receipt in &history {
        happens(rt, &mut site, *receipt);
    }
    drop(history);
    site
}

/// How many entries settle, of a site that then holds what another one holds; nothing where it does not settle, or holds something
/// else.
fn settled_with<L: Ledger>(
    site: LockedSite<L>,
    seats: Vec<Seat<L>>,
    wanted: &Site,
) -> Option<usize> {
    match site.settle(seats) {
        Ok(settled) => {
            let pages = settled.pages();
            let same = pages.site().sessions().equal(wanted.sessions());
            let count = pages.entries();
            drop(settled);
            if same { Some(count) } else { None }
        }
        Err(unsettled) => {
            drop(unsettled);
            None
        }
    }
}

/// How many entries settle, where the site then holds what its history makes of a new one.
fn settled_as_replayed<L: Ledger>(
    rt: &impl Abort,
    alloc: Global,
    site: LockedSite<L>,
    seats: Vec<Seat<L>>,
) -> Option<usize> {
    let wanted = replayed(rt, alloc, seats.as_slice());
    let clock = wanted.sessions().clock();
    let count = settled_with(site, seats, &wanted);
    drop(wanted);
    check(rt, clock >= LEAST_MADE);
    count
}

#[test]
fn eight_threads_make_one_history(rt: HostRuntime) {
    eight_threads::<Brand, _>(&rt, rt.alloc(), Blank::new(8));
}

/// Eight threads make their calls on one site, which settles with all of them.
fn eight_threads<L: Ledger + Send + Sync, R: Threads + Wait + Abort + Sync>(
    rt: &R,
    alloc: Global,
    blank: Blank,
)
    requires name { blank.name ≡ L.name }
    requires parts { blank.parts ≡ L.parts }
    requires eight { blank.parts ≡ 8 }
{
    let site = ruled_site(rt, alloc, 0, RULES);
    let (site, mut seats) = opened::<L>(rt, alloc, blank, 8, ALL_CALLS, site);
    make_calls_at_once(rt, alloc, &site, seats.as_mut_slice());
    let count = settled_as_replayed(rt, alloc, site, seats);
    check_same(rt, count, Some(ALL_CALLS));
}
