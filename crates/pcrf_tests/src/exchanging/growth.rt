//! Calls that wait for a site to grow, at a site whose history is kept.
ghost use Rattle.std.specs.Prelude.{◌≡◌};

use crate::books::{Settlement, opened, settled};
use crate::calls::{ask_past, is_replied};
use crate::checks::check_same;
use crate::events::attach;
use crate::sites::new_site;
use crate::told::Told;
use site_book::Seat;
use site_lock::LockedSite;
use site_machine::Event;
use std::alloc::Global;
use std::marker::Brand;
use std::process::Abort;
use std::sync::Wait;
use std::sync::ledger::{Blank, Ledger};
use std::test::*;
use std::thread::{Threads, for_each_mut};

#[test]
fn a_growing_site_wakes_who_waits(rt: HostRuntime) {
    growing::<Brand, _>(&rt, rt.alloc(), Blank::new(2));
}

/// A seat sets up two sessions, and another one waits for both.
fn growing<L: Ledger + Send + Sync, R: Threads + Wait + Abort + Sync>(
    rt: &R,
    alloc: Global,
    blank: Blank,
)
    requires name { blank.name ≡ L.name }
    requires parts { blank.parts ≡ L.parts }
    requires two { blank.parts ≡ 2 }
{
    let (site, mut seats) = opened::<L>(rt, alloc, blank, 2, 9, new_site(rt, alloc));
    wait_by_threads(rt, alloc, &site, seats.as_mut_slice());
    let wanted = Settlement {
        entries: 3,
        clock: 2,
        live: 2,
    };
    check_same(rt, settled(site, seats), Some(wanted));
}

/// The first seat sets up, the second waits, each in a thread of its own.
fn wait_by_threads<L: Ledger + Send + Sync, R: Threads + Wait + Abort + Sync>(
    rt: &R,
    alloc: Global,
    site: &LockedSite<L>,
    seats: &mut [Seat<L>],
) {
    for_each_mut(
        rt,
        seats,
        2,
        &|i: usize, seat: &mut Seat<L>| {
            if i == 0 {
                is_replied(rt, site, seat, attach(rt, alloc, 1));
                is_replied(rt, site, seat, attach(rt, alloc, 2));
            } else {
                let told = ask_past(rt, site, seat, &Event::AskOwn(0), 1);
                check_same(rt, told, Told::Own(2, 2));
            }
        },
    );
}
