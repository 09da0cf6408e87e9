//! Books under a lock, and what settles.
ghost use Rattle.std.specs.Prelude.{◌≡◌, ◌≤◌};
ghost use Rattle.site_book.specs.Limits.{most_entries, most_seats};

use site_book::{Seat, Settled};
use site_lock::LockedSite;
use site_machine::Site;
use std::alloc::Global;
use std::process::Abort;
use std::sync::ledger::{Blank, Ledger};

/// A site under a lock, whose history has room for so many entries, and its seats.
pub fn opened<L: Ledger>(
    rt: &impl Abort,
    alloc: Global,
    blank: Blank,
    seats: usize,
    limit: usize,
    site: Site,
) -> (LockedSite<L>, Vec<Seat<L>>)
    requires name { blank.name ≡ L.name }
    requires parts { blank.parts ≡ L.parts }
    requires one_each { blank.parts ≡ seats }
    requires seats { (1 ≤ seats) × (seats ≤ most_seats) }
    requires limit { limit ≤ most_entries }
{
    let Ok(opened) = LockedSite::<L>::start(alloc, blank, site, seats, limit) else {
        rt.abort()
    };
    opened
}

/// A seat by its place.
pub fn seat_at<'a, L: Ledger>(
    rt: &impl Abort,
    seats: &'a mut [Seat<L>],
    i: usize,
) -> &'a mut Seat<L> {
    seats.get_mut(i).expect(rt, "a seat")
}

/// What settled: how many entries, the clock of the site, and how many sessions of gateways it shows.
#[derive(Clone, Copy, Debug, PartialEq, Eq)]
pub struct Settlement {
    pub entries: usize,
    pub clock: u64,
    pub live: usize,
}

/// What settles, if it does.
pub fn settled<L: Ledger>(site: LockedSite<L>, seats: Vec<Seat<L>>) -> Option<Settlement> {
    match site.settle(seats) {
        Ok(settled) => {
            let settlement = settlement_of(&settled);
            drop(settled);
            Some(settlement)
        }
        Err(unsettled) => {
            drop(unsettled);
            None
        }
    }
}

/// What settled.
fn settlement_of<L: Ledger>(settled: &Settled<L>) -> Settlement {
    let pages = settled.pages();
    Settlement {
        entries: pages.entries(),
        clock: pages.site().sessions().clock(),
        live: live(pages.site()),
    }
}

/// How many sessions of gateways a site shows.
fn live(site: &Site) -> usize {
    let mut count = 0usize;
    for (_, record) in site.sessions().all_gx() {
        if record.live() {
            count = count.saturating_add(1);
        }
    }
    count
}
