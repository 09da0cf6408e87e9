//! Sites whose history stands in the proofs alone, opened over a site that took nothing, and what stays of these and of those whose
//! history is kept when all seats have come back.
ghost use Rattle.std.specs.Prelude.{◌≡◌, []};
ghost use Rattle.site_lock.specs.Sound.{AreNames};

use crate::checks::check;
use indexed_state::put_value;
use site_lock::living::Seat;
use site_lock::{Keeper, LivingSite, LockedSite, Roll, Roster};
use site_machine::Site;
use std::alloc::Global;
use std::process::Abort;
use std::sync::ledger::Ledger;

/// The notes of so many seats.
pub fn new_roster(rt: &impl Abort, alloc: Global, seats: usize) -> Roster {
    let roster = Roster::new(alloc, seats).expect(rt, "memory");
    check(rt, roster.len() == seats);
    roster
}

/// A site whose history stands in the proofs alone, its seats and their keeper.
pub fn living<L: Roll>(
    rt: &impl Abort,
    alloc: Global,
    roster: Roster,
    site: Site,
) -> (LivingSite<L>, Vec<Seat<L>>, Keeper<L>)
    requires names { AreNames L.name_of L.seats roster.seats }
    requires keeper { roster.keeper ≡ L.keeper }
    requires opening { site.state ≡ L.opening }
    ensures { result.2.beginnings ≡ [] }
{
    let Ok(opened) = LivingSite::<L>::start(alloc, roster, site) else {
        rt.abort()
    };
    opened
}

/// What stays of a site: what an operator sees of it, with its clock, how many operations it made itself since it last began
/// anew, and how many entries its history has.
#[derive(Drop)]
pub struct Left {
    pub text: String,
    pub logged: u64,
    pub entries: u64,
}

/// What an operator sees of a site: the clock, and each session with its rules or its binding.
fn seen(rt: &impl Abort, alloc: Global, site: &Site) -> String {
    let value = site.value().expect(rt, "memory");
    let mut text = String::new(alloc);
    let put = put_value(&mut text, &value);
    drop(value);
    put.expect(rt, "memory");
    text
}

/// What stays of a site whose history has so many entries.
fn left_by(rt: &impl Abort, alloc: Global, site: &Site, entries: u64) -> Left {
    Left {
        text: seen(rt, alloc, site),
        logged: site.logged(),
        entries,
    }
}

/// What stays of a site whose history stands in the proofs alone.
pub fn left_of_living<L: Roll>(
    rt: &impl Abort,
    alloc: Global,
    site: LivingSite<L>,
    seats: Vec<Seat<L>>,
    keeper: Keeper<L>,
) -> Left {
    let chronicle = site.settle(seats, keeper);
    let left = left_by(rt, alloc, chronicle.site(), chronicle.entries());
    drop(chronicle);
    left
}

/// What stays of one whose history is kept, which settles.
pub fn left_of_locked<L: Ledger>(
    rt: &impl Abort,
    alloc: Global,
    site: LockedSite<L>,
    seats: Vec<site_lock::Seat<L>>,
) -> Left {
    let Ok(settled) = site.settle(seats) else {
        rt.abort()
    };
    let pages = settled.pages();
    let left = left_by(rt, alloc, pages.site(), pages.entries() as u64);
    drop(settled);
    left
}
