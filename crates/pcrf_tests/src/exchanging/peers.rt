//! An exchange with a peer whose letters are written down, and what comes of it.
ghost use Rattle.std.specs.Prelude.{◌≡◌, ◌<◌};
ghost use Rattle.pcrf_values.specs.Limits.{site_limit};

use crate::books::{Settlement, opened, seat_at, settled};
use crate::calls::is_replied;
use crate::events::attach_lettered;
use crate::exchanging::letters::bytes_of;
use crate::exchanging::wire::{Doors, Gateways, OPEN, Wire};
use crate::sites::ruled_site;
use pcrf_serve::{LinkEnd, Role, exchange_with};
use peer_exchange::Cursors;
use site_book::Seat;
use site_lock::LockedSite;
use std::alloc::Global;
use std::marker::Brand;
use std::process::Abort;
use std::sync::Wait;
use std::sync::ledger::{Blank, Ledger};
use std::test::*;
use std::thread::Threads;

/// Letters, one behind the other.
pub type Letters = &'static [&'static str];

/// An exchange with a peer: who dials is site 0, who listens site 1.
#[derive(Clone, Copy)]
pub struct Case {
    pub role: Role,
    /// The letters of the peer, and how many bytes of them come before the end.
    pub said: Letters,
    pub given: usize,
    pub turns: u32,
    pub doors: Doors,
    pub gateways: Gateways,
    /// The sessions that are set up at the site before.
    pub places: &'static [u8],
    /// How many entries the history has room for, 9 at most.
    pub limit: usize,
    /// How many reads, and how many writes and flushes, go well.
    pub reads: usize,
    pub writes: usize,
    /// The letters that are to be written to the peer, and how many bytes of them.
    pub told: Letters,
    pub written: usize,
    pub outcome: Outcome,
}

/// How it ended, how many operations of site 0 are counted as taken, and what settled.
#[derive(Clone, Copy, Debug, PartialEq, Eq)]
pub struct Outcome {
    end: LinkEnd,
    taken: u64,
    settlement: Option<Settlement>,
}

/// So many operations of site 0 are counted; so many entries settle, with this clock, and so many sessions.
pub fn ends(end: LinkEnd, taken: u64, entries: usize, clock: u64, live: usize) -> Outcome {
    let settlement = Settlement {
        entries,
        clock,
        live,
    };
    Outcome {
        end,
        taken,
        settlement: Some(settlement),
    }
}

/// A peer that says this in one turn, and nothing fails.
pub fn told(role: Role, said: Letters, told: Letters, outcome: Outcome) -> Case {
    Case {
        role,
        said,
        given: usize::MAX,
        turns: 1,
        doors: OPEN,
        gateways: Gateways::Unreached,
        places: b"",
        limit: 9,
        reads: usize::MAX,
        writes: usize::MAX,
        told,
        written: usize::MAX,
        outcome,
    }
}

impl Case {
    /// In so many turns.
    pub fn turns(self, turns: u32) -> Case {
        Case { turns, ..self }
    }

    /// With a history that has room for so many entries.
    pub fn limit(self, limit: usize) -> Case {
        Case { limit, ..self }
    }

    /// By doors that let so many messages in, and so many out.
    pub fn doors(self, into: u64, out_of: u64) -> Case {
        let doors = Doors { into, out_of };
        Case { doors, ..self }
    }

    /// With gateways that are reached so.
    pub fn gateways(self, gateways: Gateways) -> Case {
        Case { gateways, ..self }
    }
}

/// How an exchange ends with a peer that is gone behind so many bytes of a letter.
pub fn gone_behind(given: usize) -> LinkEnd {
    if given == 0 {
        LinkEnd::Closed
    } else {
        LinkEnd::Cut
    }
}

/// How one ends that a call fails, of which so many are made.
pub fn failed_at(call: usize, calls: usize, fault: LinkEnd) -> LinkEnd {
    if call < calls { fault } else { LinkEnd::Closed }
}

/// What comes of an exchange is what is to come of it.
pub fn assert_case<R: Threads + Wait + Abort + Sync>(rt: &R, alloc: Global, case: &Case, i: usize) {
    assert_outcome::<Brand, R>(rt, alloc, Blank::new(1), case, i);
}

/// The same, by the ledger of a blank.
fn assert_outcome<L: Ledger, R: Threads + Wait + Abort + Sync>(
    rt: &R,
    alloc: Global,
    blank: Blank,
    case: &Case,
    i: usize,
)
    requires name { blank.name ≡ L.name }
    requires parts { blank.parts ≡ L.parts }
    requires one { blank.parts ≡ 1 }
{
    let site = ruled_site(rt, alloc, number_of(case.role), 0);
    let (site, mut seats) = opened::<L>(rt, alloc, blank, 1, case.limit.min(9), site);
    let seat = seat_at(rt, seats.as_mut_slice(), 0);
    let (end, taken) = exchanged(rt, alloc, &site, seat, case, i);
    let settlement = settled(site, seats);
    let outcome = Outcome {
        end,
        taken,
        settlement,
    };
    assert_eq!(rt; outcome, case.outcome, "case {i}");
}

/// The site that has a part in an exchange.
fn number_of(role: Role) -> u8
    ensures { result < site_limit }
{
    match role {
        Role::Dial => 0,
        Role::Listen => 1,
    }
}

/// How an exchange ends, and how many operations of site 0 are counted.
fn exchanged<L: Ledger, R: Threads + Wait + Abort + Sync>(
    rt: &R,
    alloc: Global,
    site: &LockedSite<L>,
    seat: &mut Seat<L>,
    case: &Case,
    i: usize,
) -> (LinkEnd, u64) {
    for place in case.places {
        is_replied(rt, site, seat, attach_lettered(rt, alloc, *place));
    }
    let said = bytes_of(rt, alloc, case.said);
    let mut told = Vec::new(alloc);
    let mut wire = Wire {
        left: front(said.as_slice(), case.given),
        reads: case.reads,
        told: &mut told,
        writes: case.writes,
    };
    let mut cursors = Cursors::start(number_of(case.role), 1);
    let end = exchange_with(
        rt,
        alloc,
        site,
        seat,
        &mut cursors,
        &case.gateways,
        case.role,
        &mut wire,
        case.turns,
        &case.doors,
    );
    drop(wire);
    let wanted = bytes_of(rt, alloc, case.told);
    assert_eq!(rt;
        told.as_slice(),
        front(wanted.as_slice(), case.written),
        "case {i}"
    );
    (end, cursors.maker(0).taken())
}

/// The first so many bytes, or all.
fn front(bytes: &[u8], count: usize) -> &[u8] {
    &bytes[..count.min(bytes.len())]
}
