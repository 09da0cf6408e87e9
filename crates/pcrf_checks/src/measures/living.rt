//! A site that lives (`LivingSite`), which one thread calls: its history stands in the proofs alone.
ghost use Rattle.std.specs.Prelude.{◌≡◌};
ghost use Rattle.site_lock.specs.Sound.{AreNames};

use crate::fault::{Fault, Unmeasured};
use crate::measures::book::times_of;
use crate::measures::figures::Figures;
use site_core::{Event, Site};
use site_lock::living::Seat;
use site_lock::{LivingSite, Roll, Roster};
use std::alloc::AllocGlobal;
use std::marker::Brand;
use std::sync::Wait;
use std::thread::Threads;
use std::time::{Clock, Duration, Instant};

/// How many of these events, so many times over, a seat's calls make.
fn call_each<L: Roll, R: Threads + Wait + Sync>(
    rt: &R,
    site: &LivingSite<L>,
    seat: &mut Seat<L>,
    events: &[Event],
    rounds: u32,
) -> usize {
    let mut count = 0_usize;
    for _ in 0..rounds {
        for event in events {
            let reply = site.call(rt, seat, event);
            let is_made = reply.is_ok();
            drop(reply);
            count = count.saturating_add(usize::from(is_made));
        }
    }
    count
}

/// Calls a site that lives, and tells how long that takes.
fn time_living<L: Roll, R: AllocGlobal + Clock + Threads + Wait + Sync>(
    rt: &R,
    roster: Roster,
    site: Site,
    events: &[Event],
    rounds: u32,
) -> Result<Duration, Fault>
    requires names { AreNames L.name_of L.seats roster.seats }
    requires keeper { roster.keeper ≡ L.keeper }
    requires opening { site.state ≡ L.opening }
{
    let Ok((site, mut seats, keeper)) = LivingSite::<L>::start(rt.alloc(), roster, site) else {
        return Err(Fault::NoMemory);
    };
    drop(keeper);
    let Some(seat) = seats.first_mut() else {
        return Err(Fault::Unmeasured(Unmeasured::NoSeat));
    };
    let start = Instant::now(rt)?;
    let count = call_each(rt, &site, seat, events, rounds);
    let time = start.elapsed(rt)?;
    drop(seats);
    drop(site);
    if count == times_of(events, rounds) {
        Ok(time)
    } else {
        Err(Fault::Unmeasured(Unmeasured::CallFailed))
    }
}

/// Calls a site as one that lives, by one seat.
pub fn measure_living<R: AllocGlobal + Clock + Threads + Wait + Sync>(
    rt: &R,
    site: Site,
    events: &[Event],
    rounds: u32,
    name: &str,
    figures: &mut Figures,
) -> Result<(), Fault> {
    let Ok(roster) = Roster::new(rt.alloc(), 1) else {
        drop(site);
        return Err(Fault::NoMemory);
    };
    let time = time_living::<Brand, _>(rt, roster, site, events, rounds)?;
    figures.add(name, times_of(events, rounds), time)
}
