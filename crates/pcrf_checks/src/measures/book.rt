//! A locked site (`LockedSite`) that so many threads call at once, and beside it the same events of a bare site (`Site::step`) on
//! one thread.
ghost use Rattle.std.specs.Prelude.{◌≡◌, ◌≤◌};
ghost use Rattle.site_book.specs.Limits.{most_seats};

use crate::fault::{Fault, Unmeasured};
use crate::measures::figures::Figures;
use site_book::{HISTORY_LIMIT, SEAT_LIMIT, Seat};
use site_core::{Event, Site};
use site_lock::LockedSite;
use std::alloc::AllocGlobal;
use std::marker::Brand;
use std::sync::Wait;
use std::sync::ledger::{Blank, Ledger};
use std::thread::{Threads, for_each_mut};
use std::time::{Clock, Duration, Instant};

/// How many of these events, so many times over, a site steps.
fn step_each(site: &mut Site, events: &[Event], rounds: u32) -> usize {
    let mut count = 0_usize;
    for _ in 0..rounds {
        for event in events {
            let reply = site.step(event);
            let is_made = reply.is_ok();
            drop(reply);
            count = count.saturating_add(usize::from(is_made));
        }
    }
    count
}

/// How often so many events are made in so many rounds.
pub fn times_of(events: &[Event], rounds: u32) -> usize {
    events.len().saturating_mul(rounds as usize)
}

/// Steps a site, and tells how often and how long that takes.
pub fn time_steps(
    rt: &impl Clock,
    site: &mut Site,
    events: &[Event],
    rounds: u32,
) -> Result<(usize, Duration), Fault> {
    let start = Instant::now(rt)?;
    let count = step_each(site, events, rounds);
    let time = start.elapsed(rt)?;
    if count == times_of(events, rounds) {
        Ok((count, time))
    } else {
        Err(Fault::Unmeasured(Unmeasured::StepFailed))
    }
}

/// Calls a locked site by a seat.
fn call_each<L: Ledger, R: Threads + Wait + Sync>(
    rt: &R,
    site: &LockedSite<L>,
    seat: &mut Seat<L>,
    events: &[Event],
    rounds: u32,
) {
    for _ in 0..rounds {
        for event in events {
            let reply = site.call(rt, seat, event);
            drop(reply);
        }
    }
}

/// Calls a locked site by a thread for each seat, and tells how long that takes.
fn time_calls<L: Ledger + Send + Sync, R: Clock + Threads + Wait + Sync>(
    rt: &R,
    site: &LockedSite<L>,
    seats: &mut [Seat<L>],
    events: &[Event],
    rounds: u32,
) -> Result<Duration, Fault> {
    let threads = seats.len().max(1);
    let start = Instant::now(rt)?;
    for_each_mut(
        rt,
        seats,
        threads,
        &|_, seat: &mut Seat<L>| call_each(rt, site, seat, events, rounds),
    );
    Ok(start.elapsed(rt)?)
}

/// How many entries settle.
fn settled<L: Ledger>(site: LockedSite<L>, seats: Vec<Seat<L>>) -> Option<usize> {
    match site.settle(seats) {
        Ok(settled) => {
            let count = settled.pages().entries();
            drop(settled);
            Some(count)
        }
        Err(unsettled) => {
            drop(unsettled);
            None
        }
    }
}

/// Settles a site with so many entries, and tells how long that takes.
fn time_settling<L: Ledger>(
    rt: &impl Clock,
    site: LockedSite<L>,
    seats: Vec<Seat<L>>,
    wanted: usize,
) -> Result<Duration, Fault> {
    let start = Instant::now(rt);
    if settled(site, seats) == Some(wanted) {
        Ok(start?.elapsed(rt)?)
    } else {
        Err(Fault::Unmeasured(Unmeasured::NoCall))
    }
}

/// By how many threads a locked site is called, how often each makes the events, and whether the history settles then.
#[derive(Clone, Copy)]
pub struct Load {
    pub threads: usize,
    pub rounds: u32,
    pub is_settled: bool,
}

/// How often a site is called.
fn calls_of(events: &[Event], load: Load) -> usize {
    times_of(events, load.rounds).saturating_mul(load.threads)
}

/// What the calls of a site as a locked one take, and settling it, where it is settled.
fn time_locked<L: Ledger + Send + Sync, R: AllocGlobal + Clock + Threads + Wait + Sync>(
    rt: &R,
    blank: Blank,
    site: Site,
    events: &[Event],
    load: Load,
) -> Result<(Duration, Option<Duration>), Fault>
    requires name { blank.name ≡ L.name }
    requires parts { blank.parts ≡ L.parts }
    requires one_each { blank.parts ≡ load.threads }
    requires seats { (1 ≤ load.threads) × (load.threads ≤ most_seats) }
{
    let Ok((site, mut seats)) = LockedSite::<L>::start(
        rt.alloc(),
        blank,
        site,
        load.threads,
        HISTORY_LIMIT,
    ) else {
        return Err(Fault::NoMemory);
    };
    let calls = time_calls(rt, &site, seats.as_mut_slice(), events, load.rounds);
    let settling = if load.is_settled {
        time_settling(rt, site, seats, calls_of(events, load)).map(Some)
    } else {
        drop(seats);
        drop(site);
        Ok(None)
    };
    Ok((calls?, settling?))
}

/// Calls a site as a locked one by so many threads, and settles it.
pub fn measure_threads<R: AllocGlobal + Clock + Threads + Wait + Sync>(
    rt: &R,
    site: Site,
    events: &[Event],
    load: Load,
    name: &str,
    figures: &mut Figures,
) -> Result<(), Fault> {
    if load.threads == 0 || load.threads > SEAT_LIMIT {
        drop(site);
        return Err(Fault::Unmeasured(Unmeasured::ThreadCount));
    }
    let blank = Blank::new(load.threads as u64);
    let (calls, settling) = time_locked::<Brand, _>(rt, blank, site, events, load)?;
    let count = calls_of(events, load);
    figures.add(name, count, calls)?;
    match settling {
        Some(time) => figures.add_part(name, "settling", count, time),
        None => Ok(()),
    }
}
