//! The lists of rules that a site keeps of its live sessions (`Site::renew`), made in as many threads as the program may use
//! processors: of all, as after a whole state was taken, and of none, since all are kept; beside them the same lists, made and
//! kept one by one.
use crate::fault::Fault;
use crate::measures::figures::Figures;
use bind_index::Index;
use op_tables::Tables;
use pcc_rules::{Rules, derive_by};
use site_core::Site;
use site_join::State;
use std::alloc::{AllocError, AllocGlobal, Global};
use std::thread::Threads;
use std::time::{Clock, Duration, Instant};

/// Makes and keeps the list of each live session, one by one; how many there are.
fn keep_each(
    alloc: Global,
    tables: &Tables,
    state: &State,
    index: &Index,
    lists: &mut Rules,
) -> Result<usize, AllocError> {
    let mut count = 0_usize;
    for (session, known) in state.all_gx() {
        if known.live() {
            let made = derive_by(alloc, tables, state, index, session)?;
            lists.keep(session, made)?;
            count = count.saturating_add(1);
        }
    }
    Ok(count)
}

/// How many lists a site keeps of its live sessions.
fn count_cached(site: &Site) -> usize {
    let mut count = 0_usize;
    for (session, known) in site.sessions().all_gx() {
        if known.live() && site.cached_rules().get(session).is_some() {
            count = count.saturating_add(1);
        }
    }
    count
}

/// How many lists are filled one by one, and how long that takes.
fn fill_lists(
    rt: &(impl AllocGlobal + Clock),
    site: &Site,
    index: &Index,
    lists: &mut Rules,
) -> Result<(usize, Duration), Fault> {
    let start = Instant::now(rt)?;
    let count = keep_each(rt.alloc(), site.tables(), site.sessions(), index, lists)?;
    Ok((count, start.elapsed(rt)?))
}

/// How many lists a site's sessions have, and how long it takes to make them one by one.
fn time_each(
    rt: &(impl AllocGlobal + Clock),
    site: &Site,
    index: &Index,
) -> Result<(usize, Duration), Fault> {
    let mut lists = Rules::start(rt.alloc());
    let filled = fill_lists(rt, site, index, &mut lists);
    drop(lists);
    filled
}

/// How long it takes to renew a site.
fn time_renewing(rt: &(impl Clock + Threads + Sync), site: &mut Site) -> Result<Duration, Fault> {
    let start = Instant::now(rt)?;
    site.renew(rt)?;
    Ok(start.elapsed(rt)?)
}

/// A site takes a whole state which adds nothing: all of its lists are stale then.
fn make_stale(alloc: Global, site: &mut Site) -> Result<(), AllocError> {
    let nothing = State::start(alloc);
    let taken = site.take_state(&nothing);
    drop(nothing);
    taken
}

/// An index of what a site holds.
fn index_of(alloc: Global, site: &Site) -> Result<Index, AllocError> {
    let mut index = Index::start(alloc);
    match index.cover_state(site.sessions()) {
        Ok(()) => Ok(index),
        Err(refused) => {
            drop(index);
            Err(refused)
        }
    }
}

/// Makes all lists in both ways, each right after a whole state was taken, since that leaves the records elsewhere in memory;
/// and then where all are kept.
pub fn measure(
    rt: &(impl AllocGlobal + Clock + Threads + Sync),
    site: &mut Site,
    name: &str,
    figures: &mut Figures,
) -> Result<(), Fault> {
    make_stale(rt.alloc(), site)?;
    let index = index_of(rt.alloc(), site)?;
    let filled = time_each(rt, site, &index);
    drop(index);
    let (count, each) = filled?;
    figures.add_part(name, "one by one", count, each)?;
    make_stale(rt.alloc(), site)?;
    let all = time_renewing(rt, site)?;
    figures.add_part(name, "all at once", count_cached(site), all)?;
    let none = time_renewing(rt, site)?;
    figures.add_part(name, "where all are kept", count_cached(site), none)
}
