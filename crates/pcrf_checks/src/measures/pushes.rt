//! Pushes of a site to one gateway, each of which is due, or none of which is; and the whole state of a site, which another
//! takes before its first push.
use crate::fault::{Fault, Unmeasured};
use crate::measures::figures::Figures;
use site_core::Site;
use site_join::State;
use std::time::{Clock, Duration, Instant};

/// A site looks for a push, and finds one where something is due and none where nothing is, or that is an error.
fn push_once(site: &mut Site, host: &str, is_due: bool) -> Result<(), Fault> {
    let pushed = site.push(Some(host.as_bytes()));
    let found = match &pushed {
        Ok(found) => Some(found.is_some()),
        Err(_) => None,
    };
    drop(pushed);
    match found {
        Some(found) if found == is_due => Ok(()),
        Some(true) => Err(Fault::Unmeasured(Unmeasured::SomethingDue)),
        Some(false) => Err(Fault::Unmeasured(Unmeasured::NothingDue)),
        None => Err(Fault::Unmeasured(Unmeasured::PushFailed)),
    }
}

/// How long so many pushes take, one after the other.
pub fn time_pushes(
    rt: &impl Clock,
    site: &mut Site,
    host: &str,
    count: u32,
    is_due: bool,
) -> Result<Duration, Fault> {
    let start = Instant::now(rt)?;
    for _ in 0..count {
        push_once(site, host, is_due)?;
    }
    Ok(start.elapsed(rt)?)
}

/// How long a site takes to take a state.
fn time_taking(rt: &impl Clock, site: &mut Site, state: &State) -> Result<Duration, Fault> {
    let start = Instant::now(rt)?;
    site.take_state(state)?;
    Ok(start.elapsed(rt)?)
}

/// A site that holds nothing takes a state twice, and then looks for a push: at all sessions, of which none is due.
pub fn measure_whole(
    rt: &impl Clock,
    site: &mut Site,
    state: &State,
    host: &str,
    name: &str,
    figures: &mut Figures,
) -> Result<(), Fault> {
    let empty = time_taking(rt, site, state)?;
    figures.add_part(name, "taken where nothing is held", 1, empty)?;
    let equal = time_taking(rt, site, state)?;
    figures.add_part(name, "taken where all is held", 1, equal)?;
    let push = time_pushes(rt, site, host, 1, false)?;
    figures.add_part(name, "the first push then", 1, push)
}
