//! Sessions whose gateways refused a push are told all their rules again, a while later.
use crate::staying::journal::tell_told_again;
use crate::staying::machine::Machine;
use crate::staying::retelling::losses::millis;
use crate::staying::retelling::retell;
use crate::staying::working::Shared;
use log::Log;
use pcrf_serve::{Pushes, SharedSite};
use pcrf_values::{GxSid, Ranked};
use std::alloc::AllocError;
use watched_links::PIECE;

/// What came of the sessions that were due.
#[derive(Clone, Copy)]
struct Told {
    /// How many are told again.
    count: u64,
    /// There may be more that are due.
    has_more: bool,
}

/// Has a session told all its rules again: whether there was something to tell.
fn tell_one<'s, 'r, S: SharedSite, M: Machine, G: Log>(
    rt: &'s M,
    all: &'s Shared<'s, 'r, S, M, G>,
    seat: &mut S::Seat,
    session: &GxSid,
) -> Result<bool, AllocError> {
    let refused = &all.furniture.losses.refused;
    let Ok(is_told) = retell(rt, all.server.site, seat, session.try_copy()?) else {
        return Err(AllocError);
    };
    if is_told {
        refused.lock(rt).tell_again(session, millis(rt));
    } else {
        refused.lock(rt).forget(session);
    }
    Ok(is_told)
}

/// Has the next sessions that are due told all their rules again, as far as their gateways are reached here.
fn tell_piece<'s, 'r, S: SharedSite, M: Machine, G: Log>(
    rt: &'s M,
    all: &'s Shared<'s, 'r, S, M, G>,
    seat: &mut S::Seat,
) -> Result<Told, AllocError> {
    let now = millis(rt);
    let due = all.furniture.losses.refused.lock(rt).next_due(now)?;
    let mut count = 0u64;
    for session in &due {
        if tell_one(rt, all, seat, session)? {
            count = count.saturating_add(1);
        }
    }
    if count > 0 {
        let (alloc, site) = (all.server.alloc, all.server.site);
        all.server.gateways.push_all(rt, alloc, site, seat)?;
    }
    Ok(Told {
        count,
        has_more: due.len() >= PIECE,
    })
}

/// Has all sessions that are due told all their rules again. Where memory is refused, or the site's clock is at its end, that is tried again
/// when it is looked next.
pub fn tell_refused_again<'s, 'r, S: SharedSite, M: Machine, G: Log>(
    rt: &'s M,
    all: &'s Shared<'s, 'r, S, M, G>,
    seat: &mut S::Seat,
) {
    for _ in rt.forever() {
        let Ok(told) = tell_piece(rt, all, seat) else {
            break;
        };
        if told.count > 0 {
            tell_told_again(all.log, told.count);
        }
        if !told.has_more {
            break;
        }
    }
}
