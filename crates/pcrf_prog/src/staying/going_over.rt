//! Gateways that went over to this site from another are looked for, and the sessions taken over that they left there.
use crate::staying::journal::{tell_not_taken_over, tell_taken_over};
use crate::staying::machine::Machine;
use crate::staying::working::Shared;
use gx_profile::Ccr;
use gx_records::GxRec;
use log::Log;
use pcrf_serve::{
    Event, GoneOver, Leaves, PIECE, Pushes, Reply, SharedSite, go_over, next_updates,
};
use pcrf_values::limits::SITE_LIMIT;
use pcrf_values::{DiameterIdentity, GxSid, Ranked};
use peer_lines::{Hearing, Moment, Notice, ReachedHosts};
use site_join::Entries;
use std::alloc::AllocError;
use std::collections::BTreeSet;
use std::sync::atomic::Ordering;
use std::thread;
use std::time::Duration;
use watched_links::Quiet;

/// How many milliseconds lie between two looks at which hosts went over.
const LOOK_MILLIS: u64 = 250;

/// How many microseconds lie at least between two sessions that are taken over: the site's lock isn't fair, and who gives it back and
/// takes it at once has others wait.
const PAUSE_MICROS: u64 = 200;

/// A pass over all sessions that is made since letters came, while no other host went over, takes this part of the time at most, and there is
/// one a second.
const PART: u64 = 100;

const PASS_MILLIS: u64 = 1_000;

/// For how many seconds it isn't told again that nothing could be taken over.
const UNTAKEN_SECONDS: u64 = 60;

/// A host that is reached here, with the sites, as bits by their numbers, that it left.
#[derive(Drop)]
struct Moved {
    host: DiameterIdentity,
    sites: u16,
}

/// Which homes are left by which hosts, as it is known at a moment.
#[derive(Drop)]
struct Known<'a> {
    hosts: &'a ReachedHosts,
    moment: Moment,
}

impl Leaves for Known<'_> {
    ghost use Rattle.peer_lines.specs.Hosts.{goes_over};

    ghost leaves = { λ known host home. goes_over known.hosts.now known.moment host home };

    fn leaves(&self, host: &DiameterIdentity, home: u8) -> bool {
        self.hosts.goes_over(host, home, self.moment)
    }
}

/// What was found when all sessions were passed last.
#[derive(Drop)]
struct Pass {
    /// Which hosts had left which sites, as far as they have since.
    moved: Vec<Moved>,
    /// How many letters had been taken by then.
    letters: u64,
    /// From when on there may be another one, in milliseconds.
    next: u64,
}

/// The sites that a host left.
fn sites_of(moved: &[Moved], host: &DiameterIdentity) -> u16 {
    for other in moved {
        if other.host == *host {
            return other.sites;
        }
    }
    0
}

impl Pass {
    /// Whether a host left a site that it hadn't left then.
    fn lacks(&self, moved: &[Moved]) -> bool {
        for host in moved {
            if host.sites & !sites_of(self.moved.as_slice(), &host.host) != 0 {
                return true;
            }
        }
        false
    }

    /// Whether all sessions are to be passed again: a host left another site, or letters came that may tell of its sessions.
    fn is_due(&self, moved: &[Moved], letters: u64, now: u64) -> bool {
        if moved.is_empty() {
            return false;
        }
        self.lacks(moved) || (letters != self.letters && now >= self.next)
    }
}

/// The sites that a host left.
fn left_by(known: &ReachedHosts, host: &DiameterIdentity, moment: Moment) -> u16 {
    let mut sites = 0u16;
    let mut bit = 1u16;
    for site in 0..SITE_LIMIT {
        if known.goes_over(host, site, moment) {
            sites |= bit;
        }
        bit = bit.wrapping_shl(1);
    }
    sites
}

/// The hosts that left some site.
fn moved_among<'s, 'r, S: SharedSite, M: Machine, G: Log>(
    rt: &'s M,
    all: &'s Shared<'s, 'r, S, M, G>,
    hosts: &BTreeSet<DiameterIdentity>,
    moment: Moment,
) -> Result<Vec<Moved>, AllocError> {
    let mut moved = Vec::new(all.server.alloc);
    let known = all.exchange.hosts.lock(rt);
    for host in hosts.iter() {
        let sites = left_by(&known, host, moment);
        if sites != 0 {
            let host = host.try_copy()?;
            moved.push(Moved { host, sites })?;
        }
    }
    Ok(moved)
}

/// The updates of the next sessions that are to be taken over.
fn next_piece<'s, 'r, S: SharedSite, M: Machine, G: Log>(
    rt: &'s M,
    all: &'s Shared<'s, 'r, S, M, G>,
    sessions: &mut Entries<'_, GxSid, GxRec>,
) -> Result<Vec<Ccr>, AllocError> {
    let moment = Hearing::moment(rt, all.exchange.patience);
    let known = all.exchange.hosts.lock(rt);
    let known = Known {
        hosts: &known,
        moment,
    };
    next_updates(all.server.alloc, &known, sessions)
}

/// Takes over these sessions, with a pause behind each for other messages, and tells their gateways all that is due then: how many were
/// taken over.
fn take_over_each<'s, 'r, S: SharedSite, M: Machine, G: Log>(
    rt: &'s M,
    all: &'s Shared<'s, 'r, S, M, G>,
    seat: &mut S::Seat,
    updates: &[Ccr],
) -> Result<u64, AllocError> {
    let (alloc, site, gateways) = (all.server.alloc, all.server.site, all.server.gateways);
    let mut taken = 0u64;
    for update in updates {
        match go_over(rt, alloc, site, seat, gateways, update)? {
            GoneOver::Taken => taken = taken.saturating_add(1),
            GoneOver::Refused | GoneOver::Unreached => {}
            GoneOver::Full => break,
        }
        thread::sleep(rt, Duration::from_micros(PAUSE_MICROS));
    }
    gateways.push_all(rt, alloc, site, seat)?;
    Ok(taken)
}

/// Takes over those of these sessions that are to be, in pieces: how many were.
fn take_over_among<'s, 'r, S: SharedSite, M: Machine, G: Log>(
    rt: &'s M,
    all: &'s Shared<'s, 'r, S, M, G>,
    seat: &mut S::Seat,
    sessions: Entries<'_, GxSid, GxRec>,
) -> Result<u64, AllocError> {
    let mut sessions = sessions;
    let mut taken = 0u64;
    for _ in rt.forever() {
        let updates = next_piece(rt, all, &mut sessions)?;
        taken = taken.saturating_add(take_over_each(rt, all, seat, updates.as_slice())?);
        if updates.len() < PIECE {
            break;
        }
    }
    Ok(taken)
}

/// Passes all sessions that the site holds, and takes over those that are to be: how many were.
fn take_over<'s, 'r, S: SharedSite, M: Machine, G: Log>(
    rt: &'s M,
    all: &'s Shared<'s, 'r, S, M, G>,
    seat: &mut S::Seat,
) -> Result<u64, AllocError> {
    let event = Event::AskWhole;
    let called = all.server.site.call_alone(rt, seat, &event);
    drop(event);
    let Ok(Reply::Copy(state, _)) = called else {
        return Err(AllocError);
    };
    let taken = take_over_among(rt, all, seat, state.all_gx());
    drop(state);
    taken
}

/// Looks which hosts went over, and takes over their sessions, if all are to be passed: how many were.
fn look<'s, 'r, S: SharedSite, M: Machine, G: Log>(
    rt: &'s M,
    all: &'s Shared<'s, 'r, S, M, G>,
    seat: &mut S::Seat,
    pass: &mut Pass,
) -> Result<u64, AllocError> {
    let (alloc, gateways) = (all.server.alloc, all.server.gateways);
    let reached = Notice::All(gateways.hosts(rt, alloc)?);
    let own = all.exchange.place.number;
    all.exchange.hosts.hear(rt, own, reached)?;
    let hosts = gateways.hosts(rt, alloc)?;
    let moment = Hearing::moment(rt, all.exchange.patience);
    let moved = moved_among(rt, all, &hosts, moment)?;
    let letters = all.exchange.letters.load(Ordering::SeqCst);
    if !pass.is_due(moved.as_slice(), letters, moment.now) {
        pass.moved = moved;
        return Ok(0);
    }
    let taken = take_over(rt, all, seat)?;
    let now = Hearing::moment(rt, 0).now;
    let rest = now.saturating_sub(moment.now).saturating_mul(PART);
    *pass = Pass {
        moved,
        letters,
        next: now.saturating_add(rest.max(PASS_MILLIS)),
    };
    Ok(taken)
}

/// Looks again and again which hosts went over to this site, as long as the server runs.
pub fn look_for_moved<'s, 'r, S: SharedSite, M: Machine, G: Log>(
    rt: &'s M,
    all: &'s Shared<'s, 'r, S, M, G>,
    seat: S::Seat,
) {
    let mut seat = seat;
    let mut pass = Pass {
        moved: Vec::new(all.server.alloc),
        letters: 0,
        next: 0,
    };
    let mut untaken = Quiet::of(UNTAKEN_SECONDS);
    for _ in rt.forever() {
        thread::sleep(rt, Duration::from_millis(LOOK_MILLIS));
        match look(rt, all, &mut seat, &mut pass) {
            Ok(0) => {}
            Ok(taken) => tell_taken_over(all.log, taken),
            Err(_) => {
                if untaken.is_due(rt) {
                    tell_not_taken_over(all.log);
                }
            }
        }
    }
}
