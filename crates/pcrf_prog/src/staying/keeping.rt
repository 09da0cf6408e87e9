//! What is looked at once a second at a site that stays: it begins its next epoch in place, where the log of its own operations has become too
//! long, so that doesn't grow for ever; it is told which hosts are away while something may wait for them; and sessions are told again whose
//! gateways refused a push; and sessions that ended are forgotten.
ghost use Rattle.std.specs.Prelude.{◌≡◌, []};

use crate::kept_files::FileFault;
use crate::socket_server::SiteEpoch;
use crate::staying::forgetting_ended::{FORGOTTEN_AT_ONCE, Forgetting, forget_ended};
use crate::staying::journal::{tell_begun_anew, tell_missed, tell_not_begun};
use crate::staying::machine::Machine;
use crate::staying::own_log::log_length;
use crate::staying::retelling::tell_refused_again;
use crate::staying::working::Shared;
use indexed_state::AnySid;
use log::Log;
use pcrf_serve::SharedSite;
use pcrf_values::DiameterIdentity;
use pcrf_values::limits::SITE_LIMIT;
use peer_lines::Hearing;
use site_lock::{BeginFault, Keeper, LivingSite, Roll};
use site_looks::MeteredSite;
use std::alloc::Global;
use std::sync::atomic::Ordering;
use std::thread;
use std::time::{Clock, Duration};
use thiserror::Error;
use watched_links::Quiet;

/// How many seconds lie between two looks at how long the log is.
const LOOK_SECONDS: u64 = 1;

/// For how many seconds it isn't told again that the next epoch isn't begun.
const UNBEGUN_SECONDS: u64 = 60;

/// Why the next epoch isn't begun.
#[derive(Clone, Copy, Debug, PartialEq, Eq, Error)]
pub enum Unbegun {
    /// The epoch is the last.
    #[error("65535 is the last epoch")]
    LastEpoch,
    /// The file of the epoch can't be made to say it.
    #[error("the file of the epoch can't be written")]
    Unwritten,
    /// Memory ran out.
    #[error("no memory")]
    NoMemory,
}

/// Who has a site of that kind begin its next epoch, and forget sessions, in a thread of its own.
pub trait Housekeeper<S>: Drop {
    /// Has the site begin its next epoch, and answers which that is. All that the site holds stays, and the log of its own operations is
    /// empty then. Where there is a fault the site is in the epoch in which it was, also where a file says the next one already.
    fn begin_next<M: Machine>(&mut self, rt: &M, site: &S) -> Result<u16, Unbegun>;

    /// Has the site forget those of these sessions that have ended, and answers how many these are: none where they are too many to be
    /// forgotten at once.
    fn forget<M: Machine>(&mut self, rt: &M, site: &S, sessions: &[AnySid]) -> usize;
}

/// The keeper of a site that lives, and the file that says its epoch, if one does.
#[derive(Drop)]
pub struct EpochKeeper<'r, L: Roll> {
    alloc: Global,
    keeper: Keeper<L>,
    file: Option<&'r str>,
}

impl<'r, L: Roll> EpochKeeper<'r, L> {
    /// That of a site which starts in its epoch.
    pub fn starting(
        alloc: Global,
        keeper: Keeper<L>,
        place: SiteEpoch,
        file: Option<&'r str>,
    ) -> EpochKeeper<'r, L>
        requires { keeper.beginnings ≡ [] }
    {
        EpochKeeper {
            alloc,
            keeper: keeper.starting_in(place.epoch),
            file,
        }
    }
}

impl<L: Roll + Send + Sync, C: Clock> Housekeeper<MeteredSite<'_, LivingSite<L>, C>>
    for EpochKeeper<'_, L> {
    /// The file says the epoch before the site begins it. Then all sessions wait anew for a push: a session stays listed as waiting until
    /// its host asks, and hosts of other sites never ask here, so that their lists would grow for ever.
    fn begin_next<M: Machine>(
        &mut self,
        rt: &M,
        site: &MeteredSite<'_, LivingSite<L>, C>,
    ) -> Result<u16, Unbegun> {
        let Some(epoch) = self.keeper.epoch().checked_add(1) else {
            return Err(Unbegun::LastEpoch);
        };
        if let Some(path) = self.file {
            match rt.keep_epoch(self.alloc, path, epoch) {
                Ok(()) => {}
                Err(FileFault::NoMemory) => return Err(Unbegun::NoMemory),
                Err(_) => return Err(Unbegun::Unwritten),
            }
        }
        match site.site().begin_anew(rt, &mut self.keeper) {
            Ok(()) => {
                site.site().wait_anew(rt);
                Ok(epoch)
            }
            Err(BeginFault::EpochFull) => Err(Unbegun::LastEpoch),
        }
    }

    fn forget<M: Machine>(
        &mut self,
        rt: &M,
        site: &MeteredSite<'_, LivingSite<L>, C>,
        sessions: &[AnySid],
    ) -> usize {
        if sessions.len() > FORGOTTEN_AT_ONCE {
            return 0;
        }
        site.site().forget(rt, &mut self.keeper, sessions)
    }
}

/// Has the site begin its next epoch if it made more operations in its epoch than so many. That it can't isn't told too often.
fn keep_log_short<'s, 'r, S: SharedSite, M: Machine, G: Log, K: Housekeeper<S>>(
    rt: &'s M,
    all: &'s Shared<'s, 'r, S, M, G>,
    seat: &mut S::Seat,
    limit: u64,
    keeper: &mut K,
    unbegun: &mut Quiet,
) {
    let Some(made) = log_length(rt, all.server.site, seat) else {
        return;
    };
    let figures = &all.furniture.figures;
    figures.site.operations.put(made);
    if made <= limit {
        return;
    }
    match keeper.begin_next(rt, all.server.site) {
        Ok(epoch) => {
            all.furniture.beginnings.fetch_add(1, Ordering::SeqCst);
            figures.begin_anew();
            tell_begun_anew(all.log, epoch, made);
        }
        Err(why) => {
            if unbegun.is_due(rt) {
                tell_not_begun(all.log, made, why);
            }
        }
    }
}

/// Whether a host left all other sites: each said that it doesn't reach the host, or has had no link for long. One whose link is new has yet
/// to say whom it reaches.
fn is_left_elsewhere<'s, 'r, S: SharedSite, M: Machine, G: Log>(
    rt: &'s M,
    all: &'s Shared<'s, 'r, S, M, G>,
    host: &DiameterIdentity,
) -> bool {
    let own = all.exchange.place.number;
    let moment = Hearing::moment(rt, all.exchange.patience);
    let known = all.exchange.hosts.lock(rt);
    for site in 0..SITE_LIMIT {
        if site != own && !known.is_left(host, site, moment) {
            return false;
        }
    }
    true
}

/// Tells, once for each time that it went, which gateways' host is away, here and at the other sites, while a push may wait for it.
fn tell_all_missed<'s, 'r, S: SharedSite, M: Machine, G: Log>(
    rt: &'s M,
    all: &'s Shared<'s, 'r, S, M, G>,
    seat: &mut S::Seat,
) {
    let site = all.server.site;
    let guests = &all.furniture.guests;
    let mut from = 0;
    for _ in rt.forever() {
        let Some((number, host)) = guests.missed(rt, from) else {
            break;
        };
        let is_missed = site.wants_push(rt, seat, &host) && is_left_elsewhere(rt, all, &host);
        if guests.notice(rt, number, is_missed) {
            tell_missed(all.log, &host);
        }
        from = number.saturating_add(1);
    }
}

/// Looks for which hosts something may wait.
fn see_all_waiting<'s, 'r, S: SharedSite, M: Machine, G: Log>(
    rt: &'s M,
    all: &'s Shared<'s, 'r, S, M, G>,
    seat: &mut S::Seat,
) {
    let guests = &all.furniture.guests;
    for number in 0..guests.count(rt) {
        if let Some(seen) = guests.seen(rt, number) {
            let is_waiting = all.server.site.wants_push(rt, seat, &seen.host);
            guests.set_waiting(rt, number, is_waiting);
        }
    }
}

/// What who keeps a site has.
#[derive(Drop)]
pub struct Keeping<E: Drop, K: Drop> {
    pub seat: E,
    /// How many operations the site makes in an epoch at most before it begins the next.
    pub limit: u64,
    pub keeper: K,
    pub forgetting: Forgetting,
}

/// Looks once how long the log is, who is away, which sessions are to be told again, and which are to be forgotten.
fn look_around<'s, 'r, S: SharedSite, M: Machine, G: Log, K: Housekeeper<S>>(
    rt: &'s M,
    all: &'s Shared<'s, 'r, S, M, G>,
    keeping: &mut Keeping<S::Seat, K>,
    unbegun: &mut Quiet,
) {
    let limit = keeping.limit;
    tell_all_missed(rt, all, &mut keeping.seat);
    see_all_waiting(rt, all, &mut keeping.seat);
    tell_refused_again(rt, all, &mut keeping.seat);
    keep_log_short(
        rt,
        all,
        &mut keeping.seat,
        limit,
        &mut keeping.keeper,
        unbegun,
    );
    forget_ended(rt, all, &mut keeping.keeper, &mut keeping.forgetting);
}

/// Looks again and again how long the log is, who is away, which sessions are to be told again, and which are to be forgotten, as long as
/// the server runs.
pub fn keep_house<'s, 'r, S: SharedSite, M: Machine, G: Log, K: Housekeeper<S>>(
    rt: &'s M,
    all: &'s Shared<'s, 'r, S, M, G>,
    keeping: Keeping<S::Seat, K>,
) {
    let mut keeping = keeping;
    let mut unbegun = Quiet::of(UNBEGUN_SECONDS);
    for _ in rt.forever() {
        thread::sleep(rt, Duration::from_secs(LOOK_SECONDS));
        look_around(rt, all, &mut keeping, &mut unbegun);
    }
}
