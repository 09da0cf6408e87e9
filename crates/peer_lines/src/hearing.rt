//! What sites say over their links of the hosts that they reach, as the threads of a server share it.
use crate::hosts::{Moment, ReachedHosts};
use crate::notice::Notice;
use pcrf_values::DiameterIdentity;
use std::alloc::{AllocError, Global};
use std::collections::BTreeSet;
use std::sync::{Mutex, MutexGuard, Wait};
use std::time::Clock;

/// What sites say of the hosts that they reach. Its lock is held for a look-up or a change alone.
#[derive(Drop)]
pub struct Hearing {
    hosts: Mutex<ReachedHosts>,
}

/// The time in milliseconds, where there is a clock.
fn millis<C: Clock>(clock: &C) -> Option<u64> {
    let elapsed = clock.monotonic().ok()?;
    let seconds = elapsed.as_secs().saturating_mul(1_000);
    Some(seconds.saturating_add(u64::from(elapsed.subsec_millis())))
}

/// From when on a site has no link that has none now: from the latest time where there is no clock.
fn since_now<C: Clock>(clock: &C) -> u64 {
    millis(clock).unwrap_or(u64::MAX)
}

impl Hearing {
    /// Of a site that starts now.
    pub fn start<C: Clock>(alloc: Global, clock: &C, own: u8) -> Result<Hearing, AllocError> {
        let mut hosts = ReachedHosts::start(alloc, own, since_now(clock))?;
        hosts.link(own);
        Ok(Hearing {
            hosts: Mutex::new(hosts),
        })
    }

    /// A site has a link from now on.
    pub fn link(&self, rt: &impl Wait, site: u8) {
        self.hosts.lock(rt).link(site);
    }

    /// A site has no link any more, and what it said is forgotten.
    pub fn unlink<R: Wait + Clock>(&self, rt: &R, site: u8) {
        let now = since_now(rt);
        self.hosts.lock(rt).unlink(site, now);
    }

    /// Hears a notice of a site.
    pub fn hear(&self, rt: &impl Wait, site: u8, notice: Notice) -> Result<(), AllocError> {
        let mut hosts = self.hosts.lock(rt);
        match notice {
            Notice::All(all) => {
                hosts.say_all(site, all);
                Ok(())
            }
            // What a part tells is said with the last one.
            Notice::Part(part) => {
                drop(part);
                Ok(())
            }
            Notice::Reached(host) => hosts.say_reached(site, host),
            Notice::Left(host) => {
                hosts.say_left(site, &host);
                Ok(())
            }
        }
    }

    /// Which hosts go over, as it is known under the lock.
    pub fn lock(&self, rt: &impl Wait) -> MutexGuard<'_, ReachedHosts> {
        self.hosts.lock(rt)
    }

    /// Now, where it is borne for so many milliseconds that a site has no link. Without a clock no site counts as gone.
    pub fn moment<C: Clock>(clock: &C, patience: u64) -> Moment {
        Moment::at(millis(clock), patience)
    }
}
