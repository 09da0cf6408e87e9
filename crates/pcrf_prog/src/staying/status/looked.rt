//! A site that can be looked at.
use pcrf_serve::SharedSite;
use site_lock::{LivingSite, Looker, Roll};
use site_looks::MeteredSite;
use std::sync::Wait;
use std::time::Clock;

/// A site that threads share, and that can be looked at under its lock.
pub trait Looked: SharedSite {
    /// Lets someone see the site as it is, once the lock is free.
    fn look<R: Wait, K: Looker>(&self, rt: &R, looker: &mut K);
}

impl<L: Roll, C: Clock> Looked for MeteredSite<'_, LivingSite<L>, C> {
    fn look<R: Wait, K: Looker>(&self, rt: &R, looker: &mut K) {
        self.site().look(rt, looker);
    }
}
