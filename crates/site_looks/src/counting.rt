//! How many sessions there are, counted some at a time under the site's lock.
use af_records::AfRec;
use pcrf_values::{AfSid, GxSid};
use site_lock::{Looker, Site};

/// How many sessions are looked at under the lock at once.
pub const PIECE: usize = 1_000;

/// How many sessions of gateways there are.
#[derive(Clone, Copy, Debug, PartialEq, Eq)]
pub struct GatewayCounts {
    pub live: u64,
    pub ended: u64,
}

/// How many sessions of application functions there are, and how many of the live ones are bound.
#[derive(Clone, Copy, Debug, PartialEq, Eq)]
pub struct CallCounts {
    pub live: u64,
    pub ended: u64,
    pub bound: u64,
}

/// Counts some sessions of gateways.
#[derive(Drop)]
pub struct GatewayPiece<'a, 'k> {
    pub ids: &'a [&'k GxSid],
    pub counts: GatewayCounts,
}

impl Looker for GatewayPiece<'_, '_> {
    ghost saw = { λ _ _ _. Unit {0} };

    fn see(&mut self, site: &Site) {
        for id in self.ids {
            let Some(known) = site.sessions().gx(id) else {
                continue;
            };
            if known.ended() {
                self.counts.ended = self.counts.ended.saturating_add(1);
            } else if known.live() {
                self.counts.live = self.counts.live.saturating_add(1);
            }
        }
    }
}

/// Counts some sessions of application functions.
#[derive(Drop)]
pub struct CallPiece<'a, 'k> {
    pub ids: &'a [&'k AfSid],
    pub counts: CallCounts,
}

/// Whether a call is bound, as far as the index of a site tells.
fn is_bound(site: &Site, call: &AfRec) -> bool {
    match site.index() {
        Some(index) => index.bind_by(site.sessions(), call).is_some(),
        None => false,
    }
}

impl Looker for CallPiece<'_, '_> {
    ghost saw = { λ _ _ _. Unit {0} };

    fn see(&mut self, site: &Site) {
        for id in self.ids {
            let Some(known) = site.sessions().af(id) else {
                continue;
            };
            if known.ended() {
                self.counts.ended = self.counts.ended.saturating_add(1);
            } else if known.live() {
                self.counts.live = self.counts.live.saturating_add(1);
                if is_bound(site, known) {
                    self.counts.bound = self.counts.bound.saturating_add(1);
                }
            }
        }
    }
}
