//! What a site says of itself on its own account.
use dia_base::{Identity, stated, write_dwr};
use std::alloc::{AllocError, Global};
use std::sync::atomic::{AtomicU64, Ordering};
use std::time::Duration;

/// How many identifiers there are (RFC 6733, 3).
const IDENTIFIERS: u64 = 1 << 32;

/// The names of a site, and the identifiers of its requests.
#[derive(Drop)]
pub struct Own {
    /// Its names.
    pub identity: Identity,
    /// For how long nothing comes from a peer before it is asked whether it is there.
    pub watchdog: Duration,
    /// From where the End-to-End Identifiers of its re-authorisation requests count up.
    pub first_end_id: u32,
    /// How many watchdogs it sent. Their identifiers count down, from below those.
    watchdogs: AtomicU64,
}

impl Own {
    /// Of a site that sent nothing yet.
    pub fn start(identity: Identity, watchdog: Duration, first_end_id: u32) -> Own {
        Own {
            identity,
            watchdog,
            first_end_id,
            watchdogs: AtomicU64::new(0),
        }
    }

    /// The bytes of a Device-Watchdog-Request in the form in which the site writes, with identifiers that no other request of it has.
    pub fn next_watchdog(&self, alloc: Global) -> Result<Vec<u8>, AllocError> {
        let count = (self.watchdogs.fetch_add(1, Ordering::SeqCst) % IDENTIFIERS) as u32;
        let hop_id = u32::MAX - count;
        let end_id = self.first_end_id.wrapping_sub(count).wrapping_sub(1);
        let request = write_dwr(alloc, &self.identity, hop_id, end_id)?;
        stated(alloc, &self.identity, request)
    }
}
