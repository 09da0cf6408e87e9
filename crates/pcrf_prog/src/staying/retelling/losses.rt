//! What is known of what gateways may have lost.
use pcrf_values::GxSid;
use std::alloc::Global;
use std::sync::{Mutex, Wait};
use std::time::Clock;
use watched_links::{OriginStates, Refused, RefusedPushes};

/// What is known of what gateways may have lost. Its locks are held for a look-up or a change alone.
#[derive(Drop)]
pub struct Losses {
    /// The sessions whose gateways refused a push.
    pub refused: Mutex<RefusedPushes>,
    /// In which state the hosts of sessions spoke last.
    pub states: Mutex<OriginStates>,
}

/// The time in milliseconds; 0 where the machine tells none.
pub fn millis<C: Clock>(clock: &C) -> u64 {
    match clock.monotonic() {
        Ok(elapsed) => elapsed
            .as_secs()
            .saturating_mul(1_000)
            .saturating_add(u64::from(elapsed.subsec_millis())),
        Err(_) => 0,
    }
}

impl Losses {
    /// Nothing is lost. Sessions are told again that many seconds behind a push that was refused.
    pub fn start(alloc: Global, pause: u16) -> Losses {
        let pause = u64::from(pause).saturating_mul(1_000);
        Losses {
            refused: Mutex::new(RefusedPushes::start(alloc, pause)),
            states: Mutex::new(OriginStates::start(alloc)),
        }
    }

    /// The gateway of a session refused a push.
    pub fn refuse<M: Wait + Clock>(&self, rt: &M, session: &GxSid) -> Refused {
        let now = millis(rt);
        self.refused.lock(rt).refuse(session, now)
    }

    /// The gateway of a session accepted one.
    pub fn accept<M: Wait + Clock>(&self, rt: &M, session: &GxSid) {
        let now = millis(rt);
        self.refused.lock(rt).accept(session, now);
    }
}
