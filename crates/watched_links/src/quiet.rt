//! Lines that aren't told too often.
use std::time::{Clock, Duration, Instant};

/// When something was told last, which isn't told again within so many seconds.
#[derive(Clone, Copy)]
pub struct Quiet {
    seconds: u64,
    at: Option<Instant>,
}

impl Quiet {
    /// Nothing was told yet.
    pub fn of(seconds: u64) -> Quiet {
        Quiet { seconds, at: None }
    }

    /// Whether it may be told again; then it counts as told.
    pub fn is_due<C: Clock>(&mut self, clock: &C) -> bool {
        let Ok(now) = Instant::now(clock) else {
            return true;
        };
        if let Some(at) = self.at {
            if now.duration_since(at) < Duration::from_secs(self.seconds) {
                return false;
            }
        }
        self.at = Some(now);
        true
    }
}
