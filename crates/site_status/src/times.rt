//! How long something takes, as a histogram that threads add to side by side.
ghost use Rattle.std.specs.Prelude.{◌≡◌, nat_lt, count_by};

use std::alloc::{AllocError, Global};
use std::sync::atomic::{AtomicU64, Ordering};

/// How many bounds there are.
pub const BOUND_COUNT: usize = 19;

/// The bounds of the buckets in nanoseconds: 1, 2 and 5 of each decade, from a microsecond to a second.
pub const BOUNDS: [u64; BOUND_COUNT] = [
    1_000,
    2_000,
    5_000,
    10_000,
    20_000,
    50_000,
    100_000,
    200_000,
    500_000,
    1_000_000,
    2_000_000,
    5_000_000,
    10_000_000,
    20_000_000,
    50_000_000,
    100_000_000,
    200_000_000,
    500_000_000,
    1_000_000_000,
];

/// The bucket of a time: how many bounds it is above.
pub fn bucket_of(nanos: u64) -> usize
    ensures { result ≡ count_by (λ bound. nat_lt bound nanos) BOUNDS }
{
    BOUNDS.partition_point(|bound| *bound < nanos)
}

/// A snapshot of a histogram: what was counted of each bucket, the last of which is above all bounds, and the sum of all times in
/// nanoseconds.
#[derive(Drop)]
pub struct TimesSnapshot {
    pub counts: Vec<u64>,
    pub nanos: u64,
}

/// How often something took how long.
#[derive(Drop)]
pub struct Times {
    counts: Vec<AtomicU64>,
    nanos: AtomicU64,
}

impl Times {
    /// It never happened.
    pub fn start(alloc: Global) -> Result<Times, AllocError> {
        let mut counts = Vec::with_capacity(alloc, BOUND_COUNT + 1)?;
        for _ in 0..BOUND_COUNT + 1 {
            counts.push(AtomicU64::new(0))?;
        }
        Ok(Times {
            counts,
            nanos: AtomicU64::new(0),
        })
    }

    /// It took so many nanoseconds once.
    pub fn add(&self, nanos: u64) {
        if let Some(count) = self.counts.get(bucket_of(nanos)) {
            count.fetch_add(1, Ordering::SeqCst);
            self.nanos.fetch_add(nanos, Ordering::SeqCst);
        }
    }

    /// What was counted so far. Each number is read at its own moment.
    pub fn snapshot(&self, alloc: Global) -> Result<TimesSnapshot, AllocError> {
        let nanos = self.nanos.load(Ordering::SeqCst);
        let mut counts = Vec::with_capacity(alloc, self.counts.len())?;
        for count in &self.counts {
            counts.push(count.load(Ordering::SeqCst))?;
        }
        Ok(TimesSnapshot { counts, nanos })
    }
}
