//! What threads count side by side.
use std::sync::atomic::{AtomicU64, Ordering};

/// How often something happened. Threads add to it side by side, and wait for nobody. It only grows, from 0.
#[derive(Drop)]
pub struct Counter {
    value: AtomicU64,
}

impl Counter {
    /// It never happened.
    pub fn start() -> Counter {
        Counter {
            value: AtomicU64::new(0),
        }
    }

    /// It happened once more.
    pub fn add(&self) {
        self.value.fetch_add(1, Ordering::SeqCst);
    }

    /// It happened so many times more.
    pub fn add_many(&self, times: u64) {
        self.value.fetch_add(times, Ordering::SeqCst);
    }

    /// How often it happened.
    pub fn get(&self) -> u64 {
        self.value.load(Ordering::SeqCst)
    }
}

/// How much of something there is. Threads say it side by side, and wait for nobody: what was said last counts.
#[derive(Drop)]
pub struct Gauge {
    value: AtomicU64,
}

impl Gauge {
    /// There is nothing.
    pub fn start() -> Gauge {
        Gauge {
            value: AtomicU64::new(0),
        }
    }

    /// There is so much.
    pub fn put(&self, value: u64) {
        self.value.store(value, Ordering::SeqCst);
    }

    /// How much there is.
    pub fn get(&self) -> u64 {
        self.value.load(Ordering::SeqCst)
    }
}
