//! What threads count side by side by codes that aren't known beforehand.
use std::alloc::{AllocError, Global};
use std::sync::atomic::{AtomicU64, Ordering};

/// How many codes are told apart. Further ones are counted together.
pub const CODE_LIMIT: usize = 32;

/// What says that a place is nobody's.
const NOBODY: u64 = 0;

/// The place of a code.
#[derive(Drop)]
struct Slot {
    /// One more than the code, once it has one.
    owner: AtomicU64,
    count: AtomicU64,
}

impl Slot {
    /// Nobody's.
    fn start() -> Slot {
        Slot {
            owner: AtomicU64::new(NOBODY),
            count: AtomicU64::new(0),
        }
    }

    /// Whether it is the place of that code, which it becomes if it is nobody's.
    fn is_for(&self, code: u32) -> bool {
        let owner = u64::from(code).saturating_add(1);
        let found = self.owner.load(Ordering::SeqCst);
        if found != NOBODY {
            return found == owner;
        }
        match self
            .owner
            .compare_exchange(NOBODY, owner, Ordering::SeqCst, Ordering::SeqCst)
        {
            Ok(_) => true,
            Err(other) => other == owner,
        }
    }
}

/// How often each code was met. Threads add to it side by side, and wait for nobody.
#[derive(Drop)]
pub struct CodeCounts {
    slots: Vec<Slot>,
    others: AtomicU64,
}

impl CodeCounts {
    /// None was met.
    pub fn start(alloc: Global) -> Result<CodeCounts, AllocError> {
        let mut slots = Vec::with_capacity(alloc, CODE_LIMIT)?;
        for _ in 0..CODE_LIMIT {
            slots.push(Slot::start())?;
        }
        Ok(CodeCounts {
            slots,
            others: AtomicU64::new(0),
        })
    }

    /// A code was met. It is counted apart if it is one of the first `CODE_LIMIT` that were.
    pub fn add(&self, code: u32) {
        for slot in &self.slots {
            if slot.is_for(code) {
                slot.count.fetch_add(1, Ordering::SeqCst);
                return;
            }
        }
        self.others.fetch_add(1, Ordering::SeqCst);
    }

    /// The code that was met for the first time behind so many others, and how often; none where there were no more.
    pub fn at(&self, place: usize) -> Option<(u32, u64)> {
        let slot = self.slots.get(place)?;
        let code = slot.owner.load(Ordering::SeqCst).checked_sub(1)?;
        let code = u32::try_from(code).ok()?;
        Some((code, slot.count.load(Ordering::SeqCst)))
    }

    /// How often codes were met that aren't counted apart.
    pub fn others(&self) -> u64 {
        self.others.load(Ordering::SeqCst)
    }
}
