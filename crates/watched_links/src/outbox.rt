//! Bytes that wait to be written to one connection, in order: whoever has some leaves them there, and one writer takes them.
ghost use Rattle.std.specs.Prelude.{◌≡◌, ◌↔◌, ◌<◌, ◌+◌, ◌-◌, ◌^◌, ◌++◌, [], min, vec_len, OnOk, OnErr};
ghost use Rattle.std.specs.Result.{IsErrOf};
ghost use Rattle.watched_links.specs.declared.outbox.PutFault.TheVariants.{Full};

use std::alloc::{AllocError, Global};
use std::mem::replace;

/// Why bytes are not left.
#[derive(Clone, Copy, Debug, PartialEq, Eq)]
pub enum PutFault {
    /// More than may wait are there.
    Full,
    /// Memory ran out.
    NoMemory,
}

impl From<AllocError> for PutFault {
    ghost use Rattle.std.specs.Prelude.{◌≡◌};
    ghost use Rattle.watched_links.specs.declared.outbox.PutFault.TheVariants as faults;

    ghost from_gives = { λ _ fault. fault ≡ faults.NoMemory };

    fn from(_refused: AllocError) -> PutFault {
        PutFault::NoMemory
    }
}

/// Bytes that wait to be written, in the order in which they were left, and how many were taken that aren't written yet.
#[derive(Drop)]
pub struct Outbox {
    waiting: Vec<u8>,
    taken: usize,
    most: usize,
    ghost bounded: { most < 2 ^ 32 },
}

impl Outbox {
    /// Nothing waits. Further bytes may be left while no more than so many wait or are being written.
    pub fn with_room(alloc: Global, most: u32) -> Outbox
        ensures waiting { result.waiting.items ≡ [] }
        ensures taken { result.taken ≡ 0 }
        ensures most { result.most ≡ most }
    {
        Outbox {
            waiting: Vec::new(alloc),
            taken: 0,
            most: most as usize,
        }
    }

    /// How many bytes wait or are being written, 2^64 - 1 where there are more.
    pub fn len(&self) -> usize
        ensures { result ≡ min (vec_len self.now.waiting + self.now.taken) (2 ^ 64 - 1) }
    {
        self.waiting.len().saturating_add(self.taken)
    }

    /// Whether all that was left is written.
    pub fn is_empty(&self) -> bool {
        self.len() == 0
    }

    /// Leaves bytes behind those that wait.
    pub fn put(&mut self, bytes: &[u8]) -> Result<(), PutFault>
        ensures left { OnOk result (self.new.waiting.items ≡ self.old.waiting.items ++ bytes.now) }
        ensures full { IsErrOf result Full
            ↔ (self.old.most < vec_len self.old.waiting + self.old.taken) }
        ensures unchanged { OnErr result (self.new.waiting.items ≡ self.old.waiting.items) }
        ensures taken { self.new.taken ≡ self.old.taken }
        ensures most { self.new.most ≡ self.old.most }
    {
        if self.len() > self.most {
            return Err(PutFault::Full);
        }
        self.waiting.extend_from_slice(bytes)?;
        Ok(())
    }

    /// Takes all that waits, to write it. It counts until it is written.
    pub fn take(&mut self, alloc: Global) -> Vec<u8>
        ensures all { result.items ≡ self.old.waiting.items }
        ensures none { self.new.waiting.items ≡ [] }
        ensures taken { self.new.taken ≡ vec_len self.old.waiting }
        ensures most { self.new.most ≡ self.old.most }
    {
        self.taken = self.waiting.len();
        replace(&mut self.waiting, Vec::new(alloc))
    }

    /// What was taken last is written.
    pub fn clear_taken(&mut self)
        ensures none { self.new.taken ≡ 0 }
        ensures waiting { self.new.waiting.items ≡ self.old.waiting.items }
        ensures most { self.new.most ≡ self.old.most }
    {
        self.taken = 0;
    }
}
