//! Messages in the order in which they came, each found by its key.
ghost use Rattle.std.specs.Prelude.{◌≡◌, ◌≤◌, ◌<◌, ◌↔◌, ◌+◌, ◌-◌, ◌^◌, ◌∷◌, ◌++◌, [], take, OnOk, OnErr, IsSome, MatchOption};
ghost use Rattle.std.specs.VecDeque.{deque_len};
ghost use Rattle.std.specs.HashMap.{get};
ghost use Rattle.std.specs.Option.{option_copied, option_to_list};
ghost use Rattle.watched_links.specs.Keys.{same_key};
ghost use Rattle.watched_links.specs.Kept.{newest_at, newest_of};
ghost use Rattle.watched_links.specs.declared.message.MessageKey.{MessageKey as Key};

use crate::message::{MessageKey, RecentMessage};
use pcrf_values::HashSeed;
use std::alloc::{AllocError, Global};
use std::collections::{HashMap, VecDeque};

/// Messages, the newest first. Places are counted down, so that the place of each stays the same when others come and go.
#[derive(Drop)]
pub(crate) struct Shelf {
    pub(crate) kept: VecDeque<RecentMessage>,
    /// The place of the newest of each key.
    pub(crate) newest: HashMap<MessageKey, u64, HashSeed>,
    /// The place of the newest.
    pub(crate) first: u64,
    ghost found: { (key : Key) → get same_key newest key ≡ newest_at first key kept.items },
    ghost placed: { first + deque_len kept ≤ 2 ^ 64 - 1 },
}

impl Shelf {
    /// No message. Hashes begin with this seed.
    pub(crate) fn seeded(alloc: Global, seed: HashSeed) -> Shelf
        ensures { result.kept.items ≡ [] }
    {
        Shelf {
            kept: VecDeque::new(alloc),
            newest: HashMap::with_hasher(alloc, seed),
            first: u64::MAX,
        }
    }

    /// Puts a message before the others; a refusal changes nothing.
    pub(crate) fn put(&mut self, message: RecentMessage) -> Result<(), AllocError>
        ensures put { OnOk result (self.new.kept.items ≡ message ∷ self.old.kept.items) }
        ensures unchanged { OnErr result (self.new.kept.items ≡ self.old.kept.items) }
    {
        if self.first == 0 {
            // 2^64 messages were kept.
            return Err(AllocError);
        }
        let key = message.key.try_copy()?;
        let place = self.first - 1;
        self.kept.push_front(message)?;
        if let Err(_) = self.newest.insert(key, place) {
            self.kept.pop_front();
            return Err(AllocError);
        }
        self.first = place;
        Ok(())
    }

    /// Takes the oldest out.
    pub(crate) fn take_oldest(&mut self) -> Option<RecentMessage>
        ensures items { self.old.kept.items ≡ self.new.kept.items ++ option_to_list result }

        // The same, by the result's case and by index.
        ensures cases { MatchOption result
            ((deque_len self.old.kept ≡ 0) × (deque_len self.new.kept ≡ 0))
            (λ _. deque_len self.new.kept + 1 ≡ deque_len self.old.kept) }
        ensures variant { IsSome result ↔ (0 < deque_len self.old.kept) }
        ensures rest { self.new.kept.items
            ≡ take (deque_len self.old.kept - 1) self.old.kept.items }
    {
        let Some(oldest) = self.kept.pop_back() else {
            return None;
        };
        let place = self.first + self.kept.len() as u64;
        if let Some(newest) = self.newest.get(&oldest.key) {
            if *newest == place {
                self.newest.remove(&oldest.key);
            }
        }
        Some(oldest)
    }

    /// The newest message of a key.
    pub(crate) fn newest(&self, key: &MessageKey) -> Option<&RecentMessage>
        ensures { option_copied result ≡ newest_of key.now self.now.kept.items }
    {
        let Some(place) = self.newest.get(key) else {
            return None;
        };
        match self.kept.get((*place - self.first) as usize) {
            Some(message) => Some(message),
            None => None,
        }
    }
}
