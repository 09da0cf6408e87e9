//! Messages that are kept for a while, each under a key: answers for requests that are repeated, and requests until they are answered.
//! They have so much room, and the oldest goes out first.
ghost use Rattle.std.specs.Prelude.{◌≡◌, ◌≤◌, ◌∷◌, [], OnOk, OnErr};
ghost use Rattle.std.specs.Option.{option_copied};
ghost use Rattle.watched_links.specs.Kept.{IsShed, found_of, total_of};
ghost use Rattle.watched_links.specs.Limits.{most_room};

use crate::message::{MessageKey, RecentMessage};
use crate::shelf::Shelf;
use pcrf_values::HashSeed;
use std::alloc::{AllocError, Global};

/// Messages that are kept, the newest first.
#[derive(Drop)]
pub struct RecentMessages {
    shelf: Shelf,
    /// How many bytes they take.
    total: usize,
    /// How many they may take.
    room: usize,
    ghost counted: { total ≡ total_of shelf.kept.items },
    ghost within: { total ≤ room },
    ghost roomy: { room ≤ most_room },
}

/// Takes the oldest messages out, of all that take so many bytes, until the others have room, and answers how many bytes these take.
fn shed(shelf: &mut Shelf, held: usize, room: usize) -> usize
    requires { held ≡ total_of shelf.old.kept.items }
    ensures total { result ≡ total_of shelf.new.kept.items }
    ensures shed { IsShed room shelf.old.kept.items shelf.new.kept.items }
{
    let mut total = held;
    while total > room {
        let Some(oldest) = shelf.take_oldest() else {
            unreachable!();
        };
        total -= oldest.size();
    }
    total
}

impl RecentMessages {
    /// None yet, with so much room. Hashes of keys begin with this seed.
    pub fn with_room(alloc: Global, room: u32, seed: HashSeed) -> RecentMessages
        ensures none { result.shelf.kept.items ≡ [] }
        ensures room { result.room ≡ room }
    {
        RecentMessages {
            shelf: Shelf::seeded(alloc, seed),
            total: 0,
            room: room as usize,
        }
    }

    /// Keeps a message. The oldest go out for which there is no room then; the message too, where it takes more than all may.
    pub fn keep(&mut self, message: RecentMessage) -> Result<(), AllocError>
        ensures kept { OnOk result (IsShed self.old.room
            (message ∷ self.old.shelf.kept.items) self.new.shelf.kept.items) }
        ensures unchanged { OnErr result
            (self.new.shelf.kept.items ≡ self.old.shelf.kept.items) }
        ensures room { self.new.room ≡ self.old.room }
    {
        let size = message.size();
        self.shelf.put(message)?;
        self.total = shed(&mut self.shelf, self.total + size, self.room);
        Ok(())
    }

    /// The newest message of that key, if it is kept from a time behind that one. It is found by the key's hash, however many are kept.
    pub fn find(&self, key: &MessageKey, behind: u64) -> Option<&[u8]>
        ensures { option_copied result ≡ found_of key.now behind self.now.shelf.kept.items }
    {
        let Some(message) = self.shelf.newest(key) else {
            return None;
        };
        if message.at > behind {
            Some(message.bytes())
        } else {
            None
        }
    }
}
