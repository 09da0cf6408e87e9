//! How values that peers choose are found by a hash.
ghost use Rattle.std.specs.Hash as fed;
ghost use Rattle.std.specs.Hash.DefaultHasher as sip;
ghost use Rattle.std.specs.List.{fold};
ghost use Rattle.std.specs.Prelude.{◌≡◌};

use std::hash::{BuildHasher, DefaultHasher, Hasher};

/// What each hash of a site begins with (SipHash-1-3). A peer that doesn't know it can't choose Session-Ids that all have one hash.
#[derive(Clone, Copy)]
pub struct HashSeed {
    begun: DefaultHasher,
}

impl HashSeed {
    /// The one that begins with this number, with all of its sixteen bytes. A site that peers talk to draws it at random.
    pub fn of(number: u128) -> HashSeed
        ensures begins { result.begun ≡ fold sip.write sip.initial (fed.u128 number) }
    {
        let mut begun = DefaultHasher::new();
        begun.write_u128(number);
        HashSeed { begun }
    }
}

impl BuildHasher for HashSeed {
    type Hasher = DefaultHasher;

    ghost build_hasher = { λ s. s.begun };

    fn build_hasher(&self) -> DefaultHasher {
        self.begun
    }
}
