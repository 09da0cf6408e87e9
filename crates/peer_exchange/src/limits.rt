//! Sizes of letters and of their frames: this project's own profile, as the code has it. The definitions have the same as numbers of
//! their own (`specs/Limits.antt`).
ghost use Rattle.peer_exchange.specs.Limits.{length_bytes, letter_version, longest_letter};
ghost use Rattle.std.specs.Prelude.{◌≡◌};

use fact_codec::LETTER_VERSION;

/// The bytes before a letter, which say how many it has.
pub(crate) const LENGTH_BYTES: usize = 4;

/// The most bytes of a letter.
pub(crate) const MOST_BYTES: u32 = 1 << 30;

/// Each size of the code, and the version of letters that is written, is the profile's number.
pub fn limits_are_the_profiles()
    ensures length { LENGTH_BYTES ≡ length_bytes }
    ensures letter { MOST_BYTES ≡ longest_letter }
    ensures version { LETTER_VERSION ≡ letter_version }
{}
