//! The versions of letters, and what each has.
ghost use Rattle.std.specs.Prelude.{◌≡◌, nat_le};
ghost use Rattle.fact_codec.specs.Said.{first_with_aborts, first_with_prefixes};

use pcrf_values::BoundedNumber;

/// The version of letters that is written, and the last of those that are read.
pub const LETTER_VERSION: u8 = 3;

/// The version of a letter.
pub type LetterVersion = BoundedNumber<1, 3>;

/// The first version that has prefixes of sessions.
const FIRST_WITH_PREFIXES: u32 = 2;

/// The first that has aborts.
const FIRST_WITH_ABORTS: u32 = 3;

/// Letters of the version have prefixes of sessions.
pub(crate) fn has_prefixes(version: LetterVersion) -> bool
    ensures { result ≡ nat_le first_with_prefixes version }
{
    FIRST_WITH_PREFIXES <= version.get()
}

/// Letters of the version have aborts.
pub(crate) fn has_aborts(version: LetterVersion) -> bool
    ensures { result ≡ nat_le first_with_aborts version }
{
    FIRST_WITH_ABORTS <= version.get()
}
