//! Why bytes are not read, and why facts are not written.
ghost use Rattle.std.specs.Prelude.{◌≡◌};
ghost use Rattle.fact_codec.specs.declared.fault.Unread.TheVariants as unread;
ghost use Rattle.fact_codec.specs.declared.fault.Unwritten.TheVariants as unwritten;

use std::alloc::{AllocError, AllocFailed};

/// Why bytes are not read.
#[derive(Clone, Copy, Debug, PartialEq, Eq)]
pub enum Unread {
    /// They are no spelling of what is to be read, cut off ones too.
    BadShape,
    NoMemory,
}

impl From<AllocError> for Unread {
    ghost from_gives = { λ _ e. e ≡ unread.NoMemory };

    fn from(_error: AllocError) -> Unread {
        Unread::NoMemory
    }
}

impl<T: Drop> From<AllocFailed<T>> for Unread {
    ghost from_gives = { λ _ e. e ≡ unread.NoMemory };

    fn from(_error: AllocFailed<T>) -> Unread {
        Unread::NoMemory
    }
}

/// Why facts are not written.
#[derive(Clone, Copy, Debug, PartialEq, Eq)]
pub enum Unwritten {
    /// They are more than a letter counts.
    TooLong,
    NoMemory,
}

impl From<AllocError> for Unwritten {
    ghost from_gives = { λ _ e. e ≡ unwritten.NoMemory };

    fn from(_error: AllocError) -> Unwritten {
        Unwritten::NoMemory
    }
}

impl<T: Drop> From<AllocFailed<T>> for Unwritten {
    ghost from_gives = { λ _ e. e ≡ unwritten.NoMemory };

    fn from(_error: AllocFailed<T>) -> Unwritten {
        Unwritten::NoMemory
    }
}
