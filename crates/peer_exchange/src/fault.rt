//! Why a stream of letters gives no further frame, and why a letter is not read or written.
ghost use Rattle.std.specs.Prelude.{◌≡◌};
ghost use Rattle.fact_codec.specs.declared.fault.Unread.TheVariants as unread;
ghost use Rattle.fact_codec.specs.declared.fault.Unwritten.TheVariants as unwritten;
ghost use Rattle.peer_exchange.specs.declared.fault.FrameFault.TheVariants as frame;
ghost use Rattle.peer_exchange.specs.declared.fault.LetterFault.TheVariants as letter;

use fact_codec::{Unread, Unwritten};
use std::alloc::AllocError;
use thiserror::Error;

/// Why a stream of letters gives no further frame.
#[derive(Clone, Copy, Debug, PartialEq, Eq, Error)]
pub enum FrameFault {
    /// A letter of more than 2^30 bytes. Nothing after it is read.
    #[error("the letter is longer than 1073741824 bytes")]
    TooLong,
    #[error("no memory")]
    NoMemory,
}

/// Why bytes are not read as a letter, or a letter is not written. Of the first three, where several apply, it is the
/// first.
#[derive(Clone, Copy, Debug, PartialEq, Eq, Error)]
pub enum LetterFault {
    #[error("the letter's version is not 1, 2 or 3")]
    BadVersion,
    /// The sender has operator tables of another edition.
    #[error("the letter is of another edition of the operator tables")]
    BadEdition,
    /// The bytes are no spelling of a letter, cut off ones too.
    #[error("the bytes are no letter")]
    BadShape,
    /// More than 2^30 bytes would be written.
    #[error("the letter is longer than 1073741824 bytes")]
    TooLong,
    #[error("no memory")]
    NoMemory,
}

impl From<AllocError> for FrameFault {
    ghost from_gives = { λ _ e. e ≡ frame.NoMemory };

    fn from(_error: AllocError) -> FrameFault {
        FrameFault::NoMemory
    }
}

impl From<AllocError> for LetterFault {
    ghost from_gives = { λ _ e. e ≡ letter.NoMemory };

    fn from(_error: AllocError) -> LetterFault {
        LetterFault::NoMemory
    }
}

impl From<Unread> for LetterFault {
    ghost use Rattle.peer_exchange.specs.Faults.{of_reading};

    ghost from_gives = { λ unread e. e ≡ of_reading unread };

    fn from(fault: Unread) -> LetterFault {
        match fault {
            Unread::BadShape => LetterFault::BadShape,
            Unread::NoMemory => LetterFault::NoMemory,
        }
    }
}

impl From<Unwritten> for LetterFault {
    ghost use Rattle.peer_exchange.specs.Faults.{of_writing};

    ghost from_gives = { λ unwritten e. e ≡ of_writing unwritten };

    fn from(fault: Unwritten) -> LetterFault {
        match fault {
            Unwritten::TooLong => LetterFault::TooLong,
            Unwritten::NoMemory => LetterFault::NoMemory,
        }
    }
}
