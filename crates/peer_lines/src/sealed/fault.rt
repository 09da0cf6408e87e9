//! Why a sealed link ends.
ghost use Rattle.std.specs.Prelude.{◌≡◌};
ghost use Rattle.peer_lines.specs.declared.sealed.fault.SealFault.TheVariants as faults;

use std::alloc::AllocError;
use std::io::{self, ErrorKind};
use thiserror::Error;

/// Why a sealed link ends. Each is for good: nothing more is read or written then.
#[derive(Clone, Copy, Debug, PartialEq, Eq, Error)]
pub enum SealFault {
    /// What came first is no greeting of a sealed link.
    #[error("what came first is no greeting of a sealed link")]
    NoGreeting,
    /// The other end says that it is the site which this one is.
    #[error("the other end has the number of this site")]
    OwnNumber,
    /// The other end's proof isn't one under this secret.
    #[error("the other end has another secret")]
    WrongProof,
    /// A record's length is 0, or more than a record has.
    #[error("a record has a length that none has")]
    BadLength,
    /// A record's code isn't the one of its bytes at its position.
    #[error("a record's code is wrong")]
    WrongCode,
    /// Each position has had its record.
    #[error("there were as many records as there may be")]
    Spent,
    /// The input ended within a greeting, a proof or a record.
    #[error("it ended within a greeting, a proof or a record")]
    Cut,
    /// The reader failed.
    #[error("it can't be read")]
    ReadFailed,
    /// The writer failed.
    #[error("it can't be written")]
    WriteFailed,
    /// Memory ran out.
    #[error("memory ran out")]
    NoMemory,
}

impl From<AllocError> for SealFault {
    ghost from_gives = { λ _ e. e ≡ faults.NoMemory };

    fn from(_refused: AllocError) -> SealFault {
        SealFault::NoMemory
    }
}

impl From<SealFault> for io::Error {
    /// What a reader or a writer answers.
    fn from(fault: SealFault) -> io::Error {
        io::Error::from(match fault {
            SealFault::Cut => ErrorKind::UnexpectedEof,
            SealFault::NoMemory => ErrorKind::OutOfMemory,
            SealFault::ReadFailed | SealFault::WriteFailed => ErrorKind::Other,
            _ => ErrorKind::InvalidData,
        })
    }
}
