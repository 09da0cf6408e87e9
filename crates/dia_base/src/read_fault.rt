//! Why a message could not be read.
ghost use Rattle.std.specs.Prelude.{◌≡◌};
ghost use Rattle.dia_base.specs.declared.read_fault.ReadFault.TheVariants as faults;

use pcrf_values::Refusal;
use std::alloc::{AllocError, AllocFailed};
use thiserror::Error;

/// Why a message could not be read.
#[derive(Clone, Copy, Debug, PartialEq, Eq, Error)]
pub enum ReadFault {
    /// A request is answered by this refusal. An answer that has such a fault is passed over.
    #[error("the request is refused with {0}")]
    Refused(Refusal),
    /// Memory ran out; nothing is known of the message.
    #[error("no memory")]
    NoMemory,
}

impl From<Refusal> for ReadFault {
    ghost from_gives = { λ refusal fault. fault ≡ faults.Refused refusal };

    fn from(refusal: Refusal) -> ReadFault {
        ReadFault::Refused(refusal)
    }
}

impl From<AllocError> for ReadFault {
    ghost from_gives = { λ _ fault. fault ≡ faults.NoMemory };

    fn from(_refused: AllocError) -> ReadFault {
        ReadFault::NoMemory
    }
}

impl<T: Drop> From<AllocFailed<T>> for ReadFault {
    ghost from_gives = { λ _ fault. fault ≡ faults.NoMemory };

    fn from(_refused: AllocFailed<T>) -> ReadFault {
        ReadFault::NoMemory
    }
}
