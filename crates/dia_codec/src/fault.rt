//! Why a message or a frame could not be read or written.

ghost use Rattle.std.specs.Prelude.{◌≡◌};
ghost use Rattle.dia_codec.specs.declared.fault.MsgFault.TheVariants as msg;
ghost use Rattle.dia_codec.specs.declared.fault.FrameFault.TheVariants as frame;
ghost use Rattle.dia_codec.specs.declared.fault.WriteFault.TheVariants as write;

use std::alloc::{AllocError, AllocFailed};
use thiserror::Error;

/// Why bytes are not read as a message or a group. Where several apply it is the first of them.
#[derive(Clone, Copy, Debug, PartialEq, Eq, Error)]
pub enum MsgFault {
    /// Not 20 to 65,532 bytes, not a multiple of four, or not as many as the length field says.
    #[error("the bytes are not one whole message")]
    NotWhole,
    #[error("the version is not 1")]
    BadVersion,
    /// The R and the E bit together, which RFC 6733, section 3, forbids.
    #[error("a request has the error flag")]
    BadFlags,
    #[error("an AVP length is below its header's or past the end")]
    BadAvpLength,
    #[error("no memory")]
    NoMemory,
}

/// Why a message is not written.
#[derive(Clone, Copy, Debug, PartialEq, Eq, Error)]
pub enum WriteFault {
    #[error("the message is longer than 65532 bytes")]
    TooLong,
    #[error("no memory")]
    NoMemory,
}

/// Why a stream gives no further frame.
#[derive(Clone, Copy, Debug, PartialEq, Eq, Error)]
pub enum FrameFault {
    /// A length below the header's 20 bytes.
    #[error("the message length is below 20")]
    ShortLength,
    #[error("the message length is not a multiple of 4")]
    OddLength,
    #[error("the message length is above 65532")]
    TooLong,
    #[error("no memory")]
    NoMemory,
}

impl From<AllocError> for MsgFault {
    ghost from_gives = { λ _ e. e ≡ msg.NoMemory };

    fn from(_error: AllocError) -> MsgFault {
        MsgFault::NoMemory
    }
}

impl<T: Drop> From<AllocFailed<T>> for MsgFault {
    ghost from_gives = { λ _ e. e ≡ msg.NoMemory };

    fn from(_error: AllocFailed<T>) -> MsgFault {
        MsgFault::NoMemory
    }
}

impl From<AllocError> for WriteFault {
    ghost from_gives = { λ _ e. e ≡ write.NoMemory };

    fn from(_error: AllocError) -> WriteFault {
        WriteFault::NoMemory
    }
}

impl From<AllocError> for FrameFault {
    ghost from_gives = { λ _ e. e ≡ frame.NoMemory };

    fn from(_error: AllocError) -> FrameFault {
        FrameFault::NoMemory
    }
}
