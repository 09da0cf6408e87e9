//! Why a line is not obeyed.
use dia_codec::LineFault;
use std::alloc::{AllocError, AllocFailed};
use thiserror::Error;

/// Why a line is refused: it fits no form, or not at its place.
#[derive(Clone, Copy, Debug, PartialEq, Eq, Error)]
pub enum BadLine {
    /// It is read no further than to the greatest length of a line.
    #[error("it is longer than a line may be")]
    TooLong,
    /// Its bytes are no UTF-8.
    #[error("it is no text")]
    NoText,
    /// Its first word begins no line.
    #[error("its first word is unknown")]
    UnknownWord,
    /// It ends too early.
    #[error("a word is missing")]
    MissingWord,
    /// It goes on where it should end.
    #[error("it has a word too many")]
    ExtraWord,
    /// A word that should be a number has other bytes than digits, or a leading zero.
    #[error("a word is no decimal number")]
    NoNumber,
    /// A word that should be bytes is no pairs of hexadecimal digits.
    #[error("a word is no bytes in hexadecimal")]
    NoBytes,
    /// A word that should be a Session-Id isn't spelled as one is printed, or is longer than one may be.
    #[error("a word is no Session-Id")]
    NoSessionId,
    /// No world has so many sites.
    #[error("a world has 1 to 16 sites")]
    SiteCount,
    /// It is about a world, and none was started.
    #[error("there is no world yet")]
    NoWorld,
    /// It starts a world where one stands.
    #[error("the world stands already")]
    SecondWorld,
}

/// Why a line is not obeyed, with the reason where the line is at fault.
#[derive(Clone, Copy, Debug, PartialEq, Eq)]
pub enum Unobeyed {
    /// It is refused.
    Bad(BadLine),
    /// Memory ran out.
    NoMemory,
}

impl Unobeyed {
    /// The reason, if the line is at fault.
    pub(crate) fn reason(self) -> Option<BadLine> {
        match self {
            Unobeyed::Bad(reason) => Some(reason),
            Unobeyed::NoMemory => None,
        }
    }
}

impl From<AllocError> for Unobeyed {
    fn from(_refused: AllocError) -> Unobeyed {
        Unobeyed::NoMemory
    }
}

impl<T: Drop> From<AllocFailed<T>> for Unobeyed {
    fn from(_refused: AllocFailed<T>) -> Unobeyed {
        Unobeyed::NoMemory
    }
}

impl From<Unobeyed> for LineFault {
    fn from(fault: Unobeyed) -> LineFault {
        match fault {
            Unobeyed::Bad(_) => LineFault::Bad,
            Unobeyed::NoMemory => LineFault::NoMemory,
        }
    }
}
