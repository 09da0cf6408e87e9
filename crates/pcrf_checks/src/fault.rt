//! Why something isn't done.
use op_tables::TableFault;
use pcrf_world::{BadLine, Unobeyed};
use std::alloc::{AllocError, AllocFailed};
use std::io;
use thiserror::Error;

/// Why a measure isn't taken.
#[derive(Clone, Copy, Debug, PartialEq, Eq, Error)]
pub enum Unmeasured {
    #[error("a seat is missing")]
    NoSeat,
    #[error("a call failed")]
    CallFailed,
    #[error("a letter hasn't two operations")]
    NoPair,
    #[error("two operations are of two kinds")]
    TwoKinds,
    #[error("a step failed")]
    StepFailed,
    #[error("a call is missing")]
    NoCall,
    #[error("1 to 64 threads")]
    ThreadCount,
    #[error("there is no such kind of site")]
    NoSuchSite,
    #[error("a letter is missing")]
    NoLetter,
    #[error("there is no such verb")]
    NoSuchVerb,
    #[error("a letter is not carried")]
    NotCarried,
    #[error("a letter has no operations")]
    NoOperations,
    #[error("a letter is not addressed")]
    NotAddressed,
    #[error("a stream is not answered to its end")]
    StreamLeft,
    #[error("a message has no header")]
    NoHeader,
    #[error("a request is refused")]
    RequestRefused,
    #[error("a message is no request")]
    NoRequest,
    #[error("a subscriber is too long")]
    SubscriberTooLong,
    #[error("the index isn't whole")]
    IndexNotWhole,
    #[error("something is due")]
    SomethingDue,
    #[error("nothing is due")]
    NothingDue,
    #[error("a push failed")]
    PushFailed,
    #[error("a word is missing")]
    NoWord,
    #[error("a number is missing")]
    NoNumber,
    #[error("one of two words is missing")]
    NeitherWord,
    #[error("a name is no access point name")]
    NoApn,
    #[error("an access point is missing")]
    NoAccessPoint,
}

/// Why something isn't done.
#[derive(Clone, Copy, Debug, PartialEq, Eq, Error)]
pub enum Fault {
    #[error("no memory")]
    NoMemory,
    #[error("{0}")]
    Input(io::ErrorKind),
    #[error("{0}")]
    Tables(#[from] TableFault),
    /// A line of a script would be refused so.
    #[error("{0}")]
    Line(BadLine),
    #[error("there is no such check, or it takes no lines")]
    NoCheck,
    #[error("a word is no value")]
    NoValue,
    /// A line that is refused ends it, or it doesn't print text.
    #[error("a script doesn't end well")]
    NoEnd,
    /// What a measure is to do isn't done.
    #[error("{0}")]
    Unmeasured(Unmeasured),
}

impl From<io::Error> for Fault {
    fn from(fault: io::Error) -> Fault {
        Fault::Input(fault.kind())
    }
}

impl From<AllocError> for Fault {
    fn from(_refused: AllocError) -> Fault {
        Fault::NoMemory
    }
}

impl<T: Drop> From<AllocFailed<T>> for Fault {
    fn from(_refused: AllocFailed<T>) -> Fault {
        Fault::NoMemory
    }
}

impl From<Unobeyed> for Fault {
    fn from(fault: Unobeyed) -> Fault {
        match fault {
            Unobeyed::Bad(reason) => Fault::Line(reason),
            Unobeyed::NoMemory => Fault::NoMemory,
        }
    }
}
