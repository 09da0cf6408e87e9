//! Why operator tables could not be read, and where.
ghost use Rattle.std.specs.Prelude.{◌≡◌};
ghost use Rattle.op_tables.specs.Placing.{unplaced, fault_at, within};
ghost use Rattle.op_tables.specs.declared.fault.TableFault.TheVariants.{NoMemory};

use crate::place::{Place, Step, TableKey};
use std::alloc::{AllocError, AllocFailed};
use std::error::Error;
use std::fmt::{self, Display, Formatter, Write};

/// Why a text is no operator tables: the first fault, in the order of the keys.
#[derive(Clone, Copy, Debug, PartialEq, Eq, thiserror::Error)]
pub enum TableFault {
    /// The text is no TOML document.
    #[error("syntax")]
    Syntax,
    /// A key that has to stand is absent.
    #[error("missing key")]
    MissingKey,
    /// A value is of another kind, or out of its range.
    #[error("bad value")]
    BadValue,
    /// A row has the name, or the type, of a row above it in the same array.
    #[error("duplicate row")]
    DuplicateRow,
    /// Memory ran out; nothing is known of the text.
    #[error("no memory")]
    NoMemory,
}

/// The first fault with its place. Of want of memory the place is where it was met.
#[derive(Clone, Copy, Debug, PartialEq, Eq)]
pub struct PlacedFault {
    /// The fault.
    pub fault: TableFault,
    /// Its place: a key's, also one that is absent, or that of a row that is no table. A row that stands twice is at fault at
    /// the key that it shares, in the lower of both. Faults of syntax have no place, which is that of the whole document.
    pub place: Place,
}

impl PlacedFault {
    /// A fault of all that is looked at.
    pub(crate) fn unplaced(fault: TableFault) -> PlacedFault
        ensures { result ≡ unplaced fault }
    {
        let place = Place {
            outer: None,
            middle: None,
            inner: None,
        };
        PlacedFault { fault, place }
    }

    /// A fault of what stands at a key, or should stand there.
    pub(crate) fn at(key: TableKey, fault: TableFault) -> PlacedFault
        ensures { result ≡ fault_at key fault }
    {
        PlacedFault::unplaced(fault).within(Step::key(key))
    }

    /// The fault, seen from one step further out.
    pub(crate) fn within(self, step: Step) -> PlacedFault
        ensures { result ≡ within step self }
    {
        let place = Place {
            outer: Some(step),
            middle: self.place.outer,
            inner: self.place.middle,
        };
        PlacedFault {
            fault: self.fault,
            place,
        }
    }
}

impl Display for PlacedFault {
    /// The fault, and where it stands: `bad value at apn 2, rule 1, qci`.
    fn fmt<W: Write>(&self, f: &mut Formatter<W>) -> fmt::Result {
        if self.place.is_whole() {
            return write!(f, "{}", self.fault);
        }
        write!(f, "{} at {}", self.fault, self.place)
    }
}

impl Error for PlacedFault {}

impl From<AllocError> for PlacedFault {
    ghost from_gives = { λ _ f. f ≡ unplaced NoMemory };

    fn from(_refused: AllocError) -> PlacedFault {
        PlacedFault::unplaced(TableFault::NoMemory)
    }
}

impl<T: Drop> From<AllocFailed<T>> for PlacedFault {
    ghost from_gives = { λ _ f. f ≡ unplaced NoMemory };

    fn from(_refused: AllocFailed<T>) -> PlacedFault {
        PlacedFault::unplaced(TableFault::NoMemory)
    }
}
