//! Values that can end for good.
use crate::join::Join;
use std::alloc::AllocError;

/// A live value, or the end, which is above every value.
#[derive(Drop)]
pub enum Tombed<T> {
    /// The value so far.
    Live(T),
    /// The end, which no later fact revives.
    Ended,
}

impl<T: Join> Join for Tombed<T> {
    ghost use Rattle.lattice_core.specs.Tombs.{tombed_joined, tombed_valid};
    ghost use Rattle.lattice_core.specs.laws.Tombs.{tombed_comm, tombed_assoc, tombed_idem, tombed_closed};

    ghost joined = { tombed_joined T.joined };

    ghost valid = { tombed_valid T.valid };

    ghost commutative = { tombed_comm T.joined T.commutative };

    ghost associative = { tombed_assoc T.joined T.associative };

    ghost idempotent = { tombed_idem T.joined T.valid T.idempotent };

    ghost closed = { tombed_closed T.joined T.valid T.closed };

    fn joined_copy(&self, other: &Tombed<T>) -> Result<Tombed<T>, AllocError> {
        match (self, other) {
            (Tombed::Live(ours), Tombed::Live(theirs)) => Ok(Tombed::Live(ours.joined_copy(
                theirs,
            )?)),
            _ => Ok(Tombed::Ended),
        }
    }

    fn join_in(&mut self, other: Tombed<T>) -> Result<(), (AllocError, Tombed<T>)> {
        match other {
            Tombed::Ended => {
                *self = Tombed::Ended;
                Ok(())
            }
            Tombed::Live(theirs) => match self {
                Tombed::Ended => Ok(()),
                Tombed::Live(ours) => match ours.join_in(theirs) {
                    Ok(()) => Ok(()),
                    Err((refused, theirs)) => Err((refused, Tombed::Live(theirs))),
                },
            },
        }
    }

    fn try_copy(&self) -> Result<Tombed<T>, AllocError> {
        match self {
            Tombed::Live(value) => Ok(Tombed::Live(value.try_copy()?)),
            Tombed::Ended => Ok(Tombed::Ended),
        }
    }

    fn note_valid(&self) {
        if let Tombed::Live(value) = self {
            value.note_valid();
        }
    }
}
