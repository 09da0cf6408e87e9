//! Notes in two copies that are the same, and that change only together. They have no bytes, and only clauses read them: so what
//! one thread has can say what lies under a lock, at no cost.
ghost use Rattle.std.specs.Prelude.{◌≡◌, ℕ};
ghost use base.Fml.{fauth, fobs};

use std::marker::{Model, PhantomData, Send, Sync};

/// How a note of type `T` changes, by something of type `X` that it is about.
pub trait Turn<T, X> {
    ghost next: { T → X → T };
}

/// One copy of a note: a value that clauses see, of which nothing is there when the program runs. The other copy has the same
/// name and says the same, wherever it is, and no third one has that name.
pub struct Original<T> {
    marker: PhantomData<T>,
    pub ghost name: { ℕ },
    pub ghost note: { T },
}

impl<T> Model for Original<T> {
    ghost also_owns = { λ o. fauth o.name (T.row.coded.code o.note) };
}

/// The other copy.
pub struct Duplicate<T> {
    marker: PhantomData<T>,
    pub ghost name: { ℕ },
    pub ghost note: { T },
}

impl<T> Model for Duplicate<T> {
    ghost also_owns = { λ d. fobs d.name (T.row.coded.code d.note) };
}

impl<T> Original<T> {
    /// The two copies of a new note, which says what `first` is. It does nothing when it runs.
    pub fn new(first: &T) -> (Original<T>, Duplicate<T>)
        ensures original { result.0.note ≡ first.now }
        ensures duplicate { result.1.note ≡ first.now }
        ensures name { result.1.name ≡ result.0.name }
    {
        let _ = first;
        (
            Original {
                marker: PhantomData,
            },
            Duplicate {
                marker: PhantomData,
            },
        )
    }

    /// Changes both copies in the same way: they said the same before, and do so again. It does nothing when it runs.
    pub fn turn<X, M: Turn<T, X>>(&mut self, other: &mut Duplicate<T>, about: &X)
        requires { other.old.name ≡ self.old.name }
        ensures same { other.old.note ≡ self.old.note }
        ensures original { self.new.note ≡ M.next self.old.note about.now }
        ensures duplicate { other.new.note ≡ M.next self.old.note about.now }
        ensures original_name { self.new.name ≡ self.old.name }
        ensures duplicate_name { other.new.name ≡ self.old.name }
    {
        let _ = about;
    }
}

impl<T> Drop for Original<T> {
    fn drop(self) {
        let Self { marker: _ } = self;
    }
}

impl<T> Drop for Duplicate<T> {
    fn drop(self) {
        let Self { marker: _ } = self;
    }
}

unsafe impl<T> Send for Original<T> {}

unsafe impl<T> Send for Duplicate<T> {}
