//! Values that stand for sets of facts.
ghost use Rattle.std.specs.Prelude.{◌≡◌, Bool, ◌&&◌};
ghost use Rattle.std.specs.Option.{option_copied};
ghost use Rattle.lattice_core.specs.Subsets.{subset_at};

use crate::join::Join;

/// What says facts. Two values may be held differently and say the same, since what says nothing is as good as absent; so
/// values are compared by what they say. No function takes memory.
pub trait FactSet: Join {
    /// Each fact of the first is one of the second.
    ghost subset: { Self → Self → Bool };

    /// There is no fact.
    ghost empty: { Self → Bool };

    /// Each fact of this value is one of the other.
    fn is_subset(&self, other: &Self) -> bool
        ensures { result ≡ subset self.now other.now };

    /// This value has no fact.
    fn is_empty(&self) -> bool
        ensures { result ≡ empty self.now };
}

/// Both have the same facts.
pub fn same_facts<T: FactSet>(ours: &T, theirs: &T) -> bool
    ensures { result ≡ (T.subset ours.now theirs.now && T.subset theirs.now ours.now) }
{
    ours.is_subset(theirs) && theirs.is_subset(ours)
}

/// Each fact of a value is one of what may stand at its key.
pub(crate) fn is_subset_at<V: FactSet>(value: &V, found: Option<&V>) -> bool
    ensures { result ≡ subset_at V.subset V.empty value.now (option_copied found.entry) }
{
    match found {
        Some(found) => value.is_subset(found),
        None => value.is_empty(),
    }
}
