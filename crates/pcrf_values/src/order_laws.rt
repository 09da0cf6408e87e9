//! What an ascending list is, as a law that callers can use.
//!
//! The function does nothing: what it says is its contract.
ghost use Rattle.std.specs.Prelude.{◌≡◌, List};
ghost use Rattle.pcrf_values.specs.Ascending.{ascending, Rises};
ghost use Rattle.pcrf_values.specs.Sets.{Same};

use crate::order::Ranked;

/// The ascending list of a list has just its members, each once and below all that follow; and no other list does.
pub fn ascending_list_is_the_set<T: Ranked>()
    ensures members { (xs : List T) → Same (ascending T.cmp xs) xs }
    ensures order { (xs : List T) → Rises T.cmp (ascending T.cmp xs) }
    ensures only { (xs ys : List T) → Rises T.cmp ys → Same ys xs → ys ≡ ascending T.cmp xs }
{}
