//! Merging as a join.
//!
//! The function does nothing: what it says is its contract.
ghost use Rattle.std.specs.Prelude.{◌≡◌};
ghost use Rattle.pcrf_model.specs.Holdings.{Holding, union, kept_of};
ghost use Rattle.site_join.specs.States.{merge_of};

/// What merging gives depends neither on the order of two states nor on how three are put together, and a state merged with itself
/// stays; each state holds what is kept of it, as `State::note_kept` says. What was merged is kept, and merging with what is kept
/// of a state gives what is kept of the union.
pub fn merging_is_a_join()
    ensures commutative { (h k : Holding) → merge_of h k ≡ merge_of k h }
    ensures associative { (h k l : Holding) → merge_of (merge_of h k) l
        ≡ merge_of h (merge_of k l) }
    ensures idempotent { (h : Holding) → kept_of h ≡ h → merge_of h h ≡ h }
    ensures keeps { (h k : Holding) → kept_of (merge_of h k) ≡ merge_of h k }
    ensures keeping { (h k : Holding) → merge_of (kept_of h) k ≡ kept_of (union h k) }
{}
