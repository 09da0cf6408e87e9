//! A few fields put where they stand among kept facts, in place.
ghost use Rattle.std.specs.Prelude.{◌≡◌, ◌+◌, ◌<◌, ◌≤◌, ◌⊎◌, [], ◌∷◌, drop, false, length, map, OnOk, slice_index_or, take, true};
ghost use Rattle.std.specs.List.{list_any};
ghost use Rattle.std.specs.Vec.{vec_len, vec_capacity};
ghost use Rattle.pcrf_values.specs.Sets.{In};
ghost use Rattle.pcrf_values.specs.Facts.{Fact, position};
ghost use Rattle.pcrf_values.specs.Held.{kept_list, join_of};
ghost use Rattle.lattice_core.specs.Beneath.{stands_at};
ghost use Rattle.lattice_core.specs.Orders.{AreThere, IsGap, is_field};

use crate::fact::TypedFact;
use crate::keeping::{has_at, is_removed, seek};
use std::alloc::AllocError;

/// Each of the facts is a field.
pub(crate) fn are_fields<F: TypedFact>(facts: &[F]) -> bool
    ensures { result ≡ true → (f : Fact) → In f (map F.fact facts.now) → is_field f ≡ true }
{
    let mut left = facts;
    'each: while let Some((first, rest)) = left.split_first() {
        if !first.is_field() {
            return false;
        }
        left = rest;
    }
    true
}

/// Adds a field where there is one, if that is below it.
fn put_over<F: TypedFact>(kept: &mut Vec<F>, at: usize, fact: F)
    requires held { kept_list (map F.fact kept.old.items) ≡ map F.fact kept.old.items }
    requires field { is_field (F.fact fact) ≡ true }
    requires within { at < length kept.old.items }
    requires there { (d : F) → position (F.fact (slice_index_or kept.old.items at d))
        ≡ position (F.fact fact) }
    ensures joins { map F.fact kept.new.items
        ≡ join_of (map F.fact kept.old.items) (F.fact fact ∷ []) }
    ensures places { map position (map F.fact kept.new.items)
        ≡ map position (map F.fact kept.old.items) }
    ensures len { vec_len kept.new ≡ vec_len kept.old }
    ensures capacity { vec_capacity kept.new ≡ vec_capacity kept.old }
{
    if kept[at].compare_entry(&fact).is_lt() {
        kept[at] = fact;
    }
}

/// Adds a field where there is none. There is room for it.
fn put_new<F: TypedFact>(kept: &mut Vec<F>, at: usize, fact: F)
    requires held { kept_list (map F.fact kept.old.items) ≡ map F.fact kept.old.items }
    requires room { vec_len kept.old < vec_capacity kept.old }
    requires field { is_field (F.fact fact) ≡ true }
    requires within { at ≤ length kept.old.items }
    requires gap { IsGap (position (F.fact fact))
        (map F.fact (take at kept.old.items)) (map F.fact (drop at kept.old.items)) }
    ensures joins { map F.fact kept.new.items
        ≡ join_of (map F.fact kept.old.items) (F.fact fact ∷ []) }
    ensures len { vec_len kept.new ≤ vec_len kept.old + 1 }
    ensures capacity { vec_capacity kept.old ≤ vec_capacity kept.new }
{
    if is_removed(kept.as_slice(), fact.beneath()) {
        return;
    }
    let _ = kept.insert(at, fact);
}

/// Adds a field. There is room for it, or one stands where it does.
fn put<F: TypedFact>(kept: &mut Vec<F>, fact: F)
    requires held { kept_list (map F.fact kept.old.items) ≡ map F.fact kept.old.items }
    requires room { list_any (stands_at (position (F.fact fact))) (map F.fact kept.old.items)
        ≡ false → vec_len kept.old < vec_capacity kept.old }
    requires field { is_field (F.fact fact) ≡ true }
    ensures joins { map F.fact kept.new.items
        ≡ join_of (map F.fact kept.old.items) (F.fact fact ∷ []) }
    ensures places { list_any (stands_at (position (F.fact fact))) (map F.fact kept.old.items)
        ≡ true → map position (map F.fact kept.new.items) ≡ map position (map F.fact kept.old.items) }
    ensures len { vec_len kept.new ≤ vec_len kept.old + 1 }
    ensures capacity { vec_capacity kept.old ≤ vec_capacity kept.new }
{
    match seek(kept.as_slice(), &fact.position()) {
        Ok(at) => put_over(kept, at, fact),
        Err(at) => put_new(kept, at, fact),
    }
}

/// Adds fields, the last one first. One stands where each of them does, or there is room for all.
pub(crate) fn put_all<F: TypedFact>(kept: &mut Vec<F>, fields: Vec<F>)
    requires held { kept_list (map F.fact kept.old.items) ≡ map F.fact kept.old.items }
    requires room { AreThere (map F.fact fields.items) (map F.fact kept.old.items)
        ⊎ (vec_len kept.old + vec_len fields ≤ vec_capacity kept.old) }
    requires fields { (f : Fact) → In f (map F.fact fields.items) → is_field f ≡ true }
    ensures { map F.fact kept.new.items
        ≡ join_of (map F.fact kept.old.items) (map F.fact fields.items) }
{
    let mut left = fields;
    'each: while let Some(fact) = left.pop() {
        put(kept, fact);
    }
}

/// A fact stands where each of these does.
fn are_there<F: TypedFact>(kept: &[F], facts: &[F]) -> bool
    requires { kept_list (map F.fact kept.now) ≡ map F.fact kept.now }
    ensures { result ≡ true → AreThere (map F.fact facts.now) (map F.fact kept.now) }
{
    let mut left = facts;
    'each: while let Some((first, rest)) = left.split_first() {
        if !has_at(kept, &first.position()) {
            return false;
        }
        left = rest;
    }
    true
}

/// Makes room for fields, unless one stands where each of them does: so what only changes takes no memory.
pub(crate) fn make_room<F: TypedFact>(kept: &mut Vec<F>, fields: &Vec<F>) -> Result<(), AllocError>
    requires { kept_list (map F.fact kept.old.items) ≡ map F.fact kept.old.items }
    ensures items { kept.new.items ≡ kept.old.items }
    ensures room { OnOk result (AreThere (map F.fact fields.now.items) (map F.fact kept.old.items)
        ⊎ (vec_len kept.new + vec_len fields.now ≤ vec_capacity kept.new)) }
{
    if are_there(kept.as_slice(), fields.as_slice()) {
        return Ok(());
    }
    kept.reserve(fields.len())?;
    Ok(())
}
