//! What look-ups answer, as laws that callers of the maps can use.
//!
//! Each of these functions does nothing: what it says is its contract.
ghost use Rattle.std.specs.Prelude.{◌≡◌, Some, if◌then◌else◌};
ghost use Rattle.std.specs.Ordering.{is_eq};
ghost use Rattle.lattice_core.specs.Entries.{value_at, put, map_joined};
ghost use Rattle.lattice_core.specs.Lookups.{joined_onto, option_joined};
ghost use Rattle.lattice_core.specs.Placed.{map_with};

use crate::join::Join;
use crate::map::JoinMap;
use crate::tree::JoinTree;
use pcrf_values::Ranked;
use std::hash::Hash;

/// A value joined in at a key stands there joined onto what stood there, and every other key keeps its value.
pub fn value_after_join_at<K: Ranked, V: Join>(map: &JoinMap<K, V>, key: &K, value: &V, asked: &K)
    ensures { value_at K.cmp (put K.cmp V.joined map.now key.now value.now) asked.now
        ≡ (if is_eq (K.cmp asked.now key.now)
        then Some (joined_onto V.joined (value_at K.cmp map.now key.now) value.now)
        else value_at K.cmp map.now asked.now) }
{
    map.note_valid();
}

/// What stands at a key in the join of two maps is the join of what stands there in either.
pub fn value_after_join<K: Ranked, V: Join>(ours: &JoinMap<K, V>, theirs: &JoinMap<K, V>, asked: &K)
    ensures { value_at K.cmp (map_joined K.cmp V.joined ours.now theirs.now) asked.now
        ≡ option_joined V.joined
        (value_at K.cmp ours.now asked.now) (value_at K.cmp theirs.now asked.now) }
{
    ours.note_valid();
    theirs.note_valid();
}

/// Two maps with the same look-ups are the same map.
pub fn same_by_values<K: Ranked, V: Join>(ours: &JoinMap<K, V>, theirs: &JoinMap<K, V>)
    ensures { ((k : K) → value_at K.cmp ours.now k ≡ value_at K.cmp theirs.now k)
        → ours.now ≡ theirs.now }
{
    ours.note_valid();
    theirs.note_valid();
}

/// What was put in the place of what stood at a key stands there, and every other key keeps its value.
pub fn value_after_place_at<K: Ranked + Hash, V: Join>(
    map: &JoinTree<K, V>,
    key: &K,
    value: &Option<V>,
    asked: &K,
)
    ensures { value_at K.cmp (map_with K.cmp map.now key.now value.now) asked.now
        ≡ (if is_eq (K.cmp asked.now key.now) then value.now else value_at K.cmp map.now asked.now) }
{
    map.note_valid();
}

/// What stood at a key, put back there, makes the map what it was.
pub fn place_back<K: Ranked + Hash, V: Join>(map: &JoinTree<K, V>, key: &K, value: &Option<V>)
    ensures { map_with K.cmp (map_with K.cmp map.now key.now value.now) key.now
        (value_at K.cmp map.now key.now)
        ≡ map.now }
{
    map.note_valid();
}
