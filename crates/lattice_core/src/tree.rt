//! Maps that are joined entry by entry, for many entries.
ghost use Rattle.std.specs.Prelude.{◌≡◌, [], length, IfOk, IfErr, OnOk, OnErr, None, IsSome};
ghost use Rattle.std.specs.BTreeMap.{insert_entry};
ghost use Rattle.std.specs.Option.{option_copied};
ghost use Rattle.lattice_core.specs.Entries.{value_at, IsAscending, AllValues, put, map_joined};
ghost use Rattle.lattice_core.specs.Placed.{map_with};

use crate::entries::Entries;
use crate::fact_set::{FactSet, is_subset_at};
use crate::join::Join;
use pcrf_values::{HashSeed, Ranked};
use std::alloc::{AllocError, Global};
use std::collections::{BTreeSet, HashMap};
use std::hash::Hash;
use std::marker::Model;
use std::mem::replace;

/// A map whose values are found by a hash of their keys, beside a tree of the keys for their order alone. A look-up hashes a
/// key once and compares one or two, however many entries there are; a new key is put into the tree too. Contracts see it as
/// they see a `JoinMap`: as the list of its entries in the order of their keys.
#[derive(Drop)]
pub struct JoinTree<K: Ranked + Hash, V: Join> {
    alloc: Global,
    order: BTreeSet<K>,
    values: HashMap<K, V, HashSeed>,
}

impl<K: Ranked + Hash, V: Join> Model for JoinTree<K, V> {
    ghost use Rattle.std.specs.Prelude.{List};
    ghost use Rattle.lattice_core.specs.Entries.{AllValues};
    ghost use Rattle.lattice_core.specs.Hashed.{entries_of, IsHashed};

    ghost Value = { List (K × V) };

    ghost view = { λ m. entries_of K.eq m.order.keys m.values.entries };

    ghost invariant = { λ m. IsHashed K.cmp K.eq m.order.keys m.values.entries
        × AllValues V.valid (entries_of K.eq m.order.keys m.values.entries) };
}

impl<K: Ranked + Hash, V: Join> JoinTree<K, V> {
    /// The empty map, whose hashes begin with a seed that everyone knows.
    pub fn start(alloc: Global) -> JoinTree<K, V>
        ensures { result ≡ [] }
    {
        JoinTree::seeded(alloc, HashSeed::of(0))
    }

    /// The empty map, whose hashes begin with that seed.
    pub fn seeded(alloc: Global, seed: HashSeed) -> JoinTree<K, V>
        ensures { result ≡ [] }
    {
        JoinTree {
            alloc,
            order: BTreeSet::new(alloc),
            values: HashMap::with_hasher(alloc, seed),
        }
    }

    /// The entries, in the order of their keys.
    pub fn iter(&self) -> Entries<'_, K, V>
        ensures all { result ≡ self.now }
        ensures ascending { IsAscending K.cmp self.now }
        ensures valid { AllValues V.valid self.now }
    {
        Entries {
            order: self.order.iter(),
            values: &self.values,
        }
    }

    /// How many entries there are.
    pub fn len(&self) -> usize
        ensures { result ≡ length self.now }
    {
        self.order.len()
    }

    /// The value at a key.
    pub fn get(&self, key: &K) -> Option<&V>
        ensures { option_copied result ≡ value_at K.cmp self.now key.now }
    {
        self.values.get(key)
    }

    /// Joins a value into the one at a key; a refusal changes nothing and gives the value back.
    pub fn join_at(&mut self, key: K, value: V) -> Result<(), (AllocError, V)>
        ensures joins { IfOk result (λ _. self.new ≡ put K.cmp V.joined self.old key value) }
        ensures unchanged { OnErr result (self.new ≡ self.old) }
        ensures given_back { IfErr result (λ e. e.1 ≡ value) }
    {
        value.note_valid();
        if let Some(slot) = self.values.get_mut(&key) {
            return slot.join_in(value);
        }
        self.insert(key, value)
    }

    /// Joins a value as `join_at` does, where the key is copied only if nothing stands at it; a refusal changes nothing.
    pub fn join_under(&mut self, key: &K, value: V) -> Result<(), AllocError>
        ensures joins { OnOk result (self.new ≡ put K.cmp V.joined self.old key.now value) }
        ensures unchanged { OnErr result (self.new ≡ self.old) }
    {
        value.note_valid();
        if let Some(slot) = self.values.get_mut(key) {
            if let Err((refused, _)) = slot.join_in(value) {
                return Err(refused);
            }
            return Ok(());
        }
        self.insert_copied(key, value)
    }

    /// Puts a value in the place of what stands at a key, or takes that out, and gives it back; only a value at a new key is refused.
    pub fn place_at(&mut self, key: &K, value: Option<V>) -> Result<Option<V>, AllocError>
        ensures stood { IfOk result (λ stood. stood ≡ value_at K.cmp self.old key.now) }
        ensures placed { IfOk result (λ _. self.new ≡ map_with K.cmp self.old key.now value) }
        ensures unchanged { OnErr result (self.new ≡ self.old) }
        ensures refused_value { OnErr result (IsSome value) }
        ensures refused_new { OnErr result (value_at K.cmp self.old key.now ≡ None) }
    {
        let Some(value) = value else {
            self.order.remove(key);
            return Ok(self.values.remove(key));
        };
        value.note_valid();
        if let Some(slot) = self.values.get_mut(key) {
            return Ok(Some(replace(slot, value)));
        }
        if let Err(refused) = self.insert_copied(key, value) {
            return Err(refused);
        }
        Ok(None)
    }

    /// Puts a value at a copy of a key at which nothing stands; a refusal changes nothing.
    fn insert_copied(&mut self, key: &K, value: V) -> Result<(), AllocError>
        requires absent { value_at K.cmp self.old key.now ≡ None }
        ensures inserted { OnOk result (self.new ≡ insert_entry K.cmp self.old key.now value) }
        ensures unchanged { OnErr result (self.new ≡ self.old) }
    {
        let Ok(key) = key.try_copy() else {
            return Err(AllocError);
        };
        if let Err((refused, _)) = self.insert(key, value) {
            return Err(refused);
        }
        Ok(())
    }

    /// Puts a value at a key at which nothing stands; a refusal changes nothing and gives the value back.
    fn insert(&mut self, key: K, value: V) -> Result<(), (AllocError, V)>
        requires absent { value_at K.cmp self.old key ≡ None }
        ensures inserted { IfOk result (λ _. self.new ≡ insert_entry K.cmp self.old key value) }
        ensures unchanged { OnErr result (self.new ≡ self.old) }
        ensures given_back { IfErr result (λ e. e.1 ≡ value) }
    {
        value.note_valid();
        let Ok(ordered) = key.try_copy() else {
            return Err((AllocError, value));
        };
        if let Err(_) = self.order.insert(ordered) {
            return Err((AllocError, value));
        }
        match self.values.insert(key, value) {
            Ok(none) => {
                drop(none);
                Ok(())
            }
            Err(refused) => {
                let (key, value) = refused.value;
                self.order.remove(&key);
                Err((AllocError, value))
            }
        }
    }
}

/// An equal map, with the same seed.
fn copy_tree<K: Ranked + Hash, V: Join>(map: &JoinTree<K, V>) -> Result<JoinTree<K, V>, AllocError>
    ensures { IfOk result (λ m. m ≡ map.now) }
{
    let mut copy = JoinTree::seeded(map.alloc, *map.values.hasher());
    for (key, value) in map.iter() {
        let key = key.try_copy()?;
        let value = value.try_copy()?;
        if let Err((refused, _)) = copy.join_at(key, value) {
            return Err(refused);
        }
    }
    Ok(copy)
}

impl<K: Ranked + Hash, V: Join> Join for JoinTree<K, V> {
    ghost use Rattle.lattice_core.specs.laws.Maps.{map_comm, map_assoc, map_idem, map_closed};

    ghost joined = { map_joined K.cmp V.joined };

    ghost valid = { λ m. IsAscending K.cmp m × AllValues V.valid m };

    ghost commutative = { map_comm K.cmp V.joined K.total K.same V.commutative V.associative };

    ghost associative = { map_assoc K.cmp V.joined K.total K.same V.commutative V.associative };

    ghost idempotent = { map_idem K.cmp V.joined K.total K.same V.commutative V.associative V.valid V.idempotent };

    ghost closed = { map_closed K.cmp V.joined K.total V.valid V.closed };

    fn joined_copy(&self, other: &JoinTree<K, V>) -> Result<JoinTree<K, V>, AllocError> {
        let _ = self.iter();
        let mut both = copy_tree(self)?;
        for (key, value) in other.iter() {
            let key = key.try_copy()?;
            let value = value.try_copy()?;
            if let Err((refused, _)) = both.join_at(key, value) {
                return Err(refused);
            }
        }
        Ok(both)
    }

    fn try_copy(&self) -> Result<JoinTree<K, V>, AllocError> {
        copy_tree(self)
    }

    fn note_valid(&self) {
        let _ = self.iter();
    }
}

impl<K: Ranked + Hash, V: FactSet> FactSet for JoinTree<K, V> {
    ghost use Rattle.lattice_core.specs.Subsets.{map_subset, map_empty};

    ghost subset = { map_subset K.cmp V.subset V.empty };

    ghost empty = { map_empty V.empty };

    fn is_subset(&self, other: &JoinTree<K, V>) -> bool {
        for (key, value) in self.iter() {
            if !is_subset_at(value, other.get(key)) {
                return false;
            }
        }
        true
    }

    fn is_empty(&self) -> bool {
        for (_, value) in self.iter() {
            if !value.is_empty() {
                return false;
            }
        }
        true
    }
}
