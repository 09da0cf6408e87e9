//! Maps that are joined entry by entry, for few entries.
ghost use Rattle.std.specs.Prelude.{◌≡◌, [], IfOk, OnErr, IfErr, MatchResult, length};
ghost use Rattle.std.specs.Option.{option_copied};
ghost use Rattle.std.specs.Slice.Iter.{iter_rest};
ghost use Rattle.lattice_core.specs.Entries.{value_at, IsAscending, IsAt, IsGap, AllValues, put, put_all, map_joined};

use crate::join::Join;
use pcrf_values::Ranked;
use std::alloc::{AllocError, Global};
use std::cmp::Ordering;
use std::marker::Model;
use std::slice::Iter;

/// A map in one block of memory, which contracts see as the list of its entries in the order of their keys.
#[derive(Drop)]
pub struct JoinMap<K: Ranked, V: Join> {
    entries: Vec<(K, V)>,
}

impl<K: Ranked, V: Join> Model for JoinMap<K, V> {
    ghost use Rattle.std.specs.Prelude.{List};
    ghost use Rattle.lattice_core.specs.Entries.{IsAscending, AllValues};

    ghost Value = { List (K × V) };

    ghost view = { λ m. m.entries.items };

    ghost invariant = { λ m. IsAscending K.cmp m.entries.items × AllValues V.valid m.entries.items };
}

impl<K: Ranked, V: Join> JoinMap<K, V> {
    /// The empty map.
    pub fn start(alloc: Global) -> JoinMap<K, V>
        ensures { result ≡ [] }
    {
        JoinMap {
            entries: Vec::new(alloc),
        }
    }

    /// The entries, in the order of their keys.
    pub fn entries(&self) -> &[(K, V)]
        ensures all { result.now ≡ self.now }
        ensures ascending { IsAscending K.cmp self.now }
        ensures valid { AllValues V.valid self.now }
    {
        &self.entries
    }

    /// The entries, in the order of their keys.
    pub fn iter(&self) -> Iter<'_, (K, V)>
        ensures { iter_rest result ≡ self.now }
    {
        self.entries().iter()
    }

    /// The value at a key.
    pub fn get(&self, key: &K) -> Option<&V>
        ensures { option_copied result ≡ value_at K.cmp self.now key.now }
    {
        match self.place(key) {
            Ok(at) => Some(&self.entries[at].1),
            Err(_) => None,
        }
    }

    /// Joins a value into the one at a key; a refusal changes nothing and gives the value back.
    pub fn join_at(&mut self, key: K, value: V) -> Result<(), (AllocError, V)>
        ensures joins { IfOk result (λ _. self.new ≡ put K.cmp V.joined self.old key value) }
        ensures unchanged { OnErr result (self.new ≡ self.old) }
        ensures given_back { IfErr result (λ e. e.1 ≡ value) }
    {
        value.note_valid();
        match self.place(&key) {
            Ok(at) => {
                let slot = &mut self.entries[at];
                slot.1.join_in(value)
            }
            Err(at) => {
                leave_room(&mut self.entries);
                if let Err(refused) = self.entries.insert(at, (key, value)) {
                    let (_, value) = refused.value;
                    return Err((AllocError, value));
                }
                Ok(())
            }
        }
    }

    /// Where the key is, or where it would go.
    fn place(&self, key: &K) -> Result<usize, usize>
        ensures found { IfOk result (IsAt K.cmp self.now key.now) }
        ensures absent { IfErr result (IsGap K.cmp self.now key.now) }
    {
        self.entries.binary_search_by(
            |pair: &(K, V)| -> Ordering
                ensures { result ≡ K.cmp pair.now.0 key.entry.now }
            { pair.0.cmp(key) },
        )
    }
}

/// Leaves room for the first entry alone, since most maps have no other. Where memory is refused, the insertion says so.
fn leave_room<T: Drop>(entries: &mut Vec<T>)
    ensures { entries.new.items ≡ entries.old.items }
{
    if entries.is_empty() {
        let _ = entries.reserve_exact(1);
    }
}

/// An equal map.
fn copy_entries<K: Ranked, V: Join>(map: &JoinMap<K, V>) -> Result<JoinMap<K, V>, AllocError>
    ensures { IfOk result (λ m. m ≡ map.now) }
{
    let mut entries = Vec::with_capacity(*map.entries.allocator(), map.entries.len())?;
    for entry in map.entries() {
        let key = entry.0.try_copy()?;
        let value = entry.1.try_copy()?;
        entries.push((key, value))?;
    }
    Ok(JoinMap { entries })
}

/// Joins a map of one entry into a map, with no copy of that.
fn join_single<K: Ranked, V: Join>(
    map: &mut JoinMap<K, V>,
    single: JoinMap<K, V>,
) -> Result<(), (AllocError, JoinMap<K, V>)>
    requires { length single ≡ 1 }
    ensures joins { IfOk result (λ _. map.new ≡ map_joined K.cmp V.joined map.old single) }
    ensures unchanged { OnErr result (map.new ≡ map.old) }
    ensures given_back { IfErr result (λ e. e.1 ≡ single) }
{
    map.note_valid();
    let mut entries = single.entries;
    let Some((key, value)) = entries.pop() else {
        return Ok(());
    };
    let copy = match key.try_copy() {
        Ok(copy) => copy,
        Err(refused) => {
            entries.push_reserved((key, value));
            return Err((refused, JoinMap { entries }));
        }
    };
    if let Err((refused, value)) = map.join_at(copy, value) {
        entries.push_reserved((key, value));
        return Err((refused, JoinMap { entries }));
    }
    Ok(())
}

impl<K: Ranked, V: Join> Join for JoinMap<K, V> {
    ghost use Rattle.lattice_core.specs.laws.Maps.{map_comm, map_assoc, map_idem, map_closed};

    ghost joined = { map_joined K.cmp V.joined };

    ghost valid = { λ m. IsAscending K.cmp m × AllValues V.valid m };

    ghost commutative = { map_comm K.cmp V.joined K.total K.same V.commutative V.associative };

    ghost associative = { map_assoc K.cmp V.joined K.total K.same V.commutative V.associative };

    ghost idempotent = { map_idem K.cmp V.joined K.total K.same V.commutative V.associative V.valid V.idempotent };

    ghost closed = { map_closed K.cmp V.joined K.total V.valid V.closed };

    fn joined_copy(&self, other: &JoinMap<K, V>) -> Result<JoinMap<K, V>, AllocError> {
        let _ = &self.entries;
        let mut both = copy_entries(self)?;
        for entry in other.entries() {
            let key = entry.0.try_copy()?;
            let value = entry.1.try_copy()?;
            if let Err((refused, _)) = both.join_at(key, value) {
                return Err(refused);
            }
        }
        Ok(both)
    }

    /// A map of one entry costs one insertion, any other a copy of the map.
    fn join_in(&mut self, other: JoinMap<K, V>) -> Result<(), (AllocError, JoinMap<K, V>)> {
        if other.entries.len() == 1 {
            return join_single(self, other);
        }
        match self.joined_copy(&other) {
            Ok(both) => {
                *self = both;
                Ok(())
            }
            Err(refused) => Err((refused, other)),
        }
    }

    fn try_copy(&self) -> Result<JoinMap<K, V>, AllocError> {
        copy_entries(self)
    }

    fn note_valid(&self) {
        let _ = self.entries();
    }
}
