//! Session-Ids, each once; and Session-Ids listed under keys: each once and in order, found by its key.
ghost use Rattle.std.specs.Prelude.{◌≡◌, [], ◌∷◌, Some, true, false, drop, IfSome, IfNone, OnOk, OnErr};
ghost use Rattle.pcrf_values.specs.Ascending.{Rises, place};
ghost use Rattle.bind_index.specs.Lists.{IsAboveFirst, IsBelowFirst, first_of, without, ids_at, ids_or_none, is_nothing_listed, with_id, without_first, without_id};
ghost use Rattle.std.specs.Option.{option_copied};

use crate::iter::Ids;
use pcrf_values::{HashSeed, Ranked};
use std::alloc::{AllocError, Global};
use std::cmp::Ordering;
use std::collections::hash_map::Iter;
use std::collections::{BTreeSet, HashMap};
use std::hash::Hash;
use std::marker::Model;
use std::mem::replace;

/// One Session-Id or more, each once, which contracts see as their ascending list. The first stands apart, since most lists
/// have no other, and a tree takes memory for its first entry. What takes a Session-Id takes the logarithm of their number.
#[derive(Drop)]
pub struct SessionIds<S: Ranked> {
    first: S,
    others: BTreeSet<S>,
}

impl<S: Ranked> Model for SessionIds<S> {
    ghost use Rattle.std.specs.Prelude.{List, ◌∷◌};
    ghost use Rattle.pcrf_values.specs.Ascending.{Rises};

    ghost Value = { List S };

    ghost view = { λ s. s.first ∷ s.others.keys };

    ghost invariant = { λ s. Rises S.cmp (s.first ∷ s.others.keys) };
}

impl<S: Ranked> SessionIds<S> {
    /// One alone.
    pub(crate) fn of(alloc: Global, id: S) -> SessionIds<S>
        ensures { result ≡ id ∷ [] }
    {
        SessionIds {
            first: id,
            others: BTreeSet::new(alloc),
        }
    }

    /// The Session-Ids, ascending.
    pub fn iter(&self) -> Ids<'_, S>
        ensures all { result ≡ self.now }
        ensures ascending { Rises S.cmp self.now }
    {
        Ids::of(&self.first, self.others.iter())
    }

    /// Adds a Session-Id, where it isn't there; a refusal changes nothing.
    pub(crate) fn add(&mut self, id: &S) -> Result<(), AllocError>
        ensures added { OnOk result (self.new ≡ place S.cmp id.now self.old) }
        ensures unchanged { OnErr result (self.new ≡ self.old) }
    {
        match id.cmp(&self.first) {
            Ordering::Less => self.add_first(id),
            Ordering::Equal => Ok(()),
            Ordering::Greater => self.add_other(id),
        }
    }

    /// Adds a Session-Id that is below the first; a refusal changes nothing.
    fn add_first(&mut self, id: &S) -> Result<(), AllocError>
        requires { IsBelowFirst S.cmp id.now self.old }
        ensures added { OnOk result (self.new ≡ id.now ∷ self.old) }
        ensures unchanged { OnErr result (self.new ≡ self.old) }
    {
        let id = id.try_copy()?;
        let first = replace(&mut self.first, id);
        if let Err(refused) = self.others.insert(first) {
            self.first = refused.value;
            return Err(AllocError);
        }
        Ok(())
    }

    /// Adds a Session-Id to the others, where it isn't there; a refusal changes nothing.
    fn add_other(&mut self, id: &S) -> Result<(), AllocError>
        requires { IsAboveFirst S.cmp id.now self.old }
        ensures added { OnOk result (self.new ≡ place S.cmp id.now self.old) }
        ensures unchanged { OnErr result (self.new ≡ self.old) }
    {
        let id = id.try_copy()?;
        if let Err(_) = self.others.insert(id) {
            return Err(AllocError);
        }
        Ok(())
    }

    /// Takes the first Session-Id out, unless it is the only one.
    pub(crate) fn take_first(&mut self) -> Option<S>
        ensures ascending { Rises S.cmp self.old }
        ensures first { IfSome result (λ id. self.old ≡ id ∷ self.new) }
        ensures only { IfNone result (drop 1 self.old ≡ []) }
        ensures unchanged { IfNone result (self.new ≡ self.old) }
    {
        let Some(next) = self.others.pop_first() else {
            return None;
        };
        Some(replace(&mut self.first, next))
    }

    /// The first Session-Id.
    pub(crate) fn into_first(self) -> S
        ensures { Some result ≡ first_of self }
    {
        let SessionIds { first, .. } = self;
        first
    }

    /// Takes a Session-Id out, where it is there and isn't the only one, and answers whether one is left without it.
    pub(crate) fn remove(&mut self, id: &S) -> bool
        ensures left { result ≡ true → self.new ≡ without S.cmp id.now self.old }
        ensures only { result ≡ false → without S.cmp id.now self.old ≡ [] }
    {
        if !id.cmp(&self.first).is_eq() {
            self.others.remove(id);
            return true;
        }
        let Some(next) = self.others.pop_first() else {
            return false;
        };
        self.first = next;
        true
    }
}

/// Session-Ids under keys, which contracts see as a list of keys with their ascending lists. A key is found by its hash, and a
/// Session-Id under it in the logarithm of their number there.
#[derive(Drop)]
pub struct SessionLists<K: Ranked + Hash, S: Ranked> {
    alloc: Global,
    seed: HashSeed,
    lists: HashMap<K, SessionIds<S>, HashSeed>,
}

impl<K: Ranked + Hash, S: Ranked> Model for SessionLists<K, S> {
    ghost use Rattle.std.specs.Prelude.{List};

    ghost Value = { List (K × List S) };

    ghost view = { λ l. l.lists.entries };
}

impl<K: Ranked + Hash, S: Ranked> SessionLists<K, S> {
    /// No list. Hashes begin with this seed.
    pub fn seeded(alloc: Global, seed: HashSeed) -> SessionLists<K, S>
        ensures { (k : K) → ids_at K.cmp result k ≡ [] }
    {
        SessionLists {
            alloc,
            seed,
            lists: HashMap::with_hasher(alloc, seed),
        }
    }

    /// What hashes begin with here.
    pub fn seed(&self) -> HashSeed {
        self.seed
    }

    /// The Session-Ids under a key, if there are some.
    pub fn at(&self, key: &K) -> Option<&SessionIds<S>>
        ensures { ids_or_none (option_copied result) ≡ ids_at K.cmp self.now key.now }
    {
        self.lists.get(key)
    }

    /// Nothing is listed: no key has a list.
    pub fn is_empty(&self) -> bool
        ensures exact { result ≡ is_nothing_listed self.now }
        ensures none { result ≡ true → (k : K) → ids_at K.cmp self.now k ≡ [] }
    {
        self.lists.is_empty()
    }

    /// The lists with their keys, in no order that means anything.
    pub fn iter(&self) -> Iter<'_, K, SessionIds<S>>
        ensures { result ≡ self.now }
    {
        self.lists.iter()
    }

    /// Lists a session under a key; a refusal changes nothing.
    pub fn add(&mut self, key: &K, id: &S) -> Result<(), AllocError>
        ensures added { OnOk result ((k : K) → ids_at K.cmp self.new k
            ≡ with_id K.cmp S.cmp self.old key.now id.now k) }
        ensures unchanged { OnErr result ((k : K) →
            ids_at K.cmp self.new k ≡ ids_at K.cmp self.old k) }
    {
        if let Some(ids) = self.lists.get_mut(key) {
            return ids.add(id);
        }
        let ids = SessionIds::of(self.alloc, id.try_copy()?);
        let key = key.try_copy()?;
        match self.lists.insert(key, ids) {
            Ok(none) => {
                drop(none);
                Ok(())
            }
            Err(_) => Err(AllocError),
        }
    }

    /// Takes the first session out of the list under a key, if it has one.
    pub fn take_first(&mut self, key: &K) -> Option<S>
        ensures first { result ≡ first_of (ids_at K.cmp self.old key.now) }
        ensures rest { (k : K) → ids_at K.cmp self.new k ≡ without_first K.cmp self.old key.now k }
        ensures rises { Rises S.cmp (ids_at K.cmp self.old key.now) }
    {
        let Some(ids) = self.lists.get_mut(key) else {
            return None;
        };
        if let Some(id) = ids.take_first() {
            return Some(id);
        }
        let Some(ids) = self.lists.remove(key) else {
            return None;
        };
        Some(ids.into_first())
    }

    /// Takes a session out of the list under a key, where it is there.
    pub fn remove(&mut self, key: &K, id: &S)
        ensures { (k : K) → ids_at K.cmp self.new k
            ≡ without_id K.cmp S.cmp self.old key.now id.now k }
    {
        let Some(ids) = self.lists.get_mut(key) else {
            return;
        };
        if ids.remove(id) {
            return;
        }
        self.lists.remove(key);
    }
}
