//! The entries of a map whose values are found by a hash, in the order of their keys.
ghost use Rattle.std.specs.Prelude.{length};
ghost use Rattle.std.specs.Iterator.{at_most};
ghost use Rattle.std.specs.Map.Iter.{TakesFirst, deref_pair};

use pcrf_values::HashSeed;
use std::collections::HashMap;
use std::collections::btree_set::Iter;
use std::hash::Hash;
use std::marker::Model;

/// Steps through the keys of a map in their order, and finds the value of each. Contracts see it as the list of the entries
/// that are left.
#[derive(Drop)]
pub struct Entries<'a, K: Ord + Hash, V> {
    pub(crate) order: Iter<'a, K>,
    pub(crate) values: &'a HashMap<K, V, HashSeed>,
}

impl<'a, K: Ord + Hash, V> Model for Entries<'a, K, V> {
    ghost use Rattle.std.specs.Prelude.{List};
    ghost use Rattle.lattice_core.specs.Hashed.{entries_of, AreFound};

    ghost Value = { List (K × V) };

    ghost view = { λ s. entries_of K.eq s.order s.values.now.entries };

    ghost invariant = { λ s. AreFound K.eq s.values.now.entries s.order };
}

impl<'a, K: Ord + Hash, V> Iterator for Entries<'a, K, V> {
    type Item = (&'a K, &'a V);

    ghost next_gives = { TakesFirst deref_pair };

    ghost remaining = { λ s. at_most (length s) };

    fn next(&mut self) -> Option<(&'a K, &'a V)> {
        let key = self.order.next()?;
        let value = self.values.get(key)?;
        Some((key, value))
    }
}
