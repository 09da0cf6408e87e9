//! The Session-Ids of a list, one after another.
ghost use Rattle.std.specs.Prelude.{◌≡◌, ◌∷◌};
ghost use Rattle.std.specs.Iterator.{YieldsFirstRef, item_count};

use pcrf_values::Ranked;
use std::collections::btree_set::Iter;
use std::marker::Model;

/// The Session-Ids of a list that are left, ascending.
#[derive(Drop)]
pub struct Ids<'a, S: Ranked> {
    first: Option<&'a S>,
    others: Iter<'a, S>,
}

impl<'a, S: Ranked> Model for Ids<'a, S> {
    ghost use Rattle.std.specs.Prelude.{List};
    ghost use Rattle.std.specs.Option.{option_copied};
    ghost use Rattle.bind_index.specs.Lists.{ids_left};

    ghost Value = { List S };

    ghost view = { λ s. ids_left (option_copied s.first) s.others };
}

impl<'a, S: Ranked> Ids<'a, S> {
    /// One, and then the others.
    pub(crate) fn of(first: &'a S, others: Iter<'a, S>) -> Ids<'a, S>
        ensures { result ≡ first.now ∷ others.entry }
    {
        Ids {
            first: Some(first),
            others,
        }
    }
}

impl<'a, S: Ranked> Iterator for Ids<'a, S> {
    type Item = &'a S;

    ghost next_gives = { YieldsFirstRef (λ s. s) };

    ghost remaining = { item_count (λ s. s) };

    fn next(&mut self) -> Option<&'a S> {
        if let Some(first) = self.first {
            self.first = None;
            return Some(first);
        }
        self.others.next()
    }
}
