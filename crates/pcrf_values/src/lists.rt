//! Lists of ranked values, compared member by member, a prefix first; those with a least and a greatest length; and ascending
//! lists, which stand for sets.
ghost use Rattle.std.specs.Prelude.{◌≡◌, List, IfOk, ◌<◌, ◌≤◌, length};
ghost use Rattle.std.specs.Cmp.Lexicographic.{pointwise, slice_cmp, slice_partial_cmp, lists_equiv, lists_agrees, lists_total, lists_ties, lists_per, lists_po};
ghost use Rattle.pcrf_values.specs.laws.Exact.{list_same};
ghost use Rattle.pcrf_values.specs.Texts.{one_to};
ghost use Rattle.pcrf_values.specs.Ascending.{place, ascending};

use crate::limits::FILTERS_LIMIT;
use crate::order::Ranked;
use crate::text::FilterText;
use std::alloc::{AllocError, Global};
use std::cmp::Ordering;
use std::collections::BTreeSet;
use std::fmt::{self, Debug, Formatter, Write};
use std::marker::Model;

/// A list of values, which contracts see as that list.
#[derive(Drop)]
pub struct Listed<T> {
    items: Vec<T>,
}

impl<T> Model for Listed<T> {
    ghost Value = { List T };

    ghost view = { λ l. l.items.items };
}

impl<T> Listed<T> {
    /// The list of these values.
    pub fn of(items: Vec<T>) -> Listed<T>
        ensures { result ≡ items.items }
    {
        Self { items }
    }

    /// The values.
    pub fn as_slice(&self) -> &[T]
        ensures { result.now ≡ self.now }
    {
        self.items.as_slice()
    }

    /// The values, out of the list.
    pub fn into_vec(self) -> Vec<T>
        ensures { result.items ≡ self }
    {
        let Listed { items } = self;
        items
    }
}

impl<T: Debug> Debug for Listed<T> {
    fn fmt<W: Write>(&self, f: &mut Formatter<W>) -> fmt::Result {
        write!(f, "{:?}", self.items)
    }
}

impl<T: PartialEq> PartialEq for Listed<T> {
    ghost eq = { pointwise T.eq };

    ghost laws = { lists_per T.laws };

    fn eq(&self, other: &Listed<T>) -> bool {
        self.as_slice() == other.as_slice()
    }
}

impl<T: Eq> Eq for Listed<T> {
    ghost laws = { lists_equiv T.Eq.laws };
}

impl<T: PartialOrd> PartialOrd for Listed<T> {
    ghost partial_cmp = { slice_partial_cmp T.partial_cmp };

    ghost laws = { lists_po T.PartialOrd.laws };

    fn partial_cmp(&self, other: &Listed<T>) -> Option<Ordering> {
        self.as_slice().partial_cmp(&other.as_slice())
    }
}

impl<T: Ranked> Ord for Listed<T> {
    ghost cmp = { slice_cmp T.cmp };

    ghost total = { lists_total T.total };

    ghost matches_partial_cmp = { lists_agrees T.matches_partial_cmp };

    ghost matches_eq = { lists_ties T.cmp T.matches_eq };

    fn cmp(&self, other: &Listed<T>) -> Ordering {
        T::compare_slices(self.as_slice(), other.as_slice())
    }
}

impl<T: Ranked> Ranked for Listed<T> {
    ghost same = { list_same T.same };

    fn try_copy(&self) -> Result<Listed<T>, AllocError> {
        let items = T::try_copy_slice(*self.items.allocator(), self.as_slice())?;
        Ok(Listed { items })
    }
}

/// A list of 1 to `MOST` values, which contracts see as that list. Ordered member by member, a prefix first.
#[derive(Drop, PartialEq, Eq, PartialOrd)]
pub struct BoundedList<T, const MOST: usize> {
    list: Listed<T>,
}

/// The one or two filters of a flow, in the order given (Flow-Description, TS 29.214, 5.3.8).
pub type Filters = BoundedList<FilterText, FILTERS_LIMIT>;

impl<T, const MOST: usize> Model for BoundedList<T, MOST> {
    ghost use Rattle.std.specs.Prelude.{List, ◌<◌, ◌≤◌, length};

    ghost Value = { List T };

    ghost view = { λ b. b.list };

    ghost inverse = { λ list. record { list = list } };

    ghost invariant = { λ b. (0 < length b.list) × (length b.list ≤ MOST) };
}

impl<T: Debug, const MOST: usize> Debug for BoundedList<T, MOST> {
    fn fmt<W: Write>(&self, f: &mut Formatter<W>) -> fmt::Result {
        write!(f, "{:?}", self.list)
    }
}

impl<T: Drop, const MOST: usize> BoundedList<T, MOST> {
    /// The list of these values; `None` where there are none or more than `MOST` of them.
    pub fn of(items: Vec<T>) -> Option<BoundedList<T, MOST>>
        ensures { result ≡ one_to MOST items.items }
    {
        if items.is_empty() || items.len() > MOST {
            return None;
        }
        Some(BoundedList {
            list: Listed::of(items),
        })
    }

    /// The values.
    pub fn as_slice(&self) -> &[T]
        ensures items { result.now ≡ self.now }
        ensures not_empty { 0 < length self.now }
        ensures within { length self.now ≤ MOST }
    {
        self.list.as_slice()
    }

    /// The values, out of the list.
    pub fn into_vec(self) -> Vec<T>
        ensures items { result.items ≡ self }
        ensures not_empty { 0 < length self }
        ensures within { length self ≤ MOST }
    {
        self.list.into_vec()
    }
}

impl<T: Ranked, const MOST: usize> Ord for BoundedList<T, MOST> {
    ghost use Rattle.std.specs.Cmp.Lexicographic.{slice_cmp, lists_agrees, lists_total, lists_ties};

    ghost cmp = { slice_cmp T.cmp };

    ghost total = { lists_total T.total };

    ghost matches_partial_cmp = { lists_agrees T.matches_partial_cmp };

    ghost matches_eq = { lists_ties T.cmp T.matches_eq };

    fn cmp(&self, other: &BoundedList<T, MOST>) -> Ordering {
        self.list.cmp(&other.list)
    }
}

impl<T: Ranked, const MOST: usize> Ranked for BoundedList<T, MOST> {
    ghost use Rattle.pcrf_values.specs.laws.Exact.{list_same};

    ghost same = { list_same T.same };

    fn try_copy(&self) -> Result<BoundedList<T, MOST>, AllocError> {
        Ok(BoundedList {
            list: self.list.try_copy()?,
        })
    }
}

/// How many values are placed one by one.
const FEW: usize = 32;

/// The values in ascending order, each once: a set as its one list. Its time grows with their number times its logarithm; a few
/// take less where they are in order.
pub fn ascending_of<T: Ranked>(alloc: Global, given: Vec<T>) -> Result<Vec<T>, AllocError>
    ensures { IfOk result (λ members. members.items ≡ ascending T.cmp given.items) }
{
    if given.len() > FEW {
        return ascending_by_tree(alloc, given);
    }
    let mut left = given;
    let mut members = Vec::with_capacity(alloc, left.len())?;
    while let Some(value) = left.pop() {
        place_in(&mut members, value)?;
    }
    Ok(members)
}

/// Puts a value before the first member that isn't below it, unless it is that member.
fn place_in<T: Ranked>(members: &mut Vec<T>, value: T) -> Result<(), AllocError>
    ensures { IfOk result (λ _. members.new.items ≡ place T.cmp value members.old.items) }
{
    for at in 0..members.len() {
        match value.cmp(&members[at]) {
            Ordering::Less => {
                members.insert(at, value)?;
                return Ok(());
            }
            Ordering::Equal => return Ok(()),
            Ordering::Greater => {}
        }
    }
    members.push(value)?;
    Ok(())
}

/// The same by a tree.
fn ascending_by_tree<T: Ranked>(alloc: Global, given: Vec<T>) -> Result<Vec<T>, AllocError>
    ensures { IfOk result (λ members. members.items ≡ ascending T.cmp given.items) }
{
    let mut left = given;
    let mut tree = BTreeSet::new(alloc);
    while let Some(value) = left.pop() {
        tree.insert(value)?;
    }
    let mut members = Vec::with_capacity(alloc, tree.len())?;
    for value in tree {
        members.push(value)?;
    }
    Ok(members)
}
