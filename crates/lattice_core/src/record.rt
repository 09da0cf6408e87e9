//! Records: all that is kept of the facts of a session, in order.
ghost use Rattle.std.specs.Prelude.{◌≡◌, ◌+◌, ◌≤◌, List, [], IfOk, length, map, option_map};
ghost use Rattle.std.specs.Option.{option_copied};
ghost use Rattle.std.specs.Ordering.{is_eq};
ghost use Rattle.std.specs.List.{list_any};
ghost use Rattle.std.specs.Vec.{vec_len, vec_capacity};
ghost use Rattle.pcrf_values.specs.Facts.{Fact, fact_cmp};
ghost use Rattle.pcrf_values.specs.Held.{kept_list, is_ended, is_aborted, entry_shown};
ghost use Rattle.pcrf_values.specs.Places.{Place, place_position};
ghost use Rattle.lattice_core.specs.Found.{IsFound, entry_found};
ghost use Rattle.lattice_core.specs.Sets.{facts_subset};

use crate::fact::{Position, TypedFact, compare};
use crate::fact_set::FactSet;
use crate::join::Join;
use crate::keeping;
use crate::keeping::{adds_nothing, are_kept, merge, merge_of};
use crate::placing::{are_fields, make_room, put_all};
use std::alloc::{AllocError, Global};
use std::cmp::Ordering;
use std::collections::VecDeque;
use std::marker::Model;
use std::mem;

/// How many fields are put one by one.
const FEW: usize = 8;

/// What is known of a session, which contracts see as the facts that are kept, ascending.
#[derive(Drop)]
pub struct Record<F: TypedFact> {
    items: Vec<F>,
}

impl<F: TypedFact> Model for Record<F> {
    ghost use Rattle.std.specs.Prelude.{◌≡◌, List, map};
    ghost use Rattle.pcrf_values.specs.Facts.{Fact};
    ghost use Rattle.pcrf_values.specs.Held.{kept_list};

    ghost Value = { List Fact };

    ghost view = { λ r. map F.fact r.items.items };

    ghost invariant = { λ r. kept_list (map F.fact r.items.items) ≡ map F.fact r.items.items };
}

/// Each of these facts is one of the others.
fn is_within<F: TypedFact>(facts: &[F], others: &[F]) -> bool
    requires { kept_list (map F.fact others.now) ≡ map F.fact others.now }
    ensures { result ≡ facts_subset (map F.fact facts.now) (map F.fact others.now) }
{
    let mut left = facts;
    'each: while let Some((first, rest)) = left.split_first() {
        if !has_fact(others, first) {
            return false;
        }
        left = rest;
    }
    true
}

/// The fact is one of these.
fn has_fact<F: TypedFact>(facts: &[F], sought: &F) -> bool
    requires { kept_list (map F.fact facts.now) ≡ map F.fact facts.now }
    ensures { result
        ≡ list_any (λ y. is_eq (fact_cmp (F.fact sought.now) y)) (map F.fact facts.now) }
{
    let found = facts.binary_search_by(
        |fact: &F| -> Ordering
            ensures { result ≡ fact_cmp (F.fact fact.now) (F.fact sought.entry.now) }
        { compare(fact, sought) },
    );
    found.is_ok()
}

/// Equal facts.
pub fn copy_facts<F: TypedFact>(alloc: Global, facts: &[F]) -> Result<Vec<F>, AllocError>
    ensures { IfOk result (λ copies. copies.items ≡ facts.now) }
{
    let mut copies = Vec::with_capacity(alloc, facts.len())?;
    'each: for fact in facts {
        copies.push(fact.try_copy()?)?;
    }
    Ok(copies)
}

/// Facts that are elsewhere, each copied.
fn copy_each<F: TypedFact>(alloc: Global, facts: &[&F]) -> Result<Vec<F>, AllocError>
    ensures { IfOk result (λ copies. copies.items ≡ map (λ f. f.now) facts.now) }
{
    let mut copies = Vec::with_capacity(alloc, facts.len())?;
    'each: for fact in facts {
        copies.push(F::try_copy(*fact)?)?;
    }
    Ok(copies)
}

/// Room for the facts of both.
fn room_for<F: TypedFact>(ours: &Vec<F>, theirs: &Vec<F>) -> Result<Vec<F>, AllocError>
    ensures empty { IfOk result (λ v. v.items ≡ []) }
    ensures len { IfOk result (λ v. vec_len v ≡ 0) }
    ensures room { IfOk result (λ v. vec_len ours.now + vec_len theirs.now ≤ vec_capacity v) }
{
    let Some(number) = ours.len().checked_add(theirs.len()) else {
        return Err(AllocError);
    };
    Vec::with_capacity(*ours.allocator(), number)
}

impl<F: TypedFact> Record<F> {
    /// What is kept of these facts, which move into the record. It takes no memory where all are kept and stand in their order, as those of
    /// an operation do.
    pub fn of_facts(facts: Vec<F>) -> Result<Record<F>, AllocError>
        ensures { IfOk result (λ r. r ≡ kept_list (map F.fact facts.items)) }
    {
        if are_kept(facts.as_slice()) {
            return Ok(Record { items: facts });
        }
        let mut sorted = facts;
        sorted.sort_unstable_by(
            |one: &F, other: &F| -> Ordering
                ensures { result ≡ fact_cmp (F.fact one.now) (F.fact other.now) }
            { compare(one, other) },
        );
        let mut items = Vec::with_capacity(*sorted.allocator(), sorted.len())?;
        let none = VecDeque::new(*sorted.allocator());
        merge(&mut items, VecDeque::from(sorted), none);
        Ok(Record { items })
    }

    /// The facts, in order.
    pub fn as_slice(&self) -> &[F]
        ensures facts { map F.fact result.now ≡ self.now }
        ensures kept { kept_list self.now ≡ self.now }
    {
        self.items.as_slice()
    }

    /// The fact at the position: what the place there shows.
    pub fn at(&self, sought: &Position<'_>) -> Option<&F>
        ensures found { IsFound sought.now self.now (option_map F.fact (option_copied result)) }
        ensures shown { (p : Place) → sought.now ≡ place_position p
            → entry_found (option_map F.fact (option_copied result)) ≡ entry_shown self.now p }
    {
        keeping::find(self.items.as_slice(), sought)
    }

    /// The session is ended.
    pub fn ended(&self) -> bool
        ensures { result ≡ is_ended self.now }
    {
        keeping::is_ended(self.items.as_slice())
    }

    /// The session was asked to abort.
    pub fn aborted(&self) -> bool
        ensures { result ≡ is_aborted self.now }
    {
        keeping::has_at(self.items.as_slice(), &Position::of_abort())
    }
}

impl<F: TypedFact> Join for Record<F> {
    ghost use Rattle.std.specs.Prelude.{◌++◌};
    ghost use Rattle.pcrf_values.specs.Held.{kept_list, join_of};
    ghost use Rattle.pcrf_values.proofs.JoinedLaws.{joined_comm, joined_assoc, joined_idem, held_twice};

    ghost joined = { join_of };

    ghost valid = { λ facts. kept_list facts ≡ facts };

    ghost commutative = { joined_comm };

    ghost associative = { joined_assoc };

    ghost idempotent = { joined_idem };

    ghost closed = { λ xs ys _ _. held_twice (xs ++ ys) };

    fn joined_copy(&self, other: &Record<F>) -> Result<Record<F>, AllocError> {
        let alloc = *self.items.allocator();
        let Some(number) = self.items.len().checked_add(other.items.len()) else {
            return Err(AllocError);
        };
        let mut kept = Vec::with_capacity(alloc, number)?;
        merge_of(&mut kept, self.items.as_slice(), other.items.as_slice());
        let items = copy_each(alloc, kept.as_slice())?;
        Ok(Record { items })
    }

    fn join_in(&mut self, other: Record<F>) -> Result<(), (AllocError, Record<F>)> {
        if adds_nothing(self.items.as_slice(), other.items.as_slice()) {
            return Ok(());
        }
        if other.items.len() <= FEW && are_fields(other.items.as_slice()) {
            let few = other.items;
            if let Err(refused) = make_room(&mut self.items, &few) {
                return Err((refused, Record { items: few }));
            }
            put_all(&mut self.items, few);
            return Ok(());
        }
        let mut both = match room_for(&self.items, &other.items) {
            Ok(both) => both,
            Err(refused) => return Err((refused, other)),
        };
        let empty = Vec::new(*self.items.allocator());
        let ours = mem::replace(&mut self.items, empty);
        merge(&mut both, VecDeque::from(ours), VecDeque::from(other.items));
        self.items = both;
        Ok(())
    }

    fn try_copy(&self) -> Result<Record<F>, AllocError> {
        let items = copy_facts(*self.items.allocator(), self.items.as_slice())?;
        Ok(Record { items })
    }

    fn note_valid(&self) {
        let _ = &self.items;
    }
}

impl<F: TypedFact> FactSet for Record<F> {
    ghost use Rattle.lattice_core.specs.Sets.{facts_subset, facts_empty};

    ghost subset = { facts_subset };

    ghost empty = { facts_empty };

    fn is_subset(&self, other: &Record<F>) -> bool {
        is_within(self.items.as_slice(), other.items.as_slice())
    }

    fn is_empty(&self) -> bool {
        self.items.is_empty()
    }
}
