//! Kept facts, searched by position; and what is kept of facts that come in order, by one pass.
//!
//! A fact that removes others stands before them, so each fact that comes is judged by those kept before it: it falls with what was
//! removed, or takes the place of one at its position, or is kept beside them.
ghost use Rattle.std.specs.Prelude.{◌≡◌, ◌<◌, ◌≤◌, IfErr, IfOk, MatchResult, drop, length, map, option_map, slice_index_or, take, ◌+◌, false, List, [], ◌∷◌, ◌++◌, true, MatchOption};
ghost use Rattle.std.specs.Option.{option_copied, option_to_list};
ghost use Rattle.std.specs.List.{list_any};
ghost use Rattle.pcrf_values.specs.Places.{Component, Flow, position_cmp, removed_position};
ghost use Rattle.pcrf_values.specs.Facts.{position, Fact, fact_cmp};
ghost use Rattle.pcrf_values.specs.Held.{kept_list, join_of};
ghost use Rattle.lattice_core.specs.declared.fact.Beneath.TheVariants as beneath;
ghost use Rattle.lattice_core.specs.Beneath.{removes, stands_at};
ghost use Rattle.lattice_core.specs.Orders.{IsGap, AreKept, AreNotKept, Climbs, IsCovered, IsLeast, first_is_theirs, last_at, last_before};
ghost use Rattle.lattice_core.specs.Found.{IsFound};
ghost use Rattle.std.specs.Ordering.{is_lt};
ghost use Rattle.std.specs.VecDeque.{deque_len};
ghost use Rattle.std.specs.Vec.{vec_len, vec_capacity};
ghost use Rattle.pcrf_values.specs.Sets.{In};

use crate::fact::{Beneath, Position, TypedFact, compare};
use std::cmp::Ordering;
use std::collections::VecDeque;

/// Up to so many facts are looked at one after the other: that takes less time than a search.
const FEW: usize = 16;

/// A fact stands at the position.
pub(crate) fn has_at<F: TypedFact>(facts: &[F], sought: &Position<'_>) -> bool
    requires { kept_list (map F.fact facts.now) ≡ map F.fact facts.now }
    ensures { result ≡ list_any (stands_at sought.now) (map F.fact facts.now) }
{
    find(facts, sought).is_some()
}

/// The fact at the position.
pub(crate) fn find<'a, F: TypedFact>(facts: &'a [F], sought: &Position<'_>) -> Option<&'a F>
    requires { kept_list (map F.fact facts.now) ≡ map F.fact facts.now }
    ensures { IsFound sought.now (map F.fact facts.now)
        (option_map F.fact (option_copied result)) }
{
    if facts.len() > FEW {
        return find_among_many(facts, sought);
    }
    for fact in facts {
        if fact.position().is(sought) {
            return Some(fact);
        }
    }
    None
}

/// The fact at the position, by a search.
fn find_among_many<'a, F: TypedFact>(facts: &'a [F], sought: &Position<'_>) -> Option<&'a F>
    requires { kept_list (map F.fact facts.now) ≡ map F.fact facts.now }
    ensures { IsFound sought.now (map F.fact facts.now)
        (option_map F.fact (option_copied result)) }
{
    let found = facts.binary_search_by(
        |fact: &F| -> Ordering
            ensures { result ≡ position_cmp (position (F.fact fact.now)) sought.entry.now }
        { fact.position().compare(sought) },
    );
    match found {
        Ok(at) => Some(&facts[at]),
        Err(_) => None,
    }
}

/// Where the position stands among those of the facts, or where it would go.
pub(crate) fn seek<F: TypedFact>(facts: &[F], sought: &Position<'_>) -> Result<usize, usize>
    requires { kept_list (map F.fact facts.now) ≡ map F.fact facts.now }
    ensures within { MatchResult result (λ i. i < length facts.now) (λ i. i ≤ length facts.now) }
    ensures found { IfOk result (λ i. (d : F)
        → position (F.fact (slice_index_or facts.now i d)) ≡ sought.now) }
    ensures absent { IfErr result (λ i. IsGap sought.now
        (map F.fact (take i facts.now)) (map F.fact (drop i facts.now))) }
{
    facts.binary_search_by(
        |fact: &F| -> Ordering
            ensures { result ≡ position_cmp (position (F.fact fact.now)) sought.entry.now }
        { fact.position().compare(sought) },
    )
}

/// One of the facts ends the session: it stands alone, since it overshadows all else.
pub(crate) fn is_ended<F: TypedFact>(facts: &[F]) -> bool
    requires { kept_list (map F.fact facts.now) ≡ map F.fact facts.now }
    ensures { result ≡ list_any (removes beneath.Session) (map F.fact facts.now) }
{
    match facts.split_first() {
        Some((first, _)) => first.position().compare(&Position::of_end()).is_eq(),
        None => false,
    }
}

/// One of the facts ends the session or removes the component.
fn is_component_removed<F: TypedFact>(facts: &[F], component: u32) -> bool
    requires { kept_list (map F.fact facts.now) ≡ map F.fact facts.now }
    ensures { result ≡ list_any (removes (beneath.Component component)) (map F.fact facts.now) }
{
    is_ended(facts) || has_at(facts, &Position::of_component_removal(component))
}

/// One of the facts ends the session, or removes the component or the flow.
fn is_flow_removed<F: TypedFact>(facts: &[F], component: u32, flow: u32) -> bool
    requires { kept_list (map F.fact facts.now) ≡ map F.fact facts.now }
    ensures { result ≡ list_any (removes (beneath.Flow component flow)) (map F.fact facts.now) }
{
    is_component_removed(facts, component)
        || has_at(facts, &Position::of_flow_removal(component, flow))
}

/// One of the facts removes what stands beneath that.
#[tactic(auto, using(crate::proofs::BeneathLaws::none_removes))]
pub(crate) fn is_removed<F: TypedFact>(facts: &[F], beneath: Beneath) -> bool
    requires { kept_list (map F.fact facts.now) ≡ map F.fact facts.now }
    ensures { result ≡ list_any (removes beneath) (map F.fact facts.now) }
{
    match beneath {
        Beneath::Nothing => false,
        Beneath::Session => is_ended(facts),
        Beneath::Component(component) => is_component_removed(facts, component),
        Beneath::Flow(component, flow) => is_flow_removed(facts, component, flow),
    }
}

/// The last of the facts stands where this one does.
fn is_last_at<F: TypedFact>(kept: &[F], fact: &F) -> bool
    ensures { result ≡ last_at (position (F.fact fact.now)) (map F.fact kept.now) }
{
    match kept.split_last() {
        Some((last, _)) => last.position().compare(&fact.position()).is_eq(),
        None => false,
    }
}

/// The last of the facts stands below this one, if there is one.
fn is_past_last<F: TypedFact>(kept: &[F], fact: &F) -> bool
    ensures { result ≡ last_before (position (F.fact fact.now)) (map F.fact kept.now) }
{
    match kept.split_last() {
        Some((last, _)) => last.position().compare(&fact.position()).is_lt(),
        None => true,
    }
}

/// A fact may stand after those that are kept.
fn may_follow<F: TypedFact>(kept: &[F], fact: &F) -> bool
    requires { AreKept (map F.fact kept.now) }
    ensures kept { result ≡ true → AreKept (map F.fact kept.now ++ F.fact fact.now ∷ []) }
    ensures not_kept { result ≡ false → AreNotKept (map F.fact kept.now ++ F.fact fact.now ∷ []) }
{
    if !is_past_last(kept, fact) {
        return false;
    }
    if is_removed(kept, fact.beneath()) {
        return false;
    }
    true
}

/// All of the facts are kept, and stand in their order: each behind the one before it, and none overshadows another. Its time is that of
/// a search by halves for each.
pub fn are_kept<F: TypedFact>(facts: &[F]) -> bool
    ensures kept { result ≡ true → AreKept (map F.fact facts.now) }
    ensures not_kept { result ≡ false → AreNotKept (map F.fact facts.now) }
{
    let mut number = 0;
    'each: while number < facts.len() {
        if !may_follow(&facts[..number], &facts[number]) {
            return false;
        }
        number += 1;
    }
    true
}

/// One of the facts is this one, or overshadows it.
fn is_covered<F: TypedFact>(facts: &[F], fact: &F) -> bool
    requires { kept_list (map F.fact facts.now) ≡ map F.fact facts.now }
    ensures { result ≡ true → IsCovered (F.fact fact.now) (map F.fact facts.now) }
{
    let Some(found) = find(facts, &fact.position()) else {
        return is_removed(facts, fact.beneath());
    };
    !found.compare_entry(fact).is_lt()
}

/// The second add nothing to the first. It takes no memory.
pub(crate) fn adds_nothing<F: TypedFact>(ours: &[F], theirs: &[F]) -> bool
    requires { kept_list (map F.fact ours.now) ≡ map F.fact ours.now }
    ensures { result ≡ true → map F.fact ours.now
        ≡ join_of (map F.fact ours.now) (map F.fact theirs.now) }
{
    let mut left = theirs;
    'each: while let Some((first, rest)) = left.split_first() {
        if !is_covered(ours, first) {
            return false;
        }
        left = rest;
    }
    true
}

/// Adds a fact to those that are kept, which it is below none of. There is room for it.
pub(crate) fn add<F: TypedFact>(kept: &mut Vec<F>, fact: F)
    requires held { kept_list (map F.fact kept.old.items) ≡ map F.fact kept.old.items }
    requires above { (g : Fact) → In g (map F.fact kept.old.items)
        → is_lt (fact_cmp (F.fact fact) g) ≡ false }
    requires room { vec_len kept.old < vec_capacity kept.old }
    ensures joins { map F.fact kept.new.items
        ≡ join_of (map F.fact kept.old.items) (F.fact fact ∷ []) }
    ensures len { vec_len kept.new ≤ vec_len kept.old + 1 }
    ensures capacity { vec_capacity kept.new ≡ vec_capacity kept.old }
{
    if is_last_at(kept.as_slice(), &fact) {
        put_over(kept, fact);
        return;
    }
    if is_removed(kept.as_slice(), fact.beneath()) {
        return;
    }
    kept.push_reserved(fact);
}

/// Puts a fact in the place of the last one, which stands where it does.
fn put_over<F: TypedFact>(kept: &mut Vec<F>, fact: F)
    requires held { kept_list (map F.fact kept.old.items) ≡ map F.fact kept.old.items }
    requires above { (g : Fact) → In g (map F.fact kept.old.items)
        → is_lt (fact_cmp (F.fact fact) g) ≡ false }
    requires last { last_at (position (F.fact fact)) (map F.fact kept.old.items) ≡ true }
    ensures joins { map F.fact kept.new.items
        ≡ join_of (map F.fact kept.old.items) (F.fact fact ∷ []) }
    ensures len { vec_len kept.new ≡ vec_len kept.old }
    ensures capacity { vec_capacity kept.new ≡ vec_capacity kept.old }
{
    let _ = kept.take_last();
    kept.push_reserved(fact);
}

/// The least of both is the first of theirs, or there is none of ours.
fn is_theirs<F: TypedFact>(ours: &VecDeque<F>, theirs: &VecDeque<F>) -> bool
    ensures { result
        ≡ first_is_theirs (map F.fact ours.now.items) (map F.fact theirs.now.items) }
{
    let Some(our) = ours.front() else {
        return true;
    };
    let Some(their) = theirs.front() else {
        return false;
    };
    compare(their, our).is_lt()
}

/// Takes the least of both.
fn take_least<F: TypedFact>(ours: &mut VecDeque<F>, theirs: &mut VecDeque<F>) -> Option<F>
    requires ours { Climbs (map F.fact ours.old.items) }
    requires theirs { Climbs (map F.fact theirs.old.items) }
    ensures least { MatchOption result
        (map F.fact ours.old.items ++ map F.fact theirs.old.items ≡ [])
        (λ f. IsLeast (F.fact f)
        (map F.fact ours.new.items ++ map F.fact theirs.new.items)
        (map F.fact ours.old.items ++ map F.fact theirs.old.items)) }
    ensures ours { Climbs (map F.fact ours.new.items) }
    ensures theirs { Climbs (map F.fact theirs.new.items) }
    ensures count { deque_len ours.new + deque_len theirs.new + length (option_to_list result)
        ≡ deque_len ours.old + deque_len theirs.old }
{
    if is_theirs(ours, theirs) {
        theirs.pop_front()
    } else {
        ours.pop_front()
    }
}

/// Adds what is kept of two lists, each in order, to what is kept before them: all facts move, and none is copied. There is room for all.
pub(crate) fn merge<F: TypedFact>(kept: &mut Vec<F>, ours: VecDeque<F>, theirs: VecDeque<F>)
    requires empty { kept.old.items ≡ [] }
    requires ours { Climbs (map F.fact ours.items) }
    requires theirs { Climbs (map F.fact theirs.items) }
    requires room { vec_len kept.old + (deque_len ours + deque_len theirs) ≤ vec_capacity kept.old }
    ensures { map F.fact kept.new.items
        ≡ join_of (map F.fact ours.items) (map F.fact theirs.items) }
{
    let mut ours = ours;
    let mut theirs = theirs;
    'least: while let Some(fact) = take_least(&mut ours, &mut theirs) {
        add(kept, fact);
    }
}

/// The first of theirs is the least of both, or there is none of ours.
fn is_first_theirs<F: TypedFact>(ours: &[F], theirs: &[F]) -> bool
    ensures { result ≡ first_is_theirs (map F.fact ours.now) (map F.fact theirs.now) }
{
    let Some((our, _)) = ours.split_first() else {
        return true;
    };
    let Some((their, _)) = theirs.split_first() else {
        return false;
    };
    compare(their, our).is_lt()
}

/// Takes the first one, if there is one.
fn take_first<'a, F: TypedFact>(facts: &mut &'a [F]) -> Option<&'a F>
    ensures items { facts.old.now ≡ option_to_list (option_copied result) ++ facts.new.now }
    ensures rest { facts.new.now ≡ drop 1 facts.old.now }
{
    let Some((first, rest)) = facts.split_first() else {
        return None;
    };
    *facts = rest;
    Some(first)
}

/// Takes the least of both where it is.
fn take_least_of<'a, F: TypedFact>(ours: &mut &'a [F], theirs: &mut &'a [F]) -> Option<&'a F>
    requires ours { Climbs (map F.fact ours.old.now) }
    requires theirs { Climbs (map F.fact theirs.old.now) }
    ensures least { MatchOption result
        (map F.fact ours.old.now ++ map F.fact theirs.old.now ≡ [])
        (λ f. IsLeast (F.fact f.now)
        (map F.fact ours.new.now ++ map F.fact theirs.new.now)
        (map F.fact ours.old.now ++ map F.fact theirs.old.now)) }
    ensures ours { Climbs (map F.fact ours.new.now) }
    ensures theirs { Climbs (map F.fact theirs.new.now) }
    ensures count { length ours.new.now + length theirs.new.now + length (option_to_list result)
        ≡ length ours.old.now + length theirs.old.now }
{
    if is_first_theirs(*ours, *theirs) {
        take_first(theirs)
    } else {
        take_first(ours)
    }
}

/// What is kept of two lists, each in order, where they are. There is room for all.
pub(crate) fn merge_of<'a, F: TypedFact>(kept: &mut Vec<&'a F>, ours: &'a [F], theirs: &'a [F])
    requires empty { kept.old.items ≡ [] }
    requires ours { Climbs (map F.fact ours.now) }
    requires theirs { Climbs (map F.fact theirs.now) }
    requires room { vec_len kept.old + (length ours.now + length theirs.now)
        ≤ vec_capacity kept.old }
    ensures { map (λ f. F.fact f.now) kept.new.items
        ≡ join_of (map F.fact ours.now) (map F.fact theirs.now) }
{
    let mut ours = ours;
    let mut theirs = theirs;
    'least: while let Some(fact) = take_least_of(&mut ours, &mut theirs) {
        add(kept, fact);
    }
}
